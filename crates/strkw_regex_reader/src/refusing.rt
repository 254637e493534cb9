//! What is told of a pattern that the reader refuses: by the character at which it does, and where that stands.

ghost use Rattle.std.specs.Prelude.{◌≡◌, ◌≤◌, false, IfOk, IfSome, length};
ghost use Rattle.std.specs.Str.{chars};
ghost use Rattle.strkw_charset.specs.machine.PropertyParts.{part_of, expression_of};
ghost use Rattle.strkw_regex_grammar.specs.machine.LexerParts.{class_of, count_of, mode_of};
ghost use Rattle.strkw_regex_reader.specs.Limits.{max_length};
ghost use Rattle.strkw_regex_reader.specs.Refusals.{IsReason};
ghost use Rattle.strkw_regex_reader.specs.machine.BuilderParts.{builder_of, state_of};
ghost use Rattle.strkw_regex_reader.specs.machine.Reading.{initial};
ghost use Rattle.strkw_regex_reader.specs.machine.RefusalParts.{is_surrogate as spec_is_surrogate, has_surrogate as spec_has_surrogate};
ghost use Rattle.strkw_regex_reader.specs.machine.RefusalParts.{escape_refusal, depth_refusal, count_refusal, property_refusal, mode_refusal, char_refusal, refusal_at as spec_refusal_at, refusal_at_end};
ghost use Rattle.strkw_regex_reader.specs.machine.Taken.{takes_pattern};

use crate::builder::{Builder, Last, MAX_NESTING, is_great};
use crate::reader::Reader;
use crate::refusals::{PatternRefusal, Taken};
use std::alloc::{AllocError, Global};
use strkw_charset::properties::PropertyPart;
use strkw_regex_grammar::lexer::Mode;
use strkw_regex_grammar::lexer::class::Class;
use strkw_regex_grammar::lexer::classes::{Item, Pending};
use strkw_regex_grammar::lexer::counting::Count;
use strkw_regex_grammar::lexer::naming::Naming;
use strkw_regex_grammar::null_escape::is_apart;

// Behind a backslash.
fn of_escape(c: char) -> Option<PatternRefusal>
    ensures { result ≡ escape_refusal c }
{
    match c {
        '!'..='#' | '%'..='\'' | ',' | '-' | ':'..='>' | '@' | '_' | '`' | '~' => {
            Some(PatternRefusal::IdentityEscape(c))
        }
        _ => None,
    }
}

// Of a property that is not known.
fn of_property(part: &PropertyPart, c: char) -> Option<PatternRefusal>
    ensures { result ≡ property_refusal (part_of part.now) c }
{
    match part {
        PropertyPart::InBraces(_, expression) if c == '}' && expression.is_unknown() => {
            Some(PatternRefusal::Property)
        }
        _ => None,
    }
}

// Whether an item of a class is a surrogate alone, as far as it is known.
fn is_surrogate(item: Item) -> bool
    ensures { result ≡ spec_is_surrogate item }
{
    match item {
        Item::Lead(_) | Item::Trail(_) => true,
        Item::Number(number) => char::from_u32(number).is_none(),
        _ => false,
    }
}

// Whether a class has one.
fn has_surrogate(class: &Class) -> bool
    ensures { result ≡ spec_has_surrogate (class_of class.now) }
{
    if class.sets.is_none() {
        return true;
    }
    match class.pending {
        Pending::Fresh => false,
        Pending::One(item) | Pending::Dashed(item) => is_surrogate(item),
        Pending::Ranged(..) => true,
    }
}

// Of a count that is too great, as far as it has been read.
fn of_count(count: &Count) -> Option<PatternRefusal>
    ensures { result ≡ count_refusal (count_of count.now) }
{
    match count {
        Count::Low(first) if is_great(first.number) => Some(PatternRefusal::CountTooGreat),
        Count::High(first, last) if is_great(first.number) || is_great(last.number) => {
            Some(PatternRefusal::CountTooGreat)
        }
        _ => None,
    }
}

// Of what is under way, whatever comes next.
fn of_mode(mode: &Mode) -> Option<PatternRefusal>
    ensures { result ≡ mode_refusal (mode_of mode.now) }
{
    match mode {
        Mode::Counting(count) => of_count(count),
        Mode::Referring(_)
        | Mode::Calling
        | Mode::Naming(Naming::Reference, _)
        | Mode::NameEscaping(Naming::Reference, _)
        | Mode::NameCoding(Naming::Reference, _, _) => Some(PatternRefusal::BackReference),
        _ => None,
    }
}

impl Builder {
    // Of one group or lookaround more.
    fn depth_refusal(&self) -> Option<PatternRefusal>
        ensures { result ≡ depth_refusal (builder_of self.now) }
    {
        if self.groups.len() >= MAX_NESTING {
            Some(PatternRefusal::TooDeep)
        } else {
            None
        }
    }
}

impl Reader {
    // Of the next character, if it is refused, by what is under way.
    fn refusal_at(&self, c: char) -> Option<PatternRefusal>
        ensures { result ≡ spec_refusal_at (state_of self.now) c }
    {
        if matches!(self.builder.last, Last::Lead(_)) {
            return None;
        }
        match &self.mode {
            Mode::Escaping => of_escape(c),
            Mode::Opening => self.builder.depth_refusal(),
            mode => of_mode(mode),
        }
    }

    // Of the next character, whatever comes of it.
    fn property_refusal_at(&self, c: char) -> Option<PatternRefusal>
        ensures { result ≡ char_refusal (state_of self.now) c }
    {
        if matches!(self.builder.last, Last::Lead(_)) {
            return None;
        }
        match &self.mode {
            Mode::Property(part) => of_property(part, c),
            Mode::ClassProperty(class, part) if !has_surrogate(class) => of_property(part, c),
            _ => None,
        }
    }

    // Of the end of the text, where what is under way has not ended.
    fn refusal_at_end(&self) -> Option<PatternRefusal>
        ensures { result ≡ refusal_at_end (state_of self.now) }
    {
        match self.builder.last {
            Last::Lead(_) => None,
            _ => of_mode(&self.mode),
        }
    }

    // Why a pattern that this reader, a new one, reads is not taken; `None` where no reason is seen.
    fn refusal_of(
        &mut self,
        alloc: Global,
        source: &str,
    ) -> Result<Option<PatternRefusal>, AllocError>
        requires new { state_of self.old ≡ initial }
        requires short { length (chars source.now) ≤ max_length }
        requires refused { takes_pattern (chars source.now) ≡ false }
        ensures { IfOk result (λ why. IfSome why (IsReason (chars source.now))) }
    {
        for c in source.chars() {
            if let Some(refusal) = self.property_refusal_at(c) {
                return Ok(Some(refusal));
            }
            let refusal = self.refusal_at(c);
            match self.next(alloc, c)? {
                Taken::Takes => {}
                Taken::Refuses(why) => return Ok(refusal.or(why)),
            }
        }
        let refusal = self.refusal_at_end();
        if self.end(alloc)?.is_some() && is_apart(source) {
            return Ok(Some(PatternRefusal::TooLarge));
        }
        Ok(refusal)
    }
}

// Why a pattern of no more characters than may be is not taken; `None` where no reason is seen.
pub fn refusal_of(alloc: Global, source: &str) -> Result<Option<PatternRefusal>, AllocError>
    requires short { length (chars source.now) ≤ max_length }
    requires refused { takes_pattern (chars source.now) ≡ false }
    ensures { IfOk result (λ why. IfSome why (IsReason (chars source.now))) }
{
    let mut reader = Reader::new(alloc);
    reader.refusal_of(alloc, source)
}
