//! How terms, alternatives and groups are put together.

ghost use Rattle.std.specs.Prelude.{◌≡◌, ◌&&◌, true, IfOk};
ghost use Rattle.strkw_regex_core.specs.machine.MarkedPattern.{empty};
ghost use Rattle.strkw_regex_core.specs.machine.Shape.{is_plain, outline_pattern};
ghost use Rattle.strkw_regex_grammar.specs.Codes.{is_scalar, is_trail};
ghost use Rattle.strkw_regex_grammar.specs.machine.CodeMakers.{pair_value};
ghost use Rattle.strkw_regex_grammar.specs.machine.LexerParts.{opening_of};
ghost use Rattle.strkw_regex_reader.specs.Patterns.{one_char as spec_one_char};
ghost use Rattle.strkw_regex_core.specs.machine.Expansion.{expand};
ghost use Rattle.strkw_regex_reader.specs.machine.BuilderParts.{builder_of, built_of, last_of, level_of};
ghost use Rattle.strkw_regex_reader.specs.machine.Building.{atom, none, begin, close, enclose, level_so_far, number_if, open_within, trail_if, whole_level};
ghost use Rattle.strkw_regex_reader.specs.machine.Building.{with_atom, with_bar, with_term};

use super::{Builder, Enclosing, Last, Level, MAX_NESTING, Open};
use crate::outlines::one_char;
use crate::refusals::{PatternRefusal, Taken};
use std::alloc::{AllocError, Global};
use std::mem;
use strkw_regex_core::counted_regex::CountedRegex;
use strkw_regex_grammar::codes::pair;
use strkw_regex_grammar::lexemes::Opening;
use strkw_regex_grammar::lexer::numbers::Form;

impl Level {
    // One more term.
    pub(super) fn add(&mut self, alloc: Global, term: CountedRegex) -> Result<(), AllocError>
        ensures { IfOk result (λ _. level_of self.new
            ≡ level_so_far (level_of self.old) (atom (outline_pattern term))) }
    {
        let before = mem::replace(&mut self.current, CountedRegex::Empty);
        self.current = before.then(alloc, term)?;
        Ok(())
    }

    // The last term, where there is one: no more may follow it.
    fn add_last(&mut self, alloc: Global, last: Last) -> Result<(), AllocError>
        ensures { IfOk result (λ _. level_of self.new
            ≡ level_so_far (level_of self.old) (last_of last)) }
    {
        match last {
            Last::None | Last::Lead(_) => Ok(()),
            Last::Atom(term) => self.add(alloc, term),
            Last::Counted(term) => self.add(alloc, term),
        }
    }

    // All its alternatives, where this is the last term. They are taken out of it.
    pub(super) fn take(&mut self, alloc: Global, last: Last) -> Result<CountedRegex, AllocError>
        ensures whole { IfOk result (λ t. outline_pattern t
            ≡ whole_level (level_of self.old) (last_of last)) }
        ensures emptied { IfOk result (λ _. outline_pattern self.new.current ≡ empty) }
        ensures plain { IfOk result (λ t. is_plain t ≡ true) }
    {
        self.add_last(alloc, last)?;
        let current = mem::replace(&mut self.current, CountedRegex::Empty);
        match mem::replace(&mut self.earlier, None) {
            None => Ok(current),
            Some(one) => one.or(alloc, current),
        }
    }
}

impl Builder {
    pub(super) fn add_atom(&mut self, alloc: Global, atom: CountedRegex) -> Result<(), AllocError>
        ensures { IfOk result (λ _. builder_of self.new
            ≡ with_atom (builder_of self.old) (outline_pattern atom)) }
    {
        let last = mem::replace(&mut self.last, Last::Atom(atom));
        self.level.add_last(alloc, last)
    }

    pub(super) fn add_char(&mut self, alloc: Global, c: char) -> Result<(), AllocError>
        ensures { IfOk result (λ _. builder_of self.new
            ≡ with_atom (builder_of self.old) (expand (spec_one_char c))) }
    {
        self.add_atom(alloc, one_char(alloc, c)?)
    }

    // A term that no quantifier may follow.
    pub(super) fn add_term(&mut self, alloc: Global, term: CountedRegex) -> Result<(), AllocError>
        ensures { IfOk result (λ _. builder_of self.new
            ≡ with_term (builder_of self.old) (outline_pattern term)) }
    {
        let last = mem::replace(&mut self.last, Last::None);
        self.level.add_last(alloc, last)?;
        self.level.add(alloc, term)
    }

    pub(super) fn add_alternative(&mut self, alloc: Global) -> Result<(), AllocError>
        ensures { IfOk result (λ _. builder_of self.new ≡ with_bar (builder_of self.old)) }
    {
        let last = mem::replace(&mut self.last, Last::None);
        let earlier = self.level.take(alloc, last)?;
        self.level.earlier = Some(earlier);
        Ok(())
    }

    // A character by its number, or the leading surrogate of one.
    pub(super) fn take_number(
        &mut self,
        alloc: Global,
        form: Form,
        number: u32,
    ) -> Result<Taken, AllocError>
        ensures { IfOk result (λ taken. built_of taken (builder_of self.new)
            ≡ number_if (builder_of self.old) form number (is_scalar number)) }
    {
        if let Some(c) = char::from_u32(number) {
            self.add_char(alloc, c)?;
            return Ok(Taken::Takes);
        }
        match form {
            Form::Unit if 0xD800 <= number && number <= 0xDBFF => {
                let last = mem::replace(&mut self.last, Last::Lead(number as u16));
                self.level.add_last(alloc, last)?;
                Ok(Taken::Takes)
            }
            _ => Ok(Taken::Refuses(None)),
        }
    }

    // Behind a leading surrogate, `\u` with this number.
    pub(super) fn take_trail(
        &mut self,
        alloc: Global,
        lead: u16,
        number: u32,
    ) -> Result<Taken, AllocError>
        ensures { IfOk result (λ taken. built_of taken (builder_of self.new)
            ≡ trail_if (builder_of self.old) lead number
            (is_trail number && is_scalar (pair_value lead number))) }
    {
        if number < 0xDC00 || 0xDFFF < number {
            return Ok(Taken::Refuses(None));
        }
        match char::from_u32(pair(lead, number as u16)) {
            Some(c) => {
                self.last = Last::Atom(one_char(alloc, c)?);
                Ok(Taken::Takes)
            }
            None => Ok(Taken::Refuses(None)),
        }
    }

    fn open(&mut self, alloc: Global, enclosing: Enclosing) -> Result<Taken, AllocError>
        ensures { IfOk result (λ taken. built_of taken (builder_of self.new)
            ≡ open_within (builder_of self.old) enclosing) }
    {
        if self.groups.len() >= MAX_NESTING {
            return Ok(Taken::Refuses(Some(PatternRefusal::TooDeep)));
        }
        let last = mem::replace(&mut self.last, Last::None);
        self.level.add_last(alloc, last)?;
        let inner = Level {
            earlier: None,
            current: CountedRegex::Empty,
        };
        let level = mem::replace(&mut self.level, inner);
        self.groups.push(Open { enclosing, level })?;
        Ok(Taken::Takes)
    }

    // Behind what opens a group or a lookaround.
    pub(super) fn begin(&mut self, alloc: Global, opening: Opening) -> Result<Taken, AllocError>
        ensures { IfOk result (λ taken. built_of taken (builder_of self.new)
            ≡ begin (builder_of self.old) (opening_of opening)) }
    {
        match opening {
            Opening::Group | Opening::Capture => self.open(alloc, Enclosing::Group),
            Opening::Named(name) => {
                self.names.push(name)?;
                self.open(alloc, Enclosing::Group)
            }
            Opening::Behind(negated) => self.open(alloc, Enclosing::Behind(negated)),
            Opening::Ahead(negated) => self.open(alloc, Enclosing::Ahead(negated)),
        }
    }

    // Behind the end of a group, or of a lookaround, whose body this is. This builder stands before it.
    fn enclose(
        &mut self,
        alloc: Global,
        enclosing: Enclosing,
        body: CountedRegex,
    ) -> Result<(), AllocError>
        ensures { IfOk result (λ _. builder_of self.new
            ≡ enclose (builder_of self.old) enclosing (outline_pattern body)) }
    {
        match enclosing {
            Enclosing::Group => self.add_atom(alloc, body),
            Enclosing::Behind(negated) => self.add_term(
                alloc,
                body.into_lookbehind(alloc, negated)?,
            ),
            Enclosing::Ahead(negated) => self.add_term(alloc, body.into_lookahead(alloc, negated)?),
        }
    }

    pub(super) fn close(&mut self, alloc: Global) -> Result<Taken, AllocError>
        ensures { IfOk result (λ taken. built_of taken (builder_of self.new)
            ≡ close (builder_of self.old)) }
    {
        let last = mem::replace(&mut self.last, Last::None);
        let body = self.level.take(alloc, last)?;
        match self.groups.pop() {
            None => Ok(Taken::Refuses(None)),
            Some(open) => {
                let Open { enclosing, level } = open;
                self.level = level;
                self.enclose(alloc, enclosing, body)?;
                Ok(Taken::Takes)
            }
        }
    }
}
