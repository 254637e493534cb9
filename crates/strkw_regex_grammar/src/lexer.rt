//! The lexer of patterns of the whole grammar: one character at a time, with no tree, and nothing known of what stands
//! around a part.

ghost use Rattle.std.specs.Prelude.{◌≡◌, ◌==◌, IfOk};
ghost use Rattle.std.specs.Str.{byte};
ghost use Rattle.strkw_regex_grammar.specs.Syntax.{token as spec_token};
ghost use Rattle.strkw_regex_grammar.specs.Names.{extension as spec_extension};
ghost use Rattle.strkw_regex_grammar.specs.Escapes.{escape as spec_escape};
ghost use Rattle.strkw_regex_grammar.specs.Numbers.{is_digit};
ghost use Rattle.strkw_regex_grammar.specs.machine.LexerParts.{lexed_of, lexeme_of, mode_of};
ghost use Rattle.strkw_regex_grammar.specs.machine.Lexing.{between, whole, under_way, on_token, on_reference, on_escape, on_number, on_referring, on_group, on_extension, on_calling, lex_next};
ghost use Rattle.strkw_regex_grammar.specs.machine.NumberReading.{number_next};

pub mod class;
pub mod classes;
mod classing;
pub mod counting;
pub mod digits;
pub mod naming;
pub mod numbers;
mod property;

use crate::codes::{Coding, Wanted};
use crate::lexemes::{Before, Bounds, Lexed, Lexeme, Opening};
use crate::tokens::{Edge, Escape, Extension, Token};
use class::Class;
use counting::Count;
use digits::{Digits, with_digit};
use naming::Naming;
use numbers::{Form, NumberPart, NumberRead};
use std::alloc::{AllocError, Global};
use std::mem;
use strkw_charset::properties::PropertyPart;
use strkw_charset::sets::control_char;

// What has just been read: a whole part; a backslash; `(`; `(?`; `[`; `\k`; a piece of a count, of an escape by a
// number, of a class, and there a backslash, and a piece of such an escape; a piece of a property, and of one in a
// class; a piece of a name, and there a backslash and a piece of an escape; a back reference by a number.
#[derive(Drop)]
pub enum Mode {
    Between,
    Escaping,
    Opening,
    Extending,
    ClassOpened,
    Calling,
    Counting(Count),
    Numbering(NumberPart),
    InClass(Class),
    ClassEscaping(Class),
    ClassNumbering(Class, NumberPart),
    Property(PropertyPart),
    ClassProperty(Class, PropertyPart),
    Naming(Naming, Vec<char>),
    NameEscaping(Naming, Vec<char>),
    NameCoding(Naming, Vec<char>, Coding),
    Referring(u32),
}

impl Mode {
    // With a part under way.
    pub(crate) fn go(&mut self, mode: Mode) -> Lexed
        ensures { lexed_of result (mode_of self.new) ≡ under_way (mode_of mode) }
    {
        *self = mode;
        Lexed::Goes
    }

    // With a whole part.
    pub(crate) fn make(&mut self, lexeme: Lexeme) -> Lexed
        ensures { lexed_of result (mode_of self.new) ≡ whole (lexeme_of lexeme) }
    {
        *self = Mode::Between;
        Lexed::Makes(lexeme)
    }

    // Behind a backslash, a back reference begins.
    fn take_reference(&mut self, c: char) -> Lexed
        ensures { lexed_of result (mode_of self.new) ≡ on_reference c }
    {
        match c {
            '0'..='9' => self.go(Mode::Referring(u32::from(c).saturating_sub(u32::from('0')))),
            'k' => self.go(Mode::Calling),
            _ => Lexed::Fails,
        }
    }

    fn take_escape(&mut self, c: char) -> Lexed
        ensures { lexed_of result (mode_of self.new) ≡ on_escape c (spec_escape c) }
    {
        match Escape::of(c) {
            Escape::Boundary => self.make(Lexeme::Edge(Edge::Boundary)),
            Escape::NoBoundary => self.make(Lexeme::Edge(Edge::NoBoundary)),
            Escape::Itself => self.make(Lexeme::Char(c)),
            Escape::Control => self.make(Lexeme::Char(control_char(c))),
            Escape::Set => self.make(Lexeme::Set(c)),
            Escape::Null => self.make(Lexeme::Number(Form::Other, 0)),
            Escape::Letter => self.go(Mode::Numbering(NumberPart::Letter)),
            Escape::Hexadecimal => {
                self.go(Mode::Numbering(NumberPart::Digits(Form::Other, Wanted::Two, 0)))
            }
            Escape::Unicode => self.go(Mode::Numbering(NumberPart::UnitOpened)),
            Escape::Property => self.go(Mode::Property(PropertyPart::BraceAwaited(false))),
            Escape::NoProperty => self.go(Mode::Property(PropertyPart::BraceAwaited(true))),
            Escape::Unknown => self.take_reference(c),
        }
    }

    // Between parts.
    fn take_char(&mut self, alloc: Global, c: char) -> Lexed
        requires { mode_of self.old ≡ between }
        ensures { lexed_of result (mode_of self.new) ≡ on_token c (spec_token c) }
    {
        *self = match Token::of(c) {
            Token::Bar => return Lexed::Makes(Lexeme::Bar),
            Token::Asterisk => return Lexed::Makes(Lexeme::Repeats(Bounds::ZeroOrMore)),
            Token::Plus => return Lexed::Makes(Lexeme::Repeats(Bounds::OneOrMore)),
            Token::Question => return Lexed::Makes(Lexeme::Question),
            Token::Caret => return Lexed::Makes(Lexeme::Edge(Edge::Start)),
            Token::Dollar => return Lexed::Makes(Lexeme::Edge(Edge::End)),
            Token::Closing => return Lexed::Makes(Lexeme::Ends),
            Token::Point => return Lexed::Makes(Lexeme::Dot),
            Token::Character => return Lexed::Makes(Lexeme::Char(c)),
            Token::Other => return Lexed::Fails,
            Token::Opening => Mode::Opening,
            Token::Backslash => Mode::Escaping,
            Token::Brace => Mode::Counting(Count::Low(Digits::new(alloc))),
            Token::Bracket => Mode::ClassOpened,
        };
        Lexed::Goes
    }

    // In a back reference by a number, which is held at the greatest.
    fn take_in_reference(&mut self, alloc: Global, number: u32, c: char) -> Lexed
        requires { mode_of self.old ≡ between }
        ensures { lexed_of result (mode_of self.new) ≡ on_referring number c (is_digit c) }
    {
        if matches!(c, '0'..='9') {
            return self.go(Mode::Referring(with_digit(number, c)));
        }
        self.take_char(alloc, c).behind(Before::Reference(number))
    }

    fn take_number(&mut self, read: NumberRead) -> Lexed
        ensures { lexed_of result (mode_of self.new) ≡ on_number read }
    {
        match read {
            NumberRead::Fails => Lexed::Fails,
            NumberRead::Goes(part) => self.go(Mode::Numbering(part)),
            NumberRead::Makes(form, number) => self.make(Lexeme::Number(form, number)),
        }
    }

    // Behind `(`.
    fn take_in_group(&mut self, alloc: Global, c: char) -> Lexed
        requires { mode_of self.old ≡ between }
        ensures { lexed_of result (mode_of self.new) ≡ on_group c (c == byte "?") }
    {
        if c == '?' {
            return self.go(Mode::Extending);
        }
        self.take_char(alloc, c).behind(Before::Capture)
    }

    // Behind `(?`.
    fn take_extension(&mut self, alloc: Global, c: char) -> Lexed
        ensures { lexed_of result (mode_of self.new) ≡ on_extension (spec_extension c) }
    {
        match Extension::of(c) {
            Extension::Uncaptured => self.make(Lexeme::Begins(Opening::Group)),
            Extension::NameOpening => self.go(Mode::Naming(Naming::Group, Vec::new(alloc))),
            Extension::Equals => self.make(Lexeme::Begins(Opening::Ahead(false))),
            Extension::Exclamation => self.make(Lexeme::Begins(Opening::Ahead(true))),
            Extension::Unknown => Lexed::Fails,
        }
    }

    // Behind `\k`.
    fn take_call(&mut self, alloc: Global, c: char) -> Lexed
        ensures { lexed_of result (mode_of self.new) ≡ on_calling (c == byte "<") }
    {
        if c != '<' {
            return Lexed::Fails;
        }
        self.go(Mode::Naming(Naming::Reference, Vec::new(alloc)))
    }

    // Within a part. Apart from `next`, since between parts none of what is held here is needed.
    fn next_within(&mut self, alloc: Global, keeps_sets: bool, c: char) -> Result<Lexed, AllocError>
        ensures { IfOk result (λ lexed. lexed_of lexed (mode_of self.new)
            ≡ lex_next keeps_sets (mode_of self.old) c) }
    {
        match mem::replace(self, Mode::Between) {
            Mode::Between => Ok(self.take_char(alloc, c)),
            Mode::Escaping => Ok(self.take_escape(c)),
            Mode::Opening => Ok(self.take_in_group(alloc, c)),
            Mode::Extending => Ok(self.take_extension(alloc, c)),
            Mode::ClassOpened => self.take_in_bracket(alloc, keeps_sets, c),
            Mode::Calling => Ok(self.take_call(alloc, c)),
            Mode::Counting(Count::Low(first)) => self.take_in_count(alloc, first, c),
            Mode::Counting(Count::High(first, second)) => self.take_in_range(first, second, c),
            Mode::Numbering(part) => Ok(self.take_number(part.next(c))),
            Mode::InClass(class) => self.take_class_char(class, c),
            Mode::ClassEscaping(class) => self.take_class_escape(class, c),
            Mode::ClassNumbering(class, part) => self.class_number(class, part, c),
            Mode::Property(part) => self.take_in_property(alloc, part, c),
            Mode::ClassProperty(class, part) => self.take_in_class_property(alloc, class, part, c),
            Mode::Naming(naming, name) => self.take_in_name(naming, name, c),
            Mode::NameEscaping(naming, name) => Ok(self.take_name_escape(naming, name, c)),
            Mode::NameCoding(naming, name, coding) => self.take_name_code(
                naming,
                name,
                coding.next(c),
            ),
            Mode::Referring(number) => Ok(self.take_in_reference(alloc, number, c)),
        }
    }

    /// What comes of one more character. Where it may not stand there, or out of memory, this lexer is of no more use.
    /// The sets of classes are kept where they are asked for.
    pub fn next(&mut self, alloc: Global, keeps_sets: bool, c: char) -> Result<Lexed, AllocError>
        ensures { IfOk result (λ lexed. lexed_of lexed (mode_of self.new)
            ≡ lex_next keeps_sets (mode_of self.old) c) }
    {
        if matches!(self, Mode::Between) {
            Ok(self.take_char(alloc, c))
        } else {
            self.next_within(alloc, keeps_sets, c)
        }
    }
}
