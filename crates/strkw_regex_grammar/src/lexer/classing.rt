//! How a class is read, behind `[`.

ghost use Rattle.std.specs.Prelude.{◌≡◌, ◌==◌, IfOk};
ghost use Rattle.std.specs.Str.{byte};
ghost use Rattle.strkw_regex_grammar.specs.Classes.{class_token as spec_class_token, class_escape as spec_class_escape};
ghost use Rattle.strkw_regex_grammar.specs.machine.LexerParts.{class_of, lexed_of, mode_of};
ghost use Rattle.strkw_regex_grammar.specs.machine.Lexing.{within, with_item, with_dash, closed_class, on_class_token, on_class_escape, on_class_number, on_bracket};
ghost use Rattle.strkw_regex_grammar.specs.machine.NumberReading.{number_next};

use super::Mode;
use super::class::Class;
use super::classes::Item;
use super::numbers::{Form, NumberPart, NumberRead};
use crate::codes::Wanted;
use crate::lexemes::{Lexed, Lexeme};
use crate::tokens::{ClassToken, Escape};
use std::alloc::{AllocError, Global};
use strkw_charset::properties::PropertyPart;
use strkw_charset::sets::control_char;

impl Mode {
    pub(super) fn add_item(&mut self, class: Class, item: Item) -> Result<Lexed, AllocError>
        ensures { IfOk result (λ lexed. lexed_of lexed (mode_of self.new)
            ≡ within (with_item (class_of class) item)) }
    {
        let mut class = class;
        if class.add(item)? {
            Ok(self.go(Mode::InClass(class)))
        } else {
            Ok(Lexed::Fails)
        }
    }

    fn add_dash(&mut self, class: Class) -> Result<Lexed, AllocError>
        ensures { IfOk result (λ lexed. lexed_of lexed (mode_of self.new)
            ≡ within (with_dash (class_of class))) }
    {
        let mut class = class;
        if class.add_dash()? {
            Ok(self.go(Mode::InClass(class)))
        } else {
            Ok(Lexed::Fails)
        }
    }

    // Behind the closing bracket.
    fn close_class(&mut self, class: Class) -> Result<Lexed, AllocError>
        ensures { IfOk result (λ lexed. lexed_of lexed (mode_of self.new)
            ≡ closed_class (class_of class)) }
    {
        if !class.may_close() {
            return Ok(Lexed::Fails);
        }
        let mut class = class;
        let negated = class.negated;
        let sets = class.close()?;
        Ok(self.make(Lexeme::Class(negated, sets)))
    }

    pub(super) fn take_class_char(&mut self, class: Class, c: char) -> Result<Lexed, AllocError>
        ensures { IfOk result (λ lexed. lexed_of lexed (mode_of self.new)
            ≡ on_class_token (class_of class) c (spec_class_token c)) }
    {
        match ClassToken::of(c) {
            ClassToken::Closing => self.close_class(class),
            ClassToken::Backslash => Ok(self.go(Mode::ClassEscaping(class))),
            ClassToken::Dash => self.add_dash(class),
            ClassToken::Character => self.add_item(class, Item::Char(c)),
        }
    }

    pub(super) fn take_class_escape(&mut self, class: Class, c: char) -> Result<Lexed, AllocError>
        ensures { IfOk result (λ lexed. lexed_of lexed (mode_of self.new)
            ≡ on_class_escape (class_of class) c (spec_class_escape c)) }
    {
        let mode = match Escape::of_class(c) {
            Escape::Itself => return self.add_item(class, Item::Char(c)),
            Escape::Control => return self.add_item(class, Item::Char(control_char(c))),
            Escape::Set => return self.add_item(class, Item::Set(c)),
            Escape::Boundary => return self.add_item(class, Item::Char('\u{8}')),
            Escape::Null => return self.add_item(class, Item::Number(0)),
            Escape::Letter => Mode::ClassNumbering(class, NumberPart::Letter),
            Escape::Hexadecimal => {
                Mode::ClassNumbering(class, NumberPart::Digits(Form::Other, Wanted::Two, 0))
            }
            Escape::Unicode => Mode::ClassNumbering(class, NumberPart::UnitOpened),
            Escape::Property => Mode::ClassProperty(class, PropertyPart::BraceAwaited(false)),
            Escape::NoProperty => Mode::ClassProperty(class, PropertyPart::BraceAwaited(true)),
            Escape::NoBoundary | Escape::Unknown => return Ok(Lexed::Fails),
        };
        Ok(self.go(mode))
    }

    pub(super) fn class_number(
        &mut self,
        class: Class,
        part: NumberPart,
        c: char,
    ) -> Result<Lexed, AllocError>
        ensures { IfOk result (λ lexed. lexed_of lexed (mode_of self.new)
            ≡ on_class_number (class_of class) (number_next part c)) }
    {
        match part.next(c) {
            NumberRead::Fails => Ok(Lexed::Fails),
            NumberRead::Goes(part) => Ok(self.go(Mode::ClassNumbering(class, part))),
            NumberRead::Makes(form, number) => self.add_item(class, Item::of_number(form, number)),
        }
    }

    // Behind `[`.
    pub(super) fn take_in_bracket(
        &mut self,
        alloc: Global,
        keeps_sets: bool,
        c: char,
    ) -> Result<Lexed, AllocError>
        ensures { IfOk result (λ lexed. lexed_of lexed (mode_of self.new)
            ≡ on_bracket keeps_sets c (c == byte "^")) }
    {
        if c == '^' {
            let class = Class::new(alloc, keeps_sets, true);
            Ok(self.go(Mode::InClass(class)))
        } else {
            self.take_class_char(Class::new(alloc, keeps_sets, false), c)
        }
    }
}
