//! How a property is read, in a pattern and in a class.

ghost use Rattle.std.specs.Prelude.{◌≡◌, IfOk};
ghost use Rattle.strkw_charset.specs.Properties.{property_of};
ghost use Rattle.strkw_charset.specs.machine.PropertyReading.{property_next};
ghost use Rattle.strkw_charset.specs.machine.PropertyParts.{part_of, expression_of};
ghost use Rattle.strkw_regex_grammar.specs.Regex.{is_property, is_tableless as spec_is_tableless};
ghost use Rattle.strkw_regex_grammar.specs.machine.LexerParts.{class_of, lexed_of, mode_of};
ghost use Rattle.strkw_regex_grammar.specs.machine.Lexing.{known_if, on_property, on_class_property};

use super::Mode;
use super::class::Class;
use super::classes::Item;
use crate::lexemes::{Lexed, Lexeme};
use std::alloc::{AllocError, Global};
use strkw_charset::properties::{Expression, Property, PropertyPart, PropertyRead};

// Whether it is the property of the standard that the engine has no table of.
fn is_tableless(expression: &Expression) -> bool
    ensures { result ≡ spec_is_tableless (expression_of expression.now) }
{
    match expression {
        Expression::Alone(name) => {
            let name = name.as_slice();
            name == b"Changes_When_NFKC_Casefolded".as_slice() || name == b"CWKCF".as_slice()
        }
        Expression::Valued(..) => false,
    }
}

// A property that the standard has, and of these `None` where there is no table of it.
fn known(expression: &Expression) -> Option<Option<Property>>
    ensures { let e = expression_of expression.now in
        result ≡ known_if (is_property e) (property_of e) }
{
    let property = expression.property();
    if property.is_some() || is_tableless(expression) {
        Some(property)
    } else {
        None
    }
}

impl Mode {
    pub(super) fn take_in_property(
        &mut self,
        alloc: Global,
        part: PropertyPart,
        c: char,
    ) -> Result<Lexed, AllocError>
        ensures { IfOk result (λ lexed. lexed_of lexed (mode_of self.new)
            ≡ on_property (property_next (part_of part) c)) }
    {
        match part.next(alloc, c)? {
            PropertyRead::Fails => Ok(Lexed::Fails),
            PropertyRead::Goes(part) => Ok(self.go(Mode::Property(part))),
            PropertyRead::Ends(lacked, expression) => match known(&expression) {
                Some(property) => Ok(self.make(Lexeme::Property(lacked, property))),
                None => Ok(Lexed::Fails),
            },
        }
    }

    pub(super) fn take_in_class_property(
        &mut self,
        alloc: Global,
        class: Class,
        part: PropertyPart,
        c: char,
    ) -> Result<Lexed, AllocError>
        ensures { IfOk result (λ lexed. lexed_of lexed (mode_of self.new)
            ≡ on_class_property (class_of class) (property_next (part_of part) c)) }
    {
        match part.next(alloc, c)? {
            PropertyRead::Fails => Ok(Lexed::Fails),
            PropertyRead::Goes(part) => Ok(self.go(Mode::ClassProperty(class, part))),
            PropertyRead::Ends(lacked, expression) => match known(&expression) {
                Some(property) => self.add_item(class, Item::Property(lacked, property)),
                None => Ok(Lexed::Fails),
            },
        }
    }
}
