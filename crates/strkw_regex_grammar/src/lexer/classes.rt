//! What stands in a class of characters, item by item: whether its ranges are in order.

ghost use Rattle.std.specs.Prelude.{◌≡◌};
ghost use Rattle.strkw_regex_grammar.specs.machine.CodeMakers.{pair_value as spec_pair_value};
ghost use Rattle.strkw_regex_grammar.specs.machine.Lexemes.{number_item};
ghost use Rattle.strkw_regex_grammar.specs.machine.Lexing.{item_value, is_range as spec_is_range, took, may_close as spec_may_close};
ghost use Rattle.strkw_regex_grammar.specs.machine.Lexing.{took_behind, took_dashed, took_ranged};

use super::numbers::Form;
use crate::codes::pair;
use strkw_charset::properties::Property;

// The set of a letter; the characters with a property, or without it, where there is a table of it; one character,
// written or by its number; or `\u` with a surrogate.
#[derive(Clone, Copy)]
pub enum Item {
    Set(char),
    Property(bool, Option<Property>),
    Char(char),
    Number(u32),
    Lead(u16),
    Trail(u16),
}

// What may still belong to a range: an item, an item and a `-`, or a range up to a leading surrogate, behind which a
// trailing one may come.
#[derive(Clone, Copy)]
pub enum Pending {
    Fresh,
    One(Item),
    Dashed(Item),
    Ranged(Item, u16),
}

impl Item {
    // Of an escape by a number.
    pub(super) fn of_number(form: Form, number: u32) -> Item
        ensures { result ≡ number_item form number }
    {
        match form {
            Form::Unit if 0xD800 <= number && number <= 0xDBFF => Item::Lead(number as u16),
            Form::Unit if 0xDC00 <= number && number <= 0xDFFF => Item::Trail(number as u16),
            _ => Item::Number(number),
        }
    }

    fn value(self) -> Option<u32>
        ensures { result ≡ item_value self }
    {
        match self {
            Item::Set(_) | Item::Property(..) => None,
            Item::Char(c) => Some(u32::from(c)),
            Item::Number(number) => Some(number),
            Item::Lead(number) => Some(u32::from(number)),
            Item::Trail(number) => Some(u32::from(number)),
        }
    }

    // Whether a range may go from this to the other.
    fn is_range(self, last: Item) -> bool
        ensures { result ≡ spec_is_range self last }
    {
        match (self.value(), last.value()) {
            (Some(from), Some(to)) => from <= to,
            _ => false,
        }
    }

    // Behind this item and another.
    fn then(self, item: Item) -> Pending
        ensures { result ≡ took_behind self item }
    {
        match (self, item) {
            (Item::Lead(lead), Item::Trail(trail)) => Pending::One(Item::Number(pair(lead, trail))),
            _ => Pending::One(item),
        }
    }

    // Behind this item, a `-` and another.
    fn range_to(self, item: Item) -> Option<Pending>
        ensures { result ≡ took_dashed self item }
    {
        match item {
            Item::Lead(lead) => Some(Pending::Ranged(self, lead)),
            _ if self.is_range(item) => Some(Pending::Fresh),
            _ => None,
        }
    }

    // Behind a range from this item to a leading surrogate, and another item.
    fn range_to_lead(self, lead: u16, item: Item) -> Option<Pending>
        ensures { result ≡ took_ranged self lead item }
    {
        match item {
            Item::Trail(trail) if self.is_range(Item::Number(pair(lead, trail))) => {
                Some(Pending::Fresh)
            }
            Item::Trail(_) => None,
            _ if self.is_range(Item::Lead(lead)) => Some(Pending::One(item)),
            _ => None,
        }
    }
}

impl Pending {
    // After one more item, where a range is in order.
    pub(super) fn with_item(self, item: Item) -> Option<Pending>
        ensures { result ≡ took self item }
    {
        match self {
            Pending::Fresh => Some(Pending::One(item)),
            Pending::One(before) => Some(before.then(item)),
            Pending::Dashed(first) => first.range_to(item),
            Pending::Ranged(first, lead) => first.range_to_lead(lead, item),
        }
    }

    // Whether the class may end here.
    pub(super) fn may_close(self) -> bool
        ensures { result ≡ spec_may_close self }
    {
        match self {
            Pending::Ranged(first, lead) => first.is_range(Item::Lead(lead)),
            _ => true,
        }
    }
}
