//! A class that is read: what may still belong to a range, and the sets of the rest.

ghost use Rattle.std.specs.Prelude.{◌≡◌, Some, [], ◌∷◌, IfOk, OnOk, option_map};
ghost use Rattle.strkw_regex_grammar.specs.machine.LexerParts.{class_of};
ghost use Rattle.strkw_regex_grammar.specs.machine.Lexemes.{item_char, item_sets, range_sets, keep, kept_if};
ghost use Rattle.strkw_regex_grammar.specs.machine.Lexing.{sets_took, sets_closed, new_class, class_if, with_pending, with_item, with_dash, may_close};

use super::classes::{Item, Pending};
use crate::codes::pair;
use std::alloc::{AllocError, Global};
use std::mem;
use strkw_charset::sets::set_ranges;
use strkw_charset::tree::CharSet;

// Its sets are there where they are kept, and each of them has characters of a text.
#[derive(Drop)]
pub struct Class {
    pub negated: bool,
    pub sets: Option<Vec<CharSet>>,
    pub pending: Pending,
}

impl Item {
    // The character of a text that it is.
    fn as_char(self) -> Option<char>
        ensures { result ≡ item_char self }
    {
        match self {
            Item::Char(c) => Some(c),
            Item::Number(number) => char::from_u32(number),
            _ => None,
        }
    }

    // With its sets, where it has some.
    fn push_to(self, sets: &mut Vec<CharSet>) -> Result<bool, AllocError>
        ensures { IfOk result (λ kept. kept_if kept sets.new.items
            ≡ keep (Some sets.old.items) (item_sets self)) }
    {
        match self {
            Item::Set(letter) => sets.extend_from_slice(set_ranges(letter))?,
            Item::Property(lacked, Some(property)) => sets.push(CharSet::Property(
                lacked, property,
            ))?,
            _ => match self.as_char() {
                Some(c) => sets.push(CharSet::Range(c, c))?,
                None => return Ok(false),
            },
        }
        Ok(true)
    }

    // The range from this to the other, where both are characters of a text.
    fn range(self, other: Item) -> Option<CharSet>
        ensures { option_map (λ set. set ∷ []) result ≡ range_sets self other }
    {
        Some(CharSet::Range(self.as_char()?, other.as_char()?))
    }
}

impl Class {
    pub(super) fn new(alloc: Global, keeps_sets: bool, negated: bool) -> Class
        ensures { class_of result ≡ new_class keeps_sets negated }
    {
        let sets = if keeps_sets {
            Some(Vec::new(alloc))
        } else {
            None
        };
        Class {
            negated,
            sets,
            pending: Pending::Fresh,
        }
    }

    fn keep_item(&mut self, item: Item) -> Result<(), AllocError>
        ensures { let k = class_of self.old in OnOk result
            (class_of self.new ≡ with_pending k (keep k.sets (item_sets item)) k.pending) }
    {
        let Some(mut sets) = mem::replace(&mut self.sets, None) else {
            return Ok(());
        };
        if item.push_to(&mut sets)? {
            self.sets = Some(sets);
        }
        Ok(())
    }

    fn keep_range(&mut self, first: Item, last: Item) -> Result<(), AllocError>
        ensures { let k = class_of self.old in OnOk result
            (class_of self.new ≡ with_pending k (keep k.sets (range_sets first last)) k.pending) }
    {
        let Some(mut sets) = mem::replace(&mut self.sets, None) else {
            return Ok(());
        };
        if let Some(range) = first.range(last) {
            sets.push(range)?;
            self.sets = Some(sets);
        }
        Ok(())
    }

    // With the sets of what the item leaves pending no longer.
    fn keep_before(&mut self, item: Item) -> Result<(), AllocError>
        ensures { let k = class_of self.old in OnOk result
            (class_of self.new ≡ with_pending k (sets_took k.pending item k.sets) k.pending) }
    {
        match (self.pending, item) {
            (Pending::Fresh, _)
            | (Pending::One(Item::Lead(_)), Item::Trail(_))
            | (Pending::Dashed(_), Item::Lead(_)) => Ok(()),
            (Pending::One(before), _) => self.keep_item(before),
            (Pending::Dashed(first), _) => self.keep_range(first, item),
            (Pending::Ranged(first, lead), Item::Trail(trail)) => {
                self.keep_range(first, Item::Number(pair(lead, trail)))
            }
            (Pending::Ranged(..), _) => {
                self.sets = None;
                Ok(())
            }
        }
    }

    // One more item, where a range is in order.
    pub(super) fn add(&mut self, item: Item) -> Result<bool, AllocError>
        ensures { IfOk result (λ added. class_if added (class_of self.new)
            ≡ with_item (class_of self.old) item) }
    {
        let Some(pending) = self.pending.with_item(item) else {
            return Ok(false);
        };
        self.keep_before(item)?;
        self.pending = pending;
        Ok(true)
    }

    // A `-`, which stands for itself where no item is before it.
    pub(super) fn add_dash(&mut self) -> Result<bool, AllocError>
        ensures { IfOk result (λ added. class_if added (class_of self.new)
            ≡ with_dash (class_of self.old)) }
    {
        match self.pending {
            Pending::One(item) => {
                self.pending = Pending::Dashed(item);
                Ok(true)
            }
            _ => self.add(Item::Char('-')),
        }
    }

    pub(super) fn may_close(&self) -> bool
        ensures { result ≡ may_close (class_of self.now).pending }
    {
        self.pending.may_close()
    }

    // All its sets, where they are kept. They are taken out of it.
    pub(super) fn close(&mut self) -> Result<Option<Vec<CharSet>>, AllocError>
        ensures { let k = class_of self.old in IfOk result
            (λ o. option_map (λ sets. sets.items) o ≡ sets_closed k.pending k.sets) }
    {
        match self.pending {
            Pending::Fresh => {}
            Pending::One(item) => self.keep_item(item)?,
            Pending::Dashed(item) => {
                self.keep_item(item)?;
                self.keep_item(Item::Char('-'))?;
            }
            Pending::Ranged(..) => self.sets = None,
        }
        Ok(mem::replace(&mut self.sets, None))
    }
}
