//! The search by a chain. The length of a text tells how often the one class is read, and so which class each character
//! is to be of. However great a count is, each character is looked at once.

ghost use Rattle.std.specs.Prelude.{◌≡◌, ◌+◌, ◌-◌, ◌&&◌, List, true, false, nat_le, length, MatchOption};
ghost use Rattle.std.specs.Str.{chars, IsAscii};
ghost use Rattle.strkw_ecma.specs.machine.Chains.{ends_of, is_chained, is_often};
ghost use Rattle.strkw_ecma.specs.machine.Links.{AreTables};
ghost use Rattle.strkw_regex_search.specs.declared.code.Class.{Class};

use crate::links::{FixedSequence, Often, are_of, begin_with, read_each, read_some};
use strkw_regex_search::along::{Along, char_count};
use strkw_regex_search::code::Class;

impl Often {
    fn takes(self, count: usize) -> bool
        ensures { result ≡ is_often self count }
    {
        match self {
            Often::AtMost(most) => count <= most,
            Often::AnyTimes => true,
            Often::SomeTimes => 1 <= count,
        }
    }
}

impl FixedSequence {
    // How often the one class is read in a text of so many characters; none where it may not be.
    fn middle_count(&self, length: usize) -> Option<usize>
        ensures { MatchOption result
            ((nat_le (ends_of self.now) length
            && is_often self.now.often (length - ends_of self.now)) ≡ false)
            (λ count. (count + ends_of self.now ≡ length)
            × (is_often self.now.often count ≡ true)) }
    {
        let count = length
            .checked_sub(self.first.len())?
            .checked_sub(self.last.len())?;
        if self.often.takes(count) {
            Some(count)
        } else {
            None
        }
    }

    /// Whether a text of ASCII is one character of each class. Inlined, its loops would lack registers in some callers.
    #[inline(never)]
    pub(crate) fn is_found_in_ascii(&self, text: &str) -> bool
        requires { IsAscii text.now }
        ensures { (classes : List Class) → AreTables classes self.now.tables.items
            → result ≡ is_chained classes self.now (chars text.now) }
    {
        let Some(count) = self.middle_count(text.len()) else {
            return false;
        };
        let bytes = text.as_bytes();
        let behind = &bytes[self.first.len()..];
        if !begin_with(&self.tables, &self.first, bytes) {
            return false;
        }
        if !are_of(&self.tables, self.middle, &behind[..count]) {
            return false;
        }
        begin_with(&self.tables, &self.last, &behind[count..])
    }

    /// The same of any text, with the classes of the program.
    pub(crate) fn is_found(&self, classes: &[Class], text: &str) -> bool
        ensures { result ≡ is_chained classes.now self.now (chars text.now) }
    {
        let Some(count) = self.middle_count(char_count(text)) else {
            return false;
        };
        let mut left = Along::new(text, false);
        if !read_each(classes, &self.first, &mut left) {
            return false;
        }
        if !read_some(classes, self.middle, count, &mut left) {
            return false;
        }
        read_each(classes, &self.last, &mut left)
    }
}
