//! The search by a table: one look at it for each character.

ghost use Rattle.std.specs.Prelude.{◌≡◌, ◌+◌, ◌<◌, ◌==◌, true, false, Some, length, IsTrue, IfSome, MatchOption};
ghost use Rattle.std.specs.Str.{chars};
ghost use Rattle.strkw_regex_core.specs.machine.Mirror.{along};
ghost use Rattle.strkw_charset.specs.machine.CharClasses.{column_of};
ghost use Rattle.strkw_ecma.specs.machine.Dfa.{walk, found_row, entry_at, row_after, AreInside};

use strkw_charset::char_classes::CharClasses;
use strkw_regex_search::along::Along;

/// The entry that says that the pattern is found.
pub(crate) const FOUND: usize = 0xFFFF;

/// The entry that leads to the row behind its own. Another is the place of a row, and the processor looks up the next
/// entry once it has this one; where it guesses that this one leads to the row behind, it need not wait.
pub(crate) const NEXT_ROW: usize = 0xFFFE;

/// Whether each entry leads to a row that is there, where it leads to one. The last column has the number `end`.
pub(crate) fn are_inside(entries: &[u16], end: usize) -> bool
    requires few { end < 256 }
    ensures { IsTrue result → AreInside end entries.now }
{
    for (place, entry) in entries.iter().enumerate() {
        // Where the row ends that it leads to, from whichever row has it.
        let last = match usize::from(*entry) {
            FOUND => end,
            NEXT_ROW => place + 2 * end + 1,
            row => row + end,
        };
        if last >= entries.len() {
            return false;
        }
    }
    end < entries.len()
}

/// The table of a pattern. `table_of` makes it.
#[derive(Drop)]
pub(crate) struct Dfa {
    pub(crate) columns: CharClasses,
    pub(crate) entries: Vec<u16>,
    ghost inside: { AreInside (length columns.keys.items) entries.items },
}

/// The entries of a table and the number of the last column, which a search has at hand at each character.
#[derive(Clone, Copy)]
struct Rows<'a> {
    entries: &'a [u16],
    end: usize,
}

impl Rows<'_> {
    // The row behind a character of this column; none where the pattern is found. The entries are taken from the column
    // on first, since the row is known last.
    #[inline(always)]
    fn next_row(self, row: usize, column: usize) -> Option<usize>
        requires all { AreInside self.end self.entries.now }
        requires row { row + self.end < length self.entries.now }
        requires column { column < self.end }
        ensures leads { MatchOption result (entry_at self.entry.entries.now row column ≡ found_row)
            (λ to. (to ≡ row_after self.entry.end row (entry_at self.entry.entries.now row column))
            × ((entry_at self.entry.entries.now row column == found_row) ≡ false)) }
        ensures inside { IfSome result (λ to. to + self.entry.end < length self.entry.entries.now) }
    {
        let entry = usize::from(self.entries[column..][row]);
        if entry < NEXT_ROW {
            Some(entry)
        } else if entry == NEXT_ROW {
            Some(row + (self.end + 1))
        } else {
            None
        }
    }

    // Whether the pattern is found at the end of a text, in the row of its last character.
    #[inline(always)]
    fn is_found_at_end(self, row: usize) -> bool
        requires { row + self.end < length self.entries.now }
        ensures { result ≡ (entry_at self.entry.entries.now row self.entry.end == found_row) }
    {
        usize::from(self.entries[row + self.end]) == FOUND
    }
}

impl Dfa {
    #[inline(always)]
    fn rows(&self) -> Rows<'_>
        ensures entries { result.entries.now ≡ self.now.entries.items }
        ensures end { result.end ≡ length self.now.columns.keys.items }
        ensures all { AreInside result.end result.entries.now }
    {
        Rows {
            entries: &self.entries,
            end: self.columns.keys.len(),
        }
    }

    /// Whether the pattern is found in the text. Inlined, its loop would lie across a border of 32 bytes in some
    /// callers, where each turn takes twice as long.
    #[inline(never)]
    fn is_found(&self, text: &str) -> bool
        ensures { Some result
            ≡ walk (column_of self.now.columns.classes.items self.now.columns.keys.items)
            (length self.now.columns.keys.items) self.now.entries.items 0 (chars text.now) }
    {
        let columns = self.columns.ascii.as_slice();
        let rows = self.rows();
        let mut row = 0;
        for (place, byte) in text.as_bytes().iter().enumerate() {
            let Some(column) = columns.get(usize::from(*byte)) else {
                return self.is_found_behind(row, &text[place..]);
            };
            let Some(next) = rows.next_row(row, usize::from(*column)) else {
                return true;
            };
            row = next;
        }
        rows.is_found_at_end(row)
    }

    // The same for what is left of a text, from a row on, where a character may have several bytes.
    #[inline(never)]
    fn is_found_behind(&self, row: usize, left: &str) -> bool
        requires { row + length self.now.columns.keys.items < length self.now.entries.items }
        ensures { Some result
            ≡ walk (column_of self.now.columns.classes.items self.now.columns.keys.items)
            (length self.now.columns.keys.items) self.now.entries.items row (chars left.now) }
    {
        let bytes = left.as_bytes();
        let rows = self.rows();
        let mut row = row;
        let mut place = 0;
        'characters: while place < bytes.len() {
            let (column, width) = self.columns.column_at(bytes, place);
            let Some(next) = rows.next_row(row, column) else {
                return true;
            };
            row = next;
            place += width;
        }
        rows.is_found_at_end(row)
    }

    /// Whether it is found in the text, or where it is looked for backward, in the text turned round.
    pub(crate) fn is_found_along(&self, text: &str, is_backward: bool) -> bool
        ensures { Some result
            ≡ walk (column_of self.now.columns.classes.items self.now.columns.keys.items)
            (length self.now.columns.keys.items) self.now.entries.items 0
            (along is_backward (chars text.now)) }
    {
        if is_backward {
            return self.is_found_back(text);
        }
        self.is_found(text)
    }

    // The same from the end of a text on.
    fn is_found_back(&self, text: &str) -> bool
        ensures { Some result
            ≡ walk (column_of self.now.columns.classes.items self.now.columns.keys.items)
            (length self.now.columns.keys.items) self.now.entries.items 0
            (along true (chars text.now)) }
    {
        let rows = self.rows();
        let mut row = 0;
        let mut left = Along::new(text, true);
        'characters: while let Some(c) = left.next() {
            let Some(next) = rows.next_row(row, self.columns.column(c)) else {
                return true;
            };
            row = next;
        }
        rows.is_found_at_end(row)
    }
}
