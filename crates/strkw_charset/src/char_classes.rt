//! The columns of a table: characters about which the classes of a pattern give the same answers share one.

ghost use Rattle.std.specs.Prelude.{◌≡◌, ◌≤◌, ◌<◌, ◌/◌, ◌%◌, ℕ, length, drop, Some, IsTrue, IfSome};
ghost use Rattle.std.specs.Char.{IsScalar};
ghost use Rattle.std.specs.Str.{IsUtf8};
ghost use Rattle.strkw_charset.specs.machine.CharClasses.{answers as spec_answers, place_of as spec_place_of, column_of, AreColumns, ArePages, TellsSets, IsColumnAt};

use crate::pages::{PAGE, cell_of};
use crate::same_sets::are_same_sets;
use crate::tree::{CharSet, contains};

/// The most classes of a pattern that has a table: their answers are the digits of a number.
pub const MOST_CLASSES: usize = 64;

/// The most columns, but for that of the end of the text.
pub const MOST_COLUMNS: usize = 255;

/// Whether the sets of each class have the character, as the digits of a number.
pub fn answers(classes: &[Vec<CharSet>], c: char) -> u64
    requires { length classes.now ≤ 64 }
    ensures { result ≡ spec_answers 0 classes.now c }
{
    let mut answers = 0u64;
    for class in classes {
        answers = 2 * answers + u64::from(contains(class, c));
    }
    answers
}

/// The place of a number.
pub(crate) fn place_of(keys: &[u64], key: u64) -> Option<usize>
    ensures place { result ≡ spec_place_of keys.now key }
    ensures within { IfSome result (λ k. k < length keys.now) }
{
    for (place, known) in keys.iter().enumerate() {
        if *known == key {
            return Some(place);
        }
    }
    None
}

/// The classes that are asked about a character, the answers that have a column, in the order of the columns, the
/// columns of the characters that are one byte, and the pages with the columns of all.
#[derive(Drop)]
pub struct CharClasses {
    pub classes: Vec<Vec<CharSet>>,
    pub keys: Vec<u64>,
    pub ascii: Vec<u8>,
    pub pages: Vec<u16>,
    pub cells: Vec<[u8; PAGE]>,
    ghost few: { length classes.items ≤ 64 },
    ghost few_columns: { length keys.items < 256 },
    ghost few_ascii: { length ascii.items ≤ 128 },
    ghost right_ascii: { AreColumns classes.items keys.items ascii.items },
    ghost all_pages: { length pages.items ≡ 17408 },
    ghost right_pages: { ArePages classes.items keys.items pages.items cells.items },
}

impl CharClasses {
    /// The column of a character.
    pub fn column(&self, c: char) -> usize
        ensures column { column_of self.now.classes.items self.now.keys.items c ≡ Some result }
        ensures within { result < 256 }
    {
        usize::from(cell_of(&self.pages, &self.cells, u32::from(c)))
    }

    /// The column of the character at a place of a text, and how many bytes the character has. Each byte behind the
    /// first bears six bits, as many as tell a cell: so the last tells the cell, and the others the page. Inlined, a
    /// loop over a text looks up the next column while it waits for a row.
    #[inline(always)]
    pub fn column_at(&self, text: &[u8], place: usize) -> (usize, usize)
        requires within { place < length text.now }
        requires utf8 { IsUtf8 (drop place text.now) }
        ensures { IsColumnAt self.now.classes.items self.now.keys.items text.now place
            result.0 result.1 }
    {
        let first = usize::from(text[place]);
        if first < 0x80 {
            return (self.column_in(first / PAGE, text[place]), 1);
        }
        if first < 0xE0 {
            return (self.column_in(first % 32, text[place + 1]), 2);
        }
        let second = usize::from(text[place + 1]) % 64;
        if first < 0xF0 {
            return (self.column_in(first % 16 * 64 + second, text[place + 2]), 3);
        }
        let high = first % 8 * 64 + second;
        let third = usize::from(text[place + 2]) % 64;
        (self.column_in(high * 64 + third, text[place + 3]), 4)
    }

    // The column of the character of a page whose last byte is this.
    #[inline(always)]
    fn column_in(&self, page: usize, last: u8) -> usize
        requires { page < 17408 }
        ensures { (c : ℕ) → IsScalar c → c / 64 ≡ page → c % 64 ≡ last % 64
            → column_of self.now.classes.items self.now.keys.items c ≡ Some result }
    {
        let cells = &self.cells[usize::from(self.pages[page])];
        usize::from(cells[usize::from(last) % PAGE])
    }
}

/// Whether these sets are those of some class.
pub fn tells_sets(classes: &[Vec<CharSet>], sets: &[CharSet]) -> bool
    ensures { IsTrue result → TellsSets classes.now sets.now }
{
    for class in classes {
        if are_same_sets(class, sets) {
            return true;
        }
    }
    false
}
