//! What a chain has, and how its classes are looked up. A chain is `^`, classes that are read once each, one class that
//! may be read more often or not at all, classes that are read once each, and `$`.

ghost use Rattle.std.specs.Prelude.{◌≡◌, ◌<◌, List, true, length, drop, replicate, slice_get, Some, IsTrue};
ghost use Rattle.std.specs.Str.{IsAscii};
ghost use Rattle.strkw_regex_search.specs.machine.Along.{left_of};
ghost use Rattle.strkw_ecma.specs.machine.Links.{are_below, AreTables, begins_with};
ghost use Rattle.strkw_regex_search.specs.machine.Machine.{class_reads};
ghost use Rattle.strkw_regex_search.specs.declared.code.Class.{Class};

use strkw_regex_core::marks::reads_class;
use strkw_regex_search::along::Along;
use strkw_regex_search::code::Class;

/// For each byte whether it is a character of ASCII that a class has.
pub(crate) type ClassTable = [bool; 256];

/// How often the one class of a chain may be read.
#[derive(Clone, Copy)]
pub(crate) enum Often {
    AtMost(usize),
    AnyTimes,
    SomeTimes,
}

/// A chain. `FixedSequence::of` makes it of a program, whose classes it names by their numbers.
#[derive(Drop)]
pub(crate) struct FixedSequence {
    /// The classes that are read once each before the one class.
    pub(crate) first: Vec<usize>,
    /// The one class, and how often it may be read.
    pub(crate) middle: usize,
    pub(crate) often: Often,
    /// Those that are read once each behind it.
    pub(crate) last: Vec<usize>,
    /// The tables of all classes of the program.
    pub(crate) tables: Vec<ClassTable>,
    ghost first_below: { are_below (length tables.items) first.items ≡ true },
    ghost middle_below: { middle < length tables.items },
    ghost last_below: { are_below (length tables.items) last.items ≡ true },
}

// Whether the class of this number has a character of ASCII.
#[inline(always)]
fn has_byte(tables: &[ClassTable], number: usize, byte: u8) -> bool
    requires number { number < length tables.now }
    requires ascii { byte < 128 }
    ensures { (classes : List Class) → AreTables classes tables.now
        → result ≡ class_reads (Some byte) (slice_get classes number) }
{
    tables[number][usize::from(byte)]
}

// Whether four classes have four characters of ASCII, one each. No look-up waits for the answer of another.
#[inline(always)]
fn have_four(tables: &[ClassTable], numbers: &[usize; 4], bytes: &[u8; 4]) -> bool
    requires numbers { are_below (length tables.now) numbers.now ≡ true }
    requires ascii { IsAscii bytes.now }
    ensures { (classes : List Class) → AreTables classes tables.now
        → result ≡ begins_with classes numbers.now bytes.now }
{
    has_byte(tables, numbers[0], bytes[0])
        & has_byte(tables, numbers[1], bytes[1])
        & has_byte(tables, numbers[2], bytes[2])
        & has_byte(tables, numbers[3], bytes[3])
}

// Whether a text of ASCII begins with a character of each class, looked up one by one.
fn begin_with_each(tables: &[ClassTable], numbers: &[usize], bytes: &[u8]) -> bool
    requires numbers { are_below (length tables.now) numbers.now ≡ true }
    requires ascii { IsAscii bytes.now }
    ensures { (classes : List Class) → AreTables classes tables.now
        → result ≡ begins_with classes numbers.now bytes.now }
{
    for (place, number) in numbers.iter().enumerate() {
        let Some(byte) = bytes.get(place) else {
            return false;
        };
        if !has_byte(tables, *number, *byte) {
            return false;
        }
    }
    true
}

/// The same, looked up four at a time.
pub(crate) fn begin_with(tables: &[ClassTable], numbers: &[usize], bytes: &[u8]) -> bool
    requires numbers { are_below (length tables.now) numbers.now ≡ true }
    requires ascii { IsAscii bytes.now }
    ensures { (classes : List Class) → AreTables classes tables.now
        → result ≡ begins_with classes numbers.now bytes.now }
{
    let mut more = numbers;
    let mut left = bytes;
    'fours: while let Some((four, behind)) = more.split_first_chunk::<4>() {
        let Some((next, rest)) = left.split_first_chunk::<4>() else {
            return false;
        };
        if !have_four(tables, four, next) {
            return false;
        }
        more = behind;
        left = rest;
    }
    begin_with_each(tables, more, left)
}

// Whether each character of a text of ASCII is of one class, looked up one by one.
fn is_each_of(tables: &[ClassTable], number: usize, bytes: &[u8]) -> bool
    requires number { number < length tables.now }
    requires ascii { IsAscii bytes.now }
    ensures { (classes : List Class) → AreTables classes tables.now
        → result ≡ begins_with classes (replicate (length bytes.now) number) bytes.now }
{
    for byte in bytes {
        if !has_byte(tables, number, *byte) {
            return false;
        }
    }
    true
}

/// The same, looked up four at a time.
pub(crate) fn are_of(tables: &[ClassTable], number: usize, bytes: &[u8]) -> bool
    requires number { number < length tables.now }
    requires ascii { IsAscii bytes.now }
    ensures { (classes : List Class) → AreTables classes tables.now
        → result ≡ begins_with classes (replicate (length bytes.now) number) bytes.now }
{
    let mut left = bytes;
    'fours: while let Some((next, rest)) = left.split_first_chunk::<4>() {
        if !have_four(tables, &[number; 4], next) {
            return false;
        }
        left = rest;
    }
    is_each_of(tables, number, left)
}

// Whether the class of this number has the character.
fn has_char(classes: &[Class], number: usize, c: char) -> bool
    ensures { result ≡ class_reads (Some c) (slice_get classes.now number) }
{
    match classes.get(number) {
        Some(class) => reads_class(Some(c), class.negated, &class.sets),
        None => false,
    }
}

/// Reads a character of each class. Whether there are such.
pub(crate) fn read_each(classes: &[Class], numbers: &[usize], left: &mut Along) -> bool
    ensures answer { result ≡ begins_with classes.now numbers.now (left_of left.old) }
    ensures left { IsTrue result → left_of left.new ≡ drop (length numbers.now) (left_of left.old) }
{
    for number in numbers {
        let Some(c) = left.next() else {
            return false;
        };
        if !has_char(classes, *number, c) {
            return false;
        }
    }
    true
}

/// Reads so many characters of one class. Whether there are such.
pub(crate) fn read_some(classes: &[Class], number: usize, count: usize, left: &mut Along) -> bool
    ensures answer { result ≡ begins_with classes.now (replicate count number) (left_of left.old) }
    ensures left { IsTrue result → left_of left.new ≡ drop count (left_of left.old) }
{
    for _ in 0..count {
        let Some(c) = left.next() else {
            return false;
        };
        if !has_char(classes, number, c) {
            return false;
        }
    }
    true
}
