//! The sets of characters that escapes stand for, as lists.

ghost use Rattle.std.specs.Prelude.{◌≡◌};
ghost use Rattle.strkw_charset.specs.Sets.{set_of as spec_set_of, set_ranges as spec_set_ranges, is_negative as spec_is_negative, control_char as spec_control_char};

use crate::tree::CharSet;

pub const LINE_ENDS: [CharSet; 3] = [
    CharSet::Range('\n', '\n'),
    CharSet::Range('\r', '\r'),
    CharSet::Range('\u{2028}', '\u{2029}'),
];

const DIGITS: [CharSet; 1] = [CharSet::Range('0', '9')];

pub const WORD_CHARACTERS: [CharSet; 4] = [
    CharSet::Range('0', '9'),
    CharSet::Range('A', 'Z'),
    CharSet::Range('_', '_'),
    CharSet::Range('a', 'z'),
];

#[rattlefmt::skip]
const WHITE_SPACE: [CharSet; 10] = [
    CharSet::Range('\t', '\r'), CharSet::Range(' ', ' '),
    CharSet::Range('\u{A0}', '\u{A0}'), CharSet::Range('\u{1680}', '\u{1680}'),
    CharSet::Range('\u{2000}', '\u{200A}'), CharSet::Range('\u{2028}', '\u{2029}'),
    CharSet::Range('\u{202F}', '\u{202F}'), CharSet::Range('\u{205F}', '\u{205F}'),
    CharSet::Range('\u{3000}', '\u{3000}'), CharSet::Range('\u{FEFF}', '\u{FEFF}'),
];

// The characters outside each set, up to the greatest.
const NON_DIGITS: [CharSet; 2] = [CharSet::Range('\0', '/'), CharSet::Range(':', '\u{10FFFF}')];

const NON_WORD_CHARACTERS: [CharSet; 5] = [
    CharSet::Range('\0', '/'),
    CharSet::Range(':', '@'),
    CharSet::Range('[', '^'),
    CharSet::Range('`', '`'),
    CharSet::Range('{', '\u{10FFFF}'),
];

#[rattlefmt::skip]
const NON_WHITE_SPACE: [CharSet; 11] = [
    CharSet::Range('\0', '\u{8}'), CharSet::Range('\u{E}', '\u{1F}'),
    CharSet::Range('!', '\u{9F}'), CharSet::Range('\u{A1}', '\u{167F}'),
    CharSet::Range('\u{1681}', '\u{1FFF}'), CharSet::Range('\u{200B}', '\u{2027}'),
    CharSet::Range('\u{202A}', '\u{202E}'), CharSet::Range('\u{2030}', '\u{205E}'),
    CharSet::Range('\u{2060}', '\u{2FFF}'), CharSet::Range('\u{3001}', '\u{FEFE}'),
    CharSet::Range('\u{FF00}', '\u{10FFFF}'),
];

/// The set of a letter of `\d \D \s \S \w \W`.
pub fn set_of(c: char) -> &'static [CharSet]
    ensures { result.now ≡ spec_set_of c }
{
    match c {
        'd' | 'D' => &DIGITS,
        's' | 'S' => &WHITE_SPACE,
        _ => &WORD_CHARACTERS,
    }
}

/// The characters of a letter of `\d \D \s \S \w \W`.
pub fn set_ranges(c: char) -> &'static [CharSet]
    ensures { result.now ≡ spec_set_ranges c }
{
    match c {
        'D' => &NON_DIGITS,
        'S' => &NON_WHITE_SPACE,
        'W' => &NON_WORD_CHARACTERS,
        _ => set_of(c),
    }
}

/// Whether a letter stands for all but its set.
pub fn is_negative(c: char) -> bool
    ensures { result ≡ spec_is_negative c }
{
    matches!(c, 'D' | 'S' | 'W')
}

/// The character of a letter of `\f \n \r \t \v`.
pub fn control_char(c: char) -> char
    ensures { result ≡ spec_control_char c }
{
    match c {
        't' => '\t',
        'n' => '\n',
        'v' => '\u{B}',
        'f' => '\u{C}',
        _ => '\r',
    }
}
