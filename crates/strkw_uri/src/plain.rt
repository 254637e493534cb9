//! How many bytes of a text, from a place, are characters of a part or percent-encoded: one at a time.
ghost use Rattle.std.specs.Prelude.{◌≡◌, ◌<◌, ◌≤◌, ◌-◌, length, slice_index};
ghost use Rattle.std.specs.Char.{is_ascii_hexdigit};
ghost use Rattle.strkw_uri.specs.Characters.{is_scheme_char};
ghost use Rattle.strkw_uri.specs.Lanes.{goes_on, IsRun};
ghost use Rattle.strkw_uri.specs.Scan.{is_part_char, bit};
ghost use Rattle.strkw_uri.specs.declared.part.Syntax.TheVariants.{Rfc3986};

use crate::part::Part;

// Of each byte the parts of which it is a character by RFC 3986, a bit a part, and the bit of a scheme's characters.
const CLASSES: [u8; 256] = [
    0, 0, 0, 0, 0, 0, 0, 0, 0, 0, 0, 0, 0, 0, 0, 0, 0, 0, 0, 0, 0, 0, 0, 0, 0, 0, 0, 0, 0, 0, 0, 0,
    0, 31, 0, 0, 31, 0, 31, 31, 31, 31, 31, 63, 31, 63, 63, 20, 63, 63, 63, 63, 63, 63, 63, 63, 63,
    63, 22, 31, 0, 31, 0, 16, 28, 63, 63, 63, 63, 63, 63, 63, 63, 63, 63, 63, 63, 63, 63, 63, 63,
    63, 63, 63, 63, 63, 63, 63, 63, 63, 63, 0, 0, 0, 0, 31, 0, 63, 63, 63, 63, 63, 63, 63, 63, 63,
    63, 63, 63, 63, 63, 63, 63, 63, 63, 63, 63, 63, 63, 63, 63, 63, 63, 0, 0, 0, 31, 0, 0, 0, 0, 0,
    0, 0, 0, 0, 0, 0, 0, 0, 0, 0, 0, 0, 0, 0, 0, 0, 0, 0, 0, 0, 0, 0, 0, 0, 0, 0, 0, 0, 0, 0, 0, 0,
    0, 0, 0, 0, 0, 0, 0, 0, 0, 0, 0, 0, 0, 0, 0, 0, 0, 0, 0, 0, 0, 0, 0, 0, 0, 0, 0, 0, 0, 0, 0, 0,
    0, 0, 0, 0, 0, 0, 0, 0, 0, 0, 0, 0, 0, 0, 0, 0, 0, 0, 0, 0, 0, 0, 0, 0, 0, 0, 0, 0, 0, 0, 0, 0,
    0, 0, 0, 0, 0, 0, 0, 0, 0, 0, 0, 0, 0, 0, 0, 0, 0, 0, 0, 0, 0, 0, 0, 0, 0, 0, 0, 0,
];

/// The bit that stands for the part.
#[inline(always)]
fn bit(part: Part) -> u8
    ensures { result ≡ bit part }
{
    match part {
        Part::RegNameChar => 1,
        Part::UserinfoChar => 2,
        Part::PathChar => 4,
        Part::SegmentNcChar => 8,
        Part::QueryChar | Part::FragmentChar => 16,
    }
}

// The bit that stands for a scheme's characters.
const SCHEME_CHAR: u8 = 32;

/// Whether the byte is a letter, a digit, `+`, `-` or `.`.
#[inline(always)]
pub(crate) fn is_scheme_byte(byte: u8) -> bool
    ensures { result ≡ is_scheme_char byte }
{
    CLASSES[usize::from(byte)] & SCHEME_CHAR != 0
}

/// Whether the byte is a character of the part by RFC 3986.
#[inline(always)]
pub(crate) fn is_part_byte(byte: u8, part: Part) -> bool
    ensures { result ≡ is_part_char Rfc3986 part byte }
{
    CLASSES[usize::from(byte)] & bit(part) != 0
}

#[inline(always)]
fn is_hexadecimal_at(bytes: &[u8], at: usize) -> bool
    ensures { result ≡ is_ascii_hexdigit (slice_index bytes.now at) }
{
    match bytes.get(at) {
        Some(byte) => byte.is_ascii_hexdigit(),
        None => false,
    }
}

/// Whether the byte at a place is a character of the part, or begins an escape.
#[inline(always)]
fn goes_on(bytes: &[u8], part: Part, at: usize) -> bool
    requires { at < length bytes.now }
    ensures { result ≡ goes_on (is_part_char Rfc3986 part) bytes.now at }
{
    is_part_byte(bytes[at], part)
        || (bytes[at] == b'%'
            && is_hexadecimal_at(bytes, at + 1)
            && is_hexadecimal_at(bytes, at + 2))
}

/// Where a loop over the places from one on to another stops, which asks of each whether its byte is a
/// character of the part or begins an escape. (The digits of an escape are characters of each part.)
#[inline(always)]
pub(crate) fn run(bytes: &[u8], part: Part, from: usize, end: usize) -> usize
    requires start { from ≤ end }
    requires within { end ≤ length bytes.now }
    ensures { IsRun (goes_on (is_part_char Rfc3986 part) bytes.now) from (end - from) result }
{
    for i in from..end {
        if !goes_on(bytes, part, i) {
            return i - from;
        }
    }
    end - from
}
