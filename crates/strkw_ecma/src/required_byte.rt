//! A character that each match of a pattern reads. In a text that lacks it the pattern is not found, and one byte is
//! looked for much faster than a pattern.

ghost use Rattle.std.specs.Prelude.{◌≡◌, ◌<◌, IsTrue};
ghost use Rattle.std.specs.Str.{chars};
ghost use Rattle.strkw_text.specs.Delimiters.{Without};
ghost use Rattle.strkw_ecma.specs.machine.RequiredByte.{common as spec_common, is_sure as spec_is_sure, needed_char, only_character as spec_only_character};
ghost use Rattle.strkw_regex_core.specs.machine.Shape.{outline_pattern, quantifier_of};

use memchr::memchr;
use strkw_charset::tree::CharSet;
use strkw_regex_core::counted_regex::{CountedRegex, Quantifier};

/// How many bytes a text has, at least, in which the character is looked for first. That takes some nanoseconds, which
/// are much beside the search of a shorter one.
pub(crate) const LONG: usize = 128;

// The one character that these sets have, where it is one of ASCII.
fn only_character(sets: &[CharSet]) -> Option<u8>
    ensures { result ≡ spec_only_character sets.now }
{
    match sets {
        [CharSet::Range(low, high)] if low == high && low.is_ascii() => Some(*low as u8),
        _ => None,
    }
}

// What two have in common.
fn common(one: Option<u8>, other: Option<u8>) -> Option<u8>
    ensures { result ≡ spec_common one other }
{
    match (one, other) {
        (Some(byte), Some(same)) if byte == same => Some(byte),
        _ => None,
    }
}

// Whether it takes one copy at least of what it repeats.
fn is_sure(quantifier: Quantifier) -> bool
    ensures { result ≡ spec_is_sure (quantifier_of quantifier) }
{
    match quantifier {
        Quantifier::ZeroOrMore | Quantifier::ZeroOrOne => false,
        Quantifier::OneOrMore => true,
        Quantifier::Exactly(least) | Quantifier::AtLeast(least) | Quantifier::FromTo(least, _) => 0
            < least,
    }
}

/// A character of ASCII that each match reads, if one is seen. Of a sequence it is that of the last term that has
/// one.
#[cycle(needed_byte)]
pub(crate) fn needed_byte(outline: &CountedRegex) -> Option<u8>
    ensures { result ≡ needed_char (outline_pattern outline.now) }
{
    match outline {
        CountedRegex::Class { negated, sets } => {
            if *negated { None } else { only_character(sets) }
        }
        CountedRegex::Then(first, second) => match needed_byte(second) {
            Some(byte) => Some(byte),
            None => needed_byte(first),
        },
        CountedRegex::Or(one, other) => common(needed_byte(one), needed_byte(other)),
        CountedRegex::Repeated(quantifier, body) => {
            if is_sure(*quantifier) {
                needed_byte(body)
            } else {
                None
            }
        }
        CountedRegex::Empty
        | CountedRegex::Start
        | CountedRegex::End
        | CountedRegex::Boundary
        | CountedRegex::NoBoundary
        | CountedRegex::Behind(..)
        | CountedRegex::Ahead(..) => None,
    }
}

/// Whether a text lacks a character of ASCII.
pub(crate) fn lacks(text: &str, byte: u8) -> bool
    requires ascii { byte < 128 }
    ensures { IsTrue result → Without byte (chars text.now) }
{
    memchr(byte, text.as_bytes()).is_none()
}
