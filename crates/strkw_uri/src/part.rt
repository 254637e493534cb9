//! The parts of a URI and the characters of each.
ghost use Rattle.std.specs.Prelude.{◌≡◌, ◌<◌, ◌≤◌, ℕ, true, length};
ghost use Rattle.std.specs.Str.{chars};
ghost use Rattle.strkw_text.specs.Abnf.{Repeat};
ghost use Rattle.strkw_text.specs.Fronts.{StartsWith, StartsWithNo};
ghost use Rattle.strkw_uri.specs.Characters.{is_ucschar, is_iprivate};
ghost use Rattle.strkw_uri.specs.Uri.{Encoded};
ghost use Rattle.strkw_uri.specs.Lanes.{goes_on, IsRun};
ghost use Rattle.strkw_uri.specs.Scan.{is_part_char, is_wide_part_char};
ghost use Rattle.strkw_uri.specs.declared.part.Syntax.TheVariants.{Rfc3986};

use crate::lanes::{self, Table};
use crate::plain;

/// Whose characters: those of URIs (RFC 3986) or of IRIs (RFC 3987).
#[derive(Clone, Copy)]
pub(crate) enum Syntax {
    Rfc3986,
    Rfc3987,
}

/// A part of a URI, by the class of its characters.
#[derive(Clone, Copy)]
pub(crate) enum Part {
    RegNameChar,
    UserinfoChar,
    PathChar,
    SegmentNcChar,
    QueryChar,
    FragmentChar,
}

// From how many bytes on a text is read by blocks: below, its parts are too short for a block to pay.
const LONG: usize = 64;

// How many bytes of a long text are read one at a time first: most of its parts may be shorter.
const FEW: usize = 8;

// Of each part the characters of RFC 3986.
const REG_NAME: Table = [
    0xa8, 0xfc, 0xf8, 0xf8, 0xfc, 0xf8, 0xfc, 0xfc, 0xfc, 0xfc, 0xf4, 0x5c, 0x54, 0x5c, 0xd4, 0x70,
];

const USERINFO: Table = [
    0xa8, 0xfc, 0xf8, 0xf8, 0xfc, 0xf8, 0xfc, 0xfc, 0xfc, 0xfc, 0xfc, 0x5c, 0x54, 0x5c, 0xd4, 0x70,
];

const PATH: Table = [
    0xb8, 0xfc, 0xf8, 0xf8, 0xfc, 0xf8, 0xfc, 0xfc, 0xfc, 0xfc, 0xfc, 0x5c, 0x54, 0x5c, 0xd4, 0x74,
];

const SEGMENT_NC: Table = [
    0xb8, 0xfc, 0xf8, 0xf8, 0xfc, 0xf8, 0xfc, 0xfc, 0xfc, 0xfc, 0xf4, 0x5c, 0x54, 0x5c, 0xd4, 0x70,
];

const QUERY: Table = [
    0xb8, 0xfc, 0xf8, 0xf8, 0xfc, 0xf8, 0xfc, 0xfc, 0xfc, 0xfc, 0xfc, 0x5c, 0x54, 0x5c, 0xd4, 0x7c,
];

/// How many bytes from the first are characters of the part by RFC 3986, which are all ASCII, or
/// percent-encoded: by blocks of 32.
#[inline(never)]
fn long_run(bytes: &[u8], part: Part) -> usize
    ensures { IsRun (goes_on (is_part_char Rfc3986 part) bytes.now) 0 (length bytes.now) result }
{
    match part {
        Part::RegNameChar => lanes::run(&REG_NAME, bytes, part),
        Part::UserinfoChar => lanes::run(&USERINFO, bytes, part),
        Part::PathChar => lanes::run(&PATH, bytes, part),
        Part::SegmentNcChar => lanes::run(&SEGMENT_NC, bytes, part),
        Part::QueryChar | Part::FragmentChar => lanes::run(&QUERY, bytes, part),
    }
}

/// How many bytes from the first are characters of the part by RFC 3986 or percent-encoded: by blocks where
/// a long text goes on for some bytes, and else one at a time.
#[inline(never)]
fn ascii_run(bytes: &[u8], part: Part) -> usize
    ensures { IsRun (goes_on (is_part_char Rfc3986 part) bytes.now) 0 (length bytes.now) result }
{
    if bytes.len() < LONG {
        return plain::run(bytes, part, 0, bytes.len());
    }
    let run = plain::run(bytes, part, 0, FEW);
    if run < FEW {
        run
    } else {
        long_run(bytes, part)
    }
}

/// What follows the ASCII characters of the part at the front, and the percent-encoded ones.
#[inline]
pub(crate) fn after_ascii(text: &str, syntax: Syntax, part: Part) -> &str
    ensures run { StartsWith (Repeat (Encoded (is_part_char syntax part))) (chars text.now)
        (chars result.now) }
    ensures stops { StartsWithNo (Encoded (is_part_char Rfc3986 part)) (chars result.now) }
    ensures bound { length result.now ≤ length text.now }
{
    let run = ascii_run(text.as_bytes(), part);
    &text[run..]
}

#[inline(always)]
fn is_ucschar(c: char) -> bool
    ensures { result ≡ is_ucschar c }
{
    matches!(c, '\u{A0}'..='\u{D7FF}') || (c > '\u{D7FF}' && is_far_ucschar(c))
}

/// Whether a character past U+D7FF is one of ucschar.
fn is_far_ucschar(c: char) -> bool
    requires { 0xD7FF < c }
    ensures { result ≡ is_ucschar c }
{
    matches!(c,
        '\u{F900}'..='\u{FDCF}' | '\u{FDF0}'..='\u{FFEF}'
        | '\u{10000}'..='\u{1FFFD}' | '\u{20000}'..='\u{2FFFD}' | '\u{30000}'..='\u{3FFFD}'
        | '\u{40000}'..='\u{4FFFD}' | '\u{50000}'..='\u{5FFFD}' | '\u{60000}'..='\u{6FFFD}'
        | '\u{70000}'..='\u{7FFFD}' | '\u{80000}'..='\u{8FFFD}' | '\u{90000}'..='\u{9FFFD}'
        | '\u{A0000}'..='\u{AFFFD}' | '\u{B0000}'..='\u{BFFFD}' | '\u{C0000}'..='\u{CFFFD}'
        | '\u{D0000}'..='\u{DFFFD}' | '\u{E1000}'..='\u{EFFFD}')
}

fn is_iprivate(c: char) -> bool
    ensures { result ≡ is_iprivate c }
{
    matches!(c, '\u{E000}'..='\u{F8FF}' | '\u{F0000}'..='\u{FFFFD}' | '\u{100000}'..='\u{10FFFD}')
}

/// Whether the character is past ASCII and of the part.
#[inline]
pub(crate) fn is_wide_part_char(c: char, syntax: Syntax, part: Part) -> bool
    ensures { result ≡ is_wide_part_char syntax part c }
{
    match syntax {
        Syntax::Rfc3986 => false,
        Syntax::Rfc3987 => match part {
            Part::QueryChar => is_ucschar(c) || is_iprivate(c),
            _ => is_ucschar(c),
        },
    }
}
