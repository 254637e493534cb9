//! Readers of the front of a text, the one scan of a part of a URI among them.
ghost use Rattle.std.specs.Prelude.{◌≡◌, ◌↔◌, ◌<◌, ◌≤◌, ◌++◌, ◌∷◌, length, IsTrue, MatchOption, IfSome, IsUtf8};
ghost use Rattle.std.specs.Str.{chars};
ghost use Rattle.strkw_text.specs.Abnf.{◌⨾◌, Empty, OneOf, Repeat};
ghost use Rattle.strkw_text.specs.Characters.{HexDigit};
ghost use Rattle.strkw_text.specs.Fronts.{StartsWith, StartsWithNo, RunThen, NotFirst, OptionThen};
ghost use Rattle.strkw_text.specs.Delimiters.{Without};
ghost use Rattle.strkw_uri.specs.Uri.{Encoded};
ghost use Rattle.strkw_uri.specs.Scan.{is_part_char, is_class_char};
ghost use Rattle.strkw_uri.specs.declared.part.Syntax.TheVariants.{Rfc3987};

use crate::part::{Part, Syntax, after_ascii, is_wide_part_char};
use crate::plain;

/// The first character, and what follows it.
#[inline]
pub(crate) fn first_char(text: &str) -> Option<(char, &str)>
    ensures cases { MatchOption result (Empty (chars text.now))
        (λ r. chars text.now ≡ r.0 ∷ chars r.1.now) }
    ensures shorter { IfSome result (λ r. length r.1.now < length text.now) }
    ensures utf8 { IfSome result (λ r. IsUtf8 r.1.now) }
{
    let mut characters = text.chars();
    let first = characters.next()?;
    Some((first, characters.as_str()))
}

/// Whether nothing is left.
pub(crate) fn is_end(text: &str) -> bool
    ensures { IsTrue result ↔ Empty (chars text.now) }
{
    first_char(text).is_none()
}

/// What follows the character, which is ASCII, where the text begins with it.
#[inline]
pub(crate) fn strip(text: &str, wanted: u8) -> Option<&str>
    requires { wanted < 128 }
    ensures cases { MatchOption result (NotFirst wanted (chars text.now))
        (λ rest. chars text.now ≡ wanted ∷ chars rest.now) }
    ensures shorter { IfSome result (λ rest. length rest.now < length text.now) }
    ensures utf8 { IfSome result (λ rest. IsUtf8 rest.now) }
{
    match text.as_bytes().first() {
        Some(first) if *first == wanted => Some(&text[1..]),
        _ => None,
    }
}

/// What stands before the first such character, which is ASCII, and what follows it.
pub(crate) fn split_at(text: &str, wanted: char) -> Option<(&str, &str)>
    requires { wanted < 128 }
    ensures cases { MatchOption result (Without wanted (chars text.now))
        (λ x. Without wanted (chars x.0.now)
        × (chars text.now ≡ chars x.0.now ++ wanted ∷ chars x.1.now)) }
    ensures shorter { IfSome result (λ x. length x.1.now < length text.now) }
    ensures utf8 { IfSome result (λ x. IsUtf8 x.1.now) }
{
    text.split_once(wanted)
}

/// A class of ASCII characters that are read without percent-encodings.
#[derive(Clone, Copy)]
pub(crate) enum Class {
    Letter,
    SchemeChar,
    Decimal,
    NonzeroDecimal,
    Hexadecimal,
    ZeroOrOne,
    VersionLetter,
    FutureChar,
    OperatorChar,
    NameChar,
}

impl Class {
    #[inline]
    fn contains(self, byte: u8) -> bool
        ensures { result ≡ is_class_char self byte }
    {
        match self {
            Class::Letter => byte.is_ascii_alphabetic(),
            Class::SchemeChar => plain::is_scheme_byte(byte),
            Class::Decimal => byte.is_ascii_digit(),
            Class::NonzeroDecimal => matches!(byte, b'1'..=b'9'),
            Class::Hexadecimal => byte.is_ascii_hexdigit(),
            Class::ZeroOrOne => matches!(byte, b'0' | b'1'),
            Class::VersionLetter => matches!(byte, b'v' | b'V'),
            Class::FutureChar => plain::is_part_byte(byte, Part::UserinfoChar),
            Class::OperatorChar => matches!(
                byte,
                b'+' | b'#' | b'.' | b'/' | b';' | b'?' | b'&' | b'=' | b',' | b'!' | b'@' | b'|'
            ),
            Class::NameChar => byte.is_ascii_alphanumeric() || byte == b'_',
        }
    }
}

/// What follows one character of the class.
#[inline]
pub(crate) fn after_one(text: &str, class: Class) -> Option<&str>
    ensures cases { MatchOption result (StartsWithNo (OneOf (is_class_char class)) (chars text.now))
        (λ rest. StartsWith (OneOf (is_class_char class)) (chars text.now) (chars rest.now)) }
    ensures shorter { IfSome result (λ rest. length rest.now < length text.now) }
    ensures utf8 { IfSome result (λ rest. IsUtf8 rest.now) }
{
    match text.as_bytes().first() {
        Some(first) if class.contains(*first) => Some(&text[1..]),
        _ => None,
    }
}

/// What follows a character of the class if one is there, and else the text.
pub(crate) fn after_optional(text: &str, class: Class) -> &str
    ensures option { OptionThen (OneOf (is_class_char class)) (chars text.now)
        (chars result.now) }
    ensures bound { length result.now ≤ length text.now }
{
    match after_one(text, class) {
        Some(rest) => rest,
        None => text,
    }
}

/// What follows the longest run of characters of the class.
pub(crate) fn skip_class(text: &str, class: Class) -> &str
    ensures { RunThen (OneOf (is_class_char class)) (chars text.now) (chars result.now) }
{
    let mut rest = text;
    while let Some(after) = after_one(rest, class) {
        rest = after;
    }
    rest
}

/// What follows two hexadecimal digits.
#[inline]
pub(crate) fn after_two_hexdigits(text: &str) -> Option<&str>
    ensures cases { MatchOption result (StartsWithNo (HexDigit ⨾ HexDigit) (chars text.now))
        (λ rest. StartsWith (HexDigit ⨾ HexDigit) (chars text.now) (chars rest.now)) }
    ensures shorter { IfSome result (λ rest. length rest.now < length text.now) }
    ensures utf8 { IfSome result (λ rest. IsUtf8 rest.now) }
{
    match after_one(text, Class::Hexadecimal) {
        Some(low) => after_one(low, Class::Hexadecimal),
        None => None,
    }
}

/// What follows the longest run of a part in an IRI, whose characters are decoded only past ASCII.
fn skip_wide(text: &str, part: Part) -> &str
    ensures { RunThen (Encoded (is_part_char Rfc3987 part)) (chars text.now) (chars result.now) }
{
    let mut rest = after_ascii(text, Syntax::Rfc3987, part);
    while let Some((c, after)) = first_char(rest) {
        if !is_wide_part_char(c, Syntax::Rfc3987, part) {
            break;
        }
        rest = after_ascii(after_wide(after, part), Syntax::Rfc3987, part);
    }
    rest
}

/// What follows the characters of the part at the front that are past ASCII.
#[inline(always)]
fn after_wide(text: &str, part: Part) -> &str
    ensures run { StartsWith (Repeat (Encoded (is_part_char Rfc3987 part))) (chars text.now)
        (chars result.now) }
    ensures bound { length result.now ≤ length text.now }
{
    let mut rest = text;
    while let Some((c, after)) = first_char(rest) {
        if !is_wide_part_char(c, Syntax::Rfc3987, part) {
            break;
        }
        rest = after;
    }
    rest
}

/// What follows the longest run of the part's characters and of percent-encoded ones. A broken
/// percent-encoding ends it as any other character does.
#[inline]
pub(crate) fn skip(text: &str, syntax: Syntax, part: Part) -> &str
    ensures { RunThen (Encoded (is_part_char syntax part)) (chars text.now) (chars result.now) }
{
    match syntax {
        Syntax::Rfc3986 => after_ascii(text, syntax, part),
        Syntax::Rfc3987 => skip_wide(text, part),
    }
}
