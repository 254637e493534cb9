//! JSON pointers.
ghost use Rattle.std.specs.Prelude.{◌≡◌, ◌↔◌, IsTrue};
ghost use Rattle.std.specs.Str.{chars};
ghost use Rattle.strkw_text.specs.Abnf.{◌⨾◌};
ghost use Rattle.strkw_uri.specs.Pointer.{ReferenceToken, IsJsonPointer, IsRelativeJsonPointer};
ghost use Rattle.strkw_uri.specs.Scan.{HashOrPointer};

use crate::scan::{Class, after_one, first_char, is_end, skip_class, strip};

/// A token and the tokens behind it.
fn is_in_pointer(text: &str) -> bool
    ensures { IsTrue result ↔ (ReferenceToken ⨾ IsJsonPointer) (chars text.now) }
{
    let mut rest = text;
    while let Some((c, after)) = first_char(rest) {
        if c != '~' {
            rest = after;
        } else {
            match after_one(after, Class::ZeroOrOne) {
                Some(after) => rest = after,
                None => return false,
            }
        }
    }
    true
}

/// Whether the text is a JSON pointer: nothing, or tokens that each begin with "/" and in which "~"
/// stands before "0" or "1" alone (RFC 6901, section 3).
pub fn is_valid_json_pointer(text: &str) -> bool
    ensures { IsTrue result ↔ IsJsonPointer (chars text.now) }
{
    match strip(text, b'/') {
        Some(rest) => is_in_pointer(rest),
        None => is_end(text),
    }
}

fn is_hash_or_pointer(text: &str) -> bool
    ensures { IsTrue result ↔ HashOrPointer (chars text.now) }
{
    match strip(text, b'#') {
        Some(rest) => is_end(rest),
        None => is_valid_json_pointer(text),
    }
}

/// Whether the text is a relative JSON pointer: a whole number without leading zeros, and then "#" at the
/// end or a JSON pointer (draft-handrews-relative-json-pointer-02, section 3; the steps `+1` and `-1` behind
/// the number, which a later draft adds, are refused).
pub fn is_valid_relative_json_pointer(text: &str) -> bool
    ensures { IsTrue result ↔ IsRelativeJsonPointer (chars text.now) }
{
    match strip(text, b'0') {
        Some(rest) => is_hash_or_pointer(rest),
        None => match after_one(text, Class::NonzeroDecimal) {
            Some(rest) => is_hash_or_pointer(skip_class(rest, Class::Decimal)),
            None => false,
        },
    }
}
