//! The address between brackets.
ghost use Rattle.std.specs.Prelude.{◌↔◌, IsTrue, codes};
ghost use Rattle.strkw_text.specs.Abnf.{◌⨾◌, Literal, Repeat1, OneOf};
ghost use Rattle.strkw_mail.specs.Characters.{is_dcontent};
ghost use Rattle.strkw_mail.specs.AddressLiteral.{LdhStr, Bracketed};

use crate::ipv6::{is_ipv4_address, is_ipv6_address};
use crate::scan::{Class, after_one, skip, split_at};

/// Whether the text is letters, digits and hyphens, of which the last is no hyphen.
fn is_tag(bytes: &[u8]) -> bool
    ensures { IsTrue result ↔ LdhStr bytes.now }
{
    match bytes {
        [front @ .., last] => {
            last.is_ascii_alphanumeric() && skip(front, Class::LetterDigitHyphen).is_empty()
        }
        [] => false,
    }
}

/// Whether the text is what may stand behind a tag, one character at least.
fn is_content(bytes: &[u8]) -> bool
    ensures { IsTrue result ↔ Repeat1 (OneOf is_dcontent) bytes.now }
{
    match after_one(bytes, Class::Dcontent) {
        Some(rest) => skip(rest, Class::Dcontent).is_empty(),
        None => false,
    }
}

/// Whether the text is an address as it stands between brackets.
fn is_bracketed(bytes: &[u8]) -> bool
    ensures { IsTrue result ↔ Bracketed bytes.now }
{
    match split_at(bytes, b':') {
        Some((tag, address)) => {
            if tag.eq_ignore_ascii_case(b"IPv6") {
                is_ipv6_address(address)
            } else {
                is_tag(tag) && is_content(address)
            }
        }
        None => is_ipv4_address(bytes),
    }
}

/// Whether the text is an address and the bracket that closes, from behind the one that opens.
// Compiled by itself: else each domain name would pay for the registers that an address takes.
#[inline(never)]
pub(crate) fn is_address_literal(bytes: &[u8]) -> bool
    ensures { IsTrue result ↔ (Bracketed ⨾ Literal (codes "]")) bytes.now }
{
    match bytes {
        [inside @ .., b']'] => is_bracketed(inside),
        _ => false,
    }
}
