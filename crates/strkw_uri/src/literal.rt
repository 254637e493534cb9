//! The address between brackets.
ghost use Rattle.std.specs.Prelude.{◌≡◌, ◌↔◌, IsTrue, codes};
ghost use Rattle.std.specs.Str.{chars};
ghost use Rattle.strkw_text.specs.Abnf.{◌⨾◌, Literal, Repeat1, OneOf};
ghost use Rattle.strkw_text.specs.Characters.{HexDigit};
ghost use Rattle.strkw_uri.specs.Characters.{uri, is_userinfo_char};
ghost use Rattle.strkw_uri.specs.Uri.{BracketedAddress, IpvFuture};

use crate::scan::{Class, after_one, is_end, skip_class, strip};
use strkw_net::is_valid_ipv6;

/// What follows the dot of an address of a future version.
fn is_future_address(text: &str) -> bool
    ensures { IsTrue result ↔ Repeat1 (OneOf (is_userinfo_char uri)) (chars text.now) }
{
    match after_one(text, Class::FutureChar) {
        Some(rest) => is_end(skip_class(rest, Class::FutureChar)),
        None => false,
    }
}

fn is_version_and_address(text: &str) -> bool
    ensures { IsTrue result ↔ (Repeat1 HexDigit ⨾ Literal (codes ".")
        ⨾ Repeat1 (OneOf (is_userinfo_char uri))) (chars text.now) }
{
    match after_one(text, Class::Hexadecimal) {
        Some(rest) => match strip(skip_class(rest, Class::Hexadecimal), b'.') {
            Some(rest) => is_future_address(rest),
            None => false,
        },
        None => false,
    }
}

fn is_ipv_future(text: &str) -> bool
    ensures { IsTrue result ↔ IpvFuture (chars text.now) }
{
    match after_one(text, Class::VersionLetter) {
        Some(rest) => is_version_and_address(rest),
        None => false,
    }
}

pub(crate) fn is_bracketed_address(text: &str) -> bool
    ensures { IsTrue result ↔ BracketedAddress (chars text.now) }
{
    is_valid_ipv6(text) || is_ipv_future(text)
}
