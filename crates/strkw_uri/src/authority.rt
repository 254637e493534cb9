//! The authority, and what follows it.
ghost use Rattle.std.specs.Prelude.{◌≡◌, ◌↔◌, IsTrue};
ghost use Rattle.std.specs.Str.{chars};
ghost use Rattle.strkw_text.specs.Fronts.{StartsWithNo, RunThen};
ghost use Rattle.strkw_uri.specs.Characters.{is_reg_name_char, is_userinfo_char};
ghost use Rattle.strkw_uri.specs.Uri.{Encoded};
ghost use Rattle.strkw_uri.specs.Scan.{alphabet, PortAndTail, BracketedAddressAndTail, HostAndTail, AuthorityAndTail};

use crate::literal::is_bracketed_address;
use crate::part::{Part, Syntax};
use crate::path::is_path_and_tail;
use crate::scan::{Class, skip, skip_class, split_at, strip};
use strkw_net::laws::ipv6_has_no_bracket;

fn is_port_and_tail(text: &str, syntax: Syntax) -> bool
    ensures { IsTrue result ↔ PortAndTail (alphabet syntax) (chars text.now) }
{
    match strip(text, b':') {
        Some(rest) => is_path_and_tail(skip_class(rest, Class::Decimal), syntax),
        None => is_path_and_tail(text, syntax),
    }
}

/// What follows the bracket that opens. No address holds a bracket, so that the first one ends it.
#[inline(never)]
fn is_bracketed_address_and_tail(text: &str, syntax: Syntax) -> bool
    ensures { IsTrue result ↔ BracketedAddressAndTail (alphabet syntax) (chars text.now) }
{
    ipv6_has_no_bracket();
    match split_at(text, ']') {
        Some((address, rest)) => is_bracketed_address(address) && is_port_and_tail(rest, syntax),
        None => false,
    }
}

/// A host, whose registered name may be an IPv4 address, and what follows the characters of a name at the front.
#[inline]
fn is_host_and_tail(text: &str, after_name: &str, syntax: Syntax) -> bool
    requires { RunThen (Encoded (is_reg_name_char (alphabet syntax))) (chars text.now)
        (chars after_name.now) }
    ensures { IsTrue result ↔ HostAndTail (alphabet syntax) (chars text.now) }
{
    match strip(text, b'[') {
        Some(rest) => is_bracketed_address_and_tail(rest, syntax),
        None => is_port_and_tail(after_name, syntax),
    }
}

/// What follows a userinfo, from where a name's characters end on: more of it stands there only behind a colon.
#[inline]
fn after_userinfo(after_name: &str, syntax: Syntax) -> &str
    requires { StartsWithNo (Encoded (is_reg_name_char (alphabet syntax))) (chars after_name.now) }
    ensures { RunThen (Encoded (is_userinfo_char (alphabet syntax))) (chars after_name.now)
        (chars result.now) }
{
    match strip(after_name, b':') {
        Some(rest) => skip(rest, syntax, Part::UserinfoChar),
        None => after_name,
    }
}

/// What follows "//". There is a userinfo where the run of its characters ends at "@".
pub(crate) fn is_authority_and_tail(text: &str, syntax: Syntax) -> bool
    ensures { IsTrue result ↔ AuthorityAndTail (alphabet syntax) (chars text.now) }
{
    let after_name = skip(text, syntax, Part::RegNameChar);
    match strip(after_userinfo(after_name, syntax), b'@') {
        Some(host) => is_host_and_tail(host, skip(host, syntax, Part::RegNameChar), syntax),
        None => is_host_and_tail(text, after_name, syntax),
    }
}
