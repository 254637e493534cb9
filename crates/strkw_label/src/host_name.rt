//! Host names with internationalised labels (RFC 5890, RFC 5891).
ghost use Rattle.std.specs.Prelude.{◌↔◌, ◌≤◌, length, IsTrue};
ghost use Rattle.std.specs.Str.{byte, chars};
ghost use Rattle.strkw_text.specs.Abnf.{SeparatedBy};
ghost use Rattle.strkw_label.specs.HostName.{IsHostName, IsHostNameLabel};
ghost use Rattle.strkw_label.specs.HostName.{KeepsXnRules, EncodesAdmitted};

use crate::label_rules::validate_unicode_label;
use crate::plain_labels::{after_plain_labels, has_reserved_hyphens};
use crate::punycode::decode_payload;
use strkw_net::first_label;

/// Whether `hostname` is a host name: an ASCII host name (1 to 253 characters, labels of 1 to 63
/// letters, digits and hyphens, RFC 1123) in which only labels that begin with `xn--` have hyphens
/// in third and fourth place (RFC 5890 section 2.3.1), and in which what follows `xn--` is, up to
/// the case of its encoded part, the Punycode of a text that `validate_unicode_label` admits. The
/// prefix counts in any letter case.
pub fn is_valid_hostname(hostname: &str) -> bool
    ensures { IsTrue result ↔ IsHostName (chars hostname.now) }
{
    is_host_name(hostname.as_bytes())
}

fn is_host_name(bytes: &[u8]) -> bool
    ensures { IsTrue result ↔ IsHostName bytes.now }
{
    match after_plain_labels(bytes) {
        None => false,
        Some([]) => true,
        Some(rest) => are_host_name_labels(rest),
    }
}

/// Whether the text is labels that keep the rules of XN-labels, with dots between them.
fn are_host_name_labels(bytes: &[u8]) -> bool
    ensures { IsTrue result ↔ SeparatedBy (byte ".") IsHostNameLabel bytes.now }
{
    let mut rest = bytes;
    while let Some(label) = first_label(rest) {
        if !keeps_xn_rules(label) {
            return false;
        }
        if label.len() == rest.len() {
            return true;
        }
        // A label ends at a dot.
        rest = &rest[label.len() + 1..];
    }
    false
}

/// Whether a label has hyphens in third and fourth place only behind `xn`, in any letter case, and
/// before the Punycode of an admitted text.
fn keeps_xn_rules(label: &[u8]) -> bool
    requires { length label.now ≤ 63 }
    ensures { IsTrue result ↔ KeepsXnRules label.now }
{
    if !has_reserved_hyphens(label) {
        return true;
    }
    let (prefix, payload) = label.split_at(4);
    prefix.eq_ignore_ascii_case(b"xn--") && encodes_admitted(payload)
}

/// Whether the payload of an XN-label encodes a text that the label rules admit.
fn encodes_admitted(payload: &[u8]) -> bool
    requires { length payload.now ≤ 59 }
    ensures { IsTrue result ↔ EncodesAdmitted payload.now }
{
    match decode_payload::<59>(payload) {
        Some(text) => validate_unicode_label(text.as_slice()),
        None => false,
    }
}
