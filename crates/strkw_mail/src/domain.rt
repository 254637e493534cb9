//! What follows the `@`.
ghost use Rattle.std.specs.Prelude.{◌↔◌, IsTrue};
ghost use Rattle.strkw_mail.specs.Mailbox.{Domain, IsSubDomain, IsDomain};

use crate::address_literal::is_address_literal;
use crate::scan::strip;
use strkw_net::first_label;

pub(crate) const LONGEST_DOMAIN: usize = 255;

/// Whether the text is one label.
pub(crate) fn is_sub_domain(bytes: &[u8]) -> bool
    ensures { IsTrue result ↔ IsSubDomain bytes.now }
{
    match first_label(bytes) {
        Some(label) => label.len() == bytes.len(),
        None => false,
    }
}

/// Whether the text is labels with `.` between them.
fn is_domain_name(bytes: &[u8]) -> bool
    ensures { IsTrue result ↔ Domain bytes.now }
{
    let mut rest = bytes;
    while let Some(label) = first_label(rest) {
        if label.len() == rest.len() {
            return true;
        }
        // A label ends at a dot.
        rest = &rest[label.len() + 1..];
    }
    false
}

/// Whether the text is a domain name or an address literal, of at most 255 bytes.
pub(crate) fn is_domain(bytes: &[u8]) -> bool
    ensures { IsTrue result ↔ IsDomain bytes.now }
{
    if LONGEST_DOMAIN < bytes.len() {
        return false;
    }
    match strip(bytes, b'[') {
        Some(literal) => is_address_literal(literal),
        None => is_domain_name(bytes),
    }
}
