//! NR-LDH labels (RFC 5890, section 2.3.2.2), of which most host names are made.
ghost use Rattle.std.specs.Prelude.{◌≡◌, ◌≢◌, ◌≤◌, ◌↔◌, [], IfNone, IfSome, IsTrue, length};
ghost use Rattle.std.specs.Str.{byte};
ghost use Rattle.strkw_text.specs.Abnf.{SeparatedBy};
ghost use Rattle.strkw_net.specs.HostName.{IsAsciiHostName};
ghost use Rattle.strkw_label.specs.HostName.{IsHostNameLabel};
ghost use Rattle.strkw_label.specs.IdnHostName.{IsPlainLabel, HasReservedHyphens};

use strkw_net::first_label;

pub(crate) const LONGEST_HOST_NAME: usize = 253;

/// What is left of a host name behind the NR-LDH labels at its front and their dots: nothing, or a text with hyphens in
/// third and fourth place. `None` where the text is no host name in ASCII. It takes no memory.
///
/// Host names of both kinds begin with this one function, compiled once, so that neither costs more.
#[inline(never)]
pub(crate) fn after_plain_labels(bytes: &[u8]) -> Option<&[u8]>
    ensures none { IfNone result (IsAsciiHostName bytes.now → ⊥) }
    ensures size { IfSome result (λ _. length bytes.now ≤ 253) }
    ensures nothing { IfSome result (λ rest. rest.now ≡ []
        → SeparatedBy (byte ".") IsPlainLabel bytes.now) }
    ensures rest { IfSome result (λ rest. rest.now ≢ []
        → SeparatedBy (byte ".") IsHostNameLabel rest.now
        ↔ SeparatedBy (byte ".") IsHostNameLabel bytes.now) }
{
    if LONGEST_HOST_NAME < bytes.len() {
        return None;
    }
    let mut rest = bytes;
    while !has_reserved_hyphens(rest) {
        let label = first_label(rest)?;
        if label.len() == rest.len() {
            return Some(&[]);
        }
        // A label ends at a dot.
        rest = &rest[label.len() + 1..];
    }
    Some(rest)
}

/// Whether hyphens stand in third and fourth place.
pub(crate) fn has_reserved_hyphens(bytes: &[u8]) -> bool
    ensures { IsTrue result ↔ HasReservedHyphens bytes.now }
{
    bytes.len() > 3 && bytes[2] == b'-' && bytes[3] == b'-'
}
