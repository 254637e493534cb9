//! Internationalised mail addresses.
ghost use Rattle.std.specs.Prelude.{◌≡◌, ◌↔◌, ◌<◌, ◌++◌, ◌∷◌, length, IfOk, IfSome, IsTrue, IsUtf8, MatchOption};
ghost use Rattle.std.specs.Str.{byte, chars};
ghost use Rattle.strkw_text.specs.Delimiters.{Without};
ghost use Rattle.strkw_mail.specs.IdnMailbox.{IsIdnMailbox, IsIdnDomain};
ghost use Rattle.strkw_mail.specs.IdnMailbox.{IdnDomain, IsIdnSubDomain};

use crate::domain::{LONGEST_DOMAIN, is_domain, is_sub_domain};
use crate::local_part::after_local_part;
use crate::mailbox::LONGEST_LOCAL_PART;
use crate::scan::Charset;
use std::alloc::{AllocError, Global};
use strkw_label::is_valid_u_label;

/// Whether the text is an internationalised mail address: `Mailbox` of RFC 5321, section 4.1.2, as RFC 6531, section
/// 3.3, extends it, as in `jürgen@bücher.example`.
///
/// Beside what `is_valid_email` accepts, characters past ASCII stand in atoms and between quotes, but not behind a
/// backslash, and a label of the domain name may be a U-label (RFC 5890, section 2.3.2.1). An address literal is of
/// ASCII characters. A local part has at most 64 octets of UTF-8, and what follows the `@` at most 255 (RFC 5321,
/// section 4.5.3.1). A label in ASCII has at most 63 octets, and of a U-label the A-label has.
///
/// The only error is out of memory. Memory is taken only for labels with characters past ASCII.
pub fn is_valid_idn_email(alloc: Global, text: &str) -> Result<bool, AllocError>
    ensures { IfOk result (λ valid. IsTrue valid ↔ IsIdnMailbox (chars text.now)) }
{
    let Some(rest) = after_local_part(text.as_bytes(), Charset::Utf8) else {
        return Ok(false);
    };
    let at = text.len() - rest.len();
    // The `@` is behind the local part.
    if LONGEST_LOCAL_PART + 1 < at {
        return Ok(false);
    }
    is_idn_domain(alloc, &text[at..])
}

/// Whether the text is a domain name or an address literal, of at most 255 bytes.
fn is_idn_domain(alloc: Global, domain: &str) -> Result<bool, AllocError>
    ensures { IfOk result (λ valid. IsTrue valid ↔ IsIdnDomain (chars domain.now)) }
{
    if domain.is_ascii() {
        return Ok(is_domain(domain.as_bytes()));
    }
    if LONGEST_DOMAIN < domain.len() {
        return Ok(false);
    }
    is_idn_domain_name(alloc, domain)
}

/// Whether the text is labels with `.` between them.
fn is_idn_domain_name(alloc: Global, name: &str) -> Result<bool, AllocError>
    ensures { IfOk result (λ valid. IsTrue valid ↔ IdnDomain (chars name.now)) }
{
    let mut rest = name;
    while let Some((label, after)) = split_at_dot(rest) {
        if !is_idn_sub_domain(alloc, label)? {
            return Ok(false);
        }
        rest = after;
    }
    is_idn_sub_domain(alloc, rest)
}

/// What stands before the first dot, and what follows it.
fn split_at_dot(text: &str) -> Option<(&str, &str)>
    ensures cases { MatchOption result (Without (byte ".") (chars text.now))
        (λ parts. Without (byte ".") (chars parts.0.now)
        × (chars text.now ≡ chars parts.0.now ++ byte "." ∷ chars parts.1.now)) }
    ensures shorter { IfSome result (λ parts. length parts.1.now < length text.now) }
    ensures utf8 { IfSome result (λ parts. IsUtf8 parts.1.now) }
{
    text.split_once('.')
}

/// Whether the text is one label, in ASCII or a U-label.
fn is_idn_sub_domain(alloc: Global, label: &str) -> Result<bool, AllocError>
    ensures { IfOk result (λ valid. IsTrue valid ↔ IsIdnSubDomain (chars label.now)) }
{
    if label.is_ascii() {
        return Ok(is_sub_domain(label.as_bytes()));
    }
    is_valid_u_label(alloc, label)
}
