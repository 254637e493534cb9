//! Mail addresses.
ghost use Rattle.std.specs.Prelude.{◌↔◌, IsTrue};
ghost use Rattle.std.specs.Str.{chars};
ghost use Rattle.strkw_mail.specs.Mailbox.{IsMailbox};

use crate::domain::is_domain;
use crate::local_part::after_local_part;
use crate::scan::Charset;

pub(crate) const LONGEST_LOCAL_PART: usize = 64;

/// Whether the text is a mail address: `Mailbox` of RFC 5321, section 4.1.2, as in `joe.bloggs@example.com`.
///
/// It is a local part, `@`, and a domain name or an address literal (section 4.1.3). A local part has at most 64
/// octets and what follows the `@` at most 255 (section 4.5.3.1), and a label has at most 63 (RFC 1035, section 2.3.4).
pub fn is_valid_email(text: &str) -> bool
    ensures { IsTrue result ↔ IsMailbox (chars text.now) }
{
    is_mailbox(text.as_bytes())
}

fn is_mailbox(bytes: &[u8]) -> bool
    ensures { IsTrue result ↔ IsMailbox bytes.now }
{
    match after_local_part(bytes, Charset::Ascii) {
        // The `@` is behind the local part.
        Some(domain) => {
            bytes.len() - domain.len() <= LONGEST_LOCAL_PART + 1 && is_domain(domain)
        }
        None => false,
    }
}
