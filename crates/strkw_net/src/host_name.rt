//! Host names in ASCII.
ghost use Rattle.std.specs.Prelude.{◌≡◌, ◌==◌, ◌↔◌, IsTrue, MatchOption};
ghost use Rattle.std.specs.List.{before_first, prefix_len};
ghost use Rattle.std.specs.Str.{byte, chars};
ghost use Rattle.strkw_net.specs.HostName.{IsAsciiHostName, IsLabel, is_letter_digit_hyphen};

const LONGEST_HOST_NAME: usize = 253;

const LONGEST_LABEL: usize = 63;

// One look-up answers for a byte: a letter, a digit and the hyphen stand at their own places, and a dot at all others.
static LETTERS_DIGITS_HYPHEN: [u8; 256] = *b"\
    ................................\
    .............-..0123456789......\
    .ABCDEFGHIJKLMNOPQRSTUVWXYZ.....\
    .abcdefghijklmnopqrstuvwxyz.....\
    ................................\
    ................................\
    ................................\
    ................................";

/// Whether the text is a host name of ASCII characters alone, RFC 1034, section 3.5, as RFC 1123, section 2.1, changed
/// it.
///
/// It has 1 to 253 characters, and is labels with `.` between them. A label is 1 to 63 letters, digits and hyphens, and
/// no hyphen is its first or last. Labels with `xn--` are labels as others, and so are labels of digits: the dotted
/// decimal `127.0.0.1` is a host name here, though RFC 1123, section 2.1, has it that no host name is of this form.
pub fn is_valid_hostname_rfc1034(hostname: &str) -> bool
    ensures { IsTrue result ↔ IsAsciiHostName (chars hostname.now) }
{
    is_host_name(hostname.as_bytes())
}

fn is_host_name(bytes: &[u8]) -> bool
    ensures { IsTrue result ↔ IsAsciiHostName bytes.now }
{
    if LONGEST_HOST_NAME < bytes.len() {
        return false;
    }
    let mut rest = bytes;
    while let Some(label) = first_label(rest) {
        if label.len() == rest.len() {
            return true;
        }
        // A label ends at a dot.
        rest = &rest[label.len() + 1..];
    }
    false
}

/// The label at the front of a host name: its bytes up to the first `.`, or all of them. `None` where these are no
/// label.
///
/// A label is 1 to 63 letters, digits and hyphens, and no hyphen is its first or last (RFC 1034, section 3.5, as RFC
/// 1123, section 2.1, changed it).
pub fn first_label(bytes: &[u8]) -> Option<&[u8]>
    ensures { let front = before_first (λ c. c == byte ".") bytes.now in
        MatchOption result (IsLabel front → ⊥) (λ label. (label.now ≡ front) × IsLabel label.now) }
{
    let len = run_length(bytes);
    if len < 1 || LONGEST_LABEL < len {
        return None;
    }
    if bytes[0] == b'-' || bytes[len - 1] == b'-' {
        return None;
    }
    if len < bytes.len() && bytes[len] != b'.' {
        return None;
    }
    Some(&bytes[..len])
}

/// How many bytes, from the first, are letters, digits and hyphens.
fn run_length(bytes: &[u8]) -> usize
    ensures { result ≡ prefix_len is_letter_digit_hyphen bytes.now }
{
    bytes
        .iter()
        .position(|b| !is_letter_digit_hyphen(*b))
        .unwrap_or(bytes.len())
}

fn is_letter_digit_hyphen(byte: u8) -> bool
    ensures { result ≡ is_letter_digit_hyphen byte }
{
    LETTERS_DIGITS_HYPHEN[byte as usize] != b'.'
}
