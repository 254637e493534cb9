//! Internet addresses as RFC 5321 writes them: other than in `strkw_net`, zeros may lead in a number of an IPv4
//! address, and `::` stands for two groups of zeros at least.
ghost use Rattle.std.specs.Prelude.{◌↔◌, ◌⊎◌, IsTrue};
ghost use Rattle.strkw_mail.specs.AddressLiteral.{Snum, Ipv4AddressLiteral, Ipv6Hex, Ipv6Addr};
ghost use Rattle.strkw_mail.specs.Scan.{SomeGroups, GroupsBehind, FromGroup};

use crate::scan::{split_at, strip};

/// Whether the text is one to three digits of a number up to 255.
fn is_snum(bytes: &[u8]) -> bool
    ensures { IsTrue result ↔ Snum bytes.now }
{
    if bytes.len() < 1 || 3 < bytes.len() {
        return false;
    }
    let mut number: u32 = 0;
    for digit in bytes {
        if !digit.is_ascii_digit() {
            return false;
        }
        number = 10 * number + u32::from(*digit - b'0');
    }
    number <= 255
}

/// Whether the text is four such numbers with `.` between them.
pub(crate) fn is_ipv4_address(bytes: &[u8]) -> bool
    ensures { IsTrue result ↔ Ipv4AddressLiteral bytes.now }
{
    let mut rest = bytes;
    let mut further: usize = 3;
    while 0 < further {
        match split_at(rest, b'.') {
            Some((number, after)) => {
                if !is_snum(number) {
                    return false;
                }
                rest = after;
            }
            None => return false,
        }
        further -= 1;
    }
    is_snum(rest)
}

/// Whether the text is one to four hexadecimal digits.
fn is_group(bytes: &[u8]) -> bool
    ensures { IsTrue result ↔ Ipv6Hex bytes.now }
{
    if bytes.len() < 1 || 4 < bytes.len() {
        return false;
    }
    bytes.iter().all(|byte| byte.is_ascii_hexdigit())
}

/// Whether the text is a last group where one may stand, or an IPv4 address where one may.
fn is_last(bytes: &[u8], may_be_group: bool, may_be_ipv4: bool) -> bool
    ensures { IsTrue result ↔ ((IsTrue may_be_group × Ipv6Hex bytes.now)
        ⊎ (IsTrue may_be_ipv4 × Ipv4AddressLiteral bytes.now)) }
{
    if may_be_group && is_group(bytes) {
        return true;
    }
    may_be_ipv4 && is_ipv4_address(bytes)
}

/// Whether the text is groups, one at least and so many at most, of which the last two may be an IPv4 address.
fn is_some_groups(bytes: &[u8], most: usize) -> bool
    ensures { IsTrue result ↔ SomeGroups most bytes.now }
{
    let mut rest = bytes;
    let mut left = most;
    while let Some((group, after)) = split_at(rest, b':') {
        if left < 2 {
            return false;
        }
        if !is_group(group) {
            return false;
        }
        left -= 1;
        rest = after;
    }
    is_last(rest, 0 < left, 1 < left)
}

/// Whether the text is what may stand behind `::`.
fn is_groups_behind(bytes: &[u8], most: usize) -> bool
    ensures { IsTrue result ↔ GroupsBehind most bytes.now }
{
    bytes.is_empty() || is_some_groups(bytes, most)
}

/// From a group on, where so many may stand before the last of eight.
fn is_from_group(bytes: &[u8], before_last: usize) -> bool
    ensures { IsTrue result ↔ FromGroup before_last bytes.now }
{
    let mut rest = bytes;
    let mut left = before_last;
    while let Some((group, after)) = split_at(rest, b':') {
        if left < 1 {
            return false;
        }
        if !is_group(group) {
            return false;
        }
        if let Some(behind) = strip(after, b':') {
            return 1 < left && is_groups_behind(behind, left - 2);
        }
        left -= 1;
        rest = after;
    }
    is_last(rest, left == 0, left == 1)
}

/// Whether the text is an IPv6 address: eight groups, or at most six around one `::`.
pub(crate) fn is_ipv6_address(bytes: &[u8]) -> bool
    ensures { IsTrue result ↔ Ipv6Addr bytes.now }
{
    match strip(bytes, b':') {
        Some(rest) => match strip(rest, b':') {
            Some(behind) => is_groups_behind(behind, 6),
            None => false,
        },
        None => is_from_group(bytes, 7),
    }
}
