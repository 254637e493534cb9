//! Internet addresses, read by std.
ghost use Rattle.std.specs.Prelude.{◌↔◌, IsTrue};
ghost use Rattle.std.specs.Str.{chars};
ghost use Rattle.strkw_net.specs.Addresses.{IsIpv4, IsIpv6};

use std::net::{Ipv4Addr, Ipv6Addr};

/// Whether the text is an IPv4 address: four numbers from 0 to 255 in decimal, without leading zeros, with `.` between
/// them.
///
/// This is `IPv4address` of RFC 3986, section 3.2.2, as in `127.0.0.1`.
pub fn is_valid_ipv4(ip: &str) -> bool
    ensures { IsTrue result ↔ IsIpv4 (chars ip.now) }
{
    is_ipv4(ip.as_bytes())
}

/// Whether the text is an IPv6 address, RFC 4291, section 2.2, as in `2001:db8::7`.
///
/// Groups of 1 to 4 hexadecimal digits stand with `:` between them. An IPv4 address may stand in place of the last two.
/// There are eight groups, or at most seven around one `::`. No zone stands behind them.
pub fn is_valid_ipv6(ip: &str) -> bool
    ensures { IsTrue result ↔ IsIpv6 (chars ip.now) }
{
    is_ipv6(ip.as_bytes())
}

fn is_ipv4(bytes: &[u8]) -> bool
    ensures { IsTrue result ↔ IsIpv4 bytes.now }
{
    Ipv4Addr::parse_ascii(bytes).is_ok()
}

fn is_ipv6(bytes: &[u8]) -> bool
    ensures { IsTrue result ↔ IsIpv6 bytes.now }
{
    Ipv6Addr::parse_ascii(bytes).is_ok()
}
