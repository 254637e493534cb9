//! Laws over the definitions that the calls of this crate name. Each function has an empty body, and its clauses are
//! the law.
ghost use Rattle.std.specs.Prelude.{◌↔◌, ◌≤◌, ℕ, List, length, codes};
ghost use Rattle.strkw_text.specs.Bounds.{DerivesAtLeast, DerivesAtMost, DerivesLength};
ghost use Rattle.strkw_net.specs.Addresses.{IsIpv4, IsIpv6, HasNoBracket};
ghost use Rattle.strkw_net.specs.HostName.{IsAsciiHostName, IsLabel, longest_name};
ghost use Rattle.strkw_net.specs.Spellings.{Ipv4Address, Label, Uuid};
ghost use Rattle.strkw_net.specs.Uuid.{IsUuid};

/// An IPv4 address has 7 to 15 characters.
pub fn ipv4_length()
    ensures at_least { DerivesAtLeast 7 IsIpv4 }
    ensures at_most { DerivesAtMost 15 IsIpv4 }
{}

/// An IPv4 address is four of `dec-octet` with `.` between them, as RFC 3986, section 3.2.2, writes `IPv4address`.
pub fn ipv4_by_octets()
    ensures { (text : List ℕ) → IsIpv4 text ↔ Ipv4Address text }
{}

/// An IPv6 address has 2 to 45 characters.
pub fn ipv6_length()
    ensures at_least { DerivesAtLeast 2 IsIpv6 }
    ensures at_most { DerivesAtMost 45 IsIpv6 }
{}

/// An ASCII host name has 1 to 253 characters.
pub fn hostname_length()
    ensures at_least { DerivesAtLeast 1 IsAsciiHostName }
    ensures at_most { DerivesAtMost 253 IsAsciiHostName }
{}

/// A label is what the rule `<label>` of RFC 1034, section 3.5, derives, with `<let-dig>` first as RFC 1123, section
/// 2.1, has it, and has at most 63 characters.
pub fn label_by_grammar()
    ensures { (text : List ℕ) → IsLabel text ↔ (Label text × (length text ≤ 63)) }
{}

/// A UUID has 36 characters.
pub fn uuid_length()
    ensures { DerivesLength 36 IsUuid }
{}

/// A UUID is runs of 4, 2, 2, 2 and 6 of `hexOctet` with `-` between them, as RFC 9562, section 4, writes `UUID`.
pub fn uuid_by_octets()
    ensures { (text : List ℕ) → IsUuid text ↔ Uuid text }
{}

/// An IPv6 address holds no `]`, so that one between brackets ends at the first bracket that closes.
pub fn ipv6_has_no_bracket()
    ensures { (text : List ℕ) → IsIpv6 text → HasNoBracket text }
{}

/// `127.0.0.1` is an IPv4 address, `0.0.0.0` one of least length, and `255.255.255.255` one of greatest.
pub fn ipv4_texts()
    ensures example { IsIpv4 (codes "127.0.0.1") }
    ensures shortest { IsIpv4 (codes "0.0.0.0") }
    ensures longest { IsIpv4 (codes "255.255.255.255") }
{}

/// `::1` is an IPv6 address, `::` one of least length, and
/// `0000:0000:0000:0000:0000:0000:255.255.255.255` one of greatest.
pub fn ipv6_texts()
    ensures example { IsIpv6 (codes "::1") }
    ensures shortest { IsIpv6 (codes "::") }
    ensures longest { IsIpv6 (codes "0000:0000:0000:0000:0000:0000:255.255.255.255") }
{}

/// `example.com` is an ASCII host name, `a` one of least length, and labels of 63, 63, 63 and 61 letters one of
/// greatest.
pub fn hostname_texts()
    ensures example { IsAsciiHostName (codes "example.com") }
    ensures shortest { IsAsciiHostName (codes "a") }
    ensures longest { IsAsciiHostName longest_name }
{}

/// `00000000-0000-4000-8000-000000000000` is a UUID.
pub fn uuid_example()
    ensures { IsUuid (codes "00000000-0000-4000-8000-000000000000") }
{}
