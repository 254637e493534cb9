//! Nanoseconds a call of the predicate of mail addresses, and of a plain loop over each part of an address.

use crate::timing::{self, time};
use std::alloc::Global;
use std::io;
use strkw_mail::is_valid_email;

const CALLS: u32 = 100_000;

#[derive(Clone, Copy)]
enum Call {
    Email,
    PlainLoops,
}

// Whether these are atoms (RFC 5321, section 4.1.2) with a dot between each two.
fn are_atoms(bytes: &[u8]) -> bool {
    let mut before = b'.';
    for byte in bytes {
        match byte {
            b'.' if before == b'.' => return false,
            b'.' | b'a'..=b'z' | b'A'..=b'Z' | b'0'..=b'9' => (),
            b'!'
            | b'#'..=b'\''
            | b'*'
            | b'+'
            | b'-'
            | b'/'
            | b'='
            | b'?'
            | b'^'..=b'`'
            | b'{'..=b'~' => (),
            _ => return false,
        }
        before = *byte;
    }
    before != b'.'
}

// Whether these are labels of at most 63 bytes with a dot between each two.
fn are_labels(bytes: &[u8]) -> bool {
    let (mut length, mut before) = (0u32, b'.');
    for byte in bytes {
        match byte {
            b'.' if length > 0 && before != b'-' => length = 0,
            b'-' if length > 0 && length < 63 => length += 1,
            b'a'..=b'z' | b'A'..=b'Z' | b'0'..=b'9' if length < 63 => length += 1,
            _ => return false,
        }
        before = *byte;
    }
    length > 0 && before != b'-'
}

// Whether a text is atoms of at most 64 bytes, `@`, and labels of at most 255. It knows no quoted string and no
// literal.
fn is_plain_address(text: &str) -> bool {
    let bytes = text.as_bytes();
    match bytes.iter().position(|byte| *byte == b'@') {
        Some(at) if at <= 64 && bytes.len() - at <= 256 => {
            are_atoms(&bytes[..at]) && are_labels(&bytes[at + 1..])
        }
        _ => false,
    }
}

impl timing::Call for Call {
    fn accepts(&self, _alloc: Global, text: &str) -> bool {
        match self {
            Call::Email => is_valid_email(text),
            Call::PlainLoops => is_plain_address(text),
        }
    }
}

const TEXTS: &[&str] = &[
    "joe@exa.mp",
    "joe.bloggs@example.com",
    "first.last+list@mail.department.example.org",
    "aaaaaaaaaaaaaaaaaaaaaaaaaaaaaaaaaaaaaaaaaaaaaaaaaaaaaaaaaaaaaaaa@aaaaaaaaaaaaaaaaaaaaaaaaaaaaaaaaaaaaaaaaaaaaaaaaaaaaaaaaaaaaaaa.aaaaaaaaaaaaaaaaaaaaaaaaaaaaaaaaaaaaaaaaaaaaaaaaaaaaaaaaaaaaaaa.aaaaaaaaaaaaaaaaaaaaaaaaaaaaaaaaaaaaaaaaaaaaaaaaaaaaaaaaaaaaaaa",
];

// What is asked, with what is printed of it.
const CALLED: &[(&str, Call)] = &[
    ("  is_valid_email", Call::Email),
    ("  plain loops", Call::PlainLoops),
];

/// Times mail addresses of some lengths.
pub fn measure(rt: HostRuntime) -> io::Result<()> {
    for text in TEXTS {
        println!(rt; "address of {} bytes", text.len())?;
        for (name, call) in CALLED {
            time(rt, name, call, &[*text], CALLS)?;
        }
    }
    Ok(())
}
