//! The parts of a URI reference as `strkw_uri` reads them, over a scan by a plain loop: each byte is looked up in a
//! table.

use strkw_net::is_valid_ipv6;

// Each byte's classes, a bit a class.
const NAME: u8 = 1;

const USERINFO: u8 = 2;

const PATH: u8 = 4;

const SEGMENT_NC: u8 = 8;

const QUERY: u8 = 16;

const SCHEME: u8 = 32;

const DIGIT: u8 = 64;

/// Which classes each byte is of.
#[derive(Drop)]
pub struct PlainParts {
    classes: [u8; 256],
}

fn classes_of(byte: u8) -> u8 {
    match byte {
        b'0'..=b'9' => NAME | USERINFO | PATH | SEGMENT_NC | QUERY | SCHEME | DIGIT,
        b'a'..=b'z' | b'A'..=b'Z' | b'+' | b'-' | b'.' => {
            NAME | USERINFO | PATH | SEGMENT_NC | QUERY | SCHEME
        }
        b'_' | b'~' | b'!' | b'$' | b'&' | b'\'' | b'(' | b')' | b'*' | b',' | b';' | b'=' => {
            NAME | USERINFO | PATH | SEGMENT_NC | QUERY
        }
        b':' => USERINFO | PATH | QUERY,
        b'@' => PATH | SEGMENT_NC | QUERY,
        b'/' => PATH | QUERY,
        b'?' => QUERY,
        _ => 0,
    }
}

fn begins_with_escape(bytes: &[u8]) -> bool {
    match bytes {
        [b'%', high, low, ..] => high.is_ascii_hexdigit() && low.is_ascii_hexdigit(),
        _ => false,
    }
}

fn strip(bytes: &[u8], wanted: u8) -> Option<&[u8]> {
    match bytes {
        [first, rest @ ..] if *first == wanted => Some(rest),
        _ => None,
    }
}

impl PlainParts {
    /// Builds the table.
    pub fn new() -> PlainParts {
        let mut classes = [0; 256];
        for byte in 0..=255u8 {
            classes[usize::from(byte)] = classes_of(byte);
        }
        PlainParts { classes }
    }

    // What follows the run of bytes of the class.
    #[inline(never)]
    fn skip_class<'a>(&self, bytes: &'a [u8], class: u8) -> &'a [u8] {
        for i in 0..bytes.len() {
            if self.classes[usize::from(bytes[i])] & class == 0 {
                return &bytes[i..];
            }
        }
        &bytes[bytes.len()..]
    }

    // What follows the run of bytes of the class and of percent-encodings.
    #[inline(never)]
    fn skip<'a>(&self, bytes: &'a [u8], class: u8) -> &'a [u8] {
        for i in 0..bytes.len() {
            if self.classes[usize::from(bytes[i])] & class == 0
                && !begins_with_escape(&bytes[i..])
            {
                return &bytes[i..];
            }
        }
        &bytes[bytes.len()..]
    }

    fn is_optional_fragment(&self, bytes: &[u8]) -> bool {
        match strip(bytes, b'#') {
            Some(rest) => self.skip(rest, QUERY).is_empty(),
            None => bytes.is_empty(),
        }
    }

    fn is_query_and_fragment(&self, bytes: &[u8]) -> bool {
        match strip(bytes, b'?') {
            Some(rest) => self.is_optional_fragment(self.skip(rest, QUERY)),
            None => self.is_optional_fragment(bytes),
        }
    }

    fn is_in_path_and_tail(&self, bytes: &[u8]) -> bool {
        self.is_query_and_fragment(self.skip(bytes, PATH))
    }

    fn is_path_and_tail(&self, bytes: &[u8]) -> bool {
        match strip(bytes, b'/') {
            Some(rest) => self.is_in_path_and_tail(rest),
            None => self.is_query_and_fragment(bytes),
        }
    }

    fn is_port_and_tail(&self, bytes: &[u8]) -> bool {
        match strip(bytes, b':') {
            Some(rest) => self.is_path_and_tail(self.skip_class(rest, DIGIT)),
            None => self.is_path_and_tail(bytes),
        }
    }

    #[inline(never)]
    fn is_bracketed_address_and_tail(&self, bytes: &[u8]) -> bool {
        for i in 0..bytes.len() {
            if bytes[i] == b']' {
                return match str::from_utf8(&bytes[..i]) {
                    Ok(address) => is_valid_ipv6(address) && self.is_port_and_tail(&bytes[i + 1..]),
                    Err(_) => false,
                };
            }
        }
        false
    }

    fn is_host_and_tail(&self, bytes: &[u8], after_name: &[u8]) -> bool {
        match strip(bytes, b'[') {
            Some(rest) => self.is_bracketed_address_and_tail(rest),
            None => self.is_port_and_tail(after_name),
        }
    }

    fn is_authority_and_tail(&self, bytes: &[u8]) -> bool {
        let after_name = self.skip(bytes, NAME);
        let after_userinfo = match strip(after_name, b':') {
            Some(rest) => self.skip(rest, USERINFO),
            None => after_name,
        };
        match strip(after_userinfo, b'@') {
            Some(host) => self.is_host_and_tail(host, self.skip(host, NAME)),
            None => self.is_host_and_tail(bytes, after_name),
        }
    }

    fn is_hier_part_and_tail(&self, bytes: &[u8]) -> bool {
        match strip(bytes, b'/') {
            Some(rest) => match strip(rest, b'/') {
                Some(authority) => self.is_authority_and_tail(authority),
                None => self.is_in_path_and_tail(rest),
            },
            None => self.is_in_path_and_tail(bytes),
        }
    }

    fn is_relative_ref(&self, bytes: &[u8]) -> bool {
        match strip(bytes, b'/') {
            Some(_) => self.is_hier_part_and_tail(bytes),
            None => self.is_path_and_tail(self.skip(bytes, SEGMENT_NC)),
        }
    }

    fn after_scheme<'a>(&self, bytes: &'a [u8]) -> Option<&'a [u8]> {
        match bytes {
            [first, rest @ ..] if first.is_ascii_alphabetic() => {
                strip(self.skip_class(rest, SCHEME), b':')
            }
            _ => None,
        }
    }

    /// Whether the bytes are a URI reference, whose bracketed host is an IPv6 address.
    pub fn is_reference(&self, bytes: &[u8]) -> bool {
        match self.after_scheme(bytes) {
            Some(rest) => self.is_hier_part_and_tail(rest),
            None => self.is_relative_ref(bytes),
        }
    }
}
