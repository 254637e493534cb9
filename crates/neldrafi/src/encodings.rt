//! What a file is that is no text in UTF-8, as its first bytes tell.

use std::fmt;

/// What a file is that is no text in UTF-8.
#[derive(Clone, Copy, Debug, PartialEq, Eq)]
pub(crate) enum Encoding {
    /// Compressed by gzip (RFC 1952, section 2.3.1).
    Gzip,
    /// A ZIP archive, as a spreadsheet is (APPNOTE.TXT of PKWARE, section 4.3.7).
    Zip,
    /// Compressed by xz (the .xz file format, section 2.1.1.1).
    Xz,
    /// Compressed by Zstandard (RFC 8878, section 3.1.1).
    Zstandard,
    /// UTF-16 behind a byte order mark.
    Utf16,
    /// UTF-32 behind a byte order mark.
    Utf32,
}

/// A byte order mark in UTF-8.
pub(crate) const MARK: &[u8] = b"\xEF\xBB\xBF";

// The first bytes that tell an encoding. Those of UTF-32 begin with those of UTF-16, and stand before them.
const SIGNATURES: &[(&[u8], Encoding)] = &[
    (b"\x1F\x8B", Encoding::Gzip),
    (b"PK\x03\x04", Encoding::Zip),
    (b"\xFD7zXZ\x00", Encoding::Xz),
    (b"\x28\xB5\x2F\xFD", Encoding::Zstandard),
    (b"\xFF\xFE\x00\x00", Encoding::Utf32),
    (b"\x00\x00\xFE\xFF", Encoding::Utf32),
    (b"\xFF\xFE", Encoding::Utf16),
    (b"\xFE\xFF", Encoding::Utf16),
];

impl Encoding {
    /// What a file is that begins with these bytes, where they tell. Only those of a ZIP archive could begin a text in
    /// UTF-8 too, one with controls.
    pub(crate) fn of(head: &[u8]) -> Option<Encoding> {
        for (signature, encoding) in SIGNATURES {
            if head.starts_with(signature) {
                return Some(*encoding);
            }
        }
        None
    }

    /// Whether the byte behind these, the first of a file, may tell more: they begin a byte order mark, or what tells
    /// an encoding, and are not yet all of it.
    pub(crate) fn is_open(head: &[u8]) -> bool {
        is_front(head, MARK)
            || SIGNATURES
                .iter()
                .any(|(signature, _)| is_front(head, signature))
    }
}

// Whether bytes are some of those at the front of others, and not all of these.
fn is_front(head: &[u8], whole: &[u8]) -> bool {
    head.len() < whole.len() && whole.starts_with(head)
}

impl fmt::Display for Encoding {
    fn fmt<W: fmt::Write>(&self, f: &mut fmt::Formatter<W>) -> fmt::Result {
        f.write_str(match self {
            Encoding::Gzip => "the file is compressed by gzip: decompress it first",
            Encoding::Zip =>
                "the file is a ZIP archive, as a spreadsheet is: unpack or export it first",
            Encoding::Xz => "the file is compressed by xz: decompress it first",
            Encoding::Zstandard => "the file is compressed by Zstandard: decompress it first",
            Encoding::Utf16 => "the file is in UTF-16: convert it to UTF-8 first",
            Encoding::Utf32 => "the file is in UTF-32: convert it to UTF-8 first",
        })
    }
}
