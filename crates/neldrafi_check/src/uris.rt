//! Paths of files as URI references.

ghost use Rattle.std.specs.Prelude.{◌≡◌, ◌++◌, OnOk, string_bytes};
ghost use Rattle.neldrafi_check.specs.Uris.{is_path_byte, uri_byte, uri_of};

use percent_encoding::percent_encode_byte;
use std::alloc::AllocError;

// Whether a byte of a path stands for itself.
fn is_path_byte(byte: u8) -> bool
    ensures { result ≡ is_path_byte byte }
{
    byte.is_ascii_alphanumeric() || matches!(byte, b'-' | b'.' | b'_' | b'~' | b'/')
}

// Appends a byte of a path.
fn push_byte(byte: u8, out: &mut String) -> Result<(), AllocError>
    ensures { OnOk result (string_bytes out.new ≡ string_bytes out.old ++ uri_byte byte) }
{
    if is_path_byte(byte) {
        out.push(char::from(byte))
    } else {
        out.push_str(percent_encode_byte(byte))
    }
}

/// Appends the path of a file as a URI reference. The only error is out of memory; a beginning of it may then have been
/// appended.
pub(crate) fn push_uri(file: &str, out: &mut String) -> Result<(), AllocError>
    ensures { OnOk result (string_bytes out.new ≡ string_bytes out.old ++ uri_of file.now) }
{
    for byte in file.as_bytes() {
        push_byte(*byte, out)?;
    }
    Ok(())
}
