//! A text as a JSON string, appended to bytes.

ghost use Rattle.std.specs.Prelude.{◌≡◌, ◌/◌, ◌%◌, ◌<◌, ℕ, List, ◌++◌, OnOk, OnErr};
ghost use Rattle.std.specs.Bool.{OnTrue};
ghost use Rattle.std.specs.Char.{digit_char};
ghost use Rattle.json.specs.Print.{escape, escape_byte};
ghost use Rattle.serde_json.specs.Data.{string};
ghost use Rattle.serde_json.specs.Written.{compact_text};

use std::alloc::AllocError;

/// Appends a text as a JSON string (RFC 8259, section 7), as `serde_json` prints it: the quotation mark, the reverse
/// solidus and the characters below U+0020 are escaped, by two characters where there is such an escape. Out of memory,
/// a beginning of it may have been appended.
pub fn push_json_string(text: &str, out: &mut Vec<u8>) -> Result<(), AllocError>
    ensures ok { OnOk result (out.new.items ≡ out.old.items ++ compact_text (string text.now)) }
    ensures err { OnErr result ((more : List ℕ) × (out.new.items ≡ out.old.items ++ more)) }
{
    let bytes = text.as_bytes();
    out.extend_from_slice(b"\"")?;
    if is_plain(bytes) {
        out.extend_from_slice(bytes)?;
    } else {
        push_escaped(bytes, out)?;
    }
    out.extend_from_slice(b"\"")
}

fn push_escaped(text: &[u8], out: &mut Vec<u8>) -> Result<(), AllocError>
    ensures ok { OnOk result (out.new.items ≡ out.old.items ++ escape text.now) }
    ensures err { OnErr result ((more : List ℕ) × (out.new.items ≡ out.old.items ++ more)) }
{
    for byte in text {
        push_escaped_byte(*byte, out)?;
    }
    Ok(())
}

/// Whether each byte stands for itself in a JSON string.
pub(crate) fn is_plain(text: &[u8]) -> bool
    ensures { OnTrue result (escape text.now ≡ text.now) }
{
    for byte in text {
        if *byte < 32 || *byte == b'"' || *byte == b'\\' {
            return false;
        }
    }
    true
}

fn push_escaped_byte(byte: u8, out: &mut Vec<u8>) -> Result<(), AllocError>
    ensures ok { OnOk result (out.new.items ≡ out.old.items ++ escape_byte byte) }
    ensures err { OnErr result (out.new.items ≡ out.old.items) }
{
    match byte {
        b'"' => out.extend_from_slice(b"\\\""),
        b'\\' => out.extend_from_slice(b"\\\\"),
        8 => out.extend_from_slice(b"\\b"),
        12 => out.extend_from_slice(b"\\f"),
        b'\n' => out.extend_from_slice(b"\\n"),
        b'\r' => out.extend_from_slice(b"\\r"),
        b'\t' => out.extend_from_slice(b"\\t"),
        _ => {
            if byte < 32 {
                let escape = [b'\\', b'u', b'0', b'0', hex(byte / 16), hex(byte % 16)];
                out.extend_from_slice(&escape)
            } else {
                out.extend_from_slice(&[byte])
            }
        }
    }
}

fn hex(digit: u8) -> u8
    requires { digit < 16 }
    ensures { result ≡ digit_char digit }
{
    if digit < 10 {
        b'0' + digit
    } else {
        b'a' - 10 + digit
    }
}
