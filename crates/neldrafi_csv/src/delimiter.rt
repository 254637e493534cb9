//! What delimits the fields of a record.

ghost use Rattle.std.specs.Prelude.{◌≡◌, Some, None, IsTrue, if◌then◌else◌, option_map};
ghost use Rattle.neldrafi_csv.specs.Grammar.{comma, is_delimiter};

use crate::runs::is_line_byte;

/// The character that delimits the fields of a record: ASCII, but no quote, CR or LF.
#[derive(Clone, Copy, Debug, PartialEq, Eq)]
pub struct Delimiter {
    /// The character, as its byte.
    pub byte: u8,
    ghost is_lawful: { IsTrue (is_delimiter byte) },
}

impl Delimiter {
    /// The comma of RFC 4180.
    pub fn comma() -> Delimiter
        ensures { result.byte ≡ comma }
    {
        Delimiter { byte: b',' }
    }

    /// The delimiter that a byte is, or `None` if it is a quote, CR or LF, or is not ASCII.
    pub fn new(byte: u8) -> Option<Delimiter>
        ensures { option_map (λ delimiter. delimiter.byte) result
            ≡ (if is_delimiter byte then Some byte else None) }
    {
        if is_delimiter(byte) {
            Some(Delimiter { byte })
        } else {
            None
        }
    }
}

// Whether a byte may delimit fields.
fn is_delimiter(byte: u8) -> bool
    ensures { result ≡ is_delimiter byte }
{
    byte < 128 && byte != b'"' && !is_line_byte(byte)
}
