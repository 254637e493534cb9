//! base16, by the `hex` crate: letters of either case, of which two make a byte.

ghost use Rattle.std.specs.Char.{is_ascii_hexdigit};
ghost use Rattle.std.specs.List.{list_all};
ghost use Rattle.std.specs.Prelude.{◌≡◌, ◌↔◌, IfOk, IsTrue};
ghost use Rattle.strkw_coding.specs.Rfc4648.{IsEncoding, Reads};

use crate::codec::Codec;
use hex::FromHexError;
use std::alloc::{AllocError, Global};

/// Whether a text encodes some bytes by base16.
pub(crate) fn is_base16(text: &[u8]) -> bool
    ensures { IsTrue result ↔ IsEncoding Codec.Base16 text.now }
{
    text.len() % 2 == 0 && are_hex_digits(text)
}

// Whether each byte is a digit of base 16, in either case.
fn are_hex_digits(text: &[u8]) -> bool
    ensures { result ≡ list_all is_ascii_hexdigit text.now }
{
    text.iter().all(|letter| letter.is_ascii_hexdigit())
}

/// The bytes that a text encodes by base16.
pub(crate) fn bytes_of_base16(alloc: Global, text: &[u8]) -> Result<Option<Vec<u8>>, AllocError>
    ensures { IfOk result (Reads (λ v. v.items) Codec.Base16 text.now) }
{
    match hex::decode(alloc, text) {
        Ok(bytes) => Ok(Some(bytes)),
        Err(error) => match error {
            FromHexError::OutOfMemory => Err(AllocError),
            _ => Ok(None),
        },
    }
}
