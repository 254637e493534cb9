//! A check and a decoder of each encoding, by name.

ghost use Rattle.std.specs.Prelude.{◌↔◌, IfOk, IsOk, IsTrue, IsErrOf};
ghost use Rattle.strkw_coding.specs.Rfc4648.{IsEncoding, IsTextOf, EncodesNoText};

use crate::codec::{Codec, DecodeError};
use std::alloc::{AllocError, Global};

/// Whether a text encodes some bytes by base64 (RFC 4648, section 4); `Err` is out of memory.
pub fn is_base64(alloc: Global, text: &str) -> Result<bool, AllocError>
    ensures encoded { IfOk result (λ b. IsTrue b ↔ IsEncoding Codec.Base64 text.now) }
{
    Codec::Base64.is_encoded(alloc, text)
}

/// Whether a text encodes some bytes by base64url (RFC 4648, section 5); `Err` is out of memory.
pub fn is_base64url(alloc: Global, text: &str) -> Result<bool, AllocError>
    ensures encoded { IfOk result (λ b. IsTrue b ↔ IsEncoding Codec.Base64Url text.now) }
{
    Codec::Base64Url.is_encoded(alloc, text)
}

/// Whether a text encodes some bytes by base32 (RFC 4648, section 6). It always answers.
pub fn is_base32(alloc: Global, text: &str) -> Result<bool, AllocError>
    ensures encoded { IfOk result (λ b. IsTrue b ↔ IsEncoding Codec.Base32 text.now) }
    ensures answers { IsOk result }
{
    Codec::Base32.is_encoded(alloc, text)
}

/// Whether a text encodes some bytes by base32hex (RFC 4648, section 7). It always answers.
pub fn is_base32hex(alloc: Global, text: &str) -> Result<bool, AllocError>
    ensures encoded { IfOk result (λ b. IsTrue b ↔ IsEncoding Codec.Base32Hex text.now) }
    ensures answers { IsOk result }
{
    Codec::Base32Hex.is_encoded(alloc, text)
}

/// Whether a text encodes some bytes by base16 (RFC 4648, section 8), letters in either case. It always answers.
pub fn is_base16(alloc: Global, text: &str) -> Result<bool, AllocError>
    ensures encoded { IfOk result (λ b. IsTrue b ↔ IsEncoding Codec.Base16 text.now) }
    ensures answers { IsOk result }
{
    Codec::Base16.is_encoded(alloc, text)
}

/// The text whose UTF-8 bytes a text encodes by base64 (RFC 4648, section 4); `None` where it is no encoding.
///
/// Errors: `NotUtf8` where it encodes bytes that are not UTF-8, and `Memory`.
pub fn from_base64(alloc: Global, text: &str) -> Result<Option<String>, DecodeError>
    ensures text { IfOk result (IsTextOf Codec.Base64 text.now) }
    ensures not_utf8 { IsErrOf result DecodeError.NotUtf8 → EncodesNoText Codec.Base64 text.now }
{
    Codec::Base64.decode(alloc, text)
}

/// The text whose UTF-8 bytes a text encodes by base64url (RFC 4648, section 5); `None` where it is no encoding.
///
/// Errors: `NotUtf8` where it encodes bytes that are not UTF-8, and `Memory`.
pub fn from_base64url(alloc: Global, text: &str) -> Result<Option<String>, DecodeError>
    ensures text { IfOk result (IsTextOf Codec.Base64Url text.now) }
    ensures not_utf8 { IsErrOf result DecodeError.NotUtf8 → EncodesNoText Codec.Base64Url text.now }
{
    Codec::Base64Url.decode(alloc, text)
}

/// The text whose UTF-8 bytes a text encodes by base32 (RFC 4648, section 6); `None` where it is no encoding.
///
/// Errors: `NotUtf8` where it encodes bytes that are not UTF-8, and `Memory`.
pub fn from_base32(alloc: Global, text: &str) -> Result<Option<String>, DecodeError>
    ensures text { IfOk result (IsTextOf Codec.Base32 text.now) }
    ensures not_utf8 { IsErrOf result DecodeError.NotUtf8 → EncodesNoText Codec.Base32 text.now }
{
    Codec::Base32.decode(alloc, text)
}

/// The text whose UTF-8 bytes a text encodes by base32hex (RFC 4648, section 7); `None` where it is no encoding.
///
/// Errors: `NotUtf8` where it encodes bytes that are not UTF-8, and `Memory`.
pub fn from_base32hex(alloc: Global, text: &str) -> Result<Option<String>, DecodeError>
    ensures text { IfOk result (IsTextOf Codec.Base32Hex text.now) }
    ensures not_utf8 { IsErrOf result DecodeError.NotUtf8 → EncodesNoText Codec.Base32Hex text.now }
{
    Codec::Base32Hex.decode(alloc, text)
}

/// The text whose UTF-8 bytes a text encodes by base16 (RFC 4648, section 8); `None` where it is no encoding.
///
/// Errors: `NotUtf8` where it encodes bytes that are not UTF-8, and `Memory`.
pub fn from_base16(alloc: Global, text: &str) -> Result<Option<String>, DecodeError>
    ensures text { IfOk result (IsTextOf Codec.Base16 text.now) }
    ensures not_utf8 { IsErrOf result DecodeError.NotUtf8 → EncodesNoText Codec.Base16 text.now }
{
    Codec::Base16.decode(alloc, text)
}
