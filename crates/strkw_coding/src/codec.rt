//! The five encodings as data, and what decoding answers.

ghost use Rattle.std.specs.Prelude.{◌≡◌, ◌↔◌, ◌<◌, IfOk, IsOk, MatchOption, MatchResult, IsTrue, IsErrOf, IsSomeAnd};
ghost use Rattle.std.specs.Str.{IsUtf8};
ghost use Rattle.std.specs.String.{string_bytes};
ghost use Rattle.strkw_coding.specs.Names.{codec_name};
ghost use Rattle.strkw_coding.specs.Rfc4648.{IsEncoding, IsTextOf, Reads, EncodesNoText, letter_bits};

use crate::{radix16, radix32, radix64};
use std::alloc::{AllocError, Global};

/// An encoding of bytes as text, of RFC 4648.
#[derive(Debug, Clone, Copy, PartialEq, Eq)]
pub enum Codec {
    /// Section 4: letters, digits, `+` and `/`.
    Base64,
    /// Section 5: letters, digits, `-` and `_`.
    Base64Url,
    /// Section 6: upper-case letters and `2` to `7`.
    Base32,
    /// Section 7: digits and `A` to `V`.
    Base32Hex,
    /// Section 8: digits and `A` to `F`, in either case.
    Base16,
}

/// Why a text was not decoded.
#[derive(Debug, Clone, Copy, PartialEq, Eq)]
pub enum DecodeError {
    /// It encodes bytes that are not UTF-8.
    NotUtf8,
    /// Out of memory.
    Memory,
}

impl From<AllocError> for DecodeError {
    ghost use Rattle.strkw_coding.specs.declared.codec.DecodeError.TheVariants.{Memory};

    ghost from_gives = { λ _ e. e ≡ Memory };

    fn from(_: AllocError) -> DecodeError {
        DecodeError::Memory
    }
}

impl Codec {
    /// The encoding of a name: `base64`, `base64url`, `base32`, `base32hex` or `base16`, exactly so
    /// written. `None` for every other name.
    pub fn by_name(name: &str) -> Option<Codec>
        ensures { (c : Codec) → (result ≡ Some c) ↔ (name.now ≡ codec_name c) }
    {
        match name {
            "base64" => Some(Codec::Base64),
            "base64url" => Some(Codec::Base64Url),
            "base32" => Some(Codec::Base32),
            "base32hex" => Some(Codec::Base32Hex),
            "base16" => Some(Codec::Base16),
            _ => None,
        }
    }

    /// The name by which `by_name` knows the encoding.
    pub fn as_str(self) -> &'static str
        ensures { result.now ≡ codec_name self }
    {
        match self {
            Codec::Base64 => "base64",
            Codec::Base64Url => "base64url",
            Codec::Base32 => "base32",
            Codec::Base32Hex => "base32hex",
            Codec::Base16 => "base16",
        }
    }

    /// Whether a text encodes some bytes: letters of the encoding alone, the spare bits of the last one
    /// zero, and `=` to a whole block. The empty text is the encoding of no bytes.
    ///
    /// `Err` is out of memory. The encodings of fewer than six bits a letter are always answered.
    pub fn is_encoded(self, alloc: Global, text: &str) -> Result<bool, AllocError>
        ensures encoded { IfOk result (λ b. IsTrue b ↔ IsEncoding self text.now) }
        ensures answers { letter_bits self < 6 → IsOk result }
    {
        let text = text.as_bytes();
        match self {
            Codec::Base64 => Ok(radix64::bytes_of_base64(alloc, text)?.is_some()),
            Codec::Base64Url => Ok(radix64::bytes_of_base64url(alloc, text)?.is_some()),
            Codec::Base32 => Ok(radix32::is_base32(text)),
            Codec::Base32Hex => Ok(radix32::is_base32hex(text)),
            Codec::Base16 => Ok(radix16::is_base16(text)),
        }
    }

    /// The text whose UTF-8 bytes a text encodes; `None` where it is no encoding.
    ///
    /// Errors: `NotUtf8` where it encodes bytes that are not UTF-8, and `Memory`.
    pub fn decode(self, alloc: Global, text: &str) -> Result<Option<String>, DecodeError>
        ensures text { IfOk result (IsTextOf self text.now) }
        ensures not_utf8 { IsErrOf result DecodeError.NotUtf8 → EncodesNoText self text.now }
    {
        text_of(bytes_of(self, alloc, text.as_bytes())?)
    }
}

// The bytes that a text encodes.
fn bytes_of(codec: Codec, alloc: Global, text: &[u8]) -> Result<Option<Vec<u8>>, AllocError>
    ensures { IfOk result (Reads (λ v. v.items) codec text.now) }
{
    match codec {
        Codec::Base64 => radix64::bytes_of_base64(alloc, text),
        Codec::Base64Url => radix64::bytes_of_base64url(alloc, text),
        Codec::Base32 => radix32::bytes_of_base32(alloc, text),
        Codec::Base32Hex => radix32::bytes_of_base32hex(alloc, text),
        Codec::Base16 => radix16::bytes_of_base16(alloc, text),
    }
}

// The text that the bytes of an encoding spell.
fn text_of(bytes: Option<Vec<u8>>) -> Result<Option<String>, DecodeError>
    ensures { MatchOption bytes (result ≡ Ok None)
        (λ v. MatchResult result (λ o. IsSomeAnd o (λ s. string_bytes s ≡ v.items))
        (λ e. (e ≡ DecodeError.NotUtf8) × (IsUtf8 v.items → ⊥))) }
{
    match bytes {
        None => Ok(None),
        Some(bytes) => match String::from_utf8(bytes) {
            Ok(text) => Ok(Some(text)),
            Err(_) => Err(DecodeError::NotUtf8),
        },
    }
}
