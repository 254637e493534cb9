//! base64 and base64url, by the strict engines of the `base64` crate.

ghost use Rattle.std.specs.Prelude.{◌≡◌, IfOk, MatchOption};
ghost use Rattle.base64.specs.GeneralPurpose.{IsStrict, encode_of};
ghost use Rattle.strkw_coding.specs.Blocks.{IsCodeOf};
ghost use Rattle.strkw_coding.specs.Rfc4648.{AreBytes, Reads};

use crate::codec::Codec;
use base64::DecodeAllocError;
use base64::engine::general_purpose::{GeneralPurpose, STANDARD, URL_SAFE};
use std::alloc::{AllocError, Global};

/// The bytes that a text encodes by base64.
pub(crate) fn bytes_of_base64(alloc: Global, text: &[u8]) -> Result<Option<Vec<u8>>, AllocError>
    ensures { IfOk result (Reads (λ v. v.items) Codec.Base64 text.now) }
{
    decode(alloc, &STANDARD, text)
}

/// The bytes that a text encodes by base64url.
pub(crate) fn bytes_of_base64url(alloc: Global, text: &[u8]) -> Result<Option<Vec<u8>>, AllocError>
    ensures { IfOk result (Reads (λ v. v.items) Codec.Base64Url text.now) }
{
    decode(alloc, &URL_SAFE, text)
}

// The bytes whose encoding by an engine the text is.
fn decode(
    alloc: Global,
    engine: &GeneralPurpose,
    text: &[u8],
) -> Result<Option<Vec<u8>>, AllocError>
    requires { IsStrict engine.now }
    ensures { IfOk result (λ o. MatchOption o (IsCodeOf (encode_of engine.now) text.now → ⊥)
        (λ v. AreBytes v.items × (text.now ≡ encode_of engine.now v.items))) }
{
    match engine.decode(alloc, text) {
        Ok(bytes) => Ok(Some(bytes)),
        Err(DecodeAllocError::OutOfMemory) => Err(AllocError),
        Err(DecodeAllocError::DecodeError(_)) => Ok(None),
    }
}
