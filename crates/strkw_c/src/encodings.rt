//! The five encodings of RFC 4648, and JSON. An answer is 0 for no, 1 for yes, 2 for out of memory.

ghost use Rattle.std.specs.Prelude.{◌≡◌, MatchResult, if◌then◌else◌};
ghost use Rattle.std.specs.Str.{IsUtf8};
ghost use Rattle.strkw_json.specs.Json.{IsJson};
ghost use Rattle.strkw_coding.specs.declared.codec.Codec.TheVariants as codec;
ghost use Rattle.strkw_c.specs.Statuses.{Tells, TellsEncoding};
ghost use Rattle.strkw_c.specs.declared.encodings.TheConstants.{NO, OUT_OF_MEMORY, YES};

use crate::utf8::text_of;
use std::alloc::{AllocError, Global};
use strkw_coding::{Codec, is_json};

/// The answer no.
pub(crate) const NO: u8 = 0;

const YES: u8 = 1;

const OUT_OF_MEMORY: u8 = 2;

/// An answer as a number.
pub(crate) fn status_of(answer: Result<bool, AllocError>) -> u8
    ensures { MatchResult answer (λ b. result ≡ (if b then YES else NO))
        (λ _. result ≡ OUT_OF_MEMORY) }
{
    match answer {
        Ok(false) => NO,
        Ok(true) => YES,
        Err(AllocError) => OUT_OF_MEMORY,
    }
}

// Whether the bytes are an encoding.
fn encoding_status(alloc: Global, codec: Codec, text: &[u8]) -> u8
    ensures { TellsEncoding codec text.now result }
{
    match text_of(text) {
        Some(text) => status_of(codec.is_encoded(alloc, text)),
        None => NO,
    }
}

/// Whether the bytes are an encoding by base64 (RFC 4648, section 4).
#[unsafe(no_mangle)]
pub extern "C" fn strkw_nonnull_is_base64(alloc: Global, text: &[u8]) -> u8
    ensures { TellsEncoding codec.Base64 text.now result }
{
    encoding_status(alloc, Codec::Base64, text)
}

/// Whether the bytes are an encoding by base64url (RFC 4648, section 5).
#[unsafe(no_mangle)]
pub extern "C" fn strkw_nonnull_is_base64url(alloc: Global, text: &[u8]) -> u8
    ensures { TellsEncoding codec.Base64Url text.now result }
{
    encoding_status(alloc, Codec::Base64Url, text)
}

/// Whether the bytes are an encoding by base32 (RFC 4648, section 6).
#[unsafe(no_mangle)]
pub extern "C" fn strkw_nonnull_is_base32(alloc: Global, text: &[u8]) -> u8
    ensures { TellsEncoding codec.Base32 text.now result }
{
    encoding_status(alloc, Codec::Base32, text)
}

/// Whether the bytes are an encoding by base32hex (RFC 4648, section 7).
#[unsafe(no_mangle)]
pub extern "C" fn strkw_nonnull_is_base32hex(alloc: Global, text: &[u8]) -> u8
    ensures { TellsEncoding codec.Base32Hex text.now result }
{
    encoding_status(alloc, Codec::Base32Hex, text)
}

/// Whether the bytes are an encoding by base16 (RFC 4648, section 8).
#[unsafe(no_mangle)]
pub extern "C" fn strkw_nonnull_is_base16(alloc: Global, text: &[u8]) -> u8
    ensures { TellsEncoding codec.Base16 text.now result }
{
    encoding_status(alloc, Codec::Base16, text)
}

/// Whether the bytes are JSON (RFC 8259) that nests 127 deep at most, as `serde_json` reads it.
#[unsafe(no_mangle)]
pub extern "C" fn strkw_nonnull_is_json(alloc: Global, text: &[u8]) -> u8
    ensures { Tells (IsUtf8 text.now × IsJson text.now) result }
{
    match text_of(text) {
        Some(text) => status_of(is_json(alloc, text)),
        None => NO,
    }
}
