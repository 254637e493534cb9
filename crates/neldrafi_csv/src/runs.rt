//! Runs of bytes at the front of a text.

ghost use Rattle.std.specs.Prelude.{◌≡◌, ◌↔◌, ◌≤◌, ◌<◌, ◌==◌, if◌then◌else◌, true, false, not, ℕ, length, take, slice_index};
ghost use Rattle.std.specs.Int.{trailing_zeros, w64};
ghost use Rattle.std.specs.List.{prefix_len};
ghost use Rattle.neldrafi_csv.specs.Grammar.{IsText, IsUnended, ends_field, ends_text, is_line_byte};
ghost use Rattle.neldrafi_csv.specs.Lines.{AreLineBytes, HasNoLineByte};

use crate::delimiter::Delimiter;
use memchr::{memchr2, memchr3};
use std::simd::prelude::*;

// So many bytes are compared at once.
const LANES: usize = 16;

/// Whether a byte is CR or LF.
pub(crate) fn is_line_byte(byte: u8) -> bool
    ensures { result ≡ is_line_byte byte }
{
    byte == b'\r' || byte == b'\n'
}

/// Whether a byte ends a field outside quotes.
#[inline(always)]
pub(crate) fn ends_field(delimiter: Delimiter, byte: u8) -> bool
    ensures { result ≡ ends_field delimiter.byte byte }
{
    byte == delimiter.byte || is_line_byte(byte)
}

// Whether a byte is no text of a field that is not escaped.
fn ends_text(delimiter: Delimiter, byte: u8) -> bool
    ensures { result ≡ ends_text delimiter.byte byte }
{
    byte == b'"' || ends_field(delimiter, byte)
}

/// How many bytes at the front are CR or LF.
pub(crate) fn line_bytes_run(bytes: &[u8]) -> usize
    ensures within { result ≤ length bytes.now }
    ensures run { AreLineBytes (take result bytes.now) }
    ensures stops { result < length bytes.now
        → is_line_byte (slice_index bytes.now result) ≡ false }
{
    for (at, byte) in bytes.iter().enumerate() {
        if !is_line_byte(*byte) {
            return at;
        }
    }
    bytes.len()
}

/// How many bytes precede the first CR or LF.
pub(crate) fn line_free_run(bytes: &[u8]) -> usize
    ensures within { result ≤ length bytes.now }
    ensures run { HasNoLineByte (take result bytes.now) }
{
    memchr2(b'\r', b'\n', bytes).unwrap_or(bytes.len())
}

/// Whether no byte is CR or LF.
pub(crate) fn is_line_free(bytes: &[u8]) -> bool
    ensures { (result ≡ true) ↔ HasNoLineByte bytes.now }
{
    memchr2(b'\r', b'\n', bytes).is_none()
}

/// How many bytes precede the first that ends a field outside quotes.
pub(crate) fn unended_run(delimiter: Delimiter, bytes: &[u8]) -> usize
    ensures within { result ≤ length bytes.now }
    ensures run { IsUnended delimiter.byte (take result bytes.now) }
    ensures stops { result < length bytes.now
        → ends_field delimiter.byte (slice_index bytes.now result) ≡ true }
{
    memchr3(delimiter.byte, b'\r', b'\n', bytes).unwrap_or(bytes.len())
}

// The index of the lowest bit that is set, or the number of lanes.
#[inline(always)]
fn first_set(mask: u64) -> usize
    ensures { result ≡ (if mask == 0 then 16 else trailing_zeros w64 mask) }
{
    if mask == 0 {
        LANES
    } else {
        mask.trailing_zeros() as usize
    }
}

// How many of the first 16 bytes precede the first that is no text.
#[inline(always)]
fn run_of_block(delimiter: Delimiter, bytes: &[u8]) -> usize
    requires { 16 ≤ length bytes.now }
    ensures { result ≡ prefix_len (λ c. not (ends_text delimiter.byte c)) (take 16 bytes.now) }
{
    let block = u8x16::from_slice(bytes);
    let quotes = block.simd_eq(u8x16::splat(b'"'));
    let delimiters = block.simd_eq(u8x16::splat(delimiter.byte));
    let returns = block.simd_eq(u8x16::splat(b'\r'));
    let feeds = block.simd_eq(u8x16::splat(b'\n'));
    first_set((quotes | (delimiters | (returns | feeds))).to_bitmask())
}

// How many bytes precede the first that is no text, byte by byte.
fn short_text_run(delimiter: Delimiter, bytes: &[u8]) -> usize
    ensures within { result ≤ length bytes.now }
    ensures before { (k : ℕ) → k < result
        → ends_text delimiter.byte (slice_index bytes.now k) ≡ false }
    ensures stops { result < length bytes.now
        → ends_text delimiter.byte (slice_index bytes.now result) ≡ true }
{
    for (at, byte) in bytes.iter().enumerate() {
        if ends_text(delimiter, *byte) {
            return at;
        }
    }
    bytes.len()
}

// How many bytes precede the first that is no text, by blocks, of which the last may overlap the one before.
#[inline(always)]
fn run_before(delimiter: Delimiter, bytes: &[u8]) -> usize
    ensures within { result ≤ length bytes.now }
    ensures before { (k : ℕ) → k < result
        → ends_text delimiter.byte (slice_index bytes.now k) ≡ false }
    ensures stops { result < length bytes.now
        → ends_text delimiter.byte (slice_index bytes.now result) ≡ true }
{
    if bytes.len() < LANES {
        return short_text_run(delimiter, bytes);
    }
    let last = bytes.len() - LANES;
    let mut at = 0;
    'blocks: while at < last {
        let count = run_of_block(delimiter, &bytes[at..]);
        if count < LANES {
            return at + count;
        }
        at += LANES;
    }
    last + run_of_block(delimiter, &bytes[last..])
}

/// How many bytes precede the first that is no text of a field that is not escaped.
#[inline(always)]
pub(crate) fn text_run(delimiter: Delimiter, bytes: &[u8]) -> usize
    ensures within { result ≤ length bytes.now }
    ensures run { IsText delimiter.byte (take result bytes.now) }
    ensures stops { result < length bytes.now
        → ends_text delimiter.byte (slice_index bytes.now result) ≡ true }
{
    run_before(delimiter, bytes)
}
