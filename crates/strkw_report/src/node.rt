ghost use Rattle.std.specs.Prelude.{◌≡◌, ℕ, List, Option, option_map, length};
ghost use Rattle.std.specs.List.{count_by};
ghost use Rattle.std.specs.Str.{chars};
ghost use Rattle.std.specs.Fmt.{is_char_start};
ghost use Rattle.serde_json.specs.Find.{as_str};
ghost use Rattle.serde_json.specs.View.{view};

use serde_json::Value;
use std::simd::prelude::*;

/// An instance in any representation: a text, or a value that is none.
///
/// An implementation names its text, and both methods answer by that one meaning: they are `Some` together, and
/// the length is the number of the text's characters.
pub trait Node {
    // the UTF-8 bytes of the text, where it is one
    ghost text: { Self → Option (List ℕ) };

    /// The text, or `None` where the instance is no text.
    fn as_text(&self) -> Option<&str>
        ensures { option_map (λ s. s.now) result ≡ text self.now };

    /// The number of the text's characters (Unicode scalar values), or `None` where the instance is no text.
    fn text_length(&self) -> Option<u64>
        ensures { result ≡ option_map (λ s. length (chars s)) (text self.now) };
}

/// A JSON string is its text, and every other value is none.
impl Node for Value {
    ghost text = { λ v. as_str (view v) };

    fn as_text(&self) -> Option<&str> {
        self.as_str()
    }

    fn text_length(&self) -> Option<u64> {
        match self.as_str() {
            Some(text) => Some(char_count(text)),
            None => None,
        }
    }
}

// So many bytes are judged at once.
const BLOCK: usize = 32;

/// The number of characters (Unicode scalar values) of a text.
pub fn char_count(text: &str) -> u64
    ensures { result ≡ length (chars text.now) }
{
    // As many bytes begin a character: they are counted block by block, and what is left byte by byte.
    let (blocks, rest) = text.as_bytes().as_chunks::<BLOCK>();
    let mut count = starts_among(rest);
    for block in blocks {
        count += starts_in_block(block) as u64;
    }
    count
}

// How many bytes begin a character: the others are 10xxxxxx (RFC 3629, section 3).
fn starts_among(bytes: &[u8]) -> u64
    ensures { result ≡ count_by is_char_start bytes.now }
{
    let mut count = 0;
    for byte in bytes {
        if *byte < 0x80 || *byte >= 0xC0 {
            count += 1;
        }
    }
    count
}

// How many bytes of a block begin a character. All are judged at once.
#[inline(always)]
fn starts_in_block(block: &[u8; BLOCK]) -> u32
    ensures { result ≡ count_by is_char_start block.now }
{
    let bytes = u8x32::from_array(*block);
    let ascii = bytes.simd_lt(u8x32::splat(0x80));
    let leading = bytes.simd_ge(u8x32::splat(0xC0));
    (ascii | leading).to_bitmask().count_ones()
}
