//! Bytes that are a text.

ghost use Rattle.std.specs.Prelude.{◌≡◌};
ghost use Rattle.std.specs.Option.{MatchOption};
ghost use Rattle.std.specs.Str.{IsUtf8};

// Up to so many bytes are tested for ASCII with no loop.
const SHORT: usize = 64;

/// The text that the bytes are, or `None` where they are not UTF-8.
#[inline(always)]
pub(crate) fn text_of(bytes: &[u8]) -> Option<&str>
    ensures { MatchOption result (IsUtf8 bytes.now → ⊥)
        (λ text. (text.now ≡ bytes.now) × IsUtf8 bytes.now) }
{
    // Most texts are short and ASCII. To decode one would take longer than most checks of it.
    if bytes.len() <= SHORT && bytes.is_ascii() {
        return Some(unsafe { str::from_utf8_unchecked(bytes) });
    }
    str::from_utf8(bytes).ok()
}
