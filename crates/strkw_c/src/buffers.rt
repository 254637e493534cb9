//! A caller's buffer, and the count beside it.

ghost use Rattle.std.specs.Prelude.{◌≡◌, length};
ghost use Rattle.std.specs.Bool.{MatchBool};
ghost use Rattle.strkw_c.specs.Buffers.{IsPut, IsTooLong};

/// Puts a text at the head of a buffer, and its count beside it. False where the buffer has too little room: it stays
/// as it was, and the count tells the room that is needed.
pub(crate) fn put(text: &[u8], out: &mut [u8], written: &mut usize) -> bool
    ensures { MatchBool result (IsPut text.now out.old out.new written.new)
        (IsTooLong text.now out.old out.new written.new) }
{
    let count = text.len();
    *written = count;
    if out.len() < count {
        return false;
    }
    out[..count].copy_from_slice(text);
    true
}
