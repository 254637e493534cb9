//! The text of a line, in which no character is a control character of ASCII below the space.

ghost use Rattle.std.specs.Prelude.{◌++◌, ◌≡◌, ◌≤◌, ℕ, List, OnErr, OnOk, drop, length, take};
ghost use Rattle.strkw_print.specs.Printed.{printed_text};

use std::alloc::{AllocError, Global};

/// Puts a space for each byte below 32 behind so many bytes. Where there is one, what stands there is copied. Out of
/// memory, the bytes before it are as they were.
pub(super) fn print_behind(
    alloc: Global,
    before: usize,
    out: &mut Vec<u8>,
) -> Result<(), AllocError>
    requires { before ≤ length out.old.items }
    ensures ok { OnOk result (out.new.items
        ≡ take before out.old.items ++ printed_text (drop before out.old.items)) }
    ensures err { OnErr result ((more : List ℕ)
        × (out.new.items ≡ take before out.old.items ++ more)) }
{
    let mut is_plain = true;
    for byte in &out[before..] {
        is_plain &= *byte >= 32;
    }
    if is_plain {
        return Ok(());
    }
    let said = Vec::from_slice(alloc, &out[before..])?;
    out.truncate(before);
    push_printed(&said, out)
}

// Appends a text, with a space for each of its bytes below 32.
fn push_printed(text: &[u8], out: &mut Vec<u8>) -> Result<(), AllocError>
    ensures ok { OnOk result (out.new.items ≡ out.old.items ++ printed_text text.now) }
    ensures err { OnErr result ((more : List ℕ) × (out.new.items ≡ out.old.items ++ more)) }
{
    for byte in text {
        out.push(if *byte < 32 { 32 } else { *byte })?;
    }
    Ok(())
}
