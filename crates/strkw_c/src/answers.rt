//! Whole schema objects: requests in, lines of answers out, as the program `strkw` has them.

ghost use Rattle.std.specs.Prelude.{◌≡◌, ◌≤◌, ℕ, List};
ghost use Rattle.strkw_cli.specs.Answer.{IsOutput};
ghost use Rattle.strkw_c.specs.Buffers.{IsPut, IsTooLong};
ghost use Rattle.strkw_c.specs.declared.statuses.TheConstants.{DONE, NO_ROOM, OUT_OF_MEMORY};

use crate::buffers::put;
use crate::statuses::{DONE, NO_ROOM, OUT_OF_MEMORY};
use std::alloc::Global;
use strkw_cli::{MemorySink, MemorySource, run};

/// Answers requests, one a line, as the program does. `DONE`: the answers are at the head of `out`, and their count of
/// bytes is in `written`. `OUT_OF_MEMORY`: both are as they were. `NO_ROOM`: `out` is as it was, and `written` is the
/// room that is needed.
#[unsafe(no_mangle)]
pub extern "C" fn strkw_nonnull_answer(
    alloc: Global,
    requests: &[u8],
    out: &mut [u8],
    written: &mut usize,
) -> u8
    ensures status { result ≤ NO_ROOM }
    ensures done { result ≡ DONE → (answers : List ℕ) × IsOutput requests.now answers
        × IsPut answers out.old out.new written.new }
    ensures refused { result ≡ OUT_OF_MEMORY → (out.new ≡ out.old) × (written.new ≡ written.old) }
    ensures short { result ≡ NO_ROOM → (answers : List ℕ) × IsOutput requests.now answers
        × IsTooLong answers out.old out.new written.new }
{
    let Ok(input) = requests.to_vec(alloc) else {
        return OUT_OF_MEMORY;
    };
    let mut source = MemorySource::new(input);
    let mut sink = MemorySink::new(alloc);
    if run(alloc, &mut source, &mut sink).is_err() {
        return OUT_OF_MEMORY;
    }
    if put(sink.bytes(), out, written) {
        DONE
    } else {
        NO_ROOM
    }
}
