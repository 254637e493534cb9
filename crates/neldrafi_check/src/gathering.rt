//! Messages, gathered before they are written.

ghost use Rattle.std.specs.Prelude.{◌≡◌, IfOk, OnOk, [], string_bytes};
ghost use Rattle.std.specs.Io.KnownBytes.{Appends};
ghost use Rattle.neldrafi_check.specs.Files.{UnreadTold};
ghost use Rattle.neldrafi_check.specs.Messages.{Adds};

use crate::counts::Counts;
use crate::faults::CheckFault;
use crate::forms::ErrorForm;
use neldrafi_position::Position;
use std::alloc::{AllocError, Global};
use std::io::Write;

/// So many bytes are read at once, and of messages so many are gathered before they are written.
pub(crate) const PIECE: usize = 65536;

/// Appends why there is no value from a position on.
pub(crate) fn push_unread<F: ErrorForm>(
    alloc: Global,
    form: &F,
    at: Position,
    why: &str,
    out: &mut String,
) -> Result<Counts, AllocError>
    ensures { IfOk result (λ counts. Adds (UnreadTold (F.writes form.now) at.line counts)
        (string_bytes out.old) (string_bytes out.new)) }
{
    form.push_unread(alloc, at, why, out)?;
    Ok(Counts::of_no_value())
}

/// Writes and clears what was gathered.
pub(crate) fn write_out<W: Write>(out: &mut String, writer: &mut W) -> Result<(), CheckFault>
    ensures written { OnOk result
        (Appends (W.contents writer.old) (W.contents writer.new) (string_bytes out.old)) }
    ensures cleared { OnOk result (string_bytes out.new ≡ []) }
{
    if writer.write_all(out.as_bytes()).is_err() {
        return Err(CheckFault::Write);
    }
    out.clear();
    Ok(())
}
