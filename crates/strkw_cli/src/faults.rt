//! Why a run ended before the end of its input.

ghost use Rattle.std.specs.Prelude.{◌≡◌};
ghost use Rattle.strkw_cli.specs.Faults.{fault_text};
ghost use Rattle.strkw_cli.specs.declared.faults.RunFault.TheVariants.{Memory};

use std::alloc::AllocError;
use std::error::Error;
use std::fmt;

/// Why a run ended before it had answered all of its input.
#[derive(Clone, Copy, Debug, PartialEq, Eq)]
pub enum RunFault {
    /// The source failed.
    Read,
    /// The sink failed.
    Write,
    /// Out of memory.
    Memory,
    /// As many reads as a `u64` counts each gave bytes.
    TooLong,
}

impl RunFault {
    /// What is said of the fault: `strkw: read failed`, `strkw: write failed`, `strkw: out of memory` or
    /// `strkw: input too long`.
    pub fn text(&self) -> &'static str
        ensures { result.now ≡ fault_text self.now }
    {
        match self {
            RunFault::Read => "strkw: read failed",
            RunFault::Write => "strkw: write failed",
            RunFault::Memory => "strkw: out of memory",
            RunFault::TooLong => "strkw: input too long",
        }
    }
}

impl From<AllocError> for RunFault {
    ghost from_gives = { λ _ e. e ≡ Memory };

    fn from(_e: AllocError) -> Self {
        Self::Memory
    }
}

/// What `RunFault::text` gives.
impl fmt::Display for RunFault {
    ghost use Rattle.std.specs.Prelude.{Some};

    ghost output = { λ fault. Some (fault_text fault) };

    fn fmt<W: fmt::Write>(&self, f: &mut fmt::Formatter<W>) -> fmt::Result {
        f.write_str(self.text())
    }
}

impl Error for RunFault {}

/// Why a run whose lines have a bound ended before it had answered all of its input.
#[derive(Clone, Copy, Debug, PartialEq, Eq)]
pub enum BoundedRunFault {
    /// It ended as a run without a bound does.
    Run(RunFault),
    /// A line is longer than so many bytes, without its line feed.
    LongLine(usize),
}

/// `strkw: a line is longer than N bytes`, or what `RunFault::text` gives.
impl fmt::Display for BoundedRunFault {
    fn fmt<W: fmt::Write>(&self, f: &mut fmt::Formatter<W>) -> fmt::Result {
        match self {
            BoundedRunFault::Run(fault) => write!(f, "{fault}"),
            BoundedRunFault::LongLine(longest) => {
                write!(f, "strkw: a line is longer than {longest} bytes")
            }
        }
    }
}

impl Error for BoundedRunFault {}
