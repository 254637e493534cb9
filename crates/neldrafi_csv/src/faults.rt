//! Why no record is read.

use std::alloc::AllocError;
use std::{fmt, io};

/// Why no record is read.
#[derive(Clone, Copy, Debug)]
pub enum ReadFault {
    /// The source cannot be read.
    Read(io::Error),
    /// An escaped field is not closed.
    OpenQuote {
        /// The line on which it begins, from 1.
        line: u64,
    },
    /// Out of memory.
    Memory,
    /// There are more lines than a `u64` counts.
    TooLong,
}

impl From<AllocError> for ReadFault {
    ghost use Rattle.std.specs.Prelude.{◌≡◌};
    ghost use Rattle.neldrafi_csv.specs.declared.faults.ReadFault.TheVariants.{Memory};

    ghost from_gives = { λ _ fault. fault ≡ Memory };

    fn from(_e: AllocError) -> ReadFault {
        ReadFault::Memory
    }
}

impl From<io::Error> for ReadFault {
    ghost use Rattle.std.specs.Prelude.{◌≡◌};
    ghost use Rattle.neldrafi_csv.specs.declared.faults.ReadFault.TheVariants.{Read};

    ghost from_gives = { λ error fault. fault ≡ Read error };

    fn from(e: io::Error) -> ReadFault {
        ReadFault::Read(e)
    }
}

impl fmt::Display for ReadFault {
    fn fmt<W: fmt::Write>(&self, f: &mut fmt::Formatter<W>) -> fmt::Result {
        match self {
            ReadFault::Read(e) => write!(f, "read failed: {e}"),
            ReadFault::OpenQuote { line } => {
                write!(f, "{line}: a quote that begins here is not closed")
            }
            ReadFault::Memory => f.write_str("out of memory"),
            ReadFault::TooLong => f.write_str("the file has too many lines"),
        }
    }
}

impl std::error::Error for ReadFault {}
