//! Why the check of a file ends early.

use neldrafi_csv::ReadFault;
use neldrafi_table::TableFault;
use std::alloc::AllocError;
use std::{fmt, io};

/// Why the check of a file ends early.
#[derive(Debug, Drop)]
pub enum CheckFault {
    /// The file cannot be read.
    Unread(io::Error),
    /// The document is not UTF-8.
    NotUtf8,
    /// The document is not JSON (RFC 8259), as this error says.
    NotJson(serde_json::Error),
    /// The table cannot be read on, for this reason.
    Table(TableFault),
    /// The file has more lines or errors than a `u64` counts.
    TooLong,
    /// The messages cannot be written.
    Write,
    /// Out of memory.
    Memory,
}

impl From<AllocError> for CheckFault {
    ghost use Rattle.std.specs.Prelude.{◌≡◌};
    ghost use Rattle.neldrafi_check.specs.declared.faults.CheckFault.TheVariants.{Memory};

    ghost from_gives = { λ _ f. f ≡ Memory };

    fn from(_: AllocError) -> CheckFault {
        CheckFault::Memory
    }
}

impl From<io::Error> for CheckFault {
    ghost use Rattle.neldrafi_check.specs.Faults.{GivesOfReading};

    ghost from_gives = { GivesOfReading };

    fn from(e: io::Error) -> CheckFault {
        match e.kind() {
            io::ErrorKind::OutOfMemory => CheckFault::Memory,
            _ => CheckFault::Unread(e),
        }
    }
}

impl From<TableFault> for CheckFault {
    ghost use Rattle.neldrafi_check.specs.Faults.{GivesOfTable};

    ghost from_gives = { GivesOfTable };

    fn from(fault: TableFault) -> CheckFault {
        match fault {
            TableFault::Record(ReadFault::Read(e)) => CheckFault::from(e),
            TableFault::Record(ReadFault::Memory) | TableFault::Memory => CheckFault::Memory,
            fault => CheckFault::Table(fault),
        }
    }
}

impl fmt::Display for CheckFault {
    fn fmt<W: fmt::Write>(&self, f: &mut fmt::Formatter<W>) -> fmt::Result {
        match self {
            CheckFault::Unread(e) => write!(f, "read failed: {e}"),
            CheckFault::NotUtf8 => f.write_str("not UTF-8"),
            CheckFault::NotJson(e) => write!(f, "not JSON: {e}"),
            CheckFault::Table(fault) => write!(f, "{fault}"),
            CheckFault::TooLong => f.write_str("too many lines or errors"),
            CheckFault::Write => f.write_str("write failed"),
            CheckFault::Memory => f.write_str("out of memory"),
        }
    }
}

impl std::error::Error for CheckFault {}
