//! Why a value cannot be seen.

use std::alloc::{AllocError, AllocFailed};
use std::fmt;

/// Why a value cannot be seen.
#[derive(Clone, Copy, Debug, PartialEq, Eq)]
pub enum PropertyFault {
    /// More values were seen than a `u64` counts.
    TooMany,
    /// Out of memory.
    Memory,
}

impl From<AllocError> for PropertyFault {
    fn from(_e: AllocError) -> PropertyFault {
        PropertyFault::Memory
    }
}

impl<T: Drop> From<AllocFailed<T>> for PropertyFault {
    fn from(_e: AllocFailed<T>) -> PropertyFault {
        PropertyFault::Memory
    }
}

impl fmt::Display for PropertyFault {
    fn fmt<W: fmt::Write>(&self, f: &mut fmt::Formatter<W>) -> fmt::Result {
        f.write_str(match self {
            PropertyFault::TooMany => "too many values",
            PropertyFault::Memory => "out of memory",
        })
    }
}
