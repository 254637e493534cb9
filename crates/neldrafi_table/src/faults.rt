//! Why a table, or a record of it, is not read.

use neldrafi_csv::ReadFault;
use std::alloc::AllocError;
use std::fmt;

/// Why a table is not read on.
#[derive(Debug, Drop)]
pub enum TableFault {
    /// The file has no record that names the columns.
    NoHeader,
    /// The fields of the first record are no names.
    Names {
        /// The line on which the record begins, from 1.
        line: u64,
        /// Why they are none: `MisplacedQuote` or `NotUtf8`.
        why: RowFault,
    },
    /// Two columns have this name.
    Duplicate(String),
    /// The file cannot be read, or an escaped field is not closed.
    Record(ReadFault),
    /// Out of memory.
    Memory,
}

impl From<AllocError> for TableFault {
    ghost use Rattle.std.specs.Prelude.{◌≡◌};
    ghost use Rattle.neldrafi_table.specs.declared.faults.TableFault.TheVariants.{Memory};

    ghost from_gives = { λ _ fault. fault ≡ Memory };

    fn from(_e: AllocError) -> TableFault {
        TableFault::Memory
    }
}

impl From<ReadFault> for TableFault {
    ghost use Rattle.std.specs.Prelude.{◌≡◌};
    ghost use Rattle.neldrafi_table.specs.declared.faults.TableFault.TheVariants.{Record};

    ghost from_gives = { λ e fault. fault ≡ Record e };

    fn from(e: ReadFault) -> TableFault {
        TableFault::Record(e)
    }
}

impl fmt::Display for TableFault {
    fn fmt<W: fmt::Write>(&self, f: &mut fmt::Formatter<W>) -> fmt::Result {
        match self {
            TableFault::NoHeader => f.write_str("no header: the file has no record"),
            TableFault::Names { line, why } => write!(f, "{line}: {why}"),
            TableFault::Duplicate(name) => write!(f, "two columns are named {name:?}"),
            TableFault::Record(fault) => write!(f, "{fault}"),
            TableFault::Memory => f.write_str("out of memory"),
        }
    }
}

impl std::error::Error for TableFault {}

/// Why a record is no object.
#[derive(Clone, Copy, Debug, PartialEq, Eq)]
pub enum RowFault {
    /// In the field of this number, from 1, a quote is misplaced; it is the first such field.
    MisplacedQuote(usize),
    /// It has another number of fields than the table has columns.
    Fields {
        /// How many fields it has.
        found: usize,
        /// How many columns the table has.
        expected: usize,
    },
    /// The field of this number, from 1, is the first that is not UTF-8.
    NotUtf8(usize),
}

impl fmt::Display for RowFault {
    fn fmt<W: fmt::Write>(&self, f: &mut fmt::Formatter<W>) -> fmt::Result {
        match self {
            RowFault::MisplacedQuote(field) => {
                write!(
                    f,
                    "a quote in field {field} must be doubled and the field quoted"
                )
            }
            RowFault::Fields { found, expected: 1 } => {
                write!(f, "expected 1 field, found {found}")
            }
            RowFault::Fields { found, expected } => {
                write!(f, "expected {expected} fields, found {found}")
            }
            RowFault::NotUtf8(field) => write!(f, "field {field} is not UTF-8"),
        }
    }
}
