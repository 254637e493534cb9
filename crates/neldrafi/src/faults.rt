//! Why a run, or the check of a file, ended early; and how that is told.

use crate::inputs::InputFault;
use std::alloc::{AllocError, AllocFailed};
use std::fmt;

/// How far a fault reaches.
#[derive(Clone, Copy, Debug)]
pub(crate) enum Reach {
    /// The whole run: the files that come after are not checked either.
    Run,
    /// One file, which its words do not name.
    File,
    /// One file, which its words name.
    NamedFile,
}

/// Why a run, or the check of a file, ended early. What a library says is put into words as soon as it is said, so that
/// a fault owns one text at most.
#[derive(Debug, Drop)]
pub(crate) enum Fault {
    /// A word of the command line is not UTF-8.
    Words,
    /// The words name no subcommand.
    NoSubcommand,
    /// What these words say.
    Told {
        /// How far it reaches.
        reach: Reach,
        /// The words, as they are shown.
        words: String,
    },
    /// A file cannot be read to its end, or a line of it.
    Input(InputFault),
    /// There are more messages than so many, and no more are wanted.
    Stopped(u64),
    /// Nobody reads the standard output any more.
    Closed,
    /// The standard output could not be written.
    Write,
    /// Out of memory.
    Memory,
}

impl Fault {
    /// What these words say; out of memory, where there was none for them.
    pub(crate) fn with_words(reach: Reach, words: Result<String, AllocError>) -> Fault {
        match words {
            Ok(words) => Fault::Told { reach, words },
            Err(_) => Fault::Memory,
        }
    }

    /// Whether nobody reads the standard output any more.
    pub(crate) fn is_closed(&self) -> bool {
        matches!(self, Fault::Closed)
    }

    /// Whether the files that come after one with this fault are not checked either.
    pub(crate) fn ends_all(&self) -> bool {
        match self {
            Fault::Told { reach, .. } => matches!(reach, Reach::Run),
            Fault::Closed | Fault::Write | Fault::Memory => true,
            _ => false,
        }
    }

    /// Whether it names the file that it is about.
    pub(crate) fn names_file(&self) -> bool {
        match self {
            Fault::Told { reach, .. } => matches!(reach, Reach::NamedFile),
            _ => false,
        }
    }
}

impl From<AllocError> for Fault {
    fn from(_e: AllocError) -> Fault {
        Fault::Memory
    }
}

impl<T: Drop> From<AllocFailed<T>> for Fault {
    fn from(_e: AllocFailed<T>) -> Fault {
        Fault::Memory
    }
}

impl From<InputFault> for Fault {
    fn from(e: InputFault) -> Fault {
        Fault::Input(e)
    }
}

impl fmt::Display for Fault {
    fn fmt<W: fmt::Write>(&self, f: &mut fmt::Formatter<W>) -> fmt::Result {
        match self {
            Fault::Words => f.write_str("a word of the command line is not UTF-8"),
            Fault::NoSubcommand => f.write_str("no subcommand is named"),
            Fault::Told { words, .. } => f.write_str(words),
            Fault::Input(e) => write!(f, "{e}"),
            Fault::Stopped(1) => f.write_str("stopped after 1 message"),
            Fault::Stopped(most) => write!(f, "stopped after {most} messages"),
            Fault::Closed => f.write_str("the standard output is closed"),
            Fault::Write => f.write_str("write failed"),
            Fault::Memory => f.write_str("out of memory"),
        }
    }
}
