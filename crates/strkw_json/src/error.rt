//! Why no JSON value was read.

ghost use Rattle.std.specs.Prelude.{◌≡◌};
ghost use Rattle.strkw_json.specs.ErrorTexts.{error_text};
ghost use Rattle.strkw_json.specs.declared.error.JsonError.TheVariants.{NotJson, Memory};

use json::Invalid;
use std::alloc::{AllocError, AllocFailed};
use std::error::Error;
use std::fmt;

/// Why no JSON value was read.
#[derive(Debug, Clone, Copy, PartialEq, Eq)]
pub enum JsonError {
    /// There is none, or one that `serde_json` refuses.
    NotJson,
    /// Out of memory.
    Memory,
}

impl From<AllocError> for JsonError {
    ghost from_gives = { λ _ e. e ≡ Memory };

    fn from(_e: AllocError) -> Self {
        Self::Memory
    }
}

impl<T: Drop> From<AllocFailed<T>> for JsonError {
    ghost from_gives = { λ _ e. e ≡ Memory };

    fn from(_e: AllocFailed<T>) -> Self {
        Self::Memory
    }
}

impl From<Invalid> for JsonError {
    ghost from_gives = { λ _ e. e ≡ NotJson };

    fn from(_e: Invalid) -> Self {
        Self::NotJson
    }
}

/// `the text is not JSON`, or `out of memory`.
impl fmt::Display for JsonError {
    ghost use Rattle.std.specs.Prelude.{Some};

    ghost output = { λ e. Some (error_text e) };

    fn fmt<W: fmt::Write>(&self, f: &mut fmt::Formatter<W>) -> fmt::Result {
        match self {
            JsonError::NotJson => f.write_str("the text is not JSON"),
            JsonError::Memory => f.write_str("out of memory"),
        }
    }
}

impl Error for JsonError {}
