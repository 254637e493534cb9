//! What a run came to, and the status that says so.

use std::process::ExitCode;

// All that was checked is valid.
const VALID: u8 = 0;

// There are errors.
const ERRORS: u8 = 1;

// There were faults.
const FAULTS: u8 = 2;

/// What a run came to, from the best to the worst.
#[derive(Clone, Copy, Debug, PartialEq, Eq, PartialOrd, Ord)]
pub(crate) enum Outcome {
    /// Nothing that was checked has an error.
    AllValid,
    /// Something has an error.
    Errors,
    /// A fault kept something from being checked to its end.
    Faults,
}

impl Outcome {
    /// What so many errors come to.
    pub(crate) fn of_errors(count: u64) -> Outcome {
        if count == 0 {
            Outcome::AllValid
        } else {
            Outcome::Errors
        }
    }

    /// The status of the process that says so.
    pub(crate) fn status(self) -> ExitCode {
        ExitCode::from(match self {
            Outcome::AllValid => VALID,
            Outcome::Errors => ERRORS,
            Outcome::Faults => FAULTS,
        })
    }
}
