//! Errors and refusals as Rust's errors: `Display` writes the text that `text` gives, and takes no memory.

use crate::error::ValidationError;
use crate::location::Location;
use crate::refusal::{CompileError, CompileErrorKind};
use std::error::Error;
use std::fmt;

/// The pointer, as `as_str` gives it.
impl fmt::Display for Location {
    ghost use Rattle.std.specs.Prelude.{Some};

    ghost output = { λ place. Some place };

    fn fmt<W: fmt::Write>(&self, f: &mut fmt::Formatter<W>) -> fmt::Result {
        f.write_str(self.as_str())
    }
}

/// What `ValidationError::text` gives.
impl fmt::Display for ValidationError {
    ghost use Rattle.std.specs.Prelude.{Some};
    ghost use Rattle.strkw_report.specs.Kinds.{text_of};

    ghost output = { λ e. Some (text_of e) };

    fn fmt<W: fmt::Write>(&self, f: &mut fmt::Formatter<W>) -> fmt::Result {
        let wording = self.kind.failure().wording(self.instance_text());
        write!(f, "{wording}")
    }
}

impl Error for ValidationError {}

/// What `CompileError::text` gives.
impl fmt::Display for CompileError {
    ghost use Rattle.strkw_report.specs.Refusals.{reason_of, explanation_if_no_value};

    ghost output = { λ e. explanation_if_no_value (reason_of e.kind) };

    fn fmt<W: fmt::Write>(&self, f: &mut fmt::Formatter<W>) -> fmt::Result {
        let wording = self.kind.wording();
        match &self.kind {
            CompileErrorKind::NotString { value } => write!(f, "{value}{wording}"),
            _ => write!(f, "{wording}"),
        }
    }
}

impl Error for CompileError {}
