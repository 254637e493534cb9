//! What is told on standard error: faults, and where messages stop; each on one line.

use crate::message_form::MessageForm;
use neldrafi_check::{AnnotationLevel, Datum, object, push_annotation};
use serde_json::Value;
use std::alloc::{AllocError, Global};
use std::fmt::Display;

/// Of which file something is told.
#[derive(Clone, Copy)]
pub(crate) struct Subject<'a> {
    /// Its path, where one is meant.
    pub file: Option<&'a str>,
    /// What stands before a line of text about it: nothing, where it is the only file.
    pub label: &'a str,
}

impl Subject<'_> {
    /// No file is meant.
    pub(crate) fn none() -> Subject<'static> {
        Subject {
            file: None,
            label: "",
        }
    }
}

/// What is told.
#[derive(Clone, Copy)]
pub(crate) enum Notice {
    /// Why something ended early.
    Fault,
    /// That no more messages are written.
    Stopped,
    /// What may be a mistake.
    Warning,
}

impl Notice {
    // What a line of JSON names it.
    fn as_str(self) -> &'static str {
        match self {
            Notice::Fault => "fault",
            Notice::Stopped => "stopped",
            Notice::Warning => "warning",
        }
    }

    // How severe an annotation of it is.
    fn level(self) -> AnnotationLevel {
        match self {
            Notice::Fault => AnnotationLevel::Error,
            Notice::Stopped => AnnotationLevel::Notice,
            Notice::Warning => AnnotationLevel::Warning,
        }
    }
}

// The object that tells of it.
fn object_of<'x>(
    alloc: Global,
    subject: Subject<'x>,
    notice: Notice,
    message: &'x str,
) -> Result<Value, AllocError> {
    let kind = ("kind", Datum::Text(notice.as_str()));
    let message = ("message", Datum::Text(message));
    match subject.file {
        Some(file) => object(alloc, &[("file", Datum::Text(file)), kind, message]),
        None => object(alloc, &[kind, message]),
    }
}

// The line of JSON that tells of it.
fn json_line<D: Display>(
    alloc: Global,
    subject: Subject<'_>,
    notice: Notice,
    what: &D,
) -> Result<String, AllocError> {
    let message = format!(in alloc; "{what}")?;
    object_of(alloc, subject, notice, &message)?.to_string(alloc)
}

// The annotation that tells of it, with the end of its line.
fn annotation<D: Display>(
    alloc: Global,
    subject: Subject<'_>,
    notice: Notice,
    what: &D,
) -> Result<String, AllocError> {
    let message = format!(in alloc; "{what}")?;
    let mut line = String::new(alloc);
    push_annotation(notice.level(), subject.file, &message, &mut line)?;
    Ok(line)
}

/// Tells of something about a file, on a line of the standard error. Where it is out of memory, nothing is told.
pub(crate) fn tell<D: Display>(
    rt: &HostRuntime,
    form: MessageForm,
    subject: Subject<'_>,
    notice: Notice,
    what: &D,
) {
    match form {
        MessageForm::Text | MessageForm::Junit | MessageForm::Sarif => {
            let label = subject.label;
            let _ = eprintln!(rt; "neldrafi: {label}{what}");
        }
        MessageForm::Json => {
            if let Ok(line) = json_line(rt.alloc(), subject, notice, what) {
                let _ = eprintln!(rt; "{line}");
            }
        }
        MessageForm::Github => {
            if let Ok(line) = annotation(rt.alloc(), subject, notice, what) {
                let _ = eprint!(rt; "{line}");
            }
        }
    }
}
