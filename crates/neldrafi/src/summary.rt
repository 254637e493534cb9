//! How many values and errors each file has, and all together, told on standard error.

use crate::faults::{Fault, Reach};
use crate::message_form::MessageForm;
use crate::telling::Subject;
use neldrafi_check::{Counts, Datum, object};
use std::alloc::{AllocError, Global};
use std::fmt;

// The kind of an object of JSON that tells counts.
const KIND: &str = "summary";

// A number of things of this name.
#[derive(Clone, Copy)]
struct Counted(u64, &'static str);

impl fmt::Display for Counted {
    fn fmt<W: fmt::Write>(&self, f: &mut fmt::Formatter<W>) -> fmt::Result {
        let (count, name) = (self.0, self.1);
        match count {
            1 => write!(f, "1 {name}"),
            _ => write!(f, "{count} {name}s"),
        }
    }
}

/// The counts of the files that were checked to their ends.
#[derive(Drop)]
pub(crate) struct Summary<'a> {
    rt: &'a HostRuntime,
    // The form in which they are told, if they are wanted.
    form: Option<MessageForm>,
    files: u64,
    all: Counts,
}

// The object of JSON with the counts of a file.
fn file_line(alloc: Global, file: &str, counts: Counts) -> Result<String, AllocError> {
    let members = [
        ("errors", Datum::Number(counts.errors)),
        ("file", Datum::Text(file)),
        ("kind", Datum::Text(KIND)),
        ("values", Datum::Number(counts.values)),
    ];
    object(alloc, &members)?.to_string(alloc)
}

// The object of JSON with the counts of so many files.
fn total_line(alloc: Global, files: u64, counts: Counts) -> Result<String, AllocError> {
    let members = [
        ("errors", Datum::Number(counts.errors)),
        ("files", Datum::Number(files)),
        ("kind", Datum::Text(KIND)),
        ("values", Datum::Number(counts.values)),
    ];
    object(alloc, &members)?.to_string(alloc)
}

impl<'a> Summary<'a> {
    /// No files yet. The counts are told in a form, if they are wanted.
    pub(crate) fn new(rt: &'a HostRuntime, form: Option<MessageForm>) -> Summary<'a> {
        Summary {
            rt,
            form,
            files: 0,
            all: Counts::NONE,
        }
    }

    // Tells a line of JSON, unless it is out of memory.
    fn tell_object(&self, line: Result<String, AllocError>) {
        if let Ok(line) = line {
            let _ = eprintln!(self.rt; "{line}");
        }
    }

    /// Tells the counts of a file, and adds them to those of all.
    pub(crate) fn add(&mut self, subject: Subject<'_>, counts: Counts) -> Result<(), Fault> {
        let Some(form) = self.form else {
            return Ok(());
        };
        let alloc = self.rt.alloc();
        let Ok(all) = self.all.plus(counts) else {
            let words = String::from_str(alloc, "too many values or errors");
            return Err(Fault::with_words(Reach::Run, words));
        };
        self.all = all;
        self.files = self.files.saturating_add(1);
        if form == MessageForm::Json {
            self.tell_object(file_line(alloc, subject.file.unwrap_or(""), counts));
            return Ok(());
        }
        let (label, values) = (subject.label, Counted(counts.values, "value"));
        let errors = Counted(counts.errors, "error");
        let _ = eprintln!(self.rt; "neldrafi: {label}{values}, {errors}");
        Ok(())
    }

    /// Tells the counts of all files.
    pub(crate) fn end(&self) {
        match self.form {
            None => {}
            Some(MessageForm::Json) => {
                self.tell_object(total_line(self.rt.alloc(), self.files, self.all));
            }
            Some(_) => {
                let (files, values) = (
                    Counted(self.files, "file"),
                    Counted(self.all.values, "value"),
                );
                let errors = Counted(self.all.errors, "error");
                let _ = eprintln!(self.rt; "neldrafi: total: {files}, {values}, {errors}");
            }
        }
    }
}
