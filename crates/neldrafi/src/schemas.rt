//! The schema of the command line: its file, and why a keyword of it is refused.

ghost use Rattle.std.specs.Prelude.{◌≡◌, ℕ, List, Some, IfOk, IsSomeAnd};
ghost use Rattle.json.specs.Json.{document};
ghost use Rattle.json.specs.Strict.{HasUniqueKeys};
ghost use Rattle.serde_json.specs.Read.{read};
ghost use Rattle.serde_json.specs.View.{view};

use crate::distinct::{TextFault, read_distinct};
use crate::faults::{Fault, Reach};
use neldrafi_check::Shown;
use serde_json::Value;
use std::alloc::{AllocError, Global};
use std::{fs, io};
use strkw_ecma::why_refused_leniently;
use strkw_report::{CompileError, CompileErrorKind};

// A byte order mark.
const MARK: char = '\u{FEFF}';

/// The JSON value of the file of a schema, in which no object has two members of one name. A byte order mark may stand
/// before the text (RFC 8259, section 8.1): it is passed over.
pub(crate) fn read_schema(rt: &HostRuntime, path: &str) -> Result<Value, Fault>
    ensures { IfOk result (λ v. (text : List ℕ) × (read text ≡ Some (view v))
        × IsSomeAnd (document text) HasUniqueKeys) }
{
    let text = match fs::read_to_string(rt, path) {
        Ok(text) => text,
        Err(error) => return Err(unread_fault(rt.alloc(), path, error)),
    };
    let text = text.as_str();
    match read_distinct(rt.alloc(), text.strip_prefix(MARK).unwrap_or(text)) {
        Ok(schema) => Ok(schema),
        Err(fault) => Err(text_fault(rt.alloc(), path, fault)),
    }
}

// The fault that the file of a schema cannot be read.
fn unread_fault(alloc: Global, path: &str, error: io::Error) -> Fault {
    if error.kind() == io::ErrorKind::OutOfMemory {
        return Fault::Memory;
    }
    let path = Shown(path);
    let words = format!(in alloc; "`{path}` cannot be read: {error}");
    Fault::with_words(Reach::Run, words)
}

// The fault that the text of a schema's file is no schema's.
fn text_fault(alloc: Global, path: &str, fault: TextFault) -> Fault {
    let path = Shown(path);
    let told = match &fault {
        TextFault::Memory => Fault::Memory,
        _ => Fault::with_words(Reach::Run, format!(in alloc; "`{path}`: {fault}")),
    };
    drop(fault);
    told
}

/// Why a keyword is refused.
pub(crate) fn why_of(alloc: Global, refusal: &CompileError) -> Result<String, AllocError> {
    match &refusal.kind {
        CompileErrorKind::UnknownFormat { name, .. } => {
            format!(in alloc; "unknown format \"{name}\"")
        }
        CompileErrorKind::Regex { pattern } => match why_refused_leniently(alloc, pattern)? {
            Some(why) => format!(in alloc; "the pattern \"{pattern}\" is not taken: {why}"),
            None => format!(in alloc; "the pattern \"{pattern}\" is not taken"),
        },
        _ => refusal.text(alloc),
    }
}
