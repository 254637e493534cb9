//! The texts of lines.

ghost use Rattle.std.specs.Prelude.{◌≡◌, IfOk, option_map};
ghost use Rattle.serde_json.specs.Read.{read};
ghost use Rattle.serde_json.specs.View.{view};
ghost use Rattle.neldrafi_check.specs.Files.{is_blank};
ghost use Rattle.neldrafi_check.specs.machine.Lines.{without_end};

use json::{Reader, Scratch};
use serde_json::Value;
use std::alloc::{AllocError, Global};
use strkw_json::{JsonError, build_json};

// How deep arrays and objects may nest.
const MAX_DEPTH: usize = 127;

/// Why a text is not JSON, without the line and column there.
pub(crate) fn without_place(why: &str) -> &str {
    match why.rsplit_once(" at line ") {
        Some((words, _)) => words,
        None => why,
    }
}

/// Whether a text is white space alone (RFC 8259, section 2).
pub(crate) fn is_blank(text: &str) -> bool
    ensures { result ≡ is_blank text.now }
{
    text.as_bytes()
        .iter()
        .all(|byte| matches!(*byte, b' ' | b'\t' | b'\n' | b'\r'))
}

/// The value of a JSON text, or `None` if it is none. The only error is out of memory.
pub(crate) fn read_value(
    alloc: Global,
    text: &str,
    scratch: &mut Scratch,
) -> Result<Option<Value>, AllocError>
    ensures { IfOk result (λ value. option_map view value ≡ read text.now) }
{
    let mut tokens = Reader::new(text, scratch)?;
    match build_json(alloc, &mut tokens, MAX_DEPTH) {
        Ok(value) => {
            if tokens.next().is_none() {
                Ok(Some(value))
            } else {
                Ok(None)
            }
        }
        Err(JsonError::NotJson) => Ok(None),
        Err(JsonError::Memory) => Err(AllocError),
    }
}

/// A line without LF or CR LF at its end.
pub(crate) fn without_end(line: &[u8]) -> &[u8]
    ensures { result.now ≡ without_end line.now }
{
    match line.strip_suffix(b"\n") {
        Some(line) => line.strip_suffix(b"\r").unwrap_or(line),
        None => line,
    }
}
