//! What the parser of the command line answers in place of a command: a fault, help, or the version.

use crate::faults::{Fault, Reach};
use crate::outcome::Outcome;
use crate::output::write_text;
use clap::Error;
use clap::error::ErrorKind;
use neldrafi_check::push_shown;
use std::alloc::{AllocError, Global};

// What the texts of the parser's errors begin with.
const ERROR: &str = "error: ";

// What a line of advice in them begins with.
const TIP: &str = "tip: ";

/// The fault that tells what is wrong with the words, on one line.
pub(crate) fn fault_of(alloc: Global, error: &Error) -> Fault {
    if error.kind() == ErrorKind::OutOfMemory {
        return Fault::Memory;
    }
    Fault::with_words(Reach::Run, one_line(alloc, error))
}

// The first paragraph of an error's text and its advice, on one line.
fn one_line(alloc: Global, error: &Error) -> Result<String, AllocError> {
    let text = error.to_string(alloc)?;
    let mut line = String::new(alloc);
    push_one_line(&text, &mut line)?;
    Ok(line)
}

// Appends the first paragraph of a text and its advice, on one line.
fn push_one_line(text: &str, line: &mut String) -> Result<(), AllocError> {
    let mut is_first = true;
    for part in text.strip_prefix(ERROR).unwrap_or(text).lines() {
        let part = part.trim();
        if part.is_empty() {
            is_first = false;
        } else if part.starts_with(TIP) {
            line.push_str("; ")?;
            push_shown(part, line)?;
        } else if is_first {
            if !line.is_empty() {
                line.push_str(" ")?;
            }
            push_shown(part, line)?;
        }
    }
    Ok(())
}

/// Writes the help or the version that was asked for.
pub(crate) fn show(rt: &HostRuntime, asked: &Error) -> Result<Outcome, Fault> {
    let text = asked.to_string(rt.alloc())?;
    write_text(rt, &text)?;
    Ok(Outcome::AllValid)
}
