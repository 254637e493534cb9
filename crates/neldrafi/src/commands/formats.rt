//! `neldrafi formats`: a table of the formats.

use crate::building::{Argument, subcommand};
use crate::drafts::{DRAFTS, draft_name};
use crate::faults::Fault;
use crate::known_formats::KnownFormat;
use crate::options::{OUTPUT, OutputForm};
use crate::outcome::Outcome;
use crate::output::write_text;
use clap::{ArgMatches, Command};
use neldrafi_check::{Datum, push_object};
use std::alloc::{AllocError, Global};

/// The name of the subcommand.
pub(crate) const NAME: &str = "formats";

// What it does.
const ABOUT: &str = "Lists the formats with their drafts and an example of each";

// What its help ends with.
const AFTER_HELP: &str = "\
The columns are the name, the first and the last draft that has the format, and a text of it.
With `--output json` each format is an object with `name`, `first`, `last` and `example`.

Examples:
  neldrafi formats
  neldrafi formats --output json";

// What it takes.
const ARGUMENTS: &[Argument] = &[OUTPUT];

/// The subcommand.
pub(crate) fn command<'a>(alloc: Global) -> Result<Command<'a>, AllocError> {
    subcommand(alloc, NAME, ABOUT, AFTER_HELP, ARGUMENTS)
}

// The names of the first and the last draft that has a format.
fn drafts_of(format: KnownFormat) -> (&'static str, &'static str) {
    let mut first = "";
    let mut last = "";
    for draft in DRAFTS {
        if format.is_of(*draft) {
            last = draft_name(*draft);
            if first.is_empty() {
                first = last;
            }
        }
    }
    (first, last)
}

// Appends a row of the table.
fn push_row(
    name: &str,
    first: &str,
    last: &str,
    example: &str,
    out: &mut String,
) -> Result<(), AllocError> {
    writeln!(out, "{name:<21}  {first:<7}  {last:<7}  {example}")
}

// Appends the table.
fn push_table(alloc: Global, out: &mut String) -> Result<(), AllocError> {
    push_row("name", "first", "last", "example", out)?;
    for format in KnownFormat::all_formats(alloc)? {
        let (first, last) = drafts_of(format);
        push_row(format.as_str(), first, last, format.example(), out)?;
    }
    Ok(())
}

// Appends an object for each format.
fn push_objects(alloc: Global, out: &mut String) -> Result<(), AllocError> {
    for format in KnownFormat::all_formats(alloc)? {
        let (first, last) = drafts_of(format);
        let members = [
            ("name", Datum::Text(format.as_str())),
            ("first", Datum::Text(first)),
            ("last", Datum::Text(last)),
            ("example", Datum::Text(format.example())),
        ];
        push_object(alloc, &members, out)?;
    }
    Ok(())
}

/// Runs the subcommand.
pub(crate) fn run(rt: &HostRuntime, matches: &ArgMatches<'_>) -> Result<Outcome, Fault> {
    let mut table = String::new(rt.alloc());
    match OutputForm::of(matches) {
        OutputForm::Text => push_table(rt.alloc(), &mut table)?,
        OutputForm::Json => push_objects(rt.alloc(), &mut table)?,
    }
    write_text(rt, &table)?;
    Ok(Outcome::AllValid)
}
