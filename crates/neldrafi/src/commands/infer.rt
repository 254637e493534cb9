//! `neldrafi infer`: proposes a JSON Schema for files.

use crate::building::{Argument, Takes, subcommand};
use crate::faults::Fault;
use crate::file_kinds::FileKind;
use crate::files::outcome_of_fault;
use crate::inputs::{InputFile, STANDARD_INPUT};
use crate::options::Wanted;
use crate::outcome::Outcome;
use crate::output::write_text;
use crate::samples::Sample;
use crate::tables::{DELIMITER, EMPTY, NO_HEADER, TableOptions};
use crate::telling::Subject;
use clap::{ArgMatches, Command};
use neldrafi_check::Shown;
use neldrafi_infer::{Hypothesis, Misfit, Suspects, schema_text, suspects_of};
use std::alloc::{AllocError, Global};
use std::fmt::Write;
use strkw_report::push_json_string;

/// The name of the subcommand.
pub(crate) const NAME: &str = "infer";

// The files.
const FILE: &str = "FILE";

// The option for what files are, and its words.
const AS: &str = "as";

const KIND_WORDS: &[&str] = &["json", "jsonl", "csv", "tsv"];

// What it does.
const ABOUT: &str = "Proposes a JSON Schema for files";

// What its help ends with.
const AFTER_HELP: &str = "\
The schema is written to standard output: types, formats, the words that strings are if they
are few, and the members that each object has, in the order of the files. It has no lengths and
no bounds, which a larger file would break. A file is JSON; if its name ends in `.jsonl` or
`.ndjson`, each of its lines is; if it ends in `.csv` or `.tsv`, each record is an object.
Where at least 50 values fit a type or a format and at most one of 100 does not, it is proposed
all the same. The first of the values that do not fit are told on standard error, a line
`FILE:LINE: LOCATION: TEXT` each, in which `*` is each element of an array.

Examples:
  neldrafi infer people.csv > person.json
  neldrafi infer --as jsonl < events > event.json
  neldrafi infer monday.jsonl tuesday.jsonl";

// What it takes.
const ARGUMENTS: &[Argument] = &[
    Argument {
        name: FILE,
        takes: Takes::Words,
        conflicts: &[],
        help: "Files to read; `-` is standard input, and so is no file at all",
    },
    Argument {
        name: AS,
        takes: Takes::OneOfSome {
            value: "KIND",
            words: KIND_WORDS,
        },
        conflicts: &[],
        help: "What each file is, whatever its name",
    },
    DELIMITER,
    EMPTY,
    NO_HEADER,
];

/// The subcommand.
pub(crate) fn command<'a>(alloc: Global) -> Result<Command<'a>, AllocError> {
    subcommand(alloc, NAME, ABOUT, AFTER_HELP, ARGUMENTS)
}

/// Runs the subcommand. A file that cannot be read to its end is told, and there is no schema then.
pub(crate) fn run(rt: &HostRuntime, matches: &ArgMatches<'_>) -> Result<Outcome, Fault> {
    let alloc = rt.alloc();
    let kind = matches.get_str(AS).and_then(FileKind::named);
    let mut sample = Sample::new(alloc, TableOptions::of(alloc, matches)?)?;
    for path in matches.get_strs(FILE).unwrap_or(&[STANDARD_INPUT]) {
        let kind = kind.unwrap_or(FileKind::of_name(path));
        if let Err(fault) = see_file(rt, &mut sample, path, kind) {
            return tell_fault(rt, path, fault);
        }
    }
    write_schema(rt, &sample)?;
    tell_suspects(rt, &sample)?;
    Ok(Outcome::AllValid)
}

// Opens a file, and sees its values.
fn see_file<'a>(
    rt: &HostRuntime,
    sample: &mut Sample<'a>,
    path: &'a str,
    kind: FileKind,
) -> Result<(), Fault> {
    let file = InputFile::open(rt, path)?;
    sample.see_file(rt.alloc(), path, kind, file)
}

// Tells why a file was not read to its end.
fn tell_fault(rt: &HostRuntime, path: &str, fault: Fault) -> Result<Outcome, Fault> {
    let shown = Shown(path);
    let label = format!(in rt.alloc(); "{shown}: ")?;
    let subject = Subject {
        file: Some(path),
        label: &label,
    };
    let told = outcome_of_fault(rt, subject, Wanted::all_lines(), fault)?;
    Ok(told.unwrap_or(Outcome::Faults))
}

// Writes the schema.
fn write_schema(rt: &HostRuntime, sample: &Sample<'_>) -> Result<(), Fault> {
    let text = schema_text(rt.alloc(), &sample.shape)?;
    let mut schema = String::from_utf8_lossy(rt.alloc(), &text)?;
    schema.push_str("\n")?;
    write_text(rt, &schema)
}

// Tells the values that do not fit the schema.
fn tell_suspects(rt: &HostRuntime, sample: &Sample<'_>) -> Result<(), AllocError> {
    for suspects in &suspects_of(rt.alloc(), &sample.shape)? {
        for misfit in &suspects.tally.first {
            let line = misfit_line(rt.alloc(), sample, suspects, misfit)?;
            let _ = eprintln!(rt; "{line}");
        }
        let told = suspects.tally.first.len() as u64;
        let more = suspects.tally.count.saturating_sub(told);
        if 0 < more {
            let line = more_line(rt.alloc(), suspects, more)?;
            let _ = eprintln!(rt; "{line}");
        }
    }
    Ok(())
}

// What a misfit is not.
fn push_hypothesis(hypothesis: Hypothesis, line: &mut String) -> Result<(), AllocError> {
    match hypothesis {
        Hypothesis::OfType(of_type) => {
            let name = of_type.as_str();
            write!(line, "of type \"{name}\"")
        }
        Hypothesis::OfFormat(format) => {
            let name = format.as_str();
            write!(line, "a \"{name}\"")
        }
    }
}

// The text of a misfit, as JSON has it.
fn push_misfit(alloc: Global, misfit: &Misfit, line: &mut String) -> Result<(), AllocError> {
    if !misfit.kind.is_text() {
        return line.push_str(&misfit.text);
    }
    let mut text = Vec::new(alloc);
    push_json_string(&misfit.text, &mut text)?;
    let text = String::from_utf8_lossy(alloc, &text)?;
    let text = Shown(&text);
    write!(line, "{text}")
}

// Appends the place of suspects, unless it is the root.
fn push_location(suspects: &Suspects<'_>, line: &mut String) -> Result<(), AllocError> {
    let location = suspects.location.as_str();
    if location.is_empty() {
        return Ok(());
    }
    let location = Shown(location);
    write!(line, "{location}: ")
}

// The line that tells a misfit.
fn misfit_line(
    alloc: Global,
    sample: &Sample<'_>,
    suspects: &Suspects<'_>,
    misfit: &Misfit,
) -> Result<String, AllocError> {
    let (file, number) = sample.position_of(misfit.line);
    let file = Shown(file);
    let mut line = format!(in alloc; "{file}:{number}: ")?;
    push_location(suspects, &mut line)?;
    push_misfit(alloc, misfit, &mut line)?;
    line.push_str(" is not ")?;
    push_hypothesis(suspects.tally.hypothesis, &mut line)?;
    Ok(line)
}

// The line that tells how many more misfits there are.
fn more_line(alloc: Global, suspects: &Suspects<'_>, more: u64) -> Result<String, AllocError> {
    let mut line = String::from_str(alloc, "neldrafi: ")?;
    push_location(suspects, &mut line)?;
    write!(line, "{more} more not ")?;
    push_hypothesis(suspects.tally.hypothesis, &mut line)?;
    Ok(line)
}
