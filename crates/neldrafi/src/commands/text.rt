//! `neldrafi text`: whether texts are of a format.

use crate::building::{Argument, Takes, subcommand};
use crate::drafts::draft_name;
use crate::faults::{Fault, Reach};
use crate::inputs::{InputFile, Lines, STANDARD_INPUT};
use crate::known_formats::KnownFormat;
use crate::options::{DRAFT, OUTPUT, OutputForm, QUIET, Wanted, draft_of};
use crate::outcome::Outcome;
use crate::output::{Gathered, Output};
use clap::{ArgMatches, Command};
use neldrafi_check::{Datum, Shown, push_object};
use std::alloc::{AllocError, Global};
use strkw_report::Draft;
use strsim::osa_distance;

/// The name of the subcommand.
pub(crate) const NAME: &str = "text";

// The argument for the name of the format.
const FORMAT: &str = "FORMAT";

// The argument for the texts.
const TEXT: &str = "TEXT";

// What it does.
const ABOUT: &str = "Says whether texts are of a format";

// What its help ends with.
const AFTER_HELP: &str = "\
It writes `valid` or `invalid` for each text, a line each. With `--output json` it writes an
object with `record` (the number of the text, from 1), `format`, `instance` and `valid`.

Examples:
  neldrafi text date 2024-02-29 2023-02-29
  neldrafi text hostname < hosts.txt
  neldrafi text hostname -- -a";

// How long a name may be for which a near one is looked for, in bytes.
const LONGEST_NAME: usize = 64;

// What it takes.
const ARGUMENTS: &[Argument] = &[
    Argument {
        name: FORMAT,
        takes: Takes::Word,
        conflicts: &[],
        help: "The name of a format, as `neldrafi formats` lists them",
    },
    Argument {
        name: TEXT,
        takes: Takes::Words,
        conflicts: &[],
        help: "Texts to judge; without any, each line of standard input is one",
    },
    DRAFT,
    OUTPUT,
    QUIET,
];

/// The subcommand.
pub(crate) fn command<'a>(alloc: Global) -> Result<Command<'a>, AllocError> {
    subcommand(alloc, NAME, ABOUT, AFTER_HELP, ARGUMENTS)
}

// The first format of the draft to whose name one edit leads, where one does.
fn nearest_format(
    alloc: Global,
    draft: Draft,
    name: &str,
) -> Result<Option<&'static str>, AllocError> {
    if name.len() > LONGEST_NAME {
        return Ok(None);
    }
    for format in KnownFormat::all_formats(alloc)? {
        let other = format.as_str();
        if format.is_of(draft) && osa_distance(alloc, name, other)? == 1 {
            return Ok(Some(other));
        }
    }
    Ok(None)
}

// That no format of the draft has this name.
fn unknown_message(alloc: Global, draft: Draft, name: &str) -> Result<String, AllocError> {
    let nearest = nearest_format(alloc, draft, name)?;
    let (name, draft) = (Shown(name), draft_name(draft));
    match nearest {
        Some(nearest) => {
            format!(in alloc;
                "unknown format \"{name}\" in draft {draft}: did you mean \"{nearest}\"?"
            )
        }
        None => format!(in alloc; "unknown format \"{name}\" in draft {draft}"),
    }
}

// The format of a name in a draft.
fn format_named(alloc: Global, draft: Draft, name: &str) -> Result<KnownFormat, Fault> {
    match KnownFormat::by_name(draft, name) {
        Some(format) => Ok(format),
        None => Err(Fault::with_words(Reach::Run, unknown_message(alloc, draft, name))),
    }
}

// Appends a verdict, as text.
fn push_verdict(valid: bool, out: &mut String) -> Result<(), AllocError> {
    out.push_str(if valid { "valid\n" } else { "invalid\n" })
}

// The verdicts on texts, and what they come to.
#[derive(Drop)]
struct Verdicts<'o, 'a> {
    format: KnownFormat,
    form: OutputForm,
    outcome: Outcome,
    lines: Gathered<'o, 'a>,
}

impl Verdicts<'_, '_> {
    // Judges the text of this number.
    fn judge(&mut self, alloc: Global, record: u64, text: &str) -> Result<(), AllocError> {
        let valid = self.format.is_valid(alloc, text)?;
        if !valid {
            self.outcome = Outcome::Errors;
        }
        match self.form {
            OutputForm::Text => push_verdict(valid, &mut self.lines.text),
            OutputForm::Json => self.push_object(alloc, record, text, valid),
        }
    }

    // Appends a verdict, as an object.
    fn push_object(
        &mut self,
        alloc: Global,
        record: u64,
        text: &str,
        valid: bool,
    ) -> Result<(), AllocError> {
        let members = [
            ("record", Datum::Number(record)),
            ("format", Datum::Text(self.format.as_str())),
            ("instance", Datum::Text(text)),
            ("valid", Datum::Flag(valid)),
        ];
        push_object(alloc, &members, &mut self.lines.text)
    }

    // Judges each of the texts.
    fn judge_all(&mut self, alloc: Global, texts: &[&str]) -> Result<(), Fault> {
        let mut record = 0u64;
        for text in texts {
            record = record.saturating_add(1);
            self.judge(alloc, record, text)?;
            self.lines.write_some(false)?;
        }
        Ok(())
    }

    // Judges each of the lines.
    fn judge_lines(&mut self, alloc: Global, lines: &mut Lines) -> Result<(), Fault> {
        for _ in 0..u64::MAX {
            let Some(line) = lines.next_line()? else {
                return Ok(());
            };
            self.judge(alloc, line.number, line.text)?;
            self.lines.write_some(lines.is_drained())?;
        }
        Ok(())
    }

    // Judges each line of standard input.
    fn judge_input(&mut self, rt: &HostRuntime) -> Result<(), Fault> {
        let file = InputFile::open(rt, STANDARD_INPUT)?;
        let mut lines = Lines::new(rt.alloc(), file)?;
        self.judge_lines(rt.alloc(), &mut lines)
    }

    // Writes what is left, and answers what all came to. The verdicts before a fault stay written.
    fn end(mut self, judged: Result<(), Fault>) -> Result<Outcome, Fault> {
        match self.lines.end(judged) {
            Ok(()) | Err(Fault::Closed) => Ok(self.outcome),
            Err(fault) => Err(fault),
        }
    }
}

/// Runs the subcommand.
pub(crate) fn run(rt: &HostRuntime, matches: &ArgMatches<'_>) -> Result<Outcome, Fault> {
    let name = matches.get_str(FORMAT).unwrap_or("");
    let format = format_named(rt.alloc(), draft_of(matches), name)?;
    let mut output = Output::new(rt, Wanted::of(rt, matches));
    let mut verdicts = Verdicts {
        format,
        form: OutputForm::of(matches),
        outcome: Outcome::AllValid,
        lines: Gathered::new(rt.alloc(), &mut output),
    };
    let judged = match matches.get_strs(TEXT) {
        Some(texts) => verdicts.judge_all(rt.alloc(), texts),
        None => verdicts.judge_input(rt),
    };
    verdicts.end(judged)
}
