//! One command over the libraries: `neldrafi SUBCOMMAND ..`. Each subcommand is a module of `commands`.
#![tactic(auto)]

mod building;
mod colours;
mod commands;
mod distinct;
mod documents;
mod drafts;
mod encodings;
mod explanations;
mod faults;
mod file_kinds;
mod files;
mod inputs;
mod known_formats;
mod message_form;
mod options;
mod outcome;
mod output;
mod report;
mod samples;
mod schemas;
mod summary;
mod tables;
mod telling;
mod usage;

use crate::faults::Fault;
use crate::message_form::MessageForm;
use crate::outcome::Outcome;
use crate::telling::{Notice, Subject, tell};
use clap::{ArgMatches, Error};
use std::env;
use std::io::ErrorKind;
use std::process::ExitCode;

// The words of the command line. The only errors are a word that is not UTF-8, and out of memory.
fn words_of(rt: &HostRuntime) -> Result<Vec<String>, Fault> {
    match env::args(rt) {
        Ok(words) => Ok(words.collect(rt.alloc())?),
        Err(e) if e.kind() == ErrorKind::OutOfMemory => Err(Fault::Memory),
        Err(_) => Err(Fault::Words),
    }
}

// What running came to. A fault is told in this form.
fn tell_outcome(rt: &HostRuntime, form: MessageForm, ran: &Result<Outcome, Fault>) -> Outcome {
    match ran {
        Ok(outcome) => *outcome,
        Err(fault) => {
            tell(rt, form, Subject::none(), Notice::Fault, fault);
            Outcome::Faults
        }
    }
}

// Does what the words of the command line ask for, and tells of a fault. The errors are those of the words.
fn answer(rt: &HostRuntime) -> Result<Outcome, Fault> {
    let words = words_of(rt)?;
    let command = commands::command(rt.alloc())?;
    let parsed = command.try_get_matches_from(words.as_slice());
    let answered = answer_parsed(rt, &parsed);
    drop(parsed);
    answered
}

// Does what the words ask for that were parsed, or tells what the parser answers in its place.
fn answer_parsed(
    rt: &HostRuntime,
    parsed: &Result<ArgMatches<'_>, Error>,
) -> Result<Outcome, Fault> {
    match parsed {
        Ok(matches) => {
            let ran = commands::run(rt, matches);
            Ok(tell_outcome(rt, commands::form_of(matches), &ran))
        }
        Err(e) if e.use_stderr() => Err(usage::fault_of(rt.alloc(), e)),
        Err(e) => usage::show(rt, e),
    }
}

// Answers the command line, and ends with the status that says what came of it.
fn main(rt: HostRuntime) -> ExitCode {
    let answered = answer(&rt);
    tell_outcome(&rt, MessageForm::Text, &answered).status()
}
