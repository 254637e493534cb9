//! The command, and its subcommands: each a thin shell over a library.

mod check;
mod explain;
mod formats;
mod infer;
mod text;

use crate::building::{Row, make_all};
use crate::faults::Fault;
use crate::message_form::MessageForm;
use crate::outcome::Outcome;
use clap::{ArgMatches, Command};
use std::alloc::{AllocError, Global};

// The name of the command.
const NAME: &str = "neldrafi";

/// The number in the file `VERSION`.
pub(crate) const VERSION: &str = "0.1.0";

// What it does.
const ABOUT: &str = "Checks files by a JSON Schema, and texts by a format";

// What its help ends with.
const AFTER_HELP: &str = "\
Examples:
  neldrafi text date 2024-02-29
  neldrafi formats
  neldrafi check schema.json server.json events.jsonl
  neldrafi explain schema.json
  neldrafi infer people.csv

Status: 0 all valid, 1 errors, 2 faults";

// A subcommand.
#[derive(Clone, Copy)]
enum Subcommand {
    Text,
    Formats,
    Check,
    Explain,
    Infer,
}

// All of them, as help lists them.
const SUBCOMMANDS: &[Subcommand] = &[
    Subcommand::Text,
    Subcommand::Formats,
    Subcommand::Check,
    Subcommand::Explain,
    Subcommand::Infer,
];

impl<'a> Row<Command<'a>> for Subcommand {
    fn make(&self, alloc: Global) -> Result<Command<'a>, AllocError> {
        match self {
            Subcommand::Text => text::command(alloc),
            Subcommand::Formats => formats::command(alloc),
            Subcommand::Check => check::command(alloc),
            Subcommand::Explain => explain::command(alloc),
            Subcommand::Infer => infer::command(alloc),
        }
    }
}

/// The command with its subcommands. The only error is out of memory.
pub(crate) fn command<'a>(alloc: Global) -> Result<Command<'a>, AllocError> {
    let subcommands = make_all(alloc, SUBCOMMANDS)?;
    Command::new(alloc, NAME)
        .about(ABOUT)
        .version(VERSION)
        .after_help(AFTER_HELP)
        .subcommand_required(true)
        .subcommands(subcommands)?
        .bin_name(NAME)
}

/// The form of messages that the command line names.
pub(crate) fn form_of(matches: &ArgMatches<'_>) -> MessageForm {
    match matches.subcommand() {
        Some((_, matches)) => MessageForm::of(matches),
        None => MessageForm::Text,
    }
}

/// Runs the subcommand that the words name.
pub(crate) fn run(rt: &HostRuntime, matches: &ArgMatches<'_>) -> Result<Outcome, Fault> {
    match matches.subcommand() {
        Some((name, matches)) => run_named(rt, name, matches),
        None => Err(Fault::NoSubcommand),
    }
}

// Runs the subcommand of this name.
fn run_named(rt: &HostRuntime, name: &str, matches: &ArgMatches<'_>) -> Result<Outcome, Fault> {
    match name {
        text::NAME => text::run(rt, matches),
        formats::NAME => formats::run(rt, matches),
        check::NAME => check::run(rt, matches),
        explain::NAME => explain::run(rt, matches),
        infer::NAME => infer::run(rt, matches),
        // The parser lets no other words pass.
        _ => Err(Fault::NoSubcommand),
    }
}
