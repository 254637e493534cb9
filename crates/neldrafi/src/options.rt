//! The arguments that several subcommands have.

use crate::building::{Argument, Takes};
use crate::drafts::{DEFAULT_DRAFT_NAME, DRAFT_NAMES, draft_named};
use crate::message_form::MessageForm;
use clap::ArgMatches;
use std::env;
use std::env::VarError;
use std::io::IsTerminal;
use strkw_report::Draft;

/// The name of the option `--output`.
pub(crate) const OUTPUT_NAME: &str = "output";

/// The name of the form of text.
pub(crate) const TEXT: &str = "text";

/// The name of the form of lines of JSON.
pub(crate) const JSON: &str = "json";

// The names of the forms.
const FORM_NAMES: &[&str] = &[TEXT, JSON];

// When there are colours: on a terminal, always, or never.
const AUTO: &str = "auto";

const ALWAYS: &str = "always";

const NEVER: &str = "never";

// These words.
const COLOR_NAMES: &[&str] = &[AUTO, ALWAYS, NEVER];

// The variable by which the environment wants no colours (no-color.org).
const NO_COLOR: &str = "NO_COLOR";

/// The form in which lines are written.
#[derive(Clone, Copy, Debug, PartialEq, Eq)]
pub(crate) enum OutputForm {
    /// Lines of text.
    Text,
    /// An object of JSON on each line.
    Json,
}

impl OutputForm {
    /// What the option `--output` says.
    pub(crate) fn of(matches: &ArgMatches<'_>) -> OutputForm {
        if matches.get_str(OUTPUT_NAME) == Some(JSON) {
            OutputForm::Json
        } else {
            OutputForm::Text
        }
    }
}

/// The option `--output`.
pub(crate) const OUTPUT: Argument = Argument {
    name: OUTPUT_NAME,
    takes: Takes::OneOf {
        value: "FORM",
        words: FORM_NAMES,
        default: TEXT,
    },
    conflicts: &[],
    help: "The form of each line: text, or an object of JSON",
};

// Whether the environment wants no colours: the variable is there, and not empty.
fn has_no_color(rt: &HostRuntime) -> bool {
    match env::var(rt, NO_COLOR) {
        Ok(value) => !value.is_empty(),
        Err(VarError::NotPresent) => false,
        // It is there and is not UTF-8, or it is out of memory.
        Err(_) => true,
    }
}

// Whether messages have colours.
fn is_coloured(rt: &HostRuntime, matches: &ArgMatches<'_>) -> bool {
    let is_asked = match matches.get_str(COLOR.name) {
        Some(ALWAYS) => true,
        Some(AUTO) => rt.stdout().is_terminal(),
        _ => false,
    };
    is_asked && MessageForm::of(matches) == MessageForm::Text && !has_no_color(rt)
}

/// The option `--color`.
pub(crate) const COLOR: Argument = Argument {
    name: "color",
    takes: Takes::OneOf {
        value: "WHEN",
        words: COLOR_NAMES,
        default: AUTO,
    },
    conflicts: &[],
    help: "When messages have colours: on a terminal, always or never; with NO_COLOR never",
};

/// What is wanted of the lines of the standard output.
#[derive(Clone, Copy)]
pub(crate) struct Wanted {
    /// None are written.
    pub is_quiet: bool,
    /// They have colours.
    pub is_coloured: bool,
    /// No more than so many are written about a file.
    pub most_messages: Option<u64>,
    /// In which form.
    pub form: MessageForm,
}

impl Wanted {
    /// All lines are written.
    pub(crate) fn all_lines() -> Wanted {
        Wanted {
            is_quiet: false,
            is_coloured: false,
            most_messages: None,
            form: MessageForm::Text,
        }
    }

    /// What the options `--quiet`, `--color`, `--max-errors` and `--output` say.
    pub(crate) fn of(rt: &HostRuntime, matches: &ArgMatches<'_>) -> Wanted {
        Wanted {
            is_quiet: matches.get_flag(QUIET.name),
            is_coloured: is_coloured(rt, matches),
            most_messages: matches.get_one::<u64>(MAX_ERRORS.name),
            form: MessageForm::of(matches),
        }
    }
}

/// The option `--quiet`.
pub(crate) const QUIET: Argument = Argument {
    name: "quiet",
    takes: Takes::NothingBy('q'),
    conflicts: &[],
    help: "Write nothing to standard output: the status alone tells",
};

/// The option `--max-errors`.
pub(crate) const MAX_ERRORS: Argument = Argument {
    name: "max-errors",
    takes: Takes::Number("N"),
    conflicts: &[],
    help: "Stop after N messages about a file",
};

/// The option `--allow-unknown`.
pub(crate) const ALLOW_UNKNOWN: Argument = Argument {
    name: "allow-unknown",
    takes: Takes::Nothing,
    conflicts: &[],
    help: "Ignore keywords and formats in the schema that are not known; `x-..` is always ignored",
};

/// The option `--document`.
pub(crate) const DOCUMENT: Argument = Argument {
    name: "document",
    takes: Takes::Values("URI=FILE"),
    conflicts: &[],
    help: "A further document, to which references lead by its URI",
};

/// The option `--draft`.
pub(crate) const DRAFT: Argument = Argument {
    name: "draft",
    takes: Takes::OneOf {
        value: "DRAFT",
        words: DRAFT_NAMES,
        default: DEFAULT_DRAFT_NAME,
    },
    conflicts: &[],
    help: "The draft of JSON Schema",
};

/// The draft that the option `--draft` names.
pub(crate) fn draft_of(matches: &ArgMatches<'_>) -> Draft {
    draft_named(matches.get_str(DRAFT.name))
}

/// The files to check.
pub(crate) const FILES: Argument = Argument {
    name: "FILE",
    takes: Takes::Words,
    conflicts: &[],
    help: "Files to check; `-` is standard input, and so is no file at all",
};
