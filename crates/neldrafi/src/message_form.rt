//! The form of the messages of `check`, and of what is told on standard error.

use crate::building::{Argument, Takes};
use crate::options::{JSON, OUTPUT_NAME, TEXT};
use clap::ArgMatches;

// The name of the form of annotations, that of test suites, and that of results.
const GITHUB: &str = "github";

const JUNIT: &str = "junit";

const SARIF: &str = "sarif";

// The names of the forms.
const FORM_NAMES: &[&str] = &[TEXT, JSON, GITHUB, JUNIT, SARIF];

/// The form of messages.
#[derive(Clone, Copy, Debug, PartialEq, Eq)]
pub(crate) enum MessageForm {
    /// Lines of text.
    Text,
    /// An object of JSON on each line.
    Json,
    /// An annotation of GitHub on each line.
    Github,
    /// A document in the XML of JUnit, with a test suite for each file. On standard error there is text.
    Junit,
    /// A document of SARIF, with a result for each message. On standard error there is text.
    Sarif,
}

impl MessageForm {
    /// What the option `--output` says, of `check` or of another subcommand.
    pub(crate) fn of(matches: &ArgMatches<'_>) -> MessageForm {
        match matches.get_str(OUTPUT_NAME) {
            Some(JSON) => MessageForm::Json,
            Some(GITHUB) => MessageForm::Github,
            Some(JUNIT) => MessageForm::Junit,
            Some(SARIF) => MessageForm::Sarif,
            _ => MessageForm::Text,
        }
    }
}

/// The option `--output` of `check`.
pub(crate) const MESSAGE_OUTPUT: Argument = Argument {
    name: OUTPUT_NAME,
    takes: Takes::OneOf {
        value: "FORM",
        words: FORM_NAMES,
        default: TEXT,
    },
    conflicts: &[],
    help: "The form of each line: text, an object of JSON, or an annotation in a GitHub workflow; or a document of JUnit or SARIF",
};
