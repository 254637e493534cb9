//! What the four calls on one instance answer, as lines.

use crate::shown::{OUT_OF_MEMORY, is_displayed, push_error, push_errors};
use std::alloc::{AllocError, Global};
use strkw_keywords::{Checks, Fault};
use strkw_report::{ErrorKind, Location, Node, Site, ValidationError, error_at};

/// By what a node is asked about: what memory is taken of, where the node stands, and the ranges of the lists.
#[derive(Clone, Copy)]
pub struct Setting<'a> {
    pub alloc: Global,
    pub site: &'a Site,
    pub checks: &'a Checks<'a>,
}

/// What is compiled: one entry, or a whole object.
pub trait Asked {
    /// Appends a line that tells what it is.
    fn push_kind(&self, out: &mut String) -> Result<(), AllocError>;

    /// Whether it is in use with these ranges of the lists.
    fn is_in_use(&self, checks: &Checks) -> bool;

    /// Appends what its four calls answer of a node, where it is in use with these ranges of the lists; and whether it
    /// is.
    fn ask<N: Node>(&self, node: &N, by: &Setting, out: &mut Answers) -> Result<bool, AllocError>;
}

// The body of `ask`. Both types have calls of these names, and no trait has all of them for both.
macro_rules! ask_each {
    ($asked:expr, $node:expr, $by:expr, $out:expr) => {{
        let (alloc, site, checks) = ($by.alloc, $by.site, $by.checks);
        if !$asked.uses(checks) {
            return Ok(false);
        }
        $out.is_valid = word($asked.is_valid(alloc, $node, checks));
        let mut found = lent_errors(alloc)?;
        let outcome = $asked.collect_errors(alloc, $node, site, checks, &mut found);
        push_collected(alloc, outcome, found, &mut $out.collect_errors)?;
        let verdict = $asked.validate(alloc, $node, site, checks);
        push_first_error(alloc, verdict, &mut $out.validate)?;
        push_evaluated(alloc, $asked.evaluate(alloc, $node, site, checks), $out)?;
        Ok(true)
    }};
}

pub(crate) use ask_each;

/// What `evaluate` answers.
pub trait Evaluated: Drop {
    /// Appends its errors and notes.
    fn push(&self, alloc: Global, answers: &mut Answers) -> Result<(), AllocError>;
}

/// The lines of each call.
#[derive(Drop)]
pub struct Answers {
    pub is_valid: &'static str,
    pub validate: String,
    pub collect_errors: String,
    pub evaluate: String,
    pub notes: String,
}

impl Answers {
    // Nothing is answered yet.
    fn new(alloc: Global) -> Answers {
        Answers {
            is_valid: "",
            validate: String::new(alloc),
            collect_errors: String::new(alloc),
            evaluate: String::new(alloc),
            notes: String::new(alloc),
        }
    }

    // One word for `is_valid`, and the errors and notes of `evaluate`. Lines follow for `collect_errors` where it has
    // other errors, and for `validate` where it has not the first of them.
    fn lines(&self, alloc: Global) -> Result<String, AllocError> {
        let (word, errors, notes) = (self.is_valid, &self.evaluate, &self.notes);
        let mut lines = format!(in alloc; "{word}\n{errors}{notes}")?;
        self.push_others(&mut lines)?;
        Ok(lines)
    }

    // Appends what other calls than `evaluate` say, where they say otherwise.
    fn push_others(&self, lines: &mut String) -> Result<(), AllocError> {
        let (errors, collected) = (self.evaluate.as_str(), self.collect_errors.as_str());
        if collected != errors {
            push_otherwise("collect_errors", collected, lines)?;
        }
        let first = self.validate.as_str();
        if !errors.starts_with(first) || first.is_empty() != errors.is_empty() {
            push_otherwise("validate", first, lines)?;
        }
        Ok(())
    }
}

// Appends that a call says otherwise, and what it says.
fn push_otherwise(call: &str, said: &str, lines: &mut String) -> Result<(), AllocError> {
    write!(lines, "    {call} says otherwise\n{said}")
}

/// What the four calls answer of a node, as lines.
pub fn lines<A: Asked, N: Node>(asked: &A, node: &N, by: &Setting) -> Result<String, AllocError> {
    let mut answers = Answers::new(by.alloc);
    if asked.ask(node, by, &mut answers)? {
        answers.lines(by.alloc)
    } else {
        String::from_str(by.alloc, "not in use\n")
    }
}

/// The word for what `is_valid` answered.
pub fn word(is_valid: Result<bool, AllocError>) -> &'static str {
    match is_valid {
        Ok(true) => "valid",
        Ok(false) => "invalid",
        Err(AllocError) => "out of memory",
    }
}

/// Appends the error that `validate` answered, if there is one.
pub fn push_first_error(
    alloc: Global,
    verdict: Result<(), Fault>,
    lines: &mut String,
) -> Result<(), AllocError> {
    let pushed = match &verdict {
        Ok(()) => Ok(()),
        Err(fault) => push_fault(alloc, fault, lines),
    };
    drop(verdict);
    pushed
}

// Appends a fault, and a line where it is displayed otherwise.
fn push_fault(alloc: Global, fault: &Fault, lines: &mut String) -> Result<(), AllocError> {
    let text = match fault {
        Fault::Invalid(error) => {
            push_error(alloc, error, lines)?;
            error.text(alloc)?
        }
        Fault::Memory => {
            lines.push_str(OUT_OF_MEMORY)?;
            String::from_str(alloc, "out of memory")?
        }
    };
    if is_displayed(alloc, fault, &text)? {
        return Ok(());
    }
    lines.push_str("      the fault is displayed otherwise\n")
}

/// Appends what `evaluate` answered.
pub fn push_evaluated<T: Evaluated>(
    alloc: Global,
    outcome: Result<T, AllocError>,
    answers: &mut Answers,
) -> Result<(), AllocError> {
    let pushed = match &outcome {
        Ok(evaluation) => evaluation.push(alloc, answers),
        Err(AllocError) => answers.evaluate.push_str(OUT_OF_MEMORY),
    };
    drop(outcome);
    pushed
}

/// A vector that holds one error, to be lent to `collect_errors`.
pub fn lent_errors(alloc: Global) -> Result<Vec<ValidationError>, AllocError> {
    Ok(vec![in alloc; lent_error(alloc)?]?)
}

fn lent_error(alloc: Global) -> Result<ValidationError, AllocError> {
    let site = Site {
        evaluation: Location::root(alloc),
        instance: Location::root(alloc),
    };
    let root = Location::root(alloc);
    error_at(alloc, ErrorKind::FromUtf8, "k", "lent", &root, &None, &site)
}

const LENT: &str =
    "    /k: \"lent\" does not decode to UTF-8 text\n      FromUtf8, by /k of \"lent\" at ''\n";

/// Appends the errors that `collect_errors` appended to such a vector, or that it was refused and left the vector as it
/// was.
pub fn push_collected(
    alloc: Global,
    outcome: Result<(), AllocError>,
    found: Vec<ValidationError>,
    lines: &mut String,
) -> Result<(), AllocError> {
    let mut all = String::new(alloc);
    let pushed = push_errors(alloc, &found, &mut all);
    drop(found);
    pushed?;
    push_behind_lent(outcome, &all, lines)
}

fn push_behind_lent(
    outcome: Result<(), AllocError>,
    all: &str,
    lines: &mut String,
) -> Result<(), AllocError> {
    match (outcome, all.strip_prefix(LENT)) {
        (_, None) => lines.push_str("    the lent error is another\n"),
        (Ok(()), Some(rest)) => lines.push_str(rest),
        (Err(AllocError), Some("")) => lines.push_str(OUT_OF_MEMORY),
        (Err(AllocError), Some(_)) => lines.push_str("    refused, with errors appended\n"),
    }
}
