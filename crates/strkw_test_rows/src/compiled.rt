//! The validator of one entry and a whole schema object, asked, and what they evaluate to.

use crate::answers::{
    Answers, Asked, Evaluated, Setting, ask_each, lent_errors, push_collected, push_evaluated,
    push_first_error, word,
};
use crate::shown::push_errors;
use std::alloc::{AllocError, Global};
use strkw_keywords::{Checks, Uses, Validate, Validator};
use strkw_object::{Note, ObjectEvaluation, StringKeywords};
use strkw_pattern::RegexEngine;
use strkw_report::{EvaluationResult, Node};

// The name of a validator.
fn name<E>(validator: &Validator<E>) -> &'static str {
    match validator {
        Validator::ContentMediaType(_) => "ContentMediaType",
        Validator::ContentEncoding(_) => "ContentEncoding",
        Validator::ContentMediaTypeAndEncoding(_) => "ContentMediaTypeAndEncoding",
        Validator::ContentMediaTypeAnnotation(_) => "ContentMediaTypeAnnotation",
        Validator::ContentEncodingAnnotation(_) => "ContentEncodingAnnotation",
        Validator::ContentSchemaAnnotation(_) => "ContentSchemaAnnotation",
        Validator::Format(_) => "Format",
        Validator::CustomFormat(_) => "CustomFormat",
        Validator::AnnotationOnlyFormat(_) => "AnnotationOnlyFormat",
        Validator::MinLength(_) => "MinLength",
        Validator::MaxLength(_) => "MaxLength",
        Validator::LengthRange(_) => "LengthRange",
        Validator::PrefixPattern(_) => "PrefixPattern",
        Validator::ExactPattern(_) => "ExactPattern",
        Validator::AlternationPattern(_) => "AlternationPattern",
        Validator::NoWhitespacePattern(_) => "NoWhitespacePattern",
        Validator::Pattern(_) => "Pattern",
    }
}

// What is told of what takes no memory.
fn quiet_word(takes_no_memory: bool) -> &'static str {
    if takes_no_memory {
        ", takes no memory"
    } else {
        ""
    }
}

impl<E: RegexEngine> Asked for Validator<E> {
    fn push_kind(&self, out: &mut String) -> Result<(), AllocError> {
        let (name, (least, greatest)) = (name(self), self.interval());
        let quiet = quiet_word(self.takes_no_memory());
        write!(out, "  {name}, {least} to {greatest}{quiet}\n")
    }

    fn is_in_use(&self, checks: &Checks) -> bool {
        self.uses(checks)
    }

    fn ask<N: Node>(&self, node: &N, by: &Setting, out: &mut Answers) -> Result<bool, AllocError> {
        ask_each!(self, node, by, out)
    }
}

impl<E: RegexEngine> Asked for StringKeywords<E> {
    fn push_kind(&self, out: &mut String) -> Result<(), AllocError> {
        let folds = self.folds_to_false();
        let quiet = quiet_word(self.takes_no_memory());
        write!(out, "  object, folds: {folds}{quiet}\n")
    }

    fn is_in_use(&self, checks: &Checks) -> bool {
        self.uses(checks)
    }

    fn ask<N: Node>(&self, node: &N, by: &Setting, out: &mut Answers) -> Result<bool, AllocError> {
        ask_each!(self, node, by, out)
    }
}

impl Evaluated for EvaluationResult {
    fn push(&self, alloc: Global, answers: &mut Answers) -> Result<(), AllocError> {
        push_errors(alloc, &self.errors, &mut answers.evaluate)?;
        match &self.annotation {
            Some(value) => write!(answers.notes, "    note: {value}\n"),
            None => Ok(()),
        }
    }
}

impl Evaluated for ObjectEvaluation {
    fn push(&self, alloc: Global, answers: &mut Answers) -> Result<(), AllocError> {
        push_errors(alloc, &self.errors, &mut answers.evaluate)?;
        push_notes(&self.notes, &mut answers.notes)
    }
}

fn push_notes(notes: &[Note], lines: &mut String) -> Result<(), AllocError> {
    for note in notes {
        let (place, value) = (note.schema_path.as_str(), &note.value);
        write!(lines, "    note {place}: {value}\n")?;
    }
    Ok(())
}
