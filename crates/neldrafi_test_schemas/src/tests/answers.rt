//! Whether the three calls answer as rows say.

use neldrafi_schema::{Config, Fault, Schema, SchemaErrorKind, ValidationError};
use serde_json::Value;
use std::alloc::{AllocError, Global};
use std::test::Fail;
use strkw_pattern::NoPatterns;

/// A document, an instance, and its errors: the text, the place of the instance, that of the keyword, and that of the
/// keyword on the way of evaluation.
pub type Row = (&'static str, &'static str, &'static [&'static str]);

/// Whether the calls answer as all rows say. The failure names the document of a row where they do not.
pub fn are_answered(alloc: Global, rows: &[Row]) -> Result<(), Fail> {
    are_answered_by(alloc, &Config::new(&NoPatterns), rows)
}

/// The same, for documents that are compiled under a configuration.
pub fn are_answered_by(
    alloc: Global,
    config: &Config<'_, NoPatterns>,
    rows: &[Row],
) -> Result<(), Fail> {
    for &(document, instance, lines) in rows {
        if !is_answered(alloc, config, document, instance, lines)? {
            return Err(Fail::new(document));
        }
    }
    Ok(())
}

/// The value of a JSON text, or null where it is none.
pub fn json(alloc: Global, text: &str) -> Result<Value, AllocError> {
    match Value::from_str(alloc, text) {
        Ok(value) => Ok(value),
        Err(error) if error.is_memory() => Err(AllocError),
        Err(_) => Ok(Value::Null),
    }
}

fn line_of(alloc: Global, error: &ValidationError) -> Result<String, AllocError> {
    let text = error.text(alloc)?;
    let place = error.instance_path().as_str();
    let keyword = error.schema_path().as_str();
    let way = error.evaluation_path().as_str();
    format!(in alloc; "{text} at '{place}' by '{keyword}' ('{way}')")
}

fn are_lines(
    alloc: Global,
    errors: &[ValidationError],
    lines: &[&str],
) -> Result<bool, AllocError> {
    if errors.len() != lines.len() {
        return Ok(false);
    }
    for (error, line) in errors.iter().zip(lines) {
        if line_of(alloc, error)?.as_str() != *line {
            return Ok(false);
        }
    }
    Ok(true)
}

fn is_the_first(
    alloc: Global,
    verdict: Result<(), Fault>,
    lines: &[&str],
) -> Result<bool, AllocError> {
    match (verdict, lines) {
        (Ok(()), []) => Ok(true),
        (Err(Fault::Invalid(error)), [line, ..]) => Ok(line_of(alloc, &error)?.as_str() == *line),
        (Err(Fault::Memory), _) => Err(AllocError),
        _ => Ok(false),
    }
}

/// Whether the three calls answer as a row says. An allocation failure of `collect_errors` leaves its list as it was.
pub fn is_answered(
    alloc: Global,
    config: &Config<'_, NoPatterns>,
    document: &str,
    instance: &str,
    lines: &[&str],
) -> Result<bool, AllocError> {
    let (document, instance) = (json(alloc, document)?, json(alloc, instance)?);
    let schema = match Schema::compile(alloc, &document, config) {
        Ok(schema) => schema,
        Err(error) if matches!(error.kind, SchemaErrorKind::Memory) => return Err(AllocError),
        Err(_) => return Ok(false),
    };
    let mut errors = Vec::new(alloc);
    if let Err(error) = schema.collect_errors(alloc, &instance, &mut errors) {
        return if errors.is_empty() {
            Err(error)
        } else {
            Ok(false)
        };
    }
    Ok(
        are_lines(alloc, &errors, lines)?
            && schema.is_valid(alloc, &instance)? == lines.is_empty()
            && is_the_first(alloc, schema.validate(alloc, &instance), lines)?,
    )
}
