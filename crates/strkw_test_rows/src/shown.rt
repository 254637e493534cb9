//! Errors and refusals as lines that tell every field.

use serde_json::Value;
use std::alloc::{AllocError, Global};
use std::fmt::Display;
use strkw_report::{CompileError, CompileErrorKind, ErrorKind, Location, ValidationError};

// What a call without memory is shown as.
pub const OUT_OF_MEMORY: &str = "    out of memory\n";

fn push_kind(kind: &ErrorKind, lines: &mut String) -> Result<(), AllocError> {
    match kind {
        ErrorKind::MinLength { limit } => write!(lines, "MinLength {limit}"),
        ErrorKind::MaxLength { limit } => write!(lines, "MaxLength {limit}"),
        ErrorKind::Pattern { pattern } => write!(lines, "Pattern {pattern}"),
        ErrorKind::BacktrackLimitExceeded { pattern } => {
            write!(lines, "BacktrackLimitExceeded {pattern}")
        }
        ErrorKind::RegexEngineFailure { pattern } => write!(lines, "RegexEngineFailure {pattern}"),
        ErrorKind::Format { format } => write!(lines, "Format {format}"),
        ErrorKind::ContentEncoding { name } => write!(lines, "ContentEncoding {name}"),
        ErrorKind::ContentMediaType { name } => write!(lines, "ContentMediaType {name}"),
        ErrorKind::FromUtf8 => lines.push_str("FromUtf8"),
    }
}

// The absolute location of an error, where it has one.
fn push_absolute(error: &ValidationError, lines: &mut String) -> Result<(), AllocError> {
    if let Some(absolute) = &error.absolute {
        lines.push_str(", absolutely ")?;
        lines.push_str(absolute)?;
    }
    lines.push_str("\n")
}

/// Appends an error: its place and its text, and below them its kind, the instance with its place, and the other
/// places. Where it is displayed as another text, a line says so.
pub fn push_error(
    alloc: Global,
    error: &ValidationError,
    lines: &mut String,
) -> Result<(), AllocError> {
    let text = error.text(alloc)?;
    push_told(alloc, error, &text, lines)
}

fn push_told(
    alloc: Global,
    error: &ValidationError,
    text: &str,
    lines: &mut String,
) -> Result<(), AllocError> {
    let (instance, at) = (&error.instance, error.instance_path.as_str());
    let (place, way) = (error.schema_path.as_str(), error.evaluation_path.as_str());
    write!(lines, "    {place}: {text}\n      ")?;
    push_kind(&error.kind, lines)?;
    write!(lines, ", by {way} of {instance} at '{at}'")?;
    push_absolute(error, lines)?;
    if !is_displayed(alloc, error, text)? {
        lines.push_str("      displayed otherwise\n")?;
    }
    if !is_appended(alloc, error, text)? {
        lines.push_str("      appended otherwise\n")?;
    }
    Ok(())
}

// Whether this is what `push_text` appends of an error.
fn is_appended(alloc: Global, error: &ValidationError, text: &str) -> Result<bool, AllocError> {
    let mut appended = Vec::new(alloc);
    let instance = error.instance.as_str().unwrap_or("");
    error.kind.failure().push_text(instance, &mut appended)?;
    Ok(appended.as_slice() == text.as_bytes())
}

/// Whether this is what is displayed.
pub fn is_displayed<D: Display>(alloc: Global, it: &D, text: &str) -> Result<bool, AllocError> {
    Ok(it.to_string(alloc)?.as_str() == text)
}

/// Appends errors in their order.
pub fn push_errors(
    alloc: Global,
    errors: &[ValidationError],
    lines: &mut String,
) -> Result<(), AllocError> {
    for error in errors {
        push_error(alloc, error, lines)?;
    }
    Ok(())
}

fn push_refusal_kind(kind: &CompileErrorKind, out: &mut String) -> Result<(), AllocError> {
    match kind {
        CompileErrorKind::NotString { value } => write!(out, "NotString {value}"),
        CompileErrorKind::Size => out.push_str("Size"),
        CompileErrorKind::UnknownFormat {
            name,
            by_dialect: false,
        } => write!(out, "UnknownFormat {name}"),
        CompileErrorKind::UnknownFormat {
            name,
            by_dialect: true,
        } => write!(out, "UnknownFormat {name}, by the dialect"),
        CompileErrorKind::Regex { pattern } => write!(out, "Regex {pattern}"),
        CompileErrorKind::FractionalNumber => out.push_str("FractionalNumber"),
        CompileErrorKind::Memory => out.push_str("Memory"),
    }
}

/// Appends a refusal: its place and its text, and below them its kind.
pub fn push_refusal(
    alloc: Global,
    refusal: &CompileError,
    out: &mut String,
) -> Result<(), AllocError> {
    let text = refusal.text(alloc)?;
    push_reason(alloc, refusal, &text, out)
}

fn push_reason(
    alloc: Global,
    refusal: &CompileError,
    text: &str,
    out: &mut String,
) -> Result<(), AllocError> {
    let place = refusal.location.as_str();
    write!(out, "  refused {place}: {text}\n    ")?;
    push_refusal_kind(&refusal.kind, out)?;
    out.push_str("\n")?;
    if is_displayed(alloc, refusal, text)? {
        return Ok(());
    }
    out.push_str("    displayed otherwise\n")
}

/// Appends the place of each segment below those before it, as `join` gives it; and a line where `push_below` appends
/// another.
pub fn push_places(alloc: Global, segments: &[Value], out: &mut String) -> Result<(), AllocError> {
    let mut place = Location::root(alloc);
    for segment in segments {
        place = push_place(alloc, &place, segment.as_str().unwrap_or(""), out)?;
    }
    Ok(())
}

fn push_place(
    alloc: Global,
    place: &Location,
    segment: &str,
    out: &mut String,
) -> Result<Location, AllocError> {
    let joined = place.join(segment)?;
    write!(out, "  {joined}\n")?;
    let mut appended = Vec::new(alloc);
    place.push_below(segment, &mut appended)?;
    if appended.as_slice() != joined.as_str().as_bytes() {
        out.push_str("    appended otherwise\n")?;
    }
    Ok(joined)
}
