//! Tables of the keywords, of what is set by default, of drafts, built-in formats and faults; and formats by name.

use serde_json::Value;
use std::alloc::AllocError;
use std::cmp::Ordering;
use std::hash::{DefaultHasher, Hash, Hasher};
use strkw_cli::{BoundedRunFault, RunFault};
use strkw_keywords::{BuiltinFormat, Keyword, Options, builtin_format};
use strkw_report::Draft;

const DRAFTS: [Draft; 5] = [
    Draft::Draft4,
    Draft::Draft6,
    Draft::Draft7,
    Draft::Draft201909,
    Draft::Draft202012,
];

const KEYWORDS: [Keyword; 7] = [
    Keyword::ContentMediaType,
    Keyword::ContentEncoding,
    Keyword::ContentSchema,
    Keyword::Format,
    Keyword::MinLength,
    Keyword::MaxLength,
    Keyword::Pattern,
];

const FAULTS: [RunFault; 4] = [
    RunFault::Read,
    RunFault::Write,
    RunFault::Memory,
    RunFault::TooLong,
];

/// Appends the table of a name.
pub fn push_table(name: &str, out: &mut String) -> Result<(), AllocError> {
    match name {
        "keywords" => push_keywords(out),
        "default options" => push_default(out),
        "drafts" => push_drafts(out),
        "built-in formats" => push_formats(out),
        "faults of a run" => push_faults(out),
        _ => out.push_str("no table"),
    }
}

// The keywords in order, with their places.
fn push_keywords(out: &mut String) -> Result<(), AllocError> {
    for keyword in KEYWORDS {
        let (place, name) = (keyword.place(), keyword.as_str());
        let left_out = Options::default().is_overridden(keyword);
        write!(out, "{place} {name}, left out by default: {left_out}\n")?;
    }
    Ok(())
}

fn push_default(out: &mut String) -> Result<(), AllocError> {
    let options = Options::default();
    let (validate, ignore) = (options.validate_formats, options.ignore_unknown_formats);
    let (by_dialect, json) = (options.formats_by_dialect, options.json_media_type);
    let codecs = options.codecs;
    write!(
        out,
        "{validate:?}, {ignore}, {by_dialect}, {json}, {codecs:?}\n"
    )
}

fn hash_of<T: Hash>(value: &T) -> u64 {
    let mut hasher = DefaultHasher::new();
    value.hash(&mut hasher);
    hasher.finish()
}

fn push_drafts(out: &mut String) -> Result<(), AllocError> {
    let mut place = 0u64;
    for draft in DRAFTS {
        let by_place = hash_of(&draft) == hash_of(&place);
        write!(out, "{draft:?}, hashed by place: {by_place}\n")?;
        place = place.wrapping_add(1);
    }
    Ok(())
}

fn push_formats(out: &mut String) -> Result<(), AllocError> {
    let mut place = 0u64;
    for format in BuiltinFormat::VARIANTS {
        push_examples(*format, out)?;
        push_order(place, *format, out)?;
        place = place.wrapping_add(1);
    }
    Ok(())
}

// The name, the example, the window and the texts at its ends, with whether each text is valid.
fn push_examples(format: BuiltinFormat, out: &mut String) -> Result<(), AllocError> {
    let (name, example) = (format.as_str(), format.example());
    let (is_valid, empty) = (format.is_valid(example), format.is_valid(""));
    write!(
        out,
        "{format:?} is {name}\n  {example}: {is_valid}, no text: {empty}\n"
    )?;
    if let Some((least, greatest)) = format.length_window() {
        write!(out, "  {least} to {greatest}\n")?;
    }
    match format.window_texts() {
        None => Ok(()),
        Some((shortest, None)) => push_text(format, shortest, out),
        Some((shortest, Some(longest))) => {
            push_text(format, shortest, out)?;
            push_text(format, longest, out)
        }
    }
}

fn push_text(format: BuiltinFormat, text: &str, out: &mut String) -> Result<(), AllocError> {
    let is_valid = format.is_valid(text);
    write!(out, "  {text}: {is_valid}\n")
}

// Whether a value is less than another, equal or greater; `?` where `cmp`, `<`, `<=` and `==` do not agree.
fn sign<T: Ord>(value: &T, other: &T) -> char {
    match (
        value.cmp(other),
        *value < *other,
        *value <= *other,
        *value == *other,
    ) {
        (Ordering::Less, true, true, false) => '<',
        (Ordering::Equal, false, true, true) => '=',
        (Ordering::Greater, false, false, false) => '>',
        _ => '?',
    }
}

// A sign for each format in order, and whether its hash is that of its place.
fn push_order(place: u64, format: BuiltinFormat, out: &mut String) -> Result<(), AllocError> {
    out.push_str("  ")?;
    for other in BuiltinFormat::VARIANTS {
        out.push(sign(&format, other))?;
    }
    let by_place = hash_of(&format) == hash_of(&place);
    write!(out, ", hashed by place: {by_place}\n")
}

fn push_faults(out: &mut String) -> Result<(), AllocError> {
    for fault in FAULTS {
        let (text, bounded) = (fault.text(), BoundedRunFault::Run(fault));
        write!(out, "{text}, displayed: {fault}, {bounded}\n")?;
    }
    Ok(())
}

/// Appends which built-in format each draft knows by a name, and of which texts it is.
pub fn push_named(name: &str, texts: &[Value], out: &mut String) -> Result<(), AllocError> {
    for draft in DRAFTS {
        let found = builtin_format(draft, name);
        write!(out, "  {draft:?}: {found:?}\n")?;
        if let Some(format) = found {
            push_verdicts(format, texts, out)?;
        }
    }
    Ok(())
}

fn push_verdicts(
    format: BuiltinFormat,
    texts: &[Value],
    out: &mut String,
) -> Result<(), AllocError> {
    for text in texts {
        out.push_str("  ")?;
        push_text(format, text.as_str().unwrap_or(""), out)?;
    }
    Ok(())
}
