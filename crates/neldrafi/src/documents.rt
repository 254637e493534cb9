//! Whole schemas: the further documents of the command line, and why a schema is refused.

use crate::faults::{Fault, Reach};
use crate::schemas::{read_schema, why_of};
use neldrafi_check::Shown;
use neldrafi_schema::{Document, SchemaError, SchemaErrorKind, UnknownKeyword, unknown_keywords};
use serde_json::{Map, Value};
use std::alloc::{AllocError, Global};
use std::fmt::Write;
use strkw_report::Draft;

// What begins the names that a schema may have beside keywords.
const EXTENSION: &str = "x-";

/// A document to which references may lead.
#[derive(Drop)]
pub(crate) struct FurtherDocument {
    uri: String,
    value: Value,
}

impl FurtherDocument {
    // That of a word `URI=FILE`.
    fn read(rt: &HostRuntime, word: &str) -> Result<FurtherDocument, Fault> {
        let Some((uri, path)) = word.rsplit_once('=') else {
            let word = Shown(word);
            let words = format!(in rt.alloc(); "`--document {word}` is not of the form URI=FILE");
            return Err(Fault::with_words(Reach::Run, words));
        };
        let value = read_schema(rt, path)?;
        let uri = String::from_str(rt.alloc(), uri.strip_suffix("#").unwrap_or(uri))?;
        Ok(FurtherDocument { uri, value })
    }
}

/// The further documents that these words name.
pub(crate) fn read_documents(
    rt: &HostRuntime,
    words: &[&str],
) -> Result<Vec<FurtherDocument>, Fault> {
    let mut documents = Vec::new(rt.alloc());
    for word in words {
        documents.push(FurtherDocument::read(rt, word)?)?;
    }
    Ok(documents)
}

/// The same, as a schema takes them. The only error is out of memory.
pub(crate) fn borrowed<'a>(
    alloc: Global,
    documents: &'a [FurtherDocument],
) -> Result<Vec<Document<'a>>, AllocError> {
    let mut all = Vec::new(alloc);
    for document in documents {
        all.push(Document {
            uri: document.uri.as_str(),
            value: &document.value,
        })?;
    }
    Ok(all)
}

/// Refuses a schema with unknown keywords, other than names that begin with `x-`. The fault lists all of them.
pub(crate) fn require_known(alloc: Global, draft: Draft, schema: &Value) -> Result<(), Fault> {
    let mut words = String::new(alloc);
    for unknown in &unknown_keywords(alloc, schema, Some(draft))? {
        if !unknown.name.starts_with(EXTENSION) {
            push_unknown(unknown, &mut words)?;
        }
    }
    if words.is_empty() {
        return Ok(());
    }
    Err(Fault::with_words(Reach::Run, Ok(words)))
}

// The keywords by which values are checked, of all drafts.
const CHECKS: &[&str] = &[
    "$dynamicRef",
    "$recursiveRef",
    "$ref",
    "additionalItems",
    "additionalProperties",
    "allOf",
    "anyOf",
    "const",
    "contains",
    "contentEncoding",
    "contentMediaType",
    "dependencies",
    "dependentRequired",
    "dependentSchemas",
    "enum",
    "exclusiveMaximum",
    "exclusiveMinimum",
    "format",
    "if",
    "items",
    "maxItems",
    "maxLength",
    "maxProperties",
    "maximum",
    "minItems",
    "minLength",
    "minProperties",
    "minimum",
    "multipleOf",
    "not",
    "oneOf",
    "pattern",
    "patternProperties",
    "prefixItems",
    "properties",
    "propertyNames",
    "required",
    "type",
    "unevaluatedItems",
    "unevaluatedProperties",
    "uniqueItems",
];

/// Refuses a schema that checks nothing: `true`, or an object in which no keyword is about values. Any value is valid by
/// such a schema, so it is not the one that was meant.
pub(crate) fn require_checks(alloc: Global, schema: &Value) -> Result<(), Fault> {
    let checks = match schema {
        Value::Bool(true) => false,
        Value::Object(members) => has_checks(members),
        _ => true,
    };
    if checks {
        return Ok(());
    }
    let words = "the schema checks nothing: none of its keywords is about values";
    Err(Fault::with_words(Reach::Run, String::from_str(alloc, words)))
}

fn has_checks(members: &Map<String, Value>) -> bool {
    for keyword in CHECKS {
        if members.contains_key(*keyword) {
            return true;
        }
    }
    false
}

// Appends that a keyword is unknown, after a semicolon unless it is the first.
fn push_unknown(unknown: &UnknownKeyword, words: &mut String) -> Result<(), AllocError> {
    if !words.is_empty() {
        words.push_str("; ")?;
    }
    let (name, location) = (Shown(&unknown.name), Shown(unknown.location.as_str()));
    write!(words, "unknown keyword \"{name}\" at #{location}")?;
    if let Some(nearest) = unknown.nearest {
        write!(words, ": did you mean \"{nearest}\"?")?;
    }
    Ok(())
}

/// The fault for a schema that was refused: the place and the reason.
pub(crate) fn fault_of(alloc: Global, refusal: SchemaError) -> Fault {
    let told = match &refusal.kind {
        SchemaErrorKind::Memory => Fault::Memory,
        _ => Fault::with_words(Reach::Run, words_of(alloc, &refusal)),
    };
    drop(refusal);
    told
}

// Why a schema is refused, and where.
fn words_of(alloc: Global, refusal: &SchemaError) -> Result<String, AllocError> {
    let SchemaErrorKind::Text(text) = &refusal.kind else {
        let text = refusal.text(alloc)?;
        let text = Shown(&text);
        return format!(in alloc; "the schema is refused {text}");
    };
    let why = why_of(alloc, text)?;
    let (uri, location) = (Shown(&refusal.uri), Shown(refusal.location.as_str()));
    let why = Shown(&why);
    format!(in alloc; "the schema is refused at {uri}#{location}: {why}")
}
