//! References to further documents.

use super::answers::{Row, are_answered_by, json};
use super::refusals::refusal_of;
use neldrafi_schema::{Config, Document};
use serde_json::Value;
use std::alloc::{AllocError, Global};
use std::test::Fail;
use strkw_keywords::Checks;
use strkw_pattern::NoPatterns;

// The documents, with their URIs.
const DOCUMENTS: &[(&str, &str)] = &[
    ("http://example.com/a.json", r#"{"type":"string"}"#),
    (
        "http://example.com/b/b.json",
        r##"{"$defs":{"a":{"$ref":"../a.json"},"n":{"$anchor":"name","type":"null"},"m":{"$ref":"#name"}}}"##,
    ),
    (
        "http://example.com/c.json",
        r#"{"$id":"http://example.com/d/","$ref":"e","$defs":{"e":{"$id":"e","type":"integer"}}}"#,
    ),
    ("http://example.com/a.json", r#"{"type":"null"}"#),
    ("http://example.com/false", "false"),
    (
        "http://example.com/refused",
        r#"{"$defs":{"a":{"type":"number"},"b":{"type":5}}}"#,
    ),
    (
        "http://example.com/circular",
        r##"{"$defs":{"a":{"$ref":"a.json"},"b":{"$ref":"#/$defs/b"}}}"##,
    ),
];

const ROWS: &[Row] = &[
    (
        r#"{"$ref":"http://example.com/a.json"}"#,
        "5",
        &[r#"5 is not of type "string" at '' by '/type' ('/$ref/type')"#],
    ),
    (r##"{"$ref":"http://example.com/a.json#"}"##, r#""a""#, &[]),
    (
        r#"{"properties":{"p":{"$ref":"http://example.com/b/b.json#/$defs/a"},"q":{"$ref":"http://example.com/b/b.json#name"},"r":{"$ref":"http://example.com/b/b.json#/$defs/m"}}}"#,
        r#"{"p":1,"q":2,"r":3}"#,
        &[
            r#"1 is not of type "string" at '/p' by '/type' ('/properties/p/$ref/$ref/type')"#,
            r#"2 is not of type "null" at '/q' by '/$defs/n/type' ('/properties/q/$ref/type')"#,
            r#"3 is not of type "null" at '/r' by '/$defs/n/type' ('/properties/r/$ref/$ref/type')"#,
        ],
    ),
    // a document is known by its URI, and by its own `$id`
    (
        r#"{"items":{"$ref":"http://example.com/c.json"}}"#,
        r#"["a"]"#,
        &[r#""a" is not of type "integer" at '/0' by '/$defs/e/type' ('/items/$ref/$ref/type')"#],
    ),
    (
        r#"{"items":{"$ref":"http://example.com/d/"}}"#,
        r#"["a"]"#,
        &[r#""a" is not of type "integer" at '/0' by '/$defs/e/type' ('/items/$ref/$ref/type')"#],
    ),
    (
        r#"{"items":{"$ref":"http://example.com/d/e"}}"#,
        r#"["a"]"#,
        &[r#""a" is not of type "integer" at '/0' by '/$defs/e/type' ('/items/$ref/type')"#],
    ),
    // the schema itself comes first, and its base URI is empty
    (
        r#"{"$ref":"http://example.com/a.json","$defs":{"a":{"$id":"http://example.com/a.json","type":"null"}}}"#,
        "5",
        &[r#"5 is not of type "null" at '' by '/$defs/a/type' ('/$ref/type')"#],
    ),
    (
        r#"{"$ref":"http://example.com/false"}"#,
        "5",
        &["False schema does not allow 5 at '' by '' ('/$ref')"],
    ),
    (
        r#"{"$ref":"http://example.com/refused#/$defs/a"}"#,
        "5",
        &[],
    ),
];

// A schema, and what its refusal says.
const REFUSALS: &[(&str, &str)] = &[
    (
        r#"{"$ref":"http://example.com/b.json"}"#,
        "at #/$ref: the reference leads to no schema of the given documents",
    ),
    (
        r#"{"$ref":"http://example.com/b/b.json#/$defs/x"}"#,
        "at #/$ref: the reference leads to no schema of the given documents",
    ),
    (
        r#"{"$ref":"http://example.com/refused#/$defs/b"}"#,
        "at http://example.com/refused#/$defs/b/type: the value is not of the kind required here",
    ),
    (
        r#"{"$ref":"http://example.com/refused"}"#,
        "at http://example.com/refused#/$defs/b/type: the value is not of the kind required here",
    ),
    (
        r#"{"$ref":"http://example.com/circular"}"#,
        "at http://example.com/circular#/$defs/b/$ref: the reference leads back to itself, and does not enter the instance on the way",
    ),
    (
        r#"{"$ref":"http://example.com/refused","type":5}"#,
        "at #/type: the value is not of the kind required here",
    ),
];

fn values(alloc: Global) -> Result<Vec<Value>, AllocError> {
    let mut values = Vec::new(alloc);
    for (_, text) in DOCUMENTS {
        values.push(json(alloc, text)?)?;
    }
    Ok(values)
}

fn documents<'v>(alloc: Global, values: &'v [Value]) -> Result<Vec<Document<'v>>, AllocError> {
    let mut documents = Vec::new(alloc);
    for (&(uri, _), value) in DOCUMENTS.iter().zip(values) {
        documents.push(Document { uri, value })?;
    }
    Ok(documents)
}

/// What schemas are compiled under, with these documents.
pub fn config_with<'v>(documents: &'v [Document<'v>]) -> Config<'v, NoPatterns> {
    Config {
        draft: None,
        validate_formats: None,
        ignore_unknown_formats: true,
        checks: Checks {
            formats: &[],
            media_types: &[],
            codecs: &[],
        },
        documents,
        builder: &NoPatterns,
    }
}

// Whether a schema is refused with this text.
fn is_refused(
    alloc: Global,
    config: &Config<'_, NoPatterns>,
    document: &str,
    text: &str,
) -> Result<bool, AllocError> {
    match refusal_of(alloc, config, document)? {
        Some(error) => Ok(error.text(alloc)?.as_str() == text),
        None => Ok(false),
    }
}

#[test]
fn errors_under_refusal(rt: HostRuntime) -> Result<(), Fail> {
    let values = values(rt.alloc())?;
    let documents = documents(rt.alloc(), &values)?;
    are_answered_by(rt.alloc(), &config_with(&documents), ROWS)
}

#[test]
fn refusals_under_refusal(rt: HostRuntime) -> Result<(), Fail> {
    let values = values(rt.alloc())?;
    let documents = documents(rt.alloc(), &values)?;
    let config = config_with(&documents);
    for &(document, text) in REFUSALS {
        if !is_refused(rt.alloc(), &config, document, text)? {
            return Err(Fail::new(document));
        }
    }
    Ok(())
}
