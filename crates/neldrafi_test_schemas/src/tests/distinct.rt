//! `uniqueItems` of more items than are compared in pairs.

use super::answers::json;
use super::numbers::PAIRS;
use neldrafi_schema::{Config, Schema, SchemaErrorKind};
use std::alloc::{AllocError, Global};
use std::test::Fail;
use strkw_pattern::NoPatterns;

// Items that are like no value of the pairs.
const OTHERS: &str = r#""b","c","d","e","f","g","h","i","j","k","l","m","n","o","p","q""#;

// Two values, and whether they are the same.
const VALUES: &[(&str, &str, bool)] = &[
    ("null", "null", true),
    ("null", "false", false),
    ("false", "0", false),
    ("true", "1", false),
    ("1", r#""1""#, false),
    (r#""a""#, r#""\u0061""#, true),
    (r#""""#, "[]", false),
    ("[]", "{}", false),
    ("[]", "[[]]", false),
    ("[[1],2]", "[[1,2]]", false),
    ("[[1],2]", "[[1.0],2]", true),
    (r#"["a","z"]"#, r#"["az"]"#, false),
    (r#"[{"a":1}]"#, r#"[{"a":1},{}]"#, false),
    (r#"{"a":1,"b":[2]}"#, r#"{"b":[2.0],"a":1.0}"#, true),
    (r#"{"a":1}"#, r#"{"b":1}"#, false),
    (r#"{"a":{"b":1}}"#, r#"{"a":{},"b":1}"#, false),
    (r#"{"a":null}"#, "{}", false),
];

// Whether `uniqueItems` admits the two among others.
fn are_unique(alloc: Global, one: &str, other: &str) -> Result<bool, AllocError> {
    let document = json(alloc, r#"{"uniqueItems":true}"#)?;
    let items = json(
        alloc,
        format!(in alloc; "[{one},{OTHERS},{other}]")?.as_str(),
    )?;
    match Schema::compile(alloc, &document, &Config::new(&NoPatterns)) {
        Ok(schema) => schema.is_valid(alloc, &items),
        Err(error) if matches!(error.kind, SchemaErrorKind::Memory) => Err(AllocError),
        Err(_) => Ok(false),
    }
}

fn are_found(alloc: Global, rows: &[(&str, &str, bool)]) -> Result<(), Fail> {
    for &(one, other, are_same) in rows {
        if are_unique(alloc, one, other)? == are_same
            || are_unique(alloc, other, one)? == are_same
        {
            return Err(Fail::new(one));
        }
    }
    Ok(())
}

#[test]
fn numbers_of_many(rt: HostRuntime) -> Result<(), Fail> {
    are_found(rt.alloc(), PAIRS)
}

// A refused allocation for the keys has no error: the items are then compared in pairs.
#[test]
fn values_of_many_under_refusal(rt: HostRuntime) -> Result<(), Fail> {
    are_found(rt.alloc(), VALUES)
}
