//! What is proposed for values. A test whose name ends in `_under_refusal` may also end as out of memory where an
//! allocation is refused.

use super::{Kind, PropertyFault, Shape, schema_text, spelled_kind, suspects_of};
use json::{Error, Scratch, Value};
use std::alloc::{AllocError, Global};
use std::fmt::Write;
use std::test::Fail;

// The failure of values that are not seen.
fn failure_of(fault: PropertyFault) -> Fail {
    match fault {
        PropertyFault::Memory => Fail::from(AllocError),
        PropertyFault::TooMany => Fail::new("too many"),
    }
}

// Sees a JSON text. The failure is one that is none.
fn see(alloc: Global, shape: &mut Shape, line: u64, text: &str) -> Result<(), Fail> {
    let mut scratch = Scratch::new(alloc);
    match Value::parse_strict(alloc, text, &mut scratch) {
        Ok(value) => shape.see(alloc, line, &value).map_err(failure_of),
        Err(Error::OutOfMemory) => Err(Fail::from(AllocError)),
        Err(_) => Err(Fail::new("not JSON")),
    }
}

// The schema for values, without white space.
fn schema_of(alloc: Global, shape: &Shape) -> Result<String, Fail> {
    let mut schema = String::new(alloc);
    for byte in &schema_text(alloc, shape)? {
        if !byte.is_ascii_whitespace() {
            schema.push(char::from(*byte))?;
        }
    }
    Ok(schema)
}

// What each schema begins with.
const DIALECT: &str = "{\"$schema\":\"https://json-schema.org/draft/2020-12/schema\"";

// Whether a schema is proposed, of which the keywords behind `$schema` are given.
fn proposes(alloc: Global, shape: &Shape, keywords: &'static str) -> Result<(), Fail> {
    let schema = schema_of(alloc, shape)?;
    if schema.strip_prefix(DIALECT) == Some(keywords) {
        return Ok(());
    }
    Err(Fail::new(keywords))
}

// Whether a schema is proposed for JSON texts.
fn proposes_for(alloc: Global, texts: &[&'static str], keywords: &'static str) -> Result<(), Fail> {
    let mut shape = Shape::new(alloc)?;
    for text in texts {
        see(alloc, &mut shape, 1, text)?;
    }
    proposes(alloc, &shape, keywords)
}

#[test]
fn types_under_refusal(rt: HostRuntime) -> Result<(), Fail> {
    let alloc = rt.alloc();
    proposes_for(alloc, &[], "}")?;
    proposes_for(alloc, &["null"], ",\"type\":\"null\"}")?;
    proposes_for(alloc, &["1", "-2"], ",\"type\":\"integer\"}")?;
    proposes_for(
        alloc,
        &["1", "2e0", "null"],
        ",\"type\":[\"number\",\"null\"]}",
    )?;
    proposes_for(
        alloc,
        &["true", "1", "[]"],
        ",\"type\":[\"boolean\",\"integer\",\"array\"]}",
    )?;
    proposes_for(
        alloc,
        &["\"a\"", "1.5", "{}"],
        ",\"type\":[\"number\",\"string\",\"object\"]}",
    )
}

#[test]
fn formats_under_refusal(rt: HostRuntime) -> Result<(), Fail> {
    let alloc = rt.alloc();
    proposes_for(
        alloc,
        &["\"2024-02-29\"", "\"2023-01-01\""],
        ",\"type\":\"string\",\"format\":\"date\"}",
    )?;
    proposes_for(
        alloc,
        &["\"2024-02-29\"", "\"2023-02-29\""],
        ",\"type\":\"string\"}",
    )?;
    proposes_for(
        alloc,
        &["\"::1\"", "\"::2\"", "7"],
        ",\"type\":[\"integer\",\"string\"],\"format\":\"ipv6\"}",
    )
}

#[test]
fn members_under_refusal(rt: HostRuntime) -> Result<(), Fail> {
    proposes_for(
        rt.alloc(),
        &[
            "{\"b\":1,\"a\":[1,{\"c\":true}]}",
            "{\"a\":[],\"d\":null,\"b\":2}",
        ],
        concat!(
            ",\"type\":\"object\",\"properties\":{\"b\":{\"type\":\"integer\"},\"a\":{\"type\":",
            "\"array\",\"items\":{\"type\":[\"integer\",\"object\"],\"properties\":{\"c\":{\"type\":",
            "\"boolean\"}},\"required\":[\"c\"]}},\"d\":{\"type\":\"null\"}},",
            "\"required\":[\"b\",\"a\"]}",
        ),
    )
}

#[test]
fn suspects_under_refusal(rt: HostRuntime) -> Result<(), Fail> {
    let alloc = rt.alloc();
    let mut shape = Shape::new(alloc)?;
    for line in 1..199 {
        see(alloc, &mut shape, line, "{\"/born\":\"2024-02-29\"}")?;
    }
    see(alloc, &mut shape, 199, "{\"/born\":\"n/a\"}")?;
    see(alloc, &mut shape, 200, "{\"/born\":0}")?;
    proposes(
        alloc,
        &shape,
        concat!(
            ",\"type\":\"object\",\"properties\":{\"/born\":{\"type\":\"string\",\"format\":\"date\"",
            "}},\"required\":[\"/born\"]}",
        ),
    )?;
    let mut told = String::new(alloc);
    for suspects in &suspects_of(alloc, &shape)? {
        let location = suspects.location.as_str();
        for misfit in &suspects.tally.first {
            let (line, text) = (misfit.line, &misfit.text);
            write!(told, "{line} {location} {text};")?;
        }
    }
    if told.as_str() == "200 /~1born 0;199 /~1born n/a;" {
        return Ok(());
    }
    Err(Fail::new("suspects"))
}

// Whether a schema is proposed for 48 texts, half of them `a` and half of them `b`, and two more.
fn proposes_for_words(
    alloc: Global,
    more: [&'static str; 2],
    keywords: &'static str,
) -> Result<(), Fail> {
    let mut shape = Shape::new(alloc)?;
    for _ in 0..24 {
        see(alloc, &mut shape, 1, "\"b\"")?;
        see(alloc, &mut shape, 1, "\"a\"")?;
    }
    see(alloc, &mut shape, 1, more[0])?;
    see(alloc, &mut shape, 1, more[1])?;
    proposes(alloc, &shape, keywords)
}

#[test]
fn words_under_refusal(rt: HostRuntime) -> Result<(), Fail> {
    let alloc = rt.alloc();
    let three = ",\"type\":\"string\",\"enum\":[\"b\",\"a\",\"c\"]}";
    proposes_for_words(alloc, ["\"c\"", "\"c\""], three)?;
    proposes_for_words(alloc, ["\"c\"", "\"d\""], ",\"type\":\"string\"}")?;
    proposes_for_words(alloc, ["\"a\"", "null"], ",\"type\":[\"string\",\"null\"]}")
}

#[test]
fn fields_under_refusal(rt: HostRuntime) -> Result<(), Fail> {
    let alloc = rt.alloc();
    let kinds = [
        ("true", Kind::BooleanField),
        ("-0", Kind::IntegerField),
        ("007", Kind::String),
        ("1e2", Kind::NumberField),
        ("1e400", Kind::String),
        ("+1", Kind::String),
        (" 1", Kind::String),
        ("True", Kind::String),
    ];
    for (field, kind) in kinds {
        if spelled_kind(field) != kind {
            return Err(Fail::new(field));
        }
    }
    let mut shape = Shape::new(alloc)?;
    for (line, zip) in [(1, "7"), (2, "x")] {
        shape.see_object(alloc, line).map_err(failure_of)?;
        shape
            .see_field(alloc, line, 0, "zip", zip)
            .map_err(failure_of)?;
    }
    proposes(
        alloc,
        &shape,
        ",\"type\":\"object\",\"properties\":{\"zip\":{\"type\":\"string\"}},\"required\":[\"zip\"]}",
    )
}
