//! The types of values.

use super::answers::json;
use neldrafi_schema::{Config, JsonType, Schema};
use std::test::Fail;
use strkw_pattern::NoPatterns;

const VALUES: &[(&str, &[JsonType])] = &[
    ("null", &[JsonType::Null]),
    ("false", &[JsonType::Boolean]),
    ("0", &[JsonType::Integer, JsonType::Number]),
    ("-1", &[JsonType::Integer, JsonType::Number]),
    ("1.0", &[JsonType::Integer, JsonType::Number]),
    ("1e300", &[JsonType::Integer, JsonType::Number]),
    ("0.5", &[JsonType::Number]),
    (r#""1""#, &[JsonType::String]),
    ("[null]", &[JsonType::Array]),
    (r#"{"a":1}"#, &[JsonType::Object]),
    ("-0.0", &[JsonType::Integer, JsonType::Number]),
    ("9007199254740993", &[JsonType::Integer, JsonType::Number]),
    (
        "18446744073709551616",
        &[JsonType::Integer, JsonType::Number],
    ),
    (
        "1.7976931348623157e308",
        &[JsonType::Integer, JsonType::Number],
    ),
    ("5e-324", &[JsonType::Number]),
    // which the reader takes for 0
    ("1e-400", &[JsonType::Integer, JsonType::Number]),
];

const TYPES: &[JsonType] = &[
    JsonType::Null,
    JsonType::Boolean,
    JsonType::Integer,
    JsonType::Number,
    JsonType::String,
    JsonType::Array,
    JsonType::Object,
];

// Each type takes the values that are of it, and no others (Validation, section 6.1.1).
#[test]
fn types_of_values(rt: HostRuntime) -> Result<(), Fail> {
    let alloc = rt.alloc();
    for &kind in TYPES {
        let name = kind.as_str();
        let document = json(alloc, format!(in alloc; r#"{{"type":"{name}"}}"#)?.as_str())?;
        let Ok(schema) = Schema::compile(alloc, &document, &Config::new(&NoPatterns)) else {
            return Err(Fail::new(name));
        };
        for &(text, types) in VALUES {
            if schema.is_valid(alloc, &json(alloc, text)?)? != types.contains(&kind) {
                return Err(Fail::new(text));
            }
        }
    }
    Ok(())
}
