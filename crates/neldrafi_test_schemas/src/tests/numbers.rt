//! Numbers that are near the limits of 64 bits and of binary64.

use super::answers::{Row, are_answered, json};
use neldrafi_schema::{Config, Schema, SchemaErrorKind};
use serde_json::Value;
use std::alloc::{AllocError, Global};
use std::test::Fail;
use strkw_pattern::NoPatterns;

/// Two numbers, and whether they are the same.
pub const PAIRS: &[(&str, &str, bool)] = &[
    ("1", "1.0", true),
    ("1", "10e-1", true),
    ("1", "1.5", false),
    ("1", "-1", false),
    ("-1", "-1.0", true),
    ("-1", "-1.5", false),
    ("0", "-0", true),
    ("0", "-0.0", true),
    ("0.5", "5e-1", true),
    ("9007199254740992", "9007199254740992.0", true),
    ("9007199254740993", "9007199254740992.0", false),
    ("9007199254740993", "9007199254740992", false),
    ("-9007199254740993", "-9007199254740992.0", false),
    ("9223372036854775808", "9223372036854775808.0", true),
    ("9223372036854775807", "9223372036854775808.0", false),
    ("-9223372036854775808", "-9223372036854775808.0", true),
    ("-9223372036854775807", "-9223372036854775808.0", false),
    ("18446744073709551615", "18446744073709551616", false),
    ("18446744073709551616", "18446744073709551616.0", true),
    ("1.7976931348623157e308", "17976931348623157e292", true),
    // the reader takes the nearest binary64 for a number that is none
    ("0", "1e-400", true),
    ("18446744073709551616", "18446744073709551617", true),
    ("-9223372036854775809", "-9223372036854775808", true),
];

// What a number that the reader gives as binary64 does under limits, and divided.
const ROWS: &[Row] = &[
    (
        r#"{"minimum":9007199254740993,"maximum":9007199254740993}"#,
        "9007199254740992",
        &[
            "9007199254740992 is less than the minimum of 9007199254740993 at '' by '/minimum' ('/minimum')",
        ],
    ),
    (r#"{"minimum":0,"maximum":0,"multipleOf":2}"#, "-0.0", &[]),
    (
        r#"{"exclusiveMinimum":0}"#,
        "-0.0",
        &[
            "-0.0 is less than or equal to the minimum of 0 at '' by '/exclusiveMinimum' ('/exclusiveMinimum')",
        ],
    ),
    (
        r#"{"exclusiveMinimum":1e-400}"#,
        "0",
        &[
            "0 is less than or equal to the minimum of 0.0 at '' by '/exclusiveMinimum' ('/exclusiveMinimum')",
        ],
    ),
    (
        r#"{"minimum":18446744073709551616}"#,
        "18446744073709551615",
        &[],
    ),
    (
        r#"{"minimum":18446744073709551615}"#,
        "18446744073709551614",
        &[
            "18446744073709551614 is less than the minimum of 18446744073709551615 at '' by '/minimum' ('/minimum')",
        ],
    ),
    (
        r#"{"minimum":-9223372036854775807}"#,
        "-9223372036854775808",
        &[
            "-9223372036854775808 is less than the minimum of -9223372036854775807 at '' by '/minimum' ('/minimum')",
        ],
    ),
    (
        r#"{"minimum":1.7976931348623157e308,"maximum":1.7976931348623157e308}"#,
        "1.7976931348623157e308",
        &[],
    ),
    (
        r#"{"maximum":18446744073709551615}"#,
        "1.7976931348623157e308",
        &[
            "1.7976931348623157e+308 is greater than the maximum of 18446744073709551615 at '' by '/maximum' ('/maximum')",
        ],
    ),
    (r#"{"multipleOf":2}"#, "0", &[]),
    (
        r#"{"multipleOf":2}"#,
        "9007199254740993",
        &["9007199254740993 is not a multiple of 2 at '' by '/multipleOf' ('/multipleOf')"],
    ),
    (r#"{"multipleOf":3}"#, "-18", &[]),
    (
        r#"{"multipleOf":3}"#,
        "-17",
        &["-17 is not a multiple of 3 at '' by '/multipleOf' ('/multipleOf')"],
    ),
    (r#"{"multipleOf":1.5}"#, "-3", &[]),
    (
        r#"{"multipleOf":1.5}"#,
        "4.0",
        &["4.0 is not a multiple of 1.5 at '' by '/multipleOf' ('/multipleOf')"],
    ),
    (r#"{"multipleOf":2}"#, "1.7976931348623157e308", &[]),
    (
        r#"{"multipleOf":5e-324}"#,
        "1.7976931348623157e308",
        &[
            "1.7976931348623157e+308 is not a multiple of 5e-324 at '' by '/multipleOf' ('/multipleOf')",
        ],
    ),
    (
        r#"{"enum":[18446744073709551616,-0.0]}"#,
        "18446744073709551615",
        &[
            "18446744073709551615 is not one of 1.8446744073709552e+19 or -0.0 at '' by '/enum' ('/enum')",
        ],
    ),
    (r#"{"enum":[18446744073709551616,-0.0]}"#, "0", &[]),
    (r#"{"multipleOf":1}"#, "3", &[]),
];

// A JSON text with a number beyond binary64, and what its reader says: no such text becomes a schema or an instance.
const OUT_OF_RANGE: &[(&str, &str)] = &[
    ("1e400", "number out of range at line 1 column 5"),
    ("-1e400", "number out of range at line 1 column 6"),
    (
        r#"{"minimum":1.7976931348623159e308}"#,
        "number out of range at line 1 column 34",
    ),
    ("[1,\n1e400]", "number out of range at line 2 column 6"),
];

// Whether a number has no errors by `const` of another.
fn is_constant(alloc: Global, constant: &str, number: &str) -> Result<bool, AllocError> {
    let document = json(
        alloc,
        format!(in alloc; "{{\"const\":{constant}}}")?.as_str(),
    )?;
    let number = json(alloc, number)?;
    match Schema::compile(alloc, &document, &Config::new(&NoPatterns)) {
        Ok(schema) => schema.is_valid(alloc, &number),
        Err(error) if matches!(error.kind, SchemaErrorKind::Memory) => Err(AllocError),
        Err(_) => Ok(false),
    }
}

#[test]
fn equal_numbers(rt: HostRuntime) -> Result<(), Fail> {
    for &(one, other, are_same) in PAIRS {
        if is_constant(rt.alloc(), one, other)? != are_same
            || is_constant(rt.alloc(), other, one)? != are_same
        {
            return Err(Fail::new(one));
        }
    }
    Ok(())
}

#[test]
fn errors_under_refusal(rt: HostRuntime) -> Result<(), Fail> {
    are_answered(rt.alloc(), ROWS)
}

#[test]
fn numbers_out_of_range(rt: HostRuntime) -> Result<(), Fail> {
    for &(text, expected) in OUT_OF_RANGE {
        let is_so = match Value::from_str(rt.alloc(), text) {
            Ok(_) => false,
            Err(error) => format!(in rt.alloc(); "{error}")?.as_str() == expected,
        };
        if !is_so {
            return Err(Fail::new(text));
        }
    }
    Ok(())
}
