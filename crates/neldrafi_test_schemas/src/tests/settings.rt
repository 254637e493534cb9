//! Formats, by the draft and by the settings.

use super::answers::{Row, are_answered_by, json};
use neldrafi_schema::{Config, Schema, SchemaErrorKind};
use std::alloc::{AllocError, Global};
use std::test::Fail;
use strkw_keywords::{Checks, Format, NamedFormat};
use strkw_pattern::NoPatterns;

// Whether formats are checked, and documents.
const ROWS: &[(Option<bool>, &[Row])] = &[
    (
        None,
        &[
            (
                r#"{"$schema":"http://json-schema.org/draft-07/schema#","format":"ipv4"}"#,
                r#""a""#,
                &[r#""a" is not a "ipv4" at '' by '/format' ('/format')"#],
            ),
            (r#"{"format":"ipv4"}"#, r#""a""#, &[]),
            (
                r#"{"$schema":"http://json-schema.org/draft-07/schema#","format":"none"}"#,
                r#""a""#,
                &[],
            ),
        ],
    ),
    (
        Some(true),
        &[
            (
                r#"{"items":{"format":"ipv4"}}"#,
                r#"["1.2.3.4","a",5]"#,
                &[r#""a" is not a "ipv4" at '/1' by '/items/format' ('/items/format')"#],
            ),
            (r#"{"format":"none"}"#, r#""a""#, &[]),
        ],
    ),
    (
        Some(false),
        &[(
            r#"{"$schema":"http://json-schema.org/draft-07/schema#","format":"ipv4"}"#,
            r#""a""#,
            &[],
        )],
    ),
];

#[test]
fn formats_under_refusal(rt: HostRuntime) -> Result<(), Fail> {
    for &(validate_formats, rows) in ROWS {
        let mut config = Config::new(&NoPatterns);
        config.validate_formats = validate_formats;
        are_answered_by(rt.alloc(), &config, rows)?;
    }
    Ok(())
}

// A format that is not known is refused where it is checked, if it is not to be ignored.
#[test]
fn unknown_formats_under_refusal(rt: HostRuntime) -> Result<(), Fail> {
    let alloc = rt.alloc();
    let document = json(alloc, r#"{"properties":{"p":{"format":"none"}}}"#)?;
    let mut config = Config::new(&NoPatterns);
    config.ignore_unknown_formats = false;
    config.validate_formats = Some(true);
    match Schema::compile(alloc, &document, &config) {
        Ok(_) => Err(Fail::new("not refused")),
        Err(error) => match error.kind {
            SchemaErrorKind::Memory => Err(Fail::from(AllocError)),
            SchemaErrorKind::Text(_) if error.location.as_str() == "/properties/p/format" => Ok(()),
            _ => Err(Fail::new(error.location.as_str())),
        },
    }
}

// A format that admits nothing.
#[derive(Clone, Copy)]
struct Nothing;

impl Format for Nothing {
    ghost use Rattle.std.specs.Prelude.{false};

    ghost admits = { λ _ _. false };

    fn is_valid(&self, _alloc: Global, _value: &str) -> Result<bool, AllocError> {
        Ok(false)
    }
}

const OWN: &[Row] = &[
    (
        r#"{"properties":{"a":{"format":"none"},"b":{"format":"ipv4"}}}"#,
        r#"{"a":"x","b":"1.2.3.4"}"#,
        &[r#""x" is not a "none" at '/a' by '/properties/a/format' ('/properties/a/format')"#],
    ),
    (r#"{"format":"none"}"#, "5", &[]),
];

#[test]
fn own_formats(rt: HostRuntime) -> Result<(), Fail> {
    let alloc = rt.alloc();
    let formats = [NamedFormat {
        name: String::from_str(alloc, "none")?,
        check: Box::new(alloc, Nothing)?,
    }];
    let config = Config {
        draft: None,
        validate_formats: Some(true),
        ignore_unknown_formats: false,
        checks: Checks {
            formats: &formats,
            media_types: &[],
            codecs: &[],
        },
        documents: &[],
        builder: &NoPatterns,
    };
    are_answered_by(alloc, &config, OWN)
}
