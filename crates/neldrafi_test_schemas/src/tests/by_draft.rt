//! Which drafts have which keywords, and which draft a document has.

use super::answers::json;
use neldrafi_schema::{Config, Schema, SchemaErrorKind};
use std::alloc::{AllocError, Global};
use std::test::Fail;
use strkw_pattern::NoPatterns;
use strkw_report::Draft;

const DRAFTS: &[Draft] = &[
    Draft::Draft4,
    Draft::Draft6,
    Draft::Draft7,
    Draft::Draft201909,
    Draft::Draft202012,
];

// Members of a document, and an instance that has an error by it from the first to the last of these drafts, by their
// places above, and none in the others.
const VERDICTS: &[(&str, &str, usize, usize)] = &[
    (r##""$ref":"#/a","a":{"not":{}}"##, "5", 0, 4),
    (r##""$dynamicRef":"#/a","a":{"not":{}}"##, "5", 4, 4),
    (
        r##""properties":{"a":{"$recursiveRef":"#"}},"type":"object""##,
        r#"{"a":5}"#,
        3,
        3,
    ),
    // beside a reference
    (r##""$ref":"#/a","a":{},"type":"null""##, "5", 3, 4),
    (r##""$ref":"#/a","a":{},"not":{}"##, "5", 3, 4),
    (r#""type":"null""#, "5", 0, 4),
    // draft 4, Core, section 3.5; draft 6, Validation, section 6.25
    (r#""type":"integer""#, "1.0", 0, 0),
    (r#""type":"integer""#, "1.5", 0, 4),
    (r#""enum":[1]"#, "5", 0, 4),
    (r#""const":1"#, "5", 1, 4),
    (r#""multipleOf":2"#, "5", 0, 4),
    (r#""minimum":6"#, "5", 0, 4),
    (r#""maximum":4"#, "5", 0, 4),
    (r#""minLength":2"#, r#""a""#, 0, 4),
    (r#""maxLength":0"#, r#""a""#, 0, 4),
    (r#""pattern":"^b""#, r#""a""#, 0, 4),
    (r#""format":"ipv4""#, r#""a""#, 0, 2),
    (r#""minItems":2"#, "[1]", 0, 4),
    (r#""maxItems":0"#, "[1]", 0, 4),
    (r#""uniqueItems":true"#, "[1,1]", 0, 4),
    (r#""minProperties":2"#, r#"{"a":1}"#, 0, 4),
    (r#""maxProperties":0"#, r#"{"a":1}"#, 0, 4),
    (r#""required":["b"]"#, r#"{"a":1}"#, 0, 4),
    (r#""dependencies":{"a":["b"]}"#, r#"{"a":1}"#, 0, 2),
    (r#""dependencies":{"a":{"not":{}}}"#, r#"{"a":1}"#, 0, 2),
    (r#""dependentRequired":{"a":["b"]}"#, r#"{"a":1}"#, 3, 4),
    (r#""dependentSchemas":{"a":{"not":{}}}"#, r#"{"a":1}"#, 3, 4),
    (r#""properties":{"a":{"not":{}}}"#, r#"{"a":1}"#, 0, 4),
    (
        r#""patternProperties":{"^a":{"not":{}}}"#,
        r#"{"a":1}"#,
        0,
        4,
    ),
    (r#""additionalProperties":{"not":{}}"#, r#"{"a":1}"#, 0, 4),
    (r#""propertyNames":{"not":{}}"#, r#"{"a":1}"#, 1, 4),
    (r#""items":{"not":{}}"#, "[1]", 0, 4),
    (r#""prefixItems":[{"not":{}}]"#, "[1]", 4, 4),
    (r#""contains":{"not":{}}"#, "[1]", 1, 4),
    (r#""contains":{},"minContains":2"#, "[1]", 3, 4),
    (r#""contains":{},"maxContains":0"#, "[1]", 3, 4),
    (r#""allOf":[{"not":{}}]"#, "5", 0, 4),
    (r#""anyOf":[{"not":{}}]"#, "5", 0, 4),
    (r#""oneOf":[{},{}]"#, "5", 0, 4),
    (r#""not":{}"#, "5", 0, 4),
    (r#""if":{},"then":{"not":{}}"#, "5", 2, 4),
    (r#""if":{"not":{}},"else":{"not":{}}"#, "5", 2, 4),
    (r#""unevaluatedProperties":false"#, r#"{"a":1}"#, 3, 4),
    (r#""unevaluatedItems":false"#, "[1]", 3, 4),
];

// Members of a document that is refused from the first to the last of these drafts, and in no other.
const REFUSALS: &[(&str, usize, usize)] = &[
    // keywords with another value than one that they take
    (r#""$schema":null"#, 0, 4),
    (r#""$ref":null"#, 0, 4),
    (r#""id":null"#, 0, 0),
    (r#""$id":null"#, 1, 4),
    (r#""$anchor":null"#, 3, 4),
    (r#""$recursiveRef":null"#, 3, 3),
    (r#""$recursiveAnchor":null"#, 3, 3),
    (r#""$dynamicRef":null"#, 4, 4),
    (r#""$dynamicAnchor":null"#, 4, 4),
    (r#""definitions":null"#, 0, 4),
    (r#""$defs":null"#, 3, 4),
    (r#""const":null"#, 5, 5),
    (r#""dependencies":null"#, 0, 2),
    (r#""dependentRequired":null"#, 3, 4),
    (r#""dependentSchemas":null"#, 3, 4),
    (r#""propertyNames":null"#, 1, 4),
    (r#""prefixItems":null"#, 4, 4),
    (r#""additionalItems":null"#, 0, 3),
    (r#""contains":null"#, 1, 4),
    (r#""minContains":null"#, 3, 4),
    (r#""maxContains":null"#, 3, 4),
    (r#""if":null"#, 2, 4),
    (r#""then":null"#, 2, 4),
    (r#""else":null"#, 2, 4),
    (r#""unevaluatedProperties":null"#, 3, 4),
    (r#""unevaluatedItems":null"#, 3, 4),
    (r#""exclusiveMinimum":5"#, 0, 0),
    (r#""minimum":5,"exclusiveMinimum":true"#, 1, 4),
    (r#""maximum":5,"exclusiveMaximum":true"#, 1, 4),
    // beside a reference
    (r##""$ref":"#/a","a":{},"$schema":null"##, 0, 4),
    (r##""$ref":"#/a","a":{},"definitions":null"##, 3, 4),
    // schemas, and arrays with nothing in them
    (r#""not":true"#, 0, 0),
    (r#""enum":[]"#, 0, 1),
    (r#""required":[]"#, 0, 0),
    (r#""dependencies":{"a":[]}"#, 0, 0),
    (r#""items":[{}]"#, 4, 4),
    // what identifies a schema
    (
        r#""items":{"$ref":"a"},"definitions":{"b":{"id":"a"}}"#,
        1,
        4,
    ),
    (
        r#""items":{"$ref":"a"},"definitions":{"b":{"$id":"a"}}"#,
        0,
        0,
    ),
    (
        r##""items":{"$ref":"#a"},"definitions":{"b":{"$anchor":"a"}}"##,
        0,
        2,
    ),
    (
        r##""items":{"$ref":"#a"},"definitions":{"b":{"$dynamicAnchor":"a"}}"##,
        0,
        3,
    ),
    (
        r##""items":{"$ref":"#b"},"definitions":{"b":{"$id":"#a"}}"##,
        0,
        4,
    ),
];

// What `$schema` says, and the place of its draft above; none of them where it names no draft.
const DIALECTS: &[(&str, usize)] = &[
    ("http://json-schema.org/draft-04/schema", 0),
    ("http://json-schema.org/draft-04/schema#", 0),
    ("http://json-schema.org/draft-06/schema", 1),
    ("http://json-schema.org/draft-06/schema#", 1),
    ("http://json-schema.org/draft-07/schema", 2),
    ("http://json-schema.org/draft-07/schema#", 2),
    ("https://json-schema.org/draft/2019-09/schema", 3),
    ("https://json-schema.org/draft/2019-09/schema#", 3),
    ("https://json-schema.org/draft/2020-12/schema", 4),
    ("https://json-schema.org/draft/2020-12/schema#", 4),
    ("https://json-schema.org/draft-07/schema", 5),
    ("http://json-schema.org/draft/2020-12/schema", 5),
    ("http://json-schema.org/draft-05/schema#", 5),
    ("http://json-schema.org/schema#", 5),
    ("http://json-schema.org/draft-07/schema#a", 5),
    ("http://json-schema.org/draft-07/Schema", 5),
    ("", 5),
];

// Members by which the number of errors of the instance is the place of the draft above.
const PROBE: &str =
    r##""const":1,"if":{},"then":{"not":{}},"dependentRequired":{"a":["b"]},"$dynamicRef":"#/x","x":{"not":{}}"##;

const PROBED: &str = r#"{"a":1}"#;

// How many errors an instance has by a document, or none where the document is refused.
fn error_count(
    alloc: Global,
    draft: Option<Draft>,
    document: &str,
    instance: &str,
) -> Result<Option<usize>, AllocError> {
    let (document, instance) = (json(alloc, document)?, json(alloc, instance)?);
    let mut config = Config::new(&NoPatterns);
    config.draft = draft;
    let schema = match Schema::compile(alloc, &document, &config) {
        Ok(schema) => schema,
        Err(error) if matches!(error.kind, SchemaErrorKind::Memory) => return Err(AllocError),
        Err(_) => return Ok(None),
    };
    let mut errors = Vec::new(alloc);
    schema.collect_errors(alloc, &instance, &mut errors)?;
    Ok(Some(errors.len()))
}

fn object(alloc: Global, members: &str) -> Result<String, AllocError> {
    format!(in alloc; "{{{members}}}")
}

#[test]
fn verdicts(rt: HostRuntime) -> Result<(), Fail> {
    let alloc = rt.alloc();
    for &(members, instance, first, last) in VERDICTS {
        let document = object(alloc, members)?;
        for (place, draft) in DRAFTS.iter().enumerate() {
            let expected = Some(usize::from(first <= place && place <= last));
            if error_count(alloc, Some(*draft), document.as_str(), instance)? != expected {
                return Err(Fail::new(members));
            }
        }
    }
    Ok(())
}

#[test]
fn refusals(rt: HostRuntime) -> Result<(), Fail> {
    let alloc = rt.alloc();
    for &(members, first, last) in REFUSALS {
        let document = object(alloc, members)?;
        for (place, draft) in DRAFTS.iter().enumerate() {
            let is_refused = error_count(alloc, Some(*draft), document.as_str(), "5")?.is_none();
            if is_refused != (first <= place && place <= last) {
                return Err(Fail::new(members));
            }
        }
    }
    Ok(())
}

// The draft of `$schema` comes before that of the configuration, which comes before 2020-12.
#[test]
fn drafts_of_documents(rt: HostRuntime) -> Result<(), Fail> {
    let alloc = rt.alloc();
    let document = object(alloc, PROBE)?;
    if error_count(alloc, None, document.as_str(), PROBED)? != Some(4) {
        return Err(Fail::new("no draft"));
    }
    for (place, draft) in DRAFTS.iter().enumerate() {
        if error_count(alloc, Some(*draft), document.as_str(), PROBED)? != Some(place) {
            return Err(Fail::new("the draft of the configuration"));
        }
    }
    for &(uri, place) in DIALECTS {
        let document = format!(in alloc; "{{\"$schema\":\"{uri}\",{PROBE}}}")?;
        let expected = (place < DRAFTS.len()).then_some(place);
        for draft in [None, Some(Draft::Draft4), Some(Draft::Draft202012)] {
            if error_count(alloc, draft, document.as_str(), PROBED)? != expected {
                return Err(Fail::new(uri));
            }
        }
    }
    Ok(())
}
