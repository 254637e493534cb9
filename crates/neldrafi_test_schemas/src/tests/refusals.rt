//! Why and where documents are refused.

use super::answers::json;
use neldrafi_schema::{Config, Schema, SchemaError, SchemaErrorKind};
use std::alloc::{AllocError, Global};
use std::test::Fail;
use strkw_pattern::NoPatterns;

/// A document, why it is refused, and where.
pub type Refusal = (&'static str, &'static str, &'static str);

const REFUSALS: &[Refusal] = &[
    ("5", "WrongType", ""),
    (r#"{"type":5}"#, "WrongType", "/type"),
    (r#"{"type":"text"}"#, "WrongType", "/type"),
    (r#"{"type":[]}"#, "WrongType", "/type"),
    (r#"{"required":["a",1]}"#, "WrongType", "/required"),
    (r#"{"required":"a"}"#, "WrongType", "/required"),
    (r#"{"properties":[]}"#, "WrongType", "/properties"),
    (
        r#"{"properties":{"a/b":{"not":1}}}"#,
        "WrongType",
        "/properties/a~1b/not",
    ),
    (r#"{"not":[]}"#, "WrongType", "/not"),
    (r#"{"$ref":5}"#, "WrongType", "/$ref"),
    (r#"{"$schema":5}"#, "WrongType", "/$schema"),
    (
        r#"{"$schema":"https://example.com"}"#,
        "UnknownDialect",
        "/$schema",
    ),
    (r##"{"$ref":"#/a"}"##, "UnresolvedReference", "/$ref"),
    (r##"{"$ref":"#a","a":{}}"##, "UnresolvedReference", "/$ref"),
    (
        r##"{"$ref":"#/enum/1","enum":[{}]}"##,
        "UnresolvedReference",
        "/$ref",
    ),
    (
        r##"{"$ref":"#/a/00","a":[{}]}"##,
        "UnresolvedReference",
        "/$ref",
    ),
    (r##"{"$ref":"#/%FF"}"##, "UnresolvedReference", "/$ref"),
    (r##"{"$ref":"#/a","a":5}"##, "UnresolvedReference", "/$ref"),
    (r##"{"$ref":"#"}"##, "CircularReference", "/$ref"),
    (
        r##"{"not":{"$ref":"#"}}"##,
        "CircularReference",
        "/not/$ref",
    ),
    (
        r##"{"a":{"$ref":"#/b"},"b":{"$ref":"#/a"},"properties":{"c":{"$ref":"#/a"}}}"##,
        "CircularReference",
        "/a/$ref",
    ),
    (
        r##"{"$ref":"#/a","a":{"$ref":"#/b"},"b":{"$ref":"#/c"},"c":{"$ref":"#/a"}}"##,
        "CircularReference",
        "/$ref",
    ),
    (r#"{"minLength":-1}"#, "Text", "/minLength"),
    (r#"{"pattern":"b+"}"#, "Text", "/pattern"),
    (
        r#"{"$schema":"http://json-schema.org/draft-07/schema#","enum":5}"#,
        "WrongType",
        "/enum",
    ),
    (
        r#"{"$schema":"http://json-schema.org/draft-07/schema#","multipleOf":"2"}"#,
        "WrongType",
        "/multipleOf",
    ),
    (
        r#"{"$schema":"http://json-schema.org/draft-07/schema#","multipleOf":0}"#,
        "WrongType",
        "/multipleOf",
    ),
    (
        r#"{"$schema":"http://json-schema.org/draft-07/schema#","minimum":"5"}"#,
        "WrongType",
        "/minimum",
    ),
    (
        r#"{"$schema":"http://json-schema.org/draft-07/schema#","exclusiveMinimum":true}"#,
        "WrongType",
        "/exclusiveMinimum",
    ),
    (
        r#"{"$schema":"http://json-schema.org/draft-04/schema#","exclusiveMaximum":5}"#,
        "WrongType",
        "/exclusiveMaximum",
    ),
    (
        r#"{"$schema":"http://json-schema.org/draft-04/schema#","maximum":null}"#,
        "WrongType",
        "/maximum",
    ),
    (
        r#"{"$schema":"http://json-schema.org/draft-07/schema#","minItems":-1}"#,
        "WrongType",
        "/minItems",
    ),
    (
        r#"{"$schema":"http://json-schema.org/draft-07/schema#","maxItems":1.5}"#,
        "WrongType",
        "/maxItems",
    ),
    (
        r#"{"$schema":"http://json-schema.org/draft-07/schema#","maxProperties":"1"}"#,
        "WrongType",
        "/maxProperties",
    ),
    (
        r#"{"$schema":"http://json-schema.org/draft-07/schema#","uniqueItems":1}"#,
        "WrongType",
        "/uniqueItems",
    ),
    (
        r#"{"$schema":"http://json-schema.org/draft-07/schema#","patternProperties":[]}"#,
        "WrongType",
        "/patternProperties",
    ),
    (
        r#"{"$schema":"http://json-schema.org/draft-07/schema#","patternProperties":{"^a":{},"b+":{}}}"#,
        "Text",
        "/patternProperties/b+",
    ),
    (
        r#"{"$schema":"http://json-schema.org/draft-07/schema#","patternProperties":{"^a":5}}"#,
        "WrongType",
        "/patternProperties/^a",
    ),
    (
        r#"{"$schema":"http://json-schema.org/draft-07/schema#","additionalProperties":5}"#,
        "WrongType",
        "/additionalProperties",
    ),
    (
        r#"{"$schema":"http://json-schema.org/draft-07/schema#","propertyNames":[]}"#,
        "WrongType",
        "/propertyNames",
    ),
    (
        r#"{"$schema":"http://json-schema.org/draft-07/schema#","items":5}"#,
        "WrongType",
        "/items",
    ),
    (
        r#"{"$schema":"http://json-schema.org/draft-07/schema#","items":[]}"#,
        "WrongType",
        "/items",
    ),
    (
        r#"{"$schema":"http://json-schema.org/draft-07/schema#","items":[{},5]}"#,
        "WrongType",
        "/items/1",
    ),
    (
        r#"{"$schema":"http://json-schema.org/draft-07/schema#","items":[{}],"additionalItems":5}"#,
        "WrongType",
        "/additionalItems",
    ),
    (
        r#"{"$schema":"http://json-schema.org/draft-07/schema#","contains":5}"#,
        "WrongType",
        "/contains",
    ),
    (
        r#"{"$schema":"http://json-schema.org/draft-07/schema#","dependencies":{"a":["b",1]}}"#,
        "WrongType",
        "/dependencies",
    ),
    (
        r#"{"$schema":"http://json-schema.org/draft-07/schema#","dependencies":{"a":5}}"#,
        "WrongType",
        "/dependencies/a",
    ),
    (
        r#"{"$schema":"http://json-schema.org/draft-07/schema#","allOf":{}}"#,
        "WrongType",
        "/allOf",
    ),
    (
        r#"{"$schema":"http://json-schema.org/draft-07/schema#","anyOf":[]}"#,
        "WrongType",
        "/anyOf",
    ),
    (
        r#"{"$schema":"http://json-schema.org/draft-07/schema#","oneOf":[true,5]}"#,
        "WrongType",
        "/oneOf/1",
    ),
    (
        r#"{"$schema":"http://json-schema.org/draft-04/schema#","not":true}"#,
        "WrongType",
        "/not",
    ),
    (
        r#"{"$schema":"http://json-schema.org/draft-07/schema#","if":5}"#,
        "WrongType",
        "/if",
    ),
    (
        r#"{"$schema":"http://json-schema.org/draft-07/schema#","then":5}"#,
        "WrongType",
        "/then",
    ),
    (
        r#"{"$schema":"http://json-schema.org/draft-07/schema#","else":5}"#,
        "WrongType",
        "/else",
    ),
    (
        r#"{"$schema":"http://json-schema.org/draft-07/schema#","definitions":5}"#,
        "WrongType",
        "/definitions",
    ),
    (
        r#"{"$schema":"http://json-schema.org/draft-07/schema#","definitions":{"a":5}}"#,
        "WrongType",
        "/definitions/a",
    ),
    (
        r##"{"$schema":"http://json-schema.org/draft-07/schema#","allOf":[{"$ref":"#"}]}"##,
        "CircularReference",
        "/allOf/0/$ref",
    ),
    (
        r##"{"$schema":"http://json-schema.org/draft-07/schema#","if":{"$ref":"#"},"then":{}}"##,
        "CircularReference",
        "/if/$ref",
    ),
    (
        r#"{"$schema":"http://json-schema.org/draft-07/schema#","allOf":[{},{},5,{},{},{},{},{},{},{},5]}"#,
        "WrongType",
        "/allOf/2",
    ),
    // what an array has at least, by the meta-schema of each draft
    (
        r#"{"$schema":"http://json-schema.org/draft-04/schema#","required":[]}"#,
        "WrongType",
        "/required",
    ),
    (
        r#"{"$schema":"http://json-schema.org/draft-04/schema#","enum":[]}"#,
        "WrongType",
        "/enum",
    ),
    (
        r#"{"$schema":"http://json-schema.org/draft-06/schema#","enum":[]}"#,
        "WrongType",
        "/enum",
    ),
    (
        r#"{"$schema":"http://json-schema.org/draft-04/schema#","dependencies":{"a":["b"],"c":[]}}"#,
        "WrongType",
        "/dependencies",
    ),
    // and that a limit stands beside what makes it exclusive
    (
        r#"{"$schema":"http://json-schema.org/draft-04/schema#","exclusiveMinimum":false}"#,
        "WrongType",
        "/exclusiveMinimum",
    ),
    (
        r#"{"$schema":"http://json-schema.org/draft-04/schema#","exclusiveMaximum":true,"minimum":5}"#,
        "WrongType",
        "/exclusiveMaximum",
    ),
    // the first in the order of the document
    (r#"{"type":5,"not":{"type":5}}"#, "WrongType", "/not/type"),
    (
        r##"{"not":{"$ref":"#"},"type":5}"##,
        "CircularReference",
        "/not/$ref",
    ),
    (
        r##"{"maxLength":-1,"$ref":"#/a","minLength":-1}"##,
        "UnresolvedReference",
        "/$ref",
    ),
    (r#"{"minContains":-1}"#, "WrongType", "/minContains"),
    (r#"{"maxContains":"1"}"#, "WrongType", "/maxContains"),
    (r#"{"prefixItems":[]}"#, "WrongType", "/prefixItems"),
    (r#"{"prefixItems":[5]}"#, "WrongType", "/prefixItems/0"),
    (r#"{"items":[{}]}"#, "WrongType", "/items"),
    (
        r#"{"dependentRequired":{"a":"b"}}"#,
        "WrongType",
        "/dependentRequired",
    ),
    (
        r#"{"dependentSchemas":{"a":["b"]}}"#,
        "WrongType",
        "/dependentSchemas/a",
    ),
    (r#"{"$defs":{"a":5}}"#, "WrongType", "/$defs/a"),
    (r#"{"definitions":{"a":5}}"#, "WrongType", "/definitions/a"),
    (
        r#"{"unevaluatedProperties":5}"#,
        "WrongType",
        "/unevaluatedProperties",
    ),
    (r##"{"if":{"$ref":"#"}}"##, "CircularReference", "/if/$ref"),
    (r#"{"type":["string","text"]}"#, "WrongType", "/type"),
    (r#"{"minItems":-1.0}"#, "WrongType", "/minItems"),
    (r#"{"multipleOf":1e-400}"#, "WrongType", "/multipleOf"),
    (r#"{"multipleOf":-2}"#, "WrongType", "/multipleOf"),
    (r#"{"allOf":[]}"#, "WrongType", "/allOf"),
    (r#"{"oneOf":[]}"#, "WrongType", "/oneOf"),
    (
        r#"{"patternProperties":{"a+":{},"b+":{},"c":{}}}"#,
        "Text",
        "/patternProperties/a+",
    ),
    // pointers to no item
    (
        r##"{"$ref":"#/a/+0","a":[{}]}"##,
        "UnresolvedReference",
        "/$ref",
    ),
    (
        r##"{"$ref":"#/a/-","a":[{}]}"##,
        "UnresolvedReference",
        "/$ref",
    ),
    (
        r##"{"$ref":"#/a/","a":[{}]}"##,
        "UnresolvedReference",
        "/$ref",
    ),
    (
        r##"{"$ref":"#/a/18446744073709551616","a":[{}]}"##,
        "UnresolvedReference",
        "/$ref",
    ),
    // references that lead back, by each keyword that does not enter the instance, and by three references
    (
        r##"{"dependentSchemas":{"a":{"$ref":"#"}}}"##,
        "CircularReference",
        "/dependentSchemas/a/$ref",
    ),
    (
        r##"{"anyOf":[true,{"$ref":"#"}]}"##,
        "CircularReference",
        "/anyOf/1/$ref",
    ),
    (
        r##"{"oneOf":[{"$ref":"#"}]}"##,
        "CircularReference",
        "/oneOf/0/$ref",
    ),
    (
        r##"{"if":true,"then":{"$ref":"#"}}"##,
        "CircularReference",
        "/then/$ref",
    ),
    (
        r##"{"if":true,"else":{"$ref":"#"}}"##,
        "CircularReference",
        "/else/$ref",
    ),
    (
        r##"{"$defs":{"a":{"$ref":"#/$defs/b"},"b":{"not":{"$ref":"#/$defs/c"}},"c":{"allOf":[{"$ref":"#/$defs/a"}]}}}"##,
        "CircularReference",
        "/$defs/a/$ref",
    ),
];

/// Why a document is refused, and where.
pub fn refusal_of(
    alloc: Global,
    config: &Config<'_, NoPatterns>,
    document: &str,
) -> Result<Option<SchemaError>, AllocError> {
    let document = json(alloc, document)?;
    let result = Schema::compile(alloc, &document, config);
    drop(document);
    match result {
        Ok(_) => Ok(None),
        Err(error) => match error.kind {
            SchemaErrorKind::Memory => Err(AllocError),
            _ => Ok(Some(error)),
        },
    }
}

fn name_of(kind: &SchemaErrorKind) -> &'static str {
    match kind {
        SchemaErrorKind::WrongType => "WrongType",
        SchemaErrorKind::UnresolvedReference => "UnresolvedReference",
        SchemaErrorKind::CircularReference => "CircularReference",
        SchemaErrorKind::UnknownDialect => "UnknownDialect",
        SchemaErrorKind::Text(_) => "Text",
        SchemaErrorKind::Memory => "Memory",
    }
}

/// Whether documents are refused as all rows say. The failure names the document of a row where one is not.
pub fn are_refused(alloc: Global, rows: &[Refusal]) -> Result<(), Fail> {
    let config = Config::new(&NoPatterns);
    for &(document, kind, place) in rows {
        let is_so = match refusal_of(alloc, &config, document)? {
            Some(error) => name_of(&error.kind) == kind && error.location.as_str() == place,
            None => false,
        };
        if !is_so {
            return Err(Fail::new(document));
        }
    }
    Ok(())
}

#[test]
fn refusals_under_refusal(rt: HostRuntime) -> Result<(), Fail> {
    are_refused(rt.alloc(), REFUSALS)
}

// A document, and what its refusal says.
const EXPLANATIONS: &[(&str, &str)] = &[
    (
        r#"{"properties":{"a/b":{"minimum":"5"}}}"#,
        "at #/properties/a~1b/minimum: the value is not of the kind required here",
    ),
    (
        r##"{"$ref":"#/a"}"##,
        "at #/$ref: the reference leads to no schema of the given documents",
    ),
    (
        r##"{"$ref":"#"}"##,
        "at #/$ref: the reference leads back to itself, and does not enter the instance on the way",
    ),
    (
        r#"{"$schema":"x"}"#,
        "at #/$schema: the value is none of http://json-schema.org/draft-04/schema, http://json-schema.org/draft-06/schema, http://json-schema.org/draft-07/schema, https://json-schema.org/draft/2019-09/schema and https://json-schema.org/draft/2020-12/schema",
    ),
    (
        r#"{"pattern":5}"#,
        r#"at #/pattern: 5 is not of type "string""#,
    ),
];

// The place of a refusal is not told if it is out of memory.
#[test]
fn out_of_memory(rt: HostRuntime) -> Result<(), Fail> {
    let refusal = refusal_of(rt.alloc(), &Config::new(&NoPatterns), r#"{"type":5}"#)?;
    let text = match refusal {
        Some(mut error) => {
            error.kind = SchemaErrorKind::Memory;
            error.text(rt.alloc())?
        }
        None => String::new(rt.alloc()),
    };
    if text.as_str() == "out of memory" {
        Ok(())
    } else {
        Err(Fail::new(text.as_str()))
    }
}

#[test]
fn explanations_under_refusal(rt: HostRuntime) -> Result<(), Fail> {
    let config = Config::new(&NoPatterns);
    for &(document, text) in EXPLANATIONS {
        let is_so = match refusal_of(rt.alloc(), &config, document)? {
            Some(error) => error.text(rt.alloc())?.as_str() == text,
            None => false,
        };
        if !is_so {
            return Err(Fail::new(document));
        }
    }
    Ok(())
}
