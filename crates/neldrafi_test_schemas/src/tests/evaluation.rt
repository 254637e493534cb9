//! The annotations of instances, and the absolute locations of keywords.

use super::answers::json;
use super::documents::config_with;
use neldrafi_schema::{Annotation, Config, Document, Evaluation, Schema, SchemaErrorKind};
use std::alloc::{AllocError, Global};
use std::test::Fail;
use strkw_pattern::NoPatterns;

// A document, an instance, and its annotations: the keyword, its value, the place of the instance, that of the keyword,
// and that of the keyword on the way of evaluation. Core 2020-12, section 7.7.1, except where another draft is named.
const ROWS: &[(&str, &str, &[&str])] = &[
    // of any instance, in the order of the members (Validation, section 9)
    (
        r#"{"title":"a","description":"b","default":[1],"examples":[1],"readOnly":true,"writeOnly":false,"deprecated":true,"$comment":"c"}"#,
        "5",
        &[
            "default [1] at '' by '/default' ('/default')",
            "deprecated true at '' by '/deprecated' ('/deprecated')",
            "description \"b\" at '' by '/description' ('/description')",
            "examples [1] at '' by '/examples' ('/examples')",
            "readOnly true at '' by '/readOnly' ('/readOnly')",
            "title \"a\" at '' by '/title' ('/title')",
            "writeOnly false at '' by '/writeOnly' ('/writeOnly')",
        ],
    ),
    // of strings (sections 7 and 8)
    (
        r#"{"contentEncoding":"base64","contentMediaType":"application/json","contentSchema":{"title":"x"},"format":"date"}"#,
        r#""x""#,
        &[
            "contentEncoding \"base64\" at '' by '/contentEncoding' ('/contentEncoding')",
            "contentMediaType \"application/json\" at '' by '/contentMediaType' ('/contentMediaType')",
            "contentSchema {\"title\":\"x\"} at '' by '/contentSchema' ('/contentSchema')",
            "format \"date\" at '' by '/format' ('/format')",
        ],
    ),
    (
        r#"{"contentEncoding":"base64","contentMediaType":"application/json","contentSchema":true,"format":"date"}"#,
        "5",
        &[],
    ),
    (r#"{"contentSchema":true}"#, r#""x""#, &[]),
    // what is not valid has none
    (r#"{"title":"a","type":"string"}"#, "5", &[]),
    (
        r#"{"title":"a","properties":{"p":{"title":"b"},"q":{"type":"string"}}}"#,
        r#"{"p":1,"q":2}"#,
        &[],
    ),
    // those of a schema come before those of its subschemas
    (
        r#"{"title":"a","properties":{"p":{"title":"b"},"q":{"title":"c"}},"additionalProperties":{"title":"d"},"patternProperties":{"^r$":{"title":"e"}}}"#,
        r#"{"p":1,"r":2,"s":3}"#,
        &[
            "title \"a\" at '' by '/title' ('/title')",
            "title \"d\" at '/s' by '/additionalProperties/title' ('/additionalProperties/title')",
            "title \"e\" at '/r' by '/patternProperties/^r$/title' ('/patternProperties/^r$/title')",
            "title \"b\" at '/p' by '/properties/p/title' ('/properties/p/title')",
        ],
    ),
    (
        r#"{"prefixItems":[{"title":"a"}],"items":{"title":"b"},"contains":{"title":"c","type":"null"}}"#,
        "[1,null]",
        &[
            "title \"c\" at '/1' by '/contains/title' ('/contains/title')",
            "title \"b\" at '/1' by '/items/title' ('/items/title')",
            "title \"a\" at '/0' by '/prefixItems/0/title' ('/prefixItems/0/title')",
        ],
    ),
    (
        r#"{"$schema":"https://json-schema.org/draft/2019-09/schema","items":[{"title":"a"}],"additionalItems":{"title":"b"},"contains":{"title":"c","type":"null"}}"#,
        "[1,null]",
        &[
            "title \"b\" at '/1' by '/additionalItems/title' ('/additionalItems/title')",
            "title \"c\" at '/1' by '/contains/title' ('/contains/title')",
            "title \"a\" at '/0' by '/items/0/title' ('/items/0/title')",
        ],
    ),
    // of several schemas, those by which it is valid
    (
        r#"{"allOf":[{"title":"a"},{"title":"b"}],"anyOf":[{"title":"c","type":"null"},{"title":"d"},{"title":"e"}],"oneOf":[{"title":"f","type":"null"},{"title":"g"}]}"#,
        "5",
        &[
            "title \"a\" at '' by '/allOf/0/title' ('/allOf/0/title')",
            "title \"b\" at '' by '/allOf/1/title' ('/allOf/1/title')",
            "title \"d\" at '' by '/anyOf/1/title' ('/anyOf/1/title')",
            "title \"e\" at '' by '/anyOf/2/title' ('/anyOf/2/title')",
            "title \"g\" at '' by '/oneOf/1/title' ('/oneOf/1/title')",
        ],
    ),
    (
        r#"{"dependentSchemas":{"p":{"title":"a"},"q":{"title":"b"}},"not":{"title":"c","required":["r"]},"propertyNames":{"title":"d"}}"#,
        r#"{"p":1}"#,
        &["title \"a\" at '' by '/dependentSchemas/p/title' ('/dependentSchemas/p/title')"],
    ),
    (
        r#"{"if":{"title":"a","type":"integer"},"then":{"title":"b"},"else":{"title":"c"}}"#,
        "5",
        &[
            "title \"a\" at '' by '/if/title' ('/if/title')",
            "title \"b\" at '' by '/then/title' ('/then/title')",
        ],
    ),
    (
        r#"{"if":{"title":"a","type":"integer"},"then":{"title":"b"},"else":{"title":"c"}}"#,
        "null",
        &["title \"c\" at '' by '/else/title' ('/else/title')"],
    ),
    (
        r#"{"$schema":"http://json-schema.org/draft-07/schema#","if":{"title":"a"}}"#,
        "5",
        &["title \"a\" at '' by '/if/title' ('/if/title')"],
    ),
    (
        r#"{"properties":{"p":true},"unevaluatedProperties":{"title":"a"}}"#,
        r#"{"p":1,"q":2}"#,
        &["title \"a\" at '/q' by '/unevaluatedProperties/title' ('/unevaluatedProperties/title')"],
    ),
    // through references
    (
        r##"{"$ref":"#/$defs/a","title":"b","$defs":{"a":{"title":"c"}}}"##,
        "5",
        &[
            "title \"b\" at '' by '/title' ('/title')",
            "title \"c\" at '' by '/$defs/a/title' ('/$ref/title')",
        ],
    ),
    // the drafts that have them: 6 has no `readOnly`, and drafts up to 7 ignore what is beside `$ref`
    (
        r#"{"$schema":"http://json-schema.org/draft-06/schema#","examples":[1],"readOnly":true,"title":"a"}"#,
        "5",
        &[
            "examples [1] at '' by '/examples' ('/examples')",
            "title \"a\" at '' by '/title' ('/title')",
        ],
    ),
    (
        r##"{"$schema":"http://json-schema.org/draft-07/schema#","allOf":[{"$ref":"#/definitions/a","title":"b"}],"definitions":{"a":{"title":"c"}}}"##,
        "5",
        &["title \"c\" at '' by '/definitions/a/title' ('/allOf/0/$ref/title')"],
    ),
    ("true", "5", &[]),
];

fn line_of(alloc: Global, annotation: &Annotation) -> Result<String, AllocError> {
    let keyword = annotation.keyword.as_str();
    let value = annotation.value.to_string(alloc)?;
    let place = annotation.instance_path.as_str();
    let path = annotation.schema_path.as_str();
    let way = annotation.evaluation_path.as_str();
    format!(in alloc; "{keyword} {value} at '{place}' by '{path}' ('{way}')")
}

fn has_lines(
    alloc: Global,
    annotations: &[Annotation],
    lines: &[&str],
) -> Result<bool, AllocError> {
    if annotations.len() != lines.len() {
        return Ok(false);
    }
    for (annotation, line) in annotations.iter().zip(lines) {
        if line_of(alloc, annotation)?.as_str() != *line {
            return Ok(false);
        }
    }
    Ok(true)
}

fn is_annotated(
    alloc: Global,
    document: &str,
    instance: &str,
    lines: &[&str],
) -> Result<bool, AllocError> {
    let (document, instance) = (json(alloc, document)?, json(alloc, instance)?);
    let schema = match Schema::compile(alloc, &document, &Config::new(&NoPatterns)) {
        Ok(schema) => schema,
        Err(error) if matches!(error.kind, SchemaErrorKind::Memory) => return Err(AllocError),
        Err(_) => return Ok(false),
    };
    let found = schema.evaluate(alloc, &instance)?;
    Ok(
        found.errors.is_empty() == schema.is_valid(alloc, &instance)?
            && has_lines(alloc, &found.annotations, lines)?,
    )
}

// A document, an instance, and the absolute locations of its errors, or if it has none, of its annotations. Core 2020-12,
// section 12.3.2; RFC 6901, section 6.
const LOCATIONS: &[(&str, &str, &[&str])] = &[
    (r#"{"type":"string"}"#, "5", &["json-schema:///#/type"]),
    ("false", "5", &["json-schema:///#"]),
    (
        r#"{"properties":{"a":false}}"#,
        r#"{"a":1}"#,
        &["json-schema:///#/properties/a"],
    ),
    (
        r#"{"$id":"http://x.y/a","minLength":3}"#,
        r#""a""#,
        &["http://x.y/a#/minLength"],
    ),
    (
        r#"{"$id":"http://x.y/a#","title":"t"}"#,
        "5",
        &["http://x.y/a#/title"],
    ),
    (
        r#"{"$id":"a/b","title":"t"}"#,
        "5",
        &["json-schema:///a/b#/title"],
    ),
    // from the root of the resource
    (
        r#"{"$id":"http://x.y/a","$ref":"b/c","$defs":{"d":{"$id":"b/c","properties":{"p":{"title":"t","items":{"type":"null"}}}}}}"#,
        r#"{"p":[5]}"#,
        &["http://x.y/b/c#/properties/p/items/type"],
    ),
    (
        r#"{"$id":"http://x.y/a","$ref":"b/c","$defs":{"d":{"$id":"b/c","title":"r","properties":{"p":{"title":"t"}}}}}"#,
        r#"{"p":5}"#,
        &[
            "http://x.y/b/c#/title",
            "http://x.y/b/c#/properties/p/title",
        ],
    ),
    // a fragment alone identifies no resource
    (
        r##"{"$schema":"http://json-schema.org/draft-07/schema#","allOf":[{"$ref":"#a"}],"definitions":{"b":{"$id":"#a","type":"null"}}}"##,
        "5",
        &["json-schema:///#/definitions/b/type"],
    ),
    // a pointer is escaped, and what a fragment cannot have is percent-encoded
    (
        r#"{"properties":{"~/":{"title":"t"}}}"#,
        r#"{"~/":1}"#,
        &["json-schema:///#/properties/~0~1/title"],
    ),
    (
        r##"{"properties":{" #%\"<>[\\]^`{|}":{"title":"t"}}}"##,
        r##"{" #%\"<>[\\]^`{|}":1}"##,
        &["json-schema:///#/properties/%20%23%25%22%3C%3E%5B%5C%5D%5E%60%7B%7C%7D/title"],
    ),
    (
        r#"{"properties":{"-._!$&'()*+,;=:@?09azAZ":{"title":"t"}}}"#,
        r#"{"-._!$&'()*+,;=:@?09azAZ":1}"#,
        &["json-schema:///#/properties/-._!$&'()*+,;=:@?09azAZ/title"],
    ),
    (
        "{\"properties\":{\"\u{e4}\u{20ac}\u{7f}\":{\"title\":\"t\"}}}",
        "{\"\u{e4}\u{20ac}\u{7f}\":1}",
        &["json-schema:///#/properties/%C3%A4%E2%82%AC%7F/title"],
    ),
    // in a further document
    (
        r#"{"$ref":"http://e.f/g#/$defs/h"}"#,
        "5",
        &["http://e.f/g#/$defs/h/type"],
    ),
    (
        r#"{"$ref":"http://e.f/i"}"#,
        "5",
        &["http://e.f/i#/minimum"],
    ),
];

const FURTHER: &str = r#"{"$defs":{"h":{"type":"null"},"i":{"$id":"i","minimum":6}}}"#;

// Whether these are the locations of the errors, or if there are none, of the annotations.
fn are_located(evaluation: &Evaluation, locations: &[&str]) -> bool {
    let (errors, annotations) = (&evaluation.errors, &evaluation.annotations);
    if errors.len().max(annotations.len()) != locations.len() {
        return false;
    }
    for (error, location) in errors.iter().zip(locations) {
        if error.absolute_location() != *location {
            return false;
        }
    }
    for (annotation, location) in annotations.iter().zip(locations) {
        if annotation.absolute.as_str() != *location {
            return false;
        }
    }
    true
}

fn is_located(
    alloc: Global,
    config: &Config<'_, NoPatterns>,
    document: &str,
    instance: &str,
    locations: &[&str],
) -> Result<bool, AllocError> {
    let (document, instance) = (json(alloc, document)?, json(alloc, instance)?);
    let schema = match Schema::compile(alloc, &document, config) {
        Ok(schema) => schema,
        Err(error) if matches!(error.kind, SchemaErrorKind::Memory) => return Err(AllocError),
        Err(_) => return Ok(false),
    };
    let evaluation = schema.evaluate(alloc, &instance)?;
    Ok(are_located(&evaluation, locations))
}

#[test]
fn annotations_under_refusal(rt: HostRuntime) -> Result<(), Fail> {
    for &(document, instance, lines) in ROWS {
        if !is_annotated(rt.alloc(), document, instance, lines)? {
            return Err(Fail::new(document));
        }
    }
    Ok(())
}

#[test]
fn locations_under_refusal(rt: HostRuntime) -> Result<(), Fail> {
    let further = json(rt.alloc(), FURTHER)?;
    let documents = [Document {
        uri: "http://e.f/g",
        value: &further,
    }];
    let config = config_with(&documents);
    for &(document, instance, locations) in LOCATIONS {
        if !is_located(rt.alloc(), &config, document, instance, locations)? {
            return Err(Fail::new(document));
        }
    }
    Ok(())
}
