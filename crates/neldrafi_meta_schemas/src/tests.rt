//! Schemas, validated by the meta-schemas.

use crate::{MetaSchema, meta_schemas};
use neldrafi_schema::{Config, Document, Schema};
use serde_json::Value;
use std::alloc::{AllocError, Global};
use std::test::Fail;
use strkw_ecma::EcmaPatterns;
use strkw_keywords::Checks;
use strkw_report::Draft;

// The drafts, each with schemas, and whether the draft's meta-schema accepts them.
const SCHEMAS: &[(Draft, &[(&str, bool)])] = &[
    (
        Draft::Draft4,
        &[
            (r#"{"exclusiveMinimum":true,"minimum":5}"#, true),
            (r#"{"exclusiveMinimum":5}"#, false),
            (r#"{"properties":{"a":{"required":[]}}}"#, false),
            ("true", false),
        ],
    ),
    (
        Draft::Draft6,
        &[
            (r#"{"exclusiveMinimum":5,"not":true}"#, true),
            (r#"{"exclusiveMinimum":true}"#, false),
            (r#"{"if":5}"#, true),
        ],
    ),
    (
        Draft::Draft7,
        &[
            (r#"{"if":{"items":[{}]},"$comment":"a"}"#, true),
            (r#"{"if":5}"#, false),
            (r#"{"not":{"allOf":[{"minLength":-1}]}}"#, false),
        ],
    ),
    (
        Draft::Draft201909,
        &[
            (r#"{"items":[{"not":true}],"prefixItems":5}"#, true),
            (r#"{"$recursiveAnchor":true,"$anchor":"a:b"}"#, true),
            (r#"{"$recursiveAnchor":"a"}"#, false),
            (r#"{"$anchor":"_a"}"#, false),
            // at nested places, by each vocabulary
            (r#"{"properties":{"a":{"minLength":-1}}}"#, false),
            (r#"{"$defs":{"a":{"type":"strin"}}}"#, false),
            (r#"{"items":[{"$id":"a#b"}]}"#, false),
            (
                r#"{"dependentSchemas":{"a":{"unevaluatedItems":5}}}"#,
                false,
            ),
            (r#"{"if":{"dependentRequired":{"a":[1]}}}"#, false),
            (r#"{"allOf":[{"title":5}]}"#, false),
            (r#"{"contentSchema":{"format":5}}"#, false),
            (r#"{"not":{"contentMediaType":5}}"#, false),
            // by keywords that are kept from earlier drafts
            (r#"{"definitions":{"a":{"enum":5}}}"#, false),
            (r#"{"dependencies":{"a":["b"],"c":{"then":5}}}"#, false),
        ],
    ),
    (
        Draft::Draft202012,
        &[
            (r#"{"prefixItems":[{"not":true}]}"#, true),
            (r#"{"$dynamicAnchor":"_a","$dynamicRef":"b#a"}"#, true),
            (r#"{"$dynamicAnchor":"a:b"}"#, false),
            (r#"{"items":[{}]}"#, false),
            // at nested places, by each vocabulary
            (r#"{"properties":{"a":{"minLength":-1}}}"#, false),
            (r#"{"$defs":{"a":{"type":"strin"}}}"#, false),
            (r#"{"prefixItems":[{"$id":"a#b"}]}"#, false),
            (
                r#"{"dependentSchemas":{"a":{"unevaluatedItems":5}}}"#,
                false,
            ),
            (r#"{"if":{"dependentRequired":{"a":[1]}}}"#, false),
            (r#"{"allOf":[{"title":5}]}"#, false),
            (r#"{"contentSchema":{"format":5}}"#, false),
            (r#"{"not":{"contentMediaType":5}}"#, false),
            // by keywords that are kept from earlier drafts
            (r#"{"definitions":{"a":{"enum":5}}}"#, false),
            (r#"{"dependencies":{"a":["b"],"c":{"then":5}}}"#, false),
            (r#"{"$recursiveRef":5}"#, false),
        ],
    ),
];

// The documents of a draft, or none if a text is not JSON.
fn documents_of(alloc: Global, draft: Draft) -> Result<Vec<MetaSchema>, AllocError> {
    match meta_schemas(alloc, draft) {
        Ok(documents) => Ok(documents),
        Err(error) if error.is_memory() => Err(AllocError),
        Err(_) => Ok(Vec::new(alloc)),
    }
}

// What schemas of a draft are compiled under, with these documents.
fn config_with<'v>(draft: Draft, documents: &'v [Document<'v>]) -> Config<'v, EcmaPatterns> {
    Config {
        draft: Some(draft),
        validate_formats: None,
        ignore_unknown_formats: true,
        checks: Checks {
            formats: &[],
            media_types: &[],
            codecs: &[],
        },
        documents,
        builder: &EcmaPatterns,
    }
}

// Whether a draft's meta-schema accepts its own documents, and schemas as told.
fn accepts(alloc: Global, draft: Draft, schemas: &[(&'static str, bool)]) -> Result<(), Fail> {
    let metas = documents_of(alloc, draft)?;
    let Some(meta) = metas.first() else {
        return Err(Fail::new("a text is not JSON"));
    };
    let mut documents = Vec::new(alloc);
    for meta in &metas {
        documents.push(meta.document())?;
    }
    let config = config_with(draft, &documents);
    let reference = format!(in alloc; "{{\"$ref\":\"{}#\"}}", meta.uri)?;
    let reference = Value::from_str(alloc, &reference)?;
    let Ok(schema) = Schema::compile(alloc, &reference, &config) else {
        return Err(Fail::new("the meta-schema is refused"));
    };
    for meta in &metas {
        if !schema.is_valid(alloc, &meta.value)? {
            return Err(Fail::new(meta.uri));
        }
    }
    for &(text, is_accepted) in schemas {
        let instance = Value::from_str(alloc, text)?;
        if schema.is_valid(alloc, &instance)? != is_accepted {
            return Err(Fail::new(text));
        }
    }
    Ok(())
}

#[test]
fn schemas_by_their_meta_schema(rt: HostRuntime) -> Result<(), Fail> {
    for &(draft, schemas) in SCHEMAS {
        accepts(rt.alloc(), draft, schemas)?;
    }
    Ok(())
}

#[test]
fn documents_under_refusal(rt: HostRuntime) -> Result<(), Fail> {
    for &(draft, _) in SCHEMAS {
        if documents_of(rt.alloc(), draft)?.is_empty() {
            return Err(Fail::new("a text is not JSON"));
        }
    }
    Ok(())
}
