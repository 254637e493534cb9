//! Which names are told as no keywords, where, and with which keyword beside.

use super::answers::json;
use neldrafi_schema::{UnknownKeyword, unknown_keywords};
use std::alloc::{AllocError, Global};
use std::test::Fail;
use strkw_report::Draft;

/// A document, and its unknown keywords: the name, the location of its schema object, and the nearest keyword.
type Row = (&'static str, &'static [&'static str]);

const ROWS: &[Row] = &[
    (r#"{"propertys":{}}"#, &["propertys at '', not properties"]),
    (r#"{"Type":5}"#, &["Type at '', not type"]),
    (
        r#"{"properties":{"a/b":{"requird":[]}}}"#,
        &["requird at '/properties/a~1b', not required"],
    ),
    (r#"{"x-note":{"tpye":5}}"#, &["x-note at ''"]),
    (r#"{"":1}"#, &[" at ''"]),
    // one edit for three bytes of the name, and two for six
    (r#"{"i":1,"fi":1}"#, &["fi at ''", "i at ''"]),
    (
        r#"{"not":{"nt":1,"nto":1,"nnot":1}}"#,
        &[
            "nnot at '/not', not not",
            "nt at '/not'",
            "nto at '/not', not not",
        ],
    ),
    (
        r#"{"enumm":1,"eemum":1,"menuum":1}"#,
        &[
            "eemum at ''",
            "enumm at '', not enum",
            "menuum at '', not enum",
        ],
    ),
    (
        r#"{"maxItens":1,"mxxItens":1,"mxxItenx":1}"#,
        &[
            "maxItens at '', not maxItems",
            "mxxItens at '', not maxItems",
            "mxxItenx at ''",
        ],
    ),
    (
        r#"{"additionalPropxxties":1,"additionalPropxxxies":1}"#,
        &[
            "additionalPropxxties at '', not additionalProperties",
            "additionalPropxxxies at ''",
        ],
    ),
    // the nearest, and of several the first
    (
        r#"{"minltems":1,"mixItems":1}"#,
        &[
            "minltems at '', not minItems",
            "mixItems at '', not maxItems",
        ],
    ),
    (
        r#"{"minimums":1,"Äenum":1,"ÄÄenum":1}"#,
        &[
            "minimums at '', not minimum",
            "Äenum at '', not enum",
            "ÄÄenum at '', not enum",
        ],
    ),
    // keywords of other drafts
    (
        r#"{"definitions":{"a":{"definition":{}}}}"#,
        &["definition at '/definitions/a', not definitions"],
    ),
    (
        r#"{"$schema":"https://json-schema.org/draft/2019-09/schema","definitions":{}}"#,
        &[],
    ),
    (
        r#"{"$schema":"http://json-schema.org/draft-07/schema#","definitions":{},"$defs":{"a":{"b":1}}}"#,
        &["$defs at ''"],
    ),
    (
        r#"{"$schema":"http://json-schema.org/draft-07/schema#","prefixItem":1}"#,
        &["prefixItem at ''"],
    ),
    (
        r#"{"$schema":"http://json-schema.org/draft-06/schema#","definitions":{}}"#,
        &[],
    ),
    (
        r#"{"$schema":"http://json-schema.org/draft-04/schema#","definitions":{},"$id":"a"}"#,
        &["$id at '', not id"],
    ),
    (r#"{"id":"a"}"#, &["id at ''"]),
    (
        r##"{"dependencies":{"a":{"b":1}},"additionalItems":{"c":1},"$recursiveRef":"#"}"##,
        &[
            "$recursiveRef at ''",
            "additionalItems at ''",
            "dependencies at ''",
        ],
    ),
    // names that are no members of a schema object
    (r#"{"properties":{"propertys":{},"Type":true}}"#, &[]),
    (
        r#"{"$defs":{"x-note":{"x-note":1}}}"#,
        &["x-note at '/$defs/x-note'"],
    ),
    (
        r#"{"enum":[{"Type":1}],"const":{"Type":1},"default":{"Type":1},"examples":[{"Type":1}]}"#,
        &[],
    ),
    (
        r#"{"dependentRequired":{"Type":[]},"$vocabulary":{"Type":true}}"#,
        &[],
    ),
    (r#"true"#, &[]),
    (r#"5"#, &[]),
    // in the order of the document
    (
        r#"{"b":1,"allOf":[{"c":1},{"items":{"d":1}}],"a":{},"contentSchema":{"not":{"tilte":1}}}"#,
        &[
            "a at ''",
            "b at ''",
            "c at '/allOf/0'",
            "d at '/allOf/1/items'",
            "tilte at '/contentSchema/not', not title",
        ],
    ),
    (
        r#"{"$schema":"http://json-schema.org/draft-07/schema#","contentSchema":{"a":1},"dependencies":{"b":["c"],"d":{"e":1}}}"#,
        &["contentSchema at ''", "e at '/dependencies/d'"],
    ),
    // what stands beside a reference up to draft 7 is ignored, but it is no unknown keyword
    (
        r##"{"$schema":"http://json-schema.org/draft-07/schema#","properties":{"a":{"$ref":"#","title":5,"not":{"b":1}}}}"##,
        &[],
    ),
    (
        r##"{"properties":{"a":{"$ref":"#","title":5,"not":{"b":1}}}}"##,
        &["b at '/properties/a/not'"],
    ),
    // all keywords of a draft, and all names of other drafts
    (
        r#"{"$schema":"http://json-schema.org/draft-04/schema#","id":1,"$ref":1,"definitions":1,"title":1,"description":1,"default":1,"multipleOf":1,"maximum":1,"exclusiveMaximum":1,"minimum":1,"exclusiveMinimum":1,"maxLength":1,"minLength":1,"pattern":1,"additionalItems":1,"items":1,"maxItems":1,"minItems":1,"uniqueItems":1,"maxProperties":1,"minProperties":1,"required":1,"additionalProperties":1,"properties":1,"patternProperties":1,"dependencies":1,"enum":1,"type":1,"format":1,"allOf":1,"anyOf":1,"oneOf":1,"not":1}"#,
        &[],
    ),
    (
        r#"{"$schema":"http://json-schema.org/draft-06/schema#","$id":1,"$ref":1,"definitions":1,"title":1,"description":1,"default":1,"examples":1,"multipleOf":1,"maximum":1,"exclusiveMaximum":1,"minimum":1,"exclusiveMinimum":1,"maxLength":1,"minLength":1,"pattern":1,"additionalItems":1,"items":1,"maxItems":1,"minItems":1,"uniqueItems":1,"contains":1,"maxProperties":1,"minProperties":1,"required":1,"additionalProperties":1,"properties":1,"patternProperties":1,"dependencies":1,"propertyNames":1,"const":1,"enum":1,"type":1,"format":1,"allOf":1,"anyOf":1,"oneOf":1,"not":1}"#,
        &[],
    ),
    (
        r#"{"$schema":"http://json-schema.org/draft-07/schema#","$id":1,"$ref":1,"$comment":1,"definitions":1,"title":1,"description":1,"default":1,"readOnly":1,"writeOnly":1,"examples":1,"multipleOf":1,"maximum":1,"exclusiveMaximum":1,"minimum":1,"exclusiveMinimum":1,"maxLength":1,"minLength":1,"pattern":1,"additionalItems":1,"items":1,"maxItems":1,"minItems":1,"uniqueItems":1,"contains":1,"maxProperties":1,"minProperties":1,"required":1,"additionalProperties":1,"properties":1,"patternProperties":1,"dependencies":1,"propertyNames":1,"const":1,"enum":1,"type":1,"format":1,"contentMediaType":1,"contentEncoding":1,"if":1,"then":1,"else":1,"allOf":1,"anyOf":1,"oneOf":1,"not":1}"#,
        &[],
    ),
    (
        r#"{"$schema":"https://json-schema.org/draft/2019-09/schema","$id":1,"$anchor":1,"$ref":1,"$recursiveRef":1,"$recursiveAnchor":1,"$vocabulary":1,"$comment":1,"$defs":1,"additionalItems":1,"unevaluatedItems":1,"items":1,"contains":1,"additionalProperties":1,"unevaluatedProperties":1,"properties":1,"patternProperties":1,"dependentSchemas":1,"propertyNames":1,"if":1,"then":1,"else":1,"allOf":1,"anyOf":1,"oneOf":1,"not":1,"multipleOf":1,"maximum":1,"exclusiveMaximum":1,"minimum":1,"exclusiveMinimum":1,"maxLength":1,"minLength":1,"pattern":1,"maxItems":1,"minItems":1,"uniqueItems":1,"maxContains":1,"minContains":1,"maxProperties":1,"minProperties":1,"required":1,"dependentRequired":1,"const":1,"enum":1,"type":1,"title":1,"description":1,"default":1,"deprecated":1,"readOnly":1,"writeOnly":1,"examples":1,"format":1,"contentMediaType":1,"contentEncoding":1,"contentSchema":1}"#,
        &[],
    ),
    (
        r#"{"$schema":"https://json-schema.org/draft/2020-12/schema","$id":1,"$anchor":1,"$ref":1,"$dynamicRef":1,"$dynamicAnchor":1,"$vocabulary":1,"$comment":1,"$defs":1,"prefixItems":1,"items":1,"contains":1,"additionalProperties":1,"properties":1,"patternProperties":1,"dependentSchemas":1,"propertyNames":1,"if":1,"then":1,"else":1,"allOf":1,"anyOf":1,"oneOf":1,"not":1,"unevaluatedItems":1,"unevaluatedProperties":1,"type":1,"const":1,"enum":1,"multipleOf":1,"maximum":1,"exclusiveMaximum":1,"minimum":1,"exclusiveMinimum":1,"maxLength":1,"minLength":1,"pattern":1,"maxItems":1,"minItems":1,"uniqueItems":1,"maxContains":1,"minContains":1,"maxProperties":1,"minProperties":1,"required":1,"dependentRequired":1,"title":1,"description":1,"default":1,"deprecated":1,"readOnly":1,"writeOnly":1,"examples":1,"format":1,"contentMediaType":1,"contentEncoding":1,"contentSchema":1}"#,
        &[],
    ),
    (
        r#"{"$schema":"http://json-schema.org/draft-04/schema#","examples":1,"contains":1,"propertyNames":1,"const":1}"#,
        &[
            "const at ''",
            "contains at ''",
            "examples at ''",
            "propertyNames at ''",
        ],
    ),
    (
        r#"{"$schema":"http://json-schema.org/draft-06/schema#","$comment":1,"readOnly":1,"writeOnly":1,"contentMediaType":1,"contentEncoding":1,"if":1,"then":1,"else":1}"#,
        &[
            "$comment at ''",
            "contentEncoding at ''",
            "contentMediaType at ''",
            "else at ''",
            "if at ''",
            "readOnly at ''",
            "then at ''",
            "writeOnly at ''",
        ],
    ),
    (
        r#"{"$schema":"http://json-schema.org/draft-07/schema#","$anchor":1,"$recursiveRef":1,"$recursiveAnchor":1,"$vocabulary":1,"$defs":1,"unevaluatedItems":1,"unevaluatedProperties":1,"dependentSchemas":1,"maxContains":1,"minContains":1,"dependentRequired":1,"deprecated":1,"contentSchema":1}"#,
        &[
            "$anchor at ''",
            "$defs at ''",
            "$recursiveAnchor at ''",
            "$recursiveRef at ''",
            "$vocabulary at ''",
            "contentSchema at ''",
            "dependentRequired at ''",
            "dependentSchemas at ''",
            "deprecated at ''",
            "maxContains at ''",
            "minContains at ''",
            "unevaluatedItems at ''",
            "unevaluatedProperties at ''",
        ],
    ),
    (
        r#"{"$schema":"https://json-schema.org/draft/2019-09/schema","id":1,"dependencies":1,"prefixItems":1,"$dynamicRef":1,"$dynamicAnchor":1}"#,
        &[
            "$dynamicAnchor at ''",
            "$dynamicRef at ''",
            "dependencies at ''",
            "id at ''",
            "prefixItems at ''",
        ],
    ),
    (
        r#"{"id":1,"dependencies":1,"additionalItems":1,"$recursiveRef":1,"$recursiveAnchor":1}"#,
        &[
            "$recursiveAnchor at ''",
            "$recursiveRef at ''",
            "additionalItems at ''",
            "dependencies at ''",
            "id at ''",
        ],
    ),
];

fn line_of(alloc: Global, unknown: &UnknownKeyword) -> Result<String, AllocError> {
    let (name, location) = (unknown.name.as_str(), unknown.location.as_str());
    match unknown.nearest {
        Some(nearest) => format!(in alloc; "{name} at '{location}', not {nearest}"),
        None => format!(in alloc; "{name} at '{location}'"),
    }
}

fn is_told(
    alloc: Global,
    draft: Option<Draft>,
    document: &str,
    lines: &[&str],
) -> Result<bool, AllocError> {
    let found = unknown_keywords(alloc, &json(alloc, document)?, draft)?;
    if found.len() != lines.len() {
        return Ok(false);
    }
    for (unknown, line) in found.iter().zip(lines) {
        if line_of(alloc, unknown)?.as_str() != *line {
            return Ok(false);
        }
    }
    Ok(true)
}

fn are_told(alloc: Global, rows: &[Row]) -> Result<(), Fail> {
    for &(document, lines) in rows {
        if !is_told(alloc, None, document, lines)? {
            return Err(Fail::new(document));
        }
    }
    Ok(())
}

// With ample memory alone, since each comparison of two names takes some.
#[test]
fn unknown(rt: HostRuntime) -> Result<(), Fail> {
    are_told(rt.alloc(), ROWS)
}

const FEW: &[Row] = &[
    (
        r#"{"b":1,"properties":{"a":{"schema":1}}}"#,
        &["b at ''", "schema at '/properties/a', not $schema"],
    ),
    (
        r#"{"$schema":"http://json-schema.org/draft-04/schema#","$id":"a","not":{"x-note":1}}"#,
        &["$id at '', not id", "x-note at '/not'"],
    ),
];

#[test]
fn few_under_refusal(rt: HostRuntime) -> Result<(), Fail> {
    are_told(rt.alloc(), FEW)
}

// The draft of a document without `$schema`, a document, and its unknown keywords.
const DRAFTS: &[(Draft, &str, &[&str])] = &[
    (Draft::Draft4, r#"{"id":1,"$id":1}"#, &["$id at '', not id"]),
    (
        Draft::Draft7,
        r#"{"if":{"contentSchema":1}}"#,
        &["contentSchema at '/if'"],
    ),
    (
        Draft::Draft201909,
        r#"{"contentSchema":{"prefixItems":1}}"#,
        &["prefixItems at '/contentSchema'"],
    ),
    (
        Draft::Draft7,
        r#"{"$schema":"http://json-schema.org/draft-06/schema#","if":{"contentSchema":1}}"#,
        &["if at ''"],
    ),
];

#[test]
fn drafts(rt: HostRuntime) -> Result<(), Fail> {
    for &(draft, document, lines) in DRAFTS {
        if !is_told(rt.alloc(), Some(draft), document, lines)? {
            return Err(Fail::new(document));
        }
    }
    Ok(())
}
