//! Annotations, the content keywords, `$comment` and `$vocabulary`: which values each draft refuses.

use super::answers::{Row, are_answered};
use super::refusals::{Refusal, are_refused};
use std::test::Fail;

const REFUSALS: &[Refusal] = &[
    (
        r#"{"$schema":"http://json-schema.org/draft-04/schema#","title":5}"#,
        "WrongType",
        "/title",
    ),
    (
        r#"{"$schema":"http://json-schema.org/draft-04/schema#","not":{"description":null}}"#,
        "WrongType",
        "/not/description",
    ),
    (
        r#"{"$schema":"http://json-schema.org/draft-06/schema#","examples":{"a":1}}"#,
        "WrongType",
        "/examples",
    ),
    (
        r#"{"$schema":"http://json-schema.org/draft-07/schema#","$comment":["a"]}"#,
        "WrongType",
        "/$comment",
    ),
    (
        r#"{"$schema":"http://json-schema.org/draft-07/schema#","readOnly":"true"}"#,
        "WrongType",
        "/readOnly",
    ),
    (
        r#"{"$schema":"http://json-schema.org/draft-07/schema#","writeOnly":1}"#,
        "WrongType",
        "/writeOnly",
    ),
    (
        r#"{"$schema":"http://json-schema.org/draft-07/schema#","contentEncoding":64}"#,
        "WrongType",
        "/contentEncoding",
    ),
    (
        r#"{"$schema":"http://json-schema.org/draft-07/schema#","contentMediaType":{}}"#,
        "WrongType",
        "/contentMediaType",
    ),
    (
        r#"{"$schema":"https://json-schema.org/draft/2019-09/schema","deprecated":null}"#,
        "WrongType",
        "/deprecated",
    ),
    (
        r#"{"$schema":"https://json-schema.org/draft/2019-09/schema","contentSchema":"a"}"#,
        "WrongType",
        "/contentSchema",
    ),
    (
        r#"{"$schema":"https://json-schema.org/draft/2019-09/schema","$vocabulary":[]}"#,
        "WrongType",
        "/$vocabulary",
    ),
    (r#"{"title":["a"]}"#, "WrongType", "/title"),
    (r#"{"description":true}"#, "WrongType", "/description"),
    (r#"{"examples":5}"#, "WrongType", "/examples"),
    (r#"{"$comment":null}"#, "WrongType", "/$comment"),
    (r#"{"readOnly":0}"#, "WrongType", "/readOnly"),
    (r#"{"writeOnly":[]}"#, "WrongType", "/writeOnly"),
    (r#"{"deprecated":"no"}"#, "WrongType", "/deprecated"),
    (
        r#"{"contentEncoding":null}"#,
        "WrongType",
        "/contentEncoding",
    ),
    (
        r#"{"contentMediaType":[]}"#,
        "WrongType",
        "/contentMediaType",
    ),
    (r#"{"contentSchema":[true]}"#, "WrongType", "/contentSchema"),
    (r#"{"$vocabulary":true}"#, "WrongType", "/$vocabulary"),
    (
        r#"{"$vocabulary":{"https://example.com/a":true,"https://example.com/b":1}}"#,
        "WrongType",
        "/$vocabulary",
    ),
    // `contentSchema` is a subschema, and `default` and `examples` have none
    (
        r#"{"contentSchema":{"items":{"type":5}}}"#,
        "WrongType",
        "/contentSchema/items/type",
    ),
    (
        r##"{"contentSchema":{"$ref":"#/a"}}"##,
        "UnresolvedReference",
        "/contentSchema/$ref",
    ),
    (
        r##"{"contentSchema":{"allOf":[{"$ref":"#/contentSchema"}]}}"##,
        "CircularReference",
        "/contentSchema/allOf/0/$ref",
    ),
    (
        r#"{"$schema":"http://json-schema.org/draft-07/schema#","contentSchema":{"$id":"http://example.com/a"},"not":{"$ref":"http://example.com/a"}}"#,
        "UnresolvedReference",
        "/not/$ref",
    ),
    (
        r#"{"default":{"$id":"http://example.com/a"},"$ref":"http://example.com/a"}"#,
        "UnresolvedReference",
        "/$ref",
    ),
    (
        r#"{"examples":[{"$id":"http://example.com/a"}],"$ref":"http://example.com/a"}"#,
        "UnresolvedReference",
        "/$ref",
    ),
];

const ROWS: &[Row] = &[
    // values of the right kind say nothing of an instance
    (
        r#"{"$vocabulary":{"https://example.com/a":true,"https://example.com/b":false},"$comment":"","title":"a","description":"b","default":5,"examples":[5,[]],"readOnly":true,"writeOnly":false,"deprecated":true,"contentEncoding":"base64","contentMediaType":"application/json","contentSchema":false}"#,
        r#""a""#,
        &[],
    ),
    (
        r#"{"$schema":"https://json-schema.org/draft/2019-09/schema","$vocabulary":{},"$comment":"a","title":"","description":"","default":{"type":5},"examples":[],"readOnly":false,"writeOnly":true,"deprecated":false,"contentEncoding":"","contentMediaType":"","contentSchema":{"type":"null"}}"#,
        "5",
        &[],
    ),
    (
        r#"{"$schema":"http://json-schema.org/draft-07/schema#","$comment":"a","readOnly":true,"writeOnly":true,"contentEncoding":"base64","contentMediaType":"application/json"}"#,
        r#""?""#,
        &[],
    ),
    // what a draft does not have may be anything
    (
        r#"{"$schema":"http://json-schema.org/draft-04/schema#","default":null,"examples":5,"$comment":5,"readOnly":5,"writeOnly":5,"contentEncoding":5,"contentMediaType":5}"#,
        "5",
        &[],
    ),
    (
        r#"{"$schema":"http://json-schema.org/draft-06/schema#","examples":[],"$comment":5,"readOnly":5,"writeOnly":5,"contentEncoding":5,"contentMediaType":5}"#,
        "5",
        &[],
    ),
    (
        r#"{"$schema":"http://json-schema.org/draft-07/schema#","deprecated":5,"contentSchema":5,"$vocabulary":5}"#,
        "5",
        &[],
    ),
    // and so may what stands beside a reference, up to draft 7
    (
        r##"{"$schema":"http://json-schema.org/draft-07/schema#","properties":{"a":{"$ref":"#/definitions/b","title":5}},"definitions":{"b":{"type":"null"}}}"##,
        r#"{"a":null}"#,
        &[],
    ),
    // references lead to what `contentSchema` has, and from there
    (
        r#"{"$ref":"http://example.com/a","contentSchema":{"$id":"http://example.com/a","type":"null"}}"#,
        "5",
        &[r#"5 is not of type "null" at '' by '/contentSchema/type' ('/$ref/type')"#],
    ),
    (r##"{"contentSchema":{"$ref":"#"}}"##, "5", &[]),
];

#[test]
fn malformed_under_refusal(rt: HostRuntime) -> Result<(), Fail> {
    are_refused(rt.alloc(), REFUSALS)
}

#[test]
fn silent_under_refusal(rt: HostRuntime) -> Result<(), Fail> {
    are_answered(rt.alloc(), ROWS)
}
