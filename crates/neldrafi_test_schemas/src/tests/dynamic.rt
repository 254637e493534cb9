//! References that depend on the way of evaluation.

use super::answers::{Row, are_answered, are_answered_by, json};
use super::documents::config_with;
use super::refusals::{Refusal, are_refused};
use neldrafi_schema::Document;
use std::test::Fail;

// Draft 2020-12 (Core, section 8.2.3.2).
const ROWS: &[Row] = &[
    // in one resource, as `$ref`
    (
        r##"{"$dynamicRef":"#x","$defs":{"a":{"$dynamicAnchor":"x","type":"null"}}}"##,
        "5",
        &[r#"5 is not of type "null" at '' by '/$defs/a/type' ('/$dynamicRef/type')"#],
    ),
    (
        r##"{"$dynamicRef":"#x","$defs":{"a":{"$anchor":"x","type":"null"}}}"##,
        "5",
        &[r#"5 is not of type "null" at '' by '/$defs/a/type' ('/$dynamicRef/type')"#],
    ),
    // the outermost resource with a dynamic anchor of the name; others on the way do not count
    (
        r##"{"$ref":"b","$defs":{"a":{"$dynamicAnchor":"x","type":"null"},"b":{"$id":"b","$dynamicRef":"#x","$defs":{"c":{"$dynamicAnchor":"x","type":"string"}}}}}"##,
        "5",
        &[r#"5 is not of type "null" at '' by '/$defs/a/type' ('/$ref/$dynamicRef/type')"#],
    ),
    (
        r##"{"$ref":"b","$defs":{"b":{"$id":"b","$ref":"c","$defs":{"x":{"$dynamicAnchor":"x","type":"null"}}},"c":{"$id":"c","$ref":"d"},"d":{"$id":"d","$dynamicRef":"#%78","$defs":{"x":{"$dynamicAnchor":"x","type":"string"}}}}}"##,
        "5",
        &[
            r#"5 is not of type "null" at '' by '/$defs/b/$defs/x/type' ('/$ref/$ref/$ref/$dynamicRef/type')"#,
        ],
    ),
    (
        r#"{"$ref":"b","$defs":{"a":{"$dynamicAnchor":"x","type":"null"},"b":{"$id":"b","$dynamicRef":"c#x"},"c":{"$id":"c","$dynamicAnchor":"x","type":"string"}}}"#,
        "5",
        &[r#"5 is not of type "null" at '' by '/$defs/a/type' ('/$ref/$dynamicRef/type')"#],
    ),
    (
        r#"{"$ref":"b","$defs":{"b":{"$id":"b","$dynamicRef":"c#x"},"c":{"$id":"c","$dynamicAnchor":"x","type":"string"}}}"#,
        "5",
        &[r#"5 is not of type "string" at '' by '/$defs/c/type' ('/$ref/$dynamicRef/type')"#],
    ),
    // no other way than that of the evaluation counts, and no resource that it has left
    (
        r##"{"allOf":[{"$id":"a","$ref":"c","$defs":{"x":{"$dynamicAnchor":"x","type":"null"}}},{"$ref":"c"},{"$id":"b","$ref":"c","$defs":{"x":{"$dynamicAnchor":"x","type":"string"}}}],"$defs":{"c":{"$id":"c","$dynamicRef":"#x","$defs":{"x":{"$dynamicAnchor":"x","type":"boolean"}}}}}"##,
        "5",
        &[
            r#"5 is not of type "null" at '' by '/allOf/0/$defs/x/type' ('/allOf/0/$ref/$dynamicRef/type')"#,
            r#"5 is not of type "boolean" at '' by '/$defs/c/$defs/x/type' ('/allOf/1/$ref/$dynamicRef/type')"#,
            r#"5 is not of type "string" at '' by '/allOf/2/$defs/x/type' ('/allOf/2/$ref/$dynamicRef/type')"#,
        ],
    ),
    (
        r#"{"if":{"$id":"a","$defs":{"x":{"$dynamicAnchor":"x","type":"integer"}}},"then":{"$id":"b","$ref":"c","$defs":{"x":{"$dynamicAnchor":"x","type":"null"}}},"$defs":{"c":{"$id":"c","$dynamicRef":"d#x"},"d":{"$id":"d","$dynamicAnchor":"x","type":"integer"}}}"#,
        "5",
        &[
            r#"5 is not of type "null" at '' by '/then/$defs/x/type' ('/then/$ref/$dynamicRef/type')"#,
        ],
    ),
    // what is not dynamic: `$ref`; a pointer; a name of `$anchor`, in the resource itself or further out
    (
        r##"{"$ref":"b","$defs":{"a":{"$dynamicAnchor":"x","type":"null"},"b":{"$id":"b","$ref":"#x","$defs":{"c":{"$dynamicAnchor":"x","type":"string"}}}}}"##,
        "5",
        &[r#"5 is not of type "string" at '' by '/$defs/b/$defs/c/type' ('/$ref/$ref/type')"#],
    ),
    (
        r##"{"$ref":"b","$defs":{"a":{"$dynamicAnchor":"x","type":"null"},"b":{"$id":"b","$dynamicRef":"#/$defs/c","$defs":{"c":{"$dynamicAnchor":"x","type":"string"}}}}}"##,
        "5",
        &[
            r#"5 is not of type "string" at '' by '/$defs/b/$defs/c/type' ('/$ref/$dynamicRef/type')"#,
        ],
    ),
    (
        r##"{"$ref":"b","$defs":{"a":{"$dynamicAnchor":"x","type":"null"},"b":{"$id":"b","$dynamicRef":"#x","$defs":{"c":{"$anchor":"x","$dynamicAnchor":"y","type":"string"}}}}}"##,
        "5",
        &[
            r#"5 is not of type "string" at '' by '/$defs/b/$defs/c/type' ('/$ref/$dynamicRef/type')"#,
        ],
    ),
    (
        r##"{"$ref":"b","$defs":{"a":{"$anchor":"x","type":"null"},"b":{"$id":"b","$dynamicRef":"#x","$defs":{"c":{"$dynamicAnchor":"x","type":"string"}}}}}"##,
        "5",
        &[
            r#"5 is not of type "string" at '' by '/$defs/b/$defs/c/type' ('/$ref/$dynamicRef/type')"#,
        ],
    ),
    // drafts that do not have them
    (r#"{"$recursiveRef":5,"$recursiveAnchor":5}"#, "5", &[]),
    (
        r#"{"$schema":"https://json-schema.org/draft/2019-09/schema","$dynamicRef":5,"$dynamicAnchor":5}"#,
        "5",
        &[],
    ),
    (
        r#"{"$schema":"http://json-schema.org/draft-07/schema#","$recursiveRef":5,"$recursiveAnchor":5,"$dynamicRef":5,"$dynamicAnchor":5}"#,
        "5",
        &[],
    ),
    // the outermost of two in the scope, of which the inner one has another name, too
    (
        r##"{"$ref":"b","$defs":{"b":{"$id":"b","$ref":"c","$defs":{"x":{"$dynamicAnchor":"x","type":"null"}}},"c":{"$id":"c","allOf":[{"$dynamicRef":"#x"},{"$dynamicRef":"#y"}],"$defs":{"x":{"$dynamicAnchor":"x","type":"string"},"y":{"$dynamicAnchor":"y","type":"boolean"}}}}}"##,
        "5",
        &[
            r#"5 is not of type "null" at '' by '/$defs/b/$defs/x/type' ('/$ref/$ref/allOf/0/$dynamicRef/type')"#,
            r#"5 is not of type "boolean" at '' by '/$defs/c/$defs/y/type' ('/$ref/$ref/allOf/1/$dynamicRef/type')"#,
        ],
    ),
    // no resource is dynamic by itself
    (
        r##"{"type":["array","object"],"properties":{"p":{"$id":"a","type":["null","object"],"properties":{"p":{"$dynamicRef":"#"}}}}}"##,
        r#"{"p":{"p":5}}"#,
        &[
            r#"5 is not of types "null", "object" at '/p/p' by '/properties/p/type' ('/properties/p/properties/p/$dynamicRef/type')"#,
        ],
    ),
];

// Draft 2019-09 (Core, section 8.2.4.2).
const RECURSIVE: &[Row] = &[
    (
        r##"{"$schema":"https://json-schema.org/draft/2019-09/schema","type":"object","properties":{"p":{"$recursiveRef":"#"}}}"##,
        r#"{"p":5}"#,
        &[r#"5 is not of type "object" at '/p' by '/type' ('/properties/p/$recursiveRef/type')"#],
    ),
    // both resources, the inner one alone, and the outer one alone
    (
        r##"{"$schema":"https://json-schema.org/draft/2019-09/schema","$recursiveAnchor":true,"type":["array","object"],"properties":{"p":{"$id":"a","$recursiveAnchor":true,"type":["null","object"],"properties":{"p":{"$recursiveRef":"#"}}}}}"##,
        r#"{"p":{"p":5}}"#,
        &[
            r#"5 is not of types "array", "object" at '/p/p' by '/type' ('/properties/p/properties/p/$recursiveRef/type')"#,
        ],
    ),
    (
        r##"{"$schema":"https://json-schema.org/draft/2019-09/schema","type":["array","object"],"properties":{"p":{"$id":"a","$recursiveAnchor":true,"type":["null","object"],"properties":{"p":{"$recursiveRef":"#"}}}}}"##,
        r#"{"p":{"p":5}}"#,
        &[
            r#"5 is not of types "null", "object" at '/p/p' by '/properties/p/type' ('/properties/p/properties/p/$recursiveRef/type')"#,
        ],
    ),
    (
        r##"{"$schema":"https://json-schema.org/draft/2019-09/schema","$recursiveAnchor":true,"type":["array","object"],"properties":{"p":{"$id":"a","type":["null","object"],"properties":{"p":{"$recursiveRef":"#"}}}}}"##,
        r#"{"p":{"p":5}}"#,
        &[
            r#"5 is not of types "null", "object" at '/p/p' by '/properties/p/type' ('/properties/p/properties/p/$recursiveRef/type')"#,
        ],
    ),
    (
        r##"{"$schema":"https://json-schema.org/draft/2019-09/schema","$recursiveAnchor":true,"type":["array","object"],"properties":{"p":{"$id":"a","$recursiveAnchor":false,"type":["null","object"],"properties":{"p":{"$recursiveRef":"#"}}}}}"##,
        r#"{"p":{"p":5}}"#,
        &[
            r#"5 is not of types "null", "object" at '/p/p' by '/properties/p/type' ('/properties/p/properties/p/$recursiveRef/type')"#,
        ],
    ),
    // with one between them: all but the outermost, and all but that one
    (
        r##"{"$schema":"https://json-schema.org/draft/2019-09/schema","$recursiveAnchor":false,"type":["array","object"],"properties":{"p":{"$id":"a","$recursiveAnchor":true,"type":["null","object"],"properties":{"p":{"$id":"b","$recursiveAnchor":true,"properties":{"p":{"$recursiveRef":"#"}}}}}}}"##,
        r#"{"p":{"p":{"p":5}}}"#,
        &[
            r#"5 is not of types "null", "object" at '/p/p/p' by '/properties/p/type' ('/properties/p/properties/p/properties/p/$recursiveRef/type')"#,
        ],
    ),
    (
        r##"{"$schema":"https://json-schema.org/draft/2019-09/schema","$recursiveAnchor":true,"type":["array","object"],"properties":{"p":{"$id":"a","type":["null","object"],"properties":{"p":{"$id":"b","$recursiveAnchor":true,"properties":{"p":{"$recursiveRef":"#"}}}}}}}"##,
        r#"{"p":{"p":{"p":5}}}"#,
        &[
            r#"5 is not of types "array", "object" at '/p/p/p' by '/type' ('/properties/p/properties/p/properties/p/$recursiveRef/type')"#,
        ],
    ),
    // nor by an empty fragment of its `$id`
    (
        r##"{"$schema":"https://json-schema.org/draft/2019-09/schema","$id":"b#","type":["array","object"],"properties":{"p":{"$id":"a","$recursiveAnchor":true,"type":["null","object"],"properties":{"p":{"$recursiveRef":"#"}}}}}"##,
        r#"{"p":{"p":5}}"#,
        &[
            r#"5 is not of types "null", "object" at '/p/p' by '/properties/p/type' ('/properties/p/properties/p/$recursiveRef/type')"#,
        ],
    ),
];

const REFUSALS: &[Refusal] = &[
    // where a reference leads nowhere, further out nothing counts
    (
        r##"{"$dynamicRef":"#x"}"##,
        "UnresolvedReference",
        "/$dynamicRef",
    ),
    (
        r#"{"$dynamicRef":"b#x","$defs":{"a":{"$dynamicAnchor":"x"},"b":{"$id":"b"}}}"#,
        "UnresolvedReference",
        "/$dynamicRef",
    ),
    (
        r#"{"$schema":"https://json-schema.org/draft/2019-09/schema","$recursiveRef":"a"}"#,
        "UnresolvedReference",
        "/$recursiveRef",
    ),
    (
        r##"{"$schema":"https://json-schema.org/draft/2019-09/schema","$ref":"#x","$defs":{"a":{"$dynamicAnchor":"x"}}}"##,
        "UnresolvedReference",
        "/$ref",
    ),
    // references that lead back: always, and from the outer resource alone
    (
        r##"{"$dynamicAnchor":"x","$dynamicRef":"#x"}"##,
        "CircularReference",
        "/$dynamicRef",
    ),
    (
        r##"{"$dynamicAnchor":"x","$ref":"b","$defs":{"b":{"$id":"b","$dynamicRef":"#x","$defs":{"c":{"$dynamicAnchor":"x"}}}}}"##,
        "CircularReference",
        "/$defs/b/$dynamicRef",
    ),
    (
        r##"{"$schema":"https://json-schema.org/draft/2019-09/schema","$recursiveRef":"#"}"##,
        "CircularReference",
        "/$recursiveRef",
    ),
    // values
    (r#"{"$dynamicRef":5}"#, "WrongType", "/$dynamicRef"),
    (r#"{"$dynamicAnchor":5}"#, "WrongType", "/$dynamicAnchor"),
    (r#"{"$dynamicAnchor":""}"#, "WrongType", "/$dynamicAnchor"),
    (
        r#"{"$dynamicAnchor":"a:b"}"#,
        "WrongType",
        "/$dynamicAnchor",
    ),
    (
        r#"{"$schema":"https://json-schema.org/draft/2019-09/schema","$recursiveRef":5}"#,
        "WrongType",
        "/$recursiveRef",
    ),
    (
        r#"{"$schema":"https://json-schema.org/draft/2019-09/schema","$recursiveAnchor":"true"}"#,
        "WrongType",
        "/$recursiveAnchor",
    ),
];

// The example of Core 2020-12, appendix C: a schema of trees, and one that extends it at each node.
const TREE: &str =
    r##"{"$schema":"https://json-schema.org/draft/2020-12/schema","$id":"https://example.com/tree","$dynamicAnchor":"node","type":"object","properties":{"data":true,"children":{"type":"array","items":{"$dynamicRef":"#node"}}}}"##;

const STRICT_TREE: &[Row] = &[
    (
        r#"{"$schema":"https://json-schema.org/draft/2020-12/schema","$id":"https://example.com/strict-tree","$dynamicAnchor":"node","$ref":"tree","unevaluatedProperties":false}"#,
        r#"{"children":[{"daat":1}]}"#,
        &[
            "Unevaluated properties are not allowed ('daat' was unexpected) at '/children/0' by '/unevaluatedProperties' ('/$ref/properties/children/items/$dynamicRef/unevaluatedProperties')",
        ],
    ),
    (
        r#"{"$schema":"https://json-schema.org/draft/2020-12/schema","$id":"https://example.com/strict-tree","$dynamicAnchor":"node","$ref":"tree","unevaluatedProperties":false}"#,
        r#"{"children":[{"data":1}]}"#,
        &[],
    ),
];

// A document that has a URI by its caller alone.
const LIST: &str =
    r##"{"$recursiveAnchor":true,"type":["null","object"],"properties":{"p":{"$recursiveRef":"#"}}}"##;

const LISTS: &[Row] = &[(
    r#"{"$schema":"https://json-schema.org/draft/2019-09/schema","$recursiveAnchor":true,"type":["array","object"],"properties":{"p":{"$ref":"https://example.com/list"}}}"#,
    r#"{"p":{"p":5}}"#,
    &[
        r#"5 is not of types "array", "object" at '/p/p' by '/type' ('/properties/p/$ref/properties/p/$recursiveRef/type')"#,
    ],
)];

#[test]
fn errors_under_refusal(rt: HostRuntime) -> Result<(), Fail> {
    are_answered(rt.alloc(), ROWS)
}

#[test]
fn recursive_errors_under_refusal(rt: HostRuntime) -> Result<(), Fail> {
    are_answered(rt.alloc(), RECURSIVE)
}

#[test]
fn refusals_under_refusal(rt: HostRuntime) -> Result<(), Fail> {
    are_refused(rt.alloc(), REFUSALS)
}

#[test]
fn further_documents_under_refusal(rt: HostRuntime) -> Result<(), Fail> {
    let (tree, list) = (json(rt.alloc(), TREE)?, json(rt.alloc(), LIST)?);
    let documents = [
        Document {
            uri: "https://example.com/tree",
            value: &tree,
        },
        Document {
            uri: "https://example.com/list",
            value: &list,
        },
    ];
    let config = config_with(&documents);
    are_answered_by(rt.alloc(), &config, STRICT_TREE)?;
    are_answered_by(rt.alloc(), &config, LISTS)
}
