//! What is evaluated.

use super::answers::{Row, are_answered};
use std::test::Fail;

const ROWS: &[Row] = &[
    // what is evaluated
    (
        r#"{"properties":{"a":true},"unevaluatedProperties":false}"#,
        r#"{"a":1,"b":2,"c":3}"#,
        &[
            "Unevaluated properties are not allowed ('b', 'c' were unexpected) at '' by '/unevaluatedProperties' ('/unevaluatedProperties')",
        ],
    ),
    (
        r#"{"allOf":[{"properties":{"a":true}}],"unevaluatedProperties":{"type":"null"}}"#,
        r#"{"a":1,"b":2}"#,
        &[
            r#"2 is not of type "null" at '/b' by '/unevaluatedProperties/type' ('/unevaluatedProperties/type')"#,
        ],
    ),
    (
        r#"{"anyOf":[{"required":["x"],"properties":{"a":true}},true],"unevaluatedProperties":false}"#,
        r#"{"a":1}"#,
        &[
            "Unevaluated properties are not allowed ('a' was unexpected) at '' by '/unevaluatedProperties' ('/unevaluatedProperties')",
        ],
    ),
    (
        r#"{"not":{"not":{"properties":{"a":true}}},"unevaluatedProperties":false}"#,
        r#"{"a":1}"#,
        &[
            "Unevaluated properties are not allowed ('a' was unexpected) at '' by '/unevaluatedProperties' ('/unevaluatedProperties')",
        ],
    ),
    (
        r#"{"propertyNames":true,"unevaluatedProperties":false}"#,
        r#"{"a":1}"#,
        &[
            "Unevaluated properties are not allowed ('a' was unexpected) at '' by '/unevaluatedProperties' ('/unevaluatedProperties')",
        ],
    ),
    (
        r#"{"allOf":[{"properties":{"a":true}},{"unevaluatedProperties":false}]}"#,
        r#"{"a":1}"#,
        &[
            "Unevaluated properties are not allowed ('a' was unexpected) at '' by '/allOf/1/unevaluatedProperties' ('/allOf/1/unevaluatedProperties')",
        ],
    ),
    (
        r##"{"$ref":"#/$defs/b","$defs":{"b":{"patternProperties":{"^a":true}}},"unevaluatedProperties":false}"##,
        r#"{"a":1}"#,
        &[],
    ),
    (
        r#"{"if":{"properties":{"a":true}},"unevaluatedProperties":false}"#,
        r#"{"a":1}"#,
        &[],
    ),
    (
        r#"{"if":{"properties":{"a":true}},"else":false,"unevaluatedProperties":false}"#,
        r#"{"a":1}"#,
        &[],
    ),
    (
        r#"{"oneOf":[false,{"additionalProperties":true}],"unevaluatedProperties":false}"#,
        r#"{"a":1}"#,
        &[],
    ),
    (
        r#"{"dependentSchemas":{"a":{"unevaluatedProperties":true}},"unevaluatedProperties":false}"#,
        r#"{"a":1}"#,
        &[],
    ),
    (
        r#"{"prefixItems":[true],"unevaluatedItems":false}"#,
        "[1,2]",
        &[
            "Unevaluated items are not allowed (2 was unexpected) at '' by '/unevaluatedItems' ('/unevaluatedItems')",
        ],
    ),
    (
        r#"{"contains":{"type":"null"},"unevaluatedItems":false}"#,
        "[null,1]",
        &[
            "Unevaluated items are not allowed (1 was unexpected) at '' by '/unevaluatedItems' ('/unevaluatedItems')",
        ],
    ),
    (
        r#"{"$schema":"https://json-schema.org/draft/2019-09/schema","contains":{"type":"null"},"unevaluatedItems":false}"#,
        "[null,1]",
        &[
            "Unevaluated items are not allowed (null, 1 were unexpected) at '' by '/unevaluatedItems' ('/unevaluatedItems')",
        ],
    ),
    (
        r#"{"$schema":"http://json-schema.org/draft-07/schema#","unevaluatedItems":false}"#,
        "[1]",
        &[],
    ),
    // below `not` nothing counts, and what is evaluated of a key is not so of the instance
    (
        r#"{"not":{"properties":{"a":true}},"unevaluatedProperties":false}"#,
        r#"{"a":1}"#,
        &[
            r#"{"properties":{"a":true}} is not allowed for {"a":1} at '' by '/not' ('/not')"#,
            "Unevaluated properties are not allowed ('a' was unexpected) at '' by '/unevaluatedProperties' ('/unevaluatedProperties')",
        ],
    ),
    (
        r#"{"propertyNames":{"properties":{"a":true}},"unevaluatedProperties":false}"#,
        r#"{"a":1}"#,
        &[
            "Unevaluated properties are not allowed ('a' was unexpected) at '' by '/unevaluatedProperties' ('/unevaluatedProperties')",
        ],
    ),
    // in draft 2019-09
    (
        r#"{"$schema":"https://json-schema.org/draft/2019-09/schema","additionalProperties":true,"unevaluatedProperties":false}"#,
        r#"{"a":1}"#,
        &[],
    ),
    (
        r#"{"$schema":"https://json-schema.org/draft/2019-09/schema","if":{"properties":{"a":true}},"unevaluatedProperties":false}"#,
        r#"{"a":1}"#,
        &[],
    ),
];

#[test]
fn errors_under_refusal(rt: HostRuntime) -> Result<(), Fail> {
    are_answered(rt.alloc(), ROWS)
}
