//! `allOf`, `anyOf`, `oneOf`, `if`, and references.

use super::answers::{Row, are_answered};
use std::test::Fail;

const ROWS: &[Row] = &[
    (
        r#"{"$schema":"http://json-schema.org/draft-07/schema#","allOf":[{"type":"null"},{},false]}"#,
        "1",
        &[
            r#"1 is not of type "null" at '' by '/allOf/0/type' ('/allOf/0/type')"#,
            "False schema does not allow 1 at '' by '/allOf/2' ('/allOf/2')",
        ],
    ),
    (
        r#"{"$schema":"http://json-schema.org/draft-07/schema#","anyOf":[{"type":"null"},false]}"#,
        "5",
        &[
            "5 is not valid under any of the schemas listed in the 'anyOf' keyword at '' by '/anyOf' ('/anyOf')",
        ],
    ),
    (
        r#"{"$schema":"http://json-schema.org/draft-07/schema#","anyOf":[false,true,true]}"#,
        "5",
        &[],
    ),
    (
        r#"{"$schema":"http://json-schema.org/draft-07/schema#","oneOf":[false,{"type":"null"}]}"#,
        "5",
        &[
            "5 is not valid under any of the schemas listed in the 'oneOf' keyword at '' by '/oneOf' ('/oneOf')",
        ],
    ),
    (
        r#"{"$schema":"http://json-schema.org/draft-07/schema#","oneOf":[true,false,{}]}"#,
        "5",
        &[
            "5 is valid under more than one of the schemas listed in the 'oneOf' keyword at '' by '/oneOf' ('/oneOf')",
        ],
    ),
    (
        r#"{"$schema":"http://json-schema.org/draft-07/schema#","oneOf":[true,false]}"#,
        "5",
        &[],
    ),
    (
        r#"{"$schema":"http://json-schema.org/draft-07/schema#","if":{"minimum":0},"then":{"maximum":3},"else":{"type":"null"}}"#,
        "5",
        &["5 is greater than the maximum of 3 at '' by '/then/maximum' ('/then/maximum')"],
    ),
    (
        r#"{"$schema":"http://json-schema.org/draft-07/schema#","if":{"minimum":0},"then":{"maximum":3},"else":{"type":"null"}}"#,
        "-1",
        &[r#"-1 is not of type "null" at '' by '/else/type' ('/else/type')"#],
    ),
    (
        r#"{"$schema":"http://json-schema.org/draft-07/schema#","if":{"minimum":0},"then":{"maximum":3},"else":{"type":"null"}}"#,
        "2",
        &[],
    ),
    (
        r#"{"$schema":"http://json-schema.org/draft-07/schema#","then":false,"else":false}"#,
        "2",
        &[],
    ),
    (
        r#"{"$schema":"http://json-schema.org/draft-06/schema#","if":{},"then":false}"#,
        "2",
        &[],
    ),
    (
        r##"{"$schema":"http://json-schema.org/draft-07/schema#","$ref":"#/definitions/a","definitions":{"a":{"type":"null"}},"type":"string"}"##,
        "5",
        &[r#"5 is not of type "null" at '' by '/definitions/a/type' ('/$ref/type')"#],
    ),
    (
        r##"{"$schema":"http://json-schema.org/draft-07/schema#","items":[{"type":"null"},{"$ref":"#/items/0"}]}"##,
        "[null,5]",
        &[r#"5 is not of type "null" at '/1' by '/items/0/type' ('/items/1/$ref/type')"#],
    ),
    (
        r##"{"$schema":"http://json-schema.org/draft-07/schema#","not":{"$ref":"#/definitions/a%25%2Fb"},"definitions":{"a%":{"b":{"type":"null"}}}}"##,
        "5",
        &[],
    ),
    (
        r#"{"oneOf":[true,true,true]}"#,
        "5",
        &[
            "5 is valid under more than one of the schemas listed in the 'oneOf' keyword at '' by '/oneOf' ('/oneOf')",
        ],
    ),
    (
        r#"{"if":false,"then":false,"else":{"type":"null"}}"#,
        "5",
        &[r#"5 is not of type "null" at '' by '/else/type' ('/else/type')"#],
    ),
    (r#"{"if":true,"else":false}"#, "5", &[]),
    (
        r#"{"if":false,"then":false,"else":{"type":"integer"}}"#,
        "5",
        &[],
    ),
];

#[test]
fn errors_under_refusal(rt: HostRuntime) -> Result<(), Fail> {
    are_answered(rt.alloc(), ROWS)
}
