//! Items, `contains` and `dependencies`.

use super::answers::{Row, are_answered};
use std::test::Fail;

const ROWS: &[Row] = &[
    (
        r#"{"$schema":"http://json-schema.org/draft-07/schema#","items":{"type":"null"}}"#,
        "[null,1]",
        &[r#"1 is not of type "null" at '/1' by '/items/type' ('/items/type')"#],
    ),
    (
        r#"{"$schema":"http://json-schema.org/draft-07/schema#","items":[{"type":"null"},{"type":"string"}]}"#,
        r#"[1,"a",2]"#,
        &[r#"1 is not of type "null" at '/0' by '/items/0/type' ('/items/0/type')"#],
    ),
    (
        r#"{"$schema":"http://json-schema.org/draft-07/schema#","items":[{}],"additionalItems":{"type":"null"}}"#,
        "[1,null,2]",
        &[
            r#"2 is not of type "null" at '/2' by '/additionalItems/type' ('/additionalItems/type')"#,
        ],
    ),
    (
        r#"{"$schema":"http://json-schema.org/draft-07/schema#","items":[{}],"additionalItems":false}"#,
        "[1,4]",
        &[
            "Additional items are not allowed (4 was unexpected) at '' by '/additionalItems' ('/additionalItems')",
        ],
    ),
    (
        r#"{"$schema":"http://json-schema.org/draft-07/schema#","additionalItems":false}"#,
        "[1,4]",
        &[],
    ),
    (
        r#"{"$schema":"http://json-schema.org/draft-07/schema#","contains":{"type":"null"}}"#,
        "[1]",
        &["None of [1] are valid under the given schema at '' by '/contains' ('/contains')"],
    ),
    (
        r#"{"$schema":"http://json-schema.org/draft-07/schema#","contains":{"type":"null"}}"#,
        "[1,null]",
        &[],
    ),
    (
        r#"{"$schema":"http://json-schema.org/draft-07/schema#","contains":{"type":"null"}}"#,
        "{}",
        &[],
    ),
    (
        r#"{"$schema":"http://json-schema.org/draft-07/schema#","dependencies":{"a":["b"],"c":{"type":"null"}}}"#,
        r#"{"a":1}"#,
        &[r#""b" is a required property at '' by '/dependencies' ('/dependencies')"#],
    ),
    (
        r#"{"$schema":"http://json-schema.org/draft-07/schema#","dependencies":{"a":["b"],"c":{"minProperties":2}}}"#,
        r#"{"c":1}"#,
        &[
            r#"{"c":1} has less than 2 properties at '' by '/dependencies/c/minProperties' ('/dependencies/c/minProperties')"#,
        ],
    ),
    (
        r#"{"$schema":"http://json-schema.org/draft-07/schema#","dependencies":{"a":["b"],"c":false}}"#,
        r#"{"b":1}"#,
        &[],
    ),
    (
        r#"{"$schema":"https://json-schema.org/draft/2019-09/schema","items":[{"type":"null"}],"additionalItems":false}"#,
        "[1,4,5]",
        &[
            "Additional items are not allowed (4, 5 were unexpected) at '' by '/additionalItems' ('/additionalItems')",
            r#"1 is not of type "null" at '/0' by '/items/0/type' ('/items/0/type')"#,
        ],
    ),
    (
        r#"{"$schema":"http://json-schema.org/draft-07/schema#","items":{},"additionalItems":false}"#,
        "[1]",
        &[],
    ),
    // as many items as `contains` takes, and other numbers of them
    (
        r#"{"contains":{"type":"null"},"minContains":1,"maxContains":1}"#,
        "[1,null]",
        &[],
    ),
    (
        r#"{"contains":{"type":"null"},"minContains":2.0}"#,
        "[null]",
        &["None of [null] are valid under the given schema at '' by '/contains' ('/contains')"],
    ),
    (
        r#"{"contains":true}"#,
        "[]",
        &["None of [] are valid under the given schema at '' by '/contains' ('/contains')"],
    ),
    // dependencies: the missing names of all first
    (
        r#"{"$schema":"http://json-schema.org/draft-07/schema#","dependencies":{"a":false,"b":["c","d"],"e":["f"]}}"#,
        r#"{"a":1,"b":2,"e":3}"#,
        &[
            r#""c" is a required property at '' by '/dependencies' ('/dependencies')"#,
            r#""d" is a required property at '' by '/dependencies' ('/dependencies')"#,
            r#""f" is a required property at '' by '/dependencies' ('/dependencies')"#,
            r#"False schema does not allow {"a":1,"b":2,"e":3} at '' by '/dependencies/a' ('/dependencies/a')"#,
        ],
    ),
    (r#"{"dependentRequired":{"a":[]}}"#, r#"{"a":1}"#, &[]),
];

#[test]
fn errors_under_refusal(rt: HostRuntime) -> Result<(), Fail> {
    are_answered(rt.alloc(), ROWS)
}
