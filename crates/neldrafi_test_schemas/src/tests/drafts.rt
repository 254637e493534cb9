//! What drafts have of their own, and where exact arithmetic would answer otherwise.

use super::answers::{Row, are_answered};
use std::test::Fail;

const ROWS: &[Row] = &[
    // arrays that may be empty, by the meta-schema of each draft
    (
        r#"{"$schema":"http://json-schema.org/draft-06/schema#","required":[]}"#,
        "{}",
        &[],
    ),
    (
        r#"{"$schema":"http://json-schema.org/draft-06/schema#","dependencies":{"a":[]}}"#,
        r#"{"a":1}"#,
        &[],
    ),
    (
        r#"{"$schema":"http://json-schema.org/draft-07/schema#","enum":[]}"#,
        "5",
        &["5 is not one of  at '' by '/enum' ('/enum')"],
    ),
    (
        r#"{"$schema":"http://json-schema.org/draft-04/schema#","minimum":5,"exclusiveMinimum":false,"maximum":5,"exclusiveMaximum":false}"#,
        "5",
        &[],
    ),
    // the keywords of drafts 2019-09 and 2020-12
    (
        r#"{"contains":{"type":"null"},"minContains":2}"#,
        "[null,1]",
        &["None of [null,1] are valid under the given schema at '' by '/contains' ('/contains')"],
    ),
    (
        r#"{"contains":{"type":"null"},"minContains":2}"#,
        "[null,1,null]",
        &[],
    ),
    (r#"{"contains":false,"minContains":0}"#, "[1]", &[]),
    (
        r#"{"contains":{"type":"null"},"maxContains":1}"#,
        "[null,null]",
        &[
            "None of [null,null] are valid under the given schema at '' by '/contains' ('/contains')",
        ],
    ),
    (r#"{"minContains":2,"maxContains":0}"#, "[1]", &[]),
    (
        r#"{"$schema":"http://json-schema.org/draft-07/schema#","contains":false,"minContains":0}"#,
        "[1]",
        &["None of [1] are valid under the given schema at '' by '/contains' ('/contains')"],
    ),
    (
        r#"{"prefixItems":[{"type":"null"},true],"items":{"type":"string"}}"#,
        "[1,2,3]",
        &[
            r#"3 is not of type "string" at '/2' by '/items/type' ('/items/type')"#,
            r#"1 is not of type "null" at '/0' by '/prefixItems/0/type' ('/prefixItems/0/type')"#,
        ],
    ),
    (
        r#"{"prefixItems":[true],"items":false}"#,
        "[1,2]",
        &["False schema does not allow 2 at '/1' by '/items' ('/items')"],
    ),
    (
        r#"{"$schema":"https://json-schema.org/draft/2019-09/schema","prefixItems":[false]}"#,
        "[1]",
        &[],
    ),
    (
        r#"{"dependentRequired":{"a":["b","c"],"d":["e"]}}"#,
        r#"{"a":1,"c":2}"#,
        &[r#""b" is a required property at '' by '/dependentRequired' ('/dependentRequired')"#],
    ),
    (
        r#"{"dependentSchemas":{"a":{"required":["b"]},"c":false}}"#,
        r#"{"a":1}"#,
        &[
            r#""b" is a required property at '' by '/dependentSchemas/a/required' ('/dependentSchemas/a/required')"#,
        ],
    ),
    (
        r#"{"$schema":"http://json-schema.org/draft-07/schema#","dependentRequired":5,"$defs":5}"#,
        r#"{"a":1}"#,
        &[],
    ),
    // where exact arithmetic would answer otherwise
    (r#"{"not":{"multipleOf":0.1}}"#, "0.3", &[]),
    (r#"{"not":{"multipleOf":0.5}}"#, "1e308", &[]),
    (r#"{"maximum":9007199254740992.0}"#, "9007199254740993", &[]),
    (
        r#"{"const":18446744073709551616}"#,
        "18446744073709551617",
        &[],
    ),
    (
        r#"{"const":9007199254740993}"#,
        "9007199254740992.0",
        &["9007199254740993 was expected at '' by '/const' ('/const')"],
    ),
    (
        r#"{"$schema":"http://json-schema.org/draft-04/schema#","type":"number"}"#,
        "1.5",
        &[],
    ),
];

#[test]
fn errors_under_refusal(rt: HostRuntime) -> Result<(), Fail> {
    are_answered(rt.alloc(), ROWS)
}
