//! `enum`, `const`, `multipleOf` and limits.

use super::answers::{Row, are_answered};
use std::test::Fail;

const ROWS: &[Row] = &[
    (
        r#"{"$schema":"http://json-schema.org/draft-07/schema#","enum":["b",1,[{"c":2}]]}"#,
        r#""a""#,
        &[r#""a" is not one of "b", 1 or [{"c":2}] at '' by '/enum' ('/enum')"#],
    ),
    (
        r#"{"$schema":"http://json-schema.org/draft-07/schema#","enum":["b","c"]}"#,
        r#""a""#,
        &[r#""a" is not one of "b" or "c" at '' by '/enum' ('/enum')"#],
    ),
    (
        r#"{"$schema":"http://json-schema.org/draft-07/schema#","enum":["b",1,[{"c":2}]]}"#,
        r#"[{"c":2.0}]"#,
        &[],
    ),
    (
        r#"{"$schema":"http://json-schema.org/draft-07/schema#","const":{"a":1,"b":[2]}}"#,
        r#"{"b":[2],"a":1.0}"#,
        &[],
    ),
    (
        r#"{"$schema":"http://json-schema.org/draft-07/schema#","const":{"a":1}}"#,
        r#"{"a":true}"#,
        &[r#"{"a":1} was expected at '' by '/const' ('/const')"#],
    ),
    (
        r#"{"$schema":"http://json-schema.org/draft-04/schema#","const":1}"#,
        "2",
        &[],
    ),
    (
        r#"{"$schema":"http://json-schema.org/draft-07/schema#","multipleOf":2}"#,
        "3",
        &["3 is not a multiple of 2 at '' by '/multipleOf' ('/multipleOf')"],
    ),
    (
        r#"{"$schema":"http://json-schema.org/draft-07/schema#","multipleOf":0.5}"#,
        "4",
        &[],
    ),
    (
        r#"{"$schema":"http://json-schema.org/draft-07/schema#","multipleOf":2}"#,
        "-4",
        &[],
    ),
    (
        r#"{"$schema":"http://json-schema.org/draft-07/schema#","multipleOf":2}"#,
        r#""3""#,
        &[],
    ),
    (
        r#"{"$schema":"http://json-schema.org/draft-07/schema#","minimum":10}"#,
        "5",
        &["5 is less than the minimum of 10 at '' by '/minimum' ('/minimum')"],
    ),
    (
        r#"{"$schema":"http://json-schema.org/draft-07/schema#","minimum":5}"#,
        "5.0",
        &[],
    ),
    (
        r#"{"$schema":"http://json-schema.org/draft-07/schema#","maximum":3}"#,
        "5",
        &["5 is greater than the maximum of 3 at '' by '/maximum' ('/maximum')"],
    ),
    (
        r#"{"$schema":"http://json-schema.org/draft-07/schema#","maximum":-1}"#,
        "-1",
        &[],
    ),
    (
        r#"{"$schema":"http://json-schema.org/draft-07/schema#","exclusiveMinimum":5}"#,
        "5",
        &[
            "5 is less than or equal to the minimum of 5 at '' by '/exclusiveMinimum' ('/exclusiveMinimum')",
        ],
    ),
    (
        r#"{"$schema":"http://json-schema.org/draft-07/schema#","exclusiveMinimum":5}"#,
        "6",
        &[],
    ),
    (
        r#"{"$schema":"http://json-schema.org/draft-07/schema#","exclusiveMaximum":5}"#,
        "5",
        &[
            "5 is greater than or equal to the maximum of 5 at '' by '/exclusiveMaximum' ('/exclusiveMaximum')",
        ],
    ),
    (
        r#"{"$schema":"http://json-schema.org/draft-07/schema#","exclusiveMaximum":5}"#,
        "-18446744073709551615",
        &[],
    ),
    (
        r#"{"$schema":"http://json-schema.org/draft-04/schema#","minimum":5,"exclusiveMinimum":true}"#,
        "5",
        &["5 is less than or equal to the minimum of 5 at '' by '/minimum' ('/minimum')"],
    ),
    (
        r#"{"$schema":"http://json-schema.org/draft-04/schema#","minimum":5,"exclusiveMinimum":false}"#,
        "5",
        &[],
    ),
    (
        r#"{"$schema":"http://json-schema.org/draft-04/schema#","maximum":5,"exclusiveMaximum":true}"#,
        "5",
        &["5 is greater than or equal to the maximum of 5 at '' by '/maximum' ('/maximum')"],
    ),
    (r#"{"const":null}"#, "null", &[]),
    (
        r#"{"const":null}"#,
        "false",
        &["null was expected at '' by '/const' ('/const')"],
    ),
    (r#"{"enum":[0,"true",true]}"#, "true", &[]),
    (
        r#"{"enum":[0,"true",true]}"#,
        "false",
        &[r#"false is not one of 0, "true" or true at '' by '/enum' ('/enum')"#],
    ),
];

#[test]
fn errors_under_refusal(rt: HostRuntime) -> Result<(), Fail> {
    are_answered(rt.alloc(), ROWS)
}
