//! Sizes, `uniqueItems`, and members by their names.

use super::answers::{Row, are_answered};
use std::test::Fail;

const ROWS: &[Row] = &[
    (
        r#"{"$schema":"http://json-schema.org/draft-07/schema#","minItems":2}"#,
        "[1]",
        &["[1] has less than 2 items at '' by '/minItems' ('/minItems')"],
    ),
    (
        r#"{"$schema":"http://json-schema.org/draft-07/schema#","minItems":2.0}"#,
        "[1,2]",
        &[],
    ),
    (
        r#"{"$schema":"http://json-schema.org/draft-07/schema#","maxItems":1}"#,
        "[1,2]",
        &["[1,2] has more than 1 item at '' by '/maxItems' ('/maxItems')"],
    ),
    (
        r#"{"$schema":"http://json-schema.org/draft-07/schema#","maxItems":1}"#,
        r#"{"a":1,"b":2}"#,
        &[],
    ),
    (
        r#"{"$schema":"http://json-schema.org/draft-07/schema#","minProperties":2}"#,
        r#"{"a":1}"#,
        &[r#"{"a":1} has less than 2 properties at '' by '/minProperties' ('/minProperties')"#],
    ),
    (
        r#"{"$schema":"http://json-schema.org/draft-07/schema#","maxProperties":1}"#,
        r#"{"a":1,"b":2}"#,
        &[r#"{"a":1,"b":2} has more than 1 property at '' by '/maxProperties' ('/maxProperties')"#],
    ),
    (
        r#"{"$schema":"http://json-schema.org/draft-07/schema#","maxProperties":1}"#,
        "[1,2]",
        &[],
    ),
    (
        r#"{"$schema":"http://json-schema.org/draft-07/schema#","uniqueItems":true}"#,
        "[1,1]",
        &["[1,1] has non-unique elements at '' by '/uniqueItems' ('/uniqueItems')"],
    ),
    (
        r#"{"$schema":"http://json-schema.org/draft-07/schema#","uniqueItems":true}"#,
        r#"[{"a":[1]},{"a":[true]},1,true,"1",null,0]"#,
        &[],
    ),
    (
        r#"{"$schema":"http://json-schema.org/draft-07/schema#","uniqueItems":true}"#,
        r#"[[{"a":1}],2,[{"a":1}]]"#,
        &[
            r#"[[{"a":1}],2,[{"a":1}]] has non-unique elements at '' by '/uniqueItems' ('/uniqueItems')"#,
        ],
    ),
    (
        r#"{"$schema":"http://json-schema.org/draft-07/schema#","uniqueItems":false}"#,
        "[1,1]",
        &[],
    ),
    (
        r#"{"$schema":"http://json-schema.org/draft-07/schema#","minLength":2.0}"#,
        r#""a""#,
        &[r#""a" is shorter than 2 characters at '' by '/minLength' ('/minLength')"#],
    ),
    (
        r#"{"$schema":"http://json-schema.org/draft-07/schema#","type":"integer"}"#,
        "1.0",
        &[],
    ),
    (
        r#"{"$schema":"http://json-schema.org/draft-07/schema#","patternProperties":{"^a":{"type":"null"}}}"#,
        r#"{"ab":1,"b":2}"#,
        &[
            r#"1 is not of type "null" at '/ab' by '/patternProperties/^a/type' ('/patternProperties/^a/type')"#,
        ],
    ),
    (
        r#"{"$schema":"http://json-schema.org/draft-07/schema#","properties":{"a":{}},"patternProperties":{"^b":{}},"additionalProperties":false}"#,
        r#"{"a":1,"bc":2,"d":3,"e":4}"#,
        &[
            "Additional properties are not allowed ('d', 'e' were unexpected) at '' by '/additionalProperties' ('/additionalProperties')",
        ],
    ),
    (
        r#"{"$schema":"http://json-schema.org/draft-07/schema#","additionalProperties":false}"#,
        r#"{"x":1}"#,
        &[
            "Additional properties are not allowed ('x' was unexpected) at '' by '/additionalProperties' ('/additionalProperties')",
        ],
    ),
    (
        r#"{"$schema":"http://json-schema.org/draft-07/schema#","properties":{"a":{}},"additionalProperties":{"type":"null"}}"#,
        r#"{"a":1,"b":2}"#,
        &[
            r#"2 is not of type "null" at '/b' by '/additionalProperties/type' ('/additionalProperties/type')"#,
        ],
    ),
    (
        r#"{"$schema":"http://json-schema.org/draft-04/schema#","additionalProperties":true}"#,
        r#"{"x":1}"#,
        &[],
    ),
    (
        r#"{"$schema":"http://json-schema.org/draft-07/schema#","propertyNames":{"maxLength":1}}"#,
        r#"{"a":1,"bc":2}"#,
        &[
            r#""bc" is longer than 1 character at '' by '/propertyNames/maxLength' ('/propertyNames/maxLength')"#,
        ],
    ),
    // as many as are allowed, and a size of 0
    (
        r#"{"minItems":2,"maxItems":2,"minProperties":1,"maxProperties":1}"#,
        "[1,2]",
        &[],
    ),
    (
        r#"{"minItems":2,"maxItems":2,"minProperties":1,"maxProperties":1}"#,
        r#"{"a":1}"#,
        &[],
    ),
    (
        r#"{"maxItems":0.0,"minItems":-0.0}"#,
        "[1]",
        &["[1] has more than 0 items at '' by '/maxItems' ('/maxItems')"],
    ),
    (
        r#"{"maxProperties":0}"#,
        r#"{"a":1}"#,
        &[r#"{"a":1} has more than 0 properties at '' by '/maxProperties' ('/maxProperties')"#],
    ),
    (
        r#"{"minProperties":1}"#,
        "{}",
        &["{} has less than 1 property at '' by '/minProperties' ('/minProperties')"],
    ),
    // sizes of 64 bits, and beyond
    (
        r#"{"minItems":1e19}"#,
        "[1]",
        &["[1] has less than 10000000000000000000 items at '' by '/minItems' ('/minItems')"],
    ),
    (
        r#"{"minItems":1e20}"#,
        "[1]",
        &["[1] has less than 18446744073709551615 items at '' by '/minItems' ('/minItems')"],
    ),
    (
        r#"{"maxLength":2.0,"minLength":2.0}"#,
        r#""abc""#,
        &[r#""abc" is longer than 2 characters at '' by '/maxLength' ('/maxLength')"#],
    ),
    // items that are the same
    (
        r#"{"uniqueItems":true}"#,
        r#"[[1,2],[1],[1,2,3],[2,1],[],{"a":1,"b":2},{"a":1},{"a":1,"b":2,"c":3},{"b":1},{"a":2},{},"ab","ba","AB"]"#,
        &[],
    ),
    (
        r#"{"uniqueItems":true}"#,
        r#"[{"a":[1,{"b":-0.0}],"c":"d"},{"c":"d","a":[1.0,{"b":0}]}]"#,
        &[
            r#"[{"a":[1,{"b":-0.0}],"c":"d"},{"a":[1.0,{"b":0}],"c":"d"}] has non-unique elements at '' by '/uniqueItems' ('/uniqueItems')"#,
        ],
    ),
    // several patterns, and several members of one
    (
        r#"{"patternProperties":{"^a":{"type":"null"},"^ac":{"type":"string"}}}"#,
        r#"{"ab":1,"ac":2,"b":3}"#,
        &[
            r#"1 is not of type "null" at '/ab' by '/patternProperties/^a/type' ('/patternProperties/^a/type')"#,
            r#"2 is not of type "null" at '/ac' by '/patternProperties/^a/type' ('/patternProperties/^a/type')"#,
            r#"2 is not of type "string" at '/ac' by '/patternProperties/^ac/type' ('/patternProperties/^ac/type')"#,
        ],
    ),
    (
        r#"{"patternProperties":{"^a":true,"^b":true},"additionalProperties":{"type":"null"}}"#,
        r#"{"a":1,"b":2,"c":3,"d":null,"e":4}"#,
        &[
            r#"3 is not of type "null" at '/c' by '/additionalProperties/type' ('/additionalProperties/type')"#,
            r#"4 is not of type "null" at '/e' by '/additionalProperties/type' ('/additionalProperties/type')"#,
        ],
    ),
    // empty keys, keys with `~` and `/`, and names that objects have in JavaScript
    (
        r#"{"required":["","~/","__proto__"],"propertyNames":{"minLength":1},"dependentRequired":{"":["constructor"]},"dependentSchemas":{"~/":{"required":["toString"]}},"patternProperties":{"^__proto__$":false}}"#,
        r#"{"":1,"~/":2,"__proto__":3}"#,
        &[
            r#""constructor" is a required property at '' by '/dependentRequired' ('/dependentRequired')"#,
            r#""toString" is a required property at '' by '/dependentSchemas/~0~1/required' ('/dependentSchemas/~0~1/required')"#,
            "False schema does not allow 3 at '/__proto__' by '/patternProperties/^__proto__$' ('/patternProperties/^__proto__$')",
            r#""" is shorter than 1 character at '' by '/propertyNames/minLength' ('/propertyNames/minLength')"#,
        ],
    ),
    (
        r#"{"properties":{"a":true},"additionalProperties":false}"#,
        r#"{"":1,"'":2,"__proto__":3,"a":4,"b/~":5}"#,
        &[
            "Additional properties are not allowed ('', ''', '__proto__', 'b/~' were unexpected) at '' by '/additionalProperties' ('/additionalProperties')",
        ],
    ),
];

#[test]
fn errors_under_refusal(rt: HostRuntime) -> Result<(), Fail> {
    are_answered(rt.alloc(), ROWS)
}
