//! Booleans, `type`, `required`, `properties`, `not` and references.

use super::answers::{Row, are_answered, json};
use neldrafi_schema::{Config, Schema};
use std::alloc::AllocError;
use std::test::Fail;
use strkw_pattern::NoPatterns;

const ROWS: &[Row] = &[
    ("true", "5", &[]),
    (
        "false",
        "5",
        &["False schema does not allow 5 at '' by '' ('')"],
    ),
    ("{}", "5", &[]),
    (r#"{"unknown":5}"#, "5", &[]),
    (
        r#"{"$schema":"https://json-schema.org/draft/2020-12/schema","type":"string"}"#,
        "5",
        &[r#"5 is not of type "string" at '' by '/type' ('/type')"#],
    ),
    (
        r#"{"type":["string","null"]}"#,
        "5",
        &[r#"5 is not of types "string", "null" at '' by '/type' ('/type')"#],
    ),
    (
        r#"{"required":["b","a","a\"/"],"type":"object"}"#,
        r#"{"a":1}"#,
        &[
            r#""b" is a required property at '' by '/required' ('/required')"#,
            r#""a\"/" is a required property at '' by '/required' ('/required')"#,
        ],
    ),
    (r#"{"required":["a"]}"#, "[]", &[]),
    (
        r#"{"properties":{"b":{"type":"null"},"a":{"minLength":3,"maxLength":1},"c":false}}"#,
        r#"{"c":[],"b":0,"a":"no","d":5}"#,
        &[
            r#""no" is longer than 1 character at '/a' by '/properties/a/maxLength' ('/properties/a/maxLength')"#,
            r#""no" is shorter than 3 characters at '/a' by '/properties/a/minLength' ('/properties/a/minLength')"#,
            r#"0 is not of type "null" at '/b' by '/properties/b/type' ('/properties/b/type')"#,
            "False schema does not allow [] at '/c' by '/properties/c' ('/properties/c')",
        ],
    ),
    (r#"{"properties":{"a":false}}"#, r#"[{"a":1}]"#, &[]),
    (
        r#"{"properties":{"":{"type":"null"},"~/":{"type":"null"},"__proto__":{"type":"null"}}}"#,
        r#"{"":1,"~/":2,"__proto__":3}"#,
        &[
            r#"1 is not of type "null" at '/' by '/properties//type' ('/properties//type')"#,
            r#"3 is not of type "null" at '/__proto__' by '/properties/__proto__/type' ('/properties/__proto__/type')"#,
            r#"2 is not of type "null" at '/~0~1' by '/properties/~0~1/type' ('/properties/~0~1/type')"#,
        ],
    ),
    (
        r#"{"not":{"type":"integer"}}"#,
        "5",
        &[r#"{"type":"integer"} is not allowed for 5 at '' by '/not' ('/not')"#],
    ),
    (r#"{"not":{"type":"integer"}}"#, "5.5", &[]),
    (r#"{"not":{"not":{"type":"integer"}}}"#, "5", &[]),
    (
        r##"{"properties":{"next":{"$ref":"#"}},"type":"object"}"##,
        r#"{"next":{"next":4}}"#,
        &[
            r#"4 is not of type "object" at '/next/next' by '/type' ('/properties/next/$ref/properties/next/$ref/type')"#,
        ],
    ),
    (
        r##"{"$ref":"#/a~1b/~0","a/b":{"~":{"type":"null"}},"type":"string"}"##,
        "5",
        &[
            r#"5 is not of type "null" at '' by '/a~1b/~0/type' ('/$ref/type')"#,
            r#"5 is not of type "string" at '' by '/type' ('/type')"#,
        ],
    ),
    (
        r##"{"$ref":"#/$defs/a","$defs":{"a":{"$ref":"#/$defs/b"},"b":false}}"##,
        "[]",
        &["False schema does not allow [] at '' by '/$defs/b' ('/$ref/$ref')"],
    ),
    (r#"{"required":["a"]}"#, r#"{"a":null}"#, &[]),
    // keywords of one type say nothing of values of another
    (
        r#"{"minLength":2,"maxLength":0,"pattern":"^b","minItems":2,"maxItems":0,"uniqueItems":true,"items":false,"prefixItems":[false],"contains":false,"unevaluatedItems":false,"minProperties":2,"maxProperties":0,"required":["b"],"dependentRequired":{"a":["b"]},"dependentSchemas":{"a":false},"properties":{"a":false},"patternProperties":{"^a":false},"additionalProperties":false,"propertyNames":false,"unevaluatedProperties":false}"#,
        "5",
        &[],
    ),
    (
        r#"{"minimum":6,"exclusiveMinimum":6,"maximum":4,"exclusiveMaximum":4,"multipleOf":2,"minItems":2,"maxItems":0,"uniqueItems":true,"items":false,"prefixItems":[false],"contains":false,"unevaluatedItems":false,"minProperties":2,"maxProperties":0,"required":["b"],"dependentRequired":{"a":["b"]},"dependentSchemas":{"a":false},"properties":{"a":false},"patternProperties":{"^a":false},"additionalProperties":false,"propertyNames":false,"unevaluatedProperties":false}"#,
        r#""a""#,
        &[],
    ),
    (
        r#"{"minimum":6,"exclusiveMinimum":6,"maximum":4,"exclusiveMaximum":4,"multipleOf":2,"minLength":2,"maxLength":0,"pattern":"^b","minProperties":2,"maxProperties":0,"required":["b"],"dependentRequired":{"0":["b"]},"dependentSchemas":{"0":false},"properties":{"0":false},"patternProperties":{"^0":false},"additionalProperties":false,"propertyNames":false,"unevaluatedProperties":false}"#,
        "[1]",
        &[],
    ),
    (
        r#"{"minimum":6,"exclusiveMinimum":6,"maximum":4,"exclusiveMaximum":4,"multipleOf":2,"minLength":2,"maxLength":0,"pattern":"^b","minItems":2,"maxItems":0,"uniqueItems":true,"items":false,"prefixItems":[false],"contains":false,"unevaluatedItems":false}"#,
        r#"{"0":1}"#,
        &[],
    ),
    // a schema that refers to itself, by each keyword that enters the instance
    (
        r##"{"type":["array","object","string"],"items":{"$ref":"#"},"prefixItems":[{"$ref":"#"}],"contains":{"$ref":"#"},"unevaluatedItems":{"$ref":"#"},"properties":{"a":{"$ref":"#"}},"patternProperties":{"^b":{"$ref":"#"}},"additionalProperties":{"$ref":"#"},"unevaluatedProperties":{"$ref":"#"},"propertyNames":{"$ref":"#"},"maxLength":2,"$defs":{"d":{"$ref":"#"}}}"##,
        r#"[[""],{"a":"","b":{},"ccc":{}},["",[5]]]"#,
        &[
            r#""ccc" is longer than 2 characters at '/1' by '/maxLength' ('/items/$ref/propertyNames/$ref/maxLength')"#,
            "None of [5] are valid under the given schema at '/2/1' by '/contains' ('/items/$ref/items/$ref/contains')",
            r#"5 is not of types "array", "object", "string" at '/2/1/0' by '/type' ('/items/$ref/items/$ref/prefixItems/0/$ref/type')"#,
        ],
    ),
];

#[test]
fn errors_under_refusal(rt: HostRuntime) -> Result<(), Fail> {
    are_answered(rt.alloc(), ROWS)
}

// The errors of a second instance are appended to those of the first, or none of them if out of memory.
#[test]
fn errors_of_two_instances_under_refusal(rt: HostRuntime) -> Result<(), Fail> {
    let alloc = rt.alloc();
    let document = json(alloc, r#"{"required":["a","b"]}"#)?;
    let instance = json(alloc, "{}")?;
    let Ok(schema) = Schema::compile(alloc, &document, &Config::new(&NoPatterns)) else {
        return Err(Fail::from(AllocError));
    };
    let mut errors = Vec::new(alloc);
    schema.collect_errors(alloc, &instance, &mut errors)?;
    let second = schema.collect_errors(alloc, &instance, &mut errors);
    let expected = if second.is_ok() { 4 } else { 2 };
    if errors.len() != expected {
        return Err(Fail::new("the number of errors"));
    }
    Ok(second?)
}
