//! URIs and plain names, which schemas are known by and references lead to.

use super::answers::{Row, are_answered};
use super::refusals::{Refusal, are_refused};
use std::test::Fail;

const ROWS: &[Row] = &[
    // base URIs
    (
        r#"{"$id":"http://example.com/","$defs":{"in":{"$id":"a/item","type":"string"},"out":{"$id":"item"}},"allOf":[{"$id":"a/","$ref":"item"},{"$id":"a/b","properties":{"p":{"$ref":"item"}}}]}"#,
        r#"{"p":5}"#,
        &[
            r#"{"p":5} is not of type "string" at '' by '/$defs/in/type' ('/allOf/0/$ref/type')"#,
            r#"5 is not of type "string" at '/p' by '/$defs/in/type' ('/allOf/1/properties/p/$ref/type')"#,
        ],
    ),
    (
        r#"{"$id":"http://example.com/a/","$ref":"http://example.com/a/b/c","$defs":{"x":{"$id":"b/","$defs":{"y":{"$id":"c","type":"null"}}}}}"#,
        "5",
        &[r#"5 is not of type "null" at '' by '/$defs/x/$defs/y/type' ('/$ref/type')"#],
    ),
    (
        r#"{"$ref":"b/c","$defs":{"x":{"$id":"b/","$defs":{"y":{"$id":"c","type":"null"}}}}}"#,
        "5",
        &[r#"5 is not of type "null" at '' by '/$defs/x/$defs/y/type' ('/$ref/type')"#],
    ),
    (
        r#"{"$id":"http://example.com/a/b/c","$ref":"./../d","$defs":{"x":{"$id":"/a/d","type":"null"}}}"#,
        "5",
        &[r#"5 is not of type "null" at '' by '/$defs/x/type' ('/$ref/type')"#],
    ),
    (
        r##"{"$id":"http://example.com/","$ref":"#/$defs/x/$defs/y","$defs":{"x":{"$id":"a/","$defs":{"y":{"$ref":"item"}}},"z":{"$id":"a/item","type":"null"}}}"##,
        "5",
        &[r#"5 is not of type "null" at '' by '/$defs/z/type' ('/$ref/$ref/type')"#],
    ),
    (
        r#"{"$id":"http://example.com/a#","properties":{"p":{"$ref":"http://example.com/a"}},"maxProperties":1}"#,
        r#"{"p":{"q":1,"r":2}}"#,
        &[
            r#"{"q":1,"r":2} has more than 1 property at '/p' by '/maxProperties' ('/properties/p/$ref/maxProperties')"#,
        ],
    ),
    (
        r#"{"$ref":"w","$defs":{"a":{"$id":"y/","$defs":{"b":{"$id":"../w","type":"null"}}}}}"#,
        "5",
        &[r#"5 is not of type "null" at '' by '/$defs/a/$defs/b/type' ('/$ref/type')"#],
    ),
    // references to the resource that they are in
    (
        r##"{"properties":{"a":{"$id":"http://example.com/a","type":"object","properties":{"b":{"$ref":"#"}}}}}"##,
        r#"{"a":{"b":{"b":5}}}"#,
        &[
            r#"5 is not of type "object" at '/a/b/b' by '/properties/a/type' ('/properties/a/properties/b/$ref/properties/b/$ref/type')"#,
        ],
    ),
    (
        r#"{"properties":{"a":{"$id":"http://example.com/a","type":"object","properties":{"b":{"$ref":""}}}}}"#,
        r#"{"a":{"b":5}}"#,
        &[
            r#"5 is not of type "object" at '/a/b' by '/properties/a/type' ('/properties/a/properties/b/$ref/type')"#,
        ],
    ),
    (
        r##"{"$id":"urn:example:a","$ref":"#/$defs/b","$defs":{"b":{"$ref":"urn:example:a#/$defs/c"},"c":{"type":"null"}}}"##,
        "5",
        &[r#"5 is not of type "null" at '' by '/$defs/c/type' ('/$ref/$ref/type')"#],
    ),
    // plain names and pointers in a resource
    (
        r##"{"$defs":{"a":{"$anchor":"x","type":"null"},"b":{"$id":"http://example.com/b","$defs":{"c":{"$anchor":"x","type":"string"}},"$ref":"#x"}},"properties":{"p":{"$ref":"#x"},"q":{"$ref":"http://example.com/b#x"},"r":{"$ref":"#/$defs/b"}}}"##,
        r#"{"p":1,"q":2,"r":3}"#,
        &[
            r#"1 is not of type "null" at '/p' by '/$defs/a/type' ('/properties/p/$ref/type')"#,
            r#"2 is not of type "string" at '/q' by '/$defs/b/$defs/c/type' ('/properties/q/$ref/type')"#,
            r#"3 is not of type "string" at '/r' by '/$defs/b/$defs/c/type' ('/properties/r/$ref/$ref/type')"#,
        ],
    ),
    (
        r#"{"$ref":"http://example.com/a#/%24defs/b%20c%25","$defs":{"a":{"$id":"http://example.com/a","$defs":{"b c%":{"type":"null"}}}}}"#,
        "5",
        &[r#"5 is not of type "null" at '' by '/$defs/a/$defs/b c%/type' ('/$ref/type')"#],
    ),
    (
        r##"{"$ref":"#n%61me","$defs":{"a":{"$anchor":"name","type":"null"}}}"##,
        "5",
        &[r#"5 is not of type "null" at '' by '/$defs/a/type' ('/$ref/type')"#],
    ),
    (
        r##"{"$ref":"#_-.1","$defs":{"a":{"$anchor":"_-.1","type":"null"}}}"##,
        "5",
        &[r#"5 is not of type "null" at '' by '/$defs/a/type' ('/$ref/type')"#],
    ),
    (
        r##"{"$schema":"https://json-schema.org/draft/2019-09/schema","$ref":"#Z:-_.1","$defs":{"a":{"$anchor":"Z:-_.1","type":"null"}}}"##,
        "5",
        &[r#"5 is not of type "null" at '' by '/$defs/a/type' ('/$ref/type')"#],
    ),
    // keys with `~` and `/`, empty ones, digits and `__proto__` (RFC 6901, sections 4 and 5)
    (
        r##"{"allOf":[{"$ref":"#/$defs/~01~10"},{"$ref":"#/$defs/"},{"$ref":"#/$defs/0"},{"$ref":"#/$defs/a%2525"},{"$ref":"#/$defs/__proto__/allOf/0"},{"$ref":"#/"}],"$defs":{"~1/0":{"type":"null"},"":{"type":"string"},"0":{"type":"array"},"a%25":{"type":"object"},"__proto__":{"allOf":[{"type":"boolean"}]}},"":false}"##,
        "5",
        &[
            r#"5 is not of type "null" at '' by '/$defs/~01~10/type' ('/allOf/0/$ref/type')"#,
            r#"5 is not of type "string" at '' by '/$defs//type' ('/allOf/1/$ref/type')"#,
            r#"5 is not of type "array" at '' by '/$defs/0/type' ('/allOf/2/$ref/type')"#,
            r#"5 is not of type "object" at '' by '/$defs/a%25/type' ('/allOf/3/$ref/type')"#,
            r#"5 is not of type "boolean" at '' by '/$defs/__proto__/allOf/0/type' ('/allOf/4/$ref/type')"#,
            "False schema does not allow 5 at '' by '/' ('/allOf/5/$ref')",
        ],
    ),
    // into `enum`
    (
        r##"{"$ref":"#/enum/1","enum":[5,{"type":"null"}]}"##,
        "5",
        &[r#"5 is not of type "null" at '' by '/enum/1/type' ('/$ref/type')"#],
    ),
];

// What identifies schemas.
const IDENTIFIERS: &[Row] = &[
    // the example of Core 2020-12, appendix A
    (
        r#"{"$id":"https://example.com/root.json","$defs":{"A":{"$anchor":"foo","type":"null"},"B":{"$id":"other.json","$defs":{"X":{"$anchor":"bar","type":"array"},"Y":{"$id":"t/inner.json","$anchor":"bar","type":"boolean"}},"type":"object"},"C":{"$id":"urn:uuid:ee564b8a-7a87-4125-8c96-e9f123d6766f","type":"string"}},"prefixItems":[{"$ref":"https://example.com/root.json#foo"},{"$ref":"https://example.com/root.json#/$defs/A"},{"$ref":"https://example.com/other.json"},{"$ref":"https://example.com/other.json#"},{"$ref":"https://example.com/other.json#bar"},{"$ref":"https://example.com/other.json#/$defs/X"},{"$ref":"https://example.com/t/inner.json"},{"$ref":"https://example.com/t/inner.json#bar"},{"$ref":"urn:uuid:ee564b8a-7a87-4125-8c96-e9f123d6766f"},{"$ref":"urn:uuid:ee564b8a-7a87-4125-8c96-e9f123d6766f#"}]}"#,
        "[1,2,3,4,5,6,7,8,9,10]",
        &[
            r#"1 is not of type "null" at '/0' by '/$defs/A/type' ('/prefixItems/0/$ref/type')"#,
            r#"2 is not of type "null" at '/1' by '/$defs/A/type' ('/prefixItems/1/$ref/type')"#,
            r#"3 is not of type "object" at '/2' by '/$defs/B/type' ('/prefixItems/2/$ref/type')"#,
            r#"4 is not of type "object" at '/3' by '/$defs/B/type' ('/prefixItems/3/$ref/type')"#,
            r#"5 is not of type "array" at '/4' by '/$defs/B/$defs/X/type' ('/prefixItems/4/$ref/type')"#,
            r#"6 is not of type "array" at '/5' by '/$defs/B/$defs/X/type' ('/prefixItems/5/$ref/type')"#,
            r#"7 is not of type "boolean" at '/6' by '/$defs/B/$defs/Y/type' ('/prefixItems/6/$ref/type')"#,
            r#"8 is not of type "boolean" at '/7' by '/$defs/B/$defs/Y/type' ('/prefixItems/7/$ref/type')"#,
            r#"9 is not of type "string" at '/8' by '/$defs/C/type' ('/prefixItems/8/$ref/type')"#,
            r#"10 is not of type "string" at '/9' by '/$defs/C/type' ('/prefixItems/9/$ref/type')"#,
        ],
    ),
    // that of draft 7, Core, section 8.2.4
    (
        r##"{"$schema":"http://json-schema.org/draft-07/schema#","$id":"http://example.com/root.json","definitions":{"A":{"$id":"#foo","type":"null"},"B":{"$id":"other.json","definitions":{"X":{"$id":"#bar","type":"array"},"Y":{"$id":"t/inner.json","type":"boolean"}},"type":"object"},"C":{"$id":"urn:uuid:ee564b8a-7a87-4125-8c96-e9f123d6766f","type":"string"}},"items":[{"$ref":"http://example.com/root.json#foo"},{"$ref":"http://example.com/other.json"},{"$ref":"http://example.com/root.json#/definitions/B"},{"$ref":"http://example.com/other.json#bar"},{"$ref":"http://example.com/t/inner.json"},{"$ref":"http://example.com/other.json#/definitions/Y"},{"$ref":"urn:uuid:ee564b8a-7a87-4125-8c96-e9f123d6766f"}]}"##,
        "[1,2,3,4,5,6,7]",
        &[
            r#"1 is not of type "null" at '/0' by '/definitions/A/type' ('/items/0/$ref/type')"#,
            r#"2 is not of type "object" at '/1' by '/definitions/B/type' ('/items/1/$ref/type')"#,
            r#"3 is not of type "object" at '/2' by '/definitions/B/type' ('/items/2/$ref/type')"#,
            r#"4 is not of type "array" at '/3' by '/definitions/B/definitions/X/type' ('/items/3/$ref/type')"#,
            r#"5 is not of type "boolean" at '/4' by '/definitions/B/definitions/Y/type' ('/items/4/$ref/type')"#,
            r#"6 is not of type "boolean" at '/5' by '/definitions/B/definitions/Y/type' ('/items/5/$ref/type')"#,
            r#"7 is not of type "string" at '/6' by '/definitions/C/type' ('/items/6/$ref/type')"#,
        ],
    ),
    // that of draft 4, Core, section 7.2.2, with its schemas in `definitions`
    (
        r##"{"$schema":"http://json-schema.org/draft-04/schema#","id":"http://x.y.z/rootschema.json#","definitions":{"schema1":{"id":"#foo","type":"null"},"schema2":{"id":"otherschema.json","definitions":{"nested":{"id":"#bar","type":"array"},"alsonested":{"id":"t/inner.json#a","type":"boolean"}},"type":"object"},"schema3":{"id":"some://where.else/completely#","type":"string"}},"items":[{"$ref":"http://x.y.z/rootschema.json#foo"},{"$ref":"http://x.y.z/otherschema.json"},{"$ref":"http://x.y.z/otherschema.json#bar"},{"$ref":"http://x.y.z/t/inner.json#a"},{"$ref":"some://where.else/completely#"}]}"##,
        "[1,2,3,4,5]",
        &[
            r#"1 is not of type "null" at '/0' by '/definitions/schema1/type' ('/items/0/$ref/type')"#,
            r#"2 is not of type "object" at '/1' by '/definitions/schema2/type' ('/items/1/$ref/type')"#,
            r#"3 is not of type "array" at '/2' by '/definitions/schema2/definitions/nested/type' ('/items/2/$ref/type')"#,
            r#"4 is not of type "boolean" at '/3' by '/definitions/schema2/definitions/alsonested/type' ('/items/3/$ref/type')"#,
            r#"5 is not of type "string" at '/4' by '/definitions/schema3/type' ('/items/4/$ref/type')"#,
        ],
    ),
    // the first of schemas with one URI
    (
        r#"{"$ref":"http://example.com/","$defs":{"b":{"$id":"http://example.com/","type":"null"},"a":{"not":{"$id":"http://example.com/","type":"string"}},"c":{"$id":"http://example.com/"}}}"#,
        "5",
        &[r#"5 is not of type "string" at '' by '/$defs/a/not/type' ('/$ref/type')"#],
    ),
    (
        r##"{"$ref":"#x","$defs":{"a":{"$anchor":"x","type":"null"},"b":{"$anchor":"x","type":"string"}}}"##,
        "5",
        &[r#"5 is not of type "null" at '' by '/$defs/a/type' ('/$ref/type')"#],
    ),
    // what a draft does not have, and what is no schema
    (
        r#"{"$schema":"http://json-schema.org/draft-04/schema#","items":{"$ref":"http://example.com/a"},"$id":5,"definitions":{"a":{"$id":"http://example.com/a","type":"null"},"b":{"id":"http://example.com/a","type":"string"}}}"#,
        "[5]",
        &[r#"5 is not of type "string" at '/0' by '/definitions/b/type' ('/items/$ref/type')"#],
    ),
    (
        r##"{"$schema":"http://json-schema.org/draft-06/schema#","items":{"$ref":"#a"},"id":5,"$anchor":5,"definitions":{"a":{"id":"#a","$anchor":"a","type":"null"},"b":{"$id":"#a","type":"string"}}}"##,
        "[5]",
        &[r#"5 is not of type "string" at '/0' by '/definitions/b/type' ('/items/$ref/type')"#],
    ),
    (
        r#"{"$schema":"http://json-schema.org/draft-07/schema#","$id":"http://example.com/","items":{"$id":"a/","$ref":"item"},"not":{"$id":5,"$ref":"item"},"definitions":{"a":{"$id":"a/item","type":"null"},"b":{"$id":"item","type":"string"}}}"#,
        "[5]",
        &[r#"5 is not of type "string" at '/0' by '/definitions/b/type' ('/items/$ref/type')"#],
    ),
    (
        r#"{"$schema":"https://json-schema.org/draft/2019-09/schema","$id":"http://example.com/","items":{"$id":"a/","$ref":"item"},"$defs":{"a":{"$id":"a/item","type":"null"},"b":{"$id":"item","type":"string"}}}"#,
        "[5]",
        &[r#"5 is not of type "null" at '/0' by '/$defs/a/type' ('/items/$ref/type')"#],
    ),
    (
        r#"{"properties":{"p":{"$ref":"a"}},"default":{"$id":"a"},"const":{"$id":"a","p":5},"definitions":{"a":{"enum":[{"$id":"a"},5]}},"oneOf":[{"$id":"a","type":"null"},true]}"#,
        r#"{"$id":"a","p":5}"#,
        &[r#"5 is not of type "null" at '/p' by '/oneOf/0/type' ('/properties/p/$ref/type')"#],
    ),
    // each keyword that has schemas
    (
        r#"{"$schema":"http://json-schema.org/draft-07/schema#","allOf":[{"$ref":"a"},{"$ref":"b"},{"$ref":"c"},{"$ref":"d"}],"dependencies":{"x":{"$id":"a"},"y":["x"]},"items":[true,{"$id":"b"}],"additionalItems":{"$id":"c"},"patternProperties":{"^x":{"$id":"d"}}}"#,
        "5",
        &[],
    ),
    (
        r##"{"$ref":"#/$defs/all","properties":{"^x":{"$id":"a"}},"patternProperties":{"^x":{"$id":"b"}},"dependentSchemas":{"^x":{"$id":"c"}},"definitions":{"^x":{"$id":"d"}},"$defs":{"all":{"oneOf":[false,true],"anyOf":[true,{"$ref":"a"},{"$ref":"b"},{"$ref":"c"},{"$ref":"d"},{"$ref":"e"},{"$ref":"f"},{"$ref":"g"},{"$ref":"h"},{"$ref":"i"},{"$ref":"j"},{"$ref":"k"},{"$ref":"l"},{"$ref":"m"},{"$ref":"n"},{"$ref":"o"},{"$ref":"p"},{"$ref":"q"},{"$ref":"r"},{"$ref":"s"}]},"^x":{"$id":"e"}},"additionalProperties":{"$id":"f"},"propertyNames":{"$id":"g"},"items":{"$id":"h"},"contains":{"$id":"i"},"not":{"$id":"j","not":{}},"if":{"$id":"k"},"then":{"$id":"l"},"else":{"$id":"m"},"unevaluatedProperties":{"$id":"n"},"unevaluatedItems":{"$id":"o"},"prefixItems":[{"$id":"p"}],"allOf":[{"$id":"q"}],"anyOf":[{"$id":"r"}],"oneOf":[{"$id":"s"}]}"##,
        "5",
        &[],
    ),
];

const REFUSALS: &[Refusal] = &[
    // no such URI or plain name
    (
        r#"{"$ref":"http://example.com/a"}"#,
        "UnresolvedReference",
        "/$ref",
    ),
    (
        r#"{"$id":"http://example.com/a/","$ref":"b","$defs":{"b":{"$id":"/b"}}}"#,
        "UnresolvedReference",
        "/$ref",
    ),
    (
        r##"{"$ref":"#a","$defs":{"a":{"$anchor":"b"}}}"##,
        "UnresolvedReference",
        "/$ref",
    ),
    (
        r##"{"$ref":"#a","$defs":{"b":{"$id":"b","$anchor":"a"}}}"##,
        "UnresolvedReference",
        "/$ref",
    ),
    (
        r#"{"$ref":"b#a","$anchor":"a","$defs":{"b":{"$id":"b"}}}"#,
        "UnresolvedReference",
        "/$ref",
    ),
    (
        r#"{"$ref":"b#/$defs/b","$defs":{"b":{"$id":"b"}}}"#,
        "UnresolvedReference",
        "/$ref",
    ),
    (
        r##"{"$defs":{"b":{"$id":"http://example.com/b","$ref":"#/$defs/b"}}}"##,
        "UnresolvedReference",
        "/$defs/b/$ref",
    ),
    // what a draft does not have, and what is no schema
    (
        r#"{"$schema":"http://json-schema.org/draft-04/schema#","not":{"$ref":"a"},"definitions":{"a":{"$id":"a"}}}"#,
        "UnresolvedReference",
        "/not/$ref",
    ),
    (
        r#"{"$schema":"http://json-schema.org/draft-06/schema#","not":{"$ref":"a"},"definitions":{"a":{"id":"a"}}}"#,
        "UnresolvedReference",
        "/not/$ref",
    ),
    (
        r##"{"$schema":"http://json-schema.org/draft-07/schema#","not":{"$ref":"#a"},"definitions":{"a":{"$anchor":"a"}}}"##,
        "UnresolvedReference",
        "/not/$ref",
    ),
    (
        r##"{"$schema":"http://json-schema.org/draft-07/schema#","not":{"$ref":"a"},"items":{"$id":"a","$ref":"#/definitions/b"},"definitions":{"b":{}}}"##,
        "UnresolvedReference",
        "/not/$ref",
    ),
    (
        r#"{"$ref":"a","const":{"$id":"a"}}"#,
        "UnresolvedReference",
        "/$ref",
    ),
    (
        r#"{"$ref":"a","enum":[{"$id":"a"}]}"#,
        "UnresolvedReference",
        "/$ref",
    ),
    (
        r#"{"$ref":"a","unknown":{"$id":"a"}}"#,
        "UnresolvedReference",
        "/$ref",
    ),
    // references that lead back
    (
        r#"{"$id":"http://example.com/a","$ref":"a"}"#,
        "CircularReference",
        "/$ref",
    ),
    (
        r##"{"$id":"http://example.com/a","$ref":"#b","$defs":{"b":{"$id":"b","$ref":"a"},"c":{"$anchor":"b","$ref":"b"}}}"##,
        "CircularReference",
        "/$defs/b/$ref",
    ),
    // values of `$id` and `$anchor`
    (r#"{"$id":5}"#, "WrongType", "/$id"),
    (
        r#"{"$schema":"http://json-schema.org/draft-04/schema#","id":{}}"#,
        "WrongType",
        "/id",
    ),
    (
        r#"{"$defs":{"a":{"$id":"a#b"}}}"#,
        "WrongType",
        "/$defs/a/$id",
    ),
    (
        r##"{"$schema":"https://json-schema.org/draft/2019-09/schema","$id":"#a"}"##,
        "WrongType",
        "/$id",
    ),
    (r#"{"$anchor":5}"#, "WrongType", "/$anchor"),
    (r#"{"$anchor":""}"#, "WrongType", "/$anchor"),
    (r#"{"$anchor":"a:b"}"#, "WrongType", "/$anchor"),
    (r#"{"$anchor":"-a"}"#, "WrongType", "/$anchor"),
    (r#"{"$anchor":"a/b"}"#, "WrongType", "/$anchor"),
    (
        r#"{"$schema":"https://json-schema.org/draft/2019-09/schema","$anchor":"_a"}"#,
        "WrongType",
        "/$anchor",
    ),
    (
        r#"{"$schema":"https://json-schema.org/draft/2019-09/schema","$anchor":"1"}"#,
        "WrongType",
        "/$anchor",
    ),
    (
        r#"{"$schema":"https://json-schema.org/draft/2019-09/schema","not":{"$anchor":"a%20b"}}"#,
        "WrongType",
        "/not/$anchor",
    ),
];

#[test]
fn errors_under_refusal(rt: HostRuntime) -> Result<(), Fail> {
    are_answered(rt.alloc(), ROWS)
}

// With ample memory alone, since these documents take much.
#[test]
fn identifiers(rt: HostRuntime) -> Result<(), Fail> {
    are_answered(rt.alloc(), IDENTIFIERS)
}

#[test]
fn refusals_under_refusal(rt: HostRuntime) -> Result<(), Fail> {
    are_refused(rt.alloc(), REFUSALS)
}
