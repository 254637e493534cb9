//! Positions by the rules of RFC 8259 and RFC 6901. A test whose name ends in `_under_refusal` may also end as out of
//! memory where an allocation is refused.

use super::{Position, Positions};
use serde_json::Value;
use std::alloc::{AllocError, Global};
use std::test::Fail;

/// A pointer, and the column at which the value begins in a text of one line.
type Start = (&'static str, Option<u64>);

/// A pointer, and the line and the column of the value.
type Spot = (&'static str, u64, u64);

// Whether all values of a text begin as is said, those of which there are none as the whole value, and `serde_json`
// finds a value where one begins. The failure names the pointer of one that does not.
fn begin(alloc: Global, text: &'static str, starts: &[Start]) -> Result<(), Fail> {
    let mut positions = Positions::new(alloc, text);
    let whole = positions.position_of(alloc, "")?;
    for &(pointer, start) in starts {
        let expected = match start {
            Some(column) => Position { line: 1, column },
            None => whole,
        };
        if positions.position_of(alloc, pointer)? != expected
            || has_value(alloc, text, pointer)? != start.is_some()
        {
            return Err(Fail::new(pointer));
        }
    }
    Ok(())
}

// Whether `serde_json` finds a value at a pointer. The failure names a text that it does not read.
fn has_value(alloc: Global, text: &'static str, pointer: &str) -> Result<bool, Fail> {
    match Value::from_str(alloc, text) {
        Ok(value) => Ok(value.pointer(pointer).is_some()),
        Err(error) if error.is_memory() => Err(Fail::from(AllocError)),
        Err(_) => Err(Fail::new(text)),
    }
}

// Whether all values of a text are at these lines and columns. The failure names the pointer of one that is not.
fn stand(alloc: Global, text: &str, spots: &[Spot]) -> Result<(), Fail> {
    let mut positions = Positions::new(alloc, text);
    for &(pointer, line, column) in spots {
        if positions.position_of(alloc, pointer)? != (Position { line, column }) {
            return Err(Fail::new(pointer));
        }
    }
    Ok(())
}

#[test]
fn roots_under_refusal(rt: HostRuntime) -> Result<(), Fail> {
    begin(rt.alloc(), "1", &[("", Some(1))])?;
    begin(rt.alloc(), " \t\r[]", &[("", Some(4))])?;
    begin(rt.alloc(), " {}", &[("a", None), ("", Some(2))])?;
    begin(rt.alloc(), "{\"a\":1}", &[("a/a", None)])
}

#[test]
fn elements_under_refusal(rt: HostRuntime) -> Result<(), Fail> {
    let starts: &[Start] = &[
        ("/1", Some(6)),
        ("/0", Some(2)),
        ("/2", Some(9)),
        ("/0", Some(2)),
        ("/3", None),
        ("/01", None),
        ("/+1", None),
        ("/", None),
        ("/-", None),
        ("/1/0", None),
        ("/18446744073709551617", None),
    ];
    begin(rt.alloc(), "[10, 20,30 ]", starts)?;
    begin(rt.alloc(), "[ ]", &[("/0", None)])?;
    let starts: &[Start] = &[("/2/0/0", Some(12)), ("/1", Some(6)), ("/2/0/0", Some(12))];
    begin(rt.alloc(), "[[], {}, [[0]]]", starts)?;
    begin(rt.alloc(), "[\"0\"]", &[("/0/0", None)])?;
    let starts: &[Start] = &[("/10", Some(22)), ("/1", Some(4))];
    begin(rt.alloc(), "[0,1,2,3,4,5,6,7,8,9,10]", starts)
}

#[test]
fn members_under_refusal(rt: HostRuntime) -> Result<(), Fail> {
    let starts: &[Start] = &[
        ("/a/b/1/c", Some(19)),
        ("/b", None),
        ("/a/c", None),
        ("/a/b/0", Some(12)),
        ("/a/b/1/c", Some(19)),
        ("/a", Some(6)),
    ];
    begin(rt.alloc(), "{\"a\":{\"b\":[1,{\"c\":true}]}}", starts)?;
    let starts: &[Start] = &[("/b", Some(19)), ("/a", Some(9))];
    begin(rt.alloc(), "{ \"a\" : 1 , \"b\" : 2 }", starts)?;
    begin(rt.alloc(), "{\"0\":1}", &[("/0", Some(6))])?;
    begin(rt.alloc(), "{\"\":1}", &[("/", Some(5))])?;
    begin(rt.alloc(), "{\"\":{\"\":1}}", &[("//", Some(9))])?;
    begin(rt.alloc(), "{ }", &[("/", None)])?;
    begin(rt.alloc(), "{\"a\":\"b\"}", &[("/b", None)])
}

#[test]
fn last_of_equal_names_under_refusal(rt: HostRuntime) -> Result<(), Fail> {
    begin(rt.alloc(), "{\"a\":1,\"b\":2,\"a\":3}", &[("/a", Some(18))])?;
    let starts: &[Start] = &[("/b", Some(12)), ("/a", Some(23))];
    begin(rt.alloc(), "{\"a\":1,\"b\":2,\"\\u0061\":3}", starts)?;
    let starts: &[Start] = &[("/a/b", None), ("/a/c", Some(23))];
    begin(rt.alloc(), "{\"a\":{\"b\":1},\"a\":{\"c\":2}}", starts)
}

#[test]
fn escapes_under_refusal(rt: HostRuntime) -> Result<(), Fail> {
    begin(rt.alloc(), "{\"\\u0061\":1}", &[("/a", Some(11))])?;
    begin(rt.alloc(), "{\"a\\\"b\":1}", &[("/a\"b", Some(9))])?;
    begin(rt.alloc(), "{\"\\\\\":1}", &[("/\\", Some(7))])?;
    begin(rt.alloc(), "{\"\\ud83d\\ude00\":1}", &[("/😀", Some(17))])?;
    let starts: &[Start] = &[
        ("/a~1b", Some(8)),
        ("/m~0n", Some(16)),
        ("/~01", Some(23)),
        ("/a/b", None),
    ];
    begin(rt.alloc(), "{\"a/b\":1,\"m~n\":2,\"~1\":3}", starts)?;
    begin(rt.alloc(), "{\"a~\":1}", &[("/a~", Some(7))])?;
    begin(rt.alloc(), "{\"a~2\":1}", &[("/a~2", Some(8))])
}

#[test]
fn strings_are_passed_under_refusal(rt: HostRuntime) -> Result<(), Fail> {
    begin(rt.alloc(), "[\"],\",1]", &[("/1", Some(7))])?;
    begin(rt.alloc(), "[\"[{\",1]", &[("/1", Some(7))])?;
    begin(rt.alloc(), "[\"\\\",\",1]", &[("/1", Some(8))])?;
    begin(rt.alloc(), "[\"\\\\\",1]", &[("/1", Some(7))])?;
    begin(
        rt.alloc(),
        "{\"a\":\"\\\"b\\\":\",\"b\":2}",
        &[("/b", Some(19))],
    )?;
    begin(rt.alloc(), "{\"a:b\":\"}\",\"b\":2}", &[("/b", Some(16))])?;
    begin(rt.alloc(), "[[\"]\",{\"}\":\"]\"}],1]", &[("/1", Some(18))])
}

#[test]
fn lines_and_columns_under_refusal(rt: HostRuntime) -> Result<(), Fail> {
    stand(rt.alloc(), "{\"port\": 99999}", &[("/port", 1, 10)])?;
    stand(
        rt.alloc(),
        "{\r\n  \"port\": 99999\r\n}",
        &[("/port", 2, 11)],
    )?;
    let spots: &[Spot] = &[("/a/1", 5, 5), ("/a", 3, 8), ("/a/0", 4, 5)];
    stand(rt.alloc(), "{\n\n  \"a\": [\n    1,\n    2\n  ]\n}", spots)?;
    let spots: &[Spot] = &[("/b", 1, 17), ("/é", 1, 7), ("/ü", 1, 1)];
    stand(rt.alloc(), "{\"é\": \"😀\", \"b\": 2}", spots)?;
    stand(rt.alloc(), "{\"é\": \"😀\",\n \"ü\": 2}", &[("/ü", 2, 7)])?;
    stand(rt.alloc(), "\n {}", &[("", 2, 2), ("/a", 2, 2)])
}

// A text that is longer than some marks, whose characters have three bytes.
#[test]
fn behind_marks_under_refusal(rt: HostRuntime) -> Result<(), Fail> {
    let mut text = String::from_str(rt.alloc(), "[\"")?;
    for _ in 0..1500 {
        text.push_str("€")?;
    }
    text.push_str("\", 7,\n\n [8, 9]]")?;
    let spots: &[Spot] = &[
        ("/2/1", 3, 6),
        ("/1", 1, 1506),
        ("/0", 1, 2),
        ("/2/0", 3, 3),
        ("/1", 1, 1506),
    ];
    stand(rt.alloc(), &text, spots)
}
