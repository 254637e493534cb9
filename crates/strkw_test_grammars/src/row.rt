//! What stands in a row. `ask` names what is asked, and `of` whose it is:
//!
//! - `texts`: `of` a grammar or an encoding (`texts.rt`) the texts `yes`, and not the texts `no`;
//! - `long texts`: the same of texts by their parts, each with how often it stands;
//! - `characters`: each ASCII character, or each of `tried`, between the two texts of each of `places`, alone and with
//!   each of `sides` on both sides of it: those of `accepted`, and of the third text of the place, and no others;
//! - `numbers`, `counts`: each number below `below`, with a zero before one digit where `two_digits` is set, and so
//!   many times `part`, at each of `places`: those from `from` to `to` (from 1 to 0: none), and no others;
//! - `sums`: of the characters from the first number of each of `rows` up to the second, that one not included, how
//!   many stand at each of `places`, the third number, and the sum of their numbers, the fourth;
//! - `leap years`: of each year whether it has a 29th of February; `fourths` are the numbers of two digits that four
//!   divides;
//! - `digits`: the parser of as many digits, with each byte in the place of each digit of each of `texts`;
//! - `first labels`: `rows` of a text and the label at its front, or null;
//! - `characters of labels`: each character below `below` between two texts: the label is admitted with those of
//!   `settled` and with no others but those of `possible`, both texts of the first and the last character of a range;
//! - `payloads`: `rows` of payloads, and last what they encode, or null;
//! - `properties`: `rows` of a range, a text of its first and last character, and of the derived property of each, by
//!   its name in RFC 5892;
//! - `decoded`: `of` an encoding `rows` of a text and the bytes that it encodes, in hexadecimal, or null;
//! - `names`: `of` encodings or media types `rows` of a name and the variant, or null;
//! - `decode errors`, `JSON errors`: the `texts` of the variants, in their order;
//! - `analyses`: `rows` of a pattern and its analysis; `equal analyses`: `rows` of two patterns, and whether theirs are
//!   equal;
//! - `characters of patterns`: each ASCII character at each of `places`, which have what stands before it and behind it
//!   in the pattern, then in the analysis if it is of `taken`, and what the analysis is if it is a bar. Otherwise there
//!   is none;
//! - `matches`, `alternatives`, `prefix`: the matcher of the pattern `of`, or of these alternatives or of this prefix,
//!   on texts `yes` and `no`;
//! - `searches`: `rows` of a pattern of ECMA-262, a text, and whether it is found there; `long searches`: the same by
//!   name, each text by its parts and how often each stands there, null where the pattern is not taken;
//! - `searches`, `long searches` and `refusals` with `lenient` set: the same by the engine that takes escapes of
//!   patterns without the flag `u`;
//! - `tables`: `rows` of a pattern, and whether its engine reads matches off a table;
//! - `refusals`: `of` words that tell why a pattern is not taken, or `taken`, the `patterns` of which they are told,
//!   and `long` ones, each with its parts as its `pattern`;
//! - `nodes`: `rows` of a value, its text and its length; `fractions`: values `yes` and `no`; `drafts`: their order.

use serde_json::Value;

/// The items at a key, none where there is no array.
pub fn items<'v>(row: &'v Value, key: &str) -> &'v [Value] {
    match row.get(key) {
        Some(value) => elements(value),
        None => &[],
    }
}

/// The items of an array, none of another value.
pub fn elements(value: &Value) -> &[Value] {
    match value.as_array() {
        Some(items) => items.as_slice(),
        None => &[],
    }
}

/// The text at a key, empty where there is none.
pub fn text<'v>(row: &'v Value, key: &str) -> &'v str {
    row.get(key).and_then(Value::as_str).unwrap_or("")
}

/// The text at a place of an array, where there is one.
pub fn found_at(items: &Value, place: usize) -> Option<&str> {
    items.get(place).and_then(Value::as_str)
}

/// The text at a place of an array, empty where there is none.
pub fn text_at(items: &Value, place: usize) -> &str {
    found_at(items, place).unwrap_or("")
}

/// The number at a key, 0 where there is none.
pub fn number(row: &Value, key: &str) -> u64 {
    row.get(key).and_then(Value::as_u64).unwrap_or(0)
}

/// The number at a place of an array, 0 where there is none.
pub fn number_at(items: &Value, place: usize) -> u64 {
    items.get(place).and_then(Value::as_u64).unwrap_or(0)
}

/// Whether a flag is set.
pub fn flag(row: &Value, key: &str) -> bool {
    row.get(key).and_then(Value::as_bool).unwrap_or(false)
}
