//! Nodes, numbers with a fraction, the order of drafts, and texts in errors and places.

use crate::row::{found_at, items};
use crate::tally::Tally;
use serde_json::Value;
use std::alloc::{AllocError, Global};
use strkw_report::{Draft, Failure, Location, Node, TextNode, char_count, holds_fraction};

const DRAFTS: [Draft; 5] = [
    Draft::Draft4,
    Draft::Draft6,
    Draft::Draft7,
    Draft::Draft201909,
    Draft::Draft202012,
];

// Whether a node has this text, and so many characters, by itself and as the node of a text.
fn is_node<N: Node>(node: &N, text: Option<&str>, length: Option<u64>) -> bool {
    let is_text = match TextNode::of(node) {
        Some(held) => Some(held.as_str()) == text && Some(held.length()) == length,
        None => text.is_none() && length.is_none(),
    };
    is_text && node.as_text() == text && node.text_length() == length
}

// Whether a value, its text or `None`, and where it is a text that text too, have this text and so many characters.
fn are_nodes(value: &Value, text: Option<&str>, length: Option<u64>) -> bool {
    let of_text = match text {
        Some(text) => is_node(&text, Some(text), length) && Some(char_count(text)) == length,
        None => true,
    };
    of_text && is_node(value, text, length) && is_node(&text, text, length)
}

/// The nodes of a row.
pub fn ask_nodes(row: &Value, tally: &mut Tally) -> Result<(), AllocError> {
    for row in items(row, "rows") {
        let (text, length) = (found_at(row, 1), row.get(2).and_then(Value::as_u64));
        let is_expected = match row.get(0) {
            Some(value) => are_nodes(value, text, length),
            None => false,
        };
        tally.count(is_expected, text.unwrap_or(""), "another node")?;
    }
    Ok(())
}

/// Whether a text has so many characters; `None` where the name is unknown.
pub fn has_characters(of: &str, text: &str) -> Option<bool> {
    match of {
        "one character" => Some(char_count(text) == 1),
        "33 characters" => Some(char_count(text) == 33),
        _ => None,
    }
}

/// Whether a text stands in an error as it is, between quotation marks: in one that is given, and in one appended.
pub fn stands_in_errors(alloc: Global, text: &str) -> Result<bool, AllocError> {
    let wanted = format!(in alloc; "\"{text}\" does not decode to UTF-8 text")?;
    let given = Failure::FromUtf8.text(alloc, text)?;
    let mut appended = Vec::new(alloc);
    Failure::FromUtf8.push_text(text, &mut appended)?;
    Ok(given.as_str() == wanted.as_str() && appended.as_slice() == wanted.as_bytes())
}

/// Whether a text stands in a place as it is, behind a slash: in one that is given, and in one appended.
pub fn stands_in_places(alloc: Global, text: &str) -> Result<bool, AllocError> {
    let wanted = format!(in alloc; "/{text}")?;
    let root = Location::root(alloc);
    let given = root.join(text)?;
    let mut appended = Vec::new(alloc);
    root.push_below(text, &mut appended)?;
    Ok(given.as_str() == wanted.as_str() && appended.as_slice() == wanted.as_bytes())
}

/// The values of a row that hold a number which is kept neither as a `u64` nor as an `i64`, and those that hold none.
pub fn ask_fractions(row: &Value, tally: &mut Tally) -> Result<(), AllocError> {
    for value in items(row, "yes") {
        tally.count(holds_fraction(value), "yes", "no fraction")?;
    }
    for value in items(row, "no") {
        tally.count(!holds_fraction(value), "no", "a fraction")?;
    }
    Ok(())
}

/// The drafts compare as their places do.
pub fn ask_drafts(tally: &mut Tally) -> Result<(), AllocError> {
    for (i, a) in DRAFTS.iter().enumerate() {
        for (j, b) in DRAFTS.iter().enumerate() {
            let are_compared = (*a == *b) == (i == j) && (*a < *b) == (i < j);
            let is_expected = are_compared && a.cmp(b) == i.cmp(&j) && a.clone()? == *a;
            tally.count(is_expected, "drafts", "another order")?;
        }
    }
    Ok(())
}
