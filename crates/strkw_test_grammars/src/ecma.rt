//! Which patterns the engine of ECMA-262 takes, why it takes no others, which have a table, and where each is found.

use crate::row::{flag, items, text, text_at};
use crate::tally::Tally;
use serde_json::Value;
use std::alloc::{AllocError, Global};
use strkw_ecma::{EcmaPatterns, PatternRefusal, why_refused, why_refused_leniently};
use strkw_pattern::{BuildRefusal, EngineBuilder, RegexEngine};

/// Whether a text is a pattern that is taken; `None` out of memory.
pub fn is_taken(alloc: Global, pattern: &str) -> Option<bool> {
    match EcmaPatterns.build(alloc, pattern) {
        Ok(_) => Some(true),
        Err(BuildRefusal::Pattern) => Some(false),
        Err(BuildRefusal::Memory) => None,
    }
}

// A search through the bounds of the traits alone.
fn answer<B: EngineBuilder>(alloc: Global, builder: &B, pattern: &str, text: &str) -> &'static str {
    match builder.build(alloc, pattern) {
        Ok(engine) => match engine.is_match(alloc, text) {
            Ok(true) => "found",
            Ok(false) => "not found",
            Err(_) => "no answer",
        },
        Err(BuildRefusal::Pattern) => "not taken",
        Err(BuildRefusal::Memory) => "not built",
    }
}

// A search by the engine of a row, which is the lenient one if the row says so.
fn answer_of(alloc: Global, is_lenient: bool, pattern: &str, text: &str) -> &'static str {
    if is_lenient {
        answer(alloc, &EcmaPatterns::lenient(), pattern, text)
    } else {
        answer(alloc, &EcmaPatterns, pattern, text)
    }
}

// Asks whether a pattern is found in a text. It is not to be taken where nothing is expected of the search.
fn ask_search(
    alloc: Global,
    is_lenient: bool,
    pattern: &str,
    text: &str,
    expected: Option<bool>,
    tally: &mut Tally,
) -> Result<(), AllocError> {
    let answer = answer_of(alloc, is_lenient, pattern, text);
    let wanted = match expected {
        Some(true) => "found",
        Some(false) => "not found",
        None => "not taken",
    };
    let shown = format!(in alloc; "{answer} in {text:?}")?;
    tally.count(answer == wanted, pattern, &shown)
}

/// The searches of a row.
pub fn ask_searches(alloc: Global, row: &Value, tally: &mut Tally) -> Result<(), AllocError> {
    let is_lenient = flag(row, "lenient");
    for row in items(row, "rows") {
        let (pattern, text) = (text_at(row, 0), text_at(row, 1));
        let found = row.get(2).and_then(Value::as_bool);
        ask_search(alloc, is_lenient, pattern, text, found, tally)?;
    }
    Ok(())
}

/// Parts of a text, each so many times.
pub fn repeat_parts(alloc: Global, parts: &[Value]) -> Result<String, AllocError> {
    let mut text = String::new(alloc);
    for part in parts {
        for _ in 0..part.get(1).and_then(Value::as_u64).unwrap_or(0) {
            text.push_str(text_at(part, 0))?;
        }
    }
    Ok(text)
}

/// The searches of a row whose patterns and texts are said by their parts.
pub fn ask_long_searches(alloc: Global, row: &Value, tally: &mut Tally) -> Result<(), AllocError> {
    let is_lenient = flag(row, "lenient");
    for row in items(row, "rows") {
        let pattern = repeat_parts(alloc, items(row, "pattern"))?;
        let text = repeat_parts(alloc, items(row, "text"))?;
        let found = row.get("found").and_then(Value::as_bool);
        ask_search(alloc, is_lenient, &pattern, &text, found, tally)?;
    }
    Ok(())
}

/// The patterns of a row, by whether they have a table.
pub fn ask_tables(alloc: Global, row: &Value, tally: &mut Tally) -> Result<(), AllocError> {
    for pair in items(row, "rows") {
        let pattern = text_at(pair, 0);
        let has_table = match EcmaPatterns.build(alloc, pattern) {
            Ok(engine) => Some(engine.has_table()),
            Err(_) => None,
        };
        let is_expected = has_table.is_some() && has_table == pair.get(1).and_then(Value::as_bool);
        tally.count(is_expected, pattern, "the other")?;
    }
    Ok(())
}

// Why the engine of a row does not take a pattern.
fn refusal_of(
    alloc: Global,
    is_lenient: bool,
    pattern: &str,
) -> Result<Option<PatternRefusal>, AllocError> {
    if is_lenient {
        why_refused_leniently(alloc, pattern)
    } else {
        why_refused(alloc, pattern)
    }
}

// Asks why a pattern is not taken, in the words of the refusal.
fn ask_refusal(
    alloc: Global,
    is_lenient: bool,
    pattern: &str,
    wanted: &str,
    tally: &mut Tally,
) -> Result<(), AllocError> {
    let answer = match refusal_of(alloc, is_lenient, pattern)? {
        Some(refusal) => format!(in alloc; "{refusal}")?,
        None => String::from_str(alloc, "taken")?,
    };
    tally.count(answer.as_str() == wanted, pattern, &answer)
}

/// The patterns of a row, and those that are said by their parts, all with one reason.
pub fn ask_refusals(alloc: Global, row: &Value, tally: &mut Tally) -> Result<(), AllocError> {
    let (is_lenient, wanted) = (flag(row, "lenient"), text(row, "of"));
    for pattern in items(row, "patterns") {
        let pattern = pattern.as_str().unwrap_or("");
        ask_refusal(alloc, is_lenient, pattern, wanted, tally)?;
    }
    for row in items(row, "long") {
        let pattern = repeat_parts(alloc, items(row, "pattern"))?;
        ask_refusal(alloc, is_lenient, &pattern, wanted, tally)?;
    }
    Ok(())
}
