//! What the analysis of a pattern says, and what matchers answer.

use crate::row::{items, text, text_at};
use crate::sweeps::ascii;
use crate::tally::Tally;
use serde_json::Value;
use std::alloc::{AllocError, Global};
use strkw_pattern::{
    EngineFailure, LiteralMatcher, PatternOptimization, RegexEngine, analyze_pattern,
};

// Appends the kind of an analysis, and its texts.
fn push_analysis(found: &Option<PatternOptimization>, out: &mut String) -> Result<(), AllocError> {
    match found {
        None => out.push_str("none"),
        Some(PatternOptimization::Prefix(text)) => write!(out, "prefix {text}"),
        Some(PatternOptimization::Exact(text)) => write!(out, "exact {text}"),
        Some(PatternOptimization::NoWhitespace) => out.push_str("no whitespace"),
        Some(PatternOptimization::Alternation(texts)) => push_alternation(texts, out),
    }
}

// Appends texts, with a `·`, which no literal holds, between two of them.
fn push_alternation(texts: &[String], out: &mut String) -> Result<(), AllocError> {
    out.push_str("alternation ")?;
    let mut separator = "";
    for text in texts {
        out.push_str(separator)?;
        out.push_str(text)?;
        separator = "·";
    }
    Ok(())
}

// Asks for the analysis of a pattern.
fn ask_analysis(
    alloc: Global,
    pattern: &str,
    expected: &str,
    tally: &mut Tally,
) -> Result<(), AllocError> {
    let mut found = String::new(alloc);
    push_analysis(&analyze_pattern(alloc, pattern)?, &mut found)?;
    tally.count(found.as_str() == expected, pattern, &found)
}

/// The patterns of a row, with their analyses.
pub fn ask_analyses(alloc: Global, row: &Value, tally: &mut Tally) -> Result<(), AllocError> {
    for pair in items(row, "rows") {
        ask_analysis(alloc, text_at(pair, 0), text_at(pair, 1), tally)?;
    }
    Ok(())
}

fn are_equal(alloc: Global, one: &str, other: &str) -> Result<bool, AllocError> {
    Ok(analyze_pattern(alloc, one)? == analyze_pattern(alloc, other)?)
}

/// The pairs of patterns of a row, by whether their analyses are equal.
pub fn ask_equal(alloc: Global, row: &Value, tally: &mut Tally) -> Result<(), AllocError> {
    for pair in items(row, "rows") {
        let (one, other) = (text_at(pair, 0), text_at(pair, 1));
        let found = are_equal(alloc, one, other)?;
        let is_expected = pair.get(2).and_then(Value::as_bool) == Some(found);
        tally.count(is_expected, one, other)?;
    }
    Ok(())
}

// A character at a place, which is `taken` or not.
fn ask_character(
    alloc: Global,
    place: &Value,
    character: char,
    taken: &str,
    tally: &mut Tally,
) -> Result<(), AllocError> {
    let (before, after) = (text_at(place, 0), text_at(place, 1));
    let pattern = format!(in alloc; "{before}{character}{after}")?;
    if taken.contains(character) {
        let (before, after) = (text_at(place, 2), text_at(place, 3));
        let with_it = format!(in alloc; "{before}{character}{after}")?;
        return ask_analysis(alloc, &pattern, &with_it, tally);
    }
    let expected = if character == '|' {
        text_at(place, 4)
    } else {
        "none"
    };
    ask_analysis(alloc, &pattern, expected, tally)
}

/// Each ASCII character at each place of the row.
pub fn ask_characters(alloc: Global, row: &Value, tally: &mut Tally) -> Result<(), AllocError> {
    let (all, taken) = (ascii(alloc)?, text(row, "taken"));
    for place in items(row, "places") {
        for character in all.chars() {
            ask_character(alloc, place, character, taken, tally)?;
        }
    }
    Ok(())
}

// A match through the bound of the trait alone.
fn answer<E: RegexEngine>(alloc: Global, engine: &E, text: &str) -> Result<bool, EngineFailure> {
    engine.is_match(alloc, text)
}

// Asks a matcher on the texts of a row.
fn ask_matcher(
    alloc: Global,
    row: &Value,
    matcher: &LiteralMatcher,
    tally: &mut Tally,
) -> Result<(), AllocError> {
    for item in items(row, "yes") {
        let text = item.as_str().unwrap_or("");
        let is_expected = answer(alloc, matcher, text) == Ok(true);
        tally.count(is_expected, text, "no match")?;
    }
    for item in items(row, "no") {
        let text = item.as_str().unwrap_or("");
        let is_expected = answer(alloc, matcher, text) == Ok(false);
        tally.count(is_expected, text, "a match")?;
    }
    Ok(())
}

/// The matcher of a literal pattern.
pub fn ask_matches(alloc: Global, row: &Value, tally: &mut Tally) -> Result<(), AllocError> {
    let matcher = match analyze_pattern(alloc, text(row, "of"))? {
        None => return Ok(()),
        Some(PatternOptimization::Prefix(literal)) => LiteralMatcher::Prefix { literal },
        Some(PatternOptimization::Exact(exact)) => LiteralMatcher::Exact { exact },
        Some(PatternOptimization::Alternation(alternatives)) => LiteralMatcher::Alternation {
            alternatives,
        },
        Some(PatternOptimization::NoWhitespace) => LiteralMatcher::NoWhitespace,
    };
    ask_matcher(alloc, row, &matcher, tally)
}

/// A matcher of any texts.
pub fn ask_alternatives(alloc: Global, row: &Value, tally: &mut Tally) -> Result<(), AllocError> {
    let mut alternatives = Vec::new(alloc);
    for item in items(row, "alternatives") {
        alternatives.push(String::from_str(alloc, item.as_str().unwrap_or(""))?)?;
    }
    ask_matcher(
        alloc,
        row,
        &LiteralMatcher::Alternation { alternatives },
        tally,
    )
}

/// A matcher of what begins with any text.
pub fn ask_prefix(alloc: Global, row: &Value, tally: &mut Tally) -> Result<(), AllocError> {
    let literal = String::from_str(alloc, text(row, "prefix"))?;
    ask_matcher(alloc, row, &LiteralMatcher::Prefix { literal }, tally)
}
