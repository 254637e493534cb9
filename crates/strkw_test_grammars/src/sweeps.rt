//! Each character, each number, and more and more of a part in the places of texts.

use crate::row::{flag, items, number, number_at, text, text_at};
use crate::tally::Tally;
use crate::texts::{accepts, ask_made};
use serde_json::Value;
use std::alloc::{AllocError, Global};

/// All of ASCII.
pub fn ascii(alloc: Global) -> Result<String, AllocError> {
    let mut all = String::new(alloc);
    for code in 0..128u8 {
        all.push(char::from(code))?;
    }
    Ok(all)
}

// What is tried at the places of a row.
fn tried_characters(alloc: Global, row: &Value) -> Result<String, AllocError> {
    match row.get("tried").and_then(Value::as_str) {
        Some(tried) => String::from_str(alloc, tried),
        None => ascii(alloc),
    }
}

/// Each character that is tried, at each place of the row.
pub fn ask_characters(alloc: Global, row: &Value, tally: &mut Tally) -> Result<(), AllocError> {
    let tried = tried_characters(alloc, row)?;
    for place in items(row, "places") {
        ask_characters_at(alloc, row, place, "", &tried, tally)?;
        for side in items(row, "sides") {
            let letters = side.as_str().unwrap_or("");
            ask_characters_at(alloc, row, place, letters, &tried, tally)?;
        }
    }
    Ok(())
}

// Each character at one place, with letters on both sides of it.
fn ask_characters_at(
    alloc: Global,
    row: &Value,
    place: &Value,
    letters: &str,
    tried: &str,
    tally: &mut Tally,
) -> Result<(), AllocError> {
    let (of, accepted) = (text(row, "of"), text(row, "accepted"));
    let (before, after, others) = (text_at(place, 0), text_at(place, 1), text_at(place, 2));
    for character in tried.chars() {
        let expected = accepted.contains(character) || others.contains(character);
        let text = format!(in alloc; "{before}{letters}{character}{letters}{after}");
        ask_made(alloc, of, text, expected, tally)?;
    }
    Ok(())
}

fn is_within(row: &Value, count: u64) -> bool {
    number(row, "from") <= count && count <= number(row, "to")
}

/// Each number at each place of the row.
pub fn ask_numbers(alloc: Global, row: &Value, tally: &mut Tally) -> Result<(), AllocError> {
    let (of, two_digits) = (text(row, "of"), flag(row, "two_digits"));
    for place in items(row, "places") {
        let (before, after) = (text_at(place, 0), text_at(place, 1));
        for count in 0..number(row, "below") {
            let zero = if two_digits && count < 10 { "0" } else { "" };
            let text = format!(in alloc; "{before}{zero}{count}{after}");
            ask_made(alloc, of, text, is_within(row, count), tally)?;
        }
    }
    Ok(())
}

/// More and more of the part, from none on, at each place of the row.
pub fn ask_counts(alloc: Global, row: &Value, tally: &mut Tally) -> Result<(), AllocError> {
    let (of, part) = (text(row, "of"), text(row, "part"));
    for place in items(row, "places") {
        let (before, after) = (text_at(place, 0), text_at(place, 1));
        let mut parts = String::new(alloc);
        for count in 0..number(row, "below") {
            let text = format!(in alloc; "{before}{parts}{after}");
            ask_made(alloc, of, text, is_within(row, count), tally)?;
            parts.push_str(part)?;
        }
    }
    Ok(())
}

// How many characters of a range may stand at a place, and the sum of their numbers.
fn count_and_sum(
    alloc: Global,
    of: &str,
    place: &Value,
    range: &Value,
) -> Result<(u64, u64), AllocError> {
    let (before, after) = (text_at(place, 0), text_at(place, 1));
    let (mut count, mut sum) = (0u64, 0u64);
    for point in number_at(range, 0)..number_at(range, 1) {
        let found = u32::try_from(point).ok().and_then(char::from_u32);
        if let Some(character) = found {
            let text = format!(in alloc; "{before}{character}{after}")?;
            if accepts(alloc, of, &text)? == Some(true) {
                count = count.wrapping_add(1);
                sum = sum.wrapping_add(point);
            }
        }
    }
    Ok((count, sum))
}

/// How many characters of each range, and which sum they have, at each place of the row.
pub fn ask_sums(alloc: Global, row: &Value, tally: &mut Tally) -> Result<(), AllocError> {
    let of = text(row, "of");
    for place in items(row, "places") {
        for range in items(row, "rows") {
            let (count, sum) = count_and_sum(alloc, of, place, range)?;
            let is_expected = count == number_at(range, 2) && sum == number_at(range, 3);
            let from = number_at(range, 0);
            let shown = format!(in alloc; "{count} from {from} on, of the sum {sum}")?;
            tally.count(is_expected, text_at(place, 0), &shown)?;
        }
    }
    Ok(())
}
