//! The rules of labels, and what payloads decode to.

use crate::row::{elements, items, number, text_at};
use crate::tally::Tally;
use serde_json::Value;
use std::alloc::{AllocError, Global};
use strkw_label::{DerivedProperty, decode_punycode, derived_property, validate_unicode_label};

/// Whether a text is admitted as a label.
pub fn admits(alloc: Global, text: &str) -> Result<bool, AllocError> {
    let mut label = Vec::new(alloc);
    for character in text.chars() {
        label.push(character)?;
    }
    Ok(validate_unicode_label(&label))
}

// Whether a character is in one of the ranges, each a text of its ends.
fn lies_in(character: char, ranges: &[Value]) -> bool {
    for range in ranges {
        let ends = range.as_str().unwrap_or("");
        if let (Some(low), Some(high)) = (ends.chars().next(), ends.chars().last()) {
            if low <= character && character <= high {
                return true;
            }
        }
    }
    false
}

// A character at a place: it is among the `possible`, if its label is admitted, and else not among the `settled`.
fn ask_character(
    alloc: Global,
    row: &Value,
    place: &Value,
    character: char,
    tally: &mut Tally,
) -> Result<(), AllocError> {
    let (before, after) = (text_at(place, 0), text_at(place, 1));
    let label = format!(in alloc; "{before}{character}{after}")?;
    let (is_expected, answer) = if admits(alloc, &label)? {
        (lies_in(character, items(row, "possible")), "admitted")
    } else {
        (!lies_in(character, items(row, "settled")), "refused")
    };
    tally.count(is_expected, &label, answer)
}

/// Each character below a bound, at each place of the row.
pub fn ask_characters(alloc: Global, row: &Value, tally: &mut Tally) -> Result<(), AllocError> {
    for place in items(row, "places") {
        for point in 0..number(row, "below") {
            let found = u32::try_from(point).ok().and_then(char::from_u32);
            if let Some(character) = found {
                ask_character(alloc, row, place, character, tally)?;
            }
        }
    }
    Ok(())
}

// Whether a payload, of which none here is longer than 96 bytes, encodes the text, or nothing where there is none.
fn encodes(payload: &str, text: Option<&str>) -> bool {
    if payload.len() > 96 {
        return false;
    }
    match (decode_punycode::<96>(payload), text) {
        (Some(decoded), Some(text)) => decoded.as_slice().iter().copied().eq(text.chars()),
        (None, None) => true,
        _ => false,
    }
}

/// The payloads of a row.
pub fn ask_payloads(row: &Value, tally: &mut Tally) -> Result<(), AllocError> {
    for row in items(row, "rows") {
        let Some((last, payloads)) = elements(row).split_last() else {
            continue;
        };
        for payload in payloads {
            let payload = payload.as_str().unwrap_or("");
            let is_expected = encodes(payload, last.as_str());
            tally.count(is_expected, payload, "another text")?;
        }
    }
    Ok(())
}

// The name of a derived property in RFC 5892, section 2.
fn property_name(property: DerivedProperty) -> &'static str {
    match property {
        DerivedProperty::ProtocolValid => "PVALID",
        DerivedProperty::ContextJ => "CONTEXTJ",
        DerivedProperty::ContextO => "CONTEXTO",
        DerivedProperty::Disallowed => "DISALLOWED",
        DerivedProperty::Unassigned => "UNASSIGNED",
    }
}

// The derived property of each character of a range.
fn ask_range(
    alloc: Global,
    first: char,
    last: char,
    wanted: &str,
    tally: &mut Tally,
) -> Result<(), AllocError> {
    for point in u32::from(first)..=u32::from(last) {
        let Some(character) = char::from_u32(point) else {
            continue;
        };
        let found = property_name(derived_property(alloc, character)?);
        let told = format!(in alloc; "{character}")?;
        tally.count(found == wanted, &told, found)?;
    }
    Ok(())
}

/// The derived properties of the characters of a row's ranges.
pub fn ask_properties(alloc: Global, row: &Value, tally: &mut Tally) -> Result<(), AllocError> {
    for entry in items(row, "rows") {
        let mut ends = text_at(entry, 0).chars();
        if let (Some(first), Some(last)) = (ends.next(), ends.next()) {
            ask_range(alloc, first, last, text_at(entry, 1), tally)?;
        }
    }
    Ok(())
}
