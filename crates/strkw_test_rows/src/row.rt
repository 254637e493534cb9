//! What stands in a row: `draft`, `schema` and `instances`; `keyword`, where one entry of the object is asked; what is
//! set (`validate_formats`, `ignore_unknown_formats`, `formats_by_dialect`, `json_media_type`, and by names
//! `without_codecs` and `left_out`); the places `location`, `absolute`, `way` and `at`; and what `lists.rt` tells.

use serde_json::Value;
use std::alloc::{AllocError, Global};
use strkw_keywords::{Keyword, Options};
use strkw_report::{Draft, Location, Site, draft_in};

/// The items at a key, none where there is no array.
pub fn items<'v>(row: &'v Value, key: &str) -> &'v [Value] {
    match row.get(key).and_then(Value::as_array) {
        Some(items) => items.as_slice(),
        None => &[],
    }
}

/// The text at a place of an array, empty where there is none.
pub fn text_at(items: &Value, place: usize) -> &str {
    items.get(place).and_then(Value::as_str).unwrap_or("")
}

/// The draft of a row.
pub fn draft(row: &Value) -> Option<Draft> {
    draft_in(row.get("draft")?)
}

/// The keyword of a name.
pub fn keyword_named(name: &str) -> Option<Keyword> {
    Keyword::VARIANTS
        .iter()
        .copied()
        .find(|keyword| keyword.as_str() == name)
}

fn flag(row: &Value, key: &str) -> Option<bool> {
    row.get(key).and_then(Value::as_bool)
}

// Whether a name is among the texts at a key.
fn is_named(row: &Value, key: &str, name: &str) -> bool {
    for item in items(row, key) {
        if item.as_str() == Some(name) {
            return true;
        }
    }
    false
}

/// What a row sets; what it does not name is as by default.
pub fn options(row: &Value) -> Options {
    let left_out = |name: &str| -> bool { is_named(row, "left_out", name) };
    let with_codec = |name: &str| -> bool { !is_named(row, "without_codecs", name) };
    Options {
        validate_formats: flag(row, "validate_formats"),
        ignore_unknown_formats: flag(row, "ignore_unknown_formats").unwrap_or(true),
        formats_by_dialect: flag(row, "formats_by_dialect").unwrap_or(false),
        json_media_type: flag(row, "json_media_type").unwrap_or(true),
        codecs: [
            with_codec("base64"),
            with_codec("base64url"),
            with_codec("base32"),
            with_codec("base32hex"),
            with_codec("base16"),
        ],
        overridden: [
            left_out("contentMediaType"),
            left_out("contentEncoding"),
            left_out("contentSchema"),
            left_out("format"),
            left_out("minLength"),
            left_out("maxLength"),
            left_out("pattern"),
        ],
    }
}

/// The place whose segments stand at a key.
pub fn location(alloc: Global, row: &Value, key: &str) -> Result<Location, AllocError> {
    let mut location = Location::root(alloc);
    for segment in items(row, key) {
        location = location.join(segment.as_str().unwrap_or(""))?;
    }
    Ok(location)
}

/// What stands before the `#` of absolute locations, where a row has it.
pub fn absolute_location(alloc: Global, row: &Value) -> Result<Option<String>, AllocError> {
    match row.get("absolute").and_then(Value::as_str) {
        Some(text) => Ok(Some(String::from_str(alloc, text)?)),
        None => Ok(None),
    }
}

/// The way of evaluation to the schema object, and where the instance stands.
pub fn site(alloc: Global, row: &Value) -> Result<Site, AllocError> {
    Ok(Site {
        evaluation: location(alloc, row, "way")?,
        instance: location(alloc, row, "at")?,
    })
}
