//! Encodings and the media type: checks and decoders, by name and by variant, and their names.

use crate::row::{found_at, items, text, text_at};
use crate::tally::Tally;
use serde_json::Value;
use std::alloc::{AllocError, Global};
use strkw_coding::{
    BuiltinMediaType, Codec, DecodeError, JsonError, from_base16, from_base32, from_base32hex,
    from_base64, from_base64url, is_base16, is_base32, is_base32hex, is_base64, is_base64url,
    is_json,
};

// An answer that two calls agree on.
fn agreement(one: bool, other: bool) -> Option<bool> {
    if one == other { Some(one) } else { None }
}

// What the check of an encoding says, by its name.
fn check(alloc: Global, of: &str, text: &str) -> Result<bool, AllocError> {
    match of {
        "base64" => is_base64(alloc, text),
        "base64url" => is_base64url(alloc, text),
        "base32" => is_base32(alloc, text),
        "base32hex" => is_base32hex(alloc, text),
        _ => is_base16(alloc, text),
    }
}

/// Whether a text is an encoding; `None` where the name is unknown, or the two checks disagree.
pub fn is_encoded(alloc: Global, of: &str, text: &str) -> Result<Option<bool>, AllocError> {
    let Some(codec) = Codec::by_name(of) else {
        return Ok(None);
    };
    Ok(agreement(check(alloc, of, text)?, codec.is_encoded(alloc, text)?))
}

/// Whether a text is JSON; `None` where the two checks disagree.
pub fn is_media(alloc: Global, text: &str) -> Result<Option<bool>, AllocError> {
    Ok(agreement(
        is_json(alloc, text)?,
        BuiltinMediaType::Json.accepts(alloc, text)?,
    ))
}

// What the decoder of an encoding answers, by its name.
fn decode(alloc: Global, of: &str, text: &str) -> Result<Option<String>, DecodeError> {
    match of {
        "base64" => from_base64(alloc, text),
        "base64url" => from_base64url(alloc, text),
        "base32" => from_base32(alloc, text),
        "base32hex" => from_base32hex(alloc, text),
        _ => from_base16(alloc, text),
    }
}

// The value of a digit, 16 for what is none.
fn value(digit: u8) -> u8 {
    match digit {
        b'0'..=b'9' => digit - b'0',
        b'a'..=b'f' => digit - b'a' + 10,
        _ => 16,
    }
}

// The bytes that are written in hexadecimal.
fn bytes_of(alloc: Global, digits: &str) -> Result<Vec<u8>, AllocError> {
    let mut bytes = Vec::new(alloc);
    for pair in digits.as_bytes().chunks(2) {
        if let [high, low] = pair {
            bytes.push(value(*high).wrapping_mul(16).wrapping_add(value(*low)))?;
        }
    }
    Ok(bytes)
}

// Whether this is what is decoded to these bytes, or to nothing where there are none.
fn is_decoded(found: &Result<Option<String>, DecodeError>, bytes: Option<&[u8]>) -> bool {
    match (found, bytes) {
        (Ok(Some(text)), Some(bytes)) => text.as_bytes() == bytes,
        (Err(DecodeError::NotUtf8), Some(bytes)) => str::from_utf8(bytes).is_err(),
        (Ok(None), None) => true,
        _ => false,
    }
}

// Asks the decoders of an encoding for these bytes of a text, or for nothing where there are none.
fn ask_bytes(
    alloc: Global,
    of: &str,
    codec: Codec,
    text: &str,
    bytes: Option<&[u8]>,
    tally: &mut Tally,
) -> Result<(), AllocError> {
    let decoded = is_decoded(&decode(alloc, of, text), bytes);
    tally.count(decoded, text, "decoded otherwise")?;
    let decoded = is_decoded(&codec.decode(alloc, text), bytes);
    tally.count(decoded, text, "decoded otherwise by its variant")
}

// Asks the checks and the decoders of an encoding.
fn ask_encoding(
    alloc: Global,
    of: &str,
    codec: Codec,
    text: &str,
    digits: Option<&str>,
    tally: &mut Tally,
) -> Result<(), AllocError> {
    let checked = is_encoded(alloc, of, text)? == Some(digits.is_some());
    tally.count(checked, text, "checked otherwise")?;
    match digits {
        Some(digits) => ask_bytes(
            alloc,
            of,
            codec,
            text,
            Some(&bytes_of(alloc, digits)?),
            tally,
        ),
        None => ask_bytes(alloc, of, codec, text, None, tally),
    }
}

/// The encodings of a row: the checks and the decoders are asked.
pub fn ask_decoded(alloc: Global, row: &Value, tally: &mut Tally) -> Result<(), AllocError> {
    let of = text(row, "of");
    let Some(codec) = Codec::by_name(of) else {
        return Ok(());
    };
    for pair in items(row, "rows") {
        let (text, digits) = (text_at(pair, 0), found_at(pair, 1));
        ask_encoding(alloc, of, codec, text, digits, tally)?;
    }
    Ok(())
}

// The variant of a name, and the name of that variant.
fn named_variant(
    alloc: Global,
    of: &str,
    name: &str,
) -> Result<Option<(String, &'static str)>, AllocError> {
    if of == "media types" {
        return match BuiltinMediaType::by_name(name) {
            Some(found) => Ok(Some((format!(in alloc; "{found:?}")?, found.as_str()))),
            None => Ok(None),
        };
    }
    match Codec::by_name(name) {
        Some(found) => Ok(Some((format!(in alloc; "{found:?}")?, found.as_str()))),
        None => Ok(None),
    }
}

// Whether a name is that of the variant, or of none.
fn is_named(
    alloc: Global,
    of: &str,
    name: &str,
    variant: Option<&str>,
) -> Result<bool, AllocError> {
    let found = named_variant(alloc, of, name)?;
    Ok(match (&found, variant) {
        (Some((found, its_name)), Some(variant)) => found.as_str() == variant && *its_name == name,
        (None, None) => true,
        _ => false,
    })
}

/// The names of a row.
pub fn ask_names(alloc: Global, row: &Value, tally: &mut Tally) -> Result<(), AllocError> {
    for pair in items(row, "rows") {
        let name = text_at(pair, 0);
        let is_expected = is_named(alloc, text(row, "of"), name, found_at(pair, 1))?;
        tally.count(is_expected, name, "another variant")?;
    }
    Ok(())
}

// The text that an error shows.
fn ask_error(shown: &str, text: Option<&str>, tally: &mut Tally) -> Result<(), AllocError> {
    tally.count(text == Some(shown), shown, "another text")
}

/// The texts of the errors of decoders.
pub fn ask_decode_errors(alloc: Global, row: &Value, tally: &mut Tally) -> Result<(), AllocError> {
    let errors = [DecodeError::NotUtf8, DecodeError::Memory];
    for (error, text) in errors.iter().zip(items(row, "texts")) {
        ask_error(&error.to_string(alloc)?, text.as_str(), tally)?;
    }
    Ok(())
}

/// The texts of the errors of reading JSON.
pub fn ask_json_errors(alloc: Global, row: &Value, tally: &mut Tally) -> Result<(), AllocError> {
    let errors = [JsonError::NotJson, JsonError::Memory];
    for (error, text) in errors.iter().zip(items(row, "texts")) {
        ask_error(&error.to_string(alloc)?, text.as_str(), tally)?;
    }
    Ok(())
}
