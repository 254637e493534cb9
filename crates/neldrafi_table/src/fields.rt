//! The values of fields.

ghost use Rattle.std.specs.Prelude.{◌≡◌, IfOk, option_and_then, option_map};
ghost use Rattle.serde_json.specs.Data.{boolean, number};
ghost use Rattle.serde_json.specs.Find.{as_number};
ghost use Rattle.serde_json.specs.Read.{read};
ghost use Rattle.serde_json.specs.View.{view};
ghost use Rattle.neldrafi_table.specs.Fields.{begins_number, boolean_value, empty_value, field_value, is_bare, number_value, scalar_value};

use crate::columns::FieldTypes;
use crate::forms::EmptyField;
use json::{Reader, Scratch};
use serde_json::Value;
use std::alloc::{AllocError, Global};
use strkw_json::{JsonError, json_scalar};

// How deep arrays and objects may nest.
const MAX_DEPTH: usize = 127;

/// The value of a field, or `None` if it is absent. The only error is out of memory.
pub(crate) fn field_value(
    alloc: Global,
    empty: EmptyField,
    types: FieldTypes,
    text: &str,
    scratch: &mut Scratch,
) -> Result<Option<Value>, AllocError>
    ensures { IfOk result (λ value.
        option_map view value ≡ field_value empty types text.now) }
{
    if text.is_empty() {
        return empty_value(alloc, empty, types);
    }
    match scalar_value(types, text, scratch)? {
        Some(value) => Ok(Some(value)),
        None => Ok(Some(Value::try_from_str(alloc, text)?)),
    }
}

// The value of an empty field.
fn empty_value(
    alloc: Global,
    empty: EmptyField,
    types: FieldTypes,
) -> Result<Option<Value>, AllocError>
    ensures { IfOk result (λ value. option_map view value ≡ empty_value empty types) }
{
    if types.null {
        return Ok(Some(Value::Null));
    }
    match empty {
        EmptyField::Absent => Ok(None),
        EmptyField::Text => Ok(Some(Value::try_from_str(alloc, "")?)),
    }
}

// The Boolean or number that a text spells, if these types have it.
fn scalar_value(
    types: FieldTypes,
    text: &str,
    scratch: &mut Scratch,
) -> Result<Option<Value>, AllocError>
    ensures { IfOk result (λ value. option_map view value ≡ scalar_value types text.now) }
{
    match boolean_in(types, text) {
        Some(value) => Ok(Some(Value::Bool(value))),
        None => number_in(types, text, scratch),
    }
}

// The Boolean that a text spells, if these types have it.
fn boolean_in(types: FieldTypes, text: &str) -> Option<bool>
    ensures { option_map boolean result ≡ boolean_value types text.now }
{
    match text {
        "true" if types.boolean => Some(true),
        "false" if types.boolean => Some(false),
        _ => None,
    }
}

// The number that a text spells, if these types have it.
fn number_in(
    types: FieldTypes,
    text: &str,
    scratch: &mut Scratch,
) -> Result<Option<Value>, AllocError>
    ensures { IfOk result (λ value. option_map view value ≡ number_value types text.now) }
{
    if types.number && is_bare(text) {
        return read_number(text, scratch);
    }
    Ok(None)
}

// Whether a byte begins a number.
fn begins_number(byte: u8) -> bool
    ensures { result ≡ begins_number byte }
{
    byte == b'-' || byte.is_ascii_digit()
}

// Whether a text begins as a number does, with a minus or a digit, and ends with a digit.
fn is_bare(text: &str) -> bool
    ensures { result ≡ is_bare text.now }
{
    let bytes = text.as_bytes();
    match (bytes.first(), bytes.last()) {
        (Some(first), Some(last)) => begins_number(*first) && last.is_ascii_digit(),
        _ => false,
    }
}

// The number that a JSON text is.
fn read_number(text: &str, scratch: &mut Scratch) -> Result<Option<Value>, AllocError>
    ensures { IfOk result (λ value. option_map view value
        ≡ option_map number (option_and_then as_number (read text.now))) }
{
    let mut tokens = Reader::new(text, scratch)?;
    match json_scalar(&mut tokens, MAX_DEPTH) {
        Ok(Some(Value::Number(number))) if tokens.next().is_none() => {
            Ok(Some(Value::Number(number)))
        }
        Ok(_) | Err(JsonError::NotJson) => Ok(None),
        Err(JsonError::Memory) => Err(AllocError),
    }
}
