//! JSON values from the tokens of a reader, as `serde_json` reads them of a whole text: built, or passed over where
//! only a text is wanted.

ghost use Rattle.std.specs.Prelude.{◌≡◌, ◌<◌, Some, None, IfOk, OnOk, IsErrOf, length, option_map};
ghost use Rattle.serde_json.specs.Data.{Data};
ghost use Rattle.serde_json.specs.Find.{as_object, as_str};
ghost use Rattle.serde_json.specs.View.{view, items_view, members_view};
ghost use Rattle.strkw_json.specs.Passing.{value_read, items_read, members_read, scalar_in};

use crate::check::{json_number, passes_json};
use crate::error::JsonError;
use json::{Invalid, Reader, Token};
use serde_json::{Map, Value};
use std::alloc::Global;

/// The JSON value that comes first of these tokens, as `serde_json` reads it: arrays and objects nest no deeper than
/// `depth`, each number is within the range of an `f64`, and a member counts by its last value.
///
/// Errors: `NotJson` where none comes, and `Memory`. The tokens are then read up to some place.
#[cycle(build)]
#[tactic(auto, using(crate::proofs::Reading::by_first_token, crate::proofs::Built::null_built, crate::proofs::Built::bool_built, crate::proofs::Built::number_built, crate::proofs::Built::string_built))]
pub fn build_json(alloc: Global, tokens: &mut Reader<'_>, depth: usize) -> Result<Value, JsonError>
    ensures ok { IfOk result (λ v. value_read depth tokens.old ≡ Some (view v, tokens.new)) }
    ensures none { IsErrOf result JsonError.NotJson → value_read depth tokens.old ≡ None }
    ensures shorter { OnOk result (length tokens.new < length tokens.old) }
{
    let token = tokens.next().ok_or(JsonError::NotJson)?;
    match token {
        Token::Null => Ok(Value::Null),
        Token::Bool(is_true) => Ok(Value::Bool(is_true)),
        Token::Number(text) => Ok(Value::Number(json_number(text).ok_or(JsonError::NotJson)?)),
        Token::String(text) => Ok(Value::String(String::from_str(alloc, text)?)),
        Token::BeginArray if depth > 0 => Ok(Value::Array(build_items(alloc, tokens, depth - 1)?)),
        Token::BeginObject if depth > 0 => {
            Ok(Value::Object(build_members(alloc, tokens, depth - 1)?))
        }
        _ => Err(JsonError::NotJson),
    }
}

/// The text that the JSON value is which comes first of these tokens, or `None` where it is another one, which is
/// passed over as by `passes_json`. It takes no memory.
///
/// Errors: `NotJson` where `build_json` would answer it, and no other. The tokens are then read up to some place.
pub fn json_text<'a>(tokens: &mut Reader<'a>, depth: usize) -> Result<Option<&'a str>, JsonError>
    ensures ok { IfOk result (λ text. (d : Data)
        × (value_read depth tokens.old ≡ Some (d, tokens.new))
        × (as_str d ≡ option_map (λ s. s.now) text)) }
    ensures none { IsErrOf result JsonError.NotJson → value_read depth tokens.old ≡ None }
    ensures shorter { OnOk result (length tokens.new < length tokens.old) }
{
    let token = tokens.next().ok_or(JsonError::NotJson)?;
    match token {
        Token::String(text) => Ok(Some(text)),
        _ if passes_json(token, tokens, depth) => Ok(None),
        _ => Err(JsonError::NotJson),
    }
}

/// The number, truth value or null that the JSON value is which comes first of these tokens, or `None` where it is a
/// text, an array or an object, which is passed over as by `passes_json`. It takes no memory.
///
/// Errors: `NotJson` where `build_json` would answer it, and no other. The tokens are then read up to some place.
pub fn json_scalar(tokens: &mut Reader<'_>, depth: usize) -> Result<Option<Value>, JsonError>
    ensures ok { IfOk result (λ scalar. (d : Data)
        × (value_read depth tokens.old ≡ Some (d, tokens.new))
        × (scalar_in d ≡ option_map view scalar)) }
    ensures none { IsErrOf result JsonError.NotJson → value_read depth tokens.old ≡ None }
    ensures shorter { OnOk result (length tokens.new < length tokens.old) }
{
    let token = tokens.next().ok_or(JsonError::NotJson)?;
    match token {
        Token::Null => Ok(Some(Value::Null)),
        Token::Bool(is_true) => Ok(Some(Value::Bool(is_true))),
        Token::Number(text) => {
            let number = json_number(text).ok_or(JsonError::NotJson)?;
            Ok(Some(Value::Number(number)))
        }
        _ if passes_json(token, tokens, depth) => Ok(None),
        _ => Err(JsonError::NotJson),
    }
}

/// The object that the JSON value is which comes first of these tokens, or `None` where it is another one, which is
/// passed over as by `passes_json`, and not built.
///
/// Errors: as `build_json`.
pub fn build_object(
    alloc: Global,
    tokens: &mut Reader<'_>,
    depth: usize,
) -> Result<Option<Map<String, Value>>, JsonError>
    ensures ok { IfOk result (λ object. (d : Data)
        × (value_read depth tokens.old ≡ Some (d, tokens.new))
        × (as_object d ≡ option_map (λ m. members_view m.entries) object)) }
    ensures none { IsErrOf result JsonError.NotJson → value_read depth tokens.old ≡ None }
    ensures shorter { OnOk result (length tokens.new < length tokens.old) }
{
    let token = tokens.next().ok_or(JsonError::NotJson)?;
    match token {
        Token::BeginObject if depth > 0 => Ok(Some(build_members(alloc, tokens, depth - 1)?)),
        _ if passes_json(token, tokens, depth) => Ok(None),
        _ => Err(JsonError::NotJson),
    }
}

// The items that are left of an array, up to its end.
#[cycle(build)]
#[inline(never)]
fn build_items(
    alloc: Global,
    tokens: &mut Reader<'_>,
    depth: usize,
) -> Result<Vec<Value>, JsonError>
    ensures ok { IfOk result (λ vs. items_read depth tokens.old
        ≡ Some (items_view vs.items, tokens.new)) }
    ensures none { IsErrOf result JsonError.NotJson → items_read depth tokens.old ≡ None }
    ensures shorter { OnOk result (length tokens.new < length tokens.old) }
{
    let mut built = Vec::new(alloc);
    'items: while !tokens.take_end_array() {
        let item = build_json(alloc, tokens, depth)?;
        built.push(item)?;
    }
    Ok(built)
}

// The members that are left of an object, up to its end.
#[cycle(build)]
#[inline(never)]
fn build_members(
    alloc: Global,
    tokens: &mut Reader<'_>,
    depth: usize,
) -> Result<Map<String, Value>, JsonError>
    ensures ok { IfOk result (λ m. members_read depth tokens.old
        ≡ Some (members_view m.entries, tokens.new)) }
    ensures none { IsErrOf result JsonError.NotJson → members_read depth tokens.old ≡ None }
    ensures shorter { OnOk result (length tokens.new < length tokens.old) }
{
    let mut built = Map::new(alloc);
    'members: while let Some(name) = tokens.next_key()? {
        let key = String::from_str(alloc, name)?;
        let member = build_json(alloc, tokens, depth)?;
        drop(built.insert(key, member)?);
    }
    Ok(built)
}
