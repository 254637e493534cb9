//! Keys of values: values that are the same have the same key.

ghost use Rattle.std.specs.Prelude.{◌≡◌, ◌∷◌, [], ◌++◌, Bool, IfOk, OnOk};
ghost use Rattle.std.specs.Int.{w64, w128, to_be_bytes};
ghost use Rattle.std.specs.Float.{binary64, float_key};
ghost use Rattle.serde_json.specs.View.{items_view, members_view, number_view, view};
ghost use Rattle.neldrafi_schema.specs.machine.Keys.{float_bytes, is_natural, is_negative_whole, items_key, key_of, members_key, number_key, sign_of, text_key, truth_of, whole_bytes};

use crate::numbers::{float_of, is_between, is_whole_float};
use serde_json::{Map, Number, Value};
use std::alloc::{AllocError, Global};
use std::num::{saturating_f64_to_i64, saturating_f64_to_u64};

/// The key of a value. The only error is out of memory.
pub(crate) fn key_of(alloc: Global, value: &Value) -> Result<Vec<u8>, AllocError>
    ensures { IfOk result (λ key. key.items ≡ key_of (view value.now)) }
{
    let mut key = Vec::new(alloc);
    push_key(value, &mut key)?;
    Ok(key)
}

#[cycle(push_key)]
fn push_key(value: &Value, key: &mut Vec<u8>) -> Result<(), AllocError>
    ensures { OnOk result (key.new.items ≡ key.old.items ++ key_of (view value.now)) }
{
    match value {
        Value::Null => push_byte(0, key),
        Value::Bool(truth) => push_byte(truth_of(*truth), key),
        Value::Number(number) => push_number(*number, key),
        Value::String(text) => push_text(text.as_str(), key),
        Value::Array(items) => push_items(items, key),
        Value::Object(members) => push_members(members, key),
    }
}

#[cycle(push_key)]
fn push_items(items: &[Value], key: &mut Vec<u8>) -> Result<(), AllocError>
    ensures { OnOk result
        (key.new.items ≡ key.old.items ++ 7 ∷ items_key (items_view items.now) ++ 255 ∷ []) }
{
    push_byte(7, key)?;
    for item in items {
        push_key(item, key)?;
    }
    push_byte(255, key)
}

#[cycle(push_key)]
fn push_members(members: &Map<String, Value>, key: &mut Vec<u8>) -> Result<(), AllocError>
    ensures { OnOk result (key.new.items
        ≡ key.old.items ++ 8 ∷ members_key (members_view members.now.entries) ++ 255 ∷ []) }
{
    push_byte(8, key)?;
    for (name, value) in members.iter() {
        push_text(name.as_str(), key)?;
        push_key(value, key)?;
    }
    push_byte(255, key)
}

// No text has the byte 255 with which its key ends.
fn push_text(text: &str, key: &mut Vec<u8>) -> Result<(), AllocError>
    ensures { OnOk result (key.new.items ≡ key.old.items ++ text_key text.now) }
{
    push_byte(6, key)?;
    key.extend_from_slice(text.as_bytes())?;
    push_byte(255, key)
}

fn push_number(number: Number, key: &mut Vec<u8>) -> Result<(), AllocError>
    ensures { OnOk result (key.new.items ≡ key.old.items ++ number_key (number_view number)) }
{
    match number.as_i128() {
        Some(whole) => push_whole(whole < 0, whole.unsigned_abs(), key),
        None => push_float(float_of(number), key),
    }
}

fn push_whole(is_negative: bool, size: u128, key: &mut Vec<u8>) -> Result<(), AllocError>
    ensures { OnOk result (key.new.items ≡ key.old.items ++ whole_bytes is_negative size) }
{
    push_byte(sign_of(is_negative), key)?;
    key.extend_from_slice(&size.to_be_bytes())
}

// A whole number that is kept as a float has the key of the whole number.
fn push_float(x: f64, key: &mut Vec<u8>) -> Result<(), AllocError>
    ensures { OnOk result (key.new.items ≡ key.old.items ++ float_bytes x) }
{
    if is_natural(x) {
        push_whole(false, u128::from(saturating_f64_to_u64(x)), key)
    } else if is_negative_whole(x) {
        push_whole(
            true,
            u128::from(saturating_f64_to_i64(x).unsigned_abs()),
            key,
        )
    } else {
        push_byte(5, key)?;
        key.extend_from_slice(&bits_of(x).to_be_bytes())
    }
}

// Floats that compare equal have the same bits here, 0 and -0 among them.
fn bits_of(x: f64) -> u64
    ensures { result ≡ float_key binary64 x }
{
    if x.is_nan() {
        9223372036854775808
    } else if x.to_bits() == 9223372036854775808 {
        0
    } else {
        x.to_bits()
    }
}

fn is_natural(x: f64) -> bool
    ensures { result ≡ is_natural x }
{
    is_whole_float(x) && is_between(0.0, x, 18446744073709551616.0)
}

fn is_negative_whole(x: f64) -> bool
    ensures { result ≡ is_negative_whole x }
{
    is_whole_float(x) && is_between(-9223372036854775808.0, x, 0.0)
}

fn sign_of(is_negative: bool) -> u8
    ensures { result ≡ sign_of is_negative }
{
    if is_negative { 3 } else { 4 }
}

fn truth_of(truth: bool) -> u8
    ensures { result ≡ truth_of truth }
{
    if truth { 2 } else { 1 }
}

fn push_byte(byte: u8, key: &mut Vec<u8>) -> Result<(), AllocError>
    ensures { OnOk result (key.new.items ≡ key.old.items ++ byte ∷ []) }
{
    key.push(byte)?;
    Ok(())
}
