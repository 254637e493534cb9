//! When values are the same.

ghost use Rattle.std.specs.Prelude.{◌≡◌};
ghost use Rattle.serde_json.specs.View.{items_view, members_view, view};
ghost use Rattle.neldrafi_schema.specs.Equality.{are_distinct, has_same, same, same_items, same_members};

use crate::numbers::same_number;
use serde_json::{Map, Value};

/// Whether two values are the same.
#[cycle(same)]
pub(crate) fn same(a: &Value, b: &Value) -> bool
    ensures { result ≡ same (view a.now) (view b.now) }
{
    match (a, b) {
        (Value::Null, Value::Null) => true,
        (Value::Bool(a), Value::Bool(b)) => *a == *b,
        (Value::Number(a), Value::Number(b)) => same_number(*a, *b),
        (Value::String(a), Value::String(b)) => a.as_str() == b.as_str(),
        (Value::Array(a), Value::Array(b)) => same_items(a, b),
        (Value::Object(a), Value::Object(b)) => same_members(a, b),
        _ => false,
    }
}

#[cycle(same)]
#[tactic(auto, using(crate::proofs::Same::items_apart))]
fn same_items(a: &[Value], b: &[Value]) -> bool
    ensures { result ≡ same_items (items_view a.now) (items_view b.now) }
{
    if a.len() != b.len() {
        return false;
    }
    for (x, y) in a.iter().zip(b) {
        if !same(x, y) {
            return false;
        }
    }
    true
}

#[cycle(same)]
#[tactic(auto, using(crate::proofs::Same::members_apart))]
fn same_members(a: &Map<String, Value>, b: &Map<String, Value>) -> bool
    ensures { result ≡ same_members (members_view a.now.entries) (members_view b.now.entries) }
{
    if a.len() != b.len() {
        return false;
    }
    for ((name, x), (other, y)) in a.iter().zip(b.iter()) {
        if name.as_str() != other.as_str() || !same(x, y) {
            return false;
        }
    }
    true
}

/// Whether no two items are the same.
pub(crate) fn are_distinct_in_pairs(items: &[Value]) -> bool
    ensures { result ≡ are_distinct (items_view items.now) }
{
    for (place, item) in items.iter().enumerate() {
        if has_same(item, &items[place + 1..]) {
            return false;
        }
    }
    true
}

pub(crate) fn has_same(value: &Value, items: &[Value]) -> bool
    ensures { result ≡ has_same (view value.now) (items_view items.now) }
{
    for item in items {
        if same(value, item) {
            return true;
        }
    }
    false
}
