ghost use Rattle.std.specs.Prelude.{◌≡◌};
ghost use Rattle.serde_json.specs.View.{view, items_view, members_view};
ghost use Rattle.serde_json.specs.Written.{has_float, items_have_float, members_have_float};

use serde_json::{Map, Value};

/// Whether the value holds, at any depth, a number that is kept neither as a `u64` nor as an `i64`. It takes no memory.
#[cycle(fraction)]
pub fn holds_fraction(value: &Value) -> bool
    ensures { result ≡ has_float (view value.now) }
{
    match value {
        Value::Null | Value::Bool(_) | Value::String(_) => false,
        Value::Number(number) => number.is_f64(),
        Value::Array(items) => item_holds_fraction(items),
        Value::Object(members) => member_holds_fraction(members),
    }
}

#[cycle(fraction)]
fn item_holds_fraction(items: &Vec<Value>) -> bool
    ensures { result ≡ items_have_float (items_view items.now.items) }
{
    for item in items {
        if holds_fraction(item) {
            return true;
        }
    }
    false
}

#[cycle(fraction)]
fn member_holds_fraction(members: &Map<String, Value>) -> bool
    ensures { result ≡ members_have_float (members_view members.now.entries) }
{
    for (_key, member) in members.iter() {
        if holds_fraction(member) {
            return true;
        }
    }
    false
}
