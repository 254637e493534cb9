//! Objects of JSON, of what stands at which name.

ghost use Rattle.std.specs.Prelude.{◌≡◌, ◌++◌, ℕ, List, false, IfOk, OnOk, string_bytes};
ghost use Rattle.serde_json.specs.Data.{no_members};
ghost use Rattle.serde_json.specs.View.{view, members_view};
ghost use Rattle.serde_json.specs.Written.{has_float};
ghost use Rattle.neldrafi_check.specs.Forms.{line_of};
ghost use Rattle.neldrafi_check.specs.Objects.{array_of_one, data_of, object_of, with_members};

use serde_json::{Map, Value, put};
use std::alloc::{AllocError, Global};

/// The value of a member.
#[derive(Clone, Copy)]
pub enum Datum<'a> {
    /// A text.
    Text(&'a str),
    /// A number.
    Number(u64),
    /// True or false.
    Flag(bool),
    /// A copy of a value.
    Value(&'a Value),
    /// An array of a copy of a value alone.
    Single(&'a Value),
}

// An array of a copy of a value alone.
fn single(alloc: Global, value: &Value) -> Result<Value, AllocError>
    ensures { IfOk result (λ array. view array ≡ array_of_one (view value.now)) }
{
    let mut items = Vec::new(alloc);
    items.push(value.clone()?)?;
    Ok(Value::Array(items))
}

impl Datum<'_> {
    // The value that it is.
    fn value(&self, alloc: Global) -> Result<Value, AllocError>
        ensures { IfOk result (λ value. view value ≡ data_of self.now) }
    {
        match self {
            Datum::Text(text) => Value::try_from_str(alloc, text),
            Datum::Number(number) => Ok(Value::from(*number)),
            Datum::Flag(flag) => Ok(Value::from(*flag)),
            Datum::Value(value) => (*value).clone(),
            Datum::Single(value) => single(alloc, value),
        }
    }
}

// Puts members into an object, each in place of one of its name.
fn put_all(
    alloc: Global,
    members: &[(&str, Datum<'_>)],
    object: &mut Map<String, Value>,
) -> Result<(), AllocError>
    ensures { OnOk result (members_view object.new.entries
        ≡ with_members members.now (members_view object.old.entries)) }
{
    for member in members {
        let (name, datum) = (member.0, member.1);
        let value = datum.value(alloc)?;
        put(object, alloc, name, value)?;
    }
    Ok(())
}

// These members by their names.
fn members_of(
    alloc: Global,
    members: &[(&str, Datum<'_>)],
) -> Result<Map<String, Value>, AllocError>
    ensures { IfOk result (λ object.
        members_view object.entries ≡ with_members members.now no_members) }
{
    let mut object = Map::new(alloc);
    put_all(alloc, members, &mut object)?;
    Ok(object)
}

/// An object of these members, in the order of their names. The only error is out of memory.
pub fn object(alloc: Global, members: &[(&str, Datum<'_>)]) -> Result<Value, AllocError>
    ensures { IfOk result (λ value. view value ≡ object_of members.now) }
{
    Ok(Value::Object(members_of(alloc, members)?))
}

/// Appends a value on a line. The only error is out of memory; a beginning of the line may then have been appended.
pub fn push_line(alloc: Global, value: &Value, out: &mut String) -> Result<(), AllocError>
    ensures { OnOk result ((made : List ℕ) × (string_bytes out.new ≡ string_bytes out.old ++ made)
        × (has_float (view value.now) ≡ false → made ≡ line_of (view value.now))) }
{
    let text = value.to_string(alloc)?;
    out.push_str(&text)?;
    out.push_str("\n")
}

/// Appends an object of these members on a line, in the order of their names. The only error is out of memory; a
/// beginning of the line may then have been appended.
pub fn push_object(
    alloc: Global,
    members: &[(&str, Datum<'_>)],
    out: &mut String,
) -> Result<(), AllocError>
    ensures { OnOk result (has_float (object_of members.now) ≡ false
        → string_bytes out.new ≡ string_bytes out.old ++ line_of (object_of members.now)) }
{
    push_line(alloc, &object(alloc, members)?, out)
}
