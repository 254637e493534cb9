//! The schema that is proposed for values.

ghost use Rattle.std.specs.Prelude.{◌≡◌, IfOk, List, MatchBool};
ghost use Rattle.std.specs.Str.{IsUtf8};
ghost use Rattle.neldrafi_infer.specs.Hypotheses.{Seen};
ghost use Rattle.neldrafi_infer.specs.Properties.{IsPropertyOf};
ghost use Rattle.neldrafi_infer.specs.Proposals.{IsProposed, has_some};

use crate::hypotheses::{Hypothesis, ValueType};
use crate::property::Property;
use crate::shape::{Member, Shape};
use crate::words::Word;
use json::{Pretty, Token};
use std::alloc::{AllocError, Global};

// The dialect of the schema.
const DIALECT: &str = "https://json-schema.org/draft/2020-12/schema";

// The types, as a schema lists them.
const TYPES: &[ValueType] = &[
    ValueType::Boolean,
    ValueType::Integer,
    ValueType::Number,
    ValueType::String,
    ValueType::Array,
    ValueType::Object,
];

/// The text of the schema that is proposed for the values of a shape, laid out over lines. The only error is out of
/// memory.
pub fn schema_text(alloc: Global, shape: &Shape) -> Result<Vec<u8>, AllocError>
    ensures { IfOk result (λ text. IsUtf8 text.items) }
{
    let mut out = Pretty::new(alloc);
    out.token(Token::BeginObject)?;
    out.token(Token::Key("$schema"))?;
    out.token(Token::String(DIALECT))?;
    put_keywords(shape, &mut out)?;
    out.token(Token::EndObject)?;
    Ok(out.into_inner())
}

impl Property {
    /// Whether a type is proposed: the one that is held, or if none is, each that a value has. Integers are numbers too,
    /// and are proposed only if all numbers are.
    pub fn proposes(&self, of_type: ValueType) -> bool
        ensures { (ss : List Seen) → IsPropertyOf ss self.now
            → MatchBool result (IsProposed ss of_type) (IsProposed ss of_type → ⊥) }
    {
        match self.held_type() {
            Some(tally) => tally.hypothesis.is_of(of_type),
            None => self.has_some(of_type),
        }
    }

    // Whether some of the values are of a type, and no type that is narrower is proposed for them.
    fn has_some(&self, of_type: ValueType) -> bool
        ensures { (ss : List Seen) → IsPropertyOf ss self.now → result ≡ has_some ss of_type }
    {
        let integers = self.type_count(ValueType::Integer);
        let numbers = self.type_count(ValueType::Number);
        match of_type {
            ValueType::Integer => 0 < integers && integers == numbers,
            ValueType::Number => integers < numbers,
            _ => 0 < self.type_count(of_type),
        }
    }

    // Whether strings alone are proposed, beside null.
    fn proposes_strings(&self) -> bool {
        TYPES.iter().all(|of_type| self.proposes(*of_type) == (*of_type == ValueType::String))
    }
}

// Puts the keywords for the values of a shape.
#[cycle(schema)]
fn put_keywords(shape: &Shape, out: &mut Pretty<Global>) -> Result<(), AllocError> {
    put_types(&shape.property, out)?;
    put_texts(&shape.property, out)?;
    if shape.property.proposes(ValueType::Object) {
        put_members(&shape.members, out)?;
        put_required(shape, out)?;
    }
    if shape.property.proposes(ValueType::Array) {
        put_items(shape, out)?;
    }
    Ok(())
}

// Puts `type` (Validation 2020-12, section 6.1.1): one type, or an array of them.
fn put_types(property: &Property, out: &mut Pretty<Global>) -> Result<(), AllocError> {
    let count = TYPES
        .iter()
        .filter(|of_type| property.proposes(**of_type))
        .count();
    if count == 0 && !property.has_null() {
        return Ok(());
    }
    let is_array = 1 < count || (count == 1 && property.has_null());
    out.token(Token::Key("type"))?;
    if is_array {
        out.token(Token::BeginArray)?;
    }
    for of_type in TYPES {
        if property.proposes(*of_type) {
            out.token(Token::String(of_type.as_str()))?;
        }
    }
    if property.has_null() {
        out.token(Token::String("null"))?;
    }
    if is_array {
        out.token(Token::EndArray)?;
    }
    Ok(())
}

// Puts what is held of strings: `format` (Validation 2020-12, section 7), or `enum` (section 6.1.2).
fn put_texts(property: &Property, out: &mut Pretty<Global>) -> Result<(), AllocError> {
    if !property.proposes(ValueType::String) {
        return Ok(());
    }
    if let Some(tally) = property.held_format() {
        if let Hypothesis::OfFormat(format) = tally.hypothesis {
            out.token(Token::Key("format"))?;
            out.token(Token::String(format.as_str()))?;
        }
        return Ok(());
    }
    match property.held_words() {
        Some(words) if property.proposes_strings() => { put_words(words, property.has_null(), out) }
        _ => Ok(()),
    }
}

// Puts `enum` with these words, and null if a value is.
fn put_words(words: &[Word], has_null: bool, out: &mut Pretty<Global>) -> Result<(), AllocError> {
    out.token(Token::Key("enum"))?;
    out.token(Token::BeginArray)?;
    for word in words {
        out.token(Token::String(&word.text))?;
    }
    if has_null {
        out.token(Token::Null)?;
    }
    out.token(Token::EndArray)
}

// Puts `properties` (Core 2020-12, section 10.3.2.1).
#[cycle(schema)]
#[inline(never)]
fn put_members(members: &[Member], out: &mut Pretty<Global>) -> Result<(), AllocError> {
    if members.is_empty() {
        return Ok(());
    }
    out.token(Token::Key("properties"))?;
    out.token(Token::BeginObject)?;
    for member in members {
        out.token(Token::Key(&member.name))?;
        put_schema(&member.shape, out)?;
    }
    out.token(Token::EndObject)
}

// Puts `required` (Validation 2020-12, section 6.5.3): the names of the members that each object has.
fn put_required(shape: &Shape, out: &mut Pretty<Global>) -> Result<(), AllocError> {
    let count = shape.object_count();
    if !shape.members.iter().any(|member| member.is_in_all(count)) {
        return Ok(());
    }
    out.token(Token::Key("required"))?;
    out.token(Token::BeginArray)?;
    for member in &shape.members {
        if member.is_in_all(count) {
            out.token(Token::String(&member.name))?;
        }
    }
    out.token(Token::EndArray)
}

// Puts `items` (Core 2020-12, section 10.3.1.2), if an array has any.
#[cycle(schema)]
#[inline(never)]
fn put_items(shape: &Shape, out: &mut Pretty<Global>) -> Result<(), AllocError> {
    match &shape.items {
        Some(items) => {
            out.token(Token::Key("items"))?;
            put_schema(items, out)
        }
        None => Ok(()),
    }
}

// Puts a schema for the values of a shape.
#[cycle(schema)]
#[inline(never)]
fn put_schema(shape: &Shape, out: &mut Pretty<Global>) -> Result<(), AllocError> {
    out.token(Token::BeginObject)?;
    put_keywords(shape, out)?;
    out.token(Token::EndObject)
}
