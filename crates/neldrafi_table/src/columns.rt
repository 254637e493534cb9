//! The columns of a table, by a schema.

ghost use Rattle.std.specs.Prelude.{◌≡◌, IfOk, false, option_map};
ghost use Rattle.csv.specs.Records.{fields_of};
ghost use Rattle.std.specs.Option.{option_map_or};
ghost use Rattle.serde_json.specs.View.{items_view, view};
ghost use Rattle.neldrafi_table.specs.Columns.{column_type, column_types, columns_by, columns_seen, first_missing, has_property, has_string, is_among, is_closed, is_false, missing_column, names_type, no_types, types_named, unexpected_column, unmet};

use crate::keywords::keyword;
use csv::StringRecord;
use serde_json::Value;
use std::alloc::{AllocError, Global};

/// Which values the `type` of a column names beside strings.
#[derive(Clone, Copy, Debug, PartialEq, Eq)]
pub struct FieldTypes {
    /// Null.
    pub null: bool,
    /// The Booleans.
    pub boolean: bool,
    /// Numbers, or integers alone.
    pub number: bool,
}

impl FieldTypes {
    // None of them.
    fn none() -> FieldTypes
        ensures { result ≡ no_types }
    {
        FieldTypes {
            null: false,
            boolean: false,
            number: false,
        }
    }

    // Those that the value of `type` names.
    fn named_by(value: &Value) -> FieldTypes
        ensures { result ≡ types_named (view value.now) }
    {
        FieldTypes {
            null: names_type(value, "null"),
            boolean: names_type(value, "boolean"),
            number: names_type(value, "number") || names_type(value, "integer"),
        }
    }

    // Those of the column of this name.
    fn of_column(document: &Value, name: &str) -> FieldTypes
        ensures { result ≡ column_types (view document.now) name.now }
    {
        match type_of_column(document, name) {
            Some(value) => FieldTypes::named_by(value),
            None => FieldTypes::none(),
        }
    }
}

// The value of `type` of the column of this name.
fn type_of_column<'a>(document: &'a Value, name: &str) -> Option<&'a Value>
    ensures { option_map (λ v. view v.now) result ≡ column_type (view document.now) name.now }
{
    let schema = keyword(document, document, "properties")?.get(name)?;
    keyword(document, schema, "type")
}

// Whether the value of `type`, a name or an array of names, names this one.
fn names_type(value: &Value, name: &str) -> bool
    ensures { result ≡ names_type name.now (view value.now) }
{
    match value {
        Value::String(one) => one.as_str() == name,
        Value::Array(several) => has_string(several, name),
        _ => false,
    }
}

// Whether one of these values is this string.
fn has_string(values: &[Value], name: &str) -> bool
    ensures { result ≡ has_string name.now (items_view values.now) }
{
    for value in values {
        if value.as_str() == Some(name) {
            return true;
        }
    }
    false
}

/// A column of a table.
#[derive(Drop)]
pub struct Column {
    /// Its name, which is that of a property.
    pub name: String,
    /// Which values its fields may be beside strings.
    pub types: FieldTypes,
}

/// The columns of these names, by the schema that the document is. The `type` of a column is that of its schema in
/// `properties`. References within the document are followed to either. The only error is out of memory.
pub fn columns_of(
    alloc: Global,
    document: &Value,
    names: &StringRecord,
) -> Result<Vec<Column>, AllocError>
    ensures { IfOk result (λ columns. columns_seen columns.items
        ≡ columns_by (view document.now) (fields_of names.now)) }
{
    let mut columns = Vec::new(alloc);
    for at in 0..names.len() {
        let name = names.get(at).unwrap_or("");
        let types = FieldTypes::of_column(document, name);
        let name = String::from_str(alloc, name)?;
        columns.push(Column { name, types })?;
    }
    Ok(columns)
}

/// The first name that `required` of the schema lists (Validation 2020-12, section 6.5.3) and no column has.
pub fn missing_column<'a>(document: &'a Value, columns: &[Column]) -> Option<&'a str>
    ensures { option_map (λ s. s.now) result
        ≡ missing_column (view document.now) (columns_seen columns.now) }
{
    first_missing(
        keyword(document, document, "required")?.as_array()?,
        columns,
    )
}

// The first of these values that is a string that no column has as its name.
fn first_missing<'a>(values: &'a [Value], columns: &[Column]) -> Option<&'a str>
    ensures { option_map (λ s. s.now) result
        ≡ first_missing (columns_seen columns.now) (items_view values.now) }
{
    for value in values {
        let missing = unmet(columns, value.as_str());
        if missing.is_some() {
            return missing;
        }
    }
    None
}

// A name, if no column has it.
fn unmet<'a>(columns: &[Column], name: Option<&'a str>) -> Option<&'a str>
    ensures { option_map (λ s. s.now) result
        ≡ unmet (columns_seen columns.now) (option_map (λ s. s.now) name.entry) }
{
    match name {
        Some(name) if !is_among(columns, name) => Some(name),
        _ => None,
    }
}

// Whether one of the columns has this name.
fn is_among(columns: &[Column], name: &str) -> bool
    ensures { result ≡ is_among (columns_seen columns.now) name.now }
{
    for column in columns {
        if column.name.as_str() == name {
            return true;
        }
    }
    false
}

/// The name of the first column that the schema does not allow: it has no property of that name,
/// `additionalProperties` is false, and there are no `patternProperties` (Core 2020-12, section 10.3.2.3). `None` if
/// the schema has a reference.
pub fn unexpected_column<'a>(document: &Value, columns: &'a [Column]) -> Option<&'a str>
    ensures { option_map (λ s. s.now) result
        ≡ unexpected_column (view document.now) (columns_seen columns.now) }
{
    if !is_closed(document) {
        return None;
    }
    for column in columns {
        if !has_property(document, &column.name) {
            return Some(&column.name);
        }
    }
    None
}

// Whether a schema has a property of this name.
fn has_property(schema: &Value, name: &str) -> bool
    ensures { result ≡ has_property (view schema.now) name.now }
{
    match schema.get("properties") {
        Some(properties) => properties.get(name).is_some(),
        None => false,
    }
}

// Whether a schema has no properties but those that it names.
fn is_closed(schema: &Value) -> bool
    ensures { result ≡ is_closed (view schema.now) }
{
    let has_others = schema.get("$ref").is_some() || schema.get("patternProperties").is_some();
    !has_others && is_false(schema.get("additionalProperties"))
}

// Whether a value is there, and is false.
fn is_false(value: Option<&Value>) -> bool
    ensures { result ≡ option_map_or is_false (option_map (λ v. view v.now) value.entry) false }
{
    match value {
        Some(Value::Bool(is_true)) => !*is_true,
        _ => false,
    }
}
