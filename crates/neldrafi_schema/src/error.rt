//! The errors of an instance.

ghost use Rattle.std.specs.Prelude.{◌≡◌, ◌++◌, ◌||◌, IfOk, OnOk, codes, false, map, string_bytes};
ghost use Rattle.std.specs.List.{list_any};
ghost use Rattle.serde_json.specs.Data.{number as number_data};
ghost use Rattle.serde_json.specs.Find.{is_float};
ghost use Rattle.serde_json.specs.View.{number_view, view};
ghost use Rattle.serde_json.specs.Written.{compact_text, has_float};
ghost use Rattle.strkw_report.specs.Quoting.{quoted_text};
ghost use Rattle.neldrafi_schema.specs.Errors.{absolute_of, evaluation_path_of, in_quotes, instance_of, instance_path_of, kind_holds_float, listed, message, prints_float, quoted_name, schema_path_of, separator, size_text, text_of, types_text, unexpected_text};

use crate::json_type::JsonType;
use crate::limits::{Limit, Size};
use serde_json::{Number, Value};
use std::alloc::{AllocError, Global};
use strkw_report::{ErrorKind as TextErrorKind, Location, ValidationError as TextError};

/// What an instance failed at.
#[derive(Drop)]
pub enum ErrorKind {
    /// The schema `false`.
    FalseSchema,
    /// It is of none of the types.
    Type { types: Vec<JsonType> },
    /// It is none of the values of `enum`.
    Enum { options: Vec<Value> },
    /// It is another value than that of `const`.
    Constant { expected: Value },
    /// It is a number beyond a limit.
    Limit { limit: Limit, number: Number },
    /// It is a number, and no multiple of this one.
    MultipleOf { number: Number },
    /// It has too few or too many items or properties.
    Size { size: Size, limit: u64 },
    /// Two of its items are the same.
    UniqueItems,
    /// It has no such property.
    Required { property: String },
    /// It has properties of other names than are allowed.
    AdditionalProperties { unexpected: Vec<String> },
    /// It has more items than are allowed.
    AdditionalItems { unexpected: Vec<Value> },
    /// It is valid by the schema of `not`.
    Not { schema: Value },
    /// It is valid by none of the schemas of `anyOf` or `oneOf`.
    NoneOf { keyword: String },
    /// It is valid by more than one of the schemas of `oneOf`.
    OneOfSeveral,
    /// None of its items is valid by the schema of `contains`.
    Contains,
    /// It has properties that no keyword evaluates.
    UnevaluatedProperties { unexpected: Vec<String> },
    /// It has items that no keyword evaluates.
    UnevaluatedItems { unexpected: Vec<Value> },
}

/// An error that no string keyword reports.
#[derive(Drop)]
pub struct Failure {
    /// What the instance failed at.
    pub kind: ErrorKind,
    /// The instance.
    pub instance: Value,
    /// The place of the keyword in the document.
    pub schema_path: Location,
    /// The place of the keyword on the way that evaluation took, through references.
    pub evaluation_path: Location,
    /// The place of the instance.
    pub instance_path: Location,
    /// The absolute location of the keyword, a URI.
    pub absolute: String,
}

/// An error that a string keyword reports.
#[derive(Drop)]
pub struct TextFailure {
    /// The error.
    pub error: TextError,
    /// The absolute location of the keyword, a URI.
    pub absolute: String,
}

/// An error of an instance.
#[derive(Drop)]
pub enum ValidationError {
    /// Of a string keyword.
    Text(TextFailure),
    /// Of any other, or of the schema `false`.
    Failed(Failure),
}

/// Why an instance was not found valid.
#[derive(Drop)]
pub enum Fault {
    /// The first of its errors.
    Invalid(ValidationError),
    /// Out of memory.
    Memory,
}

impl From<AllocError> for Fault {
    ghost use Rattle.std.specs.Prelude.{◌≡◌};
    ghost use Rattle.neldrafi_schema.specs.declared.error.Fault.TheVariants.{Memory};

    ghost from_gives = { λ _ f. f ≡ Memory };

    fn from(_: AllocError) -> Fault {
        Fault::Memory
    }
}

impl ValidationError {
    ghost use Rattle.neldrafi_schema.specs.machine.Found.{error_seen};

    /// The instance.
    pub fn instance(&self) -> &Value
        ensures { view result.now ≡ instance_of (error_seen self.now) }
    {
        match self {
            ValidationError::Text(failure) => &failure.error.instance,
            ValidationError::Failed(failure) => &failure.instance,
        }
    }

    /// The place of the instance.
    pub fn instance_path(&self) -> &Location
        ensures { result.now ≡ instance_path_of (error_seen self.now) }
    {
        match self {
            ValidationError::Text(failure) => &failure.error.instance_path,
            ValidationError::Failed(failure) => &failure.instance_path,
        }
    }

    /// The place of the keyword in the document.
    pub fn schema_path(&self) -> &Location
        ensures { result.now ≡ schema_path_of (error_seen self.now) }
    {
        match self {
            ValidationError::Text(failure) => &failure.error.schema_path,
            ValidationError::Failed(failure) => &failure.schema_path,
        }
    }

    /// The place of the keyword on the way that evaluation took, through references.
    pub fn evaluation_path(&self) -> &Location
        ensures { result.now ≡ evaluation_path_of (error_seen self.now) }
    {
        match self {
            ValidationError::Text(failure) => &failure.error.evaluation_path,
            ValidationError::Failed(failure) => &failure.evaluation_path,
        }
    }

    /// The absolute location of the keyword (Core 2020-12, section 12.3.2): the URI of its resource, and as fragment
    /// the JSON pointer from the root of that resource. A schema that has no URI is known as `json-schema:///`.
    pub fn absolute_location(&self) -> &str
        ensures { result.now ≡ absolute_of (error_seen self.now) }
    {
        match self {
            ValidationError::Text(failure) => failure.absolute.as_str(),
            ValidationError::Failed(failure) => failure.absolute.as_str(),
        }
    }

    /// What the error says, with the instance as compact JSON text. It is refused only where it is out of memory.
    pub fn text(&self, alloc: Global) -> Result<String, AllocError>
        ensures { IfOk result (λ s. prints_float (error_seen self.now) ≡ false
            → string_bytes s ≡ text_of (error_seen self.now)) }
    {
        match self {
            ValidationError::Text(failure) => failure.error.text(alloc),
            ValidationError::Failed(failure) => failure.text(alloc),
        }
    }
}

impl Failure {
    ghost use Rattle.neldrafi_schema.specs.Errors.{found};
    ghost use Rattle.neldrafi_schema.specs.machine.Found.{failure_of};

    fn text(&self, alloc: Global) -> Result<String, AllocError>
        ensures { IfOk result (λ s. prints_float (found (failure_of self.now)) ≡ false
            → string_bytes s ≡ text_of (found (failure_of self.now))) }
    {
        let instance = self.instance.to_string(alloc)?;
        self.kind.message(alloc, instance.as_str())
    }
}

impl ErrorKind {
    ghost use Rattle.neldrafi_schema.specs.machine.Found.{kind_of};

    // What is said of an instance of this text.
    fn message(&self, alloc: Global, instance: &str) -> Result<String, AllocError>
        ensures { IfOk result (λ s. kind_holds_float (kind_of self.now) ≡ false
            → string_bytes s ≡ message (kind_of self.now) instance.now) }
    {
        match self {
            ErrorKind::FalseSchema => behind(alloc, "False schema does not allow ", instance),
            ErrorKind::Type { types } => behind(
                alloc,
                instance,
                types_text(alloc, types)?.as_str(),
            ),
            ErrorKind::Enum { options } => {
                let options = listed(alloc, &texts_of(alloc, options)?, " or ")?;
                between(alloc, instance, " is not one of ", options.as_str())
            }
            ErrorKind::Constant { expected } => {
                behind(alloc, expected.to_string(alloc)?.as_str(), " was expected")
            }
            ErrorKind::Limit { limit, number } => {
                between(
                    alloc,
                    instance,
                    limit.words(),
                    number_text(alloc, *number)?.as_str(),
                )
            }
            ErrorKind::MultipleOf { number } => {
                let number = number_text(alloc, *number)?;
                between(alloc, instance, " is not a multiple of ", number.as_str())
            }
            ErrorKind::Size { size, limit } => {
                behind(alloc, instance, size_text(alloc, *size, *limit)?.as_str())
            }
            ErrorKind::UniqueItems => behind(alloc, instance, " has non-unique elements"),
            ErrorKind::Required { property } => required_text(alloc, property),
            ErrorKind::AdditionalProperties { unexpected } => {
                let unexpected = unexpected_text(alloc, &quoted_names(alloc, unexpected)?)?;
                behind(
                    alloc,
                    "Additional properties are not allowed (",
                    unexpected.as_str(),
                )
            }
            ErrorKind::AdditionalItems { unexpected } => {
                let unexpected = unexpected_text(alloc, &texts_of(alloc, unexpected)?)?;
                behind(
                    alloc,
                    "Additional items are not allowed (",
                    unexpected.as_str(),
                )
            }
            ErrorKind::Not { schema } => {
                between(
                    alloc,
                    schema.to_string(alloc)?.as_str(),
                    " is not allowed for ",
                    instance,
                )
            }
            ErrorKind::NoneOf { keyword } => {
                let keyword = behind(alloc, keyword.as_str(), "' keyword")?;
                let words = " is not valid under any of the schemas listed in the '";
                between(alloc, instance, words, keyword.as_str())
            }
            ErrorKind::OneOfSeveral => behind(
                alloc,
                instance,
                " is valid under more than one of the schemas listed in the 'oneOf' keyword",
            ),
            ErrorKind::Contains => {
                between(
                    alloc,
                    "None of ",
                    instance,
                    " are valid under the given schema",
                )
            }
            ErrorKind::UnevaluatedProperties { unexpected } => {
                let unexpected = unexpected_text(alloc, &quoted_names(alloc, unexpected)?)?;
                behind(
                    alloc,
                    "Unevaluated properties are not allowed (",
                    unexpected.as_str(),
                )
            }
            ErrorKind::UnevaluatedItems { unexpected } => {
                let unexpected = unexpected_text(alloc, &texts_of(alloc, unexpected)?)?;
                behind(
                    alloc,
                    "Unevaluated items are not allowed (",
                    unexpected.as_str(),
                )
            }
        }
    }
}

// A text, and another behind it.
fn behind(alloc: Global, text: &str, other: &str) -> Result<String, AllocError>
    ensures { IfOk result (λ s. string_bytes s ≡ text.now ++ other.now) }
{
    format!(in alloc; "{text}{other}")
}

// Two texts, and one between them.
pub(crate) fn between(
    alloc: Global,
    first: &str,
    text: &str,
    last: &str,
) -> Result<String, AllocError>
    ensures { IfOk result (λ s. string_bytes s ≡ first.now ++ text.now ++ last.now) }
{
    format!(in alloc; "{first}{text}{last}")
}

// A number as compact JSON text.
fn number_text(alloc: Global, number: Number) -> Result<String, AllocError>
    ensures { IfOk result (λ s. is_float (number_view number) ≡ false
        → string_bytes s ≡ compact_text (number_data (number_view number))) }
{
    Value::Number(number).to_string(alloc)
}

// Values as compact JSON texts.
fn texts_of(alloc: Global, values: &[Value]) -> Result<Vec<String>, AllocError>
    ensures { IfOk result (λ texts. list_any has_float (map view values.now) ≡ false
        → map string_bytes texts.items ≡ map compact_text (map view values.now)) }
{
    let mut texts = Vec::new(alloc);
    for value in values {
        texts.push(value.to_string(alloc)?)?;
    }
    Ok(texts)
}

fn quoted_names(alloc: Global, names: &[String]) -> Result<Vec<String>, AllocError>
    ensures { IfOk result (λ texts. map string_bytes texts.items
        ≡ map in_quotes (map string_bytes names.now)) }
{
    let mut texts = Vec::new(alloc);
    for name in names {
        texts.push(format!(in alloc; "'{name}'")?)?;
    }
    Ok(texts)
}

// Texts one behind the other, the last two with these words between them, and others with a comma.
fn listed(alloc: Global, texts: &[String], last: &str) -> Result<String, AllocError>
    ensures { IfOk result (λ s. string_bytes s ≡ listed last.now (map string_bytes texts.now)) }
{
    let mut list = String::new(alloc);
    for (place, text) in texts.iter().enumerate() {
        list.push_str(text.as_str())?;
        list.push_str(separator(last, texts.len() - place - 1))?;
    }
    Ok(list)
}

// What stands between a text and those behind it, by how many there are.
fn separator(last: &str, behind: usize) -> &str
    ensures { result.now ≡ separator last.now behind }
{
    match behind {
        0 => "",
        1 => last,
        _ => ", ",
    }
}

// What is said of names or items that are not allowed.
fn unexpected_text(alloc: Global, texts: &[String]) -> Result<String, AllocError>
    ensures { IfOk result (λ s. string_bytes s ≡ unexpected_text (map string_bytes texts.now)) }
{
    let list = listed(alloc, texts, ", ")?;
    if texts.len() == 1 {
        format!(in alloc; "{list} was unexpected)")
    } else {
        format!(in alloc; "{list} were unexpected)")
    }
}

// What is said of a value with too few or too many items or properties.
fn size_text(alloc: Global, size: Size, limit: u64) -> Result<String, AllocError>
    ensures { IfOk result (λ s. string_bytes s ≡ size_text size limit) }
{
    let compared = match size {
        Size::MinItems | Size::MinProperties => "less",
        Size::MaxItems | Size::MaxProperties => "more",
    };
    let counted = match (size, limit) {
        (Size::MinItems | Size::MaxItems, 1) => "item",
        (Size::MinItems | Size::MaxItems, _) => "items",
        (_, 1) => "property",
        _ => "properties",
    };
    format!(in alloc; " has {compared} than {limit} {counted}")
}

// What is said of an instance that lacks a property.
fn required_text(alloc: Global, property: &str) -> Result<String, AllocError>
    ensures { IfOk result (λ s. string_bytes s
        ≡ quoted_text property.now ++ codes " is a required property") }
{
    let property = Value::try_from_str(alloc, property)?.to_string(alloc)?;
    format!(in alloc; "{property} is a required property")
}

// What is said of an instance that is of none of the types.
fn types_text(alloc: Global, types: &[JsonType]) -> Result<String, AllocError>
    ensures { IfOk result (λ s. string_bytes s ≡ types_text types.now) }
{
    let list = listed(alloc, &quoted_types(alloc, types)?, ", ")?;
    if types.len() == 1 {
        format!(in alloc; " is not of type {list}")
    } else {
        format!(in alloc; " is not of types {list}")
    }
}

fn quoted_types(alloc: Global, types: &[JsonType]) -> Result<Vec<String>, AllocError>
    ensures { IfOk result (λ names. map string_bytes names.items ≡ map quoted_name types.now) }
{
    let mut names = Vec::new(alloc);
    for kind in types {
        let name = kind.as_str();
        names.push(format!(in alloc; "\"{name}\"")?)?;
    }
    Ok(names)
}
