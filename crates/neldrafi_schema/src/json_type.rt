//! The types of JSON values, as `type` names them.

ghost use Rattle.std.specs.Prelude.{◌≡◌};
ghost use Rattle.serde_json.specs.View.{view};
ghost use Rattle.neldrafi_schema.specs.Types.{counts_as, is_of_type, type_name, type_named};

use crate::numbers::is_whole;
use serde_json::Value;

/// A type of JSON values, as `type` names it (Validation, section 6.1.1).
#[derive(Debug, Clone, Copy, PartialEq, Eq)]
pub enum JsonType {
    /// `null`.
    Null,
    /// `boolean`.
    Boolean,
    /// `integer`: the numbers with no fractional part, `1.0` among them.
    Integer,
    /// `number`.
    Number,
    /// `string`.
    String,
    /// `array`.
    Array,
    /// `object`.
    Object,
}

impl JsonType {
    /// The type of this name.
    pub fn by_name(name: &str) -> Option<JsonType>
        ensures { result ≡ type_named name.now }
    {
        if name == "null" {
            Some(JsonType::Null)
        } else if name == "boolean" {
            Some(JsonType::Boolean)
        } else if name == "integer" {
            Some(JsonType::Integer)
        } else if name == "number" {
            Some(JsonType::Number)
        } else if name == "string" {
            Some(JsonType::String)
        } else if name == "array" {
            Some(JsonType::Array)
        } else if name == "object" {
            Some(JsonType::Object)
        } else {
            None
        }
    }

    /// Its name.
    pub fn as_str(self) -> &'static str
        ensures { result.now ≡ type_name self }
    {
        match self {
            JsonType::Null => "null",
            JsonType::Boolean => "boolean",
            JsonType::Integer => "integer",
            JsonType::Number => "number",
            JsonType::String => "string",
            JsonType::Array => "array",
            JsonType::Object => "object",
        }
    }

    /// Whether a value is of the type.
    pub fn admits(self, value: &Value) -> bool
        ensures { result ≡ is_of_type self (view value.now) }
    {
        match self {
            JsonType::Null => value.is_null(),
            JsonType::Boolean => value.is_boolean(),
            JsonType::Integer => match value.as_number() {
                Some(number) => is_whole(*number),
                None => false,
            },
            JsonType::Number => value.is_number(),
            JsonType::String => value.is_string(),
            JsonType::Array => value.is_array(),
            JsonType::Object => value.is_object(),
        }
    }

    // The same, but that no float is an integer, unless they count.
    pub(crate) fn counts(self, floats: bool, value: &Value) -> bool
        ensures { result ≡ counts_as floats self (view value.now) }
    {
        let is_float = match value.as_number() {
            Some(number) => number.is_f64(),
            None => false,
        };
        self.admits(value) && (floats || !(self == JsonType::Integer && is_float))
    }
}
