//! What kinds of values there are.

ghost use Rattle.std.specs.Prelude.{◌≡◌, ◌↔◌, IsTrue, if◌then◌else◌};
ghost use Rattle.neldrafi_infer.specs.Kinds.{IsNumeral, Spells, begins_part, has_part, is_null, is_text};
ghost use Rattle.neldrafi_infer.specs.declared.kinds.Kind.TheVariants.{Integer, Number};

use json::is_number;
use strkw_json::json_number;

/// What a value is: one of JSON (RFC 8259, section 3), or a field of CSV, which is a text and may spell another value.
#[derive(Clone, Copy, Debug, PartialEq, Eq)]
pub enum Kind {
    /// Null.
    Null,
    /// `true` or `false`.
    Boolean,
    /// A number that is written without a fraction and without an exponent.
    Integer,
    /// Any other number.
    Number,
    /// A string, or a field that spells none of the others.
    String,
    /// An array.
    Array,
    /// An object.
    Object,
    /// A field that is `true` or `false`.
    BooleanField,
    /// A field that is the text of an integer.
    IntegerField,
    /// A field that is the text of any other number.
    NumberField,
}

impl Kind {
    /// Whether it is null.
    pub(crate) fn is_null(self) -> bool
        ensures { result ≡ is_null self }
    {
        matches!(self, Kind::Null)
    }

    /// Whether the value is a text: a string, or any field.
    pub fn is_text(self) -> bool
        ensures { result ≡ is_text self }
    {
        matches!(
            self,
            Kind::String | Kind::BooleanField | Kind::IntegerField | Kind::NumberField
        )
    }
}

// Whether a text is a number of JSON within the range of an `f64`.
fn is_numeral(text: &str) -> bool
    ensures { IsTrue result ↔ IsNumeral text.now }
{
    is_number(text) && json_number(text).is_some()
}

// Whether a byte begins a fraction or an exponent.
fn begins_part(byte: u8) -> bool
    ensures { result ≡ begins_part byte }
{
    byte == b'.' || byte == b'e' || byte == b'E'
}

// Whether a number has a fraction or an exponent.
fn has_part(text: &str) -> bool
    ensures { result ≡ has_part text.now }
{
    text.as_bytes().iter().any(|byte| begins_part(*byte))
}

/// The kind of a number of JSON, by its text.
pub fn number_kind(text: &str) -> Kind
    ensures { result ≡ (if has_part text.now then Number else Integer) }
{
    if has_part(text) {
        Kind::Number
    } else {
        Kind::Integer
    }
}

/// The kind of a field of CSV, by its text. It spells a number where the text is one of JSON (RFC 8259, section 6)
/// within the range of an `f64`, so that no other 0 is before the digits.
pub fn spelled_kind(text: &str) -> Kind
    ensures { Spells result text.now }
{
    if text == "true" || text == "false" {
        Kind::BooleanField
    } else if !is_numeral(text) {
        Kind::String
    } else if has_part(text) {
        Kind::NumberField
    } else {
        Kind::IntegerField
    }
}
