//! What may hold of the values of a property.

ghost use Rattle.std.specs.Prelude.{◌≡◌, ◌↔◌, ℕ, IsTrue, MatchBool};
ghost use Rattle.strkw_formats.specs.Formats.{format_name};
ghost use Rattle.neldrafi_infer.specs.declared.hypotheses.Hypothesis.TheVariants.{OfType};
ghost use Rattle.neldrafi_infer.specs.Hypotheses.{Fits, IsFit, IsMisfit, builtin, is_about, is_of_type, seen, type_name};

use crate::kinds::Kind;
use strkw_formats::BuiltinFormat;

/// A type of JSON Schema (Validation 2020-12, section 6.1.1). Null is none of these: a null fits each of them.
#[derive(Clone, Copy, Debug, PartialEq, Eq)]
pub enum ValueType {
    /// `boolean`.
    Boolean,
    /// `integer`.
    Integer,
    /// `number`, which integers are too.
    Number,
    /// `string`.
    String,
    /// `array`.
    Array,
    /// `object`.
    Object,
}

impl ValueType {
    /// Its name in a schema.
    pub fn as_str(self) -> &'static str
        ensures { result.now ≡ type_name self }
    {
        match self {
            ValueType::Boolean => "boolean",
            ValueType::Integer => "integer",
            ValueType::Number => "number",
            ValueType::String => "string",
            ValueType::Array => "array",
            ValueType::Object => "object",
        }
    }

    // Whether a value of a kind is of this type.
    fn has(self, kind: Kind) -> bool
        ensures { result ≡ is_of_type self kind }
    {
        match self {
            ValueType::Boolean => matches!(kind, Kind::Boolean | Kind::BooleanField),
            ValueType::Integer => matches!(kind, Kind::Integer | Kind::IntegerField),
            ValueType::Number => matches!(
                kind,
                Kind::Integer | Kind::Number | Kind::IntegerField | Kind::NumberField
            ),
            ValueType::String => kind.is_text(),
            ValueType::Array => matches!(kind, Kind::Array),
            ValueType::Object => matches!(kind, Kind::Object),
        }
    }
}

/// A format that few texts have by chance.
#[derive(Clone, Copy, Debug, PartialEq, Eq)]
pub enum Format {
    /// `date`.
    Date,
    /// `time`.
    Time,
    /// `date-time`.
    DateTime,
    /// `duration`.
    Duration,
    /// `uuid`.
    Uuid,
    /// `ipv4`.
    Ipv4,
    /// `ipv6`.
    Ipv6,
    /// `uri`.
    Uri,
}

impl Format {
    /// The check of it.
    fn builtin(self) -> BuiltinFormat
        ensures { result ≡ builtin self }
    {
        match self {
            Format::Date => BuiltinFormat::Date,
            Format::Time => BuiltinFormat::Time,
            Format::DateTime => BuiltinFormat::DateTime,
            Format::Duration => BuiltinFormat::Duration,
            Format::Uuid => BuiltinFormat::Uuid,
            Format::Ipv4 => BuiltinFormat::Ipv4,
            Format::Ipv6 => BuiltinFormat::Ipv6,
            Format::Uri => BuiltinFormat::Uri,
        }
    }

    /// Its name in a schema.
    pub fn as_str(self) -> &'static str
        ensures { result.now ≡ format_name (builtin self) }
    {
        self.builtin().as_str()
    }
}

/// What may hold of the values of a property.
#[derive(Clone, Copy, Debug, PartialEq, Eq)]
pub enum Hypothesis {
    /// They are of this type, or null.
    OfType(ValueType),
    /// Those that are texts are of this format.
    OfFormat(Format),
}

impl Hypothesis {
    /// Whether it is that values are of this type.
    pub(crate) fn is_of(self, of_type: ValueType) -> bool
        ensures { IsTrue result ↔ (self ≡ OfType of_type) }
    {
        self == Hypothesis::OfType(of_type)
    }

    /// Whether it says something of values of a kind.
    pub(crate) fn is_about(self, kind: Kind) -> bool
        ensures { result ≡ is_about self kind }
    {
        match self {
            Hypothesis::OfType(_) => !kind.is_null(),
            Hypothesis::OfFormat(_) => kind.is_text(),
        }
    }

    // Whether a value fits.
    fn fits(self, kind: Kind, text: &str) -> bool
        ensures { (line : ℕ) → IsTrue result ↔ Fits self (seen line kind text.now) }
    {
        match self {
            Hypothesis::OfType(of_type) => of_type.has(kind),
            Hypothesis::OfFormat(format) => format.builtin().is_valid(text),
        }
    }

    /// Whether it says something of a value that does not fit.
    pub(crate) fn is_misfit(self, kind: Kind, text: &str) -> bool
        ensures { (line : ℕ) → let s = seen line kind text.now in
            MatchBool result (IsMisfit self s) (IsFit self s) }
    {
        self.is_about(kind) && !self.fits(kind, text)
    }
}
