//! The names of kinds of errors.

ghost use Rattle.std.specs.Prelude.{◌≡◌};
ghost use Rattle.strkw_report.specs.KindOf.{kind_of as text_kind_of};
ghost use Rattle.neldrafi_schema.specs.machine.Found.{error_seen, kind_of};
ghost use Rattle.neldrafi_check.specs.Kinds.{error_kind_name, kind_name, limit_name, size_name, text_kind_name};

use neldrafi_schema::{ErrorKind, Limit, Size, ValidationError};
use strkw_report::ErrorKind as TextErrorKind;

// What a limit of numbers is named.
fn limit_name(limit: Limit) -> &'static str
    ensures { result.now ≡ limit_name limit }
{
    match limit {
        Limit::Minimum => "minimum",
        Limit::ExclusiveMinimum => "exclusiveMinimum",
        Limit::Maximum => "maximum",
        Limit::ExclusiveMaximum => "exclusiveMaximum",
    }
}

// What a limit of sizes is named.
fn size_name(size: Size) -> &'static str
    ensures { result.now ≡ size_name size }
{
    match size {
        Size::MinItems => "minItems",
        Size::MaxItems => "maxItems",
        Size::MinProperties => "minProperties",
        Size::MaxProperties => "maxProperties",
    }
}

// What the kind of an error of a string keyword is named.
fn text_kind_name(kind: &TextErrorKind) -> &'static str
    ensures { result.now ≡ text_kind_name (text_kind_of kind.now) }
{
    match kind {
        TextErrorKind::MinLength { .. } => "minLength",
        TextErrorKind::MaxLength { .. } => "maxLength",
        TextErrorKind::Pattern { .. } => "pattern",
        TextErrorKind::BacktrackLimitExceeded { .. } => "backtrackLimitExceeded",
        TextErrorKind::RegexEngineFailure { .. } => "regexEngineFailure",
        TextErrorKind::Format { .. } => "format",
        TextErrorKind::ContentEncoding { .. } => "contentEncoding",
        TextErrorKind::ContentMediaType { .. } => "contentMediaType",
        TextErrorKind::FromUtf8 => "fromUtf8",
    }
}

// What the kind of another error is named.
fn kind_name(kind: &ErrorKind) -> &str
    ensures { result.now ≡ kind_name (kind_of kind.now) }
{
    match kind {
        ErrorKind::FalseSchema => "falseSchema",
        ErrorKind::Type { .. } => "type",
        ErrorKind::Enum { .. } => "enum",
        ErrorKind::Constant { .. } => "const",
        ErrorKind::Limit { limit, .. } => limit_name(*limit),
        ErrorKind::MultipleOf { .. } => "multipleOf",
        ErrorKind::Size { size, .. } => size_name(*size),
        ErrorKind::UniqueItems => "uniqueItems",
        ErrorKind::Required { .. } => "required",
        ErrorKind::AdditionalProperties { .. } => "additionalProperties",
        ErrorKind::AdditionalItems { .. } => "additionalItems",
        ErrorKind::Not { .. } => "not",
        ErrorKind::NoneOf { keyword } => keyword.as_str(),
        ErrorKind::OneOfSeveral => "oneOf",
        ErrorKind::Contains => "contains",
        ErrorKind::UnevaluatedProperties { .. } => "unevaluatedProperties",
        ErrorKind::UnevaluatedItems { .. } => "unevaluatedItems",
    }
}

/// The name of an error's kind: that of its keyword, or `falseSchema`, `fromUtf8`, or how a pattern's engine failed.
pub(crate) fn error_kind_name(error: &ValidationError) -> &str
    ensures { result.now ≡ error_kind_name (error_seen error.now) }
{
    match error {
        ValidationError::Text(failure) => text_kind_name(&failure.error.kind),
        ValidationError::Failed(failure) => kind_name(&failure.kind),
    }
}
