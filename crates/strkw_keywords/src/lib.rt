//! The string keywords of JSON Schema (drafts 4, 6, 7, 2019-09 and 2020-12): `format`, `minLength`, `maxLength`,
//! `pattern` and the content keywords. Each keyword's compile function makes one validator of its entry, or refuses it;
//! a validator reports the errors and the annotation of a text, by built-in checks or by those that the caller hands
//! in.
#![tactic(auto)]

mod by_keyword;
mod checks;
mod compile;
pub mod content;
mod content_rule;
mod findings;
pub mod format;
mod keyed;
mod keyword;
pub mod laws;
mod lengths;
mod options;
mod parts;
pub mod pattern;
mod test;
mod validate;
mod validator;
mod values;

/// The entry `maxLength`.
pub mod max_length {
    pub use crate::by_keyword::compile_max_length as compile;
    pub use crate::lengths::MaxLengthValidator;
}

/// The entry `minLength`.
pub mod min_length {
    pub use crate::by_keyword::compile_min_length as compile;
    pub use crate::lengths::{LengthRangeValidator, MinLengthValidator};
}

pub use checks::{
    Checks, ContentCodec, Format, MediaTypeCheck, NamedCodec, NamedFormat, NamedMediaType,
};
pub use compile::{compile_among, compile_entry, member};
pub use content::{
    ContentEncodingAnnotationValidator, ContentEncodingValidator,
    ContentMediaTypeAndEncodingValidator, ContentMediaTypeAnnotationValidator,
    ContentMediaTypeValidator, ContentSchemaAnnotationValidator, Encoded, EncodedMediaType,
    OfMediaType, Untested, compile_moved_schema, take_content_schema,
};
pub use content_rule::ContentRule;
pub use findings::{Findings, Found};
pub use format::{
    AnnotationOnlyFormatValidator, CustomFormatValidator, FormatValidator, OfBuiltin, OfRow,
};
pub use keyed::Keyed;
pub use keyword::Keyword;
pub use lengths::{
    AtLeast, AtMost, Between, LengthRangeValidator, MaxLengthValidator, MinLengthValidator,
};
pub use options::{Context, Options};
pub use parts::{Note, Noted, Origin, Parts, RowRef};
pub use pattern::{
    AlternationPatternValidator, ExactPatternValidator, Kind, Literal, Matching,
    NoWhitespacePatternValidator, OfAlternation, OfExact, OfNoWhitespace, OfPrefix,
    PatternValidator, PrefixPatternValidator,
};
pub use strkw_formats::{BuiltinFormat, builtin_format};
pub use test::Test;
pub use validate::{Fault, Uses, Validate};
pub use validator::Validator;
pub use values::Values;
