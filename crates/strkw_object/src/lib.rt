//! The string keywords of one JSON Schema object (`contentMediaType`, `contentEncoding`, `contentSchema`, `format`,
//! `minLength`, `maxLength`, `pattern`), compiled and asked for the errors and the notes of an instance.
#![tactic(auto)]

mod compile;
pub mod laws;
mod strings;
mod values;

pub use compile::{compile_owned, compile_strings, compile_values};
pub use strings::{ObjectEvaluation, StringKeywords};
pub use strkw_keywords::Note;
pub use values::OwnedValues;
