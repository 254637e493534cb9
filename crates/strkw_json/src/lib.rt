//! JSON (RFC 8259) as `serde_json` reads it: values built from tokens, passed over, or read of a whole text.
#![tactic(auto)]

mod build;
mod check;
mod error;
mod value;

pub use build::{build_json, build_object, json_scalar, json_text};
pub use check::{is_json, json_number, passes_json};
pub use error::JsonError;
pub use value::read_value;
