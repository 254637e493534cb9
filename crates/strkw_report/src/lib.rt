//! What the string keywords of JSON Schema report: the drafts, the places in a document, the errors of an instance
//! and the refusals of a schema object, each with its exact text, and the node that an instance is.
//! Contracts see a place as its JSON Pointer and an error as one record of what it says; all texts are UTF-8.
#![tactic(auto)]

mod display;
mod draft;
mod error;
mod evaluation;
mod failure;
mod fraction;
mod json_text;
pub mod laws;
mod location;
mod node;
mod quoted;
mod refusal;
mod text_node;
mod wording;

pub use draft::{Draft, draft_in, draft_numbered};
pub use error::{ErrorKind, Site, ValidationError, error_at};
pub use evaluation::EvaluationResult;
pub use failure::Failure;
pub use fraction::holds_fraction;
pub use json_text::push_json_string;
pub use location::Location;
pub use node::{Node, char_count};
pub use refusal::{CompileError, CompileErrorKind};
pub use text_node::TextNode;
