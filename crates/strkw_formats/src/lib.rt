//! The built-in formats: sixteen grammars by name, draft by draft. A format tells its name, whether a text is of it, a
//! text that is, and the lengths of its texts where those have ends; `builtin_format` gives that of a name in a draft.
//! What is told of each stands in `specs/Formats.antt`, laws about the table in [`laws`].
#![tactic(auto)]

mod builtin;
pub mod laws;

pub use builtin::{BuiltinFormat, builtin_format};
