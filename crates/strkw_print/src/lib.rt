//! Errors, notes and refusals as lines of text, each ended by a line feed. Each call appends its lines, or a beginning
//! of them where it is out of memory.
#![tactic(auto)]

mod lines;
mod text;

pub use lines::{push_errors, push_notes, push_refusal};
