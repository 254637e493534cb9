//! Reads the text of a pattern of ECMA-262 as a pattern with counts, or tells why it is not taken.
#![tactic(auto)]

mod builder;
mod outlines;
pub mod reader;
pub mod refusals;
mod refusing;

pub use refusals::PatternRefusal;
