//! Patterns with counts, as trees: what they match, their mirrors, their size, and the marks of the ways through them.
#![tactic(auto)]

pub mod counted_regex;
pub mod leading_lookahead;
pub mod marks;
mod mirror;
mod one_char_lookahead;
pub mod size;
