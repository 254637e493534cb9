//! The grammar of patterns of ECMA-262 in Unicode mode: whether a text is one, and the tokens, escapes and names that
//! stand in it.
#![tactic(auto)]

pub mod codes;
pub mod lexemes;
pub mod lexer;
pub mod names;
pub mod null_escape;
mod recogniser;
pub mod regex;
pub mod tokens;

pub use regex::is_valid_regex;
