//! Literal patterns: the patterns of the keyword `pattern` that a plain comparison of texts decides, how a pattern is
//! found to be one, and what compares; the white space of ECMA-262; and the interface of the engines that match all
//! other patterns, which the caller hands in.
#![tactic(auto)]

mod engine;
pub mod laws;
mod literal;
mod matcher;
mod no_patterns;
mod whitespace;

pub use engine::{BuildRefusal, EngineBuilder, EngineFailure, Outcome, RegexEngine};
pub use literal::{PatternOptimization, analyze_pattern};
pub use matcher::LiteralMatcher;
pub use no_patterns::NoPatterns;
pub use whitespace::contains_ecma_whitespace;
