//! Patterns of ECMA-262 in Unicode mode: an engine for a part of their syntax, whose answer is their meaning. A caller
//! hands `EcmaPatterns` in if the keyword `pattern` needs more than literal patterns, and `LenientPatterns` if the
//! patterns may have been written for regular expressions without the flag `u`. The time of a search is linear in the
//! text.
#![tactic(auto)]

mod determinise;
mod dfa;
mod engine;
mod finder;
mod fixed_sequence;
pub mod laws;
mod lenient;
mod links;
mod representatives;
mod required_byte;
mod runs;
mod sequence_making;
mod sequence_pair;
mod states;
mod strict_form;
mod taking;
mod why;

pub use engine::{EcmaMatcher, EcmaPatterns};
pub use lenient::{LenientPatterns, why_refused_leniently};
pub use strkw_regex_grammar::is_valid_regex;
pub use strkw_regex_reader::PatternRefusal;
pub use why::why_refused;
