//! Searches for patterns: the program of a pattern, its walk over a text, and passes over it for look-arounds that look
//! far.
#![tactic(auto)]

pub mod along;
mod bits;
pub mod code;
pub mod finding;
pub mod oracle_passes;
pub mod oracle_runner;
pub mod oracle_runners;
pub mod passes;
pub mod program;
mod stack;
pub mod walk;
mod writing;
