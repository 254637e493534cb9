//! What a caller hands in, for tests: a check, a codec, a builder with its engines, and a node. Each of the
//! first three has a script for its answers, and what it answers is stated. Beside them stands the validator of one
//! entry, by that builder. The tests of the crates below that need code stand here too: each call with a growth
//! refused, and devices that fail.
#![tactic(auto)]

mod doubles;
mod entry;
#[cfg(test)]
mod tests;

pub use doubles::{
    Name, Row, ScriptedBuilder, ScriptedCheck, ScriptedCodec, ScriptedEngine, check_named,
    codec_named, outcome_named,
};
pub use entry::compile_entry;
