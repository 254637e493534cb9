//! The tests of whole schemas.
#![tactic(auto)]

#[cfg(test)]
mod tests;
