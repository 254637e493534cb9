//! URI references, resolved against a base URI (RFC 3986, section 5).
#![tactic(auto)]

mod components;
mod paths;
mod resolution;
mod target;

pub use components::split_fragment;
pub use resolution::resolved;

#[cfg(test)]
mod tests;
