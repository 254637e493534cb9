//! The meta-schemas of JSON Schema, as documents to which references lead and by which schemas are validated.
#![tactic(auto)]

mod documents;
mod draft_2019_09;
mod draft_2020_12;
mod draft_4;
mod draft_6;
mod draft_7;
#[cfg(test)]
mod tests;

pub use documents::{MetaSchema, meta_schemas};
