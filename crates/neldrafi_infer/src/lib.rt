//! What a property is like, by the values that were seen of it: its type, its format, and the few strings that it is.
//! A hypothesis that nearly all values fit is held, and its misfits are told.
#![tactic(auto)]

mod faults;
mod hypotheses;
mod kinds;
pub mod laws;
mod property;
mod schema;
mod shape;
mod suspects;
mod tally;
mod words;

pub use faults::PropertyFault;
pub use hypotheses::{Format, Hypothesis, ValueType};
pub use kinds::{Kind, number_kind, spelled_kind};
pub use property::Property;
pub use schema::schema_text;
pub use shape::{Member, Shape};
pub use suspects::{Suspects, suspects_of};
pub use tally::{Misfit, Tally};
pub use words::Word;

#[cfg(test)]
mod tests;
