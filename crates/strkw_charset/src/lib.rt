//! Sets of characters, as the patterns of ECMA-262 have them: ranges, and the properties of Unicode with their names.
//! Characters that some sets do not tell apart share a column.
#![tactic(auto)]

pub mod char_classes;
mod ends;
mod extensions;
pub mod pages;
pub mod properties;
mod same_sets;
pub mod sets;
pub mod tree;
mod values;

pub use properties::Property;
pub use tree::CharSet;
