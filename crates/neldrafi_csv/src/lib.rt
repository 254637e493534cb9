//! Records of CSV texts (RFC 4180), one by one. A record with a misplaced quote is told from the others, and the records
//! behind it are read.
#![tactic(auto)]

mod buffer;
mod delimiter;
mod faults;
mod fields;
mod input;
mod place;
mod reader;
mod runs;
mod scan;

pub use delimiter::Delimiter;
pub use faults::ReadFault;
pub use reader::{Record, RecordReader};

#[cfg(test)]
mod tests;
