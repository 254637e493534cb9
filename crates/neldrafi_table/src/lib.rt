//! CSV files as tables: each record is a JSON object of its columns.
#![tactic(auto)]

mod columns;
mod faults;
mod fields;
mod forms;
mod header;
mod keywords;
mod rows;
mod table;

pub use columns::{Column, FieldTypes, columns_of, missing_column, unexpected_column};
pub use faults::{RowFault, TableFault};
pub use forms::{EmptyField, Header, TableForm};
pub use rows::{Row, Rows};
pub use table::{Table, open_table};

#[cfg(test)]
mod tests;
