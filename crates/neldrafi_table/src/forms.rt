//! How the text of a table is read.

use neldrafi_csv::Delimiter;

/// What names the columns.
#[derive(Clone, Copy, Debug, PartialEq, Eq)]
pub enum Header {
    /// The first record: its fields are the names, and the records behind it are data.
    First,
    /// No record: the names are the numbers of the columns, `1`, `2`, `3` and so on, as many as the first record has
    /// fields, and each record is data.
    Absent,
}

/// What an empty field is, if its column does not admit null.
#[derive(Clone, Copy, Debug, PartialEq, Eq)]
pub enum EmptyField {
    /// No member: the object lacks the property.
    Absent,
    /// The empty string.
    Text,
}

/// How the text of a table is read.
#[derive(Clone, Copy, Debug, PartialEq, Eq)]
pub struct TableForm {
    /// The character that separates fields.
    pub delimiter: Delimiter,
    /// What names the columns.
    pub header: Header,
    /// What an empty field is.
    pub empty: EmptyField,
}
