//! The records of a table, each read as a JSON object.

ghost use Rattle.std.specs.Prelude.{◌≡◌, ℕ, List, IfErr, IfOk, IfSome, None, OnOk, Option, Some, length, option_map};
ghost use Rattle.csv.specs.Records.{AllText};
ghost use Rattle.neldrafi_csv.specs.declared.place.Place.{Place};
ghost use Rattle.neldrafi_csv.specs.Reading.{Explains, values_of};
ghost use Rattle.neldrafi_csv.specs.Records.{HasNoRecord, IsMisplaced, TakesRecord, texts_of};
ghost use Rattle.serde_json.specs.View.{members_view, view};
ghost use Rattle.neldrafi_table.specs.Columns.{columns_seen};
ghost use Rattle.neldrafi_table.specs.Objects.{IsFirstNotUtf8, IsRead, record_object, with_field, with_fields};
ghost use Rattle.neldrafi_table.specs.Reading.{HasLeft, IsWhyUnread, TakesNext, delimiter_in, empty_in};

use crate::columns::Column;
use crate::faults::{RowFault, TableFault};
use crate::fields::field_value;
use crate::forms::EmptyField;
use json::Scratch;
use neldrafi_csv::{ReadFault, Record, RecordReader};
use serde_json::{Map, Value, put};
use std::alloc::{AllocError, Global};
use std::io::Read;
use std::str;

/// A record of data.
#[derive(Drop)]
pub struct Row {
    /// The line on which it begins, from 1.
    pub line: u64,
    /// The object of its fields, or why it is none.
    pub object: Result<Value, RowFault>,
}

/// The records of data that a table has left.
#[derive(Drop)]
pub struct Rows<R> {
    pub(crate) reader: RecordReader<R>,
    // The next record, or that there is none, if that was read ahead.
    pub(crate) ahead: Option<Option<Record>>,
    pub(crate) empty: EmptyField,
    pub(crate) scratch: Scratch,
}

impl<R: Read> Rows<R> {
    /// The records that a reader has left.
    pub(crate) fn new(alloc: Global, reader: RecordReader<R>, empty: EmptyField) -> Rows<R>
        ensures reader { result.reader ≡ reader }
        ensures ahead { result.ahead ≡ None }
        ensures empty { result.empty ≡ empty }
    {
        Rows {
            reader,
            ahead: None,
            empty,
            scratch: Scratch::new(alloc),
        }
    }

    /// Reads the next record ahead, if none was, or returns `None` if there is no more. It stays the next one.
    pub(crate) fn look(&mut self) -> Result<Option<Record>, ReadFault>
        requires { self.old.ahead ≡ None }
        ensures left { (place : Place) (text : List ℕ) → HasLeft R.remaining self.old place text
            → OnOk result (HasLeft R.remaining self.new place text) }
        ensures found { (place : Place) (text : List ℕ) → HasLeft R.remaining self.old place text
            → IfOk result (λ o. IfSome o (λ found. (behind : Place) × (rest : List ℕ)
            × TakesRecord (delimiter_in self.old) place text found.line (values_of self.new.reader)
            behind rest)) }
        ensures end { (place : Place) (text : List ℕ) → HasLeft R.remaining self.old place text
            → IfOk result (λ o. o ≡ None → HasNoRecord text) }
        ensures fault { (place : Place) (text : List ℕ) → HasLeft R.remaining self.old place text
            → IfErr result (Explains (delimiter_in self.old) place text) }
        ensures delimiter { delimiter_in self.new ≡ delimiter_in self.old }
        ensures empty { empty_in self.new ≡ empty_in self.old }
    {
        let record = self.reader.read()?;
        self.ahead = Some(record);
        Ok(record)
    }

    /// Takes the next record, or returns `None` if there is no more.
    pub(crate) fn take(&mut self) -> Result<Option<Record>, ReadFault>
        ensures taken { (place : Place) (text : List ℕ) → HasLeft R.remaining self.old place text
            → IfOk result (λ o. IfSome o (λ found. TakesNext R.remaining self.old self.new place text
            found.line (values_of self.new.reader)
            × IsMisplaced (values_of self.new.reader) found.misplaced)) }
        ensures end { (place : Place) (text : List ℕ) → HasLeft R.remaining self.old place text
            → IfOk result (λ o. o ≡ None → HasNoRecord text) }
        ensures fault { (place : Place) (text : List ℕ) → HasLeft R.remaining self.old place text
            → IfErr result (Explains (delimiter_in self.old) place text) }
        ensures delimiter { delimiter_in self.new ≡ delimiter_in self.old }
        ensures empty { empty_in self.new ≡ empty_in self.old }
    {
        let Some(record) = self.ahead else {
            return self.reader.read();
        };
        self.ahead = None;
        Ok(record)
    }

    /// Reads the next record as an object of these columns; `None` behind the last.
    ///
    /// Errors: `Record` if the file cannot be read on, and `Memory`.
    pub fn next(&mut self, alloc: Global, columns: &[Column]) -> Result<Option<Row>, TableFault>
        ensures row { (place : Place) (text : List ℕ) → HasLeft R.remaining self.old place text
            → IfOk result (λ o. IfSome o (λ row. (values : List (Option (List ℕ)))
            × TakesNext R.remaining self.old self.new place text row.line values
            × IsRead (empty_in self.old) (columns_seen columns.now) values row.object)) }
        ensures end { (place : Place) (text : List ℕ) → HasLeft R.remaining self.old place text
            → IfOk result (λ o. o ≡ None → HasNoRecord text) }
        ensures why { (place : Place) (text : List ℕ) → HasLeft R.remaining self.old place text
            → IfErr result (IsWhyUnread (delimiter_in self.old) place text) }
        ensures delimiter { delimiter_in self.new ≡ delimiter_in self.old }
        ensures empty { empty_in self.new ≡ empty_in self.old }
    {
        let Some(record) = self.take()? else {
            return Ok(None);
        };
        let line = record.line;
        let object = match record.misplaced {
            Some(field) => Err(RowFault::MisplacedQuote(field)),
            None => object_of(alloc, columns, self.empty, &self.reader, &mut self.scratch)?,
        };
        Ok(Some(Row { line, object }))
    }

    /// Whether the next record has to be waited for: what is at hand ends no line.
    pub fn is_drained(&self) -> bool {
        self.ahead.is_none() && self.reader.is_drained()
    }
}

// The object of a record without misplaced quotes, or why it is none. The only error is out of memory.
fn object_of<R: Read>(
    alloc: Global,
    columns: &[Column],
    empty: EmptyField,
    reader: &RecordReader<R>,
    scratch: &mut Scratch,
) -> Result<Result<Value, RowFault>, AllocError>
    ensures { IsMisplaced (values_of reader.now) None
        → IfOk result (IsRead empty (columns_seen columns.now) (values_of reader.now)) }
{
    let (found, expected) = (reader.len(), columns.len());
    if found != expected {
        return Ok(Err(RowFault::Fields { found, expected }));
    }
    let mut members = Map::new(alloc);
    match put_fields(alloc, columns, empty, reader, scratch, &mut members)? {
        Some(field) => Ok(Err(RowFault::NotUtf8(field))),
        None => Ok(Ok(Value::Object(members))),
    }
}

// Puts the fields of a record, one for each column, into an object, or returns the number, from 1, of the first that is
// not UTF-8.
fn put_fields<R: Read>(
    alloc: Global,
    columns: &[Column],
    empty: EmptyField,
    reader: &RecordReader<R>,
    scratch: &mut Scratch,
    members: &mut Map<String, Value>,
) -> Result<Option<usize>, AllocError>
    requires { length columns.now ≡ length (values_of reader.now) }
    ensures put { IfOk result (λ o. o ≡ None → members_view members.new.entries
        ≡ with_fields empty (columns_seen columns.now) (texts_of (values_of reader.now))
        (members_view members.old.entries)) }
    ensures text { IfOk result (λ o. o ≡ None → AllText (texts_of (values_of reader.now))) }
    ensures first { IfOk result (λ o. IfSome o
        (IsFirstNotUtf8 (texts_of (values_of reader.now)))) }
{
    for at in 0..columns.len() {
        let column = &columns[at];
        let bytes = reader.field(at).unwrap_or(b"");
        let Ok(field) = str::from_utf8(bytes) else {
            return Ok(Some(at + 1));
        };
        let value = field_value(alloc, empty, column.types, field, scratch)?;
        put_value(alloc, &column.name, value, members)?;
    }
    Ok(None)
}

// Puts a value, if there is one, into an object.
fn put_value(
    alloc: Global,
    name: &str,
    value: Option<Value>,
    members: &mut Map<String, Value>,
) -> Result<(), AllocError>
    ensures { OnOk result (members_view members.new.entries
        ≡ with_field name.now (option_map view value) (members_view members.old.entries)) }
{
    match value {
        Some(value) => put(members, alloc, name, value),
        None => Ok(()),
    }
}
