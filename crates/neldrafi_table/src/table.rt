//! A table, read up to its first record of data.

ghost use Rattle.std.specs.Prelude.{◌≡◌, ℕ, List, IfErr, IfOk, None, Some};
ghost use Rattle.csv.specs.Records.{fields_of};
ghost use Rattle.neldrafi_csv.specs.declared.place.Place.{Place};
ghost use Rattle.neldrafi_csv.specs.Lines.{first_place};
ghost use Rattle.neldrafi_csv.specs.Marks.{without_mark};
ghost use Rattle.neldrafi_table.specs.Headers.{Heads, IsWhyUnheaded};
ghost use Rattle.neldrafi_table.specs.Reading.{HasLeft, delimiter_in, empty_in};
ghost use Rattle.neldrafi_table.specs.declared.forms.Header.TheVariants.{Absent, First};

use crate::faults::TableFault;
use crate::forms::{Header, TableForm};
use crate::header::{duplicate, names_of, numbered};
use crate::rows::Rows;
use csv::StringRecord;
use neldrafi_csv::RecordReader;
use std::alloc::Global;
use std::io::Read;

/// A table: the names of its columns, and its records of data.
#[derive(Drop)]
pub struct Table<R> {
    /// The names of the columns.
    pub names: StringRecord,
    /// The records of data.
    pub rows: Rows<R>,
}

/// Reads the names of the columns of a CSV file (RFC 4180, section 2). A byte order mark at the start is dropped.
///
/// Errors: `NoHeader`, `Names`, `Duplicate`, `Record` if the first record cannot be read, and `Memory`.
pub fn open_table<R: Read + Drop>(
    alloc: Global,
    file: R,
    form: TableForm,
) -> Result<Table<R>, TableFault>
    ensures heads { (text : List ℕ) → R.remaining file ≡ Some text
        → IfOk result (λ table. (place : Place) × (left : List ℕ)
        × Heads form.header form.delimiter.byte (without_mark text) (fields_of table.names) place left
        × HasLeft R.remaining table.rows place left) }
    ensures delimiter { IfOk result (λ table. delimiter_in table.rows ≡ form.delimiter.byte) }
    ensures empty { IfOk result (λ table. empty_in table.rows ≡ form.empty) }
    ensures why { (text : List ℕ) → R.remaining file ≡ Some text
        → IfErr result (IsWhyUnheaded form.header form.delimiter.byte (without_mark text)) }
{
    let reader = RecordReader::new(alloc, file, form.delimiter)?;
    let mut rows = Rows::new(alloc, reader, form.empty);
    let names = names_by(alloc, form.header, &mut rows)?;
    Ok(Table { names, rows })
}

// The names of the columns of rows of which none was taken or read ahead.
fn names_by<R: Read>(
    alloc: Global,
    header: Header,
    rows: &mut Rows<R>,
) -> Result<StringRecord, TableFault>
    requires { rows.old.ahead ≡ None }
    ensures heads { (text : List ℕ) → HasLeft R.remaining rows.old first_place text
        → IfOk result (λ names. (place : Place) × (left : List ℕ)
        × Heads header (delimiter_in rows.old) text (fields_of names) place left
        × HasLeft R.remaining rows.new place left) }
    ensures delimiter { delimiter_in rows.new ≡ delimiter_in rows.old }
    ensures empty { empty_in rows.new ≡ empty_in rows.old }
    ensures why { (text : List ℕ) → HasLeft R.remaining rows.old first_place text
        → IfErr result (IsWhyUnheaded header (delimiter_in rows.old) text) }
{
    match header {
        Header::First => read_names(alloc, rows),
        Header::Absent => number_columns(alloc, rows),
    }
}

// Takes the first record, which names the columns.
fn read_names<R: Read>(alloc: Global, rows: &mut Rows<R>) -> Result<StringRecord, TableFault>
    ensures heads { (text : List ℕ) → HasLeft R.remaining rows.old first_place text
        → IfOk result (λ names. (place : Place) × (left : List ℕ)
        × Heads First (delimiter_in rows.old) text (fields_of names) place left
        × HasLeft R.remaining rows.new place left) }
    ensures delimiter { delimiter_in rows.new ≡ delimiter_in rows.old }
    ensures empty { empty_in rows.new ≡ empty_in rows.old }
    ensures why { (text : List ℕ) → HasLeft R.remaining rows.old first_place text
        → IfErr result (IsWhyUnheaded First (delimiter_in rows.old) text) }
{
    let Some(record) = rows.take()? else {
        return Err(TableFault::NoHeader);
    };
    let line = record.line;
    let names = match names_of(alloc, &rows.reader, record.misplaced)? {
        Ok(names) => names,
        Err(why) => return Err(TableFault::Names { line, why }),
    };
    match duplicate(alloc, &names)? {
        Some(name) => Err(TableFault::Duplicate(String::from_str(alloc, name)?)),
        None => Ok(names),
    }
}

// Numbers the columns by the first record, which is data.
fn number_columns<R: Read>(alloc: Global, rows: &mut Rows<R>) -> Result<StringRecord, TableFault>
    requires { rows.old.ahead ≡ None }
    ensures heads { (text : List ℕ) → HasLeft R.remaining rows.old first_place text
        → IfOk result (λ names.
        Heads Absent (delimiter_in rows.old) text (fields_of names) first_place text
        × HasLeft R.remaining rows.new first_place text) }
    ensures delimiter { delimiter_in rows.new ≡ delimiter_in rows.old }
    ensures empty { empty_in rows.new ≡ empty_in rows.old }
    ensures why { (text : List ℕ) → HasLeft R.remaining rows.old first_place text
        → IfErr result (IsWhyUnheaded Absent (delimiter_in rows.old) text) }
{
    if rows.look()?.is_none() {
        return Ok(StringRecord::new(alloc));
    }
    Ok(numbered(alloc, rows.reader.len())?)
}
