//! The records of a table, checked one by one.

ghost use Rattle.std.specs.Prelude.{◌≡◌, ◌++◌, ℕ, List, Option, IfOk, OnOk, string_bytes};
ghost use Rattle.std.specs.Io.KnownBytes.{Appends};
ghost use Rattle.neldrafi_csv.specs.declared.place.Place.{Place};
ghost use Rattle.neldrafi_schema.specs.Meaning.{HasErrors};
ghost use Rattle.neldrafi_schema.specs.machine.Words.{IsCompiled, lists_in, schemas_in};
ghost use Rattle.neldrafi_table.specs.declared.forms.EmptyField.{EmptyField};
ghost use Rattle.neldrafi_table.specs.Columns.{columns_seen};
ghost use Rattle.neldrafi_table.specs.Objects.{IsRead};
ghost use Rattle.neldrafi_table.specs.Reading.{HasLeft, delimiter_in, empty_in};
ghost use Rattle.neldrafi_check.specs.Messages.{Adds};
ghost use Rattle.neldrafi_check.specs.Tables.{RecordTold, RecordsTold};

use crate::counts::Counts;
use crate::faults::CheckFault;
use crate::forms::ErrorForm;
use crate::gathering::{PIECE, push_unread, write_out};
use crate::origin::Origin;
use crate::values::push_value;
use neldrafi_position::Position;
use neldrafi_schema::Schema;
use neldrafi_table::{Column, Row, Rows};
use std::alloc::{AllocError, Global};
use std::io::{Read, Write};
use strkw_pattern::RegexEngine;

// What the records of a table are checked by, and how their errors are written.
#[derive(Drop)]
struct TableCheck<'a, E: RegexEngine, F> {
    schema: &'a Schema<'a, E>,
    form: &'a F,
    columns: &'a [Column],
}

impl<E: RegexEngine, F: ErrorForm> TableCheck<'_, E, F> {
    // Appends what is written of a record, and counts its value and its errors.
    fn push_row(&self, alloc: Global, row: &Row, out: &mut String) -> Result<Counts, AllocError>
        requires { IsCompiled E.outcome (lists_in admits accepts is_encoding decoding
            self.now.schema.now) self.now.schema.now }
        ensures { let lists = lists_in admits accepts is_encoding decoding self.now.schema.now in
            (empty : EmptyField) (values : List (Option (List ℕ)))
            → IsRead empty (columns_seen self.now.columns.now) values row.now.object
            → IfOk result (λ counts. Adds (RecordTold
            (HasErrors (schemas_in E.outcome self.now.schema.now) lists)
            (F.writes self.now.form.now) empty (columns_seen self.now.columns.now)
            row.now.line values counts) (string_bytes out.old) (string_bytes out.new)) }
    {
        let line = row.line;
        match &row.object {
            Ok(value) => {
                let mut origin = Origin::Front(line);
                push_value(alloc, self.schema, &mut origin, value, self.form, out)
            }
            Err(why) => {
                let why = format!(in alloc; "{why}")?;
                push_unread(alloc, self.form, Position { line, column: 1 }, &why, out)
            }
        }
    }
}

/// Writes the errors of each record of a table, and counts them and the values. A record that has a misplaced quote,
/// another number of fields than the table has columns, or a field that is not UTF-8, is an error, and the next record
/// is checked. The position of an error is the line on which its record begins. Messages are written as soon as the
/// next record has to be waited for.
///
/// Errors: `Table`, `Unread`, `TooLong`, `Write` and `Memory`. After any but `Write`, what was found before is written.
pub fn check_table<E: RegexEngine, R: Read + Drop, W: Write, F: ErrorForm>(
    alloc: Global,
    schema: &Schema<'_, E>,
    columns: &[Column],
    rows: &mut Rows<R>,
    form: &F,
    writer: &mut W,
) -> Result<Counts, CheckFault>
    requires { IsCompiled E.outcome
        (lists_in admits accepts is_encoding decoding schema.now) schema.now }
    ensures messages { let lists = lists_in admits accepts is_encoding decoding schema.now in
        (place : Place) (text : List ℕ) → HasLeft R.remaining rows.old place text
        → IfOk result (λ counts. (made : List ℕ)
        × RecordsTold (RecordTold (HasErrors (schemas_in E.outcome schema.now) lists)
        (F.writes form.now) (empty_in rows.old) (columns_seen columns.now))
        (delimiter_in rows.old) place text counts made
        × Appends (W.contents writer.old) (W.contents writer.new) made) }
{
    let check = TableCheck {
        schema,
        form,
        columns,
    };
    let mut out = String::new(alloc);
    match check_each(alloc, &check, rows, &mut out, writer) {
        Ok(counts) => {
            write_out(&mut out, writer)?;
            Ok(counts)
        }
        Err(CheckFault::Write) => Err(CheckFault::Write),
        Err(fault) => {
            write_out(&mut out, writer)?;
            Err(fault)
        }
    }
}

// Gathers the messages about each record, writes them if they are many or the next record has to be waited for, and
// counts values and errors.
fn check_each<E: RegexEngine, R: Read + Drop, W: Write, F: ErrorForm>(
    alloc: Global,
    check: &TableCheck<'_, E, F>,
    rows: &mut Rows<R>,
    out: &mut String,
    writer: &mut W,
) -> Result<Counts, CheckFault>
    requires { IsCompiled E.outcome (lists_in admits accepts is_encoding decoding
        check.now.schema.now) check.now.schema.now }
    ensures { let schema = check.now.schema.now in
        let lists = lists_in admits accepts is_encoding decoding schema in
        (place : Place) (text : List ℕ) → HasLeft R.remaining rows.old place text
        → IfOk result (λ counts. (written : List ℕ)
        × RecordsTold (RecordTold (HasErrors (schemas_in E.outcome schema) lists)
        (F.writes check.now.form.now) (empty_in rows.old) (columns_seen check.now.columns.now))
        (delimiter_in rows.old) place text counts (written ++ string_bytes out.new)
        × Appends (W.contents writer.old) (W.contents writer.new) written) }
{
    out.clear();
    let mut counts = Counts::NONE;
    for _ in 0..u64::MAX {
        let Some(row) = rows.next(alloc, check.columns)? else {
            return Ok(counts);
        };
        let more = check.push_row(alloc, &row, out)?;
        counts = counts.plus(more)?;
        write_due(rows, out, writer)?;
    }
    Err(CheckFault::TooLong)
}

// Writes what was gathered if it is much, or the next record has to be waited for.
fn write_due<R: Read + Drop, W: Write>(
    rows: &Rows<R>,
    out: &mut String,
    writer: &mut W,
) -> Result<(), CheckFault>
    ensures { OnOk result ((written : List ℕ)
        × Appends (W.contents writer.old) (W.contents writer.new) written
        × (string_bytes out.old ≡ written ++ string_bytes out.new)) }
{
    if PIECE <= out.len() || rows.is_drained() {
        return write_out(out, writer);
    }
    Ok(())
}
