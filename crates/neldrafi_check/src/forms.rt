//! How errors are written: as lines of text, or as objects of JSON.

ghost use Rattle.std.specs.Prelude.{◌≡◌, ◌++◌, ℕ, List, OnOk, codes, decimal, false, string_bytes};
ghost use Rattle.neldrafi_schema.specs.Errors.{instance_path_of, prints_float, text_of};
ghost use Rattle.neldrafi_schema.specs.machine.Found.{error_seen};
ghost use Rattle.neldrafi_check.specs.Forms.{Form, error_object, json_form, line_of, location_text, position_text, text_form, unread_object};

use crate::cutting::push_cut;
use crate::kinds::error_kind_name;
use crate::objects::{Datum, object, push_line, push_object};
use crate::shown::push_shown;
use neldrafi_position::Position;
use neldrafi_schema::ValidationError;
use std::alloc::{AllocError, Global};
use std::fmt::Write;

/// How what is wrong in a file is written.
pub trait ErrorForm {
    // what is written
    ghost writes: { Self → Form };

    /// Appends what is written of an error of the value at a position. The only error is out of memory; a beginning of
    /// it may then have been appended.
    fn push(
        &self,
        alloc: Global,
        at: Position,
        error: &ValidationError,
        out: &mut String,
    ) -> Result<(), AllocError>
        ensures { let e = error_seen error.now in OnOk result ((made : List ℕ)
            × (string_bytes out.new ≡ string_bytes out.old ++ made)
            × (prints_float e ≡ false → made ≡ (writes self.now).said at e)) };

    /// Appends what is written of a line that has no value from a position on, for this reason. The only error is out
    /// of memory; a beginning of it may then have been appended.
    fn push_unread(
        &self,
        alloc: Global,
        at: Position,
        why: &str,
        out: &mut String,
    ) -> Result<(), AllocError>
        ensures { OnOk result (string_bytes out.new
            ≡ string_bytes out.old ++ (writes self.now).unread at why.now) };
}

/// Lines of text, `FILE:LINE:COLUMN: LOCATION: TEXT`: the location of the value is a JSON pointer, and is left out for
/// the root. Of a text with more than 300 characters the first 200 and the last 100 are written.
#[derive(Clone, Copy)]
pub struct TextLines<'a> {
    /// The name of the file.
    pub file: &'a str,
}

impl TextLines<'_> {
    // Appends where something is.
    fn push_position(&self, at: Position, out: &mut String) -> Result<(), AllocError>
        ensures { OnOk result (string_bytes out.new
            ≡ string_bytes out.old ++ position_text self.now.file.now at) }
    {
        let (line, column) = (at.line, at.column);
        push_shown(self.file, out)?;
        write!(out, ":{line}:{column}: ")?;
        Ok(())
    }
}

/// Appends the location of a value, unless it is the root. The only error is out of memory; a beginning of it may then
/// have been appended.
pub(crate) fn push_location(location: &str, out: &mut String) -> Result<(), AllocError>
    ensures { OnOk result (string_bytes out.new
        ≡ string_bytes out.old ++ location_text location.now) }
{
    if location.is_empty() {
        return Ok(());
    }
    push_shown(location, out)?;
    out.push_str(": ")
}

impl ErrorForm for TextLines<'_> {
    ghost writes = { λ form. text_form form.file.now };

    fn push(
        &self,
        alloc: Global,
        at: Position,
        error: &ValidationError,
        out: &mut String,
    ) -> Result<(), AllocError> {
        let text = error.text(alloc)?;
        self.push_position(at, out)?;
        push_location(error.instance_path().as_str(), out)?;
        push_cut(&text, out)?;
        out.push_str("\n")
    }

    fn push_unread(
        &self,
        _alloc: Global,
        at: Position,
        why: &str,
        out: &mut String,
    ) -> Result<(), AllocError> {
        self.push_position(at, out)?;
        push_shown(why, out)?;
        out.push_str("\n")
    }
}

/// Objects of JSON, one on a line. That of an error has the members `file`, `instance`, `keyword` (the location of the
/// keyword in the schema), `kind`, `line`, `location` (of the value), `message` and `position` (the column).
#[derive(Clone, Copy)]
pub struct JsonObjects<'a> {
    /// The name of the file.
    pub file: &'a str,
}

// Appends the object about an error that says this.
fn push_error<'x>(
    alloc: Global,
    file: &'x str,
    at: Position,
    error: &'x ValidationError,
    text: &'x str,
    out: &mut String,
) -> Result<(), AllocError>
    requires { prints_float (error_seen error.now) ≡ false
        → text.now ≡ text_of (error_seen error.now) }
    ensures { let e = error_seen error.now in OnOk result ((made : List ℕ)
        × (string_bytes out.new ≡ string_bytes out.old ++ made)
        × (prints_float e ≡ false → made ≡ line_of (error_object file.now at e))) }
{
    let members = [
        ("file", Datum::Text(file)),
        ("instance", Datum::Value(error.instance())),
        ("keyword", Datum::Text(error.schema_path().as_str())),
        ("kind", Datum::Text(error_kind_name(error))),
        ("line", Datum::Number(at.line)),
        ("location", Datum::Text(error.instance_path().as_str())),
        ("message", Datum::Text(text)),
        ("position", Datum::Number(at.column)),
    ];
    push_line(alloc, &object(alloc, &members)?, out)
}

// Appends the object about a line that has no value.
fn push_unread<'x>(
    alloc: Global,
    file: &'x str,
    at: Position,
    why: &'x str,
    out: &mut String,
) -> Result<(), AllocError>
    ensures { OnOk result (string_bytes out.new
        ≡ string_bytes out.old ++ line_of (unread_object file.now at why.now)) }
{
    let members = [
        ("file", Datum::Text(file)),
        ("kind", Datum::Text("unread")),
        ("line", Datum::Number(at.line)),
        ("message", Datum::Text(why)),
        ("position", Datum::Number(at.column)),
    ];
    push_object(alloc, &members, out)
}

impl ErrorForm for JsonObjects<'_> {
    ghost writes = { λ form. json_form form.file.now };

    fn push(
        &self,
        alloc: Global,
        at: Position,
        error: &ValidationError,
        out: &mut String,
    ) -> Result<(), AllocError> {
        let text = error.text(alloc)?;
        push_error(alloc, self.file, at, error, &text, out)
    }

    fn push_unread(
        &self,
        alloc: Global,
        at: Position,
        why: &str,
        out: &mut String,
    ) -> Result<(), AllocError> {
        push_unread(alloc, self.file, at, why, out)
    }
}
