//! Lines, checked one by one: each is a JSON text, or a string itself.

ghost use Rattle.std.specs.Prelude.{◌≡◌, ◌<◌, ◌++◌, ℕ, List, IfOk, None, OnOk, Some, [], length, string_bytes};
ghost use Rattle.std.specs.Bool.{MatchBool};
ghost use Rattle.std.specs.Io.BufRead.{drop_through, take_through};
ghost use Rattle.std.specs.Io.Buffered.{reader_remaining};
ghost use Rattle.std.specs.Io.KnownBytes.{Appends};
ghost use Rattle.serde_json.specs.Read.{read};
ghost use Rattle.neldrafi_schema.specs.Meaning.{HasErrors};
ghost use Rattle.neldrafi_schema.specs.machine.Words.{IsCompiled, lists_in, schemas_in};
ghost use Rattle.neldrafi_check.specs.Files.{JsonTold, LineTold, LinesTold, TextTold, UnreadTold};
ghost use Rattle.neldrafi_check.specs.Messages.{Adds};

use crate::counts::Counts;
use crate::faults::CheckFault;
use crate::forms::ErrorForm;
use crate::gathering::{PIECE, push_unread, write_out};
use crate::origin::{JsonLine, Origin};
use crate::texts::{is_blank, read_value, without_end, without_place};
use crate::values::push_value;
use json::Scratch;
use neldrafi_position::{Position, Positions};
use neldrafi_schema::Schema;
use serde_json::Value;
use std::alloc::{AllocError, Global};
use std::io::{BufRead, BufReader, Read, Write};
use strkw_pattern::RegexEngine;

/// What a line is.
#[derive(Clone, Copy, Debug, PartialEq, Eq)]
pub enum LineKind {
    /// A JSON text (RFC 8259). A line of white space alone has no value, and is passed over.
    Json,
    /// A string: the text of the line.
    Text,
}

/// What the lines of a file are checked by, and how their errors are written.
#[derive(Drop)]
struct LineCheck<'a, E: RegexEngine, F> {
    schema: &'a Schema<'a, E>,
    form: &'a F,
    kind: LineKind,
}

impl<E: RegexEngine, F: ErrorForm> LineCheck<'_, E, F> {
    // Appends what is written of the line of this number, and counts its value and its errors.
    fn push_line(
        &self,
        alloc: Global,
        scratch: &mut Scratch,
        number: u64,
        line: &[u8],
        out: &mut String,
    ) -> Result<Counts, AllocError>
        requires { IsCompiled E.outcome (lists_in admits accepts is_encoding decoding
            self.now.schema.now) self.now.schema.now }
        ensures { let lists = lists_in admits accepts is_encoding decoding self.now.schema.now in
            IfOk result (λ counts. Adds (LineTold
            (HasErrors (schemas_in E.outcome self.now.schema.now) lists)
            (F.writes self.now.form.now) self.now.kind number line.now counts)
            (string_bytes out.old) (string_bytes out.new)) }
    {
        let Ok(text) = simdutf8::basic::from_utf8(line) else {
            return push_unread(
                alloc,
                self.form,
                Position {
                    line: number,
                    column: 1,
                },
                "not UTF-8",
                out,
            );
        };
        match self.kind {
            LineKind::Json => self.push_json(alloc, scratch, number, text, out),
            LineKind::Text => self.push_text(alloc, number, text, out),
        }
    }

    // The same of a line that is a JSON text, or white space.
    fn push_json(
        &self,
        alloc: Global,
        scratch: &mut Scratch,
        number: u64,
        text: &str,
        out: &mut String,
    ) -> Result<Counts, AllocError>
        requires { IsCompiled E.outcome (lists_in admits accepts is_encoding decoding
            self.now.schema.now) self.now.schema.now }
        ensures { let lists = lists_in admits accepts is_encoding decoding self.now.schema.now in
            IfOk result (λ counts. Adds (JsonTold
            (HasErrors (schemas_in E.outcome self.now.schema.now) lists)
            (F.writes self.now.form.now) number text.now counts)
            (string_bytes out.old) (string_bytes out.new)) }
    {
        if is_blank(text) {
            return Ok(Counts::NONE);
        }
        match read_value(alloc, text, scratch)? {
            Some(value) => {
                let positions = Positions::new(alloc, text);
                let mut origin = Origin::Line(JsonLine { number, positions });
                push_value(alloc, self.schema, &mut origin, &value, self.form, out)
            }
            None => push_not_json(alloc, self.form, number, text, out),
        }
    }

    // The same of a line that is a string.
    fn push_text(
        &self,
        alloc: Global,
        number: u64,
        text: &str,
        out: &mut String,
    ) -> Result<Counts, AllocError>
        requires { IsCompiled E.outcome (lists_in admits accepts is_encoding decoding
            self.now.schema.now) self.now.schema.now }
        ensures { let lists = lists_in admits accepts is_encoding decoding self.now.schema.now in
            IfOk result (λ counts. Adds (TextTold
            (HasErrors (schemas_in E.outcome self.now.schema.now) lists)
            (F.writes self.now.form.now) number text.now counts)
            (string_bytes out.old) (string_bytes out.new)) }
    {
        let value = Value::try_from_str(alloc, text)?;
        let mut origin = Origin::Front(number);
        push_value(alloc, self.schema, &mut origin, &value, self.form, out)
    }
}

// Appends why a line is not JSON, from the column on where this shows.
fn push_not_json<F: ErrorForm>(
    alloc: Global,
    form: &F,
    line: u64,
    text: &str,
    out: &mut String,
) -> Result<Counts, AllocError>
    requires { read text.now ≡ None }
    ensures { IfOk result (λ counts. Adds (UnreadTold (F.writes form.now) line counts)
        (string_bytes out.old) (string_bytes out.new)) }
{
    match Value::from_str(alloc, text) {
        Err(error) if error.is_memory() => Err(AllocError),
        Err(error) => {
            let why = format!(in alloc; "not JSON: {error}")?;
            let column = error.column().max(1) as u64;
            push_unread(
                alloc,
                form,
                Position { line, column },
                without_place(&why),
                out,
            )
        }
        Ok(_) => unreachable!(),
    }
}

/// Writes the errors of each line of a file, and counts them and the values. A line that is not UTF-8, or not JSON, is
/// an error, and the next line is checked. LF or CR LF ends a line; the last one needs no end. Messages are written as
/// soon as the next line has to be waited for.
///
/// Errors: `Unread`, `TooLong`, `Write` and `Memory`. After any but `Write`, what was found before is written.
pub fn check_lines<E: RegexEngine, R: Read + Drop, W: Write, F: ErrorForm>(
    alloc: Global,
    schema: &Schema<'_, E>,
    kind: LineKind,
    file: R,
    form: &F,
    writer: &mut W,
) -> Result<Counts, CheckFault>
    requires { IsCompiled E.outcome
        (lists_in admits accepts is_encoding decoding schema.now) schema.now }
    ensures messages { let lists = lists_in admits accepts is_encoding decoding schema.now in
        (text : List ℕ) → R.remaining file ≡ Some text → IfOk result (λ counts. (made : List ℕ)
        × LinesTold (LineTold (HasErrors (schemas_in E.outcome schema.now) lists)
        (F.writes form.now) kind) 1 text counts made
        × Appends (W.contents writer.old) (W.contents writer.new) made) }
{
    let Ok(mut reader) = BufReader::with_capacity(alloc, PIECE, file) else {
        return Err(CheckFault::Memory);
    };
    let check = LineCheck { schema, form, kind };
    let mut out = String::new(alloc);
    match check_each(alloc, &check, &mut reader, &mut out, writer) {
        Ok(counts) => {
            write_out(&mut out, writer)?;
            Ok(counts)
        }
        Err(CheckFault::Write) => Err(CheckFault::Write),
        Err(fault) => {
            write_out(&mut out, writer)?;
            Err(fault)
        }
    }
}

// Gathers the messages about each line, writes them if they are many or the next line has to be waited for, and
// counts values and errors.
fn check_each<E: RegexEngine, R: Read + Drop, W: Write, F: ErrorForm>(
    alloc: Global,
    check: &LineCheck<'_, E, F>,
    reader: &mut BufReader<R>,
    out: &mut String,
    writer: &mut W,
) -> Result<Counts, CheckFault>
    requires { IsCompiled E.outcome (lists_in admits accepts is_encoding decoding
        check.now.schema.now) check.now.schema.now }
    ensures { let schema = check.now.schema.now in
        let lists = lists_in admits accepts is_encoding decoding schema in
        (text : List ℕ) → reader_remaining R.remaining reader.old ≡ Some text
        → IfOk result (λ counts. (written : List ℕ)
        × LinesTold (LineTold (HasErrors (schemas_in E.outcome schema) lists)
        (F.writes check.now.form.now) check.now.kind) 1 text counts (written ++ string_bytes out.new)
        × Appends (W.contents writer.old) (W.contents writer.new) written) }
{
    out.clear();
    let mut counts = Counts::NONE;
    let mut line = Vec::new(alloc);
    let mut scratch = Scratch::new(alloc);
    for turn in 0..u64::MAX {
        if !read_line(reader, &mut line)? {
            return Ok(counts);
        }
        let more = check.push_line(alloc, &mut scratch, turn + 1, without_end(&line), out)?;
        counts = counts.plus(more)?;
        write_due(reader, out, writer)?;
    }
    Err(CheckFault::TooLong)
}

// Reads the next line with its end, and says whether there is one.
fn read_line<R: Read + Drop>(
    reader: &mut BufReader<R>,
    line: &mut Vec<u8>,
) -> Result<bool, CheckFault>
    ensures { (rest : List ℕ) → reader_remaining R.remaining reader.old ≡ Some rest
        → IfOk result (λ found. MatchBool found
        ((0 < length rest) × (line.new.items ≡ take_through 10 rest)
        × (reader_remaining R.remaining reader.new ≡ Some (drop_through 10 rest)))
        (rest ≡ [])) }
{
    line.clear();
    Ok(0 < reader.read_until(b'\n', line)?)
}

// Writes what was gathered if it is much, or the next line has to be waited for.
fn write_due<R: Read + Drop, W: Write>(
    reader: &BufReader<R>,
    out: &mut String,
    writer: &mut W,
) -> Result<(), CheckFault>
    ensures { OnOk result ((written : List ℕ)
        × Appends (W.contents writer.old) (W.contents writer.new) written
        × (string_bytes out.old ≡ written ++ string_bytes out.new)) }
{
    if PIECE <= out.len() || !reader.buffer().contains(&b'\n') {
        return write_out(out, writer);
    }
    Ok(())
}
