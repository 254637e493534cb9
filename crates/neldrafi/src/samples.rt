//! The values of files, from which a schema is inferred. Lines are numbered on from file to file.

use crate::distinct::{TextFault, read_distinct};
use crate::faults::{Fault, Reach};
use crate::file_kinds::FileKind;
use crate::inputs::{InputFault, InputFile, Line, Lines};
use crate::tables::{TableOptions, fault_of as table_fault};
use json::{Error, Scratch, Value};
use neldrafi_infer::{PropertyFault, Shape};
use neldrafi_position::Positions;
use neldrafi_table::{Column, Row, columns_of, open_table};
use serde_json::Value as Tree;
use std::alloc::{AllocError, Global};
use std::io::{ErrorKind, Read};

// What is at fault in a file of strings.
const NO_VALUES: &str = "the file is of strings, which have no schema; name its kind by --as";

/// A file of which values were seen.
#[derive(Clone, Copy)]
pub(crate) struct SampleFile<'a> {
    /// Its name.
    pub name: &'a str,
    // How many lines the files before it have.
    before: u64,
}

/// The values of files.
#[derive(Drop)]
pub(crate) struct Sample<'a> {
    /// What the values are like.
    pub shape: Shape,
    files: Vec<SampleFile<'a>>,
    // The last line of which a value was seen.
    last: u64,
    tables: TableOptions,
}

impl From<PropertyFault> for Fault {
    fn from(e: PropertyFault) -> Fault {
        match e {
            PropertyFault::Memory => Fault::Memory,
            PropertyFault::TooMany => Fault::Input(InputFault::TooLong),
        }
    }
}

impl<'a> Sample<'a> {
    /// No files yet. Tables are read by these options.
    pub(crate) fn new(alloc: Global, tables: TableOptions) -> Result<Sample<'a>, AllocError> {
        Ok(Sample {
            shape: Shape::new(alloc)?,
            files: Vec::new(alloc),
            last: 0,
            tables,
        })
    }

    /// The file and the line there of a line that is numbered on from file to file.
    pub(crate) fn position_of(&self, line: u64) -> (&'a str, u64) {
        let mut position = ("", line);
        for file in &self.files {
            if file.before < line {
                position = (file.name, line.saturating_sub(file.before));
            }
        }
        position
    }

    /// Sees the values of a file of this name and kind.
    pub(crate) fn see_file(
        &mut self,
        alloc: Global,
        name: &'a str,
        kind: FileKind,
        mut file: InputFile,
    ) -> Result<(), Fault> {
        let before = self.last;
        self.files.push(SampleFile { name, before })?;
        match kind {
            FileKind::Json => {
                file.skip_mark();
                self.see_document(alloc, file)
            }
            FileKind::JsonLines => {
                file.skip_mark();
                self.see_lines(alloc, file)
            }
            FileKind::Csv | FileKind::Tsv => self.see_records(alloc, kind, file),
            FileKind::Text => Err(Fault::with_words(
                Reach::File,
                String::from_str(alloc, NO_VALUES),
            )),
        }
    }

    // The number of a line of the file that is read.
    fn numbered(&mut self, line: u64) -> u64 {
        let before = self.files.last().map_or(0, |file| file.before);
        self.last = before.saturating_add(line);
        self.last
    }

    // Sees the values of the lines of a file.
    fn see_lines(&mut self, alloc: Global, file: InputFile) -> Result<(), Fault> {
        let mut lines = Lines::new(alloc, file)?;
        let mut scratch = Scratch::new(alloc);
        for _ in 0..u64::MAX {
            match lines.next_line()? {
                Some(line) => self.see_line(alloc, line, &mut scratch)?,
                None => return Ok(()),
            }
        }
        Ok(())
    }

    // Sees the value of a line, unless it is blank.
    fn see_line(
        &mut self,
        alloc: Global,
        line: Line<'_>,
        scratch: &mut Scratch,
    ) -> Result<(), Fault> {
        let number = self.numbered(line.number);
        if line.text.trim_ascii().is_empty() {
            return Ok(());
        }
        match Value::parse_strict(alloc, line.text, scratch) {
            Ok(value) => Ok(self.shape.see(alloc, number, &value)?),
            Err(Error::OutOfMemory) => Err(Fault::Memory),
            Err(_) => Err(line_fault(alloc, line)),
        }
    }

    // Sees the value of a file. The lines of an array's elements are those on which they begin.
    fn see_document(&mut self, alloc: Global, mut file: InputFile) -> Result<(), Fault> {
        let mut bytes = Vec::new(alloc);
        if let Err(error) = file.read_to_end(&mut bytes) {
            return Err(read_fault(error));
        }
        let Ok(text) = str::from_utf8(&bytes) else {
            let words = String::from_str(alloc, "the file is not UTF-8");
            return Err(Fault::with_words(Reach::File, words));
        };
        let mut scratch = Scratch::new(alloc);
        match Value::parse_strict(alloc, text, &mut scratch) {
            Ok(value) => self.see_value(alloc, text, &value),
            Err(Error::OutOfMemory) => Err(Fault::Memory),
            Err(_) => Err(document_fault(alloc, text)),
        }
    }

    // Sees the value of a text.
    fn see_value(&mut self, alloc: Global, text: &str, value: &Value<'_>) -> Result<(), Fault> {
        let first = self.numbered(1);
        let Value::Array(items) = value else {
            return Ok(self.shape.see(alloc, first, value)?);
        };
        self.shape.see_array(alloc, first)?;
        let mut positions = Positions::new(alloc, text);
        for at in 0..items.len() {
            let pointer = format!(in alloc; "/{at}")?;
            let position = positions.position_of(alloc, &pointer)?;
            let line = self.numbered(position.line);
            self.shape.see_item(alloc, line, &items[at])?;
        }
        Ok(())
    }

    // Sees the records of a table as objects.
    fn see_records(&mut self, alloc: Global, kind: FileKind, file: InputFile) -> Result<(), Fault> {
        let mut table = match open_table(alloc, file, self.tables.form(kind)) {
            Ok(table) => table,
            Err(fault) => return Err(table_fault(alloc, fault)),
        };
        let columns = columns_of(alloc, &Tree::Bool(true), &table.names)?;
        for at in 0..columns.len() {
            self.shape.place_of(alloc, at, &columns[at].name)?;
        }
        for _ in 0..u64::MAX {
            match table.rows.next(alloc, &columns) {
                Ok(Some(row)) => self.see_row(alloc, &columns, row)?,
                Ok(None) => return Ok(()),
                Err(fault) => return Err(table_fault(alloc, fault)),
            }
        }
        Ok(())
    }

    // Sees a record of these columns, each of whose fields is a string.
    fn see_row(&mut self, alloc: Global, columns: &[Column], row: Row) -> Result<(), Fault> {
        let line = self.numbered(row.line);
        let object = match row.object {
            Ok(object) => object,
            Err(why) => {
                let number = row.line;
                let words = format!(in alloc; "{number}: {why}");
                return Err(Fault::with_words(Reach::File, words));
            }
        };
        self.shape.see_object(alloc, line)?;
        for at in 0..columns.len() {
            let name = &columns[at].name;
            if let Some(Tree::String(field)) = object.get(name) {
                self.shape.see_field(alloc, line, at, name, field)?;
            }
        }
        Ok(())
    }
}

// The fault of a read that failed.
fn read_fault(error: std::io::Error) -> Fault {
    if error.kind() == ErrorKind::OutOfMemory {
        return Fault::Memory;
    }
    Fault::Input(InputFault::Unread(error))
}

// Why a text is not JSON.
fn why_not_json(alloc: Global, text: &str) -> Result<String, AllocError> {
    match read_distinct(alloc, text) {
        Ok(_) => String::from_str(alloc, "not JSON"),
        Err(TextFault::Memory) => Err(AllocError),
        Err(fault) => format!(in alloc; "{fault}"),
    }
}

// The fault that a file is not JSON.
fn document_fault(alloc: Global, text: &str) -> Fault {
    Fault::with_words(Reach::File, why_not_json(alloc, text))
}

// The fault that a line is not JSON.
fn line_fault(alloc: Global, line: Line<'_>) -> Fault {
    let number = line.number;
    match why_not_json(alloc, line.text) {
        Ok(why) => Fault::with_words(Reach::File, format!(in alloc; "{number}: {why}")),
        Err(_) => Fault::Memory,
    }
}
