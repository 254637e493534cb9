//! CSV files: how they are read, and their columns by a schema.

use crate::building::{Argument, Takes};
use crate::faults::{Fault, Reach};
use crate::file_kinds::FileKind;
use crate::message_form::MessageForm;
use crate::telling::{Notice, Subject, tell};
use clap::ArgMatches;
use csv::StringRecord;
use neldrafi_check::Shown;
use neldrafi_csv::Delimiter;
use neldrafi_table::{
    Column, EmptyField, Header, TableFault, TableForm, columns_of, missing_column,
    unexpected_column,
};
use serde_json::Value;
use std::alloc::{AllocError, Global};
use std::fmt;

// What an empty field may be, as the option has it.
const ABSENT: &str = "absent";

const TEXT: &str = "text";

const EMPTY_WORDS: &[&str] = &[ABSENT, TEXT];

// Characters that may separate fields where a comma does not.
const OTHER_DELIMITERS: &[char] = &[';', '\t', '|'];

/// The option for the character that separates fields.
pub(crate) const DELIMITER: Argument = Argument {
    name: "delimiter",
    takes: Takes::Value("CHARACTER"),
    conflicts: &[],
    help: "The character that separates the fields of CSV, in place of a comma; `\\t` is a tab",
};

/// The option for what an empty field is.
pub(crate) const EMPTY: Argument = Argument {
    name: "empty",
    takes: Takes::OneOf {
        value: "WHAT",
        words: EMPTY_WORDS,
        default: ABSENT,
    },
    conflicts: &[],
    help: "What an empty field of CSV is, unless `type` has null: an absent property, or the empty string",
};

/// The option for files without a header.
pub(crate) const NO_HEADER: Argument = Argument {
    name: "no-header",
    takes: Takes::Nothing,
    conflicts: &[],
    help: "The first record of CSV is data too, and the columns are named `1`, `2` and so on",
};

/// How tables are read, by the options.
#[derive(Clone, Copy)]
pub(crate) struct TableOptions {
    delimiter: Option<Delimiter>,
    header: Header,
    empty: EmptyField,
}

impl TableOptions {
    /// What the options say. The fault is a delimiter that is none.
    pub(crate) fn of(alloc: Global, matches: &ArgMatches<'_>) -> Result<TableOptions, Fault> {
        Ok(TableOptions {
            delimiter: delimiter_of(alloc, matches.get_str(DELIMITER.name))?,
            header: if matches.get_flag(NO_HEADER.name) {
                Header::Absent
            } else {
                Header::First
            },
            empty: match matches.get_str(EMPTY.name) {
                Some(TEXT) => EmptyField::Text,
                _ => EmptyField::Absent,
            },
        })
    }

    /// How a file of this kind is read.
    pub(crate) fn form(self, kind: FileKind) -> TableForm {
        TableForm {
            delimiter: self.delimiter.unwrap_or(kind.delimiter()),
            header: self.header,
            empty: self.empty,
        }
    }
}

// The delimiter that a word names.
fn delimiter_of(alloc: Global, word: Option<&str>) -> Result<Option<Delimiter>, Fault> {
    let Some(word) = word else {
        return Ok(None);
    };
    let delimiter = match word.as_bytes() {
        b"\\t" => Delimiter::new(b'\t'),
        [byte] => Delimiter::new(*byte),
        _ => None,
    };
    if delimiter.is_some() {
        return Ok(delimiter);
    }
    let word = Shown(word);
    let words = format!(in alloc;
        "--delimiter takes one ASCII character, but no quote and no line end, not `{word}`"
    );
    Err(Fault::with_words(Reach::Run, words))
}

/// The columns of these names by a schema. The faults are a column that the schema requires and the file lacks, and one
/// that the schema does not allow.
pub(crate) fn columns_by(
    alloc: Global,
    schema: &Value,
    names: &StringRecord,
) -> Result<Vec<Column>, Fault> {
    let columns = columns_of(alloc, schema, names)?;
    if let Some(name) = missing_column(schema, &columns) {
        let name = Shown(name);
        let words = format!(in alloc; "no column \"{name}\", which the schema requires");
        return Err(Fault::with_words(Reach::File, words));
    }
    if let Some(name) = unexpected_column(schema, &columns) {
        let name = Shown(name);
        let words = format!(in alloc; "column \"{name}\" is not allowed by the schema");
        return Err(Fault::with_words(Reach::File, words));
    }
    Ok(columns)
}

/// The fault of a table that is not opened.
pub(crate) fn fault_of(alloc: Global, fault: TableFault) -> Fault {
    match fault {
        TableFault::Memory => Fault::Memory,
        fault => Fault::with_words(Reach::File, format!(in alloc; "{fault}")),
    }
}

// What is suspect in the columns of a file.
#[derive(Clone, Copy)]
enum Warning<'a> {
    // No column has the name of this property.
    NoColumn(&'a str),
    // The only column has this character in its name.
    OneColumn(char),
}

impl fmt::Display for Warning<'_> {
    fn fmt<W: fmt::Write>(&self, f: &mut fmt::Formatter<W>) -> fmt::Result {
        match self {
            Warning::NoColumn(name) => {
                let name = Shown(name);
                write!(f, "warning: no column \"{name}\", a property of the schema")
            }
            Warning::OneColumn('\t') => {
                f.write_str("warning: the file has one column; try --delimiter '\\t'")
            }
            Warning::OneColumn(c) => {
                write!(f, "warning: the file has one column; try --delimiter '{c}'")
            }
        }
    }
}

/// Warns of properties of a schema that no column has, and of another delimiter in the only name.
pub(crate) fn warn(
    rt: &HostRuntime,
    form: MessageForm,
    subject: Subject<'_>,
    schema: &Value,
    columns: &[Column],
) {
    if let [column] = columns {
        for c in OTHER_DELIMITERS {
            if column.name.contains(*c) {
                tell(rt, form, subject, Notice::Warning, &Warning::OneColumn(*c));
            }
        }
    }
    let Some(Value::Object(properties)) = schema.get("properties") else {
        return;
    };
    for (name, _schema) in properties.iter() {
        if !columns
            .iter()
            .any(|column| column.name.as_str() == name.as_str())
        {
            tell(rt, form, subject, Notice::Warning, &Warning::NoColumn(name));
        }
    }
}
