//! What the records of tables are read as. A test whose name ends in `_under_refusal` may also end as out of memory
//! where an allocation is refused.

use super::{
    EmptyField, Header, TableFault, TableForm, columns_of, missing_column, open_table,
    unexpected_column,
};
use neldrafi_csv::{Delimiter, ReadFault};
use serde_json::Value;
use std::alloc::{AllocError, Global};
use std::fmt::Write;
use std::io::Cursor;
use std::test::Fail;

// The value of a JSON text. The failure names a text that is none.
fn value_of(alloc: Global, text: &'static str) -> Result<Value, Fail> {
    match Value::from_str(alloc, text) {
        Ok(value) => Ok(value),
        Err(error) if error.is_memory() => Err(Fail::from(AllocError)),
        Err(_) => Err(Fail::new(text)),
    }
}

// The failure of a table that is not read on.
fn failure_of(fault: TableFault) -> Fail {
    match fault {
        TableFault::Memory | TableFault::Record(ReadFault::Memory) => Fail::from(AllocError),
        TableFault::NoHeader => Fail::new("no header"),
        TableFault::Names { .. } => Fail::new("names"),
        TableFault::Duplicate(_) => Fail::new("a duplicate"),
        TableFault::Record(_) => Fail::new("a record"),
    }
}

// A form with commas.
fn commas(header: Header, empty: EmptyField) -> TableForm {
    TableForm {
        delimiter: Delimiter::comma(),
        header,
        empty,
    }
}

// Lines of the records of a file: the line on which each begins, and its object or why it is none.
fn read(
    alloc: Global,
    schema: &'static str,
    form: TableForm,
    file: &'static [u8],
) -> Result<String, Fail> {
    let document = value_of(alloc, schema)?;
    let mut bytes = Vec::new(alloc);
    bytes.extend_from_slice(file)?;
    let mut table = match open_table(alloc, Cursor::new(bytes), form) {
        Ok(table) => table,
        Err(fault) => return Err(failure_of(fault)),
    };
    let columns = columns_of(alloc, &document, &table.names)?;
    let mut lines = String::new(alloc);
    for _ in 0..100 {
        let row = match table.rows.next(alloc, &columns) {
            Ok(Some(row)) => row,
            Ok(None) => return Ok(lines),
            Err(fault) => return Err(failure_of(fault)),
        };
        let line = row.line;
        match row.object {
            Ok(object) => {
                let text = object.to_string(alloc)?;
                write!(lines, "{line} {text}\n")?;
            }
            Err(why) => write!(lines, "{line} {why}\n")?,
        }
    }
    Ok(lines)
}

// Whether the records of a file are these lines.
fn reads(
    alloc: Global,
    schema: &'static str,
    form: TableForm,
    file: &'static [u8],
    lines: &'static str,
) -> Result<(), Fail> {
    if read(alloc, schema, form, file)?.as_str() == lines {
        return Ok(());
    }
    Err(Fail::new(lines))
}

// Columns of each type, the first and the second by references.
const TYPES: &str = r##"{"$ref":"#/$defs/row","$defs":{"row":{"properties":{
    "n":{"$ref":"#/$defs/count"},"b":{"type":["boolean","null"]},"f":{"type":"number"},"t":{}}},
    "count":{"type":"integer"}}}"##;

#[test]
fn types_under_refusal(rt: HostRuntime) -> Result<(), Fail> {
    let form = commas(Header::First, EmptyField::Absent);
    reads(
        rt.alloc(),
        TYPES,
        form,
        b"n,b,f,t\n5,true,-1e3,5\n5.0,false,0,true\n05,null,+1,\n 5,TRUE,1 ,null\n1e400,,1.,\"\"\n",
        concat!(
            "2 {\"b\":true,\"f\":-1000.0,\"n\":5,\"t\":\"5\"}\n",
            "3 {\"b\":false,\"f\":0,\"n\":5.0,\"t\":\"true\"}\n",
            "4 {\"b\":\"null\",\"f\":\"+1\",\"n\":\"05\"}\n",
            "5 {\"b\":\"TRUE\",\"f\":\"1 \",\"n\":\" 5\",\"t\":\"null\"}\n",
            "6 {\"b\":null,\"f\":\"1.\",\"n\":\"1e400\"}\n",
        ),
    )
}

#[test]
fn empty_fields_under_refusal(rt: HostRuntime) -> Result<(), Fail> {
    let form = commas(Header::First, EmptyField::Text);
    reads(
        rt.alloc(),
        TYPES,
        form,
        b"b,t\n,\n",
        "2 {\"b\":null,\"t\":\"\"}\n",
    )
}

#[test]
fn records_under_refusal(rt: HostRuntime) -> Result<(), Fail> {
    let form = commas(Header::First, EmptyField::Absent);
    reads(
        rt.alloc(),
        "true",
        form,
        b"\xEF\xBB\xBFa,b\r\n\"1\n\"\"2\",3\n\n4\n5,\xFF\n6,7,8\n9,\"x\"y\n12\",7,8\n9,10",
        concat!(
            "2 {\"a\":\"1\\n\\\"2\",\"b\":\"3\"}\n",
            "5 expected 2 fields, found 1\n",
            "6 field 2 is not UTF-8\n",
            "7 expected 2 fields, found 3\n",
            "8 a quote in field 2 must be doubled and the field quoted\n",
            "9 a quote in field 1 must be doubled and the field quoted\n",
            "10 {\"a\":\"9\",\"b\":\"10\"}\n",
        ),
    )
}

#[test]
fn numbered_columns_under_refusal(rt: HostRuntime) -> Result<(), Fail> {
    let alloc = rt.alloc();
    let schema = r#"{"properties":{"2":{"type":"number"}}}"#;
    let form = commas(Header::Absent, EmptyField::Absent);
    reads(
        alloc,
        schema,
        form,
        b"a,1\nb,2\n",
        "1 {\"1\":\"a\",\"2\":1}\n2 {\"1\":\"b\",\"2\":2}\n",
    )?;
    reads(alloc, schema, form, b"\n", "")
}

#[test]
fn delimiters_under_refusal(rt: HostRuntime) -> Result<(), Fail> {
    let Some(delimiter) = Delimiter::new(b'\t') else {
        return Err(Fail::new("tab"));
    };
    let form = TableForm {
        delimiter,
        header: Header::First,
        empty: EmptyField::Absent,
    };
    reads(
        rt.alloc(),
        "{}",
        form,
        b"a\tb,c\n1\t2\n",
        "2 {\"a\":\"1\",\"b,c\":\"2\"}\n",
    )
}

// Whether a file is refused with these words.
fn refuses(alloc: Global, file: &'static [u8], words: &'static str) -> Result<(), Fail> {
    let form = commas(Header::First, EmptyField::Absent);
    let mut bytes = Vec::new(alloc);
    bytes.extend_from_slice(file)?;
    let fault = match open_table(alloc, Cursor::new(bytes), form) {
        Ok(_) => return Err(Fail::new(words)),
        Err(fault) => fault,
    };
    let text = format!(in alloc; "{fault}")?;
    if text.as_str() == words {
        return Ok(());
    }
    Err(failure_of(fault))
}

#[test]
fn headers_under_refusal(rt: HostRuntime) -> Result<(), Fail> {
    let alloc = rt.alloc();
    refuses(alloc, b"\r\n\n", "no header: the file has no record")?;
    refuses(alloc, b"a,b,a\n", "two columns are named \"a\"")?;
    refuses(alloc, b"a,\xFF\n", "1: field 2 is not UTF-8")?;
    refuses(
        alloc,
        b"a,b\"\n",
        "1: a quote in field 2 must be doubled and the field quoted",
    )?;
    refuses(
        alloc,
        b"\na,\"b\n",
        "2: a quote that begins here is not closed",
    )
}

// Whether these are the columns that a file with this header lacks and may not have, by a schema.
fn has_columns(
    alloc: Global,
    schema: &'static str,
    header: &'static [u8],
    missing: Option<&str>,
    unexpected: Option<&str>,
) -> Result<(), Fail> {
    let document = value_of(alloc, schema)?;
    let mut bytes = Vec::new(alloc);
    bytes.extend_from_slice(header)?;
    let form = commas(Header::First, EmptyField::Absent);
    let table = match open_table(alloc, Cursor::new(bytes), form) {
        Ok(table) => table,
        Err(fault) => return Err(failure_of(fault)),
    };
    let columns = columns_of(alloc, &document, &table.names)?;
    if missing_column(&document, &columns) == missing
        && unexpected_column(&document, &columns) == unexpected
    {
        return Ok(());
    }
    Err(Fail::new(schema))
}

#[test]
fn columns_under_refusal(rt: HostRuntime) -> Result<(), Fail> {
    let alloc = rt.alloc();
    let closed = r#"{"required":["a","b"],"properties":{"a":{}},"additionalProperties":false}"#;
    has_columns(alloc, closed, b"a,b", None, Some("b"))?;
    has_columns(alloc, closed, b"a", Some("b"), None)?;
    let open = r#"{"properties":{"a":{}},"additionalProperties":true}"#;
    has_columns(alloc, open, b"a,b", None, None)?;
    let patterns = r#"{"patternProperties":{"b":{}},"additionalProperties":false}"#;
    has_columns(alloc, patterns, b"a,b", None, None)?;
    let by_reference =
        r##"{"$ref":"#/$defs/r","required":["c"],"$defs":{"r":{"required":["b"]}}}"##;
    has_columns(alloc, by_reference, b"a", Some("b"), None)
}
