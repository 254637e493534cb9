//! Rows of records: the bytes of a CSV file (`records`), each as the character of its number. A row may have a
//! `delimiter`.

use neldrafi_csv::{Delimiter, ReadFault, RecordReader};
use serde_json::Value;
use std::alloc::{AllocError, Global};

/// Appends the records of a file: for each a line with the line on which it begins and its fields, byte by byte, null
/// for one with a misplaced quote, and at the end how many there are, or why they cannot be read.
pub fn push_records(
    alloc: Global,
    row: &Value,
    text: &str,
    out: &mut String,
) -> Result<(), AllocError> {
    let file = bytes_of(alloc, text)?;
    match push_each(alloc, row, &file, out) {
        Ok(count) => write!(out, "{count} records"),
        Err(fault) => write!(out, "{fault}"),
    }
}

// The bytes for which the characters of a text stand. One past U+00FF stands for none.
fn bytes_of(alloc: Global, text: &str) -> Result<Vec<u8>, AllocError> {
    let mut bytes = Vec::new(alloc);
    for character in text.chars() {
        if let Ok(byte) = u8::try_from(u32::from(character)) {
            bytes.push(byte)?;
        }
    }
    Ok(bytes)
}

// The delimiter of a row: a comma, unless it says another.
fn delimiter_in(row: &Value) -> Delimiter {
    match row.get("delimiter").and_then(Value::as_str) {
        Some(text) => match text.as_bytes().first() {
            Some(byte) => Delimiter::new(*byte).unwrap_or(Delimiter::comma()),
            None => Delimiter::comma(),
        },
        None => Delimiter::comma(),
    }
}

// Appends the line of each record, and answers how many there are.
fn push_each(alloc: Global, row: &Value, file: &[u8], out: &mut String) -> Result<u64, ReadFault> {
    let mut reader = RecordReader::new(alloc, file, delimiter_in(row))?;
    for count in 0..u64::MAX {
        match reader.read()? {
            Some(record) => push_record(alloc, record.line, &reader, out)?,
            None => return Ok(count),
        }
    }
    Ok(u64::MAX)
}

// Appends the line of the record that was read last.
fn push_record(
    alloc: Global,
    line: u64,
    reader: &RecordReader<&[u8]>,
    out: &mut String,
) -> Result<(), AllocError> {
    let mut fields = Vec::new(alloc);
    for at in 0..reader.len() {
        fields.push(match reader.field(at) {
            Some(field) => Value::String(text_of(alloc, field)?),
            None => Value::Null,
        })?;
    }
    let fields = Value::Array(fields);
    writeln!(out, "{line}: {fields}")
}

// Bytes as the characters of their numbers.
fn text_of(alloc: Global, bytes: &[u8]) -> Result<String, AllocError> {
    let mut text = String::new(alloc);
    for byte in bytes {
        text.push(char::from(*byte))?;
    }
    Ok(text)
}
