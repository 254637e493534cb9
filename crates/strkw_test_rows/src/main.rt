//! Asks the keywords, whole schema objects, requests and the records of files what rows ask, and compares each answer with the lines
//! that stand below its row. Prints the rows that are answered otherwise. An answer has every field of every error,
//! refusal and note, and each call that says otherwise than another. `row.rt` tells what stands in a row.
#![tactic(auto)]

mod answers;
mod asked;
mod compiled;
mod input;
mod lists;
mod records;
mod row;
mod rows;
mod shown;
mod tables;

use rows::{Question, Rows};
use serde_json::Value;
use std::alloc::{AllocError, Global};
use std::io;

fn main(rt: HostRuntime) -> io::Result<()> {
    // Not line by line by `lines`, which takes away a CR before the end of a line: it is of the row.
    let text = io::read_to_string(rt.alloc(), rt.reader())?;
    let mut rows = Rows::new();
    for line in text.split('\n') {
        let question = rows.read(rt.alloc(), line)?;
        ask(rt, question, &mut rows)?;
    }
    let question = rows.last();
    ask(rt, question, &mut rows)?;
    rows.print_counts(rt)
}

fn ask(rt: HostRuntime, question: Option<Question>, rows: &mut Rows) -> io::Result<()> {
    match question {
        Some(question) => {
            let answer = answer(rt.alloc(), question.row())?;
            rows.compare(rt, &question, &answer)
        }
        None => Ok(()),
    }
}

// What is answered to a row.
fn answer(alloc: Global, line: &str) -> Result<String, AllocError> {
    let mut out = String::new(alloc);
    match Value::from_str(alloc, line) {
        Ok(row) => push_answer(alloc, &row, &mut out)?,
        Err(_) => out.push_str("no JSON")?,
    }
    Ok(out)
}

fn push_answer(alloc: Global, row: &Value, out: &mut String) -> Result<(), AllocError> {
    if let Some(text) = row.get("records").and_then(Value::as_str) {
        return records::push_records(alloc, row, text, out);
    }
    if let Some(parts) = row.get("input").and_then(Value::as_array) {
        return input::push_output(alloc, row, parts, out);
    }
    if let Some(name) = row.get("format").and_then(Value::as_str) {
        return tables::push_named(name, row::items(row, "texts"), out);
    }
    if let Some(name) = row.get("table").and_then(Value::as_str) {
        return tables::push_table(name, out);
    }
    if let Some(segments) = row.get("segments").and_then(Value::as_array) {
        return shown::push_places(alloc, segments, out);
    }
    lists::push_answers(alloc, row, out)
}
