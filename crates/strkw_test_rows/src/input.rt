//! An input of requests, and what `run` writes.

use serde_json::Value;
use std::alloc::{AllocError, Global};
use strkw_cli::{BoundedRunFault, MemorySink, MemorySource, run, run_bounded};

// The most bytes of an output that are printed whole.
const MOST: usize = 2000;

// Of a longer one so many are.
const FRONT: usize = 60;

// Appends a part: a text, a byte by its number, or a text and how many times it stands there.
fn push_part(part: &Value, input: &mut Vec<u8>) -> Result<(), AllocError> {
    if let Some(text) = part.as_str() {
        return input.extend_from_slice(text.as_bytes());
    }
    if let Some(byte) = part.as_u64() {
        input.push(u8::try_from(byte).unwrap_or(0))?;
        return Ok(());
    }
    let text = part.get(0).and_then(Value::as_str).unwrap_or("");
    for _ in 0..part.get(1).and_then(Value::as_u64).unwrap_or(0) {
        input.extend_from_slice(text.as_bytes())?;
    }
    Ok(())
}

/// Appends what a run writes on an input that is given by its parts, of a long output its beginning, and then its
/// fault. No line may be longer than the row's `longest`, where it has one.
pub fn push_output(
    alloc: Global,
    row: &Value,
    parts: &[Value],
    out: &mut String,
) -> Result<(), AllocError> {
    let mut input = Vec::new(alloc);
    for part in parts {
        push_part(part, &mut input)?;
    }
    let mut source = MemorySource::new(input);
    let mut sink = MemorySink::new(alloc);
    let ended = match row.get("longest").and_then(Value::as_u64) {
        Some(longest) => run_bounded(alloc, longest as usize, &mut source, &mut sink),
        None => run(alloc, &mut source, &mut sink).map_err(BoundedRunFault::Run),
    };
    push_bytes(sink.bytes(), out)?;
    match ended {
        Ok(()) => Ok(()),
        Err(fault) => write!(out, "{fault}\n"),
    }
}

fn push_bytes(bytes: &[u8], out: &mut String) -> Result<(), AllocError> {
    let Ok(text) = str::from_utf8(bytes) else {
        return out.push_str("  no UTF-8\n");
    };
    match text.get(..FRONT) {
        Some(front) if text.len() > MOST => { write!(out, "{front}.. of {} bytes\n", text.len()) }
        _ => out.push_str(text),
    }
}
