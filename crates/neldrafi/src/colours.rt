//! Colours of messages on a terminal.

use std::alloc::AllocError;

// What begins the colour of what a message is about, green, and what ends a colour (ECMA-48, section 8.3.117).
const PLACE: &[u8] = b"\x1B[32m";

const END: &[u8] = b"\x1B[0m";

// Appends bytes in a colour.
fn push_coloured(colour: &[u8], bytes: &[u8], out: &mut Vec<u8>) -> Result<(), AllocError> {
    out.extend_from_slice(colour)?;
    out.extend_from_slice(bytes)?;
    out.extend_from_slice(END)
}

/// Appends a line, in which what stands before the first colon, the name of the file, has its colour.
pub(crate) fn push_line(line: &[u8], out: &mut Vec<u8>) -> Result<(), AllocError> {
    let place = line.split(|byte| *byte == b':').next().unwrap_or(line);
    match line.strip_prefix(place) {
        Some(rest) if !rest.is_empty() => {
            push_coloured(PLACE, place, out)?;
            out.extend_from_slice(rest)
        }
        _ => out.extend_from_slice(line),
    }
}
