//! Lines and columns.

ghost use Rattle.std.specs.Prelude.{◌≡◌, ◌+◌, ◌*◌, ◌^◌, ◌<◌, ◌≤◌, ◌++◌, ℕ, List, IfOk, length, take};
ghost use Rattle.neldrafi_position.specs.Positions.{begins_character};
ghost use Rattle.neldrafi_position.specs.machine.Marks.{AreMarks, IsBehind};

use std::alloc::AllocError;

/// Where a character of a text is. A line feed ends a line.
#[derive(Clone, Copy, Debug, PartialEq, Eq)]
pub struct Position {
    /// The line, from 1.
    pub line: u64,
    /// The column in characters (Unicode scalar values), from 1.
    pub column: u64,
}

// A position is kept behind each so many bytes.
const STRIDE: usize = 1024;

/// The position of the character that begins at an offset in bytes, by the marks up to there, which are made.
pub(crate) fn position_at(
    marks: &mut Vec<Position>,
    text: &[u8],
    offset: usize,
) -> Result<Position, AllocError>
    requires marks { AreMarks text.now marks.old.items }
    requires within { offset ≤ length text.now }
    ensures marks { AreMarks text.now marks.new.items }
    ensures position { IfOk result (IsBehind (take offset text.now)) }
{
    let strides = offset / STRIDE;
    while marks.len() < strides {
        let made = marks.len();
        let from = made * STRIDE;
        let next = behind(mark(marks, made), &text[from..from + STRIDE]);
        marks.push(next)?;
    }
    Ok(behind(mark(marks, strides), &text[strides * STRIDE..offset]))
}

// The position behind so many strides.
fn mark(marks: &[Position], strides: usize) -> Position
    requires { strides ≤ length marks.now }
    ensures { (text : List ℕ) → AreMarks text marks.now
        → IsBehind (take (strides * 1024) text) result }
{
    match strides.checked_sub(1) {
        Some(last) => marks[last],
        None => Position { line: 1, column: 1 },
    }
}

// The position behind some bytes, by that in front of them.
fn behind(front: Position, bytes: &[u8]) -> Position
    requires line { front.line + length bytes.now < 2 ^ 64 }
    requires column { front.column + length bytes.now < 2 ^ 64 }
    ensures { (text : List ℕ) → IsBehind text front → IsBehind (text ++ bytes.now) result }
{
    let mut position = front;
    for byte in bytes {
        if *byte == b'\n' {
            position.line += 1;
            position.column = 1;
        } else if begins_character(*byte) {
            position.column += 1;
        }
    }
    position
}

// Whether a byte is the first of a character (RFC 3629, section 3).
fn begins_character(byte: u8) -> bool
    ensures { result ≡ begins_character byte }
{
    byte < 0x80 || byte >= 0xC0
}
