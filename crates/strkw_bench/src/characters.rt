//! Nanoseconds to count the characters of a text, beside the standard library's count.

use crate::texts::repeat_piece;
use crate::timing::{self, least_round};
use std::alloc::Global;
use std::io;
use strkw_report::char_count;

#[derive(Clone, Copy)]
enum Call {
    Counted,
    CountedByTheLibrary,
}

impl timing::Call for Call {
    // Whether the text has an even number of characters.
    fn accepts(&self, _alloc: Global, text: &str) -> bool {
        match self {
            Call::Counted => char_count(text) % 2 == 0,
            Call::CountedByTheLibrary => text.chars().count() % 2 == 0,
        }
    }
}

// 16 bytes, of which two are one character.
const PART: &str = "letters zwölfte";

// So many parts, and how often their characters are counted in a round.
struct Length {
    parts: u32,
    calls: u32,
}

const LENGTHS: &[Length] = &[
    Length {
        parts: 1,
        calls: 100_000,
    },
    Length {
        parts: 4,
        calls: 50_000,
    },
    Length {
        parts: 256,
        calls: 2_000,
    },
    Length {
        parts: 4_096,
        calls: 200,
    },
    Length {
        parts: 65_536,
        calls: 10,
    },
];

fn time(rt: HostRuntime, name: &str, call: Call, text: &str, calls: u32) -> io::Result<()> {
    let tenths = least_round(rt, &call, &[text], calls)?.tenths_a_call(calls);
    println!(rt;
        "{name}, {} bytes: {}.{} ns",
        text.len(),
        tenths / 10,
        tenths % 10
    )
}

fn time_length(rt: HostRuntime, row: &Length) -> io::Result<()> {
    let text = repeat_piece(rt.alloc(), "", PART, row.parts, "")?;
    time(rt, "char_count", Call::Counted, &text, row.calls)?;
    time(
        rt,
        "chars().count()",
        Call::CountedByTheLibrary,
        &text,
        row.calls,
    )
}

/// Times both counts on texts of 16 bytes up to a mebibyte.
pub fn measure(rt: HostRuntime) -> io::Result<()> {
    for row in LENGTHS {
        time_length(rt, row)?;
    }
    Ok(())
}
