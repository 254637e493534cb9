//! Long texts, cut for messages.

ghost use Rattle.std.specs.Prelude.{◌≡◌, ◌++◌, OnOk, length, string_bytes};
ghost use Rattle.std.specs.Str.{chars};
ghost use Rattle.neldrafi_check.specs.Cutting.{cut_text};
ghost use Rattle.neldrafi_check.specs.machine.Cuts.{cut_step, is_kept};

use crate::shown::push_shown_char;
use std::alloc::AllocError;

// So many characters are shown whole.
const LONGEST: usize = 300;

// Of more characters so many are shown of the front, and of the back.
const FRONT: usize = 200;

const BACK: usize = 100;

// How many characters a text has.
fn char_count(text: &str) -> usize
    ensures { result ≡ length (chars text.now) }
{
    text.chars().count()
}

// Whether the character of a number, counted from 0, is shown of a text with so many.
fn is_kept(index: usize, count: usize) -> bool
    ensures { result ≡ is_kept count index }
{
    count <= LONGEST || index < FRONT || count - BACK <= index
}

// Appends the character of a number of a text with so many, as it is shown, or ` .. ` for the first that is not.
fn push_kept(c: char, index: usize, count: usize, out: &mut String) -> Result<(), AllocError>
    ensures { OnOk result (string_bytes out.new ≡ string_bytes out.old ++ cut_step count index c) }
{
    if is_kept(index, count) {
        push_shown_char(c, out)
    } else if index == FRONT {
        out.push_str(" .. ")
    } else {
        Ok(())
    }
}

/// Appends a text as it is shown: of more than 300 characters the first 200 and the last 100. The only error is out of
/// memory; a beginning of it may then have been appended.
pub(crate) fn push_cut(text: &str, out: &mut String) -> Result<(), AllocError>
    ensures { OnOk result (string_bytes out.new ≡ string_bytes out.old ++ cut_text text.now) }
{
    let count = char_count(text);
    let mut index = 0;
    for c in text.chars() {
        push_kept(c, index, count, out)?;
        index += 1;
    }
    Ok(())
}
