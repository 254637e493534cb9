//! What a line asks that asks an object of a text, and has no option.

ghost use Rattle.std.specs.Prelude.{IfOk, IfSome};
ghost use Rattle.serde_json.specs.Data.{Members};
ghost use Rattle.strkw_object.specs.Values.{AreOwnedOf};
ghost use Rattle.strkw_cache.specs.Fronts.{Asks};

use super::cache::{CachedObject, Occurrence};
use super::fronts::{split_front, split_text};
use super::terms::Terms;
use super::values::read_values;
use json::{Reader, Scratch};
use std::alloc::{AllocError, Global};
use strkw_json::JsonError;
use strkw_object::OwnedValues;

// So many bytes stand between the object and the text of such a line: `,"instance":`.
const INSTANCE: usize = 12;

/// What such a line asks.
#[derive(Clone, Copy)]
pub struct Asked<'a> {
    /// Where its object stands, and the terms of the line.
    pub occurrence: Occurrence,
    /// The text that the object is asked of.
    pub text: &'a str,
}

/// What a line asks, of whose object the values are read. The line has the draft, the object and a text without
/// escapes, in this order, no option, and nothing between the tokens around the object. It is `None` of another line,
/// and where the object is the one that is cached.
///
/// The only error is out of memory.
pub fn read_asked<'a>(
    alloc: Global,
    scratch: &mut Scratch,
    cached: Option<&CachedObject>,
    values: &mut OwnedValues,
    line: &'a str,
) -> Result<Option<Asked<'a>>, AllocError>
    ensures { IfOk result (λ found. IfSome found (λ asked. (ms : Members)
        × Asks asked.occurrence.terms ms asked.text.now line.now × AreOwnedOf ms values.new)) }
{
    // Most other lines are told by their last bytes, before anything is made ready.
    if !line.as_bytes().ends_with(b"\"}") {
        return Ok(None);
    }
    let Some((before, text)) = split_text(line) else {
        return Ok(None);
    };
    let Some((draft, object)) = split_front(before) else {
        return Ok(None);
    };
    let end = before.len().saturating_sub(INSTANCE);
    let start = end.saturating_sub(object.len());
    if cached.is_some_and(|object| object.stands_at(line.as_bytes(), start)) {
        return Ok(None);
    }
    let mut tokens = Reader::new(object, scratch)?;
    match read_values(alloc, &mut tokens, values) {
        Ok(true) => {}
        Ok(false) | Err(JsonError::NotJson) => return Ok(None),
        Err(JsonError::Memory) => return Err(AllocError),
    }
    if tokens.next().is_some() {
        return Ok(None);
    }
    let terms = Terms {
        draft,
        validate_formats: None,
        ignore_unknown_formats: true,
    };
    Ok(Some(Asked {
        occurrence: Occurrence { terms, start, end },
        text,
    }))
}
