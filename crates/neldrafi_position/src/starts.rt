//! Where the values in a container begin: what one pass over it finds.

ghost use Rattle.std.specs.Prelude.{◌≡◌, ℕ, List, IfOk, OnOk, Some, if◌then◌else◌, drop, option_and_then, option_map};
ghost use Rattle.std.specs.Str.{IsCharBoundary};
ghost use Rattle.serde_json.specs.Find.{as_str};
ghost use Rattle.serde_json.specs.Read.{read};
ghost use Rattle.neldrafi_position.specs.Parts.{behind_space};
ghost use Rattle.neldrafi_position.specs.Places.{names};
ghost use Rattle.neldrafi_position.specs.machine.Kept.{AreElements, AreMembers, IsStart, start_named};
ghost use Rattle.neldrafi_position.specs.machine.Walks.{EndOf};

use crate::parts::{begins_with_closing, behind_space, first_part};
use serde_json::Value;
use std::alloc::{AllocError, Global};
use std::collections::BTreeMap;

/// Where each element of an array begins, whose text begins at an offset, behind the bracket.
pub(crate) fn element_starts(
    alloc: Global,
    text: &str,
    inside: usize,
) -> Result<Vec<usize>, AllocError>
    requires { IsCharBoundary text.now inside }
    ensures { IfOk result (λ starts. AreElements text.now inside starts.items) }
{
    let mut starts = Vec::new(alloc);
    let mut rest = &text[inside..];
    if begins_with_closing(behind_space(rest)) {
        return Ok(starts);
    }
    starts.push(value_start(text, rest))?;
    while let Some((_, behind)) = first_part(rest) {
        starts.push(value_start(text, behind))?;
        rest = behind;
    }
    Ok(starts)
}

/// Where the last value of each name begins, of an object whose text begins at an offset, behind the brace.
pub(crate) fn member_starts(
    alloc: Global,
    text: &str,
    inside: usize,
) -> Result<BTreeMap<Vec<u8>, usize>, AllocError>
    requires { IsCharBoundary text.now inside }
    ensures { IfOk result (AreMembers text.now inside) }
{
    let mut starts = BTreeMap::new(alloc);
    let mut rest = &text[inside..];
    while let Some((key, value)) = first_part(rest) {
        put_start(alloc, &mut starts, key, value_start(text, value))?;
        let Some((_, behind)) = first_part(value) else {
            return Ok(starts);
        };
        rest = behind;
    }
    Ok(starts)
}

// Keeps where the value of a key begins, in place of one with the same name.
fn put_start(
    alloc: Global,
    starts: &mut BTreeMap<Vec<u8>, usize>,
    key: &str,
    start: usize,
) -> Result<(), AllocError>
    ensures { OnOk result ((name : List ℕ) → start_named starts.new name
        ≡ (if names key.now name then Some start else start_named starts.old name)) }
{
    if let Some(name) = read_name(alloc, key)? {
        starts.insert(name, start)?;
    }
    Ok(())
}

// The name that the text of a key reads as.
fn read_name(alloc: Global, key: &str) -> Result<Option<Vec<u8>>, AllocError>
    ensures { IfOk result (λ name.
        option_map (λ n. n.items) name ≡ option_and_then as_str (read key.now)) }
{
    let read = match Value::from_str(alloc, key) {
        Ok(read) => read,
        Err(error) if error.is_memory() => return Err(AllocError),
        Err(_) => return Ok(None),
    };
    match read {
        Value::String(name) => Ok(Some(name.into_bytes())),
        _other => Ok(None),
    }
}

/// Where the value begins that a text ends with, from the white space in front of it on.
pub(crate) fn value_start(text: &str, rest: &str) -> usize
    requires { EndOf text.now rest.now }
    ensures { IsStart text.now rest.now result }
{
    text.len() - behind_space(rest).len()
}
