//! JSON texts in which no object has two members of one name.

ghost use Rattle.std.specs.Prelude.{◌≡◌, Some, IfOk, IfErr, OnOk, IsSome, IsSomeAnd, MatchOption};
ghost use Rattle.json.specs.Json.{document};
ghost use Rattle.json.specs.Strict.{AreDistinct, HasUniqueKeys, ItemsHaveUniqueKeys, MembersHaveUniqueKeys, keys};
ghost use Rattle.json.specs.Value.{items_view, members_view, value_view};
ghost use Rattle.serde_json.specs.Read.{read};
ghost use Rattle.serde_json.specs.View.{view};
ghost use Rattle.neldrafi.specs.Distinct.{ComesAgain, HasDuplicate, ItemsHaveDuplicate, MembersHaveDuplicate, RefusesText};
ghost use Rattle.neldrafi.specs.declared.distinct.TextFault.TheVariants.{Memory};

use json::{Scratch, Value as Tree};
use neldrafi_check::Shown;
use serde_json::{Error, Value};
use std::alloc::{AllocError, Global};
use std::collections::BTreeSet;
use std::fmt;

/// Why a text is not JSON with distinct names.
#[derive(Debug, Drop)]
pub(crate) enum TextFault {
    /// It is no JSON that `serde_json` reads (RFC 8259), and the error says where.
    NotJson(Error),
    /// An object of it has two members of this name.
    Duplicate(String),
    /// Out of memory.
    Memory,
}

impl From<AllocError> for TextFault {
    ghost from_gives = { λ _ fault. fault ≡ Memory };

    fn from(_e: AllocError) -> TextFault {
        TextFault::Memory
    }
}

impl fmt::Display for TextFault {
    fn fmt<W: fmt::Write>(&self, f: &mut fmt::Formatter<W>) -> fmt::Result {
        match self {
            TextFault::NotJson(error) => write!(f, "not JSON: {error}"),
            TextFault::Duplicate(name) => {
                let name = Shown(name);
                write!(f, "duplicate member \"{name}\"")
            }
            TextFault::Memory => f.write_str("out of memory"),
        }
    }
}

/// The value of a JSON text in which no object has two members of one name. Names are compared as they are without
/// escapes: `"a"` and `"\u0061"` are one.
///
/// Errors: `NotJson` if `serde_json` reads no value, `Duplicate` if an object has two members of one name, and
/// `Memory`.
pub(crate) fn read_distinct(alloc: Global, text: &str) -> Result<Value, TextFault>
    ensures value { IfOk result (λ v. read text.now ≡ Some (view v)) }
    ensures distinct { OnOk result (IsSomeAnd (document text.now) HasUniqueKeys) }
    ensures refused { IfErr result (λ fault. RefusesText text.now fault) }
{
    match Value::from_str(alloc, text) {
        Ok(value) => {
            require_distinct(alloc, text)?;
            Ok(value)
        }
        Err(error) if error.is_memory() => Err(TextFault::Memory),
        Err(error) => Err(TextFault::NotJson(error)),
    }
}

// Refuses a JSON text in which an object has two members of one name.
fn require_distinct(alloc: Global, text: &str) -> Result<(), TextFault>
    ensures distinct { OnOk result (IsSomeAnd (document text.now) HasUniqueKeys) }
    ensures refused { IsSome (read text.now) → IfErr result (λ fault. RefusesText text.now fault) }
{
    let mut scratch = Scratch::new(alloc);
    // As the text is JSON, what is refused here is memory.
    let Ok(tree) = Tree::parse(alloc, text, &mut scratch) else {
        return Err(TextFault::Memory);
    };
    match duplicate_in(alloc, &tree)? {
        Some(name) => Err(TextFault::Duplicate(String::from_str(alloc, name)?)),
        None => Ok(()),
    }
}

// A name that two members of one object in this value have, if there is one.
#[cycle(duplicates)]
fn duplicate_in<'a>(alloc: Global, value: &Tree<'a>) -> Result<Option<&'a str>, AllocError>
    ensures { IfOk result (λ found. MatchOption found (HasUniqueKeys (value_view value.now))
        (λ name. HasDuplicate name.now (value_view value.now))) }
{
    match value {
        Tree::Array(items) => duplicate_in_items(alloc, items),
        Tree::Object(members) => match duplicate_among(alloc, members)? {
            Some(name) => Ok(Some(name)),
            None => duplicate_in_members(alloc, members),
        },
        Tree::Null | Tree::Bool(_) | Tree::Number(_) | Tree::String(_) => Ok(None),
    }
}

// The same in the items of an array.
#[cycle(duplicates)]
#[inline(never)]
fn duplicate_in_items<'a>(alloc: Global, items: &[Tree<'a>]) -> Result<Option<&'a str>, AllocError>
    ensures { IfOk result (λ found. MatchOption found (ItemsHaveUniqueKeys (items_view items.now))
        (λ name. ItemsHaveDuplicate name.now (items_view items.now))) }
{
    for item in items {
        if let Some(name) = duplicate_in(alloc, item)? {
            return Ok(Some(name));
        }
    }
    Ok(None)
}

// The same in the values of the members of an object.
#[cycle(duplicates)]
#[inline(never)]
fn duplicate_in_members<'a>(
    alloc: Global,
    members: &[(&'a str, Tree<'a>)],
) -> Result<Option<&'a str>, AllocError>
    ensures { let ms = members_view members.now in
        IfOk result (λ found. MatchOption found (MembersHaveUniqueKeys ms)
        (λ name. MembersHaveDuplicate name.now ms)) }
{
    for member in members {
        if let Some(name) = duplicate_in(alloc, &member.1)? {
            return Ok(Some(name));
        }
    }
    Ok(None)
}

// A name that two of these members have, if there is one.
fn duplicate_among<'a>(
    alloc: Global,
    members: &[(&'a str, Tree<'a>)],
) -> Result<Option<&'a str>, AllocError>
    ensures { let names = keys (members_view members.now) in
        IfOk result (λ found. MatchOption found (AreDistinct names)
        (λ name. ComesAgain name.now names)) }
{
    let mut names = BTreeSet::new(alloc);
    for member in members {
        let name = member.0;
        if !names.insert(name)? {
            return Ok(Some(name));
        }
    }
    Ok(None)
}
