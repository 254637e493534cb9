//! Where schemas are, and what their keywords annotate.

ghost use Rattle.std.specs.Prelude.{◌≡◌, ◌++◌, ◌∷◌, IfOk, OnOk, Some, [], if◌then◌else◌, string_bytes};
ghost use Rattle.serde_json.specs.View.{members_view, view};
ghost use Rattle.neldrafi_schema.specs.Documents.{value_in};
ghost use Rattle.neldrafi_schema.specs.Headers.{header_at, is_heeded, member_notes, notes_in};
ghost use Rattle.neldrafi_schema.specs.Meaning.{absolute_below};
ghost use Rattle.neldrafi_schema.specs.machine.Compiled.{header_of, notes_of, path_of};
ghost use Rattle.neldrafi_schema.specs.machine.Places.{documents_of};

use crate::error::between;
use crate::known::Known;
use crate::node::{Header, Note};
use crate::places::location_of;
use crate::references::Library;
use crate::segment::Segment;
use serde_json::{Map, Value};
use std::alloc::{AllocError, Global};
use strkw_keywords::member;
use strkw_report::Draft;

impl<'v> Library<'v> {
    /// The header of the schema at a path, which is this value.
    pub fn header_at(
        &self,
        alloc: Global,
        path: &[Segment],
        value: &Value,
    ) -> Result<Header, AllocError>
        requires there { value_in (documents_of self.now.documents) (path_of path.now)
            ≡ Some (view value.now) }
        ensures { IfOk result (λ header. header_of header ≡ header_at self.now.draft
            (documents_of self.now.documents) (path_of path.now)) }
    {
        Ok(Header {
            location: location_of(alloc, path)?,
            absolute: self.documents.absolute_at(alloc, self.draft, path)?,
            notes: notes_in(alloc, self.draft, value)?,
        })
    }
}

/// The absolute location of a schema's keyword.
pub(crate) fn absolute_below(
    alloc: Global,
    header: &Header,
    keyword: &str,
) -> Result<String, AllocError>
    ensures { IfOk result (λ s. string_bytes s
        ≡ absolute_below (string_bytes header.now.absolute) keyword.now) }
{
    between(alloc, header.absolute.as_str(), "/", keyword)
}

// What the keywords of a schema annotate, in the order of its members.
fn notes_in(alloc: Global, draft: Draft, value: &Value) -> Result<Vec<Note>, AllocError>
    ensures { IfOk result (λ notes. notes_of notes.items ≡ notes_in draft (view value.now)) }
{
    let mut notes = Vec::new(alloc);
    let Some(object) = value.as_object() else {
        return Ok(notes);
    };
    for (name, value) in object.iter() {
        push_note(alloc, draft, object, name.as_str(), value, &mut notes)?;
    }
    Ok(notes)
}

// Appends what a member of a schema object annotates, if it annotates anything.
fn push_note(
    alloc: Global,
    draft: Draft,
    object: &Map<String, Value>,
    name: &str,
    value: &Value,
    notes: &mut Vec<Note>,
) -> Result<(), AllocError>
    ensures { OnOk result (notes_of notes.new.items ≡ notes_of notes.old.items
        ++ member_notes draft (members_view object.now.entries) name.now (view value.now)) }
{
    let keyword = Known::among(draft, object, name);
    if keyword.is_annotation() && is_heeded(object, name) {
        notes.push(Note {
            keyword: String::from_str(alloc, name)?,
            value: value.clone()?,
            of_texts: keyword.is_of_texts(),
        })?;
    }
    Ok(())
}

// `contentSchema` is ignored without `contentMediaType`.
fn is_heeded(object: &Map<String, Value>, name: &str) -> bool
    ensures { result ≡ is_heeded (members_view object.now.entries) name.now }
{
    name != "contentSchema" || member(object, "contentMediaType").is_some()
}
