//! The documents that a schema is compiled from.

ghost use Rattle.std.specs.Prelude.{◌≡◌, IfOk, option_map, string_bytes};
ghost use Rattle.serde_json.specs.View.{view};
ghost use Rattle.neldrafi_schema.specs.Documents.{document_at, uri_at, value_in};
ghost use Rattle.neldrafi_schema.specs.Paths.{value_at};
ghost use Rattle.neldrafi_schema.specs.Resources.{base_among, base_at, base_in};
ghost use Rattle.neldrafi_schema.specs.machine.Compiled.{path_of};
ghost use Rattle.neldrafi_schema.specs.Settings.{document_of};
ghost use Rattle.neldrafi_schema.specs.machine.Places.{documents_of};

use crate::config::Document;
use crate::identifiers::own_base;
use crate::segment::Segment;
use serde_json::Value;
use std::alloc::{AllocError, Global};
use strkw_report::Draft;

/// The base URI of a schema that has none (RFC 3986, section 5.1.4).
pub(crate) const SCHEMA_URI: &str = "json-schema:///";

/// A schema, and further documents, to which references may lead.
#[derive(Clone, Copy)]
pub(crate) struct Documents<'v> {
    pub schema: &'v Value,
    pub further: &'v [Document<'v>],
}

impl<'v> Documents<'v> {
    /// The document of a number: the schema itself, and then the others.
    pub fn get(self, number: usize) -> Option<Document<'v>>
        ensures { option_map document_of result ≡ document_at (documents_of self.entry) number }
    {
        match number.checked_sub(1) {
            Some(place) => self.further.get(place).copied(),
            None => Some(Document {
                uri: SCHEMA_URI,
                value: self.schema,
            }),
        }
    }

    /// The URI that was given for the document into which a path leads, whose first segment is its number.
    pub fn uri_at(self, path: &[Segment]) -> &'v str
        ensures { result.now ≡ uri_at (documents_of self.entry) (path_of path.now) }
    {
        let [Segment::Document(number), ..] = path else {
            return "";
        };
        if *number == 0 {
            return "";
        }
        match self.get(*number) {
            Some(document) => document.uri,
            None => "",
        }
    }

    /// The value at such a path.
    pub fn value_at(self, path: &[Segment]) -> Option<&'v Value>
        ensures { option_map (λ v. view v.now) result
            ≡ value_in (documents_of self.entry) (path_of path.now) }
    {
        match path {
            [Segment::Document(number), below @ ..] => value_at(self.get(*number)?.value, below),
            _ => None,
        }
    }

    /// The base URI of the schema at such a path.
    pub fn base_at(
        self,
        alloc: Global,
        draft: Draft,
        path: &[Segment],
    ) -> Result<String, AllocError>
        ensures { IfOk result (λ base. string_bytes base
            ≡ base_among draft (documents_of self.entry) (path_of path.now)) }
    {
        let [Segment::Document(number), below @ ..] = path else {
            return Ok(String::new(alloc));
        };
        match self.get(*number) {
            Some(document) => base_at(alloc, draft, document, below),
            None => Ok(String::new(alloc)),
        }
    }
}

// The value at a path of a value.
fn value_at<'v>(document: &'v Value, path: &[Segment]) -> Option<&'v Value>
    ensures { option_map (λ v. view v.now) result
        ≡ value_at (path_of path.now) (view document.now) }
{
    let mut value = document;
    for segment in path {
        value = segment.as_step().child(value)?;
    }
    Some(value)
}

// The base URI of the schema at a path of a document.
pub(crate) fn base_at(
    alloc: Global,
    draft: Draft,
    document: Document<'_>,
    path: &[Segment],
) -> Result<String, AllocError>
    ensures { IfOk result (λ base. string_bytes base ≡ base_at draft document.entry.uri.now
        (path_of path.now) (view document.entry.value.now)) }
{
    let mut base = String::from_str(alloc, document.uri)?;
    let mut value = document.value;
    for segment in path {
        base = base_in(alloc, draft, base, value)?;
        let Some(below) = segment.as_step().child(value) else {
            return Ok(base);
        };
        value = below;
    }
    base_in(alloc, draft, base, value)
}

// The base URI of a schema, by the one of the schema around it.
pub(crate) fn base_in(
    alloc: Global,
    draft: Draft,
    base: String,
    value: &Value,
) -> Result<String, AllocError>
    ensures { IfOk result (λ own. string_bytes own
        ≡ base_in draft (string_bytes base) (view value.now)) }
{
    let Some(object) = value.as_object() else {
        return Ok(base);
    };
    Ok(own_base(alloc, draft, base.as_str(), object)?.unwrap_or(base))
}
