//! The URIs by which the schemas of a document are known.

ghost use Rattle.std.specs.Prelude.{◌≡◌, ◌++◌, ◌∷◌, IfOk, OnOk, [], map, option_map, string_bytes, unwrap_or};
ghost use Rattle.serde_json.specs.View.{members_view, view};
ghost use Rattle.neldrafi_schema.specs.Drafts.{identifier_in};
ghost use Rattle.neldrafi_schema.specs.Resources.{all_identifiers, base_by, document_identifiers, identifier, named_anchors, own_anchors, recurs};
ghost use Rattle.neldrafi_schema.specs.Settings.{document_of};
ghost use Rattle.neldrafi_schema.specs.machine.Compiled.{path_of};
ghost use Rattle.neldrafi_schema.specs.machine.Identifiers.{anchor_of, identifiers_of};
ghost use Rattle.neldrafi_schema.specs.machine.Places.{documents_of};

use crate::config::Document;
use crate::documents::{Documents, SCHEMA_URI};
use crate::known::{anchor_in, dynamic_anchor_in, identifier_in, is_recursive};
use crate::objects::schema_objects;
use crate::places::path_copy;
use crate::segment::Segment;
use neldrafi_uri::{resolved, split_fragment};
use serde_json::{Map, Value};
use std::alloc::{AllocError, Global};
use strkw_report::Draft;

/// A URI without a fragment, a plain name in it, which is empty for the resource itself, whether dynamic references may
/// lead to it from other resources, and the path to the schema that they identify.
#[derive(Drop)]
pub(crate) struct Identifier {
    pub uri: String,
    pub anchor: String,
    pub is_dynamic: bool,
    pub path: Vec<Segment>,
}

// A plain name.
#[derive(Clone, Copy)]
struct Anchor<'a> {
    name: &'a str,
    is_dynamic: bool,
}

/// What identifies the schemas of documents.
pub(crate) fn all_identifiers(
    alloc: Global,
    draft: Draft,
    documents: Documents<'_>,
) -> Result<Vec<Identifier>, AllocError>
    ensures { IfOk result (λ found. identifiers_of found.items
        ≡ all_identifiers draft (documents_of documents.entry)) }
{
    let mut found = Vec::new(alloc);
    let schema = Document {
        uri: SCHEMA_URI,
        value: documents.schema,
    };
    push_of_document(alloc, draft, documents, 0, schema, &mut found)?;
    for (place, document) in documents.further.iter().enumerate() {
        push_of_document(alloc, draft, documents, place + 1, *document, &mut found)?;
    }
    Ok(found)
}

// Those of the document of a number.
fn push_of_document(
    alloc: Global,
    draft: Draft,
    documents: Documents<'_>,
    number: usize,
    document: Document<'_>,
    found: &mut Vec<Identifier>,
) -> Result<(), AllocError>
    ensures { OnOk result (identifiers_of found.new.items ≡ identifiers_of found.old.items
        ++ document_identifiers draft (documents_of documents.entry) number
        (document_of document.entry)) }
{
    let path = [Segment::Document(number)];
    let anchor = Anchor {
        name: "",
        is_dynamic: recurs(draft, document.value),
    };
    push_identifier(alloc, document.uri, anchor, &path, found)?;
    let schemas = schema_objects(alloc, draft, &path, document.value)?;
    for schema in &schemas {
        let base = documents.base_at(alloc, draft, &schema.path)?;
        push_own(alloc, draft, &base, &schema.path, schema.object, found)?;
    }
    Ok(())
}

// Whether the root of a resource has `$recursiveAnchor`.
fn recurs(draft: Draft, value: &Value) -> bool
    ensures { result ≡ recurs draft (view value.now) }
{
    match value.as_object() {
        Some(object) => is_recursive(draft, object),
        None => false,
    }
}

/// The base URI of a schema object in a schema of this base URI, if it has one of its own.
pub(crate) fn own_base(
    alloc: Global,
    draft: Draft,
    base: &str,
    object: &Map<String, Value>,
) -> Result<Option<String>, AllocError>
    ensures { IfOk result (λ own. unwrap_or (option_map string_bytes own) base.now
        ≡ base_by base.now (identifier_in draft (members_view object.now.entries))) }
{
    match identifier_in(draft, object) {
        Some(identifier) => {
            let (uri, _) = split_fragment(identifier);
            Ok(Some(resolved(alloc, base, uri)?))
        }
        None => Ok(None),
    }
}

fn push_identifier(
    alloc: Global,
    uri: &str,
    anchor: Anchor<'_>,
    path: &[Segment],
    found: &mut Vec<Identifier>,
) -> Result<(), AllocError>
    ensures { OnOk result (identifiers_of found.new.items ≡ identifiers_of found.old.items
        ++ identifier uri.now (path_of path.now) (anchor_of anchor.entry) ∷ []) }
{
    found.push(Identifier {
        uri: String::from_str(alloc, uri)?,
        anchor: String::from_str(alloc, anchor.name)?,
        is_dynamic: anchor.is_dynamic,
        path: path_copy(alloc, path)?,
    })?;
    Ok(())
}

// A plain name, if there is one.
fn push_name(
    alloc: Global,
    uri: &str,
    name: Option<&str>,
    is_dynamic: bool,
    path: &[Segment],
    found: &mut Vec<Identifier>,
) -> Result<(), AllocError>
    ensures { OnOk result (identifiers_of found.new.items ≡ identifiers_of found.old.items
        ++ map (identifier uri.now (path_of path.now))
        (named_anchors is_dynamic (option_map (λ t. t.now) name.entry))) }
{
    match name {
        Some(name) => push_identifier(alloc, uri, Anchor { name, is_dynamic }, path, found),
        None => Ok(()),
    }
}

// What a schema object of this base URI says of itself.
fn push_own(
    alloc: Global,
    draft: Draft,
    base: &str,
    path: &[Segment],
    object: &Map<String, Value>,
    found: &mut Vec<Identifier>,
) -> Result<(), AllocError>
    ensures { OnOk result (identifiers_of found.new.items ≡ identifiers_of found.old.items
        ++ map (identifier base.now (path_of path.now))
        (own_anchors draft (members_view object.now.entries))) }
{
    if let Some(identifier) = identifier_in(draft, object) {
        let resource = Anchor {
            name: "",
            is_dynamic: is_recursive(draft, object),
        };
        push_identifier(alloc, base, resource, path, found)?;
        let (_, fragment) = split_fragment(identifier);
        push_name(alloc, base, fragment, false, path, found)?;
    }
    let anchor = anchor_in(draft, object);
    push_name(alloc, base, anchor, false, path, found)?;
    let dynamic = dynamic_anchor_in(draft, object);
    push_name(alloc, base, dynamic, true, path, found)
}
