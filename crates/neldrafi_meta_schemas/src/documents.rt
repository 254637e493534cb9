//! The documents of meta-schemas.

ghost use Rattle.std.specs.Prelude.{◌≡◌, IfOk, Some, map};
ghost use Rattle.std.specs.List.{AllByRecursion};
ghost use Rattle.serde_json.specs.Read.{read as read_text};
ghost use Rattle.serde_json.specs.View.{view};
ghost use Rattle.neldrafi_meta_schemas.specs.MetaSchemas.{uris_of};

use crate::{draft_4, draft_6, draft_7, draft_2019_09, draft_2020_12};
use neldrafi_schema::Document;
use serde_json::{Error, Value};
use std::alloc::{AllocError, Global};
use strkw_report::Draft;

/// A document of a meta-schema.
#[derive(Drop)]
pub struct MetaSchema {
    /// Its URI, without an empty fragment.
    pub uri: &'static str,
    /// Its text, as it is published.
    pub text: &'static str,
    /// Its value.
    pub value: Value,
}

impl MetaSchema {
    /// The document, for `Config::documents` of `neldrafi_schema`.
    pub fn document(&self) -> Document<'_>
        ensures uri { result.uri.now ≡ self.now.uri.now }
        ensures value { view result.value.now ≡ view self.now.value }
    {
        Document {
            uri: self.uri,
            value: &self.value,
        }
    }
}

// The documents of the meta-schema of a draft: their URIs and texts.
fn texts_of(draft: Draft) -> &'static [(&'static str, &'static str)]
    ensures { map (λ document. document.0.now) result.now ≡ uris_of draft }
{
    match draft {
        Draft::Draft4 => draft_4::DOCUMENTS,
        Draft::Draft6 => draft_6::DOCUMENTS,
        Draft::Draft7 => draft_7::DOCUMENTS,
        Draft::Draft201909 => draft_2019_09::DOCUMENTS,
        Draft::Draft202012 => draft_2020_12::DOCUMENTS,
    }
}

/// The documents of the meta-schema of a draft: its own, and from draft 2019-09 on those of its vocabularies. It fails
/// only if out of memory.
pub fn meta_schemas(alloc: Global, draft: Draft) -> Result<Vec<MetaSchema>, Error>
    ensures uris { IfOk result (λ ms. map (λ m. m.uri.now) ms.items ≡ uris_of draft) }
    ensures values { IfOk result (λ ms. AllByRecursion
        (λ m. read_text m.text.now ≡ Some (view m.value)) ms.items) }
{
    let mut documents = Vec::new(alloc);
    for &(uri, text) in texts_of(draft) {
        let value = Value::from_str(alloc, text)?;
        documents
            .push(MetaSchema { uri, text, value })
            .map_err(AllocError::from)?;
    }
    Ok(documents)
}
