//! The compilation of a schema document.

ghost use Rattle.std.specs.Prelude.{◌≡◌, ◌⊎◌, IfErr, IfOk, string_bytes};
ghost use Rattle.serde_json.specs.View.{view};
ghost use Rattle.strkw_keywords.specs.Handed.{lists_of};
ghost use Rattle.neldrafi_schema.specs.Documents.{uri_at};
ghost use Rattle.neldrafi_schema.specs.machine.Compiled.{schemas_of};
ghost use Rattle.neldrafi_schema.specs.Paths.{location_of};
ghost use Rattle.neldrafi_schema.specs.machine.Places.{documents_of};
ghost use Rattle.neldrafi_schema.specs.machine.Problems.{problem_of, reason_of};
ghost use Rattle.neldrafi_schema.specs.machine.Words.{AreReady};
ghost use Rattle.neldrafi_schema.specs.Refusals.{IsRefused, IsSaid};
ghost use Rattle.neldrafi_schema.specs.Schemas.{out_of_memory};
ghost use Rattle.neldrafi_schema.specs.Settings.{config_settings, documents_for};

use crate::config::Config;
use crate::documents::Documents;
use crate::ends::{ending, note_endless_references};
use crate::known::draft_of;
use crate::node::Node;
use crate::places::{Places, path_copy};
use crate::problem::Problem;
use crate::reading::Reader;
use crate::references::Library;
use crate::refusal::SchemaError;
use serde_json::Value;
use std::alloc::{AllocError, Global};
use strkw_pattern::EngineBuilder;
use strkw_report::Draft;

/// The nodes of a document, or the first problem that it has.
pub(crate) fn read_document<B: EngineBuilder>(
    alloc: Global,
    config: &Config<'_, B>,
    document: &Value,
) -> Result<Vec<Node<B::Engine>>, SchemaError>
    ensures said { let s = config_settings B.takes B.outcome admits accepts is_encoding decoding
        config.now in
        IfOk result (λ nodes. IsSaid s (documents_for config.now (view document.now))
        (schemas_of B.Engine.outcome nodes.items)) }
    ensures ready { IfOk result (λ nodes. AreReady B.Engine.outcome
        (lists_of admits accepts is_encoding decoding config.now.checks) nodes.items) }
    ensures refused { let s = config_settings B.takes B.outcome admits accepts is_encoding decoding
        config.now in
        IfErr result (λ e. (reason_of e.kind ≡ out_of_memory)
        ⊎ IsRefused s (documents_for config.now (view document.now)) (reason_of e.kind)
        (string_bytes e.uri) e.location) }
{
    let documents = Documents {
        schema: document,
        further: config.documents,
    };
    match nodes_of(alloc, config, documents) {
        Ok(Ok(nodes)) => Ok(nodes),
        Ok(Err(problem)) => Err(problem.refusal(alloc, documents)),
        Err(_) => Err(SchemaError::memory(alloc)),
    }
}

// The only error of the outer result is out of memory.
fn nodes_of<B: EngineBuilder>(
    alloc: Global,
    config: &Config<'_, B>,
    documents: Documents<'_>,
) -> Result<Result<Vec<Node<B::Engine>>, Problem>, AllocError>
    ensures said { let s = config_settings B.takes B.outcome admits accepts is_encoding decoding
        config.now in
        IfOk result (λ r. IfOk r (λ nodes. IsSaid s (documents_of documents.entry)
        (schemas_of B.Engine.outcome nodes.items))) }
    ensures ready { IfOk result (λ r. IfOk r (λ nodes. AreReady B.Engine.outcome
        (lists_of admits accepts is_encoding decoding config.now.checks) nodes.items)) }
    ensures refused { let s = config_settings B.takes B.outcome admits accepts is_encoding decoding
        config.now in
        IfOk result (λ r. IfErr r (λ p. IsRefused s (documents_of documents.entry) (problem_of p).1
        (uri_at (documents_of documents.entry) (problem_of p).0)
        (location_of (problem_of p).0))) }
{
    let draft = draft_of(config.draft.unwrap_or(Draft::Draft202012), documents.schema);
    let library = Library::of(alloc, draft, documents)?;
    let mut places = Places::of(alloc, documents)?;
    let reader = Reader {
        alloc,
        config,
        library: &library,
    };
    let mut nodes = Vec::new(alloc);
    let mut first = None;
    for number in 0..usize::MAX {
        let Some(known) = places.places.get(number) else {
            break;
        };
        let path = path_copy(alloc, &known.place.path)?;
        let scope = library.entered(alloc, &known.scope, &path)?;
        let value = known.place.value;
        let node = reader.read_schema(&scope, &path, value, &mut places, &mut first)?;
        nodes.push(node)?;
    }
    let end = ending(alloc, &nodes)?;
    note_endless_references(alloc, &places.places, &nodes, &end, &mut first)?;
    match first {
        Some(problem) => Ok(Err(problem)),
        None => Ok(Ok(nodes)),
    }
}
