//! The first problem of a schema document.

ghost use Rattle.std.specs.Prelude.{◌↔◌, ◌≡◌, ◌⊎◌, ◌∷◌, [], IsTrue, OnOk, map, string_bytes};
ghost use Rattle.neldrafi_schema.specs.Paths.{StandsBefore, location_of};
ghost use Rattle.neldrafi_schema.specs.Documents.{uri_at};
ghost use Rattle.neldrafi_schema.specs.machine.Compiled.{path_of};
ghost use Rattle.neldrafi_schema.specs.machine.Places.{documents_of};

use crate::documents::Documents;
use crate::places::{location_of, path_copy};
use crate::refusal::{SchemaError, SchemaErrorKind};
use crate::segment::Segment;
use std::alloc::{AllocError, Global};
use std::cmp::Ordering;

/// What is refused, and the keys that lead to it.
#[derive(Drop)]
pub(crate) struct Problem {
    path: Vec<Segment>,
    kind: SchemaErrorKind,
}

impl Problem {
    ghost use Rattle.neldrafi_schema.specs.machine.Problems.{Notes, problem_of, reason_of};
    ghost use Rattle.neldrafi_schema.specs.Schemas.{out_of_memory};

    /// Keeps a problem where none is kept that stands before it in the document, or at its place.
    pub fn note(
        alloc: Global,
        path: &[Segment],
        kind: SchemaErrorKind,
        first: &mut Option<Problem>,
    ) -> Result<(), AllocError>
        ensures { OnOk result
            (Notes ((path_of path.now, reason_of kind) ∷ []) first.old first.new) }
    {
        let is_first = match first {
            Some(kept) => stands_before(path, &kept.path),
            None => true,
        };
        if is_first {
            let path = path_copy(alloc, path)?;
            *first = Some(Problem { path, kind });
        }
        Ok(())
    }

    /// The refusal of documents of which this is the first problem.
    pub fn refusal(self, alloc: Global, documents: Documents<'_>) -> SchemaError
        ensures { (reason_of result.kind ≡ out_of_memory)
            ⊎ ((reason_of result.kind ≡ (problem_of self).1)
            × (string_bytes result.uri ≡ uri_at (documents_of documents.entry) (problem_of self).0)
            × (result.location ≡ location_of (problem_of self).0)) }
    {
        let uri = String::from_str(alloc, documents.uri_at(&self.path));
        match (uri, location_of(alloc, &self.path)) {
            (Ok(uri), Ok(location)) => SchemaError {
                kind: self.kind,
                uri,
                location,
            },
            _ => SchemaError::memory(alloc),
        }
    }
}

// Whether what is at a path stands in a document before what is at another.
fn stands_before(path: &[Segment], other: &[Segment]) -> bool
    ensures { IsTrue result
        ↔ StandsBefore (path_of path.now) (path_of other.now) }
{
    path.cmp(&other) == Ordering::Less
}
