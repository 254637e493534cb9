//! Where references lead.

ghost use Rattle.std.specs.Prelude.{◌≡◌, ◌++◌, IfOk, IfSome, option_map, string_bytes};
ghost use Rattle.neldrafi_schema.specs.References.{is_pointer, path_from, path_of_fragment, path_of_reference, schema_referred};
ghost use Rattle.neldrafi_schema.specs.Resources.{identified};
ghost use Rattle.neldrafi_schema.specs.machine.Compiled.{path_of};
ghost use Rattle.neldrafi_schema.specs.machine.Identifiers.{IsLibrary, identifiers_of};
ghost use Rattle.neldrafi_schema.specs.machine.Places.{IsPlace, documents_of, place_path, scope_of};

use crate::documents::Documents;
use crate::identifiers::{Identifier, all_identifiers};
use crate::places::{Place, is_schema, path_copy, percent_decoded, place_of_pointer};
use crate::segment::Segment;
use neldrafi_uri::{resolved, split_fragment};
use std::alloc::{AllocError, Global};
use strkw_report::Draft;

/// Documents, and what identifies their schemas.
#[derive(Drop)]
pub(crate) struct Library<'v> {
    pub draft: Draft,
    pub documents: Documents<'v>,
    pub identifiers: Vec<Identifier>,
}

impl<'v> Library<'v> {
    pub fn of(
        alloc: Global,
        draft: Draft,
        documents: Documents<'v>,
    ) -> Result<Library<'v>, AllocError>
        ensures draft { IfOk result (λ l. l.draft ≡ draft) }
        ensures documents { IfOk result (λ l. documents_of l.documents
            ≡ documents_of documents.entry) }
        ensures identifiers { IfOk result IsLibrary }
    {
        let identifiers = all_identifiers(alloc, draft, documents)?;
        Ok(Library {
            draft,
            documents,
            identifiers,
        })
    }

    /// The schema to which a reference in the schema at a path leads in a scope, if it leads to one.
    pub fn referred(
        &self,
        alloc: Global,
        scope: &[String],
        path: &[Segment],
        text: &str,
    ) -> Result<Option<Place<'v>>, AllocError>
        requires library { IsLibrary self.now }
        ensures path { IfOk result (λ o. option_map place_path o
            ≡ schema_referred self.now.draft (documents_of self.now.documents)
            (scope_of scope.now) (path_of path.now) text.now) }
        ensures there { IfOk result (λ o. IfSome o (IsPlace (documents_of self.now.documents))) }
    {
        match self.place_of_reference(alloc, scope, path, text)? {
            Some(place) if is_schema(place.value) => Ok(Some(place)),
            _ => Ok(None),
        }
    }

    // What a reference names, a schema or not.
    fn place_of_reference(
        &self,
        alloc: Global,
        scope: &[String],
        path: &[Segment],
        text: &str,
    ) -> Result<Option<Place<'v>>, AllocError>
        requires library { IsLibrary self.now }
        ensures path { IfOk result (λ o. option_map place_path o
            ≡ path_of_reference self.now.draft (documents_of self.now.documents)
            (scope_of scope.now) (path_of path.now) text.now) }
        ensures there { IfOk result (λ o. IfSome o (IsPlace (documents_of self.now.documents))) }
    {
        let (uri, fragment) = split_fragment(text);
        let base = self.documents.base_at(alloc, self.draft, path)?;
        let uri = resolved(alloc, base.as_str(), uri)?;
        match percent_decoded(alloc, fragment.unwrap_or(""))? {
            Some(name) => {
                let name = name.as_str();
                let uri = self.dynamic_resource(scope, name, uri.as_str());
                self.place_of_fragment(alloc, uri, name)
            }
            None => Ok(None),
        }
    }

    // What a fragment, decoded, names in the resource of a URI.
    fn place_of_fragment(
        &self,
        alloc: Global,
        uri: &str,
        fragment: &str,
    ) -> Result<Option<Place<'v>>, AllocError>
        ensures path { IfOk result (λ o. option_map place_path o
            ≡ path_of_fragment (documents_of self.now.documents)
            (identifiers_of self.now.identifiers.items) uri.now fragment.now) }
        ensures there { IfOk result (λ o. IfSome o (IsPlace (documents_of self.now.documents))) }
    {
        let (anchor, pointer) = if is_pointer(fragment) {
            ("", fragment)
        } else {
            (fragment, "")
        };
        match self.identified(uri, anchor) {
            Some(root) => self.place_from(alloc, root, pointer),
            None => Ok(None),
        }
    }

    // The path to what a URI and a plain name identify.
    fn identified(&self, uri: &str, anchor: &str) -> Option<&[Segment]>
        ensures { option_map (λ path. path_of path.now) result
            ≡ identified uri.now anchor.now (identifiers_of self.now.identifiers.items) }
    {
        for identifier in &self.identifiers {
            if identifier.uri.as_str() == uri && identifier.anchor.as_str() == anchor {
                return Some(&identifier.path);
            }
        }
        None
    }

    // What a pointer names from the value at a path on.
    fn place_from(
        &self,
        alloc: Global,
        root: &[Segment],
        pointer: &str,
    ) -> Result<Option<Place<'v>>, AllocError>
        ensures path { IfOk result (λ o. option_map place_path o
            ≡ path_from (documents_of self.now.documents) pointer.now (path_of root.now)) }
        ensures there { IfOk result (λ o. IfSome o (IsPlace (documents_of self.now.documents))) }
    {
        let Some(value) = self.documents.value_at(root) else {
            return Ok(None);
        };
        match place_of_pointer(alloc, value, pointer)? {
            Some(below) => Ok(Some(Place {
                path: path_joined(alloc, root, &below.path)?,
                value: below.value,
            })),
            None => Ok(None),
        }
    }
}

// Whether a fragment is a pointer, which is empty or begins with `/`.
fn is_pointer(fragment: &str) -> bool
    ensures { result ≡ is_pointer fragment.now }
{
    fragment.is_empty() || fragment.starts_with('/')
}

// A path, and another one behind it.
fn path_joined(
    alloc: Global,
    path: &[Segment],
    below: &[Segment],
) -> Result<Vec<Segment>, AllocError>
    ensures { IfOk result (λ joined. path_of joined.items
        ≡ path_of path.now ++ path_of below.now) }
{
    let mut joined = path_copy(alloc, path)?;
    for segment in below {
        joined.push(segment.as_step().to_segment(alloc)?)?;
    }
    Ok(joined)
}
