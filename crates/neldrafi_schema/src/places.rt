//! The schemas of a document, by number, with their places; and what JSON pointers lead to.

ghost use Rattle.std.specs.Prelude.{◌≡◌, ◌++◌, ◌∷◌, IfOk, IfSome, OnOk, [], map, option_map, string_bytes};
ghost use Rattle.serde_json.specs.Find.{unescape};
ghost use Rattle.serde_json.specs.View.{view};
ghost use Rattle.neldrafi_schema.specs.Paths.{location_of};
ghost use Rattle.neldrafi_schema.specs.References.{decoded, is_schema, path_along, path_of_pointer, place_named, segment_at};
ghost use Rattle.neldrafi_schema.specs.machine.Compiled.{path_of, segment_of, step_of};
ghost use Rattle.neldrafi_schema.specs.Paths.{document};
ghost use Rattle.neldrafi_schema.specs.machine.Places.{IsBelow, IsPlace, documents_of, place_path, scope_of};
ghost use Rattle.neldrafi_schema.specs.machine.Words.{after_tilde, begins_oddly};

use crate::documents::Documents;
use crate::segment::{Segment, Step};
use percent_encoding::percent_decode;
use serde_json::Value;
use std::alloc::{AllocError, Global};
use strkw_report::Location;

/// A schema of the document, and the segments that lead to it.
#[derive(Drop)]
pub(crate) struct Place<'v> {
    pub path: Vec<Segment>,
    pub value: &'v Value,
}

/// A schema, and the dynamic scope from which it is entered: the URIs of resources, outermost first.
#[derive(Drop)]
pub(crate) struct ScopedPlace<'v> {
    pub scope: Vec<String>,
    pub place: Place<'v>,
}

/// The schemas that are found so far, by number.
#[derive(Drop)]
pub(crate) struct Places<'v> {
    pub documents: Documents<'v>,
    pub places: Vec<ScopedPlace<'v>>,
}

impl<'v> Places<'v> {
    ghost use Rattle.neldrafi_schema.specs.machine.Places.{Grown, IsTable, StaysAt, scoped_paths};

    /// The root of the schema alone, entered from no scope.
    pub fn of(alloc: Global, documents: Documents<'v>) -> Result<Places<'v>, AllocError>
        ensures table { IfOk result IsTable }
        ensures documents { IfOk result (λ t. documents_of t.documents
            ≡ documents_of documents.entry) }
        ensures root { IfOk result (λ t. scoped_paths t.places.items
            ≡ record { scope = []; path = document 0 ∷ [] } ∷ []) }
    {
        let mut places = Vec::new(alloc);
        places.push(ScopedPlace {
            scope: Vec::new(alloc),
            place: Place {
                path: vec![in alloc; Segment::Document(0)]?,
                value: documents.schema,
            },
        })?;
        Ok(Places { documents, places })
    }

    /// Numbers the value at a path, entered from a scope.
    pub fn number(
        &mut self,
        alloc: Global,
        scope: &[String],
        place: Place<'v>,
    ) -> Result<usize, AllocError>
        requires table { IsTable self.old }
        requires there { IsPlace (documents_of self.old.documents) place }
        ensures number { IfOk result (λ n. StaysAt (scoped_paths self.new.places.items) n
            (scope_of scope.now) (place_path place.entry)) }
        ensures grown { OnOk result (Grown self.old self.new) }
    {
        let number = self.places.len();
        let scope = scope_copy(alloc, scope)?;
        self.places.push(ScopedPlace { scope, place })?;
        Ok(number)
    }

    /// The number of the value at a path, entered from a scope, which may have been numbered before.
    pub fn number_known(
        &mut self,
        alloc: Global,
        scope: &[String],
        place: Place<'v>,
    ) -> Result<usize, AllocError>
        requires table { IsTable self.old }
        requires there { IsPlace (documents_of self.old.documents) place }
        ensures number { IfOk result (λ n. StaysAt (scoped_paths self.new.places.items) n
            (scope_of scope.now) (place_path place.entry)) }
        ensures grown { OnOk result (Grown self.old self.new) }
    {
        for number in 0..self.places.len() {
            let known = &self.places[number];
            if known.place.path == place.path && known.scope.as_slice() == scope {
                return Ok(number);
            }
        }
        self.number(alloc, scope, place)
    }
}

/// The same scope.
pub(crate) fn scope_copy(alloc: Global, scope: &[String]) -> Result<Vec<String>, AllocError>
    ensures { IfOk result (λ copy. scope_of copy.items ≡ scope_of scope.now) }
{
    let mut copy = Vec::new(alloc);
    for uri in scope {
        copy.push(uri.clone()?)?;
    }
    Ok(copy)
}

/// The same path.
pub(crate) fn path_copy(alloc: Global, path: &[Segment]) -> Result<Vec<Segment>, AllocError>
    ensures { IfOk result (λ copy. path_of copy.items ≡ path_of path.now) }
{
    let mut copy = Vec::new(alloc);
    for segment in path {
        copy.push(segment.as_step().to_segment(alloc)?)?;
    }
    Ok(copy)
}

/// A path, and one step more.
pub(crate) fn path_below(
    alloc: Global,
    path: &[Segment],
    step: Step<'_>,
) -> Result<Vec<Segment>, AllocError>
    ensures { IfOk result (λ below. path_of below.items
        ≡ path_of path.now ++ step_of step.entry ∷ []) }
{
    let mut below = path_copy(alloc, path)?;
    below.push(step.to_segment(alloc)?)?;
    Ok(below)
}

/// A path as a location.
pub(crate) fn location_of(alloc: Global, path: &[Segment]) -> Result<Location, AllocError>
    ensures { IfOk result (λ l. l ≡ location_of (path_of path.now)) }
{
    let mut location = Location::root(alloc);
    for segment in path {
        location = segment.as_step().below(alloc, &location)?;
    }
    Ok(location)
}

/// Whether a value is an object or a boolean.
pub(crate) fn is_schema(value: &Value) -> bool
    ensures { result ≡ is_schema (view value.now) }
{
    value.is_object() || value.is_boolean()
}

/// What a JSON pointer leads to. Nothing precedes its first `/`.
pub(crate) fn place_of_pointer<'v>(
    alloc: Global,
    document: &'v Value,
    pointer: &str,
) -> Result<Option<Place<'v>>, AllocError>
    ensures path { IfOk result (λ o. option_map place_path o
        ≡ path_of_pointer (view document.now) pointer.now) }
    ensures there { IfOk result (λ o. IfSome o (IsBelow (view document.now))) }
{
    let tokens: Vec<&str> = pointer.split('/').collect(alloc)?;
    let [first, tokens @ ..] = tokens.as_slice() else {
        return Ok(None);
    };
    if !first.is_empty() {
        return Ok(None);
    }
    place_along(alloc, document, tokens)
}

/// What a fragment stands for, if that is UTF-8 (RFC 6901, section 6).
pub(crate) fn percent_decoded(alloc: Global, fragment: &str) -> Result<Option<String>, AllocError>
    ensures { IfOk result (λ o. option_map string_bytes o ≡ decoded fragment.now) }
{
    let mut bytes = Vec::new(alloc);
    percent_decode(fragment.as_bytes()).append_to(&mut bytes)?;
    Ok(String::from_utf8(bytes).ok())
}

// What the tokens of a pointer lead to, if anything is there.
fn place_along<'v>(
    alloc: Global,
    document: &'v Value,
    tokens: &[&str],
) -> Result<Option<Place<'v>>, AllocError>
    ensures path { IfOk result (λ o. option_map place_path o
        ≡ path_along (map (λ t. t.now) tokens.now) (view document.now)) }
    ensures there { IfOk result (λ o. IfSome o (IsBelow (view document.now))) }
{
    let mut path = Vec::new(alloc);
    let mut value = document;
    for token in tokens {
        let segment = segment_at(alloc, value, token)?;
        let Some(below) = segment.as_step().child(value) else {
            return Ok(None);
        };
        path.push(segment)?;
        value = below;
    }
    Ok(Some(Place { path, value }))
}

// What a token says at a value: a place where it is one of an array, and else a key.
fn segment_at(alloc: Global, value: &Value, token: &str) -> Result<Segment, AllocError>
    ensures { IfOk result (λ s. segment_of s ≡ segment_at (view value.now) token.now) }
{
    if value.is_array() {
        if let Some(place) = place_named(token) {
            return Ok(Segment::Place(place));
        }
    }
    Ok(Segment::Key(unescaped(alloc, token)?))
}

// The place that digits name, with no 0 before another (RFC 6901, section 4).
fn place_named(token: &str) -> Option<usize>
    ensures { result ≡ place_named token.now }
{
    if begins_oddly(token.as_bytes()) {
        return None;
    }
    token.parse::<usize>().ok()
}

// With a plus, or with a 0 before more.
fn begins_oddly(token: &[u8]) -> bool
    ensures { result ≡ begins_oddly token.now }
{
    match token {
        [first] => *first == b'+',
        [first, _, ..] => *first == b'+' || *first == b'0',
        [] => false,
    }
}

// The key that a token of a pointer stands for (RFC 6901, section 4).
fn unescaped(alloc: Global, token: &str) -> Result<String, AllocError>
    ensures { IfOk result (λ key. string_bytes key ≡ unescape token.now) }
{
    let parts: Vec<&str> = token.split('~').collect(alloc)?;
    let mut key = String::new(alloc);
    let [plain, others @ ..] = parts.as_slice() else {
        return Ok(key);
    };
    key.push_str(plain)?;
    for part in others {
        push_after_tilde(part, &mut key)?;
    }
    Ok(key)
}

// Appends what a `~` and the part of a token behind it stand for.
fn push_after_tilde(part: &str, key: &mut String) -> Result<(), AllocError>
    ensures { OnOk result (string_bytes key.new ≡ string_bytes key.old ++ after_tilde part.now) }
{
    if let Some(rest) = part.strip_prefix('1') {
        key.push_str("/")?;
        key.push_str(rest)
    } else if let Some(rest) = part.strip_prefix('0') {
        key.push_str("~")?;
        key.push_str(rest)
    } else {
        key.push_str("~")?;
        key.push_str(part)
    }
}
