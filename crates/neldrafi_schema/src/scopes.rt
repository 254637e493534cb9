//! Dynamic scopes: the resources that are entered on the way to a schema, outermost first, by their URIs.

ghost use Rattle.std.specs.Prelude.{◌≡◌, IfOk, option_map};
ghost use Rattle.neldrafi_schema.specs.Scopes.{adds_anchor, dynamic_resource, entered, has_dynamic, is_added, is_dynamic_anchor, outermost};
ghost use Rattle.neldrafi_schema.specs.machine.Compiled.{path_of};
ghost use Rattle.neldrafi_schema.specs.machine.Identifiers.{IsLibrary, identifier_of, identifiers_of};
ghost use Rattle.neldrafi_schema.specs.machine.Places.{documents_of, scope_of};

use crate::identifiers::Identifier;
use crate::places::scope_copy;
use crate::references::Library;
use crate::segment::Segment;
use std::alloc::{AllocError, Global};

impl Library<'_> {
    /// The scope in the schema at a path, which is entered from a scope.
    pub fn entered(
        &self,
        alloc: Global,
        scope: &[String],
        path: &[Segment],
    ) -> Result<Vec<String>, AllocError>
        requires library { IsLibrary self.now }
        ensures { IfOk result (λ inside. scope_of inside.items ≡ entered self.now.draft
            (documents_of self.now.documents) (scope_of scope.now) (path_of path.now)) }
    {
        let base = self.documents.base_at(alloc, self.draft, path)?;
        let mut inside = scope_copy(alloc, scope)?;
        if self.adds_anchor(scope, base.as_str()) {
            inside.push(base)?;
        }
        Ok(inside)
    }

    /// The resource to which a reference leads that names this one, with a plain name.
    pub fn dynamic_resource<'s>(&self, scope: &'s [String], name: &str, uri: &'s str) -> &'s str
        ensures { result.now ≡ dynamic_resource (identifiers_of self.now.identifiers.items)
            (scope_of scope.now) name.now uri.now }
    {
        if self.has_dynamic(name, uri) {
            self.outermost(name, scope).unwrap_or(uri)
        } else {
            uri
        }
    }

    // Whether the resource of a URI has a dynamic anchor that no resource of a scope has.
    fn adds_anchor(&self, scope: &[String], uri: &str) -> bool
        ensures { result ≡ adds_anchor (identifiers_of self.now.identifiers.items)
            (scope_of scope.now) uri.now }
    {
        for identifier in &self.identifiers {
            if self.is_added(scope, uri, identifier) {
                return true;
            }
        }
        false
    }

    // Whether an identifier is such an anchor.
    fn is_added(&self, scope: &[String], uri: &str, identifier: &Identifier) -> bool
        ensures { result ≡ is_added (identifiers_of self.now.identifiers.items)
            (scope_of scope.now) uri.now (identifier_of identifier.now) }
    {
        identifier.is_dynamic
            && identifier.uri.as_str() == uri
            && self.outermost(identifier.anchor.as_str(), scope).is_none()
    }

    // The outermost resource of a scope that has a dynamic anchor of this name.
    fn outermost<'s>(&self, name: &str, scope: &'s [String]) -> Option<&'s str>
        ensures { option_map (λ t. t.now) result ≡ outermost
            (identifiers_of self.now.identifiers.items) name.now (scope_of scope.now) }
    {
        for uri in scope {
            if self.has_dynamic(name, uri.as_str()) {
                return Some(uri.as_str());
            }
        }
        None
    }

    // Whether the resource of a URI has a dynamic anchor of this name.
    fn has_dynamic(&self, name: &str, uri: &str) -> bool
        ensures { result ≡ has_dynamic (identifiers_of self.now.identifiers.items) name.now
            uri.now }
    {
        for identifier in &self.identifiers {
            if is_dynamic_anchor(name, uri, identifier) {
                return true;
            }
        }
        false
    }
}

// Whether an identifier is a dynamic anchor of this name, in the resource of a URI.
fn is_dynamic_anchor(name: &str, uri: &str, identifier: &Identifier) -> bool
    ensures { result ≡ is_dynamic_anchor name.now uri.now (identifier_of identifier.now) }
{
    identifier.is_dynamic && identifier.uri.as_str() == uri && identifier.anchor.as_str() == name
}
