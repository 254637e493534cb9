//! Where the values of a JSON text begin, by their JSON pointers (RFC 6901).

ghost use Rattle.std.specs.Prelude.{◌≡◌, ◌≤◌, ℕ, List, IfOk, IfSome, drop, length, map, option_map, slice_get};
ghost use Rattle.std.specs.Str.{IsCharBoundary};
ghost use Rattle.neldrafi_position.specs.Parts.{elements};
ghost use Rattle.neldrafi_position.specs.Places.{child, member, value_along, value_at};
ghost use Rattle.neldrafi_position.specs.Positions.{offset_of};
ghost use Rattle.neldrafi_position.specs.machine.Kept.{AreStarts};

use crate::starts::{element_starts, member_starts, value_start};
use crate::tokens::{index_of, unescaped};
use std::alloc::{AllocError, Global};
use std::collections::BTreeMap;
use std::marker::Model;

/// A JSON text, and where the values begin of the containers that were passed over. Contracts see the text.
#[derive(Drop)]
pub(crate) struct Values<'a> {
    text: &'a str,
    // Where the value of the whole text begins.
    root: usize,
    // Where the elements of an array begin, by where its text begins behind the bracket.
    elements: BTreeMap<usize, Vec<usize>>,
    // Where the members of an object begin, by where its text begins behind the brace.
    members: BTreeMap<usize, BTreeMap<Vec<u8>, usize>>,
}

impl<'a> Model for Values<'a> {
    ghost use Rattle.std.specs.Prelude.{ℕ, List};
    ghost use Rattle.neldrafi_position.specs.machine.Kept.{AreKept};

    ghost Value = { List ℕ };

    ghost view = { λ v. v.text.now };

    ghost invariant = { λ v. AreKept v.text.now v.root v.elements v.members };
}

impl<'a> Values<'a> {
    /// The values of a text, of which no container was passed over.
    pub(crate) fn new(alloc: Global, text: &'a str) -> Values<'a>
        ensures { result ≡ text.now }
    {
        Values {
            text,
            root: value_start(text, text),
            elements: BTreeMap::new(alloc),
            members: BTreeMap::new(alloc),
        }
    }

    /// The bytes of the text.
    pub(crate) fn bytes(&self) -> &[u8]
        ensures { result.now ≡ self.now }
    {
        self.text.as_bytes()
    }

    /// Where the value at a JSON pointer begins, or the value of the whole text if there is none.
    pub(crate) fn start_of(&mut self, alloc: Global, pointer: &str) -> Result<usize, AllocError>
        ensures text { self.new ≡ self.old }
        ensures within { IfOk result (λ start. start ≤ length self.old) }
        ensures start { IfOk result (λ start. start ≡ offset_of pointer.now self.old) }
    {
        let found = self.start_at(alloc, pointer)?;
        Ok(found.unwrap_or(self.root))
    }

    // Where the value at a JSON pointer begins.
    fn start_at(&mut self, alloc: Global, pointer: &str) -> Result<Option<usize>, AllocError>
        ensures text { self.new ≡ self.old }
        ensures within { IfOk result (λ found. IfSome found (λ start. start ≤ length self.old)) }
        ensures start { IfOk result (λ found.
            option_map (λ start. drop start self.old) found ≡ value_at pointer.now self.old) }
    {
        let tokens: Vec<&str> = pointer.split('/').collect(alloc)?;
        let [first, tokens @ ..] = tokens.as_slice() else {
            return Ok(None);
        };
        if !first.is_empty() {
            return Ok(None);
        }
        self.start_along(alloc, tokens)
    }

    // Where the value begins to which tokens lead from the value of the whole text.
    fn start_along(&mut self, alloc: Global, tokens: &[&str]) -> Result<Option<usize>, AllocError>
        ensures text { self.new ≡ self.old }
        ensures within { IfOk result (λ found. IfSome found (λ start. start ≤ length self.old)) }
        ensures start { IfOk result (λ found. option_map (λ start. drop start self.old) found
            ≡ value_along (map (λ t. t.now) tokens.now) self.old) }
    {
        let mut start = self.root;
        for token in tokens {
            let Some(found) = self.child_start(alloc, start, token)? else {
                return Ok(None);
            };
            start = found;
        }
        Ok(Some(start))
    }

    // Where the value begins to which a token leads from the value at an offset.
    fn child_start(
        &mut self,
        alloc: Global,
        start: usize,
        token: &str,
    ) -> Result<Option<usize>, AllocError>
        requires { IsCharBoundary self.old start }
        ensures text { self.new ≡ self.old }
        ensures start { IfOk result (λ found. AreStarts self.old found
            (child token.now (drop start self.old))) }
    {
        let Some(first) = self.text.as_bytes().get(start) else {
            return Ok(None);
        };
        if *first == b'[' {
            let Some(index) = index_of(token) else {
                return Ok(None);
            };
            return self.element_start(alloc, start + 1, index);
        }
        if *first == b'{' {
            return self.member_start(alloc, start + 1, token);
        }
        Ok(None)
    }

    // Where the element of this index begins, of the array whose text begins at an offset, behind the bracket.
    fn element_start(
        &mut self,
        alloc: Global,
        inside: usize,
        index: usize,
    ) -> Result<Option<usize>, AllocError>
        requires { IsCharBoundary self.old inside }
        ensures text { self.new ≡ self.old }
        ensures start { IfOk result (λ found. AreStarts self.old found
            (slice_get (elements (drop inside self.old)) index)) }
    {
        if let Some(starts) = self.elements.get(&inside) {
            return Ok(starts.get(index).copied());
        }
        let starts = element_starts(alloc, self.text, inside)?;
        let found = starts.get(index).copied();
        self.elements.insert(inside, starts)?;
        Ok(found)
    }

    // Where the last member begins that a token names, of the object whose text begins at an offset, behind the brace.
    fn member_start(
        &mut self,
        alloc: Global,
        inside: usize,
        token: &str,
    ) -> Result<Option<usize>, AllocError>
        requires { IsCharBoundary self.old inside }
        ensures text { self.new ≡ self.old }
        ensures start { IfOk result (λ found. AreStarts self.old found
            (member token.now (drop inside self.old))) }
    {
        let name = unescaped(alloc, token)?;
        if let Some(starts) = self.members.get(&inside) {
            return Ok(starts.get(name.as_slice()).copied());
        }
        let starts = member_starts(alloc, self.text, inside)?;
        let found = starts.get(name.as_slice()).copied();
        self.members.insert(inside, starts)?;
        Ok(found)
    }
}
