//! The schema object that lines share, cached with what it is compiled to.

ghost use Rattle.std.specs.Prelude.{◌<◌, ◌≤◌, ◌↔◌, ◌≡◌, [], IfOk, IfSome, IsTrue, None, OnErr, Some, drop, length, nat_eq, true};
ghost use Rattle.std.specs.List.{starts_with};
ghost use Rattle.json.specs.Lex.{tokens as tokens_of_text};
ghost use Rattle.serde_json.specs.Data.{Members, object};
ghost use Rattle.strkw_json.specs.Passing.{value_read};
ghost use Rattle.strkw_object.specs.Values.{AreOwnedOf};
ghost use Rattle.strkw_cache.specs.Cached.{IsCached, Keeps};
ghost use Rattle.strkw_cache.specs.Depths.{member_depth};
ghost use Rattle.strkw_cache.specs.Fronts.{Asks};

use super::fronts::{are_plain, front_in};
use super::terms::{Compiled, Terms, compile};
use super::tokens::{OwnedToken, take_same, tokens_in};
use super::told::push_told;
use super::values::read_values;
use json::{Reader, Scratch};
use memchr::memrchr;
use std::alloc::{AllocError, Global};
use strkw_json::JsonError;
use strkw_object::OwnedValues;

// So many lines in turn have a schema object of one length and the same terms before the first is cached, if its text
// is that of the eighth of them. Before the next is cached they are so many more, less one for each line that the first
// has answered.
const LINES_BEFORE: usize = 16;

const LINES_BEFORE_TEXT: usize = 8;

/// A schema object as its text and tokens, what it is compiled to, and what that tells of each text.
#[derive(Drop)]
pub struct CachedObject {
    /// Its text.
    pub text: Vec<u8>,
    /// The tokens of the text.
    pub tokens: Vec<OwnedToken>,
    /// The terms under which it is compiled.
    pub terms: Terms,
    /// What it is compiled to.
    pub compiled: Compiled,
    /// What each answer by it tells behind the errors of a text. Of a refusal it is the whole answer.
    pub told: Vec<u8>,
    /// What the lines begin with that ask it of a text as one of them did, up to the text, where that has no option.
    pub front: Option<String>,
}

impl CachedObject {
    // The object that a text is, if it is one, compiled under these terms. The text stands in a line.
    fn of(
        alloc: Global,
        scratch: &mut Scratch,
        values: &mut OwnedValues,
        line: &[u8],
        bytes: &[u8],
        terms: Terms,
    ) -> Result<Option<CachedObject>, AllocError>
        ensures { IfOk result (λ found. IfSome found IsCached) }
    {
        let Ok(text) = std::str::from_utf8(bytes) else {
            return Ok(None);
        };
        if !reads_values(alloc, scratch, text, values)? {
            return Ok(None);
        }
        let tokens = tokens_in(alloc, scratch, text)?;
        let compiled = compile(alloc, terms, values);
        let mut told = Vec::new(alloc);
        push_told(alloc, &compiled, None, &mut told)?;
        let front = front_in(alloc, scratch, line, terms, &tokens)?;
        Ok(Some(CachedObject {
            text: Vec::from_slice(alloc, bytes)?,
            tokens,
            terms,
            compiled,
            told,
            front,
        }))
    }

    /// Whether it is compiled under these terms.
    pub fn is_compiled_under(&self, terms: Terms) -> bool
        ensures { IsTrue result ↔ (self.now.terms ≡ terms) }
    {
        self.terms == terms
    }

    /// Whether the text of the object stands in a line, from this byte on.
    pub fn stands_at(&self, line: &[u8], start: usize) -> bool
        ensures { IsTrue result ↔ (start ≤ length line.now)
            × (starts_with nat_eq (drop start line.now) self.now.text.items ≡ true) }
    {
        match line.get(start..) {
            Some(rest) => rest.starts_with(&self.text),
            None => false,
        }
    }

    /// Takes the tokens of the object: whether they come. Else others are taken, up to some place.
    pub fn takes(&self, tokens: &mut Reader<'_>) -> bool
        requires { IsCached self.now }
        ensures taken { (ms : Members) → Keeps self.now ms → IsTrue result
            → value_read member_depth tokens.old ≡ Some (object ms, tokens.new) }
        ensures shorter { IsTrue result → length tokens.new < length tokens.old }
    {
        take_same(&self.tokens, tokens)
    }

    /// The text that a line asks the object of, where the line is the front, a text with no escape, and what ends it.
    pub fn text_asked<'a>(&self, line: &'a str) -> Option<&'a str>
        requires { IsCached self.now }
        ensures { IfSome result (λ text. (ms : Members) → Keeps self.now ms
            → Asks self.now.terms ms text.now line.now) }
    {
        let rest = line.strip_prefix(self.front.as_ref()?.as_str())?;
        let text = rest.strip_suffix("\"}")?;
        if are_plain(text.as_bytes()) {
            Some(text)
        } else {
            None
        }
    }
}

// Whether a text is an object, of which then the values are read.
fn reads_values(
    alloc: Global,
    scratch: &mut Scratch,
    text: &str,
    values: &mut OwnedValues,
) -> Result<bool, AllocError>
    ensures { IfOk result (λ is_object. IsTrue is_object → (ms : Members)
        × (value_read member_depth (tokens_of_text text.now) ≡ Some (object ms, []))
        × AreOwnedOf ms values.new) }
{
    let mut tokens = Reader::new(text, scratch)?;
    match read_values(alloc, &mut tokens, values) {
        Ok(is_object) => Ok(is_object && tokens.next().is_none()),
        Err(JsonError::NotJson) => Ok(false),
        Err(JsonError::Memory) => Err(AllocError),
    }
}

/// Where the schema object of a line stands, and the terms of the line.
#[derive(Clone, Copy)]
pub struct Occurrence {
    /// The terms of the line.
    pub terms: Terms,
    /// The place of the object's first byte.
    pub start: usize,
    /// A place behind its last byte, and before the next token.
    pub end: usize,
}

impl Occurrence {
    // The text of the object.
    fn text_in<'a>(&self, line: &'a [u8]) -> Option<&'a [u8]> {
        let front = line.get(self.start..self.end)?;
        let last = memrchr(b'}', front)?;
        front.get(..=last)
    }
}

/// What is held from line to line: the schema object that lines shared, once enough of them did.
#[derive(Drop)]
pub struct Cache {
    // No object is cached whose text is longer.
    longest: usize,
    // How long the object of the last line is, the terms of the line, how many lines in turn had both, and how many
    // have to before the object is cached.
    len: usize,
    terms: Option<Terms>,
    lines: usize,
    wanted: usize,
    // The text of the object of one of these lines.
    text: Vec<u8>,
    /// The object that is cached.
    pub object: Option<CachedObject>,
}

impl Cache {
    /// Nothing is cached yet, and then no object whose text is longer than so many bytes.
    pub fn new(alloc: Global, longest: usize) -> Self
        ensures { result.object ≡ None }
    {
        Cache {
            longest,
            len: 0,
            terms: None,
            lines: 0,
            wanted: LINES_BEFORE,
            text: Vec::new(alloc),
            object: None,
        }
    }

    /// Drops the object.
    pub fn forget(&mut self)
        ensures { self.new.object ≡ None }
    {
        self.object = None;
    }

    /// Sees the object of a line, or `None` where the cached one answered it. The object is cached where enough lines
    /// in turn have one of its length and the same terms, and some of them its text. The first lines that it answers
    /// are looked at for what they begin with, until that is known.
    ///
    /// The only error is out of memory. Then the object is the one that was cached before.
    pub fn see(
        &mut self,
        alloc: Global,
        scratch: &mut Scratch,
        values: &mut OwnedValues,
        line: &[u8],
        seen: Option<Occurrence>,
    ) -> Result<(), AllocError>
        requires { IfSome self.old.object IsCached }
        ensures sound { IfSome self.new.object IsCached }
        ensures err { OnErr result (self.new.object ≡ self.old.object) }
    {
        let Some(seen) = seen else {
            if self.wanted <= LINES_BEFORE {
                return Ok(());
            }
            self.wanted = self.wanted.saturating_sub(1);
            return self.find_front(alloc, scratch, line);
        };
        let len = seen.end.saturating_sub(seen.start);
        if self.len != len || self.terms != Some(seen.terms) {
            self.len = len;
            self.terms = Some(seen.terms);
            self.lines = 0;
        }
        self.lines = self.lines.saturating_add(1);
        if self.lines != LINES_BEFORE_TEXT && self.lines < self.wanted {
            return Ok(());
        }
        let Some(text) = seen.text_in(line) else {
            return Ok(());
        };
        if self.lines < self.wanted {
            return self.note(text);
        }
        self.lines = 0;
        if self.text.as_slice() == text {
            self.wanted = self.wanted.saturating_add(LINES_BEFORE);
            self.object = CachedObject::of(alloc, scratch, values, line, text, seen.terms)?;
        }
        Ok(())
    }

    // Finds what the lines begin with that ask the cached object of a text, in one that it has answered, unless it is
    // known.
    fn find_front(
        &mut self,
        alloc: Global,
        scratch: &mut Scratch,
        line: &[u8],
    ) -> Result<(), AllocError>
        requires { IfSome self.old.object IsCached }
        ensures sound { IfSome self.new.object IsCached }
        ensures err { OnErr result (self.new.object ≡ self.old.object) }
    {
        if let Some(object) = &mut self.object {
            if object.front.is_none() {
                object.front = front_in(alloc, scratch, line, object.terms, &object.tokens)?;
            }
        }
        Ok(())
    }

    // Notes the text of an object, unless it is too long to cache.
    fn note(&mut self, text: &[u8]) -> Result<(), AllocError>
        ensures { self.new.object ≡ self.old.object }
    {
        self.text.clear();
        if text.len() <= self.longest {
            self.text.extend_from_slice(text)?;
        }
        Ok(())
    }
}
