//! A source, with what was read of it.

ghost use Rattle.std.specs.Prelude.{◌≡◌, ◌≤◌, ◌<◌, ◌++◌, ◌∷◌, ℕ, List, [], Some, None, length, take, drop, option_map, slice_get, slice_index, true, false, IfErr, IfOk, IfSome, OnErr, OnOk};
ghost use Rattle.std.specs.Io.KnownBytes.{IsAtEnd};
ghost use Rattle.neldrafi_csv.specs.Grammar.{is_line_byte};
ghost use Rattle.neldrafi_csv.specs.Lines.{AreLineBytes, first_place, place_after};
ghost use Rattle.neldrafi_csv.specs.Marks.{without_mark};
ghost use Rattle.neldrafi_csv.specs.machine.Faults.{Fails};
ghost use Rattle.neldrafi_csv.specs.machine.Inputs.{Passes, rest_of, unread_in};
ghost use Rattle.neldrafi_csv.specs.declared.place.Place.{Place};

use crate::buffer::Buffer;
use crate::faults::ReadFault;
use crate::place::Place;
use crate::runs::line_bytes_run;
use std::alloc::{AllocError, Global};
use std::io::Read;

// The byte order mark.
const MARK: [u8; 3] = [0xEF, 0xBB, 0xBF];

/// What a source has left, and where in the text that begins.
#[derive(Drop)]
pub(crate) struct Input<R> {
    source: R,
    pub(crate) buffer: Buffer,
    pub(crate) place: Place,
    // The start of the text is behind, with a byte order mark.
    pub(crate) has_begun: bool,
}

impl<R: Read> Input<R> {
    /// The start of a source.
    pub(crate) fn new(alloc: Global, source: R) -> Result<Input<R>, AllocError>
    where
        R: Drop,
        ensures rest { IfOk result (λ input. rest_of R.remaining input ≡ R.remaining source) }
        ensures place { IfOk result (λ input. input.place ≡ first_place) }
        ensures buffer { IfOk result (λ input. input.buffer ≡ []) }
        ensures begun { IfOk result (λ input. input.has_begun ≡ false) }
    {
        let buffer = Buffer::new(alloc)?;
        Ok(Input {
            source,
            buffer,
            place: Place::start(),
            has_begun: false,
        })
    }

    /// Reads more bytes, and returns whether the source is at its end.
    pub(crate) fn fill(&mut self) -> Result<bool, ReadFault>
        ensures text { (text : List ℕ) → rest_of R.remaining self.old ≡ Some text
            → rest_of R.remaining self.new ≡ Some text }
        ensures more { (more : List ℕ) × (self.new.buffer ≡ self.old.buffer ++ more) }
        ensures end { IfOk result (λ ended. ended ≡ true → (self.new.buffer ≡ self.old.buffer)
            × IsAtEnd (R.remaining self.new.source)) }
        ensures some { IfOk result (λ ended. ended ≡ false
            → length self.old.buffer < length self.new.buffer) }
        ensures place { self.new.place ≡ self.old.place }
        ensures begun { self.new.has_begun ≡ self.old.has_begun }
        ensures fails { (place : Place) (text : List ℕ) → IfErr result (Fails place text) }
    {
        self.buffer.fill(&mut self.source)
    }

    // Reads more bytes if there is none in the buffer, and returns whether there is one.
    fn has_more(&mut self) -> Result<bool, ReadFault>
        ensures text { (text : List ℕ) → rest_of R.remaining self.old ≡ Some text
            → rest_of R.remaining self.new ≡ Some text }
        ensures some { IfOk result (λ more. more ≡ true → 0 < length self.new.buffer) }
        ensures none { IfOk result (λ more. more ≡ false → (self.new.buffer ≡ [])
            × IsAtEnd (R.remaining self.new.source)) }
        ensures place { self.new.place ≡ self.old.place }
        ensures begun { self.new.has_begun ≡ self.old.has_begun }
        ensures fails { (place : Place) (text : List ℕ) → IfErr result (Fails place text) }
    {
        if !self.buffer.bytes().is_empty() {
            return Ok(true);
        }
        let is_last = self.fill()?;
        Ok(!is_last)
    }

    /// Goes past a byte order mark, if nothing was read yet.
    pub(crate) fn begin(&mut self) -> Result<(), ReadFault>
        ensures text { (text : List ℕ) → unread_in R.remaining self.old ≡ Some text
            → unread_in R.remaining self.new ≡ Some text }
        ensures begun { OnOk result (self.new.has_begun ≡ true) }
        ensures place { self.new.place ≡ self.old.place }
        ensures fails { (text : List ℕ) → IfErr result (Fails self.old.place text) }
    {
        if self.has_begun {
            return Ok(());
        }
        self.skip_mark()
    }

    // Goes past a byte order mark at the start of the text.
    fn skip_mark(&mut self) -> Result<(), ReadFault>
        requires { self.old.has_begun ≡ false }
        ensures ok { (text : List ℕ) → rest_of R.remaining self.old ≡ Some text
            → OnOk result (rest_of R.remaining self.new ≡ Some (without_mark text)) }
        ensures err { (text : List ℕ) → rest_of R.remaining self.old ≡ Some text
            → OnErr result (rest_of R.remaining self.new ≡ Some text) }
        ensures begun { OnOk result (self.new.has_begun ≡ true) }
        ensures not_begun { OnErr result (self.new.has_begun ≡ false) }
        ensures place { self.new.place ≡ self.old.place }
        ensures fails { (text : List ℕ) → IfErr result (Fails self.old.place text) }
    {
        let mut is_last = false;
        'pieces: while !is_last && self.buffer.bytes().len() < MARK.len() {
            is_last = self.fill()?;
        }
        if self.buffer.bytes().starts_with(&MARK) {
            self.buffer.remove(MARK.len());
        }
        self.has_begun = true;
        Ok(())
    }

    /// The place behind so many bytes of the buffer.
    pub(crate) fn place_behind(&self, count: usize) -> Result<Place, ReadFault>
        requires { count ≤ length self.now.buffer }
        ensures ok { IfOk result (λ place. place
            ≡ place_after self.now.place (take count self.now.buffer)) }
        ensures fails { (text : List ℕ) → rest_of R.remaining self.now ≡ Some text
            → IfErr result (Fails self.now.place text) }
    {
        let bytes = &self.buffer.bytes()[..count];
        self.place.behind(bytes).ok_or(ReadFault::TooLong)
    }

    // Goes past bytes of the buffer.
    fn take(&mut self, count: usize) -> Result<(), ReadFault>
        requires { count ≤ length self.old.buffer }
        ensures buffer { OnOk result (self.new.buffer ≡ drop count self.old.buffer) }
        ensures passes { (text : List ℕ) → rest_of R.remaining self.old ≡ Some text
            → OnOk result (Passes R.remaining self.old self.new text
            (take count self.old.buffer) (drop count text)) }
        ensures fails { (text : List ℕ) → rest_of R.remaining self.old ≡ Some text
            → IfErr result (Fails self.old.place text) }
        ensures kept { OnErr result (self.new ≡ self.old) }
    {
        self.place = self.place_behind(count)?;
        self.buffer.remove(count);
        Ok(())
    }

    /// Goes past the ends of blank lines, and returns whether a byte is left.
    pub(crate) fn skip_blank_lines(&mut self) -> Result<bool, ReadFault>
        ensures passes { (text : List ℕ) → rest_of R.remaining self.old ≡ Some text
            → (blank : List ℕ) × (rest : List ℕ) × AreLineBytes blank
            × Passes R.remaining self.old self.new text blank rest }
        ensures some { IfOk result (λ more. more ≡ true
            → IfSome (slice_get self.new.buffer 0) (λ c. is_line_byte c ≡ false)) }
        ensures found { IfOk result (λ more. more ≡ true → 0 < length self.new.buffer) }
        ensures none { IfOk result (λ more. more ≡ false → (self.new.buffer ≡ [])
            × IsAtEnd (R.remaining self.new.source)) }
        ensures fails { (text : List ℕ) → rest_of R.remaining self.old ≡ Some text
            → IfErr result (Fails self.old.place text) }
    {
        'pieces: for turn in 0..u64::MAX {
            if !self.has_more()? {
                return Ok(false);
            }
            let count = line_bytes_run(self.buffer.bytes());
            if count == 0 {
                return Ok(true);
            }
            self.take(count)?;
        }
        Err(ReadFault::TooLong)
    }
}
