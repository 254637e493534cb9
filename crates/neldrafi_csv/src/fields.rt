//! The fields of a record.

ghost use Rattle.std.specs.List.{slice_range};
ghost use Rattle.std.specs.Prelude.{◌≡◌, ◌+◌, ◌++◌, ◌≤◌, ℕ, List, [], ◌∷◌, Option, IfOk, OnOk, drop, length, option_and_then, option_map, slice_get, take};
ghost use Rattle.neldrafi_csv.specs.Records.{IsMisplaced};
ghost use Rattle.neldrafi_csv.specs.machine.Scans.{HasShape};
ghost use Rattle.neldrafi_csv.specs.machine.Spans.{AreTaken, IsKept, IsSpan, IsTaken, TakesField, value_in, values_in};

use crate::delimiter::Delimiter;
use crate::scan::{Known, Scan, Shape, byte_at, push_value, scan_field};
use std::alloc::{AllocError, Global};

/// Where the value of a field is.
#[derive(Clone, Copy)]
pub(crate) enum Span {
    /// In the bytes of the record.
    Text {
        /// Where it begins.
        from: usize,
        /// Where it ends.
        to: usize,
    },
    /// In what was copied.
    Copied {
        /// Where it begins.
        from: usize,
        /// Where it ends.
        to: usize,
    },
    /// Nowhere: a quote is misplaced.
    Misplaced,
}

/// What fields were taken up to.
#[derive(Clone, Copy, PartialEq, Eq)]
pub(crate) enum Taken {
    /// The end of the record.
    Record,
    /// An escaped field that is not closed.
    Open,
    /// A field that does not end in the bytes.
    More,
}

/// The bytes from one index to another, as far as there are such.
#[inline(always)]
pub(crate) fn part(bytes: &[u8], from: usize, to: usize) -> &[u8]
    ensures { result.now ≡ slice_range bytes.now from to }
{
    let rest = bytes.get(from..).unwrap_or(&[]);
    let count = to.saturating_sub(from).min(rest.len());
    &rest[..count]
}

// The number of the first field with a misplaced quote, by that of the fields before, the last field and its number.
#[inline(always)]
fn first_misplaced(before: Option<usize>, span: Span, number: usize) -> Option<usize>
    ensures { (bytes copied : List ℕ) (values : List (Option (List ℕ))) → IsMisplaced values before
        → number ≡ length values + 1
        → IsMisplaced (values ++ (value_in bytes copied span ∷ [])) result }
{
    if before.is_some() {
        return before;
    }
    match span {
        Span::Misplaced => Some(number),
        _ => None,
    }
}

/// The fields that were taken of a record.
#[derive(Drop)]
pub(crate) struct Fields {
    pub(crate) spans: Vec<Span>,
    // The values with doubled quotes, each quote once.
    pub(crate) copied: Vec<u8>,
    // How many bytes of the record were taken.
    pub(crate) start: usize,
    // What is known of the field behind those that were taken.
    pub(crate) known: Known,
    // The number, from 1, of the first field with a misplaced quote.
    pub(crate) misplaced: Option<usize>,
}

impl Fields {
    /// No fields.
    pub(crate) fn new(alloc: Global) -> Fields {
        Fields {
            spans: Vec::new(alloc),
            copied: Vec::new(alloc),
            start: 0,
            known: Known::nothing(),
            misplaced: None,
        }
    }

    /// Removes the fields.
    pub(crate) fn clear(&mut self)
        ensures taken { (delimiter : ℕ) (bytes : List ℕ) → AreTaken delimiter bytes self.new }
        ensures start { self.new.start ≡ 0 }
    {
        self.spans.clear();
        self.copied.clear();
        self.start = 0;
        self.known = Known::nothing();
        self.misplaced = None;
    }

    /// The value of a field of a record with these bytes, or `None` if there is no such field or a quote in it is
    /// misplaced.
    #[inline(always)]
    pub(crate) fn get<'a>(&'a self, bytes: &'a [u8], at: usize) -> Option<&'a [u8]>
        ensures { option_map (λ value. value.now) result
            ≡ option_and_then (λ value. value) (slice_get (values_in bytes.now self.now) at) }
    {
        match *self.spans.get(at)? {
            Span::Text { from, to } => Some(part(bytes, from, to)),
            Span::Copied { from, to } => Some(part(&self.copied, from, to)),
            Span::Misplaced => None,
        }
    }

    // Where the value of the field of this shape and size is, which follows those that were taken.
    fn span(
        &mut self,
        delimiter: Delimiter,
        bytes: &[u8],
        shape: Shape,
        size: usize,
    ) -> Result<Span, AllocError>
        requires within { self.old.start + size ≤ length bytes.now }
        requires shape { HasShape delimiter.byte (take size (drop self.old.start bytes.now)) shape }
        ensures ok { IfOk result (IsSpan delimiter.byte bytes.now self.old self.new size) }
        ensures spans { self.new.spans ≡ self.old.spans }
        ensures start { self.new.start ≡ self.old.start }
        ensures misplaced { self.new.misplaced ≡ self.old.misplaced }
    {
        let (from, to) = (self.start, self.start + size);
        match shape {
            Shape::Text => Ok(Span::Text { from, to }),
            Shape::Escaped => Ok(Span::Text {
                from: from + 1,
                to: to - 1,
            }),
            Shape::Doubled => {
                let copied = self.copied.len();
                push_value(&bytes[from + 1..to - 1], &mut self.copied)?;
                Ok(Span::Copied {
                    from: copied,
                    to: self.copied.len(),
                })
            }
            Shape::Misplaced => Ok(Span::Misplaced),
        }
    }

    // Takes the next field, of this shape and size.
    fn push(
        &mut self,
        delimiter: Delimiter,
        bytes: &[u8],
        shape: Shape,
        size: usize,
    ) -> Result<(), AllocError>
        requires kept { IsKept bytes.now self.old }
        requires within { self.old.start + size ≤ length bytes.now }
        requires shape { HasShape delimiter.byte (take size (drop self.old.start bytes.now)) shape }
        ensures { OnOk result (TakesField delimiter.byte bytes.now self.old self.new size) }
    {
        let span = self.span(delimiter, bytes, shape, size)?;
        self.spans.push(span)?;
        self.misplaced = first_misplaced(self.misplaced, span, self.spans.len());
        self.start += size;
        self.known = Known::nothing();
        Ok(())
    }

    /// Takes the fields of a record that begins with these bytes, which are the last ones of the text or not, and of
    /// which some fields may have been taken.
    #[inline(always)]
    pub(crate) fn take(
        &mut self,
        delimiter: Delimiter,
        bytes: &[u8],
        is_last: bool,
    ) -> Result<Taken, AllocError>
        requires { AreTaken delimiter.byte bytes.now self.old }
        ensures { IfOk result (IsTaken delimiter.byte bytes.now is_last self.new) }
    {
        'fields: loop {
            match scan_field(delimiter, &bytes[self.start..], self.known, is_last) {
                Scan::Field(shape, size) => self.push(delimiter, bytes, shape, size)?,
                Scan::Open => return Ok(Taken::Open),
                Scan::More(known) => {
                    self.known = known;
                    return Ok(Taken::More);
                }
            }
            match byte_at(bytes, self.start) {
                Some(byte) if byte == delimiter.byte => self.start += 1,
                _ => return Ok(Taken::Record),
            }
        }
    }
}
