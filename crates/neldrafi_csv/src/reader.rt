//! Reading records.

use crate::delimiter::Delimiter;
use crate::faults::ReadFault;
use crate::fields::{Fields, Taken, part};
use crate::input::Input;
use crate::runs::{is_line_free, line_bytes_run};
use std::alloc::{AllocError, Global};
use std::io::Read;

/// A record that was read.
#[derive(Clone, Copy, Debug, PartialEq, Eq)]
pub struct Record {
    /// The line on which it begins, from 1.
    pub line: u64,
    /// The number, from 1, of the first field with a misplaced quote, if there is one.
    pub misplaced: Option<usize>,
}

/// Reads the records of a source one by one (RFC 4180, section 2). Lines end with LF, CRLF or CR; blank lines are no
/// records. The fields of the last record are kept until the next read.
///
/// Its memory is that of the longest record.
#[derive(Drop)]
pub struct RecordReader<R> {
    input: Input<R>,
    fields: Fields,
    // How many bytes of the buffer are those of the last record.
    taken: usize,
    delimiter: Delimiter,
}

impl<R: Read> RecordReader<R> {
    ghost use Rattle.std.specs.Prelude.{◌≡◌, ◌↔◌, ◌<◌, ℕ, List, [], true, Some, None, IfSome, IfOk, IfErr, OnOk, OnErr, length, option_and_then, option_map, slice_get};
    ghost use Rattle.std.specs.Io.KnownBytes.{prepend_known};
    ghost use Rattle.neldrafi_csv.specs.Grammar.{is_line_byte};
    ghost use Rattle.neldrafi_csv.specs.Lines.{HasNoLineByte, behind_blank};
    ghost use Rattle.neldrafi_csv.specs.Records.{HasNoRecord};
    ghost use Rattle.neldrafi_csv.specs.Reading.{Explains, IsAtStart, Skips, Takes, at_hand, delimiter_of, place_of, unread_of, values_of};
    ghost use Rattle.neldrafi_csv.specs.machine.Inputs.{rest_of};
    ghost use Rattle.neldrafi_csv.specs.machine.Readers.{TakesAt};

    /// A reader of the records of a source, from its start. A byte order mark there is skipped.
    ///
    /// Errors: out of memory.
    pub fn new(
        alloc: Global,
        source: R,
        delimiter: Delimiter,
    ) -> Result<RecordReader<R>, AllocError>
    where
        R: Drop,
        ensures { IfOk result (IsAtStart R.remaining source delimiter.byte) }
    {
        let input = Input::new(alloc, source)?;
        Ok(RecordReader {
            input,
            fields: Fields::new(alloc),
            taken: 0,
            delimiter,
        })
    }

    // Takes the record at the front of the buffer, of which no field was taken.
    fn take_record(&mut self) -> Result<(), ReadFault>
        requires { self.old.taken ≡ 0 }
        ensures ok { (text : List ℕ) → rest_of R.remaining self.old.input ≡ Some text
            → OnOk result (TakesAt R.remaining self.old self.new text) }
        ensures err { (text : List ℕ) → rest_of R.remaining self.old.input ≡ Some text
            → IfErr result (Explains (delimiter_of self.old) (place_of self.old) text) }
        ensures kept { (text : List ℕ) → rest_of R.remaining self.old.input ≡ Some text
            → OnErr result (rest_of R.remaining self.new.input ≡ Some text) }
        ensures place { OnErr result (self.new.input.place ≡ self.old.input.place) }
        ensures taken { OnErr result (self.new.taken ≡ 0) }
        ensures begun { self.new.input.has_begun ≡ self.old.input.has_begun }
        ensures delimiter { delimiter_of self.new ≡ delimiter_of self.old }
    {
        self.fields.clear();
        let mut is_last = false;
        'pieces: loop {
            let bytes = self.input.buffer.bytes();
            match self.fields.take(self.delimiter, bytes, is_last)? {
                Taken::Record => break,
                Taken::Open => {
                    let place = self.input.place_behind(self.fields.start)?;
                    return Err(ReadFault::OpenQuote { line: place.line });
                }
                Taken::More => is_last = self.input.fill()?,
            }
        }
        self.input.place = self.input.place_behind(self.fields.start)?;
        self.taken = self.fields.start;
        Ok(())
    }

    /// Reads the next record, or returns `None` if there is no more.
    ///
    /// Errors: each `ReadFault`. The reader is then before the record, and may be read again.
    pub fn read(&mut self) -> Result<Option<Record>, ReadFault>
        ensures record { (text : List ℕ) → unread_of R.remaining self.old ≡ Some text
            → IfOk result (λ o. IfSome o (Takes R.remaining self.old self.new text)) }
        ensures end { (text : List ℕ) → unread_of R.remaining self.old ≡ Some text
            → IfOk result (λ o. o ≡ None → HasNoRecord text
            × (unread_of R.remaining self.new ≡ Some [])) }
        ensures fault { (text : List ℕ) → unread_of R.remaining self.old ≡ Some text
            → IfErr result (Explains (delimiter_of self.old) (place_of self.old) text) }
        ensures kept { (text : List ℕ) → unread_of R.remaining self.old ≡ Some text
            → OnErr result (Skips R.remaining self.old self.new text) }
        ensures delimiter { delimiter_of self.new ≡ delimiter_of self.old }
    {
        self.input.buffer.remove(self.taken);
        self.taken = 0;
        self.fields.clear();
        self.input.begin()?;
        if !self.input.skip_blank_lines()? {
            return Ok(None);
        }
        let line = self.input.place.line;
        self.take_record()?;
        Ok(Some(Record {
            line,
            misplaced: self.fields.misplaced,
        }))
    }

    /// How many fields the record that was read last has.
    pub fn len(&self) -> usize
        ensures { result ≡ length (values_of self.now) }
    {
        self.fields.spans.len()
    }

    /// The value of a field of the record that was read last, or `None` if it has no such field, or a quote in the field
    /// is misplaced. Fields are counted from 0.
    #[inline(always)]
    pub fn field(&self, at: usize) -> Option<&[u8]>
        ensures { option_map (λ bytes. bytes.now) result
            ≡ option_and_then (λ value. value) (slice_get (values_of self.now) at) }
    {
        self.fields.get(self.input.buffer.bytes(), at)
    }

    /// Whether the end of the next record has to be waited for: behind the ends of blank lines, no line ends in the
    /// bytes that are at hand.
    pub fn is_drained(&self) -> bool
        ensures { (result ≡ true) ↔ HasNoLineByte (behind_blank (at_hand self.now)) }
    {
        let bytes = self.input.buffer.bytes();
        let unread = part(bytes, self.taken, bytes.len());
        is_line_free(&unread[line_bytes_run(unread)..])
    }
}
