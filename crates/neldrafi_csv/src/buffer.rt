//! The bytes that were read of a source.

ghost use Rattle.std.specs.Prelude.{◌≡◌, ◌≤◌, ◌<◌, ◌+◌, ◌-◌, ◌++◌, ℕ, List, [], length, take, drop, OnOk, OnErr, IfErr, IfOk, Some, true, false};
ghost use Rattle.std.specs.Io.KnownBytes.{Consumes, IsAtEnd, Keeps, prepend_known};
ghost use Rattle.neldrafi_csv.specs.declared.place.Place.{Place};
ghost use Rattle.neldrafi_csv.specs.machine.Faults.{Fails};

use crate::faults::ReadFault;
use std::alloc::{AllocError, Global};
use std::io::{self, Read};
use std::marker::Model;

// The size of a new buffer.
const SIZE: usize = 65536;

/// The bytes that were read of a source and are not done with.
#[derive(Drop)]
pub(crate) struct Buffer {
    bytes: Vec<u8>,
    at: usize,
    filled: usize,
}

impl Model for Buffer {
    ghost Value = { List ℕ };

    ghost view = { λ p. drop p.at (take p.filled p.bytes.items) };

    ghost invariant = { λ p. (p.at ≤ p.filled) × (p.filled ≤ length p.bytes.items) };
}

impl Buffer {
    /// A buffer without bytes.
    pub(crate) fn new(alloc: Global) -> Result<Buffer, AllocError>
        ensures { IfOk result (λ buffer. buffer ≡ []) }
    {
        let bytes = vec![in alloc; 0u8; SIZE]?;
        Ok(Buffer {
            bytes,
            at: 0,
            filled: 0,
        })
    }

    /// The bytes.
    #[inline(always)]
    pub(crate) fn bytes(&self) -> &[u8]
        ensures { result.now ≡ self.now }
    {
        &self.bytes[self.at..self.filled]
    }

    /// Removes so many bytes at the front, or all if there are not so many.
    #[inline(always)]
    pub(crate) fn remove(&mut self, count: usize)
        ensures { self.new ≡ drop count self.old }
    {
        let left = self.filled - self.at;
        self.at += count.min(left);
    }

    // Moves the bytes to the front of the memory.
    fn compact(&mut self)
        ensures { self.new ≡ self.old }
    {
        if self.at > 0 {
            move_to_front(&mut self.bytes, self.at, self.filled);
            self.filled -= self.at;
            self.at = 0;
        }
    }

    /// Reads more bytes, and returns whether the source is at its end.
    #[inline(never)]
    pub(crate) fn fill<R: Read>(&mut self, source: &mut R) -> Result<bool, ReadFault>
        ensures text { (text : List ℕ)
            → prepend_known self.old (R.remaining source.old) ≡ Some text
            → prepend_known self.new (R.remaining source.new) ≡ Some text }
        ensures more { (more : List ℕ) × (self.new ≡ self.old ++ more) }
        ensures end { IfOk result (λ ended. ended ≡ true → (self.new ≡ self.old)
            × IsAtEnd (R.remaining source.new)) }
        ensures some { IfOk result (λ ended. ended ≡ false → length self.old < length self.new) }
        ensures fails { (place : Place) (text : List ℕ) → IfErr result (Fails place text) }
    {
        self.compact();
        let count = read_more(source, &mut self.bytes, self.filled)?;
        self.filled += count;
        Ok(count == 0)
    }
}

// Moves the bytes from one index to another to the front.
fn move_to_front(bytes: &mut Vec<u8>, from: usize, to: usize)
    requires ordered { from ≤ to }
    requires within { to ≤ length bytes.old.items }
    ensures moved { take (to - from) bytes.new.items ≡ drop from (take to bytes.old.items) }
    ensures len { length bytes.new.items ≡ length bytes.old.items }
{
    bytes.copy_within(from..to, 0);
}

// Doubles the length, if it is not too short.
fn grow(bytes: &mut Vec<u8>) -> Result<(), AllocError>
    ensures longer { OnOk result (length bytes.old.items < length bytes.new.items) }
    ensures same { take (length bytes.old.items) bytes.new.items ≡ bytes.old.items }
    ensures len { length bytes.old.items ≤ length bytes.new.items }
{
    let count = bytes.len().max(SIZE);
    let size = bytes.len().checked_add(count).ok_or(AllocError)?;
    bytes.resize(size, 0)
}

// Reads bytes behind the first ones, and returns how many; there is none only at the end of the source.
fn read_more<R: Read>(
    source: &mut R,
    bytes: &mut Vec<u8>,
    filled: usize,
) -> Result<usize, ReadFault>
    requires { filled ≤ length bytes.old.items }
    ensures len { length bytes.old.items ≤ length bytes.new.items }
    ensures within { IfOk result (λ count. filled + count ≤ length bytes.new.items) }
    ensures read { IfOk result (λ count. (read : List ℕ) × (length read ≡ count)
        × (take (filled + count) bytes.new.items ≡ take filled bytes.old.items ++ read)
        × Consumes (R.remaining source.old) (R.remaining source.new) read) }
    ensures end { IfOk result (λ count. count ≡ 0 → IsAtEnd (R.remaining source.new)) }
    ensures err { OnErr result ((take filled bytes.new.items ≡ take filled bytes.old.items)
        × Keeps (R.remaining source.old) (R.remaining source.new)) }
    ensures fails { (place : Place) (text : List ℕ) → IfErr result (Fails place text) }
{
    if filled == bytes.len() {
        grow(bytes)?;
    }
    let count = read_behind(source, bytes, filled)?;
    Ok(count)
}

// The same in the memory that there is.
fn read_behind<R: Read>(
    source: &mut R,
    bytes: &mut Vec<u8>,
    filled: usize,
) -> Result<usize, io::Error>
    requires { filled ≤ length bytes.old.items }
    ensures len { length bytes.new.items ≡ length bytes.old.items }
    ensures within { IfOk result (λ count. filled + count ≤ length bytes.new.items) }
    ensures read { IfOk result (λ count. (read : List ℕ) × (length read ≡ count)
        × (take (filled + count) bytes.new.items ≡ take filled bytes.old.items ++ read)
        × Consumes (R.remaining source.old) (R.remaining source.new) read) }
    ensures end { IfOk result (λ count. count ≡ 0 → filled < length bytes.old.items
        → IsAtEnd (R.remaining source.new)) }
    ensures err { OnErr result ((take filled bytes.new.items ≡ take filled bytes.old.items)
        × Keeps (R.remaining source.old) (R.remaining source.new)) }
{
    let count = source.read(&mut bytes[filled..])?;
    Ok(count)
}
