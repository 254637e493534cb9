//! The field at the front of bytes.

ghost use Rattle.std.specs.Prelude.{◌≡◌, ◌≢◌, ◌≤◌, ◌<◌, ◌+◌, ◌++◌, ℕ, List, ◌∷◌, Some, None, IfErr, IfOk, OnOk, length, slice_get, take, drop};
ghost use Rattle.neldrafi_csv.specs.Grammar.{IsEscaped, IsField, IsUnended, quote};
ghost use Rattle.neldrafi_csv.specs.machine.Scans.{Closes, IsInside, IsKnown, IsScanned};

use crate::delimiter::Delimiter;
use crate::runs::{ends_field, text_run, unended_run};
use memchr::memchr;
use std::alloc::AllocError;

/// How a field is written.
#[derive(Clone, Copy, PartialEq, Eq)]
pub(crate) enum Shape {
    /// Text, without quotes.
    Text,
    /// Escaped, without a quote in it.
    Escaped,
    /// Escaped, with doubled quotes in it.
    Doubled,
    /// With a misplaced quote.
    Misplaced,
}

/// What is known of an escaped field that does not end yet.
#[derive(Clone, Copy)]
pub(crate) struct Known {
    /// How many bytes behind the opening quote are in quotes.
    pub(crate) count: usize,
    /// The shape of the field, as far as these bytes go.
    pub(crate) shape: Shape,
}

impl Known {
    /// Nothing is known.
    pub(crate) fn nothing() -> Known
        ensures { (bytes : List ℕ) → IsKnown bytes result }
    {
        Known {
            count: 0,
            shape: Shape::Escaped,
        }
    }
}

/// What is at the front of bytes that begin with a field.
#[derive(Clone, Copy)]
pub(crate) enum Scan {
    /// A field of so many bytes.
    Field(Shape, usize),
    /// An escaped field that is not closed.
    Open,
    /// A field that does not end in these bytes.
    More(Known),
}

/// The byte at this index, or `None` past the end.
#[inline(always)]
pub(crate) fn byte_at(bytes: &[u8], at: usize) -> Option<u8>
    ensures { result ≡ slice_get bytes.now at }
{
    bytes.get(at).copied()
}

/// Scans the field at the front of bytes, which are the last ones of a text or not, and of which something is known.
#[inline(always)]
pub(crate) fn scan_field(delimiter: Delimiter, bytes: &[u8], known: Known, is_last: bool) -> Scan
    requires { IsKnown bytes.now known }
    ensures { IsScanned delimiter.byte bytes.now is_last result }
{
    match byte_at(bytes, 0) {
        Some(b'"') => scan_escaped(delimiter, bytes, known, is_last),
        _ => scan_text(delimiter, bytes, is_last),
    }
}

// The same of a field that is not escaped.
#[inline(always)]
fn scan_text(delimiter: Delimiter, bytes: &[u8], is_last: bool) -> Scan
    requires { slice_get bytes.now 0 ≢ Some quote }
    ensures { IsScanned delimiter.byte bytes.now is_last result }
{
    let count = text_run(delimiter, bytes);
    match byte_at(bytes, count) {
        Some(b'"') => end_misplaced(delimiter, bytes, count + 1, is_last),
        Some(_) => Scan::Field(Shape::Text, count),
        None if is_last => Scan::Field(Shape::Text, count),
        None => Scan::More(Known::nothing()),
    }
}

// The same of a field of which so many bytes are known to have a misplaced quote.
fn end_misplaced(delimiter: Delimiter, bytes: &[u8], from: usize, is_last: bool) -> Scan
    requires within { from ≤ length bytes.now }
    requires misplaced { (behind : List ℕ) → IsUnended delimiter.byte behind
        → IsField delimiter.byte (take from bytes.now ++ behind) None }
    ensures { IsScanned delimiter.byte bytes.now is_last result }
{
    let end = from + unended_run(delimiter, &bytes[from..]);
    if end == bytes.len() && !is_last {
        return Scan::More(Known::nothing());
    }
    Scan::Field(Shape::Misplaced, end)
}

// The same of an escaped field.
fn scan_escaped(delimiter: Delimiter, bytes: &[u8], known: Known, is_last: bool) -> Scan
    requires quote { slice_get bytes.now 0 ≡ Some quote }
    requires known { IsKnown bytes.now known }
    ensures { IsScanned delimiter.byte bytes.now is_last result }
{
    let found = match closing_quote(&bytes[1..], known) {
        Ok(found) => found,
        Err(_) if is_last => return Scan::Open,
        Err(known) => return Scan::More(known),
    };
    let end = found.count + 2;
    match byte_at(bytes, end) {
        Some(byte) if ends_field(delimiter, byte) => Scan::Field(found.shape, end),
        Some(_) => end_misplaced(delimiter, bytes, end + 1, is_last),
        None if is_last => Scan::Field(found.shape, end),
        None => Scan::More(found),
    }
}

// What precedes the closing quote, or that there is none, behind what is known.
fn closing_quote(inside: &[u8], known: Known) -> Result<Known, Known>
    requires { IsInside inside.now known }
    ensures found { IfOk result (λ found. Closes inside.now found.count found.shape) }
    ensures none { IfErr result (λ left. IsInside inside.now left
        × (left.count ≡ length inside.now)) }
{
    let Known {
        mut count,
        mut shape,
    } = known;
    'pairs: while count < inside.len() {
        let Some(ahead) = memchr(b'"', &inside[count..]) else {
            return Err(Known {
                count: inside.len(),
                shape,
            });
        };
        count += ahead;
        match byte_at(inside, count + 1) {
            Some(b'"') => {
                shape = Shape::Doubled;
                count += 2;
            }
            _ => return Ok(Known { count, shape }),
        }
    }
    Err(Known { count, shape })
}

/// Appends the value of an escaped field, of which these are the bytes between the quotes.
pub(crate) fn push_value(inside: &[u8], out: &mut Vec<u8>) -> Result<(), AllocError>
    ensures { (value : List ℕ) → IsEscaped inside.now value
        → OnOk result (out.new.items ≡ out.old.items ++ value) }
{
    let mut at = 0;
    'pairs: while at < inside.len() {
        let rest = &inside[at..];
        let Some(count) = memchr(b'"', rest) else {
            out.extend_from_slice(rest)?;
            return Ok(());
        };
        out.extend_from_slice(&rest[..count + 1])?;
        at += count + 2;
    }
    Ok(())
}
