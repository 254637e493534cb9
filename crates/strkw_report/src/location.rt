ghost use Rattle.std.specs.Prelude.{◌≡◌, ℕ, List, [], ◌∷◌, ◌++◌, IfOk, OnOk, OnErr, string_bytes, encode_utf8};
ghost use Rattle.strkw_report.specs.Paths.{escaped_segment, path_below};

use std::alloc::{AllocError, Global};
use std::marker::Model;

/// A place in a JSON document, as a JSON Pointer (RFC 6901): the empty text is the whole document, and each
/// segment stands after a `/`. Contracts see its UTF-8 bytes.
#[derive(Debug, Drop)]
pub struct Location {
    text: String,
}

impl Model for Location {
    ghost use Rattle.std.specs.Prelude.{ℕ, List, string_bytes};

    ghost Value = { List ℕ };

    ghost view = { λ l. string_bytes l.text };
}

impl Location {
    /// The whole document, the empty text. It takes no memory, and keeps the allocator.
    pub fn root(alloc: Global) -> Location
        ensures { result ≡ [] }
    {
        Location {
            text: String::new(alloc),
        }
    }

    /// The place of the member or the item `segment` of this place: `/` and the segment follow, with `~` written
    /// `~0` and `/` written `~1` (RFC 6901, section 3). It is refused only where it is out of memory.
    pub fn join(&self, segment: &str) -> Result<Location, AllocError>
        ensures { IfOk result (λ l. l ≡ path_below self.now segment.now) }
    {
        let escapes = escape_count(segment.as_bytes());
        let added = segment.len().saturating_add(escapes).saturating_add(1);
        let room = self.text.len().saturating_add(added);
        let mut text = String::with_capacity(*self.text.allocator(), room)?;
        text.push_str(&self.text)?;
        text.push_str("/")?;
        if escapes == 0 {
            text.push_str(segment)?;
        } else {
            push_escaped(&mut text, segment)?;
        }
        Ok(Location { text })
    }

    /// Appends the place of the member or the item `segment` of this place, as `join` gives it. Out of memory, a
    /// beginning of it may have been appended.
    pub fn push_below(&self, segment: &str, out: &mut Vec<u8>) -> Result<(), AllocError>
        ensures ok { OnOk result (out.new.items ≡ out.old.items
            ++ path_below self.now segment.now) }
        ensures err { OnErr result ((more : List ℕ) × (out.new.items ≡ out.old.items ++ more)) }
    {
        if escape_count(segment.as_bytes()) > 0 {
            let place = self.join(segment)?;
            return out.extend_from_slice(place.text.as_bytes());
        }
        out.extend_from_slice(self.text.as_bytes())?;
        out.extend_from_slice(b"/")?;
        out.extend_from_slice(segment.as_bytes())
    }

    /// The pointer as a text.
    pub fn as_str(&self) -> &str
        ensures { result.now ≡ self.now }
    {
        self.text.as_str()
    }
}

impl Clone for Location {
    ghost is_clone = { λ place copy. copy ≡ place };

    fn clone(&self) -> Result<Location, AllocError> {
        Ok(Location {
            text: self.text.clone()?,
        })
    }
}

// How many bytes of the segment are escaped, each by one more byte.
fn escape_count(segment: &[u8]) -> usize
    ensures { result ≡ 0 → escaped_segment segment.now ≡ segment.now }
{
    let mut count = 0;
    for byte in segment {
        if *byte == b'~' || *byte == b'/' {
            count += 1;
        }
    }
    count
}

fn push_escaped(text: &mut String, segment: &str) -> Result<(), AllocError>
    ensures { OnOk result (string_bytes text.new ≡ string_bytes text.old
        ++ escaped_segment segment.now) }
{
    for c in segment.chars() {
        push_escaped_char(text, c)?;
    }
    Ok(())
}

fn push_escaped_char(text: &mut String, c: char) -> Result<(), AllocError>
    ensures { OnOk result
        (string_bytes text.new ≡ string_bytes text.old ++ escaped_segment (encode_utf8 c)) }
{
    if c == '~' {
        text.push_str("~0")
    } else if c == '/' {
        text.push_str("~1")
    } else {
        text.push(c)
    }
}
