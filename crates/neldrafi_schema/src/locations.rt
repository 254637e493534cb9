//! The absolute locations of schemas.

ghost use Rattle.std.specs.Prelude.{◌≡◌, ◌++◌, IfOk, OnOk, string_bytes, true, ◌<◌};
ghost use Rattle.std.specs.Fmt.{digit_glyph};
ghost use Rattle.serde_json.specs.View.{view};
ghost use Rattle.neldrafi_schema.specs.Locations.{absolute_among, absolute_at, below_root, fragment_byte, is_of_fragment, with_fragment};
ghost use Rattle.neldrafi_schema.specs.machine.Compiled.{path_of};
ghost use Rattle.neldrafi_schema.specs.machine.Places.{documents_of};
ghost use Rattle.neldrafi_schema.specs.Settings.{document_of};

use crate::config::Document;
use crate::documents::{Documents, base_at, base_in};
use crate::places::location_of;
use crate::segment::Segment;
use std::alloc::{AllocError, Global};
use strkw_report::Draft;

impl Documents<'_> {
    /// The absolute location of the schema at a path, whose first segment is the number of a document: the URI of its
    /// resource, and the JSON pointer from its root (Core 2020-12, section 12.3.2; RFC 6901, section 6).
    pub fn absolute_at(
        self,
        alloc: Global,
        draft: Draft,
        path: &[Segment],
    ) -> Result<String, AllocError>
        ensures { IfOk result (λ s. string_bytes s
            ≡ absolute_among draft (documents_of self.entry) (path_of path.now)) }
    {
        let [Segment::Document(number), below @ ..] = path else {
            return Ok(String::new(alloc));
        };
        match self.get(*number) {
            Some(document) => absolute_at(alloc, draft, document, below),
            None => Ok(String::new(alloc)),
        }
    }
}

fn absolute_at(
    alloc: Global,
    draft: Draft,
    document: Document<'_>,
    path: &[Segment],
) -> Result<String, AllocError>
    ensures { IfOk result (λ s. string_bytes s
        ≡ absolute_at draft (path_of path.now) (document_of document.entry)) }
{
    let uri = base_at(alloc, draft, document, path)?;
    let below = below_root(alloc, draft, uri.as_str(), document, path)?;
    let location = location_of(alloc, below)?;
    with_fragment(uri, location.as_str())
}

// What of a path is below the first schema on it that has this base URI.
fn below_root<'p>(
    alloc: Global,
    draft: Draft,
    uri: &str,
    document: Document<'_>,
    path: &'p [Segment],
) -> Result<&'p [Segment], AllocError>
    ensures { IfOk result (λ below. path_of below.now ≡ below_root draft uri.now
        document.entry.uri.now (path_of path.now) (view document.entry.value.now)) }
{
    let mut base = String::from_str(alloc, document.uri)?;
    let mut value = document.value;
    for (place, segment) in path.iter().enumerate() {
        base = base_in(alloc, draft, base, value)?;
        if base.as_str() == uri {
            return Ok(&path[place..]);
        }
        let Some(below) = segment.as_step().child(value) else {
            return Ok(&path[path.len()..]);
        };
        value = below;
    }
    Ok(&path[path.len()..])
}

// A URI with a text as its fragment.
fn with_fragment(uri: String, text: &str) -> Result<String, AllocError>
    ensures { IfOk result (λ s. string_bytes s ≡ with_fragment (string_bytes uri) text.now) }
{
    let mut uri = uri;
    uri.push_str("#")?;
    for byte in text.as_bytes() {
        push_byte(*byte, &mut uri)?;
    }
    Ok(uri)
}

// Appends a byte of a fragment, percent-encoded if it has to be.
fn push_byte(byte: u8, uri: &mut String) -> Result<(), AllocError>
    ensures { OnOk result (string_bytes uri.new ≡ string_bytes uri.old ++ fragment_byte byte) }
{
    if is_of_fragment(byte) {
        return uri.push(char::from(byte));
    }
    uri.push_str("%")?;
    uri.push(digit(byte / 16))?;
    uri.push(digit(byte % 16))?;
    Ok(())
}

// What a fragment has as it is (RFC 3986, section 3.5).
fn is_of_fragment(byte: u8) -> bool
    ensures { result ≡ is_of_fragment byte }
{
    byte.is_ascii_alphanumeric() || b"-._~!$&'()*+,;=:@/?".contains(&byte)
}

// The hexadecimal digit of a number below 16, in upper case.
fn digit(number: u8) -> char
    requires { number < 16 }
    ensures glyph { result ≡ digit_glyph true number }
    ensures ascii { result < 128 }
{
    if number < 10 {
        char::from(b'0' + number)
    } else {
        char::from(b'A' + (number - 10))
    }
}
