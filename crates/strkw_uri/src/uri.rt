//! URIs, IRIs and their references.
ghost use Rattle.std.specs.Prelude.{◌≡◌, ◌↔◌, IsTrue};
ghost use Rattle.std.specs.Str.{chars};
ghost use Rattle.strkw_uri.specs.Uri.{Uri, UriReference, RelativeRef, IsUri, IsUriReference, IsIri, IsIriReference};
ghost use Rattle.strkw_uri.specs.Scan.{alphabet, BehindSlash, HierPartAndTail};

use crate::authority::is_authority_and_tail;
use crate::part::{Part, Syntax};
use crate::path::{is_in_path_and_tail, is_path_and_tail};
use crate::scan::{skip, strip};
use crate::scheme::after_scheme;

/// Behind a slash: an authority where another slash stands, and else the rest of a path; and what follows them.
fn is_behind_slash(text: &str, syntax: Syntax) -> bool
    ensures { IsTrue result ↔ BehindSlash (alphabet syntax) (chars text.now) }
{
    match strip(text, b'/') {
        Some(authority) => is_authority_and_tail(authority, syntax),
        None => is_in_path_and_tail(text, syntax),
    }
}

fn is_hier_part_and_tail(text: &str, syntax: Syntax) -> bool
    ensures { IsTrue result ↔ HierPartAndTail (alphabet syntax) (chars text.now) }
{
    match strip(text, b'/') {
        Some(rest) => is_behind_slash(rest, syntax),
        None => is_in_path_and_tail(text, syntax),
    }
}

fn is_relative_ref(text: &str, syntax: Syntax) -> bool
    ensures { IsTrue result ↔ RelativeRef (alphabet syntax) (chars text.now) }
{
    match strip(text, b'/') {
        Some(rest) => is_behind_slash(rest, syntax),
        None => is_path_and_tail(skip(text, syntax, Part::SegmentNcChar), syntax),
    }
}

fn is_absolute(text: &str, syntax: Syntax) -> bool
    ensures { IsTrue result ↔ Uri (alphabet syntax) (chars text.now) }
{
    match after_scheme(text) {
        Some(rest) => is_hier_part_and_tail(rest, syntax),
        None => false,
    }
}

fn is_reference(text: &str, syntax: Syntax) -> bool
    ensures { IsTrue result ↔ UriReference (alphabet syntax) (chars text.now) }
{
    match after_scheme(text) {
        Some(rest) => is_hier_part_and_tail(rest, syntax),
        None => is_relative_ref(text, syntax),
    }
}

/// Whether the text is a URI: a scheme, and what it names (RFC 3986, rule `URI` of appendix A).
pub fn is_valid_uri(text: &str) -> bool
    ensures { IsTrue result ↔ IsUri (chars text.now) }
{
    is_absolute(text, Syntax::Rfc3986)
}

/// Whether the text is a URI or a relative reference (RFC 3986, rule `URI-reference` of appendix A).
pub fn is_valid_uri_reference(text: &str) -> bool
    ensures { IsTrue result ↔ IsUriReference (chars text.now) }
{
    is_reference(text, Syntax::Rfc3986)
}

/// Whether the text is an IRI (RFC 3987, rule `IRI` of section 2.2). The rule derives the bidirectional formatting
/// characters, as U+202E, which section 4.1 forbids in prose; so they are accepted.
pub fn is_valid_iri(text: &str) -> bool
    ensures { IsTrue result ↔ IsIri (chars text.now) }
{
    is_absolute(text, Syntax::Rfc3987)
}

/// Whether the text is an IRI or a relative reference (RFC 3987, rule `IRI-reference` of section 2.2), with the same
/// bidirectional formatting characters.
pub fn is_valid_iri_reference(text: &str) -> bool
    ensures { IsTrue result ↔ IsIriReference (chars text.now) }
{
    is_reference(text, Syntax::Rfc3987)
}
