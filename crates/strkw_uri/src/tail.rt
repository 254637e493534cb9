//! What follows the path.
ghost use Rattle.std.specs.Prelude.{◌≡◌, ◌↔◌, IsTrue, codes};
ghost use Rattle.std.specs.Str.{chars};
ghost use Rattle.strkw_text.specs.Abnf.{◌⨾◌, Literal, Optional, Empty};
ghost use Rattle.strkw_uri.specs.Uri.{Fragment, QueryAndFragment};
ghost use Rattle.strkw_uri.specs.Scan.{alphabet};

use crate::part::{Part, Syntax};
use crate::scan::{is_end, skip, strip};

fn is_fragment(text: &str, syntax: Syntax) -> bool
    ensures { IsTrue result ↔ Fragment (alphabet syntax) (chars text.now) }
{
    is_end(skip(text, syntax, Part::FragmentChar))
}

fn is_optional_fragment(text: &str, syntax: Syntax) -> bool
    ensures { IsTrue result ↔ Optional (Literal (codes "#") ⨾ Fragment (alphabet syntax))
        (chars text.now) }
{
    match strip(text, b'#') {
        Some(rest) => is_fragment(rest, syntax),
        None => is_end(text),
    }
}

pub(crate) fn is_query_and_fragment(text: &str, syntax: Syntax) -> bool
    ensures { IsTrue result ↔ QueryAndFragment (alphabet syntax) (chars text.now) }
{
    match strip(text, b'?') {
        Some(rest) => is_optional_fragment(skip(rest, syntax, Part::QueryChar), syntax),
        None => is_optional_fragment(text, syntax),
    }
}
