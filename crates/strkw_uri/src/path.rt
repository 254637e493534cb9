//! The path, and what follows it.
ghost use Rattle.std.specs.Prelude.{◌≡◌, ◌↔◌, IsTrue};
ghost use Rattle.std.specs.Str.{chars};
ghost use Rattle.strkw_uri.specs.Scan.{alphabet, PathAndTail, InPathAndTail};

use crate::part::{Part, Syntax};
use crate::scan::{skip, strip};
use crate::tail::is_query_and_fragment;

/// From within a path on: its segments and slashes are one run.
pub(crate) fn is_in_path_and_tail(text: &str, syntax: Syntax) -> bool
    ensures { IsTrue result ↔ InPathAndTail (alphabet syntax) (chars text.now) }
{
    is_query_and_fragment(skip(text, syntax, Part::PathChar), syntax)
}

pub(crate) fn is_path_and_tail(text: &str, syntax: Syntax) -> bool
    ensures { IsTrue result ↔ PathAndTail (alphabet syntax) (chars text.now) }
{
    match strip(text, b'/') {
        Some(rest) => is_in_path_and_tail(rest, syntax),
        None => is_query_and_fragment(text, syntax),
    }
}
