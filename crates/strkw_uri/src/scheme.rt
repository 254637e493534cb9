//! The scheme.
ghost use Rattle.std.specs.Prelude.{◌≡◌, MatchOption, codes};
ghost use Rattle.std.specs.Str.{chars};
ghost use Rattle.strkw_text.specs.Abnf.{◌⨾◌, Literal};
ghost use Rattle.strkw_text.specs.Fronts.{StartsWith, StartsWithNo};
ghost use Rattle.strkw_uri.specs.Uri.{Scheme};

use crate::scan::{Class, after_one, skip_class, strip};

/// What follows a leading scheme and its colon.
pub(crate) fn after_scheme(text: &str) -> Option<&str>
    ensures { MatchOption result (StartsWithNo (Scheme ⨾ Literal (codes ":")) (chars text.now))
        (λ rest. StartsWith (Scheme ⨾ Literal (codes ":")) (chars text.now) (chars rest.now)) }
{
    match after_one(text, Class::Letter) {
        Some(rest) => strip(skip_class(rest, Class::SchemeChar), b':'),
        None => None,
    }
}
