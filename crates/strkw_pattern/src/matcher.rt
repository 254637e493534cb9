//! The engine of a literal pattern: a comparison of texts.

ghost use Rattle.std.specs.Prelude.{◌≡◌, IsOk, nat_eq};
ghost use Rattle.std.specs.List.{list_any, starts_with};
ghost use Rattle.std.specs.Str.{chars, bytes_eq};
ghost use Rattle.std.specs.String.{string_bytes};

use crate::engine::{EngineFailure, RegexEngine};
use crate::whitespace::contains_ecma_whitespace;
use std::alloc::Global;

/// A literal pattern, ready to be matched. As an engine it always answers yes or no, and it takes no memory. It may
/// hold any texts, the alternatives in any order.
#[derive(Debug, Drop)]
pub enum LiteralMatcher {
    /// Matches the texts that begin with the literal.
    Prefix { literal: String },
    /// Matches this text alone.
    Exact { exact: String },
    /// Matches each of these texts alone.
    Alternation { alternatives: Vec<String> },
    /// Matches the texts without white space of ECMA-262.
    NoWhitespace,
}

impl RegexEngine for LiteralMatcher {
    ghost use Rattle.strkw_pattern.specs.Engine.{IsAnswer};
    ghost use Rattle.strkw_pattern.specs.Matcher.{literal_outcome};

    ghost outcome = { literal_outcome };

    #[inline]
    fn is_match(&self, _alloc: Global, text: &str) -> Result<bool, EngineFailure>
        ensures answer { IsAnswer (literal_outcome self.now (chars text.now)) result }
        ensures always { IsOk result }
    {
        match self {
            LiteralMatcher::Prefix { literal } => Ok(begins_with(text, literal.as_str())),
            LiteralMatcher::Exact { exact } => Ok(text == exact.as_str()),
            LiteralMatcher::Alternation { alternatives } => Ok(is_among(alternatives, text)),
            LiteralMatcher::NoWhitespace => Ok(!contains_ecma_whitespace(text)),
        }
    }
}

#[inline]
fn begins_with(text: &str, literal: &str) -> bool
    ensures { result ≡ starts_with nat_eq text.now literal.now }
{
    text.as_bytes().starts_with(literal.as_bytes())
}

fn is_among(alternatives: &[String], text: &str) -> bool
    ensures { result ≡ list_any (λ s. bytes_eq (string_bytes s) text.now) alternatives.now }
{
    alternatives
        .iter()
        .any(|alternative| alternative.as_str() == text)
}
