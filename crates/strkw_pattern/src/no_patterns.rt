//! The builder for a caller who has no engine.

ghost use Rattle.std.specs.Prelude.{false};

use crate::engine::{BuildRefusal, EngineBuilder};
use crate::matcher::LiteralMatcher;
use std::alloc::Global;

/// A builder that takes no pattern, for a caller who has no engine: a pattern that is not literal is refused, and the
/// literal ones need no builder. It takes no memory.
#[derive(Clone, Copy, Debug)]
pub struct NoPatterns;

impl EngineBuilder for NoPatterns {
    ghost use Rattle.strkw_pattern.specs.declared.engine.Outcome.{Outcome};

    type Engine = LiteralMatcher;

    ghost takes = { λ _ _. false };

    ghost outcome = { λ _ _ _. Outcome.NoMatch };

    fn build(&self, _alloc: Global, _pattern: &str) -> Result<LiteralMatcher, BuildRefusal> {
        Err(BuildRefusal::Pattern)
    }
}
