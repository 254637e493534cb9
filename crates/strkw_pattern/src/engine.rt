//! The engines that match patterns which are not literal: what each answers, and what builds it.

ghost use Rattle.std.specs.Prelude.{◌≡◌, ℕ, List, Bool, true, false, IfOk, IfErr};
ghost use Rattle.std.specs.Str.{chars};

use std::alloc::Global;

/// What matching a pattern on a text comes to.
#[derive(Debug, Clone, Copy, PartialEq, Eq)]
pub enum Outcome {
    /// The pattern is found in the text.
    Match,
    /// It is not found.
    NoMatch,
    /// The engine gave up at its limit of backtracking.
    BacktrackLimit,
    /// The engine failed in another way.
    Failed,
}

/// Why an engine gave no yes or no.
#[derive(Debug, Clone, Copy, PartialEq, Eq)]
pub enum EngineFailure {
    /// Exactly where the outcome is `Outcome::BacktrackLimit`, out of memory aside.
    BacktrackLimit,
    /// Exactly where the outcome is `Outcome::Failed`, out of memory aside.
    Failed,
    /// Out of memory.
    Memory,
}

/// A pattern that is ready to be matched.
pub trait RegexEngine: Drop {
    ghost use Rattle.strkw_pattern.specs.Engine.{IsAnswer};
    ghost use Rattle.strkw_pattern.specs.declared.engine.Outcome.{Outcome};

    /// What a match on a text comes to, the text being the list of its characters.
    ghost outcome: { Self → List ℕ → Outcome };

    /// Whether the pattern is found in the text: `Ok` of yes or no, or the failure, as the outcome says. Only
    /// `EngineFailure::Memory` says nothing of the outcome.
    fn is_match(&self, alloc: Global, text: &str) -> Result<bool, EngineFailure>
        ensures answer { IsAnswer (outcome self.now (chars text.now)) result };
}

/// Why no engine was built of a pattern.
#[derive(Debug, Clone, Copy, PartialEq, Eq)]
pub enum BuildRefusal {
    /// Exactly where the builder does not take the pattern, out of memory aside.
    Pattern,
    /// Out of memory.
    Memory,
}

/// What builds engines of patterns. Its pattern syntax is its own.
pub trait EngineBuilder {
    ghost use Rattle.strkw_pattern.specs.declared.engine.Outcome.{Outcome};

    /// What it builds.
    type Engine: RegexEngine;

    /// Whether it takes a pattern.
    ghost takes: { Self → List ℕ → Bool };

    /// What matching a pattern on a text comes to.
    ghost outcome: { Self → List ℕ → List ℕ → Outcome };

    /// The engine of a pattern. It has the builder's outcome for that pattern on every text.
    fn build(&self, alloc: Global, pattern: &str) -> Result<Self::Engine, BuildRefusal>
        ensures built { IfOk result (λ e. Self.Engine.outcome e
            ≡ outcome self.now (chars pattern.now)) }
        ensures taken { IfOk result (λ _. takes self.now (chars pattern.now) ≡ true) }
        ensures refused { IfErr result (λ e. e ≡ BuildRefusal.Pattern
            → takes self.now (chars pattern.now) ≡ false) };
}
