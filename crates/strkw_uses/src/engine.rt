//! An engine of the caller's own, and what builds it. Its patterns are masks: a mask, as `____-__-__`, matches the
//! texts that have as many characters.

ghost use Rattle.std.specs.Prelude.{◌==◌, length, true, if◌then◌else◌};

use std::alloc::Global;
use strkw_pattern::{BuildRefusal, EngineBuilder, EngineFailure, RegexEngine};
use strkw_report::char_count;

/// A mask of so many characters.
#[derive(Drop)]
pub struct Mask {
    characters: u64,
}

impl RegexEngine for Mask {
    ghost use Rattle.strkw_pattern.specs.declared.engine.Outcome.TheVariants.{Match, NoMatch};

    ghost outcome = { λ mask text. if length text == mask.characters then Match else NoMatch };

    fn is_match(&self, _alloc: Global, text: &str) -> Result<bool, EngineFailure> {
        Ok(char_count(text) == self.characters)
    }
}

/// What builds the engine of a mask. Every pattern is one.
#[derive(Clone, Copy)]
pub struct Masks;

impl EngineBuilder for Masks {
    type Engine = Mask;

    ghost use Rattle.strkw_pattern.specs.declared.engine.Outcome.TheVariants.{Match, NoMatch};

    ghost takes = { λ _ _. true };

    ghost outcome = { λ _ pattern text. if length text == length pattern then Match else NoMatch };

    fn build(&self, _alloc: Global, pattern: &str) -> Result<Mask, BuildRefusal> {
        Ok(Mask {
            characters: char_count(pattern),
        })
    }
}
