//! The misfits of a hypothesis.

ghost use Rattle.std.specs.Prelude.{◌≡◌, ◌↔◌, ◌++◌, ◌∷◌, [], List, OnOk, IsTrue, length, map, take};
ghost use Rattle.neldrafi_infer.specs.Hypotheses.{IsMisfit, Seen, is_about, seen};
ghost use Rattle.neldrafi_infer.specs.Tallies.{IsTallied, misfit_view};

use crate::faults::PropertyFault;
use crate::hypotheses::Hypothesis;
use crate::kinds::Kind;
use std::alloc::{AllocError, Global};

// So many misfits are kept.
const MOST_KEPT: usize = 3;

/// A value that does not fit a hypothesis.
#[derive(Debug, Drop)]
pub struct Misfit {
    /// The line on which it was seen.
    pub line: u64,
    /// What it is.
    pub kind: Kind,
    /// Its text.
    pub text: String,
}

/// The misfits of a hypothesis among the values that were seen.
#[derive(Debug, Drop)]
pub struct Tally {
    /// The hypothesis.
    pub hypothesis: Hypothesis,
    /// How many values do not fit.
    pub count: u64,
    /// The first three of them.
    pub first: Vec<Misfit>,
}

impl Tally {
    /// No values were seen.
    pub(crate) fn new(alloc: Global, hypothesis: Hypothesis) -> Tally
        ensures hypothesis { result.hypothesis ≡ hypothesis }
        ensures none { IsTallied [] result }
    {
        Tally {
            hypothesis,
            count: 0,
            first: Vec::new(alloc),
        }
    }

    /// Sees a value, after others. After an error the tally is of no more use.
    pub(crate) fn see(
        &mut self,
        alloc: Global,
        line: u64,
        kind: Kind,
        text: &str,
    ) -> Result<(), PropertyFault>
        ensures hypothesis { self.new.hypothesis ≡ self.old.hypothesis }
        ensures seen { (ss : List Seen) → IsTallied ss self.old
            → OnOk result (IsTallied (ss ++ seen line kind text.now ∷ []) self.new) }
    {
        if !self.hypothesis.is_misfit(kind, text) {
            return Ok(());
        }
        let count = self.count.checked_add(1).ok_or(PropertyFault::TooMany)?;
        self.count = count;
        if self.first.len() < MOST_KEPT {
            let text = String::from_str(alloc, text)?;
            self.first.push(Misfit { line, kind, text })?;
        }
        Ok(())
    }
}
