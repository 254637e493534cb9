//! The parts of a pattern, as they are looked for: each along the text, or from its end on.

ghost use Rattle.std.specs.Prelude.{◌≡◌, ◌∷◌, ◌++◌, true, List, IfOk};
ghost use Rattle.strkw_regex_core.specs.machine.LeadingLookahead.{Part, parts};
ghost use Rattle.strkw_regex_core.specs.machine.Fronts.{part_view, parts_view};
ghost use Rattle.strkw_regex_search.specs.machine.Passes.{ArePasses, IsPass, pass_of, passes_of, steps_of_passes};
ghost use Rattle.strkw_regex_core.specs.machine.Shape.{is_plain, outline_pattern};
ghost use Rattle.strkw_regex_core.specs.machine.Sizes.{cap_steps};

use std::alloc::{AllocError, Global};
use strkw_regex_core::counted_regex::CountedRegex;
use strkw_regex_core::leading_lookahead::LeadingLookahead;
use strkw_regex_core::size::sum_of;

/// A part of a pattern, or where the search goes from the end of the text on, its mirror.
#[derive(Drop)]
pub struct Pass {
    pub negated: bool,
    pub is_backward: bool,
    pub pattern: CountedRegex,
}

impl Pass {
    // Along the text, but for where only from its end on each lookahead is told by the next character.
    fn of(alloc: Global, negated: bool, pattern: CountedRegex) -> Result<Pass, AllocError>
        ensures { IfOk result (λ p. IsPass (pass_of p)
            record { negated = negated; pattern = outline_pattern pattern }) }
    {
        if !pattern.is_sought_back() {
            return Ok(Pass {
                negated,
                is_backward: false,
                pattern,
            });
        }
        let mirrored = pattern.mirror(alloc)?;
        Ok(Pass {
            negated,
            is_backward: true,
            pattern: mirrored,
        })
    }
}

// These, and behind them those of some fronts.
fn with_fronts(
    alloc: Global,
    passes: Vec<Pass>,
    fronts: Vec<LeadingLookahead>,
) -> Result<Vec<Pass>, AllocError>
    ensures { (old : List Part) → ArePasses (passes_of passes.items) old
        → IfOk result (λ made. ArePasses (passes_of made.items) (old ++ parts_view fronts.items)) }
{
    let mut passes = passes;
    for front in fronts {
        let LeadingLookahead { negated, pattern } = front;
        let pass = Pass::of(alloc, negated, pattern)?;
        passes.push(pass)?;
    }
    Ok(passes)
}

/// What is left of a pattern, and the lookaheads at its front that are looked for by themselves.
pub fn passes_for(alloc: Global, outline: CountedRegex) -> Result<Vec<Pass>, AllocError>
    requires { is_plain outline ≡ true }
    ensures { IfOk result
        (λ made. ArePasses (passes_of made.items) (parts (outline_pattern outline))) }
{
    let mut fronts = Vec::new(alloc);
    let cut = outline.cut(alloc, &mut fronts)?;
    let mut passes = Vec::new(alloc);
    passes.push(Pass::of(alloc, false, cut.rest)?)?;
    with_fronts(alloc, passes, fronts)
}

/// How many steps a search for all of them takes.
pub fn steps_of(passes: &[Pass]) -> u32
    ensures { result ≡ cap_steps (steps_of_passes (passes_of passes.now)) }
{
    let mut steps = 0;
    for pass in passes {
        let is_spread = !pass.pattern.is_told();
        steps = sum_of(steps, pass.pattern.steps(is_spread), 0);
    }
    steps
}
