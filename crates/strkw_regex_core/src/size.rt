//! How many steps a search takes for a character, told of the outline of a pattern before there is a program.

ghost use Rattle.std.specs.Prelude.{◌≡◌, ◌+◌, ◌*◌, nat_le, if◌then◌else◌};
ghost use Rattle.strkw_regex_core.specs.machine.MarkedPattern.{empty, alt, star, plus};
ghost use Rattle.strkw_regex_core.specs.machine.Times.{quantified_pattern, copies};
ghost use Rattle.strkw_regex_core.specs.machine.Program.{glance, alternatives};
ghost use Rattle.strkw_regex_core.specs.machine.Shape.{outline_pattern, quantifier_of};
ghost use Rattle.strkw_regex_core.specs.Size.{max_term_steps, set_cost, class_steps as spec_class_steps};
ghost use Rattle.strkw_regex_core.specs.machine.ProgramSteps.{steps, steps_of};
ghost use Rattle.strkw_regex_core.specs.machine.Sizes.{cap_steps, spread_if};

use crate::counted_regex::{CountedRegex, Quantifier};
use strkw_charset::tree::CharSet;

// The most steps of a counted term, and of a whole pattern.
pub const MAX_TERM_STEPS: u32 = 5200;

pub const MAX_STEPS: u32 = 5200;

const TOO_MANY: u32 = MAX_STEPS + 1;

// What the sets of a class cost that take one step together: each range one, and a property as much as eight.
const COST_OF_A_STEP: u32 = 32;

const COST_OF_A_PROPERTY: u32 = 8;

// What stands around alternatives and what may be missing, around a loop, and between two alternatives.
const STEPS_OF_A_CHOICE: u32 = 3;

const STEPS_OF_A_LOOP: u32 = 2;

const STEPS_BETWEEN: u32 = 1;

// What stands around what a lookbehind or a lookahead looks for.
const STEPS_OF_A_LOOK: u32 = 2;

// Of a mark beside it.
const STEPS_OF_A_MARK: u32 = 1;

// A number of steps, up to one more than the most.
fn cap(steps: u64) -> u32
    ensures { result ≡ cap_steps steps }
{
    steps.min(u64::from(TOO_MANY)) as u32
}

/// Of both, and a few more.
pub fn sum_of(one: u32, other: u32, more: u32) -> u32
    ensures { result ≡ cap_steps (one + other + more) }
{
    cap(u64::from(one) + u64::from(other) + u64::from(more))
}

fn cost_of(set: CharSet) -> u32
    ensures { result ≡ set_cost set }
{
    match set {
        CharSet::Range(..) => 1,
        CharSet::Property(..) => COST_OF_A_PROPERTY,
    }
}

/// Of a class of these sets, up to one more than a pattern may have.
pub fn class_steps(sets: &[CharSet]) -> u32
    ensures { result ≡ cap_steps (spec_class_steps sets.now) }
{
    let mut cost = 0;
    for set in sets {
        if cost >= COST_OF_A_STEP * MAX_STEPS {
            return TOO_MANY;
        }
        cost += cost_of(*set);
    }
    (cost / COST_OF_A_STEP + 1).min(TOO_MANY)
}

impl Quantifier {
    // How many copies of what it repeats it takes.
    fn copies(self) -> u64
        ensures { result ≡ copies (quantifier_of self) }
    {
        match self {
            Quantifier::Exactly(count) => u64::from(count),
            Quantifier::AtLeast(count) => u64::from(count) + 1,
            Quantifier::FromTo(_, count) => u64::from(count),
            _ => 1,
        }
    }

    // Whether its copies take no more steps than may be.
    #[tactic(auto, using(crate::proofs::Sizes::small_term))]
    pub fn is_small_for(self, body: &CountedRegex) -> bool
        ensures { result
            ≡ nat_le (copies (quantifier_of self) * steps (outline_pattern body.now))
            max_term_steps }
    {
        self.copies() * u64::from(body.steps(false)) <= u64::from(MAX_TERM_STEPS)
    }
}

impl CountedRegex {
    /// Of its program, or where `is_spread` holds, of that with a mark beside what each lookaround looks for.
    #[cycle(steps)]
    pub fn steps(&self, is_spread: bool) -> u32
        ensures { result ≡ cap_steps (steps (spread_if is_spread (outline_pattern self.now))) }
    {
        match self {
            CountedRegex::Empty => 0,
            CountedRegex::Class { sets, .. } => class_steps(sets),
            CountedRegex::Start
            | CountedRegex::End
            | CountedRegex::Boundary
            | CountedRegex::NoBoundary => 1,
            CountedRegex::Then(first, second) => {
                sum_of(first.steps(is_spread), second.steps(is_spread), 0)
            }
            CountedRegex::Or(one, other) => {
                let steps = other.steps(is_spread);
                if one.is_nothing() {
                    other.option_steps(steps, is_spread)
                } else {
                    sum_of(one.steps_beside(is_spread), steps, STEPS_OF_A_CHOICE)
                }
            }
            CountedRegex::Repeated(quantifier, body) => {
                body.repeated_steps(*quantifier, body.steps(is_spread), is_spread)
            }
            CountedRegex::Behind(_, body) => {
                sum_of(
                    mark_steps(is_spread),
                    body.steps(is_spread),
                    STEPS_OF_A_LOOK,
                )
            }
            CountedRegex::Ahead(_, body) => {
                if is_spread {
                    sum_of(mark_steps(true), body.steps(true), STEPS_OF_A_LOOK)
                } else {
                    sum_of(0, body.glance_steps(), STEPS_OF_A_LOOK)
                }
            }
        }
    }

    // Of what a lookahead looks for.
    #[cycle(glance_steps)]
    fn glance_steps(&self) -> u32
        ensures { result ≡ cap_steps (steps_of (glance (outline_pattern self.now))) }
    {
        match self {
            CountedRegex::Class { sets, .. } => class_steps(sets),
            CountedRegex::Start
            | CountedRegex::End
            | CountedRegex::Boundary
            | CountedRegex::NoBoundary => 1,
            CountedRegex::Then(_, second) => second.glance_steps(),
            CountedRegex::Or(one, other) => {
                sum_of(one.glance_steps(), other.glance_steps(), STEPS_OF_A_CHOICE)
            }
            CountedRegex::Repeated(quantifier, body) => match quantifier {
                Quantifier::ZeroOrOne => sum_of(0, body.glance_steps(), STEPS_OF_A_CHOICE),
                _ => 0,
            },
            CountedRegex::Ahead(_, body) => sum_of(0, body.glance_steps(), STEPS_OF_A_LOOK),
            CountedRegex::Empty | CountedRegex::Behind(..) => 0,
        }
    }

    // The same as `steps`, among alternatives.
    #[cycle(steps)]
    fn steps_beside(&self, is_spread: bool) -> u32
        ensures { result
            ≡ cap_steps (steps_of (alternatives (spread_if is_spread (outline_pattern self.now)))) }
    {
        match self {
            CountedRegex::Or(one, other) => {
                sum_of(
                    one.steps_beside(is_spread),
                    other.steps(is_spread),
                    STEPS_BETWEEN,
                )
            }
            CountedRegex::Repeated(quantifier, body) => match quantifier {
                Quantifier::ZeroOrOne => sum_of(0, body.steps(is_spread), STEPS_BETWEEN),
                _ => self.steps(is_spread),
            },
            CountedRegex::Empty
            | CountedRegex::Class { .. }
            | CountedRegex::Start
            | CountedRegex::End
            | CountedRegex::Boundary
            | CountedRegex::NoBoundary
            | CountedRegex::Then(..)
            | CountedRegex::Behind(..)
            | CountedRegex::Ahead(..) => self.steps(is_spread),
        }
    }

    // Where it may be missing, by its own steps.
    fn option_steps(&self, own: u32, is_spread: bool) -> u32
        requires { own ≡ cap_steps (steps (spread_if is_spread (outline_pattern self.now))) }
        ensures { result
            ≡ cap_steps (steps (alt empty (spread_if is_spread (outline_pattern self.now)))) }
    {
        match self.class() {
            Some(_) => own,
            None => sum_of(0, own, STEPS_OF_A_CHOICE),
        }
    }

    // Where it is repeated without end, by its own steps.
    fn loop_steps(&self, own: u32, is_spread: bool) -> u32
        requires { own ≡ cap_steps (steps (spread_if is_spread (outline_pattern self.now))) }
        ensures star { result
            ≡ cap_steps (steps (star (spread_if is_spread (outline_pattern self.now)))) }
        ensures plus { result
            ≡ cap_steps (steps (plus (spread_if is_spread (outline_pattern self.now)))) }
    {
        match self.class() {
            Some(_) => own,
            None => sum_of(0, own, STEPS_OF_A_LOOP),
        }
    }

    fn repeated_steps(&self, quantifier: Quantifier, own: u32, is_spread: bool) -> u32
        requires { own ≡ cap_steps (steps (spread_if is_spread (outline_pattern self.now))) }
        ensures { result
            ≡ cap_steps (steps (quantified_pattern (quantifier_of quantifier)
            (spread_if is_spread (outline_pattern self.now)))) }
    {
        match quantifier {
            Quantifier::ZeroOrMore | Quantifier::OneOrMore => self.loop_steps(own, is_spread),
            Quantifier::ZeroOrOne => self.option_steps(own, is_spread),
            Quantifier::Exactly(count) => times(count, own),
            Quantifier::AtLeast(count) => {
                sum_of(times(count, own), self.loop_steps(own, is_spread), 0)
            }
            Quantifier::FromTo(least, most) => {
                let rest = times(
                    most.saturating_sub(least),
                    self.option_steps(own, is_spread),
                );
                sum_of(times(least, own), rest, 0)
            }
        }
    }
}

// Of the mark that stands beside what a lookaround looks for, if one does.
fn mark_steps(is_spread: bool) -> u32
    ensures { result ≡ (if is_spread then 1 else 0) }
{
    if is_spread { STEPS_OF_A_MARK } else { 0 }
}

// Of so many copies.
fn times(count: u32, steps: u32) -> u32
    ensures { result ≡ cap_steps (count * steps) }
{
    cap(u64::from(count) * u64::from(steps))
}
