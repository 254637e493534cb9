//! Patterns from the end of a text on.

ghost use Rattle.std.specs.Prelude.{◌≡◌, IfOk, if◌then◌else◌};
ghost use Rattle.strkw_regex_core.specs.machine.MarkedPattern.{cat};
ghost use Rattle.strkw_regex_core.specs.machine.Mirror.{mirror};
ghost use Rattle.strkw_regex_core.specs.machine.EquivalentPatterns.{EquivalentPatterns};
ghost use Rattle.strkw_regex_core.specs.machine.Shape.{outline_pattern};

use crate::counted_regex::CountedRegex;
use std::alloc::{AllocError, Global};

impl CountedRegex {
    // Before the other, or where it keeps no order, behind it.
    fn join(
        self,
        alloc: Global,
        other: CountedRegex,
        keeps_order: bool,
    ) -> Result<CountedRegex, AllocError>
        ensures { let p = outline_pattern self in let q = outline_pattern other in
            IfOk result (λ t. outline_pattern t ≡ (if keeps_order then cat p q else cat q p)) }
    {
        if keeps_order {
            self.then(alloc, other)
        } else {
            other.then(alloc, self)
        }
    }

    /// What matches a text turned round where this matches the text. A counted term keeps the order of its copies, all
    /// of which are alike.
    #[cycle(mirror)]
    pub fn mirror(self, alloc: Global) -> Result<CountedRegex, AllocError>
        ensures { IfOk result
            (λ o. EquivalentPatterns (outline_pattern o) (mirror (outline_pattern self))) }
    {
        match self {
            CountedRegex::Start => Ok(CountedRegex::End),
            CountedRegex::End => Ok(CountedRegex::Start),
            CountedRegex::Then(first, second) => {
                let keeps_order = first.is_nothing() | second.is_nothing();
                let first = Box::into_inner(first).mirror(alloc)?;
                let second = Box::into_inner(second).mirror(alloc)?;
                first.join(alloc, second, keeps_order)
            }
            CountedRegex::Or(one, other) => {
                let one = Box::into_inner(one).mirror(alloc)?;
                let other = Box::into_inner(other).mirror(alloc)?;
                one.or(alloc, other)
            }
            CountedRegex::Repeated(quantifier, body) => {
                let body = Box::into_inner(body).mirror(alloc)?;
                body.repeat(alloc, quantifier)
            }
            CountedRegex::Behind(negated, body) => {
                let body = Box::into_inner(body).mirror(alloc)?;
                body.into_lookahead(alloc, negated)
            }
            CountedRegex::Ahead(negated, body) => {
                let body = Box::into_inner(body).mirror(alloc)?;
                body.into_lookbehind(alloc, negated)
            }
            same => Ok(same),
        }
    }
}
