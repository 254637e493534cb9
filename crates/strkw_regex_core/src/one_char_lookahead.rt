//! Which lookaheads the next character tells.

ghost use Rattle.std.specs.Prelude.{◌≡◌};
ghost use Rattle.strkw_regex_core.specs.machine.OneCharLookahead.{is_glance as spec_is_glance, are_told};
ghost use Rattle.strkw_regex_core.specs.machine.Mirror.{is_backward, mirror};
ghost use Rattle.strkw_regex_core.specs.machine.Shape.{outline_pattern, quantifier_of, is_never as spec_is_never};

use crate::counted_regex::{CountedRegex, Quantifier};

impl Quantifier {
    /// Whether it takes no copy of what it repeats.
    pub fn is_never(self) -> bool
        ensures { result ≡ spec_is_never (quantifier_of self) }
    {
        matches!(self, Quantifier::Exactly(0) | Quantifier::FromTo(0, 0))
    }
}

impl CountedRegex {
    /// Whether the next character tells what a lookahead for it finds.
    #[cycle(is_glance)]
    pub(crate) fn is_glance(&self) -> bool
        ensures { result ≡ spec_is_glance (outline_pattern self.now) }
    {
        match self {
            CountedRegex::Then(first, second) => first.is_nothing() && second.is_glance(),
            CountedRegex::Or(one, other) => one.is_glance() && other.is_glance(),
            CountedRegex::Repeated(quantifier, body) => match quantifier {
                Quantifier::ZeroOrOne => body.is_glance(),
                Quantifier::Exactly(_) => quantifier.is_never() || body.is_nothing(),
                _ => quantifier.is_never(),
            },
            CountedRegex::Ahead(_, body) => body.is_glance(),
            CountedRegex::Behind(..) => false,
            CountedRegex::Empty
            | CountedRegex::Class { .. }
            | CountedRegex::Start
            | CountedRegex::End
            | CountedRegex::Boundary
            | CountedRegex::NoBoundary => true,
        }
    }

    /// Whether that is so of each lookahead in it.
    #[cycle(is_told)]
    pub fn is_told(&self) -> bool
        ensures { result ≡ are_told (outline_pattern self.now) }
    {
        match self {
            CountedRegex::Then(first, second) => first.is_told() && second.is_told(),
            CountedRegex::Or(one, other) => one.is_told() && other.is_told(),
            CountedRegex::Repeated(quantifier, body) => quantifier.is_never() || body.is_told(),
            CountedRegex::Behind(_, body) => body.is_told(),
            CountedRegex::Ahead(_, body) => body.is_glance(),
            CountedRegex::Empty
            | CountedRegex::Class { .. }
            | CountedRegex::Start
            | CountedRegex::End
            | CountedRegex::Boundary
            | CountedRegex::NoBoundary => true,
        }
    }

    // From the end of a text on, whether the character before tells what a lookbehind for it finds.
    #[tactic(auto, using(crate::proofs::Backwards::glance_cat_back))]
    #[cycle(is_glance_back)]
    fn is_glance_back(&self) -> bool
        ensures { result ≡ spec_is_glance (mirror (outline_pattern self.now)) }
    {
        match self {
            CountedRegex::Then(first, second) => first.is_nothing() && second.is_glance_back(),
            CountedRegex::Or(one, other) => one.is_glance_back() && other.is_glance_back(),
            CountedRegex::Repeated(quantifier, body) => match quantifier {
                Quantifier::ZeroOrOne => body.is_glance_back(),
                Quantifier::Exactly(_) => quantifier.is_never() || body.is_nothing(),
                _ => quantifier.is_never(),
            },
            CountedRegex::Behind(_, body) => body.is_glance_back(),
            CountedRegex::Ahead(..) => false,
            CountedRegex::Empty
            | CountedRegex::Class { .. }
            | CountedRegex::Start
            | CountedRegex::End
            | CountedRegex::Boundary
            | CountedRegex::NoBoundary => true,
        }
    }

    // Whether that is so of each lookbehind in it.
    #[tactic(auto, using(crate::proofs::Backwards::told_cat_back))]
    #[cycle(is_told_back)]
    fn is_told_back(&self) -> bool
        ensures { result ≡ are_told (mirror (outline_pattern self.now)) }
    {
        match self {
            CountedRegex::Then(first, second) => first.is_told_back() && second.is_told_back(),
            CountedRegex::Or(one, other) => one.is_told_back() && other.is_told_back(),
            CountedRegex::Repeated(quantifier, body) => quantifier.is_never()
                || body.is_told_back(),
            CountedRegex::Behind(_, body) => body.is_glance_back(),
            CountedRegex::Ahead(_, body) => body.is_told_back(),
            CountedRegex::Empty
            | CountedRegex::Class { .. }
            | CountedRegex::Start
            | CountedRegex::End
            | CountedRegex::Boundary
            | CountedRegex::NoBoundary => true,
        }
    }

    /// Whether only from the end of a text on each lookahead is told.
    pub fn is_sought_back(&self) -> bool
        ensures { result ≡ is_backward (outline_pattern self.now) }
    {
        !self.is_told() && self.is_told_back()
    }
}
