//! Patterns as they are read: a term that is repeated stands once, beside its quantifier. A program has its copies.

ghost use Rattle.std.specs.Prelude.{◌≡◌, true, false, IfOk, MatchOption};
ghost use Rattle.strkw_regex_core.specs.machine.MarkedPattern.{class as spec_class, cat, alt, lookbehind, lookahead};
ghost use Rattle.strkw_regex_core.specs.machine.Times.{quantified_pattern, times_of};
ghost use Rattle.strkw_regex_core.specs.machine.Program.{is_class, is_empty};
ghost use Rattle.strkw_regex_core.specs.machine.Shape.{is_plain, outline_pattern, quantifier_of};

use std::alloc::{AllocError, Global};
use strkw_charset::tree::CharSet;

// How often a term is repeated.
#[derive(Clone, Copy)]
pub enum Quantifier {
    ZeroOrMore,
    OneOrMore,
    ZeroOrOne,
    Exactly(u32),
    AtLeast(u32),
    FromTo(u32, u32),
}

impl Quantifier {
    /// At least so often, and at most so often, where there is a most.
    pub fn of(least: u32, most: Option<u32>) -> Quantifier
        ensures { quantifier_of result ≡ times_of least most }
    {
        match most {
            None if least == 0 => Quantifier::ZeroOrMore,
            None if least == 1 => Quantifier::OneOrMore,
            None => Quantifier::AtLeast(least),
            Some(most) if least == most => Quantifier::Exactly(least),
            Some(most) if least == 0 && most == 1 => Quantifier::ZeroOrOne,
            Some(most) => Quantifier::FromTo(least, most),
        }
    }
}

#[derive(Drop)]
pub enum CountedRegex {
    Empty,
    Class { negated: bool, sets: Vec<CharSet> },
    Start,
    End,
    Boundary,
    NoBoundary,
    Then(Box<CountedRegex>, Box<CountedRegex>),
    Or(Box<CountedRegex>, Box<CountedRegex>),
    Repeated(Quantifier, Box<CountedRegex>),
    /// A lookbehind, which is negated where the first holds.
    Behind(bool, Box<CountedRegex>),
    /// The same of a lookahead.
    Ahead(bool, Box<CountedRegex>),
}

impl CountedRegex {
    pub fn then(self, alloc: Global, second: CountedRegex) -> Result<CountedRegex, AllocError>
        ensures pattern { IfOk result
            (λ t. outline_pattern t ≡ cat (outline_pattern self) (outline_pattern second)) }
        ensures plain { IfOk result (λ t. is_plain t ≡ is_plain self) }
    {
        Ok(CountedRegex::Then(Box::new(alloc, self)?, Box::new(alloc, second)?))
    }

    pub fn or(self, alloc: Global, other: CountedRegex) -> Result<CountedRegex, AllocError>
        ensures pattern { IfOk result
            (λ t. outline_pattern t ≡ alt (outline_pattern self) (outline_pattern other)) }
        ensures plain { IfOk result (λ t. is_plain t ≡ true) }
    {
        Ok(CountedRegex::Or(Box::new(alloc, self)?, Box::new(alloc, other)?))
    }

    pub fn repeat(self, alloc: Global, quantifier: Quantifier) -> Result<CountedRegex, AllocError>
        ensures { IfOk result (λ t. outline_pattern t
            ≡ quantified_pattern (quantifier_of quantifier) (outline_pattern self)) }
    {
        Ok(CountedRegex::Repeated(quantifier, Box::new(alloc, self)?))
    }

    pub fn into_lookbehind(self, alloc: Global, negated: bool) -> Result<CountedRegex, AllocError>
        ensures { IfOk result (λ t. outline_pattern t ≡ lookbehind negated (outline_pattern self)) }
    {
        Ok(CountedRegex::Behind(negated, Box::new(alloc, self)?))
    }

    pub fn into_lookahead(self, alloc: Global, negated: bool) -> Result<CountedRegex, AllocError>
        ensures { IfOk result (λ t. outline_pattern t ≡ lookahead negated (outline_pattern self)) }
    {
        Ok(CountedRegex::Ahead(negated, Box::new(alloc, self)?))
    }

    /// Its class, where it is one character of a class.
    pub fn class(&self) -> Option<(bool, &[CharSet])>
        ensures { MatchOption result (is_class (outline_pattern self.now) ≡ false)
            (λ class. outline_pattern self.now ≡ spec_class false class.0 class.1.now) }
    {
        match self {
            CountedRegex::Class { negated, sets } => Some((*negated, sets.as_slice())),
            CountedRegex::Empty
            | CountedRegex::Start
            | CountedRegex::End
            | CountedRegex::Boundary
            | CountedRegex::NoBoundary
            | CountedRegex::Then(..)
            | CountedRegex::Or(..)
            | CountedRegex::Repeated(..)
            | CountedRegex::Behind(..)
            | CountedRegex::Ahead(..) => None,
        }
    }

    /// Whether it is nothing.
    #[tactic(auto, using(crate::proofs::Shapes::shapes))]
    pub fn is_nothing(&self) -> bool
        ensures { result ≡ is_empty (outline_pattern self.now) }
    {
        match self {
            CountedRegex::Empty => true,
            CountedRegex::Repeated(quantifier, _) => match quantifier {
                Quantifier::Exactly(count) => *count == 0,
                _ => false,
            },
            CountedRegex::Class { .. }
            | CountedRegex::Start
            | CountedRegex::End
            | CountedRegex::Boundary
            | CountedRegex::NoBoundary
            | CountedRegex::Then(..)
            | CountedRegex::Or(..)
            | CountedRegex::Behind(..)
            | CountedRegex::Ahead(..) => false,
        }
    }
}
