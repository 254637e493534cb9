//! The lookaheads at the front of a pattern, behind `^`: one that looks for more than the next character is looked for
//! by itself.

ghost use Rattle.std.specs.Prelude.{◌≡◌, true, IfOk, List};
ghost use Rattle.strkw_regex_core.specs.machine.MarkedPattern.{MarkedPattern, cat};
ghost use Rattle.strkw_regex_core.specs.machine.LeadingLookahead.{first_lead as spec_first_lead, lead_behind, reads_nothing as spec_reads_nothing, is_far as spec_is_far, is_apart_behind};
ghost use Rattle.strkw_regex_core.specs.machine.Fronts.{Cuts};
ghost use Rattle.strkw_regex_core.specs.machine.Shape.{is_plain, outline_pattern};

use crate::counted_regex::CountedRegex;
use std::alloc::{AllocError, Global};

/// What a pattern is as the front of another: nothing; `^`, with terms behind it that read nothing; or more.
#[derive(Clone, Copy)]
pub enum Lead {
    Nothing,
    Anchored,
    Past,
}

impl Lead {
    // With one term more.
    fn with_term(self, term: &CountedRegex) -> Lead
        ensures { result ≡ lead_behind self (outline_pattern term.now) }
    {
        match self {
            Lead::Nothing => term.first_lead(),
            Lead::Anchored => {
                if term.reads_nothing() {
                    Lead::Anchored
                } else {
                    Lead::Past
                }
            }
            Lead::Past => Lead::Past,
        }
    }

    // Whether a term behind it is looked for by itself.
    fn parts_off(self, term: &CountedRegex) -> bool
        ensures { result ≡ is_apart_behind self (outline_pattern term.now) }
    {
        matches!(self, Lead::Anchored) && term.is_far()
    }
}

/// A part of a pattern: what is to be found, or where it is negated, is not.
#[derive(Drop)]
pub struct LeadingLookahead {
    pub negated: bool,
    pub pattern: CountedRegex,
}

/// A pattern without the parts that were cut off, and what it was as the front of another.
#[derive(Drop)]
pub struct Cut {
    pub(crate) lead: Lead,
    pub rest: CountedRegex,
}

impl Cut {
    // With one term more, which is appended to the fronts where it is looked for by itself.
    fn with_term(
        self,
        alloc: Global,
        term: CountedRegex,
        fronts: &mut Vec<LeadingLookahead>,
    ) -> Result<Cut, AllocError>
        ensures { (p : MarkedPattern) (old : List LeadingLookahead)
            → Cuts self p old fronts.old.items
            → IfOk result (λ c. Cuts c (cat p (outline_pattern term)) old fronts.new.items) }
    {
        if self.lead.parts_off(&term) {
            return self.with_front(alloc, term, fronts);
        }
        let lead = self.lead.with_term(&term);
        let rest = self.rest.then(alloc, term)?;
        Ok(Cut { lead, rest })
    }

    // With one lookahead more, which is looked for by itself.
    fn with_front(
        self,
        alloc: Global,
        term: CountedRegex,
        fronts: &mut Vec<LeadingLookahead>,
    ) -> Result<Cut, AllocError>
        requires { is_apart_behind self.lead (outline_pattern term) ≡ true }
        ensures { (p : MarkedPattern) (old : List LeadingLookahead)
            → Cuts self p old fronts.old.items
            → IfOk result (λ c. Cuts c (cat p (outline_pattern term)) old fronts.new.items) }
    {
        match term {
            CountedRegex::Ahead(negated, body) => {
                let pattern = CountedRegex::Start.then(alloc, Box::into_inner(body))?;
                fronts.push(LeadingLookahead { negated, pattern })?;
                Ok(self)
            }
            _other => Ok(self),
        }
    }
}

impl CountedRegex {
    // What it is as a first term.
    fn first_lead(&self) -> Lead
        ensures { result ≡ spec_first_lead (outline_pattern self.now) }
    {
        match self {
            CountedRegex::Empty => Lead::Nothing,
            CountedRegex::Start => Lead::Anchored,
            CountedRegex::Repeated(..) => {
                if self.is_nothing() {
                    Lead::Nothing
                } else {
                    Lead::Past
                }
            }
            CountedRegex::Class { .. }
            | CountedRegex::End
            | CountedRegex::Boundary
            | CountedRegex::NoBoundary
            | CountedRegex::Then(..)
            | CountedRegex::Or(..)
            | CountedRegex::Behind(..)
            | CountedRegex::Ahead(..) => Lead::Past,
        }
    }

    fn reads_nothing(&self) -> bool
        ensures { result ≡ spec_reads_nothing (outline_pattern self.now) }
    {
        match self {
            CountedRegex::Empty
            | CountedRegex::Start
            | CountedRegex::End
            | CountedRegex::Boundary
            | CountedRegex::NoBoundary
            | CountedRegex::Behind(..)
            | CountedRegex::Ahead(..) => true,
            CountedRegex::Repeated(..) => self.is_nothing(),
            CountedRegex::Class { .. } | CountedRegex::Then(..) | CountedRegex::Or(..) => false,
        }
    }

    // Whether it is a lookahead for what the next character does not tell.
    fn is_far(&self) -> bool
        ensures { result ≡ spec_is_far (outline_pattern self.now) }
    {
        match self {
            CountedRegex::Ahead(_, body) => !body.is_glance(),
            CountedRegex::Repeated(..) => false,
            CountedRegex::Empty
            | CountedRegex::Class { .. }
            | CountedRegex::Start
            | CountedRegex::End
            | CountedRegex::Boundary
            | CountedRegex::NoBoundary
            | CountedRegex::Then(..)
            | CountedRegex::Or(..)
            | CountedRegex::Behind(..) => false,
        }
    }

    /// The pattern without the parts that lookaheads at its front are. These are appended to the fronts.
    #[cycle(cut)]
    pub fn cut(self, alloc: Global, fronts: &mut Vec<LeadingLookahead>) -> Result<Cut, AllocError>
        requires { is_plain self ≡ true }
        ensures { IfOk result
            (λ c. Cuts c (outline_pattern self) fronts.old.items fronts.new.items) }
    {
        match self {
            CountedRegex::Then(first, second) => {
                let cut = Box::into_inner(first).cut(alloc, fronts)?;
                cut.with_term(alloc, Box::into_inner(second), fronts)
            }
            term => Ok(Cut {
                lead: term.first_lead(),
                rest: term,
            }),
        }
    }
}
