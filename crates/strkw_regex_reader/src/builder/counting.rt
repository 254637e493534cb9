//! How what stands last is repeated.

ghost use Rattle.std.specs.Prelude.{◌≡◌, IfOk};
ghost use Rattle.strkw_regex_core.specs.machine.Shape.{quantifier_of};
ghost use Rattle.strkw_regex_reader.specs.machine.BuilderParts.{builder_of, built_of};
ghost use Rattle.strkw_regex_reader.specs.machine.Building.{count_behind, is_great as spec_is_great, quantify, question, repeat};

use super::{Builder, Last, MAX_COUNT};
use crate::refusals::{PatternRefusal, Taken};
use std::alloc::{AllocError, Global};
use std::mem;
use strkw_regex_core::counted_regex::Quantifier;
use strkw_regex_grammar::lexemes::Bounds;

pub(crate) fn is_great(count: u32) -> bool
    ensures { result ≡ spec_is_great count }
{
    count > MAX_COUNT
}

impl Builder {
    // The last term with a quantifier, where it is an atom.
    fn quantify(&mut self, alloc: Global, quantifier: Quantifier) -> Result<Taken, AllocError>
        ensures { IfOk result (λ taken. built_of taken (builder_of self.new)
            ≡ quantify (builder_of self.old) (quantifier_of quantifier)) }
    {
        let Last::Atom(atom) = mem::replace(&mut self.last, Last::None) else {
            return Ok(Taken::Refuses(None));
        };
        self.last = Last::Counted(atom.repeat(alloc, quantifier)?);
        Ok(Taken::Takes)
    }

    // Behind a quantifier it makes that one lazy, which changes no answer.
    pub(super) fn take_question(&mut self, alloc: Global) -> Result<Taken, AllocError>
        ensures { IfOk result (λ taken. built_of taken (builder_of self.new)
            ≡ question (builder_of self.old)) }
    {
        match mem::replace(&mut self.last, Last::None) {
            Last::None | Last::Lead(_) => return Ok(Taken::Refuses(None)),
            Last::Atom(atom) => {
                self.last = Last::Counted(atom.repeat(alloc, Quantifier::ZeroOrOne)?);
            }
            Last::Counted(term) => self.level.add(alloc, term)?,
        }
        Ok(Taken::Takes)
    }

    // A quantifier with counts, where its copies take no more steps than may be.
    fn count(&mut self, alloc: Global, quantifier: Quantifier) -> Result<Taken, AllocError>
        ensures { let s = builder_of self.old in
            IfOk result (λ taken. built_of taken (builder_of self.new)
            ≡ count_behind s s.last (quantifier_of quantifier)) }
    {
        match &self.last {
            Last::Atom(atom) => {
                if !quantifier.is_small_for(atom) {
                    return Ok(Taken::Refuses(Some(PatternRefusal::TermTooLarge)));
                }
            }
            _ => return Ok(Taken::Refuses(None)),
        }
        self.quantify(alloc, quantifier)
    }

    pub(super) fn repeat(&mut self, alloc: Global, bounds: Bounds) -> Result<Taken, AllocError>
        ensures { IfOk result (λ taken. built_of taken (builder_of self.new)
            ≡ repeat (builder_of self.old) bounds) }
    {
        match bounds {
            Bounds::ZeroOrMore => self.quantify(alloc, Quantifier::ZeroOrMore),
            Bounds::OneOrMore => self.quantify(alloc, Quantifier::OneOrMore),
            Bounds::Exactly(count) if !is_great(count) => {
                self.count(alloc, Quantifier::of(count, Some(count)))
            }
            Bounds::AtLeast(count) if !is_great(count) => {
                self.count(alloc, Quantifier::of(count, None))
            }
            Bounds::FromTo(first, last) if !is_great(first) && !is_great(last) => {
                self.count(alloc, Quantifier::of(first, Some(last)))
            }
            _ => Ok(Taken::Refuses(Some(PatternRefusal::CountTooGreat))),
        }
    }
}
