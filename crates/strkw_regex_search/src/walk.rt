//! What a walk over a program knows between two instructions.

ghost use Rattle.std.specs.Prelude.{◌≡◌, ◌≤◌, ◌+◌, [], true, false, ℕ, Bool, List, Option, ◌&&◌, ◌||◌};
ghost use Rattle.strkw_regex_core.specs.machine.Program.{read as spec_read, peek as spec_peek};
ghost use Rattle.strkw_regex_core.specs.machine.Positions.{reads as spec_reads};
ghost use Rattle.strkw_regex_search.specs.machine.Instructions.{turn_instruction};
ghost use Rattle.strkw_regex_search.specs.machine.Machine.{asked_of, following_of, answers_of};
ghost use Rattle.strkw_regex_search.specs.machine.Walk.{back_over as spec_back_over, over as spec_over};
ghost use Rattle.strkw_charset.specs.declared.tree.CharSet.{CharSet};

use crate::code::Turn;
use crate::stack::Stack;
use strkw_regex_core::marks::{is_boundary, is_edge};

/// What is known before an instruction by those behind it. A walk has it by value, so that it stays in registers from
/// one class to the next.
#[derive(Clone, Copy)]
pub struct Ahead {
    // Whether a way that comes here ends behind what stands around.
    pub ends: bool,
    // Whether a way goes on from a mark ahead, and ends there too.
    pub(crate) goes_on: bool,
}

impl Ahead {
    /// Behind the last instruction.
    pub(crate) fn nothing() -> Ahead
        ensures ends { result.ends ≡ true }
        ensures goes_on { result.goes_on ≡ false }
    {
        Ahead {
            ends: true,
            goes_on: false,
        }
    }

    /// Back over a class.
    pub(crate) fn step_back_over_class(self, optional: bool, mark: bool) -> Ahead
        ensures { (last next : Option ℕ) (again negated : Bool) (sets : List CharSet) (walk : Walk)
            → asked_of result walk
            ≡ spec_back_over last next (spec_read again optional negated sets) mark
            (asked_of self walk) }
    {
        Ahead {
            ends: self.ends & optional,
            goes_on: self.goes_on | (self.ends & mark),
        }
    }

    /// Back over a class that the next character is asked for, and not read.
    pub(crate) fn step_back_over_peek(self, reads: bool) -> Ahead
        ensures { (last next : Option ℕ) (negated : Bool) (sets : List CharSet) (mark : Bool)
            (walk : Walk) → reads ≡ spec_reads next negated sets
            → asked_of result walk
            ≡ spec_back_over last next (spec_peek negated sets) mark (asked_of self walk) }
    {
        Ahead {
            ends: self.ends & reads,
            goes_on: self.goes_on,
        }
    }
}

/// What is known of what stands around an instruction, and of the loops.
#[derive(Drop)]
pub struct Walk {
    // Backwards, what was known behind each group around; forwards, whether a way had come to it or has left it.
    pub(crate) around: Stack,
    // For each loop ahead, whether a way goes on from a mark in its body, and ends behind the body.
    pub again: Stack,
}

impl Walk {
    pub fn new() -> Walk
        ensures around { result.around.first ≡ 10400 }
        ensures again { result.again.first ≡ 10400 }
    {
        Walk {
            around: Stack::new(),
            again: Stack::new(),
        }
    }

    /// Stands behind the last instruction.
    pub(crate) fn begin_back(&mut self) -> Ahead
        ensures asked { asked_of result self.new
            ≡ record { ends = true; goes_on = false; around = []; again = [] } }
        ensures around { self.new.around.first ≡ 10400 }
        ensures again { self.new.again.first ≡ 10400 }
    {
        self.around.clear();
        self.again.clear();
        Ahead::nothing()
    }

    /// Back over an instruction that reads no character.
    pub(crate) fn step_back(
        &mut self,
        turn: Turn,
        ahead: Ahead,
        last: Option<char>,
        next: Option<char>,
    ) -> Ahead
        requires around { 2 ≤ self.old.around.first }
        requires again { 1 ≤ self.old.again.first }
        ensures asked { (mark : Bool) → asked_of result self.new
            ≡ spec_back_over last next (turn_instruction turn) mark (asked_of ahead self.old) }
        ensures around { self.old.around.first ≤ self.new.around.first + 2 }
        ensures again { self.old.again.first ≤ self.new.again.first + 1 }
    {
        let Ahead { ends, goes_on } = ahead;
        match turn {
            Turn::Start => Ahead {
                ends: ends & is_edge(last),
                goes_on,
            },
            Turn::End => Ahead {
                ends: ends & is_edge(next),
                goes_on,
            },
            Turn::Boundary => Ahead {
                ends: ends & is_boundary(last, next),
                goes_on,
            },
            Turn::NoBoundary => Ahead {
                ends: ends & !is_boundary(last, next),
                goes_on,
            },
            Turn::Join => {
                self.around.push(ends);
                self.around.push(false);
                ahead
            }
            Turn::Other => {
                let any = self.around.pop() | ends;
                let behind = self.around.pop();
                self.around.push(behind);
                self.around.push(any);
                Ahead {
                    ends: behind,
                    goes_on,
                }
            }
            Turn::Fork => {
                let any = self.around.pop() | ends;
                let _ = self.around.pop();
                Ahead { ends: any, goes_on }
            }
            Turn::StarEnd | Turn::PlusEnd | Turn::LookEnd(_) => {
                self.around.push(ends);
                self.around.push(goes_on);
                Ahead::nothing()
            }
            Turn::StarBegin => {
                self.again.push(goes_on);
                let beyond = self.around.pop();
                let behind = self.around.pop();
                Ahead {
                    ends: behind,
                    goes_on: beyond | (behind & goes_on),
                }
            }
            Turn::PlusBegin => {
                self.again.push(goes_on);
                let beyond = self.around.pop();
                let behind = self.around.pop();
                Ahead {
                    ends: behind & ends,
                    goes_on: beyond | (behind & goes_on),
                }
            }
            Turn::LookBegin(negated) => {
                let beyond = self.around.pop();
                let behind = self.around.pop();
                let seen = (goes_on | ends) != negated;
                Ahead {
                    ends: behind & seen,
                    goes_on: beyond,
                }
            }
        }
    }

    /// Stands before the first instruction. What is known of the loops stays.
    pub(crate) fn begin_forth(&mut self)
        ensures following { (enters : Bool) → following_of enters self.new
            ≡ record { enters = enters; around = []; again = answers_of self.old.again } }
        ensures around { self.new.around.first ≡ 10400 }
    {
        self.around.clear();
    }

    /// Forwards over an instruction that reads no character, to which a way has come or not: whether one has come to
    /// the next.
    pub(crate) fn step_over(
        &mut self,
        turn: Turn,
        enters: bool,
        last: Option<char>,
        next: Option<char>,
    ) -> bool
        requires around { 2 ≤ self.old.around.first }
        ensures following { (mark : Bool) → following_of result self.new
            ≡ spec_over last next (turn_instruction turn) mark (following_of enters self.old) }
        ensures around { self.old.around.first ≤ self.new.around.first + 2 }
    {
        match turn {
            Turn::Start => enters & is_edge(last),
            Turn::End => enters & is_edge(next),
            Turn::Boundary => enters & is_boundary(last, next),
            Turn::NoBoundary => enters & !is_boundary(last, next),
            Turn::Fork => {
                self.around.push(enters);
                self.around.push(false);
                enters
            }
            Turn::Other => {
                let left = self.around.pop() | enters;
                let begun = self.around.pop();
                self.around.push(begun);
                self.around.push(left);
                begun
            }
            Turn::Join => {
                let left = self.around.pop() | enters;
                let _ = self.around.pop();
                left
            }
            Turn::StarBegin => {
                let begun = enters | self.again.pop();
                self.around.push(begun);
                begun
            }
            Turn::StarEnd => self.around.pop(),
            Turn::PlusBegin => enters | self.again.pop(),
            Turn::PlusEnd => enters,
            Turn::LookBegin(_) => {
                self.around.push(enters);
                true
            }
            Turn::LookEnd(negated) => self.around.pop() & (enters != negated),
        }
    }
}
