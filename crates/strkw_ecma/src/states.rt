//! The states of a search, and the entries of a table: each comes from a step of the marks.

ghost use Rattle.std.specs.Prelude.{◌≡◌, ◌*◌, ◌+◌, ◌≤◌, ◌<◌};
ghost use Rattle.std.specs.Prelude.{ℕ, length, true, false, IsTrue, IfOk, IfSome, None, Some, get_or, slice_get};
ghost use Rattle.strkw_regex_core.specs.machine.Positions.{classes as spec_classes, leaves, step as spec_step, mark_classes};
ghost use Rattle.strkw_regex_core.specs.Meaning.{is_word as spec_is_word, is_edge as spec_is_edge};
ghost use Rattle.strkw_regex_search.specs.machine.Machine.{pattern_of, AreReadsOf};
ghost use Rattle.strkw_regex_core.specs.machine.Boundaries.{has_boundary as spec_has_boundary};
ghost use Rattle.strkw_ecma.specs.machine.Dfa.{next_row, marks_in, IsStateOf, IsEntry};
ghost use Rattle.strkw_charset.specs.machine.Lists.{IsFront};

use crate::dfa::{FOUND, NEXT_ROW};
use std::alloc::{AllocError, Global};
use strkw_regex_core::marks::is_word;
use strkw_regex_search::program::Program;
use strkw_regex_search::walk::Walk;

/// A state of the search between two characters: the marks, and a character that may stand for the last. States of
/// the same marks have the same `digest`.
#[derive(Drop)]
pub(crate) struct State {
    marks: Vec<bool>,
    last: Option<char>,
    digest: u16,
}

impl State {
    /// That at the beginning of a text, of a pattern with so many marks.
    pub(crate) fn first(alloc: Global, marks: usize) -> Result<State, AllocError> {
        let marks = vec![in alloc; false; marks]?;
        let digest = digest(&marks);
        Ok(State {
            marks,
            last: None,
            digest,
        })
    }

    /// Whether it is that at the beginning of a text.
    pub(crate) fn is_first(&self) -> bool
        ensures unmarked { IsTrue result → (k : ℕ) → get_or self.now.marks.items k false ≡ false }
        ensures last { IsTrue result → self.now.last ≡ None }
    {
        self.last.is_none() && are_unmarked(&self.marks)
    }

    // Whether it is that of these marks behind a character. The pattern tells word characters from others only where
    // it has `\b` or `\B`.
    fn is_that_of(&self, program: &Program, marks: &[bool], last: char) -> bool
        ensures marks { IsTrue result → self.now.marks.items ≡ marks.now }
        ensures word { IsTrue result → spec_has_boundary (pattern_of program.now) ≡ true
            → spec_is_word self.now.last ≡ spec_is_word (Some last) }
        ensures edge { IsTrue result → spec_is_edge self.now.last ≡ false }
    {
        self.last.is_some()
            && (is_word(self.last) == is_word(Some(last)) || !program.has_boundary)
            && are_same_marks(&self.marks, marks)
    }

    /// A step of the search from here: whether the pattern is found before the next character. The marks at hand
    /// become those behind it. The classes have the next character or not as `reads` says. None where the marks are
    /// another number.
    pub(crate) fn step(
        &self,
        program: &Program,
        walk: &mut Walk,
        reads: &[bool],
        at_hand: &mut [bool],
        next: Option<char>,
    ) -> Option<bool>
        requires fits { spec_classes (pattern_of program.now) ≤ length at_hand.old }
        requires reads { AreReadsOf program.now next reads.now }
        ensures length { length at_hand.new ≡ length at_hand.old }
        ensures found { IfSome result (λ is_found. is_found
            ≡ leaves self.now.last next (marks_in (pattern_of program.now) self.now) true) }
        ensures marks { IfSome result (λ is_found. mark_classes at_hand.new (pattern_of program.now)
            ≡ spec_step self.now.last next (marks_in (pattern_of program.now) self.now) true) }
    {
        if self.marks.len() != at_hand.len() {
            return None;
        }
        at_hand.copy_from_slice(&self.marks);
        Some(program.step_by(walk, reads, at_hand, self.last, next))
    }
}

// A number of the marks, which is mostly another for others, so that few need be compared: the sum of a weight for each
// that is set. A loop without branches over numbers so small takes several marks at once.
fn digest(marks: &[bool]) -> u16 {
    let mut digest = 0u16;
    let mut root = 1u16;
    for mark in marks {
        digest = digest.wrapping_add(u16::from(*mark).wrapping_mul(root.wrapping_mul(root)));
        root = root.wrapping_add(0x9E37);
    }
    digest
}

// The number of the state of these marks behind a character, which is added where there is none.
fn number_of(
    alloc: Global,
    states: &mut Vec<State>,
    program: &Program,
    marks: &[bool],
    last: char,
) -> Result<usize, AllocError>
    ensures grows { IfOk result (λ number. IsFront states.old.items states.new.items) }
    ensures right { IfOk result (λ number.
        IsStateOf (pattern_of program.now) states.new.items number marks.now last) }
{
    let digest = digest(marks);
    for (number, state) in states.as_slice().iter().enumerate() {
        if state.digest == digest && state.is_that_of(program, marks, last) {
            return Ok(number);
        }
    }
    let added = states.len();
    states.push(State {
        marks: Vec::from_slice(alloc, marks)?,
        last: Some(last),
        digest,
    })?;
    Ok(added)
}

/// The place of the row of a number, where there can be one. The last column has the number `end`.
pub(crate) fn place_of_row(number: usize, end: usize) -> Option<u16>
    requires { end < 256 }
    ensures { IfSome result (λ place. (place ≡ number * (end + 1)) × (place < next_row)) }
{
    let place = number.checked_mul(end + 1)?;
    if place < NEXT_ROW {
        Some(place as u16)
    } else {
        None
    }
}

/// The entry of the state of a number and the next character, behind which there may be one more state; none where
/// its row has no place.
pub(crate) fn entry_of(
    alloc: Global,
    states: &mut Vec<State>,
    program: &Program,
    walk: &mut Walk,
    reads: &[bool],
    at_hand: &mut [bool],
    number: usize,
    end: usize,
    c: char,
) -> Result<Option<u16>, AllocError>
    requires fits { spec_classes (pattern_of program.now) ≤ length at_hand.old }
    requires reads { AreReadsOf program.now (Some c) reads.now }
    requires few { end < 256 }
    ensures length { length at_hand.new ≡ length at_hand.old }
    ensures grows { IfOk result (λ made. IsFront states.old.items states.new.items) }
    ensures right { IfOk result (λ made. IfSome made (λ entry. (s : State)
        → slice_get states.old.items number ≡ Some s → (row : ℕ)
        → IsEntry (pattern_of program.now) end states.new.items s row c entry)) }
{
    let Some(state) = states.get(number) else {
        return Ok(None);
    };
    let Some(is_found) = state.step(program, walk, reads, at_hand, Some(c)) else {
        return Ok(None);
    };
    if is_found {
        return Ok(Some(FOUND as u16));
    }
    let behind = number_of(alloc, states, program, at_hand, c)?;
    Ok(place_of_row(behind, end))
}

// Whether both are the same marks.
fn are_same_marks(one: &[bool], other: &[bool]) -> bool
    ensures { IsTrue result → one.now ≡ other.now }
{
    one == other
}

// Whether no mark is set.
fn are_unmarked(marks: &[bool]) -> bool
    ensures { IsTrue result → (k : ℕ) → get_or marks.now k false ≡ false }
{
    !marks.contains(&true)
}
