//! How the table of a pattern is made: from the state at the beginning of a text on, by each column.

ghost use Rattle.std.specs.Prelude.{◌≡◌, ◌+◌, ◌==◌, ◌≤◌, ◌<◌, ℕ, true, false, length, Some, None, get_or, slice_get};
ghost use Rattle.std.specs.Prelude.{IsTrue, IfOk, MatchOption};
ghost use Rattle.strkw_charset.specs.machine.CharClasses.{answers as spec_answers};
ghost use Rattle.strkw_regex_core.specs.machine.Positions.{classes as spec_classes, is_clean};
ghost use Rattle.strkw_regex_search.specs.machine.Machine.{pattern_of, AreReadsOfAll};
ghost use Rattle.strkw_ecma.specs.machine.Searches.{IsSearchedBy};
ghost use Rattle.strkw_ecma.specs.machine.Dfa.{found_row, AreRows, IsDraft, IsTable};

use crate::dfa::{Dfa, FOUND, are_inside};
use crate::representatives::{Representatives, sampled_of, tells};
use crate::runs::mark_runs;
use crate::states::{State, entry_of};
use std::alloc::{AllocError, Global};
use strkw_charset::char_classes::{MOST_COLUMNS, answers};
use strkw_regex_search::program::Program;
use strkw_regex_search::walk::Walk;

/// The most rows and entries of a table. The state of an entry is looked for among those before it.
const MOST_ROWS: usize = 1024;

const MOST_ENTRIES: usize = 12_288;

/// How much work the entries of a table may be together. Each is a step of the whole pattern, and its states are
/// compared.
const MOST_WORK: usize = 2 << 20;

/// How many marks its states may have together.
const MOST_ROOM: usize = 1 << 20;

// How many rows a table of so many columns may have.
fn most_rows(program: &Program, columns: usize) -> usize {
    let work_a_row = program.work().saturating_mul(columns);
    let by_room = MOST_ROOM / program.marks.max(1);
    let by_entries = MOST_ENTRIES / columns.max(1);
    (MOST_WORK / work_a_row.max(1))
        .min(by_room)
        .min(by_entries)
        .min(MOST_ROWS)
}

// For each character that stands for a column, and for the end of a text, whether each class has it.
fn reads_of(
    alloc: Global,
    program: &Program,
    samples: &[char],
) -> Result<Vec<Vec<bool>>, AllocError>
    ensures { IfOk result (λ all. AreReadsOfAll program.now samples.now all.items) }
{
    let mut all = Vec::new(alloc);
    for sample in samples {
        all.push(program.reads(alloc, Some(*sample))?)?;
    }
    all.push(program.reads(alloc, None)?)?;
    Ok(all)
}

/// A table that is made: the states that are known, and the rows of the first of them.
#[derive(Drop)]
struct Draft {
    states: Vec<State>,
    entries: Vec<u16>,
}

impl Draft {
    // The row of a state, behind the rows of those before it: an entry for each character that stands for a column, and
    // the entry of the end of a text. Whether there is a place for the rows that it leads to.
    fn add_row(
        &mut self,
        alloc: Global,
        program: &Program,
        walk: &mut Walk,
        at_hand: &mut [bool],
        samples: &[char],
        all_reads: &[Vec<bool>],
        number: usize,
    ) -> Result<bool, AllocError>
        requires fits { spec_classes (pattern_of program.now) ≤ length at_hand.old }
        requires reads { AreReadsOfAll program.now samples.now all_reads.now }
        requires few { length samples.now < 256 }
        requires there { number < length self.old.states.items }
        requires draft { IsDraft (pattern_of program.now) samples.now self.old.entries.items
            self.old.states.items number }
        ensures length { length at_hand.new ≡ length at_hand.old }
        ensures right { IfOk result (λ is_added. IsTrue is_added
            → IsDraft (pattern_of program.now) samples.now self.new.entries.items
            self.new.states.items (number + 1)) }
    {
        let end = samples.len();
        for (column, sample) in samples.iter().enumerate() {
            let Some(reads) = all_reads.get(column) else {
                return Ok(false);
            };
            match entry_of(
                alloc,
                &mut self.states,
                program,
                walk,
                reads,
                at_hand,
                number,
                end,
                *sample,
            )? {
                Some(entry) => self.entries.push(entry)?,
                None => return Ok(false),
            }
        }
        let Some(state) = self.states.get(number) else {
            return Ok(false);
        };
        let Some(reads) = all_reads.get(end) else {
            return Ok(false);
        };
        let Some(ends) = state.step(program, walk, reads, at_hand, None) else {
            return Ok(false);
        };
        self.entries.push(end_entry(ends))?;
        Ok(true)
    }

    // The rows of all states. Whether these are so few.
    fn add_rows(
        &mut self,
        alloc: Global,
        program: &Program,
        samples: &[char],
        most_rows: usize,
    ) -> Result<bool, AllocError>
        requires few { length samples.now < 256 }
        requires draft { IsDraft (pattern_of program.now) samples.now self.old.entries.items
            self.old.states.items 0 }
        ensures { IfOk result (λ are_added. IsTrue are_added
            → AreRows (pattern_of program.now) samples.now self.new.entries.items
            self.new.states.items) }
    {
        let mut walk = Walk::new();
        let all_reads = reads_of(alloc, program, samples)?;
        let mut at_hand = vec![in alloc; false; program.marks]?;
        let mut number = 0;
        'rows: while number < self.states.len() {
            if self.states.len() > most_rows
                || !self.add_row(
                    alloc,
                    program,
                    &mut walk,
                    &mut at_hand,
                    samples,
                    &all_reads,
                    number,
                )?
            {
                return Ok(false);
            }
            number += 1;
        }
        Ok(true)
    }

    // Whether the first state is that of a pattern without marks at the beginning of a text.
    fn begins(&self) -> bool
        ensures { IsTrue result → (s : State) × (slice_get self.now.states.items 0 ≡ Some s)
            × ((k : ℕ) → get_or s.marks.items k false ≡ false) × (s.last ≡ None) }
    {
        match self.states.first() {
            Some(state) => state.is_first(),
            None => false,
        }
    }

    // Whether the table is right, with these columns, where its rows are.
    fn is_table(&self, sampled: &Representatives, program: &Program) -> bool
        requires { AreRows (pattern_of program.now) sampled.now.samples.items
            self.now.entries.items self.now.states.items }
        ensures { IsTrue result
            → IsTable sampled.now.columns.classes.items sampled.now.columns.keys.items
            sampled.now.samples.items self.now.entries.items self.now.states.items
            (pattern_of program.now) }
    {
        if !tells(&sampled.columns.classes, program) || !are_keys(sampled) {
            return false;
        }
        self.begins()
    }
}

// The entry of a state for the end of a text.
fn end_entry(is_found: bool) -> u16
    ensures { (result == found_row) ≡ is_found }
{
    if is_found { FOUND as u16 } else { 0 }
}

// Whether the keys are the answers about the characters that stand for the columns.
fn are_keys(sampled: &Representatives) -> bool
    ensures lengths { IsTrue result
        → length sampled.now.samples.items ≡ length sampled.now.columns.keys.items }
    ensures sampled { IsTrue result → (k : ℕ) → k < length sampled.now.columns.keys.items
        → get_or sampled.now.columns.keys.items k 0
        ≡ spec_answers 0 sampled.now.columns.classes.items (get_or sampled.now.samples.items k 0) }
{
    let samples = sampled.samples.as_slice();
    if samples.len() != sampled.columns.keys.len() {
        return false;
    }
    for (k, key) in sampled.columns.keys.as_slice().iter().enumerate() {
        if *key != answers(&sampled.columns.classes, samples[k]) {
            return false;
        }
    }
    true
}

// The table of a draft with these columns, where they are right.
fn table_if_right(sampled: Representatives, draft: Draft, program: &Program) -> Option<Dfa>
    requires clean { is_clean (pattern_of program.now) ≡ true }
    requires rows { AreRows (pattern_of program.now) sampled.samples.items draft.entries.items
        draft.states.items }
    ensures { MatchOption result Unit (λ t. IsSearchedBy t (pattern_of program.now)) }
{
    let end = sampled.columns.keys.len();
    if !draft.is_table(&sampled, program) || !are_inside(&draft.entries, end) {
        return None;
    }
    Some(Dfa {
        columns: sampled.columns,
        entries: draft.entries,
    })
}

/// The table of a pattern, where it has few enough states and columns. A chain has a state before its classes and one
/// behind each, so that it is known at once where it has too many.
pub(crate) fn table_of(
    alloc: Global,
    program: &Program,
    is_chain: bool,
) -> Result<Option<Dfa>, AllocError>
    requires clean { is_clean (pattern_of program.now) ≡ true }
    ensures { IfOk result (λ made.
        MatchOption made Unit (λ t. IsSearchedBy t (pattern_of program.now))) }
{
    let Some(sampled) = sampled_of(alloc, program)? else {
        return Ok(None);
    };
    let end = sampled.samples.len();
    if end > MOST_COLUMNS {
        return Ok(None);
    }
    let most_rows = most_rows(program, end + 1);
    if is_chain && program.marks >= most_rows {
        return Ok(None);
    }
    let mut draft = Draft {
        states: Vec::new(alloc),
        entries: Vec::new(alloc),
    };
    draft.states.push(State::first(alloc, program.marks)?)?;
    if !draft.add_rows(alloc, program, &sampled.samples, most_rows)? {
        return Ok(None);
    }
    mark_runs(&mut draft.entries, end, draft.states.len());
    Ok(table_if_right(sampled, draft, program))
}
