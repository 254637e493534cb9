//! Searches in which marks are told beforehand, place by place.

ghost use Rattle.std.specs.Prelude.{◌≡◌, ◌≤◌, true, length, None, IfOk};
ghost use Rattle.std.specs.Str.{chars};
ghost use Rattle.strkw_regex_core.specs.machine.Mirror.{along};
ghost use Rattle.strkw_regex_core.specs.machine.MarkedPattern.{MarkedPattern};
ghost use Rattle.strkw_regex_search.specs.machine.OracleMarks.{told_by};
ghost use Rattle.strkw_regex_search.specs.machine.Bits.{bits_of, rows_of as spec_rows_of};
ghost use Rattle.strkw_regex_search.specs.machine.Machine.{pattern_of};
ghost use Rattle.strkw_regex_core.specs.machine.Positions.{classes, is_clean, mark_classes};
ghost use Rattle.strkw_regex_search.specs.machine.Seeking.{ends_within, row_of, rows_behind, row_answer};
ghost use Rattle.strkw_regex_core.specs.machine.Shape.{outline_pattern};

use crate::along::{Along, char_count};
use crate::bits::Bits;
use crate::oracle_passes::OraclePass;
use crate::program::{MOST_INSTRUCTIONS, Program, Room};
use std::alloc::{AllocError, Global};

/// A program some of whose marks are told, and for each mark by which of the rows of bits, if by one.
#[derive(Drop)]
pub struct OracleRunner {
    is_backward: bool,
    program: Program,
    told: Vec<Option<usize>>,
    ghost clean: { is_clean (pattern_of program) ≡ true },
}

// What the row of a number says, with so many characters still to come.
fn is_said(rows: &[Bits], row: usize, ahead: usize) -> bool
    ensures { result ≡ row_answer (spec_rows_of rows.now) ahead row }
{
    match rows.get(row) {
        Some(bits) => bits.get(ahead),
        None => false,
    }
}

// Sets the marks that are told, with so many characters still to come. The rows were put from the other end of the
// text on.
fn tell(marks: &mut [bool], told: &[Option<usize>], rows: &[Bits], ahead: usize)
    ensures length { length marks.new ≡ length marks.old }
    ensures marks { (p : MarkedPattern) → classes p ≤ length marks.old → mark_classes marks.new p
        ≡ told_by (row_answer (spec_rows_of rows.now) ahead) told.now (mark_classes marks.old p) }
{
    for (place, row) in told.iter().enumerate() {
        if let Some(row) = row {
            if place < marks.len() {
                marks[place] = is_said(rows, *row, ahead);
            }
        }
    }
}

impl OracleRunner {
    ghost use Rattle.strkw_regex_search.specs.machine.OracleRunners.{IsFit, quest, seeking_of};

    pub fn of(alloc: Global, aside: OraclePass) -> Result<OracleRunner, AllocError>
        requires { IsFit (outline_pattern aside.pattern) }
        ensures { IfOk result (λ s. seeking_of s ≡ quest aside) }
    {
        let OraclePass {
            is_backward,
            pattern,
            told,
        } = aside;
        Ok(OracleRunner {
            is_backward,
            program: Program::of(alloc, pattern)?,
            told,
        })
    }

    /// At each place of the text, from its beginning or from its end on, whether the pattern ends there.
    pub fn ends(&self, alloc: Global, text: &str, rows: &[Bits]) -> Result<Bits, AllocError>
        ensures { IfOk result (λ bits. bits_of bits
            ≡ row_of (spec_rows_of rows.now) (chars text.now) (seeking_of self.now)) }
    {
        let mut room = Room::new();
        let mut marks = [false; MOST_INSTRUCTIONS];
        let mut bits = Bits::new(alloc);
        let mut last = None;
        let mut left = Along::new(text, self.is_backward);
        let mut ahead = char_count(text);
        'characters: while let Some(c) = left.next() {
            tell(&mut marks, &self.told, rows, ahead);
            bits.push(self.program.step(&mut room, &mut marks, last, Some(c)))?;
            last = Some(c);
            ahead -= 1;
        }
        tell(&mut marks, &self.told, rows, 0);
        bits.push(self.program.step(&mut room, &mut marks, last, None))?;
        Ok(bits)
    }

    /// Whether the pattern is found.
    pub fn is_found(&self, text: &str, rows: &[Bits]) -> bool
        ensures { let s = seeking_of self.now in result ≡ ends_within (spec_rows_of rows.now)
            s.told s.pattern None (along s.backward (chars text.now)) }
    {
        let mut room = Room::new();
        let mut marks = [false; MOST_INSTRUCTIONS];
        let mut last = None;
        let mut left = Along::new(text, self.is_backward);
        let mut ahead = char_count(text);
        'characters: while let Some(c) = left.next() {
            tell(&mut marks, &self.told, rows, ahead);
            if self.program.step(&mut room, &mut marks, last, Some(c)) {
                return true;
            }
            last = Some(c);
            ahead -= 1;
        }
        tell(&mut marks, &self.told, rows, 0);
        self.program.step(&mut room, &mut marks, last, None)
    }
}
