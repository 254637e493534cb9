//! Runs of rows that each lead on to the next, which the search goes along without waiting for its entries.

ghost use Rattle.std.specs.Prelude.{◌<◌};
ghost use Rattle.strkw_ecma.specs.machine.Dfa.{SayTheSame};

use crate::dfa::{FOUND, NEXT_ROW};
use crate::states::place_of_row;

/// How many rows one behind another, each of which leads on to the next, are worth telling the processor of. In fewer
/// it would gain less than it loses where it guesses wrong.
const LEAST_RUN: usize = 4;

// Whether the row of a state leads to the row behind it, and elsewhere to rows before it alone.
fn leads_on(entries: &[u16], stride: usize, number: usize) -> bool
    requires { 0 < stride }
{
    let own = number.saturating_mul(stride);
    let next = own.saturating_add(stride);
    let Some(row) = entries.chunks_exact(stride).nth(number) else {
        return false;
    };
    let mut leads = false;
    for entry in row {
        let place = usize::from(*entry);
        if place == own || (place > next && place != FOUND) {
            return false;
        }
        leads |= place == next;
    }
    leads
}

// Says of an entry of a row that leads to the row behind it that it does, where there is one more row behind that.
fn mark_entry(entries: &mut [u16], end: usize, number: usize, column: usize)
    requires few { end < 256 }
    requires column { column < end }
    ensures { SayTheSame end entries.old entries.new }
{
    let Some(row) = place_of_row(number, end) else {
        return;
    };
    let place = usize::from(row) + column;
    let next = usize::from(row) + (end + 1);
    if next < NEXT_ROW
        && place + 2 * end + 1 < entries.len()
        && usize::from(entries[place]) == next
    {
        entries[place] = NEXT_ROW as u16;
    }
}

// Says so of each entry of a row.
fn mark_row(entries: &mut [u16], end: usize, number: usize)
    requires { end < 256 }
    ensures { SayTheSame end entries.old entries.new }
{
    for column in 0..end {
        mark_entry(entries, end, number, column);
    }
}

// Says so in some rows.
fn mark_rows(entries: &mut [u16], end: usize, first: usize, behind: usize)
    requires { end < 256 }
    ensures { SayTheSame end entries.old entries.new }
{
    for number in first..behind {
        mark_row(entries, end, number);
    }
}

/// Says so in each row of a long run, in a table of so many rows, whose last column has this number.
pub(crate) fn mark_runs(entries: &mut [u16], end: usize, rows: usize)
    requires { end < 256 }
    ensures { SayTheSame end entries.old entries.new }
{
    let mut run = 0usize;
    for number in 0..rows {
        run = if leads_on(entries, end + 1, number) {
            run.saturating_add(1)
        } else {
            0
        };
        let first = number.saturating_sub(if run == LEAST_RUN { LEAST_RUN - 1 } else { 0 });
        if run >= LEAST_RUN {
            mark_rows(entries, end, first, number + 1);
        }
    }
}
