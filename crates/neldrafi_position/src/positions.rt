//! The lines and columns of the values of a JSON text.

ghost use Rattle.std.specs.Prelude.{◌≡◌, IfOk, take};
ghost use Rattle.neldrafi_position.specs.Positions.{column_behind, line_behind, offset_of};

use crate::position::{Position, position_at};
use crate::values::Values;
use std::alloc::{AllocError, Global};
use std::marker::Model;

/// Finds the positions of values in one JSON text, by their JSON pointers (RFC 6901). Each container is passed over
/// when a value in it is first looked for, and what was found is kept: so many positions take about as long as one.
/// Contracts see the text.
#[derive(Drop)]
pub struct Positions<'a> {
    values: Values<'a>,
    marks: Vec<Position>,
}

impl<'a> Model for Positions<'a> {
    ghost use Rattle.std.specs.Prelude.{ℕ, List};
    ghost use Rattle.neldrafi_position.specs.machine.Marks.{AreMarks};

    ghost Value = { List ℕ };

    ghost view = { λ p. p.values };

    ghost invariant = { λ p. AreMarks p.values p.marks.items };
}

impl<'a> Positions<'a> {
    /// The positions in a text, of which none was looked for. The text has to be JSON. No memory is taken.
    pub fn new(alloc: Global, text: &'a str) -> Positions<'a>
        ensures { result ≡ text.now }
    {
        Positions {
            values: Values::new(alloc, text),
            marks: Vec::new(alloc),
        }
    }

    /// The position of the value at a JSON pointer, or of the whole value if there is none. Of members with the same
    /// name the last counts.
    pub fn position_of(&mut self, alloc: Global, pointer: &str) -> Result<Position, AllocError>
        ensures text { self.new ≡ self.old }
        ensures line { IfOk result (λ p. p.line
            ≡ line_behind (take (offset_of pointer.now self.old) self.old)) }
        ensures column { IfOk result (λ p. p.column
            ≡ column_behind (take (offset_of pointer.now self.old) self.old)) }
    {
        let start = self.values.start_of(alloc, pointer)?;
        position_at(&mut self.marks, self.values.bytes(), start)
    }
}
