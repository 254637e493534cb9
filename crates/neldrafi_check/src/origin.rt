//! Where a value comes from, and so where each value in it is.

ghost use Rattle.std.specs.Prelude.{◌≡◌, IfOk};
ghost use Rattle.neldrafi_check.specs.machine.Origins.{positions_of};
ghost use Rattle.neldrafi_check.specs.Messages.{in_line};

use neldrafi_position::{Position, Positions};
use std::alloc::{AllocError, Global};

/// Where a value comes from.
#[derive(Drop)]
pub(crate) enum Origin<'a> {
    /// A document, with the positions in its text.
    Document(Positions<'a>),
    /// A line that is a JSON text.
    Line(JsonLine<'a>),
    /// A line of this number, which is the value.
    Front(u64),
}

/// A line that is a JSON text, with its number and the positions in it.
#[derive(Drop)]
pub(crate) struct JsonLine<'a> {
    pub number: u64,
    pub positions: Positions<'a>,
}

impl Origin<'_> {
    /// The position of the value at a location. The only error is out of memory.
    pub fn position(&mut self, alloc: Global, location: &str) -> Result<Position, AllocError>
        ensures same { self.new ≡ self.old }
        ensures position { IfOk result (λ at. at ≡ positions_of self.old location.now) }
    {
        match self {
            Origin::Document(positions) => positions.position_of(alloc, location),
            Origin::Line(line) => line.position(alloc, location),
            Origin::Front(number) => Ok(Position {
                line: *number,
                column: 1,
            }),
        }
    }
}

impl JsonLine<'_> {
    // The same of a line.
    fn position(&mut self, alloc: Global, location: &str) -> Result<Position, AllocError>
        ensures same { self.new ≡ self.old }
        ensures position { IfOk result (λ at.
            at ≡ in_line self.old.number self.old.positions location.now) }
    {
        let column = self.positions.position_of(alloc, location)?.column;
        Ok(Position {
            line: self.number,
            column,
        })
    }
}
