//! Steps into a value.

ghost use Rattle.std.specs.Prelude.{◌≡◌, ◌++◌, IfOk, option_map, string_bytes};
ghost use Rattle.serde_json.specs.View.{view};
ghost use Rattle.neldrafi_schema.specs.Paths.{child, segment_location, segment_text};
ghost use Rattle.neldrafi_schema.specs.Rules.{is_of_part};
ghost use Rattle.neldrafi_schema.specs.machine.Compiled.{segment_of, step_of};
ghost use Rattle.neldrafi_schema.specs.machine.Left.{same_segment};

use crate::node::Part;
use serde_json::Value;
use std::alloc::{AllocError, Global};
use strkw_report::Location;

/// The key of a member, or the place of an item; or, as the first one, the number of a document.
#[derive(PartialEq, Eq, PartialOrd, Ord, Drop)]
pub(crate) enum Segment {
    Key(String),
    Place(usize),
    Document(usize),
}

/// The same, without memory of its own.
#[derive(Clone, Copy)]
pub(crate) enum Step<'a> {
    Key(&'a str),
    Place(usize),
    Document(usize),
}

impl Segment {
    pub fn as_step(&self) -> Step<'_>
        ensures { step_of result ≡ segment_of self.now }
    {
        match self {
            Segment::Key(name) => Step::Key(name.as_str()),
            Segment::Place(place) => Step::Place(*place),
            Segment::Document(number) => Step::Document(*number),
        }
    }
}

impl<'a> Step<'a> {
    pub fn to_segment(self, alloc: Global) -> Result<Segment, AllocError>
        ensures { IfOk result (λ segment. segment_of segment ≡ step_of self.entry) }
    {
        Ok(match self {
            Step::Key(name) => Segment::Key(String::from_str(alloc, name)?),
            Step::Place(place) => Segment::Place(place),
            Step::Document(number) => Segment::Document(number),
        })
    }

    pub fn is(self, other: Step<'_>) -> bool
        ensures { result ≡ same_segment (step_of self.entry) (step_of other.entry) }
    {
        match (self, other) {
            (Step::Key(a), Step::Key(b)) => a == b,
            (Step::Place(m), Step::Place(n)) => m == n,
            (Step::Document(m), Step::Document(n)) => m == n,
            _ => false,
        }
    }

    /// Whether it leads to a member, or to an item.
    pub fn is_of(self, part: Part) -> bool
        ensures { result ≡ is_of_part part (step_of self.entry) }
    {
        matches!(
            (self, part),
            (Step::Key(_), Part::Members) | (Step::Place(_), Part::Items)
        )
    }

    /// The value there.
    pub fn child<'v>(self, value: &'v Value) -> Option<&'v Value>
        ensures { option_map (λ v. view v.now) result
            ≡ child (step_of self.entry) (view value.now) }
    {
        match self {
            Step::Key(name) => value.get(name),
            Step::Place(place) => value.get(place),
            Step::Document(_) => None,
        }
    }

    pub fn to_text(self, alloc: Global) -> Result<String, AllocError>
        ensures { IfOk result (λ text. string_bytes text ≡ segment_text (step_of self.entry)) }
    {
        match self {
            Step::Key(name) => String::from_str(alloc, name),
            Step::Place(place) => format!(in alloc; "{place}"),
            Step::Document(_) => Ok(String::new(alloc)),
        }
    }

    /// The location of what is there.
    pub fn below(self, alloc: Global, location: &Location) -> Result<Location, AllocError>
        ensures { IfOk result (λ l. l ≡ location.now ++ segment_location (step_of self.entry)) }
    {
        match self {
            Step::Key(name) => location.join(name),
            Step::Place(place) => location.join(format!(in alloc; "{place}")?.as_str()),
            Step::Document(_) => location.clone(),
        }
    }
}
