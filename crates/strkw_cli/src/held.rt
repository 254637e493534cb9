//! What is held from line to line.

ghost use Rattle.strkw_cli.specs.Held.{IsSound};

use json::Scratch;
use std::alloc::Global;
use strkw_cache::Cache;
use strkw_object::OwnedValues;

/// The scratch of the reader, the values of the schema object that a line has, and the one that is cached.
#[derive(Drop)]
pub(super) struct Held {
    pub(super) scratch: Scratch,
    pub(super) values: OwnedValues,
    pub(super) cache: Cache,
}

impl Held {
    /// Nothing is read yet, and then no schema object is cached whose text is longer than so many bytes.
    pub(super) fn new(alloc: Global, longest_cached: usize) -> Self
        ensures { IsSound result }
    {
        Held {
            scratch: Scratch::new(alloc),
            values: OwnedValues::none(),
            cache: Cache::new(alloc, longest_cached),
        }
    }
}
