//! A struct that C has, and that owns a kept object.

ghost use Rattle.std.specs.Prelude.{◌≡◌, None, Some, box_value, is_some, option_map};

use crate::kept::Kept;
use crate::place::Place;
use crate::unboxed::Unboxed;
use std::alloc::Global;
use std::mem::replace;

/// A place for a kept object, and whether it is full. One of zeroed memory is empty. `struct handle` of
/// bindings/strkw.c is laid out like it.
#[repr(C)]
pub struct Handle {
    is_full: bool,
    /// What it keeps.
    pub place: Place,
    ghost fullness: { is_full ≡ is_some place.kept_object },
}

impl Handle {
    // One that keeps nothing.
    fn empty() -> Handle
        ensures { result.place.kept_object ≡ None }
    {
        Handle {
            is_full: false,
            place: Place::empty(),
        }
    }

    // One that keeps this.
    fn of(value: Box<Kept>) -> Handle
        ensures { result.place.kept_object ≡ Some (box_value value) }
    {
        Handle {
            is_full: true,
            place: Place::of(Unboxed::of(value)),
        }
    }

    // What it keeps.
    fn into_box(self, alloc: Global) -> Option<Box<Kept>>
        ensures { option_map box_value result ≡ self.place.kept_object }
    {
        let Handle { is_full, place } = self;
        if is_full {
            return Some(place.into_unboxed(alloc).into_box());
        }
        place.discard();
        None
    }

    /// Puts a kept object in. The one that was there is dropped.
    pub(crate) fn put(&mut self, alloc: Global, value: Box<Kept>)
        ensures { self.new.place.kept_object ≡ Some (box_value value) }
    {
        let before = replace(self, Handle::of(value));
        drop(before.into_box(alloc));
    }

    /// Takes the kept object out.
    pub(crate) fn take(&mut self, alloc: Global) -> Option<Box<Kept>>
        ensures taken { option_map box_value result ≡ self.old.place.kept_object }
        ensures empty { self.new.place.kept_object ≡ None }
    {
        replace(self, Handle::empty()).into_box(alloc)
    }
}
