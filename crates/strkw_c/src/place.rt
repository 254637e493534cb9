//! A pointer to bytes that owns a kept object.

ghost use Rattle.std.specs.Prelude.{◌≡◌, IsNone, IsSome, None, Option, Some};
ghost use Rattle.std.specs.Coded.{coded_option};
ghost use Rattle.strkw_c.specs.Owned.{kept_at};
ghost use Rattle.strkw_c.specs.contracts.kept.Kept.{the_row};
ghost use Rattle.strkw_c.specs.declared.kept.Kept.{Kept};

use crate::kept::Kept;
use crate::unboxed::Unboxed;
use std::alloc::Global;
use std::marker::Model;
use std::ptr::null_mut;

/// A place for a kept object. By the ghost field alone it is known whether there is one. To C the pointer is one to
/// bytes, since no type that shares memory by rules of its own may stand in what C has.
#[repr(C)]
pub struct Place {
    at: *mut u8,
    /// The kept object, where there is one.
    pub ghost kept_object: { Option Kept } by { coded_option the_row.coded },
}

impl Model for Place {
    ghost also_owns = { λ p. kept_at the_row p.at p.kept_object };
}

impl Place {
    /// A place with nothing.
    pub(crate) fn empty() -> Place
        ensures { result.kept_object ≡ None }
    {
        Place { at: null_mut() }
    }

    /// A place with what a box has.
    pub(crate) fn of(value: Unboxed<Kept, Global>) -> Place
        ensures { result.kept_object ≡ Some value.value }
    {
        let Unboxed { at, alloc: _ } = value;
        Place { at: at as *mut u8 }
    }

    /// Drops a place with nothing.
    pub(crate) fn discard(self)
        requires { IsNone self.kept_object }
    {
        let Place { at: _ } = self;
    }

    /// What a place has, as a box that is taken apart.
    pub(crate) fn into_unboxed(self, alloc: Global) -> Unboxed<Kept, Global>
        requires { IsSome self.kept_object }
        ensures { self.kept_object ≡ Some result.value }
    {
        let Place { at } = self;
        Unboxed {
            at: at as *mut Kept,
            alloc,
        }
    }
}
