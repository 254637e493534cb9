//! The numbers of the schemas to which keywords lead.

ghost use Rattle.std.specs.Prelude.{◌<◌, List, IfOk, OnOk, length, map};
ghost use Rattle.std.specs.List.{AllByRecursion};
ghost use Rattle.neldrafi_schema.specs.Scopes.{ScopedPath};
ghost use Rattle.neldrafi_schema.specs.Reading.{AreNumbered};
ghost use Rattle.neldrafi_schema.specs.machine.Compiled.{branches_of};
ghost use Rattle.neldrafi_schema.specs.machine.Places.{documents_of, Extends, Grown, IsPlace, IsTable, StaysAt, place_path, scope_of, scoped_paths};
ghost use Rattle.neldrafi_schema.specs.machine.Said.{Always, lead_of};

use crate::leads::Lead;
use crate::node::Branch;
use crate::places::{Place, Places};
use std::alloc::{AllocError, Global};

// A schema that is no part of the keyword's value may have been numbered before.
fn number_of<'v>(
    alloc: Global,
    scope: &[String],
    place: Place<'v>,
    is_part: bool,
    places: &mut Places<'v>,
) -> Result<usize, AllocError>
    requires table { IsTable places.old }
    requires there { IsPlace (documents_of places.old.documents) place }
    ensures number { IfOk result (λ n. StaysAt (scoped_paths places.new.places.items) n
        (scope_of scope.now) (place_path place.entry)) }
    ensures grown { OnOk result (Grown places.old places.new) }
{
    if is_part {
        places.number(alloc, scope, place)
    } else {
        places.number_known(alloc, scope, place)
    }
}

/// The schemas of leads, entered from a scope, by number.
pub(crate) fn branches_of<'v>(
    alloc: Global,
    scope: &[String],
    leads: Vec<Lead<'v>>,
    places: &mut Places<'v>,
) -> Result<Vec<Branch>, AllocError>
    requires table { IsTable places.old }
    requires there { AllByRecursion (λ l. IsPlace (documents_of places.old.documents) l.place)
        leads.items }
    ensures numbered { IfOk result (λ bs. Always (scoped_paths places.new.places.items)
        (scope_of scope.now) (λ numbered.
        AreNumbered numbered (map lead_of leads.entry.items) (branches_of bs.items))) }
    ensures inside { IfOk result (λ bs. (all : List ScopedPath)
        → Extends (scoped_paths places.new.places.items) all
        → AllByRecursion (λ b. b.schema < length all) bs.items) }
    ensures grown { OnOk result (Grown places.old places.new) }
{
    let mut branches = Vec::new(alloc);
    for lead in leads {
        let schema = number_of(alloc, scope, lead.place, lead.key.is_some(), places)?;
        branches.push(Branch {
            key: lead.key,
            schema,
        })?;
    }
    Ok(branches)
}
