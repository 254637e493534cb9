//! The leads to the schemas in the values of keywords.

ghost use Rattle.std.specs.Prelude.{◌≡◌, ◌∷◌, IfOk, Some, [], map};
ghost use Rattle.std.specs.List.{AllByRecursion};
ghost use Rattle.serde_json.specs.Data.{array, object as object_of};
ghost use Rattle.serde_json.specs.View.{items_view, members_view, view};
ghost use Rattle.neldrafi_schema.specs.Documents.{Documents, value_in};
ghost use Rattle.neldrafi_schema.specs.Values.{dependency_leads, item_leads, lead_below, lead_to, member_leads};
ghost use Rattle.neldrafi_schema.specs.machine.Compiled.{path_of, step_of};
ghost use Rattle.neldrafi_schema.specs.machine.Places.{IsPlace};
ghost use Rattle.neldrafi_schema.specs.machine.Said.{lead_of};

use crate::places::{Place, path_below};
use crate::segment::{Segment, Step};
use crate::senses::Member;
use serde_json::{Map, Value};
use std::alloc::{AllocError, Global};

/// A schema to which a keyword leads, and its segment in the keyword's value, if it is part of it.
#[derive(Drop)]
pub(crate) struct Lead<'v> {
    pub key: Option<Segment>,
    pub place: Place<'v>,
}

/// The lead to the value of a member.
pub(crate) fn lead_to<'v>(alloc: Global, member: &Member<'_, 'v>) -> Result<Lead<'v>, AllocError>
    ensures path { IfOk result (λ l. lead_of l ∷ [] ≡ lead_to (path_of member.now.at.now)) }
    ensures value { IfOk result (λ l. view l.place.value.now ≡ (view member.now.value.now)) }
{
    Ok(Lead {
        key: None,
        place: Place {
            path: crate::places::path_copy(alloc, member.at)?,
            value: member.value,
        },
    })
}

// The lead to what is at a step of the value of a member.
pub(crate) fn lead_below<'v>(
    alloc: Global,
    at: &[Segment],
    step: Step<'_>,
    value: &'v Value,
) -> Result<Lead<'v>, AllocError>
    ensures path { IfOk result (λ l. lead_of l ≡ lead_below (path_of at.now) (step_of step.entry)) }
    ensures value { IfOk result (λ l. view l.place.value.now ≡ view value.now) }
{
    Ok(Lead {
        key: Some(step.to_segment(alloc)?),
        place: Place {
            path: path_below(alloc, at, step)?,
            value,
        },
    })
}

/// The leads to the items of an array.
pub(crate) fn item_leads<'v>(
    alloc: Global,
    at: &[Segment],
    items: &'v [Value],
) -> Result<Vec<Lead<'v>>, AllocError>
    ensures paths { IfOk result (λ leads. map lead_of leads.items
        ≡ item_leads (path_of at.now) 0 (items_view items.now)) }
    ensures there { (documents : Documents) → value_in documents (path_of at.now)
        ≡ Some (array (items_view items.now))
        → IfOk result (λ leads. AllByRecursion (λ l. IsPlace documents l.place) leads.items) }
{
    let mut leads = Vec::new(alloc);
    for item in items {
        let step = Step::Place(leads.len());
        leads.push(lead_below(alloc, at, step, item)?)?;
    }
    Ok(leads)
}

/// The leads to the members of an object.
pub(crate) fn member_leads<'v>(
    alloc: Global,
    at: &[Segment],
    members: &'v Map<String, Value>,
) -> Result<Vec<Lead<'v>>, AllocError>
    ensures paths { IfOk result (λ leads. map lead_of leads.items
        ≡ member_leads (path_of at.now) (members_view members.now.entries)) }
    ensures there { (documents : Documents) → value_in documents (path_of at.now)
        ≡ Some (object_of (members_view members.now.entries))
        → IfOk result (λ leads. AllByRecursion (λ l. IsPlace documents l.place) leads.items) }
{
    let mut leads = Vec::new(alloc);
    for (name, value) in members.iter() {
        leads.push(lead_below(alloc, at, Step::Key(name.as_str()), value)?)?;
    }
    Ok(leads)
}

/// The leads to the members that are no arrays.
pub(crate) fn dependency_leads<'v>(
    alloc: Global,
    at: &[Segment],
    members: &'v Map<String, Value>,
) -> Result<Vec<Lead<'v>>, AllocError>
    ensures paths { IfOk result (λ leads. map lead_of leads.items
        ≡ dependency_leads (path_of at.now) (members_view members.now.entries)) }
    ensures there { (documents : Documents) → value_in documents (path_of at.now)
        ≡ Some (object_of (members_view members.now.entries))
        → IfOk result (λ leads. AllByRecursion (λ l. IsPlace documents l.place) leads.items) }
{
    let mut leads = Vec::new(alloc);
    for (name, value) in members.iter() {
        if !value.is_array() {
            leads.push(lead_below(alloc, at, Step::Key(name.as_str()), value)?)?;
        }
    }
    Ok(leads)
}
