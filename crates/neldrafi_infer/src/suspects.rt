//! The values that a proposal is not widened for.

use crate::hypotheses::ValueType;
use crate::shape::{Member, Shape};
use crate::tally::Tally;
use std::alloc::{AllocError, Global};
use strkw_report::Location;

/// The values at a place that do not fit what is proposed for it.
#[derive(Drop)]
pub struct Suspects<'a> {
    /// The place: a JSON pointer (RFC 6901), in which `*` is each element of an array.
    pub location: Location,
    /// What is proposed, and the values that do not fit.
    pub tally: &'a Tally,
}

/// The values that do not fit the proposal for a shape, place by place, in the order of the schema. The only error is
/// out of memory.
pub fn suspects_of<'a>(alloc: Global, shape: &'a Shape) -> Result<Vec<Suspects<'a>>, AllocError> {
    let mut all = Vec::new(alloc);
    let root = Location::root(alloc);
    push_suspects(shape, &root, &mut all)?;
    Ok(all)
}

// Appends those at a place, and below it.
#[cycle(suspects)]
fn push_suspects<'a>(
    shape: &'a Shape,
    location: &Location,
    all: &mut Vec<Suspects<'a>>,
) -> Result<(), AllocError> {
    let property = &shape.property;
    push_misfits(property.held_type(), location, all)?;
    if property.proposes(ValueType::String) {
        push_misfits(property.held_format(), location, all)?;
    }
    if property.proposes(ValueType::Object) {
        push_in_members(&shape.members, location, all)?;
    }
    if property.proposes(ValueType::Array) {
        push_in_items(shape, location, all)?;
    }
    Ok(())
}

// Appends the misfits of a tally, if there are some.
fn push_misfits<'a>(
    tally: Option<&'a Tally>,
    location: &Location,
    all: &mut Vec<Suspects<'a>>,
) -> Result<(), AllocError> {
    match tally {
        Some(tally) if 0 < tally.count => {
            let location = location.clone()?;
            all.push(Suspects { location, tally })?;
            Ok(())
        }
        _ => Ok(()),
    }
}

// Appends those in members.
#[cycle(suspects)]
#[inline(never)]
fn push_in_members<'a>(
    members: &'a [Member],
    location: &Location,
    all: &mut Vec<Suspects<'a>>,
) -> Result<(), AllocError> {
    for member in members {
        let below = location.join(&member.name)?;
        push_suspects(&member.shape, &below, all)?;
    }
    Ok(())
}

// Appends those in elements.
#[cycle(suspects)]
#[inline(never)]
fn push_in_items<'a>(
    shape: &'a Shape,
    location: &Location,
    all: &mut Vec<Suspects<'a>>,
) -> Result<(), AllocError> {
    match &shape.items {
        Some(items) => {
            let below = location.join("*")?;
            push_suspects(items, &below, all)
        }
        None => Ok(()),
    }
}
