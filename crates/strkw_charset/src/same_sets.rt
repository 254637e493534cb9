//! Whether two lists of sets have the same characters.

ghost use Rattle.std.specs.Prelude.{◌≡◌, ℕ, IsTrue};
ghost use Rattle.strkw_charset.specs.Properties.{has_property};
ghost use Rattle.strkw_charset.specs.Membership.{in_set, in_sets};

use crate::properties::Property;
use crate::tree::CharSet;

// Whether both are one property.
fn is_same_property(one: Property, other: Property) -> bool
    ensures { IsTrue result → (c : ℕ) → has_property one c ≡ has_property other c }
{
    match (one, other) {
        (Property::Any, Property::Any)
        | (Property::Ascii, Property::Ascii)
        | (Property::Assigned, Property::Assigned) => true,
        (Property::Binary(one), Property::Binary(other)) => one == other,
        (Property::Category(one), Property::Category(other)) => one.number() == other.number(),
        (Property::Group(one), Property::Group(other)) => one == other,
        (Property::Script(one), Property::Script(other)) => one.number() == other.number(),
        (Property::ScriptExtensions(one), Property::ScriptExtensions(other)) => {
            one.number() == other.number()
        }
        _ => false,
    }
}

// Whether both are one range, or one property that both have or both lack.
fn is_same_set(one: CharSet, other: CharSet) -> bool
    ensures { IsTrue result → (c : ℕ) → in_set one c ≡ in_set other c }
{
    match (one, other) {
        (CharSet::Range(low, high), CharSet::Range(other_low, other_high)) => {
            low == other_low && high == other_high
        }
        (CharSet::Property(lacked, one), CharSet::Property(other_lacked, other)) => {
            lacked == other_lacked && is_same_property(one, other)
        }
        _ => false,
    }
}

/// Whether both are the same sets, in the same order.
pub(crate) fn are_same_sets(one: &[CharSet], other: &[CharSet]) -> bool
    ensures { IsTrue result → (c : ℕ) → in_sets one.now c ≡ in_sets other.now c }
{
    let mut rest = other;
    for set in one {
        match rest.split_first() {
            Some((first, others)) if is_same_set(*set, *first) => rest = others,
            _ => return false,
        }
    }
    rest.is_empty()
}
