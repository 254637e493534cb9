//! Sets of characters.

ghost use Rattle.std.specs.Prelude.{◌≡◌};
ghost use Rattle.strkw_charset.specs.Membership.{in_set, in_sets};

use crate::properties::Property;

/// A set of characters.
#[derive(Clone, Copy)]
pub enum CharSet {
    /// From the one to the other, both included.
    Range(char, char),
    /// Those with a property, or where the first holds, those without it.
    Property(bool, Property),
}

impl CharSet {
    fn contains(self, c: char) -> bool
        ensures { result ≡ in_set self c }
    {
        match self {
            CharSet::Range(low, high) => low <= c && c <= high,
            CharSet::Property(lacked, property) => property.is_of(c) != lacked,
        }
    }
}

/// Whether the character is in one of the sets.
pub fn contains(sets: &[CharSet], c: char) -> bool
    ensures { result ≡ in_sets sets.now c }
{
    for set in sets {
        if set.contains(c) {
            return true;
        }
    }
    false
}
