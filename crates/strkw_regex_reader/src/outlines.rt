//! What the classes and escapes of a pattern are read as.

ghost use Rattle.std.specs.Prelude.{◌≡◌, true, false, [], ◌∷◌, IfOk};
ghost use Rattle.strkw_regex_core.specs.machine.MarkedPattern.{class};
ghost use Rattle.strkw_regex_reader.specs.Patterns.{one_char as spec_one_char};
ghost use Rattle.strkw_regex_core.specs.machine.Expansion.{expand};
ghost use Rattle.strkw_charset.specs.Sets.{line_ends, set_of as spec_set_of, is_negative as spec_is_negative};
ghost use Rattle.strkw_regex_core.specs.machine.Shape.{outline_pattern};
ghost use Rattle.strkw_charset.specs.declared.tree.CharSet.TheVariants.{Property as PropertySet};

use std::alloc::{AllocError, Global};
use strkw_charset::properties::Property;
use strkw_charset::sets::{LINE_ENDS, is_negative, set_of};
use strkw_charset::tree::CharSet;
use strkw_regex_core::counted_regex::CountedRegex;

pub(crate) fn one_char(alloc: Global, c: char) -> Result<CountedRegex, AllocError>
    ensures { IfOk result (λ t. outline_pattern t ≡ expand (spec_one_char c)) }
{
    Ok(CountedRegex::Class {
        negated: false,
        sets: vec![in alloc; CharSet::Range(c, c)]?,
    })
}

// All but the ends of lines.
pub(crate) fn dot(alloc: Global) -> Result<CountedRegex, AllocError>
    ensures { IfOk result (λ t. outline_pattern t ≡ class false true line_ends) }
{
    Ok(CountedRegex::Class {
        negated: true,
        sets: Vec::from_slice(alloc, &LINE_ENDS)?,
    })
}

pub(crate) fn set(alloc: Global, c: char) -> Result<CountedRegex, AllocError>
    ensures { IfOk result
        (λ t. outline_pattern t ≡ class false (spec_is_negative c) (spec_set_of c)) }
{
    Ok(CountedRegex::Class {
        negated: is_negative(c),
        sets: Vec::from_slice(alloc, set_of(c))?,
    })
}

// The characters with a property, or without it.
pub(crate) fn property(
    alloc: Global,
    lacked: bool,
    property: Property,
) -> Result<CountedRegex, AllocError>
    ensures { IfOk result
        (λ t. outline_pattern t ≡ class false false (PropertySet lacked property ∷ [])) }
{
    Ok(CountedRegex::Class {
        negated: false,
        sets: vec![in alloc; CharSet::Property(lacked, property)]?,
    })
}
