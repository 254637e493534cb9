//! Up to where code points have the same answers as one of them.

ghost use Rattle.std.specs.Prelude.{◌≡◌, ◌≤◌, ◌<◌, ℕ, drop};
ghost use Rattle.ucd_table.specs.Steps.{run_value, IsPartition};
ghost use Rattle.ucd_category.specs.GeneralCategory.{general_category};
ghost use Rattle.ucd_script.specs.ScriptExtensions.{script_extensions};
ghost use Rattle.ucd_sets.specs.Property.{has_property as has_binary_property};
ghost use Rattle.strkw_charset.specs.Properties.{has_property};
ghost use Rattle.strkw_charset.specs.Membership.{in_set, in_sets};
ghost use Rattle.strkw_charset.specs.machine.CharClasses.{answers as spec_answers};
ghost use Rattle.strkw_charset.specs.declared.tree.CharSet.TheVariants.{Range};

use crate::extensions::list_runs;
use crate::properties::Property;
use crate::tree::CharSet;
use ucd_category::GeneralCategory;
use ucd_script::Script;
use ucd_sets::BinaryProperty;

/// Behind the last code point.
pub(crate) const UNICODE_END: u32 = 0x11_0000;

// A run of Unicode's tables is where it ends, times this, and the number of its value.
const PLACES_OF_VALUES: u32 = 2048;

// The place to look for the run of a code point from: this one where the run before it has ended, or else the first.
fn place_before(runs: &[u32], place: usize, c: u32) -> usize
    requires { IsPartition runs.now }
    ensures { (d : ℕ) → c ≤ d → run_value runs.now d ≡ run_value (drop result runs.now) d }
{
    if place == 0 || runs.len() < place || c < runs[place - 1] / PLACES_OF_VALUES {
        return 0;
    }
    place
}

// Where the run of a code point ends. It is looked for from a place on, and its own is left there.
fn value_end(runs: &[u32], place: &mut usize, c: u32) -> u32
    requires few { c < 0x110000 }
    requires runs { IsPartition runs.now }
    ensures beyond { c < result }
    ensures alike { (d : ℕ) → c ≤ d → d < result → run_value runs.now d ≡ run_value runs.now c }
{
    let mut next = place_before(runs, *place, c);
    while next < runs.len() {
        let end = runs[next] / PLACES_OF_VALUES;
        if c < end {
            *place = next;
            return end;
        }
        next += 1;
    }
    c + 1
}

// Where the code points end that a range has, or lacks, as it does this one.
fn range_end(low: char, high: char, c: u32) -> u32
    requires { c < 0x110000 }
    ensures beyond { c < result }
    ensures alike { (d : ℕ) → c ≤ d → d < result
        → in_set (Range low high) d ≡ in_set (Range low high) c }
{
    if c < u32::from(low) {
        u32::from(low)
    } else if c <= u32::from(high) {
        u32::from(high) + 1
    } else {
        UNICODE_END
    }
}

// Where the code points end that have a binary property, or lack it, as this one does. Its runs are searched by halves,
// since a pattern may ask for many such properties in turn.
fn binary_end(property: BinaryProperty, c: u32) -> u32
    requires { c < 0x110000 }
    ensures beyond { c < result }
    ensures alike { (d : ℕ) → c ≤ d → d < result → d < 0x110000
        → has_binary_property property d ≡ has_binary_property property c }
{
    let runs = property.runs();
    let mut place = runs.partition_point(|run| *run / PLACES_OF_VALUES <= c);
    value_end(runs, &mut place, c)
}

/// The places of the runs of Unicode's tables that were asked for last. Where code points are asked about in order,
/// each run is passed once.
#[derive(Drop)]
pub struct Ends {
    category: usize,
    script: usize,
    list: usize,
}

impl Ends {
    pub fn new() -> Ends {
        Ends {
            category: 0,
            script: 0,
            list: 0,
        }
    }

    // Where the code points end that have the category of this one.
    fn category_end(&mut self, c: u32) -> u32
        requires { c < 0x110000 }
        ensures beyond { c < result }
        ensures alike { (d : ℕ) → c ≤ d → d < result → d < 0x110000
            → general_category d ≡ general_category c }
    {
        value_end(GeneralCategory::runs(), &mut self.category, c)
    }

    // Where the code points end that have the scripts of this one by Script_Extensions.
    fn extensions_end(&mut self, c: u32) -> u32
        requires { c < 0x110000 }
        ensures beyond { c < result }
        ensures alike { (d : ℕ) → c ≤ d → d < result → d < 0x110000
            → script_extensions d ≡ script_extensions c }
    {
        let own = value_end(Script::runs(), &mut self.script, c);
        let listed = value_end(list_runs(), &mut self.list, c);
        own.min(listed)
    }

    // Where the code points end that have a property, or lack it, as this one does.
    fn property_end(&mut self, property: Property, c: u32) -> u32
        requires { c < 0x110000 }
        ensures beyond { c < result }
        ensures alike { (d : ℕ) → c ≤ d → d < result → d < 0x110000
            → has_property property d ≡ has_property property c }
    {
        match property {
            Property::Any => UNICODE_END,
            Property::Ascii => range_end('\0', '\x7F', c),
            Property::Binary(binary) => binary_end(binary, c),
            Property::Assigned | Property::Category(_) | Property::Group(_) => self.category_end(c),
            Property::Script(_) => value_end(Script::runs(), &mut self.script, c),
            Property::ScriptExtensions(_) => self.extensions_end(c),
        }
    }

    // The same for a set.
    fn set_end(&mut self, set: CharSet, c: u32) -> u32
        requires { c < 0x110000 }
        ensures beyond { c < result }
        ensures alike { (d : ℕ) → c ≤ d → d < result → d < 0x110000 → in_set set d ≡ in_set set c }
    {
        match set {
            CharSet::Range(low, high) => range_end(low, high, c),
            CharSet::Property(_, property) => self.property_end(property, c),
        }
    }

    // The same for all of some sets.
    fn sets_end(&mut self, sets: &[CharSet], c: u32) -> u32
        requires { c < 0x110000 }
        ensures beyond { c < result }
        ensures within { result ≤ 0x110000 }
        ensures alike { (d : ℕ) → c ≤ d → d < result → in_sets sets.now d ≡ in_sets sets.now c }
    {
        let mut end = UNICODE_END;
        for set in sets {
            end = end.min(self.set_end(*set, c));
        }
        end
    }

    /// A number beyond a code point up to which the classes give no other answers.
    pub(crate) fn run_end(&mut self, classes: &[Vec<CharSet>], c: u32) -> u32
        requires { c < 0x110000 }
        ensures beyond { c < result }
        ensures within { result ≤ 0x110000 }
        ensures alike { (d : ℕ) → c ≤ d → d < result
            → spec_answers 0 classes.now d ≡ spec_answers 0 classes.now c }
    {
        let mut end = UNICODE_END;
        for class in classes {
            end = end.min(self.sets_end(class, c));
        }
        end
    }
}
