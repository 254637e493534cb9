//! What is held of a property.

ghost use Rattle.std.specs.Prelude.{◌≡◌, ◌↔◌, ◌<◌, ◌++◌, ◌∷◌, [], ℕ, List, All, None, IfOk, IfSome, OnOk, IsTrue, length, map};
ghost use Rattle.std.specs.Prelude.{◌+◌, count_by, if◌then◌else◌, option_map, string_bytes, Some};
ghost use Rattle.std.specs.List.{list_all};
ghost use Rattle.neldrafi_infer.specs.Hypotheses.{Seen, seen};
ghost use Rattle.neldrafi_infer.specs.Kinds.{is_null, is_text};
ghost use Rattle.neldrafi_infer.specs.Tallies.{IsTallied};
ghost use Rattle.neldrafi_infer.specs.Words.{AreWords, distinct};
ghost use Rattle.neldrafi_infer.specs.Properties.{HoldsIn, IsFirst, IsPropertyOf, about_count, are_held, hypotheses, is_in, is_nearly, texts_of, type_count};
ghost use Rattle.neldrafi_infer.specs.declared.property.Group.TheVariants.{Formats, Types};

use crate::faults::PropertyFault;
use crate::hypotheses::{Format, Hypothesis, ValueType};
use crate::kinds::Kind;
use crate::tally::Tally;
use crate::words::{Word, Words};
use std::alloc::{AllocError, Global};

// What is tallied.
const HYPOTHESES: &[Hypothesis] = &[
    Hypothesis::OfType(ValueType::Boolean),
    Hypothesis::OfType(ValueType::Integer),
    Hypothesis::OfType(ValueType::Number),
    Hypothesis::OfType(ValueType::String),
    Hypothesis::OfType(ValueType::Array),
    Hypothesis::OfType(ValueType::Object),
    Hypothesis::OfFormat(Format::Date),
    Hypothesis::OfFormat(Format::Time),
    Hypothesis::OfFormat(Format::DateTime),
    Hypothesis::OfFormat(Format::Duration),
    Hypothesis::OfFormat(Format::Uuid),
    Hypothesis::OfFormat(Format::Ipv4),
    Hypothesis::OfFormat(Format::Ipv6),
    Hypothesis::OfFormat(Format::Uri),
];

// So many values fit at least, where others do not.
const FEWEST_FITS: u64 = 50;

// One of so many values at most does not fit.
const ONE_OF: u64 = 100;

// Which hypotheses are meant.
#[derive(Clone, Copy, Debug, PartialEq, Eq)]
enum Group {
    Types,
    Formats,
}

impl Group {
    // Whether a hypothesis is one of them.
    fn has(self, hypothesis: Hypothesis) -> bool
        ensures { result ≡ is_in self hypothesis }
    {
        match self {
            Group::Types => matches!(hypothesis, Hypothesis::OfType(_)),
            Group::Formats => matches!(hypothesis, Hypothesis::OfFormat(_)),
        }
    }
}

// One more, if there is. The only error is that a `u64` does not count it.
fn count_if(is_counted: bool, count: u64) -> Result<u64, PropertyFault>
    ensures { IfOk result (λ n. n ≡ count + (if is_counted then 1 else 0)) }
{
    if !is_counted {
        return Ok(count);
    }
    count.checked_add(1).ok_or(PropertyFault::TooMany)
}

// Whether so many values, of which so many do not fit, are some and nearly all fit: all, or all but one of 100 and at
// least 50.
fn is_nearly(misfits: u64, count: u64) -> bool
    ensures { result ≡ is_nearly misfits count }
{
    let fits = count.saturating_sub(misfits);
    0 < count && (misfits == 0 || (misfits <= count / ONE_OF && FEWEST_FITS <= fits))
}

/// What is held of a property, by the values that were seen of it.
#[derive(Debug, Drop)]
pub struct Property {
    pub(crate) total: u64,
    pub(crate) values: u64,
    pub(crate) texts: u64,
    pub(crate) tallies: Vec<Tally>,
    pub(crate) words: Words,
}

impl Property {
    /// No values were seen. The only error is out of memory.
    pub fn new(alloc: Global) -> Result<Property, AllocError>
        ensures { IfOk result (IsPropertyOf []) }
    {
        let mut tallies = Vec::new(alloc);
        for hypothesis in HYPOTHESES {
            tallies.push(Tally::new(alloc, *hypothesis))?;
        }
        Ok(Property {
            total: 0,
            values: 0,
            texts: 0,
            tallies,
            words: Words::new(alloc),
        })
    }

    /// Sees a value, after others. After an error the property is of no more use.
    ///
    /// Errors: `TooMany`, and `Memory`.
    pub fn see(
        &mut self,
        alloc: Global,
        line: u64,
        kind: Kind,
        text: &str,
    ) -> Result<(), PropertyFault>
        ensures { (ss : List Seen) → IsPropertyOf ss self.old
            → OnOk result (IsPropertyOf (ss ++ seen line kind text.now ∷ []) self.new) }
    {
        self.total = count_if(true, self.total)?;
        self.values = count_if(!kind.is_null(), self.values)?;
        self.texts = count_if(kind.is_text(), self.texts)?;
        see_each(&mut self.tallies, alloc, line, kind, text)?;
        self.words.see_if(alloc, kind.is_text(), text)?;
        Ok(())
    }

    // How many of the values a hypothesis is about.
    fn about(&self, hypothesis: Hypothesis) -> u64
        ensures { (ss : List Seen) → IsPropertyOf ss self.now
            → result ≡ about_count hypothesis ss }
    {
        match hypothesis {
            Hypothesis::OfType(_) => self.values,
            Hypothesis::OfFormat(_) => self.texts,
        }
    }

    // Whether the hypothesis of a tally is one of a group, and holds.
    fn is_held(&self, group: Group, tally: &Tally) -> bool
        ensures { (ss : List Seen) → IsPropertyOf ss self.now → IsTallied ss tally.now
            → IsTrue result ↔ HoldsIn group ss tally.now.hypothesis }
    {
        let is_nearly = is_nearly(tally.count, self.about(tally.hypothesis));
        group.has(tally.hypothesis) && is_nearly
    }

    // The first hypothesis of a group that holds, with its misfits.
    fn held(&self, group: Group) -> Option<&Tally>
        ensures held { (ss : List Seen) → IsPropertyOf ss self.now
            → IfSome result (λ t. IsTallied ss t.now
            × IsFirst (HoldsIn group ss) hypotheses t.now.hypothesis) }
        ensures none { (ss : List Seen) → IsPropertyOf ss self.now → result ≡ None
            → All (λ h. HoldsIn group ss h → ⊥) hypotheses }
    {
        for tally in &self.tallies {
            if self.is_held(group, tally) {
                return Some(tally);
            }
        }
        None
    }

    /// The type that is held: the first that nearly all values other than null have, with those that have not.
    pub fn held_type(&self) -> Option<&Tally>
        ensures held { (ss : List Seen) → IsPropertyOf ss self.now
            → IfSome result (λ t. IsTallied ss t.now
            × IsFirst (HoldsIn Types ss) hypotheses t.now.hypothesis) }
        ensures none { (ss : List Seen) → IsPropertyOf ss self.now → result ≡ None
            → All (λ h. HoldsIn Types ss h → ⊥) hypotheses }
    {
        self.held(Group::Types)
    }

    /// The format that is held: the first that nearly all texts have, with those that have not.
    pub fn held_format(&self) -> Option<&Tally>
        ensures held { (ss : List Seen) → IsPropertyOf ss self.now
            → IfSome result (λ t. IsTallied ss t.now
            × IsFirst (HoldsIn Formats ss) hypotheses t.now.hypothesis) }
        ensures none { (ss : List Seen) → IsPropertyOf ss self.now → result ≡ None
            → All (λ h. HoldsIn Formats ss h → ⊥) hypotheses }
    {
        self.held(Group::Formats)
    }

    /// The words that are held: those that all texts are, in the order in which they came first, if the texts are at
    /// least 50, and the words at most ten of which each came again.
    pub fn held_words(&self) -> Option<&[Word]>
        ensures { (ss : List Seen) → IsPropertyOf ss self.now
            → option_map (λ words. map (λ w. string_bytes w.text) words.now) result
            ≡ (if are_held (texts_of ss) then Some (distinct (texts_of ss)) else None) }
    {
        if self.are_words_held() {
            Some(&self.words.words)
        } else {
            None
        }
    }

    // Whether the words are held.
    fn are_words_held(&self) -> bool
        ensures { (ss : List Seen) → IsPropertyOf ss self.now → result ≡ are_held (texts_of ss) }
    {
        if self.texts < FEWEST_FITS {
            return false;
        }
        if self.words.is_over {
            return false;
        }
        are_repeated(&self.words.words)
    }

    /// How many values were seen.
    pub fn count(&self) -> u64
        ensures { (ss : List Seen) → IsPropertyOf ss self.now → result ≡ length ss }
    {
        self.total
    }

    /// Whether one of the values is null.
    pub fn has_null(&self) -> bool
        ensures { (ss : List Seen) → IsPropertyOf ss self.now
            → IsTrue result ↔ (0 < count_by (λ s. is_null s.kind) ss) }
    {
        self.values < self.total
    }

    /// How many of the values are of a type.
    pub fn type_count(&self, of_type: ValueType) -> u64
        ensures { (ss : List Seen) → IsPropertyOf ss self.now → result ≡ type_count of_type ss }
    {
        for tally in &self.tallies {
            if tally.hypothesis.is_of(of_type) {
                return self.values.saturating_sub(tally.count);
            }
        }
        0
    }
}

// Lets each tally see a value.
fn see_each(
    tallies: &mut [Tally],
    alloc: Global,
    line: u64,
    kind: Kind,
    text: &str,
) -> Result<(), PropertyFault>
    ensures hypotheses { map (λ t. t.hypothesis) tallies.new ≡ map (λ t. t.hypothesis) tallies.old }
    ensures seen { (ss : List Seen) → All (IsTallied ss) tallies.old
        → OnOk result (All (IsTallied (ss ++ seen line kind text.now ∷ [])) tallies.new) }
{
    for tally in tallies.iter_mut() {
        tally.see(alloc, line, kind, text)?;
    }
    Ok(())
}

// Whether each of these words was seen again.
fn are_repeated(words: &[Word]) -> bool
    ensures { result ≡ list_all (λ w. w.is_repeated) words.now }
{
    words.iter().all(|word| word.is_repeated)
}
