//! Lookaheads that are looked for by themselves, at each place of a text, before what asks for them.

ghost use Rattle.std.specs.Prelude.{◌≡◌, ◌++◌, [], false, List, IfOk, if◌then◌else◌};
ghost use Rattle.strkw_regex_core.specs.machine.Program.{concat_copies};
ghost use Rattle.strkw_regex_core.specs.machine.MarkedPattern.{cat, look};
ghost use Rattle.strkw_regex_core.specs.Tree.{end, start};
ghost use Rattle.strkw_regex_core.specs.machine.Shape.{outline_pattern, quantifier_of};
ghost use Rattle.strkw_regex_search.specs.machine.OracleMarks.{all_copies, slot as spec_slot};
ghost use Rattle.strkw_regex_search.specs.machine.OraclePasses.{AreAsides, MayBePut, PutsAside, PutsBoth, PutsLook, SetsAside, TellsAside, OracleQuery};
ghost use Rattle.strkw_regex_search.specs.machine.OracleRunners.{quest, quests};

use std::alloc::{AllocError, Global};
use strkw_regex_core::counted_regex::{CountedRegex, Quantifier};

/// What one looks for, from the other end of the text on. The lookaheads in it are put aside too.
#[derive(Drop)]
pub struct OraclePass {
    pub is_backward: bool,
    pub pattern: CountedRegex,
    pub told: Vec<Option<usize>>,
}

// Where a text begins, or where it ends.
fn edge(is_start: bool) -> CountedRegex
    ensures { outline_pattern result ≡ look (if is_start then start else end) }
{
    if is_start {
        CountedRegex::Start
    } else {
        CountedRegex::End
    }
}

// What stands for a lookahead: a mark, which is set at each place.
fn slot(alloc: Global, negated: bool) -> Result<CountedRegex, AllocError>
    ensures { IfOk result (λ o. outline_pattern o ≡ spec_slot negated false) }
{
    let mark = CountedRegex::Class {
        negated: false,
        sets: Vec::new(alloc),
    };
    mark.into_lookbehind(alloc, negated)
}

// Adds some, so many times.
fn add_copies(
    told: &mut Vec<Option<usize>>,
    more: &[Option<usize>],
    times: u64,
) -> Result<(), AllocError>
    ensures { IfOk result (λ _.
        told.new.items ≡ told.old.items ++ concat_copies times more.now) }
{
    for _ in 0..times {
        told.extend_from_slice(more)?;
    }
    Ok(())
}

// How many copies of what it repeats a pattern has.
fn copy_count(quantifier: Quantifier) -> u64
    ensures { result ≡ all_copies (quantifier_of quantifier) }
{
    match quantifier {
        Quantifier::Exactly(count) => u64::from(count),
        Quantifier::AtLeast(count) => u64::from(count) + 1,
        Quantifier::FromTo(least, most) => u64::from(least.max(most)),
        _ => 1,
    }
}

// With a mark for each lookahead, or of its mirror where it is looked for from the end of the text on. What they
// look for is added to `asides`, and for each class which of those tells its mark, if one does, to `told`.
#[cycle(put_aside)]
fn put_aside(
    outline: CountedRegex,
    alloc: Global,
    is_backward: bool,
    asides: &mut Vec<OraclePass>,
    told: &mut Vec<Option<usize>>,
) -> Result<CountedRegex, AllocError>
    requires { MayBePut (outline_pattern outline) }
    ensures { IfOk result (λ o. (fs : List OracleQuery) → AreAsides [] (quests asides.old.items) fs
        → PutsAside is_backward (outline_pattern outline) (outline_pattern o) fs
        (quests asides.new.items)
        told.old.items told.new.items) }
{
    match outline {
        CountedRegex::Start => Ok(edge(!is_backward)),
        CountedRegex::End => Ok(edge(is_backward)),
        CountedRegex::Class { negated, sets } => {
            told.push(None)?;
            Ok(CountedRegex::Class { negated, sets })
        }
        CountedRegex::Then(first, second) => {
            if is_backward && !first.is_nothing() && !second.is_nothing() {
                put_both(second, first, alloc, is_backward, asides, told)
            } else {
                put_both(first, second, alloc, is_backward, asides, told)
            }
        }
        CountedRegex::Or(one, other) => {
            let one = put_aside(Box::into_inner(one), alloc, is_backward, asides, told)?;
            let other = put_aside(Box::into_inner(other), alloc, is_backward, asides, told)?;
            one.or(alloc, other)
        }
        CountedRegex::Repeated(quantifier, body) => {
            if quantifier.is_never() {
                return CountedRegex::Empty.repeat(alloc, quantifier);
            }
            let mut own = Vec::new(alloc);
            let body = put_aside(Box::into_inner(body), alloc, is_backward, asides, &mut own)?;
            add_copies(told, &own, copy_count(quantifier))?;
            body.repeat(alloc, quantifier)
        }
        CountedRegex::Behind(negated, body) => {
            let body = Box::into_inner(body);
            put_look(body, alloc, negated, is_backward, is_backward, asides, told)
        }
        CountedRegex::Ahead(negated, body) => {
            let body = Box::into_inner(body);
            put_look(
                body,
                alloc,
                negated,
                !is_backward,
                is_backward,
                asides,
                told,
            )
        }
        same => Ok(same),
    }
}

// The same of two, one behind the other.
#[cycle(put_aside)]
fn put_both(
    first: Box<CountedRegex>,
    second: Box<CountedRegex>,
    alloc: Global,
    is_backward: bool,
    asides: &mut Vec<OraclePass>,
    told: &mut Vec<Option<usize>>,
) -> Result<CountedRegex, AllocError>
    requires { MayBePut (cat (outline_pattern first.value) (outline_pattern second.value)) }
    ensures { IfOk result (λ o. (fs : List OracleQuery) → AreAsides [] (quests asides.old.items) fs
        → PutsBoth is_backward (outline_pattern first.value) (outline_pattern second.value)
        (outline_pattern o) fs
        (quests asides.new.items) told.old.items told.new.items) }
{
    let first = put_aside(Box::into_inner(first), alloc, is_backward, asides, told)?;
    let second = put_aside(Box::into_inner(second), alloc, is_backward, asides, told)?;
    first.then(alloc, second)
}

// The same of what a lookaround looks for, which is one for what is ahead of the search, or else behind it.
#[cycle(put_aside)]
fn put_look(
    outline: CountedRegex,
    alloc: Global,
    negated: bool,
    is_ahead: bool,
    is_backward: bool,
    asides: &mut Vec<OraclePass>,
    told: &mut Vec<Option<usize>>,
) -> Result<CountedRegex, AllocError>
    requires { MayBePut (outline_pattern outline) }
    ensures { IfOk result (λ o. (fs : List OracleQuery) → AreAsides [] (quests asides.old.items) fs
        → PutsLook is_ahead negated is_backward (outline_pattern outline) (outline_pattern o) fs
        (quests asides.new.items) told.old.items told.new.items) }
{
    if is_ahead {
        let number = add_aside(outline, alloc, !is_backward, asides)?;
        told.push(Some(number))?;
        slot(alloc, negated)
    } else {
        let body = put_aside(outline, alloc, is_backward, asides, told)?;
        body.into_lookbehind(alloc, negated)
    }
}

// Adds what a lookahead looks for, and before it what is put aside of that. Its number.
#[cycle(put_aside)]
fn add_aside(
    outline: CountedRegex,
    alloc: Global,
    is_backward: bool,
    asides: &mut Vec<OraclePass>,
) -> Result<usize, AllocError>
    requires { MayBePut (outline_pattern outline) }
    ensures { IfOk result
        (λ number. (fs : List OracleQuery) → AreAsides [] (quests asides.old.items) fs
        → TellsAside is_backward (outline_pattern outline) number fs (quests asides.new.items)) }
{
    let aside = set_aside(outline, alloc, is_backward, asides)?;
    let number = asides.len();
    asides.push(aside)?;
    Ok(number)
}

/// With a mark for each lookahead, or of its mirror where it is looked for from the end of the text on. What they
/// look for is added to `asides`.
#[cycle(put_aside)]
pub fn set_aside(
    outline: CountedRegex,
    alloc: Global,
    is_backward: bool,
    asides: &mut Vec<OraclePass>,
) -> Result<OraclePass, AllocError>
    requires { MayBePut (outline_pattern outline) }
    ensures { IfOk result (λ x. (fs : List OracleQuery) → AreAsides [] (quests asides.old.items) fs
        → SetsAside is_backward (outline_pattern outline) (quest x) fs (quests asides.new.items)) }
{
    let mut told = Vec::new(alloc);
    let pattern = put_aside(outline, alloc, is_backward, asides, &mut told)?;
    Ok(OraclePass {
        is_backward,
        pattern,
        told,
    })
}
