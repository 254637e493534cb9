//! Whether what back references ask for is there, at the end of a pattern.

ghost use Rattle.std.specs.Prelude.{◌≡◌, ◌&&◌, List, ℕ, nat_le, map, IfOk, IfSome, is_some};
ghost use Rattle.std.specs.List.{list_any, list_all};
ghost use Rattle.strkw_regex_grammar.specs.Names.{same_name, are_distinct};
ghost use Rattle.strkw_regex_grammar.specs.machine.NameSets.{has_name};
ghost use Rattle.strkw_regex_grammar.specs.machine.RecogniserParts.{standing_of};
ghost use Rattle.strkw_regex_grammar.specs.machine.Recognising.{is_closed, is_whole as spec_is_whole};

use super::parser_stack::ParserStack;
use std::alloc::{AllocError, Global};
use std::collections::BTreeSet;

// The names as a set, and `None` where one is there twice.
fn distinct_names<'a>(
    alloc: Global,
    names: &'a [Vec<char>],
) -> Result<Option<BTreeSet<&'a [char]>>, AllocError>
    ensures distinct { IfOk result (λ o. is_some o ≡ are_distinct (map (λ n. n.items) names.now)) }
    ensures same { IfOk result (λ o. IfSome o (λ set. (n : List ℕ)
        → has_name set n ≡ list_any (same_name n) (map (λ m. m.items) names.now))) }
{
    let mut set = BTreeSet::new(alloc);
    for name in names {
        if !set.insert(name.as_slice())? {
            return Ok(None);
        }
    }
    Ok(Some(set))
}

// Whether the set has each of the names.
fn has_all(set: &BTreeSet<&[char]>, names: &[Vec<char>]) -> bool
    ensures { result ≡ list_all (λ n. has_name set.now n.items) names.now }
{
    names.iter().all(|name| set.contains(name.as_slice()))
}

impl ParserStack {
    // Whether no group is open, and there are as many as back references ask for.
    fn is_complete(&self) -> bool
        ensures { let s = standing_of self.now in
            result ≡ (is_closed s.groups && nat_le s.greatest s.captures) }
    {
        self.groups.is_empty() && self.greatest <= self.captures
    }

    // Whether no group is open, no name is there twice, and there are the groups that are asked for.
    pub(super) fn is_whole(&self, alloc: Global) -> Result<bool, AllocError>
        ensures { IfOk result (λ whole. whole ≡ spec_is_whole (standing_of self.now)) }
    {
        if !self.is_complete() {
            return Ok(false);
        }
        match distinct_names(alloc, &self.names)? {
            Some(names) => Ok(has_all(&names, &self.calls)),
            None => Ok(false),
        }
    }
}
