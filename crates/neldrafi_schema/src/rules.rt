//! What a rule reports itself of an instance, and the values of which its schemas have to report all errors.

ghost use Rattle.std.specs.Prelude.{IfOk, IsTrue, OnOk, Some, [], drop, if◌then◌else◌, length, map, option_map, string_bytes, true, ◌++◌, ◌<◌, ◌↔◌, ◌≡◌};
ghost use Rattle.std.specs.List.{AllByRecursion, filter, flat_map, list_any};
ghost use Rattle.serde_json.specs.View.{view};
ghost use Rattle.strkw_keywords.specs.Meanings.{Lists};
ghost use Rattle.strkw_keywords.specs.Validators.{assertions_of};
ghost use Rattle.neldrafi_schema.specs.Errors.{unexpected_items, unexpected_members};
ghost use Rattle.neldrafi_schema.specs.Rules.{applied, first_of, is_matched, is_named, kinds, leads_to, members_in, none_allowed, on_itself, on_matched, on_members, other_members_in, placed_items};
ghost use Rattle.neldrafi_schema.specs.machine.Chosen.{IsChosenReady, is_chosen};
ghost use Rattle.neldrafi_schema.specs.machine.Closures.{MayTest, Tests};
ghost use Rattle.neldrafi_schema.specs.machine.Compiled.{branch_of, branches_of, keyword_of, keywords_of, rule_of, segment_of, targets_of};
ghost use Rattle.neldrafi_schema.specs.machine.Found.{kinds_of};
ghost use Rattle.neldrafi_schema.specs.machine.Ordered.{AreInOrder, IsInOrder, name_in};
ghost use Rattle.neldrafi_schema.specs.machine.Ready.{IsKeywordReady, IsPatternReady, IsRuledReady};

use crate::error::ErrorKind;
use crate::kinds::{all_are_valid, only, own_kinds};
use crate::node::{Branch, Keyword, Rule, Ruled};
use crate::segment::Segment;
use crate::targets::{
    Target, on_children, on_items, on_itself, on_names, placed_count, push_member, where_present,
};
use crate::validity::Checker;
use serde_json::Value;
use std::alloc::{AllocError, Global};
use strkw_keywords::Validator;
use strkw_pattern::RegexEngine;

/// To which members a schema applies: to those to which no rule beside leads, where the keys of `properties` may be in
/// order, or to those whose names a pattern matches.
#[derive(Clone, Copy)]
pub(crate) enum Chosen<'k, E> {
    Others(&'k [Keyword<E>], bool),
    Matched(&'k Validator<E>),
}

impl<E: RegexEngine, T: Fn(&Validator<E>, Option<&str>) -> Result<bool, AllocError>> Checker<
    '_,
    E,
    T,
> {
    // What a keyword reports itself, by the verdicts.
    pub(crate) fn kinds(
        &self,
        alloc: Global,
        beside: &[Keyword<E>],
        ruled: &Ruled<E>,
        instance: &Value,
        verdicts: &[bool],
    ) -> Result<Vec<ErrorKind>, AllocError>
        requires others { AllByRecursion (IsKeywordReady E.outcome
            (MayTest T.Fn self.now.text_accepts.now) (length self.now.nodes.now)) beside.now }
        ensures { (lists : Lists) → Tests T.Fn self.now.text_accepts.now E.outcome lists
            → IfOk result (λ found. kinds_of found.items
            ≡ kinds (keywords_of E.outcome beside.now) (string_bytes ruled.now.name)
            (rule_of E.outcome ruled.now.rule) (view instance.now) verdicts.now) }
    {
        match &ruled.rule {
            Rule::NoOtherMembers => self.unexpected_members(alloc, beside, instance),
            Rule::NoOtherItems => unexpected_items(alloc, placed_count(beside), instance),
            rule => own_kinds(alloc, rule, ruled.name.as_str(), instance, verdicts),
        }
    }

    fn unexpected_members(
        &self,
        alloc: Global,
        beside: &[Keyword<E>],
        instance: &Value,
    ) -> Result<Vec<ErrorKind>, AllocError>
        requires others { AllByRecursion (IsKeywordReady E.outcome
            (MayTest T.Fn self.now.text_accepts.now) (length self.now.nodes.now)) beside.now }
        ensures { (lists : Lists) → Tests T.Fn self.now.text_accepts.now E.outcome lists
            → IfOk result (λ found. kinds_of found.items
            ≡ none_allowed unexpected_members (map (λ m. m.0) (other_members_in
            (keywords_of E.outcome beside.now) (view instance.now)))) }
    {
        let unexpected = self.other_names(alloc, beside, instance)?;
        if unexpected.is_empty() {
            return Ok(Vec::new(alloc));
        }
        only(alloc, ErrorKind::AdditionalProperties { unexpected })
    }

    // The names of the members to which no rule beside leads.
    fn other_names(
        &self,
        alloc: Global,
        beside: &[Keyword<E>],
        instance: &Value,
    ) -> Result<Vec<String>, AllocError>
        requires others { AllByRecursion (IsKeywordReady E.outcome
            (MayTest T.Fn self.now.text_accepts.now) (length self.now.nodes.now)) beside.now }
        ensures { (lists : Lists) → Tests T.Fn self.now.text_accepts.now E.outcome lists
            → IfOk result (λ names. map string_bytes names.items ≡ map (λ m. m.0)
            (other_members_in (keywords_of E.outcome beside.now) (view instance.now))) }
    {
        let mut names = Vec::new(alloc);
        let Some(members) = instance.as_object() else {
            return Ok(names);
        };
        let in_order = are_all_in_order(beside);
        for (name, _) in members.iter() {
            if !self.is_led_to(beside, in_order, name.as_str())? {
                names.push(name.clone()?)?;
            }
        }
        Ok(names)
    }

    // Whether a rule leads to each member.
    pub(crate) fn leads_to_all(
        &self,
        beside: &[Keyword<E>],
        instance: &Value,
    ) -> Result<bool, AllocError>
        requires others { AllByRecursion (IsKeywordReady E.outcome
            (MayTest T.Fn self.now.text_accepts.now) (length self.now.nodes.now)) beside.now }
        ensures { (lists : Lists) → Tests T.Fn self.now.text_accepts.now E.outcome lists
            → IfOk result (λ b. IsTrue b ↔ (other_members_in (keywords_of E.outcome beside.now)
            (view instance.now) ≡ [])) }
    {
        let Some(members) = instance.as_object() else {
            return Ok(true);
        };
        let in_order = are_all_in_order(beside);
        for (key, _) in members.iter() {
            if !self.is_led_to(beside, in_order, key.as_str())? {
                return Ok(false);
            }
        }
        Ok(true)
    }

    // Whether a schema applies to the member of a name.
    pub(crate) fn chooses(&self, chosen: &Chosen<'_, E>, name: &str) -> Result<bool, AllocError>
        requires { IsChosenReady E.outcome (MayTest T.Fn self.now.text_accepts.now)
            (length self.now.nodes.now) chosen.now }
        ensures { (lists : Lists) → Tests T.Fn self.now.text_accepts.now E.outcome lists
            → IfOk result (λ b. b ≡ is_chosen E.outcome chosen.now name.now) }
    {
        match chosen {
            Chosen::Others(beside, in_order) => Ok(!self.is_led_to(beside, *in_order, name)?),
            Chosen::Matched(pattern) => self.matches(pattern, name),
        }
    }

    // The values of which a keyword's schemas have to report all errors, by the verdicts.
    pub(crate) fn applied<'a>(
        &self,
        alloc: Global,
        beside: &[Keyword<E>],
        ruled: &'a Ruled<E>,
        instance: &'a Value,
        verdicts: &[bool],
    ) -> Result<Vec<Target<'a>>, AllocError>
        requires this { IsRuledReady E.outcome (MayTest T.Fn self.now.text_accepts.now)
            (length self.now.nodes.now) ruled.now }
        requires others { AllByRecursion (IsKeywordReady E.outcome
            (MayTest T.Fn self.now.text_accepts.now) (length self.now.nodes.now)) beside.now }
        ensures { (lists : Lists) → Tests T.Fn self.now.text_accepts.now E.outcome lists
            → IfOk result (λ found. targets_of found.items
            ≡ applied (keywords_of E.outcome beside.now) (rule_of E.outcome ruled.now.rule)
            (branches_of ruled.now.branches.items) (view instance.now) verdicts.now) }
    {
        let branches = ruled.branches.as_slice();
        match &ruled.rule {
            Rule::Reference | Rule::AllOf => on_itself(alloc, branches, instance),
            Rule::Dependent(_) => where_present(alloc, branches, instance),
            Rule::Properties | Rule::Placed => on_children(alloc, branches, instance),
            Rule::Matching(patterns) => self.on_matched(alloc, patterns, branches, instance),
            Rule::OtherMembers => self.on_others(alloc, beside, branches, instance),
            Rule::MemberNames => on_names(alloc, branches, instance),
            Rule::OtherItems => on_items(alloc, branches, instance, placed_count(beside)),
            Rule::WhereValid => on_first(alloc, all_are_valid(verdicts), branches, instance),
            Rule::WhereNotValid => on_first(alloc, !all_are_valid(verdicts), branches, instance),
            _ => Ok(Vec::new(alloc)),
        }
    }

    // Each schema of the members whose keys its pattern matches.
    fn on_matched<'a>(
        &self,
        alloc: Global,
        patterns: &[Validator<E>],
        branches: &'a [Branch],
        instance: &'a Value,
    ) -> Result<Vec<Target<'a>>, AllocError>
        requires { AllByRecursion (IsPatternReady E.outcome
            (MayTest T.Fn self.now.text_accepts.now) (length self.now.nodes.now)) patterns.now }
        ensures { (lists : Lists) → Tests T.Fn self.now.text_accepts.now E.outcome lists
            → IfOk result (λ found. targets_of found.items
            ≡ on_matched (view instance.now) (map (assertions_of E.outcome) patterns.now)
            (branches_of branches.now)) }
    {
        let mut targets = Vec::new(alloc);
        for (pattern, branch) in patterns.iter().zip(branches) {
            self.push_matched(pattern, branch, instance, &mut targets)?;
        }
        Ok(targets)
    }

    fn push_matched<'a>(
        &self,
        pattern: &Validator<E>,
        branch: &'a Branch,
        instance: &'a Value,
        targets: &mut Vec<Target<'a>>,
    ) -> Result<(), AllocError>
        requires { IsPatternReady E.outcome (MayTest T.Fn self.now.text_accepts.now)
            (length self.now.nodes.now) pattern.now }
        ensures { (lists : Lists) → Tests T.Fn self.now.text_accepts.now E.outcome lists
            → OnOk result (targets_of targets.new.items ≡ targets_of targets.old.items
            ++ on_members (filter (λ m. is_matched m.0 (assertions_of E.outcome pattern.now))
            (members_in (view instance.now))) (branch_of branch.now)) }
    {
        let Some(members) = instance.as_object() else {
            return Ok(());
        };
        for (name, value) in members.iter() {
            if self.matches(pattern, name.as_str())? {
                push_member(branch, name.as_str(), value, targets)?;
            }
        }
        Ok(())
    }

    // Each schema of the members to which no rule beside leads.
    fn on_others<'a>(
        &self,
        alloc: Global,
        beside: &[Keyword<E>],
        branches: &'a [Branch],
        instance: &'a Value,
    ) -> Result<Vec<Target<'a>>, AllocError>
        requires others { AllByRecursion (IsKeywordReady E.outcome
            (MayTest T.Fn self.now.text_accepts.now) (length self.now.nodes.now)) beside.now }
        ensures { (lists : Lists) → Tests T.Fn self.now.text_accepts.now E.outcome lists
            → IfOk result (λ found. targets_of found.items
            ≡ flat_map (on_members (other_members_in (keywords_of E.outcome beside.now)
            (view instance.now))) (branches_of branches.now)) }
    {
        let mut targets = Vec::new(alloc);
        for branch in branches {
            self.push_others(beside, branch, instance, &mut targets)?;
        }
        Ok(targets)
    }

    fn push_others<'a>(
        &self,
        beside: &[Keyword<E>],
        branch: &'a Branch,
        instance: &'a Value,
        targets: &mut Vec<Target<'a>>,
    ) -> Result<(), AllocError>
        requires others { AllByRecursion (IsKeywordReady E.outcome
            (MayTest T.Fn self.now.text_accepts.now) (length self.now.nodes.now)) beside.now }
        ensures { (lists : Lists) → Tests T.Fn self.now.text_accepts.now E.outcome lists
            → OnOk result (targets_of targets.new.items ≡ targets_of targets.old.items
            ++ on_members (other_members_in (keywords_of E.outcome beside.now)
            (view instance.now)) (branch_of branch.now)) }
    {
        let Some(members) = instance.as_object() else {
            return Ok(());
        };
        let in_order = are_all_in_order(beside);
        for (name, value) in members.iter() {
            if !self.is_led_to(beside, in_order, name.as_str())? {
                push_member(branch, name.as_str(), value, targets)?;
            }
        }
        Ok(())
    }

    // Whether a rule leads to the member of a name. The keys of `properties` may be in order.
    fn is_led_to(
        &self,
        beside: &[Keyword<E>],
        in_order: bool,
        name: &str,
    ) -> Result<bool, AllocError>
        requires others { AllByRecursion (IsKeywordReady E.outcome
            (MayTest T.Fn self.now.text_accepts.now) (length self.now.nodes.now)) beside.now }
        requires order { in_order ≡ true → AllByRecursion IsInOrder beside.now }
        ensures { (lists : Lists) → Tests T.Fn self.now.text_accepts.now E.outcome lists
            → IfOk result (λ b. b
            ≡ list_any (leads_to name.now) (keywords_of E.outcome beside.now)) }
    {
        for keyword in beside {
            if self.leads_to(keyword, in_order, name)? {
                return Ok(true);
            }
        }
        Ok(false)
    }

    fn leads_to(&self, keyword: &Keyword<E>, in_order: bool, name: &str) -> Result<bool, AllocError>
        requires ready { IsKeywordReady E.outcome (MayTest T.Fn self.now.text_accepts.now)
            (length self.now.nodes.now) keyword.now }
        requires order { in_order ≡ true → IsInOrder keyword.now }
        ensures { (lists : Lists) → Tests T.Fn self.now.text_accepts.now E.outcome lists
            → IfOk result (λ b. b ≡ leads_to name.now (keyword_of E.outcome keyword.now)) }
    {
        let Keyword::Rule(ruled) = keyword else {
            return Ok(false);
        };
        match &ruled.rule {
            Rule::Properties if in_order => Ok(has_branch_in_order(&ruled.branches, name)),
            Rule::Properties => Ok(has_branch(&ruled.branches, name)),
            Rule::Matching(patterns) => self.is_matched(patterns, name),
            _ => Ok(false),
        }
    }

    fn is_matched(&self, patterns: &[Validator<E>], name: &str) -> Result<bool, AllocError>
        requires { AllByRecursion (IsPatternReady E.outcome
            (MayTest T.Fn self.now.text_accepts.now) (length self.now.nodes.now)) patterns.now }
        ensures { (lists : Lists) → Tests T.Fn self.now.text_accepts.now E.outcome lists
            → IfOk result (λ b. b ≡ list_any
            (is_matched name.now) (map (assertions_of E.outcome) patterns.now)) }
    {
        for pattern in patterns {
            if self.matches(pattern, name)? {
                return Ok(true);
            }
        }
        Ok(false)
    }

    // A pattern matches a name where it reports nothing of it.
    fn matches(&self, pattern: &Validator<E>, name: &str) -> Result<bool, AllocError>
        requires { IsPatternReady E.outcome (MayTest T.Fn self.now.text_accepts.now)
            (length self.now.nodes.now) pattern.now }
        ensures { (lists : Lists) → Tests T.Fn self.now.text_accepts.now E.outcome lists
            → IfOk result (λ b. b ≡ is_matched name.now (assertions_of E.outcome pattern.now)) }
    {
        (self.text_accepts)(pattern, Some(name))
    }
}

// So many keys are compared one by one in less time than it takes to search them.
const FEW: usize = 64;

/// Whether the keys of `properties` are many and in order, as those of an object's members are: they are then searched.
pub(crate) fn are_all_in_order<E>(keywords: &[Keyword<E>]) -> bool
    ensures { IsTrue result → AllByRecursion IsInOrder keywords.now }
{
    for keyword in keywords {
        if !is_in_order(keyword) {
            return false;
        }
    }
    true
}

fn is_in_order<E>(keyword: &Keyword<E>) -> bool
    ensures { IsTrue result → IsInOrder keyword.now }
{
    let Keyword::Rule(ruled) = keyword else {
        return true;
    };
    match &ruled.rule {
        Rule::Properties => FEW < ruled.branches.len() && are_in_order(&ruled.branches),
        _ => true,
    }
}

fn are_in_order(branches: &[Branch]) -> bool
    ensures { IsTrue result → AreInOrder branches.now }
{
    branches.is_sorted_by(|a, b| name_in(&a.key).cmp(name_in(&b.key)).is_le())
}

// The name of a key, or an empty one.
fn name_in(key: &Option<Segment>) -> &str
    ensures { result.now ≡ name_in key.now }
{
    match key {
        Some(Segment::Key(name)) => name.as_str(),
        _ => "",
    }
}

fn has_branch_in_order(branches: &[Branch], name: &str) -> bool
    requires { AreInOrder branches.now }
    ensures { result ≡ list_any (λ b. is_named name.now b.key) (branches_of branches.now) }
{
    match branches.binary_search_by(|branch| name_in(&branch.key).cmp(name)) {
        Ok(place) => is_named(&branches[place].key, name) || has_branch(branches, name),
        Err(_) => false,
    }
}

fn has_branch(branches: &[Branch], name: &str) -> bool
    ensures { result ≡ list_any (λ b. is_named name.now b.key) (branches_of branches.now) }
{
    for branch in branches {
        if is_named(&branch.key, name) {
            return true;
        }
    }
    false
}

fn is_named(key: &Option<Segment>, name: &str) -> bool
    ensures { result ≡ is_named name.now (option_map segment_of key.now) }
{
    match key {
        Some(Segment::Key(other)) => other.as_str() == name,
        _ => false,
    }
}

// The first schema, of the instance itself, where it counts.
fn on_first<'a>(
    alloc: Global,
    counts: bool,
    branches: &'a [Branch],
    instance: &'a Value,
) -> Result<Vec<Target<'a>>, AllocError>
    ensures { IfOk result (λ found. targets_of found.items ≡ (if counts
        then on_itself (view instance.now) (first_of (branches_of branches.now)) else [])) }
{
    match branches {
        [first, ..] if counts => on_itself(alloc, std::slice::from_ref(first), instance),
        _ => Ok(Vec::new(alloc)),
    }
}

/// Whether there are no items from a place on.
pub(crate) fn has_no_items_from(from: usize, instance: &Value) -> bool
    ensures { IsTrue result ↔ (drop from (placed_items (view instance.now)) ≡ []) }
{
    match instance.as_array() {
        Some(items) => items.len() <= from,
        None => true,
    }
}

// An error where there are items from a place on.
fn unexpected_items(
    alloc: Global,
    from: usize,
    instance: &Value,
) -> Result<Vec<ErrorKind>, AllocError>
    ensures { IfOk result (λ found. kinds_of found.items ≡ none_allowed unexpected_items
        (map (λ i. i.1) (drop from (placed_items (view instance.now))))) }
{
    let unexpected = items_from(alloc, from, instance)?;
    if unexpected.is_empty() {
        return Ok(Vec::new(alloc));
    }
    only(alloc, ErrorKind::AdditionalItems { unexpected })
}

fn items_from(alloc: Global, from: usize, instance: &Value) -> Result<Vec<Value>, AllocError>
    ensures { IfOk result (λ items. map view items.items
        ≡ map (λ i. i.1) (drop from (placed_items (view instance.now)))) }
{
    let mut left = Vec::new(alloc);
    let Some(items) = instance.as_array() else {
        return Ok(left);
    };
    for (place, item) in items.iter().enumerate() {
        if place >= from {
            left.push(item.clone()?)?;
        }
    }
    Ok(left)
}
