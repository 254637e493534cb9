//! Whether an instance has no errors by the schemas to which a keyword leads, without a list of them.

ghost use Rattle.std.specs.Prelude.{IfOk, IfSome, IsTrue, List, [], length, map, true, ℕ, ◌<◌, ◌∷◌, ◌↔◌, ◌≡◌, ◌≤◌};
ghost use Rattle.std.specs.List.{AllByRecursion, filter, flat_map, list_all};
ghost use Rattle.serde_json.specs.View.{view};
ghost use Rattle.strkw_pattern.specs.declared.engine.Outcome.{Outcome};
ghost use Rattle.strkw_report.specs.declared.error.Site.{Site};
ghost use Rattle.strkw_keywords.specs.Meanings.{Lists};
ghost use Rattle.strkw_keywords.specs.Validators.{assertions_of};
ghost use Rattle.neldrafi_schema.specs.Meaning.{EachReports, Reports};
ghost use Rattle.neldrafi_schema.specs.Refusals.{ends, schemas_in};
ghost use Rattle.neldrafi_schema.specs.Rules.{is_present, on_itself, on_matched, on_members, other_members_in};
ghost use Rattle.neldrafi_schema.specs.machine.Chosen.{IsChosenReady, chosen_members};
ghost use Rattle.neldrafi_schema.specs.machine.Closures.{MayTest, Tests};
ghost use Rattle.neldrafi_schema.specs.machine.Compiled.{branch_of, branches_of, keywords_of, rule_of, schemas_of};
ghost use Rattle.neldrafi_schema.specs.machine.Counted.{AreCounted, AreItemsCounted, IsCounting, is_past};
ghost use Rattle.neldrafi_schema.specs.machine.Ready.{IsKeywordReady, IsPatternReady, IsReady, steps_for};

use crate::kinds::is_between;
use crate::node::{Branch, Keyword, Rule};
use crate::rules::{Chosen, are_all_in_order};
use crate::targets::child_of;
use crate::validity::Checker;
use serde_json::Value;
use std::alloc::{AllocError, Global};
use strkw_keywords::Validator;
use strkw_pattern::RegexEngine;

/// How many verdicts are to be true at least, and at most.
#[derive(Clone, Copy)]
pub(crate) struct Bounds {
    pub least: u64,
    pub most: Option<u64>,
}

/// By how many of its schemas the instance is to be valid, if that is all that a rule says.
pub(crate) fn bounds_of<E>(rule: &Rule<E>) -> Option<Bounds>
    ensures { (outcome : E → List ℕ → Outcome) → IfSome result
        (λ b. IsCounting (rule_of outcome rule.now) b.least b.most) }
{
    match rule {
        Rule::Negation(_) => Some(Bounds {
            least: 0,
            most: Some(0),
        }),
        Rule::AnyOf => Some(Bounds {
            least: 1,
            most: None,
        }),
        Rule::OneOf => Some(Bounds {
            least: 1,
            most: Some(1),
        }),
        Rule::Condition => Some(Bounds {
            least: 0,
            most: None,
        }),
        _ => None,
    }
}

// Whether one more than so many are too many.
fn is_past(most: Option<u64>, count: u64) -> bool
    ensures { result ≡ is_past most count }
{
    match most {
        Some(most) => most <= count,
        None => false,
    }
}

/// The schema of a keyword that has a single one.
pub(crate) fn only_branch(branches: &[Branch]) -> Option<&Branch>
    ensures { IfSome result (λ b. branches.now ≡ b.now ∷ []) }
{
    match branches {
        [branch] => Some(branch),
        _ => None,
    }
}

// Whether the instance has the key of a schema.
fn is_present(branch: &Branch, instance: &Value) -> bool
    ensures { result ≡ is_present (view instance.now) (branch_of branch.now) }
{
    child_of(branch, instance).is_some()
}

impl<E: RegexEngine, T: Fn(&Validator<E>, Option<&str>) -> Result<bool, AllocError>> Checker<
    '_,
    E,
    T,
> {
    // Whether the instance has no errors by each schema.
    #[cycle(accepts)]
    pub(crate) fn all_accept(
        &self,
        alloc: Global,
        branches: &[Branch],
        steps: usize,
        instance: &Value,
    ) -> Result<bool, AllocError>
        requires ready { IsReady E.outcome (MayTest T.Fn self.now.text_accepts.now)
            self.now.nodes.now }
        requires answers { (lists : Lists)
            × Tests T.Fn self.now.text_accepts.now E.outcome lists }
        requires few { steps ≤ length self.now.nodes.now }
        requires end { list_all (ends (schemas_of E.outcome self.now.nodes.now) steps)
            (schemas_in (branches_of branches.now)) ≡ true }
        ensures { (lists : Lists) → Tests T.Fn self.now.text_accepts.now E.outcome lists
            → IfOk result (λ b. (k : ℕ) (site : Site) (word : List ℕ)
            → steps_for (length self.now.nodes.now) (view instance.now) steps ≤ k
            → IsTrue b ↔ EachReports (Reports (schemas_of E.outcome self.now.nodes.now) lists k)
            site word (on_itself (view instance.now) (branches_of branches.now)) []) }
    {
        for branch in branches {
            if !self.accepts(alloc, branch.schema, steps, instance)? {
                return Ok(false);
            }
        }
        Ok(true)
    }

    // Whether the instance has no errors by so many of the schemas.
    #[cycle(accepts)]
    pub(crate) fn counted_accept(
        &self,
        alloc: Global,
        branches: &[Branch],
        bounds: Bounds,
        steps: usize,
        instance: &Value,
    ) -> Result<bool, AllocError>
        requires ready { IsReady E.outcome (MayTest T.Fn self.now.text_accepts.now)
            self.now.nodes.now }
        requires answers { (lists : Lists)
            × Tests T.Fn self.now.text_accepts.now E.outcome lists }
        requires few { steps ≤ length self.now.nodes.now }
        requires end { list_all (ends (schemas_of E.outcome self.now.nodes.now) steps)
            (schemas_in (branches_of branches.now)) ≡ true }
        ensures { (lists : Lists) → Tests T.Fn self.now.text_accepts.now E.outcome lists
            → IfOk result (λ b. (k : ℕ) (site : Site) (word : List ℕ)
            → steps_for (length self.now.nodes.now) (view instance.now) steps ≤ k
            → IsTrue b ↔ AreCounted (Reports (schemas_of E.outcome self.now.nodes.now) lists k)
            site word (on_itself (view instance.now) (branches_of branches.now))
            bounds.least bounds.most) }
    {
        let mut count = 0;
        for branch in branches {
            if self.accepts(alloc, branch.schema, steps, instance)? {
                if is_past(bounds.most, count) {
                    return Ok(false);
                }
                count += 1;
            }
        }
        Ok(is_between(bounds.least, bounds.most, count))
    }

    // Whether the members to which no rule beside leads have no errors by each schema.
    #[cycle(accepts)]
    pub(crate) fn others_accept(
        &self,
        alloc: Global,
        beside: &[Keyword<E>],
        branches: &[Branch],
        instance: &Value,
    ) -> Result<bool, AllocError>
        requires ready { IsReady E.outcome (MayTest T.Fn self.now.text_accepts.now)
            self.now.nodes.now }
        requires answers { (lists : Lists)
            × Tests T.Fn self.now.text_accepts.now E.outcome lists }
        requires others { AllByRecursion (IsKeywordReady E.outcome
            (MayTest T.Fn self.now.text_accepts.now) (length self.now.nodes.now)) beside.now }
        requires there { AllByRecursion (λ b. b.schema < length self.now.nodes.now) branches.now }
        ensures { (lists : Lists) → Tests T.Fn self.now.text_accepts.now E.outcome lists
            → IfOk result (λ b. (k : ℕ) (site : Site) (word : List ℕ)
            → steps_for (length self.now.nodes.now) (view instance.now) 0 ≤ k
            → IsTrue b ↔ EachReports (Reports (schemas_of E.outcome self.now.nodes.now) lists k)
            site word (flat_map (on_members (other_members_in (keywords_of E.outcome beside.now)
            (view instance.now))) (branches_of branches.now)) []) }
    {
        let chosen = Chosen::Others(beside, are_all_in_order(beside));
        for branch in branches {
            if !self.members_accept(alloc, &chosen, branch, instance)? {
                return Ok(false);
            }
        }
        Ok(true)
    }

    // Whether the members whose keys a pattern matches have no errors by its schema.
    #[cycle(accepts)]
    pub(crate) fn matched_accept(
        &self,
        alloc: Global,
        patterns: &[Validator<E>],
        branches: &[Branch],
        instance: &Value,
    ) -> Result<bool, AllocError>
        requires ready { IsReady E.outcome (MayTest T.Fn self.now.text_accepts.now)
            self.now.nodes.now }
        requires answers { (lists : Lists)
            × Tests T.Fn self.now.text_accepts.now E.outcome lists }
        requires patterns { AllByRecursion (IsPatternReady E.outcome
            (MayTest T.Fn self.now.text_accepts.now) (length self.now.nodes.now)) patterns.now }
        requires there { AllByRecursion (λ b. b.schema < length self.now.nodes.now) branches.now }
        ensures { (lists : Lists) → Tests T.Fn self.now.text_accepts.now E.outcome lists
            → IfOk result (λ b. (k : ℕ) (site : Site) (word : List ℕ)
            → steps_for (length self.now.nodes.now) (view instance.now) 0 ≤ k
            → IsTrue b ↔ EachReports (Reports (schemas_of E.outcome self.now.nodes.now) lists k)
            site word (on_matched (view instance.now) (map (assertions_of E.outcome) patterns.now)
            (branches_of branches.now)) []) }
    {
        for (pattern, branch) in patterns.iter().zip(branches) {
            let chosen = Chosen::Matched(pattern);
            if !self.members_accept(alloc, &chosen, branch, instance)? {
                return Ok(false);
            }
        }
        Ok(true)
    }

    // Whether the members that are chosen have no errors by a schema.
    #[cycle(accepts)]
    fn members_accept(
        &self,
        alloc: Global,
        chosen: &Chosen<'_, E>,
        branch: &Branch,
        instance: &Value,
    ) -> Result<bool, AllocError>
        requires ready { IsReady E.outcome (MayTest T.Fn self.now.text_accepts.now)
            self.now.nodes.now }
        requires answers { (lists : Lists)
            × Tests T.Fn self.now.text_accepts.now E.outcome lists }
        requires chosen { IsChosenReady E.outcome (MayTest T.Fn self.now.text_accepts.now)
            (length self.now.nodes.now) chosen.now }
        requires there { branch.now.schema < length self.now.nodes.now }
        ensures { (lists : Lists) → Tests T.Fn self.now.text_accepts.now E.outcome lists
            → IfOk result (λ b. (k : ℕ) (site : Site) (word : List ℕ)
            → steps_for (length self.now.nodes.now) (view instance.now) 0 ≤ k
            → IsTrue b ↔ EachReports (Reports (schemas_of E.outcome self.now.nodes.now) lists k)
            site word (on_members (chosen_members E.outcome chosen.now (view instance.now))
            (branch_of branch.now)) []) }
    {
        let Some(members) = instance.as_object() else {
            return Ok(true);
        };
        for (name, value) in members.iter() {
            if self.chooses(chosen, name.as_str())? {
                if !self.accepts(alloc, branch.schema, self.nodes.len(), value)? {
                    return Ok(false);
                }
            }
        }
        Ok(true)
    }

    // Whether so many items have no errors by a schema; a value that is no array is as `contains` wants it.
    #[cycle(accepts)]
    pub(crate) fn items_counted(
        &self,
        alloc: Global,
        branch: &Branch,
        bounds: Bounds,
        instance: &Value,
    ) -> Result<bool, AllocError>
        requires ready { IsReady E.outcome (MayTest T.Fn self.now.text_accepts.now)
            self.now.nodes.now }
        requires answers { (lists : Lists)
            × Tests T.Fn self.now.text_accepts.now E.outcome lists }
        requires there { branch.now.schema < length self.now.nodes.now }
        ensures { (lists : Lists) → Tests T.Fn self.now.text_accepts.now E.outcome lists
            → IfOk result (λ b. (k : ℕ) (site : Site) (word : List ℕ)
            → steps_for (length self.now.nodes.now) (view instance.now) 0 ≤ k
            → IsTrue b ↔ AreItemsCounted
            (Reports (schemas_of E.outcome self.now.nodes.now) lists k) site word
            (view instance.now) (branch_of branch.now) bounds.least bounds.most) }
    {
        let Some(items) = instance.as_array() else {
            return Ok(true);
        };
        let mut count = 0;
        for item in items {
            if self.accepts(alloc, branch.schema, self.nodes.len(), item)? {
                if is_past(bounds.most, count) {
                    return Ok(false);
                }
                count += 1;
            }
        }
        Ok(is_between(bounds.least, bounds.most, count))
    }

    // Whether the instance has no errors by each schema whose key it has.
    #[cycle(accepts)]
    pub(crate) fn present_accept(
        &self,
        alloc: Global,
        branches: &[Branch],
        steps: usize,
        instance: &Value,
    ) -> Result<bool, AllocError>
        requires ready { IsReady E.outcome (MayTest T.Fn self.now.text_accepts.now)
            self.now.nodes.now }
        requires answers { (lists : Lists)
            × Tests T.Fn self.now.text_accepts.now E.outcome lists }
        requires few { steps ≤ length self.now.nodes.now }
        requires end { list_all (ends (schemas_of E.outcome self.now.nodes.now) steps)
            (schemas_in (branches_of branches.now)) ≡ true }
        ensures { (lists : Lists) → Tests T.Fn self.now.text_accepts.now E.outcome lists
            → IfOk result (λ b. (k : ℕ) (site : Site) (word : List ℕ)
            → steps_for (length self.now.nodes.now) (view instance.now) steps ≤ k
            → IsTrue b ↔ EachReports (Reports (schemas_of E.outcome self.now.nodes.now) lists k)
            site word (on_itself (view instance.now)
            (filter (is_present (view instance.now)) (branches_of branches.now))) []) }
    {
        for branch in branches {
            if is_present(branch, instance) {
                if !self.accepts(alloc, branch.schema, steps, instance)? {
                    return Ok(false);
                }
            }
        }
        Ok(true)
    }
}
