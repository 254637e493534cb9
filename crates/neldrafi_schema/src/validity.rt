//! Whether an instance has no errors.

ghost use Rattle.std.specs.Prelude.{IfOk, IsTrue, List, None, Some, [], drop, if◌then◌else◌, length, true, ℕ, ◌<◌, ◌↔◌, ◌≡◌, ◌≤◌};
ghost use Rattle.std.specs.List.{AllByRecursion, flat_map, list_all};
ghost use Rattle.serde_json.specs.View.{view};
ghost use Rattle.strkw_report.specs.declared.error.Site.{Site};
ghost use Rattle.strkw_keywords.specs.Meanings.{Lists};
ghost use Rattle.neldrafi_schema.specs.Meaning.{AreVerdicts, EachReports, KeywordReports, Reports};
ghost use Rattle.neldrafi_schema.specs.Schemas.{Header};
ghost use Rattle.neldrafi_schema.specs.Refusals.{ends, in_place, is_in_place, keywords_end};
ghost use Rattle.neldrafi_schema.specs.Rules.{on_child, on_items, placed_items, tested};
ghost use Rattle.neldrafi_schema.specs.machine.Closures.{MayTest, Tests};
ghost use Rattle.neldrafi_schema.specs.machine.Compiled.{branch_of, branches_of, keyword_of, keywords_of, rule_of, ruled_of, schemas_of, targets_of};
ghost use Rattle.neldrafi_schema.specs.machine.Conditions.{IsKnown};
ghost use Rattle.neldrafi_schema.specs.machine.Found.{kinds_of};
ghost use Rattle.neldrafi_schema.specs.machine.Left.{AreFindings};
ghost use Rattle.neldrafi_schema.specs.machine.Ready.{IsKeywordReady, IsReady, IsRuledReady, steps_for};

use crate::applicators::{Bounds, bounds_of, only_branch};
use crate::conditions::{Choice, Conditional, choice_of, condition_of};
use crate::error::ErrorKind;
use crate::kinds::{has_all_dependents, left_kinds, plain_verdict};
use crate::node::{Body, Branch, Keyword, Node, Rule, Ruled};
use crate::rules::has_no_items_from;
use crate::targets::{Target, child_of, on_each, placed_count, tested};
use serde_json::Value;
use std::alloc::{AllocError, Global};
use strkw_keywords::Validator;
use strkw_pattern::RegexEngine;

/// The nodes of a compiled schema, and what says whether a text has no errors by a string keyword.
#[derive(Clone, Copy)]
pub(crate) struct Checker<'s, E, T> {
    pub nodes: &'s [Node<E>],
    pub text_accepts: &'s T,
}

impl<E: RegexEngine, T: Fn(&Validator<E>, Option<&str>) -> Result<bool, AllocError>> Checker<
    '_,
    E,
    T,
> {
    // Whether an instance has no errors by a schema, whose ways that do not enter it end within so many steps.
    #[cycle(accepts)]
    pub(crate) fn accepts(
        &self,
        alloc: Global,
        number: usize,
        steps: usize,
        instance: &Value,
    ) -> Result<bool, AllocError>
        requires ready { IsReady E.outcome (MayTest T.Fn self.now.text_accepts.now)
            self.now.nodes.now }
        requires answers { (lists : Lists)
            × Tests T.Fn self.now.text_accepts.now E.outcome lists }
        requires few { steps ≤ length self.now.nodes.now }
        requires end { ends (schemas_of E.outcome self.now.nodes.now) steps number ≡ true }
        ensures { (lists : Lists) → Tests T.Fn self.now.text_accepts.now E.outcome lists
            → IfOk result (λ b. (k : ℕ) (site : Site)
            → steps_for (length self.now.nodes.now) (view instance.now) steps ≤ k
            → IsTrue b ↔ Reports (schemas_of E.outcome self.now.nodes.now) lists k number
            (view instance.now) site []) }
    {
        let keywords = match &self.nodes[number].body {
            Body::Always => return Ok(true),
            Body::Never => return Ok(false),
            Body::Keywords(keywords) => keywords,
        };
        let condition = self.condition(alloc, keywords, steps - 1, instance)?;
        for keyword in keywords {
            let conditional = Conditional { keyword, condition };
            if !self.conditional_accepts(alloc, keywords, &conditional, steps - 1, instance)? {
                return Ok(false);
            }
        }
        Ok(true)
    }

    // The schema of `if` to which `then` or `else` leads, and whether the instance has no errors by it.
    #[cycle(accepts)]
    fn condition(
        &self,
        alloc: Global,
        keywords: &[Keyword<E>],
        steps: usize,
        instance: &Value,
    ) -> Result<Option<(usize, bool)>, AllocError>
        requires ready { IsReady E.outcome (MayTest T.Fn self.now.text_accepts.now)
            self.now.nodes.now }
        requires answers { (lists : Lists)
            × Tests T.Fn self.now.text_accepts.now E.outcome lists }
        requires few { steps ≤ length self.now.nodes.now }
        requires ends { keywords_end (ends (schemas_of E.outcome self.now.nodes.now) steps)
            (keywords_of E.outcome keywords.now) ≡ true }
        ensures { (lists : Lists) → Tests T.Fn self.now.text_accepts.now E.outcome lists
            → IfOk result (λ known. (k : ℕ)
            → steps_for (length self.now.nodes.now) (view instance.now) steps ≤ k
            → IsKnown (Reports (schemas_of E.outcome self.now.nodes.now) lists k)
            (view instance.now) known) }
    {
        for keyword in keywords {
            if let Some(number) = condition_of(keyword) {
                let valid = self.accepts(alloc, number, steps, instance)?;
                return Ok(Some((number, valid)));
            }
        }
        Ok(None)
    }

    // The same as the next, if the verdict on `if` may be known.
    #[cycle(accepts)]
    fn conditional_accepts(
        &self,
        alloc: Global,
        beside: &[Keyword<E>],
        conditional: &Conditional<'_, E>,
        steps: usize,
        instance: &Value,
    ) -> Result<bool, AllocError>
        requires ready { IsReady E.outcome (MayTest T.Fn self.now.text_accepts.now)
            self.now.nodes.now }
        requires answers { (lists : Lists)
            × Tests T.Fn self.now.text_accepts.now E.outcome lists }
        requires few { steps ≤ length self.now.nodes.now }
        requires this { IsKeywordReady E.outcome (MayTest T.Fn self.now.text_accepts.now)
            (length self.now.nodes.now) conditional.now.keyword.now }
        requires others { AllByRecursion (IsKeywordReady E.outcome
            (MayTest T.Fn self.now.text_accepts.now) (length self.now.nodes.now)) beside.now }
        requires ends { keywords_end (ends (schemas_of E.outcome self.now.nodes.now) steps)
            (keywords_of E.outcome beside.now) ≡ true }
        requires end { list_all (ends (schemas_of E.outcome self.now.nodes.now) steps)
            (in_place (keyword_of E.outcome conditional.now.keyword.now)) ≡ true }
        requires condition { (lists : Lists) → Tests T.Fn self.now.text_accepts.now E.outcome lists
            → (k : ℕ) → steps_for (length self.now.nodes.now) (view instance.now) steps ≤ k
            → IsKnown (Reports (schemas_of E.outcome self.now.nodes.now) lists k)
            (view instance.now) conditional.now.condition }
        ensures { (lists : Lists) → Tests T.Fn self.now.text_accepts.now E.outcome lists
            → IfOk result (λ b. (k : ℕ) (header : Header) (site : Site)
            → steps_for (length self.now.nodes.now) (view instance.now) steps ≤ k
            → IsTrue b ↔ KeywordReports
            (schemas_of E.outcome self.now.nodes.now)
            (Reports (schemas_of E.outcome self.now.nodes.now) lists k) lists header
            (keywords_of E.outcome beside.now) (keyword_of E.outcome conditional.now.keyword.now)
            (view instance.now) site []) }
    {
        match choice_of(conditional) {
            Choice::Unknown => {
                self.keyword_accepts(alloc, beside, conditional.keyword, steps, instance)
            }
            Choice::Passes => Ok(true),
            Choice::Leads(number) => self.accepts(alloc, number, steps, instance),
        }
    }

    #[cycle(accepts)]
    fn keyword_accepts(
        &self,
        alloc: Global,
        beside: &[Keyword<E>],
        keyword: &Keyword<E>,
        steps: usize,
        instance: &Value,
    ) -> Result<bool, AllocError>
        requires ready { IsReady E.outcome (MayTest T.Fn self.now.text_accepts.now)
            self.now.nodes.now }
        requires answers { (lists : Lists)
            × Tests T.Fn self.now.text_accepts.now E.outcome lists }
        requires few { steps ≤ length self.now.nodes.now }
        requires this { IsKeywordReady E.outcome (MayTest T.Fn self.now.text_accepts.now)
            (length self.now.nodes.now) keyword.now }
        requires others { AllByRecursion (IsKeywordReady E.outcome
            (MayTest T.Fn self.now.text_accepts.now) (length self.now.nodes.now)) beside.now }
        requires ends { keywords_end (ends (schemas_of E.outcome self.now.nodes.now) steps)
            (keywords_of E.outcome beside.now) ≡ true }
        requires end { list_all (ends (schemas_of E.outcome self.now.nodes.now) steps)
            (in_place (keyword_of E.outcome keyword.now)) ≡ true }
        ensures { (lists : Lists) → Tests T.Fn self.now.text_accepts.now E.outcome lists
            → IfOk result (λ b. (k : ℕ) (header : Header) (site : Site)
            → steps_for (length self.now.nodes.now) (view instance.now) steps ≤ k
            → IsTrue b ↔ KeywordReports
            (schemas_of E.outcome self.now.nodes.now)
            (Reports (schemas_of E.outcome self.now.nodes.now) lists k) lists header
            (keywords_of E.outcome beside.now) (keyword_of E.outcome keyword.now)
            (view instance.now) site []) }
    {
        match keyword {
            Keyword::Text(_, validator) => (self.text_accepts)(validator, instance.as_str()),
            Keyword::Rule(ruled) => self.rule_accepts(alloc, beside, ruled, steps, instance),
        }
    }

    #[cycle(accepts)]
    fn rule_accepts(
        &self,
        alloc: Global,
        beside: &[Keyword<E>],
        ruled: &Ruled<E>,
        steps: usize,
        instance: &Value,
    ) -> Result<bool, AllocError>
        requires ready { IsReady E.outcome (MayTest T.Fn self.now.text_accepts.now)
            self.now.nodes.now }
        requires answers { (lists : Lists)
            × Tests T.Fn self.now.text_accepts.now E.outcome lists }
        requires few { steps ≤ length self.now.nodes.now }
        requires this { IsRuledReady E.outcome (MayTest T.Fn self.now.text_accepts.now)
            (length self.now.nodes.now) ruled.now }
        requires others { AllByRecursion (IsKeywordReady E.outcome
            (MayTest T.Fn self.now.text_accepts.now) (length self.now.nodes.now)) beside.now }
        requires ends { keywords_end (ends (schemas_of E.outcome self.now.nodes.now) steps)
            (keywords_of E.outcome beside.now) ≡ true }
        requires end { list_all (ends (schemas_of E.outcome self.now.nodes.now) steps)
            (in_place (ruled_of E.outcome ruled.now)) ≡ true }
        ensures { (lists : Lists) → Tests T.Fn self.now.text_accepts.now E.outcome lists
            → IfOk result (λ b. (k : ℕ) (header : Header) (site : Site)
            → steps_for (length self.now.nodes.now) (view instance.now) steps ≤ k
            → IsTrue b ↔ KeywordReports
            (schemas_of E.outcome self.now.nodes.now)
            (Reports (schemas_of E.outcome self.now.nodes.now) lists k) lists header
            (keywords_of E.outcome beside.now) (ruled_of E.outcome ruled.now)
            (view instance.now) site []) }
    {
        match &ruled.rule {
            Rule::Properties => self.children_accept(alloc, &ruled.branches, instance),
            Rule::Placed => self.children_accept(alloc, &ruled.branches, instance),
            Rule::OtherItems => {
                self.items_accept(alloc, &ruled.branches, placed_count(beside), instance)
            }
            Rule::Reference => self.all_accept(alloc, &ruled.branches, steps, instance),
            Rule::AllOf => self.all_accept(alloc, &ruled.branches, steps, instance),
            Rule::OtherMembers => self.others_accept(alloc, beside, &ruled.branches, instance),
            Rule::NoOtherMembers => self.leads_to_all(beside, instance),
            Rule::Matching(patterns) => {
                self.matched_accept(alloc, patterns, &ruled.branches, instance)
            }
            Rule::Dependent(dependencies) => {
                if !has_all_dependents(dependencies, instance) {
                    return Ok(false);
                }
                self.present_accept(alloc, &ruled.branches, steps, instance)
            }
            Rule::Contains(least, most, _) => match only_branch(&ruled.branches) {
                Some(branch) => {
                    let bounds = Bounds {
                        least: *least,
                        most: *most,
                    };
                    self.items_counted(alloc, branch, bounds, instance)
                }
                None => self.found_accepts(alloc, beside, ruled, steps, instance),
            },
            Rule::NoOtherItems => Ok(has_no_items_from(placed_count(beside), instance)),
            rule => match (plain_verdict(rule, instance), bounds_of(rule)) {
                (Some(holds), _) => Ok(holds),
                (None, Some(bounds)) => {
                    self.counted_accept(alloc, &ruled.branches, bounds, steps, instance)
                }
                (None, None) => self.found_accepts(alloc, beside, ruled, steps, instance),
            },
        }
    }

    // Whether what is at the segment of each schema has no errors by it.
    #[cycle(accepts)]
    fn children_accept(
        &self,
        alloc: Global,
        branches: &[Branch],
        instance: &Value,
    ) -> Result<bool, AllocError>
        requires ready { IsReady E.outcome (MayTest T.Fn self.now.text_accepts.now)
            self.now.nodes.now }
        requires answers { (lists : Lists)
            × Tests T.Fn self.now.text_accepts.now E.outcome lists }
        requires there { AllByRecursion (λ b. b.schema < length self.now.nodes.now) branches.now }
        ensures { (lists : Lists) → Tests T.Fn self.now.text_accepts.now E.outcome lists
            → IfOk result (λ b. (k : ℕ) (site : Site) (word : List ℕ)
            → steps_for (length self.now.nodes.now) (view instance.now) 0 ≤ k
            → IsTrue b ↔ EachReports (Reports (schemas_of E.outcome self.now.nodes.now) lists k)
            site word (flat_map (on_child (view instance.now)) (branches_of branches.now)) []) }
    {
        for branch in branches {
            if let Some(value) = child_of(branch, instance) {
                if !self.accepts(alloc, branch.schema, self.nodes.len(), value)? {
                    return Ok(false);
                }
            }
        }
        Ok(true)
    }

    // Whether the items from a place on have no errors by each schema.
    #[cycle(accepts)]
    fn items_accept(
        &self,
        alloc: Global,
        branches: &[Branch],
        from: usize,
        instance: &Value,
    ) -> Result<bool, AllocError>
        requires ready { IsReady E.outcome (MayTest T.Fn self.now.text_accepts.now)
            self.now.nodes.now }
        requires answers { (lists : Lists)
            × Tests T.Fn self.now.text_accepts.now E.outcome lists }
        requires there { AllByRecursion (λ b. b.schema < length self.now.nodes.now) branches.now }
        ensures { (lists : Lists) → Tests T.Fn self.now.text_accepts.now E.outcome lists
            → IfOk result (λ b. (k : ℕ) (site : Site) (word : List ℕ)
            → steps_for (length self.now.nodes.now) (view instance.now) 0 ≤ k
            → IsTrue b ↔ EachReports (Reports (schemas_of E.outcome self.now.nodes.now) lists k)
            site word (flat_map (on_items (drop from (placed_items (view instance.now))))
            (branches_of branches.now)) []) }
    {
        for branch in branches {
            if !self.items_accept_by(alloc, branch, from, instance)? {
                return Ok(false);
            }
        }
        Ok(true)
    }

    #[cycle(accepts)]
    fn items_accept_by(
        &self,
        alloc: Global,
        branch: &Branch,
        from: usize,
        instance: &Value,
    ) -> Result<bool, AllocError>
        requires ready { IsReady E.outcome (MayTest T.Fn self.now.text_accepts.now)
            self.now.nodes.now }
        requires answers { (lists : Lists)
            × Tests T.Fn self.now.text_accepts.now E.outcome lists }
        requires there { branch.now.schema < length self.now.nodes.now }
        ensures { (lists : Lists) → Tests T.Fn self.now.text_accepts.now E.outcome lists
            → IfOk result (λ b. (k : ℕ) (site : Site) (word : List ℕ)
            → steps_for (length self.now.nodes.now) (view instance.now) 0 ≤ k
            → IsTrue b ↔ EachReports (Reports (schemas_of E.outcome self.now.nodes.now) lists k)
            site word (on_items (drop from (placed_items (view instance.now)))
            (branch_of branch.now)) []) }
    {
        let Some(items) = instance.as_array() else {
            return Ok(true);
        };
        for (place, item) in items.iter().enumerate() {
            if place >= from {
                if !self.accepts(alloc, branch.schema, self.nodes.len(), item)? {
                    return Ok(false);
                }
            }
        }
        Ok(true)
    }

    // By what is found.
    #[cycle(accepts)]
    fn found_accepts(
        &self,
        alloc: Global,
        beside: &[Keyword<E>],
        ruled: &Ruled<E>,
        steps: usize,
        instance: &Value,
    ) -> Result<bool, AllocError>
        requires ready { IsReady E.outcome (MayTest T.Fn self.now.text_accepts.now)
            self.now.nodes.now }
        requires answers { (lists : Lists)
            × Tests T.Fn self.now.text_accepts.now E.outcome lists }
        requires few { steps ≤ length self.now.nodes.now }
        requires this { IsRuledReady E.outcome (MayTest T.Fn self.now.text_accepts.now)
            (length self.now.nodes.now) ruled.now }
        requires others { AllByRecursion (IsKeywordReady E.outcome
            (MayTest T.Fn self.now.text_accepts.now) (length self.now.nodes.now)) beside.now }
        requires ends { keywords_end (ends (schemas_of E.outcome self.now.nodes.now) steps)
            (keywords_of E.outcome beside.now) ≡ true }
        requires end { list_all (ends (schemas_of E.outcome self.now.nodes.now) steps)
            (in_place (ruled_of E.outcome ruled.now)) ≡ true }
        ensures { (lists : Lists) → Tests T.Fn self.now.text_accepts.now E.outcome lists
            → IfOk result (λ b. (k : ℕ) (header : Header) (site : Site)
            → steps_for (length self.now.nodes.now) (view instance.now) steps ≤ k
            → IsTrue b ↔ KeywordReports
            (schemas_of E.outcome self.now.nodes.now)
            (Reports (schemas_of E.outcome self.now.nodes.now) lists k) lists header
            (keywords_of E.outcome beside.now) (ruled_of E.outcome ruled.now)
            (view instance.now) site []) }
    {
        let (kinds, targets) = self.findings(alloc, beside, ruled, steps, instance)?;
        if !kinds.is_empty() {
            return Ok(false);
        }
        let left = self.steps_below(ruled, steps);
        for target in &targets {
            if !self.accepts(alloc, target.schema, left, target.value.as_value())? {
                return Ok(false);
            }
        }
        Ok(true)
    }

    // What a keyword reports itself, and the values of which its schemas have to report all errors.
    #[cycle(accepts)]
    pub(crate) fn findings<'a>(
        &self,
        alloc: Global,
        beside: &[Keyword<E>],
        ruled: &'a Ruled<E>,
        steps: usize,
        instance: &'a Value,
    ) -> Result<(Vec<ErrorKind>, Vec<Target<'a>>), AllocError>
        requires ready { IsReady E.outcome (MayTest T.Fn self.now.text_accepts.now)
            self.now.nodes.now }
        requires answers { (lists : Lists)
            × Tests T.Fn self.now.text_accepts.now E.outcome lists }
        requires few { steps ≤ length self.now.nodes.now }
        requires this { IsRuledReady E.outcome (MayTest T.Fn self.now.text_accepts.now)
            (length self.now.nodes.now) ruled.now }
        requires others { AllByRecursion (IsKeywordReady E.outcome
            (MayTest T.Fn self.now.text_accepts.now) (length self.now.nodes.now)) beside.now }
        requires ends { keywords_end (ends (schemas_of E.outcome self.now.nodes.now) steps)
            (keywords_of E.outcome beside.now) ≡ true }
        requires end { list_all (ends (schemas_of E.outcome self.now.nodes.now) steps)
            (in_place (ruled_of E.outcome ruled.now)) ≡ true }
        ensures { (lists : Lists) → Tests T.Fn self.now.text_accepts.now E.outcome lists
            → IfOk result (λ found. (k : ℕ) (site : Site)
            → steps_for (length self.now.nodes.now) (view instance.now) steps ≤ k
            → AreFindings (schemas_of E.outcome self.now.nodes.now)
            (Reports (schemas_of E.outcome self.now.nodes.now) lists k)
            (keywords_of E.outcome beside.now) (ruled_of E.outcome ruled.now)
            (view instance.now) site (kinds_of found.0.items) (targets_of found.1.items)) }
    {
        if let Rule::Unevaluated(part) = ruled.rule {
            let left = self.left(alloc, beside, part, steps, instance)?;
            let kinds = left_kinds(alloc, part, &ruled.branches, &left)?;
            return Ok((kinds, on_each(alloc, &ruled.branches, &left)?));
        }
        let verdicts = self.verdicts(alloc, ruled, steps, instance)?;
        let kinds = self.kinds(alloc, beside, ruled, instance, &verdicts)?;
        Ok((
            kinds,
            self.applied(alloc, beside, ruled, instance, &verdicts)?,
        ))
    }

    // Whether each value that a keyword tests has no errors.
    #[cycle(accepts)]
    pub(crate) fn verdicts(
        &self,
        alloc: Global,
        ruled: &Ruled<E>,
        steps: usize,
        instance: &Value,
    ) -> Result<Vec<bool>, AllocError>
        requires ready { IsReady E.outcome (MayTest T.Fn self.now.text_accepts.now)
            self.now.nodes.now }
        requires answers { (lists : Lists)
            × Tests T.Fn self.now.text_accepts.now E.outcome lists }
        requires few { steps ≤ length self.now.nodes.now }
        requires this { IsRuledReady E.outcome (MayTest T.Fn self.now.text_accepts.now)
            (length self.now.nodes.now) ruled.now }
        requires end { list_all (ends (schemas_of E.outcome self.now.nodes.now) steps)
            (in_place (ruled_of E.outcome ruled.now)) ≡ true }
        ensures { (lists : Lists) → Tests T.Fn self.now.text_accepts.now E.outcome lists
            → IfOk result (λ vs. (k : ℕ) (site : Site) (word : List ℕ)
            → steps_for (length self.now.nodes.now) (view instance.now) steps ≤ k
            → AreVerdicts (Reports (schemas_of E.outcome self.now.nodes.now) lists k) site word
            (tested (rule_of E.outcome ruled.now.rule) (branches_of ruled.now.branches.items)
            (view instance.now)) vs.items) }
    {
        let left = self.steps_below(ruled, steps);
        let mut verdicts = Vec::new(alloc);
        for target in &tested(alloc, &ruled.rule, &ruled.branches, instance)? {
            verdicts.push(self.accepts(alloc, target.schema, left, target.value.as_value())?)?;
        }
        Ok(verdicts)
    }

    // Within how many steps the ways from a keyword's schemas end: any number does where they enter the instance.
    pub(crate) fn steps_below(&self, ruled: &Ruled<E>, steps: usize) -> usize
        ensures { result ≡ (if is_in_place (rule_of E.outcome ruled.now.rule) then steps
            else length self.now.nodes.now) }
    {
        if ruled.rule.is_in_place() {
            steps
        } else {
            self.nodes.len()
        }
    }
}
