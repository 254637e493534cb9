//! Which members and items of an instance keywords evaluate.

ghost use Rattle.std.specs.Prelude.{IfOk, List, None, OnOk, Some, length, true, ℕ, ◌<◌, ◌≡◌, ◌≤◌};
ghost use Rattle.std.specs.List.{AllByRecursion, list_all};
ghost use Rattle.serde_json.specs.View.{view};
ghost use Rattle.strkw_keywords.specs.Meanings.{Lists};
ghost use Rattle.strkw_pattern.specs.declared.engine.Outcome.{Outcome};
ghost use Rattle.strkw_report.specs.declared.error.Site.{Site};
ghost use Rattle.neldrafi_schema.specs.Meaning.{AreUnevaluated, BesideEvaluates, Evaluates, KeywordEvaluates, Reports, TargetEvaluates};
ghost use Rattle.neldrafi_schema.specs.Refusals.{ends, in_place, keywords_end};
ghost use Rattle.neldrafi_schema.specs.Rules.{found_valid, part_of, reached, tested};
ghost use Rattle.neldrafi_schema.specs.machine.Annotated.{AreAnnotated};
ghost use Rattle.neldrafi_schema.specs.machine.Closures.{MayTest, Tests};
ghost use Rattle.neldrafi_schema.specs.machine.Compiled.{branches_of, children_of, keyword_of, keywords_of, rule_of, ruled_of, schemas_of, target_of, targets_of};
ghost use Rattle.neldrafi_schema.specs.machine.Left.{AreSpans, EndsHere, Takes};
ghost use Rattle.neldrafi_schema.specs.machine.Ready.{IsKeywordReady, IsReady, IsRuledReady, steps_for};

use crate::node::{Body, Keyword, Part, Rule, Ruled};
use crate::targets::{Child, Target, children, on_each, take_at, take_part, tested, valid_of};
use crate::validity::Checker;
use serde_json::Value;
use std::alloc::{AllocError, Global};
use strkw_keywords::Validator;
use strkw_pattern::RegexEngine;

impl<E: RegexEngine, T: Fn(&Validator<E>, Option<&str>) -> Result<bool, AllocError>> Checker<
    '_,
    E,
    T,
> {
    // The members or items of an instance that no keyword evaluates.
    #[cycle(accepts)]
    pub(crate) fn left<'a>(
        &self,
        alloc: Global,
        keywords: &[Keyword<E>],
        part: Part,
        steps: usize,
        instance: &'a Value,
    ) -> Result<Vec<Child<'a>>, AllocError>
        requires ready { IsReady E.outcome (MayTest T.Fn self.now.text_accepts.now)
            self.now.nodes.now }
        requires answers { (lists : Lists)
            × Tests T.Fn self.now.text_accepts.now E.outcome lists }
        requires few { steps ≤ length self.now.nodes.now }
        requires others { AllByRecursion (IsKeywordReady E.outcome
            (MayTest T.Fn self.now.text_accepts.now) (length self.now.nodes.now)) keywords.now }
        requires ends { keywords_end (ends (schemas_of E.outcome self.now.nodes.now) steps)
            (keywords_of E.outcome keywords.now) ≡ true }
        ensures { (lists : Lists) → Tests T.Fn self.now.text_accepts.now E.outcome lists
            → IfOk result (λ left. (k : ℕ)
            → steps_for (length self.now.nodes.now) (view instance.now) steps ≤ k
            → AreUnevaluated (schemas_of E.outcome self.now.nodes.now)
            (Reports (schemas_of E.outcome self.now.nodes.now) lists k)
            (keywords_of E.outcome keywords.now) (view instance.now) (Some part)
            (children_of left.items)) }
    {
        let mut left = children(alloc, part, instance)?;
        for keyword in keywords {
            self.take_beside(alloc, keywords, keyword, steps, instance, &mut left)?;
        }
        Ok(left)
    }

    // Takes from what is left what a keyword beside evaluates.
    #[cycle(accepts)]
    fn take_beside(
        &self,
        alloc: Global,
        beside: &[Keyword<E>],
        keyword: &Keyword<E>,
        steps: usize,
        instance: &Value,
        left: &mut Vec<Child<'_>>,
    ) -> Result<(), AllocError>
        requires ready { IsReady E.outcome (MayTest T.Fn self.now.text_accepts.now)
            self.now.nodes.now }
        requires answers { (lists : Lists)
            × Tests T.Fn self.now.text_accepts.now E.outcome lists }
        requires few { steps ≤ length self.now.nodes.now }
        requires this { IsKeywordReady E.outcome (MayTest T.Fn self.now.text_accepts.now)
            (length self.now.nodes.now) keyword.now }
        requires others { AllByRecursion (IsKeywordReady E.outcome
            (MayTest T.Fn self.now.text_accepts.now) (length self.now.nodes.now)) beside.now }
        requires end { list_all (ends (schemas_of E.outcome self.now.nodes.now) steps)
            (in_place (keyword_of E.outcome keyword.now)) ≡ true }
        ensures { (lists : Lists) → Tests T.Fn self.now.text_accepts.now E.outcome lists
            → OnOk result ((k : ℕ)
            → steps_for (length self.now.nodes.now) (view instance.now) steps ≤ k
            → Takes (λ s. BesideEvaluates (schemas_of E.outcome self.now.nodes.now)
            (Reports (schemas_of E.outcome self.now.nodes.now) lists k)
            (keywords_of E.outcome beside.now) (view instance.now) s
            (keyword_of E.outcome keyword.now)) left.old.items left.new.items) }
    {
        let Keyword::Rule(ruled) = keyword else {
            return Ok(());
        };
        match ruled.rule {
            Rule::Unevaluated(_) => Ok(()),
            _ => self.take_evaluated(alloc, beside, ruled, steps, instance, left),
        }
    }

    // Takes from what is left what a keyword evaluates that does not speak of it.
    #[cycle(accepts)]
    fn take_evaluated(
        &self,
        alloc: Global,
        beside: &[Keyword<E>],
        ruled: &Ruled<E>,
        steps: usize,
        instance: &Value,
        left: &mut Vec<Child<'_>>,
    ) -> Result<(), AllocError>
        requires ready { IsReady E.outcome (MayTest T.Fn self.now.text_accepts.now)
            self.now.nodes.now }
        requires answers { (lists : Lists)
            × Tests T.Fn self.now.text_accepts.now E.outcome lists }
        requires few { steps ≤ length self.now.nodes.now }
        requires this { IsRuledReady E.outcome (MayTest T.Fn self.now.text_accepts.now)
            (length self.now.nodes.now) ruled.now }
        requires others { AllByRecursion (IsKeywordReady E.outcome
            (MayTest T.Fn self.now.text_accepts.now) (length self.now.nodes.now)) beside.now }
        requires end { list_all (ends (schemas_of E.outcome self.now.nodes.now) steps)
            (in_place (ruled_of E.outcome ruled.now)) ≡ true }
        requires speaks { part_of (rule_of E.outcome ruled.now.rule) ≡ None }
        ensures { (lists : Lists) → Tests T.Fn self.now.text_accepts.now E.outcome lists
            → OnOk result ((j k : ℕ) → steps ≤ j
            → steps_for (length self.now.nodes.now) (view instance.now) steps ≤ k
            → Takes (λ s. KeywordEvaluates
            (Reports (schemas_of E.outcome self.now.nodes.now) lists k)
            (Evaluates (schemas_of E.outcome self.now.nodes.now)
            (Reports (schemas_of E.outcome self.now.nodes.now) lists k) s j)
            (keywords_of E.outcome beside.now) (view instance.now) s
            (ruled_of E.outcome ruled.now)) left.old.items left.new.items) }
    {
        for target in &self.spans(alloc, beside, ruled, steps, instance)? {
            self.take_by_target(alloc, target, steps, instance, left)?;
        }
        Ok(())
    }

    // Takes from what is left a target, or what its schema evaluates of the instance itself.
    #[cycle(accepts)]
    fn take_by_target(
        &self,
        alloc: Global,
        target: &Target<'_>,
        steps: usize,
        instance: &Value,
        left: &mut Vec<Child<'_>>,
    ) -> Result<(), AllocError>
        requires ready { IsReady E.outcome (MayTest T.Fn self.now.text_accepts.now)
            self.now.nodes.now }
        requires answers { (lists : Lists)
            × Tests T.Fn self.now.text_accepts.now E.outcome lists }
        requires few { steps ≤ length self.now.nodes.now }
        requires end { EndsHere (schemas_of E.outcome self.now.nodes.now) steps
            (view instance.now) (target_of target.now) }
        ensures { (lists : Lists) → Tests T.Fn self.now.text_accepts.now E.outcome lists
            → OnOk result ((j k : ℕ) → steps ≤ j
            → steps_for (length self.now.nodes.now) (view instance.now) steps ≤ k
            → Takes (λ s. TargetEvaluates (Evaluates (schemas_of E.outcome self.now.nodes.now)
            (Reports (schemas_of E.outcome self.now.nodes.now) lists k) s j) s
            (target_of target.now)) left.old.items left.new.items) }
    {
        match target.inside {
            Some(step) => {
                take_at(step, left);
                Ok(())
            }
            None => self.take_by_schema(alloc, target.schema, steps, instance, left),
        }
    }

    // Takes from what is left what the schema of a number evaluates.
    #[cycle(accepts)]
    fn take_by_schema(
        &self,
        alloc: Global,
        number: usize,
        steps: usize,
        instance: &Value,
        left: &mut Vec<Child<'_>>,
    ) -> Result<(), AllocError>
        requires ready { IsReady E.outcome (MayTest T.Fn self.now.text_accepts.now)
            self.now.nodes.now }
        requires answers { (lists : Lists)
            × Tests T.Fn self.now.text_accepts.now E.outcome lists }
        requires few { steps ≤ length self.now.nodes.now }
        requires end { ends (schemas_of E.outcome self.now.nodes.now) steps number ≡ true }
        ensures { (lists : Lists) → Tests T.Fn self.now.text_accepts.now E.outcome lists
            → OnOk result ((j k : ℕ) → steps ≤ j
            → steps_for (length self.now.nodes.now) (view instance.now) steps ≤ k
            → Takes (λ s. Evaluates (schemas_of E.outcome self.now.nodes.now)
            (Reports (schemas_of E.outcome self.now.nodes.now) lists k) s j number
            (view instance.now)) left.old.items left.new.items) }
    {
        let Body::Keywords(keywords) = &self.nodes[number].body else {
            return Ok(());
        };
        for keyword in keywords {
            self.take_by_keyword(alloc, keywords, keyword, steps - 1, instance, left)?;
        }
        Ok(())
    }

    #[cycle(accepts)]
    fn take_by_keyword(
        &self,
        alloc: Global,
        beside: &[Keyword<E>],
        keyword: &Keyword<E>,
        steps: usize,
        instance: &Value,
        left: &mut Vec<Child<'_>>,
    ) -> Result<(), AllocError>
        requires ready { IsReady E.outcome (MayTest T.Fn self.now.text_accepts.now)
            self.now.nodes.now }
        requires answers { (lists : Lists)
            × Tests T.Fn self.now.text_accepts.now E.outcome lists }
        requires few { steps ≤ length self.now.nodes.now }
        requires this { IsKeywordReady E.outcome (MayTest T.Fn self.now.text_accepts.now)
            (length self.now.nodes.now) keyword.now }
        requires others { AllByRecursion (IsKeywordReady E.outcome
            (MayTest T.Fn self.now.text_accepts.now) (length self.now.nodes.now)) beside.now }
        requires end { list_all (ends (schemas_of E.outcome self.now.nodes.now) steps)
            (in_place (keyword_of E.outcome keyword.now)) ≡ true }
        ensures { (lists : Lists) → Tests T.Fn self.now.text_accepts.now E.outcome lists
            → OnOk result ((j k : ℕ) → steps ≤ j
            → steps_for (length self.now.nodes.now) (view instance.now) steps ≤ k
            → Takes (λ s. KeywordEvaluates
            (Reports (schemas_of E.outcome self.now.nodes.now) lists k)
            (Evaluates (schemas_of E.outcome self.now.nodes.now)
            (Reports (schemas_of E.outcome self.now.nodes.now) lists k) s j)
            (keywords_of E.outcome beside.now) (view instance.now) s
            (keyword_of E.outcome keyword.now)) left.old.items left.new.items) }
    {
        let Keyword::Rule(ruled) = keyword else {
            return Ok(());
        };
        match ruled.rule {
            Rule::Unevaluated(part) => {
                take_part(part, left);
                Ok(())
            }
            _ => self.take_evaluated(alloc, beside, ruled, steps, instance, left),
        }
    }

    // The targets of a keyword that count for what is evaluated.
    #[cycle(accepts)]
    fn spans<'a>(
        &self,
        alloc: Global,
        beside: &[Keyword<E>],
        ruled: &'a Ruled<E>,
        steps: usize,
        instance: &'a Value,
    ) -> Result<Vec<Target<'a>>, AllocError>
        requires ready { IsReady E.outcome (MayTest T.Fn self.now.text_accepts.now)
            self.now.nodes.now }
        requires answers { (lists : Lists)
            × Tests T.Fn self.now.text_accepts.now E.outcome lists }
        requires few { steps ≤ length self.now.nodes.now }
        requires this { IsRuledReady E.outcome (MayTest T.Fn self.now.text_accepts.now)
            (length self.now.nodes.now) ruled.now }
        requires others { AllByRecursion (IsKeywordReady E.outcome
            (MayTest T.Fn self.now.text_accepts.now) (length self.now.nodes.now)) beside.now }
        requires end { list_all (ends (schemas_of E.outcome self.now.nodes.now) steps)
            (in_place (ruled_of E.outcome ruled.now)) ≡ true }
        ensures { (lists : Lists) → Tests T.Fn self.now.text_accepts.now E.outcome lists
            → IfOk result (λ found. (k : ℕ)
            → steps_for (length self.now.nodes.now) (view instance.now) steps ≤ k
            → AreSpans (Reports (schemas_of E.outcome self.now.nodes.now) lists k)
            (keywords_of E.outcome beside.now) (ruled_of E.outcome ruled.now)
            (view instance.now) (targets_of found.items)) }
    {
        let verdicts = self.verdicts(alloc, ruled, steps, instance)?;
        if ruled.rule.counts_nothing() {
            return Ok(Vec::new(alloc));
        }
        self.reached(alloc, beside, ruled, instance, &verdicts)
    }

    // The targets of a keyword that its schemas annotate.
    pub(crate) fn annotated<'a>(
        &self,
        alloc: Global,
        beside: &[Keyword<E>],
        ruled: &'a Ruled<E>,
        steps: usize,
        instance: &'a Value,
    ) -> Result<Vec<Target<'a>>, AllocError>
        requires ready { IsReady E.outcome (MayTest T.Fn self.now.text_accepts.now)
            self.now.nodes.now }
        requires answers { (lists : Lists)
            × Tests T.Fn self.now.text_accepts.now E.outcome lists }
        requires few { steps ≤ length self.now.nodes.now }
        requires this { IsRuledReady E.outcome (MayTest T.Fn self.now.text_accepts.now)
            (length self.now.nodes.now) ruled.now }
        requires others { AllByRecursion (IsKeywordReady E.outcome
            (MayTest T.Fn self.now.text_accepts.now) (length self.now.nodes.now)) beside.now }
        requires ends { keywords_end (ends (schemas_of E.outcome self.now.nodes.now) steps)
            (keywords_of E.outcome beside.now) ≡ true }
        requires end { list_all (ends (schemas_of E.outcome self.now.nodes.now) steps)
            (in_place (ruled_of E.outcome ruled.now)) ≡ true }
        ensures { (lists : Lists) → Tests T.Fn self.now.text_accepts.now E.outcome lists
            → IfOk result (λ found. (k : ℕ) (site : Site)
            → steps_for (length self.now.nodes.now) (view instance.now) steps ≤ k
            → AreAnnotated (schemas_of E.outcome self.now.nodes.now)
            (Reports (schemas_of E.outcome self.now.nodes.now) lists k)
            (keywords_of E.outcome beside.now) (ruled_of E.outcome ruled.now)
            (view instance.now) site (targets_of found.items)) }
    {
        if let Rule::Unevaluated(part) = ruled.rule {
            let left = self.left(alloc, beside, part, steps, instance)?;
            return on_each(alloc, &ruled.branches, &left);
        }
        let verdicts = self.verdicts(alloc, ruled, steps, instance)?;
        if ruled.rule.annotates_nothing() {
            return Ok(Vec::new(alloc));
        }
        self.reached(alloc, beside, ruled, instance, &verdicts)
    }

    // The targets of a keyword that are valid, or have to be.
    fn reached<'a>(
        &self,
        alloc: Global,
        beside: &[Keyword<E>],
        ruled: &'a Ruled<E>,
        instance: &'a Value,
        verdicts: &[bool],
    ) -> Result<Vec<Target<'a>>, AllocError>
        requires this { IsRuledReady E.outcome (MayTest T.Fn self.now.text_accepts.now)
            (length self.now.nodes.now) ruled.now }
        requires others { AllByRecursion (IsKeywordReady E.outcome
            (MayTest T.Fn self.now.text_accepts.now) (length self.now.nodes.now)) beside.now }
        ensures { (lists : Lists) → Tests T.Fn self.now.text_accepts.now E.outcome lists
            → IfOk result (λ found. targets_of found.items
            ≡ reached (keywords_of E.outcome beside.now) (rule_of E.outcome ruled.now.rule)
            (branches_of ruled.now.branches.items) (view instance.now) verdicts.now) }
    {
        let mut reached = found_valid(alloc, ruled, instance, verdicts)?;
        reached.append(&mut self.applied(alloc, beside, ruled, instance, verdicts)?)?;
        Ok(reached)
    }
}

// The targets that a keyword tests and that are valid.
fn found_valid<'a, E>(
    alloc: Global,
    ruled: &'a Ruled<E>,
    instance: &'a Value,
    verdicts: &[bool],
) -> Result<Vec<Target<'a>>, AllocError>
    ensures { (outcome : E → List ℕ → Outcome) → IfOk result (λ found. targets_of found.items
        ≡ found_valid (rule_of outcome ruled.now.rule) (branches_of ruled.now.branches.items)
        (view instance.now) verdicts.now) }
{
    if ruled.rule.is_choice() {
        return Ok(Vec::new(alloc));
    }
    let tested = tested(alloc, &ruled.rule, &ruled.branches, instance)?;
    valid_of(alloc, tested, verdicts)
}
