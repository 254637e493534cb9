//! The errors of an instance, in the order of the keywords.

ghost use Rattle.std.specs.Prelude.{◌≡◌, ◌<◌, ◌≤◌, ◌∷◌, ℕ, IfOk, OnOk, [], length, map, string_bytes, true};
ghost use Rattle.std.specs.List.{AllByRecursion, list_all};
ghost use Rattle.serde_json.specs.View.{view};
ghost use Rattle.strkw_keywords.specs.Meanings.{Lists};
ghost use Rattle.neldrafi_schema.specs.Errors.{of_text};
ghost use Rattle.neldrafi_schema.specs.Meaning.{KeywordReports, Reports, absolute_below, error_of, error_of_false, site_of};
ghost use Rattle.neldrafi_schema.specs.Refusals.{ends, in_place, keywords_end};
ghost use Rattle.neldrafi_schema.specs.machine.Closures.{Finds, MayFind, MayTest, Tests};
ghost use Rattle.neldrafi_schema.specs.machine.Compiled.{header_of, keyword_of, keywords_of, ruled_of, schemas_of, seen_data, target_of};
ghost use Rattle.neldrafi_schema.specs.machine.Found.{Appended, kind_of, kinds_of};
ghost use Rattle.neldrafi_schema.specs.machine.Ready.{IsKeywordReady, IsReady, IsRuledReady, steps_for};

use crate::error::{ErrorKind, Failure, TextFailure, ValidationError};
use crate::headers::absolute_below;
use crate::node::{Body, Header, Keyword, Node, Ruled};
use crate::targets::Target;
use crate::validity::Checker;
use serde_json::Value;
use std::alloc::{AllocError, Global};
use strkw_keywords::Validator;
use strkw_pattern::RegexEngine;
use strkw_report::{Site, ValidationError as TextError};

/// An instance that is visited, with its place and that of the schema on the way of evaluation.
#[derive(Clone, Copy)]
pub(crate) struct Visit<'a> {
    pub instance: &'a Value,
    pub site: &'a Site,
}

/// A checker, and what finds the errors of a text by a string keyword.
#[derive(Clone, Copy)]
pub(crate) struct Collector<'s, E, T, F> {
    pub checker: Checker<'s, E, T>,
    pub text_errors: &'s F,
}

impl<E, T, F> Collector<'_, E, T, F>
where
    E: RegexEngine,
    T: Fn(&Validator<E>, Option<&str>) -> Result<bool, AllocError>,
    F: Fn(&Validator<E>, Option<&str>, &Site) -> Result<Vec<TextError>, AllocError>,
{
    // Appends the errors of an instance by the schema of a number, or some of them where it is out of memory. The ways
    // from the schema that do not enter the instance end within so many steps.
    #[cycle(push)]
    pub(crate) fn push_errors(
        &self,
        alloc: Global,
        number: usize,
        steps: usize,
        visit: &Visit<'_>,
        errors: &mut Vec<ValidationError>,
    ) -> Result<(), AllocError>
        requires tests { IsReady E.outcome (MayTest T.Fn self.now.checker.text_accepts.now)
            self.now.checker.nodes.now }
        requires finds { IsReady E.outcome (MayFind F.Fn self.now.text_errors.now)
            self.now.checker.nodes.now }
        requires answers { (lists : Lists)
            × Tests T.Fn self.now.checker.text_accepts.now E.outcome lists }
        requires few { steps ≤ length self.now.checker.nodes.now }
        requires end { ends (schemas_of E.outcome self.now.checker.nodes.now) steps number ≡ true }
        ensures { (lists : Lists) → Tests T.Fn self.now.checker.text_accepts.now E.outcome lists
            → Finds F.Fn self.now.text_errors.now E.outcome lists → (k : ℕ)
            → steps_for (length self.now.checker.nodes.now) (view visit.now.instance.now) steps ≤ k
            → OnOk result (Appended (Reports (schemas_of E.outcome self.now.checker.nodes.now)
            lists k number (view visit.now.instance.now) visit.now.site.now)
            errors.old.items errors.new.items) }
    {
        let node = &self.checker.nodes[number];
        match &node.body {
            Body::Always => Ok(()),
            Body::Never => push_false(node, visit, errors),
            Body::Keywords(keywords) => {
                for keyword in keywords {
                    self.push_keyword(alloc, node, keywords, keyword, steps - 1, visit, errors)?;
                }
                Ok(())
            }
        }
    }

    #[cycle(push)]
    fn push_keyword(
        &self,
        alloc: Global,
        node: &Node<E>,
        beside: &[Keyword<E>],
        keyword: &Keyword<E>,
        steps: usize,
        visit: &Visit<'_>,
        errors: &mut Vec<ValidationError>,
    ) -> Result<(), AllocError>
        requires tests { IsReady E.outcome (MayTest T.Fn self.now.checker.text_accepts.now)
            self.now.checker.nodes.now }
        requires finds { IsReady E.outcome (MayFind F.Fn self.now.text_errors.now)
            self.now.checker.nodes.now }
        requires answers { (lists : Lists)
            × Tests T.Fn self.now.checker.text_accepts.now E.outcome lists }
        requires few { steps ≤ length self.now.checker.nodes.now }
        requires this { IsKeywordReady E.outcome (MayFind F.Fn self.now.text_errors.now)
            (length self.now.checker.nodes.now) keyword.now }
        requires also { IsKeywordReady E.outcome (MayTest T.Fn self.now.checker.text_accepts.now)
            (length self.now.checker.nodes.now) keyword.now }
        requires others { AllByRecursion (IsKeywordReady E.outcome
            (MayTest T.Fn self.now.checker.text_accepts.now)
            (length self.now.checker.nodes.now)) beside.now }
        requires ends { keywords_end (ends (schemas_of E.outcome self.now.checker.nodes.now)
            steps) (keywords_of E.outcome beside.now) ≡ true }
        requires end { list_all (ends (schemas_of E.outcome self.now.checker.nodes.now) steps)
            (in_place (keyword_of E.outcome keyword.now)) ≡ true }
        ensures { (lists : Lists) → Tests T.Fn self.now.checker.text_accepts.now E.outcome lists
            → Finds F.Fn self.now.text_errors.now E.outcome lists → (k : ℕ)
            → steps_for (length self.now.checker.nodes.now) (view visit.now.instance.now) steps ≤ k
            → OnOk result (Appended (KeywordReports
            (schemas_of E.outcome self.now.checker.nodes.now)
            (Reports (schemas_of E.outcome self.now.checker.nodes.now) lists k) lists
            (header_of node.now.header)
            (keywords_of E.outcome beside.now) (keyword_of E.outcome keyword.now)
            (view visit.now.instance.now) visit.now.site.now) errors.old.items errors.new.items) }
    {
        match keyword {
            Keyword::Rule(ruled) => {
                self.push_rule(alloc, node, beside, ruled, steps, visit, errors)
            }
            Keyword::Text(keyword, validator) => {
                let found = (self.text_errors)(validator, visit.instance.as_str(), visit.site)?;
                push_texts(alloc, found, &node.header, keyword.as_str(), errors)
            }
        }
    }

    #[cycle(push)]
    fn push_rule(
        &self,
        alloc: Global,
        node: &Node<E>,
        beside: &[Keyword<E>],
        ruled: &Ruled<E>,
        steps: usize,
        visit: &Visit<'_>,
        errors: &mut Vec<ValidationError>,
    ) -> Result<(), AllocError>
        requires tests { IsReady E.outcome (MayTest T.Fn self.now.checker.text_accepts.now)
            self.now.checker.nodes.now }
        requires finds { IsReady E.outcome (MayFind F.Fn self.now.text_errors.now)
            self.now.checker.nodes.now }
        requires answers { (lists : Lists)
            × Tests T.Fn self.now.checker.text_accepts.now E.outcome lists }
        requires few { steps ≤ length self.now.checker.nodes.now }
        requires this { IsRuledReady E.outcome (MayTest T.Fn self.now.checker.text_accepts.now)
            (length self.now.checker.nodes.now) ruled.now }
        requires others { AllByRecursion (IsKeywordReady E.outcome
            (MayTest T.Fn self.now.checker.text_accepts.now)
            (length self.now.checker.nodes.now)) beside.now }
        requires ends { keywords_end (ends (schemas_of E.outcome self.now.checker.nodes.now)
            steps) (keywords_of E.outcome beside.now) ≡ true }
        requires end { list_all (ends (schemas_of E.outcome self.now.checker.nodes.now) steps)
            (in_place (ruled_of E.outcome ruled.now)) ≡ true }
        ensures { (lists : Lists) → Tests T.Fn self.now.checker.text_accepts.now E.outcome lists
            → Finds F.Fn self.now.text_errors.now E.outcome lists → (k : ℕ)
            → steps_for (length self.now.checker.nodes.now) (view visit.now.instance.now) steps ≤ k
            → OnOk result (Appended (KeywordReports
            (schemas_of E.outcome self.now.checker.nodes.now)
            (Reports (schemas_of E.outcome self.now.checker.nodes.now) lists k) lists
            (header_of node.now.header)
            (keywords_of E.outcome beside.now) (ruled_of E.outcome ruled.now)
            (view visit.now.instance.now) visit.now.site.now) errors.old.items errors.new.items) }
    {
        let checker = &self.checker;
        let (kinds, targets) = checker.findings(alloc, beside, ruled, steps, visit.instance)?;
        push_kinds(
            alloc,
            ruled.name.as_str(),
            kinds,
            &node.header,
            visit,
            errors,
        )?;
        let left = checker.steps_below(ruled, steps);
        for target in &targets {
            self.push_target(alloc, ruled, target, left, visit, errors)?;
        }
        Ok(())
    }

    #[cycle(push)]
    fn push_target(
        &self,
        alloc: Global,
        ruled: &Ruled<E>,
        target: &Target<'_>,
        steps: usize,
        visit: &Visit<'_>,
        errors: &mut Vec<ValidationError>,
    ) -> Result<(), AllocError>
        requires tests { IsReady E.outcome (MayTest T.Fn self.now.checker.text_accepts.now)
            self.now.checker.nodes.now }
        requires finds { IsReady E.outcome (MayFind F.Fn self.now.text_errors.now)
            self.now.checker.nodes.now }
        requires answers { (lists : Lists)
            × Tests T.Fn self.now.checker.text_accepts.now E.outcome lists }
        requires few { steps ≤ length self.now.checker.nodes.now }
        requires end { ends (schemas_of E.outcome self.now.checker.nodes.now) steps
            target.now.schema ≡ true }
        ensures { (lists : Lists) → Tests T.Fn self.now.checker.text_accepts.now E.outcome lists
            → Finds F.Fn self.now.text_errors.now E.outcome lists → (k : ℕ)
            → steps_for (length self.now.checker.nodes.now) (seen_data target.now.value) steps ≤ k
            → OnOk result (Appended (Reports (schemas_of E.outcome self.now.checker.nodes.now)
            lists k target.now.schema (seen_data target.now.value)
            (site_of visit.now.site.now (string_bytes ruled.now.name) (target_of target.now)))
            errors.old.items errors.new.items) }
    {
        let site = site_of(alloc, visit.site, ruled.name.as_str(), target)?;
        let below = Visit {
            instance: target.value.as_value(),
            site: &site,
        };
        self.push_errors(alloc, target.schema, steps, &below, errors)
    }
}

// Where the schema and the value of a target stand.
pub(crate) fn site_of(
    alloc: Global,
    site: &Site,
    word: &str,
    target: &Target<'_>,
) -> Result<Site, AllocError>
    ensures { IfOk result (λ below. below ≡ site_of site.now word.now (target_of target.now)) }
{
    let mut evaluation = site.evaluation.join(word)?;
    if let Some(step) = target.way {
        evaluation = step.below(alloc, &evaluation)?;
    }
    let instance = match target.inside {
        Some(step) => step.below(alloc, &site.instance)?,
        None => site.instance.clone()?,
    };
    Ok(Site {
        evaluation,
        instance,
    })
}

// Appends the errors of a string keyword of a schema.
fn push_texts(
    alloc: Global,
    found: Vec<TextError>,
    header: &Header,
    keyword: &str,
    errors: &mut Vec<ValidationError>,
) -> Result<(), AllocError>
    ensures { OnOk result (Appended (λ es. es ≡ map (of_text (absolute_below
        (string_bytes header.now.absolute) keyword.now)) found.items)
        errors.old.items errors.new.items) }
{
    for error in found {
        let absolute = absolute_below(alloc, header, keyword)?;
        errors.push(ValidationError::Text(TextFailure { error, absolute }))?;
    }
    Ok(())
}

// Appends the errors of a keyword of a schema.
fn push_kinds(
    alloc: Global,
    keyword: &str,
    kinds: Vec<ErrorKind>,
    header: &Header,
    visit: &Visit<'_>,
    errors: &mut Vec<ValidationError>,
) -> Result<(), AllocError>
    ensures { OnOk result (Appended (λ es. es ≡ map (error_of (header_of header.now)
        visit.now.site.now keyword.now (view visit.now.instance.now)) (kinds_of kinds.items))
        errors.old.items errors.new.items) }
{
    for kind in kinds {
        push_at(alloc, keyword, kind, header, visit, errors)?;
    }
    Ok(())
}

// Appends the error of a keyword of a schema.
fn push_at(
    alloc: Global,
    keyword: &str,
    kind: ErrorKind,
    header: &Header,
    visit: &Visit<'_>,
    errors: &mut Vec<ValidationError>,
) -> Result<(), AllocError>
    ensures { OnOk result (Appended (λ es. es ≡ error_of (header_of header.now)
        visit.now.site.now keyword.now (view visit.now.instance.now) (kind_of kind) ∷ [])
        errors.old.items errors.new.items) }
{
    let failure = Failure {
        kind,
        instance: visit.instance.clone()?,
        schema_path: header.location.join(keyword)?,
        evaluation_path: visit.site.evaluation.join(keyword)?,
        instance_path: visit.site.instance.clone()?,
        absolute: absolute_below(alloc, header, keyword)?,
    };
    errors.push(ValidationError::Failed(failure))?;
    Ok(())
}

// Appends the error of the schema `false`.
fn push_false<E>(
    node: &Node<E>,
    visit: &Visit<'_>,
    errors: &mut Vec<ValidationError>,
) -> Result<(), AllocError>
    ensures { OnOk result (Appended (λ es. es ≡ error_of_false (header_of node.now.header)
        visit.now.site.now (view visit.now.instance.now) ∷ []) errors.old.items errors.new.items) }
{
    let failure = Failure {
        kind: ErrorKind::FalseSchema,
        instance: visit.instance.clone()?,
        schema_path: node.header.location.clone()?,
        evaluation_path: visit.site.evaluation.clone()?,
        instance_path: visit.site.instance.clone()?,
        absolute: node.header.absolute.clone()?,
    };
    errors.push(ValidationError::Failed(failure))?;
    Ok(())
}
