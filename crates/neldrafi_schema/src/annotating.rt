//! The annotations of an instance that is valid, in the order of the keywords.

ghost use Rattle.std.specs.Prelude.{◌≡◌, ◌≤◌, ◌∷◌, ℕ, List, OnOk, [], length, map, string_bytes, true};
ghost use Rattle.std.specs.List.{AllByRecursion, filter, list_all};
ghost use Rattle.serde_json.specs.View.{view};
ghost use Rattle.strkw_keywords.specs.Meanings.{Lists};
ghost use Rattle.neldrafi_schema.specs.Annotations.{Annotates, KeywordAnnotates, annotation_of, applies, own_annotations};
ghost use Rattle.neldrafi_schema.specs.Meaning.{Reports, site_of};
ghost use Rattle.neldrafi_schema.specs.Refusals.{ends, in_place, keywords_end};
ghost use Rattle.neldrafi_schema.specs.machine.Annotated.{Annotated};
ghost use Rattle.neldrafi_schema.specs.machine.Closures.{MayTest, Tests};
ghost use Rattle.neldrafi_schema.specs.machine.Compiled.{header_of, keyword_of, keywords_of, note_of, schemas_of, seen_data, target_of};
ghost use Rattle.neldrafi_schema.specs.machine.Ready.{IsKeywordReady, IsReady, steps_for};

use crate::annotation::Annotation;
use crate::collecting::{Visit, site_of};
use crate::headers::absolute_below;
use crate::node::{Body, Header, Keyword, Note, Ruled};
use crate::targets::Target;
use crate::validity::Checker;
use serde_json::Value;
use std::alloc::{AllocError, Global};
use strkw_keywords::Validator;
use strkw_pattern::RegexEngine;

impl<E: RegexEngine, T: Fn(&Validator<E>, Option<&str>) -> Result<bool, AllocError>> Checker<
    '_,
    E,
    T,
> {
    // Appends the annotations of an instance that is valid by the schema of a number, or some of them if it is out of
    // memory. The ways from the schema that do not enter the instance end within so many steps.
    #[cycle(annotate)]
    pub(crate) fn annotate(
        &self,
        alloc: Global,
        number: usize,
        steps: usize,
        visit: &Visit<'_>,
        found: &mut Vec<Annotation>,
    ) -> Result<(), AllocError>
        requires ready { IsReady E.outcome (MayTest T.Fn self.now.text_accepts.now)
            self.now.nodes.now }
        requires answers { (lists : Lists)
            × Tests T.Fn self.now.text_accepts.now E.outcome lists }
        requires few { steps ≤ length self.now.nodes.now }
        requires end { ends (schemas_of E.outcome self.now.nodes.now) steps number ≡ true }
        ensures { (lists : Lists) → Tests T.Fn self.now.text_accepts.now E.outcome lists → (k : ℕ)
            → steps_for (length self.now.nodes.now) (view visit.now.instance.now) steps ≤ k
            → OnOk result (Annotated (Annotates (schemas_of E.outcome self.now.nodes.now)
            lists k number (view visit.now.instance.now) visit.now.site.now)
            found.old.items found.new.items) }
    {
        let node = &self.nodes[number];
        let Body::Keywords(keywords) = &node.body else {
            return Ok(());
        };
        push_own(alloc, &node.header, visit, found)?;
        for keyword in keywords {
            self.annotate_by_keyword(alloc, keywords, keyword, steps - 1, visit, found)?;
        }
        Ok(())
    }

    #[cycle(annotate)]
    fn annotate_by_keyword(
        &self,
        alloc: Global,
        beside: &[Keyword<E>],
        keyword: &Keyword<E>,
        steps: usize,
        visit: &Visit<'_>,
        found: &mut Vec<Annotation>,
    ) -> Result<(), AllocError>
        requires ready { IsReady E.outcome (MayTest T.Fn self.now.text_accepts.now)
            self.now.nodes.now }
        requires answers { (lists : Lists)
            × Tests T.Fn self.now.text_accepts.now E.outcome lists }
        requires few { steps ≤ length self.now.nodes.now }
        requires this { IsKeywordReady E.outcome (MayTest T.Fn self.now.text_accepts.now)
            (length self.now.nodes.now) keyword.now }
        requires others { AllByRecursion (IsKeywordReady E.outcome
            (MayTest T.Fn self.now.text_accepts.now) (length self.now.nodes.now)) beside.now }
        requires ends { keywords_end (ends (schemas_of E.outcome self.now.nodes.now) steps)
            (keywords_of E.outcome beside.now) ≡ true }
        requires end { list_all (ends (schemas_of E.outcome self.now.nodes.now) steps)
            (in_place (keyword_of E.outcome keyword.now)) ≡ true }
        ensures { (lists : Lists) → Tests T.Fn self.now.text_accepts.now E.outcome lists → (k : ℕ)
            → steps_for (length self.now.nodes.now) (view visit.now.instance.now) steps ≤ k
            → OnOk result (Annotated (KeywordAnnotates
            (schemas_of E.outcome self.now.nodes.now)
            (Reports (schemas_of E.outcome self.now.nodes.now) lists k)
            (Annotates (schemas_of E.outcome self.now.nodes.now) lists k)
            (keywords_of E.outcome beside.now) (keyword_of E.outcome keyword.now)
            (view visit.now.instance.now) visit.now.site.now) found.old.items found.new.items) }
    {
        let Keyword::Rule(ruled) = keyword else {
            return Ok(());
        };
        let left = self.steps_below(ruled, steps);
        for target in &self.annotated(alloc, beside, ruled, steps, visit.instance)? {
            self.annotate_by_target(alloc, ruled, target, left, visit, found)?;
        }
        Ok(())
    }

    #[cycle(annotate)]
    fn annotate_by_target(
        &self,
        alloc: Global,
        ruled: &Ruled<E>,
        target: &Target<'_>,
        steps: usize,
        visit: &Visit<'_>,
        found: &mut Vec<Annotation>,
    ) -> Result<(), AllocError>
        requires ready { IsReady E.outcome (MayTest T.Fn self.now.text_accepts.now)
            self.now.nodes.now }
        requires answers { (lists : Lists)
            × Tests T.Fn self.now.text_accepts.now E.outcome lists }
        requires few { steps ≤ length self.now.nodes.now }
        requires end { ends (schemas_of E.outcome self.now.nodes.now) steps
            target.now.schema ≡ true }
        ensures { (lists : Lists) → Tests T.Fn self.now.text_accepts.now E.outcome lists → (k : ℕ)
            → steps_for (length self.now.nodes.now) (seen_data target.now.value) steps ≤ k
            → OnOk result (Annotated (Annotates (schemas_of E.outcome self.now.nodes.now)
            lists k target.now.schema (seen_data target.now.value)
            (site_of visit.now.site.now (string_bytes ruled.now.name) (target_of target.now)))
            found.old.items found.new.items) }
    {
        let site = site_of(alloc, visit.site, ruled.name.as_str(), target)?;
        let below = Visit {
            instance: target.value.as_value(),
            site: &site,
        };
        self.annotate(alloc, target.schema, steps, &below, found)
    }
}

// Appends what the keywords of a schema annotate themselves.
fn push_own(
    alloc: Global,
    header: &Header,
    visit: &Visit<'_>,
    found: &mut Vec<Annotation>,
) -> Result<(), AllocError>
    ensures { OnOk result (Annotated (λ l. l ≡ own_annotations (header_of header.now)
        (view visit.now.instance.now) visit.now.site.now) found.old.items found.new.items) }
{
    for note in &header.notes {
        push_note(alloc, header, note, visit, found)?;
    }
    Ok(())
}

// Whether an annotation is of an instance: that of `format` and of content is of strings.
fn applies(note: &Note, instance: &Value) -> bool
    ensures { result ≡ applies (view instance.now) (note_of note.now) }
{
    !note.of_texts || instance.is_string()
}

// Appends an annotation, if it is of the instance.
fn push_note(
    alloc: Global,
    header: &Header,
    note: &Note,
    visit: &Visit<'_>,
    found: &mut Vec<Annotation>,
) -> Result<(), AllocError>
    ensures { OnOk result (Annotated (λ l. l ≡ map (annotation_of (header_of header.now)
        visit.now.site.now) (filter (applies (view visit.now.instance.now))
        (note_of note.now ∷ []))) found.old.items found.new.items) }
{
    if !applies(note, visit.instance) {
        return Ok(());
    }
    let keyword = note.keyword.as_str();
    found.push(Annotation {
        keyword: note.keyword.clone()?,
        value: note.value.clone()?,
        schema_path: header.location.join(keyword)?,
        evaluation_path: visit.site.evaluation.join(keyword)?,
        instance_path: visit.site.instance.clone()?,
        absolute: absolute_below(alloc, header, keyword)?,
    })?;
    Ok(())
}
