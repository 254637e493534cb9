//! A compiled schema object, and what it says of instances.

ghost use Rattle.std.specs.Prelude.{◌++◌, ◌↔◌, ◌≡◌, IfOk, IsOk, IsTrue, List, OnErr, OnOk, Some, [], map, true};
ghost use Rattle.strkw_report.specs.Kinds.{Report};
ghost use Rattle.strkw_report.specs.declared.error.Site.{Site};
ghost use Rattle.strkw_keywords.specs.Demands.{IsInUse, all_quiet};
ghost use Rattle.strkw_keywords.specs.Errors.{Appends, NodeReports};
ghost use Rattle.strkw_keywords.specs.Handed.{lists_of};
ghost use Rattle.strkw_keywords.specs.Lengths.{IsEmpty};
ghost use Rattle.strkw_keywords.specs.Object.{remarks_on};
ghost use Rattle.strkw_keywords.specs.Remarks.{remark_of};
ghost use Rattle.strkw_keywords.specs.Validators.{assertions_in, demands_in, listed_remark, remark_made, remarks_in};
ghost use Rattle.strkw_keywords.specs.Verdicts.{IsVerdict};
ghost use Rattle.strkw_object.specs.Compiled.{keywords_assertions, keywords_demands, keywords_interval, keywords_remarks};

use std::alloc::{AllocError, Global};
use strkw_coding::laws::encodes_once;
use strkw_keywords::{Checks, Fault, Note, Uses, Validate, Validator};
use strkw_pattern::RegexEngine;
use strkw_report::{Node, Site, TextNode, ValidationError};

/// The string keywords of one schema object, compiled. Its four calls on an instance rest on one meaning: the errors
/// that the instance has by the schema object. Each asks that `uses` is true of the lists that it is given.
#[derive(Drop)]
pub struct StringKeywords<E> {
    pub(crate) validators: Vec<Validator<E>>,
}

/// The errors of an instance, and what is noted of it.
#[derive(Drop)]
pub struct ObjectEvaluation {
    /// The errors, in the order of the entries.
    pub errors: Vec<ValidationError>,
    /// The notes, in the order of the entries.
    pub notes: Vec<Note>,
}

impl<E: RegexEngine> StringKeywords<E> {
    /// The validators of its entries, in their order: what they demand and note together is what the object does.
    pub fn validators(&self) -> &[Validator<E>]
        ensures demands { demands_in E.outcome result.now ≡ keywords_demands E.outcome self.now }
        ensures asserts { assertions_in E.outcome result.now
            ≡ keywords_assertions E.outcome self.now }
        ensures notes { remarks_in result.now ≡ keywords_remarks self.now }
    {
        &self.validators
    }

    /// Whether these lists of checks may be handed in with an instance: each registered check, media type and codec
    /// that was chosen at compile is, by its name, the first row of that name, at the position that it had. So it is
    /// with the lists of compile; and with empty lists, where no row was chosen.
    pub fn uses(&self, checks: &Checks) -> bool
        ensures { IsTrue result ↔ IsInUse (keywords_demands E.outcome self.now)
            (lists_of admits accepts is_encoding decoding checks.now) }
    {
        for validator in &self.validators {
            if !validator.uses(checks) {
                return false;
            }
        }
        true
    }

    /// Whether `is_valid` takes no memory, and so always answers: where there is no content check, no registered
    /// check and no pattern that an engine matches.
    pub fn takes_no_memory(&self) -> bool
        ensures { result ≡ all_quiet (keywords_demands E.outcome self.now) }
    {
        for validator in &self.validators {
            if !validator.takes_no_memory() {
                return false;
            }
        }
        true
    }

    /// Whether no length is left to a text: whether no number of characters is at least `minLength`, at most
    /// `maxLength` and, where a built-in format is checked, inside its `length_window`. An open end, and a check that
    /// the caller registered, bound no length. It takes no memory.
    ///
    /// Where it is true, every text has an error. Where it is false, some text has none if only lengths can make
    /// errors; beside a checked format, a pattern or a content check nothing is said.
    pub fn folds_to_false(&self) -> bool
        ensures { IsTrue result ↔ IsEmpty (keywords_interval E.outcome self.now) }
    {
        let mut least = 0u64;
        let mut greatest = u64::MAX;
        for validator in &self.validators {
            let (low, high) = validator.interval();
            least = least.max(low);
            greatest = greatest.min(high);
        }
        greatest < least
    }

    /// Whether an instance has no errors, under lists of which `uses` is true. The only error is out of memory, and
    /// none where `takes_no_memory` is true.
    pub fn is_valid<N: Node>(
        &self,
        alloc: Global,
        node: &N,
        checks: &Checks,
    ) -> Result<bool, AllocError>
        requires { IsInUse (keywords_demands E.outcome self.now)
            (lists_of admits accepts is_encoding decoding checks.now) }
        ensures exact { IfOk result (λ b. (site : Site) → (IsTrue b
            ↔ NodeReports (keywords_assertions E.outcome self.now)
            (lists_of admits accepts is_encoding decoding checks.now) site (N.text node.now) [])) }
        ensures answers { all_quiet (keywords_demands E.outcome self.now) ≡ true → IsOk result }
    {
        encodes_once();
        let Some(text) = TextNode::of(node) else {
            return Ok(true);
        };
        for validator in &self.validators {
            if !validator.findings(alloc, &text, checks)?.is_empty() {
                return Ok(false);
            }
        }
        Ok(true)
    }

    /// Appends the errors of an instance, in the order of the entries, each with the place of its keyword in the schema
    /// and on the way of evaluation, and with the place of the instance. The lists are such that `uses` is true of
    /// them. The only error is out of memory; the vector then holds what it held.
    pub fn collect_errors<N: Node>(
        &self,
        alloc: Global,
        node: &N,
        site: &Site,
        checks: &Checks,
        errors: &mut Vec<ValidationError>,
    ) -> Result<(), AllocError>
        requires { IsInUse (keywords_demands E.outcome self.now)
            (lists_of admits accepts is_encoding decoding checks.now) }
        ensures appended { OnOk result (Appends
            (NodeReports (keywords_assertions E.outcome self.now)
            (lists_of admits accepts is_encoding decoding checks.now) site.now (N.text node.now))
            errors.old.items errors.new.items) }
        ensures kept { OnErr result (errors.new.items ≡ errors.old.items) }
    {
        let Some(text) = TextNode::of(node) else {
            return Ok(());
        };
        let held = errors.len();
        let result = self.append_errors(alloc, &text, site, checks, errors);
        if result.is_err() {
            errors.truncate(held);
        }
        result
    }

    /// `Ok` where an instance has no errors, under lists of which `uses` is true.
    ///
    /// Errors: `Fault::Invalid` of the first of the errors that `collect_errors` appends, and `Fault::Memory` where
    /// it is out of memory.
    pub fn validate<N: Node>(
        &self,
        alloc: Global,
        node: &N,
        site: &Site,
        checks: &Checks,
    ) -> Result<(), Fault>
        requires { IsInUse (keywords_demands E.outcome self.now)
            (lists_of admits accepts is_encoding decoding checks.now) }
        ensures { IsVerdict (keywords_assertions E.outcome self.now)
            (lists_of admits accepts is_encoding decoding checks.now) site.now
            (N.text node.now) result }
    {
        let Some(text) = TextNode::of(node) else {
            return Ok(());
        };
        for validator in &self.validators {
            match validator.validate_text(alloc, &text, site, checks) {
                Ok(()) => {}
                Err(fault) => return Err(fault),
            }
        }
        Ok(())
    }

    /// The errors of an instance, and what is noted of it where it is a text, whether it has errors or not, under lists
    /// of which `uses` is true. The only error is out of memory.
    pub fn evaluate<N: Node>(
        &self,
        alloc: Global,
        node: &N,
        site: &Site,
        checks: &Checks,
    ) -> Result<ObjectEvaluation, AllocError>
        requires { IsInUse (keywords_demands E.outcome self.now)
            (lists_of admits accepts is_encoding decoding checks.now) }
        ensures errors { IfOk result (λ r. NodeReports (keywords_assertions E.outcome self.now)
            (lists_of admits accepts is_encoding decoding checks.now) site.now (N.text node.now)
            r.errors.items) }
        ensures notes { IfOk result (λ r. map remark_of r.notes.items
            ≡ remarks_on (N.text node.now) (keywords_remarks self.now)) }
    {
        let mut errors = Vec::new(alloc);
        let mut notes = Vec::new(alloc);
        if let Some(text) = TextNode::of(node) {
            self.append_errors(alloc, &text, site, checks, &mut errors)?;
            notes = self.notes(alloc)?;
        }
        Ok(ObjectEvaluation { errors, notes })
    }

    // Appends the errors of a text, or some of them where it is out of memory.
    fn append_errors<N: Node>(
        &self,
        alloc: Global,
        text: &TextNode<'_, N>,
        site: &Site,
        checks: &Checks,
        errors: &mut Vec<ValidationError>,
    ) -> Result<(), AllocError>
        requires { IsInUse (keywords_demands E.outcome self.now)
            (lists_of admits accepts is_encoding decoding checks.now) }
        ensures appended { OnOk result (Appends
            (NodeReports (keywords_assertions E.outcome self.now)
            (lists_of admits accepts is_encoding decoding checks.now) site.now (Some text.now))
            errors.old.items errors.new.items) }
        ensures err { OnErr result ((more : List Report)
            × (errors.new.items ≡ errors.old.items ++ more)) }
    {
        for validator in &self.validators {
            validator.push_errors(alloc, text, site, checks, errors)?;
        }
        Ok(())
    }

    // What is noted of texts.
    fn notes(&self, alloc: Global) -> Result<Vec<Note>, AllocError>
        ensures { IfOk result (λ notes. map remark_of notes.items ≡ keywords_remarks self.now) }
    {
        let mut notes = Vec::new(alloc);
        for validator in &self.validators {
            push_note(alloc, validator, &mut notes)?;
        }
        Ok(notes)
    }
}

// Appends what a validator notes of texts, if it notes anything.
fn push_note<E: RegexEngine>(
    alloc: Global,
    validator: &Validator<E>,
    notes: &mut Vec<Note>,
) -> Result<(), AllocError>
    ensures { OnOk result (map remark_of notes.new.items ≡ map remark_of notes.old.items
        ++ listed_remark (remark_made validator.now)) }
{
    if let Some(note) = validator.note(alloc)? {
        notes.push(note)?;
    }
    Ok(())
}
