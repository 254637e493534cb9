//! What every validator answers. An implementor gives two methods, `parts` and `findings`; the others rest on them.

ghost use Rattle.std.specs.Prelude.{◌↔◌, ◌≡◌, IfOk, IsOk, IsTrue, List, None, OnErr, OnOk, Option, Some, [], option_map, true};
ghost use Rattle.serde_json.specs.View.{view};
ghost use Rattle.strkw_report.specs.declared.error.Site.{Site};
ghost use Rattle.strkw_keywords.specs.Demands.{Demand, Finds, IsInUse, all_quiet};
ghost use Rattle.strkw_keywords.specs.Errors.{Appends, NodeReports, assertions_at};
ghost use Rattle.strkw_keywords.specs.Findings.{findings_of};
ghost use Rattle.strkw_keywords.specs.Lists.{lists_of};
ghost use Rattle.strkw_keywords.specs.Meanings.{Lists};
ghost use Rattle.strkw_keywords.specs.Parts.{RowsAreFirst, noted_remark};
ghost use Rattle.strkw_keywords.specs.Places.{Place};
ghost use Rattle.strkw_keywords.specs.Remarks.{Remark, annotation_of, remark_of};
ghost use Rattle.strkw_keywords.specs.Verdicts.{IsVerdict};

use crate::checks::{Checks, ContentCodec, Format, MediaTypeCheck};
use crate::findings::{Found, error_of, push_findings};
use crate::parts::{Note, Origin, Parts};
use std::alloc::{AllocError, Global};
use std::error::Error;
use std::fmt;
use strkw_coding::laws::encodes_once;
use strkw_report::{EvaluationResult, Node, Site, TextNode, ValidationError};

/// Why a node was not found valid.
#[derive(Debug, Drop)]
pub enum Fault {
    /// The first of its errors.
    Invalid(ValidationError),
    /// Out of memory.
    Memory,
}

impl From<AllocError> for Fault {
    ghost use Rattle.strkw_keywords.specs.declared.validate.Fault.TheVariants.{Memory};

    ghost from_gives = { λ _ f. f ≡ Memory };

    fn from(_: AllocError) -> Fault {
        Fault::Memory
    }
}

/// The text of the error, as `ValidationError::text` gives it, or `out of memory`.
impl fmt::Display for Fault {
    fn fmt<W: fmt::Write>(&self, f: &mut fmt::Formatter<W>) -> fmt::Result {
        match self {
            Fault::Invalid(error) => write!(f, "{error}"),
            Fault::Memory => f.write_str("out of memory"),
        }
    }
}

impl Error for Fault {}

/// What a validator demands and notes, and on which of the caller's rows it rests.
pub trait Uses {
    /// Where its schema object stands.
    ghost place: { Self → Place };

    /// What it demands of a text, in the order of its errors: nothing, unless an implementor says more.
    ghost demands: { Self → List Demand } = { λ _. [] };

    /// What it notes of every text, if it notes anything: it does not, unless an implementor says so.
    ghost remark: { Self → Option Remark } = { λ _. None };

    /// What it is, beside its test of a text: `origin`, `note`, `takes_no_memory` and `uses` rest on it.
    fn parts(&self) -> Parts<'_>
        ensures origin { result.origin.now ≡ place self.now }
        ensures noted { noted_remark (place self.now).schema result.noted ≡ remark self.now }
        ensures quiet { result.is_quiet ≡ all_quiet (demands self.now) }
        ensures rows { (lists : Lists) → RowsAreFirst result lists
            ↔ IsInUse (demands self.now) lists };

    /// Where its schema object stands.
    final fn origin(&self) -> &Origin
        ensures { result.now ≡ place self.now }
    {
        self.parts().origin
    }

    /// What it notes of every text, if it notes anything. It does not look at errors. The only error is out of memory.
    final fn note(&self, alloc: Global) -> Result<Option<Note>, AllocError>
        ensures { IfOk result (λ o. option_map remark_of o ≡ remark self.now) }
    {
        let parts = self.parts();
        let origin = parts.origin;
        match parts.noted {
            None => Ok(None),
            Some(noted) => Ok(Some(noted.note(alloc, &origin.location)?)),
        }
    }

    /// Whether its test of a text takes no memory, so that `is_valid` always answers: in all validators but the three
    /// content checks, `CustomFormatValidator` and `PatternValidator`.
    final fn takes_no_memory(&self) -> bool
        ensures { result ≡ all_quiet (demands self.now) }
    {
        self.parts().is_quiet
    }

    /// Whether the lists have what it keeps: at each position that it kept when it was compiled there is a row of the
    /// kept name, and no earlier row has that name. So it is with the lists that it was compiled with; and with empty
    /// lists, where it keeps no position.
    final fn uses(&self, checks: &Checks) -> bool
        ensures { IsTrue result ↔ IsInUse (demands self.now)
            (lists_of admits accepts is_encoding decoding checks.now) }
    {
        self.parts().rows_are_first(checks)
    }
}

/// A validator of the nodes of one representation. Its four calls rest on one meaning: the errors that a node has of
/// what the validator demands. Each asks that `uses` is true of the lists that it is given.
pub trait Validate<N: Node>: Uses {
    /// What a text fails at, in the order of the errors. The only error is out of memory, and none where
    /// `takes_no_memory` is true.
    fn findings(&self, alloc: Global, text: &TextNode<'_, N>, checks: &Checks) -> Found<'_>
        requires { IsInUse (Self.demands self.now)
            (lists_of admits accepts is_encoding decoding checks.now) }
        ensures found { IfOk result (λ fs. Finds (Self.demands self.now)
            (lists_of admits accepts is_encoding decoding checks.now)
            text.now (findings_of fs)) }
        ensures answers { all_quiet (Self.demands self.now) ≡ true → IsOk result };

    /// Whether the node has no errors. The only error is out of memory, and none where `takes_no_memory` is true.
    final fn is_valid(&self, alloc: Global, node: &N, checks: &Checks) -> Result<bool, AllocError>
        requires { IsInUse (Self.demands self.now)
            (lists_of admits accepts is_encoding decoding checks.now) }
        ensures exact { IfOk result (λ b. (site : Site) → (IsTrue b
            ↔ NodeReports (assertions_at (Self.place self.now) (Self.demands self.now))
            (lists_of admits accepts is_encoding decoding checks.now) site
            (N.text node.now) [])) }
        ensures answers { all_quiet (Self.demands self.now) ≡ true → IsOk result }
    {
        encodes_once();
        let Some(text) = TextNode::of(node) else {
            return Ok(true);
        };
        Ok(self.findings(alloc, &text, checks)?.is_empty())
    }

    /// Appends the errors of the node, each with the place of its keyword in the schema and on the way of evaluation,
    /// and with the place of the instance. The only error is out of memory; the vector then holds what it held.
    final fn collect_errors(
        &self,
        alloc: Global,
        node: &N,
        site: &Site,
        checks: &Checks,
        errors: &mut Vec<ValidationError>,
    ) -> Result<(), AllocError>
        requires { IsInUse (Self.demands self.now)
            (lists_of admits accepts is_encoding decoding checks.now) }
        ensures appended { OnOk result (Appends
            (NodeReports (assertions_at (Self.place self.now) (Self.demands self.now))
            (lists_of admits accepts is_encoding decoding checks.now)
            site.now (N.text node.now))
            errors.old.items errors.new.items) }
        ensures kept { OnErr result (errors.new.items ≡ errors.old.items) }
    {
        match TextNode::of(node) {
            Some(text) => self.push_errors(alloc, &text, site, checks, errors),
            None => Ok(()),
        }
    }

    /// Appends the errors of a text, as `collect_errors` does of a node.
    final fn push_errors(
        &self,
        alloc: Global,
        text: &TextNode<'_, N>,
        site: &Site,
        checks: &Checks,
        errors: &mut Vec<ValidationError>,
    ) -> Result<(), AllocError>
        requires { IsInUse (Self.demands self.now)
            (lists_of admits accepts is_encoding decoding checks.now) }
        ensures appended { OnOk result (Appends
            (NodeReports (assertions_at (Self.place self.now) (Self.demands self.now))
            (lists_of admits accepts is_encoding decoding checks.now)
            site.now (Some text.now))
            errors.old.items errors.new.items) }
        ensures kept { OnErr result (errors.new.items ≡ errors.old.items) }
    {
        let findings = self.findings(alloc, text, checks)?;
        push_findings(alloc, self.origin(), text.as_str(), site, &findings, errors)
    }

    /// `Ok` where the node has no errors.
    ///
    /// Errors: `Invalid` of the first error, and `Memory`, but not where the node has no errors and `takes_no_memory`
    /// is true.
    final fn validate(
        &self,
        alloc: Global,
        node: &N,
        site: &Site,
        checks: &Checks,
    ) -> Result<(), Fault>
        requires { IsInUse (Self.demands self.now)
            (lists_of admits accepts is_encoding decoding checks.now) }
        ensures { IsVerdict (assertions_at (Self.place self.now) (Self.demands self.now))
            (lists_of admits accepts is_encoding decoding checks.now)
            site.now (N.text node.now) result }
    {
        match TextNode::of(node) {
            Some(text) => self.validate_text(alloc, &text, site, checks),
            None => Ok(()),
        }
    }

    /// `Ok` where a text has no errors.
    ///
    /// Errors: those of `validate`.
    final fn validate_text(
        &self,
        alloc: Global,
        text: &TextNode<'_, N>,
        site: &Site,
        checks: &Checks,
    ) -> Result<(), Fault>
        requires { IsInUse (Self.demands self.now)
            (lists_of admits accepts is_encoding decoding checks.now) }
        ensures { IsVerdict (assertions_at (Self.place self.now) (Self.demands self.now))
            (lists_of admits accepts is_encoding decoding checks.now)
            site.now (Some text.now) result }
    {
        encodes_once();
        let findings = self.findings(alloc, text, checks)?;
        match findings.first() {
            None => Ok(()),
            Some(finding) => {
                let error = error_of(alloc, finding, self.origin(), text.as_str(), site)?;
                Err(Fault::Invalid(error))
            }
        }
    }

    /// The errors of the node, and the value that the validator annotates it with: the one that it notes, where the
    /// node is a text, whether it has errors or not. The only error is out of memory.
    final fn evaluate(
        &self,
        alloc: Global,
        node: &N,
        site: &Site,
        checks: &Checks,
    ) -> Result<EvaluationResult, AllocError>
        requires { IsInUse (Self.demands self.now)
            (lists_of admits accepts is_encoding decoding checks.now) }
        ensures errors { IfOk result (λ r. NodeReports
            (assertions_at (Self.place self.now) (Self.demands self.now))
            (lists_of admits accepts is_encoding decoding checks.now) site.now (N.text node.now)
            r.errors.items) }
        ensures annotation { IfOk result (λ r. option_map view r.annotation
            ≡ annotation_of (Self.remark self.now) (N.text node.now)) }
    {
        let mut errors = Vec::new(alloc);
        let Some(text) = TextNode::of(node) else {
            return Ok(EvaluationResult {
                errors,
                annotation: None,
            });
        };
        self.push_errors(alloc, &text, site, checks, &mut errors)?;
        let annotation = self.note(alloc)?.map(|note| note.value);
        Ok(EvaluationResult { errors, annotation })
    }
}
