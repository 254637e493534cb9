//! What a validator finds of a text, and the errors that are built of it.

ghost use Rattle.std.specs.Prelude.{◌++◌, ◌<◌, ◌↔◌, ◌∷◌, ◌≡◌, IfOk, IsTrue, None, OnErr, OnOk, Some, [], option_map, option_to_list, vec_capacity, vec_len};
ghost use Rattle.strkw_keywords.specs.Errors.{reports_of};
ghost use Rattle.strkw_keywords.specs.Findings.{finding_of, findings_of, first_of};
ghost use Rattle.strkw_keywords.specs.Places.{standing};

use crate::keyword::Keyword;
use crate::parts::Origin;
use std::alloc::{AllocError, Global};
use strkw_report::{Failure, Site, ValidationError, error_at};

/// What one validator finds: a finding for each of the two keywords that it may stand for, in the order of their
/// errors.
#[derive(Drop)]
pub struct Findings<'a> {
    /// What the first keyword finds.
    pub first: Option<Failure<'a>>,
    /// What the second finds, where there is one.
    pub second: Option<Failure<'a>>,
}

/// What a validator finds, or that it was out of memory.
pub type Found<'a> = Result<Findings<'a>, AllocError>;

// What one keyword finds, if anything, or that it was out of memory.
pub(crate) type FoundOne<'a> = Result<Option<Failure<'a>>, AllocError>;

impl Findings<'_> {
    /// Whether nothing is found.
    pub fn is_empty(&self) -> bool
        ensures { IsTrue result ↔ (findings_of self.now ≡ []) }
    {
        self.first.is_none() && self.second.is_none()
    }

    // The first of what is found.
    pub(crate) fn first(&self) -> Option<&Failure<'_>>
        ensures { first_of (findings_of self.now) ≡ option_map (λ f. finding_of f.now) result }
    {
        match &self.first {
            Some(finding) => Some(finding),
            None => self.second.as_ref(),
        }
    }
}

// The error of a text that failed so.
pub(crate) fn error_of(
    alloc: Global,
    failure: &Failure,
    origin: &Origin,
    text: &str,
    site: &Site,
) -> Result<ValidationError, AllocError>
    ensures { IfOk result (λ e. reports_of (standing origin.now site.now) text.now
        (Some (finding_of failure.now)) ≡ e ∷ []) }
{
    error_at(
        alloc,
        failure.kind(alloc)?,
        Keyword::of_failure(failure).as_str(),
        text,
        &origin.location,
        &origin.absolute,
        site,
    )
}

// The error of a text that failed so, if it failed.
fn error_found(
    alloc: Global,
    origin: &Origin,
    text: &str,
    site: &Site,
    failure: &Option<Failure>,
) -> Result<Option<ValidationError>, AllocError>
    ensures { IfOk result (λ e. reports_of (standing origin.now site.now) text.now
        (option_map finding_of failure.now) ≡ option_to_list e) }
{
    match failure {
        None => Ok(None),
        Some(failure) => Ok(Some(error_of(alloc, failure, origin, text, site)?)),
    }
}

// Adds an error that was found, if one was, where there is room for it.
fn push_found(errors: &mut Vec<ValidationError>, error: Option<ValidationError>)
    requires { vec_len errors.old < vec_capacity errors.old }
    ensures items { errors.new.items ≡ errors.old.items ++ option_to_list error }
    ensures room { vec_capacity errors.new ≡ vec_capacity errors.old }
{
    if let Some(error) = error {
        errors.push_reserved(error);
    }
}

// Adds the errors of what a validator finds: all of them, or none. Each has its room, and is made, before the first is
// added.
pub(crate) fn push_findings(
    alloc: Global,
    origin: &Origin,
    text: &str,
    site: &Site,
    findings: &Findings,
    errors: &mut Vec<ValidationError>,
) -> Result<(), AllocError>
    ensures ok { OnOk result (errors.new.items ≡ errors.old.items
        ++ reports_of (standing origin.now site.now) text.now
        (option_map finding_of findings.now.first)
        ++ reports_of (standing origin.now site.now) text.now
        (option_map finding_of findings.now.second)) }
    ensures err { OnErr result (errors.new.items ≡ errors.old.items) }
{
    if findings.is_empty() {
        return Ok(());
    }
    errors.reserve(2)?;
    let first = error_found(alloc, origin, text, site, &findings.first)?;
    let second = error_found(alloc, origin, text, site, &findings.second)?;
    push_found(errors, first);
    push_found(errors, second);
    Ok(())
}
