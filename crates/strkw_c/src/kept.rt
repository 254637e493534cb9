//! What is kept of a schema object.

use crate::settings::Choices;
use strkw_ecma::EcmaMatcher;
use strkw_object::StringKeywords;
use strkw_report::Draft;

/// A compiled object, and what it was compiled under.
#[derive(Drop)]
pub(crate) struct Kept {
    pub(crate) draft: Draft,
    pub(crate) choices: Choices,
    pub(crate) keywords: StringKeywords<EcmaMatcher>,
}
