//! Asks a compiled object of a text, with the caller's checks lent again.

use std::alloc::{AllocError, Global};
use strkw_keywords::Checks;
use strkw_object::StringKeywords;
use strkw_pattern::RegexEngine;

/// Whether the text is valid; `None` where these checks have not the rows that were chosen when the object was
/// compiled.
pub fn is_valid<E: RegexEngine>(
    alloc: Global,
    keywords: &StringKeywords<E>,
    text: &str,
    checks: &Checks,
) -> Result<Option<bool>, AllocError> {
    if !keywords.uses(checks) {
        return Ok(None);
    }
    Ok(Some(keywords.is_valid(alloc, &text, checks)?))
}

/// The same rows, lent once more: to a context beside the one that has them.
pub fn same_rows<'a>(checks: &Checks<'a>) -> Checks<'a> {
    Checks {
        formats: checks.formats,
        media_types: checks.media_types,
        codecs: checks.codecs,
    }
}
