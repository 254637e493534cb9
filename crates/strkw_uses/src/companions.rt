//! Mail addresses, patterns and internationalised host names as formats that a schema object knows.

use anyhow::Result;
use serde_json::{Map, Value};
use std::alloc::Global;
use strkw_companions::companions_of;
use strkw_keywords::{Checks, Context, NamedFormat};
use strkw_object::compile_strings;
use strkw_pattern::NoPatterns;
use strkw_report::Draft;

/// Whether a text is valid by a schema object of draft 7, which may have the formats `email`, `regex`, `idn-email` and
/// `idn-hostname`.
pub fn is_valid_with_companions(
    alloc: Global,
    object: &Map<String, Value>,
    text: &str,
) -> Result<bool> {
    let mut formats = Vec::new(alloc);
    for companion in companions_of(Draft::Draft7) {
        formats.push(NamedFormat {
            name: String::from_str(alloc, companion.as_str())?,
            check: Box::new(alloc, *companion)?,
        })?;
    }
    is_valid_with(alloc, &formats, object, text)
}

fn is_valid_with(
    alloc: Global,
    formats: &[NamedFormat],
    object: &Map<String, Value>,
    text: &str,
) -> Result<bool> {
    let mut ctx = Context::new(alloc, Draft::Draft7, &NoPatterns);
    ctx.checks = Checks {
        formats,
        media_types: &[],
        codecs: &[],
    };
    let keywords = compile_strings(alloc, &ctx, object)?;
    Ok(keywords.is_valid(alloc, &text, &ctx.checks)?)
}
