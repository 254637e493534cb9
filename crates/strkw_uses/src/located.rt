//! Collects the errors of a text that stands inside a document, by a schema object that stands inside another.

use anyhow::Result;
use serde_json::{Map, Value};
use std::alloc::{AllocError, Global};
use strkw_keywords::{Checks, Context, Options};
use strkw_object::compile_strings;
use strkw_pattern::NoPatterns;
use strkw_report::{Draft, Location, Site, ValidationError};

/// The errors of the text at `/born` of a document, by the object at `/$defs/date` of a schema of draft 2020-12 whose
/// address is known. The way of evaluation came to that object by a `$ref`.
pub fn errors_at_born(
    alloc: Global,
    object: &Map<String, Value>,
    text: &str,
) -> Result<Vec<ValidationError>> {
    errors_at(alloc, object, &born_site(alloc)?, text)
}

// Where the text stands, and how evaluation came to it.
fn born_site(alloc: Global) -> Result<Site, AllocError> {
    let root = Location::root(alloc);
    Ok(Site {
        evaluation: root.join("properties")?.join("born")?.join("$ref")?,
        instance: root.join("born")?,
    })
}

fn errors_at(
    alloc: Global,
    object: &Map<String, Value>,
    site: &Site,
    text: &str,
) -> Result<Vec<ValidationError>> {
    let mut options = Options::default();
    options.validate_formats = Some(true);
    let ctx = Context {
        draft: Draft::Draft202012,
        location: Location::root(alloc).join("$defs")?.join("date")?,
        absolute: Some(String::from_str(alloc, "https://example.com/person.json")?),
        options,
        checks: Checks::none(),
        builder: &NoPatterns,
    };
    errors_under(alloc, &ctx, object, site, text)
}

fn errors_under(
    alloc: Global,
    ctx: &Context<'_, NoPatterns>,
    object: &Map<String, Value>,
    site: &Site,
    text: &str,
) -> Result<Vec<ValidationError>> {
    let keywords = compile_strings(alloc, ctx, object)?;
    let mut errors = Vec::new(alloc);
    keywords.collect_errors(alloc, &text, site, &ctx.checks, &mut errors)?;
    Ok(errors)
}
