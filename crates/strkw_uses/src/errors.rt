//! Compiles a schema object, and prints or passes on the errors of a text.

use anyhow::{Result, bail};
use serde_json::{Map, Value};
use std::alloc::Global;
use strkw_keywords::Context;
use strkw_object::compile_strings;
use strkw_pattern::NoPatterns;
use strkw_report::{Draft, Location, Site, ValidationError};

/// The schema object that a text spells.
pub fn object_in(alloc: Global, schema: &str) -> Result<Map<String, Value>> {
    match Value::from_str(alloc, schema)? {
        Value::Object(object) => Ok(object),
        _ => bail!("the schema is no object"),
    }
}

/// Prints the place and the text of each error of a text by a schema object of draft 7.
pub fn print_errors(
    rt: &impl Print,
    alloc: Global,
    object: &Map<String, Value>,
    text: &str,
) -> Result<()> {
    let mut errors = Vec::new(alloc);
    push_errors(alloc, object, text, &mut errors)?;
    for error in &errors {
        let place = &error.schema_path;
        println!(rt; "{place}: {error}")?;
    }
    Ok(())
}

fn push_errors(
    alloc: Global,
    object: &Map<String, Value>,
    text: &str,
    errors: &mut Vec<ValidationError>,
) -> Result<()> {
    let ctx = Context::new(alloc, Draft::Draft7, &NoPatterns);
    let keywords = compile_strings(alloc, &ctx, object)?;
    keywords.collect_errors(alloc, &text, &root_site(alloc), &ctx.checks, errors)?;
    Ok(())
}

/// Passes the first error of a text on, as an error of Rust.
pub fn require_valid(alloc: Global, object: &Map<String, Value>, text: &str) -> Result<()> {
    let ctx = Context::new(alloc, Draft::Draft7, &NoPatterns);
    let keywords = compile_strings(alloc, &ctx, object)?;
    keywords.validate(alloc, &text, &root_site(alloc), &ctx.checks)?;
    Ok(())
}

// The schema object and the text are whole documents.
fn root_site(alloc: Global) -> Site {
    Site {
        evaluation: Location::root(alloc),
        instance: Location::root(alloc),
    }
}
