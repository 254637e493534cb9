//! The caller's rows of a row: `formats`, `media_types` and `codecs`, each an array of a name and a script; which
//! ranges of them the object is compiled with (`with`, all if it has none) and which are asked whether they are in use
//! (`lent`), each as the two ends of the three ranges; `patterns`, each a pattern, a text and an outcome; and
//! `out_of_memory`, which names the builder or its engines.

use crate::asked::push_asked;
use crate::row;
use serde_json::Value;
use std::alloc::{AllocError, Global};
use std::cell::Cell;
use strkw_keywords::{Checks, Context, NamedCodec, NamedFormat, NamedMediaType};
use strkw_report::Draft;
use strkw_test_calls::{Row, ScriptedBuilder, check_named, codec_named, outcome_named};

/// Appends what a row's schema object says of each of its instances.
pub fn push_answers(alloc: Global, row: &Value, out: &mut String) -> Result<(), AllocError> {
    let mut formats = Vec::new(alloc);
    for named in row::items(row, "formats") {
        formats.push(NamedFormat {
            name: String::from_str(alloc, row::text_at(named, 0))?,
            check: Box::new(alloc, check_named(row::text_at(named, 1)))?,
        })?;
    }
    push_with_formats(alloc, row, &formats, out)
}

fn push_with_formats(
    alloc: Global,
    row: &Value,
    formats: &[NamedFormat],
    out: &mut String,
) -> Result<(), AllocError> {
    let mut media_types = Vec::new(alloc);
    for named in row::items(row, "media_types") {
        media_types.push(NamedMediaType {
            name: String::from_str(alloc, row::text_at(named, 0))?,
            check: Box::new(alloc, check_named(row::text_at(named, 1)))?,
        })?;
    }
    push_with_media_types(alloc, row, formats, &media_types, out)
}

fn push_with_media_types(
    alloc: Global,
    row: &Value,
    formats: &[NamedFormat],
    media_types: &[NamedMediaType],
    out: &mut String,
) -> Result<(), AllocError> {
    let mut codecs = Vec::new(alloc);
    for named in row::items(row, "codecs") {
        codecs.push(NamedCodec {
            name: String::from_str(alloc, row::text_at(named, 0))?,
            codec: Box::new(alloc, codec_named(row::text_at(named, 1)))?,
        })?;
    }
    let all = Checks {
        formats,
        media_types,
        codecs: &codecs,
    };
    push_with_checks(alloc, row, &all, out)
}

// The items from one place to another, none where there are no such places.
fn part<'a, T>(items: &'a [T], ends: &Value, place: usize) -> &'a [T] {
    let end_at = |at: usize| -> u64 { ends.get(at).and_then(Value::as_u64).unwrap_or(0) };
    let (from, to) = (end_at(place), end_at(place.wrapping_add(1)));
    items.get(from as usize..to as usize).unwrap_or(&[])
}

/// The ranges of the lists.
pub fn parts<'a>(all: &Checks<'a>, ends: &Value) -> Checks<'a> {
    Checks {
        formats: part(all.formats, ends, 0),
        media_types: part(all.media_types, ends, 2),
        codecs: part(all.codecs, ends, 4),
    }
}

// All rows, or the ranges that are named.
fn checks_of<'a>(row: &Value, all: &Checks<'a>) -> Checks<'a> {
    match row.get("with") {
        Some(ends) => parts(all, ends),
        None => Checks {
            formats: all.formats,
            media_types: all.media_types,
            codecs: all.codecs,
        },
    }
}

fn push_with_checks(
    alloc: Global,
    row: &Value,
    all: &Checks<'_>,
    out: &mut String,
) -> Result<(), AllocError> {
    let mut rows = Vec::new(alloc);
    for item in row::items(row, "patterns") {
        rows.push(Row {
            pattern: row::text_at(item, 0),
            text: row::text_at(item, 1),
            outcome: outcome_named(row::text_at(item, 2)),
        })?;
    }
    push_with_rows(alloc, row, all, &rows, out)
}

fn push_with_rows(
    alloc: Global,
    row: &Value,
    all: &Checks<'_>,
    rows: &[Row<'_>],
    out: &mut String,
) -> Result<(), AllocError> {
    let Some(draft) = row::draft(row) else {
        return out.push_str("  no draft\n");
    };
    let without = row.get("out_of_memory").and_then(Value::as_str);
    let builder = ScriptedBuilder {
        rows,
        has_memory: without != Some("builder"),
        engines_have_memory: without != Some("engines"),
        calls: Cell::new(0),
    };
    push_with_builder(alloc, row, draft, all, &builder, out)
}

fn push_with_builder(
    alloc: Global,
    row: &Value,
    draft: Draft,
    all: &Checks<'_>,
    builder: &ScriptedBuilder<'_>,
    out: &mut String,
) -> Result<(), AllocError> {
    let ctx = Context {
        draft,
        location: row::location(alloc, row, "location")?,
        absolute: row::absolute_location(alloc, row)?,
        options: row::options(row),
        checks: checks_of(row, all),
        builder,
    };
    push_asked(alloc, row, all, &ctx, out)
}
