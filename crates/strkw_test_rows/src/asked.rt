//! What is compiled of a row, and what that says of each instance.

use crate::answers::{Asked, Setting, lines};
use crate::lists::parts;
use crate::{row, shown};
use serde_json::{Map, Value};
use std::alloc::{AllocError, Global};
use strkw_keywords::{Checks, Context};
use strkw_object::{StringKeywords, compile_owned, compile_strings};
use strkw_report::CompileError;
use strkw_test_calls::{Name, ScriptedBuilder, ScriptedEngine, compile_entry};

/// Appends what is compiled of the object, or of the one entry that the row names, and its answers; and where a pattern
/// was shown to the builder, how often.
pub fn push_asked(
    alloc: Global,
    row: &Value,
    all: &Checks<'_>,
    ctx: &Context<'_, ScriptedBuilder<'_>>,
    out: &mut String,
) -> Result<(), AllocError> {
    let Some(schema) = row.get("schema").and_then(Value::as_object) else {
        return out.push_str("  no schema\n");
    };
    match row.get("keyword").and_then(Value::as_str) {
        Some(name) => {
            push_entry(alloc, row, all, ctx, name, schema, out)?;
            push_calls(ctx.builder.calls.get(), out)
        }
        None => push_object(alloc, row, all, ctx, schema, out),
    }
}

fn push_calls(calls: u32, out: &mut String) -> Result<(), AllocError> {
    if calls == 0 {
        return Ok(());
    }
    write!(out, "  the builder was asked: {calls}\n")
}

fn push_entry(
    alloc: Global,
    row: &Value,
    all: &Checks<'_>,
    ctx: &Context<'_, ScriptedBuilder<'_>>,
    name: &str,
    schema: &Map<String, Value>,
    out: &mut String,
) -> Result<(), AllocError> {
    let Some(keyword) = row::keyword_named(name) else {
        return out.push_str("  no keyword\n");
    };
    let compiled = compile_entry(alloc, ctx, keyword, schema);
    let told = match &compiled {
        None => out.push_str("  adds nothing\n"),
        Some(Err(refusal)) => shown::push_refusal(alloc, refusal, out),
        Some(Ok(validator)) => push_compiled(alloc, row, all, &ctx.checks, validator, out),
    };
    // By a call: an arm that drops it is proved with the parts of every validator written out.
    drop(compiled);
    told
}

fn push_object(
    alloc: Global,
    row: &Value,
    all: &Checks<'_>,
    ctx: &Context<'_, ScriptedBuilder<'_>>,
    schema: &Map<String, Value>,
    out: &mut String,
) -> Result<(), AllocError> {
    let compiled = compile_strings(alloc, ctx, schema);
    let mut lent = String::new(alloc);
    let told = push_keywords(alloc, row, all, &ctx.checks, &compiled, &mut lent);
    drop(compiled);
    told?;
    out.push_str(&lent)?;
    push_calls(ctx.builder.calls.get(), out)?;
    let mut given_up = String::new(alloc);
    push_given_up(alloc, row, all, ctx, &mut given_up)?;
    if given_up.as_str() == lent.as_str() {
        return Ok(());
    }
    out.push_str("  given up, the object says otherwise\n")
}

// Appends what an object that is given up is compiled to.
fn push_given_up(
    alloc: Global,
    row: &Value,
    all: &Checks<'_>,
    ctx: &Context<'_, ScriptedBuilder<'_>>,
    out: &mut String,
) -> Result<(), AllocError> {
    let Some(Value::Object(schema)) = row.get("schema") else {
        return Ok(());
    };
    let compiled = compile_owned(alloc, ctx, schema.clone()?);
    let told = push_keywords(alloc, row, all, &ctx.checks, &compiled, out);
    drop(compiled);
    told
}

fn push_keywords(
    alloc: Global,
    row: &Value,
    all: &Checks<'_>,
    checks: &Checks<'_>,
    compiled: &Result<StringKeywords<ScriptedEngine<'_>>, CompileError>,
    out: &mut String,
) -> Result<(), AllocError> {
    match compiled {
        Err(refusal) => shown::push_refusal(alloc, refusal, out),
        Ok(keywords) => push_compiled(alloc, row, all, checks, keywords, out),
    }
}

// Appends what it is, with which ranges of the lists it is in use, and what it says of each instance.
fn push_compiled<A: Asked>(
    alloc: Global,
    row: &Value,
    all: &Checks<'_>,
    checks: &Checks<'_>,
    compiled: &A,
    out: &mut String,
) -> Result<(), AllocError> {
    compiled.push_kind(out)?;
    push_uses(row, all, compiled, out)?;
    let site = row::site(alloc, row)?;
    let setting = Setting {
        alloc,
        site: &site,
        checks,
    };
    push_instances(row, &setting, compiled, out)
}

// Appends with which ranges of the lists it is in use.
fn push_uses<A: Asked>(
    row: &Value,
    all: &Checks<'_>,
    compiled: &A,
    out: &mut String,
) -> Result<(), AllocError> {
    for ends in row::items(row, "lent") {
        let used = compiled.is_in_use(&parts(all, ends));
        write!(out, "  in use with {ends}: {used}\n")?;
    }
    Ok(())
}

fn push_instances<A: Asked>(
    row: &Value,
    by: &Setting,
    compiled: &A,
    out: &mut String,
) -> Result<(), AllocError> {
    for instance in row::items(row, "instances") {
        push_instance(instance, by, compiled, out)?;
    }
    Ok(())
}

fn push_instance<A: Asked>(
    instance: &Value,
    by: &Setting,
    compiled: &A,
    out: &mut String,
) -> Result<(), AllocError> {
    let name = Name {
        text: instance.as_str(),
    };
    let of_value = lines(compiled, instance, by)?;
    let of_name = lines(compiled, &name, by)?;
    push_answers(instance, &of_value, &of_name, out)
}

// The answers of an instance. A line follows where a node of another type with the same text has others.
fn push_answers(
    instance: &Value,
    lines: &str,
    others: &str,
    out: &mut String,
) -> Result<(), AllocError> {
    write!(out, "  on {instance}: {lines}")?;
    if lines == others {
        return Ok(());
    }
    out.push_str("    a node of another type has another answer\n")
}
