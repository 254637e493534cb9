//! What keywords of a schema say of a value, in words.

use crate::known_formats::KnownFormat;
use neldrafi_check::Shown;
use serde_json::Value;
use std::alloc::{AllocError, Global};
use std::fmt::Write;
use strkw_pattern::{PatternOptimization, analyze_pattern};
use strkw_report::Draft;

// So many values of a list are named.
const MOST_NAMED: usize = 20;

/// What is said of a keyword.
#[derive(Drop)]
pub(crate) enum Explanation {
    /// What is checked.
    Checked(String),
    /// It annotates.
    Annotation,
    /// Nothing: it is not about values, or the schemas in it say all.
    Nothing,
}

/// What is said of a keyword with this value.
pub(crate) fn explain_keyword(
    alloc: Global,
    draft: Draft,
    keyword: &str,
    value: &Value,
) -> Result<Explanation, AllocError> {
    if is_annotation(draft, keyword) {
        return Ok(Explanation::Annotation);
    }
    let mut words = String::new(alloc);
    push_words(alloc, draft, keyword, value, &mut words)?;
    if words.is_empty() {
        Ok(Explanation::Nothing)
    } else {
        Ok(Explanation::Checked(words))
    }
}

// Whether a draft has a keyword about strings that annotates.
fn is_annotation(draft: Draft, keyword: &str) -> bool {
    matches!(
        (keyword, draft),
        (
            "contentEncoding" | "contentMediaType" | "contentSchema",
            Draft::Draft201909 | Draft::Draft202012
        )
    )
}

// Appends what a keyword says, and nothing if the schemas in it say all.
fn push_words(
    alloc: Global,
    draft: Draft,
    keyword: &str,
    value: &Value,
    out: &mut String,
) -> Result<(), AllocError> {
    match keyword {
        "type" => push_types(value, out),
        "enum" => push_enumeration(alloc, value, out),
        "const" => push_value(alloc, "the value ", value, out),
        "required" => push_list(alloc, "an object has ", "and", value, out),
        "format" => push_format(draft, value.as_str().unwrap_or(""), out),
        "pattern" => push_pattern(alloc, value.as_str().unwrap_or(""), out),
        "contentEncoding" => push_value(alloc, "a string is in the encoding ", value, out),
        "contentMediaType" => push_value(alloc, "a string is of the media type ", value, out),
        "uniqueItems" if value.as_bool() == Some(true) => {
            out.push_str("no two items of an array are equal")
        }
        "$ref" | "$dynamicRef" | "$recursiveRef" => push_value(alloc, "as in ", value, out),
        "exclusiveMinimum" if value.as_bool() == Some(true) => {
            out.push_str("a number is not the minimum itself")
        }
        "exclusiveMaximum" if value.as_bool() == Some(true) => {
            out.push_str("a number is not the maximum itself")
        }
        "dependentRequired" | "dependentSchemas" | "dependencies" => {
            push_dependencies(alloc, value, out)
        }
        _ => match limit_of(keyword, value) {
            Some((before, after)) => push_limit(alloc, before, value, after, out),
            None => push_applied(keyword, value, out),
        },
    }
}

// What stands before a limit and behind it.
fn limit_of(keyword: &str, value: &Value) -> Option<(&'static str, &'static str)> {
    if value.is_boolean() {
        return None;
    }
    match keyword {
        "multipleOf" => Some(("a number is a multiple of ", "")),
        "minimum" => Some(("a number is at least ", "")),
        "maximum" => Some(("a number is at most ", "")),
        "exclusiveMinimum" => Some(("a number is greater than ", "")),
        "exclusiveMaximum" => Some(("a number is less than ", "")),
        "minLength" => Some(("a string has at least ", "character")),
        "maxLength" => Some(("a string has at most ", "character")),
        "minItems" => Some(("an array has at least ", "item")),
        "maxItems" => Some(("an array has at most ", "item")),
        "minContains" => Some(("`contains` is valid for at least ", "item")),
        "maxContains" => Some(("`contains` is valid for at most ", "item")),
        "minProperties" => Some(("an object has at least ", "member")),
        "maxProperties" => Some(("an object has at most ", "member")),
        _ => None,
    }
}

// Appends a limit with what it counts, in the plural unless it is one.
fn push_limit(
    alloc: Global,
    before: &str,
    value: &Value,
    counted: &str,
    out: &mut String,
) -> Result<(), AllocError> {
    push_value(alloc, before, value, out)?;
    match (counted, value.as_u64()) {
        ("", _) => Ok(()),
        (_, Some(1)) => write!(out, " {counted}"),
        _ => write!(out, " {counted}s"),
    }
}

// Appends words and a value, as JSON.
fn push_value(
    alloc: Global,
    before: &str,
    value: &Value,
    out: &mut String,
) -> Result<(), AllocError> {
    let text = value.to_string(alloc)?;
    let shown = Shown(&text);
    write!(out, "{before}{shown}")
}

// Appends words and a list of values, as JSON.
fn push_list(
    alloc: Global,
    before: &str,
    last: &str,
    values: &Value,
    out: &mut String,
) -> Result<(), AllocError> {
    let Some(values) = values.as_array() else {
        return Ok(());
    };
    let count = values.len();
    for (place, value) in values.iter().take(MOST_NAMED).enumerate() {
        if place == 0 {
            out.push_str(before)?;
        } else if place + 1 == count {
            write!(out, " {last} ")?;
        } else {
            out.push_str(", ")?;
        }
        push_value(alloc, "", value, out)?;
    }
    if count > MOST_NAMED {
        let more = count - MOST_NAMED;
        write!(out, " {last} {more} more")?;
    }
    Ok(())
}

// Appends which values are there to choose from.
fn push_enumeration(alloc: Global, values: &Value, out: &mut String) -> Result<(), AllocError> {
    push_list(alloc, "one of ", "or", values, out)?;
    if out.is_empty() {
        out.push_str("no value")?;
    }
    Ok(())
}

// Appends the types of values.
fn push_types(value: &Value, out: &mut String) -> Result<(), AllocError> {
    match value {
        Value::String(name) => out.push_str(words_of_type(name)),
        Value::Array(names) => {
            for (place, name) in names.iter().enumerate() {
                if place > 0 {
                    out.push_str(if place + 1 == names.len() {
                        " or "
                    } else {
                        ", "
                    })?;
                }
                out.push_str(words_of_type(name.as_str().unwrap_or("")))?;
            }
            Ok(())
        }
        _ => Ok(()),
    }
}

fn words_of_type(name: &str) -> &'static str {
    match name {
        "array" => "an array",
        "boolean" => "true or false",
        "integer" => "an integer",
        "number" => "a number",
        "object" => "an object",
        "string" => "a string",
        _ => "null",
    }
}

// Appends which texts are of a format.
fn push_format(draft: Draft, name: &str, out: &mut String) -> Result<(), AllocError> {
    let shown = Shown(name);
    let Some(format) = KnownFormat::by_name(draft, name) else {
        return write!(
            out,
            "nothing is checked: the format \"{shown}\" is not known"
        );
    };
    write!(out, "a string is of the format \"{shown}\"")?;
    match format.length_window() {
        Some((least, u64::MAX)) => write!(out, ", which has at least {least} characters"),
        Some((least, most)) if least == most => write!(out, ", which has {least} characters"),
        Some((least, most)) => write!(out, ", which has {least} to {most} characters"),
        None => Ok(()),
    }
}

// Appends which texts a pattern matches.
fn push_pattern(alloc: Global, pattern: &str, out: &mut String) -> Result<(), AllocError> {
    let shown = Shown(pattern);
    match analyze_pattern(alloc, pattern)? {
        Some(PatternOptimization::Prefix(text)) => {
            let text = Shown(&text);
            write!(out, "a string begins with \"{text}\"")
        }
        Some(PatternOptimization::Exact(text)) => {
            let text = Shown(&text);
            write!(out, "a string is \"{text}\"")
        }
        Some(PatternOptimization::Alternation(texts)) => push_texts(&texts, out),
        Some(PatternOptimization::NoWhitespace) => out.push_str("a string has no white space"),
        None => write!(out, "a string has a match of \"{shown}\""),
    }
}

// Appends which texts a string may be.
fn push_texts(texts: &[String], out: &mut String) -> Result<(), AllocError> {
    for (place, text) in texts.iter().enumerate() {
        let before = match place {
            0 => "a string is ",
            _ if place + 1 == texts.len() => " or ",
            _ => ", ",
        };
        let text = Shown(text);
        write!(out, "{before}\"{text}\"")?;
    }
    Ok(())
}

// Appends which members require others.
fn push_dependencies(alloc: Global, value: &Value, out: &mut String) -> Result<(), AllocError> {
    let Some(members) = value.as_object() else {
        return Ok(());
    };
    for (name, others) in members.iter() {
        if !out.is_empty() {
            out.push_str("; ")?;
        }
        push_dependency(alloc, name, others, out)?;
    }
    Ok(())
}

fn push_dependency(
    alloc: Global,
    name: &str,
    others: &Value,
    out: &mut String,
) -> Result<(), AllocError> {
    let name = Shown(name);
    write!(out, "an object with \"{name}\"")?;
    match others {
        Value::Array(_) => push_list(alloc, " also has ", "and", others, out),
        _ => out.push_str(", as follows"),
    }
}

// What a keyword applies its schema to, and that there is nothing of the kind.
#[derive(Clone, Copy)]
struct Applied {
    each: &'static str,
    none: &'static str,
}

// What a keyword whose value is a schema applies it to.
fn applied_by(keyword: &str) -> Option<Applied> {
    let (each, none) = match keyword {
        "additionalProperties" => (
            "each other member of an object",
            "an object has no other members",
        ),
        "unevaluatedProperties" => (
            "each member of an object that nothing here evaluates",
            "an object has no members that nothing here evaluates",
        ),
        "propertyNames" => ("each name of a member", "an object has no members"),
        "items" => ("each item of an array", "an array has no items"),
        "additionalItems" => ("each other item of an array", "an array has no other items"),
        "unevaluatedItems" => (
            "each item of an array that nothing here evaluates",
            "an array has no items that nothing here evaluates",
        ),
        "contains" => ("an item of an array", "no array"),
        "not" => ("not the values", "no condition"),
        "if" => ("if the value is", "never: `else` applies"),
        "then" => ("then the value is", "then no value"),
        "else" => ("else the value is", "else no value"),
        _ => return None,
    };
    Some(Applied { each, none })
}

// Appends what the schemas in a keyword are applied to.
fn push_applied(keyword: &str, value: &Value, out: &mut String) -> Result<(), AllocError> {
    match (applied_by(keyword), value) {
        (Some(applied), Value::Bool(false)) => out.push_str(applied.none),
        (Some(applied), Value::Bool(true)) => {
            let each = applied.each;
            write!(out, "{each}: any value")
        }
        (Some(applied), Value::Object(_)) => {
            let each = applied.each;
            write!(out, "{each}, as follows")
        }
        (_, Value::Array(schemas)) => push_several(keyword, schemas.len(), out),
        (None, Value::Object(_)) if keyword == "patternProperties" => {
            out.push_str("each member of an object whose name has a match, as follows")
        }
        _ => Ok(()),
    }
}

// Appends how many of several schemas a value is valid by.
fn push_several(keyword: &str, count: usize, out: &mut String) -> Result<(), AllocError> {
    match keyword {
        "allOf" => write!(out, "all of the {count} that follow"),
        "anyOf" => write!(out, "at least one of the {count} that follow"),
        "oneOf" => write!(out, "exactly one of the {count} that follow"),
        "items" | "prefixItems" => write!(out, "the first {count} items of an array, as follows"),
        _ => Ok(()),
    }
}
