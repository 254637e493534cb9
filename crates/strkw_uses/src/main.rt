//! Callers of the string keywords, one to a file, and what each answers.
#![tactic(auto)]

mod answered;
mod companions;
mod engine;
mod errors;
mod lent_again;
mod located;
mod patterns;
mod recognised;
mod registered;

use anyhow::Result;
use engine::Masks;
use errors::object_in;
use registered::{ArticleNumber, AsciiText, EightBit};
use serde_json::{Map, Value};
use std::alloc::Global;
use strkw_keywords::{Checks, Context, NamedCodec, NamedFormat, NamedMediaType};
use strkw_object::{StringKeywords, compile_strings};
use strkw_pattern::{LiteralMatcher, NoPatterns};
use strkw_report::{Draft, ValidationError};

fn main(rt: HostRuntime) -> Result<()> {
    let alloc = rt.alloc();
    print_errors(&rt, alloc)?;
    print_first_error(&rt, alloc, r#"{"minLength":-1}"#, "")?;
    print_first_error(&rt, alloc, r#"{"minLength":2}"#, "a")?;
    print_located(&rt, alloc)?;
    print_recognised(&rt)?;
    print_matches(&rt, alloc)?;
    print_patterns(&rt, alloc)?;
    print_article(&rt, alloc)?;
    print_ascii(&rt, alloc)?;
    print_companions(&rt, alloc)?;
    print_answers(&rt, alloc)
}

fn print_errors(rt: &impl Print, alloc: Global) -> Result<()> {
    let object = object_in(alloc, r#"{"format":"date","minLength":12}"#)?;
    errors::print_errors(rt, alloc, &object, "2023-02-29")
}

// The refusal of a schema, or the first error of a text by it.
fn print_first_error(rt: &impl Print, alloc: Global, schema: &str, text: &str) -> Result<()> {
    let object = object_in(alloc, schema)?;
    if let Err(error) = errors::require_valid(alloc, &object, text) {
        println!(rt; "{error}")?;
    }
    Ok(())
}

fn print_located(rt: &impl Print, alloc: Global) -> Result<()> {
    let object = object_in(alloc, r#"{"format":"date"}"#)?;
    print_places(rt, &located::errors_at_born(alloc, &object, "soon")?)
}

fn print_places(rt: &impl Print, errors: &[ValidationError]) -> Result<()> {
    for error in errors {
        let place = error.absolute.as_deref().unwrap_or("");
        let (way, instance) = (&error.evaluation_path, &error.instance_path);
        println!(rt; "{place} by {way} on {instance}")?;
    }
    Ok(())
}

fn print_recognised(rt: &impl Print) -> Result<()> {
    println!(rt; "a birthday: {}", recognised::is_birthday("2024-02-29"))?;
    for (name, text) in [("uuid", "x"), ("time", "12:00:00Z"), ("email", "a@b")] {
        println!(rt;
            "{name}: {:?}",
            recognised::is_of(Draft::Draft202012, name, text)
        )?;
    }
    Ok(())
}

// The answer to one line, and to two.
fn print_answers(rt: &impl Print, alloc: Global) -> Result<()> {
    let line = br#"{"draft":7,"schema":{"format":"ipv4"},"instance":"1.2.3"}"#;
    print!(rt; "{}", String::from_utf8(answered::answer_to(alloc, line)?)?)?;
    let input = b"{}\n{\"draft\":4,\"schema\":{},\"instance\":1}\n";
    print!(rt;
        "{}",
        String::from_utf8(answered::answers_to(alloc, input)?)?
    )?;
    Ok(())
}

// A mask of ten characters, on a text that has as many, and on one that has not.
fn print_matches(rt: &impl Print, alloc: Global) -> Result<()> {
    let object = object_in(alloc, r#"{"pattern":"____-__-__"}"#)?;
    print_match(rt, alloc, &object, "2024-02-29")?;
    print_match(rt, alloc, &object, "2024")
}

fn print_match(
    rt: &impl Print,
    alloc: Global,
    object: &Map<String, Value>,
    text: &str,
) -> Result<()> {
    let valid = is_of_mask(alloc, object, text)?;
    println!(rt; "mask on {text}: {valid}")?;
    Ok(())
}

fn is_of_mask(alloc: Global, object: &Map<String, Value>, text: &str) -> Result<bool> {
    let ctx = Context::new(alloc, Draft::Draft7, &Masks);
    let keywords = compile_strings(alloc, &ctx, object)?;
    Ok(keywords.is_valid(alloc, &text, &ctx.checks)?)
}

const SLUG: &str = r#"{"pattern":"^[a-z]+(-[a-z]+)*$"}"#;

const NAME: &str = r#"{"pattern":"^\\p{Lu}[\\w-]{2,8}(\\.[a-z]+)*$"}"#;

// A slug, and two texts that are none; a name with a capital, and one without.
fn print_patterns(rt: &impl Print, alloc: Global) -> Result<()> {
    for (schema, text) in [
        (SLUG, "a-slug"),
        (SLUG, "a--slug"),
        (SLUG, "a-slug\n"),
        (NAME, "Élan-1.rs"),
        (NAME, "élan-1.rs"),
    ] {
        print_errors_by(rt, alloc, schema, text)?;
    }
    Ok(())
}

fn print_errors_by(rt: &impl Print, alloc: Global, schema: &str, text: &str) -> Result<()> {
    let object = object_in(alloc, schema)?;
    print_each(rt, &patterns::errors_by(alloc, &object, text)?)
}

fn print_each(rt: &impl Print, errors: &[ValidationError]) -> Result<()> {
    for error in errors {
        println!(rt; "{error}")?;
    }
    Ok(())
}

// A format of the caller's own.
fn print_article(rt: &impl Print, alloc: Global) -> Result<()> {
    let formats = vec![in alloc;
        NamedFormat {
            name: String::from_str(alloc, "article")?,
            check: Box::new(alloc, ArticleNumber)?,
        },
    ]?;
    let checks = Checks {
        formats: &formats,
        media_types: &[],
        codecs: &[],
    };
    print_verdicts(rt, alloc, r#"{"format":"article"}"#, &checks)
}

// A media type and a codec of the caller's own.
fn print_ascii(rt: &impl Print, alloc: Global) -> Result<()> {
    let media_types = vec![in alloc;
        NamedMediaType {
            name: String::from_str(alloc, "text/plain;charset=us-ascii")?,
            check: Box::new(alloc, AsciiText)?,
        },
    ]?;
    let codecs = vec![in alloc;
        NamedCodec {
            name: String::from_str(alloc, "8bit")?,
            codec: Box::new(alloc, EightBit)?,
        },
    ]?;
    let checks = Checks {
        formats: &[],
        media_types: &media_types,
        codecs: &codecs,
    };
    print_verdicts(
        rt,
        alloc,
        r#"{"contentMediaType":"text/plain;charset=us-ascii","contentEncoding":"8bit"}"#,
        &checks,
    )
}

// A mail address, a pattern, an internationalised address and such a host name, and texts that are none of them.
fn print_companions(rt: &impl Print, alloc: Global) -> Result<()> {
    for (schema, text) in [
        (r#"{"format":"email"}"#, "joe@example.com"),
        (r#"{"format":"email"}"#, "-joe"),
        (r#"{"format":"regex"}"#, r"([abc])+\s+$"),
        (r#"{"format":"regex"}"#, "^(abc]"),
        (r#"{"format":"idn-email"}"#, "jürgen@bücher.example"),
        (r#"{"format":"idn-email"}"#, "jürgen@Bücher.example"),
        (r#"{"format":"idn-hostname"}"#, "bücher.example"),
        (r#"{"format":"idn-hostname"}"#, "-joe"),
    ] {
        print_companion(rt, alloc, schema, text)?;
    }
    Ok(())
}

fn print_companion(rt: &impl Print, alloc: Global, schema: &str, text: &str) -> Result<()> {
    let object = object_in(alloc, schema)?;
    let valid = companions::is_valid_with_companions(alloc, &object, text)?;
    println!(rt; "{schema} on {text}: {valid}")?;
    Ok(())
}

// Compiles with the caller's checks, and asks with them, and without them.
fn print_verdicts(rt: &impl Print, alloc: Global, schema: &str, checks: &Checks) -> Result<()> {
    let object = object_in(alloc, schema)?;
    let mut ctx = Context::new(alloc, Draft::Draft7, &NoPatterns);
    ctx.checks = lent_again::same_rows(checks);
    let keywords = compile_strings(alloc, &ctx, &object)?;
    print_asked(rt, alloc, schema, &keywords, checks)
}

fn print_asked(
    rt: &impl Print,
    alloc: Global,
    schema: &str,
    keywords: &StringKeywords<LiteralMatcher>,
    checks: &Checks,
) -> Result<()> {
    for text in ["12345678", "éééééééé"] {
        let valid = lent_again::is_valid(alloc, keywords, text, checks)?;
        println!(rt; "{schema} on {text}: {valid:?}")?;
    }
    let without = lent_again::is_valid(alloc, keywords, "", &Checks::none())?;
    println!(rt; "with no checks: {without:?}")?;
    Ok(())
}
