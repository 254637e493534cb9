//! What the calls are lent, and whether they left it as it was.

use crate::{Row, ScriptedBuilder, check_named};
use serde_json::{Map, Value};
use std::alloc::{AllocError, Global};
use std::cell::Cell;
use strkw_keywords::{Checks, Context, Fault, NamedFormat, Options};
use strkw_pattern::Outcome;
use strkw_report::{
    CompileError, CompileErrorKind, Draft, ErrorKind, Location, Site, ValidationError, error_at,
};

// The one pattern that the builder takes.
const PATTERNS: [Row<'static>; 1] = [Row {
    pattern: "a+",
    text: "aa",
    outcome: Outcome::Match,
}];

/// What a schema object is compiled under.
pub(super) type Lent<'a> = Context<'a, ScriptedBuilder<'static>>;

fn builder() -> ScriptedBuilder<'static> {
    ScriptedBuilder {
        rows: &PATTERNS,
        has_memory: true,
        engines_have_memory: true,
        calls: Cell::new(0),
    }
}

// A format by the name `even`, for texts of an even number of characters.
fn even_format(alloc: Global) -> Result<NamedFormat, AllocError> {
    Ok(NamedFormat {
        name: String::from_str(alloc, "even")?,
        check: Box::new(alloc, check_named("even"))?,
    })
}

/// The place of one segment below the root.
pub(super) fn place_below_root(alloc: Global, segment: &str) -> Result<Location, AllocError> {
    let root = Location::root(alloc);
    let place = root.join(segment);
    drop(root);
    place
}

// A schema object under a location and a prefix that are copied. Unknown formats are refused.
fn context<'a>(
    alloc: Global,
    draft: Draft,
    builder: &'a ScriptedBuilder<'static>,
    formats: &'a [NamedFormat],
) -> Result<Lent<'a>, AllocError> {
    let absolute = String::from_str(alloc, "https://example.com")?;
    let location = place_below_root(alloc, "a")?;
    let mut options = Options::default();
    options.ignore_unknown_formats = false;
    Ok(Context {
        draft,
        location,
        absolute: Some(absolute),
        options,
        checks: Checks {
            formats,
            media_types: &[],
            codecs: &[],
        },
        builder,
    })
}

fn are_as_set(options: &Options) -> bool {
    options.validate_formats.is_none()
        && !options.ignore_unknown_formats
        && !options.formats_by_dialect
        && options.json_media_type
        && options.codecs == [true; 5]
        && options.overridden == [false; 7]
}

// Whether a format answers so of a text.
fn tells(alloc: Global, format: &NamedFormat, text: &str, is_valid: bool) -> bool {
    matches!(format.check.is_valid(alloc, text), Ok(told) if told == is_valid)
}

// Whether a format is that by the name `even`.
fn is_even_format(alloc: Global, format: &NamedFormat) -> bool {
    format.name.as_str() == "even"
        && tells(alloc, format, "ab", true)
        && tells(alloc, format, "abc", false)
}

// Whether the lists are those that were lent: one row, of its name and its answers.
fn are_as_lent(alloc: Global, checks: &Checks) -> bool {
    match checks.formats {
        [row] => {
            is_even_format(alloc, row) && checks.media_types.is_empty() && checks.codecs.is_empty()
        }
        _ => false,
    }
}

// Whether a context is as `context` made it.
fn is_as_made(alloc: Global, ctx: &Lent<'_>, draft: Draft) -> bool {
    ctx.draft == draft
        && ctx.location.as_str() == "/a"
        && ctx.absolute.as_deref() == Some("https://example.com")
        && are_as_set(&ctx.options)
        && are_as_lent(alloc, &ctx.checks)
        && ctx.builder.rows.len() == PATTERNS.len()
}

/// The value of a JSON text, or null where it is none.
pub(super) fn json(alloc: Global, text: &str) -> Result<Value, AllocError> {
    match Value::from_str(alloc, text) {
        Ok(value) => Ok(value),
        Err(error) if error.is_memory() => Err(AllocError),
        Err(_) => Ok(Value::Null),
    }
}

/// A schema object, as JSON, and the draft by which it is read.
#[derive(Clone, Copy)]
pub(super) struct Given {
    pub(super) draft: Draft,
    pub(super) schema: &'static str,
}

/// Whether something is answered as it is to be. Out of memory is an error.
pub(super) type Answer = Result<bool, AllocError>;

/// This answer where something else holds, as that what a call was lent is as it was.
pub(super) fn only_if(holds: bool, answer: Answer) -> Answer {
    if holds { answer } else { Ok(false) }
}

/// What is asked of a schema object in a draft.
pub(super) trait Asked {
    fn subject(&self) -> Given;

    fn is_answered(&self, alloc: Global, ctx: &Lent<'_>, schema: &Map<String, Value>) -> Answer;
}

// Whether this is answered in a context as it is to be. The schema object is as it was, whatever was answered.
fn is_answered_in<A: Asked>(alloc: Global, ctx: &Lent<'_>, asked: &A) -> Answer {
    let schema = json(alloc, asked.subject().schema)?;
    let answer = is_answered_by(alloc, ctx, asked, &schema);
    drop(schema);
    answer
}

// The same of its schema object.
fn is_answered_by<A: Asked>(alloc: Global, ctx: &Lent<'_>, asked: &A, schema: &Value) -> Answer {
    let answer = match schema.as_object() {
        Some(object) => asked.is_answered(alloc, ctx, object),
        None => Ok(false),
    };
    only_if(is_json(alloc, schema, asked.subject().schema)?, answer)
}

/// Whether a value is that of a JSON text.
pub(super) fn is_json(alloc: Global, value: &Value, text: &str) -> Answer {
    let wanted = json(alloc, text)?;
    let is_so = *value == wanted;
    drop(wanted);
    Ok(is_so)
}

/// Whether this is answered as it is to be, in a context of its own. The context and the schema object are as they
/// were, whatever was answered.
pub(super) fn is_answered<A: Asked>(alloc: Global, asked: &A) -> Answer {
    let formats = [even_format(alloc)?];
    let answer = is_answered_under(alloc, asked, &formats);
    drop(formats);
    answer
}

// The same with these formats in the context.
fn is_answered_under<A: Asked>(alloc: Global, asked: &A, formats: &[NamedFormat]) -> Answer {
    let (draft, builder) = (asked.subject().draft, builder());
    let ctx = context(alloc, draft, &builder, formats)?;
    let answer = is_answered_in(alloc, &ctx, asked);
    let is_as_lent = is_as_made(alloc, &ctx, draft);
    drop(ctx);
    only_if(is_as_lent, answer)
}

/// Whether a refusal is at this place. One as out of memory is an error here, and stands at the root.
pub(super) fn is_at(refusal: &CompileError, place: Option<&str>) -> Result<bool, AllocError> {
    let (at, is_memory) = (
        refusal.location.as_str(),
        matches!(refusal.kind, CompileErrorKind::Memory),
    );
    if is_memory && at.is_empty() {
        Err(AllocError)
    } else {
        Ok(!is_memory && Some(at) == place)
    }
}

pub(super) fn root_site(alloc: Global) -> Site {
    Site {
        evaluation: Location::root(alloc),
        instance: Location::root(alloc),
    }
}

/// Whether a node and a site are those that were lent.
pub(super) fn are_lent(node: &Value, text: &str, site: &Site) -> bool {
    node.as_str() == Some(text)
        && site.evaluation.as_str().is_empty()
        && site.instance.as_str().is_empty()
}

/// An error of a text at the root, of the keyword `k`.
pub(super) fn error_at_root(
    alloc: Global,
    kind: ErrorKind,
    text: &str,
) -> Result<ValidationError, AllocError> {
    let (root, site) = (Location::root(alloc), root_site(alloc));
    let error = error_at(alloc, kind, "k", text, &root, &None, &site);
    drop(site);
    drop(root);
    error
}

/// A vector that holds one error, to be lent to `collect_errors`.
pub(super) fn lent_errors(alloc: Global) -> Result<Vec<ValidationError>, AllocError> {
    let error = error_at_root(alloc, ErrorKind::FromUtf8, "lent")?;
    let mut errors = Vec::new(alloc);
    errors.push(error)?;
    Ok(errors)
}

// Whether an error is the one that is lent.
fn is_lent(error: &ValidationError) -> bool {
    matches!(error.kind, ErrorKind::FromUtf8)
        && error.instance.as_str() == Some("lent")
        && error.schema_path.as_str() == "/k"
        && error.absolute.is_none()
}

/// Whether such a vector holds its error and then those of these lines. A refused call leaves that one alone.
pub(super) fn collects(
    alloc: Global,
    collected: Result<(), AllocError>,
    errors: &[ValidationError],
    wanted: &str,
) -> Result<bool, AllocError> {
    let [first, rest @ ..] = errors else {
        return Ok(false);
    };
    match collected {
        Ok(()) if is_lent(first) => are_lines(alloc, rest, wanted),
        Ok(()) => Ok(false),
        Err(AllocError) if is_lent(first) && rest.is_empty() => Err(AllocError),
        Err(AllocError) => Ok(false),
    }
}

// The place and the text of each error.
fn error_lines(alloc: Global, errors: &[ValidationError]) -> Result<String, AllocError> {
    let mut lines = String::new(alloc);
    for error in errors {
        push_error(alloc, error, &mut lines)?;
    }
    Ok(lines)
}

/// Whether these are the lines of the errors.
pub(super) fn are_lines(alloc: Global, errors: &[ValidationError], wanted: &str) -> Answer {
    Ok(error_lines(alloc, errors)?.as_str() == wanted)
}

// Appends the line of an error.
fn push_error(
    alloc: Global,
    error: &ValidationError,
    lines: &mut String,
) -> Result<(), AllocError> {
    lines.push_str(error.schema_path.as_str())?;
    lines.push_str(": ")?;
    lines.push_str(&error.text(alloc)?)?;
    lines.push_str("\n")
}

/// Whether `validate` answers the first of these lines, or that there is none.
pub(super) fn gives_the_first(
    alloc: Global,
    verdict: Result<(), Fault>,
    wanted: &str,
) -> Result<bool, AllocError> {
    let is_so = match &verdict {
        Ok(()) => Ok(wanted.is_empty()),
        Err(Fault::Invalid(error)) => is_the_first(alloc, error, wanted),
        Err(Fault::Memory) => Err(AllocError),
    };
    drop(verdict);
    is_so
}

// Whether the line of an error begins these.
fn is_the_first(alloc: Global, error: &ValidationError, lines: &str) -> Answer {
    let mut line = String::new(alloc);
    push_error(alloc, error, &mut line)?;
    Ok(lines.starts_with(line.as_str()))
}

/// One of the four calls.
#[derive(Clone, Copy)]
pub(super) enum Call {
    IsValid,
    Validate,
    CollectErrors,
    Evaluate,
}
