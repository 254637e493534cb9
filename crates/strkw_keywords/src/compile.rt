//! One entry of a schema object: what is built of it, and why and where it is refused.

ghost use Rattle.std.specs.Prelude.{◌≡◌, ◌⊎◌, IfOk, Some, option_map};
ghost use Rattle.serde_json.specs.Data.{Members};
ghost use Rattle.serde_json.specs.Find.{get_member};
ghost use Rattle.serde_json.specs.View.{members_view, view};
ghost use Rattle.strkw_report.specs.Paths.{path_below};
ghost use Rattle.strkw_report.specs.Refusals.{refusal_of};
ghost use Rattle.strkw_keywords.specs.Compiled.{IsBuiltAt, IsCompiledAt, out_of_memory_refusal, refused_at};
ghost use Rattle.strkw_keywords.specs.Keywords.{keyword_name};
ghost use Rattle.strkw_keywords.specs.Object.{no_string, value_at};
ghost use Rattle.strkw_keywords.specs.Places.{Place};
ghost use Rattle.strkw_keywords.specs.Settings.{place_in, settings_of};
ghost use Rattle.strkw_keywords.specs.Values.{AreValuesOf};

use crate::checks::{ContentCodec, Format, MediaTypeCheck};
use crate::content::{
    build_encoding, build_media_type, build_schema_annotation, build_text_annotation,
};
use crate::content_rule::ContentRule;
use crate::format::build_format;
use crate::keyword::Keyword;
use crate::lengths::{build_max, build_min};
use crate::options::Context;
use crate::parts::Origin;
use crate::pattern::build_pattern;
use crate::validator::Validator;
use crate::values::{Object, Values};
use serde_json::{Map, Value};
use std::alloc::{AllocError, Global};
use strkw_pattern::EngineBuilder;
use strkw_report::{CompileError, CompileErrorKind, Draft, Location, holds_fraction};

/// The validator of the entry at a keyword, or `None` where the entry adds nothing: so it does where the object has no
/// such key, or the keyword is overridden. Where both limits of a length are there and good, the validator of
/// `minLength` stands for both entries, and the entry of `maxLength` adds nothing to it.
///
/// Refusals: those of the entry's own compile function.
pub fn compile_entry<B: EngineBuilder>(
    alloc: Global,
    ctx: &Context<'_, B>,
    object: &Map<String, Value>,
    keyword: Keyword,
) -> Option<Result<Validator<B::Engine>, CompileError>>
    ensures { IsCompiledAt B.Engine.outcome (settings_of B.takes B.outcome admits accepts
        is_encoding decoding ctx.now) (members_view object.now.entries) keyword result }
{
    let value = object.value(keyword)?;
    if ctx.options.is_overridden(keyword) {
        return None;
    }
    compile_value(alloc, ctx, object, value, keyword)
}

/// What `compile_entry` answers for an object with these values.
pub fn compile_among<B: EngineBuilder>(
    alloc: Global,
    ctx: &Context<'_, B>,
    values: &Values<'_>,
    keyword: Keyword,
) -> Option<Result<Validator<B::Engine>, CompileError>>
    ensures { (ms : Members) → AreValuesOf ms values.now
        → IsCompiledAt B.Engine.outcome (settings_of B.takes B.outcome admits accepts
        is_encoding decoding ctx.now)
        ms keyword result }
{
    let value = values.value(keyword)?;
    if ctx.options.is_overridden(keyword) {
        return None;
    }
    compile_value(alloc, ctx, values, value, keyword)
}

// The same, given the value.
pub(crate) fn compile_value<B: EngineBuilder, O: Object>(
    alloc: Global,
    ctx: &Context<'_, B>,
    object: &O,
    value: &Value,
    keyword: Keyword,
) -> Option<Result<Validator<B::Engine>, CompileError>>
    requires { value_at ctx.now.options keyword (O.members object.now) ≡ Some (view value.now) }
    ensures { IsCompiledAt B.Engine.outcome (settings_of B.takes B.outcome admits accepts
        is_encoding decoding ctx.now) (O.members object.now) keyword result }
{
    match build(alloc, ctx, object, value, keyword) {
        Ok(None) => None,
        Ok(Some(validator)) => Some(Ok(validator)),
        Err(refused) => Some(Err(refusal(alloc, &ctx.location, refused))),
    }
}

// The same, before a refusal has its place.
fn build<B: EngineBuilder, O: Object>(
    alloc: Global,
    ctx: &Context<'_, B>,
    object: &O,
    value: &Value,
    keyword: Keyword,
) -> Result<Option<Validator<B::Engine>>, Refused>
    requires { value_at ctx.now.options keyword (O.members object.now) ≡ Some (view value.now) }
    ensures { IsBuiltAt B.Engine.outcome
        (settings_of B.takes B.outcome admits accepts is_encoding decoding ctx.now)
        (O.members object.now) keyword result }
{
    match keyword {
        Keyword::ContentMediaType => match ContentRule::of(ctx.draft) {
            ContentRule::Ignored => Ok(None),
            ContentRule::Checked => build_media_type(alloc, ctx, object, value),
            ContentRule::Noted => build_text_annotation(ctx, keyword, value),
        },
        Keyword::ContentEncoding => match ContentRule::of(ctx.draft) {
            ContentRule::Ignored => Ok(None),
            ContentRule::Checked => build_encoding(alloc, ctx, object, value),
            ContentRule::Noted => build_text_annotation(ctx, keyword, value),
        },
        Keyword::ContentSchema => match ContentRule::of(ctx.draft) {
            ContentRule::Ignored => Ok(None),
            ContentRule::Checked => Ok(None),
            ContentRule::Noted => build_schema_annotation(ctx, object, value),
        },
        Keyword::Format => build_format(alloc, ctx, value),
        Keyword::MinLength => build_min(ctx, object, value),
        Keyword::MaxLength => build_max(ctx, object, value),
        Keyword::Pattern => build_pattern(alloc, ctx, value),
    }
}

// Why an entry is refused, before its place is written.
#[derive(Drop)]
pub(crate) enum Refused {
    // The value at this keyword is to blame.
    Malformed(Keyword, CompileErrorKind),
    // Out of memory.
    Memory,
}

impl From<AllocError> for Refused {
    ghost use Rattle.strkw_keywords.specs.declared.compile.Refused.TheVariants.{Memory};

    ghost from_gives = { λ _ r. r ≡ Memory };

    fn from(_: AllocError) -> Refused {
        Refused::Memory
    }
}

/// The value of a key, or `None` where the object has no such key.
pub fn member<'v>(map: &'v Map<String, Value>, name: &str) -> Option<&'v Value>
    ensures { option_map (λ x. view x.now) result
        ≡ get_member name.now (members_view map.now.entries) }
{
    map.get(name)
}

// The refusal of a value that is no string.
pub(crate) fn no_string(value: &Value, keyword: Keyword) -> Refused
    ensures { (result ≡ Refused.Memory) ⊎ ((place : Place) → refused_at place result
        ≡ record {
          reason = no_string (view value.now);
          location = path_below place.schema (keyword_name keyword);
        }) }
{
    if holds_fraction(value) {
        return Refused::Malformed(keyword, CompileErrorKind::FractionalNumber);
    }
    match value.clone() {
        Ok(value) => Refused::Malformed(keyword, CompileErrorKind::NotString { value }),
        Err(_) => Refused::Memory,
    }
}

// Where the schema object of a context stands.
pub(crate) fn origin_of<B>(ctx: &Context<'_, B>) -> Result<Origin, AllocError>
    ensures { IfOk result (λ o. o ≡ place_in ctx.now) }
{
    let absolute = match &ctx.absolute {
        Some(prefix) => Some(prefix.clone()?),
        None => None,
    };
    let location = ctx.location.clone()?;
    Ok(Origin { location, absolute })
}

// The refusal with its place; out of memory stands at the root.
pub(crate) fn refusal(alloc: Global, location: &Location, refused: Refused) -> CompileError
    ensures { (place : Place) → place.schema ≡ location.now
        → (refusal_of result ≡ out_of_memory_refusal)
        ⊎ ((refused ≡ Refused.Memory → ⊥) × (refusal_of result ≡ refused_at place refused)) }
{
    if let Refused::Malformed(keyword, kind) = refused {
        if let Ok(location) = location.join(keyword.as_str()) {
            return CompileError { kind, location };
        }
    }
    CompileError {
        kind: CompileErrorKind::Memory,
        location: Location::root(alloc),
    }
}
