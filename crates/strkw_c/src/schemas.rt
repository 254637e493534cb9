//! One schema object, read from its bytes and compiled.

ghost use Rattle.std.specs.Prelude.{◌≡◌, Some, IfOk, IfErr};
ghost use Rattle.serde_json.specs.Data.{Members};
ghost use Rattle.serde_json.specs.View.{members_view};
ghost use Rattle.strkw_report.specs.declared.refusal.CompileError.{CompileError};
ghost use Rattle.strkw_ecma.specs.machine.Engine.{engine_outcome};
ghost use Rattle.strkw_keywords.specs.Handed.{lists_of};
ghost use Rattle.strkw_keywords.specs.Demands.{IsInUse};
ghost use Rattle.strkw_object.specs.Compiled.{IsCompiledFrom, keywords_demands};
ghost use Rattle.strkw_c.specs.declared.schemas.Failure.TheVariants.{Memory};
ghost use Rattle.strkw_c.specs.Settings.{settings_by};
ghost use Rattle.strkw_c.specs.Verdicts.{IsSchema, Fails, FailsObject};

use serde_json::{Map, Value};
use std::alloc::{AllocError, Global};
use strkw_ecma::{EcmaMatcher, LenientPatterns};
use strkw_json::read_value;
use strkw_keywords::{Checks, Context, Options};
use strkw_object::{StringKeywords, compile_strings};
use strkw_report::{CompileError, CompileErrorKind, Draft};

/// Why a schema has no verdicts.
#[derive(Debug, Drop)]
pub(crate) enum Failure {
    /// Out of memory.
    Memory,
    /// The bytes are no JSON object.
    NoSchema,
    /// An entry of the schema object is refused.
    Refused(CompileError),
}

// Out of memory, with or without what was to be stored.
impl<E: Into<AllocError> + Drop> From<E> for Failure {
    ghost from_gives = { λ _ failure. failure ≡ Memory };

    fn from(_: E) -> Failure {
        Failure::Memory
    }
}

/// The compiled object of a schema that is given by its bytes. Its patterns are those that
/// `LenientPatterns` of `strkw_ecma` takes.
pub(crate) fn compile(
    alloc: Global,
    draft: Draft,
    options: Options,
    checks: &Checks,
    schema: &[u8],
) -> Result<StringKeywords<EcmaMatcher>, Failure>
    ensures compiled { IfOk result (λ k. (object : Members) × IsSchema schema.now (Some object)
        × IsCompiledFrom engine_outcome (settings_by draft options
        (lists_of admits accepts is_encoding decoding checks.now)) object k) }
    ensures in_use { IfOk result (λ k. IsInUse (keywords_demands engine_outcome k)
        (lists_of admits accepts is_encoding decoding checks.now)) }
    ensures failed { IfErr result (λ failure. Fails failure (settings_by draft options
        (lists_of admits accepts is_encoding decoding checks.now)) schema.now) }
{
    let Some(value) = read_value(alloc, schema)? else {
        return Err(Failure::NoSchema);
    };
    match value.as_object() {
        Some(object) => compile_object(alloc, draft, options, checks, object),
        None => Err(Failure::NoSchema),
    }
}

fn compile_object(
    alloc: Global,
    draft: Draft,
    options: Options,
    checks: &Checks,
    object: &Map<String, Value>,
) -> Result<StringKeywords<EcmaMatcher>, Failure>
    ensures compiled { IfOk result (λ k. IsCompiledFrom engine_outcome (settings_by draft options
        (lists_of admits accepts is_encoding decoding checks.now))
        (members_view object.now.entries) k) }
    ensures in_use { IfOk result (λ k. IsInUse (keywords_demands engine_outcome k)
        (lists_of admits accepts is_encoding decoding checks.now)) }
    ensures failed { IfErr result (λ failure. FailsObject failure (settings_by draft options
        (lists_of admits accepts is_encoding decoding checks.now))
        (members_view object.now.entries)) }
{
    let mut ctx = Context::new(alloc, draft, &LenientPatterns);
    ctx.options = options;
    ctx.checks = Checks {
        formats: checks.formats,
        media_types: checks.media_types,
        codecs: checks.codecs,
    };
    match compile_strings(alloc, &ctx, object) {
        Ok(keywords) => Ok(keywords),
        Err(
            CompileError {
                kind: CompileErrorKind::Memory,
                ..
            },
        ) => Err(Failure::Memory),
        Err(refusal) => Err(Failure::Refused(refusal)),
    }
}
