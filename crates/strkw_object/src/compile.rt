//! The compilation of a schema object's string keywords.

ghost use Rattle.std.specs.Prelude.{◌≡◌, ◌⊎◌, IfErr, IfOk, None, Some, false};
ghost use Rattle.serde_json.specs.Data.{Members};
ghost use Rattle.serde_json.specs.View.{members_view};
ghost use Rattle.strkw_report.specs.Refusals.{prints_float, reason_of, refusal_of};
ghost use Rattle.strkw_keywords.specs.Compiled.{IsCompiledAt, out_of_memory_refusal};
ghost use Rattle.strkw_keywords.specs.Demands.{IsInUse};
ghost use Rattle.strkw_keywords.specs.Handed.{lists_of, settings_of};
ghost use Rattle.strkw_keywords.specs.Object.{FirstRefusal};
ghost use Rattle.strkw_object.specs.Compiled.{IsCompiledFrom, keywords_demands};
ghost use Rattle.strkw_object.specs.Values.{AreOthersOf, AreOwnedOf, owned_value};

use crate::strings::StringKeywords;
use crate::values::OwnedValues;
use serde_json::{Map, Value};
use std::alloc::Global;
use strkw_keywords::laws::compiled_is_in_use;
use strkw_keywords::{
    Context, Keyword, Validator, Values, compile_among, compile_moved_schema, take_content_schema,
};
use strkw_pattern::EngineBuilder;
use strkw_report::{CompileError, CompileErrorKind, Location};

/// Compiles the string keywords of a schema object: `contentMediaType`, `contentEncoding`, `contentSchema`, `format`,
/// `minLength`, `maxLength`, `pattern`, in this order. A keyword that the options override is skipped, and other keys
/// are not looked at.
///
/// The first malformed entry is refused, at the location of the object joined with the keyword to blame:
/// - `NotString` for a value that is to be a string and is none, or `FractionalNumber` where it holds a number that is
///   no whole number of 64 bits;
/// - `FractionalNumber` also for a `contentSchema` that would be noted and holds such a number;
/// - `UnknownFormat` for a checked format that is not known and not ignored;
/// - `Size` for a limit that is no non-negative whole number of 64 bits;
/// - `Regex` for a pattern that is not literal and that the builder does not take.
///
/// `Memory` comes where it is out of memory, at the root.
pub fn compile_strings<B: EngineBuilder>(
    alloc: Global,
    ctx: &Context<'_, B>,
    object: &Map<String, Value>,
) -> Result<StringKeywords<B::Engine>, CompileError>
    ensures compiled { IfOk result (λ k. IsCompiledFrom B.Engine.outcome
        (settings_of B.takes B.outcome admits accepts is_encoding decoding ctx.now)
        (members_view object.now.entries) k) }
    ensures in_use { IfOk result (λ k. IsInUse (keywords_demands B.Engine.outcome k)
        (lists_of admits accepts is_encoding decoding ctx.now.checks)) }
    ensures refused { IfErr result (λ e. (refusal_of e ≡ out_of_memory_refusal) ⊎ FirstRefusal
        (settings_of B.takes B.outcome admits accepts is_encoding decoding ctx.now)
        (members_view object.now.entries) (Some (refusal_of e))) }
    // So each refusal has its text.
    ensures printable { IfErr result (λ e. prints_float (reason_of e.kind) ≡ false) }
{
    compiled_is_in_use();
    let values = Values::of(object);
    let schema = compile_among(alloc, ctx, &values, Keyword::ContentSchema);
    compile_beside(alloc, ctx, &values, schema)
}

/// What `compile_strings` answers for an object that is given up: its value at `contentSchema` is moved into the
/// compiled keywords, and not copied.
pub fn compile_owned<B: EngineBuilder>(
    alloc: Global,
    ctx: &Context<'_, B>,
    mut object: Map<String, Value>,
) -> Result<StringKeywords<B::Engine>, CompileError>
    ensures compiled { IfOk result (λ k. IsCompiledFrom B.Engine.outcome
        (settings_of B.takes B.outcome admits accepts is_encoding decoding ctx.now)
        (members_view object.entries) k) }
    ensures in_use { IfOk result (λ k. IsInUse (keywords_demands B.Engine.outcome k)
        (lists_of admits accepts is_encoding decoding ctx.now.checks)) }
    ensures refused { IfErr result (λ e. (refusal_of e ≡ out_of_memory_refusal) ⊎ FirstRefusal
        (settings_of B.takes B.outcome admits accepts is_encoding decoding ctx.now)
        (members_view object.entries) (Some (refusal_of e))) }
    // So each refusal has its text.
    ensures printable { IfErr result (λ e. prints_float (reason_of e.kind) ≡ false) }
{
    compiled_is_in_use();
    let schema = take_content_schema(alloc, ctx, &mut object);
    compile_beside(alloc, ctx, &Values::of(&object), schema)
}

/// What `compile_strings` answers for an object with these values. That at `contentSchema` is taken out, moved into the
/// compiled keywords, and not copied; the others stay.
pub fn compile_values<B: EngineBuilder>(
    alloc: Global,
    ctx: &Context<'_, B>,
    values: &mut OwnedValues,
) -> Result<StringKeywords<B::Engine>, CompileError>
    ensures compiled { (ms : Members) → AreOwnedOf ms values.old
        → IfOk result (λ k. IsCompiledFrom B.Engine.outcome
        (settings_of B.takes B.outcome admits accepts is_encoding decoding ctx.now) ms k) }
    ensures in_use { IfOk result (λ k. IsInUse (keywords_demands B.Engine.outcome k)
        (lists_of admits accepts is_encoding decoding ctx.now.checks)) }
    ensures refused { (ms : Members) → AreOwnedOf ms values.old
        → IfErr result (λ e. (refusal_of e ≡ out_of_memory_refusal) ⊎ FirstRefusal
        (settings_of B.takes B.outcome admits accepts is_encoding decoding ctx.now)
        ms (Some (refusal_of e))) }
    // So each refusal has its text.
    ensures printable { IfErr result (λ e. prints_float (reason_of e.kind) ≡ false) }
    ensures taken { owned_value values.new Keyword.ContentSchema ≡ None }
    ensures others { (other : Keyword) → (other ≡ Keyword.ContentSchema → ⊥)
        → owned_value values.new other ≡ owned_value values.old other }
{
    compiled_is_in_use();
    let schema = values.take_schema();
    let others = values.as_values();
    let schema = compile_moved_schema(alloc, ctx, others.content_media_type, schema);
    compile_beside(alloc, ctx, &others, schema)
}

// Compiles the keywords of an object by what its entry at `contentSchema` is compiled to, and by the values at the
// others.
fn compile_beside<B: EngineBuilder>(
    alloc: Global,
    ctx: &Context<'_, B>,
    values: &Values<'_>,
    mut schema: Option<Result<Validator<B::Engine>, CompileError>>,
) -> Result<StringKeywords<B::Engine>, CompileError>
    ensures compiled { (ms : Members) → AreOthersOf ms values.now
        → IsCompiledAt B.Engine.outcome (settings_of B.takes B.outcome admits accepts is_encoding
        decoding ctx.now) ms Keyword.ContentSchema schema
        → IfOk result (λ k. IsCompiledFrom B.Engine.outcome
        (settings_of B.takes B.outcome admits accepts is_encoding decoding ctx.now) ms k) }
    ensures refused { (ms : Members) → AreOthersOf ms values.now
        → IsCompiledAt B.Engine.outcome (settings_of B.takes B.outcome admits accepts is_encoding
        decoding ctx.now) ms Keyword.ContentSchema schema
        → IfErr result (λ e. (refusal_of e ≡ out_of_memory_refusal)
        ⊎ FirstRefusal (settings_of B.takes B.outcome admits accepts is_encoding decoding ctx.now)
        ms (Some (refusal_of e))) }
{
    let mut validators = Vec::new(alloc);
    for keyword in Keyword::VARIANTS {
        let compiled = match keyword {
            Keyword::ContentSchema => schema.take(),
            _ => {
                // Nothing is made ready for a keyword that the object has not.
                if values.at(*keyword).is_none() {
                    continue;
                }
                compile_among(alloc, ctx, values, *keyword)
            }
        };
        let Some(compiled) = compiled else {
            continue;
        };
        let validator = compiled?;
        let Ok(()) = validators.reserve(1) else {
            return Err(CompileError {
                kind: CompileErrorKind::Memory,
                location: Location::root(alloc),
            });
        };
        validators.push_reserved(validator);
    }
    Ok(StringKeywords { validators })
}
