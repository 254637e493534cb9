//! The compile functions of the single keywords: the validator of an entry, or its refusal.

ghost use Rattle.std.specs.Prelude.{◌≡◌, Some};
ghost use Rattle.serde_json.specs.View.{members_view, view};
ghost use Rattle.strkw_keywords.specs.Compiled.{IsCompiledAt};
ghost use Rattle.strkw_keywords.specs.Object.{value_at};
ghost use Rattle.strkw_keywords.specs.Settings.{settings_of};

use crate::checks::{ContentCodec, Format, MediaTypeCheck};
use crate::compile::compile_value;
use crate::keyword::Keyword;
use crate::options::Context;
use crate::validator::Validator;
use serde_json::{Map, Value};
use std::alloc::Global;
use strkw_pattern::EngineBuilder;
use strkw_report::CompileError;

/// The validator of the entry `format` (2020-12, section 7; draft 7, section 7). Where formats are not checked it notes
/// the name alone. Otherwise the first of the caller's rows of that name is checked, or else the built-in format of the
/// name in the draft.
///
/// `value` is the parent's value at `format`, which is not overridden. `None` means that the entry adds nothing: the
/// format is unknown, and that is ignored.
///
/// Refusals: `NotString` at that keyword for a value that is no string, or `FractionalNumber` in its place where that
/// value holds a number that is no whole number of 64 bits; `UnknownFormat` there for an unknown format that is not
/// ignored; `Memory`, at the root, where it is out of memory.
pub fn compile_format<B: EngineBuilder>(
    alloc: Global,
    ctx: &Context<'_, B>,
    parent: &Map<String, Value>,
    value: &Value,
) -> Option<Result<Validator<B::Engine>, CompileError>>
    requires { value_at ctx.now.options Keyword.Format (members_view parent.now.entries)
        ≡ Some (view value.now) }
    ensures { IsCompiledAt B.Engine.outcome (settings_of B.takes B.outcome admits accepts
        is_encoding decoding ctx.now) (members_view parent.now.entries) Keyword.Format result }
{
    compile_value(alloc, ctx, parent, value, Keyword::Format)
}

/// The validator of the entry `pattern` (2020-12, section 6.3.3). A literal pattern is compared, and is not shown to
/// the builder; any other is matched by the engine that the builder makes of it.
///
/// `value` is the parent's value at `pattern`, which is not overridden. The answer is never `None`.
///
/// Refusals: `NotString` at that keyword for a value that is no string, or `FractionalNumber` in its place where that
/// value holds a number that is no whole number of 64 bits; `Regex` there for a pattern that is not literal and that
/// the builder does not take; `Memory`, at the root, where it is out of memory.
pub fn compile_pattern<B: EngineBuilder>(
    alloc: Global,
    ctx: &Context<'_, B>,
    parent: &Map<String, Value>,
    value: &Value,
) -> Option<Result<Validator<B::Engine>, CompileError>>
    requires { value_at ctx.now.options Keyword.Pattern (members_view parent.now.entries)
        ≡ Some (view value.now) }
    ensures { IsCompiledAt B.Engine.outcome (settings_of B.takes B.outcome admits accepts
        is_encoding decoding ctx.now) (members_view parent.now.entries) Keyword.Pattern result }
{
    compile_value(alloc, ctx, parent, value, Keyword::Pattern)
}

/// The validator of the entry `minLength` (2020-12, section 6.3.2). It is a `LengthRangeValidator`, which stands for
/// `maxLength` too, where the limit of `maxLength` is there, good and not overridden.
///
/// `value` is the parent's value at `minLength`, which is not overridden. The answer is never `None`.
///
/// Refusals: `Size` at that keyword for a value that is no whole number from 0 to 18446744073709551615; `Memory`, at
/// the root, where it is out of memory.
pub fn compile_min_length<B: EngineBuilder>(
    alloc: Global,
    ctx: &Context<'_, B>,
    parent: &Map<String, Value>,
    value: &Value,
) -> Option<Result<Validator<B::Engine>, CompileError>>
    requires { value_at ctx.now.options Keyword.MinLength (members_view parent.now.entries)
        ≡ Some (view value.now) }
    ensures { IsCompiledAt B.Engine.outcome (settings_of B.takes B.outcome admits accepts
        is_encoding decoding ctx.now) (members_view parent.now.entries) Keyword.MinLength result }
{
    compile_value(alloc, ctx, parent, value, Keyword::MinLength)
}

/// The validator of the entry `maxLength` (2020-12, section 6.3.1).
///
/// `value` is the parent's value at `maxLength`, which is not overridden. `None` means that `minLength` stands for this
/// entry: both limits are good, and `minLength` is not overridden.
///
/// Refusals: as of `min_length::compile`.
pub fn compile_max_length<B: EngineBuilder>(
    alloc: Global,
    ctx: &Context<'_, B>,
    parent: &Map<String, Value>,
    value: &Value,
) -> Option<Result<Validator<B::Engine>, CompileError>>
    requires { value_at ctx.now.options Keyword.MaxLength (members_view parent.now.entries)
        ≡ Some (view value.now) }
    ensures { IsCompiledAt B.Engine.outcome (settings_of B.takes B.outcome admits accepts
        is_encoding decoding ctx.now) (members_view parent.now.entries) Keyword.MaxLength result }
{
    compile_value(alloc, ctx, parent, value, Keyword::MaxLength)
}

/// The validator of the entry `contentMediaType`, by the draft of the context. In drafts 6 and 7 (draft 7, section 8.4)
/// it demands that a text is of the media type or, beside a key `contentEncoding`, overridden or not, that it encodes
/// one. From draft 2019-09 on it notes the value (2020-12, section 8.4).
///
/// `value` is the parent's value at `contentMediaType`, which is not overridden. `None` means that the entry adds
/// nothing. So it is in draft 4; in drafts 6 and 7 where the media type is unknown, and then `contentEncoding` is not
/// looked at, or the codec is; later, where the value is no string.
///
/// Refusals, in drafts 6 and 7: `NotString` at that keyword for a value that is no string, or `FractionalNumber` in its
/// place where that value holds a number that is no whole number of 64 bits, and the same of `contentEncoding`, at that
/// keyword, where the media type is known. In all drafts: `Memory`, at the root, where it is out of memory.
pub fn compile_media_type<B: EngineBuilder>(
    alloc: Global,
    ctx: &Context<'_, B>,
    parent: &Map<String, Value>,
    value: &Value,
) -> Option<Result<Validator<B::Engine>, CompileError>>
    requires { value_at ctx.now.options Keyword.ContentMediaType (members_view parent.now.entries)
        ≡ Some (view value.now) }
    ensures { IsCompiledAt B.Engine.outcome (settings_of B.takes B.outcome admits accepts
        is_encoding decoding ctx.now) (members_view parent.now.entries)
        Keyword.ContentMediaType result }
{
    compile_value(alloc, ctx, parent, value, Keyword::ContentMediaType)
}

/// The validator of the entry `contentEncoding`, by the draft of the context. In drafts 6 and 7 (draft 7, section 8.3)
/// it demands that a text is an encoding. From draft 2019-09 on it notes the value (2020-12, section 8.3).
///
/// `value` is the parent's value at `contentEncoding`, which is not overridden. `None` means that the entry adds
/// nothing. So it is in draft 4; in drafts 6 and 7 where there is a key `contentMediaType`, overridden or not, or the
/// codec is unknown; later, where the value is no string.
///
/// Refusals: as of `compile_media_type`, but none of another keyword.
pub fn compile_content_encoding<B: EngineBuilder>(
    alloc: Global,
    ctx: &Context<'_, B>,
    parent: &Map<String, Value>,
    value: &Value,
) -> Option<Result<Validator<B::Engine>, CompileError>>
    requires { value_at ctx.now.options Keyword.ContentEncoding (members_view parent.now.entries)
        ≡ Some (view value.now) }
    ensures { IsCompiledAt B.Engine.outcome (settings_of B.takes B.outcome admits accepts
        is_encoding decoding ctx.now) (members_view parent.now.entries)
        Keyword.ContentEncoding result }
{
    compile_value(alloc, ctx, parent, value, Keyword::ContentEncoding)
}

/// The validator of the entry `contentSchema`, which notes its value from draft 2019-09 on (2020-12, section 8.5).
///
/// `value` is the parent's value at `contentSchema`, which is not overridden. `None` means that the entry adds nothing:
/// the draft is an earlier one, or there is no key `contentMediaType`.
///
/// Refusals: `FractionalNumber` at `contentSchema`, where the noted value holds a number that is no whole number of 64
/// bits; `Memory`, at the root, where it is out of memory.
pub fn compile_content_schema_annotation<B: EngineBuilder>(
    alloc: Global,
    ctx: &Context<'_, B>,
    parent: &Map<String, Value>,
    value: &Value,
) -> Option<Result<Validator<B::Engine>, CompileError>>
    requires { value_at ctx.now.options Keyword.ContentSchema (members_view parent.now.entries)
        ≡ Some (view value.now) }
    ensures { IsCompiledAt B.Engine.outcome (settings_of B.takes B.outcome admits accepts
        is_encoding decoding ctx.now) (members_view parent.now.entries)
        Keyword.ContentSchema result }
{
    compile_value(alloc, ctx, parent, value, Keyword::ContentSchema)
}
