//! The validator of one entry of a schema object.

use crate::doubles::{ScriptedBuilder, ScriptedEngine};
use serde_json::{Map, Value};
use std::alloc::Global;
use strkw_keywords::{
    ContentRule, Context, Keyword, Validator, content, format, max_length, member, min_length,
    pattern,
};
use strkw_report::CompileError;

/// What is compiled of the entry at a keyword. `None` where there is no such entry, or the keyword is left out, or the
/// draft does not look at it, or it adds nothing.
pub fn compile_entry<'a>(
    alloc: Global,
    ctx: &Context<'_, ScriptedBuilder<'a>>,
    keyword: Keyword,
    schema: &Map<String, Value>,
) -> Option<Result<Validator<ScriptedEngine<'a>>, CompileError>> {
    if ctx.options.is_overridden(keyword) {
        return None;
    }
    let value = member(schema, keyword.as_str())?;
    match keyword {
        Keyword::Format => format::compile(alloc, ctx, schema, value),
        Keyword::MinLength => min_length::compile(alloc, ctx, schema, value),
        Keyword::MaxLength => max_length::compile(alloc, ctx, schema, value),
        Keyword::Pattern => pattern::compile(alloc, ctx, schema, value),
        Keyword::ContentMediaType => match ContentRule::of(ctx.draft) {
            ContentRule::Ignored => None,
            ContentRule::Checked => content::compile_media_type(alloc, ctx, schema, value),
            ContentRule::Noted => content::compile_media_type_annotation(alloc, ctx, schema, value),
        },
        Keyword::ContentEncoding => match ContentRule::of(ctx.draft) {
            ContentRule::Ignored => None,
            ContentRule::Checked => content::compile_content_encoding(alloc, ctx, schema, value),
            ContentRule::Noted => {
                content::compile_content_encoding_annotation(alloc, ctx, schema, value)
            }
        },
        Keyword::ContentSchema => match ContentRule::of(ctx.draft) {
            ContentRule::Ignored | ContentRule::Checked => None,
            ContentRule::Noted => {
                content::compile_content_schema_annotation(alloc, ctx, schema, value)
            }
        },
    }
}
