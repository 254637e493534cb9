//! What only annotates: its test, which the unchecked `format` has too, and the validators and the entries of the
//! content keywords in drafts 2019-09 and 2020-12.

ghost use Rattle.std.specs.Prelude.{◌≡◌, IfErr, IfOk, Some, [], option_map};
ghost use Rattle.std.specs.Bool.{MatchBool};
ghost use Rattle.serde_json.specs.Data.{Members};
ghost use Rattle.serde_json.specs.Find.{as_str, get_member};
ghost use Rattle.serde_json.specs.View.{members_view, view};
ghost use Rattle.strkw_report.specs.Refusals.{fractional_number};
ghost use Rattle.strkw_keywords.specs.Compiled.{IsBuilt, IsCompiledAt, single_entry};
ghost use Rattle.strkw_keywords.specs.Keywords.{keyword_name};
ghost use Rattle.strkw_keywords.specs.Object.{content_rule, gives, malformed, noted_text, nothing, schema_beside, schema_entry};
ghost use Rattle.strkw_keywords.specs.Remarks.{remark_at};
ghost use Rattle.strkw_keywords.specs.Settings.{place_in, settings_of};
ghost use Rattle.strkw_keywords.specs.Without.{IsWithoutSchema};

use crate::checks::{Checks, ContentCodec, Format, MediaTypeCheck};
use crate::compile::{Refused, member, origin_of, refusal};
use crate::content_rule::ContentRule;
use crate::findings::{Findings, Found};
use crate::keyed::Keyed;
use crate::keyword::Keyword;
use crate::options::Context;
use crate::parts::{Noted, Origin, Parts};
use crate::test::Test;
use crate::validator::Validator;
use crate::values::Object;
use serde_json::{Map, Value};
use std::alloc::{AllocError, Global};
use strkw_pattern::EngineBuilder;
use strkw_report::{CompileError, CompileErrorKind, Node, TextNode, holds_fraction};

/// Notes the media type of a text, and makes no errors (2020-12, section 8.4).
pub type ContentMediaTypeAnnotationValidator = Keyed<Untested>;

/// Notes the encoding of a text, and makes no errors (2020-12, section 8.3).
pub type ContentEncodingAnnotationValidator = Keyed<Untested>;

/// Notes the schema of what a text encodes, and makes no errors (2020-12, section 8.5).
pub type ContentSchemaAnnotationValidator = Keyed<Untested>;

/// No test: a keyword that notes its value, and finds nothing in any text. It never answers that it is out of memory.
#[derive(Drop)]
pub struct Untested {
    pub(crate) keyword: Keyword,
    pub(crate) value: Value,
}

impl Untested {
    // The validator that notes a value at a keyword, in the schema object of a context.
    pub(crate) fn keyed_validator<B>(
        ctx: &Context<'_, B>,
        keyword: Keyword,
        value: Value,
    ) -> Result<Keyed<Untested>, AllocError>
        ensures place { IfOk result (λ v. v.origin ≡ place_in ctx.now) }
        ensures keyword { IfOk result (λ v. v.test.keyword ≡ keyword) }
        ensures value { IfOk result (λ v. view v.test.value ≡ view value) }
    {
        let origin = origin_of(ctx)?;
        let test = Untested { keyword, value };
        Ok(Keyed { origin, test })
    }
}

impl Test for Untested {
    ghost remark = { λ t location. Some (remark_at location t.keyword (view t.value)) };

    fn parts<'a>(&'a self, origin: &'a Origin) -> Parts<'a> {
        Parts::of_quiet(origin, Some(Noted::Value(self.keyword, &self.value)))
    }

    fn findings<N: Node>(&self, _: Global, _: &TextNode<'_, N>, _: &Checks) -> Found<'_> {
        Ok(Findings {
            first: None,
            second: None,
        })
    }
}

// A text is noted at `contentMediaType` or `contentEncoding`.
pub(crate) fn build_text_annotation<B: EngineBuilder>(
    ctx: &Context<'_, B>,
    keyword: Keyword,
    value: &Value,
) -> Result<Option<Validator<B::Engine>>, Refused>
    ensures { IsBuilt B.Engine.outcome (place_in ctx.now)
        (single_entry keyword (noted_text (view value.now) (as_str (view value.now)))) result }
{
    if value.as_str().is_none() {
        return Ok(None);
    }
    let noting = Untested::keyed_validator(ctx, keyword, value.clone()?)?;
    Ok(Some(match keyword {
        Keyword::ContentMediaType => Validator::ContentMediaTypeAnnotation(noting),
        _ => Validator::ContentEncodingAnnotation(noting),
    }))
}

pub(crate) fn build_schema_annotation<B: EngineBuilder, O: Object>(
    ctx: &Context<'_, B>,
    parent: &O,
    value: &Value,
) -> Result<Option<Validator<B::Engine>>, Refused>
    ensures { IsBuilt B.Engine.outcome (place_in ctx.now) (single_entry Keyword.ContentSchema
        (schema_entry ContentRule.Noted (O.members parent.now) (view value.now))) result }
{
    if !notes_schema(parent.value(Keyword::ContentMediaType), value)? {
        return Ok(None);
    }
    let noting = Untested::keyed_validator(ctx, Keyword::ContentSchema, value.clone()?)?;
    Ok(Some(Validator::ContentSchemaAnnotation(noting)))
}

// The same of a value that is given up, by the draft: it is moved, and not copied.
fn build_moved_schema<B: EngineBuilder>(
    ctx: &Context<'_, B>,
    media_type: Option<&Value>,
    schema: Value,
) -> Result<Option<Validator<B::Engine>>, Refused>
    ensures { (ms : Members) → option_map (λ v. view v.now) media_type.entry
        ≡ get_member (keyword_name Keyword.ContentMediaType) ms
        → IsBuilt B.Engine.outcome (place_in ctx.now) (single_entry Keyword.ContentSchema
        (schema_entry (content_rule ctx.now.draft) ms (view schema))) result }
{
    if !matches!(ContentRule::of(ctx.draft), ContentRule::Noted)
        || !notes_schema(media_type, &schema)?
    {
        return Ok(None);
    }
    let noting = Untested::keyed_validator(ctx, Keyword::ContentSchema, schema)?;
    Ok(Some(Validator::ContentSchemaAnnotation(noting)))
}

// Whether a value is noted as a schema: where there is a media type beside it.
fn notes_schema(media_type: Option<&Value>, value: &Value) -> Result<bool, Refused>
    ensures noted { IfOk result (λ b. MatchBool b
        (schema_beside (option_map (λ v. view v.now) media_type.entry) (view value.now)
        ≡ gives [] (Some (view value.now)))
        (schema_beside (option_map (λ v. view v.now) media_type.entry) (view value.now)
        ≡ nothing)) }
    ensures refused { IfErr result (λ r.
        (schema_beside (option_map (λ v. view v.now) media_type.entry) (view value.now)
        ≡ malformed Keyword.ContentSchema fractional_number)
        × (r ≡ Refused.Malformed Keyword.ContentSchema CompileErrorKind.FractionalNumber)) }
{
    if media_type.is_none() {
        return Ok(false);
    }
    if holds_fraction(value) {
        return Err(Refused::Malformed(Keyword::ContentSchema, CompileErrorKind::FractionalNumber));
    }
    Ok(true)
}

/// What `compile_among` answers at `contentSchema` for an object with these values there and at `contentMediaType`. The
/// schema is moved into the validator, and not copied.
pub fn compile_moved_schema<B: EngineBuilder>(
    alloc: Global,
    ctx: &Context<'_, B>,
    media_type: Option<&Value>,
    schema: Option<Value>,
) -> Option<Result<Validator<B::Engine>, CompileError>>
    ensures { (ms : Members) → option_map (λ v. view v.now) media_type.entry
        ≡ get_member (keyword_name Keyword.ContentMediaType) ms
        → option_map view schema ≡ get_member (keyword_name Keyword.ContentSchema) ms
        → IsCompiledAt B.Engine.outcome
        (settings_of B.takes B.outcome admits accepts is_encoding decoding ctx.now)
        ms Keyword.ContentSchema result }
{
    let schema = schema?;
    if ctx.options.is_overridden(Keyword::ContentSchema) {
        return None;
    }
    match build_moved_schema(ctx, media_type, schema) {
        Ok(None) => None,
        Ok(Some(validator)) => Some(Ok(validator)),
        Err(refused) => Some(Err(refusal(alloc, &ctx.location, refused))),
    }
}

/// Takes the value at `contentSchema` out of an object, and makes the validator of its entry, as `compile_moved_schema`
/// does. The value is taken out, and dropped, also where the entry adds nothing or is refused.
pub fn take_content_schema<B: EngineBuilder>(
    alloc: Global,
    ctx: &Context<'_, B>,
    object: &mut Map<String, Value>,
) -> Option<Result<Validator<B::Engine>, CompileError>>
    ensures compiled { IsCompiledAt B.Engine.outcome
        (settings_of B.takes B.outcome admits accepts is_encoding decoding ctx.now)
        (members_view object.old.entries) Keyword.ContentSchema result }
    ensures others { IsWithoutSchema (members_view object.old.entries)
        (members_view object.new.entries) }
{
    let schema = object.remove(Keyword::ContentSchema.as_str());
    let media_type = member(object, Keyword::ContentMediaType.as_str());
    compile_moved_schema(alloc, ctx, media_type, schema)
}
