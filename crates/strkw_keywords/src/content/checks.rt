//! The content keywords where they are checked, in drafts 6 and 7: their validators, and their entries.

ghost use Rattle.std.specs.Prelude.{◌∷◌, ◌≡◌, IfOk, [], option_map};
ghost use Rattle.serde_json.specs.View.{view};
ghost use Rattle.strkw_keywords.specs.Choices.{choice_of};
ghost use Rattle.strkw_keywords.specs.Compiled.{IsBuilt, single_entry};
ghost use Rattle.strkw_keywords.specs.Demands.{HasFinding, encodes_media_type, is_encoded, is_media_type};
ghost use Rattle.strkw_keywords.specs.Findings.{finding_of};
ghost use Rattle.strkw_keywords.specs.Lists.{lists_of};
ghost use Rattle.strkw_keywords.specs.Object.{codec_named, encoding_entry, known_codec, known_media_type, media_type_entry};
ghost use Rattle.strkw_keywords.specs.Settings.{place_in, settings_of};

use super::{accepts, chosen_codec, chosen_media_type, decode, is_encoding};
use crate::checks::{Checks, Choice, ContentCodec, Format, MediaTypeCheck};
use crate::compile::{Refused, no_string, origin_of};
use crate::content_rule::ContentRule;
use crate::findings::{Findings, Found, FoundOne};
use crate::keyed::Keyed;
use crate::keyword::Keyword;
use crate::options::Context;
use crate::parts::{Origin, Parts};
use crate::test::Test;
use crate::validator::Validator;
use crate::values::Object;
use serde_json::Value;
use std::alloc::{AllocError, Global};
use strkw_coding::{BuiltinMediaType, Codec, DecodeError};
use strkw_pattern::EngineBuilder;
use strkw_report::{Failure, Node, TextNode};

/// Demands that a text is of a media type (draft 7, section 8.4).
pub type ContentMediaTypeValidator = Keyed<OfMediaType>;

/// The test of a text for a media type, a built-in one or a row of the caller. Its only error is out of memory.
#[derive(Drop)]
pub struct OfMediaType {
    pub(crate) media_type: Choice<BuiltinMediaType>,
}

impl Test for OfMediaType {
    ghost demands = { λ t. is_media_type (choice_of t.media_type) ∷ [] };

    fn parts<'a>(&'a self, origin: &'a Origin) -> Parts<'a> {
        Parts::of_content(origin, self.media_type.row(), None)
    }

    fn findings<N: Node>(
        &self,
        alloc: Global,
        text: &TextNode<'_, N>,
        checks: &Checks,
    ) -> Found<'_> {
        let is_accepted = accepts(alloc, &self.media_type, checks, text.as_str())?;
        let failure = Failure::ContentMediaType(chosen_media_type(&self.media_type));
        Ok(Findings {
            first: (!is_accepted).then_some(failure),
            second: None,
        })
    }
}

/// Demands that a text is an encoding (draft 7, section 8.3). What it encodes may be any bytes.
pub type ContentEncodingValidator = Keyed<Encoded>;

/// The test of a text for an encoding, by a built-in codec or by a row of the caller. Its only error is out of memory.
#[derive(Drop)]
pub struct Encoded {
    pub(crate) codec: Choice<Codec>,
}

impl Encoded {
    fn finding(&self, alloc: Global, text: &str, checks: &Checks) -> FoundOne<'_>
        ensures { IfOk result (λ o. HasFinding (is_encoded (choice_of self.now.codec))
            (lists_of admits accepts is_encoding decoding checks.now)
            text.now (option_map finding_of o)) }
    {
        if is_encoding(alloc, &self.codec, checks, text)? {
            Ok(None)
        } else {
            Ok(Some(Failure::ContentEncoding(chosen_codec(&self.codec))))
        }
    }
}

impl Test for Encoded {
    ghost demands = { λ t. is_encoded (choice_of t.codec) ∷ [] };

    fn parts<'a>(&'a self, origin: &'a Origin) -> Parts<'a> {
        Parts::of_content(origin, None, self.codec.row())
    }

    fn findings<N: Node>(
        &self,
        alloc: Global,
        text: &TextNode<'_, N>,
        checks: &Checks,
    ) -> Found<'_> {
        Ok(Findings {
            first: self.finding(alloc, text.as_str(), checks)?,
            second: None,
        })
    }
}

/// Demands that a text encodes a text of a media type (draft 7, sections 8.3 and 8.4). It has one error at most: at
/// `contentEncoding` where it is no encoding or encodes bytes that are not UTF-8, and at `contentMediaType` where what
/// it encodes is not of the media type.
pub type ContentMediaTypeAndEncodingValidator = Keyed<EncodedMediaType>;

/// The test of what a text encodes for a media type: the codec, and the media type. Its only error is out of memory.
#[derive(Drop)]
pub struct EncodedMediaType {
    pub(crate) codec: Choice<Codec>,
    pub(crate) media_type: Choice<BuiltinMediaType>,
}

impl EncodedMediaType {
    fn finding(&self, alloc: Global, text: &str, checks: &Checks) -> FoundOne<'_>
        ensures { IfOk result (λ o. HasFinding
            (encodes_media_type (choice_of self.now.codec) (choice_of self.now.media_type))
            (lists_of admits accepts is_encoding decoding checks.now) text.now
            (option_map finding_of o)) }
    {
        match decode(alloc, &self.codec, checks, text) {
            Ok(None) => Ok(Some(Failure::ContentEncoding(chosen_codec(&self.codec)))),
            Err(DecodeError::NotUtf8) => Ok(Some(Failure::FromUtf8)),
            Err(DecodeError::Memory) => Err(AllocError),
            Ok(Some(decoded)) => {
                if accepts(alloc, &self.media_type, checks, decoded.as_str())? {
                    Ok(None)
                } else {
                    Ok(Some(Failure::ContentMediaType(chosen_media_type(&self.media_type))))
                }
            }
        }
    }
}

impl Test for EncodedMediaType {
    ghost demands = { λ t. encodes_media_type (choice_of t.codec) (choice_of t.media_type) ∷ [] };

    fn parts<'a>(&'a self, origin: &'a Origin) -> Parts<'a> {
        Parts::of_content(origin, self.media_type.row(), self.codec.row())
    }

    fn findings<N: Node>(
        &self,
        alloc: Global,
        text: &TextNode<'_, N>,
        checks: &Checks,
    ) -> Found<'_> {
        Ok(Findings {
            first: self.finding(alloc, text.as_str(), checks)?,
            second: None,
        })
    }
}

// What is known by a name, if anything is, or out of memory.
type Known<A> = Result<Option<Choice<A>>, AllocError>;

// The media type of a name, if it is known.
fn media_type_known<B>(alloc: Global, ctx: &Context<'_, B>, name: &str) -> Known<BuiltinMediaType>
    ensures { IfOk result (λ o. option_map choice_of o ≡ known_media_type
        (lists_of admits accepts is_encoding decoding ctx.now.checks) ctx.now.options name.now) }
{
    if let Some(position) = ctx.checks.media_type_named(name) {
        return Ok(Some(Choice::of_row(alloc, position, name)?));
    }
    if ctx.options.json_media_type && name == "application/json" {
        Ok(Some(Choice::Builtin(BuiltinMediaType::Json)))
    } else {
        Ok(None)
    }
}

// The codec of a name.
fn codec_named(name: &str) -> Option<Codec>
    ensures { result ≡ codec_named name.now }
{
    Codec::by_name(name)
}

// The codec of a name, if it is known.
fn codec_known<B>(alloc: Global, ctx: &Context<'_, B>, name: &str) -> Known<Codec>
    ensures { IfOk result (λ o. option_map choice_of o
        ≡ known_codec (lists_of admits accepts is_encoding decoding ctx.now.checks) ctx.now.options
        name.now) }
{
    if let Some(position) = ctx.checks.codec_named(name) {
        return Ok(Some(Choice::of_row(alloc, position, name)?));
    }
    match codec_named(name) {
        Some(codec) if ctx.options.has_codec(codec) => Ok(Some(Choice::Builtin(codec))),
        _ => Ok(None),
    }
}

pub(crate) fn build_media_type<B: EngineBuilder, O: Object>(
    alloc: Global,
    ctx: &Context<'_, B>,
    parent: &O,
    value: &Value,
) -> Result<Option<Validator<B::Engine>>, Refused>
    ensures { IsBuilt B.Engine.outcome (place_in ctx.now) (single_entry Keyword.ContentMediaType
        (media_type_entry ContentRule.Checked
        (settings_of B.takes B.outcome admits accepts is_encoding decoding ctx.now)
        (O.members parent.now) (view value.now))) result }
{
    let Some(name) = value.as_str() else {
        return Err(no_string(value, Keyword::ContentMediaType));
    };
    let Some(media_type) = media_type_known(alloc, ctx, name)? else {
        return Ok(None);
    };
    let Some(encoding) = parent.value(Keyword::ContentEncoding) else {
        let origin = origin_of(ctx)?;
        let test = OfMediaType { media_type };
        return Ok(Some(Validator::ContentMediaType(Keyed { origin, test })));
    };
    let Some(codec) = encoding.as_str() else {
        return Err(no_string(encoding, Keyword::ContentEncoding));
    };
    let Some(codec) = codec_known(alloc, ctx, codec)? else {
        return Ok(None);
    };
    let origin = origin_of(ctx)?;
    let test = EncodedMediaType { codec, media_type };
    Ok(Some(Validator::ContentMediaTypeAndEncoding(Keyed { origin, test })))
}

pub(crate) fn build_encoding<B: EngineBuilder, O: Object>(
    alloc: Global,
    ctx: &Context<'_, B>,
    parent: &O,
    value: &Value,
) -> Result<Option<Validator<B::Engine>>, Refused>
    ensures { IsBuilt B.Engine.outcome (place_in ctx.now) (single_entry Keyword.ContentEncoding
        (encoding_entry ContentRule.Checked
        (settings_of B.takes B.outcome admits accepts is_encoding decoding ctx.now)
        (O.members parent.now) (view value.now))) result }
{
    if parent.value(Keyword::ContentMediaType).is_some() {
        return Ok(None);
    }
    let Some(name) = value.as_str() else {
        return Err(no_string(value, Keyword::ContentEncoding));
    };
    let Some(codec) = codec_known(alloc, ctx, name)? else {
        return Ok(None);
    };
    let origin = origin_of(ctx)?;
    let test = Encoded { codec };
    Ok(Some(Validator::ContentEncoding(Keyed { origin, test })))
}
