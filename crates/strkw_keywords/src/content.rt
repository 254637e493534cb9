//! What a media type and a codec say of a text, and the validators of the three content keywords.
ghost use Rattle.std.specs.Prelude.{◌↔◌, ◌≡◌, IfOk, IsErrOf, IsTrue};
ghost use Rattle.strkw_keywords.specs.Choices.{choice_of, chosen_codec_name, chosen_media_type_name};
ghost use Rattle.strkw_keywords.specs.Decodings.{decoded_of};
ghost use Rattle.strkw_keywords.specs.Demands.{Decodes, IsEncoded, IsOfMediaType};
ghost use Rattle.strkw_keywords.specs.Lists.{lists_of};
ghost use Rattle.strkw_keywords.specs.Meanings.{no_text};

mod annotations;
mod checks;

use crate::checks::{Asked, Checks, Choice, ContentCodec, Format, MediaTypeCheck, ask_row};
// `.._annotation` are the same calls, by names that tell what they make from draft 2019-09 on.
pub use crate::by_keyword::{
    compile_content_encoding, compile_content_encoding as compile_content_encoding_annotation,
    compile_content_schema_annotation, compile_media_type,
    compile_media_type as compile_media_type_annotation,
};
pub use annotations::{
    ContentEncodingAnnotationValidator, ContentMediaTypeAnnotationValidator,
    ContentSchemaAnnotationValidator, Untested, compile_moved_schema, take_content_schema,
};
pub(crate) use annotations::{build_schema_annotation, build_text_annotation};
pub use checks::{
    ContentEncodingValidator, ContentMediaTypeAndEncodingValidator, ContentMediaTypeValidator,
    Encoded, EncodedMediaType, OfMediaType,
};
pub(crate) use checks::{build_encoding, build_media_type};
use std::alloc::Global;
use strkw_coding::{BuiltinMediaType, Codec, DecodeError};

fn chosen_media_type(choice: &Choice<BuiltinMediaType>) -> &str
    ensures { result.now ≡ chosen_media_type_name (choice_of choice.now) }
{
    match choice {
        Choice::Builtin(media_type) => media_type.as_str(),
        Choice::Row { name, .. } => name.as_str(),
    }
}

fn accepts(alloc: Global, choice: &Choice<BuiltinMediaType>, checks: &Checks, text: &str) -> Asked
    ensures { IfOk result (λ b. IsTrue b
        ↔ IsOfMediaType (choice_of choice.now)
        (lists_of admits accepts is_encoding decoding checks.now) text.now) }
{
    match choice {
        Choice::Builtin(media_type) => media_type.accepts(alloc, text),
        Choice::Row { position, .. } => ask_row(alloc, checks.media_types, *position, text),
    }
}

fn chosen_codec(choice: &Choice<Codec>) -> &str
    ensures { result.now ≡ chosen_codec_name (choice_of choice.now) }
{
    match choice {
        Choice::Builtin(codec) => codec.as_str(),
        Choice::Row { name, .. } => name.as_str(),
    }
}

fn is_encoding(alloc: Global, choice: &Choice<Codec>, checks: &Checks, text: &str) -> Asked
    ensures { IfOk result (λ b. IsTrue b
        ↔ IsEncoded (choice_of choice.now) (lists_of admits accepts is_encoding decoding checks.now)
        text.now) }
{
    match choice {
        Choice::Builtin(codec) => codec.is_encoded(alloc, text),
        Choice::Row { position, .. } => ask_row(alloc, checks.codecs, *position, text),
    }
}

// What a text decodes to, as `ContentCodec::decode` answers it.
fn decode(
    alloc: Global,
    choice: &Choice<Codec>,
    checks: &Checks,
    text: &str,
) -> Result<Option<String>, DecodeError>
    ensures text { IfOk result (λ o. Decodes (choice_of choice.now)
        (lists_of admits accepts is_encoding decoding checks.now) text.now (decoded_of o)) }
    ensures not_utf8 { IsErrOf result DecodeError.NotUtf8
        → Decodes (choice_of choice.now) (lists_of admits accepts is_encoding decoding checks.now)
        text.now no_text }
{
    match choice {
        Choice::Builtin(codec) => codec.decode(alloc, text),
        Choice::Row { position, .. } => match checks.codecs.get(*position) {
            Some(row) => row.decode(alloc, text),
            None => Ok(None),
        },
    }
}
