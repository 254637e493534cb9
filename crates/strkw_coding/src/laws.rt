//! What holds of the encodings, as functions without a body: call one, and its clause is a fact.

ghost use Rattle.std.specs.Prelude.{◌≡◌, ◌↔◌, IsTrue};
ghost use Rattle.strkw_coding.specs.Laws.{EncodesOnce, DecodesExactly, NoneWhereFalse, PublishedVectors};
ghost use Rattle.strkw_coding.specs.Groups.{EncodedByGroups};
ghost use Rattle.strkw_coding.specs.Tables.{AlphabetsAsPublished};
ghost use Rattle.strkw_coding.specs.declared.codec.Codec.{Codec};
ghost use Rattle.strkw_coding.specs.declared.codec.DecodeError.{DecodeError};
ghost use Rattle.strkw_json.specs.declared.error.JsonError.{JsonError};
ghost use Rattle.strkw_coding.specs.declared.media_type.BuiltinMediaType.{BuiltinMediaType};

use crate::codec::{Codec, DecodeError};
use crate::media_type::BuiltinMediaType;
use strkw_json::JsonError;

/// A text encodes at most one list of bytes.
pub fn encodes_once()
    ensures { EncodesOnce }
{}

/// What a decoder answers, out of memory aside: a text exactly where the text encodes its UTF-8 bytes, `NotUtf8`
/// exactly where it encodes other bytes, and `None` exactly where it is no encoding.
pub fn decodes_exactly()
    ensures { DecodesExactly }
{}

/// A decoder answers `None` exactly where the check of its encoding answers false, out of memory aside.
pub fn none_where_false()
    ensures { NoneWhereFalse }
{}

/// The letters of each encoding are those of RFC 4648's tables 1 to 5, value by value, and a block is the group of
/// bits that its sections 4, 6 and 8 name.
pub fn alphabets_as_published()
    ensures { AlphabetsAsPublished }
{}

/// An encoding is made group by group as sections 4, 6 and 8 of RFC 4648 tell it: of three, five or one bytes at a
/// time, the last group filled with zero bits and with "=".
pub fn encoded_by_groups()
    ensures { EncodedByGroups }
{}

/// The test vectors of RFC 4648, section 10, and the illustrations of section 9 hold of the definition.
pub fn published_vectors()
    ensures { PublishedVectors }
{}

/// Two encodings are equal by `==` exactly where they are the same encoding.
pub fn codecs_equal_by_variant()
    ensures { (a b : Codec) → IsTrue (⟦<Codec as PartialEq>⟧.eq a b) ↔ (a ≡ b) }
{}

/// Two reasons why a text was not decoded are equal by `==` exactly where they are the same reason.
pub fn decode_errors_equal_by_variant()
    ensures { (a b : DecodeError) → IsTrue (⟦<DecodeError as PartialEq>⟧.eq a b) ↔ (a ≡ b) }
{}

/// Two reasons why no JSON value was read are equal by `==` exactly where they are the same reason.
pub fn json_errors_equal_by_variant()
    ensures { (a b : JsonError) → IsTrue (⟦<JsonError as PartialEq>⟧.eq a b) ↔ (a ≡ b) }
{}

/// Two media types are equal by `==` exactly where they are the same media type.
pub fn media_types_equal_by_variant()
    ensures { (a b : BuiltinMediaType)
        → IsTrue (⟦<BuiltinMediaType as PartialEq>⟧.eq a b) ↔ (a ≡ b) }
{}
