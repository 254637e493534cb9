//! The five base encodings of RFC 4648 and the JSON media type, as the keywords `contentEncoding` and
//! `contentMediaType` of JSON Schema use them: each call answers whether a text is an encoding, or the text
//! that it encodes. `Codec` names an encoding as data; `laws` has what holds of all of them.
#![tactic(auto)]

mod codec;
mod display;
mod encodings;
pub mod laws;
mod media_type;
mod radix16;
mod radix32;
mod radix64;

pub use codec::{Codec, DecodeError};
pub use encodings::{
    from_base16, from_base32, from_base32hex, from_base64, from_base64url, is_base16, is_base32,
    is_base32hex, is_base64, is_base64url,
};
pub use media_type::BuiltinMediaType;
pub use strkw_json::{
    JsonError, build_json, build_object, is_json, json_number, json_scalar, json_text, passes_json,
};
