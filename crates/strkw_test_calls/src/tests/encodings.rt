//! The calls of encodings that allocate, by name and by codec. With ample memory a row has to pass. `tools/refusals.py`
//! runs it with each growth refused in turn too: then it ends with the error of the call that was refused, by that
//! error's own name.

use std::alloc::{AllocError, Global};
use std::test::Fail;
use strkw_coding::{
    BuiltinMediaType, Codec, DecodeError, from_base16, from_base32, from_base32hex, from_base64,
    from_base64url, is_base16, is_base32, is_base32hex, is_base64, is_base64url, is_json,
};

// What a text encodes.
#[derive(Clone, Copy)]
enum Encoded {
    Text(&'static str),
    // Bytes that are not UTF-8.
    NoText,
    // It is no encoding.
    Nothing,
}

// A text, and what it encodes.
struct Encoding {
    codec: Codec,
    text: &'static str,
    encoded: Encoded,
}

// The vectors of RFC 4648, section 10, the byte FF, and texts with spare bits
// that are not zero, with padding inside, with a letter of no encoding.
const TEXTS: &[Encoding] = &[
    Encoding {
        codec: Codec::Base64,
        text: "Zm9vYmFy",
        encoded: Encoded::Text("foobar"),
    },
    Encoding {
        codec: Codec::Base64,
        text: "",
        encoded: Encoded::Text(""),
    },
    Encoding {
        codec: Codec::Base64,
        text: "/w==",
        encoded: Encoded::NoText,
    },
    Encoding {
        codec: Codec::Base64,
        text: "Zh==",
        encoded: Encoded::Nothing,
    },
    Encoding {
        codec: Codec::Base64,
        text: "?",
        encoded: Encoded::Nothing,
    },
    Encoding {
        codec: Codec::Base64Url,
        text: "PDw_Pz4-",
        encoded: Encoded::Text("<<??>>"),
    },
    Encoding {
        codec: Codec::Base64Url,
        text: "_w==",
        encoded: Encoded::NoText,
    },
    Encoding {
        codec: Codec::Base64Url,
        text: "/w==",
        encoded: Encoded::Nothing,
    },
    Encoding {
        codec: Codec::Base32,
        text: "MZXW6YTBOI======",
        encoded: Encoded::Text("foobar"),
    },
    Encoding {
        codec: Codec::Base32,
        text: "74======",
        encoded: Encoded::NoText,
    },
    Encoding {
        codec: Codec::Base32,
        text: "MZ======",
        encoded: Encoded::Nothing,
    },
    Encoding {
        codec: Codec::Base32,
        text: "MY=====M",
        encoded: Encoded::Nothing,
    },
    Encoding {
        codec: Codec::Base32Hex,
        text: "CPNMUOJ1E8======",
        encoded: Encoded::Text("foobar"),
    },
    Encoding {
        codec: Codec::Base32Hex,
        text: "VS======",
        encoded: Encoded::NoText,
    },
    Encoding {
        codec: Codec::Base32Hex,
        text: "?",
        encoded: Encoded::Nothing,
    },
    Encoding {
        codec: Codec::Base16,
        text: "666F6f",
        encoded: Encoded::Text("foo"),
    },
    Encoding {
        codec: Codec::Base16,
        text: "FF",
        encoded: Encoded::NoText,
    },
    Encoding {
        codec: Codec::Base16,
        text: "6",
        encoded: Encoded::Nothing,
    },
    Encoding {
        codec: Codec::Base16,
        text: "\u{FB00}",
        encoded: Encoded::Nothing,
    },
    Encoding {
        codec: Codec::Base16,
        text: "",
        encoded: Encoded::Text(""),
    },
];

fn check_by_name(codec: Codec, alloc: Global, text: &str) -> Result<bool, AllocError> {
    match codec {
        Codec::Base64 => is_base64(alloc, text),
        Codec::Base64Url => is_base64url(alloc, text),
        Codec::Base32 => is_base32(alloc, text),
        Codec::Base32Hex => is_base32hex(alloc, text),
        Codec::Base16 => is_base16(alloc, text),
    }
}

fn decode_by_name(codec: Codec, alloc: Global, text: &str) -> Result<Option<String>, DecodeError> {
    match codec {
        Codec::Base64 => from_base64(alloc, text),
        Codec::Base64Url => from_base64url(alloc, text),
        Codec::Base32 => from_base32(alloc, text),
        Codec::Base32Hex => from_base32hex(alloc, text),
        Codec::Base16 => from_base16(alloc, text),
    }
}

// Whether both calls that test a text for an encoding answer so.
fn are_checked_so(alloc: Global, row: &Encoding) -> Result<bool, AllocError> {
    let (codec, text) = (row.codec, row.text);
    let want = !matches!(row.encoded, Encoded::Nothing);
    Ok(check_by_name(codec, alloc, text)? == want && codec.is_encoded(alloc, text)? == want)
}

// Whether both calls that test a text for JSON answer so.
fn are_told_so(alloc: Global, text: &str, want: bool) -> Result<bool, AllocError> {
    Ok(is_json(alloc, text)? == want && BuiltinMediaType::Json.accepts(alloc, text)? == want)
}

#[test]
fn checks_under_refusal(rt: HostRuntime) -> Result<(), Fail> {
    for row in TEXTS {
        if !are_checked_so(rt.alloc(), row)? {
            return Err(Fail::new(row.text));
        }
    }
    Ok(())
}

// A text, and whether it is JSON.
const JSON_TEXTS: &[(&str, bool)] = &[("{\"a\":[1,\"x\"]}", true), ("[1,", false), ("", false)];

#[test]
fn checks_of_json_under_refusal(rt: HostRuntime) -> Result<(), Fail> {
    for (text, want) in JSON_TEXTS {
        if !are_told_so(rt.alloc(), text, *want)? {
            return Err(Fail::new(*text));
        }
    }
    Ok(())
}

// Whether a decoder answers what the text encodes; out of memory is an error here.
fn answers(
    found: Result<Option<String>, DecodeError>,
    encoded: Encoded,
) -> Result<bool, DecodeError> {
    match (found, encoded) {
        (Err(DecodeError::Memory), _) => Err(DecodeError::Memory),
        (Ok(Some(text)), Encoded::Text(want)) => Ok(text.as_str() == want),
        (Err(DecodeError::NotUtf8), Encoded::NoText) | (Ok(None), Encoded::Nothing) => Ok(true),
        _ => Ok(false),
    }
}

// Whether both decoders answer what a text encodes.
fn are_decoded_so(alloc: Global, row: &Encoding) -> Result<bool, DecodeError> {
    let (codec, text) = (row.codec, row.text);
    Ok(
        answers(decode_by_name(codec, alloc, text), row.encoded)?
            && answers(codec.decode(alloc, text), row.encoded)?,
    )
}

#[test]
fn decoders_under_refusal(rt: HostRuntime) -> Result<(), Fail> {
    for row in TEXTS {
        if !are_decoded_so(rt.alloc(), row)? {
            return Err(Fail::new(row.text));
        }
    }
    Ok(())
}
