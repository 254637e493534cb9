//! Nanoseconds a round of texts: URI templates, JSON pointers, IRIs, literal patterns, encodings, and JSON beside the
//! reading of it that builds a value.

use crate::texts::repeat_piece;
use crate::timing::{self, time};
use serde_json::Value;
use std::alloc::{AllocError, Global};
use std::io;
use strkw_coding::{Codec, is_json};
use strkw_pattern::{LiteralMatcher, RegexEngine};
use strkw_uri::{
    is_valid_iri_reference, is_valid_json_pointer, is_valid_relative_json_pointer,
    is_valid_uri_template,
};

#[derive(Clone, Copy)]
enum Call {
    Template,
    Pointer,
    RelativePointer,
    IriReference,
    Check(Codec),
    Decode(Codec),
    Json,
    JsonValue,
}

impl timing::Call for Call {
    fn accepts(&self, alloc: Global, text: &str) -> bool {
        match self {
            Call::Template => is_valid_uri_template(text),
            Call::Pointer => is_valid_json_pointer(text),
            Call::RelativePointer => is_valid_relative_json_pointer(text),
            Call::IriReference => is_valid_iri_reference(text),
            Call::Check(codec) => matches!(codec.is_encoded(alloc, text), Ok(true)),
            Call::Decode(codec) => matches!(codec.decode(alloc, text), Ok(Some(_))),
            Call::Json => matches!(is_json(alloc, text), Ok(true)),
            Call::JsonValue => Value::from_str(alloc, text).is_ok(),
        }
    }
}

impl timing::Call for LiteralMatcher {
    fn accepts(&self, alloc: Global, text: &str) -> bool {
        matches!(self.is_match(alloc, text), Ok(true))
    }
}

// How often the texts of a round are gone over.
const SHORT: u32 = 200_000;

const LONG: u32 = 300;

// Some texts.
struct Short {
    name: &'static str,
    call: Call,
    texts: &'static [&'static str],
}

const SHORT_TEXTS: &[Short] = &[
    Short {
        name: "template, four of 20 bytes",
        call: Call::Template,
        texts: &[
            "/people/{id}/friends",
            "/search{?q,lang,page}",
            "http://a.example/{x}",
            "/files/{+path:20}/{y}",
        ],
    },
    Short {
        name: "pointer, four of 20 bytes",
        call: Call::Pointer,
        texts: &[
            "/definitions/address",
            "/properties/name/0/a",
            "/paths/~1users/get/x",
            "/a/b/c/d/e/f/g/h/i/j",
        ],
    },
    Short {
        name: "relative pointer, four",
        call: Call::RelativePointer,
        texts: &["0#", "1/definitions/address", "120/a/b", "2/paths/~1users"],
    },
    Short {
        name: "IRI, three of 20 bytes",
        call: Call::IriReference,
        texts: &["../é", "/straße/zürich/plätze", "//例え.jp/あ"],
    },
    Short {
        name: "base32 checked, 32 letters",
        call: Call::Check(Codec::Base32),
        texts: &["KRUGKIDROVUWG2ZAMJZG653OEBTG66BA"],
    },
    Short {
        name: "base32 checked, 64 letters",
        call: Call::Check(Codec::Base32),
        texts: &["KRUGKIDROVUWG2ZAMJZG653OEBTG66BAKRUGKIDROVUWG2ZAMJZG653OEBTG66BA"],
    },
    Short {
        name: "base32 decoded, 32 letters",
        call: Call::Decode(Codec::Base32),
        texts: &["KRUGKIDROVUWG2ZAMJZG653OEBTG66BA"],
    },
    Short {
        name: "base32hex checked, 32 letters",
        call: Call::Check(Codec::Base32Hex),
        texts: &["AHK6A83HELKM6QP0C9P6UTRE41J6UU10"],
    },
    Short {
        name: "base32hex checked, 64 letters",
        call: Call::Check(Codec::Base32Hex),
        texts: &["AHK6A83HELKM6QP0C9P6UTRE41J6UU10AHK6A83HELKM6QP0C9P6UTRE41J6UU10"],
    },
    Short {
        name: "base32hex decoded, 32 letters",
        call: Call::Decode(Codec::Base32Hex),
        texts: &["AHK6A83HELKM6QP0C9P6UTRE41J6UU10"],
    },
    Short {
        name: "base64 checked, 32 letters",
        call: Call::Check(Codec::Base64),
        texts: &["VGhlIHF1aWNrIGJyb3duIGZveCBqdW1w"],
    },
    Short {
        name: "base64 checked, 64 letters",
        call: Call::Check(Codec::Base64),
        texts: &["VGhlIHF1aWNrIGJyb3duIGZveCBqdW1wVGhlIHF1aWNrIGJyb3duIGZveCBqdW1w"],
    },
    Short {
        name: "base64 decoded, 32 letters",
        call: Call::Decode(Codec::Base64),
        texts: &["VGhlIHF1aWNrIGJyb3duIGZveCBqdW1w"],
    },
];

fn short_texts(rt: HostRuntime) -> io::Result<()> {
    for row in SHORT_TEXTS {
        time(rt, row.name, &row.call, row.texts, SHORT)?;
    }
    Ok(())
}

// A text of 64 KiB: its start, the piece behind it, and how often that stands there.
struct Long {
    name: &'static str,
    call: Call,
    start: &'static str,
    piece: &'static str,
    count: u32,
}

const LONG_TEXTS: &[Long] = &[
    Long {
        name: "template, 64 KiB of literals",
        call: Call::Template,
        start: "",
        piece: "abcdefghijklmnop",
        count: 4096,
    },
    Long {
        name: "template, 64 KiB of literals past ASCII",
        call: Call::Template,
        start: "",
        piece: "abcdefghijklémn",
        count: 4096,
    },
    Long {
        name: "template, 64 KiB of expressions",
        call: Call::Template,
        start: "",
        piece: "/{id,name*}{&x:3}",
        count: 3855,
    },
    Long {
        name: "pointer, 64 KiB without escapes",
        call: Call::Pointer,
        start: "/",
        piece: "abcdefg/",
        count: 8192,
    },
    Long {
        name: "pointer, 64 KiB with an escape every 16 bytes",
        call: Call::Pointer,
        start: "/",
        piece: "abcdef/ghijkl~01",
        count: 4096,
    },
    Long {
        name: "IRI, 64 KiB of characters of 2 bytes",
        call: Call::IriReference,
        start: "",
        piece: "éàüöéàüö",
        count: 4096,
    },
    Long {
        name: "IRI, 64 KiB of characters of 3 bytes",
        call: Call::IriReference,
        start: "",
        piece: "漢字漢字",
        count: 5461,
    },
    Long {
        name: "IRI, 64 KiB of characters of 4 bytes",
        call: Call::IriReference,
        start: "",
        piece: "𠀀𠀁𠀂𠀃",
        count: 4096,
    },
    Long {
        name: "IRI, 64 KiB of mixed characters",
        call: Call::IriReference,
        start: "",
        piece: "abcdéf漢字/gh",
        count: 4096,
    },
    Long {
        name: "base32 checked, 64 KiB",
        call: Call::Check(Codec::Base32),
        start: "",
        piece: "KRUGKIDROVUWG2ZAMJZG653OEBTG66BA",
        count: 2048,
    },
    Long {
        name: "base32 decoded, 64 KiB",
        call: Call::Decode(Codec::Base32),
        start: "",
        piece: "KRUGKIDROVUWG2ZAMJZG653OEBTG66BA",
        count: 2048,
    },
    Long {
        name: "base32hex checked, 64 KiB",
        call: Call::Check(Codec::Base32Hex),
        start: "",
        piece: "AHK6A83HELKM6QP0C9P6UTRE41J6UU10",
        count: 2048,
    },
    Long {
        name: "base32hex decoded, 64 KiB",
        call: Call::Decode(Codec::Base32Hex),
        start: "",
        piece: "AHK6A83HELKM6QP0C9P6UTRE41J6UU10",
        count: 2048,
    },
    Long {
        name: "base64 checked, 64 KiB",
        call: Call::Check(Codec::Base64),
        start: "",
        piece: "VGhlIHF1aWNrIGJyb3duIGZveCBqdW1w",
        count: 2048,
    },
    Long {
        name: "base64 decoded, 64 KiB",
        call: Call::Decode(Codec::Base64),
        start: "",
        piece: "VGhlIHF1aWNrIGJyb3duIGZveCBqdW1w",
        count: 2048,
    },
];

fn time_long(rt: HostRuntime, row: &Long) -> io::Result<()> {
    let text = repeat_piece(rt.alloc(), row.start, row.piece, row.count, "")?;
    time(rt, row.name, &row.call, &[text.as_str()], LONG)
}

fn long_texts(rt: HostRuntime) -> io::Result<()> {
    for row in LONG_TEXTS {
        time_long(rt, row)?;
    }
    Ok(())
}

// The prefix of a pattern, or none where it is that of texts without white space; and texts.
struct Pattern {
    name: &'static str,
    prefix: Option<&'static str>,
    texts: &'static [&'static str],
}

const PATTERNS: &[Pattern] = &[
    Pattern {
        name: "no white space, four of 20 bytes",
        prefix: None,
        texts: &[
            "abcdefghijklmnopqrst",
            "identifier_of_a_user",
            "0123456789ABCDEF0123",
            "a-text-with-hyphens-",
        ],
    },
    Pattern {
        name: "no white space, 100 bytes",
        prefix: None,
        texts: &[
            "abcdefghijklmnopqrstabcdefghijklmnopqrstabcdefghijklmnopqrstabcdefghijklmnopqrstabcdefghijklmnopqrst",
        ],
    },
    Pattern {
        name: "prefix, four",
        prefix: Some("public"),
        texts: &["public", "publications", "secret000", "pub"],
    },
    Pattern {
        name: "prefix, 16 bytes",
        prefix: Some("https://example."),
        texts: &["https://example.com/items", "https://examples.com/items"],
    },
];

fn matcher_of(alloc: Global, prefix: Option<&str>) -> Result<LiteralMatcher, AllocError> {
    match prefix {
        Some(prefix) => Ok(LiteralMatcher::Prefix {
            literal: String::from_str(alloc, prefix)?,
        }),
        None => Ok(LiteralMatcher::NoWhitespace),
    }
}

fn time_pattern(rt: HostRuntime, row: &Pattern) -> io::Result<()> {
    let matcher = matcher_of(rt.alloc(), row.prefix)?;
    time(rt, row.name, &matcher, row.texts, SHORT)
}

fn patterns(rt: HostRuntime) -> io::Result<()> {
    for row in PATTERNS {
        time_pattern(rt, row)?;
    }
    Ok(())
}

// A text of 64 KiB without white space: a piece of it, and how often that stands there.
struct Solid {
    name: &'static str,
    piece: &'static str,
    count: u32,
}

const SOLID_TEXTS: &[Solid] = &[
    Solid {
        name: "no white space, 64 KiB",
        piece: "abcdefghijklmnop",
        count: 4096,
    },
    Solid {
        name: "no white space, 64 KiB past ASCII",
        piece: "abcdefghijklémn",
        count: 4096,
    },
    Solid {
        name: "no white space, 64 KiB of Han characters",
        piece: "漢字",
        count: 10922,
    },
];

fn time_solid(rt: HostRuntime, row: &Solid) -> io::Result<()> {
    let text = repeat_piece(rt.alloc(), "", row.piece, row.count, "")?;
    time(
        rt,
        row.name,
        &LiteralMatcher::NoWhitespace,
        &[text.as_str()],
        LONG,
    )
}

fn solid_texts(rt: HostRuntime) -> io::Result<()> {
    for row in SOLID_TEXTS {
        time_solid(rt, row)?;
    }
    Ok(())
}

// A text of JSON, by its start, a piece, how often that stands there, and its end; and how often it is read in a round.
struct Json {
    name: &'static str,
    start: &'static str,
    piece: &'static str,
    count: u32,
    end: &'static str,
    calls: u32,
}

const JSON_TEXTS: &[Json] = &[
    Json {
        name: "JSON, an object of 20 bytes",
        start: "{\"id\":1,\"a\":\"b\",\"c\":1}",
        piece: "",
        count: 0,
        end: "",
        calls: SHORT,
    },
    Json {
        name: "JSON, a text of 20 bytes",
        start: "\"a text of 20 bytes.\"",
        piece: "",
        count: 0,
        end: "",
        calls: SHORT,
    },
    Json {
        name: "JSON, seven numbers",
        start: "[1,2,3,40,5.5,-6,7e1]",
        piece: "",
        count: 0,
        end: "",
        calls: SHORT,
    },
    Json {
        name: "JSON, a bad end",
        start: "{\"id\":1,\"a\":\"b\",\"c\":1",
        piece: "",
        count: 0,
        end: "",
        calls: SHORT,
    },
    Json {
        name: "JSON, 64 KiB of objects",
        start: "[",
        piece: "{\"name\":\"a text\",\"count\":12345},",
        count: 2048,
        end: "null]",
        calls: LONG,
    },
    Json {
        name: "JSON, 1 MiB of objects",
        start: "[",
        piece: "{\"name\":\"a text\",\"count\":12345},",
        count: 32768,
        end: "null]",
        calls: 5,
    },
];

fn time_json(rt: HostRuntime, row: &Json) -> io::Result<()> {
    let text = repeat_piece(rt.alloc(), row.start, row.piece, row.count, row.end)?;
    println!(rt; "{}", row.name)?;
    time(rt, "  is_json", &Call::Json, &[text.as_str()], row.calls)?;
    time(
        rt,
        "  Value::from_str",
        &Call::JsonValue,
        &[text.as_str()],
        row.calls,
    )
}

fn json_texts(rt: HostRuntime) -> io::Result<()> {
    for row in JSON_TEXTS {
        time_json(rt, row)?;
    }
    Ok(())
}

/// Times each form on short texts and on texts of 64 KiB.
pub fn measure(rt: HostRuntime) -> io::Result<()> {
    short_texts(rt)?;
    long_texts(rt)?;
    patterns(rt)?;
    solid_texts(rt)?;
    json_texts(rt)
}
