//! Megabytes of text a second, of each check and decoder of the encodings and of the JSON check.

use crate::texts::repeat_piece;
use crate::timing::{self, least_round};
use std::alloc::Global;
use std::io;
use strkw_coding::{Codec, is_json};

const CALLS: u32 = 20;

#[derive(Clone, Copy)]
enum Call {
    Check(Codec),
    Decode(Codec),
    Json,
}

impl timing::Call for Call {
    fn accepts(&self, alloc: Global, text: &str) -> bool {
        match self {
            Call::Check(codec) => matches!(codec.is_encoded(alloc, text), Ok(true)),
            Call::Decode(codec) => matches!(codec.decode(alloc, text), Ok(Some(_))),
            Call::Json => matches!(is_json(alloc, text), Ok(true)),
        }
    }
}

// A call, and what the megabyte is made of that it accepts.
struct Megabyte {
    name: &'static str,
    call: Call,
    start: &'static str,
    piece: &'static str,
    end: &'static str,
}

const MEGABYTES: &[Megabyte] = &[
    Megabyte {
        name: "is_base64",
        call: Call::Check(Codec::Base64),
        start: "",
        piece: "VGhlIHF1aWNrIGJyb3duIGZveCBqdW1w",
        end: "",
    },
    Megabyte {
        name: "from_base64",
        call: Call::Decode(Codec::Base64),
        start: "",
        piece: "VGhlIHF1aWNrIGJyb3duIGZveCBqdW1w",
        end: "",
    },
    Megabyte {
        name: "is_base64url",
        call: Call::Check(Codec::Base64Url),
        start: "",
        piece: "VGhlIHF1aWNrIGJyb3duIGZveCBqdW1w",
        end: "",
    },
    Megabyte {
        name: "from_base64url",
        call: Call::Decode(Codec::Base64Url),
        start: "",
        piece: "VGhlIHF1aWNrIGJyb3duIGZveCBqdW1w",
        end: "",
    },
    Megabyte {
        name: "is_base32",
        call: Call::Check(Codec::Base32),
        start: "",
        piece: "KRUGKIDROVUWG2ZAMJZG653OEBTG66BA",
        end: "",
    },
    Megabyte {
        name: "from_base32",
        call: Call::Decode(Codec::Base32),
        start: "",
        piece: "KRUGKIDROVUWG2ZAMJZG653OEBTG66BA",
        end: "",
    },
    Megabyte {
        name: "is_base32hex",
        call: Call::Check(Codec::Base32Hex),
        start: "",
        piece: "AHK6A83HELKM6QP0C9P6UTRE41J6UU10",
        end: "",
    },
    Megabyte {
        name: "from_base32hex",
        call: Call::Decode(Codec::Base32Hex),
        start: "",
        piece: "AHK6A83HELKM6QP0C9P6UTRE41J6UU10",
        end: "",
    },
    Megabyte {
        name: "is_base16",
        call: Call::Check(Codec::Base16),
        start: "",
        piece: "54686520717569636B2062726f776e20",
        end: "",
    },
    Megabyte {
        name: "from_base16",
        call: Call::Decode(Codec::Base16),
        start: "",
        piece: "54686520717569636B2062726f776e20",
        end: "",
    },
    Megabyte {
        name: "is_json",
        call: Call::Json,
        start: "[",
        piece: "{\"name\":\"a text\",\"count\":12345},",
        end: "null]",
    },
];

fn time(rt: HostRuntime, row: &Megabyte) -> io::Result<()> {
    let text = repeat_piece(rt.alloc(), row.start, row.piece, 32768, row.end)?;
    let round = least_round(rt, &row.call, &[text.as_str()], CALLS)?;
    let bytes = (text.len() as u128).wrapping_mul(u128::from(CALLS));
    println!(rt;
        "{}: {} MB/s, {} accepted",
        row.name,
        round.megabytes_a_second(bytes),
        round.accepted
    )
}

/// Times each call on a megabyte of text that it accepts.
pub fn measure(rt: HostRuntime) -> io::Result<()> {
    for row in MEGABYTES {
        time(rt, row)?;
    }
    Ok(())
}
