//! Nanoseconds a call of the host name predicates and of the Punycode decoder.
ghost use Rattle.std.specs.Prelude.{◌≤◌, length};

use crate::texts::LONGEST_HOST_NAME;
use crate::timing::{self, time};
use std::alloc::Global;
use std::io;
use strkw_label::{
    decode_punycode, is_valid_hostname, is_valid_idn_hostname, validate_unicode_label,
};

const CALLS: u32 = 100_000;

#[derive(Clone, Copy)]
enum Call {
    HostName,
    IdnHostName,
    Decode,
    DecodeAndJudge,
}

fn is_admitted_payload(payload: &str) -> bool
    requires { length payload.now ≤ 64 }
{
    match decode_punycode::<64>(payload) {
        Some(label) => validate_unicode_label(label.as_slice()),
        None => false,
    }
}

impl timing::Call for Call {
    fn accepts(&self, alloc: Global, text: &str) -> bool {
        match self {
            Call::HostName => is_valid_hostname(text),
            Call::IdnHostName => is_valid_idn_hostname(alloc, text) == Ok(true),
            Call::Decode => text.len() <= 64 && decode_punycode::<64>(text).is_some(),
            Call::DecodeAndJudge => text.len() <= 64 && is_admitted_payload(text),
        }
    }
}

struct Row {
    name: &'static str,
    call: Call,
    text: &'static str,
}

// Host names without and with Punycode labels, and payloads.
const ROWS: &[Row] = &[
    Row {
        name: "ASCII host name, 15 bytes",
        call: Call::HostName,
        text: "www.example.com",
    },
    Row {
        name: "ASCII host name, 253 bytes",
        call: Call::HostName,
        text: LONGEST_HOST_NAME,
    },
    Row {
        name: "the same as an internationalised one, 15 bytes",
        call: Call::IdnHostName,
        text: "www.example.com",
    },
    Row {
        name: "the same as an internationalised one, 253 bytes",
        call: Call::IdnHostName,
        text: LONGEST_HOST_NAME,
    },
    Row {
        name: "mixed host name",
        call: Call::HostName,
        text: "www.xn--ll-0ea.example",
    },
    Row {
        name: "host name of 9 and 2 Han characters",
        call: Call::HostName,
        text: "xn--ihqwcrb4cv8a8dqg056pqjye.xn--9krt00a",
    },
    Row {
        name: "host name with 46 characters decoded",
        call: Call::HostName,
        text: "xn--aaaaaaaaaaaaaaaaaaaaaaaaaaaaaaaaaaaaaaaaaaaaa-fc294e",
    },
    Row {
        name: "payload `ll-0ea`",
        call: Call::Decode,
        text: "ll-0ea",
    },
    Row {
        name: "payload of 9 Han characters",
        call: Call::Decode,
        text: "ihqwcrb4cv8a8dqg056pqjye",
    },
    Row {
        name: "59-byte payload, 1 insertion",
        call: Call::Decode,
        text: "aaaaaaaaaaaaaaaaaaaaaaaaaaaaaaaaaaaaaaaaaaaaaaaaaaa-6q1048b",
    },
    Row {
        name: "59-byte payload, 59 insertions",
        call: Call::Decode,
        text: "aaaaaaaaaaaaaaaaaaaaaaaaaaaaaaaaaaaaaaaaaaaaaaaaaaaaaaaaaaa",
    },
    Row {
        name: "payload of 9 Han characters, judged",
        call: Call::DecodeAndJudge,
        text: "ihqwcrb4cv8a8dqg056pqjye",
    },
];

/// Times host names without and with Punycode labels, and payloads.
pub fn measure(rt: HostRuntime) -> io::Result<()> {
    for row in ROWS {
        time(rt, row.name, &row.call, &[row.text], CALLS)?;
    }
    Ok(())
}
