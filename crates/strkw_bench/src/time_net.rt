//! Nanoseconds a call of the recognisers of times, addresses, host names and UUIDs, each over its own list of texts.

use crate::texts::LONGEST_HOST_NAME;
use crate::timing::{self, least_round};
use std::alloc::Global;
use std::io;
use strkw_net::{is_valid_hostname_rfc1034, is_valid_ipv4, is_valid_ipv6, is_valid_uuid};
use strkw_time::{is_valid_date, is_valid_datetime, is_valid_duration, is_valid_time};

const CALLS: u32 = 100_000;

#[derive(Clone, Copy)]
enum Call {
    Date,
    Time,
    DateTime,
    Duration,
    Ipv4,
    Ipv6,
    HostName,
    Uuid,
}

// Each call is compiled by itself: within one function they would share its registers, and a change of one would
// move the figures of all.

#[inline(never)]
fn date(text: &str) -> bool {
    is_valid_date(text)
}

#[inline(never)]
fn time_of_day(text: &str) -> bool {
    is_valid_time(text)
}

#[inline(never)]
fn date_time(text: &str) -> bool {
    is_valid_datetime(text)
}

#[inline(never)]
fn duration(text: &str) -> bool {
    is_valid_duration(text)
}

#[inline(never)]
fn ipv4(text: &str) -> bool {
    is_valid_ipv4(text)
}

#[inline(never)]
fn ipv6(text: &str) -> bool {
    is_valid_ipv6(text)
}

#[inline(never)]
fn host_name(text: &str) -> bool {
    is_valid_hostname_rfc1034(text)
}

#[inline(never)]
fn uuid(text: &str) -> bool {
    is_valid_uuid(text)
}

impl timing::Call for Call {
    fn accepts(&self, _alloc: Global, text: &str) -> bool {
        match self {
            Call::Date => date(text),
            Call::Time => time_of_day(text),
            Call::DateTime => date_time(text),
            Call::Duration => duration(text),
            Call::Ipv4 => ipv4(text),
            Call::Ipv6 => ipv6(text),
            Call::HostName => host_name(text),
            Call::Uuid => uuid(text),
        }
    }
}

struct Row {
    name: &'static str,
    call: Call,
    text: &'static str,
}

// Texts that each recogniser accepts, and texts that it refuses.
const ROWS: &[Row] = &[
    Row {
        name: "date",
        call: Call::Date,
        text: "2020-02-29",
    },
    Row {
        name: "date refused at its day",
        call: Call::Date,
        text: "2023-11-31",
    },
    Row {
        name: "date refused at its end",
        call: Call::Date,
        text: "2020-01-0-",
    },
    Row {
        name: "time",
        call: Call::Time,
        text: "12:30:45.123Z",
    },
    Row {
        name: "time with an offset",
        call: Call::Time,
        text: "12:30:45+01:00",
    },
    Row {
        name: "leap second",
        call: Call::Time,
        text: "00:29:60+00:30",
    },
    Row {
        name: "time with a long fraction",
        call: Call::Time,
        text: "12:30:45.000000000000000000000000000000000000000000000000000000Z",
    },
    Row {
        name: "date-time",
        call: Call::DateTime,
        text: "2020-01-01T00:00:00Z",
    },
    Row {
        name: "duration",
        call: Call::Duration,
        text: "P1Y2M3DT4H5M6S",
    },
    Row {
        name: "duration of weeks",
        call: Call::Duration,
        text: "P2W",
    },
    Row {
        name: "duration refused at its end",
        call: Call::Duration,
        text: "P1Y2M3DT4H5M6",
    },
    Row {
        name: "duration of long numbers",
        call: Call::Duration,
        text: "P00000000000000000001Y00000000000000000002M00000000000000000003D",
    },
    Row {
        name: "IPv4",
        call: Call::Ipv4,
        text: "255.255.255.255",
    },
    Row {
        name: "IPv4 refused",
        call: Call::Ipv4,
        text: "1.2.3.256",
    },
    Row {
        name: "IPv6",
        call: Call::Ipv6,
        text: "1:2:3:4:5:6:7:8",
    },
    Row {
        name: "IPv6 with two colons",
        call: Call::Ipv6,
        text: "2001:db8::7",
    },
    Row {
        name: "IPv6, the longest",
        call: Call::Ipv6,
        text: "0000:0000:0000:0000:0000:0000:255.255.255.255",
    },
    Row {
        name: "IPv6 refused",
        call: Call::Ipv6,
        text: "1:2:3:4:5:6:7::8",
    },
    Row {
        name: "host name",
        call: Call::HostName,
        text: "www.example.com",
    },
    Row {
        name: "host name, the longest",
        call: Call::HostName,
        text: LONGEST_HOST_NAME,
    },
    Row {
        name: "host name refused at its end",
        call: Call::HostName,
        text: "www.example.com-",
    },
    Row {
        name: "UUID",
        call: Call::Uuid,
        text: "f308a72c-fa84-11eb-9a03-0242ac130003",
    },
    Row {
        name: "UUID refused",
        call: Call::Uuid,
        text: "f308a72cfa8411eb9a030242ac130003",
    },
];

fn time(rt: HostRuntime, row: &Row) -> io::Result<()> {
    let round = least_round(rt, &row.call, &[row.text], CALLS)?;
    let tenths = round.tenths_a_call(CALLS);
    println!(rt;
        "{}, {} bytes: {}.{} ns, {} accepted",
        row.name,
        row.text.len(),
        tenths / 10,
        tenths % 10,
        round.accepted
    )
}

/// Times each recogniser on texts that it accepts and on texts that it refuses.
pub fn measure(rt: HostRuntime) -> io::Result<()> {
    for row in ROWS {
        time(rt, row)?;
    }
    Ok(())
}
