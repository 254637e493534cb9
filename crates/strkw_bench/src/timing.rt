//! The least time of some rounds.

use std::alloc::Global;
use std::io;
use std::time::Instant;

/// What is timed.
pub trait Call {
    /// Calls it on a text: whether it takes the text for what it is.
    fn accepts(&self, alloc: Global, text: &str) -> bool;
}

const ROUNDS: u32 = 15;

/// What a round took.
#[derive(Clone, Copy)]
pub struct Round {
    /// The least time of all rounds.
    pub nanoseconds: u128,
    /// How many calls took their text for what it is.
    pub accepted: u32,
}

impl Round {
    /// Tenths of a nanosecond, if a round is so many calls.
    pub fn tenths_a_call(self, calls: u32) -> u128 {
        self.nanoseconds
            .wrapping_mul(10)
            .checked_div(u128::from(calls))
            .unwrap_or(0)
    }

    /// Megabytes (a million bytes) a second, if a round is over so many bytes.
    pub fn megabytes_a_second(self, bytes: u128) -> u128 {
        bytes
            .wrapping_mul(1000)
            .checked_div(self.nanoseconds)
            .unwrap_or(0)
    }
}

/// Times rounds of so many calls on each of the texts.
// Compiled by itself, where nothing is known of the texts: else a call on a text that stays the same is made once for
// all.
#[inline(never)]
pub fn least_round<C: Call>(
    rt: HostRuntime,
    call: &C,
    texts: &[&str],
    calls: u32,
) -> io::Result<Round> {
    let alloc = rt.alloc();
    let mut least = Round {
        nanoseconds: u128::MAX,
        accepted: 0,
    };
    for _ in 0..ROUNDS {
        let mut accepted = 0u32;
        let start = Instant::now(&rt)?;
        for _ in 0..calls {
            for text in texts {
                accepted = accepted.wrapping_add(u32::from(call.accepts(alloc, text)));
            }
        }
        let nanoseconds = start.elapsed(&rt)?.as_nanos();
        if nanoseconds < least.nanoseconds {
            least = Round {
                nanoseconds,
                accepted,
            };
        }
    }
    Ok(least)
}

/// Times rounds of so many calls on each of the texts. Prints nanoseconds a call, and how many texts were accepted.
pub fn time<C: Call>(
    rt: HostRuntime,
    name: &str,
    call: &C,
    texts: &[&str],
    calls: u32,
) -> io::Result<()> {
    let round = least_round(rt, call, texts, calls)?;
    let tenths = round.tenths_a_call(calls);
    println!(rt;
        "{name}: {}.{} ns, {} accepted",
        tenths / 10,
        tenths % 10,
        round.accepted
    )
}
