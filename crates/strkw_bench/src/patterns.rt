//! Nanoseconds of a search for a pattern of ECMA-262, beside the kit's `regex` with a matcher kept. The patterns and
//! the texts are lines of the standard input: a pattern, a piece of text, how often it stands there, and what stands
//! behind, with a tab between each two.

use crate::texts::repeat_piece;
use crate::timing::Round;
use regex::{Matcher, Regex};
use std::alloc::Global;
use std::io;
use std::time::Instant;
use strkw_ecma::{EcmaMatcher, EcmaPatterns};
use strkw_pattern::{EngineBuilder, RegexEngine};

const ROUNDS: u32 = 15;

// What is timed.
trait Search {
    // Whether the pattern is found.
    fn finds(&mut self, alloc: Global, text: &str) -> bool;
}

impl Search for EcmaMatcher {
    fn finds(&mut self, alloc: Global, text: &str) -> bool {
        matches!(self.is_match(alloc, text), Ok(true))
    }
}

impl Search for Matcher<'_> {
    fn finds(&mut self, _alloc: Global, text: &str) -> bool {
        self.is_match(text)
    }
}

// The least time of some rounds of so many searches.
#[inline(never)]
fn least_round<S: Search>(
    rt: HostRuntime,
    search: &mut S,
    text: &str,
    searches: u32,
) -> io::Result<Round> {
    let mut least = Round {
        nanoseconds: u128::MAX,
        accepted: 0,
    };
    for _ in 0..ROUNDS {
        let mut accepted = 0u32;
        let start = Instant::now(&rt)?;
        for _ in 0..searches {
            accepted = accepted.wrapping_add(u32::from(search.finds(rt.alloc(), text)));
        }
        let nanoseconds = start.elapsed(&rt)?.as_nanos();
        if nanoseconds < least.nanoseconds {
            least = Round {
                nanoseconds,
                accepted,
            };
        }
    }
    Ok(least)
}

// Times so many searches by one of the two, and prints it.
fn time_search<S: Search>(
    rt: HostRuntime,
    name: &str,
    search: &mut S,
    text: &str,
    searches: u32,
) -> io::Result<()> {
    let round = least_round(rt, search, text, searches)?;
    let tenths = round.tenths_a_call(searches);
    print!(rt;
        "\t{name} {}.{} ns, {} found",
        tenths / 10,
        tenths % 10,
        round.accepted
    )
}

// Times the engine here, and prints a dash where it does not take the pattern.
fn time_here(rt: HostRuntime, pattern: &str, text: &str, searches: u32) -> io::Result<()> {
    match EcmaPatterns.build(rt.alloc(), pattern) {
        Ok(mut engine) => time_search(rt, "here", &mut engine, text, searches),
        Err(_) => print!(rt; "\there -"),
    }
}

// The same of the kit's.
fn time_regex(rt: HostRuntime, pattern: &str, text: &str, searches: u32) -> io::Result<()> {
    match Regex::new(rt.alloc(), pattern) {
        Ok(regex) => time_search(rt, "regex", &mut regex.matcher(rt.alloc())?, text, searches),
        Err(_) => print!(rt; "\tregex -"),
    }
}

fn time(rt: HostRuntime, pattern: &str, text: &str) -> io::Result<()> {
    let searches = if text.len() < 1000 { 20_000 } else { 1 };
    print!(rt; "{pattern}\t{} bytes", text.len())?;
    time_here(rt, pattern, text, searches)?;
    time_regex(rt, pattern, text, searches)?;
    println!(rt; "")
}

// Times the searches of a line. One with fewer than three fields is left out.
fn time_line(rt: HostRuntime, line: &str) -> io::Result<()> {
    let mut fields = line.split('\t');
    let (Some(pattern), Some(piece), Some(count)) = (fields.next(), fields.next(), fields.next())
    else {
        return Ok(());
    };
    let count = count.parse::<u32>().unwrap_or(1);
    let text = repeat_piece(rt.alloc(), "", piece, count, fields.next().unwrap_or(""))?;
    time(rt, pattern, &text)
}

/// Times the searches of each line.
pub fn measure(rt: HostRuntime) -> io::Result<()> {
    let lines = io::read_to_string(rt.alloc(), rt.reader())?;
    for line in lines.lines() {
        time_line(rt, line)?;
    }
    Ok(())
}
