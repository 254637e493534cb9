//! Reads rows, one a line of JSON, each with the answers that are expected of calls of the crates of grammars,
//! encodings, patterns and reports. Prints the rows that are answered otherwise, and how many they are; a line that
//! begins with `#` and an empty one are passed over. `row.rt` tells what stands in a row.
#![tactic(auto)]

mod coding;
mod ecma;
mod label;
mod net;
mod pattern;
mod report;
mod row;
mod sweeps;
mod tally;
mod texts;
mod time;

use serde_json::Value;
use std::alloc::{AllocError, Global};
use std::io::{self, BufRead, BufReader};
use tally::{Tally, Totals};

// The longest row that is printed whole.
const LONGEST: usize = 2000;

fn main(rt: HostRuntime) -> io::Result<()> {
    let mut totals = Totals::default();
    for line in BufReader::new(rt.alloc(), rt.reader())?.lines(rt.alloc()) {
        let line = line?;
        if !line.is_empty() && !line.starts_with('#') {
            print!(rt; "{}", answer(rt.alloc(), &line, &mut totals)?)?;
        }
    }
    let Totals {
        rows,
        asked,
        failed,
    } = totals;
    println!(rt; "failed: {failed}")?;
    eprintln!(rt; "{rows} rows, {asked} answers")
}

// What is told of a row, whose answers are added to the totals.
fn answer(alloc: Global, line: &str, totals: &mut Totals) -> Result<String, AllocError> {
    let mut tally = Tally::new(alloc);
    let read = Value::from_str(alloc, line);
    let told = match &read {
        Ok(row) => answer_row(alloc, line, row, &mut tally),
        Err(_) => tally.lines(alloc, line),
    };
    drop(read);
    totals.add(&tally);
    told
}

fn answer_row(
    alloc: Global,
    line: &str,
    row: &Value,
    tally: &mut Tally,
) -> Result<String, AllocError> {
    ask(alloc, row, tally)?;
    if line.len() <= LONGEST {
        return tally.lines(alloc, line);
    }
    let name = format!(in alloc; "{} of {}", row::text(row, "ask"), row::text(row, "of"))?;
    tally.lines(alloc, &name)
}

// Asks what a row asks of grammars, or of the other crates.
fn ask(alloc: Global, row: &Value, tally: &mut Tally) -> Result<(), AllocError> {
    match row::text(row, "ask") {
        "texts" => texts::ask(alloc, row, tally),
        "long texts" => texts::ask_long(alloc, row, tally),
        "characters" => sweeps::ask_characters(alloc, row, tally),
        "numbers" => sweeps::ask_numbers(alloc, row, tally),
        "counts" => sweeps::ask_counts(alloc, row, tally),
        "sums" => sweeps::ask_sums(alloc, row, tally),
        "leap years" => time::ask_leap_years(alloc, row, tally),
        "digits" => time::ask_digits(alloc, row, tally),
        "first labels" => net::ask_first_labels(row, tally),
        "characters of labels" => label::ask_characters(alloc, row, tally),
        "payloads" => label::ask_payloads(row, tally),
        "properties" => label::ask_properties(alloc, row, tally),
        what => ask_of_others(alloc, what, row, tally),
    }
}

// Asks what a row asks of encodings, patterns and reports. An unknown one asks nothing, which is told as wrong.
fn ask_of_others(
    alloc: Global,
    what: &str,
    row: &Value,
    tally: &mut Tally,
) -> Result<(), AllocError> {
    match what {
        "decoded" => coding::ask_decoded(alloc, row, tally),
        "names" => coding::ask_names(alloc, row, tally),
        "decode errors" => coding::ask_decode_errors(alloc, row, tally),
        "JSON errors" => coding::ask_json_errors(alloc, row, tally),
        "analyses" => pattern::ask_analyses(alloc, row, tally),
        "equal analyses" => pattern::ask_equal(alloc, row, tally),
        "characters of patterns" => pattern::ask_characters(alloc, row, tally),
        "matches" => pattern::ask_matches(alloc, row, tally),
        "alternatives" => pattern::ask_alternatives(alloc, row, tally),
        "prefix" => pattern::ask_prefix(alloc, row, tally),
        "searches" => ecma::ask_searches(alloc, row, tally),
        "long searches" => ecma::ask_long_searches(alloc, row, tally),
        "tables" => ecma::ask_tables(alloc, row, tally),
        "refusals" => ecma::ask_refusals(alloc, row, tally),
        "nodes" => report::ask_nodes(row, tally),
        "fractions" => report::ask_fractions(row, tally),
        "drafts" => report::ask_drafts(tally),
        _ => Ok(()),
    }
}
