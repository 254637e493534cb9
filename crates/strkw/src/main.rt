//! Answers the requests of the standard input, one a line, on the standard output. A fault is told on the standard
//! error, and ends the program with status 1. With an argument the program says how it is used, and ends with status 2.
#![tactic(auto)]

use std::io::ErrorKind;
use std::process::ExitCode;
use std::{env, io};
use strkw_cli::{HostSink, HostSource, RunFault, run};

// What is said of how the program is used.
const USAGE: &str = "usage: strkw < REQUESTS.jsonl > ANSWERS";

// The status after a wrong use.
const WRONG_USE: u8 = 2;

// Whether there is a word behind the name of the program. The only fault is out of memory.
fn has_argument(rt: &HostRuntime) -> Result<bool, RunFault> {
    match env::args(rt) {
        Ok(words) => Ok(words.skip(1).next().is_some()),
        Err(error) if error.kind() == ErrorKind::OutOfMemory => Err(RunFault::Memory),
        // One of the words is not UTF-8.
        Err(_) => Ok(true),
    }
}

// Answers the requests of the standard input.
fn answer(rt: &HostRuntime) -> Result<(), RunFault> {
    let mut source = HostSource::new(rt.reader());
    let mut sink = HostSink::new(io::writer(rt));
    run(rt.alloc(), &mut source, &mut sink)
}

fn main(rt: HostRuntime) -> ExitCode {
    let answered = match has_argument(&rt) {
        Ok(false) => answer(&rt),
        Ok(true) => {
            let _ = rt.eprintln(USAGE);
            return ExitCode::from(WRONG_USE);
        }
        Err(fault) => Err(fault),
    };
    match answered {
        Ok(()) => ExitCode::SUCCESS,
        Err(fault) => {
            let _ = rt.eprintln(fault.text());
            ExitCode::FAILURE
        }
    }
}
