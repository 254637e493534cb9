//! How fast the calls are. Without an argument it prints nothing; with the names of topics it times their calls, each
//! as the least time of some rounds.
#![tactic(auto)]

mod characters;
mod coding;
mod forms;
mod label;
mod mail;
mod patterns;
mod plain_parts;
mod texts;
mod time_net;
mod timing;
mod uri;

use std::{env, io};

fn main(rt: HostRuntime) -> io::Result<()> {
    for topic in env::args(&rt)?.skip(1) {
        measure(rt, &topic)?;
    }
    Ok(())
}

fn measure(rt: HostRuntime, topic: &str) -> io::Result<()> {
    match topic {
        "characters" => characters::measure(rt),
        "coding" => coding::measure(rt),
        "forms" => forms::measure(rt),
        "label" => label::measure(rt),
        "mail" => mail::measure(rt),
        "patterns" => patterns::measure(rt),
        "time_net" => time_net::measure(rt),
        "uri" => uri::measure(rt),
        _ => println!(rt;
            "topics: characters, coding, forms, label, mail, patterns, time_net, uri"
        ),
    }
}
