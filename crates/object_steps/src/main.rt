//! Reads steps from its input, takes each with a real object, and prints what comes of it behind the step.
#![tactic(auto)]

use outcome::{Outcome, say};
use real_objects::StdSource;
use sb_outside::read_to_end;
use std::process::ExitCode;
use std::thread::Threads;
use things::Things;
use words::cut;

mod diverted;
mod exchanges;
mod files;
mod in_memory;
mod journals;
mod keepers;
mod links;
mod outcome;
mod peers;
mod scripts;
mod streams;
mod system;
mod things;
mod words;

/// How many bytes the steps may have.
const LIMIT: usize = 1_048_576;

/// Takes a step with the object that its first word names.
fn take<'a>(
    threads: &impl Threads,
    rt: &'a HostRuntime,
    things: &mut Things<'a>,
    line: &str,
) -> Outcome {
    let (thing, rest) = cut(line);
    match thing.as_bytes() {
        b"first" => keepers::step(rt, &mut things.first, rest),
        b"second" => keepers::step(rt, &mut things.second, rest),
        b"unflushed" => diverted::unflushed(rt, rest),
        b"full" => diverted::full(rt, rest),
        b"occupied" => diverted::occupied(rt, rest),
        b"journal" => journals::step(rt, &mut things.journal, rest),
        b"source" => streams::source_step(rt, &mut things.source, rest),
        b"sink" => streams::sink_step(rt, &mut things.sink, rest),
        b"link" => links::step(rt, &mut things.ends, rest),
        b"exchange" => exchanges::step(threads, rt.alloc(), &mut things.ends, rest),
        b"port" | b"peer" | b"crowd" => peers::step(rt, &mut things.ends, line),
        b"clock" | b"dice" => system::step(rt, line),
        b"memory" => in_memory::step(rt.alloc(), rest),
        _ => files::step(rt, line),
    }
}

/// Takes the step of a line, and prints it with what came of it. A heading is printed as it stands.
fn run_line<'a>(threads: &impl Threads, rt: &'a HostRuntime, things: &mut Things<'a>, line: &str) {
    if line.is_empty() || line.starts_with("--") {
        return;
    }
    if line.starts_with("#") {
        let _ = println!(rt; "{line}");
        return;
    }
    let outcome = take(threads, rt, things, line);
    say(rt, line, &outcome);
}

fn main(rt: HostRuntime) -> ExitCode {
    let Ok(input) = read_to_end(rt.alloc(), &mut StdSource::new(rt.stdin()), LIMIT) else {
        return ExitCode::from(2);
    };
    let Ok(text) = std::str::from_utf8(input.as_slice()) else {
        return ExitCode::from(2);
    };
    let mut things = Things::new(&rt);
    for line in text.split('\n') {
        run_line(&rt, &rt, &mut things, line);
    }
    ExitCode::SUCCESS
}
