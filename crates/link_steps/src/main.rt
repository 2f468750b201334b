//! Reads steps of a link beside its caller, of a peer that answers it, and of a door with a bell, from its input, takes each,
//! and prints what comes of it behind the step. `docs/FORMATS.md`, "Link steps", says how a step is written.
#![tactic(auto)]

use outcome::{Outcome, say};
use stage::Stage;
use std::process::ExitCode;
use std::sync::Wait;
use std::thread::Threads;
use words::cut;

mod bells;
mod both;
mod counts;
mod links;
mod many;
mod outcome;
mod peers;
mod scripts;
mod stage;
mod timed;
mod words;

/// Takes the step of a line.
fn take<R>(stage: &mut Stage<R>, line: &str) -> Outcome
where
    R: Threads + Wait + Copy + Send + Sync + 'static,
{
    let (word, rest) = cut(line);
    match word.as_bytes() {
        b"limits" => stage.limit(rest),
        b"to" => stage.lead(rest),
        b"port" => peers::port_step(stage, rest),
        b"peer" => peers::step(stage, rest),
        b"link" => links::step(stage, rest),
        b"ask" => both::ask(stage, rest, true),
        b"same" => both::ask(stage, rest, false),
        b"took" => both::took(stage, rest),
        b"sessions" => many::step(stage, rest),
        _ => bells::step(stage, line),
    }
}

/// Takes the step of a line, and prints it with what came of it. A heading is printed as it stands.
fn run_line<R>(stage: &mut Stage<R>, line: &str)
where
    R: Threads + Wait + Copy + Send + Sync + 'static,
{
    if line.is_empty() || line.starts_with("--") {
        return;
    }
    if line.starts_with("#") {
        let _ = println!(stage.rt; "{line}");
        return;
    }
    let outcome = take(stage, line);
    say(&stage.rt, line, &outcome);
}

/// Takes the steps of all lines.
fn run_lines<R>(stage: &mut Stage<R>) -> ExitCode
where
    R: Threads + Wait + Copy + Send + Sync + 'static,
{
    let rt = stage.rt;
    for line in rt.lines(rt.alloc()) {
        match line {
            Ok(line) => run_line(stage, line.as_str()),
            Err(_) => return ExitCode::from(2),
        }
    }
    ExitCode::SUCCESS
}

fn main(rt: HostRuntime) -> ExitCode {
    match Stage::new(rt, rt) {
        Some(mut stage) => run_lines(&mut stage),
        None => ExitCode::from(1),
    }
}
