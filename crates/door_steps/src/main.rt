//! Reads steps of a door that gathers, and of peers at it over loopback, from its input, takes each, and prints what it
//! comes to. `docs/FORMATS.md`, "Door steps", says how a step is written.
#![tactic(auto)]

use outcome::Outcome;
use stage::Stage;
use std::process::ExitCode;
use step::Step;

mod common;
mod door_steps;
mod gate;
mod groups;
mod limits;
mod numbered;
mod outcome;
mod peer;
mod peer_steps;
mod row;
mod seen;
mod stage;
mod step;
mod steps;
mod together;
mod told;

/// Takes a step, and prints what it comes to, where there are words for it or it failed.
fn take_step(stage: &mut Stage<'_>, step: &Step<'_>) {
    let outcome = steps::run(stage, step);
    if step.words.is_empty() && !outcome.is_failure() {
        return;
    }
    let words = if step.words.is_empty() {
        step.name
    } else {
        step.words
    };
    let _ = println!(stage.rt; "{words}: {outcome}");
}

/// Reads a line: a heading is printed, a comment is not, and every other is a step.
fn take_line(stage: &mut Stage<'_>, line: &str) {
    if line.starts_with('#') {
        let _ = println!(stage.rt; "{line}");
    } else if !line.is_empty() && !line.starts_with("--") {
        take_step(stage, &Step::of(line));
    }
}

fn main(rt: HostRuntime) -> ExitCode {
    let Ok(mut stage) = Stage::new(&rt) else {
        return ExitCode::from(1);
    };
    for line in rt.lines(rt.alloc()) {
        match line {
            Ok(line) => take_line(&mut stage, line.as_str()),
            Err(_) => return ExitCode::from(2),
        }
    }
    ExitCode::SUCCESS
}
