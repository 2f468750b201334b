//! Answers list clients from a journal: one request from its input, or connections at an address.
#![tactic(auto)]

use door_main::{ServerDoor, door_at, limits_of, tell_port};
use gathering::DoorLimits;
use real_objects::{StdSink, StdSource, hold_descriptors};
use sb_mains::{Operator, journal_at, words_of};
use sb_model::OutOfMemory;
use sb_service::{ServerTargets, run_server, server_targets};
use std::process::ExitCode;

/// Runs the command that the words are, with this door.
fn run_with(
    rt: &HostRuntime,
    operator: Operator<'_>,
    words: &[String],
    targets: &ServerTargets,
    door: &mut ServerDoor<'_>,
) -> Result<u8, OutOfMemory> {
    let mut journal = journal_at(rt, &targets.journal)?;
    let mut input = StdSource::new(rt.stdin());
    let mut out = StdSink::new(rt.stdout());
    let status = run_server(rt.alloc(), words, &mut journal, &mut input, &mut out, door);
    match status {
        2 => {
            operator.tell_of("the journal", &targets.journal, journal.why());
            operator.tell("standard input", input.why());
        }
        3 => operator.tell("standard output", out.why()),
        9 => operator.tell_of("the address", &targets.listen, door.why()),
        _ => {}
    }
    Ok(status)
}

/// Runs the command that the words are. An address that cannot be had is told before the journal is looked at. What is left of
/// answers is sent before it ends, whatever its status is.
fn run(rt: &HostRuntime, operator: Operator<'_>, words: &[String]) -> Result<u8, OutOfMemory> {
    let targets = server_targets(rt.alloc(), words)?;
    let limits = match &targets.room {
        Some(room) => limits_of(room.peers, room.answers),
        None => DoorLimits::STANDARD,
    };
    let mut door = door_at(rt, operator, &targets.listen, limits);
    if targets.listen.is_some() && !door.is_usable() {
        operator.tell_of("the address", &targets.listen, door.why());
        return Ok(9);
    }
    tell_port(operator, &targets.listen, &door);
    let status = run_with(rt, operator, words, &targets, &mut door);
    door.finish();
    status
}

fn main(rt: HostRuntime) -> ExitCode {
    hold_descriptors(&rt);
    let Ok(words) = words_of(&rt, rt.alloc(), "sblistd") else {
        return ExitCode::from(8);
    };
    let operator = Operator::new(&rt, "sblistd");
    ExitCode::from(run(&rt, operator, words.as_slice()).unwrap_or(8))
}
