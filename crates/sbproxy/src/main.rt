//! Answers look-ups of URLs from lists that it keeps, as a client of one list server.
#![tactic(auto)]

use door_bell::Bell;
use door_main::{ServerDoor, door_at, limits_of, tell_port};
use gathering::DoorLimits;
use real_objects::hold_descriptors;
use sb_mains::{Operator, words_of};
use sb_model::{OutOfMemory, Text};
use sb_proxy::proxy_targets;
use serving::run_at;
use std::process::ExitCode;
use std::sync::Wait;
use std::thread::Threads;
use tcp_door::DoorFault;

mod serving;

/// The bell of a door, if it has an address.
fn bell_of(
    rt: &HostRuntime,
    listen: &Option<Text>,
    door: &mut ServerDoor<'_>,
) -> Result<Option<Bell>, DoorFault> {
    match listen {
        Some(_) => Ok(Some(door.bell(rt.alloc())?)),
        None => Ok(None),
    }
}

/// Runs the command that the words are. An address that cannot be had is told before the store is looked at.
fn run<R: Threads + Wait + Copy + Send + 'static>(
    threads: R,
    rt: &HostRuntime,
    operator: Operator<'_>,
    words: &[String],
) -> Result<u8, OutOfMemory> {
    let targets = proxy_targets(rt.alloc(), words)?;
    let limits = match &targets.room {
        Some(room) => limits_of(room.peers, room.answers),
        None => DoorLimits::STANDARD,
    };
    let mut door = door_at(rt, operator, &targets.listen, limits);
    if targets.listen.is_some() && !door.is_usable() {
        operator.tell_of("the address", &targets.listen, door.why());
        return Ok(9);
    }
    match bell_of(rt, &targets.listen, &mut door) {
        Ok(bell) => {
            tell_port(operator, &targets.listen, &door);
            run_at(threads, rt, operator, words, &targets, door, bell)
        }
        Err(why) => {
            operator.tell_of("the address", &targets.listen, Some(why));
            Ok(9)
        }
    }
}

fn main(rt: HostRuntime) -> ExitCode {
    hold_descriptors(&rt);
    let Ok(words) = words_of(&rt, rt.alloc(), "sbproxy") else {
        return ExitCode::from(8);
    };
    let operator = Operator::new(&rt, "sbproxy");
    ExitCode::from(run(rt, &rt, operator, words.as_slice()).unwrap_or(8))
}
