//! Steps of the door and of its bell.
use crate::counts::time_at_work;
use crate::outcome::{Outcome, truth};
use crate::stage::{PATIENCE, Stage, Turn, pass};
use crate::words::{cut, number_of};
use door_bell::Bell;
use sb_outside::Link;
use std::io::{self, Write};
use std::net::TcpStream;
use std::sync::Wait;
use std::thread::{self, Threads};
use std::time::{Duration, Instant};

/// How soon one who waits comes back, in milliseconds.
const SOON: u64 = 1_000;

fn is_soon(passed: Duration) -> bool {
    passed <= Duration::from_millis(SOON)
}

pub(crate) fn step<R: Threads + Wait + Copy + Sync>(stage: &mut Stage<R>, line: &str) -> Outcome {
    let (word, rest) = cut(line);
    let number = number_of(rest);
    match word.as_bytes() {
        b"ring" => ring(stage),
        b"pass" => Outcome::Word(pass(stage.rt, &mut stage.door, number).word()),
        b"at-once" => at_once(stage),
        b"rung" => rung(stage, number),
        b"caller" => call(stage),
        b"idle" => idle(stage, rest),
        _ => Outcome::NoStep,
    }
}

fn ring<R>(stage: &mut Stage<R>) -> Outcome {
    stage.bell.ring();
    Outcome::Done
}

/// What the door says that is asked for a long time, and whether it comes back at once.
fn at_once<R>(stage: &mut Stage<R>) -> Outcome {
    let Ok(begun) = Instant::now(&stage.rt) else {
        return Outcome::Word("no clock");
    };
    let said = pass(stage.rt, &mut stage.door, PATIENCE);
    match begun.elapsed(&stage.rt) {
        Ok(passed) if is_soon(passed) => Outcome::Word(said.word()),
        _ => Outcome::Word("late"),
    }
}

/// Rings after so many milliseconds, and says when.
fn ring_after(rt: HostRuntime, bell: &Bell, millis: u64) -> io::Result<Instant> {
    thread::sleep(&rt, Duration::from_millis(millis));
    let rung = Instant::now(&rt);
    bell.ring();
    rung
}

/// Whether a door that waits comes back soon after a thread rings.
fn rung<R: Threads + Copy + Sync>(stage: &mut Stage<R>, millis: u64) -> Outcome {
    let rt = stage.rt;
    let door = &mut stage.door;
    let Ok(bell) = stage.bell.again() else {
        return Outcome::OutOfMemory;
    };
    let (rung, said) = thread::join(
        &stage.threads,
        || ring_after(rt, &bell, millis),
        || pass(rt, door, PATIENCE),
    );
    match (rung, said) {
        (Ok(rung), Turn::Nobody) => match rung.elapsed(&rt) {
            Ok(passed) => truth(is_soon(passed)),
            Err(e) => Outcome::Refused(e),
        },
        _ => Outcome::Word(said.word()),
    }
}

/// A peer comes to the door with a whole request.
fn call<R>(stage: &mut Stage<R>) -> Outcome {
    let Some(address) = stage.door.local_addr() else {
        return Outcome::Cannot(None);
    };
    match TcpStream::connect(&stage.rt, address) {
        Ok(mut peer) => {
            let sent = peer.write_all(b"GET / HTTP/1.1\r\nHost: a\r\n\r\n");
            stage.peer = Some(peer);
            crate::outcome::done(sent)
        }
        Err(e) => Outcome::Refused(e),
    }
}

/// Asks the door until the link is answered, each time for so many milliseconds, and says how often.
fn wait_for_answer<R: Wait>(stage: &mut Stage<R>, ahead: u64) -> u64 {
    for turn in 0..100_000 {
        if stage.link.is_answered() {
            return turn;
        }
        pass(stage.rt, &mut stage.door, ahead);
    }
    100_000
}

/// Whether a loop that waits so for the link's answer runs for less than so many milliseconds.
fn idle<R: Wait>(stage: &mut Stage<R>, rest: &str) -> Outcome {
    let (ahead, limit) = cut(rest);
    let before = time_at_work(&stage.rt);
    wait_for_answer(stage, number_of(ahead));
    match (before, time_at_work(&stage.rt)) {
        (Some(before), Some(after)) => truth(after.saturating_sub(before) < number_of(limit)),
        _ => Outcome::Word("no time at work"),
    }
}
