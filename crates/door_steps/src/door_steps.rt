use crate::common::{lend, make_common};
use crate::gate::now;
use crate::groups::{answer_all, serve_all, take_all};
use crate::limits::{SHORT, limits_of};
use crate::outcome::Outcome;
use crate::seen::Turn;
use crate::stage::Stage;
use crate::step::Step;
use crate::together::quick;
use gathering::DoorLimits;
use std::net::SocketAddr;
use std::time::Duration;
use std::{fs, thread};

/// A door for the steps that follow. All peers leave.
fn open(stage: &mut Stage<'_>, step: &Step<'_>, address: &str) -> Outcome {
    stage.row.clear();
    Outcome::Truth(stage.gate.open(address, limits_of(step)))
}

/// Whether a door has the address that it was given, and no other.
fn binds(stage: &mut Stage<'_>, address: &str) -> Outcome {
    stage.gate.open(address, SHORT);
    Outcome::Truth(match stage.gate.address() {
        Some(SocketAddr::V4(there)) => there.ip().is_loopback() && address == "127.0.0.1:0",
        Some(SocketAddr::V6(there)) => there.ip().is_loopback() && address == "[::1]:0",
        None => false,
    })
}

fn word(turn: Turn) -> Outcome {
    Outcome::Word(turn.word())
}

fn take(stage: &mut Stage<'_>, millis: &str) -> Outcome {
    word(stage.gate.take(millis.parse::<u64>().ok()))
}

/// Asks the door until a moment that is a minute past.
fn past(stage: &mut Stage<'_>, length: u64) -> Outcome {
    let moment = now(stage.rt).saturating_sub(60_000);
    word(stage.gate.serve_before(moment, length))
}

/// For how long this program had work so far, in milliseconds: while it ran, and while it waited for a processor.
fn time_at_work(rt: &HostRuntime) -> Option<u64> {
    let text = fs::read_to_string(rt, "/proc/self/schedstat").ok()?;
    let mut total = 0u64;
    for word in text.as_str().split_whitespace().take(2) {
        let nanos = word.parse::<u64>().ok()?;
        total = total.saturating_add(nanos / 1_000_000);
    }
    Some(total)
}

/// Notes the time.
fn note_time(stage: &mut Stage<'_>) -> Outcome {
    stage.noted = now(stage.rt);
    Outcome::Done
}

/// Whether less than so many milliseconds passed since then.
fn is_soon(stage: &Stage<'_>, limit: u64) -> Outcome {
    Outcome::Truth(now(stage.rt).saturating_sub(stage.noted) < limit)
}

/// Notes the time at work.
fn note_work(stage: &mut Stage<'_>) -> Outcome {
    match time_at_work(stage.rt) {
        Some(work) => {
            stage.work = work;
            Outcome::Done
        }
        None => Outcome::Cannot("no time at work"),
    }
}

/// Whether the work since then took less than so many milliseconds.
fn is_idle(stage: &Stage<'_>, limit: u64) -> Outcome {
    match time_at_work(stage.rt) {
        Some(work) => Outcome::Truth(work.saturating_sub(stage.work) < limit),
        None => Outcome::Cannot("no time at work"),
    }
}

fn sleep(stage: &Stage<'_>, millis: u64) -> Outcome {
    thread::sleep(stage.rt, Duration::from_millis(millis));
    Outcome::Done
}

/// A step that asks the door, or answers what it handed out.
fn run_of_turns(stage: &mut Stage<'_>, step: &Step<'_>) -> Option<Outcome> {
    let number = step.number(0);
    Some(match step.name {
        "pass" => word(stage.gate.serve(number, 0)),
        "serve" => word(stage.gate.serve(number, step.number(1))),
        "serves" => Outcome::Count(serve_all(stage, number, step.number(1))),
        "past" => past(stage, number),
        "take" => take(stage, step.word(0)),
        "answer" => word(stage.gate.answer(step.peer(0), step.number(1))),
        "handed" => Outcome::Handed(stage.gate.seen),
        "told" => Outcome::Count(stage.gate.told()),
        "takes" => Outcome::Count(take_all(stage, number)),
        "answers" => {
            Outcome::Count(answer_all(stage, step.peer(0), step.peer(1), step.number(2)))
        }
        "lend" => word(lend(stage, step.peer(0))),
        "quick" => Outcome::Count(quick(stage, number)),
        _ => return None,
    })
}

fn finish(stage: &mut Stage<'_>) -> Outcome {
    stage.gate.finish();
    Outcome::Done
}

fn feed(stage: &mut Stage<'_>) -> Outcome {
    stage.feed();
    Outcome::Done
}

/// Whether as many pieces were sent, or more, but not as many as the other number says.
fn is_within(stage: &Stage<'_>, low: u64, high: u64) -> Outcome {
    Outcome::Truth((low..high).contains(&stage.pieces))
}

/// A step of the door, or of the system around it.
pub(crate) fn run_of_door(stage: &mut Stage<'_>, step: &Step<'_>) -> Option<Outcome> {
    let number = step.number(0);
    Some(match step.name {
        "door" => open(stage, step, "127.0.0.1:0"),
        "wide" => open(stage, step, "[::]:0"),
        "standard" => Outcome::Limits(DoorLimits::STANDARD),
        "common" => make_common(stage, step.peer(0), step.number(1)),
        "note" => note_time(stage),
        "soon" => is_soon(stage, number),
        "binds" => binds(stage, step.word(0)),
        "finish" => finish(stage),
        "sleep" => sleep(stage, number),
        "work" => note_work(stage),
        "idle" => is_idle(stage, number),
        "starve" => Outcome::Truth(stage.starve(number)),
        "feed" => feed(stage),
        "pieces" => is_within(stage, number, step.number(1)),
        _ => return run_of_turns(stage, step),
    })
}
