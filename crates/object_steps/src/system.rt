//! Steps with the system's clock and dice.
use crate::outcome::Outcome;
use crate::words::{cut, number_of};
use real_objects::{SystemClock, SystemDice};
use sb_model::Moment;
use sb_outside::{Clock, Dice};
use std::io;
use std::time::{Duration, Instant};

/// When the year 2024 began, in milliseconds since 1970.
const YEAR_2024: u64 = 1_704_067_200_000;

pub(crate) fn step(rt: &HostRuntime, line: &str) -> Outcome {
    let (what, rest) = cut(line);
    let (word, more) = cut(rest);
    match (what.as_bytes(), word.as_bytes()) {
        (b"clock", b"now") => now(rt),
        (b"clock", b"wait") => wait(rt, number_of(more)),
        (b"dice", b"two") => two_dice(rt),
        _ => Outcome::NoStep,
    }
}

fn now(rt: &HostRuntime) -> Outcome {
    if SystemClock::new(rt).now().0 > YEAR_2024 {
        return Outcome::Word("after 2024 began");
    }
    Outcome::Word("before 2024")
}

/// Waits for so many milliseconds from now on.
fn wait(rt: &HostRuntime, millis: u64) -> Outcome {
    match waits_out(rt, millis) {
        Ok(true) => Outcome::Word("waited"),
        Ok(false) => Outcome::Word("too early"),
        Err(e) => Outcome::Refused(e),
    }
}

/// Whether the clock says after a wait that it is over, and at least two thirds of it have passed.
fn waits_out(rt: &HostRuntime, millis: u64) -> io::Result<bool> {
    let mut clock = SystemClock::new(rt);
    let end = clock.now().0.saturating_add(millis);
    let begun = Instant::now(rt)?;
    let reached = clock.wait_until(Moment(end)).0;
    let passed = begun.elapsed(rt)?;
    let least = millis.saturating_sub(millis / 3);
    Ok(reached >= end && passed >= Duration::from_millis(least))
}

/// Two dice that are made at once.
fn two_dice(rt: &HostRuntime) -> Outcome {
    let mut one = SystemDice::new(rt);
    let mut other = SystemDice::new(rt);
    if one.word() != other.word() {
        return Outcome::Word("two words that differ");
    }
    Outcome::Word("one word twice")
}
