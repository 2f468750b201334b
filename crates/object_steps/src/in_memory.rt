//! Steps with clocks and dice over a system in memory.
use crate::outcome::{Outcome, text};
use crate::words::{cut, number_of};
use real_objects::{SystemClock, SystemDice};
use sb_model::{Bytes, Moment, OutOfMemory};
use sb_outside::{Clock, Dice};
use std::alloc::Global;
use std::cell::Cell;
use std::io::{self, ErrorKind};
use std::random::RandomSource;
use std::time::{self, Duration};

pub(crate) fn step(alloc: Global, line: &str) -> Outcome {
    let (word, rest) = cut(line);
    let number = number_of(rest);
    match word.as_bytes() {
        b"clock" => text(waits(alloc, Sleeping::new(true), number)),
        b"clock-unread" => text(waits(alloc, Sleeping::new(false), number)),
        b"dice" => text(words_of(alloc, Seeds::drawn(number))),
        b"dice-undrawn" => text(words_of(alloc, Seeds::not_drawn(number))),
        _ => Outcome::NoStep,
    }
}

fn refused<T>() -> io::Result<T> {
    Err(io::Error::from(ErrorKind::Unsupported))
}

/// A clock in memory that goes on by what is slept.
#[derive(Drop)]
struct Sleeping {
    can_be_read: bool,
    millis: Cell<u64>,
    sleeps: Cell<u64>,
}

impl Sleeping {
    fn new(can_be_read: bool) -> Sleeping {
        Sleeping {
            can_be_read,
            millis: Cell::new(0),
            sleeps: Cell::new(0),
        }
    }
}

impl time::Clock for Sleeping {
    fn monotonic(&self) -> io::Result<Duration> {
        refused()
    }

    fn since_1970(&self) -> io::Result<Duration> {
        if self.can_be_read {
            Ok(Duration::from_millis(self.millis.get()))
        } else {
            refused()
        }
    }

    fn sleep(&self, duration: Duration) {
        let slept = u64::try_from(duration.as_millis()).unwrap_or(u64::MAX);
        self.millis.set(self.millis.get().saturating_add(slept));
        self.sleeps.set(self.sleeps.get().saturating_add(1));
    }
}

/// What a clock says before a wait, after it and then, how long was slept, and how often.
fn waits(alloc: Global, system: Sleeping, moment: u64) -> Result<Bytes, OutOfMemory> {
    let mut clock = SystemClock::new(&system);
    let before = clock.now().0;
    let reached = clock.wait_until(Moment(moment)).0;
    let after = clock.now().0;
    let mut said = Bytes::new(alloc);
    for number in [before, reached, after, system.millis.get()] {
        said.append_decimal(number)?;
        said.push(b' ')?;
    }
    said.append_decimal(system.sleeps.get())?;
    Ok(said)
}

/// A source of bytes in memory, with a clock: the first byte of the seed, or none, and what the clock says.
#[derive(Drop)]
struct Seeds {
    first: Option<u8>,
    millis: u64,
}

impl Seeds {
    fn drawn(number: u64) -> Seeds {
        let first = Some((number & 0xff) as u8);
        Seeds { first, millis: 0 }
    }

    fn not_drawn(millis: u64) -> Seeds {
        Seeds {
            first: None,
            millis,
        }
    }
}

impl RandomSource for Seeds {
    fn fill_bytes(&self, buffer: &mut [u8]) -> io::Result<()> {
        let Some(first) = self.first else {
            return refused();
        };
        for byte in buffer.iter_mut() {
            *byte = 0;
        }
        if let Some(byte) = buffer.first_mut() {
            *byte = first;
        }
        Ok(())
    }
}

impl time::Clock for Seeds {
    fn monotonic(&self) -> io::Result<Duration> {
        refused()
    }

    fn since_1970(&self) -> io::Result<Duration> {
        Ok(Duration::from_millis(self.millis))
    }
}

/// The first two words of dice over such a system.
fn words_of(alloc: Global, seeds: Seeds) -> Result<Bytes, OutOfMemory> {
    let mut dice = SystemDice::new(&seeds);
    let mut said = Bytes::new(alloc);
    said.append_decimal(u64::from(dice.word()))?;
    said.push(b' ')?;
    said.append_decimal(u64::from(dice.word()))?;
    Ok(said)
}
