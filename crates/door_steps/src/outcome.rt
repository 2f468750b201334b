use crate::seen::Seen;
use gathering::DoorLimits;
use std::{fmt, io};

/// What a step came to.
#[derive(Clone, Copy)]
pub(crate) enum Outcome {
    Done,
    Word(&'static str),
    Count(u64),
    Truth(bool),
    /// Numbers of peers, each a bit.
    Numbers(u128),
    /// What the door handed out last.
    Handed(Seen),
    /// How what came back compares: how many bytes were to come and came, and where they first differ.
    Compared(u64, u64, Option<u64>),
    /// Limits of a door.
    Limits(DoorLimits),
    Cannot(&'static str),
    Fault(io::Error),
}

impl Outcome {
    /// Whether it is told though the step has no words for it.
    pub(crate) fn is_failure(&self) -> bool {
        matches!(self, Outcome::Cannot(_) | Outcome::Fault(_))
    }

    /// What a call comes to that gives nothing.
    pub(crate) fn of(made: io::Result<()>) -> Outcome {
        match made {
            Ok(()) => Outcome::Done,
            Err(e) => Outcome::Fault(e),
        }
    }
}

/// Writes the numbers of the bits.
fn write_numbers<W: fmt::Write>(f: &mut fmt::Formatter<W>, bits: u128) -> fmt::Result {
    let mut gap = "";
    for number in 0..128u32 {
        if bits.wrapping_shr(number) % 2 == 1 {
            write!(f, "{gap}{number}")?;
            gap = " ";
        }
    }
    Ok(())
}

/// Writes how what came back compares.
fn write_compared<W: fmt::Write>(
    f: &mut fmt::Formatter<W>,
    wanted: u64,
    got: u64,
    differs: Option<u64>,
) -> fmt::Result {
    match differs {
        Some(place) => write!(f, "differs at {place}"),
        None if got == wanted => write!(f, "whole, {got} bytes"),
        None if got < wanted => f.write_str("a front"),
        None => f.write_str("too long"),
    }
}

/// Writes limits by their names.
fn write_limits<W: fmt::Write>(f: &mut fmt::Formatter<W>, limits: &DoorLimits) -> fmt::Result {
    let (connections, bytes_a_second) = (limits.connections, limits.bytes_a_second);
    write!(f, "connections={connections} request={}", limits.request)?;
    write!(f, " turn={} stall={}", limits.turn, limits.stall)?;
    write!(
        f,
        " answer={} bytes_a_second={bytes_a_second}",
        limits.answer
    )?;
    write!(f, " rest={} rest_bytes={}", limits.rest, limits.rest_bytes)?;
    write!(f, " gathered_bytes={}", limits.gathered_bytes)?;
    write!(
        f,
        " answer_bytes={} finish={}",
        limits.answer_bytes, limits.finish
    )
}

impl fmt::Display for Outcome {
    fn fmt<W: fmt::Write>(&self, f: &mut fmt::Formatter<W>) -> fmt::Result {
        match self {
            Outcome::Done => f.write_str("done"),
            Outcome::Word(word) => f.write_str(word),
            Outcome::Count(count) => write!(f, "{count}"),
            Outcome::Truth(truth) => write!(f, "{truth}"),
            Outcome::Numbers(bits) => write_numbers(f, *bits),
            Outcome::Handed(seen) => write!(f, "{seen}"),
            Outcome::Compared(wanted, got, differs) => write_compared(f, *wanted, *got, *differs),
            Outcome::Limits(limits) => write_limits(f, limits),
            Outcome::Cannot(cause) => write!(f, "cannot: {cause}"),
            Outcome::Fault(fault) => write!(f, "cannot: {fault}"),
        }
    }
}
