//! Steps with a link over TCP.
use crate::outcome::{Outcome, text};
use crate::peers::Ends;
use crate::things::LocalLink;
use crate::words::{cut, number_of, size_of, text_of};
use real_objects::{TcpLimits, TcpLink};
use sb_model::{Bytes, Moment, OutOfMemory};
use sb_outside::{Failed, Kind, Link};
use std::io;
use std::time::{Duration, Instant};

/// From how many milliseconds on a call is late, whatever it comes to.
const LATE: u64 = 45_000;

pub(crate) fn step<'a>(rt: &'a HostRuntime, ends: &mut Ends<'a>, line: &str) -> Outcome {
    let (word, rest) = cut(line);
    match word.as_bytes() {
        b"to" => lead(rt, ends, rest),
        b"begin" => begin(rt, &mut ends.link),
        b"send" => send(rt, &mut ends.link, rest),
        b"receive" => receive(rt, &mut ends.link, size_of(rest)),
        b"close" => close(&mut ends.link),
        b"faults" => Outcome::Number(ends.link.faults()),
        b"default" => default_limits(),
        _ => Outcome::NoStep,
    }
}

/// What a call came to that began then, or that it took longer than any limit of the steps allows.
fn in_time(rt: &HostRuntime, begun: io::Result<Instant>, outcome: Outcome) -> Outcome {
    let Ok(begun) = begun else {
        return Outcome::Word("no clock");
    };
    match begun.elapsed(rt) {
        Ok(passed) if passed < Duration::from_millis(LATE) => outcome,
        _ => Outcome::Word("late"),
    }
}

/// A link to the port, with these limits of a call and of a session.
fn lead<'a>(rt: &'a HostRuntime, ends: &mut Ends<'a>, rest: &str) -> Outcome {
    let (call, connection) = cut(rest);
    let limits = TcpLimits {
        call: number_of(call),
        connection: number_of(connection),
    };
    let Some(address) = ends.address else {
        return Outcome::Cannot(None);
    };
    let Ok(address) = format!(in rt.alloc(); "{address}") else {
        return Outcome::OutOfMemory;
    };
    match TcpLink::new(rt, rt.alloc(), address.as_str(), limits) {
        Ok(made) => ends.link = made,
        Err(OutOfMemory) => return Outcome::OutOfMemory,
    }
    Outcome::Done
}

fn default_limits() -> Outcome {
    if TcpLimits::default() == TcpLimits::STANDARD {
        return Outcome::Word("standard");
    }
    Outcome::Word("other")
}

fn begin(rt: &HostRuntime, link: &mut LocalLink<'_>) -> Outcome {
    let begun = Instant::now(rt);
    let outcome = match link.begin(Moment(0), Kind::Find) {
        Ok(()) => Outcome::Done,
        Err(Failed) => Outcome::Cannot(link.why()),
    };
    in_time(rt, begun, outcome)
}

fn send(rt: &HostRuntime, link: &mut LocalLink<'_>, more: &str) -> Outcome {
    let Ok(bytes) = text_of(rt.alloc(), more) else {
        return Outcome::OutOfMemory;
    };
    let begun = Instant::now(rt);
    let outcome = match link.send(bytes.as_slice()) {
        Ok(()) => Outcome::Done,
        Err(Failed) => Outcome::Cannot(link.why()),
    };
    in_time(rt, begun, outcome)
}

fn receive(rt: &HostRuntime, link: &mut LocalLink<'_>, count: usize) -> Outcome {
    let mut buffer = [0; 64];
    let begun = Instant::now(rt);
    let outcome = match link.recv(&mut buffer[..count.min(64)]) {
        Ok(given) => text(Bytes::from_slice(rt.alloc(), &buffer[..given])),
        Err(Failed) => Outcome::Cannot(link.why()),
    };
    in_time(rt, begun, outcome)
}

fn close(link: &mut LocalLink<'_>) -> Outcome {
    link.close(Moment(1));
    Outcome::Done
}
