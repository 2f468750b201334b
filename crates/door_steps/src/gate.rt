use crate::numbered::{BAD, GOOD, PIECE, answer_tag, fill_piece, piece_of};
use crate::seen::{Seen, Turn, look};
use crate::told::Told;
use gathering::{DoorLimits, GatheredWire};
use real_objects::SystemClock;
use sb_model::Moment;
use sb_outside::{Arrival, Clock, Door, SharedText, Wire, write_all};
use std::net::SocketAddr;
use tcp_door::TcpDoor;

/// A wire that was handed out and has no answer yet.
#[derive(Drop)]
struct Held {
    wire: GatheredWire,
    seen: Seen,
}

/// The door, what it handed out last, and the wires that wait for their answers.
#[derive(Drop)]
pub(crate) struct Gate<'a> {
    rt: &'a HostRuntime,
    door: Option<TcpDoor<&'a HostRuntime, Told>>,
    pub(crate) seen: Seen,
    held: Vec<Held>,
}

/// Writes the bytes of a tag, so many.
fn write_numbered(wire: &mut GatheredWire, tag: u8, length: u64) -> bool {
    let mut piece = [0; PIECE];
    let mut written = 0u64;
    for _ in 0..length {
        let count = piece_of(length.saturating_sub(written));
        if count == 0 {
            break;
        }
        fill_piece(&mut piece[..count], tag, written);
        if write_all(wire, &piece[..count]).is_err() {
            return false;
        }
        written = written.saturating_add(count as u64);
    }
    true
}

/// Answers what was handed out with so many bytes.
fn respond(wire: &mut GatheredWire, seen: Seen, length: u64) -> Turn {
    match seen.turn {
        Turn::Taken => {
            if write_all(wire, GOOD).is_ok()
                && write_numbered(wire, answer_tag(seen.number), length)
            {
                Turn::Answered
            } else {
                Turn::Failed
            }
        }
        Turn::Refused if write_all(wire, BAD).is_err() => Turn::Failed,
        other => other,
    }
}

/// What the system's clock says.
pub(crate) fn now(rt: &HostRuntime) -> u64 {
    SystemClock::new(rt).now().0
}

impl<'a> Gate<'a> {
    /// No door.
    pub(crate) fn new(rt: &'a HostRuntime) -> Gate<'a> {
        Gate {
            rt,
            door: None,
            seen: Seen::of(Turn::Nobody),
            held: Vec::new(rt.alloc()),
        }
    }

    /// Makes a door in the place of the one that is there. It says whether it is usable.
    pub(crate) fn open(&mut self, address: &str, limits: DoorLimits) -> bool {
        self.held.clear();
        let door = TcpDoor::bind(self.rt, self.rt.alloc(), address, limits, Told { count: 0 });
        let is_usable = door.is_usable();
        self.door = Some(door);
        is_usable
    }

    pub(crate) fn address(&self) -> Option<SocketAddr> {
        self.door.as_ref()?.local_addr()
    }

    /// How many times the door told that the system has no room.
    pub(crate) fn told(&self) -> u64 {
        match &self.door {
            Some(door) => door.teller().count,
            None => 0,
        }
    }

    /// Ends the door.
    pub(crate) fn finish(&mut self) {
        if let Some(door) = self.door.take() {
            door.finish();
        }
    }

    /// What the door hands out before a moment.
    fn arrive_before(&mut self, moment: u64) -> Result<Option<GatheredWire>, Turn> {
        let Some(door) = &mut self.door else {
            return Err(Turn::Failed);
        };
        match door.next_before(Moment(moment)) {
            Ok(Arrival::Connected(wire)) => Ok(Some(wire)),
            Ok(Arrival::TimedOut) => Ok(None),
            Ok(Arrival::NoMore) | Err(_) => Err(Turn::Failed),
        }
    }

    /// What the door hands out, whenever that comes.
    fn arrive(&mut self) -> Result<Option<GatheredWire>, Turn> {
        let Some(door) = &mut self.door else {
            return Err(Turn::Failed);
        };
        match door.next() {
            Ok(next) => Ok(next),
            Err(_) => Err(Turn::Failed),
        }
    }

    /// Gives a wire back with its answer.
    fn give_back(&mut self, mut wire: GatheredWire, seen: Seen, length: u64) -> Turn {
        let turn = respond(&mut wire, seen, length);
        if let Some(door) = &mut self.door {
            door.done(wire);
        }
        turn
    }

    /// Answers a wire with so many bytes, where its request is what it should be.
    fn serve_one(&mut self, mut wire: GatheredWire, length: u64) -> Turn {
        let seen = look(self.rt.alloc(), &mut wire);
        self.seen = seen;
        self.give_back(wire, seen, length)
    }

    /// Asks the door until a moment, and answers what comes with so many bytes.
    pub(crate) fn serve_before(&mut self, moment: u64, length: u64) -> Turn {
        match self.arrive_before(moment) {
            Ok(Some(wire)) => self.serve_one(wire, length),
            Ok(None) => Turn::Nobody,
            Err(turn) => turn,
        }
    }

    /// Asks the door for so many milliseconds, and answers what comes with so many bytes.
    pub(crate) fn serve(&mut self, millis: u64, length: u64) -> Turn {
        let moment = now(self.rt).saturating_add(millis);
        self.serve_before(moment, length)
    }

    /// Keeps a wire until it is answered.
    fn keep(&mut self, mut wire: GatheredWire) -> Turn {
        let seen = look(self.rt.alloc(), &mut wire);
        self.seen = seen;
        match self.held.push(Held { wire, seen }) {
            Ok(()) => seen.turn,
            Err(_) => Turn::Failed,
        }
    }

    /// Asks the door, for so many milliseconds or without an end, and keeps what comes.
    pub(crate) fn take(&mut self, millis: Option<u64>) -> Turn {
        let arrival = match millis {
            Some(millis) => self.arrive_before(now(self.rt).saturating_add(millis)),
            None => self.arrive(),
        };
        match arrival {
            Ok(Some(wire)) => self.keep(wire),
            Ok(None) => Turn::Nobody,
            Err(turn) => turn,
        }
    }

    /// Where the wire of a number waits for its answer. One whose request was refused has the number 0.
    fn place_of(&self, number: u8) -> Option<usize> {
        for (place, held) in self.held.iter().enumerate() {
            if held.seen.number == number {
                return Some(place);
            }
        }
        None
    }

    /// Takes the wire of a number out of those that wait for their answers.
    fn take_held(&mut self, number: u8) -> Option<Held> {
        let place = self.place_of(number)?;
        if place < self.held.len() {
            Some(self.held.remove(place))
        } else {
            None
        }
    }

    /// Answers a wire that was kept with a text that others may share.
    pub(crate) fn lend(&mut self, number: u8, text: &SharedText) -> Turn {
        let Some(Held { mut wire, .. }) = self.take_held(number) else {
            return Turn::Nobody;
        };
        let is_written = write_all(&mut wire, GOOD).is_ok() && wire.write_shared(text).is_ok();
        if let Some(door) = &mut self.door {
            door.done(wire);
        }
        if is_written {
            Turn::Answered
        } else {
            Turn::Failed
        }
    }

    /// Answers a wire that was kept with so many bytes.
    pub(crate) fn answer(&mut self, number: u8, length: u64) -> Turn {
        match self.take_held(number) {
            Some(Held { wire, seen }) => self.give_back(wire, seen, length),
            None => Turn::Nobody,
        }
    }
}
