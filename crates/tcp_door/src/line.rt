use crate::door_time::begun_millis;
use gathering::{Address, InLine, Shares, first_turn};
use sb_model::OutOfMemory;
use std::alloc::Global;

/// How many milliseconds a minute has.
const MINUTE: u64 = 60_000;

/// A connection that has its turn, and was handed out last.
#[derive(Clone, Copy, Debug)]
struct Running {
    serial: u64,
    address: Address,
}

/// Those that wait for their turn, and what the answers of each address took: what the door's caller spent on them, and not how long
/// he put them off.
#[derive(Drop)]
pub(crate) struct Line {
    waiting: Vec<InLine>,
    shares: Shares,
    // whoever was handed out last, if his turn is not over and he was not put off
    running: Option<Running>,
    // what passed in all, in nanoseconds, when the caller began with what he does now
    since: u64,
    // until when the shares are halved
    halved: u64,
}

impl Line {
    pub(crate) fn new(alloc: Global) -> Line {
        Line {
            waiting: Vec::new(alloc),
            shares: Shares::new(alloc),
            running: None,
            since: 0,
            halved: 0,
        }
    }

    pub(crate) fn len(&self) -> usize {
        self.waiting.len()
    }

    pub(crate) fn is_empty(&self) -> bool {
        self.waiting.is_empty()
    }

    /// One more waits for its turn.
    pub(crate) fn push(&mut self, one: InLine) -> Result<(), OutOfMemory> {
        match self.waiting.push(one) {
            Ok(()) => Ok(()),
            Err(_) => Err(OutOfMemory),
        }
    }

    /// The one at a place leaves the line.
    fn take_out(&mut self, place: usize) -> Option<InLine> {
        if place < self.waiting.len() {
            Some(self.waiting.remove(place))
        } else {
            None
        }
    }

    /// Whose turn it is: it leaves the line.
    pub(crate) fn next(&mut self) -> Option<InLine> {
        let place = first_turn(&self.shares, self.waiting.as_slice())?;
        self.take_out(place)
    }

    /// Where the connection of a number waits.
    fn place_of(&self, serial: u64) -> Option<usize> {
        for (place, one) in self.waiting.iter().enumerate() {
            if one.serial == serial {
                return Some(place);
            }
        }
        None
    }

    /// The connection of a number waits no longer.
    pub(crate) fn leave(&mut self, serial: u64) {
        if let Some(place) = self.place_of(serial) {
            self.take_out(place);
        }
    }

    /// What the caller did until so much time had passed in all was for this address. Where memory is refused, that is forgotten.
    fn took(&mut self, address: Address, passed: u64) {
        let took = passed.saturating_sub(self.since);
        let _ = self.shares.add(address, begun_millis(took));
        self.since = passed;
    }

    /// The turn of a connection begins.
    pub(crate) fn begin_turn(&mut self, serial: u64, address: Address) {
        self.running = Some(Running { serial, address });
    }

    /// The turn of a connection is over, at once or once it was put off.
    pub(crate) fn end_turn(&mut self, serial: u64, address: Address, passed: u64) {
        self.took(address, passed);
        if let Some(running) = self.running
            && running.serial == serial
        {
            self.running = None;
        }
    }

    /// The caller comes back to the door. If the turn of whoever was handed out last is not over, he is put off.
    pub(crate) fn put_off(&mut self, passed: u64) {
        if let Some(running) = self.running.take() {
            self.took(running.address, passed);
        }
    }

    /// The caller goes from the door.
    pub(crate) fn go_on(&mut self, passed: u64) {
        self.since = passed;
    }

    /// The shares are halved with each whole minute.
    pub(crate) fn pass_time(&mut self, now: u64) {
        let minutes = now.saturating_sub(self.halved) / MINUTE;
        if minutes > 0 {
            self.shares.halve(minutes);
            self.halved = self.halved.saturating_add(minutes.saturating_mul(MINUTE));
        }
    }
}
