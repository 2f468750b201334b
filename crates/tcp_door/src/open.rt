ghost use Rattle.std.specs.Prelude.{IfSome, IfOk};
ghost use Rattle.gathering.specs.Wires.{IsFreshWire, HasItsTurn};
ghost use Rattle.tcp_door.specs.Houses.{IsOut, TakesBack};

use crate::door_time::{DoorTime, system_millis};
use crate::house::House;
use crate::port::{BELL, PORT, Port};
use crate::{DoorFault, Teller};
use door_bell::Bell;
use gathering::{AcceptFault, DoorLimits, GatheredWire, accept_fault, address_of};
use mio::{Events, Poll};
use sb_model::Moment;
use std::alloc::Global;
use std::net::{Net, SocketAddr};
use std::time::Duration;
use std::{io, time};

/// How many connections are taken in one turn: who waits at the port is to be in line before the next answer is made.
const TAKEN_A_TURN: usize = 1_024;

/// For how long the port rests where there was no room for a connection even after one gave way, in milliseconds.
const PORT_REST: u64 = 100;

/// What a door tells where the system has no room for a connection, before the system's reason.
const NO_ROOM: &str =
    "has no room for a further connection, so one that waits gives way to each that comes; \
    if too many files are open, raise their limit (ulimit -n, LimitNOFILE=)";

/// How long one wait is at most while some connection has a time, in milliseconds. So all of it counts.
const LONGEST_WAIT: u64 = 1_000;

/// A port, and the connections that came in there.
#[derive(Drop)]
pub(crate) struct OpenDoor {
    port: Port,
    // once somebody asked for one
    bell: Option<Bell>,
    house: House,
    time: DoorTime,
    // how long its end takes at most
    finish: u64,
    // whether a connection may wait at the port, and until when the port rests
    may_accept: bool,
    rests_until: Option<u64>,
    // why the system had no room for a connection when that came first, and whether it was told
    no_room: Option<DoorFault>,
    is_told: bool,
}

/// Waits for what the system reports, at most so many milliseconds, and notes it. It says whether some of it was at the port.
fn wait_for_events(
    poll: &mut Poll,
    events: &mut Events,
    house: &mut House,
    wait: Option<u64>,
) -> io::Result<bool> {
    let wait = match wait {
        Some(millis) => Some(Duration::from_millis(millis)),
        None => None,
    };
    poll.poll(events, wait)?;
    let mut at_port = false;
    for event in &*events {
        let token = event.token();
        if token == PORT {
            at_port = true;
        } else if token != BELL {
            house.mark(token.0.saturating_sub(1), event);
        }
    }
    Ok(at_port)
}

/// The number of an error of the system, where it has one.
fn number_of(fault: io::Error) -> Option<u32> {
    u32::try_from(fault.raw_os_error()?).ok()
}

/// The shorter of two waits. `None` has no end.
fn shorter(a: Option<u64>, b: Option<u64>) -> Option<u64> {
    match (a, b) {
        (Some(a), Some(b)) => Some(a.min(b)),
        (Some(a), None) => Some(a),
        (None, b) => b,
    }
}

/// How long it is from a moment to another, where there is one.
fn until(moment: Option<u64>, now: u64) -> Option<u64> {
    match moment {
        Some(moment) => Some(moment.saturating_sub(now)),
        None => None,
    }
}

/// How long it is until a moment of the system's clock, where there is one.
fn left_until(rt: &impl time::Clock, moment: Option<Moment>) -> Result<Option<u64>, DoorFault> {
    let Some(moment) = moment else {
        return Ok(None);
    };
    match system_millis(rt) {
        Ok(now) => Ok(Some(moment.0.saturating_sub(now))),
        Err(e) => Err(DoorFault::system("cannot read the time", e)),
    }
}

/// How long a door waits next at its end: not at all where it is over.
fn wait_at_end(house: &House, now: u64, end: u64) -> Option<u64> {
    let due = house.first_due()?.min(end);
    if now >= end {
        return None;
    }
    if house.is_busy() {
        return Some(0);
    }
    Some(due.saturating_sub(now).min(LONGEST_WAIT))
}

impl OpenDoor {
    /// A port at an address, and no connection.
    pub(crate) fn open<N: Net>(
        net: &N,
        alloc: Global,
        address: &str,
        limits: DoorLimits,
    ) -> Result<OpenDoor, DoorFault> {
        let port = match Port::open(net, alloc, address) {
            Ok(port) => port,
            Err(e) => return Err(DoorFault::system("cannot be had", e)),
        };
        let Ok(house) = House::new(alloc, limits) else {
            return Err(DoorFault::refusal("cannot be had: out of memory"));
        };
        Ok(OpenDoor {
            port,
            bell: None,
            house,
            time: DoorTime::new(),
            finish: limits.finish,
            may_accept: true,
            rests_until: None,
            no_room: None,
            is_told: false,
        })
    }

    pub(crate) fn local_addr(&self) -> Option<SocketAddr> {
        self.port.local_addr()
    }

    /// Hangs a bell at the door, where there is none.
    fn hang_bell(&mut self, alloc: Global) -> io::Result<()> {
        if self.bell.is_none() {
            self.bell = Some(Bell::new(alloc, self.port.poll.registry(), BELL)?);
        }
        Ok(())
    }

    /// The bell of the door, for another owner.
    pub(crate) fn bell(&mut self, alloc: Global) -> Result<Bell, DoorFault> {
        if let Err(e) = self.hang_bell(alloc) {
            return Err(DoorFault::system("cannot have a bell", e));
        }
        match &self.bell {
            Some(bell) => match bell.again() {
                Ok(bell) => Ok(bell),
                Err(_) => Err(DoorFault::refusal("cannot have a bell: out of memory")),
            },
            None => Err(DoorFault::refusal("has no bell")),
        }
    }

    /// Whether the bell was rung, and nobody came back for it yet.
    fn is_rung(&self) -> bool {
        match &self.bell {
            Some(bell) => bell.is_rung(),
            None => false,
        }
    }

    /// Who waits comes back for each ring so far.
    fn hear_bell(&self) {
        if let Some(bell) = &self.bell {
            bell.hear();
        }
    }

    /// How long it is until a moment, where there is one: not at all once the bell was rung.
    fn left(
        &self,
        rt: &impl time::Clock,
        moment: Option<Moment>,
    ) -> Result<Option<u64>, DoorFault> {
        if moment.is_some() && self.is_rung() {
            return Ok(Some(0));
        }
        left_until(rt, moment)
    }

    /// Notes that the system has no room for a connection, where that came first.
    fn note_no_room(&mut self, reason: io::Error) {
        if self.no_room.is_none() {
            self.no_room = Some(DoorFault::system(NO_ROOM, reason));
        }
    }

    /// Tells once that the system had no room for a connection.
    fn tell<T: Teller>(&mut self, teller: &mut T) {
        if self.is_told {
            return;
        }
        if let Some(why) = self.no_room {
            self.is_told = true;
            teller.no_room(why);
        }
    }

    /// Takes one connection that waits at the port, or says why there is none.
    fn try_accept(&mut self, now: u64) -> Result<Option<AcceptFault>, DoorFault> {
        match self.port.listener.accept() {
            Ok((stream, peer)) => {
                let address = address_of(peer.ip());
                let registry = self.port.poll.registry();
                self.house.admit(stream, address, registry, now);
                Ok(None)
            }
            Err(e) => match accept_fault(number_of(e)) {
                AcceptFault::OfTheDoor => Err(DoorFault::system("takes no connections", e)),
                AcceptFault::NoRoom => {
                    self.note_no_room(e);
                    Ok(Some(AcceptFault::NoRoom))
                }
                other => Ok(Some(other)),
            },
        }
    }

    /// The same, and where the system has no room for it, once more after one gave way.
    fn accept_in_turn(&mut self, now: u64) -> Result<Option<AcceptFault>, DoorFault> {
        match self.try_accept(now) {
            Ok(Some(AcceptFault::NoRoom)) => {
                self.house.make_room(now);
                self.try_accept(now)
            }
            other => other,
        }
    }

    /// Takes one connection that waits at the port. Where there is still no room for it, the port rests.
    fn accept_one(&mut self, now: u64) -> Result<(), DoorFault> {
        match self.accept_in_turn(now) {
            Ok(Some(AcceptFault::NoneWaits)) => self.may_accept = false,
            Ok(Some(AcceptFault::NoRoom)) => {
                self.may_accept = false;
                self.rests_until = Some(now.saturating_add(PORT_REST));
            }
            Ok(_) => {}
            Err(why) => return Err(why),
        }
        Ok(())
    }

    /// Whether a connection that waits at the port could be taken.
    fn can_accept(&self) -> bool {
        self.may_accept && self.rests_until.is_none() && self.house.can_admit()
    }

    /// Takes connections that wait at the port, at most some.
    fn accept_some(&mut self, now: u64) -> Result<(), DoorFault> {
        if until(self.rests_until, now) == Some(0) {
            self.rests_until = None;
            self.may_accept = true;
        }
        for _ in 0..TAKEN_A_TURN {
            if !self.can_accept() {
                return Ok(());
            }
            self.accept_one(now)?;
        }
        Ok(())
    }

    /// How long the system may be waited for.
    fn wait(&self, left: Option<u64>) -> Option<u64> {
        if self.can_accept() || self.house.is_busy() {
            return Some(0);
        }
        let now = self.time.now();
        let due = until(self.house.first_due(), now);
        let longest = match due {
            Some(wait) => Some(wait.min(LONGEST_WAIT)),
            None => None,
        };
        let told = self.house.untold.wait(self.time.passed());
        shorter(
            told,
            shorter(left, shorter(longest, until(self.rests_until, now))),
        )
    }

    /// One turn: it waits at most so many milliseconds, and works for each connection that has something.
    fn turn(&mut self, rt: &impl time::Clock, left: Option<u64>) -> Result<(), DoorFault> {
        self.time.look(rt);
        let wait = self.wait(left);
        let port = &mut self.port;
        match wait_for_events(&mut port.poll, &mut port.events, &mut self.house, wait) {
            Ok(true) => self.may_accept = true,
            Ok(false) => {}
            Err(e) => return Err(DoorFault::system("waits for nothing", e)),
        }
        self.time.look(rt);
        let now = self.time.now();
        self.house.pass_time(now);
        self.accept_some(now)?;
        let registry = self.port.poll.registry();
        self.house.work_ready(registry, now);
        self.house.work_due(registry, now);
        Ok(())
    }

    /// The next connection whose turn it is, as a wire of this number, or `None` where the moment came first, or a ring of the
    /// bell. Without a moment no ring ends it. The teller hears in that turn that the system had no room for a connection, where
    /// that came first.
    pub(crate) fn wait_for_one<T: Teller>(
        &mut self,
        rt: &impl time::Clock,
        teller: &mut T,
        number: u64,
        moment: Option<Moment>,
    ) -> Result<Option<GatheredWire>, DoorFault>
        ensures fresh { IfOk result (λ next. IfSome next (λ wire. IsFreshWire number wire)) }
        ensures turn { IfOk result (λ next. IfSome next HasItsTurn) }
        ensures out { IfOk result (λ next. IfSome next (λ wire. IsOut self.new.house.guests wire)) }
    {
        self.time.look(rt);
        self.house.line.put_off(self.time.passed());
        for _ in 0..u64::MAX {
            let left = self.left(rt, moment)?;
            self.turn(rt, left)?;
            self.tell(teller);
            self.time.look(rt);
            let (now, passed) = (self.time.now(), self.time.passed());
            self.house.untold.tell(passed, teller);
            self.house.line.go_on(passed);
            if let Some(wire) = self.house.hand_out(number, now) {
                return Ok(Some(wire));
            }
            if left == Some(0) {
                self.hear_bell();
                return Ok(None);
            }
        }
        Err(DoorFault::refusal("waits no longer"))
    }

    /// Takes a connection back that had its turn.
    pub(crate) fn take_back(&mut self, rt: &impl time::Clock, wire: GatheredWire)
        ensures { TakesBack self.old.house.guests self.new.house.guests wire }
    {
        self.time.look(rt);
        let (now, passed) = (self.time.now(), self.time.passed());
        let registry = self.port.poll.registry();
        self.house.take_back(wire, registry, now, passed);
    }

    /// Closes the port, ends what has no answer, and sends what is left of answers within the limits, and for no longer than
    /// an end takes.
    pub(crate) fn finish(self, rt: &impl time::Clock) {
        let OpenDoor {
            port,
            mut house,
            mut time,
            finish,
            ..
        } = self;
        let Port {
            listener,
            mut poll,
            mut events,
        } = port;
        drop(listener);
        house.close_unanswered();
        time.look(rt);
        let end = time.now().saturating_add(finish);
        for _ in 0..u64::MAX {
            let Some(wait) = wait_at_end(&house, time.now(), end) else {
                return;
            };
            if wait_for_events(&mut poll, &mut events, &mut house, Some(wait)).is_err() {
                return;
            }
            time.look(rt);
            let now = time.now();
            let registry = poll.registry();
            house.work_ready(registry, now);
            house.work_due(registry, now);
        }
    }
}
