use crate::outcome::Outcome;
use crate::words::{cut, number_of};
use background_link::BackgroundLink;
use door_bell::Bell;
use gathering::DoorLimits;
use real_objects::{SystemClock, TcpLimits};
use sb_model::Moment;
use sb_outside::{Arrival, Clock, Door};
use std::net::{TcpListener, TcpStream};
use std::sync::Wait;
use std::thread::Threads;
use tcp_door::{DoorFault, TcpDoor, Teller};

/// How long a door is asked at most, in milliseconds.
pub(crate) const PATIENCE: u64 = 20_000;

/// Hears nothing.
#[derive(Drop)]
pub(crate) struct Deaf;

impl Teller for Deaf {
    fn no_room(&mut self, _why: DoorFault) {}
}

/// What the steps are taken with.
#[derive(Drop)]
pub(crate) struct Stage<R> {
    pub(crate) threads: R,
    pub(crate) rt: HostRuntime,
    pub(crate) limits: TcpLimits,
    /// Where links lead.
    pub(crate) address: String,
    pub(crate) port: Option<TcpListener>,
    pub(crate) peer: Option<TcpStream>,
    pub(crate) door: TcpDoor<HostRuntime, Deaf>,
    pub(crate) bell: Bell,
    pub(crate) link: BackgroundLink<R>,
}

/// A door at any port, and its bell.
fn belled(rt: HostRuntime) -> Option<(TcpDoor<HostRuntime, Deaf>, Bell)> {
    let alloc = rt.alloc();
    let mut door = TcpDoor::bind(rt, alloc, "127.0.0.1:0", DoorLimits::STANDARD, Deaf);
    match door.bell(alloc) {
        Ok(bell) => Some((door, bell)),
        Err(_) => None,
    }
}

/// A link that leads nowhere.
fn astray<R: Threads + Wait + Copy + Send + 'static>(
    threads: R,
    rt: HostRuntime,
) -> Option<BackgroundLink<R>> {
    BackgroundLink::new(
        threads,
        rt,
        rt.alloc(),
        "nowhere",
        TcpLimits::STANDARD,
        None,
    )
    .ok()
}

impl<R: Threads + Wait + Copy + Send + 'static> Stage<R> {
    /// A door with a bell, and a link that leads nowhere.
    pub(crate) fn new(threads: R, rt: HostRuntime) -> Option<Stage<R>> {
        let address = String::from_str(rt.alloc(), "nowhere").ok()?;
        let (door, bell) = belled(rt)?;
        let link = astray(threads, rt)?;
        Some(Stage {
            threads,
            rt,
            limits: TcpLimits::STANDARD,
            address,
            port: None,
            peer: None,
            door,
            bell,
            link,
        })
    }

    /// A new link to the address. It rings the bell.
    pub(crate) fn fresh(&self) -> Option<BackgroundLink<R>> {
        let bell = self.bell.again().ok()?;
        let to = self.address.as_str();
        let alloc = self.rt.alloc();
        BackgroundLink::new(self.threads, self.rt, alloc, to, self.limits, Some(bell)).ok()
    }

    /// Makes the link anew.
    fn renew(&mut self) -> Outcome {
        match self.fresh() {
            Some(link) => self.link = link,
            None => return Outcome::OutOfMemory,
        }
        Outcome::Done
    }

    /// The limits of a call and of a session from now on.
    pub(crate) fn limit(&mut self, rest: &str) -> Outcome {
        let (call, connection) = cut(rest);
        self.limits = TcpLimits {
            call: number_of(call),
            connection: number_of(connection),
        };
        self.renew()
    }

    /// Links lead there from now on: to an address, or to the port.
    pub(crate) fn lead(&mut self, rest: &str) -> Outcome {
        let made = match &self.port {
            Some(port) if rest == "port" => match port.local_addr() {
                Ok(address) => format!(in self.rt.alloc(); "{address}"),
                Err(e) => return Outcome::Refused(e),
            },
            _ => String::from_str(self.rt.alloc(), rest),
        };
        match made {
            Ok(address) => self.address = address,
            Err(_) => return Outcome::OutOfMemory,
        }
        self.renew()
    }
}

/// What came at the door.
#[derive(Clone, Copy, PartialEq, Eq)]
pub(crate) enum Turn {
    Connection,
    Nobody,
    Failed,
}

impl Turn {
    pub(crate) fn word(self) -> &'static str {
        match self {
            Turn::Connection => "a connection",
            Turn::Nobody => "nobody",
            Turn::Failed => "failed",
        }
    }
}

/// Asks a door until a moment that is so many milliseconds away, and says what came. A connection is let go unanswered.
pub(crate) fn pass<D: Door>(rt: HostRuntime, door: &mut D, millis: u64) -> Turn {
    let now = SystemClock::new(rt).now().0;
    match door.next_before(Moment(now.saturating_add(millis))) {
        Ok(Arrival::Connected(wire)) => {
            door.done(wire);
            Turn::Connection
        }
        Ok(Arrival::TimedOut) => Turn::Nobody,
        Ok(Arrival::NoMore) | Err(_) => Turn::Failed,
    }
}
