ghost use Rattle.std.specs.Prelude.{◌≡◌, ◌≢◌, ◌≤◌, None, Ok, Some, [], false, IsErr, IfSome, IfOk, OnOk, OnErr};
ghost use Rattle.sb_outside.specs.Outside.{Rose, IfTold};
ghost use Rattle.sb_outside.specs.Connections.{connected, TakesFirst, pieces_of_wire};
ghost use Rattle.gathering.specs.Wires.{IsFreshWire, HasItsTurn};
ghost use Rattle.tcp_door.specs.Doors.{taken_after};

use crate::open::OpenDoor;
use crate::{DoorFault, Teller};
use door_bell::Bell;
use gathering::{DoorLimits, GatheredWire};
use sb_model::Moment;
use sb_outside::{Arrival, Door, Failed};
use std::alloc::Global;
use std::marker::Model;
use std::net::{Net, SocketAddr};
use std::time;

/// A door at a TCP port that waits for all its peers at once, on one thread. While it is asked for a connection it takes what
/// comes to the port, reads what peers have sent, and sends what they take of earlier answers. Contracts see it as whether it
/// has a port, how many connections were handed out, and its count of faults.
#[derive(Drop)]
pub struct TcpDoor<R, T> {
    rt: R,
    teller: T,
    open: Option<OpenDoor>,
    is_usable: bool,
    taken: u64,
    faults: u64,
    why: Option<DoorFault>,
}

impl<R, T> Model for TcpDoor<R, T> {
    ghost use Rattle.tcp_door.specs.Doors.{GatheringAt};

    ghost Value = { GatheringAt };

    ghost view = { λ s. record { is_usable = s.is_usable; taken = s.taken; faults = s.faults } };
}

impl<R: Net + Drop, T: Drop> TcpDoor<R, T> {
    /// A door at this address: a host's name or IP address, and a port, as in `127.0.0.1:80` or `[::1]:80`. Where the
    /// address cannot be had, it is unusable. The teller hears what is to be known at once.
    pub fn bind(rt: R, alloc: Global, address: &str, limits: DoorLimits, teller: T) -> Self
        ensures taken { result.taken ≡ 0 }
        ensures faults { result.faults ≡ 0 }
    {
        let (open, is_usable, why) = match OpenDoor::open(&rt, alloc, address, limits) {
            Ok(open) => (Some(open), true, None),
            Err(why) => (None, false, Some(why)),
        };
        TcpDoor {
            rt,
            teller,
            open,
            is_usable,
            taken: 0,
            faults: 0,
            why,
        }
    }
}

impl<R: Drop, T: Drop> TcpDoor<R, T> {
    /// A door that has no address. Each `next` fails.
    pub fn unusable(rt: R, teller: T) -> Self
        ensures { result ≡ record { is_usable = false; taken = 0; faults = 0 } }
    {
        TcpDoor {
            rt,
            teller,
            open: None,
            is_usable: false,
            taken: 0,
            faults: 0,
            why: None,
        }
    }

    /// Whether it has a port.
    pub fn is_usable(&self) -> bool
        ensures { result ≡ self.now.is_usable }
    {
        self.is_usable
    }

    /// The address that it has, or `None` where it is unusable or the system does not tell. A port that was
    /// given as 0 is the one that the system chose.
    pub fn local_addr(&self) -> Option<SocketAddr> {
        self.open.as_ref()?.local_addr()
    }

    /// The bell of this door, which any thread may ring. `next_before` then comes back as if its moment had come: within its
    /// wait, or at once if it is called later. A connection whose turn it is goes first, and then the ring counts for the next
    /// call. `next` is not ended by it.
    pub fn bell(&mut self, alloc: Global) -> Result<Bell, DoorFault>
        ensures unusable { self.old.is_usable ≡ false → IsErr result }
        ensures same { self.new ≡ self.old }
    {
        match &mut self.open {
            Some(open) if self.is_usable => open.bell(alloc),
            _ => Err(DoorFault::refusal("has no bell")),
        }
    }

    /// How many calls failed.
    pub fn faults(&self) -> u64
        ensures { result ≡ self.now.faults }
    {
        self.faults
    }

    /// Why it is unusable, or why the last call failed.
    pub fn why(&self) -> Option<DoorFault> {
        self.why
    }

    /// Who hears what is to be known at once.
    pub fn teller(&self) -> &T {
        &self.teller
    }
}

impl<R: time::Clock, T: Teller> TcpDoor<R, T> {
    /// The next connection, or `None` where the moment came first.
    fn take_next(&mut self, moment: Option<Moment>) -> Result<Option<GatheredWire>, Failed>
        ensures fresh { IfOk result (λ next. IfSome next (λ wire. IsFreshWire self.old.taken wire)) }
        ensures turn { IfOk result (λ next. IfSome next HasItsTurn) }
        ensures counts { IfOk result (λ next. self.new.taken ≡ taken_after next self.old.taken) }
        ensures stays { OnErr result (self.new.taken ≡ self.old.taken) }
        ensures unusable { self.old.is_usable ≡ false → IsErr result }
        ensures usable { self.new.is_usable ≡ self.old.is_usable }
        ensures kept { OnOk result (self.new.faults ≡ self.old.faults) }
        ensures counted { self.old.faults ≤ self.new.faults }
        ensures failed { OnErr result (Rose self.old.faults self.new.faults) }
    {
        if self.is_usable
            && let Some(open) = &mut self.open
        {
            match open.wait_for_one(&self.rt, &mut self.teller, self.taken, moment) {
                Ok(next) => {
                    if next.is_some() {
                        self.taken = self.taken.saturating_add(1);
                    }
                    return Ok(next);
                }
                Err(why) => self.why = Some(why),
            }
        }
        self.faults = self.faults.saturating_add(1);
        Err(Failed)
    }
}

impl<R: time::Clock + Drop, T: Drop> TcpDoor<R, T> {
    /// Closes the port, ends without an answer what still gathers or waits for its turn, and sends what is left of answers
    /// within the limits. It may wait until then, and for no longer than the limits say.
    pub fn finish(self) {
        let TcpDoor { rt, open, .. } = self;
        if let Some(open) = open {
            open.finish(&rt);
        }
    }
}

impl<R: time::Clock + Drop, T: Teller + Drop> Door for TcpDoor<R, T> {
    type Wire = GatheredWire;

    ghost faults = { λ s. s.faults };

    ghost log = { λ _. None };

    ghost coming = { λ _. None };

    /// A connection is handed out once its request is decided, or once its peer has ended, it has failed or its time has passed
    /// after some bytes: first that of an address whose answers took least, and among these the one that waits longest.
    #[tactic(auto, using(crate::proofs::Untold::takes_first))]
    fn next(&mut self) -> Result<Option<GatheredWire>, Failed>
        ensures some { result ≢ Ok None }
        ensures unusable { self.old.is_usable ≡ false → IsErr result }
        ensures usable { self.new.is_usable ≡ self.old.is_usable }
        ensures fresh { IfOk result (λ next. IfSome next (λ wire. IsFreshWire self.old.taken wire)) }
        ensures turn { IfOk result (λ next. IfSome next HasItsTurn) }
        ensures counts { IfOk result (λ next. self.new.taken ≡ taken_after next self.old.taken) }
        ensures stays { OnErr result (self.new.taken ≡ self.old.taken) }

        ensures kept { OnOk result (self.new.faults ≡ self.old.faults) }
        ensures counted { self.old.faults ≤ self.new.faults }
        ensures failed { OnErr result (Rose self.old.faults self.new.faults) }
        ensures no_faults { IfOk result (λ next. IfSome next (λ wire. (wire.read_faults ≡ 0) × (wire.write_faults ≡ 0))) }
        ensures nothing_written { IfOk result (λ next. IfSome next (λ wire. IfTold (Some wire.written) (Some []))) }
        ensures first { IfOk result (λ next. IfSome next (λ wire.
            TakesFirst None None (Some (pieces_of_wire wire.sends)) (Some wire.left))) }
    {
        match self.take_next(None) {
            Ok(Some(wire)) => Ok(Some(wire)),
            Ok(None) => {
                self.faults = self.faults.saturating_add(1);
                Err(Failed)
            }
            Err(Failed) => Err(Failed),
        }
    }

    /// Its clock is the system's; where that cannot be read, the call fails. A ring of the bell counts as the moment.
    #[tactic(auto, using(crate::proofs::Untold::takes_first))]
    fn next_before(&mut self, moment: Moment) -> Result<Arrival<GatheredWire>, Failed>
        ensures some { result ≢ Ok Arrival.NoMore }
        ensures unusable { self.old.is_usable ≡ false → IsErr result }
        ensures usable { self.new.is_usable ≡ self.old.is_usable }
        ensures fresh { IfOk result (λ arrival. IfSome (connected arrival) (λ wire. IsFreshWire self.old.taken wire)) }
        ensures turn { IfOk result (λ arrival. IfSome (connected arrival) HasItsTurn) }
        ensures counts { IfOk result (λ arrival. self.new.taken ≡ taken_after (connected arrival) self.old.taken) }
        ensures stays { OnErr result (self.new.taken ≡ self.old.taken) }

        ensures kept { OnOk result (self.new.faults ≡ self.old.faults) }
        ensures counted { self.old.faults ≤ self.new.faults }
        ensures failed { OnErr result (Rose self.old.faults self.new.faults) }
        ensures no_faults { IfOk result (λ arrival. IfSome (connected arrival)
            (λ wire. (wire.read_faults ≡ 0) × (wire.write_faults ≡ 0))) }
        ensures nothing_written { IfOk result (λ arrival. IfSome (connected arrival)
            (λ wire. IfTold (Some wire.written) (Some []))) }
        ensures first { IfOk result (λ arrival. IfSome (connected arrival) (λ wire.
            TakesFirst None None (Some (pieces_of_wire wire.sends)) (Some wire.left))) }
    {
        match self.take_next(Some(moment)) {
            Ok(Some(wire)) => Ok(Arrival::Connected(wire)),
            Ok(None) => Ok(Arrival::TimedOut),
            Err(Failed) => Err(Failed),
        }
    }

    /// What was written to the wire is sent from now on, while others are served.
    fn done(&mut self, wire: GatheredWire)
        ensures unchanged { self.new ≡ self.old }
    {
        if let Some(open) = &mut self.open {
            open.take_back(&self.rt, wire);
        }
    }
}
