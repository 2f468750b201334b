ghost use Rattle.std.specs.Prelude.{◌≡◌, ◌≤◌, ◌⊎◌, length, is_some, Ok, None, true, false, IsErr, IfOk, OnOk, OnErr};
ghost use Rattle.sb_outside.specs.Outside.{Rose};
ghost use Rattle.real_objects.specs.Tcp.{TcpSession};

use crate::answers::End;
use crate::desk::Hold;
use crate::sessions::Session;
use crate::working;
use door_bell::Bell;
use real_objects::{LinkTeller, Nobody, TcpLimits, Why};
use sb_model::{Moment, OutOfMemory};
use sb_outside::{Failed, Kind, Link};
use std::alloc::Global;
use std::marker::Model;
use std::sync::Wait;
use std::thread::Threads;

/// A link that has a thread of its own, which holds each session on a TCP connection of its own. A session begins in memory.
/// With the piece that makes its request whole the thread gets it: it looks the host's name up, connects, sends and receives, no
/// further than to what decides the response (RFC 9112). Then the session is answered, and the bell is rung. So a call waits for
/// nothing, but for `recv` before the session is answered. The whole time of a session counts from `begin`, whatever moments it is
/// told, and past it the session is answered by a fault. A request has at most 1,048,576 bytes behind its head, and what is
/// received at most 268,435,456 bytes.
///
/// A look-up of a name may outlast its session: the next session goes on with it. The thread may be busy, for one more call, with
/// a session that was closed before it was answered: the next one waits for that. Contracts see the link as they see a `TcpLink`.
#[derive(Drop)]
pub struct BackgroundLink<R, T = Nobody> {
    rt: R,
    system: HostRuntime,
    alloc: Global,
    address: Option<String>,
    limits: TcpLimits,
    // where its thread gets sessions, if a thread could be started
    hold: Option<Hold>,
    session: Option<Session>,
    faults: u64,
    why: Option<Why>,
    teller: T,
    // whether it was told that the server is out of reach, and not yet that it is back
    is_lost: bool,
}

impl<R, T> Model for BackgroundLink<R, T> {
    ghost use Rattle.std.specs.Prelude.{is_some};
    ghost use Rattle.real_objects.specs.Tcp.{TcpSession};

    ghost Value = { TcpSession };

    ghost view = { λ s. record { is_usable = is_some s.address; is_open = is_some s.session; faults = s.faults } };
}

impl<R: Threads + Wait + Copy + Send + 'static> BackgroundLink<R> {
    /// A link to this address, which nobody hears from: a host's name or IP address, and a port, as in `127.0.0.1:80`. It rings
    /// this bell, where there is one.
    pub fn new(
        rt: R,
        system: HostRuntime,
        alloc: Global,
        address: &str,
        limits: TcpLimits,
        bell: Option<Bell>,
    ) -> Result<Self, OutOfMemory>
        ensures { IfOk result (λ link. link ≡ record { is_usable = true; is_open = false; faults = 0 }) }
    {
        BackgroundLink::telling(rt, system, alloc, Some(address), limits, bell, Nobody)
    }
}

impl<R: Threads + Wait + Copy + Send + 'static, T: Drop> BackgroundLink<R, T> {
    /// The same with a teller. Without an address each call but `close` fails, and nothing is told.
    pub fn telling(
        rt: R,
        system: HostRuntime,
        alloc: Global,
        address: Option<&str>,
        limits: TcpLimits,
        bell: Option<Bell>,
        teller: T,
    ) -> Result<Self, OutOfMemory>
        ensures { IfOk result (λ link. link
            ≡ record { is_usable = is_some address.entry; is_open = false; faults = 0 }) }
    {
        let (address, hold) = match address {
            Some(text) => (
                Some(String::from_str(alloc, text)?),
                working::start(rt, system, alloc, bell).ok(),
            ),
            None => (None, None),
        };
        Ok(BackgroundLink {
            rt,
            system,
            alloc,
            address,
            limits,
            hold,
            session: None,
            faults: 0,
            why: None,
            teller,
            is_lost: false,
        })
    }
}

impl<R: Drop, T: Drop> BackgroundLink<R, T> {
    /// How many calls failed.
    pub fn faults(&self) -> u64
        ensures { result ≡ self.now.faults }
    {
        self.faults
    }

    /// Why the last of them did.
    pub fn why(&self) -> Option<Why> {
        self.why
    }
}

impl<R, T> BackgroundLink<R, T> {
    /// Counts a call that failed, and keeps why.
    fn fail(&mut self, why: Why) -> Failed
        ensures rose { Rose self.old.faults self.new.faults }
        ensures counted { self.old.faults ≤ self.new.faults }
        ensures same { self.new ≡ record self.old { faults = self.new.faults } }
    {
        self.faults = self.faults.saturating_add(1);
        self.why = Some(why);
        Failed
    }

    /// A session that begins now, in memory.
    fn open(&self) -> Result<Session, Why>
        ensures unusable { self.now.is_usable ≡ false → IsErr result }
    {
        let Some(address) = &self.address else {
            return Err(Why::refusal("is no address"));
        };
        if self.hold.is_none() {
            return Err(Why::refusal("has no thread for its sessions"));
        }
        Session::new(&self.system, self.alloc, address.as_str(), self.limits)
    }
}

impl<R, T: LinkTeller> BackgroundLink<R, T> {
    /// The same of a call to the server. The teller hears it if it has not heard since the server last answered.
    fn lose(&mut self, why: Why) -> Failed
        ensures rose { Rose self.old.faults self.new.faults }
        ensures counted { self.old.faults ≤ self.new.faults }
        ensures same { self.new ≡ record self.old { faults = self.new.faults } }
    {
        if !self.is_lost {
            self.is_lost = true;
            self.teller.out_of_reach(why);
        }
        self.fail(why)
    }

    /// The server sent so many bytes. The teller hears it if it was told before that the server is out of reach.
    fn hear(&mut self, count: usize)
        ensures same { self.new ≡ self.old }
    {
        if self.is_lost && count > 0 {
            self.is_lost = false;
            self.teller.in_reach();
        }
    }

    /// What a receive comes to: bytes, or what stands behind the last of them.
    fn receive_as(&mut self, received: Result<usize, End>) -> Result<usize, Failed>
        ensures same { self.new ≡ record self.old { faults = self.new.faults } }
        ensures count { IfOk result (λ n. (received ≡ Ok n) ⊎ (n ≡ 0)) }
        ensures kept { OnOk result (self.new.faults ≡ self.old.faults) }
        ensures counted { self.old.faults ≤ self.new.faults }
        ensures failed { OnErr result (Rose self.old.faults self.new.faults) }
    {
        match received {
            Ok(count) => {
                self.hear(count);
                Ok(count)
            }
            Err(End::Ended) => Ok(0),
            Err(End::Lost(why)) => Err(self.lose(why)),
            Err(End::Refused(why)) => Err(self.fail(why)),
        }
    }
}

/// What a call fails with that has no open session.
fn no_session() -> Why {
    Why::refusal("has no open connection")
}

impl<R: Wait, T> BackgroundLink<R, T> {
    /// Sends a piece in the session.
    fn send_in(&mut self, piece: &[u8]) -> Result<(), Why>
        ensures closed { self.old.is_open ≡ false → IsErr result }
        ensures same { self.new ≡ self.old }
    {
        match (&mut self.session, &self.hold) {
            (Some(session), Some(hold)) => session.send(&self.rt, &hold.desk, piece),
            _ => Err(no_session()),
        }
    }

    /// Whether the session is answered. The thread gets it, if it did not before.
    fn ask(&mut self) -> bool
        ensures same { self.new ≡ self.old }
    {
        match (&mut self.session, &self.hold) {
            (Some(session), Some(hold)) => {
                session.start(&self.rt, &hold.desk);
                session.is_answered()
            }
            _ => true,
        }
    }

    /// Receives in the session, once it is answered.
    fn receive_in(&mut self, buffer: &mut [u8]) -> Result<usize, End>
        ensures same { self.new ≡ self.old }
        ensures within { IfOk result (λ n. n ≤ length buffer.new) }
    {
        match &mut self.session {
            Some(session) => session.receive(&self.rt, buffer),
            None => Err(End::Refused(no_session())),
        }
    }
}

impl<R: Wait, T: LinkTeller> Link for BackgroundLink<R, T> {
    ghost faults = { λ s. s.faults };

    ghost log = { λ _. None };

    fn begin(&mut self, _at: Moment, _kind: Kind) -> Result<(), Failed>
        ensures unusable { self.old.is_usable ≡ false → IsErr result }
        ensures usable { self.new.is_usable ≡ self.old.is_usable }
        ensures opened { OnOk result (self.new.is_open ≡ true) }
        ensures not_opened { OnErr result (self.new.is_open ≡ false) }

        ensures kept { OnOk result (self.new.faults ≡ self.old.faults) }
        ensures counted { self.old.faults ≤ self.new.faults }
        ensures failed { OnErr result (Rose self.old.faults self.new.faults) }
    {
        self.session = None;
        match self.open() {
            Ok(session) => {
                self.session = Some(session);
                Ok(())
            }
            Err(why) => Err(self.fail(why)),
        }
    }

    fn send(&mut self, piece: &[u8]) -> Result<(), Failed>
        ensures closed { self.old.is_open ≡ false → IsErr result }
        ensures stays { (self.new.is_usable ≡ self.old.is_usable) × (self.new.is_open ≡ self.old.is_open) }

        ensures kept { OnOk result (self.new.faults ≡ self.old.faults) }
        ensures counted { self.old.faults ≤ self.new.faults }
        ensures failed { OnErr result (Rose self.old.faults self.new.faults) }
    {
        match self.send_in(piece) {
            Ok(()) => Ok(()),
            Err(why) => Err(self.fail(why)),
        }
    }

    fn is_answered(&mut self) -> bool
        ensures same { self.new ≡ self.old }

        ensures faults { self.new.faults ≡ self.old.faults }
    {
        self.ask()
    }

    fn recv(&mut self, buffer: &mut [u8]) -> Result<usize, Failed>
        ensures closed { self.old.is_open ≡ false → IsErr result }
        ensures stays { (self.new.is_usable ≡ self.old.is_usable) × (self.new.is_open ≡ self.old.is_open) }

        ensures within { IfOk result (λ n. n ≤ length buffer.new) }
        ensures kept { OnOk result (self.new.faults ≡ self.old.faults) }
        ensures counted { self.old.faults ≤ self.new.faults }
        ensures failed { OnErr result (Rose self.old.faults self.new.faults) }
    {
        if self.session.is_none() {
            return Err(self.fail(no_session()));
        }
        if buffer.is_empty() {
            return Ok(0);
        }
        self.ask();
        let received = self.receive_in(buffer);
        self.receive_as(received)
    }

    fn close(&mut self, _at: Moment)
        ensures closed_now { self.new.is_open ≡ false }
        ensures usable { self.new.is_usable ≡ self.old.is_usable }
        ensures kept { self.new.faults ≡ self.old.faults }
    {
        self.session = None;
    }
}
