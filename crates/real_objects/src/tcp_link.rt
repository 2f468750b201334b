ghost use Rattle.std.specs.Prelude.{◌≡◌, ◌≤◌, length, is_some, None, true, false, IsErr, IfOk, OnOk, OnErr};
ghost use Rattle.sb_outside.specs.Outside.{Rose};
ghost use Rattle.real_objects.specs.Tcp.{TcpSession};

use crate::{LinkTeller, Nobody, TcpLimits, Term, Why, connect_within, read_within, send_within};
use sb_model::{Moment, OutOfMemory};
use sb_outside::{Failed, Kind, Link};
use std::alloc::Global;
use std::marker::Model;
use std::net::{Net, TcpStream};
use std::{io, time};

/// A link that holds each session on a TCP connection of its own. Its times count from `begin`, whatever
/// moments it is told. Looking up a host's name has no limit of time. Contracts see it as whether it has an
/// address, whether a session is open, and its count of faults. Its teller hears once that a call to the server failed, and once
/// that the server has answered since.
#[derive(Drop)]
pub struct TcpLink<R, T = Nobody> {
    rt: R,
    address: Option<String>,
    limits: TcpLimits,
    session: Option<Open>,
    faults: u64,
    why: Option<Why>,
    teller: T,
    // whether it was told that the server is out of reach, and not yet that it is back
    is_lost: bool,
}

/// An open session.
#[derive(Drop)]
struct Open {
    stream: TcpStream,
    term: Term,
}

impl<R, T> Model for TcpLink<R, T> {
    ghost use Rattle.std.specs.Prelude.{is_some};
    ghost use Rattle.real_objects.specs.Tcp.{TcpSession};

    ghost Value = { TcpSession };

    ghost view = { λ s. record { is_usable = is_some s.address; is_open = is_some s.session; faults = s.faults } };
}

impl<R: Drop> TcpLink<R> {
    /// A link to this address, which nobody hears from: a host's name or IP address, and a port, as in `127.0.0.1:80`.
    pub fn new(rt: R, alloc: Global, address: &str, limits: TcpLimits) -> Result<Self, OutOfMemory>
        ensures { IfOk result (λ link. link ≡ record { is_usable = true; is_open = false; faults = 0 }) }
    {
        TcpLink::telling(rt, alloc, Some(address), limits, Nobody)
    }

    /// A link that has no address. Each call but `close` fails.
    pub fn unusable(rt: R) -> Self
        ensures { result ≡ record { is_usable = false; is_open = false; faults = 0 } }
    {
        TcpLink {
            rt,
            address: None,
            limits: TcpLimits::STANDARD,
            session: None,
            faults: 0,
            why: None,
            teller: Nobody,
            is_lost: false,
        }
    }
}

impl<R: Drop, T: Drop> TcpLink<R, T> {
    /// The same with a teller. Without an address each call but `close` fails, and nothing is told.
    pub fn telling(
        rt: R,
        alloc: Global,
        address: Option<&str>,
        limits: TcpLimits,
        teller: T,
    ) -> Result<Self, OutOfMemory>
        ensures { IfOk result (λ link. link
            ≡ record { is_usable = is_some address.entry; is_open = false; faults = 0 }) }
    {
        let address = match address {
            Some(text) => Some(String::from_str(alloc, text)?),
            None => None,
        };
        Ok(TcpLink {
            rt,
            address,
            limits,
            session: None,
            faults: 0,
            why: None,
            teller,
            is_lost: false,
        })
    }

    /// How many calls failed.
    pub fn faults(&self) -> u64
        ensures { result ≡ self.now.faults }
    {
        self.faults
    }

    /// Why the last of them did.
    pub fn why(&self) -> Option<Why> {
        self.why
    }
}

impl<R, T> TcpLink<R, T> {
    /// Counts a call that failed, and keeps why.
    fn fail(&mut self, why: Why) -> Failed
        ensures rose { Rose self.old.faults self.new.faults }
        ensures counted { self.old.faults ≤ self.new.faults }
        ensures same { self.new ≡ record self.old { faults = self.new.faults } }
    {
        self.faults = self.faults.saturating_add(1);
        self.why = Some(why);
        Failed
    }
}

impl<R, T: LinkTeller> TcpLink<R, T> {
    /// The same of a call to the server. The teller hears it if it has not heard since the server last answered.
    fn lose(&mut self, why: Why) -> Failed
        ensures rose { Rose self.old.faults self.new.faults }
        ensures counted { self.old.faults ≤ self.new.faults }
        ensures same { self.new ≡ record self.old { faults = self.new.faults } }
    {
        if !self.is_lost {
            self.is_lost = true;
            self.teller.out_of_reach(why);
        }
        self.fail(why)
    }

    /// The server sent so many bytes. The teller hears it if it was told before that the server is out of reach.
    fn hear(&mut self, count: usize)
        ensures same { self.new ≡ self.old }
    {
        if self.is_lost && count > 0 {
            self.is_lost = false;
            self.teller.in_reach();
        }
    }
}

/// A session that begins now.
fn connect<R: Net<Stream = TcpStream> + time::Clock>(
    rt: &R,
    address: &str,
    limits: TcpLimits,
) -> io::Result<Open> {
    let term = Term::from_now(rt, limits)?;
    let stream = connect_within(rt, address, term)?;
    Ok(Open { stream, term })
}

/// What a call fails with that has no open session.
fn no_session() -> Why {
    Why::refusal("has no open connection")
}

impl<R: Net<Stream = TcpStream> + time::Clock, T: LinkTeller> Link for TcpLink<R, T> {
    ghost faults = { λ s. s.faults };

    ghost log = { λ _. None };

    fn begin(&mut self, _at: Moment, _kind: Kind) -> Result<(), Failed>
        ensures unusable { self.old.is_usable ≡ false → IsErr result }
        ensures usable { self.new.is_usable ≡ self.old.is_usable }
        ensures opened { OnOk result (self.new.is_open ≡ true) }
        ensures not_opened { OnErr result (self.new.is_open ≡ false) }

        ensures kept { OnOk result (self.new.faults ≡ self.old.faults) }
        ensures counted { self.old.faults ≤ self.new.faults }
        ensures failed { OnErr result (Rose self.old.faults self.new.faults) }
    {
        self.session = None;
        let Some(address) = &self.address else {
            return Err(self.fail(Why::refusal("is no address")));
        };
        match connect(&self.rt, address.as_str(), self.limits) {
            Ok(session) => {
                self.session = Some(session);
                Ok(())
            }
            Err(e) => Err(self.lose(Why::system("cannot be connected to", e))),
        }
    }

    fn send(&mut self, piece: &[u8]) -> Result<(), Failed>
        ensures closed { self.old.is_open ≡ false → IsErr result }
        ensures stays { (self.new.is_usable ≡ self.old.is_usable) × (self.new.is_open ≡ self.old.is_open) }

        ensures kept { OnOk result (self.new.faults ≡ self.old.faults) }
        ensures counted { self.old.faults ≤ self.new.faults }
        ensures failed { OnErr result (Rose self.old.faults self.new.faults) }
    {
        let Some(session) = &mut self.session else {
            return Err(self.fail(no_session()));
        };
        match send_within(&self.rt, &mut session.stream, session.term, piece) {
            Ok(()) => Ok(()),
            Err(why) => Err(self.lose(why)),
        }
    }

    fn is_answered(&mut self) -> bool
        ensures same { self.new ≡ self.old }
        ensures yes { result ≡ true }

        ensures faults { self.new.faults ≡ self.old.faults }
    {
        true
    }

    fn recv(&mut self, buffer: &mut [u8]) -> Result<usize, Failed>
        ensures closed { self.old.is_open ≡ false → IsErr result }
        ensures stays { (self.new.is_usable ≡ self.old.is_usable) × (self.new.is_open ≡ self.old.is_open) }

        ensures within { IfOk result (λ n. n ≤ length buffer.new) }
        ensures kept { OnOk result (self.new.faults ≡ self.old.faults) }
        ensures counted { self.old.faults ≤ self.new.faults }
        ensures failed { OnErr result (Rose self.old.faults self.new.faults) }
    {
        let Some(session) = &mut self.session else {
            return Err(self.fail(no_session()));
        };
        if buffer.is_empty() {
            return Ok(0);
        }
        match read_within(&self.rt, &mut session.stream, session.term, buffer) {
            Ok(n) => {
                self.hear(n);
                Ok(n)
            }
            Err(why) => Err(self.lose(why)),
        }
    }

    fn close(&mut self, _at: Moment)
        ensures closed_now { self.new.is_open ≡ false }
        ensures usable { self.new.is_usable ≡ self.old.is_usable }
        ensures kept { self.new.faults ≡ self.old.faults }
    {
        self.session = None;
    }
}
