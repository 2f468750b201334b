use crate::answers::End;
use crate::looking::{Addresses, start};
use crate::talk::Talk;
use real_objects::{Term, Why, connect_within};
use std::alloc::Global;
use std::io;
use std::net::{SocketAddr, TcpStream};
use std::sync::{Arc, Wait};
use std::thread::Threads;
use std::time::Duration;

/// How long a session waits for the addresses of a host before it looks whether its answer is still wanted, in milliseconds.
const LOOK: u64 = 1_000;

/// What connects the sessions of a link. A host's name is looked up by a thread of its own, and a look-up that outlasts its
/// session is gone on with in the next one: so there is at most one.
#[derive(Drop)]
pub(crate) struct Finder {
    going: Option<Arc<Addresses, Global>>,
}

/// How a try to connect ended.
fn ended(made: io::Result<TcpStream>) -> Result<TcpStream, End> {
    match made {
        Ok(stream) => Ok(stream),
        Err(e) => Err(End::Lost(Why::system("cannot be connected to", e))),
    }
}

/// Waits until addresses are there, or the term is over, or nobody waits for the session.
fn wait_for<R: Wait>(
    rt: &R,
    system: HostRuntime,
    term: Term,
    talk: &Talk,
    addresses: &Addresses,
) -> Result<(), Why> {
    for _ in rt.forever() {
        if addresses.found().is_some() {
            return Ok(());
        }
        if talk.is_let_go() {
            return Err(Why::refusal("is no longer waited for"));
        }
        let Some(left) = term.left(&system) else {
            return Err(Why::refusal("has not been found within its time"));
        };
        addresses.wait(rt, left.min(Duration::from_millis(LOOK)));
    }
    unreachable!()
}

/// A connection to the first of the addresses that answers, where some were found.
fn connect_found(
    system: HostRuntime,
    term: Term,
    found: Option<&io::Result<Vec<SocketAddr>>>,
) -> Result<TcpStream, End> {
    match found {
        Some(Ok(addrs)) => ended(connect_within(&system, addrs.as_slice(), term)),
        Some(Err(e)) => ended(Err(*e)),
        None => ended(Err(io::Error::from(io::ErrorKind::NotFound))),
    }
}

impl Finder {
    pub(crate) fn new() -> Finder {
        Finder { going: None }
    }

    /// A look-up that goes on, or else a new one.
    fn look_up<R>(
        &mut self,
        rt: R,
        system: HostRuntime,
        alloc: Global,
        address: String,
    ) -> Result<Arc<Addresses, Global>, End>
    where
        R: Threads + Wait + Copy + Send + 'static,
    {
        if let Some(addresses) = self.going.take()
            && addresses.found().is_none()
        {
            return Ok(addresses);
        }
        match start(rt, system, alloc, address) {
            Ok(addresses) => Ok(addresses),
            Err(_) => Err(End::Refused(Why::refusal("has no thread that looks it up"))),
        }
    }

    /// A connection to the host of a name.
    fn connect_by_name<R>(
        &mut self,
        rt: R,
        system: HostRuntime,
        alloc: Global,
        address: String,
        term: Term,
        talk: &Talk,
    ) -> Result<TcpStream, End>
    where
        R: Threads + Wait + Copy + Send + 'static,
    {
        let addresses = self.look_up(rt, system, alloc, address)?;
        match wait_for(&rt, system, term, talk, &addresses) {
            Ok(()) => connect_found(system, term, addresses.found()),
            Err(why) => {
                self.going = Some(addresses);
                Err(End::Lost(why))
            }
        }
    }

    /// A connection to an address within a term.
    pub(crate) fn connect<R>(
        &mut self,
        rt: R,
        system: HostRuntime,
        alloc: Global,
        address: String,
        term: Term,
        talk: &Talk,
    ) -> Result<TcpStream, End>
    where
        R: Threads + Wait + Copy + Send + 'static,
    {
        match address.as_str().parse::<SocketAddr>() {
            Ok(addr) => ended(connect_within(&system, addr, term)),
            Err(_) => self.connect_by_name(rt, system, alloc, address, term, talk),
        }
    }
}
