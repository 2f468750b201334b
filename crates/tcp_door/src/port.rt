use mio::net::TcpListener;
use mio::{Events, Interest, Poll, Token};
use std::alloc::Global;
use std::io;
use std::net::{Net, SocketAddr, ToSocketAddrs};

/// The token of the port. Those of connections are their slots and one more.
pub(crate) const PORT: Token = Token(0);

/// The token of the door's bell, which no slot comes to.
pub(crate) const BELL: Token = Token(usize::MAX);

/// How many events one wait reports at most.
const EVENTS: usize = 256;

/// The port of a door, and what waits for it and for its connections.
#[derive(Drop)]
pub(crate) struct Port {
    pub(crate) listener: TcpListener,
    pub(crate) poll: Poll,
    pub(crate) events: Events,
}

/// A listener at the first of the addresses that can be had.
fn listen<N: Net>(net: &N, address: &str) -> io::Result<TcpListener> {
    let mut fault = io::Error::from(io::ErrorKind::InvalidInput);
    for addr in address.to_socket_addrs(net)? {
        match TcpListener::bind(net, addr) {
            Ok(listener) => return Ok(listener),
            Err(e) => fault = e,
        }
    }
    Err(fault)
}

impl Port {
    pub(crate) fn open<N: Net>(net: &N, alloc: Global, address: &str) -> io::Result<Port> {
        let mut listener = listen(net, address)?;
        let poll = Poll::new(net)?;
        poll.registry()
            .register(&mut listener, PORT, Interest::READABLE)?;
        let events = Events::with_capacity(alloc, EVENTS)?;
        Ok(Port {
            listener,
            poll,
            events,
        })
    }

    pub(crate) fn local_addr(&self) -> Option<SocketAddr> {
        self.listener.local_addr().ok()
    }
}
