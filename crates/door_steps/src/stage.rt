use crate::gate::Gate;
use crate::outcome::Outcome;
use crate::peer::Peer;
use crate::row::Row;
use sb_model::OutOfMemory;
use sb_outside::SharedText;
use std::fs::{self, File};
use std::net::{Ipv4Addr, Ipv6Addr, SocketAddr};

/// The target of the request of a peer is its number.
pub(crate) const NO_PEER: Outcome = Outcome::Cannot("no such peer");

/// The door and its peers.
#[derive(Drop)]
pub(crate) struct Stage<'a> {
    pub(crate) rt: &'a HostRuntime,
    pub(crate) gate: Gate<'a>,
    pub(crate) row: Row,
    // the time at work when it was looked at, and how many pieces were sent last
    pub(crate) work: u64,
    pub(crate) pieces: u64,
    // when it was looked at, and the text that several answers share
    pub(crate) noted: u64,
    pub(crate) common: Option<SharedText>,
    files: Vec<File>,
}

impl<'a> Stage<'a> {
    pub(crate) fn new(rt: &'a HostRuntime) -> Result<Stage<'a>, OutOfMemory> {
        let row = Row::new(rt.alloc())?;
        Ok(Stage {
            rt,
            gate: Gate::new(rt),
            row,
            work: 0,
            pieces: 0,
            noted: 0,
            common: None,
            files: Vec::new(rt.alloc()),
        })
    }

    /// A peer comes in the place of its number, over the protocol of the door's address.
    pub(crate) fn connect(&mut self, number: u8) -> Outcome {
        match self.gate.address() {
            Some(SocketAddr::V6(there)) => {
                self.connect_to(
                    SocketAddr::from((Ipv6Addr::LOCALHOST, there.port())),
                    number,
                )
            }
            Some(there) => self.connect_to(there, number),
            None => Outcome::Cannot("no address"),
        }
    }

    /// A peer comes over IPv4.
    pub(crate) fn connect_by_four(&mut self, number: u8) -> Outcome {
        match self.gate.address() {
            Some(there) => {
                self.connect_to(
                    SocketAddr::from((Ipv4Addr::LOCALHOST, there.port())),
                    number,
                )
            }
            None => Outcome::Cannot("no address"),
        }
    }

    /// A peer comes to an address in the place of its number.
    fn connect_to(&mut self, address: SocketAddr, number: u8) -> Outcome {
        match Peer::connect(self.rt, address, number) {
            Ok(peer) => self.row.set(number, Some(peer)),
            Err(e) => Outcome::Fault(e),
        }
    }

    /// A peer writes bytes.
    pub(crate) fn write(&mut self, number: u8, bytes: &[u8]) -> Outcome {
        match self.row.get(number) {
            Some(peer) => Outcome::of(peer.write(bytes)),
            None => NO_PEER,
        }
    }

    /// A peer asks, with its number as the target.
    pub(crate) fn ask(&mut self, number: u8) -> Outcome {
        let made = format!(in self.rt.alloc(); "GET /{number} HTTP/1.1\r\nHost: a\r\n\r\n");
        match made {
            Ok(request) => self.write(number, request.as_str().as_bytes()),
            Err(_) => Outcome::Cannot("out of memory"),
        }
    }

    /// A peer asks, with its number as the target and so many bytes of its own as the body.
    pub(crate) fn post(&mut self, number: u8, length: u64) -> Outcome {
        let made = format!(in self.rt.alloc();
            "POST /{number} HTTP/1.1\r\nContent-Length: {length}\r\n\r\n"
        );
        let written = match made {
            Ok(head) => self.write(number, head.as_str().as_bytes()),
            Err(_) => return Outcome::Cannot("out of memory"),
        };
        if written.is_failure() {
            return written;
        }
        match self.row.get(number) {
            Some(peer) => Outcome::of(peer.fill(length)),
            None => NO_PEER,
        }
    }

    /// Takes descriptors of the system until it gives no more, but no more than so many. It says whether there were no more.
    pub(crate) fn starve(&mut self, most: u64) -> bool {
        for _ in 0..most {
            match fs::open(self.rt, "/dev/null") {
                Ok(file) => {
                    if self.files.push(file).is_err() {
                        return false;
                    }
                }
                Err(_) => return true,
            }
        }
        false
    }

    /// Gives the descriptors back.
    pub(crate) fn feed(&mut self) {
        self.files.clear();
    }
}
