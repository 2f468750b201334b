//! Steps with the other side of a link: a port of this machine, and a peer that takes a connection there.
use crate::outcome::{Outcome, done, text};
use crate::things::LocalLink;
use crate::words::{cut, size_of, text_of};
use real_objects::TcpLink;
use sb_model::{Bytes, OutOfMemory, Row};
use std::alloc::Global;
use std::io::{self, Read, Write};
use std::net::{SocketAddr, TcpListener, TcpStream};
use std::time::Duration;

/// How long a peer waits for what is to come, in milliseconds.
const PATIENCE: u64 = 20_000;

/// How long one of a crowd waits for its connection, in milliseconds.
const SHORT: u64 = 500;

/// Both ends of a link.
#[derive(Drop)]
pub(crate) struct Ends<'a> {
    pub(crate) link: LocalLink<'a>,
    /// Where the port is or was.
    pub(crate) address: Option<SocketAddr>,
    pub(crate) port: Option<TcpListener>,
    pub(crate) peer: Option<TcpStream>,
    /// Connections that nobody takes.
    pub(crate) crowd: Option<Row<TcpStream>>,
}

impl<'a> Ends<'a> {
    pub(crate) fn new(rt: &'a HostRuntime) -> Self {
        Ends {
            link: TcpLink::unusable(rt),
            address: None,
            port: None,
            peer: None,
            crowd: None,
        }
    }
}

pub(crate) fn step(rt: &HostRuntime, ends: &mut Ends<'_>, line: &str) -> Outcome {
    let (who, rest) = cut(line);
    let (word, more) = cut(rest);
    match (who.as_bytes(), word.as_bytes()) {
        (b"port", b"open") => open(rt, ends),
        (b"port", b"gone") => close_port(ends),
        (b"crowd", b"come") => crowd(rt, ends),
        (b"peer", b"come") => come(ends),
        (b"peer", b"gone") => go(ends),
        (b"peer", _) => peer_step(rt.alloc(), ends, word, more),
        _ => Outcome::NoStep,
    }
}

/// Opens a port that the system chooses.
fn open(rt: &HostRuntime, ends: &mut Ends<'_>) -> Outcome {
    match TcpListener::bind(rt, "127.0.0.1:0") {
        Ok(port) => {
            ends.address = port.local_addr().ok();
            ends.port = Some(port);
            Outcome::Done
        }
        Err(e) => Outcome::Refused(e),
    }
}

fn close_port(ends: &mut Ends<'_>) -> Outcome {
    ends.port = None;
    ends.crowd = None;
    Outcome::Done
}

/// Takes the next connection.
fn come(ends: &mut Ends<'_>) -> Outcome {
    let Some(port) = &ends.port else {
        return Outcome::Cannot(None);
    };
    match port.accept() {
        Ok((stream, _from)) => {
            let waits = stream.set_read_timeout(Some(Duration::from_millis(PATIENCE)));
            ends.peer = Some(stream);
            done(waits)
        }
        Err(e) => Outcome::Refused(e),
    }
}

fn go(ends: &mut Ends<'_>) -> Outcome {
    ends.peer = None;
    Outcome::Done
}

/// A step with the peer that is there.
fn peer_step(alloc: Global, ends: &mut Ends<'_>, word: &str, more: &str) -> Outcome {
    let Some(peer) = &mut ends.peer else {
        return Outcome::Cannot(None);
    };
    match word.as_bytes() {
        b"read" => read(alloc, peer, size_of(more)),
        b"send" => send(alloc, peer, more),
        _ => Outcome::NoStep,
    }
}

/// One read of at most so many bytes.
fn read(alloc: Global, peer: &mut TcpStream, count: usize) -> Outcome {
    let mut buffer = [0; 64];
    match peer.read(&mut buffer[..count.min(64)]) {
        Ok(given) => text(Bytes::from_slice(alloc, &buffer[..given])),
        Err(e) => Outcome::Refused(e),
    }
}

fn send(alloc: Global, peer: &mut TcpStream, more: &str) -> Outcome {
    match text_of(alloc, more) {
        Ok(bytes) => done(peer.write_all(bytes.as_slice())),
        Err(OutOfMemory) => Outcome::OutOfMemory,
    }
}

/// Connects until the port takes no more connections, none of which anybody takes.
fn crowd(rt: &HostRuntime, ends: &mut Ends<'_>) -> Outcome {
    let Some(address) = ends.address else {
        return Outcome::Cannot(None);
    };
    let mut all = Row::new(rt.alloc());
    for _ in 0..1_000 {
        match join(rt, &address) {
            Ok(stream) => {
                let Ok(()) = all.push(stream) else {
                    return Outcome::OutOfMemory;
                };
            }
            Err(_) => break,
        }
    }
    ends.crowd = Some(all);
    Outcome::Done
}

fn join(rt: &HostRuntime, address: &SocketAddr) -> io::Result<TcpStream> {
    TcpStream::connect_timeout(rt, address, Duration::from_millis(SHORT))
}
