//! A long text that goes through a link and comes back.
use crate::outcome::Outcome;
use crate::peers::Ends;
use crate::things::LocalLink;
use crate::words::text_of;
use sb_model::{Bytes, OutOfMemory};
use sb_outside::{Failed, Link, ReadFault};
use std::alloc::Global;
use std::io::{Read, Write};
use std::net::TcpStream;
use std::thread::{self, Threads};

/// How many bytes either side reads at once.
const PIECE: usize = 16_384;

/// Sends a text whole while the peer reads it, and receives what the peer sends back.
pub(crate) fn step(
    threads: &impl Threads,
    alloc: Global,
    ends: &mut Ends<'_>,
    line: &str,
) -> Outcome {
    let Ok(bytes) = text_of(alloc, line) else {
        return Outcome::OutOfMemory;
    };
    let Some(peer) = &mut ends.peer else {
        return Outcome::Cannot(None);
    };
    match both(threads, alloc, peer, &mut ends.link, bytes.as_slice()) {
        (true, true) => Outcome::Word("the same at both ends"),
        (true, false) => Outcome::Word("the same at the peer alone"),
        (false, _) => Outcome::Word("something else at the peer"),
    }
}

/// Whether the peer reads a text that the link sends, and whether the link receives it again.
fn both(
    threads: &impl Threads,
    alloc: Global,
    peer: &mut TcpStream,
    link: &mut LocalLink<'_>,
    bytes: &[u8],
) -> (bool, bool) {
    thread::join(
        threads,
        || echo(alloc, peer, bytes),
        || is_echoed(alloc, link, bytes),
    )
}

fn is_echoed(alloc: Global, link: &mut LocalLink<'_>, bytes: &[u8]) -> bool {
    if link.send(bytes).is_err() {
        return false;
    }
    match hear(alloc, link, bytes.len()) {
        Ok(heard) => heard.as_slice() == bytes,
        Err(_) => false,
    }
}

/// So many bytes of what comes, or fewer where it ends.
fn hear(alloc: Global, link: &mut LocalLink<'_>, count: usize) -> Result<Bytes, ReadFault> {
    let mut heard = Bytes::new(alloc);
    let mut buffer = [0; PIECE];
    for _ in 0..u64::MAX {
        if heard.len() >= count {
            break;
        }
        match link.recv(&mut buffer) {
            Ok(0) => break,
            Err(Failed) => return Err(ReadFault::Failed),
            Ok(given) => {
                let Ok(()) = heard.append(&buffer[..given]) else {
                    return Err(ReadFault::OutOfMemory);
                };
            }
        }
    }
    Ok(heard)
}

/// Reads as many bytes as a text has, and sends them back. Whether they were the text.
fn echo(alloc: Global, peer: &mut TcpStream, text: &[u8]) -> bool {
    match hear_peer(alloc, peer, text.len()) {
        Ok(heard) => peer.write_all(heard.as_slice()).is_ok() && heard.as_slice() == text,
        Err(OutOfMemory) => false,
    }
}

/// So many bytes of what comes, or fewer where it ends.
fn hear_peer(alloc: Global, peer: &mut TcpStream, count: usize) -> Result<Bytes, OutOfMemory> {
    let mut heard = Bytes::new(alloc);
    let mut buffer = [0; PIECE];
    for _ in 0..u64::MAX {
        if heard.len() >= count {
            break;
        }
        match peer.read(&mut buffer) {
            Ok(0) | Err(_) => break,
            Ok(given) => heard.append(&buffer[..given])?,
        }
    }
    Ok(heard)
}
