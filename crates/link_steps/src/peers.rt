//! Steps of the port, and of a peer that came there.
use crate::outcome::{Outcome, done, given};
use crate::stage::{PATIENCE, Stage};
use crate::words::{bytes_of, cut};
use sb_model::{Bytes, OutOfMemory};
use std::alloc::Global;
use std::io::{Read, Write};
use std::net::{TcpListener, TcpStream};
use std::time::Duration;

pub(crate) fn port_step<R>(stage: &mut Stage<R>, word: &str) -> Outcome {
    stage.peer = None;
    stage.port = None;
    if word != "open" {
        return Outcome::Done;
    }
    match TcpListener::bind(&stage.rt, "127.0.0.1:0") {
        Ok(port) => stage.port = Some(port),
        Err(e) => return Outcome::Refused(e),
    }
    Outcome::Done
}

pub(crate) fn step<R>(stage: &mut Stage<R>, line: &str) -> Outcome {
    let (word, rest) = cut(line);
    match word.as_bytes() {
        b"come" => come(stage),
        b"gone" => go(stage),
        _ => match &mut stage.peer {
            Some(peer) => step_of(stage.rt.alloc(), peer, word, rest),
            None => Outcome::Cannot(None),
        },
    }
}

/// Takes the next connection.
fn come<R>(stage: &mut Stage<R>) -> Outcome {
    let Some(port) = &stage.port else {
        return Outcome::Cannot(None);
    };
    match port.accept() {
        Ok((stream, _from)) => {
            let waits = stream.set_read_timeout(Some(Duration::from_millis(PATIENCE)));
            stage.peer = Some(stream);
            done(waits)
        }
        Err(e) => Outcome::Refused(e),
    }
}

fn go<R>(stage: &mut Stage<R>) -> Outcome {
    stage.peer = None;
    Outcome::Done
}

/// A step of the peer that is there.
fn step_of(alloc: Global, peer: &mut TcpStream, word: &str, rest: &str) -> Outcome {
    match word.as_bytes() {
        b"read" => read(alloc, peer),
        b"send" => match bytes_of(alloc, rest) {
            Ok(bytes) => done(peer.write_all(bytes.as_slice())),
            Err(OutOfMemory) => Outcome::OutOfMemory,
        },
        _ => Outcome::NoStep,
    }
}

/// One read.
fn read(alloc: Global, peer: &mut TcpStream) -> Outcome {
    let mut buffer = [0; 64];
    match peer.read(&mut buffer) {
        Ok(count) => given(Bytes::from_slice(alloc, &buffer[..count])),
        Err(e) => Outcome::Refused(e),
    }
}
