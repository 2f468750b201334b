use crate::outcome::Outcome;
use crate::peer::{Came, Peer};
use crate::stage::{NO_PEER, Stage};
use crate::step::{Step, bytes_of};
use crate::together::trickle;

/// How what came to a peer ends.
fn ending_of(peer: &mut Peer) -> Outcome {
    match peer.read_rest() {
        Came::Bytes => Outcome::Word("no end"),
        Came::End => Outcome::Word("its end"),
        Came::Fault => Outcome::Word("a fault"),
    }
}

/// Whether so many bytes or more come to a peer before its end, or a fault.
fn reaches(peer: &mut Peer, wanted: u64) -> Outcome {
    peer.read_rest();
    Outcome::Truth(peer.got >= wanted)
}

/// A peer reads so many pieces.
fn read_pieces(peer: &mut Peer, pieces: u64) -> Outcome {
    peer.status();
    peer.read_some(pieces);
    Outcome::Done
}

/// What comes to a peer is to be the answer to another number.
fn read_as(peer: &mut Peer, number: u8) -> Outcome {
    peer.answered_as = number;
    Outcome::Done
}

/// A step of one peer that is there.
pub(crate) fn run_of_one(peer: &mut Peer, step: &Step<'_>) -> Option<Outcome> {
    Some(match step.name {
        "fill" => Outcome::of(peer.fill(step.number(1))),
        "as" => read_as(peer, step.peer(1)),
        "half" => Outcome::of(peer.half()),
        "status" => Outcome::Word(peer.status()),
        "read" => read_pieces(peer, step.number(1)),
        "rest" => reaches(peer, step.number(1)),
        "ending" => ending_of(peer),
        "same" => Outcome::Compared(step.number(1), peer.got, peer.differs),
        _ => return None,
    })
}

/// A peer writes a text.
pub(crate) fn write_text(stage: &mut Stage<'_>, number: u8, text: &str) -> Outcome {
    match bytes_of(stage.rt.alloc(), text) {
        Ok(bytes) => stage.write(number, bytes.as_slice()),
        Err(_) => Outcome::Cannot("out of memory"),
    }
}

/// A text trickles in from a peer.
pub(crate) fn trickle_text(stage: &mut Stage<'_>, number: u8, pause: u64, text: &str) -> Outcome {
    match bytes_of(stage.rt.alloc(), text) {
        Ok(bytes) => trickle(stage, number, pause, bytes.as_slice()),
        Err(_) => Outcome::Cannot("out of memory"),
    }
}

/// A peer closes its connection while there are bytes that it has not read, which the system answers with a reset.
pub(crate) fn reset(stage: &mut Stage<'_>, number: u8) -> Outcome {
    let Some(peer) = stage.row.get(number) else {
        return NO_PEER;
    };
    if !peer.taste() {
        return Outcome::Cannot("nothing came");
    }
    stage.row.set(number, None)
}

/// Whether as many bytes come to a peer as to another.
pub(crate) fn as_much(stage: &mut Stage<'_>, one: u8, other: u8) -> Outcome {
    let Some(peer) = stage.row.get(one) else {
        return NO_PEER;
    };
    peer.read_rest();
    let got = peer.got;
    let Some(peer) = stage.row.get(other) else {
        return NO_PEER;
    };
    peer.read_rest();
    Outcome::Truth(peer.got == got)
}
