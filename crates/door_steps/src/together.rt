use crate::numbered::PIECE;
use crate::outcome::Outcome;
use crate::peer::Came;
use crate::seen::Turn;
use crate::stage::{NO_PEER, Stage};

/// What one that sends for ever sends at a time.
const X: [u8; PIECE] = [b'x'; PIECE];

/// How long a connection is waited for that is to come, in milliseconds.
pub(crate) const PATIENCE: u64 = 30_000;

/// How many bytes quick answers have.
const SHORT: u64 = 8;

/// A peer that asks, and whether it gets its answer whole.
fn is_served(stage: &mut Stage<'_>, number: u8) -> bool {
    stage.connect(number);
    stage.ask(number);
    if stage.gate.serve(PATIENCE, SHORT) != Turn::Answered {
        return false;
    }
    match stage.row.get(number) {
        Some(peer) => {
            peer.status() == "200"
                && peer.read_rest() == Came::End
                && peer.got == SHORT
                && peer.differs.is_none()
        }
        None => false,
    }
}

/// How many of so many peers that come one after the other get their answers whole.
pub(crate) fn quick(stage: &mut Stage<'_>, count: u64) -> u64 {
    let mut total = 0u64;
    let mut number = 101u8;
    for _ in 0..count {
        if is_served(stage, number) {
            total = total.saturating_add(1);
        }
        stage.row.set(number, None);
        number = if number < 120 { number + 1 } else { 101 };
    }
    total
}

/// Reads what came to a peer, at most so many pieces, and has the door work for a millisecond.
fn drain_some(stage: &mut Stage<'_>, number: u8, pieces: u64) -> Option<u64> {
    let peer = stage.row.get(number)?;
    peer.read_within(20, pieces);
    let got = peer.got;
    stage.gate.serve(1, 0);
    Some(got)
}

/// A peer reads beside the door until so many bytes came. It says whether they did.
pub(crate) fn drain(stage: &mut Stage<'_>, number: u8, wanted: u64) -> Outcome {
    let Some(peer) = stage.row.get(number) else {
        return NO_PEER;
    };
    peer.status();
    for _ in 0..1_000 {
        match drain_some(stage, number, u64::MAX) {
            Some(got) if got >= wanted => return Outcome::Truth(true),
            Some(_) => {}
            None => return NO_PEER,
        }
    }
    Outcome::Truth(false)
}

/// A peer reads so many pieces, and again each time that the door worked for some milliseconds.
pub(crate) fn read_bits(
    stage: &mut Stage<'_>,
    number: u8,
    rounds: u64,
    pause: u64,
    pieces: u64,
) -> Outcome {
    for _ in 0..rounds {
        stage.gate.serve(pause, 0);
        match stage.row.get(number) {
            Some(peer) => peer.read_bit(pieces),
            None => return NO_PEER,
        }
    }
    Outcome::Done
}

/// Sends each byte by itself, and asks the door for some milliseconds after each. It says what came first but nobody.
pub(crate) fn trickle(stage: &mut Stage<'_>, number: u8, pause: u64, bytes: &[u8]) -> Outcome {
    for byte in bytes {
        let written = stage.write(number, &[*byte]);
        if written.is_failure() {
            return written;
        }
        let turn = stage.gate.serve(pause, 0);
        if turn != Turn::Nobody {
            return Outcome::Word(turn.word());
        }
    }
    Outcome::Word(Turn::Nobody.word())
}

/// The same with so many bytes of its body.
pub(crate) fn drip(stage: &mut Stage<'_>, number: u8, pause: u64, count: u64) -> Outcome {
    for _ in 0..count {
        let written = match stage.row.get(number) {
            Some(peer) => Outcome::of(peer.fill(1)),
            None => NO_PEER,
        };
        if written.is_failure() {
            return written;
        }
        let turn = stage.gate.serve(pause, 0);
        if turn != Turn::Nobody {
            return Outcome::Word(turn.word());
        }
    }
    Outcome::Word(Turn::Nobody.word())
}

/// Sends pieces until the door has something, and says what.
pub(crate) fn press(stage: &mut Stage<'_>, number: u8, pause: u64, most: u64) -> Outcome {
    for _ in 0..most {
        if stage.write(number, &X).is_failure() {
            break;
        }
        let turn = stage.gate.serve(pause, 0);
        if turn != Turn::Nobody {
            return Outcome::Word(turn.word());
        }
    }
    Outcome::Word(Turn::Nobody.word())
}

/// Sends pieces until that fails, with a quick peer after each. It says whether all these got their answers.
pub(crate) fn flood(stage: &mut Stage<'_>, number: u8, most: u64) -> Outcome {
    stage.pieces = 0;
    let mut good = 0u64;
    for _ in 0..most {
        if stage.write(number, &X).is_failure() {
            break;
        }
        stage.pieces = stage.pieces.saturating_add(1);
        good = good.saturating_add(quick(stage, 1));
    }
    Outcome::Truth(good == stage.pieces)
}
