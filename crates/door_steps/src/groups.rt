use crate::outcome::Outcome;
use crate::peer::Came;
use crate::seen::Turn;
use crate::stage::Stage;
use crate::together::PATIENCE;

/// How long a peer waits for its end that may not come, in milliseconds.
const GLANCE: u64 = 50;

/// The peers of some numbers come.
pub(crate) fn connect_all(stage: &mut Stage<'_>, first: u8, last: u8) -> Outcome {
    for number in first..=last {
        let made = stage.connect(number);
        if made.is_failure() {
            return made;
        }
    }
    Outcome::Done
}

/// The peers of some numbers come over IPv4.
pub(crate) fn connect_all_by_four(stage: &mut Stage<'_>, first: u8, last: u8) -> Outcome {
    for number in first..=last {
        let made = stage.connect_by_four(number);
        if made.is_failure() {
            return made;
        }
    }
    Outcome::Done
}

/// The peers of some numbers ask with bodies of so many bytes.
pub(crate) fn post_all(stage: &mut Stage<'_>, first: u8, last: u8, length: u64) -> Outcome {
    for number in first..=last {
        let made = stage.post(number, length);
        if made.is_failure() {
            return made;
        }
    }
    Outcome::Done
}

/// How many requests of so many turns are taken whole and kept.
pub(crate) fn take_all(stage: &mut Stage<'_>, count: u64) -> u64 {
    let mut total = 0u64;
    for _ in 0..count {
        if stage.gate.take(Some(PATIENCE)) == Turn::Taken {
            total = total.saturating_add(1);
        }
    }
    total
}

/// How many of the kept ones whose targets are some numbers are answered with so many bytes, the last first.
pub(crate) fn answer_all(stage: &mut Stage<'_>, first: u8, last: u8, length: u64) -> u64 {
    let mut total = 0u64;
    for back in 0..=last.saturating_sub(first) {
        if stage.gate.answer(last.saturating_sub(back), length) == Turn::Answered {
            total = total.saturating_add(1);
        }
    }
    total
}

/// The peers of some numbers ask.
pub(crate) fn ask_all(stage: &mut Stage<'_>, first: u8, last: u8) -> Outcome {
    for number in first..=last {
        let made = stage.ask(number);
        if made.is_failure() {
            return made;
        }
    }
    Outcome::Done
}

/// Whether a peer to which nothing came is at its end.
pub(crate) fn is_closed(stage: &mut Stage<'_>, number: u8) -> bool {
    match stage.row.get(number) {
        Some(peer) => peer.read_within(GLANCE, 1) == Came::End,
        None => false,
    }
}

/// Which of some numbers are of peers at their end.
pub(crate) fn closed_ones(stage: &mut Stage<'_>, first: u8, last: u8) -> u128 {
    let mut bits = 0u128;
    for number in first..=last {
        if is_closed(stage, number) {
            bits |= 1u128.wrapping_shl(u32::from(number));
        }
    }
    bits
}

/// How many of some peers got an answer of so many bytes whole.
pub(crate) fn good_ones(stage: &mut Stage<'_>, first: u8, last: u8, length: u64) -> u64 {
    let mut total = 0u64;
    for number in first..=last {
        if let Some(peer) = stage.row.get(number)
            && peer.status() == "200"
            && peer.read_rest() == Came::End
            && peer.got == length
            && peer.differs.is_none()
        {
            total = total.saturating_add(1);
        }
    }
    total
}

/// How many of so many turns at the door are answered with so many bytes.
pub(crate) fn serve_all(stage: &mut Stage<'_>, count: u64, length: u64) -> u64 {
    let mut total = 0u64;
    for _ in 0..count {
        if stage.gate.serve(PATIENCE, length) == Turn::Answered {
            total = total.saturating_add(1);
        }
    }
    total
}
