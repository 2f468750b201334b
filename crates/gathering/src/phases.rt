ghost use Rattle.std.specs.Prelude.{◌≡◌};
ghost use Rattle.gathering.specs.Deadlines.{deadline, has_passed};

use crate::DoorLimits;

/// How a connection stands. Moments are those of the door's clock, in milliseconds.
#[derive(Clone, Copy, Debug, PartialEq, Eq, Hash)]
pub enum Phase {
    /// Its request is gathered.
    Gathering {
        /// Since when.
        since: u64,
    },
    /// Its request is decided, its peer has ended, or its time has passed: it waits for its turn.
    Decided {
        /// Since when.
        since: u64,
    },
    /// It has its turn: it is handed out.
    InTurn,
    /// Its answer is sent.
    Sending {
        /// Since when.
        since: u64,
        /// When the system last took a byte of it, or the answer was given.
        last: u64,
        /// How many bytes the system took.
        taken: u64,
        /// Whether its peer has said that it sends no more.
        ended: bool,
    },
    /// It is past its answer, and what its peer sends is forgotten.
    Past {
        /// Since when.
        since: u64,
        /// How many bytes were read since.
        read: u64,
    },
}

/// What a read answers after the bytes that were gathered.
#[derive(Clone, Copy, Debug, PartialEq, Eq, Hash)]
pub enum Ending {
    /// An end of input.
    End,
    /// A fault: the connection failed, or its time has passed.
    Fault,
}

/// The moment at which the time of a connection is up, at most the greatest `u64`. One that has its turn has none.
pub fn due_at(limits: &DoorLimits, phase: Phase) -> Option<u64>
    ensures { result ≡ deadline limits.now phase }
{
    match phase {
        Phase::Gathering { since } => Some(since.saturating_add(limits.request)),
        Phase::Decided { since } => Some(since.saturating_add(limits.turn)),
        Phase::InTurn => None,
        Phase::Sending {
            since,
            last,
            taken,
            ..
        } => {
            let stalled = last.saturating_add(limits.stall);
            let more = (taken / limits.bytes_a_second.max(1)).saturating_mul(1_000);
            let whole = since.saturating_add(limits.answer).saturating_add(more);
            Some(stalled.min(whole))
        }
        Phase::Past { since, .. } => Some(since.saturating_add(limits.rest)),
    }
}

/// Whether the time of a connection is up at a moment.
pub fn is_due(limits: &DoorLimits, phase: Phase, now: u64) -> bool
    ensures { result ≡ has_passed (deadline limits.now phase) now }
{
    match due_at(limits, phase) {
        Some(due) => due <= now,
        None => false,
    }
}
