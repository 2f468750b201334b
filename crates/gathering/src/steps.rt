ghost use Rattle.std.specs.Prelude.{◌≡◌};
ghost use Rattle.gathering.specs.Connections.{answer_step, gathering_step, past_step, read_step, sending_read, turn_step, waiting_step, unless_due as ends_when_due, write_step};

use crate::phases::is_due;
use crate::{DoorLimits, Ending, Phase};

/// What a read of a connection's socket brought.
#[derive(Clone, Copy, Debug, PartialEq, Eq, Hash)]
pub enum Heard {
    /// So many bytes, one or more.
    Bytes(u64),
    /// The end: the peer sends no more.
    End,
    /// Nothing so far.
    Nothing,
    /// The connection failed.
    Fault,
}

/// What a write to a connection's socket brought.
#[derive(Clone, Copy, Debug, PartialEq, Eq, Hash)]
pub enum Sent {
    /// The system took so many bytes, or none so far.
    Taken(u64),
    /// The connection failed.
    Fault,
}

/// What becomes of a connection.
#[derive(Clone, Copy, Debug, PartialEq, Eq, Hash)]
pub enum Step {
    /// It goes on so.
    On(Phase),
    /// It has its turn after those that wait for theirs. After its bytes a read answers this.
    HandOut(Ending),
    /// It is past its answer from now on, which is said to its peer.
    Rest(Phase),
    /// It is closed.
    Close,
}

/// The same phase, or the end of the connection where its time is up.
fn unless_due(limits: &DoorLimits, phase: Phase, now: u64) -> Step
    ensures { result ≡ ends_when_due limits.now phase now }
{
    if is_due(limits, phase, now) {
        Step::Close
    } else {
        Step::On(phase)
    }
}

/// A turn for one of which so many bytes are gathered. One that has sent nothing is closed.
fn turn_of(gathered: u64, ending: Ending) -> Step
    ensures { result ≡ turn_step gathered ending }
{
    if gathered == 0 {
        Step::Close
    } else {
        Step::HandOut(ending)
    }
}

/// The step of one whose request is gathered.
fn after_gathering(
    limits: &DoorLimits,
    phase: Phase,
    heard: Heard,
    is_decided: bool,
    gathered: u64,
    now: u64,
) -> Step
    ensures { result ≡ gathering_step limits.now phase heard is_decided gathered now }
{
    match heard {
        Heard::End => turn_of(gathered, Ending::End),
        Heard::Fault => turn_of(gathered, Ending::Fault),
        Heard::Bytes(_) if is_decided => Step::HandOut(Ending::End),
        Heard::Bytes(_) | Heard::Nothing => {
            if is_due(limits, phase, now) {
                turn_of(gathered, Ending::Fault)
            } else {
                Step::On(phase)
            }
        }
    }
}

/// The step of one that waits for its turn: it ends if it has failed, or if its time is up.
fn after_waiting(limits: &DoorLimits, phase: Phase, heard: Heard, now: u64) -> Step
    ensures { result ≡ waiting_step limits.now phase heard now }
{
    match heard {
        Heard::Fault => Step::Close,
        Heard::Bytes(_) | Heard::End | Heard::Nothing => unless_due(limits, phase, now),
    }
}

/// The step of one that is sent its answer.
fn after_sending(phase: Phase, heard: Heard) -> Step
    ensures { result ≡ sending_read phase heard }
{
    let Phase::Sending {
        since,
        last,
        taken,
        ..
    } = phase
    else {
        return Step::On(phase);
    };
    match heard {
        Heard::Fault => Step::Close,
        Heard::End => Step::On(Phase::Sending {
            since,
            last,
            taken,
            ended: true,
        }),
        Heard::Bytes(_) | Heard::Nothing => Step::On(phase),
    }
}

/// What becomes of a connection whose socket was read at this moment or later. Of one whose request is gathered `gathered`
/// says how many bytes of it came so far, those of this read too, and `is_decided` whether they decide it.
pub fn after_read(
    limits: &DoorLimits,
    phase: Phase,
    heard: Heard,
    is_decided: bool,
    gathered: u64,
    now: u64,
) -> Step
    ensures { result ≡ read_step limits.now phase heard is_decided gathered now }
{
    match phase {
        Phase::Gathering { .. } => {
            after_gathering(limits, phase, heard, is_decided, gathered, now)
        }
        Phase::Decided { .. } => after_waiting(limits, phase, heard, now),
        Phase::InTurn => Step::On(phase),
        Phase::Sending { .. } => after_sending(phase, heard),
        Phase::Past { since, read } => match heard {
            Heard::End | Heard::Fault => Step::Close,
            Heard::Nothing => unless_due(limits, phase, now),
            Heard::Bytes(count) => {
                let read = read.saturating_add(count);
                if read >= limits.rest_bytes {
                    return Step::Close;
                }
                unless_due(limits, Phase::Past { since, read }, now)
            }
        },
    }
}

/// What becomes of a connection of whose answer nothing is left to send.
fn past(ended: bool, now: u64) -> Step
    ensures { result ≡ past_step ended now }
{
    if ended {
        Step::Close
    } else {
        Step::Rest(Phase::Past {
            since: now,
            read: 0,
        })
    }
}

/// What becomes of a connection whose answer was tried to be sent at this moment or later, with so many bytes of it left.
pub fn after_write(limits: &DoorLimits, phase: Phase, sent: Sent, left: u64, now: u64) -> Step
    ensures { result ≡ write_step limits.now phase sent left now }
{
    let Phase::Sending {
        since,
        last,
        taken,
        ended,
    } = phase
    else {
        return Step::On(phase);
    };
    match sent {
        Sent::Fault => Step::Close,
        Sent::Taken(_) if left == 0 => past(ended, now),
        Sent::Taken(0) => unless_due(limits, phase, now),
        Sent::Taken(count) => {
            let taken = taken.saturating_add(count);
            let phase = Phase::Sending {
                since,
                last: now,
                taken,
                ended,
            };
            unless_due(limits, phase, now)
        }
    }
}

/// What becomes of a connection that had its turn, with an answer of so many bytes.
pub fn after_answer(left: u64, ended: bool, now: u64) -> Step
    ensures { result ≡ answer_step left ended now }
{
    if left == 0 {
        return past(ended, now);
    }
    Step::On(Phase::Sending {
        since: now,
        last: now,
        taken: 0,
        ended,
    })
}
