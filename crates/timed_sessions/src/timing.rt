ghost use Rattle.std.specs.Prelude.{◌≡◌, ◌≢◌, ℕ, ◌≤◌, List, Err, IfOk, OnErr, IsErrOf};
ghost use Rattle.sb_outside.specs.Outside.{Rose};
ghost use Rattle.sb_outside.specs.declared.links.Kind.{Kind};
ghost use Rattle.http_edge.specs.declared.messages.Target.{Target};
ghost use Rattle.http_edge.specs.Exchanges.{CountsSendFault, IsTarget};
ghost use Rattle.wait_rules.specs.declared.waits.WaitState.{WaitState};
ghost use Rattle.timed_sessions.specs.Told.{Outside};
ghost use Rattle.timed_sessions.specs.Timed.{HasBegun, IsTimedOpening, HoldsTimed, HoldsTimedPart};

use client_line::Line;
use http_edge::{ExchangeFault, Exchanged, Target};
use sb_model::{Bytes, Moment, OutOfMemory};
use sb_outside::Kind;
use std::alloc::Global;
use wait_rules::WaitState;

/// A session that is open: when it began, and whether its request was sent whole.
#[derive(Clone, Copy, Debug, PartialEq, Eq)]
pub struct Opening {
    pub begun: Moment,
    pub sent: bool,
}

/// A session that was held to its end: when it began, when it was closed, and the body that it brought, or why it brought none.
#[derive(Debug, Drop)]
pub struct Talk {
    pub begun: Moment,
    pub closed: Moment,
    pub answer: Result<Bytes, ExchangeFault>,
}

// Begins a session where the clock read this: at once where it may, and else after a wait until the allowed moment.
fn begin<N: Line>(line: &mut N, waits: WaitState, read: Moment) -> Moment
    requires { (N.view line.old).last ≡ read.0 }
    ensures { HasBegun waits read (N.view line.old) (N.view line.new) result }
{
    if waits.may_send(read) {
        return read;
    }
    line.wait_until(waits.allowed_at)
}

/// Begins a session for this body, from a clock that was read already, and sends its request: at once where it may begin at that
/// reading, and else after a wait until exactly the allowed moment. Nothing is received, and the session stays open: `end_session`
/// ends it. If memory is refused, it is closed.
pub fn begin_session<N: Line>(
    alloc: Global,
    waits: WaitState,
    read: Moment,
    target: &Target,
    kind: Kind,
    body: &[u8],
    line: &mut N,
) -> Result<Opening, OutOfMemory>
    requires read { (N.view line.old).last ≡ read.0 }
    requires target { IsTarget target.now }

    // One session is open that began when it may, after a wait no longer than that.
    ensures opened { IfOk result (λ opening. IsTimedOpening waits read target.now kind body.now
        (N.view line.old).told (N.view line.new).told opening) }
    ensures refused { OnErr result (HoldsTimedPart waits read target.now kind body.now
        (N.view line.old).told (N.view line.new).told) }

    // The clock's last reading is the moment at which it began.
    ensures last { IfOk result (λ opening. (N.view line.new).last ≡ opening.begun.0) }

    // A fault of the link is counted, and nothing else is.
    ensures faults { IfOk result (λ opening.
        CountsSendFault opening.sent (N.view line.old).told.faults (N.view line.new).told.faults) }
    ensures unmoved { OnErr result ((N.view line.new).told.faults ≡ (N.view line.old).told.faults) }
    ensures counted { (N.view line.old).told.faults ≤ (N.view line.new).told.faults }

    // The line's objects are the same.
    ensures same { (N.view line.new).objects ≡ (N.view line.old).objects }
{
    let begun = begin(line, waits, read);
    let sent = line.begin_exchange(alloc, begun, target, kind, body)?;
    Ok(Opening { begun, sent })
}

/// Receives the answer of a session that `begin_session` left open, and closes it. In between nothing of the line may be used.
pub fn end_session<N: Line>(
    alloc: Global,
    opening: Opening,
    need_digest: bool,
    line: &mut N,
) -> Result<Talk, OutOfMemory>
    requires last { (N.view line.old).last ≡ opening.begun.0 }

    // A session that was begun so was held to its end, and is read no further than its answer.
    ensures held { (waits : WaitState) (read : Moment) (target : Target) (kind : Kind) (body : List ℕ) (start : Outside)
        → IsTimedOpening waits read target kind body start (N.view line.old).told opening
        → IfOk result (λ talk. HoldsTimed waits read target kind body need_digest start (N.view line.new).told talk) }
    ensures refused { (waits : WaitState) (read : Moment) (target : Target) (kind : Kind) (body : List ℕ) (start : Outside)
        → IsTimedOpening waits read target kind body start (N.view line.old).told opening
        → OnErr result (HoldsTimedPart waits read target kind body start (N.view line.new).told) }

    // The clock's last reading is the moment at which it was closed.
    ensures last { IfOk result (λ talk. (N.view line.new).last ≡ talk.closed.0) }

    // Over both parts, from a count at the start, a fault of the link is counted, and nothing else is.
    ensures failed { (start : ℕ) → CountsSendFault opening.sent start (N.view line.old).told.faults
        → IfOk result (λ talk. IsErrOf talk.answer ExchangeFault.Link → Rose start (N.view line.new).told.faults) }
    ensures kept { (start : ℕ) → CountsSendFault opening.sent start (N.view line.old).told.faults
        → IfOk result (λ talk. talk.answer ≢ Err ExchangeFault.Link → (N.view line.new).told.faults ≡ start) }
    ensures unmoved { (start : ℕ) → CountsSendFault opening.sent start (N.view line.old).told.faults
        → OnErr result ((N.view line.new).told.faults ≡ start) }
    ensures counted { (N.view line.old).told.faults ≤ (N.view line.new).told.faults }

    // The line's objects are the same.
    ensures same { (N.view line.new).objects ≡ (N.view line.old).objects }
{
    let Exchanged { ended, answer } = line.end_exchange(alloc, opening.sent, need_digest)?;
    Ok(Talk {
        begun: opening.begun,
        closed: ended,
        answer,
    })
}

/// Holds a session for this body, from a clock that was read already: at once where it may begin at that reading, and else after a
/// wait until exactly the allowed moment.
pub fn hold_session<N: Line>(
    alloc: Global,
    waits: WaitState,
    read: Moment,
    target: &Target,
    kind: Kind,
    body: &[u8],
    need_digest: bool,
    line: &mut N,
) -> Result<Talk, OutOfMemory>
    requires read { (N.view line.old).last ≡ read.0 }
    requires target { IsTarget target.now }

    // One session, which begins when it may, waits no longer than that, and is read no further than its answer.
    ensures held { IfOk result (λ talk. HoldsTimed waits read target.now kind body.now need_digest
        (N.view line.old).told (N.view line.new).told talk) }
    ensures refused { OnErr result (HoldsTimedPart waits read target.now kind body.now
        (N.view line.old).told (N.view line.new).told) }

    // The clock's last reading is the moment at which it was closed.
    ensures last { IfOk result (λ talk. (N.view line.new).last ≡ talk.closed.0) }

    // A fault of the link is counted, and nothing else is.
    ensures failed { IfOk result (λ talk. IsErrOf talk.answer ExchangeFault.Link
        → Rose (N.view line.old).told.faults (N.view line.new).told.faults) }
    ensures kept { IfOk result (λ talk. talk.answer ≢ Err ExchangeFault.Link
        → (N.view line.new).told.faults ≡ (N.view line.old).told.faults) }
    ensures unmoved { OnErr result ((N.view line.new).told.faults ≡ (N.view line.old).told.faults) }
    ensures counted { (N.view line.old).told.faults ≤ (N.view line.new).told.faults }

    // The line's objects are the same.
    ensures same { (N.view line.new).objects ≡ (N.view line.old).objects }
{
    let opening = begin_session(alloc, waits, read, target, kind, body, line)?;
    end_session(alloc, opening, need_digest, line)
}
