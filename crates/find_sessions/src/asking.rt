ghost use Rattle.std.specs.Prelude.{◌≡◌, ◌≢◌, ℕ, ◌≤◌, ◌↔◌, List, Ok, Err, IfOk, OnErr};
ghost use Rattle.sb_outside.specs.Outside.{Rose};
ghost use Rattle.http_edge.specs.Exchanges.{CountsSendFault, IsTarget};
ghost use Rattle.http_edge.specs.declared.messages.Target.{Target};
ghost use Rattle.sb_model.specs.declared.time.Moment.{Moment};
ghost use Rattle.wait_rules.specs.declared.waits.WaitState.{WaitState};
ghost use Rattle.timed_sessions.specs.Told.{Outside};
ghost use Rattle.timed_sessions.specs.Timed.{IsTimedOpening, HoldsTimedPart};
ghost use Rattle.find_sessions.specs.Asking.{IsFindAnswerOf, find_bids, find_body, HearsFind, StopsAsking};

use client_line::Line;
use hash_messages::{FindRequest, FindResponse, read_matches, write_find};
use http_edge::{ExchangeFault, Target};
use sb_json::MessageFault;
use sb_model::{Bytes, Duration, Moment, OutOfMemory};
use sb_outside::Kind;
use std::alloc::Global;
use timed_sessions::{Opening, Talk, begin_session, end_session};
use verdict_report::Cause;
use wait_rules::WaitState;

/// What was answered in the session of a find, and when the session was closed.
#[derive(Drop)]
pub struct AnsweredFind {
    /// The reading of the clock at which it was closed. The wait after it, and the times for which its answer may be kept, begin then.
    pub closed: Moment,
    /// The message, or why there is none: `Cause::Exchange` if the session brought no body, and `Cause::Message` with the first fault of
    /// a body that is no message.
    pub answer: Result<FindResponse, Cause>,
}

// Reads a body that passed.
fn read_body(alloc: Global, body: &Bytes) -> Result<Result<FindResponse, Cause>, OutOfMemory>
    ensures answer { IfOk result (λ answer. IsFindAnswerOf (Ok body.now) answer) }
    ensures no_link { IfOk result (λ answer. answer ≢ Err (Cause.Exchange ExchangeFault.Link)) }
{
    match read_matches(alloc, body.as_slice()) {
        Ok(message) => Ok(Ok(message)),
        Err(MessageFault::OutOfMemory) => Err(OutOfMemory),
        Err(fault) => Ok(Err(Cause::Message(fault))),
    }
}

// What the outcome of a session comes to.
fn answer_of(
    alloc: Global,
    outcome: Result<Bytes, ExchangeFault>,
) -> Result<Result<FindResponse, Cause>, OutOfMemory>
    ensures answer { IfOk result (λ answer. IsFindAnswerOf outcome answer) }
    ensures link { IfOk result (λ answer.
        (answer ≡ Err (Cause.Exchange ExchangeFault.Link)) ↔ (outcome ≡ Err ExchangeFault.Link)) }
    ensures had_body { OnErr result (outcome ≢ Err ExchangeFault.Link) }
{
    match outcome {
        Ok(body) => read_body(alloc, &body),
        Err(fault) => Ok(Err(Cause::Exchange(fault))),
    }
}

/// How long an answer bids to wait: the minimum wait of a message, in milliseconds, and nothing without one. `timed_sessions::settle`
/// takes this.
pub fn bids(answer: &Result<FindResponse, Cause>) -> Option<Duration>
    ensures { result ≡ find_bids answer.now }
{
    match answer {
        Ok(message) => Some(message.wait),
        Err(_) => None,
    }
}

/// Begins the session of a find, from a clock that was read already, and sends its request: at once if it may begin at that reading, and
/// else after a wait until exactly the allowed moment ("Request Frequency" of the Safe Browsing Update API, version 4). Nothing is received,
/// and the session stays open: `end_find_session` ends it. A fault of the link is counted, and shows in the second part's answer. If memory
/// is refused, no session is open.
///
/// A request has at most 1,024 prefixes, as each `FindRequest` does.
#[tactic(auto, unfolding(crate::specs::Asking::find_body))]
pub fn begin_find_session<N: Line>(
    alloc: Global,
    waits: WaitState,
    now: Moment,
    target: &Target,
    request: &FindRequest,
    line: &mut N,
) -> Result<Opening, OutOfMemory>
    requires read { (N.view line.old).last ≡ now.0 }
    requires target { IsTarget target.now }

    // The session is open of this request, and begins when it may. A fault of the link is counted.
    ensures opened { IfOk result (λ opening. IsTimedOpening waits now target.now Kind.Find (find_body request.now)
        (N.view line.old).told (N.view line.new).told opening) }
    ensures refused { OnErr result (StopsAsking waits now target.now (find_body request.now)
        (N.view line.old).told (N.view line.new).told) }
    ensures last { IfOk result (λ opening. (N.view line.new).last ≡ opening.begun.0) }
    ensures faults { IfOk result (λ opening.
        CountsSendFault opening.sent (N.view line.old).told.faults (N.view line.new).told.faults) }
    ensures unmoved { OnErr result ((N.view line.new).told.faults ≡ (N.view line.old).told.faults) }
    ensures counted { (N.view line.old).told.faults ≤ (N.view line.new).told.faults }

    // The line's objects are the same.
    ensures same { (N.view line.new).objects ≡ (N.view line.old).objects }
{
    let body = write_find(alloc, request)?;
    begin_session(alloc, waits, now, target, Kind::Find, body.as_slice(), line)
}

/// Ends a session that `begin_find_session` left open, and reads what came. In between nothing of the line may be used, so the clock's last
/// reading is still the moment at which the session began; and the state of waiting may not change.
///
/// The session is closed in every case. Who calls this gives the closing moment and the answer's bid to `timed_sessions::settle`, which
/// says when the next session may begin ("Request Frequency" of the Safe Browsing Update API, version 4). An `Err` is refused memory alone.
pub fn end_find_session<N: Line>(
    alloc: Global,
    opening: Opening,
    need_digest: bool,
    line: &mut N,
) -> Result<AnsweredFind, OutOfMemory>
    requires last { (N.view line.old).last ≡ opening.begun.0 }

    // A session that was begun so was held to its end, and this is what was answered.
    ensures asked { (waits : WaitState) (now : Moment) (target : Target) (body : List ℕ) (start : Outside)
        → IsTimedOpening waits now target Kind.Find body start (N.view line.old).told opening
        → IfOk result (λ found. HearsFind waits now target body need_digest start (N.view line.new).told found) }
    ensures refused { (waits : WaitState) (now : Moment) (target : Target) (body : List ℕ) (start : Outside)
        → IsTimedOpening waits now target Kind.Find body start (N.view line.old).told opening
        → OnErr result (HoldsTimedPart waits now target Kind.Find body start (N.view line.new).told) }

    // Over both parts, from a count at the start, a fault of the link is counted, and nothing else is.
    ensures failed { (start : ℕ) → CountsSendFault opening.sent start (N.view line.old).told.faults
        → IfOk result (λ found. found.answer ≡ Err (Cause.Exchange ExchangeFault.Link)
        → Rose start (N.view line.new).told.faults) }
    ensures kept { (start : ℕ) → CountsSendFault opening.sent start (N.view line.old).told.faults
        → IfOk result (λ found. found.answer ≢ Err (Cause.Exchange ExchangeFault.Link)
        → (N.view line.new).told.faults ≡ start) }
    ensures unmoved { (start : ℕ) → CountsSendFault opening.sent start (N.view line.old).told.faults
        → OnErr result ((N.view line.new).told.faults ≡ start) }
    ensures counted { (N.view line.old).told.faults ≤ (N.view line.new).told.faults }

    // The line's objects are the same.
    ensures same { (N.view line.new).objects ≡ (N.view line.old).objects }
{
    let Talk {
        begun: _,
        closed,
        answer: outcome,
    } = end_session(alloc, opening, need_digest, line)?;
    let answer = answer_of(alloc, outcome)?;
    Ok(AnsweredFind { closed, answer })
}
