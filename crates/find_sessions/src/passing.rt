ghost use Rattle.std.specs.Prelude.{◌≡◌, ℕ, ◌≤◌, List, IfOk, OnErr};
ghost use Rattle.sb_model.specs.declared.time.Moment.{Moment};
ghost use Rattle.hash_messages.specs.Messages.{AskedHashes};
ghost use Rattle.http_edge.specs.Exchanges.{CountsSendFault, IsTarget};
ghost use Rattle.http_edge.specs.declared.messages.Target.{Target};
ghost use Rattle.client_line.specs.Lines.{LineView};
ghost use Rattle.find_sessions.specs.Asking.{StopsAsking};
ghost use Rattle.find_sessions.specs.Passing.{passed_request, passed_body, find_to_pass, IsOpenPassed, PassesFind};

use crate::asking::{AnsweredFind, begin_find_session, bids, end_find_session};
use client_line::Line;
use hash_messages::{FindRequest, FindResponse};
use http_edge::Target;
use sb_model::{Bytes, Moment, OutOfMemory, Row, TryCopy};
use std::alloc::Global;
use timed_sessions::{Opening, settle};
use update_messages::ClientInfo;
use verdict_report::Cause;
use wait_rules::WaitState;

// The client that asked, once more.
fn same_client(client: &ClientInfo) -> Result<ClientInfo, OutOfMemory>
    ensures { IfOk result (λ copy. copy ≡ client.now) }
{
    let id = client.id.copy()?;
    let version = client.version.copy()?;
    Ok(ClientInfo { id, version })
}

// The request that is sent: the asked one, with these states in place of its own.
fn request_to_pass(asked: &FindRequest, states: &Row<Bytes>) -> Result<FindRequest, OutOfMemory>
    ensures { IfOk result (λ request. request ≡ passed_request states.now asked.now) }
{
    let client = same_client(&asked.client)?;
    let states = states.try_copy()?;
    let threats = asked.threats.copy()?;
    let platforms = asked.platforms.copy()?;
    let entries = asked.entries.copy()?;
    let prefixes = asked.prefixes.copy()?;
    Ok(FindRequest {
        client,
        states,
        threats,
        platforms,
        entries,
        prefixes,
    })
}

/// Begins to pass a find on, from a clock that was read already: the request is sent as it was asked, its client and its at most 1,024
/// prefixes too, but with these states, which are the tokens of the lists that whoever passes it on holds. Its session begins at the first
/// moment that is allowed, and is waited for until then ("Request Frequency" of the Safe Browsing Update API, version 4). Nothing is received,
/// and the session stays open: `end_passed` ends it. If memory is refused, no session is open.
pub fn begin_passed<N: Line>(
    alloc: Global,
    now: Moment,
    asked: &FindRequest,
    states: &Row<Bytes>,
    waits: WaitState,
    target: &Target,
    line: &mut N,
) -> Result<Opening, OutOfMemory>
    requires read { (N.view line.old).last ≡ now.0 }
    requires target { IsTarget target.now }

    // The session is open of what was asked, with these states, and begins when it may. A fault of the link is counted.
    ensures opened { IfOk result (IsOpenPassed states.now target.now now asked.now waits
        (N.view line.old) (N.view line.new)) }
    ensures stopped { OnErr result (StopsAsking waits now target.now (passed_body states.now asked.now)
        (N.view line.old).told (N.view line.new).told) }
    ensures unmoved { OnErr result ((N.view line.new).told.faults ≡ (N.view line.old).told.faults) }
    ensures counted { (N.view line.old).told.faults ≤ (N.view line.new).told.faults }

    // The line's objects are the same.
    ensures same { (N.view line.new).objects ≡ (N.view line.old).objects }
{
    let request = request_to_pass(asked, states)?;
    begin_find_session(alloc, waits, now, target, &request, line)
}

/// Ends a find that `begin_passed` left open, settles the wait, and gives the answer: the message, or the fault for which there is none. In
/// between nothing of the line may be used, and the state of waiting may not change.
///
/// After it the state of waiting says when the next session may begin ("Request Frequency" of the Safe Browsing Update API, version 4): after
/// a message once its minimum wait is over, and after a fault by the rule for failures. An `Err` is refused memory alone: then the session was
/// closed, and the state of waiting is as before.
pub fn end_passed<N: Line>(
    alloc: Global,
    opening: Opening,
    waits: &mut WaitState,
    need_digest: bool,
    line: &mut N,
) -> Result<Result<FindResponse, Cause>, OutOfMemory>
    requires last { (N.view line.old).last ≡ opening.begun.0 }

    // If this was asked for with this state of waiting, one find was passed on, and this is what it left and came to.
    ensures passes { (states : List (List ℕ)) (target : Target) (now : Moment) (asked : AskedHashes) (start : LineView)
        → IsOpenPassed states target now asked waits.old start (N.view line.old) opening
        → IfOk result (PassesFind (find_to_pass states target need_digest now asked)
        waits.old waits.new start.told (N.view line.new).told) }
    ensures stopped { (states : List (List ℕ)) (target : Target) (now : Moment) (asked : AskedHashes) (start : LineView)
        → IsOpenPassed states target now asked waits.old start (N.view line.old) opening
        → OnErr result (StopsAsking waits.old now target (passed_body states asked)
        start.told (N.view line.new).told) }
    ensures waits_kept { OnErr result (waits.new ≡ waits.old) }
    ensures unmoved { (start : ℕ) → CountsSendFault opening.sent start (N.view line.old).told.faults
        → OnErr result ((N.view line.new).told.faults ≡ start) }
    ensures counted { (N.view line.old).told.faults ≤ (N.view line.new).told.faults }

    // The line's objects are the same.
    ensures same { (N.view line.new).objects ≡ (N.view line.old).objects }
{
    let AnsweredFind { closed, answer } = end_find_session(alloc, opening, need_digest, line)?;
    settle(waits, closed, bids(&answer), line);
    Ok(answer)
}
