ghost use Rattle.std.specs.Prelude.{◌≡◌, ◌≢◌, ℕ, ◌≤◌, ◌↔◌, List, Ok, Err, IfOk, OnErr};
ghost use Rattle.sb_outside.specs.Outside.{Rose};
ghost use Rattle.http_edge.specs.Exchanges.{CountsSendFault, IsTarget};
ghost use Rattle.http_edge.specs.declared.messages.Target.{Target};
ghost use Rattle.wait_rules.specs.declared.waits.WaitState.{WaitState};
ghost use Rattle.client_line.specs.Lines.{LineView};
ghost use Rattle.sb_round.specs.Round.{IsRoundAnswerOf, IsOpenRound, HoldsRoundSession, BreaksOff, round_body_asked};
ghost use Rattle.sb_round.specs.Taking.{HearsRound};

use crate::rounds::RoundFault;
use client_line::Line;
use http_edge::{ExchangeFault, Target};
use sb_json::MessageFault;
use sb_model::{Bytes, Moment, OutOfMemory};
use sb_outside::Kind;
use std::alloc::Global;
use timed_sessions::{Opening, Talk, begin_session, end_session};
use update_client::{ClientLists, FetchOptions};
use update_messages::{FetchResponse, read_response, write_request};
use wait_rules::WaitState;

/// What was answered in the session of a round, and when the session began and was closed.
#[derive(Drop)]
pub(crate) struct Asked {
    pub(crate) begun: Moment,
    pub(crate) closed: Moment,
    pub(crate) answer: Result<FetchResponse, RoundFault>,
}

// Reads the clock, and begins a session for this body at the first moment that is allowed.
fn begin_now<N: Line>(
    alloc: Global,
    waits: WaitState,
    target: &Target,
    body: &[u8],
    line: &mut N,
) -> Result<Opening, OutOfMemory>
    requires target { IsTarget target.now }
    ensures opened { IfOk result (λ opening. IsOpenRound waits target.now body.now
        (N.view line.old) (N.view line.new) opening) }
    ensures refused { OnErr result (HoldsRoundSession waits target.now body.now
        (N.view line.old).told (N.view line.new).told) }
    ensures faults { IfOk result (λ opening.
        CountsSendFault opening.sent (N.view line.old).told.faults (N.view line.new).told.faults) }
    ensures unmoved { OnErr result ((N.view line.new).told.faults ≡ (N.view line.old).told.faults) }
    ensures counted { (N.view line.old).told.faults ≤ (N.view line.new).told.faults }
    ensures same { (N.view line.new).objects ≡ (N.view line.old).objects }
{
    let read = line.now();
    begin_session(alloc, waits, read, target, Kind::Update, body, line)
}

// Reads a body that passed.
fn read_body(alloc: Global, body: &Bytes) -> Result<Result<FetchResponse, RoundFault>, OutOfMemory>
    ensures answer { IfOk result (λ answer. IsRoundAnswerOf (Ok body.now) answer) }
    ensures no_memory { IfOk result (λ answer.
        answer ≢ Err (RoundFault.Message MessageFault.OutOfMemory)) }
    ensures no_link { IfOk result (λ answer.
        answer ≢ Err (RoundFault.Exchange ExchangeFault.Link)) }
{
    match read_response(alloc, body.as_slice()) {
        Ok(message) => Ok(Ok(message)),
        Err(MessageFault::OutOfMemory) => Err(OutOfMemory),
        Err(fault) => Ok(Err(RoundFault::Message(fault))),
    }
}

// What the outcome of a session comes to.
fn answer_of(
    alloc: Global,
    outcome: Result<Bytes, ExchangeFault>,
) -> Result<Result<FetchResponse, RoundFault>, OutOfMemory>
    ensures answer { IfOk result (λ answer. IsRoundAnswerOf outcome answer) }
    ensures no_memory { IfOk result (λ answer.
        answer ≢ Err (RoundFault.Message MessageFault.OutOfMemory)) }
    ensures link { IfOk result (λ answer.
        (answer ≡ Err (RoundFault.Exchange ExchangeFault.Link)) ↔ (outcome ≡ Err ExchangeFault.Link)) }
    ensures had_body { OnErr result (outcome ≢ Err ExchangeFault.Link) }
{
    match outcome {
        Ok(body) => read_body(alloc, &body),
        Err(fault) => Ok(Err(RoundFault::Exchange(fault))),
    }
}

// The body of a request for updates of these lists.
fn body_for(
    alloc: Global,
    lists: &ClientLists,
    options: &FetchOptions,
) -> Result<Bytes, OutOfMemory>
    ensures { IfOk result (λ body. body ≡ round_body_asked lists.now options.now) }
{
    let request = lists.request(alloc, options)?;
    write_request(alloc, &request)
}

/// Begins a round of updates: asks for updates of all lists in one session, which begins at the first moment that is allowed, and
/// waits until then ("Request Frequency" of the Safe Browsing Update API, version 4). Nothing is received, and the session stays
/// open: `end_round` ends it. If memory is refused, no session is open.
pub fn begin_round<N: Line>(
    alloc: Global,
    lists: &ClientLists,
    waits: WaitState,
    options: &FetchOptions,
    target: &Target,
    line: &mut N,
) -> Result<Opening, OutOfMemory>
    requires target { IsTarget target.now }

    // The session of a round is open, which asks for these lists and begins when it may.
    ensures opened { IfOk result (λ opening. IsOpenRound waits target.now
        (round_body_asked lists.now options.now) (N.view line.old) (N.view line.new) opening) }
    ensures broken_off { OnErr result (BreaksOff lists.now waits options.now target.now
        (N.view line.old).told (N.view line.new).told) }

    // A fault of the link is counted, and nothing else is.
    ensures faults { IfOk result (λ opening.
        CountsSendFault opening.sent (N.view line.old).told.faults (N.view line.new).told.faults) }
    ensures unmoved { OnErr result ((N.view line.new).told.faults ≡ (N.view line.old).told.faults) }
    ensures counted { (N.view line.old).told.faults ≤ (N.view line.new).told.faults }

    // The line's objects are the same.
    ensures same { (N.view line.new).objects ≡ (N.view line.old).objects }
{
    let body = body_for(alloc, lists, options)?;
    begin_now(alloc, waits, target, body.as_slice(), line)
}

/// Ends the session of a round that was begun, and reads what came.
pub(crate) fn hear<N: Line>(
    alloc: Global,
    opening: Opening,
    need_digest: bool,
    line: &mut N,
) -> Result<Asked, OutOfMemory>
    requires last { (N.view line.old).last ≡ opening.begun.0 }
    ensures asked { (waits : WaitState) (target : Target) (body : List ℕ) (start : LineView)
        → IsOpenRound waits target body start (N.view line.old) opening
        → IfOk result (λ asked. HearsRound waits target body need_digest start.told (N.view line.new).told asked) }
    ensures refused { (waits : WaitState) (target : Target) (body : List ℕ) (start : LineView)
        → IsOpenRound waits target body start (N.view line.old) opening
        → OnErr result (HoldsRoundSession waits target body start.told (N.view line.new).told) }
    ensures no_memory { IfOk result (λ asked.
        asked.answer ≢ Err (RoundFault.Message MessageFault.OutOfMemory)) }
    ensures failed { (start : ℕ) → CountsSendFault opening.sent start (N.view line.old).told.faults
        → IfOk result (λ asked. asked.answer ≡ Err (RoundFault.Exchange ExchangeFault.Link)
        → Rose start (N.view line.new).told.faults) }
    ensures kept { (start : ℕ) → CountsSendFault opening.sent start (N.view line.old).told.faults
        → IfOk result (λ asked. asked.answer ≢ Err (RoundFault.Exchange ExchangeFault.Link)
        → (N.view line.new).told.faults ≡ start) }
    ensures unmoved { (start : ℕ) → CountsSendFault opening.sent start (N.view line.old).told.faults
        → OnErr result ((N.view line.new).told.faults ≡ start) }
    ensures counted { (N.view line.old).told.faults ≤ (N.view line.new).told.faults }
    ensures same { (N.view line.new).objects ≡ (N.view line.old).objects }
{
    let Talk {
        begun,
        closed,
        answer: outcome,
    } = end_session(alloc, opening, need_digest, line)?;
    let answer = answer_of(alloc, outcome)?;
    Ok(Asked {
        begun,
        closed,
        answer,
    })
}
