ghost use Rattle.std.specs.Prelude.{◌≡◌, ◌≢◌, ℕ, ◌≤◌, List, length, Some, None, Err, IfOk, OnOk, OnErr};
ghost use Rattle.hash_messages.specs.Messages.{most_prefixes};
ghost use Rattle.full_hash_cache.specs.Cache.{taken};
ghost use Rattle.http_edge.specs.Exchanges.{CountsSendFault, IsTarget};
ghost use Rattle.http_edge.specs.declared.messages.Target.{Target};
ghost use Rattle.sb_model.specs.declared.time.Moment.{Moment};
ghost use Rattle.client_line.specs.Lines.{LineView};
ghost use Rattle.timed_sessions.specs.Waiting.{HasSettled};
ghost use Rattle.find_sessions.specs.Asking.{find_bids, StopsAsking};
ghost use Rattle.url_checker.specs.Hits.{AreAskable, prefixes_hit};
ghost use Rattle.url_checker.specs.Resolving.{verdict_from, lists_hit, kept_by, open_cause, find_body_asked, makes_find};
ghost use Rattle.url_checker.specs.Looking.{unsafe_in, verdict_after, IsOpenFind};
ghost use Rattle.url_checker.specs.Resolved.{Resolves, StopsResolving, unresolved};
ghost use Rattle.url_checker.specs.Several.{asked_find, MakesFind};

use crate::asking::OpenFind;
use crate::looking::{Looked, Looks, look, unsafe_names};
use crate::naming::lists_of;
use crate::several::begin_find_for;
use crate::{Finding, Finds, Hit};
use client_line::Line;
use find_sessions::{AnsweredFind, end_find_session};
use full_hash_cache::FullHashCache;
use hash_messages::{FindRequest, FindResponse};
use http_edge::{ExchangeFault, Target};
use sb_model::{Bytes, ListName, Moment, OutOfMemory, Row, later};
use std::alloc::Global;
use timed_sessions::settle;
use verdict_report::{Cause, Verdict};
use wait_rules::WaitState;

/// The verdict where these lists are unsafe, and hits are open for this cause.
pub(crate) fn verdict_with(names: Row<ListName>, cause: Option<Cause>) -> Verdict
    ensures { result ≡ verdict_from names cause }
{
    if !names.is_empty() {
        return Verdict::Unsafe(names);
    }
    match cause {
        Some(cause) => Verdict::Undecided(cause),
        None => Verdict::Safe,
    }
}

// The verdict by a message, which is then kept for the lists of the hits that were asked. The message decides them whatever its times of
// keeping.
fn take_message(
    alloc: Global,
    looked: &[Looked],
    asked: &[Hit],
    request: &FindRequest,
    message: &FindResponse,
    closed: Moment,
    cache: &mut FullHashCache,
) -> Result<Verdict, OutOfMemory>
    ensures verdict { IfOk result (λ verdict.
        verdict ≡ verdict_from (lists_hit (unsafe_in (Some message.now) looked.now)) None) }
    ensures pairs { OnOk result (cache.new
        ≡ taken closed (lists_hit asked.now) request.now message.now cache.old) }
{
    let names = unsafe_names(alloc, looked, Some(message))?;
    let lists = lists_of(alloc, asked)?;
    cache.take(alloc, closed, lists.as_slice(), request, message)?;
    Ok(verdict_with(names, None))
}

// Ends a find after its session.
fn conclude<N: Line>(
    alloc: Global,
    looks: Looks,
    request: &FindRequest,
    answered: AnsweredFind,
    finds: &mut Finds,
    line: &mut N,
) -> Result<Verdict, OutOfMemory>
    ensures verdict { IfOk result (λ verdict.
        verdict ≡ verdict_after looks.told looks.looked answered.answer) }
    ensures pairs { OnOk result (finds.new.cache ≡ kept_by answered.closed (lists_hit looks.asked) request.now
        answered.answer finds.old.cache) }
    ensures settled { OnOk result (HasSettled finds.old.waits finds.new.waits answered.closed
        (find_bids answered.answer) (N.view line.old) (N.view line.new)) }
    ensures waits_kept { OnErr result (finds.new.waits ≡ finds.old.waits) }
    ensures untouched { OnErr result (N.view line.new ≡ N.view line.old) }
    ensures faults { (N.view line.new).told.faults ≡ (N.view line.old).told.faults }
    ensures same { (N.view line.new).objects ≡ (N.view line.old).objects }
    ensures had_message { OnErr result (answered.answer ≢ Err (Cause.Exchange ExchangeFault.Link)) }
{
    let Looks {
        looked,
        asked,
        told,
    } = looks;
    let AnsweredFind { closed, answer } = answered;
    match answer {
        Ok(message) => {
            let verdict = take_message(
                alloc,
                looked.as_slice(),
                asked.as_slice(),
                request,
                &message,
                closed,
                &mut finds.cache,
            )?;
            settle(&mut finds.waits, closed, Some(message.wait), line);
            Ok(verdict)
        }
        Err(cause) => {
            settle(&mut finds.waits, closed, None, line);
            Ok(verdict_with(told, Some(cause)))
        }
    }
}

/// Begins a find for the hits of which the server has to be asked, from a clock that was read already: its session begins at the first
/// moment that is allowed, and is waited for until then. Nothing is received, and the session stays open: `end_find` ends it. If memory
/// is refused, no session is open.
pub fn begin_find<N: Line>(
    alloc: Global,
    now: Moment,
    looks: &Looks,
    states: &Row<Bytes>,
    waits: WaitState,
    target: &Target,
    line: &mut N,
) -> Result<OpenFind, OutOfMemory>
    requires read { (N.view line.old).last ≡ now.0 }
    requires target { IsTarget target.now }
    requires few { length (prefixes_hit looks.now.asked) ≤ most_prefixes }

    // The session is open of a find that asks for these hits, and begins when it may. A fault of the link is counted.
    ensures opened { IfOk result (IsOpenFind states.now target.now now looks.now.asked waits
        (N.view line.old) (N.view line.new)) }
    ensures stopped { OnErr result (StopsAsking waits now target.now (find_body_asked states.now looks.now.asked)
        (N.view line.old).told (N.view line.new).told) }
    ensures unmoved { OnErr result ((N.view line.new).told.faults ≡ (N.view line.old).told.faults) }
    ensures counted { (N.view line.old).told.faults ≤ (N.view line.new).told.faults }

    // The line's objects are the same.
    ensures same { (N.view line.new).objects ≡ (N.view line.old).objects }
{
    begin_find_for(
        alloc,
        now,
        looks.asked.as_slice(),
        states,
        waits,
        target,
        line,
    )
}

/// Ends a find that `begin_find` left open, and says what comes of the finding. In between nothing of the line may be used, and the
/// state of waiting may not change. What is kept may: it is what the answer is put to.
pub fn end_find<N: Line>(
    alloc: Global,
    looks: Looks,
    find: OpenFind,
    finds: &mut Finds,
    need_digest: bool,
    line: &mut N,
) -> Result<Verdict, OutOfMemory>
    requires last { (N.view line.old).last ≡ find.opening.begun.0 }

    // If these hits were asked for with this state of waiting, one find was made, and this is what it left and came to.
    ensures made { (states : List (List ℕ)) (target : Target) (now : Moment) (start : LineView)
        → IsOpenFind states target now looks.asked finds.old.waits start (N.view line.old) find
        → IfOk result (MakesFind (asked_find states target need_digest now looks.asked) looks
        finds.old finds.new start.told (N.view line.new).told) }
    ensures stopped { (states : List (List ℕ)) (target : Target) (now : Moment) (start : LineView)
        → IsOpenFind states target now looks.asked finds.old.waits start (N.view line.old) find
        → OnErr result (StopsAsking finds.old.waits now target (find_body_asked states looks.asked)
        start.told (N.view line.new).told) }
    ensures waits_kept { OnErr result (finds.new.waits ≡ finds.old.waits) }
    ensures unmoved { (start : ℕ) → CountsSendFault find.opening.sent start (N.view line.old).told.faults
        → OnErr result ((N.view line.new).told.faults ≡ start) }
    ensures counted { (N.view line.old).told.faults ≤ (N.view line.new).told.faults }

    // The line's objects are the same.
    ensures same { (N.view line.new).objects ≡ (N.view line.old).objects }
{
    let OpenFind { request, opening } = find;
    let answered = end_find_session(alloc, opening, need_digest, line)?;
    conclude(alloc, looks, &request, answered, finds, line)
}

// Makes a find for the hits of which the server has to be asked, and ends it.
fn find<N: Line>(
    alloc: Global,
    now: Moment,
    looks: Looks,
    states: &Row<Bytes>,
    finds: &mut Finds,
    target: &Target,
    need_digest: bool,
    line: &mut N,
) -> Result<Verdict, OutOfMemory>
    requires read { (N.view line.old).last ≡ now.0 }
    requires target { IsTarget target.now }
    requires few { length (prefixes_hit looks.asked) ≤ most_prefixes }
    ensures made { IfOk result (MakesFind (asked_find states.now target.now need_digest now looks.asked) looks
        finds.old finds.new (N.view line.old).told (N.view line.new).told) }
    ensures stopped { OnErr result (StopsAsking finds.old.waits now target.now (find_body_asked states.now looks.asked)
        (N.view line.old).told (N.view line.new).told) }
    ensures waits_kept { OnErr result (finds.new.waits ≡ finds.old.waits) }
    ensures unmoved { OnErr result ((N.view line.new).told.faults ≡ (N.view line.old).told.faults) }
    ensures counted { (N.view line.old).told.faults ≤ (N.view line.new).told.faults }
    ensures same { (N.view line.new).objects ≡ (N.view line.old).objects }
{
    let find = begin_find(alloc, now, &looks, states, finds.waits, target, line)?;
    end_find(alloc, looks, find, finds, need_digest, line)
}

// Whether a find is made for these hits.
fn is_made(waits: WaitState, patience: u64, now: Moment, asked: &[Hit]) -> bool
    ensures { result ≡ makes_find waits patience now asked.now }
{
    !asked.is_empty() && waits.allowed_at.0 <= later(now, patience).0
}

// The verdict where no find is made. Hits of which the server has to be asked are open until the moment at which one is allowed.
fn unasked(looks: Looks, allowed_at: Moment) -> Verdict
    ensures { result ≡ verdict_from looks.told (open_cause (Err (Cause.NotBefore allowed_at)) looks.asked) }
{
    if looks.asked.is_empty() {
        return verdict_with(looks.told, None);
    }
    verdict_with(looks.told, Some(Cause::NotBefore(allowed_at)))
}

/// Resolves the hits of a finding: by the kept answers where they suffice, and else by one find for the others, where the moment at
/// which a find is allowed is at most `patience` milliseconds away.
///
/// The clock is read once, before anything. An answer got here decides the hits that it was asked for, whatever its times of keeping, and is
/// then kept. After an `Err` the state of waiting is as before; the kept answers may have moved on.
pub fn resolve<N: Line>(
    alloc: Global,
    finding: &Finding,
    states: &Row<Bytes>,
    finds: &mut Finds,
    patience: u64,
    target: &Target,
    need_digest: bool,
    line: &mut N,
) -> Result<Verdict, OutOfMemory>
    requires askable { AreAskable finding.now.hits }
    requires target { IsTarget target.now }

    // The hits were resolved, and this is what it left and came to.
    ensures resolves { IfOk result (Resolves (unresolved states.now finding.now.hits) patience target.now need_digest
        finds.old finds.new (N.view line.old).told (N.view line.new).told) }

    // Want of memory breaks it off.
    ensures stopped { OnErr result (StopsResolving (unresolved states.now finding.now.hits) target.now finds.old
        (N.view line.old).told (N.view line.new).told) }
    ensures waits_kept { OnErr result (finds.new.waits ≡ finds.old.waits) }
    ensures unmoved { OnErr result ((N.view line.new).told.faults ≡ (N.view line.old).told.faults) }
    ensures counted { (N.view line.old).told.faults ≤ (N.view line.new).told.faults }
    ensures same { (N.view line.new).objects ≡ (N.view line.old).objects }
{
    let now = line.now();
    let looks = look(alloc, now, finding.hits.as_slice(), &mut finds.cache)?;
    if is_made(finds.waits, patience, now, looks.asked.as_slice()) {
        return find(alloc, now, looks, states, finds, target, need_digest, line);
    }
    Ok(unasked(looks, finds.waits.allowed_at))
}
