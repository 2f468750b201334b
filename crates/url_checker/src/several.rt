ghost use Rattle.std.specs.Prelude.{◌≡◌, ◌≢◌, ℕ, ◌<◌, ◌≤◌, ◌++◌, List, [], ◌∷◌, true, length, map, All, Contains, Err, IfOk, OnErr, OnOk};
ghost use Rattle.std.specs.Option.{option_copied};
ghost use Rattle.sb_model.specs.Prefixes.{IsRising, set_of};
ghost use Rattle.sb_model.specs.declared.time.Moment.{Moment};
ghost use Rattle.hash_messages.specs.Messages.{most_prefixes};
ghost use Rattle.full_hash_cache.specs.Cache.{Pairs};
ghost use Rattle.http_edge.specs.Exchanges.{CountsSendFault, IsTarget};
ghost use Rattle.http_edge.specs.declared.messages.Target.{Target};
ghost use Rattle.client_line.specs.Lines.{LineView};
ghost use Rattle.find_sessions.specs.Asking.{StopsAsking};
ghost use Rattle.url_checker.specs.Hits.{prefixes_hit};
ghost use Rattle.url_checker.specs.Resolving.{find_body_asked, open_cause, find_asked, kept_by, lists_hit, message_in, verdict_by};
ghost use Rattle.url_checker.specs.Looking.{IsOpenFind};
ghost use Rattle.url_checker.specs.Several.{all_asked, asked_find, AreTogether, IsLookOf, MakesFindFor};
ghost use Rattle.url_checker.specs.declared.findings.Hit.{Hit};
ghost use Rattle.url_checker.specs.declared.looking.Looks.{Looks};

use crate::asking::OpenFind;
use crate::looking::{Looks, unsafe_names};
use crate::naming::lists_of;
use crate::request::{find_for, push_prefixes, set_members};
use crate::resolving::verdict_with;
use crate::{Finds, Hit};
use client_line::Line;
use find_sessions::{AnsweredFind, begin_find_session, bids, end_find_session};
use full_hash_cache::FullHashCache;
use hash_messages::{FindRequest, FindResponse};
use http_edge::{ExchangeFault, Target};
use prefix_set::{PrefixSet, sets_go_by_members};
use sb_model::{Bytes, Moment, OutOfMemory, Row};
use std::alloc::Global;
use timed_sessions::settle;
use verdict_report::{Cause, Verdict};
use wait_rules::WaitState;

/// The most prefixes of one request.
const MOST_PREFIXES: u32 = 1_024;

/// The open hits of several findings, of which one find may ask.
#[derive(Debug, Drop)]
pub struct Together {
    /// How many of the first looks these are.
    pub count: usize,
    /// Their open hits, in order.
    pub asked: Row<Hit>,
}

// Whether a set has the prefix of each hit.
fn has_each(set: &PrefixSet, hits: &[Hit]) -> bool
    ensures { result ≡ true → All (λ hit. Contains set.now hit.prefix) hits.now }
{
    for hit in hits {
        if !set.contains(&hit.prefix) {
            return false;
        }
    }
    true
}

// The set of the members of a set and of the prefixes of some hits.
fn merged(alloc: Global, set: &PrefixSet, hits: &[Hit]) -> Result<PrefixSet, OutOfMemory>
    ensures { IfOk result (λ more. more ≡ set_of (set.now ++ map (λ hit. hit.prefix) hits.now)) }
{
    let mut prefixes = set_members(alloc, set)?;
    push_prefixes(&mut prefixes, hits)?;
    match PrefixSet::from_prefixes(alloc, prefixes.as_slice()) {
        Ok(more) => Ok(more),
        Err(_) => Err(OutOfMemory),
    }
}

// The same, which is the set itself if it has all of them. So it is made anew at most once for each of its members.
fn joined(alloc: Global, set: PrefixSet, hits: &[Hit]) -> Result<PrefixSet, OutOfMemory>
    requires { IsRising set }
    ensures { IfOk result (λ more. more ≡ set_of (set ++ map (λ hit. hit.prefix) hits.now)) }
{
    sets_go_by_members();
    if has_each(&set, hits) {
        return Ok(set);
    }
    merged(alloc, &set, hits)
}

/// The open hits of as many of the first looks as have at most 1,024 prefixes together, so of all that one find may ask for. It takes
/// at least the first look, of which one find may ask.
pub fn hits_together(alloc: Global, looks: &[Looks]) -> Result<Together, OutOfMemory>
    ensures { IfOk result (AreTogether looks.now) }
{
    sets_go_by_members();
    let mut set = PrefixSet::empty(alloc);
    let mut asked = Row::new(alloc);
    for count in 0..looks.len() {
        let hits = looks[count].asked.as_slice();
        let more = joined(alloc, set, hits)?;
        if more.len() > MOST_PREFIXES {
            return Ok(Together { count, asked });
        }
        asked.append(hits)?;
        set = more;
    }
    Ok(Together {
        count: looks.len(),
        asked,
    })
}

/// Begins a find for some hits, as `begin_find` begins one for those of a single look.
pub fn begin_find_for<N: Line>(
    alloc: Global,
    now: Moment,
    asked: &[Hit],
    states: &Row<Bytes>,
    waits: WaitState,
    target: &Target,
    line: &mut N,
) -> Result<OpenFind, OutOfMemory>
    requires read { (N.view line.old).last ≡ now.0 }
    requires target { IsTarget target.now }
    requires few { length (prefixes_hit asked.now) ≤ most_prefixes }

    // The session is open of a find that asks for these hits, and begins when it may. A fault of the link is counted.
    ensures opened { IfOk result (IsOpenFind states.now target.now now asked.now waits
        (N.view line.old) (N.view line.new)) }
    ensures stopped { OnErr result (StopsAsking waits now target.now (find_body_asked states.now asked.now)
        (N.view line.old).told (N.view line.new).told) }
    ensures unmoved { OnErr result ((N.view line.new).told.faults ≡ (N.view line.old).told.faults) }
    ensures counted { (N.view line.old).told.faults ≤ (N.view line.new).told.faults }

    // The line's objects are the same.
    ensures same { (N.view line.new).objects ≡ (N.view line.old).objects }
{
    let request = find_for(alloc, states, asked)?;
    let opening = begin_find_session(alloc, waits, now, target, &request, line)?;
    Ok(OpenFind { request, opening })
}

// Keeps an answer for the lists of the hits that were asked, if there is one.
fn keep_answer(
    alloc: Global,
    asked: &[Hit],
    request: &FindRequest,
    answered: &AnsweredFind,
    cache: &mut FullHashCache,
) -> Result<(), OutOfMemory>
    ensures pairs { OnOk result (cache.new ≡ kept_by answered.now.closed (lists_hit asked.now) request.now answered.now.answer cache.old) }
    ensures had_message { OnErr result (answered.now.answer ≢ Err (Cause.Exchange ExchangeFault.Link)) }
{
    let Ok(message) = &answered.answer else {
        return Ok(());
    };
    let lists = lists_of(alloc, asked)?;
    cache.take(alloc, answered.closed, lists.as_slice(), request, message)?;
    Ok(())
}

/// Ends a find that `begin_find_for` left open, and gives its answer, which `verdict_by_answer` reads for each look. In between
/// nothing of the line may be used, and the state of waiting may not change.
pub fn end_find_for<N: Line>(
    alloc: Global,
    asked: &[Hit],
    find: OpenFind,
    finds: &mut Finds,
    need_digest: bool,
    line: &mut N,
) -> Result<Result<FindResponse, Cause>, OutOfMemory>
    requires last { (N.view line.old).last ≡ find.opening.begun.0 }

    // If these hits were asked for with this state of waiting, one find was made, and this is what it left and came to.
    ensures made { (states : List (List ℕ)) (target : Target) (now : Moment) (start : LineView)
        → IsOpenFind states target now asked.now finds.old.waits start (N.view line.old) find
        → IfOk result (MakesFindFor (asked_find states target need_digest now asked.now)
        finds.old finds.new start.told (N.view line.new).told) }
    ensures stopped { (states : List (List ℕ)) (target : Target) (now : Moment) (start : LineView)
        → IsOpenFind states target now asked.now finds.old.waits start (N.view line.old) find
        → OnErr result (StopsAsking finds.old.waits now target (find_body_asked states asked.now)
        start.told (N.view line.new).told) }
    ensures waits_kept { OnErr result (finds.new.waits ≡ finds.old.waits) }
    ensures unmoved { (start : ℕ) → CountsSendFault find.opening.sent start (N.view line.old).told.faults
        → OnErr result ((N.view line.new).told.faults ≡ start) }
    ensures counted { (N.view line.old).told.faults ≤ (N.view line.new).told.faults }

    // The line's objects are the same.
    ensures same { (N.view line.new).objects ≡ (N.view line.old).objects }
{
    let OpenFind { request, opening } = find;
    let answered = end_find_session(alloc, opening, need_digest, line)?;
    keep_answer(alloc, asked, &request, &answered, &mut finds.cache)?;
    settle(
        &mut finds.waits,
        answered.closed,
        bids(&answered.answer),
        line,
    );
    Ok(answered.answer)
}

// A cause once more.
fn copied(cause: &Cause) -> Cause
    ensures { result ≡ cause.now }
{
    match cause {
        Cause::NotBefore(moment) => Cause::NotBefore(*moment),
        Cause::Exchange(fault) => Cause::Exchange(*fault),
        Cause::Message(fault) => Cause::Message(*fault),
    }
}

// Why open hits are open still after an answer, if there are any.
fn cause_after(answer: &Result<FindResponse, Cause>, asked: &[Hit]) -> Option<Cause>
    ensures { result ≡ open_cause answer.now asked.now }
{
    match answer {
        Ok(_) => None,
        Err(_) if asked.is_empty() => None,
        Err(cause) => Some(copied(cause)),
    }
}

// The message of an answer, if it has one.
fn message_of(answer: &Result<FindResponse, Cause>) -> Option<&FindResponse>
    ensures { option_copied result ≡ message_in answer.now }
{
    match answer {
        Ok(message) => Some(message),
        Err(_) => None,
    }
}

/// The verdict of a look by the answer of a find that asked for all its open hits, and perhaps for others.
pub fn verdict_by_answer(
    alloc: Global,
    look: &Looks,
    answer: &Result<FindResponse, Cause>,
) -> Result<Verdict, OutOfMemory>
    ensures { (pairs : Pairs) (now : Moment) (hits : List Hit) → IsLookOf pairs now hits look.now
        → IfOk result (λ verdict. verdict ≡ verdict_by pairs now answer.now hits) }
{
    let names = unsafe_names(alloc, look.looked.as_slice(), message_of(answer))?;
    let cause = cause_after(answer, look.asked.as_slice());
    Ok(verdict_with(names, cause))
}

/// The law of a find for several looks: that for one of them is its case, and it takes the first look of which one find may ask.
pub fn finds_for_several_begin_with_one()
    ensures one { (states : List (List ℕ)) (look : Looks) → find_asked states (all_asked (look ∷ [])) ≡ find_asked states look.asked }
    ensures first { (looks : List Looks) (look : Looks) (together : Together) → length (prefixes_hit look.asked) ≤ most_prefixes
        → AreTogether (look ∷ looks) together → 0 < together.count }
{}
