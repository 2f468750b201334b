ghost use Rattle.std.specs.Prelude.{◌≡◌, ◌≢◌, ℕ, ◌≤◌, Some, Ok, Err, IfOk, OnOk, OnErr};
ghost use Rattle.sb_outside.specs.Outside.{Rose};
ghost use Rattle.update_client.specs.Step.{after_updates, results_of};
ghost use Rattle.update_client.specs.declared.options.FetchOptions.{FetchOptions};
ghost use Rattle.http_edge.specs.Exchanges.{CountsSendFault, IsTarget};
ghost use Rattle.http_edge.specs.declared.messages.Target.{Target};
ghost use Rattle.client_line.specs.Lines.{LineView};
ghost use Rattle.timed_sessions.specs.Waiting.{HasSettled};
ghost use Rattle.sb_round.specs.Round.{round_state, round_body_asked, named_results, taken_from, IsOpenRound, HoldsRoundSession, MakesRound, BreaksOff};
ghost use Rattle.sb_round.specs.Taking.{HasTaken};

use crate::asking::{Asked, begin_round, hear};
use crate::rounds::{RoundEnd, RoundFault, Taken};
use crate::taking::take_message;
use client_line::Line;
use http_edge::{ExchangeFault, Target};
use sb_json::MessageFault;
use sb_model::{Moment, OutOfMemory, Row};
use std::alloc::Global;
use timed_sessions::{Opening, settle};
use update_client::{ClientLists, FetchOptions};
use update_messages::FetchResponse;
use wait_rules::WaitState;

// Takes the message of a session that was closed at this moment.
fn succeed<N: Line>(
    alloc: Global,
    lists: &mut ClientLists,
    waits: &mut WaitState,
    closed: Moment,
    message: &FetchResponse,
    line: &mut N,
) -> Result<Row<Taken>, OutOfMemory>
    ensures lists { OnOk result (lists.new ≡ after_updates lists.old message.now.items) }
    ensures taken { IfOk result (λ taken.
        taken ≡ named_results message.now.items (results_of lists.old message.now.items)) }
    ensures settled { OnOk result (HasSettled waits.old waits.new closed (Some message.now.wait)
        (N.view line.old) (N.view line.new)) }
    ensures lists_kept { OnErr result (lists.new ≡ lists.old) }
    ensures waits_kept { OnErr result (waits.new ≡ waits.old) }
    ensures untouched { OnErr result (N.view line.new ≡ N.view line.old) }
    ensures faults { (N.view line.new).told.faults ≡ (N.view line.old).told.faults }
    ensures same { (N.view line.new).objects ≡ (N.view line.old).objects }
{
    let taken = take_message(alloc, lists, message)?;
    settle(waits, closed, Some(message.wait), line);
    Ok(taken)
}

// Takes the answer of a round after its session.
fn take_answer<N: Line>(
    alloc: Global,
    lists: &mut ClientLists,
    waits: &mut WaitState,
    asked: Asked,
    line: &mut N,
) -> Result<RoundEnd, OutOfMemory>
    ensures taken { IfOk result (λ end. HasTaken (round_state lists.old waits.old) (round_state lists.new waits.new)
        (N.view line.old) (N.view line.new) asked end) }
    ensures lists_kept { OnErr result (lists.new ≡ lists.old) }
    ensures waits_kept { OnErr result (waits.new ≡ waits.old) }
    ensures untouched { OnErr result (N.view line.new ≡ N.view line.old) }
    ensures faults { (N.view line.new).told.faults ≡ (N.view line.old).told.faults }
    ensures same { (N.view line.new).objects ≡ (N.view line.old).objects }
    ensures had_message { OnErr result (asked.answer ≢ Err (RoundFault.Exchange ExchangeFault.Link)) }
{
    let Asked {
        begun,
        closed,
        answer,
    } = asked;
    match answer {
        Ok(message) => {
            let taken = succeed(alloc, lists, waits, closed, &message, line)?;
            Ok(RoundEnd {
                begun,
                taken: Ok(taken),
            })
        }
        Err(fault) => {
            settle(waits, closed, None, line);
            Ok(RoundEnd {
                begun,
                taken: Err(fault),
            })
        }
    }
}

/// Ends a round that `begin_round` left open, and takes the answer. In between nothing of the line may be used, and neither the
/// lists nor the state of waiting change.
///
/// A message is a success, with the wait that it bids. Anything else is a failure with one drawn word, and
/// changes no list. After an `Err` the lists and the state of waiting are as before.
pub fn end_round<N: Line>(
    alloc: Global,
    lists: &mut ClientLists,
    waits: &mut WaitState,
    opening: Opening,
    need_digest: bool,
    line: &mut N,
) -> Result<RoundEnd, OutOfMemory>
    requires last { (N.view line.old).last ≡ opening.begun.0 }

    // If these lists were asked for with this state of waiting, one round was made, and this is what it left.
    ensures made { (options : FetchOptions) (target : Target) (start : LineView)
        → IsOpenRound waits.old target (round_body_asked lists.old options) start (N.view line.old) opening
        → IfOk result (λ end. MakesRound (round_state lists.old waits.old) (round_state lists.new waits.new)
        options target need_digest start.told (N.view line.new).told end) }
    ensures broken_off { (options : FetchOptions) (target : Target) (start : LineView)
        → IsOpenRound waits.old target (round_body_asked lists.old options) start (N.view line.old) opening
        → OnErr result (HoldsRoundSession waits.old target (round_body_asked lists.old options)
        start.told (N.view line.new).told) }

    // Want of memory is no cause of a failed round. It breaks a round off.
    ensures no_memory { IfOk result (λ end.
        end.taken ≢ Err (RoundFault.Message MessageFault.OutOfMemory)) }
    ensures lists_kept { OnErr result (lists.new ≡ lists.old) }
    ensures waits_kept { OnErr result (waits.new ≡ waits.old) }

    // Over both parts, from a count at the start, a fault of the link is counted, and nothing else is.
    ensures failed { (start : ℕ) → CountsSendFault opening.sent start (N.view line.old).told.faults
        → IfOk result (λ end. end.taken ≡ Err (RoundFault.Exchange ExchangeFault.Link)
        → Rose start (N.view line.new).told.faults) }
    ensures kept { (start : ℕ) → CountsSendFault opening.sent start (N.view line.old).told.faults
        → IfOk result (λ end. end.taken ≢ Err (RoundFault.Exchange ExchangeFault.Link)
        → (N.view line.new).told.faults ≡ start) }
    ensures unmoved { (start : ℕ) → CountsSendFault opening.sent start (N.view line.old).told.faults
        → OnErr result ((N.view line.new).told.faults ≡ start) }
    ensures counted { (N.view line.old).told.faults ≤ (N.view line.new).told.faults }

    // The line's objects are the same.
    ensures same { (N.view line.new).objects ≡ (N.view line.old).objects }
{
    let asked = hear(alloc, opening, need_digest, line)?;
    take_answer(alloc, lists, waits, asked, line)
}

/// Makes one round of updates: waits until the moment that is allowed, asks for updates of all lists in one
/// session, and takes the answer ("Request Frequency" of the Safe Browsing Update API, version 4).
///
/// A message is a success, with the wait that it bids. Anything else is a failure with one drawn word, and
/// changes no list. After an `Err` the lists and the state of waiting are as before.
pub fn run_round<N: Line>(
    alloc: Global,
    lists: &mut ClientLists,
    waits: &mut WaitState,
    options: &FetchOptions,
    target: &Target,
    need_digest: bool,
    line: &mut N,
) -> Result<RoundEnd, OutOfMemory>
    requires target { IsTarget target.now }

    // One round was made, and this is what it left.
    ensures made { IfOk result (λ end. MakesRound (round_state lists.old waits.old) (round_state lists.new waits.new)
        options.now target.now need_digest (N.view line.old).told (N.view line.new).told end) }

    // Want of memory is no cause of a failed round. It breaks a round off.
    ensures no_memory { IfOk result (λ end.
        end.taken ≢ Err (RoundFault.Message MessageFault.OutOfMemory)) }
    ensures broken_off { OnErr result (BreaksOff lists.old waits.old options.now target.now
        (N.view line.old).told (N.view line.new).told) }
    ensures lists_kept { OnErr result (lists.new ≡ lists.old) }
    ensures waits_kept { OnErr result (waits.new ≡ waits.old) }

    // A fault of the link is counted, and nothing else is.
    ensures failed { IfOk result (λ end. end.taken ≡ Err (RoundFault.Exchange ExchangeFault.Link)
        → Rose (N.view line.old).told.faults (N.view line.new).told.faults) }
    ensures kept { IfOk result (λ end. end.taken ≢ Err (RoundFault.Exchange ExchangeFault.Link)
        → (N.view line.new).told.faults ≡ (N.view line.old).told.faults) }
    ensures unmoved { OnErr result ((N.view line.new).told.faults ≡ (N.view line.old).told.faults) }
    ensures counted { (N.view line.old).told.faults ≤ (N.view line.new).told.faults }

    // The line's objects are the same.
    ensures same { (N.view line.new).objects ≡ (N.view line.old).objects }
{
    let opening = begin_round(alloc, lists, *waits, options, target, line)?;
    end_round(alloc, lists, waits, opening, need_digest, line)
}
