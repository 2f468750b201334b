ghost use Rattle.std.specs.Prelude.{◌≡◌, IfOk, OnErr};
ghost use Rattle.client_line.specs.Lines.{LineView};
ghost use Rattle.client_rounds.specs.Rounds.{HasClientRoundBegun};
ghost use Rattle.sb_round.specs.Round.{round_body_asked, round_state, HoldsRoundSession, IsOpenRound, MakesRound};

use client_line::Line;
use sb_model::OutOfMemory;
use sb_round::{RoundEnd, end_round};
use std::alloc::Global;
use timed_sessions::Opening;
use update_client::ClientLists;
use update_run::Plan;
use wait_rules::WaitState;

/// Ends the session of a round of this plan, and takes what it brought into the lists and the state of waiting.
pub(crate) fn take_answer<N: Line>(
    alloc: Global,
    plan: &Plan,
    opening: Opening,
    lists: &mut ClientLists,
    waits: &mut WaitState,
    line: &mut N,
) -> Result<RoundEnd, OutOfMemory>
    requires session { HasClientRoundBegun plan.now (round_state lists.old waits.old) (N.view line.old) opening }
    ensures made { (before : LineView) → IsOpenRound waits.old plan.now.target (round_body_asked lists.old plan.now.options) before (N.view line.old) opening
        → IfOk result (λ end. MakesRound (round_state lists.old waits.old) (round_state lists.new waits.new)
        plan.now.options plan.now.target plan.now.need_digest before.told (N.view line.new).told end) }
    ensures broken_off { (before : LineView) → IsOpenRound waits.old plan.now.target (round_body_asked lists.old plan.now.options) before (N.view line.old) opening
        → OnErr result (HoldsRoundSession waits.old plan.now.target (round_body_asked lists.old plan.now.options)
        before.told (N.view line.new).told) }
    ensures lists_kept { OnErr result (lists.new ≡ lists.old) }
    ensures waits_kept { OnErr result (waits.new ≡ waits.old) }
    ensures same { (N.view line.new).objects ≡ (N.view line.old).objects }
{
    end_round(alloc, lists, waits, opening, plan.need_digest, line)
}
