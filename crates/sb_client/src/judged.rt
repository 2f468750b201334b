ghost use Rattle.std.specs.Prelude.{◌≡◌, ◌⊎◌, ◌≤◌, length};
ghost use Rattle.http_edge.specs.Exchanges.{IsTarget};
ghost use Rattle.update_client.specs.Held.{most_lists};
ghost use Rattle.update_run.specs.Run.{seen};
ghost use Rattle.update_run.specs.Saved.{keeping};
ghost use Rattle.judge_run.specs.Run.{judging};
ghost use Rattle.sb_client.specs.Command.{AreWorkers};
ghost use Rattle.sb_client.specs.Ending.{judge_status_after, judge_status_of, outcome_status};
ghost use Rattle.sb_client.specs.Runs.{IsFaultOfStatus, IsJudgeRun};

use client_line::Line;
use judge_run::{JudgePlan, JudgeStop, Judgement, Outcome, judge};
use sb_outside::{Gate, Keeper, Sink, Source};
use std::alloc::Global;
use std::sync::Wait;
use std::thread::Threads;

/// The exit status of what URLs come to.
fn status_of_outcome(outcome: Outcome) -> u8
    ensures { result ≡ outcome_status outcome }
{
    match outcome {
        Outcome::Safe => 0,
        Outcome::Unsafe => 20,
        Outcome::Open => 21,
    }
}

/// The exit status of a judging's stop.
fn status_of_judge_stop(stop: JudgeStop) -> u8
    ensures { result ≡ judge_status_after stop }
{
    match stop {
        JudgeStop::ReadFault => 2,
        JudgeStop::PastLimits => 6,
        JudgeStop::WriteFault => 3,
        JudgeStop::KeepFault => 4,
        JudgeStop::OutOfMemory => 8,
    }
}

/// The exit status of a run that judges URLs.
fn judge_exit_status(ending: Result<Judgement, JudgeStop>) -> u8
    ensures { result ≡ judge_status_of ending }
{
    match ending {
        Ok(judgement) if judgement.refused => 5,
        Ok(judgement) => status_of_outcome(judgement.outcome),
        Err(stop) => status_of_judge_stop(stop),
    }
}

/// Judges the URLs of the input, and answers the exit status.
pub(crate) fn judge_status<
    R: Threads + Wait + Sync,
    S: Source,
    O: Sink,
    K: Keeper,
    N: Line,
    G: Gate + Sync,
>(
    rt: &R,
    alloc: Global,
    plan: &JudgePlan,
    input: &mut S,
    out: &mut O,
    keep: &mut K,
    line: &mut N,
    gate: &G,
) -> u8
    requires few { length plan.now.updates.names ≤ most_lists }
    requires target { IsTarget plan.now.updates.target }
    requires workers { AreWorkers plan.now.workers }
    ensures judges { IsJudgeRun plan.now result
        (judging (S.left input.old) (seen (N.view line.old).told (keeping (K.handed keep.old) (K.kept keep.old)) (O.contents out.old)))
        (judging (S.left input.new) (seen (N.view line.new).told (keeping (K.handed keep.new) (K.kept keep.new)) (O.contents out.new))) }
    ensures unwritten { (result ≡ 2) ⊎ (result ≡ 6) → out.new ≡ out.old }
    ensures read { IsFaultOfStatus 2 result (S.faults input.old) (S.faults input.new) }
    ensures written { IsFaultOfStatus 3 result (O.faults out.old) (O.faults out.new) }
    ensures saved { IsFaultOfStatus 4 result (K.faults keep.old) (K.faults keep.new) }
    ensures same { (N.view line.new).objects ≡ (N.view line.old).objects }
{
    judge_exit_status(judge(rt, alloc, plan, input, out, keep, line, gate))
}
