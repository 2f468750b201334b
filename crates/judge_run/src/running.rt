ghost use Rattle.std.specs.Prelude.{◌≡◌, ◌≢◌, ◌≤◌, length, IsErrOf, Err};
ghost use Rattle.http_edge.specs.Exchanges.{IsTarget};
ghost use Rattle.sb_outside.specs.Outside.{Rose};
ghost use Rattle.update_client.specs.Held.{most_lists};
ghost use Rattle.update_run.specs.Run.{seen};
ghost use Rattle.update_run.specs.Saved.{keeping};
ghost use Rattle.judge_run.specs.Run.{judging, EndsJudging};

use crate::alone::judge_alone;
use crate::beginning::begin;
use crate::beside::judge_beside;
use crate::{JudgePlan, JudgeStop, Judgement};
use client_line::Line;
use sb_outside::{Gate, Keeper, Sink, Source};
use std::alloc::Global;
use std::sync::Wait;
use std::thread::Threads;

/// Judges the URLs of an input, one a line: reads it whole, loads the lists that the keeper keeps, and publishes them as publication 0. It
/// checks each URL on one of the workers' threads, while this thread makes the rounds of the plan and publishes what each of them installed,
/// once that is saved. Then each URL is resolved in order by the publication that its check names: the server is asked where a hit has to be
/// asked for, with the tokens of that publication. At the end a line for each URL and a summary are written. Answers what the URLs come to
/// together, and whether a round brought no message or an update that was refused.
///
/// A text that is kept and is no store is told before anything is waited for, and the run begins with empty lists. The lines of the rounds
/// stand before the report. A find that the link or the server fails leaves its URL undecided, and the run goes on. With one worker and no
/// round no thread is made, and each URL is looked up when it is judged; what is written is the same for any number of workers where there
/// is no round.
///
/// # Errors
///
/// `ReadFault` and `PastLimits` where the input is not read to its end, `KeepFault` where the keeper fails, `WriteFault` where the output
/// does, and `OutOfMemory`. The threads have ended then.
pub fn judge<R: Threads + Wait + Sync, S: Source, O: Sink, K: Keeper, N: Line, G: Gate + Sync>(
    rt: &R,
    alloc: Global,
    plan: &JudgePlan,
    input: &mut S,
    out: &mut O,
    keep: &mut K,
    line: &mut N,
    gate: &G,
) -> Result<Judgement, JudgeStop>
    requires workers { (1 ≤ plan.now.workers) × (plan.now.workers ≤ 16) }
    requires few { length plan.now.updates.names ≤ most_lists }
    requires target { IsTarget plan.now.updates.target }

    // It came to its end, or stopped for its reason.
    ensures ends { EndsJudging plan.now result
        (judging (S.left input.old) (seen (N.view line.old).told (keeping (K.handed keep.old) (K.kept keep.old)) (O.contents out.old)))
        (judging (S.left input.new) (seen (N.view line.new).told (keeping (K.handed keep.new) (K.kept keep.new)) (O.contents out.new))) }

    // A fault is counted, and nothing else is.
    ensures input_failed { IsErrOf result JudgeStop.ReadFault → Rose (S.faults input.old) (S.faults input.new) }
    ensures input_kept { result ≢ Err JudgeStop.ReadFault → S.faults input.new ≡ S.faults input.old }
    ensures output_failed { IsErrOf result JudgeStop.WriteFault → Rose (O.faults out.old) (O.faults out.new) }
    ensures output_kept { result ≢ Err JudgeStop.WriteFault → O.faults out.new ≡ O.faults out.old }
    ensures keeper_failed { IsErrOf result JudgeStop.KeepFault → Rose (K.faults keep.old) (K.faults keep.new) }
    ensures keeper_kept { result ≢ Err JudgeStop.KeepFault → K.faults keep.new ≡ K.faults keep.old }

    // Where the input was not read, the output is as it was, and where the keeper failed a run that has no round to make.
    ensures read_unwritten { IsErrOf result JudgeStop.ReadFault → out.new ≡ out.old }
    ensures past_unwritten { IsErrOf result JudgeStop.PastLimits → out.new ≡ out.old }
    ensures keeper_unwritten { plan.now.updates.rounds ≡ 0 → IsErrOf result JudgeStop.KeepFault → out.new ≡ out.old }

    // The line's objects are the same.
    ensures same { (N.view line.new).objects ≡ (N.view line.old).objects }
{
    match begin(alloc, plan.updates.names.as_slice(), input, keep, line) {
        Ok(begun) if plan.updates.rounds == 0 && plan.workers == 1 => {
            judge_alone(alloc, plan, begun, out, line)
        }
        Ok(begun) => judge_beside(rt, alloc, plan, begun, out, keep, line, gate),
        Err(stop) => Err(stop),
    }
}
