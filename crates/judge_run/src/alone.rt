ghost use Rattle.std.specs.Prelude.{◌≡◌, ◌≢◌, ◌≤◌, ℕ, List, [], ◌∷◌, IfOk, OnErr, IsErrOf, Err};
ghost use Rattle.http_edge.specs.Exchanges.{IsTarget};
ghost use Rattle.input_lines.specs.Lines.{lines_of};
ghost use Rattle.sb_outside.specs.Outside.{Rose};
ghost use Rattle.update_client.specs.Held.{tokens_of};
ghost use Rattle.update_run.specs.Run.{seen};
ghost use Rattle.update_run.specs.Saved.{Keeping};
ghost use Rattle.url_checker.specs.Hits.{MarksAll};
ghost use Rattle.judge_run.specs.Judging.{BreaksOffLine, first_finds, JudgesLine, StopsJudging};
ghost use Rattle.judge_run.specs.Reporting.{HasReported, ReportsLines};
ghost use Rattle.judge_run.specs.Run.{EndsUpdating};

use crate::beginning::Begun;
use crate::finding::resolve_finding;
use crate::judgement::outcome_of;
use crate::report::Report;
use crate::reporting::print_report;
use crate::{JudgePlan, JudgeStop, Judgement};
use client_line::Line;
use input_lines::first_line;
use sb_model::{Bytes, OutOfMemory, Row};
use sb_outside::{Failed, Sink, flush};
use sb_round::rounds_go_on;
use std::alloc::Global;
use timed_sessions::traces_go_on;
use update_client::ClientLists;
use url_checker::{CheckFault, Finds, Sizes, local_check_with, sizes_on};
use verdict_report::Judged;
use wait_rules::WaitState;

// Looks the URL of a line up, and resolves what is found.
fn look_up<N: Line>(
    alloc: Global,
    plan: &JudgePlan,
    lists: &ClientLists,
    sizes: &Sizes,
    states: &Row<Bytes>,
    text: &[u8],
    finds: &mut Finds,
    line: &mut N,
) -> Result<Judged, OutOfMemory>
    requires marked { MarksAll sizes.now.marks lists.now }
    requires states { states.now ≡ tokens_of lists.now }
    requires target { IsTarget plan.now.updates.target }
    ensures judged { IfOk result (λ one. JudgesLine plan.now (lists.now ∷ []) finds.old finds.new
        (N.view line.old).told (N.view line.new).told text.now one) }
    ensures stopped { (more : List (List ℕ)) → OnErr result (BreaksOffLine plan.now (lists.now ∷ []) finds.old
        (N.view line.old).told (N.view line.new).told (text.now ∷ more)) }
    ensures unmoved { OnErr result ((N.view line.new).told.faults ≡ (N.view line.old).told.faults) }
    ensures counted { (N.view line.old).told.faults ≤ (N.view line.new).told.faults }
    ensures same { (N.view line.new).objects ≡ (N.view line.old).objects }
{
    match local_check_with(alloc, lists, sizes, 0, text) {
        Ok(finding) => resolve_finding(alloc, plan, finding, states, finds, line),
        Err(CheckFault::Url(fault)) => Ok(Judged::Refused(fault)),
        Err(CheckFault::OutOfMemory) => Err(OutOfMemory),
    }
}

// Looks the lines of an input up in order.
fn look_up_lines<N: Line>(
    alloc: Global,
    plan: &JudgePlan,
    lists: &ClientLists,
    sizes: &Sizes,
    states: &Row<Bytes>,
    input: &[u8],
    finds: &mut Finds,
    line: &mut N,
) -> Result<Report, OutOfMemory>
    requires marked { MarksAll sizes.now.marks lists.now }
    requires states { states.now ≡ tokens_of lists.now }
    requires target { IsTarget plan.now.updates.target }
    ensures judged { IfOk result (λ report. ReportsLines plan.now (lists.now ∷ []) finds.old finds.new
        (N.view line.old).told (N.view line.new).told (lines_of input.now) report) }
    ensures stopped { OnErr result (StopsJudging plan.now (lists.now ∷ []) finds.old
        (N.view line.old).told (N.view line.new).told (lines_of input.now)) }
    ensures same { (N.view line.new).objects ≡ (N.view line.old).objects }
{
    traces_go_on();
    let mut report = Report::new(alloc)?;
    let mut rest = input;
    while !rest.is_empty() {
        let (text, tail) = first_line(rest);
        match look_up(alloc, plan, lists, sizes, states, text, finds, line) {
            Ok(one) => report.add(&one)?,
            Err(OutOfMemory) => return Err(OutOfMemory),
        }
        rest = tail;
    }
    Ok(report)
}

// Looks the lines of an input up in order, from no kept answer.
fn look_up_all<N: Line>(
    alloc: Global,
    plan: &JudgePlan,
    lists: &ClientLists,
    input: &[u8],
    first: WaitState,
    line: &mut N,
) -> Result<Report, OutOfMemory>
    requires { IsTarget plan.now.updates.target }
    ensures judged { IfOk result (λ report. HasReported plan.now (lists.now ∷ []) first
        (N.view line.old).told (N.view line.new).told (lines_of input.now) report) }
    ensures stopped { OnErr result (StopsJudging plan.now (lists.now ∷ []) (first_finds first)
        (N.view line.old).told (N.view line.new).told (lines_of input.now)) }
    ensures same { (N.view line.new).objects ≡ (N.view line.old).objects }
{
    let states = lists.states(alloc)?;
    let mut finds = Finds::new(alloc, first)?;
    let sizes = sizes_on(lists);
    let report = look_up_lines(alloc, plan, lists, &sizes, &states, input, &mut finds, line)?;
    Ok(report)
}

/// Judges URLs beside no update and with one worker: looks each up when it is judged, and keeps nothing of it but its line of the report.
pub(crate) fn judge_alone<O: Sink, N: Line>(
    alloc: Global,
    plan: &JudgePlan,
    begun: Begun,
    out: &mut O,
    line: &mut N,
) -> Result<Judgement, JudgeStop>
    requires none { plan.now.updates.rounds ≡ 0 }
    requires target { IsTarget plan.now.updates.target }
    ensures ends { (keeper : Keeping) → EndsUpdating plan.now result begun.client begun.finds (lines_of begun.text)
        (seen (N.view line.old).told keeper (O.contents out.old)) (seen (N.view line.new).told keeper (O.contents out.new)) }
    ensures output_failed { IsErrOf result JudgeStop.WriteFault → Rose (O.faults out.old) (O.faults out.new) }
    ensures output_kept { result ≢ Err JudgeStop.WriteFault → O.faults out.new ≡ O.faults out.old }
    ensures no_input { result ≢ Err JudgeStop.ReadFault }
    ensures no_limit { result ≢ Err JudgeStop.PastLimits }
    ensures no_keeper { result ≢ Err JudgeStop.KeepFault }
    ensures same { (N.view line.new).objects ≡ (N.view line.old).objects }
{
    rounds_go_on();
    let Begun {
        text,
        mut client,
        finds,
    } = begun;
    if let Err(Failed) = flush(out, &mut client.page) {
        return Err(JudgeStop::WriteFault);
    }
    match look_up_all(alloc, plan, &client.lists, text.as_slice(), finds, line) {
        Ok(mut report) => match print_report(&mut report, out) {
            Ok(()) => Ok(Judgement {
                outcome: outcome_of(&report.counts),
                refused: false,
            }),
            Err(stop) => Err(stop),
        },
        Err(OutOfMemory) => Err(JudgeStop::OutOfMemory),
    }
}
