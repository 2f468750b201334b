ghost use Rattle.std.specs.Prelude.{◌≡◌, ◌≢◌, ◌<◌, ◌^◌, length, IfOk, OnErr, IsErrOf, Err};
ghost use Rattle.http_edge.specs.Exchanges.{IsTarget};
ghost use Rattle.parallel_checks.specs.Checks.{AreChecks, AreSeatsOf};
ghost use Rattle.sb_outside.specs.Outside.{Rose};
ghost use Rattle.update_run.specs.Run.{seen};
ghost use Rattle.update_run.specs.Saved.{Keeping};
ghost use Rattle.judge_run.specs.Checked.{AreChecksOf, HasReportedChecks, MayAllBeJudged, NumbersNeverFall};
ghost use Rattle.judge_run.specs.Judging.{first_finds, StopsJudging};
ghost use Rattle.judge_run.specs.Run.{EndsReporting};

use crate::judgement::outcome_of;
use crate::report::Report;
use crate::reporting::print_report;
use crate::resolving::resolve_checks;
use crate::updater::{CheckedUrls, Updater};
use crate::{JudgePlan, JudgeStop, Judgement};
use client_line::Line;
use input_lines::Lines;
use parallel_checks::{CheckRun, settle};
use sb_model::{OutOfMemory, Row};
use sb_outside::{Failed, Sink, flush};
use snapshot_publish::Publisher;
use std::alloc::Global;
use url_checker::{Checked, Finds};
use wait_rules::WaitState;

/// Settles a run of checks once nothing more is published, and gives the checks in the order of their lines.
///
/// # Errors
///
/// `OutOfMemory`.
pub fn settle_checks(
    alloc: Global,
    publisher: &mut Publisher,
    run: CheckRun,
    urls: &Lines<'_>,
) -> Result<Row<Checked>, OutOfMemory>
    requires some { 0 < length run.seats }
    requires ours { AreSeatsOf publisher.old.boxes run.seats }
    requires checks { AreChecks run.seats urls.now run.checks }
    ensures publisher { publisher.new ≡ publisher.old }
    ensures checks { IfOk result (AreChecksOf publisher.old.list urls.now) }
    ensures may { IfOk result (MayAllBeJudged publisher.old.list) }
    ensures never_fall { IfOk result (NumbersNeverFall (length run.seats)) }
{
    let CheckRun { seats: _, checks } = settle(alloc, publisher, run, urls)?;
    Ok(checks)
}

// Settles checks, and resolves them in order, from no kept answer.
fn resolve_settled<N: Line>(
    alloc: Global,
    plan: &JudgePlan,
    publisher: &mut Publisher,
    run: CheckRun,
    urls: &Lines<'_>,
    first: WaitState,
    line: &mut N,
) -> Result<Report, OutOfMemory>
    requires seats { length run.seats ≡ plan.now.workers }
    requires some { 0 < plan.now.workers }
    requires ours { AreSeatsOf publisher.old.boxes run.seats }
    requires checks { AreChecks run.seats urls.now run.checks }
    requires few { length urls.now < 2 ^ 32 }
    requires target { IsTarget plan.now.updates.target }
    ensures judged { IfOk result (λ report. HasReportedChecks plan.now publisher.old.list first
        (N.view line.old).told (N.view line.new).told urls.now report) }
    ensures stopped { OnErr result (StopsJudging plan.now publisher.old.list (first_finds first)
        (N.view line.old).told (N.view line.new).told urls.now) }
    ensures same { (N.view line.new).objects ≡ (N.view line.old).objects }
{
    let checks = settle_checks(alloc, publisher, run, urls)?;
    let mut finds = Finds::new(alloc, first)?;
    let report = resolve_checks(alloc, plan, publisher, checks, &mut finds, line)?;
    Ok(report)
}

/// Writes what waits, resolves URLs that were checked, and prints the report.
pub(crate) fn report_checked<O: Sink, N: Line>(
    alloc: Global,
    plan: &JudgePlan,
    updater: &mut Updater,
    checked: CheckedUrls<'_>,
    first: WaitState,
    out: &mut O,
    line: &mut N,
) -> Result<Judgement, JudgeStop>
    requires seats { length checked.run.seats ≡ plan.now.workers }
    requires some { 0 < plan.now.workers }
    requires ours { AreSeatsOf updater.old.publisher.boxes checked.run.seats }
    requires checks { AreChecks checked.run.seats checked.urls checked.run.checks }
    requires few { length checked.urls < 2 ^ 32 }
    requires target { IsTarget plan.now.updates.target }
    ensures ends { (keeper : Keeping) → EndsReporting plan.now result updater.old.publisher.list first updater.old.client.page checked.entry.urls
        (seen (N.view line.old).told keeper (O.contents out.old)) (seen (N.view line.new).told keeper (O.contents out.new)) }
    ensures refused { IfOk result (λ judgement. judgement.refused ≡ checked.entry.refused) }
    ensures output_failed { IsErrOf result JudgeStop.WriteFault → Rose (O.faults out.old) (O.faults out.new) }
    ensures output_kept { result ≢ Err JudgeStop.WriteFault → O.faults out.new ≡ O.faults out.old }
    ensures no_keeper { result ≢ Err JudgeStop.KeepFault }
    ensures same { (N.view line.new).objects ≡ (N.view line.old).objects }
{
    let CheckedUrls { run, urls, refused } = checked;
    if let Err(Failed) = flush(out, &mut updater.client.page) {
        return Err(JudgeStop::WriteFault);
    }
    let publisher = &mut updater.publisher;
    match resolve_settled(alloc, plan, publisher, run, &urls, first, line) {
        Ok(mut report) => match print_report(&mut report, out) {
            Ok(()) => Ok(Judgement {
                outcome: outcome_of(&report.counts),
                refused,
            }),
            Err(stop) => Err(stop),
        },
        Err(OutOfMemory) => Err(JudgeStop::OutOfMemory),
    }
}
