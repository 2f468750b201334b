ghost use Rattle.std.specs.Prelude.{◌≡◌, ◌≤◌, ◌<◌, ◌^◌, ℕ, List, [], ◌∷◌, length, slice_index_or, IfOk, IfSome, OnOk, OnErr};
ghost use Rattle.http_edge.specs.Exchanges.{IsTarget};
ghost use Rattle.update_client.specs.Held.{tokens_of};
ghost use Rattle.snapshot_publish.specs.Publications.{IsPublicationKept};
ghost use Rattle.url_checker.specs.Hits.{AreAskable};
ghost use Rattle.url_checker.specs.declared.findings.Checked.TheVariants.{Found};
ghost use Rattle.verdict_report.specs.Printed.{AreCounts};
ghost use Rattle.parallel_checks.specs.Checks.{IsCheckOf};
ghost use Rattle.judge_run.specs.Checked.{AreChecksOf, MayAllBeJudged, MayBeJudged, ReportsChecks, ReportsNext, StopsAtNext};
ghost use Rattle.judge_run.specs.Judging.{BreaksOffLine, IsFoundIn, JudgesCheck, StopsJudging};

use crate::finding::resolve_finding;
use crate::report::Report;
use crate::states::{States, states_of};
use crate::{JudgePlan, cases_go_on};
use client_line::Line;
use sb_model::{OutOfMemory, Row};
use snapshot_publish::Publisher;
use std::alloc::Global;
use url_checker::{Checked, Finding, Finds};
use verdict_report::Judged;

// Resolves a finding, with the tokens of its publication.
fn resolve_found<N: Line>(
    alloc: Global,
    plan: &JudgePlan,
    publisher: &Publisher,
    finding: Finding,
    known: &mut Option<States>,
    finds: &mut Finds,
    line: &mut N,
) -> Result<Judged, OutOfMemory>
    requires kept { IsPublicationKept publisher.now.list finding.number }
    requires askable { AreAskable finding.hits }
    requires known { IfSome known.old (λ states. states.tokens
        ≡ tokens_of (slice_index_or publisher.now.list states.number [])) }
    requires target { IsTarget plan.now.updates.target }
    ensures known { IfSome known.new (λ states. states.tokens
        ≡ tokens_of (slice_index_or publisher.now.list states.number [])) }
    ensures judged { (text : List ℕ) → IsFoundIn publisher.now.list text finding
        → IfOk result (λ one. JudgesCheck plan.now publisher.now.list finds.old finds.new
        (N.view line.old).told (N.view line.new).told text (Found finding) one) }
    ensures stopped { (text : List ℕ) (more : List (List ℕ)) → IsFoundIn publisher.now.list text finding
        → OnErr result (BreaksOffLine plan.now publisher.now.list finds.old
        (N.view line.old).told (N.view line.new).told (text ∷ more)) }
    ensures unmoved { OnErr result ((N.view line.new).told.faults ≡ (N.view line.old).told.faults) }
    ensures counted { (N.view line.old).told.faults ≤ (N.view line.new).told.faults }
    ensures same { (N.view line.new).objects ≡ (N.view line.old).objects }
{
    let states = states_of(alloc, publisher, finding.number, known.take())?;
    let judged = resolve_finding(alloc, plan, finding, &states.tokens, finds, line);
    *known = Some(states);
    judged
}

// Resolves a check of a line.
fn resolve_check<N: Line>(
    alloc: Global,
    plan: &JudgePlan,
    publisher: &Publisher,
    check: Checked,
    known: &mut Option<States>,
    finds: &mut Finds,
    line: &mut N,
) -> Result<Judged, OutOfMemory>
    requires may { MayBeJudged publisher.now.list check }
    requires known { IfSome known.old (λ states. states.tokens
        ≡ tokens_of (slice_index_or publisher.now.list states.number [])) }
    requires target { IsTarget plan.now.updates.target }
    ensures known { IfSome known.new (λ states. states.tokens
        ≡ tokens_of (slice_index_or publisher.now.list states.number [])) }
    ensures judged { (text : List ℕ) → IsCheckOf publisher.now.list text check
        → IfOk result (λ one. JudgesCheck plan.now publisher.now.list finds.old finds.new
        (N.view line.old).told (N.view line.new).told text check one) }
    ensures stopped { (text : List ℕ) (more : List (List ℕ)) → IsCheckOf publisher.now.list text check
        → OnErr result (BreaksOffLine plan.now publisher.now.list finds.old
        (N.view line.old).told (N.view line.new).told (text ∷ more)) }
    ensures unmoved { OnErr result ((N.view line.new).told.faults ≡ (N.view line.old).told.faults) }
    ensures counted { (N.view line.old).told.faults ≤ (N.view line.new).told.faults }
    ensures same { (N.view line.new).objects ≡ (N.view line.old).objects }
{
    match check {
        Checked::Found(finding) => resolve_found(
            alloc, plan, publisher, finding, known, finds, line,
        ),
        Checked::Refused(fault) => Ok(Judged::Refused(fault)),
    }
}

// Resolves the next check, and reports it.
fn report_next<N: Line>(
    alloc: Global,
    plan: &JudgePlan,
    publisher: &Publisher,
    check: Checked,
    report: &mut Report,
    known: &mut Option<States>,
    finds: &mut Finds,
    line: &mut N,
) -> Result<(), OutOfMemory>
    requires may { MayBeJudged publisher.now.list check }
    requires counts { AreCounts report.old.counts }
    requires known { IfSome known.old (λ states. states.tokens
        ≡ tokens_of (slice_index_or publisher.now.list states.number [])) }
    requires target { IsTarget plan.now.updates.target }
    ensures known { IfSome known.new (λ states. states.tokens
        ≡ tokens_of (slice_index_or publisher.now.list states.number [])) }
    ensures judged { OnOk result (ReportsNext plan.now publisher.now.list check report.old report.new finds.old finds.new
        (N.view line.old).told (N.view line.new).told) }
    ensures stopped { OnErr result (StopsAtNext plan.now publisher.now.list check finds.old finds.new
        (N.view line.old).told (N.view line.new).told) }
    ensures counted { (N.view line.old).told.faults ≤ (N.view line.new).told.faults }
    ensures same { (N.view line.new).objects ≡ (N.view line.old).objects }
{
    match resolve_check(alloc, plan, publisher, check, known, finds, line) {
        Ok(one) => report.add(&one),
        Err(OutOfMemory) => Err(OutOfMemory),
    }
}

/// Resolves checks in order, each by the publication that it names: asks the server where a hit has to be asked for, and reports what becomes
/// of each URL.
///
/// # Errors
///
/// `OutOfMemory`, where some of the checks may have been resolved before.
pub fn resolve_checks<N: Line>(
    alloc: Global,
    plan: &JudgePlan,
    publisher: &Publisher,
    checks: Row<Checked>,
    finds: &mut Finds,
    line: &mut N,
) -> Result<Report, OutOfMemory>
    requires may { MayAllBeJudged publisher.now.list checks }
    requires few { length checks < 2 ^ 32 }
    requires target { IsTarget plan.now.updates.target }
    ensures judged { (lines : List (List ℕ)) → AreChecksOf publisher.now.list lines checks
        → IfOk result (λ report. ReportsChecks plan.now publisher.now.list finds.old finds.new
        (N.view line.old).told (N.view line.new).told lines checks report) }
    ensures stopped { (lines : List (List ℕ)) → AreChecksOf publisher.now.list lines checks
        → OnErr result (StopsJudging plan.now publisher.now.list finds.old
        (N.view line.old).told (N.view line.new).told lines) }

    // The line's objects are the same.
    ensures same { (N.view line.new).objects ≡ (N.view line.old).objects }
{
    cases_go_on();
    let mut report = Report::new(alloc)?;
    let mut known = None;
    for check in checks.into_vec() {
        report_next(
            alloc,
            plan,
            publisher,
            check,
            &mut report,
            &mut known,
            finds,
            line,
        )?;
    }
    Ok(report)
}
