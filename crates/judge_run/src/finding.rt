ghost use Rattle.std.specs.Prelude.{◌≡◌, ◌≤◌, ℕ, List, IfOk, OnErr};
ghost use Rattle.http_edge.specs.Exchanges.{IsTarget};
ghost use Rattle.update_client.specs.Held.{tokens_of};
ghost use Rattle.snapshot_publish.specs.Publications.{Publications};
ghost use Rattle.url_checker.specs.Hits.{AreAskable};
ghost use Rattle.url_checker.specs.Resolved.{StopsResolving, unresolved};
ghost use Rattle.url_checker.specs.declared.findings.Checked.TheVariants.{Found};
ghost use Rattle.judge_run.specs.Judging.{lists_of_finding, IsFoundIn, JudgesCheck};

use crate::JudgePlan;
use client_line::Line;
use sb_model::{Bytes, OutOfMemory, Row};
use std::alloc::Global;
use url_checker::{Finding, Finds, resolve};
use verdict_report::Judged;

/// Resolves what was found of a URL on a publication, whose tokens are these, from the answers that are kept, and asks the server where a hit
/// has to be asked for.
pub fn resolve_finding<N: Line>(
    alloc: Global,
    plan: &JudgePlan,
    finding: Finding,
    states: &Row<Bytes>,
    finds: &mut Finds,
    line: &mut N,
) -> Result<Judged, OutOfMemory>
    requires askable { AreAskable finding.hits }
    requires target { IsTarget plan.now.updates.target }
    ensures judged { (published : Publications) (text : List ℕ) → states.now ≡ tokens_of (lists_of_finding published finding) → IsFoundIn published text finding
        → IfOk result (λ one. JudgesCheck plan.now published finds.old finds.new
        (N.view line.old).told (N.view line.new).told text (Found finding) one) }
    ensures stopped { OnErr result (StopsResolving (unresolved states.now finding.hits) plan.now.updates.target finds.old
        (N.view line.old).told (N.view line.new).told) }
    ensures unmoved { OnErr result ((N.view line.new).told.faults ≡ (N.view line.old).told.faults) }
    ensures counted { (N.view line.old).told.faults ≤ (N.view line.new).told.faults }

    // The line's objects are the same.
    ensures same { (N.view line.new).objects ≡ (N.view line.old).objects }
{
    let verdict = resolve(
        alloc,
        &finding,
        states,
        finds,
        plan.patience,
        &plan.updates.target,
        plan.updates.need_digest,
        line,
    )?;
    let Finding {
        number,
        text,
        hits: _,
    } = finding;
    Ok(Judged::Verdict {
        number,
        text,
        verdict,
    })
}
