ghost use Rattle.std.specs.Prelude.{◌≡◌, ◌≢◌, ◌≤◌, length, Option, IfOk};
ghost use Rattle.client_words.specs.Asking.{target_of as target_asked};
ghost use Rattle.http_edge.specs.Exchanges.{IsTarget};
ghost use Rattle.mirror_run.specs.Run.{RunsMirror};
ghost use Rattle.mirror_run.specs.declared.stop.MirrorStop.{MirrorStop as Stop};
ghost use Rattle.sb_mirror.specs.Runs.{IsMirrorStatus, IsMirrorServed, plan_of_line, run_status, status_of_stop};
ghost use Rattle.update_client.specs.Held.{most_lists};

use client_line::Line;
use client_words::target_of;
use mirror_run::{MirrorPlan, MirrorStop, MirrorWorld, run};
use mirror_words::MirrorLine;
use sb_model::OutOfMemory;
use sb_outside::{Clock, Door, Keeper, Sink};
use std::alloc::Global;
use update_run::Plan;

/// What a mirror is to do by a command line.
fn plan_of(alloc: Global, line: MirrorLine<'_>) -> Result<MirrorPlan, OutOfMemory>
    ensures { IfOk result (λ plan. plan ≡ plan_of_line line.entry) }
{
    let target = target_of(alloc, &line.asking)?;
    Ok(MirrorPlan {
        updates: Plan {
            names: line.names,
            rounds: line.numbers.rounds,
            options: line.asking.options,
            target,
            need_digest: line.asking.need_digest,
        },
        connections: line.numbers.connections,
        wait: line.numbers.wait,
    })
}

/// The exit status of a run that this ended.
fn status_of(stop: MirrorStop) -> u8
    ensures status { result ≡ status_of_stop stop }
    ensures statuses { IsMirrorStatus result }
    ensures some { result ≢ 1 }
{
    match stop {
        MirrorStop::WriteFault => 3,
        MirrorStop::KeepFault => 4,
        MirrorStop::OutOfMemory => 8,
        MirrorStop::DoorFault => 9,
    }
}

/// Runs a mirror by a plan, and answers the exit status.
fn run_plan<O: Sink, K: Keeper, N: Line, M: Line, C: Clock, D: Door>(
    alloc: Global,
    plan: &MirrorPlan,
    world: &mut MirrorWorld<O, K, N, M, C, D>,
) -> u8
where
    D::Wire: Drop,
    requires few { length plan.now.updates.names ≤ most_lists }
    requires target { IsTarget plan.now.updates.target }
    ensures statuses { IsMirrorStatus result }
    ensures some { result ≢ 1 }
    ensures ran { (ended : Option Stop) × (result ≡ run_status ended) × RunsMirror plan.now ended world.old world.new }
{
    match run(alloc, plan, world) {
        Ok(()) => 0,
        Err(stop) => status_of(stop),
    }
}

/// Runs a mirror as a command line says, and answers the exit status.
pub(crate) fn serve<O: Sink, K: Keeper, N: Line, M: Line, C: Clock, D: Door>(
    alloc: Global,
    line: MirrorLine<'_>,
    world: &mut MirrorWorld<O, K, N, M, C, D>,
) -> u8
where
    D::Wire: Drop,
    requires few { length line.names ≤ most_lists }
    requires target { IsTarget (target_asked line.asking) }
    ensures statuses { IsMirrorStatus result }
    ensures some { result ≢ 1 }
    ensures served { IsMirrorServed line.entry result world.old world.new }
{
    match plan_of(alloc, line) {
        Ok(plan) => run_plan(alloc, &plan, world),
        Err(OutOfMemory) => 8,
    }
}
