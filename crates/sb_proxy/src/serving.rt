ghost use Rattle.std.specs.Prelude.{◌≡◌, ◌≢◌, ◌≤◌, length, Option, IfOk};
ghost use Rattle.client_words.specs.Asking.{target_of as target_asked};
ghost use Rattle.http_edge.specs.Exchanges.{IsTarget};
ghost use Rattle.proxy_run.specs.Run.{RunsProxy};
ghost use Rattle.proxy_run.specs.declared.stop.ProxyStop.{ProxyStop as Stop};
ghost use Rattle.sb_proxy.specs.Runs.{IsProxyStatus, IsProxyServed, plan_of_proxy_line, proxy_run_status, status_of_proxy_stop};
ghost use Rattle.update_client.specs.Held.{most_lists};

use client_line::Line;
use client_words::target_of;
use proxy_run::{ProxyPlan, ProxyStop, ProxyWorld, run};
use proxy_words::ProxyLine;
use sb_model::OutOfMemory;
use sb_outside::{Clock, Door, Keeper, Sink};
use std::alloc::Global;
use update_run::Plan;

/// What a proxy is to do by a command line.
fn plan_of(alloc: Global, line: ProxyLine<'_>) -> Result<ProxyPlan, OutOfMemory>
    ensures { IfOk result (λ plan. plan ≡ plan_of_proxy_line line.entry) }
{
    let target = target_of(alloc, &line.asking)?;
    Ok(ProxyPlan {
        updates: Plan {
            names: line.names,
            rounds: line.numbers.rounds,
            options: line.asking.options,
            target,
            need_digest: line.asking.need_digest,
        },
        connections: line.numbers.connections,
        patience: u64::from(line.numbers.patience) * 1_000,
    })
}

/// The exit status of a run that this ended.
fn status_of(stop: ProxyStop) -> u8
    ensures status { result ≡ status_of_proxy_stop stop }
    ensures statuses { IsProxyStatus result }
    ensures some { result ≢ 1 }
{
    match stop {
        ProxyStop::WriteFault => 3,
        ProxyStop::KeepFault => 4,
        ProxyStop::OutOfMemory => 8,
        ProxyStop::DoorFault => 9,
    }
}

/// Runs a proxy by a plan, and answers the exit status.
fn run_plan<O: Sink, K: Keeper, N: Line, M: Line, C: Clock, D: Door>(
    alloc: Global,
    plan: &ProxyPlan,
    world: &mut ProxyWorld<O, K, N, M, C, D>,
) -> u8
where
    D::Wire: Drop,
    requires few { length plan.now.updates.names ≤ most_lists }
    requires target { IsTarget plan.now.updates.target }
    ensures statuses { IsProxyStatus result }
    ensures some { result ≢ 1 }
    ensures ran { (ended : Option Stop) × (result ≡ proxy_run_status ended) × RunsProxy plan.now ended world.old world.new }
{
    match run(alloc, plan, world) {
        Ok(()) => 0,
        Err(stop) => status_of(stop),
    }
}

/// Runs a proxy as a command line says, and answers the exit status.
pub(crate) fn serve<O: Sink, K: Keeper, N: Line, M: Line, C: Clock, D: Door>(
    alloc: Global,
    line: ProxyLine<'_>,
    world: &mut ProxyWorld<O, K, N, M, C, D>,
) -> u8
where
    D::Wire: Drop,
    requires few { length line.names ≤ most_lists }
    requires target { IsTarget (target_asked line.asking) }
    ensures statuses { IsProxyStatus result }
    ensures some { result ≢ 1 }
    ensures served { IsProxyServed line.entry result world.old world.new }
{
    match plan_of(alloc, line) {
        Ok(plan) => run_plan(alloc, &plan, world),
        Err(OutOfMemory) => 8,
    }
}
