ghost use Rattle.std.specs.Prelude.{◌≡◌, ◌⊎◌, ℕ, true, false, None, is_some};
ghost use Rattle.http_edge.specs.Exchanges.{IsTarget};
ghost use Rattle.proxy_run.specs.SoFar.{proxy_cause_of};
ghost use Rattle.proxy_run.specs.State.ProxyPhase.{Beginning};
ghost use Rattle.proxy_run.specs.Steps.{IsProxyRunning, own_update_is_due, proxy_at, ProxyAt, ProxyGoesOn};

use crate::state::ProxyRun;
use crate::{ProxyPlan, ProxyStop, ProxyWorld};
use client_line::Line;
use sb_model::{Moment, OutOfMemory};
use sb_outside::{Clock, Door, Keeper, Sink, Wire};
use std::alloc::Global;
use update_run::RunStop;
use url_checker::sizes_on;

/// Why a proxy ends if its round stopped so.
pub(crate) fn stop_of(stop: RunStop) -> ProxyStop
    ensures { result ≡ proxy_cause_of stop }
{
    match stop {
        RunStop::WriteFault => ProxyStop::WriteFault,
        RunStop::KeepFault => ProxyStop::KeepFault,
        RunStop::OutOfMemory => ProxyStop::OutOfMemory,
    }
}

/// Whether a round is due.
fn is_round_due<W: Wire>(plan: &ProxyPlan, run: &ProxyRun<W>, now: Moment) -> bool
    ensures { result ≡ own_update_is_due plan.now.updates.rounds run.now now }
{
    match run.rounds.next_at(plan.updates.rounds) {
        Some(at) => at.0 <= now.0,
        None => false,
    }
}

/// Begins a round, if one is due.
pub(crate) fn begin_round<O: Sink, K: Keeper, N: Line, M: Line, C: Clock, D: Door>(
    alloc: Global,
    plan: &ProxyPlan,
    run: &mut ProxyRun<D::Wire>,
    now: Moment,
    world: &mut ProxyWorld<O, K, N, M, C, D>,
)
    requires running { (at : ProxyAt) × IsProxyRunning at plan.now run.old world.old }
    requires target { IsTarget plan.now.updates.target }
    requires goes_on { run.old.looks.stop ≡ None }
    ensures goes { (turns : ℕ) → ProxyGoesOn (proxy_at Beginning now turns) (proxy_at Beginning now turns) plan.now run.old run.new world.old world.new }
    ensures done { (is_some run.new.looks.stop ≡ true) ⊎ (own_update_is_due plan.now.updates.rounds run.new now ≡ false) }
{
    if !is_round_due(plan, run, now) {
        return;
    }
    match run.rounds.begin(alloc, &plan.updates, &mut world.updates) {
        Ok(()) => {}
        Err(OutOfMemory) => run.held.note(ProxyStop::OutOfMemory),
    }
}

/// Ends the round that is open: tells it, and saves what it installed. Its lists are those of the connections that are taken from then on.
pub(crate) fn end_round<O: Sink, K: Keeper, N: Line, M: Line, C: Clock, D: Door>(
    alloc: Global,
    plan: &ProxyPlan,
    run: &mut ProxyRun<D::Wire>,
    world: &mut ProxyWorld<O, K, N, M, C, D>,
)
    requires running { (at : ProxyAt) × IsProxyRunning at plan.now run.old world.old }
    requires opened { is_some run.old.rounds.opened ≡ true }
    ensures goes { (at : ProxyAt) → ProxyGoesOn at at plan.now run.old run.new world.old world.new }
    ensures closed { run.new.rounds.opened ≡ None }
{
    let ended = run.rounds.end(
        alloc,
        &plan.updates,
        &mut world.looks.out,
        &mut world.keep,
        &mut world.updates,
    );
    run.sizes = sizes_on(run.rounds.lists());
    match ended {
        Ok(_told) => {}
        Err(stop) => run.held.note(stop_of(stop)),
    }
}
