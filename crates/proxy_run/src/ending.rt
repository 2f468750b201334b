ghost use Rattle.std.specs.Prelude.{◌≡◌, ℕ, None};
ghost use Rattle.proxy_run.specs.Run.{EndsProxy};
ghost use Rattle.proxy_run.specs.SoFar.{ProxyStart};
ghost use Rattle.proxy_run.specs.State.{ProxyPhase};
ghost use Rattle.proxy_run.specs.State.ProxyPhase.{Finishing};
ghost use Rattle.proxy_run.specs.Steps.{IsProxyRunning, proxy_at, ProxyAt, ProxyGoesLater, ProxyGoesOn, RunsProxySo};
ghost use Rattle.sb_model.specs.declared.time.Moment.{Moment as Read};

use crate::rounds::end_round;
use crate::settling::release_waiting;
use crate::state::ProxyRun;
use crate::telling::tell_counts;
use crate::turning::end_and_settle;
use crate::{ProxyPlan, ProxyWorld};
use client_line::Line;
use sb_outside::{Clock, Door, Keeper, Sink};
use std::alloc::Global;

/// Ends the round that is open, if one is.
fn end_open_round<O: Sink, K: Keeper, N: Line, M: Line, C: Clock, D: Door>(
    alloc: Global,
    plan: &ProxyPlan,
    run: &mut ProxyRun<D::Wire>,
    world: &mut ProxyWorld<O, K, N, M, C, D>,
)
    requires running { (at : ProxyAt) × IsProxyRunning at plan.now run.old world.old }
    ensures goes { (at : ProxyAt) → ProxyGoesOn at at plan.now run.old run.new world.old world.new }
    ensures closed { run.new.rounds.opened ≡ None }
{
    if run.rounds.is_open() {
        end_round(alloc, plan, run, world);
    }
}

/// Ends the find that is open, if one is, and settles those who waited for it.
fn end_open_find<O: Sink, K: Keeper, N: Line, M: Line, C: Clock, D: Door>(
    alloc: Global,
    plan: &ProxyPlan,
    run: &mut ProxyRun<D::Wire>,
    world: &mut ProxyWorld<O, K, N, M, C, D>,
)
    requires running { (at : ProxyAt) × IsProxyRunning at plan.now run.old world.old }
    ensures goes { (phase : ProxyPhase) (turns : ℕ) → ProxyGoesLater phase turns plan.now run.old run.new world.old world.new }
    ensures closed { run.new.looks.desk.opened ≡ None }
    ensures rounds { run.new.rounds ≡ run.old.rounds }
{
    if run.held.is_find_open() {
        end_and_settle(alloc, plan, run, world);
    }
}

/// Brings a run to its end: what is open is ended, who still waits is answered by what is known, and the counts are told.
pub(crate) fn finish<O: Sink, K: Keeper, N: Line, M: Line, C: Clock, D: Door>(
    alloc: Global,
    plan: &ProxyPlan,
    run: &mut ProxyRun<D::Wire>,
    world: &mut ProxyWorld<O, K, N, M, C, D>,
)
    requires running { (at : ProxyAt) × IsProxyRunning at plan.now run.old world.old }
    ensures ends { (start : ProxyStart) (now : Read) (turns : ℕ) → RunsProxySo (proxy_at Finishing now turns) plan.now start run.old world.old
        → EndsProxy plan.now start run.new.looks.stop world.new }
{
    end_open_round(alloc, plan, run, world);
    end_open_find(alloc, plan, run, world);
    release_waiting(alloc, &mut run.held, &mut world.looks);
    tell_counts(alloc, &mut run.held, &mut world.looks.out);
}
