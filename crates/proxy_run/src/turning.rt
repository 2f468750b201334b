ghost use Rattle.std.specs.Prelude.{◌≡◌, ◌+◌, ◌<◌, ℕ, true, false, None, is_some};
ghost use Rattle.http_edge.specs.Exchanges.{IsTarget};
ghost use Rattle.proxy_run.specs.State.{ProxyPhase};
ghost use Rattle.proxy_run.specs.State.ProxyPhase.{Beginning, Between, Ending};
ghost use Rattle.proxy_run.specs.Steps.{IsProxyRunning, proxy_at, ProxyAt, ProxyGoesLater, ProxyGoesOn};
ghost use Rattle.sb_model.specs.declared.time.Moment.{Moment as Read};

use crate::asking::{begin_find, end_find};
use crate::rounds::{begin_round, end_round};
use crate::settling::settle_waiting;
use crate::state::ProxyRun;
use crate::taking::take_next;
use crate::{ProxyPlan, ProxyWorld};
use client_line::Line;
use sb_model::Moment;
use sb_outside::{Clock, Door, Keeper, Sink};
use std::alloc::Global;

/// Begins what is due: a round, and then a find.
fn begin_due<O: Sink, K: Keeper, N: Line, M: Line, C: Clock, D: Door>(
    alloc: Global,
    plan: &ProxyPlan,
    run: &mut ProxyRun<D::Wire>,
    now: Moment,
    world: &mut ProxyWorld<O, K, N, M, C, D>,
)
    requires target { IsTarget plan.now.updates.target }
    requires running { (turns : ℕ) × IsProxyRunning (proxy_at Beginning now turns) plan.now run.old world.old }
    requires goes_on { run.old.looks.stop ≡ None }
    ensures { (turns : ℕ) → ProxyGoesOn (proxy_at Beginning now turns) (proxy_at Ending now turns) plan.now run.old run.new world.old world.new }
{
    begin_round(alloc, plan, run, now, world);
    if run.held.is_stopped() {
        return;
    }
    begin_find(
        alloc,
        plan,
        &mut run.held,
        run.rounds.lists(),
        now,
        &mut world.looks,
    );
}

/// Ends the round that is open, if it is answered.
fn end_answered_round<O: Sink, K: Keeper, N: Line, M: Line, C: Clock, D: Door>(
    alloc: Global,
    plan: &ProxyPlan,
    run: &mut ProxyRun<D::Wire>,
    world: &mut ProxyWorld<O, K, N, M, C, D>,
)
    requires running { (at : ProxyAt) × IsProxyRunning at plan.now run.old world.old }
    ensures goes { (at : ProxyAt) → ProxyGoesOn at at plan.now run.old run.new world.old world.new }
{
    if run.rounds.is_open() && world.updates.is_answered() {
        end_round(alloc, plan, run, world);
    }
}

/// Ends the find that is open, and settles those who waited for it.
pub(crate) fn end_and_settle<O: Sink, K: Keeper, N: Line, M: Line, C: Clock, D: Door>(
    alloc: Global,
    plan: &ProxyPlan,
    run: &mut ProxyRun<D::Wire>,
    world: &mut ProxyWorld<O, K, N, M, C, D>,
)
    requires running { (at : ProxyAt) × IsProxyRunning at plan.now run.old world.old }
    requires opened { is_some run.old.looks.desk.opened ≡ true }
    ensures goes { (phase : ProxyPhase) (turns : ℕ) → ProxyGoesLater phase turns plan.now run.old run.new world.old world.new }
    ensures closed { run.new.looks.desk.opened ≡ None }
    ensures rounds { run.new.rounds ≡ run.old.rounds }
{
    end_find(alloc, plan, &mut run.held, &mut world.looks);
    if run.held.is_to_settle() {
        let now = world.clock.now();
        settle_waiting(alloc, plan, &mut run.held, now, &mut world.looks);
    }
}

/// Ends the find that is open, if it is answered, and settles those who waited for it.
fn end_answered_find<O: Sink, K: Keeper, N: Line, M: Line, C: Clock, D: Door>(
    alloc: Global,
    plan: &ProxyPlan,
    run: &mut ProxyRun<D::Wire>,
    world: &mut ProxyWorld<O, K, N, M, C, D>,
)
    requires running { (at : ProxyAt) × IsProxyRunning at plan.now run.old world.old }
    ensures goes { (phase : ProxyPhase) (turns : ℕ) → ProxyGoesLater phase turns plan.now run.old run.new world.old world.new }
{
    if !run.held.is_find_open() {
        return;
    }
    if world.looks.finds.is_answered() {
        end_and_settle(alloc, plan, run, world);
    }
}

/// Ends what is answered: the round that is open, and then the find.
fn end_answered<O: Sink, K: Keeper, N: Line, M: Line, C: Clock, D: Door>(
    alloc: Global,
    plan: &ProxyPlan,
    run: &mut ProxyRun<D::Wire>,
    world: &mut ProxyWorld<O, K, N, M, C, D>,
)
    requires running { (at : ProxyAt) × IsProxyRunning at plan.now run.old world.old }
    ensures goes { (phase : ProxyPhase) (turns : ℕ) → ProxyGoesLater phase turns plan.now run.old run.new world.old world.new }
{
    end_answered_round(alloc, plan, run, world);
    end_answered_find(alloc, plan, run, world);
}

/// A turn: begins what is due, ends what is answered, and takes a connection.
pub(crate) fn take_turn<O: Sink, K: Keeper, N: Line, M: Line, C: Clock, D: Door>(
    alloc: Global,
    plan: &ProxyPlan,
    run: &mut ProxyRun<D::Wire>,
    world: &mut ProxyWorld<O, K, N, M, C, D>,
)
    requires target { IsTarget plan.now.updates.target }
    requires running { (before : Read) × (turns : ℕ) × IsProxyRunning (proxy_at Between before turns) plan.now run.old world.old }
    requires goes_on { run.old.looks.stop ≡ None }
    requires more_come { run.old.no_more ≡ false }
    requires more { run.old.looks.connections.taken < plan.now.connections }
    ensures { (before : Read) (turns : ℕ) → (now : Read) × ProxyGoesOn (proxy_at Between before turns) (proxy_at Between now (turns + 1)) plan.now run.old run.new world.old world.new }
{
    let now = world.clock.now();
    begin_due(alloc, plan, run, now, world);
    end_answered(alloc, plan, run, world);
    take_next(alloc, plan, run, world);
}
