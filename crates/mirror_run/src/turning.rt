ghost use Rattle.std.specs.Prelude.{◌≡◌, ◌⊎◌, ◌+◌, ◌<◌, ◌-◌, ◌^◌, ℕ, true, false, None, is_some};
ghost use Rattle.http_edge.specs.Exchanges.{IsTarget};
ghost use Rattle.mirror_run.specs.State.Phase.{Beginning, Between, Ending};
ghost use Rattle.mirror_run.specs.Steps.{RunGoesOn, IsRunning, NoFindIsDue, run_at, RunAt};
ghost use Rattle.sb_model.specs.declared.time.Moment.{Moment as Read};

use crate::finds::{end_find, is_find_due, settle_first};
use crate::rounds::{begin_round, end_round};
use crate::state::MirrorRun;
use crate::taking::take_next;
use crate::{MirrorPlan, MirrorWorld};
use client_line::Line;
use sb_model::Moment;
use sb_outside::{Clock, Door, Keeper, Sink};
use std::alloc::Global;

/// Sends finds on, or answers those that are not sent, until one is open or none waits, and none waits too long.
fn settle_finds<O: Sink, K: Keeper, N: Line, M: Line, C: Clock, D: Door>(
    alloc: Global,
    plan: &MirrorPlan,
    run: &mut MirrorRun<D::Wire>,
    now: Moment,
    world: &mut MirrorWorld<O, K, N, M, C, D>,
)
    requires target { IsTarget plan.now.updates.target }
    requires running { (turns : ℕ) × IsRunning (run_at Beginning now turns) plan.now run.old world.old }
    ensures goes { (turns : ℕ) → RunGoesOn (run_at Beginning now turns) (run_at Beginning now turns) plan.now run.old run.new world.old world.new }
    ensures done { (is_some run.new.stop ≡ true) ⊎ NoFindIsDue now run.new }
    ensures rounds { run.new.rounds ≡ run.old.rounds }
{
    while !run.is_stopped() && is_find_due(run, now) {
        settle_first(alloc, plan, run, now, world);
    }
}

/// Ends the round that is open, if it is answered.
fn end_answered_round<O: Sink, K: Keeper, N: Line, M: Line, C: Clock, D: Door>(
    alloc: Global,
    plan: &MirrorPlan,
    run: &mut MirrorRun<D::Wire>,
    world: &mut MirrorWorld<O, K, N, M, C, D>,
)
    requires running { (at : RunAt) × IsRunning at plan.now run.old world.old }
    ensures goes { (at : RunAt) → RunGoesOn at at plan.now run.old run.new world.old world.new }
{
    if run.rounds.is_open() && world.updates.is_answered() {
        end_round(alloc, plan, run, world);
    }
}

/// Ends the find that is open, if it is answered.
fn end_answered_find<O: Sink, K: Keeper, N: Line, M: Line, C: Clock, D: Door>(
    alloc: Global,
    plan: &MirrorPlan,
    run: &mut MirrorRun<D::Wire>,
    world: &mut MirrorWorld<O, K, N, M, C, D>,
)
    requires running { (at : RunAt) × IsRunning at plan.now run.old world.old }
    ensures goes { (at : RunAt) → RunGoesOn at at plan.now run.old run.new world.old world.new }
{
    if run.finds.is_open() && world.finds.is_answered() {
        end_find(alloc, plan, run, world);
    }
}

/// Ends what is answered: the round that is open, and then the find.
fn end_answered<O: Sink, K: Keeper, N: Line, M: Line, C: Clock, D: Door>(
    alloc: Global,
    plan: &MirrorPlan,
    run: &mut MirrorRun<D::Wire>,
    world: &mut MirrorWorld<O, K, N, M, C, D>,
)
    requires running { (at : RunAt) × IsRunning at plan.now run.old world.old }
    ensures goes { (at : RunAt) → RunGoesOn at at plan.now run.old run.new world.old world.new }
{
    end_answered_round(alloc, plan, run, world);
    end_answered_find(alloc, plan, run, world);
}

/// Begins what is due: a round, and then finds.
fn begin_due<O: Sink, K: Keeper, N: Line, M: Line, C: Clock, D: Door>(
    alloc: Global,
    plan: &MirrorPlan,
    run: &mut MirrorRun<D::Wire>,
    now: Moment,
    world: &mut MirrorWorld<O, K, N, M, C, D>,
)
    requires target { IsTarget plan.now.updates.target }
    requires running { (turns : ℕ) × IsRunning (run_at Beginning now turns) plan.now run.old world.old }
    requires goes_on { run.old.stop ≡ None }
    ensures { (turns : ℕ) → RunGoesOn (run_at Beginning now turns) (run_at Ending now turns) plan.now run.old run.new world.old world.new }
{
    begin_round(alloc, plan, run, now, world);
    if run.is_stopped() {
        return;
    }
    settle_finds(alloc, plan, run, now, world);
}

/// A turn: begins what is due, ends what is answered, and takes a connection.
pub(crate) fn take_turn<O: Sink, K: Keeper, N: Line, M: Line, C: Clock, D: Door>(
    alloc: Global,
    plan: &MirrorPlan,
    run: &mut MirrorRun<D::Wire>,
    world: &mut MirrorWorld<O, K, N, M, C, D>,
)
    requires target { IsTarget plan.now.updates.target }
    requires running { (before : Read) × (turns : ℕ) × IsRunning (run_at Between before turns) plan.now run.old world.old }
    requires goes_on { run.old.stop ≡ None }
    requires more_come { run.old.no_more ≡ false }
    requires more { run.old.connections.taken < plan.now.connections }
    ensures { (before : Read) (turns : ℕ) → (now : Read) × RunGoesOn (run_at Between before turns) (run_at Between now (turns + 1)) plan.now run.old run.new world.old world.new }
{
    let now = world.clock.now();
    begin_due(alloc, plan, run, now, world);
    end_answered(alloc, plan, run, world);
    take_next(alloc, plan, run, now, world);
}
