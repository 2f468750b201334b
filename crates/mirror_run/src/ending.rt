ghost use Rattle.std.specs.Prelude.{◌≡◌, ℕ, [], None};
ghost use Rattle.mirror_run.specs.State.Phase.{Finishing};
ghost use Rattle.mirror_run.specs.declared.plan.MirrorPlan.{MirrorPlan as Plan};
ghost use Rattle.mirror_run.specs.Steps.{RunGoesOn, IsRunning, run_at, RunAt};
ghost use Rattle.sb_model.specs.declared.time.Moment.{Moment as Read};

use crate::answering::refuse_first;
use crate::finds::end_find;
use crate::rounds::end_round;
use crate::state::MirrorRun;
use crate::{MirrorPlan, MirrorWorld};
use client_line::Line;
use sb_outside::{Clock, Door, Keeper, Sink};
use std::alloc::Global;

/// Answers each find that waits: it is not sent.
fn refuse_waiting<O: Sink, K: Keeper, N: Line, M: Line, C: Clock, D: Door>(
    alloc: Global,
    run: &mut MirrorRun<D::Wire>,
    world: &mut MirrorWorld<O, K, N, M, C, D>,
)
    ensures goes { (plan : Plan) (now : Read) (turns : ℕ) → RunGoesOn (run_at Finishing now turns) (run_at Finishing now turns) plan run.old run.new world.old world.new }
    ensures nobody { run.new.connections.waiting ≡ [] }
    ensures rounds { run.new.rounds ≡ run.old.rounds }
    ensures finds { run.new.finds ≡ run.old.finds }
{
    while run.connections.first_heard().is_some() {
        refuse_first(alloc, run, world);
    }
}

/// Ends the round that is open, if one is.
fn end_open_round<O: Sink, K: Keeper, N: Line, M: Line, C: Clock, D: Door>(
    alloc: Global,
    plan: &MirrorPlan,
    run: &mut MirrorRun<D::Wire>,
    world: &mut MirrorWorld<O, K, N, M, C, D>,
)
    requires running { (at : RunAt) × IsRunning at plan.now run.old world.old }
    ensures goes { (at : RunAt) → RunGoesOn at at plan.now run.old run.new world.old world.new }
    ensures closed { run.new.rounds.opened ≡ None }
{
    if run.rounds.is_open() {
        end_round(alloc, plan, run, world);
    }
}

/// Ends the find that is open, if one is.
fn end_open_find<O: Sink, K: Keeper, N: Line, M: Line, C: Clock, D: Door>(
    alloc: Global,
    plan: &MirrorPlan,
    run: &mut MirrorRun<D::Wire>,
    world: &mut MirrorWorld<O, K, N, M, C, D>,
)
    requires running { (at : RunAt) × IsRunning at plan.now run.old world.old }
    ensures goes { (at : RunAt) → RunGoesOn at at plan.now run.old run.new world.old world.new }
    ensures closed { run.new.finds.opened ≡ None }
    ensures rounds { run.new.rounds ≡ run.old.rounds }
{
    if run.finds.is_open() {
        end_find(alloc, plan, run, world);
    }
}

/// Ends what is open, and answers who waits.
pub(crate) fn finish<O: Sink, K: Keeper, N: Line, M: Line, C: Clock, D: Door>(
    alloc: Global,
    plan: &MirrorPlan,
    run: &mut MirrorRun<D::Wire>,
    world: &mut MirrorWorld<O, K, N, M, C, D>,
)
    requires running { (at : RunAt) × IsRunning at plan.now run.old world.old }
    ensures goes { (now : Read) (turns : ℕ) → RunGoesOn (run_at Finishing now turns) (run_at Finishing now turns) plan.now run.old run.new world.old world.new }
    ensures no_round { run.new.rounds.opened ≡ None }
    ensures no_find { run.new.finds.opened ≡ None }
    ensures nobody { run.new.connections.waiting ≡ [] }
{
    end_open_round(alloc, plan, run, world);
    end_open_find(alloc, plan, run, world);
    refuse_waiting(alloc, run, world);
}
