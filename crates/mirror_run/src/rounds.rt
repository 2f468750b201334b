ghost use Rattle.std.specs.Prelude.{◌≡◌, ◌⊎◌, ℕ, true, false, None, is_some};
ghost use Rattle.http_edge.specs.Exchanges.{IsTarget};
ghost use Rattle.mirror_run.specs.State.Phase.{Beginning};
ghost use Rattle.mirror_run.specs.Steps.{RunGoesOn, IsRunning, own_round_is_due, run_at, RunAt};

use crate::state::{MirrorRun, wait_told};
use crate::stop::stop_of;
use crate::{MirrorPlan, MirrorStop, MirrorWorld};
use client_line::Line;
use mirror_serving::forget_kept;
use sb_model::{Moment, OutOfMemory};
use sb_outside::{Clock, Door, Keeper, Sink, Wire};
use std::alloc::Global;

/// Whether a round is due.
fn is_round_due<W: Wire>(plan: &MirrorPlan, run: &MirrorRun<W>, now: Moment) -> bool
    ensures { result ≡ own_round_is_due plan.now.updates.rounds run.now now }
{
    match run.rounds.next_at(plan.updates.rounds) {
        Some(at) => at.0 <= now.0,
        None => false,
    }
}

/// Begins a round, if one is due.
pub(crate) fn begin_round<O: Sink, K: Keeper, N: Line, M: Line, C: Clock, D: Door>(
    alloc: Global,
    plan: &MirrorPlan,
    run: &mut MirrorRun<D::Wire>,
    now: Moment,
    world: &mut MirrorWorld<O, K, N, M, C, D>,
)
    requires running { (at : RunAt) × IsRunning at plan.now run.old world.old }
    requires target { IsTarget plan.now.updates.target }
    requires goes_on { run.old.stop ≡ None }
    ensures goes { (turns : ℕ) → RunGoesOn (run_at Beginning now turns) (run_at Beginning now turns) plan.now run.old run.new world.old world.new }
    ensures done { (is_some run.new.stop ≡ true) ⊎ (own_round_is_due plan.now.updates.rounds run.new now ≡ false) }
{
    if !is_round_due(plan, run, now) {
        return;
    }
    match run.rounds.begin(alloc, &plan.updates, &mut world.updates) {
        Ok(()) => {}
        Err(OutOfMemory) => run.note(MirrorStop::OutOfMemory),
    }
}

/// Ends the round that is open: tells it, saves what it installed, and holds that as a place.
pub(crate) fn end_round<O: Sink, K: Keeper, N: Line, M: Line, C: Clock, D: Door>(
    alloc: Global,
    plan: &MirrorPlan,
    run: &mut MirrorRun<D::Wire>,
    world: &mut MirrorWorld<O, K, N, M, C, D>,
)
    requires running { (at : RunAt) × IsRunning at plan.now run.old world.old }
    requires opened { is_some run.old.rounds.opened ≡ true }
    ensures goes { (at : RunAt) → RunGoesOn at at plan.now run.old run.new world.old world.new }
    ensures closed { run.new.rounds.opened ≡ None }
    ensures finds { run.new.finds ≡ run.old.finds }
    ensures connections { run.new.connections ≡ run.old.connections }
{
    match run.rounds.end(
        alloc,
        &plan.updates,
        &mut world.out,
        &mut world.keep,
        &mut world.updates,
    ) {
        Ok(told) => {
            run.answered |= told.answered;
            run.wait = wait_told(plan.wait, run.answered, run.rounds.lists().lists());
            forget_kept(&mut run.kept);
        }
        Err(stop) => run.note(stop_of(stop)),
    }
}
