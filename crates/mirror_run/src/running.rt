ghost use Rattle.std.specs.Prelude.{◌≡◌, ◌⊎◌, ◌^◌, ◌-◌, ◌<◌, ◌≤◌, ℕ, length, true, false, None, is_some};
ghost use Rattle.std.specs.Result.{result_err};
ghost use Rattle.http_edge.specs.Exchanges.{IsTarget};
ghost use Rattle.mirror_run.specs.Run.{RunsMirror};
ghost use Rattle.mirror_run.specs.State.Phase.{Between};
ghost use Rattle.mirror_run.specs.Steps.{EndsTurns, IsLast, IsRunning, run_at};
ghost use Rattle.sb_model.specs.declared.time.Moment.{Moment as Read};
ghost use Rattle.update_client.specs.Held.{most_lists};

use crate::ending::finish;
use crate::opening::open_mirror;
use crate::state::MirrorRun;
use crate::taking::is_over;
use crate::turning::take_turn;
use crate::{MirrorPlan, MirrorStop, MirrorWorld};
use client_line::Line;
use sb_outside::{Clock, Door, Keeper, Sink, Wire};
use std::alloc::Global;

/// Takes turns until the run is over.
fn take_turns<O: Sink, K: Keeper, N: Line, M: Line, C: Clock, D: Door>(
    alloc: Global,
    plan: &MirrorPlan,
    run: &mut MirrorRun<D::Wire>,
    world: &mut MirrorWorld<O, K, N, M, C, D>,
)
    requires target { IsTarget plan.now.updates.target }
    requires running { (now : Read) × IsRunning (run_at Between now 0) plan.now run.old world.old }
    ensures { EndsTurns plan.now run.old run.new world.old world.new }
{
    for turn in 0..u64::MAX {
        if is_over(plan, run) {
            return;
        }
        take_turn(alloc, plan, run, world);
    }
}

/// Runs a mirror: it loads its store, and then takes turns until as many connections were taken as the plan says, no more come, or an object
/// fails. In each turn it begins what is due, ends what is answered, and takes a connection, which is answered at once unless it asks a find.
/// At its end what is open is ended as else, and each find that still waits is answered 503.
///
/// # Errors
///
/// What ended it before its end: a fault of the output, of the keeper or of the door, or memory that was refused for a round, a place or the
/// line of a connection. All connections were given back then too.
pub fn run<O: Sink, K: Keeper, N: Line, M: Line, C: Clock, D: Door>(
    alloc: Global,
    plan: &MirrorPlan,
    world: &mut MirrorWorld<O, K, N, M, C, D>,
) -> Result<(), MirrorStop>
where
    D::Wire: Drop,
    requires few { length plan.now.updates.names ≤ most_lists }
    requires target { IsTarget plan.now.updates.target }
    ensures runs { RunsMirror plan.now (result_err result) world.old world.new }
{
    let mut run = open_mirror(alloc, plan, world)?;
    take_turns(alloc, plan, &mut run, world);
    finish(alloc, plan, &mut run, world);
    match run.stop {
        Some(stop) => Err(stop),
        None => Ok(()),
    }
}
