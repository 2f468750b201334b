ghost use Rattle.std.specs.Prelude.{◌≡◌, ◌<◌, ◌-◌, ◌^◌, ℕ, List, Option, None, true, false};
ghost use Rattle.mirror_connections.specs.Answered.{GivesWire};
ghost use Rattle.mirror_connections.specs.Open.{wire_seen};
ghost use Rattle.mirror_connections.specs.Over.{DoorSeen};
ghost use Rattle.mirror_run.specs.SoFar.{RunStart};
ghost use Rattle.mirror_run.specs.State.Phase.{Between, Ending};
ghost use Rattle.mirror_run.specs.Steps.{RunGoesOn, IsLast, RunsSo, run_at};
ghost use Rattle.sb_model.specs.declared.time.Moment.{Moment as Read};
ghost use Rattle.sb_outside.specs.Outside.{IfTold, with_entry};

use crate::answering::tell_over;
use crate::state::{MirrorRun, overdue_at};
use crate::{MirrorPlan, MirrorStop, MirrorWorld};
use client_line::Line;
use mirror_connections::{EndedConnection, take_connection};
use mirror_serving::{FindFate, MirrorServer, no_answers_kept};
use sb_model::Moment;
use sb_outside::{Arrival, Clock, Door, Failed, Keeper, Sink, Wire};
use std::alloc::Global;
use std::mem;

/// Whether no further turn comes: the connections were taken, no more come, or something ended the run.
pub(crate) fn is_over<W: Wire>(plan: &MirrorPlan, run: &MirrorRun<W>) -> bool
    ensures over { result ≡ true → IsLast plan.now run.now }
    ensures goes_on { result ≡ false → run.now.stop ≡ None }
    ensures more_come { result ≡ false → run.now.no_more ≡ false }
    ensures few { result ≡ false → run.now.connections.taken < 2 ^ 32 - 1 }
    ensures more { result ≡ false → run.now.connections.taken < plan.now.connections }
{
    run.is_stopped() || run.no_more || run.connections.taken() >= plan.connections
}

/// The earlier of a moment and another, if there is one.
fn earlier(first: Moment, second: Option<Moment>) -> Moment {
    match second {
        Some(second) if second.0 < first.0 => second,
        _ => first,
    }
}

/// When something is to be done with the find that waits longest: at once if no find is open, and else once it waited too long. `None` if
/// none waits.
fn next_find_at<W: Wire>(run: &MirrorRun<W>, now: Moment) -> Option<Moment> {
    let heard = run.connections.first_heard()?;
    if run.finds.is_open() {
        Some(overdue_at(heard))
    } else {
        Some(now)
    }
}

/// The first moment at which something may be begun, or is overdue.
fn next_moment<W: Wire>(plan: &MirrorPlan, run: &MirrorRun<W>, now: Moment) -> Moment {
    let overdue = next_find_at(run, now);
    let round = run.rounds.next_at(plan.updates.rounds);
    earlier(earlier(Moment(u64::MAX), round), overdue)
}

/// Hears a connection that the door gave, and answers it at once, or puts it off.
fn take_wire<O: Sink, K: Keeper, N: Line, M: Line, C: Clock, D: Door>(
    alloc: Global,
    plan: &MirrorPlan,
    run: &mut MirrorRun<D::Wire>,
    heard: Moment,
    world: &mut MirrorWorld<O, K, N, M, C, D>,
    wire: D::Wire,
)
    requires goes_on { run.old.stop ≡ None }
    requires few { run.old.connections.taken < 2 ^ 32 - 1 }
    requires more { run.old.connections.taken < plan.now.connections }
    ensures { (now : Read) (turns : ℕ) (start : RunStart) (before : DoorSeen) (read : Option (List Read)) (pieces : List (List ℕ))
        → RunsSo (run_at Ending now turns) plan.now start run.old (record world.old { door = before; readings = read })
        → IfTold world.old.readings (with_entry read heard)
        → GivesWire pieces before world.old.door
        (wire_seen (D.Wire.number wire) (D.Wire.start wire) (D.Wire.left wire) (D.Wire.contents wire) (D.Wire.Source.faults wire) (D.Wire.Sink.faults wire))
        → RunsSo (run_at Between heard turns) plan.now start run.new world.new }
{
    let number = run.connections.taken();
    let kept = mem::replace(&mut run.kept, no_answers_kept(alloc));
    let mut server = MirrorServer::new(run.rounds.mirror(), run.wait, FindFate::NotSent, kept);
    let end = take_connection(
        alloc,
        &mut run.connections,
        heard,
        &mut server,
        &mut world.door,
        wire,
    );
    run.kept = server.into_kept();
    if let Some(end) = end {
        let ended = EndedConnection { number, end };
        tell_over(alloc, run, &ended, &mut world.out);
    }
}

/// Takes the next connection, if one comes before something is to be begun.
pub(crate) fn take_next<O: Sink, K: Keeper, N: Line, M: Line, C: Clock, D: Door>(
    alloc: Global,
    plan: &MirrorPlan,
    run: &mut MirrorRun<D::Wire>,
    now: Moment,
    world: &mut MirrorWorld<O, K, N, M, C, D>,
)
    ensures { (turns : ℕ) → (later : Read) × RunGoesOn (run_at Ending now turns) (run_at Between later turns) plan.now run.old run.new world.old world.new }
{
    if is_over(plan, run) {
        return;
    }
    match world.door.next_before(next_moment(plan, run, now)) {
        Ok(Arrival::Connected(wire)) => {
            // it was waited for since `now`, and a find waits only from here on
            let heard = world.clock.now();
            take_wire(alloc, plan, run, heard, world, wire);
        }
        Ok(Arrival::NoMore) => run.no_more = true,
        Ok(Arrival::TimedOut) => {}
        Err(Failed) => run.note(MirrorStop::DoorFault),
    }
}
