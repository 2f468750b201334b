ghost use Rattle.std.specs.Prelude.{◌≡◌, ◌<◌, ◌-◌, ◌^◌, ℕ, List, Option, None, true, false};
ghost use Rattle.held_connections.specs.Held.{wire_view};
ghost use Rattle.held_connections.specs.Over.{DoorView};
ghost use Rattle.held_connections.specs.Steps.{HandsOutWire};
ghost use Rattle.proxy_run.specs.LookSteps.{IsDeskKept};
ghost use Rattle.proxy_run.specs.SoFar.{ProxyStart};
ghost use Rattle.proxy_run.specs.State.ProxyPhase.{Between, Ending};
ghost use Rattle.proxy_run.specs.Steps.{IsLastOfProxy, IsProxyRunning, proxy_at, ProxyAt, ProxyGoesOn, RunsProxySo};
ghost use Rattle.sb_model.specs.declared.time.Moment.{Moment as Read};
ghost use Rattle.sb_outside.specs.Outside.{IfTold, with_entry};

use crate::looking::take_look;
use crate::state::ProxyRun;
use crate::{ProxyPlan, ProxyStop, ProxyWorld};
use client_line::Line;
use sb_model::Moment;
use sb_outside::{Arrival, Clock, Door, Failed, Keeper, Sink, Wire};
use std::alloc::Global;

/// Whether no further turn comes: the connections were taken, no more come, or something ended the run.
pub(crate) fn is_over<W: Wire>(plan: &ProxyPlan, run: &ProxyRun<W>) -> bool
    ensures over { result ≡ true → IsLastOfProxy plan.now run.now }
    ensures goes_on { result ≡ false → run.now.looks.stop ≡ None }
    ensures more_come { result ≡ false → run.now.no_more ≡ false }
    ensures few { result ≡ false → run.now.looks.connections.taken < 2 ^ 32 - 1 }
    ensures more { result ≡ false → run.now.looks.connections.taken < plan.now.connections }
{
    run.held.is_stopped() || run.no_more || run.held.taken() >= plan.connections
}

/// The earlier of a moment and another, if there is one.
fn earlier(first: Moment, second: Option<Moment>) -> Moment {
    match second {
        Some(second) if second.0 < first.0 => second,
        _ => first,
    }
}

/// The first moment at which a round or a find may begin.
fn next_moment<W: Wire>(plan: &ProxyPlan, run: &ProxyRun<W>) -> Moment {
    let round = run.rounds.next_at(plan.updates.rounds);
    earlier(earlier(Moment(u64::MAX), round), run.held.next_find_at())
}

/// Hears a connection that the door gave, and answers it at once, or puts it off.
fn take_wire<O: Sink, K: Keeper, N: Line, M: Line, C: Clock, D: Door>(
    alloc: Global,
    plan: &ProxyPlan,
    run: &mut ProxyRun<D::Wire>,
    heard: Moment,
    world: &mut ProxyWorld<O, K, N, M, C, D>,
    wire: D::Wire,
)
    requires free { run.old.looks.connections.hand ≡ None }
    requires desk { IsDeskKept plan.now run.old.looks.desk world.old.looks.finds }
    requires goes_on { run.old.looks.stop ≡ None }
    requires few { run.old.looks.connections.taken < 2 ^ 32 - 1 }
    requires more { run.old.looks.connections.taken < plan.now.connections }
    ensures { (now : Read) (turns : ℕ) (start : ProxyStart) (before : DoorView) (read : Option (List Read)) (pieces : List (List ℕ))
        → RunsProxySo (proxy_at Ending now turns) plan.now start run.old (record world.old { readings = read; looks = record world.old.looks { door = before } })
        → IfTold world.old.readings (with_entry read heard)
        → HandsOutWire pieces before world.old.looks.door
        (wire_view (D.Wire.number wire) (D.Wire.start wire) (D.Wire.Source.left wire) (D.Wire.Sink.contents wire) (D.Wire.Source.faults wire) (D.Wire.Sink.faults wire))
        → RunsProxySo (proxy_at Between heard turns) plan.now start run.new world.new }
{
    take_look(
        alloc,
        plan,
        &mut run.held,
        run.rounds.lists(),
        &run.sizes,
        heard,
        wire,
        &mut world.looks,
    );
}

/// Takes the next connection, if one comes before something may begin.
pub(crate) fn take_next<O: Sink, K: Keeper, N: Line, M: Line, C: Clock, D: Door>(
    alloc: Global,
    plan: &ProxyPlan,
    run: &mut ProxyRun<D::Wire>,
    world: &mut ProxyWorld<O, K, N, M, C, D>,
)
    requires running { (at : ProxyAt) × IsProxyRunning at plan.now run.old world.old }
    ensures { (before : Read) (turns : ℕ) → (later : Read) × ProxyGoesOn (proxy_at Ending before turns) (proxy_at Between later turns) plan.now run.old run.new world.old world.new }
{
    if is_over(plan, run) {
        return;
    }
    match world.looks.door.next_before(next_moment(plan, run)) {
        Ok(Arrival::Connected(wire)) => {
            let heard = world.clock.now();
            take_wire(alloc, plan, run, heard, world, wire);
        }
        Ok(Arrival::NoMore) => run.no_more = true,
        Ok(Arrival::TimedOut) => {}
        Err(Failed) => run.held.note(ProxyStop::DoorFault),
    }
}
