ghost use Rattle.std.specs.Prelude.{◌≡◌, ◌≢◌, ◌⊎◌, Bool, [], true, false, None, is_some};
ghost use Rattle.http_edge.specs.Exchanges.{IsTarget};
ghost use Rattle.proxy_run.specs.LookAllowed.{look_at, HasNoLookLeft, IsFindDue, LookAt};
ghost use Rattle.proxy_run.specs.LookSoFar.{HoldLooksSo, LookStart};
ghost use Rattle.proxy_run.specs.LookState.{LookState};
ghost use Rattle.proxy_run.specs.LookSteps.{HasEndedAsking, IsNoFindDue, KeepsDoor, LooksBegin, LooksGoTo};
ghost use Rattle.update_client.specs.Held.{tokens_of};
ghost use Rattle.wait_rules.specs.Waits.{may_send_at};

use crate::ProxyPlan;
use crate::held::HeldLooks;
use crate::looks_world::LookWorld;
use crate::settling::{refuse_waiting, release_waiting};
use crate::telling::tell_find;
use client_line::Line;
use find_desk::finds_ask_for_open_hits;
use sb_model::{Bytes, Moment, OutOfMemory, Row};
use sb_outside::{Door, Sink, Wire};
use std::alloc::Global;
use update_client::ClientLists;

/// Whether a find is to be begun: somebody waits, none is open, and its session may begin.
fn is_find_due<W: Wire>(held: &HeldLooks<W>, now: Moment) -> bool
    ensures due { result ≡ true → (held.now.connections.waiting ≢ []) × (held.now.desk.opened ≡ None) × (may_send_at held.now.desk.waits now ≡ true) }
    ensures none { result ≡ false → IsNoFindDue now held.now }
{
    held.connections.count_waiting() > 0 && !held.desk.is_open() && held.desk.may_send(now)
}

/// Begins a find for the URLs that are open of those who wait, with these states. If memory is refused, all are answered by what is known.
fn begin_asking<O: Sink, M: Line, D: Door>(
    alloc: Global,
    plan: &ProxyPlan,
    held: &mut HeldLooks<D::Wire>,
    states: Row<Bytes>,
    world: &mut LookWorld<O, M, D>,
)
    requires target { IsTarget plan.now.updates.target }
    requires held { (start : LookStart) × (state : LookState) × HoldLooksSo plan.now start state held.old world.old × HasNoLookLeft state }
    requires closed { held.old.desk.opened ≡ None }
    ensures goes { (at : LookAt) (start : LookStart) (state : LookState) → at.plan ≡ plan.now → at.desk ≡ start.desk → states ≡ tokens_of at.lists
        → HoldLooksSo plan.now start state held.old world.old → IsFindDue at state
        → LooksBegin at start state held.new world.new }
    ensures done { (held.new.connections.waiting ≡ []) ⊎ (is_some held.new.desk.opened ≡ true) }
    ensures ended { held.new.ended ≡ held.old.ended }
    ensures taken { held.new.connections.taken ≡ held.old.connections.taken }
    ensures door { KeepsDoor world.old world.new }
{
    finds_ask_for_open_hits();
    match held.desk.begin(
        alloc,
        held.looks.as_slice(),
        states,
        &plan.updates.target,
        &mut world.finds,
    ) {
        Ok(count) => held.asked = count,
        Err(OutOfMemory) => release_waiting(alloc, held, world),
    }
}

/// Begins a find for the URLs that are open of those who wait, with the states of these lists, if one is to be begun. If memory is refused for
/// it, no find is open, and all who waited were answered.
pub(crate) fn begin_find<O: Sink, M: Line, D: Door>(
    alloc: Global,
    plan: &ProxyPlan,
    held: &mut HeldLooks<D::Wire>,
    lists: &ClientLists,
    now: Moment,
    world: &mut LookWorld<O, M, D>,
)
    requires target { IsTarget plan.now.updates.target }
    requires held { (start : LookStart) × (state : LookState) × HoldLooksSo plan.now start state held.old world.old × HasNoLookLeft state }
    ensures goes { (start : LookStart) (state : LookState) (ending : Bool) → HoldLooksSo plan.now start state held.old world.old → HasNoLookLeft state
        → LooksBegin (look_at plan.now start.desk lists.now now ending) start state held.new world.new }
    ensures done { IsNoFindDue now held.new }
    ensures ended { held.new.ended ≡ held.old.ended }
    ensures taken { held.new.connections.taken ≡ held.old.connections.taken }
    ensures door { KeepsDoor world.old world.new }
{
    if !is_find_due(held, now) {
        return;
    }
    let Ok(states) = lists.states(alloc) else {
        refuse_waiting(alloc, held, world);
        return;
    };
    begin_asking(alloc, plan, held, states, world);
}

/// Ends the find that is open, and tells it. Those who waited for it are to be settled then. If memory is refused, all are answered by what is
/// known.
pub(crate) fn end_find<O: Sink, M: Line, D: Door>(
    alloc: Global,
    plan: &ProxyPlan,
    held: &mut HeldLooks<D::Wire>,
    world: &mut LookWorld<O, M, D>,
)
    requires held { (start : LookStart) × (state : LookState) × HoldLooksSo plan.now start state held.old world.old × HasNoLookLeft state }
    requires opened { is_some held.old.desk.opened ≡ true }
    requires none_over { held.old.ended ≡ None }
    ensures goes { (at : LookAt) (start : LookStart) (state : LookState) → at.plan ≡ plan.now → at.desk ≡ start.desk
        → HoldLooksSo plan.now start state held.old world.old → HasNoLookLeft state
        → LooksGoTo at start state (HasEndedAsking held.new) held.new world.new }
    ensures closed { held.new.desk.opened ≡ None }
    ensures taken { held.new.connections.taken ≡ held.old.connections.taken }
    ensures door { KeepsDoor world.old world.new }
{
    let target = &plan.updates.target;
    match held
        .desk
        .end(alloc, target, plan.updates.need_digest, &mut world.finds)
    {
        Ok(ended) => {
            tell_find(alloc, held, &ended, &mut world.out);
            held.hold_ended(alloc, ended);
        }
        Err(OutOfMemory) => release_waiting(alloc, held, world),
    }
}
