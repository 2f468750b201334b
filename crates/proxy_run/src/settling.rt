ghost use Rattle.std.specs.Prelude.{◌≡◌, ◌≤◌, ◌+◌, ◌-◌, ◌++◌, ℕ, Bool, List, [], None, Some, All, drop, take, length, IfOk, OnErr};
ghost use Rattle.client_line.specs.Lines.{LineView};
ghost use Rattle.find_desk.specs.Desk.{DeskStart, HasKeptDesk};
ghost use Rattle.find_desk.specs.Events.{DeskEvent, MadeFind};
ghost use Rattle.held_connections.specs.Held.{HoldsConnections};
ghost use Rattle.held_connections.specs.Over.{DoorView, ServedConnection};
ghost use Rattle.held_connections.specs.Steps.{TakesFirstInHand};
ghost use Rattle.http_edge.specs.declared.messages.Target.{Target};
ghost use Rattle.proxy_looks.specs.Fates.{IsFateOf};
ghost use Rattle.proxy_looks.specs.Settled.{desk_at, AreAskedBy, AreLooksOf, GoesOnLooking, SettlesAll};
ghost use Rattle.proxy_looks.specs.Urls.{open_hits, IsAskableUrl};
ghost use Rattle.proxy_run.specs.LookAllowed.{look_at, HasNoLookLeft, IsFindDue, LookAt, MayGoWithout};
ghost use Rattle.proxy_run.specs.LookSoFar.{HoldLooksSo, LookStart, ProxyRight};
ghost use Rattle.proxy_run.specs.LookState.{LookState};
ghost use Rattle.proxy_run.specs.LookState.GoesBy.{ByKept};
ghost use Rattle.proxy_run.specs.LookSteps.{HasGivenAllBack, IsAskedByEnded, IsRefusing, IsRefusingFrom, IsReleasedFrom, IsReleasing, IsToSettle, KeepsDoor, LooksGoTo};
ghost use Rattle.proxy_run.specs.declared.plan.ProxyPlan.{ProxyPlan as Plan};
ghost use Rattle.proxy_serving.specs.Response.{ProxyServed};
ghost use Rattle.sb_model.specs.declared.time.Moment.{Moment as Read};
ghost use Rattle.update_client.specs.Held.{Held};

use crate::ProxyPlan;
use crate::answering::{answer_or_refuse, refuse};
use crate::deciding::decide;
use crate::held::HeldLooks;
use crate::looks_world::LookWorld;
use client_line::Line;
use proxy_looks::{
    LookUrl, Settled, count_open, fate_of_urls, settle_urls, settled_urls_keep_their_looks,
};
use proxy_serving::{LookFate, ProxyServer};
use sb_model::{Moment, OutOfMemory, Row};
use sb_outside::{Door, Sink, Wire};
use std::alloc::Global;

/// Takes the first in hand of those that are to be settled, and gives its URLs.
fn take_next_in_hand<W: Wire>(held: &mut HeldLooks<W>) -> Row<LookUrl>
    requires free { held.old.connections.hand ≡ None }
    requires some { 1 ≤ held.old.left }
    requires wait { held.old.left ≤ length held.old.connections.waiting }
    ensures takes { TakesFirstInHand result held.old.connections held.new.connections }
    ensures has { (start door : DoorView) (taken : List (List (List ℕ))) (over : List (ServedConnection ProxyServed))
        → HoldsConnections ProxyRight start taken over held.old.connections door → HoldsConnections ProxyRight start taken over held.new.connections door }
    ensures others { held.new ≡ record held.old { connections = held.new.connections; left = held.old.left - 1 } }
{
    let Some(urls) = held.connections.take_first::<ProxyServer>() else {
        unreachable!()
    };
    held.left -= 1;
    urls
}

/// Settles URLs by the find that is over, as far as it asked for them, and else by looks at this moment.
fn settle_by_find<W: Wire>(
    alloc: Global,
    held: &mut HeldLooks<W>,
    now: Moment,
    urls: Row<LookUrl>,
) -> Result<Settled, OutOfMemory>
    requires askable { All IsAskableUrl urls }
    requires within { held.old.place + length (open_hits urls) ≤ length held.old.past }
    requires few { held.old.asked ≤ length held.old.past }
    requires asked { IsAskedByEnded held.old.ended held.old.asked held.old.past }
    ensures settled { (target : Target) (need : Bool) (start : DeskStart) (events : List DeskEvent) (line : LineView) (one : MadeFind)
        → HasKeptDesk target need start events held.old.desk line
        → AreAskedBy start events (open_hits urls) (take (held.old.asked - held.old.place) (drop held.old.place held.old.past)) held.old.ended (Some one)
        → IfOk result (λ settled. SettlesAll (desk_at target need start events now line) (Some one) (take (held.old.asked - held.old.place) (drop held.old.place held.old.past)) urls settled held.new.desk) }
    ensures stopped { (target : Target) (need : Bool) (start : DeskStart) (events : List DeskEvent) (line : LineView) (one : MadeFind)
        → HasKeptDesk target need start events held.old.desk line
        → AreAskedBy start events (open_hits urls) (take (held.old.asked - held.old.place) (drop held.old.place held.old.past)) held.old.ended (Some one)
        → OnErr result (GoesOnLooking (desk_at target need start events now line) held.new.desk) }
    ensures askable { IfOk result (λ settled. All IsAskableUrl settled.urls) }
    ensures waits { held.new.desk.waits ≡ held.old.desk.waits }
    ensures opened { held.new.desk.opened ≡ held.old.desk.opened }
    ensures others { held.new ≡ record held.old { desk = held.new.desk; place = held.old.place + length (open_hits urls) } }
{
    let first = held.place.min(held.asked);
    held.move_on(count_open(urls.as_slice()));
    let asked = &held.past.as_slice()[first..held.asked];
    settle_urls(alloc, &mut held.desk, now, urls, asked, held.ended.as_ref())
}

/// Settles the first of those that are to be settled, and answers it or puts it off.
fn settle_first<O: Sink, M: Line, D: Door>(
    alloc: Global,
    plan: &ProxyPlan,
    held: &mut HeldLooks<D::Wire>,
    now: Moment,
    world: &mut LookWorld<O, M, D>,
)
    requires held { (start : LookStart) × (state : LookState) × HoldLooksSo plan.now start state held.old world.old × IsToSettle state }
    requires some { 1 ≤ held.old.left }
    ensures goes { (start : LookStart) (state : LookState) (lists : List Held) (ending : Bool) → HoldLooksSo plan.now start state held.old world.old → IsToSettle state
        → LooksGoTo (look_at plan.now start.desk lists now ending) start state IsToSettle held.new world.new }
    ensures fewer { held.new.left + 1 ≡ held.old.left }
    ensures opened { held.new.desk.opened ≡ held.old.desk.opened }
    ensures door { KeepsDoor world.old world.new }
{
    settled_urls_keep_their_looks();
    let urls = take_next_in_hand(held);
    match settle_by_find(alloc, held, now, urls) {
        Ok(settled) => decide(alloc, plan, held, false, now, settled, world),
        Err(OutOfMemory) => refuse(alloc, held, world),
    }
}

/// Settles those who waited for the find that is over, in their order: each is answered, or waits for the next find.
pub(crate) fn settle_waiting<O: Sink, M: Line, D: Door>(
    alloc: Global,
    plan: &ProxyPlan,
    held: &mut HeldLooks<D::Wire>,
    now: Moment,
    world: &mut LookWorld<O, M, D>,
)
    requires held { (start : LookStart) × (state : LookState) × HoldLooksSo plan.now start state held.old world.old × IsToSettle state }

    // Each is answered, or waits.
    ensures goes { (start : LookStart) (state : LookState) (lists : List Held) (ending : Bool) → HoldLooksSo plan.now start state held.old world.old → IsToSettle state
        → LooksGoTo (look_at plan.now start.desk lists now ending) start state HasNoLookLeft held.new world.new }
    ensures over { held.new.ended ≡ None }
    ensures opened { held.new.desk.opened ≡ held.old.desk.opened }
    ensures door { KeepsDoor world.old world.new }
{
    while held.left > 0 {
        settle_first(alloc, plan, held, now, world);
    }
    held.close();
}

/// What the URLs come to by what is known alone.
fn fate_by_kept<W: Wire>(
    alloc: Global,
    held: &mut HeldLooks<W>,
    urls: Row<LookUrl>,
) -> Result<LookFate, OutOfMemory>
    requires within { held.old.place + length (open_hits urls) ≤ length held.old.past }
    ensures fate { (start : DeskStart) (events : List DeskEvent) → AreLooksOf start events (open_hits urls) (take (length (open_hits urls)) (drop held.old.place held.old.past))
        → IfOk result (IsFateOf start events urls) }
    ensures others { held.new ≡ record held.old { place = held.old.place + length (open_hits urls) } }
{
    let first = held.place;
    held.move_on(count_open(urls.as_slice()));
    let looks = &held.past.as_slice()[first..held.place];
    fate_of_urls(alloc, &held.desk, urls, looks)
}

/// Answers the first of those that are to be settled by what is known.
fn release_first<O: Sink, M: Line, D: Door>(
    alloc: Global,
    held: &mut HeldLooks<D::Wire>,
    world: &mut LookWorld<O, M, D>,
)
    requires held { (plan : Plan) × (start : LookStart) × (state : LookState) × HoldLooksSo plan start state held.old world.old × IsReleasing state }
    requires some { 1 ≤ held.old.left }
    ensures goes { (plan : Plan) (start : LookStart) (state : LookState) (lists : List Held) (now : Read) (ending : Bool) → HoldLooksSo plan start state held.old world.old → IsReleasing state
        → LooksGoTo (look_at plan start.desk lists now ending) start state (IsReleasedFrom state) held.new world.new }
    ensures fewer { held.new.left + 1 ≡ held.old.left }
    ensures taken { held.new.connections.taken ≡ held.old.connections.taken }
    ensures others { held.new ≡ record held.old { connections = held.new.connections; place = held.new.place; left = held.new.left; stop = held.new.stop } }
    ensures door { KeepsDoor world.old world.new }
{
    let urls = take_next_in_hand(held);
    let fate = fate_by_kept(alloc, held, urls);
    answer_or_refuse(alloc, held, fate, world);
}

/// Answers all who wait by what is known, in their order: no find is to be had for them.
pub(crate) fn release_waiting<O: Sink, M: Line, D: Door>(
    alloc: Global,
    held: &mut HeldLooks<D::Wire>,
    world: &mut LookWorld<O, M, D>,
)
    requires held { (plan : Plan) × (start : LookStart) × (state : LookState) × HoldLooksSo plan start state held.old world.old × HasNoLookLeft state }
    requires closed { held.old.desk.opened ≡ None }

    // If no find is to be had, for these events at the desk, each is answered by what is known.
    ensures goes { (at : LookAt) (start : LookStart) (state : LookState) (more : List DeskEvent) → at.desk ≡ start.desk
        → HoldLooksSo at.plan start (record state { desk = state.desk ++ more; find_open = None }) held.old world.old → HasNoLookLeft state → MayGoWithout at state ByKept more
        → LooksGoTo at start state HasGivenAllBack held.new world.new }
    ensures nobody { held.new.connections.waiting ≡ [] }
    ensures others { held.new ≡ record held.old { connections = held.new.connections; looks = []; past = []; place = held.new.place; left = 0; stop = held.new.stop } }
    ensures taken { held.new.connections.taken ≡ held.old.connections.taken }
    ensures door { KeepsDoor world.old world.new }
{
    held.turn_over(alloc);
    while held.left > 0 {
        release_first(alloc, held, world);
    }
    held.clear_past();
}

/// Refuses the first of those that are to be settled.
fn refuse_first<O: Sink, M: Line, D: Door>(
    alloc: Global,
    held: &mut HeldLooks<D::Wire>,
    world: &mut LookWorld<O, M, D>,
)
    requires held { (plan : Plan) × (start : LookStart) × (state : LookState) × HoldLooksSo plan start state held.old world.old × IsRefusing state }
    requires some { 1 ≤ held.old.left }
    ensures goes { (plan : Plan) (start : LookStart) (state : LookState) (lists : List Held) (now : Read) (ending : Bool) → HoldLooksSo plan start state held.old world.old → IsRefusing state
        → LooksGoTo (look_at plan start.desk lists now ending) start state (IsRefusingFrom state) held.new world.new }
    ensures fewer { held.new.left + 1 ≡ held.old.left }
    ensures taken { held.new.connections.taken ≡ held.old.connections.taken }
    ensures others { held.new ≡ record held.old { connections = held.new.connections; place = held.new.place; left = held.new.left; stop = held.new.stop } }
    ensures door { KeepsDoor world.old world.new }
{
    let _urls = take_next_in_hand(held);
    refuse(alloc, held, world);
}

/// Refuses all who wait, since memory was refused for what they need.
pub(crate) fn refuse_waiting<O: Sink, M: Line, D: Door>(
    alloc: Global,
    held: &mut HeldLooks<D::Wire>,
    world: &mut LookWorld<O, M, D>,
)
    requires held { (plan : Plan) × (start : LookStart) × (state : LookState) × HoldLooksSo plan start state held.old world.old × HasNoLookLeft state }
    requires closed { held.old.desk.opened ≡ None }
    ensures goes { (at : LookAt) (start : LookStart) (state : LookState) → at.desk ≡ start.desk
        → HoldLooksSo at.plan start state held.old world.old → IsFindDue at state
        → LooksGoTo at start state HasGivenAllBack held.new world.new }
    ensures nobody { held.new.connections.waiting ≡ [] }
    ensures others { held.new ≡ record held.old { connections = held.new.connections; looks = []; past = []; place = held.new.place; left = 0; stop = held.new.stop } }
    ensures taken { held.new.connections.taken ≡ held.old.connections.taken }
    ensures door { KeepsDoor world.old world.new }
{
    held.turn_over(alloc);
    while held.left > 0 {
        refuse_first(alloc, held, world);
    }
    held.clear_past();
}
