ghost use Rattle.std.specs.Prelude.{◌≡◌, ◌<◌, ◌+◌, ◌-◌, ◌^◌, ℕ, Bool, List, true, None, is_some, IfNone, IfOk, IfSome};
ghost use Rattle.held_connections.specs.Held.{wire_view};
ghost use Rattle.held_connections.specs.Over.{DoorView};
ghost use Rattle.held_connections.specs.Steps.{HandsOutWire};
ghost use Rattle.lookup_messages.specs.Messages.{AskedUrls};
ghost use Rattle.proxy_looks.specs.Urls.{lists_are_ready};
ghost use Rattle.proxy_run.specs.LookAllowed.{look_at, HasNoLookLeft};
ghost use Rattle.proxy_run.specs.LookSoFar.{HoldLooksSo, LookStart};
ghost use Rattle.proxy_run.specs.LookState.{HandLook, LookState};
ghost use Rattle.proxy_run.specs.LookSteps.{IsDeskKept, IsToLookUp, KeepsDoor, LooksGoTo, LooksTake};
ghost use Rattle.proxy_serving.specs.HeardLook.{IsHeardLook};
ghost use Rattle.url_checker.specs.Hits.{MarksAll};

use crate::ProxyPlan;
use crate::answering::{answer_by, refuse};
use crate::deciding::decide;
use crate::held::HeldLooks;
use crate::looks_world::LookWorld;
use client_line::Line;
use lookup_messages::LookupRequest;
use proxy_looks::{are_lists_ready, settle_urls, settled_urls_keep_their_looks, urls_of};
use proxy_serving::{LookFate, ProxyServer, asked_look};
use sb_model::{Moment, OutOfMemory};
use sb_outside::{Door, Sink, Wire};
use std::alloc::Global;
use update_client::ClientLists;
use url_checker::Sizes;

/// Looks the URLs of a look-up up that is in hand, and answers it or puts it off.
fn look_up<O: Sink, M: Line, D: Door>(
    alloc: Global,
    plan: &ProxyPlan,
    held: &mut HeldLooks<D::Wire>,
    lists: &ClientLists,
    sizes: &Sizes,
    request: &LookupRequest,
    now: Moment,
    world: &mut LookWorld<O, M, D>,
)
    requires some { is_some held.old.connections.hand ≡ true }
    requires desk { IsDeskKept plan.now held.old.desk world.old.finds }
    requires marked { MarksAll sizes.now.marks lists.now }
    ensures goes { (start : LookStart) (state : LookState) (hand : HandLook) (ending : Bool) → HoldLooksSo plan.now start state held.old world.old
        → IsToLookUp state hand → IsHeardLook hand.received request.now → lists_are_ready lists.now request.now ≡ true
        → LooksGoTo (look_at plan.now start.desk lists.now now ending) start state HasNoLookLeft held.new world.new }
    ensures door { KeepsDoor world.old world.new }
    ensures taken { held.new.connections.taken ≡ held.old.connections.taken }
    ensures opened { held.new.desk.opened ≡ held.old.desk.opened }
    ensures ended { held.new.ended ≡ held.old.ended }
{
    settled_urls_keep_their_looks();
    let Ok(urls) = urls_of(alloc, lists, sizes, request) else {
        refuse(alloc, held, world);
        return;
    };
    match settle_urls(alloc, &mut held.desk, now, urls, &[], None) {
        Ok(settled) => decide(alloc, plan, held, true, now, settled, world),
        Err(OutOfMemory) => refuse(alloc, held, world),
    }
}

/// The look-up that is in hand, if it is one.
fn heard_look<W: Wire>(
    alloc: Global,
    held: &HeldLooks<W>,
) -> Result<Option<LookupRequest>, OutOfMemory>
    requires { is_some held.now.connections.hand ≡ true }
    ensures some { IfOk result (λ found. IfSome found (λ message. IfSome held.now.connections.hand (λ heard. IsHeardLook heard.received message))) }
    ensures none { IfOk result (λ found. IfNone found (IfSome held.now.connections.hand (λ heard. (message : AskedUrls) → ¬ IsHeardLook heard.received message))) }
{
    let Some(received) = held.connections.received() else {
        unreachable!()
    };
    asked_look(alloc, received)
}

/// Looks at the connection in hand, of which nothing is known but what was heard, and answers it by these lists, whose sizes are these, or puts
/// it off.
fn look_at_new<O: Sink, M: Line, D: Door>(
    alloc: Global,
    plan: &ProxyPlan,
    held: &mut HeldLooks<D::Wire>,
    lists: &ClientLists,
    sizes: &Sizes,
    now: Moment,
    world: &mut LookWorld<O, M, D>,
)
    requires some { is_some held.old.connections.hand ≡ true }
    requires desk { IsDeskKept plan.now held.old.desk world.old.finds }
    requires marked { MarksAll sizes.now.marks lists.now }
    ensures goes { (start : LookStart) (state : LookState) (hand : HandLook) (ending : Bool) → HoldLooksSo plan.now start state held.old world.old
        → IsToLookUp state hand → LooksGoTo (look_at plan.now start.desk lists.now now ending) start state HasNoLookLeft held.new world.new }
    ensures door { KeepsDoor world.old world.new }
    ensures taken { held.new.connections.taken ≡ held.old.connections.taken }
    ensures opened { held.new.desk.opened ≡ held.old.desk.opened }
    ensures ended { held.new.ended ≡ held.old.ended }
{
    match heard_look(alloc, held) {
        Ok(Some(request)) => {
            if are_lists_ready(lists, &request) {
                look_up(alloc, plan, held, lists, sizes, &request, now, world);
            } else {
                answer_by(alloc, held, LookFate::Unanswered, world);
            }
        }
        Ok(None) => answer_by(alloc, held, LookFate::Unanswered, world),
        Err(OutOfMemory) => refuse(alloc, held, world),
    }
}

/// Hears a connection that the door gave, and answers it by these lists, whose sizes are these, or puts it off.
pub(crate) fn take_look<O: Sink, M: Line, D: Door>(
    alloc: Global,
    plan: &ProxyPlan,
    held: &mut HeldLooks<D::Wire>,
    lists: &ClientLists,
    sizes: &Sizes,
    now: Moment,
    wire: D::Wire,
    world: &mut LookWorld<O, M, D>,
)
    requires free { held.old.connections.hand ≡ None }
    requires few { held.old.connections.taken < 2 ^ 32 - 1 }
    requires desk { IsDeskKept plan.now held.old.desk world.old.finds }
    requires marked { MarksAll sizes.now.marks lists.now }

    // It is taken, and answered at once, or put off.
    ensures goes { (start : LookStart) (state : LookState) (before : DoorView) (pieces : List (List ℕ)) (ending : Bool)
        → HoldLooksSo plan.now start state held.old (record world.old { door = before }) → HasNoLookLeft state
        → HandsOutWire pieces before world.old.door
        (wire_view (D.Wire.number wire) (D.Wire.start wire) (D.Wire.Source.left wire) (D.Wire.Sink.contents wire) (D.Wire.Source.faults wire) (D.Wire.Sink.faults wire))
        → LooksTake (look_at plan.now start.desk lists.now now ending) start state pieces held.new world.new }
    ensures door { KeepsDoor world.old world.new }
    ensures taken { held.new.connections.taken ≡ held.old.connections.taken + 1 }
    ensures opened { held.new.desk.opened ≡ held.old.desk.opened }
    ensures ended { held.new.ended ≡ held.old.ended }
{
    held.connections.hear::<ProxyServer>(alloc, wire);
    look_at_new(alloc, plan, held, lists, sizes, now, world);
}
