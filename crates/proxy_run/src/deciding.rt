ghost use Rattle.std.specs.Prelude.{◌≡◌, ◌<◌, ◌++◌, true, false, Bool, List, None, is_some, length, OnErr, OnOk};
ghost use Rattle.held_connections.specs.Held.{waiting_limit};
ghost use Rattle.held_connections.specs.Steps.{PutsHandOff};
ghost use Rattle.proxy_looks.specs.Urls.{open_hits};
ghost use Rattle.proxy_run.specs.LookAllowed.{look_at};
ghost use Rattle.proxy_run.specs.LookEvents.{after_look_event};
ghost use Rattle.proxy_run.specs.LookEvents.LookEvent.{PutOff};
ghost use Rattle.proxy_run.specs.LookSoFar.{HoldLooksSo, LookOutside, LookStart};
ghost use Rattle.proxy_run.specs.LookState.{HandLook, LookState};
ghost use Rattle.proxy_run.specs.LookSteps.{HasSettledHand, IsToDecide, KeepsDoor, LooksGoTo, LooksMayNotWait, LooksMayWait};
ghost use Rattle.proxy_run.specs.declared.plan.ProxyPlan.{ProxyPlan as Plan};
ghost use Rattle.update_client.specs.Held.{Held};

use crate::ProxyPlan;
use crate::answering::{answer_or_refuse, refuse};
use crate::held::HeldLooks;
use crate::looks_world::LookWorld;
use client_line::Line;
use proxy_looks::{LookUrl, Settled, fate_of_urls, is_left_open};
use proxy_serving::ProxyServer;
use sb_model::{Moment, OutOfMemory, Row};
use sb_outside::{Door, Sink, Wire};
use std::alloc::Global;
use url_checker::Looks;

/// Whether a look-up whose URLs were settled so waits for a find.
fn may_wait<W: Wire>(
    plan: &ProxyPlan,
    held: &HeldLooks<W>,
    now: Moment,
    urls: &[LookUrl],
    looks: &[Looks],
) -> bool
    ensures waits { result ≡ true → LooksMayWait plan.now held.now now urls.now looks.now }
    ensures answered { result ≡ false → LooksMayNotWait plan.now held.now now urls.now looks.now }
{
    !looks.is_empty()
        && !is_left_open(urls)
        && !held.connections.is_full()
        && held.may_come(now, plan.patience)
}

/// Appends looks to others. If memory is refused, those stay as they are.
fn append_looks(to: &mut Row<Looks>, looks: Row<Looks>) -> Result<(), OutOfMemory>
    ensures appended { OnOk result (to.new ≡ to.old ++ looks) }
    ensures kept { OnErr result (to.new ≡ to.old) }
{
    let count = to.len();
    for look in looks.into_vec() {
        match to.push(look) {
            Ok(()) => {}
            Err(OutOfMemory) => {
                to.truncate(count);
                return Err(OutOfMemory);
            }
        }
    }
    Ok(())
}

/// Puts the connection in hand off, whose URLs are these, with these looks.
fn put_off<W: Wire>(
    held: &mut HeldLooks<W>,
    is_new: bool,
    urls: Row<LookUrl>,
    looks: Row<Looks>,
) -> Result<(), OutOfMemory>
    requires some { is_some held.old.connections.hand ≡ true }
    requires room { length held.old.connections.waiting < waiting_limit }
    ensures puts { (plan : Plan) (start : LookStart) (state : LookState) (hand : HandLook) (seen : LookOutside) → HoldLooksSo plan start state held.old seen
        → IsToDecide start state hand is_new urls looks → OnOk result (HoldLooksSo plan start (after_look_event state PutOff) held.new seen) }
    ensures puts_off { OnOk result (PutsHandOff urls held.old.connections held.new.connections) }
    ensures others { OnOk result (held.new ≡ record held.old { looks = held.old.looks ++ looks; connections = held.new.connections; waited = held.new.waited }) }
    ensures kept { OnErr result (held.new ≡ held.old) }
{
    append_looks(&mut held.looks, looks)?;
    held.connections.put_off::<ProxyServer>(urls);
    if is_new {
        held.count_one();
    }
    Ok(())
}

/// Answers the connection in hand, whose URLs were settled so, or puts it off.
pub(crate) fn decide<O: Sink, M: Line, D: Door>(
    alloc: Global,
    plan: &ProxyPlan,
    held: &mut HeldLooks<D::Wire>,
    is_new: bool,
    now: Moment,
    settled: Settled,
    world: &mut LookWorld<O, M, D>,
)
    requires some { is_some held.old.connections.hand ≡ true }
    requires many { length settled.looks ≡ length (open_hits settled.urls) }
    ensures goes { (start : LookStart) (state : LookState) (hand : HandLook) (lists : List Held) (ending : Bool)
        → HoldLooksSo plan.now start state held.old world.old → IsToDecide start state hand is_new settled.urls settled.looks
        → LooksGoTo (look_at plan.now start.desk lists now ending) start state (HasSettledHand state) held.new world.new }
    ensures others { held.new ≡ record held.old { looks = held.new.looks; connections = held.new.connections; waited = held.new.waited; stop = held.new.stop } }
    ensures free { held.new.connections.hand ≡ None }
    ensures taken { held.new.connections.taken ≡ held.old.connections.taken }
    ensures door { KeepsDoor world.old world.new }
{
    let Settled { urls, looks } = settled;
    if !may_wait(plan, held, now, urls.as_slice(), looks.as_slice()) {
        let fate = fate_of_urls(alloc, &held.desk, urls, looks.as_slice());
        answer_or_refuse(alloc, held, fate, world);
        return;
    }
    match put_off(held, is_new, urls, looks) {
        Ok(()) => {}
        Err(OutOfMemory) => refuse(alloc, held, world),
    }
}
