ghost use Rattle.std.specs.Prelude.{◌≡◌, ◌⊎◌, ◌+◌, ◌-◌, ◌^◌, ◌<◌, ◌≤◌, min, [], true, false, None, Some, is_some, length, IfNone, IfOk, IfSome};
ghost use Rattle.proxy_run.specs.LookEvents.{counted_up, first_stop};
ghost use Rattle.proxy_run.specs.LookSoFar.{look_start_at, HoldLooksSo, LookOutside};
ghost use Rattle.proxy_run.specs.LookState.{no_looks};
ghost use Rattle.proxy_run.specs.declared.plan.ProxyPlan.{ProxyPlan as Plan};

use crate::ProxyStop;
use find_desk::{EndedFind, FindDesk};
use held_connections::HeldConnections;
use proxy_looks::LookUrl;
use proxy_serving::ProxyServer;
use sb_model::{Moment, OutOfMemory, Row};
use sb_outside::Wire;
use std::alloc::Global;
use std::marker::Model;
use std::mem;
use url_checker::Looks;
use wait_rules::WaitState;

/// The look-ups that a proxy holds: its desk, the connections, and the looks of all URLs that are open.
#[derive(Drop)]
pub(crate) struct HeldLooks<W: Wire> {
    pub(crate) desk: FindDesk,
    pub(crate) connections: HeldConnections<W, Row<LookUrl>>,
    // the looks of the URLs that are open, of all who wait for the next find, in order
    pub(crate) looks: Row<Looks>,
    // those of who is to be settled
    pub(crate) past: Row<Looks>,
    // the place of the first of them that was not settled yet
    pub(crate) place: usize,
    // how many of those who wait are to be settled
    pub(crate) left: usize,
    // for how many looks the find asks that was begun last
    pub(crate) asked: usize,
    // the find by which they are to be settled
    pub(crate) ended: Option<EndedFind>,
    // how many connections waited, and how many finds were ended
    pub(crate) waited: u32,
    pub(crate) finds: u32,
    // what ends the run before its end
    pub(crate) stop: Option<ProxyStop>,
}

impl<W: Wire> Model for HeldLooks<W> {
    ghost use Rattle.proxy_run.specs.LookSoFar.{LookOwn};

    ghost Value = { LookOwn };

    ghost view = { λ h. record {
      desk = h.desk;
      connections = h.connections;
      looks = h.looks;
      past = h.past;
      place = h.place;
      left = h.left;
      asked = h.asked;
      ended = h.ended;
      waited = h.waited;
      finds = h.finds;
      stop = h.stop;
    } };
}

impl<W: Wire> HeldLooks<W> {
    /// No look-up is held. The first find may begin when this state of waiting says so.
    pub(crate) fn new(alloc: Global, waits: WaitState) -> Result<HeldLooks<W>, OutOfMemory>
        ensures desk { IfOk result (λ held. held.desk ≡ record { kept = []; waits = waits; opened = None }) }
        ensures taken { IfOk result (λ held. held.connections.taken ≡ 0) }
        ensures over { IfOk result (λ held. held.ended ≡ None) }
        ensures begins { IfOk result (λ held. (plan : Plan) (seen : LookOutside) → HoldLooksSo plan (look_start_at held seen) no_looks held seen) }
    {
        Ok(HeldLooks {
            desk: FindDesk::new(alloc, waits)?,
            connections: HeldConnections::new::<ProxyServer>(alloc)?,
            looks: Row::new(alloc),
            past: Row::new(alloc),
            place: 0,
            left: 0,
            asked: 0,
            ended: None,
            waited: 0,
            finds: 0,
            stop: None,
        })
    }

    /// How many connections were taken.
    pub(crate) fn taken(&self) -> u32
        ensures { result ≡ self.now.connections.taken }
    {
        self.connections.taken()
    }

    /// Whether something ended the run before its end.
    pub(crate) fn is_stopped(&self) -> bool
        ensures { result ≡ is_some self.now.stop }
    {
        self.stop.is_some()
    }

    /// What ended the run before its end, if something did.
    pub(crate) fn stop(&self) -> Option<ProxyStop>
        ensures { result ≡ self.now.stop }
    {
        self.stop
    }

    /// Whether a find is open.
    pub(crate) fn is_find_open(&self) -> bool
        ensures { result ≡ is_some self.now.desk.opened }
    {
        self.desk.is_open()
    }

    /// Whether a find is over, and those who waited for it are to be settled.
    pub(crate) fn is_to_settle(&self) -> bool
        ensures { result ≡ is_some self.now.ended }
    {
        self.ended.is_some()
    }

    /// The first moment at which a find may begin, if somebody waits for one and none is open.
    pub(crate) fn next_find_at(&self) -> Option<Moment>
        ensures none { IfNone result ((is_some self.now.desk.opened ≡ true) ⊎ (self.now.connections.waiting ≡ [])) }
        ensures some { IfSome result (λ at. (self.now.desk.opened ≡ None) × (at ≡ self.now.desk.waits.allowed_at)) }
    {
        if self.desk.is_open() || self.connections.count_waiting() == 0 {
            return None;
        }
        Some(self.desk.allowed_at())
    }

    /// Notes what ends the run. The first such cause stays.
    pub(crate) fn note(&mut self, stop: ProxyStop)
        ensures { self.new ≡ record self.old { stop = first_stop self.old.stop stop } }
    {
        if self.stop.is_none() {
            self.stop = Some(stop);
        }
    }

    /// Has all who wait to be settled.
    pub(crate) fn turn_over(&mut self, alloc: Global)
        ensures { self.new ≡ record self.old { looks = []; past = self.old.looks; place = 0; left = length self.old.connections.waiting } }
    {
        self.past = mem::replace(&mut self.looks, Row::new(alloc));
        self.place = 0;
        self.left = self.connections.count_waiting();
    }

    /// Holds the find that is over, by which all who wait are to be settled.
    pub(crate) fn hold_ended(&mut self, alloc: Global, ended: EndedFind)
        ensures { self.new ≡ record self.old {
          looks = [];
          past = self.old.looks;
          place = 0;
          left = length self.old.connections.waiting;
          finds = counted_up self.old.finds;
          ended = Some ended;
        } }
    {
        self.turn_over(alloc);
        self.finds = self.finds.saturating_add(1);
        self.ended = Some(ended);
    }

    /// Drops the looks of those who were settled.
    pub(crate) fn clear_past(&mut self)
        ensures { self.new ≡ record self.old { past = [] } }
    {
        self.past.clear();
    }

    /// Drops the find that is over, and the looks of those who were settled by it.
    pub(crate) fn close(&mut self)
        ensures { self.new ≡ record self.old { past = []; ended = None } }
    {
        self.past.clear();
        self.ended = None;
    }

    /// Goes on by so many of the looks of those who are to be settled.
    pub(crate) fn move_on(&mut self, count: usize)
        requires { self.old.place + count ≤ length self.old.past }
        ensures { self.new ≡ record self.old { place = self.old.place + count } }
    {
        let most = self.past.len();
        self.place = most.min(self.place.saturating_add(count));
    }

    /// Whether a find is open, or the next may begin before the patience is over.
    pub(crate) fn may_come(&self, now: Moment, patience: u64) -> bool
        ensures comes { result ≡ true → (is_some self.now.desk.opened ≡ true) ⊎ (self.now.desk.waits.allowed_at.0 ≤ min (now.0 + patience) (2 ^ 64 - 1)) }
        ensures late { result ≡ false → (self.now.desk.opened ≡ None) × (min (now.0 + patience) (2 ^ 64 - 1) < self.now.desk.waits.allowed_at.0) }
    {
        self.desk.is_open() || self.desk.allowed_at().0 <= now.0.saturating_add(patience)
    }

    /// Counts one more that waits.
    pub(crate) fn count_one(&mut self)
        ensures { self.new ≡ record self.old { waited = counted_up self.old.waited } }
    {
        self.waited = self.waited.saturating_add(1);
    }
}
