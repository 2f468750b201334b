ghost use Rattle.std.specs.Prelude.{◌≡◌, ◌<◌, ◌^◌, ◌-◌, ◌+◌, ◌++◌, ◌∷◌, [], ℕ, List, None, true, false, length, IfNone, IfOk, IfSome};
ghost use Rattle.mirror_connections.specs.Answered.{BeginsFirst};
ghost use Rattle.mirror_connections.specs.Open.{most_waiting, wire_seen, HasConnections, WaitingSeen};
ghost use Rattle.mirror_connections.specs.Over.{DoorSeen, OverConnection};

use hash_messages::FindRequest;
use http_edge::HttpRequest;
use sb_model::{Moment, OutOfMemory};
use sb_outside::Wire;
use std::alloc::Global;
use std::collections::VecDeque;
use std::marker::Model;
use std::mem;

/// How many finds wait at most.
pub(crate) const MOST_WAITING: usize = 256;

/// A connection that asks a find: which it was of those that were taken, counted from 0, its request, and its wire.
#[derive(Drop)]
pub(crate) struct HeardFind<W> {
    pub(crate) number: u32,
    pub(crate) request: HttpRequest,
    pub(crate) wire: W,
}

/// One that waits for its turn: what it asks, and when it was heard.
#[derive(Drop)]
pub struct WaitingFind<W> {
    pub(crate) find: HeardFind<W>,
    pub(crate) asked: FindRequest,
    pub(crate) heard: Moment,
}

/// The connections of a mirror: how many were taken, the one whose find was begun, and those whose finds wait, at most 256.
#[derive(Drop)]
pub struct MirrorConnections<W: Wire> {
    taken: u32,
    pub(crate) begun: Option<HeardFind<W>>,
    pub(crate) waiting: VecDeque<WaitingFind<W>>,
}

impl<W: Wire> Model for MirrorConnections<W> {
    ghost use Rattle.std.specs.Prelude.{◌≤◌, length, map, option_map};
    ghost use Rattle.mirror_connections.specs.Open.{find_seen, most_waiting, waiting_seen, wire_seen, ConnectionsSeen};

    ghost Value = { ConnectionsSeen };

    ghost view = { λ m. record {
      taken = m.taken;
      begun = option_map (find_seen (λ wire. wire_seen (W.number wire) (W.start wire) (W.Source.left wire) (W.Sink.contents wire) (W.Source.faults wire) (W.Sink.faults wire))) m.begun;
      waiting = map (waiting_seen (λ wire. wire_seen (W.number wire) (W.start wire) (W.Source.left wire) (W.Sink.contents wire) (W.Source.faults wire) (W.Sink.faults wire))) m.waiting.items;
    } };

    ghost invariant = { λ m. (most_waiting ≤ m.waiting.cap) × (length m.waiting.items ≤ most_waiting) };
}

impl<W: Wire> MirrorConnections<W> {
    /// No connection was taken yet. Memory is taken here for all finds that may wait.
    pub fn new(alloc: Global) -> Result<MirrorConnections<W>, OutOfMemory>
        ensures first { IfOk result (λ connections. connections ≡ record { taken = 0; begun = None; waiting = [] }) }
        ensures begins { IfOk result (λ connections. (door : DoorSeen) → HasConnections door [] [] connections door) }
    {
        let waiting = VecDeque::with_capacity(alloc, MOST_WAITING)?;
        Ok(MirrorConnections {
            taken: 0,
            begun: None,
            waiting,
        })
    }

    /// How many connections were taken.
    pub fn taken(&self) -> u32
        ensures { result ≡ self.now.taken }
    {
        self.taken
    }

    /// Counts one more, and gives its number.
    pub(crate) fn count_one(&mut self) -> u32
        requires { self.old.taken < 2 ^ 32 - 1 }
        ensures number { result ≡ self.old.taken }
        ensures counted { self.new ≡ record self.old { taken = self.old.taken + 1 } }
    {
        let number = self.taken;
        self.taken += 1;
        number
    }

    /// Whether as many finds wait as may.
    pub(crate) fn is_full(&self) -> bool
        ensures full { result ≡ true → length self.now.waiting ≡ most_waiting }
        ensures room { result ≡ false → length self.now.waiting < most_waiting }
    {
        self.waiting.len() >= MOST_WAITING
    }

    /// Puts a find off behind those that wait.
    pub(crate) fn put_off(
        &mut self,
        number: u32,
        request: HttpRequest,
        wire: W,
        asked: FindRequest,
        heard: Moment,
    )
        requires { length self.old.waiting < most_waiting }
        ensures { self.new ≡ record self.old {
          waiting = self.old.waiting ++ record {
            find = record { number = number; request = request; wire = wire_seen (W.number wire) (W.start wire) (W.left wire) (W.contents wire) (W.Source.faults wire) (W.Sink.faults wire) };
            asked = asked;
            heard = heard;
          } ∷ [];
        } }
    {
        let find = HeardFind {
            number,
            request,
            wire,
        };
        match self.waiting.push_back(WaitingFind { find, asked, heard }) {
            Ok(()) => {}
            Err(_full) => unreachable!(),
        }
    }

    /// When the find was heard that waits longest.
    pub fn first_heard(&self) -> Option<Moment>
        ensures none { IfNone result (self.now.waiting ≡ []) }
        ensures some { IfSome result (λ heard. (first : WaitingSeen) × (rest : List WaitingSeen) × (self.now.waiting ≡ first ∷ rest) × (heard ≡ first.heard)) }
    {
        match self.waiting.front() {
            Some(first) => Some(first.heard),
            None => None,
        }
    }

    /// Begins the find that waits longest, and gives what it asks. Its connection stays open until it is answered or refused.
    pub fn begin_first(&mut self) -> Option<FindRequest>
        requires { self.old.begun ≡ None }
        ensures none { IfNone result ((self.old.waiting ≡ []) × (self.new ≡ self.old)) }
        ensures first { IfSome result (λ asked. BeginsFirst asked self.old self.new) }
        ensures has { (start door : DoorSeen) (taken : List (List (List ℕ))) (over : List OverConnection)
            → HasConnections start taken over self.old door → HasConnections start taken over self.new door }
    {
        let Some(first) = self.waiting.pop_front() else {
            return None;
        };
        let WaitingFind {
            find,
            asked,
            heard: _,
        } = first;
        match mem::replace(&mut self.begun, Some(find)) {
            None => {}
            Some(_open) => unreachable!(),
        }
        Some(asked)
    }
}
