ghost use Rattle.std.specs.Prelude.{◌≡◌, ◌<◌, ◌^◌, ◌-◌, ◌++◌, ◌∷◌, [], ℕ, List, None, Some, true, false, is_some, length, IfNone, IfOk, IfSome};
ghost use Rattle.held_connections.specs.Held.{waiting_limit, wire_view, HoldsConnections, HeardView, WaitingView};
ghost use Rattle.held_connections.specs.Over.{right_by, DoorView, ServedConnection};
ghost use Rattle.held_connections.specs.Steps.{HandsOutWire, PutsHandOff, TakesFirstInHand, TakesInHand};

use http_edge::{HttpRequest, RequestFault};
use http_serving::{Answers, hear_request};
use sb_model::OutOfMemory;
use sb_outside::Wire;
use std::alloc::Global;
use std::collections::VecDeque;
use std::marker::Model;
use std::mem;

/// How many connections wait at most.
const MOST_WAITING: usize = 256;

/// A connection that was heard: which it was of those that were taken, counted from 0, what was heard of it, and its wire.
#[derive(Drop)]
pub struct HeardConnection<W> {
    pub(crate) number: u32,
    pub(crate) received: Result<HttpRequest, RequestFault>,
    pub(crate) wire: W,
}

/// One that waits, and for what.
#[derive(Drop)]
pub struct WaitingConnection<W, P> {
    pub(crate) heard: HeardConnection<W>,
    pub(crate) wait: P,
}

/// The connections that a server holds: how many were taken, the one in hand, and those that wait, at most 256.
#[derive(Drop)]
pub struct HeldConnections<W: Wire, P> {
    taken: u32,
    pub(crate) hand: Option<HeardConnection<W>>,
    waiting: VecDeque<WaitingConnection<W, P>>,
}

impl<W: Wire, P> Model for HeldConnections<W, P> {
    ghost use Rattle.std.specs.Prelude.{◌≤◌, length, map, option_map};
    ghost use Rattle.held_connections.specs.Held.{heard_view, waiting_limit, waiting_view, wire_view, HeldView};

    ghost Value = { HeldView P };

    ghost view = { λ m. record {
      taken = m.taken;
      hand = option_map (heard_view (λ wire. wire_view (W.number wire) (W.start wire) (W.Source.left wire) (W.Sink.contents wire) (W.Source.faults wire) (W.Sink.faults wire))) m.hand;
      waiting = map (waiting_view (λ wire. wire_view (W.number wire) (W.start wire) (W.Source.left wire) (W.Sink.contents wire) (W.Source.faults wire) (W.Sink.faults wire))) m.waiting.items;
    } };

    ghost invariant = { λ m. (waiting_limit ≤ m.waiting.cap) × (length m.waiting.items ≤ waiting_limit) };
}

impl<W: Wire, P> HeldConnections<W, P> {
    /// No connection was taken yet. Memory is taken here for all that may wait.
    pub fn new<A: Answers>(alloc: Global) -> Result<HeldConnections<W, P>, OutOfMemory>
        ensures first { IfOk result (λ held. held ≡ record { taken = 0; hand = None; waiting = [] }) }
        ensures begins { IfOk result (λ held. (door : DoorView) → HoldsConnections (right_by A.routes A.right) door [] [] held door) }
    {
        let waiting = VecDeque::with_capacity(alloc, MOST_WAITING)?;
        Ok(HeldConnections {
            taken: 0,
            hand: None,
            waiting,
        })
    }

    /// How many connections were taken.
    pub fn taken(&self) -> u32
        ensures { result ≡ self.now.taken }
    {
        self.taken
    }

    /// How many wait.
    pub fn count_waiting(&self) -> usize
        ensures { result ≡ length self.now.waiting }
    {
        self.waiting.len()
    }

    /// Whether as many wait as may.
    pub fn is_full(&self) -> bool
        ensures full { result ≡ true → length self.now.waiting ≡ waiting_limit }
        ensures room { result ≡ false → length self.now.waiting < waiting_limit }
    {
        self.waiting.len() >= MOST_WAITING
    }

    /// For what the first waits of those that wait.
    pub fn first(&self) -> Option<&P>
        ensures none { IfNone result (self.now.waiting ≡ []) }
        ensures some { IfSome result (λ wait. (first : WaitingView P) × (rest : List (WaitingView P)) × (self.now.waiting ≡ first ∷ rest) × (wait.now ≡ first.wait)) }
    {
        match self.waiting.front() {
            Some(first) => Some(&first.wait),
            None => None,
        }
    }

    /// What was heard of the connection in hand.
    pub fn received(&self) -> Option<&Result<HttpRequest, RequestFault>>
        ensures none { IfNone result (self.now.hand ≡ None) }
        ensures some { IfSome result (λ received. (heard : HeardView) × (self.now.hand ≡ Some heard) × (received.now ≡ heard.received)) }
    {
        match &self.hand {
            Some(heard) => Some(&heard.received),
            None => None,
        }
    }

    /// Hears a connection that a door gave, and takes it in hand. It may block while the peer sends its request.
    pub fn hear<A: Answers>(&mut self, alloc: Global, wire: W)
        requires free { self.old.hand ≡ None }
        requires few { self.old.taken < 2 ^ 32 - 1 }
        ensures takes { TakesInHand (W.Source.left wire) self.old self.new }
        ensures has { (start before door : DoorView) (taken : List (List (List ℕ))) (pieces : List (List ℕ)) (over : List (ServedConnection A))
            → HoldsConnections (right_by A.routes A.right) start taken over self.old before
            → HandsOutWire pieces before door (wire_view (W.number wire) (W.start wire) (W.Source.left wire) (W.Sink.contents wire) (W.Source.faults wire) (W.Sink.faults wire))
            → HoldsConnections (right_by A.routes A.right) start (taken ++ pieces ∷ []) over self.new door }
    {
        let number = self.taken;
        self.taken += 1;
        let mut wire = wire;
        let received = hear_request(alloc, &mut wire);
        let heard = HeardConnection {
            number,
            received,
            wire,
        };
        match mem::replace(&mut self.hand, Some(heard)) {
            None => {}
            Some(_open) => unreachable!(),
        }
    }

    /// Puts the connection in hand behind those that wait.
    pub fn put_off<A: Answers>(&mut self, wait: P)
        requires some { is_some self.old.hand ≡ true }
        requires room { length self.old.waiting < waiting_limit }
        ensures puts { PutsHandOff wait self.old self.new }
        ensures has { (start door : DoorView) (taken : List (List (List ℕ))) (over : List (ServedConnection A))
            → HoldsConnections (right_by A.routes A.right) start taken over self.old door → HoldsConnections (right_by A.routes A.right) start taken over self.new door }
    {
        let Some(heard) = self.hand.take() else {
            unreachable!()
        };
        match self.waiting.push_back(WaitingConnection { heard, wait }) {
            Ok(()) => {}
            Err(_full) => unreachable!(),
        }
    }

    /// Takes the first of those that wait in hand, and gives for what it waited. `None` if none waits.
    pub fn take_first<A: Answers>(&mut self) -> Option<P>
        requires { self.old.hand ≡ None }
        ensures none { IfNone result ((self.old.waiting ≡ []) × (self.new ≡ self.old)) }
        ensures first { IfSome result (λ wait. TakesFirstInHand wait self.old self.new) }
        ensures has { (start door : DoorView) (taken : List (List (List ℕ))) (over : List (ServedConnection A))
            → HoldsConnections (right_by A.routes A.right) start taken over self.old door → HoldsConnections (right_by A.routes A.right) start taken over self.new door }
    {
        let Some(first) = self.waiting.pop_front() else {
            return None;
        };
        let WaitingConnection { heard, wait } = first;
        match mem::replace(&mut self.hand, Some(heard)) {
            None => {}
            Some(_open) => unreachable!(),
        }
        Some(wait)
    }
}
