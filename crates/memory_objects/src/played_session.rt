ghost use Rattle.std.specs.Prelude.{◌≡◌, ℕ, ◌+◌, ◌<◌, ◌≤◌, ◌==◌, ◌↔◌, if◌then◌else◌, min, List, [], length, take, drop, IfOk, IfSome, IsOk, OnOk, OnErr, IsTrue, true, false, Contains};
ghost use Rattle.sb_outside.specs.Outside.{raised};
ghost use Rattle.sb_outside.specs.Sessions.{begun_session, refused_session, with_sent, with_end, with_failure};
ghost use Rattle.memory_objects.specs.Plays.{PlayInMemory, SessionInMemory, is_session_open, CanCall, CanSend, after_call, after_giving, after_ask, closed_at};

use crate::memory_source::copy_front;
use sb_model::{Bytes, Moment, OutOfMemory, Row};
use sb_outside::{Failed, Kind, Session};
use std::alloc::Global;
use std::marker::Model;

/// A session that a link in memory is to play.
#[derive(Debug, Drop)]
pub struct Play {
    gives: Bytes,
    sent: Vec<u8>,
    room: usize,
    failing: Row<u64>,
    asks: u64,
}

impl Model for Play {
    ghost use Rattle.std.specs.Prelude.{◌≡◌, ◌≤◌, [], vec_capacity};
    ghost use Rattle.memory_objects.specs.Plays.{PlayInMemory};

    ghost Value = { PlayInMemory };

    ghost view = { λ s. record { gives = s.gives; room = s.room; failing = s.failing; asks = s.asks } };

    ghost invariant = { λ s. (s.sent.items ≡ []) × (s.room ≤ vec_capacity s.sent) };
}

impl Play {
    /// A session that gives these bytes and then ends, and that takes at most `room` bytes. Its calls
    /// with the numbers of the list fail: `begin` is call 1, and `close` is none.
    pub fn new(
        alloc: Global,
        gives: Bytes,
        room: usize,
        failing: Row<u64>,
    ) -> Result<Self, OutOfMemory>
        ensures { IfOk result (λ play. play ≡ record { gives = gives; room = room; failing = failing; asks = 0 }) }
    {
        Ok(Play {
            gives,
            sent: Vec::with_capacity(alloc, room)?,
            room,
            failing,
            asks: 0,
        })
    }

    /// The same session, which says `asks` times that it is not answered yet.
    pub fn with_asks(mut self, asks: u64) -> Self
        ensures { result ≡ record self { asks = asks } }
    {
        self.asks = asks;
        self
    }

    /// The session as it begins at a moment, or as its beginning fails.
    pub(crate) fn begin(self, alloc: Global, at: Moment, kind: Kind) -> PlayedSession
        ensures refused { IsTrue result.session.began ↔ ¬ Contains self.failing 1 }
        ensures entry { result.session ≡ (if result.session.began then begun_session at kind else refused_session at kind) }
        ensures rest { result ≡ record {
          session = result.session;
          left = self.gives;
          room = self.room;
          failing = self.failing;
          calls = 1;
          asks = self.asks;
        } }
    {
        let began = !self.failing.as_slice().contains(&1);
        PlayedSession {
            session: new_session(alloc, at, kind, began),
            gives: self.gives,
            given: 0,
            sent: self.sent,
            room: self.room,
            failing: self.failing,
            calls: 1,
            asks: self.asks,
        }
    }
}

/// A session of which nothing was sent or received. It takes no memory.
fn new_session(alloc: Global, at: Moment, kind: Kind, began: bool) -> Session
    ensures { result ≡ (if began then begun_session at kind else refused_session at kind) }
{
    Session {
        kind,
        begun: at,
        began,
        sent: Bytes::new(alloc),
        received: Bytes::new(alloc),
        ended: false,
        failed: !began,
        closed: None,
    }
}

/// A session that is played. Its own lists of bytes are put into its entry when the next one begins.
#[derive(Debug, Drop)]
pub(crate) struct PlayedSession {
    session: Session,
    gives: Bytes,
    given: usize,
    sent: Vec<u8>,
    room: usize,
    failing: Row<u64>,
    calls: u64,
    asks: u64,
}

impl Model for PlayedSession {
    ghost use Rattle.std.specs.Prelude.{◌≤◌, take, drop, length, vec_len, vec_capacity};
    ghost use Rattle.memory_objects.specs.Plays.{SessionInMemory};

    ghost Value = { SessionInMemory };

    ghost view = { λ s. record {
      session = record s.session { sent = s.sent.items; received = take s.given s.gives };
      left = drop s.given s.gives;
      room = s.room;
      failing = s.failing;
      calls = s.calls;
      asks = s.asks;
    } };

    ghost invariant = { λ s. (s.given ≤ length s.gives) × (vec_len s.sent ≤ s.room) × (s.room ≤ vec_capacity s.sent) };
}

impl PlayedSession {
    /// A session whose beginning failed, since none was to be played. It takes no memory.
    pub(crate) fn refused(alloc: Global, at: Moment, kind: Kind) -> Self
        ensures { result.session ≡ refused_session at kind }
    {
        PlayedSession {
            session: new_session(alloc, at, kind, false),
            gives: Bytes::new(alloc),
            given: 0,
            sent: Vec::new(alloc),
            room: 0,
            failing: Row::new(alloc),
            calls: 1,
            asks: 0,
        }
    }

    /// Whether it began.
    pub(crate) fn has_begun(&self) -> bool
        ensures { result ≡ self.now.session.began }
    {
        self.session.began
    }

    /// Counts a call, and says whether it may do what it is asked.
    fn call(&mut self) -> bool
        ensures can { IsTrue result ↔ CanCall self.old }
        ensures counted { self.new ≡ record self.old { calls = raised self.old.calls } }
    {
        self.calls = self.calls.saturating_add(1);
        let is_listed = self.failing.as_slice().contains(&self.calls);
        self.session.began && self.session.closed.is_none() && !is_listed
    }

    pub(crate) fn send(&mut self, piece: &[u8]) -> Result<(), Failed>
        ensures sends { IsOk result ↔ CanSend (length piece.now) self.old }
        ensures ok { OnOk result (self.new ≡ after_call (with_sent piece.now) self.old) }
        ensures err { OnErr result (self.new ≡ after_call with_failure self.old) }
    {
        if self.call() && piece.len() <= self.room - self.sent.len() {
            self.sent.extend_from_slice(piece).unwrap();
            return Ok(());
        }
        self.session.failed = true;
        Err(Failed)
    }

    /// Says whether it is answered.
    pub(crate) fn is_answered(&mut self) -> bool
        ensures answered { result ≡ (self.old.asks == 0) }
        ensures after { self.new ≡ after_ask self.old }
    {
        if self.asks == 0 {
            return true;
        }
        self.asks -= 1;
        false
    }

    pub(crate) fn recv(&mut self, buffer: &mut [u8], step: usize) -> Result<usize, Failed>
        requires { 0 < step }
        ensures receives { IsOk result ↔ CanCall self.old }
        ensures count { IfOk result (λ n. n ≡ min (length buffer.new) (min step (length self.old.left))) }
        ensures bytes { IfOk result (λ n. take n buffer.new ≡ take n self.old.left) }
        ensures ok { IfOk result (λ n. 0 < n → self.new ≡ after_giving (take n buffer.new) self.old) }
        ensures end { IfOk result (λ n. n ≡ 0 → 0 < length buffer.new → self.new ≡ after_call with_end self.old) }
        ensures idle { OnOk result (length buffer.new ≡ 0 → self.new ≡ after_call (λ session. session) self.old) }
        ensures err { OnErr result (self.new ≡ after_call with_failure self.old) }
    {
        if !self.call() {
            self.session.failed = true;
            return Err(Failed);
        }
        let count = copy_front(buffer, &self.gives.as_slice()[self.given..], step);
        if count == 0 && !buffer.is_empty() {
            self.session.ended = true;
            return Ok(0);
        }
        self.given += count;
        Ok(count)
    }

    pub(crate) fn close(&mut self, at: Moment)
        ensures { self.new ≡ closed_at at self.old }
    {
        self.session.closed = Some(at);
    }

    /// The entry of the log. It takes no memory.
    pub(crate) fn into_session(self) -> Session
        ensures { result ≡ self.session }
    {
        let mut session = self.session;
        let mut received = self.gives;
        received.truncate(self.given);
        session.received = received;
        session.sent = Bytes::from_vec(self.sent);
        session
    }
}
