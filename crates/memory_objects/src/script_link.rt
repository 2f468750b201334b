ghost use Rattle.std.specs.Prelude.{◌≡◌, ℕ, ◌-◌, ◌^◌, ◌<◌, ◌≤◌, ◌↔◌, min, List, [], ◌∷◌, length, take, drop, Option, Some, None, IsOk, IfOk, OnOk, OnErr, IsSomeAnd, IfSome, IsTrue, is_ok, if◌then◌else◌};
ghost use Rattle.std.specs.Option.{option_map};
ghost use Rattle.sb_outside.specs.Outside.{Rose, IfTold, raised, with_entry};
ghost use Rattle.sb_outside.specs.Sessions.{begun_session, refused_session, with_sent, with_received, with_end, with_failure, with_close, last_changed};
ghost use Rattle.memory_objects.specs.Logs.{logged};
ghost use Rattle.memory_objects.specs.Plays.{PlayInMemory, LinkInMemory, log_of, past_of, CanBeginSession, CanCall, CanSend, after_call, after_giving, after_ask, is_session_answered, closed_at};

use crate::Play;
use crate::entries::Log;
use crate::played_session::PlayedSession;
use sb_model::{Moment, OutOfMemory, Row};
use sb_outside::{Failed, Kind, Link, Session};
use std::alloc::Global;
use std::collections::VecDeque;
use std::marker::Model;

/// A link that plays the sessions of a list. After the list `begin` fails.
#[derive(Drop)]
pub struct ScriptLink {
    alloc: Global,
    coming: VecDeque<Play>,
    past: Log<Session>,
    last: Option<PlayedSession>,
    faults: u64,
    step: usize,
}

impl Model for ScriptLink {
    ghost use Rattle.std.specs.Prelude.{◌≡◌, ◌≢◌, ◌<◌, [], Some, None};
    ghost use Rattle.memory_objects.specs.Plays.{LinkInMemory};
    ghost use Rattle.memory_objects.specs.Logs.{with_room};

    ghost Value = { LinkInMemory };

    ghost view = { λ s. record {
      coming = s.coming.items;
      past = s.past.0;
      last = s.last;
      entries = s.past.1;
      faults = s.faults;
      step = s.step;
    } };

    ghost invariant = { λ s. (s.last ≡ None → s.past.0 ≡ Some [])
        × (s.last ≢ None → with_room s.past.1 s.past.0 ≡ s.past.0) × (0 < s.step) };
}

impl ScriptLink {
    /// A link that plays these sessions, and logs at most `entries` of them. No later call takes memory.
    pub fn new(alloc: Global, coming: Row<Play>, entries: usize) -> Result<Self, OutOfMemory>
        ensures { IfOk result (λ link. link ≡ record {
          coming = coming;
          past = Some [];
          last = None;
          entries = entries;
          faults = 0;
          step = 2 ^ 64 - 1;
        }) }
    {
        Ok(ScriptLink {
            alloc,
            coming: VecDeque::from(coming.into_vec()),
            past: Log::new(alloc, entries)?,
            last: None,
            faults: 0,
            step: usize::MAX,
        })
    }

    /// The same link, which gives at most `step` bytes for a call.
    pub fn with_step(mut self, step: usize) -> Self
        requires { 0 < step }
        ensures { result ≡ record self { step = step } }
    {
        self.step = step;
        self
    }

    /// How many calls failed.
    pub fn faults(&self) -> u64
        ensures { result ≡ self.now.faults }
    {
        self.faults
    }

    /// The sessions, in the order in which they began, or `None` where there were more than the link has
    /// room for. It ends the link.
    pub fn into_log(self) -> Option<Row<Session>>
        ensures { result ≡ log_of self }
    {
        let mut past = self.past;
        retire(&mut past, self.last);
        past.into_entries().map(Row::from_vec)
    }
}

/// The next session, begun at a moment. It does not begin where none is to be played, and where its first
/// call fails.
fn begin_next(coming: &mut VecDeque<Play>, alloc: Global, at: Moment, kind: Kind) -> PlayedSession
    ensures begins { IsTrue result.session.began ↔ CanBeginSession coming.old.items }
    ensures begun { IsTrue result.session.began → result.session ≡ begun_session at kind }
    ensures refused { ¬ IsTrue result.session.began → result.session ≡ refused_session at kind }
    ensures rest { coming.new.items ≡ drop 1 coming.old.items }
    ensures plays { IsTrue result.session.began → (play : PlayInMemory) × (coming.old.items ≡ play ∷ coming.new.items)
        × (result ≡ record {
          session = begun_session at kind;
          left = play.gives;
          room = play.room;
          failing = play.failing;
          calls = 1;
          asks = play.asks;
        }) }
{
    match coming.pop_front() {
        Some(play) => play.begin(alloc, at, kind),
        None => PlayedSession::refused(alloc, at, kind),
    }
}

/// Puts the last session into the log, and drops what has no room there.
fn retire(past: &mut Log<Session>, last: Option<PlayedSession>)
    ensures { past.new ≡ (past_of past.old.1 past.old.0 last, past.old.1) }
{
    if let Some(session) = last {
        past.push(session.into_session());
    }
}

impl Link for ScriptLink {
    ghost faults = { λ s. s.faults };

    ghost log = { log_of };

    fn begin(&mut self, at: Moment, kind: Kind) -> Result<(), Failed>
        ensures begins { IsOk result ↔ CanBeginSession self.old.coming }
        ensures log { log_of self.new ≡ logged self.old.entries (log_of self.old)
            (if is_ok result then begun_session at kind else refused_session at kind) }
        ensures plays { OnOk result ((play : PlayInMemory) × (self.old.coming ≡ play ∷ self.new.coming)
            × (self.new.last ≡ Some (record {
              session = begun_session at kind;
              left = play.gives;
              room = play.room;
              failing = play.failing;
              calls = 1;
              asks = play.asks;
            }))) }
        ensures after { self.new ≡ record self.old {
          coming = drop 1 self.old.coming;
          past = self.new.past;
          last = self.new.last;
          faults = (if is_ok result then self.old.faults else raised self.old.faults);
        } }

        ensures kept { OnOk result (self.new.faults ≡ self.old.faults) }
        ensures counted { self.old.faults ≤ self.new.faults }
        ensures failed { OnErr result (Rose self.old.faults self.new.faults) }
        ensures ok { OnOk result (IfTold (log_of self.new) (with_entry (log_of self.old) (begun_session at kind))) }
        ensures err { OnErr result (IfTold (log_of self.new) (with_entry (log_of self.old) (refused_session at kind))) }
    {
        retire(&mut self.past, self.last.take());
        self.past.make_room();
        let session = begin_next(&mut self.coming, self.alloc, at, kind);
        let began = session.has_begun();
        self.last = Some(session);
        if began {
            return Ok(());
        }
        self.faults = self.faults.saturating_add(1);
        Err(Failed)
    }

    fn send(&mut self, piece: &[u8]) -> Result<(), Failed>
        ensures sends { IsOk result ↔ IsSomeAnd self.old.last (CanSend (length piece.now)) }
        ensures after { OnOk result (self.new ≡ record self.old {
          last = option_map (after_call (with_sent piece.now)) self.old.last;
        }) }
        ensures after_err { OnErr result (self.new ≡ record self.old {
          last = option_map (after_call with_failure) self.old.last;
          faults = raised self.old.faults;
        }) }

        ensures kept { OnOk result (self.new.faults ≡ self.old.faults) }
        ensures counted { self.old.faults ≤ self.new.faults }
        ensures failed { OnErr result (Rose self.old.faults self.new.faults) }
        ensures ok { OnOk result (IfTold (log_of self.new) (last_changed (with_sent piece.now) (log_of self.old))) }
        ensures err { OnErr result ((n : ℕ) × (n ≤ length piece.now) × IfTold (log_of self.new)
            (last_changed (λ session. with_failure (with_sent (take n piece.now) session)) (log_of self.old))) }
    {
        let Some(mut session) = self.last.take() else {
            self.faults = self.faults.saturating_add(1);
            return Err(Failed);
        };
        match session.send(piece) {
            Ok(()) => {
                self.last = Some(session);
                Ok(())
            }
            Err(Failed) => {
                self.last = Some(session);
                self.faults = self.faults.saturating_add(1);
                Err(Failed)
            }
        }
    }

    fn is_answered(&mut self) -> bool
        ensures answered { result ≡ is_session_answered self.old.last }
        ensures after { self.new ≡ record self.old { last = option_map after_ask self.old.last } }

        ensures faults { self.new.faults ≡ self.old.faults }
        ensures log { log_of self.new ≡ log_of self.old }
    {
        let Some(mut session) = self.last.take() else {
            return true;
        };
        let answered = session.is_answered();
        self.last = Some(session);
        answered
    }

    fn recv(&mut self, buffer: &mut [u8]) -> Result<usize, Failed>
        ensures receives { IsOk result ↔ IsSomeAnd self.old.last CanCall }
        ensures count { IfOk result (λ n. IfSome self.old.last (λ played.
            n ≡ min (length buffer.new) (min self.old.step (length played.left)))) }
        ensures some { IfOk result (λ n. 0 < n → self.new ≡ record self.old {
          last = option_map (after_giving (take n buffer.new)) self.old.last;
        }) }
        ensures front { IfOk result (λ n. IfSome self.old.last (λ played. take n buffer.new ≡ take n played.left)) }
        ensures no_more { IfOk result (λ n. n ≡ 0 → 0 < length buffer.new → self.new ≡ record self.old {
          last = option_map (after_call with_end) self.old.last;
        }) }
        ensures not_asked { OnOk result (length buffer.new ≡ 0 → self.new ≡ record self.old {
          last = option_map (after_call (λ session. session)) self.old.last;
        }) }
        ensures after_err { OnErr result (self.new ≡ record self.old {
          last = option_map (after_call with_failure) self.old.last;
          faults = raised self.old.faults;
        }) }

        ensures within { IfOk result (λ n. n ≤ length buffer.new) }
        ensures kept { OnOk result (self.new.faults ≡ self.old.faults) }
        ensures counted { self.old.faults ≤ self.new.faults }
        ensures failed { OnErr result (Rose self.old.faults self.new.faults) }
        ensures bytes { IfOk result (λ n. 0 < n →
            IfTold (log_of self.new) (last_changed (with_received (take n buffer.new)) (log_of self.old))) }
        ensures end { IfOk result (λ n. n ≡ 0 → 0 < length buffer.new →
            IfTold (log_of self.new) (last_changed with_end (log_of self.old))) }
        ensures idle { OnOk result (length buffer.new ≡ 0 → log_of self.new ≡ log_of self.old) }
        ensures err { OnErr result (IfTold (log_of self.new) (last_changed with_failure (log_of self.old))) }
    {
        let Some(mut session) = self.last.take() else {
            self.faults = self.faults.saturating_add(1);
            return Err(Failed);
        };
        match session.recv(buffer, self.step) {
            Ok(count) => {
                self.last = Some(session);
                Ok(count)
            }
            Err(Failed) => {
                self.last = Some(session);
                self.faults = self.faults.saturating_add(1);
                Err(Failed)
            }
        }
    }

    fn close(&mut self, at: Moment)
        ensures after { self.new ≡ record self.old {
          last = option_map (closed_at at) self.old.last;
        } }

        ensures kept { self.new.faults ≡ self.old.faults }
        ensures closed { IfTold (log_of self.new) (last_changed (with_close at) (log_of self.old)) }
    {
        let Some(mut session) = self.last.take() else {
            return;
        };
        session.close(at);
        self.last = Some(session);
    }
}
