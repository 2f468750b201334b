ghost use Rattle.std.specs.Prelude.{◌≡◌, ℕ, ◌+◌, ◌-◌, ◌^◌, ◌<◌, ◌≤◌, ◌↔◌, ◌⊎◌, min, List, [], ◌++◌, length, take, Some, IsErr, IfOk, OnOk, OnErr, Contains};
ghost use Rattle.sb_outside.specs.Outside.{Rose, raised, appended};
ghost use Rattle.memory_objects.specs.Memory.{SinkInMemory};

use sb_model::{OutOfMemory, Row};
use sb_outside::{Failed, Sink};
use std::alloc::Global;
use std::marker::Model;

/// A sink that keeps its bytes, in a room that it takes when it is made.
#[derive(Debug, Drop)]
pub struct MemorySink {
    bytes: Vec<u8>,
    room: usize,
    failing: Row<u64>,
    calls: u64,
    faults: u64,
    step: usize,
}

impl Model for MemorySink {
    ghost use Rattle.std.specs.Prelude.{◌<◌, ◌≤◌, vec_len, vec_capacity};
    ghost use Rattle.memory_objects.specs.Memory.{SinkInMemory};

    ghost Value = { SinkInMemory };

    ghost view = { λ s. record {
      held = s.bytes.items;
      room = s.room;
      failing = s.failing;
      calls = s.calls;
      faults = s.faults;
      step = s.step;
    } };

    ghost invariant = { λ s. (vec_len s.bytes ≤ s.room) × (s.room ≤ vec_capacity s.bytes) × (0 < s.step) };
}

impl MemorySink {
    /// An empty sink for at most `room` bytes. The calls of `write` with the numbers of the list
    /// fail, counted from 1. No later call takes memory.
    pub fn new(alloc: Global, room: usize, failing: Row<u64>) -> Result<Self, OutOfMemory>
        ensures { IfOk result (λ sink. sink
            ≡ record { held = []; room = room; failing = failing; calls = 0; faults = 0; step = 2 ^ 64 - 1 }) }
    {
        Ok(MemorySink {
            bytes: Vec::with_capacity(alloc, room)?,
            room,
            failing,
            calls: 0,
            faults: 0,
            step: usize::MAX,
        })
    }

    /// The same sink, which takes at most `step` bytes for a call.
    pub fn with_step(mut self, step: usize) -> Self
        requires { 0 < step }
        ensures { result ≡ record self { step = step } }
    {
        self.step = step;
        self
    }

    /// The bytes that were taken.
    pub fn bytes(&self) -> &[u8]
        ensures { result.now ≡ self.now.held }
    {
        self.bytes.as_slice()
    }

    /// How many calls failed.
    pub fn faults(&self) -> u64
        ensures { result ≡ self.now.faults }
    {
        self.faults
    }
}

impl Sink for MemorySink {
    ghost faults = { λ s. s.faults };

    ghost contents = { λ s. Some s.held };

    // It fails exactly at a listed call and where the bytes that it would take pass its room, and
    // takes what `step` allows at any other.
    fn write(&mut self, piece: &[u8]) -> Result<usize, Failed>
        ensures refused { IsErr result ↔ (Contains self.old.failing (raised self.old.calls)
            ⊎ (self.old.room < length self.old.held + min self.old.step (length piece.now))) }
        ensures count { IfOk result (λ n. n ≡ min self.old.step (length piece.now)) }
        ensures taken { IfOk result (λ n. self.new
            ≡ record self.old { held = self.old.held ++ take n piece.now; calls = raised self.old.calls }) }
        ensures unchanged { OnErr result (self.new
            ≡ record self.old { calls = raised self.old.calls; faults = raised self.old.faults }) }

        ensures within { IfOk result (λ n. n ≤ length piece.now) }
        ensures some { IfOk result (λ n. n ≡ 0 → piece.now ≡ []) }
        ensures kept { OnOk result (self.new.faults ≡ self.old.faults) }
        ensures counted { self.old.faults ≤ self.new.faults }
        ensures failed { OnErr result (Rose self.old.faults self.new.faults) }
        ensures bytes { IfOk result (λ n. Some self.new.held ≡ appended (Some self.old.held) (take n piece.now)) }
        ensures err { OnErr result (Some self.new.held ≡ Some self.old.held) }
    {
        self.calls = self.calls.saturating_add(1);
        let count = piece.len().min(self.step);
        let is_listed = self.failing.as_slice().contains(&self.calls);
        if is_listed || count > self.room - self.bytes.len() {
            self.faults = self.faults.saturating_add(1);
            return Err(Failed);
        }
        self.bytes.extend_from_slice(&piece[..count]).unwrap();
        Ok(count)
    }
}
