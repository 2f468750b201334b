ghost use Rattle.std.specs.Prelude.{◌≡◌, ℕ, ◌-◌, ◌^◌, ◌<◌, ◌≤◌, ◌↔◌, min, List, length, take, Some, IsErr, IfOk, OnOk, OnErr, Contains};
ghost use Rattle.sb_outside.specs.Outside.{Rose, GivesFront, AnswersEnd, raised, next_piece};
ghost use Rattle.memory_objects.specs.Memory.{SourceInMemory};

use sb_model::{Bytes, Row};
use sb_outside::{Failed, Source};
use std::marker::Model;

/// A source that gives the pieces of a list. The end of each piece is answered by one zero, and after
/// the last piece the answer stays zero.
#[derive(Debug, Drop)]
pub struct MemorySource {
    pieces: Row<Bytes>,
    // the piece that comes next, and how many bytes of it are given
    piece: usize,
    given: usize,
    failing: Row<u64>,
    calls: u64,
    faults: u64,
    step: usize,
}

impl Model for MemorySource {
    ghost use Rattle.std.specs.Prelude.{◌<◌, ◌≤◌, drop, length};
    ghost use Rattle.memory_objects.specs.Memory.{SourceInMemory, without_front};
    ghost use Rattle.sb_outside.specs.Outside.{next_piece};

    ghost Value = { SourceInMemory };

    ghost view = { λ s. record {
      left = without_front s.given (drop s.piece s.pieces);
      failing = s.failing;
      calls = s.calls;
      faults = s.faults;
      step = s.step;
    } };

    ghost invariant = { λ s. (s.given ≤ length (next_piece (drop s.piece s.pieces))) × (0 < s.step) };
}

impl MemorySource {
    /// A source of these pieces. The calls of `read` with the numbers of the second list fail,
    /// counted from 1.
    pub fn new(pieces: Row<Bytes>, failing: Row<u64>) -> Self
        ensures { result ≡ record { left = pieces; failing = failing; calls = 0; faults = 0; step = 2 ^ 64 - 1 } }
    {
        MemorySource {
            pieces,
            piece: 0,
            given: 0,
            failing,
            calls: 0,
            faults: 0,
            step: usize::MAX,
        }
    }

    /// The same source, with at most `step` bytes for a call.
    pub fn with_step(mut self, step: usize) -> Self
        requires { 0 < step }
        ensures { result ≡ record self { step = step } }
    {
        self.step = step;
        self
    }

    /// How many calls failed.
    pub fn faults(&self) -> u64
        ensures { result ≡ self.now.faults }
    {
        self.faults
    }
}

/// Copies into the front of the buffer what it has room for, and at most `step` bytes.
pub(crate) fn copy_front(buffer: &mut [u8], bytes: &[u8], step: usize) -> usize
    ensures count { result ≡ min (length buffer.old) (min step (length bytes.now)) }
    ensures front { take result buffer.new ≡ take result bytes.now }
{
    let count = buffer.len().min(step.min(bytes.len()));
    buffer[..count].copy_from_slice(&bytes[..count]);
    count
}

impl Source for MemorySource {
    ghost faults = { λ s. s.faults };

    ghost left = { λ s. Some s.left };

    // At a call that is not listed it gives as many bytes as it can, up to the end of the piece.
    #[tactic(auto, using(crate::proofs::Pieces::drop_at))]
    fn read(&mut self, buffer: &mut [u8]) -> Result<usize, Failed>
        ensures listed { IsErr result ↔ Contains self.old.failing (raised self.old.calls) }
        ensures count { IfOk result (λ n. n ≡ min (length buffer.new) (min self.old.step (length (next_piece self.old.left)))) }
        ensures ok { OnOk result (self.new ≡ record self.old { left = self.new.left; calls = raised self.old.calls }) }
        ensures refused { OnErr result (self.new
            ≡ record self.old { calls = raised self.old.calls; faults = raised self.old.faults }) }

        ensures within { IfOk result (λ n. n ≤ length buffer.new) }
        ensures kept { OnOk result (self.new.faults ≡ self.old.faults) }
        ensures counted { self.old.faults ≤ self.new.faults }
        ensures failed { OnErr result (Rose self.old.faults self.new.faults) }
        ensures bytes { IfOk result (λ n. 0 < n →
            GivesFront (take n buffer.new) (Some self.old.left) (Some self.new.left)) }
        ensures end { IfOk result (λ n. n ≡ 0 → 0 < length buffer.new →
            AnswersEnd (Some self.old.left) (Some self.new.left)) }
        ensures idle { length buffer.new ≡ 0 → Some self.new.left ≡ Some self.old.left }
        ensures err { OnErr result (Some self.new.left ≡ Some self.old.left) }
    {
        self.calls = self.calls.saturating_add(1);
        if self.failing.as_slice().contains(&self.calls) {
            self.faults = self.faults.saturating_add(1);
            return Err(Failed);
        }
        if buffer.is_empty() || self.piece >= self.pieces.len() {
            return Ok(0);
        }
        let rest = &self.pieces.at(self.piece).as_slice()[self.given..];
        let count = copy_front(buffer, rest, self.step);
        if count == 0 {
            self.piece += 1;
            self.given = 0;
        } else {
            self.given += count;
        }
        Ok(count)
    }
}
