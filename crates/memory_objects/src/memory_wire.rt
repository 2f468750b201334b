ghost use Rattle.std.specs.Prelude.{◌≡◌, ℕ, ◌+◌, ◌-◌, ◌^◌, ◌<◌, ◌≤◌, ◌↔◌, ◌⊎◌, min, List, [], ◌++◌, length, take, Some, IsErr, IfOk, OnOk, OnErr, Contains};
ghost use Rattle.sb_outside.specs.Outside.{Rose, GivesFront, AnswersEnd, SinkSide, SourceSide, raised, next_piece, appended};
ghost use Rattle.sb_outside.specs.Connections.{IsEntryOf, pieces_of_wire};
ghost use Rattle.memory_objects.specs.Wires.{WireInMemory, fresh};

use crate::memory_source::copy_front;
use sb_model::{Bytes, OutOfMemory, Row};
use sb_outside::{Connection, Failed, Sink, Source, Wire};
use std::alloc::Global;
use std::marker::Model;

/// A connection in memory. It gives some bytes and then the end of input, and keeps what is written, in a
/// room that it takes when it is made. A door in memory hands it out.
#[derive(Debug, Drop)]
pub struct MemoryWire {
    number: usize,
    sends: Bytes,
    // how many of these bytes are given, and whether the end after them was answered
    given: usize,
    has_ended: bool,
    written: Vec<u8>,
    room: usize,
    failing_reads: Row<u64>,
    failing_writes: Row<u64>,
    reads: u64,
    writes: u64,
    read_faults: u64,
    write_faults: u64,
    step: usize,
}

impl Model for MemoryWire {
    ghost use Rattle.std.specs.Prelude.{◌≡◌, ◌<◌, ◌≤◌, [], drop, length, vec_len, vec_capacity, true, if◌then◌else◌};
    ghost use Rattle.memory_objects.specs.Wires.{WireInMemory};
    ghost use Rattle.sb_outside.specs.Connections.{pieces_of_wire};

    ghost Value = { WireInMemory };

    ghost view = { λ s. record {
      number = s.number;
      sends = s.sends;
      left = (if s.has_ended then [] else pieces_of_wire (drop s.given s.sends));
      written = s.written.items;
      room = s.room;
      failing_reads = s.failing_reads;
      failing_writes = s.failing_writes;
      reads = s.reads;
      writes = s.writes;
      read_faults = s.read_faults;
      write_faults = s.write_faults;
      step = s.step;
    } };

    ghost invariant = { λ s. (s.given ≤ length s.sends) × (s.has_ended ≡ true → s.given ≡ length s.sends)
        × (vec_len s.written ≤ s.room) × (s.room ≤ vec_capacity s.written) × (0 < s.step) };
}

impl MemoryWire {
    /// A wire that gives these bytes, and takes at most `room` bytes. The reads and the writes with the
    /// numbers of the two lists fail, each counted from 1. No later call takes memory.
    pub fn new(
        alloc: Global,
        sends: Bytes,
        room: usize,
        failing_reads: Row<u64>,
        failing_writes: Row<u64>,
    ) -> Result<Self, OutOfMemory>
        ensures { IfOk result (λ wire. wire ≡ record {
          number = 0;
          sends = sends;
          left = pieces_of_wire sends;
          written = [];
          room = room;
          failing_reads = failing_reads;
          failing_writes = failing_writes;
          reads = 0;
          writes = 0;
          read_faults = 0;
          write_faults = 0;
          step = 2 ^ 64 - 1;
        }) }
    {
        Ok(MemoryWire {
            number: 0,
            sends,
            given: 0,
            has_ended: false,
            written: Vec::with_capacity(alloc, room)?,
            room,
            failing_reads,
            failing_writes,
            reads: 0,
            writes: 0,
            read_faults: 0,
            write_faults: 0,
            step: usize::MAX,
        })
    }

    /// The same wire, with at most `step` bytes for a call.
    pub fn with_step(mut self, step: usize) -> Self
        requires { 0 < step }
        ensures { result ≡ record self { step = step } }
    {
        self.step = step;
        self
    }

    /// The bytes that were written to it.
    pub fn written(&self) -> &[u8]
        ensures { result.now ≡ self.now.written }
    {
        self.written.as_slice()
    }

    /// The wire as it begins, under a number.
    pub(crate) fn begin(mut self, number: usize) -> Self
        ensures { result ≡ fresh number self }
    {
        self.number = number;
        self.given = 0;
        self.has_ended = false;
        self.written.clear();
        self.reads = 0;
        self.writes = 0;
        self.read_faults = 0;
        self.write_faults = 0;
        self
    }

    pub(crate) fn number(&self) -> usize
        ensures { result ≡ self.now.number }
    {
        self.number
    }

    /// The entry of a log that says what came of the wire. It takes no memory.
    pub(crate) fn into_connection(self) -> Connection
        ensures { IsEntryOf result (Some (pieces_of_wire self.sends)) (Some self.left) (Some self.written)
            self.read_faults self.write_faults }
    {
        let mut given = self.sends;
        given.truncate(self.given);
        Connection {
            given,
            ended: self.has_ended,
            written: Bytes::from_vec(self.written),
            read_fault: self.read_faults > 0,
            write_fault: self.write_faults > 0,
        }
    }
}

impl Source for MemoryWire {
    ghost faults = { λ s. s.read_faults };

    ghost left = { λ s. Some s.left };

    ghost back = { λ s. record {
      number = s.number;
      start = Some (pieces_of_wire s.sends);
      contents = Some s.written;
      faults = s.write_faults;
    } };

    // At a call that is not listed it gives as many bytes as it can.
    fn read(&mut self, buffer: &mut [u8]) -> Result<usize, Failed>
        ensures listed { IsErr result ↔ Contains self.old.failing_reads (raised self.old.reads) }
        ensures count { IfOk result (λ n. n ≡ min (length buffer.new) (min self.old.step (length (next_piece self.old.left)))) }
        ensures ok { OnOk result (self.new ≡ record self.old { left = self.new.left; reads = raised self.old.reads }) }
        ensures refused { OnErr result (self.new
            ≡ record self.old { reads = raised self.old.reads; read_faults = raised self.old.read_faults }) }

        ensures within { IfOk result (λ n. n ≤ length buffer.new) }
        ensures kept { OnOk result (self.new.read_faults ≡ self.old.read_faults) }
        ensures counted { self.old.read_faults ≤ self.new.read_faults }
        ensures failed { OnErr result (Rose self.old.read_faults self.new.read_faults) }
        ensures bytes { IfOk result (λ n. 0 < n →
            GivesFront (take n buffer.new) (Some self.old.left) (Some self.new.left)) }
        ensures end { IfOk result (λ n. n ≡ 0 → 0 < length buffer.new →
            AnswersEnd (Some self.old.left) (Some self.new.left)) }
        ensures idle { length buffer.new ≡ 0 → Some self.new.left ≡ Some self.old.left }
        ensures err { OnErr result (Some self.new.left ≡ Some self.old.left) }
    {
        self.reads = self.reads.saturating_add(1);
        if self.failing_reads.as_slice().contains(&self.reads) {
            self.read_faults = self.read_faults.saturating_add(1);
            return Err(Failed);
        }
        if buffer.is_empty() || self.has_ended {
            return Ok(0);
        }
        let count = copy_front(buffer, &self.sends.as_slice()[self.given..], self.step);
        if count == 0 {
            self.has_ended = true;
        } else {
            self.given += count;
        }
        Ok(count)
    }
}

impl Sink for MemoryWire {
    ghost faults = { λ s. s.write_faults };

    ghost contents = { λ s. Some s.written };

    ghost front = { λ s. record {
      number = s.number;
      start = Some (pieces_of_wire s.sends);
      left = Some s.left;
      faults = s.read_faults;
    } };

    // It fails exactly at a listed call and where the bytes that it would take pass its room, and
    // takes what `step` allows at any other.
    fn write(&mut self, piece: &[u8]) -> Result<usize, Failed>
        ensures refused { IsErr result ↔ (Contains self.old.failing_writes (raised self.old.writes)
            ⊎ (self.old.room < length self.old.written + min self.old.step (length piece.now))) }
        ensures count { IfOk result (λ n. n ≡ min self.old.step (length piece.now)) }
        ensures taken { IfOk result (λ n. self.new
            ≡ record self.old { written = self.old.written ++ take n piece.now; writes = raised self.old.writes }) }
        ensures unchanged { OnErr result (self.new
            ≡ record self.old { writes = raised self.old.writes; write_faults = raised self.old.write_faults }) }

        ensures within { IfOk result (λ n. n ≤ length piece.now) }
        ensures some { IfOk result (λ n. n ≡ 0 → piece.now ≡ []) }
        ensures kept { OnOk result (self.new.write_faults ≡ self.old.write_faults) }
        ensures counted { self.old.write_faults ≤ self.new.write_faults }
        ensures failed { OnErr result (Rose self.old.write_faults self.new.write_faults) }
        ensures bytes { IfOk result (λ n. Some self.new.written ≡ appended (Some self.old.written) (take n piece.now)) }
        ensures err { OnErr result (Some self.new.written ≡ Some self.old.written) }
    {
        self.writes = self.writes.saturating_add(1);
        let count = piece.len().min(self.step);
        let is_listed = self.failing_writes.as_slice().contains(&self.writes);
        if is_listed || count > self.room - self.written.len() {
            self.write_faults = self.write_faults.saturating_add(1);
            return Err(Failed);
        }
        self.written.extend_from_slice(&piece[..count]).unwrap();
        Ok(count)
    }
}

impl Wire for MemoryWire {
    ghost use Rattle.std.specs.Prelude.{Some, refl};
    ghost use Rattle.sb_outside.specs.Connections.{pieces_of_wire};

    ghost number = { λ s. s.number };

    ghost start = { λ s. Some (pieces_of_wire s.sends) };

    ghost back_is = { λ _. refl };

    ghost front_is = { λ _. refl };
}
