ghost use Rattle.std.specs.Prelude.{◌≡◌, ℕ, ◌≤◌, ◌<◌, ◌↔◌, min, List, [], ◌++◌, length, take, Some, None, IsErr, IfSome, IfNone, IsSome, IfOk, OnOk, OnErr};
ghost use Rattle.http_edge.specs.Requests.{NeedsMore};
ghost use Rattle.sb_outside.specs.Outside.{Rose, GivesFront, AnswersEnd, raised, next_piece, appended};
ghost use Rattle.sb_outside.specs.Connections.{pieces_of_wire};
ghost use Rattle.gathering.specs.Wires.{WireInHand, all_left, IsFreshWire, HasItsTurn};

use crate::{Ending, Gathered, Outgoing};
use sb_model::Bytes;
use sb_outside::{Failed, SharedText, Sink, Source, Wire, write_all};
use std::alloc::Global;
use std::marker::Model;

/// A connection as the door hands it out. It never waits: a read gives the bytes that were gathered and then the end, or a
/// fault where the connection failed or its time passed, and a write goes to memory.
#[derive(Drop)]
pub struct GatheredWire {
    number: u64,
    slot: usize,
    serial: u64,
    gathered: Bytes,
    // whether its peer has said that it sends no more
    ended: bool,
    // how many of these bytes are given, and whether the end after them was answered
    given: usize,
    has_ended: bool,
    ending: Ending,
    written: Outgoing,
    read_faults: u64,
    write_faults: u64,
}

impl Model for GatheredWire {
    ghost use Rattle.std.specs.Prelude.{◌≡◌, ◌≤◌, [], drop, length, true, if◌then◌else◌};
    ghost use Rattle.sb_outside.specs.Connections.{pieces_of_wire};
    ghost use Rattle.gathering.specs.Wires.{WireInHand, all_left};
    ghost use Rattle.gathering.specs.declared.phases.Ending.{Ending};

    ghost Value = { WireInHand };

    ghost view = { λ s. record {
      number = s.number;
      slot = s.slot;
      serial = s.serial;
      sends = s.gathered;
      ended = s.ended;
      left = (if s.has_ended then [] else pieces_of_wire (drop s.given s.gathered));
      ending = s.ending;
      written = all_left s.written;
      read_faults = s.read_faults;
      write_faults = s.write_faults;
    } };

    ghost invariant = { λ s. (s.given ≤ length s.gathered) × (s.has_ended ≡ true → s.ending ≡ Ending.End) };
}

/// Copies as many bytes to the front of a buffer as it has room for, and says how many.
fn copy_front(buffer: &mut [u8], bytes: &[u8]) -> usize
    ensures count { result ≡ min (length buffer.old) (length bytes.now) }
    ensures front { take result buffer.new ≡ take result bytes.now }
{
    let count = buffer.len().min(bytes.len());
    buffer[..count].copy_from_slice(&bytes[..count]);
    count
}

impl GatheredWire {
    /// A wire of this number, of the connection of this serial number in this slot, with what was gathered of it.
    pub fn new(
        alloc: Global,
        number: u64,
        slot: usize,
        serial: u64,
        gathered: Bytes,
        ended: bool,
        ending: Ending,
    ) -> Self
        ensures { result ≡ record {
          number = number;
          slot = slot;
          serial = serial;
          sends = gathered;
          ended = ended;
          left = pieces_of_wire gathered;
          ending = ending;
          written = [];
          read_faults = 0;
          write_faults = 0;
        } }
    {
        GatheredWire {
            number,
            slot,
            serial,
            gathered,
            ended,
            given: 0,
            has_ended: false,
            ending,
            written: Outgoing::new(alloc),
            read_faults: 0,
            write_faults: 0,
        }
    }

    /// The same where the connection has its turn: what was gathered decides its request, its peer has ended, or a read is to
    /// fail after its bytes. `None` comes only where it has not.
    pub fn in_turn(
        alloc: Global,
        number: u64,
        slot: usize,
        serial: u64,
        gathered: Gathered,
        ended: bool,
        ending: Ending,
    ) -> Option<Self>
        ensures turn { IfSome result HasItsTurn }
        ensures fresh { IfSome result (IsFreshWire number) }
        ensures bytes { IfSome result (λ wire. wire.sends ≡ gathered) }
        ensures place { IfSome result (λ wire. (wire.slot ≡ slot) × (wire.serial ≡ serial)) }
        ensures says { IfSome result (λ wire. (wire.ended ≡ ended) × (wire.ending ≡ ending)) }
        ensures none { IfNone result (NeedsMore gathered) }
    {
        let is_decided = gathered.is_decided();
        let bytes = gathered.into_bytes();
        if is_decided || ended || ending == Ending::Fault {
            Some(GatheredWire::new(alloc, number, slot, serial, bytes, ended, ending))
        } else {
            None
        }
    }

    /// The slot of its connection.
    pub fn slot(&self) -> usize
        ensures { result ≡ self.now.slot }
    {
        self.slot
    }

    /// The serial number of its connection.
    pub fn serial(&self) -> u64
        ensures { result ≡ self.now.serial }
    {
        self.serial
    }

    /// What was written to it, or `None` where a write failed.
    pub fn into_answer(self) -> Option<Outgoing>
        ensures answer { IfSome result (λ answer. all_left answer ≡ self.written) }
        ensures whole { IsSome result ↔ (self.write_faults ≡ 0) }
    {
        if self.write_faults == 0 {
            Some(self.written)
        } else {
            None
        }
    }
}

impl Source for GatheredWire {
    ghost faults = { λ s. s.read_faults };

    ghost left = { λ s. Some s.left };

    ghost back = { λ s. record {
      number = s.number;
      start = Some (pieces_of_wire s.sends);
      contents = Some s.written;
      faults = s.write_faults;
    } };

    // It gives as many bytes as it can. After the last it answers the end, or fails.
    fn read(&mut self, buffer: &mut [u8]) -> Result<usize, Failed>
        ensures refused { IsErr result ↔ ((0 < length buffer.new) × (next_piece self.old.left ≡ []) × (self.old.ending ≡ Ending.Fault)) }
        ensures count { IfOk result (λ n. n ≡ min (length buffer.new) (length (next_piece self.old.left))) }
        ensures ok { OnOk result (self.new ≡ record self.old { left = self.new.left }) }
        ensures err_same { OnErr result (self.new ≡ record self.old { read_faults = raised self.old.read_faults }) }

        ensures within { IfOk result (λ n. n ≤ length buffer.new) }
        ensures kept { OnOk result (self.new.read_faults ≡ self.old.read_faults) }
        ensures counted { self.old.read_faults ≤ self.new.read_faults }
        ensures failed { OnErr result (Rose self.old.read_faults self.new.read_faults) }
        ensures bytes { IfOk result (λ n. 0 < n →
            GivesFront (take n buffer.new) (Some self.old.left) (Some self.new.left)) }
        ensures end { IfOk result (λ n. n ≡ 0 → 0 < length buffer.new →
            AnswersEnd (Some self.old.left) (Some self.new.left)) }
        ensures idle { length buffer.new ≡ 0 → Some self.new.left ≡ Some self.old.left }
        ensures err { OnErr result (Some self.new.left ≡ Some self.old.left) }
    {
        if buffer.is_empty() {
            return Ok(0);
        }
        if self.has_ended {
            return Ok(0);
        }
        let count = copy_front(buffer, &self.gathered.as_slice()[self.given..]);
        if count > 0 {
            self.given += count;
            return Ok(count);
        }
        match self.ending {
            Ending::End => {
                self.has_ended = true;
                Ok(0)
            }
            Ending::Fault => {
                self.read_faults = self.read_faults.saturating_add(1);
                Err(Failed)
            }
        }
    }
}

impl Sink for GatheredWire {
    ghost faults = { λ s. s.write_faults };

    ghost contents = { λ s. Some s.written };

    ghost front = { λ s. record {
      number = s.number;
      start = Some (pieces_of_wire s.sends);
      left = Some s.left;
      faults = s.read_faults;
    } };

    // It fails only where memory is refused.
    fn write(&mut self, piece: &[u8]) -> Result<usize, Failed>
        ensures taken { IfOk result (λ n. self.new ≡ record self.old { written = self.old.written ++ take n piece.now }) }
        ensures unchanged { OnErr result (self.new ≡ record self.old { write_faults = raised self.old.write_faults }) }

        ensures within { IfOk result (λ n. n ≤ length piece.now) }
        ensures some { IfOk result (λ n. n ≡ 0 → piece.now ≡ []) }
        ensures kept { OnOk result (self.new.write_faults ≡ self.old.write_faults) }
        ensures counted { self.old.write_faults ≤ self.new.write_faults }
        ensures failed { OnErr result (Rose self.old.write_faults self.new.write_faults) }
        ensures bytes { IfOk result (λ n. Some self.new.written ≡ appended (Some self.old.written) (take n piece.now)) }
        ensures err { OnErr result (Some self.new.written ≡ Some self.old.written) }
    {
        match self.written.put(piece) {
            Ok(count) => Ok(count),
            Err(_) => {
                self.write_faults = self.write_faults.saturating_add(1);
                Err(Failed)
            }
        }
    }
}

impl Wire for GatheredWire {
    ghost use Rattle.std.specs.Prelude.{Some, refl};
    ghost use Rattle.sb_outside.specs.Connections.{pieces_of_wire};

    ghost number = { λ s. s.number };

    ghost start = { λ s. Some (pieces_of_wire s.sends) };

    ghost back_is = { λ _. refl };

    ghost front_is = { λ _. refl };

    // The first text is held and not copied. A further one is copied.
    fn write_shared(&mut self, text: &SharedText) -> Result<(), Failed> {
        if text.as_slice().is_empty() {
            return Ok(());
        }
        match self.written.put_shared(text) {
            Ok(true) => Ok(()),
            Ok(false) => write_all(self, text.as_slice()),
            Err(_) => {
                self.write_faults = self.write_faults.saturating_add(1);
                Err(Failed)
            }
        }
    }
}
