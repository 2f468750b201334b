ghost use Rattle.std.specs.Prelude.{◌≡◌, ℕ, ◌≤◌, ◌↔◌, List, [], ◌∷◌, map, length, Option, Some, None, IsErr, IfSome, IfNone, IfOk, OnOk, OnErr, Contains};
ghost use Rattle.std.specs.Option.{option_map};
ghost use Rattle.sb_outside.specs.Outside.{Rose, IfTold, raised, with_entry};
ghost use Rattle.sb_outside.specs.Connections.{open_connection, connected, TakesFirst, Returns, pieces_of_wire};
ghost use Rattle.memory_objects.specs.Logs.{logged};
ghost use Rattle.memory_objects.specs.Wires.{DoorInMemory, after_taking, fresh, pieces_to_come};

use crate::MemoryWire;
use crate::entries::Log;
use sb_model::{Bytes, Moment, OutOfMemory, Row};
use sb_outside::{Arrival, Connection, Door, Failed};
use std::alloc::Global;
use std::collections::VecDeque;
use std::marker::Model;

/// A door at which the connections of a list come, one after the other. It does not wait, and its script says at which
/// calls the moment comes before a connection.
#[derive(Drop)]
pub struct MemoryDoor {
    alloc: Global,
    coming: VecDeque<MemoryWire>,
    log: Log<Connection>,
    failing: Row<u64>,
    late: Row<u64>,
    calls: u64,
    faults: u64,
}

impl Model for MemoryDoor {
    ghost use Rattle.memory_objects.specs.Wires.{DoorInMemory};

    ghost Value = { DoorInMemory };

    ghost view = { λ s. record {
      coming = s.coming.items;
      log = s.log.0;
      room = s.log.1;
      failing = s.failing;
      late = s.late;
      calls = s.calls;
      faults = s.faults;
    } };
}

impl MemoryDoor {
    /// A door with these connections, which logs at most `room` of them. Each begins anew when it is
    /// taken, whatever was done with it before. The calls of `next` and `next_before` with the numbers of the second
    /// list fail, counted from 1. No later call takes memory.
    pub fn new(
        alloc: Global,
        coming: Row<MemoryWire>,
        room: usize,
        failing: Row<u64>,
    ) -> Result<Self, OutOfMemory>
        ensures { IfOk result (λ door. door ≡ record {
          coming = coming;
          log = Some [];
          room = room;
          failing = failing;
          late = [];
          calls = 0;
          faults = 0;
        }) }
    {
        Ok(MemoryDoor {
            alloc,
            coming: VecDeque::from(coming.into_vec()),
            log: Log::new(alloc, room)?,
            failing,
            late: Row::new(alloc),
            calls: 0,
            faults: 0,
        })
    }

    /// The same door, at which the moment comes before a connection at the calls of `next_before` with these numbers. The
    /// calls of `next` are counted too.
    pub fn with_late(mut self, late: Row<u64>) -> Self
        ensures { result ≡ record self { late = late } }
    {
        self.late = late;
        self
    }

    /// The connections that were taken, or `None` where there were more than the door has room for.
    pub fn log(&self) -> Option<&[Connection]>
        ensures { option_map (λ entries. entries.now) result ≡ self.now.log }
    {
        self.log.entries()
    }

    /// How many calls failed.
    pub fn faults(&self) -> u64
        ensures { result ≡ self.now.faults }
    {
        self.faults
    }

    /// Takes the first of the connections that are to come, and logs it as open.
    fn take_first(&mut self) -> Option<MemoryWire>
        ensures some { IfSome result (λ wire. self.new ≡ record self.old {
          coming = self.new.coming;
          log = logged self.old.room self.old.log open_connection;
        }) }
        ensures wire { IfSome result (λ wire. (first : _) × (number : ℕ)
            × (self.old.coming ≡ first ∷ self.new.coming) × (wire ≡ fresh number first)) }
        ensures number { IfSome result (λ wire. IfSome self.old.log (λ entries. wire.number ≡ length entries)) }
        ensures none { IfNone result ((self.old.coming ≡ []) × (self.new ≡ self.old)) }
    {
        let wire = self.coming.pop_front()?;
        let number = self.log.len();
        self.log.push(open_connection(self.alloc));
        Some(wire.begin(number))
    }
}

/// An entry of which nothing is known yet. It takes no memory.
fn open_connection(alloc: Global) -> Connection
    ensures { result ≡ open_connection }
{
    Connection {
        given: Bytes::new(alloc),
        ended: false,
        written: Bytes::new(alloc),
        read_fault: false,
        write_fault: false,
    }
}

impl Door for MemoryDoor {
    type Wire = MemoryWire;

    ghost faults = { λ s. s.faults };

    ghost log = { λ s. s.log };

    ghost coming = { λ s. pieces_to_come s.coming };

    fn next(&mut self) -> Result<Option<MemoryWire>, Failed>
        ensures listed { IsErr result ↔ Contains self.old.failing (raised self.old.calls) }
        ensures some { IfOk result (λ next. IfSome next (λ wire. self.new ≡ after_taking self.old self.new.coming)) }
        ensures wire { IfOk result (λ next. IfSome next (λ wire. (first : _) × (number : ℕ)
            × (self.old.coming ≡ first ∷ self.new.coming) × (wire ≡ fresh number first))) }
        ensures no_more { (result ≡ Ok None) → (self.old.coming ≡ [])
            × (self.new ≡ record self.old { calls = raised self.old.calls }) }
        ensures refused { OnErr result (self.new
            ≡ record self.old { calls = raised self.old.calls; faults = raised self.old.faults }) }

        ensures kept { OnOk result (self.new.faults ≡ self.old.faults) }
        ensures counted { self.old.faults ≤ self.new.faults }
        ensures failed { OnErr result (Rose self.old.faults self.new.faults) }
        ensures number { IfOk result (λ next. IfSome next (λ wire.
            IfSome self.old.log (λ entries. wire.number ≡ length entries))) }
        ensures no_faults { IfOk result (λ next. IfSome next (λ wire.
            (wire.read_faults ≡ 0) × (wire.write_faults ≡ 0))) }
        ensures nothing_written { IfOk result (λ next. IfSome next (λ wire.
            IfTold (Some wire.written) (Some []))) }
        ensures first { IfOk result (λ next. IfSome next (λ wire.
            TakesFirst (pieces_to_come self.old.coming) (pieces_to_come self.new.coming) (Some (pieces_of_wire wire.sends)) (Some wire.left))) }
        ensures opened { IfOk result (λ next. IfSome next (λ wire.
            IfTold self.new.log (with_entry self.old.log open_connection))) }
        ensures none { (result ≡ Ok None) → IfTold (pieces_to_come self.old.coming) (Some []) }
        ensures none_log { (result ≡ Ok None) → self.new.log ≡ self.old.log }
        ensures none_coming { (result ≡ Ok None) → pieces_to_come self.new.coming ≡ pieces_to_come self.old.coming }
        ensures err_log { OnErr result (self.new.log ≡ self.old.log) }
        ensures err_coming { OnErr result (pieces_to_come self.new.coming ≡ pieces_to_come self.old.coming) }
    {
        self.calls = self.calls.saturating_add(1);
        if self.failing.as_slice().contains(&self.calls) {
            self.faults = self.faults.saturating_add(1);
            return Err(Failed);
        }
        Ok(self.take_first())
    }

    fn next_before(&mut self, _moment: Moment) -> Result<Arrival<MemoryWire>, Failed>
        ensures listed { IsErr result ↔ Contains self.old.failing (raised self.old.calls) }
        ensures late { OnOk result ((result ≡ Ok Arrival.TimedOut) ↔ Contains self.old.late (raised self.old.calls)) }
        ensures connected { IfOk result (λ arrival. IfSome (connected arrival) (λ wire.
            self.new ≡ after_taking self.old self.new.coming)) }
        ensures wire { IfOk result (λ arrival. IfSome (connected arrival) (λ wire. (first : _) × (number : ℕ)
            × (self.old.coming ≡ first ∷ self.new.coming) × (wire ≡ fresh number first))) }
        ensures no_more { IfOk result (λ arrival. arrival ≡ Arrival.NoMore → self.old.coming ≡ []) }
        ensures same { IfOk result (λ arrival. connected arrival ≡ None →
            self.new ≡ record self.old { calls = raised self.old.calls }) }
        ensures refused { OnErr result (self.new
            ≡ record self.old { calls = raised self.old.calls; faults = raised self.old.faults }) }

        ensures kept { OnOk result (self.new.faults ≡ self.old.faults) }
        ensures counted { self.old.faults ≤ self.new.faults }
        ensures failed { OnErr result (Rose self.old.faults self.new.faults) }
        ensures number { IfOk result (λ arrival. IfSome (connected arrival) (λ wire.
            IfSome self.old.log (λ entries. wire.number ≡ length entries))) }
        ensures no_faults { IfOk result (λ arrival. IfSome (connected arrival) (λ wire.
            (wire.read_faults ≡ 0) × (wire.write_faults ≡ 0))) }
        ensures nothing_written { IfOk result (λ arrival. IfSome (connected arrival) (λ wire.
            IfTold (Some wire.written) (Some []))) }
        ensures first { IfOk result (λ arrival. IfSome (connected arrival) (λ wire.
            TakesFirst (pieces_to_come self.old.coming) (pieces_to_come self.new.coming) (Some (pieces_of_wire wire.sends)) (Some wire.left))) }
        ensures opened { IfOk result (λ arrival. IfSome (connected arrival) (λ wire.
            IfTold self.new.log (with_entry self.old.log open_connection))) }
        ensures none { IfOk result (λ arrival. arrival ≡ Arrival.NoMore → IfTold (pieces_to_come self.old.coming) (Some [])) }
        ensures same_log { IfOk result (λ arrival. connected arrival ≡ None → self.new.log ≡ self.old.log) }
        ensures same_coming { IfOk result (λ arrival. connected arrival ≡ None
            → pieces_to_come self.new.coming ≡ pieces_to_come self.old.coming) }
        ensures err_log { OnErr result (self.new.log ≡ self.old.log) }
        ensures err_coming { OnErr result (pieces_to_come self.new.coming ≡ pieces_to_come self.old.coming) }
    {
        self.calls = self.calls.saturating_add(1);
        if self.failing.as_slice().contains(&self.calls) {
            self.faults = self.faults.saturating_add(1);
            return Err(Failed);
        }
        if self.late.as_slice().contains(&self.calls) {
            return Ok(Arrival::TimedOut);
        }
        match self.take_first() {
            Some(wire) => Ok(Arrival::Connected(wire)),
            None => Ok(Arrival::NoMore),
        }
    }

    fn done(&mut self, wire: MemoryWire)
        ensures after { self.new ≡ record self.old { log = self.new.log } }

        ensures kept { self.new.faults ≡ self.old.faults }
        ensures coming { pieces_to_come self.new.coming ≡ pieces_to_come self.old.coming }
        ensures entry { Returns self.old.log self.new.log wire.number (Some (pieces_of_wire wire.sends))
            (Some wire.left) (Some wire.written) wire.read_faults wire.write_faults }
    {
        let number = wire.number();
        self.log.set(number, wire.into_connection());
    }
}
