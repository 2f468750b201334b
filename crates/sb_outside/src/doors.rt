ghost use Rattle.std.specs.Prelude.{◌≡◌, ℕ, ◌≤◌, List, [], length, Option, None, Some, IfSome, IfOk, OnOk, OnErr};
ghost use Rattle.sb_outside.specs.Outside.{Rose, IfTold, with_entry};
ghost use Rattle.sb_outside.specs.Connections.{open_connection, connected, TakesFirst, Returns};
ghost use Rattle.sb_outside.specs.declared.doors.Connection.{Connection};

use crate::{Failed, Wire};
use sb_model::{Bytes, Moment};

/// An entry of a door's log: one connection.
#[derive(Debug, Drop)]
pub struct Connection {
    /// The bytes that the other side gave.
    pub given: Bytes,
    /// Whether an end of input was answered after them.
    pub ended: bool,
    /// The bytes that were written to the other side.
    pub written: Bytes,
    /// Whether a read failed.
    pub read_fault: bool,
    /// Whether a write failed.
    pub write_fault: bool,
}

/// What came at a door at which one waits for so long.
#[derive(Debug, Drop)]
pub enum Arrival<W> {
    /// A connection.
    Connected(W),
    /// There are no more connections.
    NoMore,
    /// The moment came before a connection did.
    TimedOut,
}

/// Where connections come in.
pub trait Door {
    type Wire: Wire;

    // how many faults there were
    ghost faults: { Self → ℕ };

    // where the door tells it: the connections that were taken, in order. One that was not given back is open.
    ghost log: { Self → Option (List Connection) };

    // where the door tells it: the pieces of each connection that has not been taken, in order
    ghost coming: { Self → Option (List (List (List ℕ))) };

    /// The next connection, or `None` where there are no more. It may wait.
    fn next(&mut self) -> Result<Option<Self::Wire>, Failed>
        ensures kept { OnOk result (faults self.new ≡ faults self.old) }
        ensures counted { faults self.old ≤ faults self.new }
        ensures failed { OnErr result (Rose (faults self.old) (faults self.new)) }

        // The wire has a number of its own, no faults, nothing written, and the first pieces that were to come.
        ensures number { IfOk result (λ next. IfSome next (λ wire.
            IfSome (log self.old) (λ entries. Self.Wire.number wire ≡ length entries))) }
        ensures no_faults { IfOk result (λ next. IfSome next (λ wire.
            (Self.Wire.Source.faults wire ≡ 0) × (Self.Wire.Sink.faults wire ≡ 0))) }
        ensures nothing_written { IfOk result (λ next. IfSome next (λ wire.
            IfTold (Self.Wire.contents wire) (Some []))) }
        ensures first { IfOk result (λ next. IfSome next (λ wire.
            TakesFirst (coming self.old) (coming self.new) (Self.Wire.start wire) (Self.Wire.left wire))) }
        ensures opened { IfOk result (λ next. IfSome next (λ wire.
            IfTold (log self.new) (with_entry (log self.old) open_connection))) }

        // Nothing changes where there are no more, and after an `Err`.
        ensures none { (result ≡ Ok None) → IfTold (coming self.old) (Some []) }
        ensures none_log { (result ≡ Ok None) → log self.new ≡ log self.old }
        ensures none_coming { (result ≡ Ok None) → coming self.new ≡ coming self.old }
        ensures err_log { OnErr result (log self.new ≡ log self.old) }
        ensures err_coming { OnErr result (coming self.new ≡ coming self.old) };

    /// The next connection, or that there are no more, or that this moment came first by the door's own clock. It may
    /// wait until then. A connection that waits to be taken is taken, also after that moment.
    fn next_before(&mut self, moment: Moment) -> Result<Arrival<Self::Wire>, Failed>
        ensures kept { OnOk result (faults self.new ≡ faults self.old) }
        ensures counted { faults self.old ≤ faults self.new }
        ensures failed { OnErr result (Rose (faults self.old) (faults self.new)) }

        // The wire is as one that `next` gives.
        ensures number { IfOk result (λ arrival. IfSome (connected arrival) (λ wire.
            IfSome (log self.old) (λ entries. Self.Wire.number wire ≡ length entries))) }
        ensures no_faults { IfOk result (λ arrival. IfSome (connected arrival) (λ wire.
            (Self.Wire.Source.faults wire ≡ 0) × (Self.Wire.Sink.faults wire ≡ 0))) }
        ensures nothing_written { IfOk result (λ arrival. IfSome (connected arrival) (λ wire.
            IfTold (Self.Wire.contents wire) (Some []))) }
        ensures first { IfOk result (λ arrival. IfSome (connected arrival) (λ wire.
            TakesFirst (coming self.old) (coming self.new) (Self.Wire.start wire) (Self.Wire.left wire))) }
        ensures opened { IfOk result (λ arrival. IfSome (connected arrival) (λ wire.
            IfTold (log self.new) (with_entry (log self.old) open_connection))) }

        // Nothing changes where there are no more, where the moment came, and after an `Err`.
        ensures none { IfOk result (λ arrival. arrival ≡ Arrival.NoMore → IfTold (coming self.old) (Some [])) }
        ensures same_log { IfOk result (λ arrival. connected arrival ≡ None → log self.new ≡ log self.old) }
        ensures same_coming { IfOk result (λ arrival. connected arrival ≡ None → coming self.new ≡ coming self.old) }
        ensures err_log { OnErr result (log self.new ≡ log self.old) }
        ensures err_coming { OnErr result (coming self.new ≡ coming self.old) };

    /// Takes a connection back and ends it. Connections may come back in any order.
    fn done(&mut self, wire: Self::Wire)
        ensures kept { faults self.new ≡ faults self.old }
        ensures coming { coming self.new ≡ coming self.old }
        ensures entry { Returns (log self.old) (log self.new) (Self.Wire.number wire) (Self.Wire.start wire)
            (Self.Wire.left wire) (Self.Wire.contents wire) (Self.Wire.Source.faults wire) (Self.Wire.Sink.faults wire) };
}
