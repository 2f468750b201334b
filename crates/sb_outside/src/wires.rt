ghost use Rattle.std.specs.Prelude.{◌≡◌, ℕ, ◌<◌, ◌≤◌, List, length, take, Option, OnOk, OnErr};
ghost use Rattle.sb_outside.specs.Outside.{Rose, appended};

use crate::{Failed, SharedText, Sink, Source, write_all};

/// A connection: a source and a sink that do not touch one another.
pub trait Wire: Source + Sink {
    // which connection of its door it is, counted from 0
    ghost number: { Self → ℕ };

    // where the wire tells it: the pieces that it had to give at first
    ghost start: { Self → Option (List (List ℕ)) };

    /// Writes a whole text that others may hold too, as `write_all` writes its bytes. A wire that keeps what is not
    /// sent yet may hold the text in place of a copy.
    fn write_shared(&mut self, text: &SharedText) -> Result<(), Failed>
        ensures kept { OnOk result (Self.Sink.faults self.new ≡ Self.Sink.faults self.old) }
        ensures counted { Self.Sink.faults self.old ≤ Self.Sink.faults self.new }
        ensures failed { OnErr result (Rose (Self.Sink.faults self.old) (Self.Sink.faults self.new)) }
        ensures ok { OnOk result (Self.contents self.new ≡ appended (Self.contents self.old) text.now) }
        ensures err { OnErr result ((n : ℕ) × (n < length text.now)
            × (Self.contents self.new ≡ appended (Self.contents self.old) (take n text.now))) }
        ensures other { Self.front self.new ≡ Self.front self.old }
    {
        write_all(self, text.as_slice())
    }

    // A read leaves number, start and sink as they are, and a write leaves number, start and source.
    ghost back_is: { (wire : Self) → Self.back wire ≡ record {
      number = number wire;
      start = start wire;
      contents = Self.contents wire;
      faults = Self.Sink.faults wire;
    } };

    ghost front_is: { (wire : Self) → Self.front wire ≡ record {
      number = number wire;
      start = start wire;
      left = Self.left wire;
      faults = Self.Source.faults wire;
    } };
}
