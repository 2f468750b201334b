ghost use Rattle.std.specs.Prelude.{◌≡◌, ℕ, ◌<◌, ◌≤◌, List, [], length, take, Option, IfOk, OnOk, OnErr};
ghost use Rattle.sb_outside.specs.Outside.{Rose, GivesFront, AnswersEnd, appended, SinkSide, SourceSide, no_sink, no_source};

use std::error::Error;
use std::fmt;

/// The one fault of an outside object.
#[derive(Clone, Copy, Debug, PartialEq, Eq, Hash)]
pub struct Failed;

impl fmt::Display for Failed {
    fn fmt<W: fmt::Write>(&self, f: &mut fmt::Formatter<W>) -> fmt::Result {
        f.write_str("an outside object failed")
    }
}

impl Error for Failed {}

/// Where bytes come from.
pub trait Source {
    // how many faults there were
    ghost faults: { Self → ℕ };

    // where the source tells it: the bytes that it gives before each further end of input
    ghost left: { Self → Option (List (List ℕ)) };

    // of what is a sink too: its side as a sink
    ghost back: { Self → SinkSide } = { λ _. no_sink };

    /// Takes the next bytes into the front of the buffer, and says how many. Zero for a buffer that
    /// is not empty is the end of input at that moment. What the buffer holds after the bytes, or
    /// after an `Err`, is not said.
    fn read(&mut self, buffer: &mut [u8]) -> Result<usize, Failed>
        ensures within { IfOk result (λ n. n ≤ length buffer.new) }

        // A fault is counted, nothing else is, and the count never falls.
        ensures kept { OnOk result (faults self.new ≡ faults self.old) }
        ensures counted { faults self.old ≤ faults self.new }
        ensures failed { OnErr result (Rose (faults self.old) (faults self.new)) }

        // What is left after bytes, after an end of input, and where nothing was asked or given.
        ensures bytes { IfOk result (λ n. 0 < n →
            GivesFront (take n buffer.new) (left self.old) (left self.new)) }
        ensures end { IfOk result (λ n. n ≡ 0 → 0 < length buffer.new →
            AnswersEnd (left self.old) (left self.new)) }
        ensures idle { length buffer.new ≡ 0 → left self.new ≡ left self.old }
        ensures err { OnErr result (left self.new ≡ left self.old) }

        // Nothing is written.
        ensures other { back self.new ≡ back self.old };
}

/// Where bytes go to.
pub trait Sink {
    // how many faults there were
    ghost faults: { Self → ℕ };

    // where the sink tells it: the bytes that it took
    ghost contents: { Self → Option (List ℕ) };

    // of what is a source too: its side as a source
    ghost front: { Self → SourceSide } = { λ _. no_source };

    /// Takes a front of the piece, and says how many bytes. It is empty only where the piece is.
    fn write(&mut self, piece: &[u8]) -> Result<usize, Failed>
        ensures within { IfOk result (λ n. n ≤ length piece.now) }
        ensures some { IfOk result (λ n. n ≡ 0 → piece.now ≡ []) }

        // A fault is counted, nothing else is, and the count never falls.
        ensures kept { OnOk result (faults self.new ≡ faults self.old) }
        ensures counted { faults self.old ≤ faults self.new }
        ensures failed { OnErr result (Rose (faults self.old) (faults self.new)) }

        ensures bytes { IfOk result (λ n. contents self.new ≡ appended (contents self.old) (take n piece.now)) }
        ensures err { OnErr result (contents self.new ≡ contents self.old) }

        // Nothing is read.
        ensures other { front self.new ≡ front self.old };
}

/// Writes a whole piece. After an `Err` the sink took a front of it, and not the whole.
pub fn write_all<O: Sink>(out: &mut O, piece: &[u8]) -> Result<(), Failed>
    ensures kept { OnOk result (O.faults out.new ≡ O.faults out.old) }
    ensures counted { O.faults out.old ≤ O.faults out.new }
    ensures failed { OnErr result (Rose (O.faults out.old) (O.faults out.new)) }
    ensures ok { OnOk result (O.contents out.new ≡ appended (O.contents out.old) piece.now) }
    ensures err { OnErr result ((n : ℕ) × (n < length piece.now)
        × (O.contents out.new ≡ appended (O.contents out.old) (take n piece.now))) }
    ensures other { O.front out.new ≡ O.front out.old }
{
    let mut taken = 0;
    while taken < piece.len() {
        taken += out.write(&piece[taken..])?;
    }
    Ok(())
}
