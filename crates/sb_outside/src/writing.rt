ghost use Rattle.std.specs.Prelude.{◌≡◌, ◌<◌, ◌≤◌, [], length, OnOk, OnErr};
ghost use Rattle.sb_outside.specs.Outside.{Rose, appended};
ghost use Rattle.sb_outside.specs.Writing.{IsOnItsWay, HasFront};

use crate::{Failed, Sink, write_all};
use sb_model::Bytes;

/// From how many bytes on a buffer of output is full.
pub const FULL_BUFFER: usize = 65_536;

/// Hands the text of a buffer to the sink, and empties the buffer. After an `Err` the sink took a front of
/// it, and not the whole.
pub fn flush<O: Sink>(out: &mut O, buffer: &mut Bytes) -> Result<(), Failed>
    ensures ok { OnOk result (O.contents out.new ≡ appended (O.contents out.old) buffer.old) }
    ensures emptied { OnOk result (buffer.new ≡ []) }
    ensures err { OnErr result (HasFront (O.contents out.old) (O.contents out.new) buffer.old) }
    ensures err_buffer { OnErr result (buffer.new ≡ buffer.old) }

    // A fault is counted, and nothing else is.
    ensures kept { OnOk result (O.faults out.new ≡ O.faults out.old) }
    ensures counted { O.faults out.old ≤ O.faults out.new }
    ensures failed { OnErr result (Rose (O.faults out.old) (O.faults out.new)) }
    ensures other { O.front out.new ≡ O.front out.old }
{
    match write_all(out, buffer.as_slice()) {
        Ok(()) => {
            buffer.clear();
            Ok(())
        }
        Err(Failed) => Err(Failed),
    }
}

/// Hands the text of a buffer to the sink where it has 65,536 bytes or more.
pub fn flush_if_full<O: Sink>(out: &mut O, buffer: &mut Bytes) -> Result<(), Failed>
    ensures ok { OnOk result (IsOnItsWay (O.contents out.old) (O.contents out.new) buffer.new buffer.old) }
    ensures bounded { OnOk result (length buffer.new < FULL_BUFFER) }
    ensures waits { length buffer.old < FULL_BUFFER → buffer.new ≡ buffer.old }
    ensures err { OnErr result (HasFront (O.contents out.old) (O.contents out.new) buffer.old) }
    ensures err_buffer { OnErr result (buffer.new ≡ buffer.old) }

    // A fault is counted, and nothing else is.
    ensures kept { OnOk result (O.faults out.new ≡ O.faults out.old) }
    ensures counted { O.faults out.old ≤ O.faults out.new }
    ensures failed { OnErr result (Rose (O.faults out.old) (O.faults out.new)) }
    ensures other { O.front out.new ≡ O.front out.old }
{
    if buffer.len() < FULL_BUFFER {
        return Ok(());
    }
    flush(out, buffer)
}
