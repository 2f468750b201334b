ghost use Rattle.std.specs.Prelude.{◌≡◌, ℕ, List, IfOk};
ghost use Rattle.update_replay.specs.Readings.{ResponseReading as ReadingOf, IsReader};

use sb_json::MessageFault;
use sb_model::OutOfMemory;
use std::alloc::Global;
use update_messages::{
    FetchResponse, read_response, values_read_one_way, values_read_or_have_a_fault,
};

/// What a line is: a response, or why it is none. Want of memory is never the fault.
pub(crate) type Reading = Result<FetchResponse, MessageFault>;

/// Reads one line as a response body.
pub(crate) fn read_line(alloc: Global, line: &[u8]) -> Result<Reading, OutOfMemory>
    ensures { (read : List ℕ → ReadingOf) → IsReader read → IfOk result (λ reading. reading ≡ read line.now) }
{
    values_read_one_way();
    values_read_or_have_a_fault();
    match read_response(alloc, line) {
        Ok(message) => Ok(Ok(message)),
        Err(MessageFault::OutOfMemory) => Err(OutOfMemory),
        Err(fault) => Ok(Err(fault)),
    }
}
