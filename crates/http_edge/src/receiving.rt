ghost use Rattle.std.specs.Prelude.{◌≡◌, ◌≢◌, ℕ, ◌<◌, ◌≤◌, List, ◌++◌, length, Option, OnOk, OnErr, IsErrOf};
ghost use Rattle.sb_outside.specs.Outside.{Rose, GivesFront, AnswersEnd};
ghost use Rattle.sb_outside.specs.Reading.{GivesAtMost};
ghost use Rattle.http_edge.specs.Receiving.{GrowsBySome, EndsShort, FillsUp, FailsShort, GivesWhile};
ghost use Rattle.http_edge.specs.SessionBytes.{IsShort};

use crate::heads::PIECE;
use sb_model::Bytes;
use sb_outside::{ReadFault, Source, read_piece};

/// Why no more bytes came.
#[derive(Clone, Copy, Debug, PartialEq, Eq)]
pub(crate) enum Stop {
    Ended,
    Failed,
    OutOfMemory,
}

/// Appends the next bytes of a source to a text.
pub(crate) fn receive<S: Source>(
    source: &mut S,
    buffer: &mut [u8],
    text: &mut Bytes,
) -> Result<(), Stop>
    requires { length buffer.old ≡ PIECE }
    ensures more { OnOk result (GrowsBySome text.old text.new (S.left source.old) (S.left source.new)) }
    ensures text { OnErr result (text.new ≡ text.old) }
    ensures end { IsErrOf result Stop.Ended → AnswersEnd (S.left source.old) (S.left source.new) }
    ensures failed_left { IsErrOf result Stop.Failed → S.left source.new ≡ S.left source.old }
    ensures refused_left { IsErrOf result Stop.OutOfMemory → GivesAtMost PIECE (S.left source.old) (S.left source.new) }
    ensures failed { IsErrOf result Stop.Failed → Rose (S.faults source.old) (S.faults source.new) }
    ensures kept { result ≢ Err Stop.Failed → S.faults source.new ≡ S.faults source.old }
    ensures counted { S.faults source.old ≤ S.faults source.new }
    ensures other { S.back source.new ≡ S.back source.old }
{
    match read_piece(source, buffer, text) {
        Ok(0) => Err(Stop::Ended),
        Ok(_) => Ok(()),
        Err(ReadFault::Failed) => Err(Stop::Failed),
        Err(ReadFault::OutOfMemory) => Err(Stop::OutOfMemory),
    }
}

/// Appends the next bytes of a source to a body until it has the wanted ones, and keeps these.
pub(crate) fn receive_body<S: Source>(
    source: &mut S,
    buffer: &mut [u8],
    body: &mut Bytes,
    wanted: usize,
) -> Result<(), Stop>
    requires { length buffer.old ≡ PIECE }
    ensures whole { OnOk result (FillsUp body.old body.new wanted (S.left source.old) (S.left source.new)) }
    ensures short { IsErrOf result Stop.Ended → EndsShort body.old wanted (S.left source.old) (S.left source.new) }
    ensures failed_left { IsErrOf result Stop.Failed → FailsShort body.old wanted (S.left source.old) (S.left source.new) }
    ensures refused_left { IsErrOf result Stop.OutOfMemory → GivesWhile (IsShort body.old wanted) (S.left source.old) (S.left source.new) }
    ensures failed { IsErrOf result Stop.Failed → Rose (S.faults source.old) (S.faults source.new) }
    ensures kept { result ≢ Err Stop.Failed → S.faults source.new ≡ S.faults source.old }
    ensures counted { S.faults source.old ≤ S.faults source.new }
    ensures other { S.back source.new ≡ S.back source.old }
{
    'pieces: while body.len() < wanted {
        match receive(source, buffer, body) {
            Ok(()) => {}
            Err(Stop::Ended) => return Err(Stop::Ended),
            Err(Stop::Failed) => return Err(Stop::Failed),
            Err(Stop::OutOfMemory) => return Err(Stop::OutOfMemory),
        }
    }
    body.truncate(wanted);
    Ok(())
}
