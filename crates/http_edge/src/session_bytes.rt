ghost use Rattle.std.specs.Prelude.{◌≡◌, ◌≢◌, ℕ, ◌<◌, ◌≤◌, List, [], length, Bool, Option, Some, false, IfOk, OnOk, OnErr, IfErr, IsErrOf};
ghost use Rattle.sb_outside.specs.Outside.{Rose};
ghost use Rattle.sb_outside.specs.Sessions.{with_end, with_failure};
ghost use Rattle.sb_outside.specs.declared.links.Session.{Session};
ghost use Rattle.http_edge.specs.SessionBytes.{Turns, Receives, ReceivesMore, ReceivesPiece, ReceivesSome, ReadsWhile, ReadsOnly, IsShort, IsOpenHead, SessionEndsShort, SessionFillsUp, FailsAfter, IsResponsePartsOf, IsFaultOfHead};

use crate::ExchangeFault;
use crate::heads::{HEAD_LIMIT, PIECE, room_for_fields};
use crate::receiving::Stop;
use crate::response_heads::{ResponseParts, ResponseStep, look_at_response};
use sb_model::{Bytes, OutOfMemory};
use sb_outside::{Failed, Link};
use std::alloc::Global;

/// How many bytes the body of a response has at most.
pub(crate) const BODY_LIMIT: u64 = 201_326_592;

/// Why a part of a response was not taken.
#[derive(Clone, Copy, Debug)]
pub(crate) enum ReceiveFault {
    Fault(ExchangeFault),
    OutOfMemory,
}

/// Appends the next bytes of a session to a text.
pub(crate) fn receive_piece<L: Link>(
    link: &mut L,
    buffer: &mut [u8],
    text: &mut Bytes,
) -> Result<(), Stop>
    requires { length buffer.old ≡ PIECE }
    ensures more { OnOk result (ReceivesMore text.old text.new (L.log link.old) (L.log link.new)) }
    ensures text { OnErr result (text.new ≡ text.old) }
    ensures end { IsErrOf result Stop.Ended → Turns with_end (L.log link.old) (L.log link.new) }
    ensures failed_log { IsErrOf result Stop.Failed → Turns with_failure (L.log link.old) (L.log link.new) }
    ensures refused_log { IsErrOf result Stop.OutOfMemory → ReceivesPiece (L.log link.old) (L.log link.new) }
    ensures failed { IsErrOf result Stop.Failed → Rose (L.faults link.old) (L.faults link.new) }
    ensures kept { result ≢ Err Stop.Failed → L.faults link.new ≡ L.faults link.old }
    ensures counted { L.faults link.old ≤ L.faults link.new }
{
    match link.recv(buffer) {
        Ok(0) => Err(Stop::Ended),
        Ok(count) => match text.append(&buffer[..count]) {
            Ok(()) => Ok(()),
            Err(OutOfMemory) => Err(Stop::OutOfMemory),
        },
        Err(Failed) => Err(Stop::Failed),
    }
}

/// Appends the next bytes of a session to a body until it has the wanted ones, and keeps these.
pub(crate) fn receive_body<L: Link>(
    link: &mut L,
    buffer: &mut [u8],
    body: &mut Bytes,
    wanted: usize,
) -> Result<(), Stop>
    requires { length buffer.old ≡ PIECE }
    ensures whole { OnOk result (SessionFillsUp body.old body.new wanted (L.log link.old) (L.log link.new)) }
    ensures short { IsErrOf result Stop.Ended → SessionEndsShort body.old wanted (L.log link.old) (L.log link.new) }
    ensures failed_log { IsErrOf result Stop.Failed → FailsAfter (IsShort body.old wanted) (L.log link.old) (L.log link.new) }
    ensures refused_log { IsErrOf result Stop.OutOfMemory → ReceivesSome (IsShort body.old wanted) (L.log link.old) (L.log link.new) }
    ensures failed { IsErrOf result Stop.Failed → Rose (L.faults link.old) (L.faults link.new) }
    ensures kept { result ≢ Err Stop.Failed → L.faults link.new ≡ L.faults link.old }
    ensures counted { L.faults link.old ≤ L.faults link.new }
{
    'pieces: while body.len() < wanted {
        match receive_piece(link, buffer, body) {
            Ok(()) => {}
            Err(Stop::Ended) => return Err(Stop::Ended),
            Err(Stop::Failed) => return Err(Stop::Failed),
            Err(Stop::OutOfMemory) => return Err(Stop::OutOfMemory),
        }
    }
    body.truncate(wanted);
    Ok(())
}

/// Receives the head of a response. The text is what was received.
pub(crate) fn receive_head<L: Link>(
    alloc: Global,
    link: &mut L,
    buffer: &mut [u8],
    text: &mut Bytes,
) -> Result<ResponseParts, ReceiveFault>
    requires room { length buffer.old ≡ PIECE }
    requires none { text.old ≡ [] }
    ensures parts { IfOk result (λ parts. IsResponsePartsOf text.new parts) }
    ensures given { OnOk result (Receives text.new false false (L.log link.old) (L.log link.new)) }
    ensures reads { OnOk result (ReadsWhile IsOpenHead text.new) }
    ensures fault { IfErr result (λ fault. (bytes : List ℕ) × (ended : Bool) × (failed : Bool)
        × Receives bytes ended failed (L.log link.old) (L.log link.new) × ReadsOnly IsOpenHead bytes ended failed
        × IsFaultOfHead bytes ended failed fault) }
    ensures failed { IsErrOf result (ReceiveFault.Fault ExchangeFault.Link) → Rose (L.faults link.old) (L.faults link.new) }
    ensures kept { result ≢ Err (ReceiveFault.Fault ExchangeFault.Link) → L.faults link.new ≡ L.faults link.old }
    ensures counted { L.faults link.old ≤ L.faults link.new }
{
    let Ok(mut room) = room_for_fields(alloc) else {
        return Err(ReceiveFault::OutOfMemory);
    };
    'pieces: loop {
        match look_at_response(alloc, text.as_slice(), room.as_mut_slice()) {
            Ok(ResponseStep::Whole(parts)) => return Ok(parts),
            Ok(ResponseStep::Refused) => return Err(ReceiveFault::Fault(ExchangeFault::Head)),
            Ok(ResponseStep::Open) => {}
            Err(OutOfMemory) => return Err(ReceiveFault::OutOfMemory),
        }
        if text.len() >= HEAD_LIMIT {
            return Err(ReceiveFault::Fault(ExchangeFault::HeadLimit));
        }
        match receive_piece(link, buffer, text) {
            Ok(()) => {}
            Err(Stop::Ended) => return Err(ReceiveFault::Fault(ExchangeFault::Cut)),
            Err(Stop::Failed) => return Err(ReceiveFault::Fault(ExchangeFault::Link)),
            Err(Stop::OutOfMemory) => return Err(ReceiveFault::OutOfMemory),
        }
    }
}
