ghost use Rattle.std.specs.Prelude.{◌≡◌, ◌≢◌, ℕ, ◌+◌, ◌<◌, ◌≤◌, List, ◌++◌, length, take, drop, Bool, false, true, IfOk, OnOk, IfErr, IsErrOf};
ghost use Rattle.sb_outside.specs.Outside.{Rose};
ghost use Rattle.http_edge.specs.Chunks.{IsWholeBody};
ghost use Rattle.http_edge.specs.ChunkSteps.{IsReadTo, IsChunkStep, IsOpenAt, IsOpenWith, IsOpenBodyWith, IsFaultOfChunks};
ghost use Rattle.http_edge.specs.SessionBytes.{Receives, ReceivesOn, ReceivesSome, ReadsWhile, ReadsOnly, FailsAfter};

use crate::ExchangeFault;
use crate::chunks::{ChunkPlace, ChunkStep, look_at_chunk};
use crate::heads::{PIECE, room_for_fields};
use crate::receiving::Stop;
use crate::session_bytes::{ReceiveFault, receive_piece};
use httparse::spans::HeaderSpan;
use sb_model::Bytes;
use sb_outside::Link;
use std::alloc::Global;

/// A text and how far the chunked body in it was read.
#[derive(Debug, Drop)]
struct Unchunked {
    text: Bytes,
    place: ChunkPlace,
}

/// Moves bytes of a text down to another place in it.
fn move_down(text: Bytes, from: usize, count: usize, to: usize) -> Bytes
    requires down { to ≤ from }
    requires within { from + count ≤ length text }
    ensures length { length result ≡ length text }
    ensures moved { take (to + count) result ≡ take to text ++ take count (drop from text) }
    ensures kept { (n : ℕ) → to + count ≤ n → drop n result ≡ drop n text }
{
    let mut items = text.into_vec();
    items.as_mut_slice().copy_within(from..from + count, to);
    Bytes::from_vec(items)
}

/// Drops the bytes that are done with, where they are at least as many as those that wait. So each byte that
/// is moved here was paid for by one that is dropped.
fn close_gap(text: Bytes, place: ChunkPlace) -> Unchunked
    requires order { place.end ≤ place.at }
    requires within { place.at ≤ length text }
    ensures read { (body : List ℕ) → IsReadTo body text place → IsReadTo body result.text result.place }
    ensures count { result.place.count ≡ place.count }
{
    let rest = text.len() - place.at;
    if place.at - place.end < rest {
        return Unchunked { text, place };
    }
    let mut text = move_down(text, place.at, rest, place.end);
    text.truncate(place.end + rest);
    Unchunked {
        text,
        place: ChunkPlace {
            end: place.end,
            at: place.end,
            count: place.count,
        },
    }
}

/// Takes a whole chunk out: its data is moved down to the data before it.
fn take_chunk(text: Bytes, place: ChunkPlace, start: usize, size: usize) -> Unchunked
    requires order { place.end ≤ place.at }
    requires within { place.at ≤ length text }
    requires chunk { IsChunkStep text place (ChunkStep.Data start size) }
    ensures read { (body : List ℕ) → IsReadTo body text place → IsReadTo body result.text result.place }
    ensures count { result.place.count ≡ place.count + 1 }
{
    let from = place.at + start;
    let text = move_down(text, from, size, place.end);
    close_gap(
        text,
        ChunkPlace {
            end: place.end + size,
            at: from + size + 2,
            count: place.count + 1,
        },
    )
}

/// Receives a session until the next chunk is decided.
fn receive_chunk<L: Link>(
    link: &mut L,
    buffer: &mut [u8],
    text: &mut Bytes,
    place: ChunkPlace,
    room: &mut [HeaderSpan],
) -> Result<ChunkStep, Stop>
    requires buffer { length buffer.old ≡ PIECE }
    requires room { length room.old ≡ 5461 }
    requires within { place.at ≤ length text.old }
    ensures decided { IfOk result (IsChunkStep text.new place) }
    ensures more { OnOk result (ReceivesOn (IsOpenWith text.old place) text.old text.new false (L.log link.old) (L.log link.new)) }
    ensures open { IsErrOf result Stop.Ended → IsOpenAt text.new place }
    ensures end { IsErrOf result Stop.Ended → ReceivesOn (IsOpenWith text.old place) text.old text.new true (L.log link.old) (L.log link.new) }
    ensures failed_log { IsErrOf result Stop.Failed → FailsAfter (IsOpenWith text.old place) (L.log link.old) (L.log link.new) }
    ensures refused_log { IsErrOf result Stop.OutOfMemory → ReceivesSome (IsOpenWith text.old place) (L.log link.old) (L.log link.new) }
    ensures failed { IsErrOf result Stop.Failed → Rose (L.faults link.old) (L.faults link.new) }
    ensures kept { result ≢ Err Stop.Failed → L.faults link.new ≡ L.faults link.old }
    ensures counted { L.faults link.old ≤ L.faults link.new }
{
    'pieces: loop {
        if let Some(step) = look_at_chunk(text.as_slice(), place, room) {
            return Ok(step);
        }
        match receive_piece(link, buffer, text) {
            Ok(()) => {}
            Err(Stop::Ended) => return Err(Stop::Ended),
            Err(Stop::Failed) => return Err(Stop::Failed),
            Err(Stop::OutOfMemory) => return Err(Stop::OutOfMemory),
        }
    }
}

/// Receives a chunked body, of which these bytes have come, and answers its data.
pub(crate) fn receive_chunks<L: Link>(
    alloc: Global,
    link: &mut L,
    buffer: &mut [u8],
    body: Bytes,
) -> Result<Bytes, ReceiveFault>
    requires { length buffer.old ≡ PIECE }
    ensures whole { IfOk result (λ content. (given : List ℕ) × Receives given false false (L.log link.old) (L.log link.new)
        × ReadsWhile (IsOpenBodyWith body) given × IsWholeBody (body ++ given) content) }
    ensures fault { IfErr result (λ fault. (given : List ℕ) × (ended : Bool) × (failed : Bool)
        × Receives given ended failed (L.log link.old) (L.log link.new) × ReadsOnly (IsOpenBodyWith body) given ended failed
        × IsFaultOfChunks (body ++ given) ended failed fault) }
    ensures failed { IsErrOf result (ReceiveFault.Fault ExchangeFault.Link) → Rose (L.faults link.old) (L.faults link.new) }
    ensures kept { result ≢ Err (ReceiveFault.Fault ExchangeFault.Link) → L.faults link.new ≡ L.faults link.old }
    ensures counted { L.faults link.old ≤ L.faults link.new }
{
    let Ok(mut room) = room_for_fields(alloc) else {
        return Err(ReceiveFault::OutOfMemory);
    };
    let mut text = body;
    let mut place = ChunkPlace {
        end: 0,
        at: 0,
        count: 0,
    };
    'chunks: loop {
        match receive_chunk(link, buffer, &mut text, place, room.as_mut_slice()) {
            Ok(ChunkStep::Data { start, size }) => {
                let taken = take_chunk(text, place, start, size);
                text = taken.text;
                place = taken.place;
            }
            Ok(ChunkStep::Last) => {
                text.truncate(place.end);
                return Ok(text);
            }
            Ok(ChunkStep::Refused) => {
                return Err(ReceiveFault::Fault(ExchangeFault::Chunk(place.count + 1)));
            }
            Ok(ChunkStep::Long(total)) => {
                return Err(ReceiveFault::Fault(ExchangeFault::BodyLimit(total)));
            }
            Err(Stop::Ended) => return Err(ReceiveFault::Fault(ExchangeFault::Cut)),
            Err(Stop::Failed) => return Err(ReceiveFault::Fault(ExchangeFault::Link)),
            Err(Stop::OutOfMemory) => return Err(ReceiveFault::OutOfMemory),
        }
    }
}
