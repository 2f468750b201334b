ghost use Rattle.std.specs.Prelude.{◌≡◌, ◌+◌, ◌<◌, ◌≤◌, length, MatchOption, IfSome, IfNone};
ghost use Rattle.http_edge.specs.ChunkSteps.{IsLineStep, IsEndStep, IsTrailerStep, IsDataStep, IsOpenData, IsChunkStep, IsOpenAt};
ghost use Rattle.http_edge.specs.Chunks.{HasOpenTrailer};

use crate::heads::{FIELD_LIMIT, HEAD_LIMIT, front_of, rest_from};
use crate::session_bytes::BODY_LIMIT;
use httparse::parse_chunk_size;
use httparse::spans::{HeaderSpan, parse_headers};

/// How many bytes a size line has at most.
const LINE_LIMIT: usize = 1_024;

/// How many chunks a body has at most, with the last one.
const CHUNK_LIMIT: u64 = 1_048_576;

/// How far a chunked body was read. The data of its whole chunks stands at the front of a text, and what
/// follows them stands from a place on. The bytes between are done with.
#[derive(Clone, Copy, Debug)]
pub(crate) struct ChunkPlace {
    /// Where the data ends.
    pub end: usize,
    /// Where the next chunk begins.
    pub at: usize,
    /// How many chunks were whole.
    pub count: u64,
}

/// What the bytes so far say of a size line.
#[derive(Clone, Copy, Debug)]
pub(crate) enum LineStep {
    /// It ends here, and says this size.
    Says { start: usize, size: u64 },
    Refused,
    /// More bytes are needed.
    Open,
}

/// What the bytes so far say of the end of a chunk's data.
#[derive(Clone, Copy, Debug)]
pub(crate) enum EndStep {
    Whole,
    Refused,
    /// More bytes are needed.
    Open,
}

/// What is decided of a chunk.
#[derive(Clone, Copy, Debug)]
pub(crate) enum ChunkStep {
    /// It is whole. Its data begins so many bytes after its own beginning, and has this size.
    Data { start: usize, size: usize },
    /// It is the last one, and its trailer is whole.
    Last,
    /// It is wrong.
    Refused,
    /// The sum of the sizes, which is too large.
    Long(u64),
}

/// Reads the size line at the front of the bytes.
fn read_line(bytes: &[u8]) -> LineStep
    ensures { IsLineStep bytes.now result }
{
    match parse_chunk_size(front_of(bytes, LINE_LIMIT)) {
        Ok(httparse::Status::Complete((start, size))) => LineStep::Says { start, size },
        Ok(httparse::Status::Partial) => {
            if bytes.len() < LINE_LIMIT {
                return LineStep::Open;
            }
            LineStep::Refused
        }
        Err(_) => LineStep::Refused,
    }
}

/// Reads the CR LF that follows the data of a chunk.
fn read_end(bytes: &[u8]) -> EndStep
    ensures { IsEndStep bytes.now result }
{
    match bytes {
        [] => EndStep::Open,
        [b'\r'] => EndStep::Open,
        [b'\r', b'\n', ..] => EndStep::Whole,
        _ => EndStep::Refused,
    }
}

/// Reads the trailer at the front of the bytes. `None` means that more bytes are needed.
fn read_trailer(bytes: &[u8], room: &mut [HeaderSpan]) -> Option<ChunkStep>
    requires { length room.old ≡ 5461 }
    ensures { MatchOption result (HasOpenTrailer bytes.now) (IsTrailerStep bytes.now) }
{
    match parse_headers(front_of(bytes, HEAD_LIMIT), room) {
        Ok(httparse::Status::Complete((_, count))) => {
            if count <= FIELD_LIMIT {
                return Some(ChunkStep::Last);
            }
            Some(ChunkStep::Refused)
        }
        Ok(httparse::Status::Partial) => {
            if bytes.len() < HEAD_LIMIT {
                return None;
            }
            Some(ChunkStep::Refused)
        }
        Err(_) => Some(ChunkStep::Refused),
    }
}

/// Looks at the data of a chunk, which follows its size line, and at its end. `None` means that more bytes
/// are needed.
fn look_at_data(bytes: &[u8], start: usize, size: u64, before: usize) -> Option<ChunkStep>
    ensures { MatchOption result (IsOpenData bytes.now size before) (IsDataStep bytes.now start size before) }
{
    let total = (before as u64).saturating_add(size);
    if total > BODY_LIMIT {
        return Some(ChunkStep::Long(total));
    }
    let size = size as usize;
    if bytes.len() < size {
        return None;
    }
    match read_end(rest_from(bytes, size)) {
        EndStep::Whole => Some(ChunkStep::Data { start, size }),
        EndStep::Refused => Some(ChunkStep::Refused),
        EndStep::Open => None,
    }
}

/// Looks at the next chunk, as far as it has come. `None` means that more bytes are needed.
pub(crate) fn look_at_chunk(
    text: &[u8],
    place: ChunkPlace,
    room: &mut [HeaderSpan],
) -> Option<ChunkStep>
    requires within { place.at ≤ length text.now }
    requires room { length room.old ≡ 5461 }
    ensures step { IfSome result (IsChunkStep text.now place) }
    ensures open { IfNone result (IsOpenAt text.now place) }
    ensures short { IfNone result (length text.now < place.at + 201327618) }
{
    if place.count >= CHUNK_LIMIT {
        return Some(ChunkStep::Refused);
    }
    let rest = rest_from(text, place.at);
    match read_line(rest) {
        LineStep::Says { start, size } => {
            let after = rest_from(rest, start);
            if size == 0 {
                return read_trailer(after, room);
            }
            look_at_data(after, start, size, place.end)
        }
        LineStep::Refused => Some(ChunkStep::Refused),
        LineStep::Open => None,
    }
}
