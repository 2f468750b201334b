ghost use Rattle.std.specs.Prelude.{◌≡◌, ℕ, ◌+◌, ◌*◌, ◌<◌, ◌≤◌, List, [], ◌∷◌, ◌++◌, length, IfOk, IsTrue, IsFalse};
ghost use Rattle.httparse.specs.Grammar.{RequestHead};
ghost use Rattle.http_edge.specs.Requests.{NeedsMore};
ghost use Rattle.http_edge.specs.Receiving.{IsFound, HasSpansWithin};
ghost use Rattle.http_edge.specs.Places.{IsAt};
ghost use Rattle.http_edge.specs.Deciding.{IsDecided, IsStage, HasHead, IsHeadStep, StandsFor};

use crate::fields::{BodyLength, length_said};
use crate::head_places::{HeadPlace, next_place};
use crate::heads::{FIELD_LIMIT, HEAD_LIMIT, ROOM, SHORT_HEAD, SHORT_ROOM};
use crate::requests::{BODY_LIMIT, request_length};
use httparse::spans::{EMPTY_HEADER_SPAN, HeaderSpan, RequestSpans, parse_request};
use sb_model::OutOfMemory;
use std::alloc::Global;
use std::marker::Model;

/// What a text says of the head of a request.
#[derive(Clone, Copy)]
pub(crate) enum HeadStep {
    Whole {
        /// How many bytes the body has, where that is known.
        length: Option<u64>,
        /// Where the body begins.
        start: usize,
    },
    /// It can no longer become a head that can be taken.
    Refused,
    /// More bytes are needed.
    Open,
}

/// How far a request has come.
#[derive(Clone, Copy)]
pub(crate) enum Stage {
    /// Its head is open, and ends here so far.
    Head(HeadPlace),
    /// So many bytes of the body are missing, one or more.
    Body(u64),
    Decided,
}

/// Says of the bytes of a request (RFC 9112), as they come in pieces, whether they decide it: it is whole, or it is refused
/// whatever follows. It stands for the bytes that were fed to it since it was made. It keeps those of the head, at most
/// 16,384, in memory that is taken when it is made, and looks at each byte once; the parser is asked at the end of the head,
/// or at the byte with which no head goes on.
#[derive(Drop)]
pub struct RequestWatch {
    head: Vec<u8>,
    stage: Stage,
}

impl Model for RequestWatch {
    ghost use Rattle.std.specs.Vec.{vec_capacity};
    ghost use Rattle.http_edge.specs.Deciding.{Watching};

    ghost Value = { Watching };

    ghost view = { λ w. record { stage = w.stage; head = w.head.items; room = vec_capacity w.head } };
}

/// What a whole head says.
fn judge_whole(buffer: &[u8], fields: &[HeaderSpan], spans: RequestSpans) -> HeadStep
    requires found { (head : RequestHead) × IsFound buffer.now fields.now spans head }
    requires placed { HasSpansWithin buffer.now fields.now spans }
    requires short { length buffer.now ≤ HEAD_LIMIT }
    ensures { IsHeadStep buffer.now result }
{
    let said = length_said(buffer, fields);
    if fields.len() > FIELD_LIMIT || said == BodyLength::Malformed {
        return HeadStep::Refused;
    }
    HeadStep::Whole {
        length: request_length(spans.method.of(buffer), buffer, fields, said),
        start: spans.len,
    }
}

/// Asks the parser of all bytes of a head so far, with room for the fields that they can have.
fn judge_with(text: &[u8], room: &mut [HeaderSpan]) -> HeadStep
    requires short { length text.now ≤ HEAD_LIMIT }
    requires room { length text.now ≤ 3 * length room.old + 2 }
    ensures { IsHeadStep text.now result }
{
    match parse_request(text, room) {
        Ok(httparse::Status::Complete(spans)) => judge_whole(text, &room[..spans.headers], spans),
        Ok(httparse::Status::Partial) => HeadStep::Open,
        Err(_) => HeadStep::Refused,
    }
}

/// Asks the parser of a short head. The room for the fields, 11 KB, lies on the stack while it is asked.
fn judge_short(text: &[u8]) -> HeadStep
    requires { length text.now ≤ SHORT_HEAD }
    ensures { IsHeadStep text.now result }
{
    let mut room = [EMPTY_HEADER_SPAN; SHORT_ROOM];
    judge_with(text, &mut room)
}

/// Asks the parser of any head. The room for the fields, 175 KB, lies on the stack while it is asked.
fn judge_long(text: &[u8]) -> HeadStep
    requires { length text.now ≤ HEAD_LIMIT }
    ensures { IsHeadStep text.now result }
{
    let mut room = [EMPTY_HEADER_SPAN; ROOM];
    judge_with(text, &mut room)
}

/// Asks the parser of all bytes of a head so far. Most heads are short, and room is filled before it is used.
fn judge(text: &[u8]) -> HeadStep
    requires { length text.now ≤ HEAD_LIMIT }
    ensures { IsHeadStep text.now result }
{
    if text.len() <= SHORT_HEAD {
        judge_short(text)
    } else {
        judge_long(text)
    }
}

/// What is known after a whole head, in a text that has some bytes of the body.
fn stage_after_head(text: &[u8], length: Option<u64>, start: usize) -> Stage
    requires { HasHead text.now length start }
    ensures { IsStage text.now result }
{
    let Some(length) = length else {
        return Stage::Decided;
    };
    if length > BODY_LIMIT {
        return Stage::Decided;
    }
    let come = (text.len() - start) as u64;
    if length <= come {
        return Stage::Decided;
    }
    Stage::Body(length - come)
}

/// What the text of a head comes to, of which no place is known.
fn asked_stage(text: &[u8]) -> Stage
    requires { length text.now ≤ HEAD_LIMIT }
    ensures { IsStage text.now result }
{
    match judge(text) {
        HeadStep::Whole { length, start } => stage_after_head(text, length, start),
        HeadStep::Refused => Stage::Decided,
        HeadStep::Open if text.len() >= HEAD_LIMIT => Stage::Decided,
        HeadStep::Open => Stage::Head(HeadPlace::Asked),
    }
}

/// What is known after a further byte of the head, with which the text ends now.
fn head_stage(text: &[u8], place: HeadPlace, byte: u8) -> Stage
    requires some { 0 < length text.now }
    requires short { length text.now ≤ HEAD_LIMIT }
    ensures { (before : List ℕ) → text.now ≡ before ++ byte ∷ [] → IsAt place before → IsStage text.now result }
{
    match next_place(text, place, byte) {
        Some(place) if text.len() < HEAD_LIMIT => Stage::Head(place),
        Some(_) => Stage::Decided,
        None => asked_stage(text),
    }
}

impl RequestWatch {
    /// No bytes yet. It takes memory for 16,384 bytes here, and none later.
    pub fn new(alloc: Global) -> Result<Self, OutOfMemory>
        ensures { IfOk result (λ watch. StandsFor watch []) }
    {
        Ok(RequestWatch {
            head: Vec::with_capacity(alloc, HEAD_LIMIT)?,
            stage: Stage::Head(HeadPlace::Blank),
        })
    }

    /// Takes one more byte.
    fn take(&mut self, byte: u8)
        ensures { (bytes : List ℕ) → StandsFor self.old bytes → StandsFor self.new (bytes ++ byte ∷ []) }
    {
        match self.stage {
            Stage::Head(place) => {
                if self.head.len() >= HEAD_LIMIT || self.head.push(byte).is_err() {
                    return;
                }
                self.stage = head_stage(self.head.as_slice(), place, byte);
            }
            Stage::Body(missing) if missing > 1 => self.stage = Stage::Body(missing - 1),
            Stage::Body(_) => self.stage = Stage::Decided,
            Stage::Decided => {}
        }
    }

    /// Takes the next bytes, as many as there are. It keeps at most those of the head, and takes no memory.
    pub fn feed(&mut self, piece: &[u8])
        ensures { (bytes : List ℕ) → StandsFor self.old bytes → StandsFor self.new (bytes ++ piece.now) }
    {
        for byte in piece {
            self.take(*byte);
        }
    }

    /// Whether the bytes that were fed decide the request. While they do not, more bytes are needed. Of bytes that end
    /// inside a target both may be right, since its test for UTF-8 waits for its end: there more are needed.
    pub fn is_decided(&self) -> bool
        ensures decided { (bytes : List ℕ) → StandsFor self.now bytes → IsTrue result → IsDecided bytes }
        ensures undecided { (bytes : List ℕ) → StandsFor self.now bytes → IsFalse result → NeedsMore bytes }
    {
        matches!(self.stage, Stage::Decided)
    }
}
