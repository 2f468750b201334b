ghost use Rattle.std.specs.Prelude.{◌≡◌, ◌≢◌, ℕ, ◌+◌, ◌*◌, ◌<◌, ◌≤◌, List, [], length, take, map, codes, Bool, true, false, All, Option, Some, IfOk, OnOk, OnErr, IfErr, IsErrOf, IsTrue};
ghost use Rattle.std.specs.Str.{bytes_eq};
ghost use Rattle.sb_outside.specs.Outside.{Rose, GivesFront};
ghost use Rattle.httparse.specs.Grammar.{RequestHead};
ghost use Rattle.httparse.specs.Spans.{IsHeaderWithin};
ghost use Rattle.http_edge.specs.Fields.{values_at, length_in};
ghost use Rattle.http_edge.specs.Requests.{Gives, NeedsMore, IsRefusal, RequestOutcome, ReadsToRequest, goes_without_body, length_by, length_unless};
ghost use Rattle.http_edge.specs.SessionBytes.{ReadsWhile};
ghost use Rattle.http_edge.specs.Receiving.{IsFound, HasSpansWithin, IsPartsOf, IsRequestStep};

use crate::fields::{BodyLength, content_type_said, first_value, length_said};
use crate::heads::{FIELD_LIMIT, HEAD_LIMIT, PIECE, buffer_of, front_of, room_for_head};
use crate::receiving::{Stop, receive, receive_body};
use crate::{HttpRequest, RequestFault};
use httparse::spans::{HeaderSpan, RequestSpans, parse_request};
use sb_model::{Bytes, OutOfMemory};
use sb_outside::Source;
use std::alloc::Global;

/// How many bytes the body of a request has at most.
pub(crate) const BODY_LIMIT: u64 = 1_048_576;

/// What is taken of the head of a request.
#[derive(Debug, Drop)]
pub(crate) struct RequestParts {
    pub method: Bytes,
    pub target: Bytes,
    /// The value of its one field `Content-Type`.
    pub content_type: Bytes,
    /// How many bytes the body has, where that is known.
    pub length: Option<u64>,
    /// Where the body begins.
    pub start: usize,
}

/// What the bytes so far say of the head of a request.
#[derive(Debug, Drop)]
pub(crate) enum RequestStep {
    Whole(RequestParts),
    /// They can no longer become a head that can be taken.
    Refused,
    /// More bytes are needed.
    Open,
}

/// Whether a method goes without a body where no length is said.
fn goes_without_body(method: &[u8]) -> bool
    ensures { result ≡ goes_without_body method.now }
{
    method == b"GET".as_slice() || method == b"HEAD".as_slice() || method == b"OPTIONS".as_slice()
}

/// How many bytes the body has, by the length that is said.
fn length_by(method: &[u8], said: BodyLength) -> Option<u64>
    ensures { result ≡ length_by method.now said }
{
    match said {
        BodyLength::Said(length) => Some(length),
        BodyLength::Unsaid if goes_without_body(method) => Some(0),
        _ => None,
    }
}

/// How many bytes the body of a request has, where that is known.
pub(crate) fn request_length(
    method: &[u8],
    buffer: &[u8],
    fields: &[HeaderSpan],
    said: BodyLength,
) -> Option<u64>
    requires { All (IsHeaderWithin (length buffer.now)) fields.now }
    ensures { result ≡ length_unless (values_at buffer.now fields.now (codes "transfer-encoding")) (length_by method.now said) }
{
    match first_value(buffer, fields, b"transfer-encoding") {
        Some(_) => None,
        None => length_by(method, said),
    }
}

/// Takes the parts of a whole head.
fn take_parts(
    alloc: Global,
    buffer: &[u8],
    fields: &[HeaderSpan],
    spans: RequestSpans,
) -> Result<RequestStep, OutOfMemory>
    requires found { (head : RequestHead) × IsFound buffer.now fields.now spans head }
    requires placed { HasSpansWithin buffer.now fields.now spans }
    requires short { length buffer.now ≤ HEAD_LIMIT }
    ensures step { IfOk result (λ step. IsRequestStep buffer.now step) }
    ensures decided { result ≢ Ok RequestStep.Open }
{
    let said = length_said(buffer, fields);
    if fields.len() > FIELD_LIMIT || said == BodyLength::Malformed {
        return Ok(RequestStep::Refused);
    }
    let method = spans.method.of(buffer);
    Ok(RequestStep::Whole(RequestParts {
        method: Bytes::from_slice(alloc, method)?,
        target: Bytes::from_slice(alloc, spans.path.of(buffer))?,
        content_type: Bytes::from_slice(alloc, content_type_said(buffer, fields))?,
        length: request_length(method, buffer, fields, said),
        start: spans.len,
    }))
}

/// Looks at the head of a request, as far as it has come.
fn look_at_head(
    alloc: Global,
    text: &[u8],
    room: &mut [HeaderSpan],
) -> Result<RequestStep, OutOfMemory>
    requires { length (take HEAD_LIMIT text.now) ≤ 3 * length room.old + 2 }
    ensures { IfOk result (λ step. IsRequestStep text.now step) }
{
    let front = front_of(text, HEAD_LIMIT);
    match parse_request(front, room) {
        Ok(httparse::Status::Complete(spans)) => {
            take_parts(alloc, front, &room[..spans.headers], spans)
        }
        Ok(httparse::Status::Partial) => Ok(RequestStep::Open),
        Err(_) => Ok(RequestStep::Refused),
    }
}

/// Looks at the head of a request, as far as it has come, with room for the fields that it can have.
fn look(alloc: Global, text: &[u8]) -> Result<RequestStep, OutOfMemory>
    ensures { IfOk result (λ step. IsRequestStep text.now step) }
{
    let mut room = room_for_head(alloc, text.len().min(HEAD_LIMIT))?;
    look_at_head(alloc, text, room.as_mut_slice())
}

/// Receives the head of a request. The text is what was received.
fn receive_head<S: Source>(
    alloc: Global,
    source: &mut S,
    buffer: &mut [u8],
    text: &mut Bytes,
) -> Result<RequestParts, RequestFault>
    requires room { length buffer.old ≡ PIECE }
    requires none { text.old ≡ [] }
    ensures parts { IfOk result (λ parts. IsPartsOf text.new parts) }
    ensures given { OnOk result (GivesFront text.new (S.left source.old) (S.left source.new)) }
    ensures reads { OnOk result (ReadsWhile NeedsMore text.new) }
    ensures refusal { IfErr result (λ fault. (bytes : List ℕ) × (ended : Bool)
        × Gives bytes ended (S.left source.old) (S.left source.new) × IsRefusal bytes ended fault
        × ReadsToRequest bytes ended (Err fault)) }
    ensures failed { IsErrOf result RequestFault.ReadFault → Rose (S.faults source.old) (S.faults source.new) }
    ensures kept { result ≢ Err RequestFault.ReadFault → S.faults source.new ≡ S.faults source.old }
    ensures counted { S.faults source.old ≤ S.faults source.new }
    ensures other { S.back source.new ≡ S.back source.old }
{
    'pieces: loop {
        match look(alloc, text.as_slice()) {
            Ok(RequestStep::Whole(parts)) => return Ok(parts),
            Ok(RequestStep::Refused) => return Err(RequestFault::Head),
            Ok(RequestStep::Open) => {}
            Err(OutOfMemory) => return Err(RequestFault::OutOfMemory),
        }
        if text.len() >= HEAD_LIMIT {
            return Err(RequestFault::HeadLimit);
        }
        match receive(source, buffer, text) {
            Ok(()) => {}
            Err(Stop::Ended) => return Err(RequestFault::Cut),
            Err(Stop::Failed) => return Err(RequestFault::ReadFault),
            Err(Stop::OutOfMemory) => return Err(RequestFault::OutOfMemory),
        }
    }
}

/// Receives the body of a request whose head was received.
fn receive_rest<S: Source>(
    alloc: Global,
    source: &mut S,
    buffer: &mut [u8],
    text: &Bytes,
    parts: RequestParts,
) -> Result<HttpRequest, RequestFault>
    requires room { length buffer.old ≡ PIECE }
    requires parts { IsPartsOf text.now parts }
    requires reads { ReadsWhile NeedsMore text.now }
    ensures outcome { (start : Option (List (List ℕ))) → GivesFront text.now start (S.left source.old)
        → (bytes : List ℕ) × (ended : Bool) × Gives bytes ended start (S.left source.new) × RequestOutcome bytes ended result
        × ReadsToRequest bytes ended result }
    ensures failed { IsErrOf result RequestFault.ReadFault → Rose (S.faults source.old) (S.faults source.new) }
    ensures kept { result ≢ Err RequestFault.ReadFault → S.faults source.new ≡ S.faults source.old }
    ensures counted { S.faults source.old ≤ S.faults source.new }
    ensures other { S.back source.new ≡ S.back source.old }
{
    let RequestParts {
        method,
        target,
        content_type,
        length,
        start,
    } = parts;
    let Some(length) = length else {
        return Err(RequestFault::NoLength);
    };
    if length > BODY_LIMIT {
        return Err(RequestFault::BodyLimit(length));
    }
    let Ok(mut body) = Bytes::from_slice(alloc, &text.as_slice()[start..]) else {
        return Err(RequestFault::OutOfMemory);
    };
    match receive_body(source, buffer, &mut body, length as usize) {
        Ok(()) => Ok(HttpRequest {
            method,
            target,
            content_type,
            body,
        }),
        Err(Stop::Ended) => Err(RequestFault::Cut),
        Err(Stop::Failed) => Err(RequestFault::ReadFault),
        Err(Stop::OutOfMemory) => Err(RequestFault::OutOfMemory),
    }
}

/// Reads one request (RFC 9112): its head, of at most 16,384 bytes and 64 fields, and its body, of at most
/// 1,048,576 bytes. What follows the body is not looked at. It reads on only while the request is neither whole nor
/// refused, at most 65,536 bytes in one read.
pub fn read_request<S: Source>(alloc: Global, source: &mut S) -> Result<HttpRequest, RequestFault>
    // What the source gave, with its end or without, what that comes to, and that no more was read than decides it.
    ensures outcome { (bytes : List ℕ) × (ended : Bool) × Gives bytes ended (S.left source.old) (S.left source.new)
        × RequestOutcome bytes ended result × ReadsToRequest bytes ended result }

    // A fault is counted, and nothing else is.
    ensures failed { IsErrOf result RequestFault.ReadFault → Rose (S.faults source.old) (S.faults source.new) }
    ensures kept { result ≢ Err RequestFault.ReadFault → S.faults source.new ≡ S.faults source.old }
    ensures counted { S.faults source.old ≤ S.faults source.new }
    ensures other { S.back source.new ≡ S.back source.old }
{
    let Ok(mut buffer) = buffer_of(alloc) else {
        return Err(RequestFault::OutOfMemory);
    };
    let mut text = Bytes::new(alloc);
    let parts = receive_head(alloc, source, buffer.as_mut_slice(), &mut text)?;
    receive_rest(alloc, source, buffer.as_mut_slice(), &text, parts)
}
