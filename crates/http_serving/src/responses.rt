ghost use Rattle.std.specs.Prelude.{◌≡◌, ◌≢◌, ◌≤◌, [], IfOk};
ghost use Rattle.sb_outside.specs.Outside.{Rose};
ghost use Rattle.http_edge.specs.Responses.{response_text};
ghost use Rattle.http_serving.specs.Serving.{refusal_status, unavailable_text, IsUnavailable, IsWholeOrFault};
ghost use Rattle.http_serving.specs.Steps.{answer_cause, answer_status, answer_text, IsSent};

use crate::ends::ConnectionEnd;
use crate::text_sink::TextSink;
use http_edge::{RequestFault, ResponseFault, ResponseFields, Status, write_response};
use sb_model::{Bytes, OutOfMemory};
use sb_outside::{Failed, SharedText, Sink, Wire, write_all};
use std::alloc::Global;

/// The response to a request for which memory was refused: 503 without a body, whose digest is that of nothing.
const UNAVAILABLE: &[u8] =
    b"HTTP/1.1 503 Service Unavailable\r\nContent-Type: application/json\r\nContent-Length: 0\r\nContent-Digest: sha-256=:47DEQpj8HBSa+/TImW+5JCeuQeRkm5NMpJWZG3hSuFU=:\r\nConnection: close\r\n\r\n";

/// A response: a status, the fields that the server chooses, and the body that goes with it. Beside it stands its cause, which is
/// not sent.
#[derive(Debug, Drop)]
pub struct Response {
    pub status: Status,
    /// The method that a 405 allows, and the media type of the body.
    pub fields: ResponseFields,
    pub body: Bytes,
    /// What the server tells of it whoever runs it, empty for nothing.
    pub cause: Bytes,
}

/// A response that is written out: its status, and its whole text, with the head before the body. It has no cause.
#[derive(Debug, Drop)]
pub struct WrittenResponse {
    pub status: Status,
    pub text: Bytes,
}

/// A response that is written out, as a text that others may hold too. It has no cause.
#[derive(Debug, Drop)]
pub struct SharedResponse {
    pub status: Status,
    pub text: SharedText,
}

/// What a server gives to be sent.
#[derive(Debug, Drop)]
pub enum Answer {
    /// A response, whose head is made when it is sent.
    Made(Response),
    /// The whole text of a response.
    Written(WrittenResponse),
    /// The whole text of a response, which is sent without a copy where the connection can hold it.
    Shared(SharedResponse),
}

/// A response without a body and without a cause. The method is named where the status is 405, and nowhere else.
pub fn bare(alloc: Global, status: Status, fields: ResponseFields) -> Response
    ensures status { result.status ≡ status }
    ensures fields { result.fields ≡ fields }
    ensures body { result.body ≡ [] }
    ensures cause { result.cause ≡ [] }
{
    Response {
        status,
        fields,
        body: Bytes::new(alloc),
        cause: Bytes::new(alloc),
    }
}

/// The status of a refused request. A fault of reading and want of memory have none.
pub(crate) fn refusal_status(fault: RequestFault) -> Option<Status>
    ensures { result ≡ refusal_status fault }
{
    match fault {
        RequestFault::Head | RequestFault::Cut => Some(Status::BadRequest),
        RequestFault::HeadLimit => Some(Status::FieldsTooLarge),
        RequestFault::NoLength => Some(Status::LengthRequired),
        RequestFault::BodyLimit(_) => Some(Status::ContentTooLarge),
        RequestFault::ReadFault | RequestFault::OutOfMemory => None,
    }
}

/// Writes a response out, as it is sent. Its cause is no part of it.
pub fn write_out(alloc: Global, response: &Response) -> Result<WrittenResponse, OutOfMemory>
    ensures status { IfOk result (λ written. written.status ≡ response.now.status) }
    ensures text { IfOk result (λ written. written.text ≡ response_text response.now.status response.now.fields response.now.body) }
{
    let Response {
        status,
        fields,
        body,
        cause: _,
    } = response;
    let mut sink = TextSink::new(alloc);
    match write_response(alloc, &mut sink, *status, *fields, body.as_slice()) {
        Ok(()) => Ok(WrittenResponse {
            status: *status,
            text: sink.into_text(),
        }),
        Err(ResponseFault::WriteFault | ResponseFault::OutOfMemory) => Err(OutOfMemory),
    }
}

/// Writes a response.
fn send_made<O: Sink>(alloc: Global, sink: &mut O, response: Response) -> ConnectionEnd
    ensures sent { IsSent response.status (response_text response.status response.fields response.body) response.cause result
        (O.contents sink.old) (O.contents sink.new) }
    ensures failed { result ≡ ConnectionEnd.WriteFault → Rose (O.faults sink.old) (O.faults sink.new) }
    ensures kept { result ≢ ConnectionEnd.WriteFault → O.faults sink.new ≡ O.faults sink.old }
    ensures counted { O.faults sink.old ≤ O.faults sink.new }
    ensures other { O.front sink.new ≡ O.front sink.old }
{
    let Response {
        status,
        fields,
        body,
        cause,
    } = response;
    match write_response(alloc, sink, status, fields, body.as_slice()) {
        Ok(()) => ConnectionEnd::Answered(status, cause),
        Err(ResponseFault::WriteFault) => ConnectionEnd::WriteFault,
        Err(ResponseFault::OutOfMemory) => ConnectionEnd::OutOfMemory,
    }
}

/// Writes the text of a response.
fn send_written<O: Sink>(alloc: Global, sink: &mut O, written: &WrittenResponse) -> ConnectionEnd
    ensures sent { IsSent written.now.status written.now.text [] result (O.contents sink.old) (O.contents sink.new) }
    ensures failed { result ≡ ConnectionEnd.WriteFault → Rose (O.faults sink.old) (O.faults sink.new) }
    ensures kept { result ≢ ConnectionEnd.WriteFault → O.faults sink.new ≡ O.faults sink.old }
    ensures counted { O.faults sink.old ≤ O.faults sink.new }
    ensures other { O.front sink.new ≡ O.front sink.old }
{
    match write_all(sink, written.text.as_slice()) {
        Ok(()) => ConnectionEnd::Answered(written.status, Bytes::new(alloc)),
        Err(Failed) => ConnectionEnd::WriteFault,
    }
}

/// Writes the text of a response that others may hold too.
fn send_shared<T: Wire>(alloc: Global, wire: &mut T, shared: &SharedResponse) -> ConnectionEnd
    ensures sent { IsSent shared.now.status shared.now.text [] result (T.contents wire.old) (T.contents wire.new) }
    ensures failed { result ≡ ConnectionEnd.WriteFault → Rose (T.Sink.faults wire.old) (T.Sink.faults wire.new) }
    ensures kept { result ≢ ConnectionEnd.WriteFault → T.Sink.faults wire.new ≡ T.Sink.faults wire.old }
    ensures counted { T.Sink.faults wire.old ≤ T.Sink.faults wire.new }
    ensures other { T.front wire.new ≡ T.front wire.old }
{
    match wire.write_shared(&shared.text) {
        Ok(()) => ConnectionEnd::Answered(shared.status, Bytes::new(alloc)),
        Err(Failed) => ConnectionEnd::WriteFault,
    }
}

/// Writes the response to a request for which memory was refused, without memory. If the write fails, a front of it was
/// written.
pub(crate) fn send_unavailable<O: Sink>(sink: &mut O)
    ensures sent { IsUnavailable (O.contents sink.old) (O.contents sink.new) }
    ensures whole { IsWholeOrFault unavailable_text (O.contents sink.old) (O.contents sink.new) (O.faults sink.old) (O.faults sink.new) }
    ensures counted { O.faults sink.old ≤ O.faults sink.new }
    ensures other { O.front sink.new ≡ O.front sink.old }
{
    let _ = write_all(sink, UNAVAILABLE);
}

/// Sends an answer. If all of it was sent, its cause is told.
pub(crate) fn send<T: Wire>(alloc: Global, wire: &mut T, answer: Answer) -> ConnectionEnd
    ensures sent { IsSent (answer_status answer) (answer_text answer) (answer_cause answer) result (T.contents wire.old) (T.contents wire.new) }
    ensures failed { result ≡ ConnectionEnd.WriteFault → Rose (T.Sink.faults wire.old) (T.Sink.faults wire.new) }
    ensures kept { result ≢ ConnectionEnd.WriteFault → T.Sink.faults wire.new ≡ T.Sink.faults wire.old }
    ensures counted { T.Sink.faults wire.old ≤ T.Sink.faults wire.new }
    ensures other { T.front wire.new ≡ T.front wire.old }
{
    match answer {
        Answer::Made(response) => send_made(alloc, wire, response),
        Answer::Written(written) => send_written(alloc, wire, &written),
        Answer::Shared(shared) => send_shared(alloc, wire, &shared),
    }
}
