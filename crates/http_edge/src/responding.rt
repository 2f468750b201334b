ghost use Rattle.std.specs.Prelude.{◌≡◌, ◌≤◌, ◌≢◌, ◌++◌, length, codes, decimal, IfOk, OnOk, OnErr, IsErrOf};
ghost use Rattle.sb_outside.specs.Outside.{Rose, appended};
ghost use Rattle.sb_outside.specs.Writing.{HasFront};
ghost use Rattle.sha2.specs.Sha256.{sha256};
ghost use Rattle.http_edge.specs.Responses.{status_text, media_text, method_text, allow_line, digest_text, response_head, response_text, line};

use crate::{Allow, MediaType, ResponseFault, ResponseFields, Status};
use base64::engine::general_purpose::STANDARD;
use hash_prefixes::full_hash;
use sb_model::{Bytes, OutOfMemory};
use sb_outside::{Failed, Sink, write_all};
use std::alloc::Global;

fn status_text(status: Status) -> &'static str
    ensures { result.now ≡ status_text status }
{
    match status {
        Status::Success => "200 OK",
        Status::BadRequest => "400 Bad Request",
        Status::NotFound => "404 Not Found",
        Status::MethodNotAllowed => "405 Method Not Allowed",
        Status::LengthRequired => "411 Length Required",
        Status::ContentTooLarge => "413 Content Too Large",
        Status::FieldsTooLarge => "431 Request Header Fields Too Large",
        Status::BadGateway => "502 Bad Gateway",
        Status::ServiceUnavailable => "503 Service Unavailable",
    }
}

fn media_text(media: MediaType) -> &'static str
    ensures { result.now ≡ media_text media }
{
    match media {
        MediaType::Json => "application/json",
        MediaType::Protobuf => "application/x-protobuf",
    }
}

// Appends a line of a name and a value.
#[tactic(auto, unfolding(crate::specs::Responses::line))]
pub(crate) fn push_line(page: &mut Bytes, name: &[u8], value: &[u8]) -> Result<(), OutOfMemory>
    ensures { OnOk result (page.new ≡ page.old ++ line (name.now ++ value.now)) }
{
    page.append(name)?;
    page.append(value)?;
    page.append(b"\r\n")
}

// Appends the field of a body's length.
#[tactic(auto, unfolding(crate::specs::Responses::line))]
pub(crate) fn push_length(page: &mut Bytes, length: usize) -> Result<(), OutOfMemory>
    ensures { OnOk result (page.new ≡ page.old ++ line (codes "Content-Length: " ++ decimal length)) }
{
    page.append(b"Content-Length: ")?;
    page.append_decimal(length as u64)?;
    page.append(b"\r\n")
}

// A digest as a member of `Content-Digest`.
#[tactic(auto, unfolding(crate::specs::Responses::digest_text))]
fn digest_text(alloc: Global, digest: &[u8]) -> Result<Bytes, OutOfMemory>
    ensures { IfOk result (λ text. text ≡ digest_text digest.now) }
{
    let mut text = Bytes::new(alloc);
    text.append(b"sha-256=:")?;
    text.append(STANDARD.encode(alloc, digest)?.as_bytes())?;
    text.append(b":")?;
    Ok(text)
}

// Appends the field of a body's digest.
fn push_digest(alloc: Global, page: &mut Bytes, body: &[u8]) -> Result<(), OutOfMemory>
    ensures { OnOk result (page.new ≡ page.old ++ line (codes "Content-Digest: " ++ digest_text (sha256 body.now))) }
{
    let digest = full_hash(body);
    let text = digest_text(alloc, &digest.bytes)?;
    push_line(page, b"Content-Digest: ", text.as_slice())
}

// Appends the field of the allowed method, where the method was not.
#[tactic(auto, unfolding(crate::specs::Responses::line))]
fn push_allow(page: &mut Bytes, status: Status, allow: Allow) -> Result<(), OutOfMemory>
    ensures { OnOk result (page.new ≡ page.old ++ allow_line status allow) }
{
    match (status, allow) {
        (Status::MethodNotAllowed, Allow::Get) => page.append(b"Allow: GET\r\n"),
        (Status::MethodNotAllowed, Allow::Post) => page.append(b"Allow: POST\r\n"),
        _ => Ok(()),
    }
}

// The head of a response.
fn head_of(
    alloc: Global,
    status: Status,
    fields: ResponseFields,
    body: &[u8],
) -> Result<Bytes, OutOfMemory>
    ensures { IfOk result (λ head. head ≡ response_head status fields body.now) }
{
    let mut page = Bytes::new(alloc);
    push_line(&mut page, b"HTTP/1.1 ", status_text(status).as_bytes())?;
    push_line(
        &mut page,
        b"Content-Type: ",
        media_text(fields.media).as_bytes(),
    )?;
    push_length(&mut page, body.len())?;
    push_digest(alloc, &mut page, body)?;
    push_allow(&mut page, status, fields.allow)?;
    push_line(&mut page, b"Connection: ", b"close")?;
    push_line(&mut page, b"", b"")?;
    Ok(page)
}

// Writes two pieces, the second after the first. After an `Err` the sink took a front of both, and not the whole.
fn write_both<O: Sink>(sink: &mut O, first: &[u8], second: &[u8]) -> Result<(), Failed>
    ensures ok { OnOk result (O.contents sink.new ≡ appended (O.contents sink.old) (first.now ++ second.now)) }
    ensures err { OnErr result (HasFront (O.contents sink.old) (O.contents sink.new) (first.now ++ second.now)) }
    ensures kept { OnOk result (O.faults sink.new ≡ O.faults sink.old) }
    ensures counted { O.faults sink.old ≤ O.faults sink.new }
    ensures failed { OnErr result (Rose (O.faults sink.old) (O.faults sink.new)) }
    ensures other { O.front sink.new ≡ O.front sink.old }
{
    write_all(sink, first)?;
    write_all(sink, second)
}

/// Writes a whole response: status line, fields and body. `Content-Type` names the media type of the body. The allowed
/// method is named where the status is 405, and nowhere else.
pub fn write_response<O: Sink>(
    alloc: Global,
    sink: &mut O,
    status: Status,
    fields: ResponseFields,
    body: &[u8],
) -> Result<(), ResponseFault>
    ensures ok { OnOk result (O.contents sink.new
        ≡ appended (O.contents sink.old) (response_text status fields body.now)) }

    // The sink took a front of the response, and not the whole.
    ensures write_fault { IsErrOf result ResponseFault.WriteFault →
        HasFront (O.contents sink.old) (O.contents sink.new) (response_text status fields body.now) }
    ensures refused { IsErrOf result ResponseFault.OutOfMemory → O.contents sink.new ≡ O.contents sink.old }

    // A fault is counted, and nothing else is.
    ensures failed { IsErrOf result ResponseFault.WriteFault → Rose (O.faults sink.old) (O.faults sink.new) }
    ensures kept { result ≢ Err ResponseFault.WriteFault → O.faults sink.new ≡ O.faults sink.old }
    ensures counted { O.faults sink.old ≤ O.faults sink.new }
    ensures other { O.front sink.new ≡ O.front sink.old }
{
    let Ok(head) = head_of(alloc, status, fields, body) else {
        return Err(ResponseFault::OutOfMemory);
    };
    match write_both(sink, head.as_slice(), body) {
        Ok(()) => Ok(()),
        Err(Failed) => Err(ResponseFault::WriteFault),
    }
}
