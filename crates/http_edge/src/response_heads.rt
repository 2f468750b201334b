ghost use Rattle.std.specs.Prelude.{◌≡◌, ◌≢◌, ◌≤◌, length, All, IfOk};
ghost use Rattle.httparse.specs.Grammar.{ResponseHead};
ghost use Rattle.httparse.specs.Spans.{IsHeaderWithin};
ghost use Rattle.http_edge.specs.SessionBytes.{IsFoundResponse, IsResponseStep};

use crate::Framing;
use crate::digests::digest_given;
use crate::fields::{BodyLength, framing_said, length_said};
use crate::heads::{FIELD_LIMIT, HEAD_LIMIT, front_of};
use httparse::spans::{HeaderSpan, ResponseSpans, parse_response};
use sb_model::OutOfMemory;
use std::alloc::Global;

/// What is taken of the head of a response.
#[derive(Clone, Copy, Debug)]
pub(crate) struct ResponseParts {
    pub status: u16,
    pub framing: Framing,
    /// The digest that is given of the body.
    pub digest: Option<[u8; 32]>,
    /// Where the body begins.
    pub start: usize,
}

/// What the bytes so far say of the head of a response.
#[derive(Clone, Copy, Debug)]
pub(crate) enum ResponseStep {
    Whole(ResponseParts),
    /// They can no longer become a head that can be taken.
    Refused,
    /// More bytes are needed.
    Open,
}

/// Takes the parts of a whole head.
fn take_response_parts(
    alloc: Global,
    buffer: &[u8],
    fields: &[HeaderSpan],
    spans: ResponseSpans,
) -> Result<ResponseStep, OutOfMemory>
    requires found { (head : ResponseHead) × IsFoundResponse buffer.now fields.now spans head }
    requires placed { All (IsHeaderWithin (length buffer.now)) fields.now }
    requires short { length buffer.now ≤ HEAD_LIMIT }
    ensures step { IfOk result (λ step. IsResponseStep buffer.now step) }
    ensures decided { result ≢ Ok ResponseStep.Open }
{
    let said = length_said(buffer, fields);
    if fields.len() > FIELD_LIMIT || said == BodyLength::Malformed {
        return Ok(ResponseStep::Refused);
    }
    Ok(ResponseStep::Whole(ResponseParts {
        status: spans.code,
        framing: framing_said(buffer, fields, said),
        digest: digest_given(alloc, buffer, fields)?,
        start: spans.len,
    }))
}

/// Looks at the head of a response, as far as it has come.
pub(crate) fn look_at_response(
    alloc: Global,
    text: &[u8],
    room: &mut [HeaderSpan],
) -> Result<ResponseStep, OutOfMemory>
    requires { length room.old ≡ 5461 }
    ensures { IfOk result (λ step. IsResponseStep text.now step) }
{
    let front = front_of(text, HEAD_LIMIT);
    match parse_response(front, room) {
        Ok(httparse::Status::Complete(spans)) => {
            take_response_parts(alloc, front, &room[..spans.headers], spans)
        }
        Ok(httparse::Status::Partial) => Ok(ResponseStep::Open),
        Err(_) => Ok(ResponseStep::Refused),
    }
}
