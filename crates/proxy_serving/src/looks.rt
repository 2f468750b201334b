ghost use Rattle.std.specs.Prelude.{◌≡◌, [], IfNone, IfOk, IfSome};
ghost use Rattle.http_edge.specs.declared.messages.MediaType.{MediaType};
ghost use Rattle.lookup_messages.specs.Messages.{AskedUrls};
ghost use Rattle.lookup_messages.specs.Reading.{ReadsLookup};
ghost use Rattle.update_messages.specs.Reading.{IsTextOf};
ghost use Rattle.proxy_serving.specs.HeardLook.{IsHeardLook};
ghost use Rattle.proxy_serving.specs.Response.{IsLookBody, IsLookResponseBy, IsLookTold};

use crate::LookFate;
use crate::refusing::refuse_look;
use crate::routes::{asks_for_looks, json_fields};
use http_edge::{HttpRequest, RequestFault, Status};
use http_serving::Response;
use lookup_messages::{LookupRequest, read_lookup, write_lookup_matches};
use sb_json::MessageFault;
use sb_model::{Bytes, OutOfMemory};
use std::alloc::Global;

/// The status and the body by the fate of a look-up.
fn told_of(alloc: Global, fate: &LookFate) -> Result<(Status, Bytes), OutOfMemory>
    ensures { IfOk result (λ told. IsLookTold fate.now told.0 told.1) }
{
    match fate {
        LookFate::Unanswered => Ok((Status::ServiceUnavailable, Bytes::new(alloc))),
        LookFate::Answered(message) => Ok((Status::Success, write_lookup_matches(alloc, message)?)),
    }
}

/// The response to a look-up, by its fate.
fn answer_by_fate(alloc: Global, fate: &LookFate) -> Result<Response, OutOfMemory>
    ensures told { IfOk result (λ response. IsLookTold fate.now response.status response.body) }
    ensures cause { IfOk result (λ response. response.cause ≡ []) }
    ensures media { IfOk result (λ response. response.fields.media ≡ MediaType.Json) }
{
    let (status, body) = told_of(alloc, fate)?;
    Ok(Response {
        status,
        fields: json_fields(),
        body,
        cause: Bytes::new(alloc),
    })
}

/// The response to a body that was to ask for a look-up.
pub(crate) fn answer_look_body(
    alloc: Global,
    fate: &LookFate,
    asked: &[u8],
) -> Result<Response, OutOfMemory>
    ensures { IfOk result (λ response.
        IsLookResponseBy fate.now asked.now response.status response.fields response.body response.cause) }
{
    match read_lookup(alloc, asked) {
        Ok(_look) => answer_by_fate(alloc, fate),
        Err(fault) => refuse_look(alloc, &fault),
    }
}

/// The message that a body is, if it asks for a look-up.
fn look_in(alloc: Global, asked: &[u8]) -> Result<Option<LookupRequest>, OutOfMemory>
    ensures some { IfOk result (λ found. IfSome found (λ message. IsTextOf ReadsLookup asked.now message)) }
    ensures none { IfOk result (λ found. IfNone found (¬ IsLookBody asked.now)) }
{
    match read_lookup(alloc, asked) {
        Ok(message) => Ok(Some(message)),
        Err(fault) => {
            if let MessageFault::OutOfMemory = fault {
                return Err(OutOfMemory);
            }
            Ok(None)
        }
    }
}

/// The look-up that was heard: what a whole request for the route asks, if its body is a message. It is put off until its fate is known; all
/// else is answered at once.
pub fn asked_look(
    alloc: Global,
    received: &Result<HttpRequest, RequestFault>,
) -> Result<Option<LookupRequest>, OutOfMemory>
    ensures some { IfOk result (λ found. IfSome found (IsHeardLook received.now)) }
    ensures none { IfOk result (λ found. IfNone found ((message : AskedUrls) → ¬ IsHeardLook received.now message)) }
{
    match received {
        Ok(request) => {
            if asks_for_looks(request) {
                look_in(alloc, request.body.as_slice())
            } else {
                Ok(None)
            }
        }
        Err(_) => Ok(None),
    }
}
