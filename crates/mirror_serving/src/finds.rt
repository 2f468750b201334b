ghost use Rattle.std.specs.Prelude.{◌≡◌, [], IfNone, IfOk, IfSome};
ghost use Rattle.hash_messages.specs.Messages.{AskedHashes};
ghost use Rattle.hash_messages.specs.Reading.{ReadsFindRequest};
ghost use Rattle.http_edge.specs.declared.messages.MediaType.{MediaType};
ghost use Rattle.update_messages.specs.Reading.{IsTextOf};
ghost use Rattle.mirror_serving.specs.HeardFind.{IsHeardFind};
ghost use Rattle.mirror_serving.specs.Response.{IsFateTold, IsFindBody, IsFindResponseBy};

use crate::FindFate;
use crate::refusing::refuse_body;
use crate::routes::{asks_for_finds, json_fields};
use hash_messages::{FindRequest, read_find, write_matches};
use http_edge::{HttpRequest, RequestFault, Status};
use http_serving::Response;
use sb_json::MessageFault;
use sb_model::{Bytes, OutOfMemory};
use std::alloc::Global;

/// The status and the body by the fate of a find.
fn told_of(alloc: Global, fate: &FindFate) -> Result<(Status, Bytes), OutOfMemory>
    ensures { IfOk result (λ told. IsFateTold fate.now told.0 told.1) }
{
    match fate {
        FindFate::NotSent => Ok((Status::ServiceUnavailable, Bytes::new(alloc))),
        FindFate::Failed => Ok((Status::BadGateway, Bytes::new(alloc))),
        FindFate::Brought(message) => Ok((Status::Success, write_matches(alloc, message)?)),
    }
}

/// The response to a request for full hashes, by the fate of the find.
fn answer_by_fate(alloc: Global, fate: &FindFate) -> Result<Response, OutOfMemory>
    ensures told { IfOk result (λ response. IsFateTold fate.now response.status response.body) }
    ensures cause { IfOk result (λ response. response.cause ≡ []) }
    ensures media { IfOk result (λ response. response.fields.media ≡ MediaType.Json) }
{
    let (status, body) = told_of(alloc, fate)?;
    Ok(Response {
        status,
        fields: json_fields(),
        body,
        cause: Bytes::new(alloc),
    })
}

/// The response to a body that was to ask for full hashes.
pub(crate) fn answer_find_body(
    alloc: Global,
    fate: &FindFate,
    asked: &[u8],
) -> Result<Response, OutOfMemory>
    ensures { IfOk result (λ response.
        IsFindResponseBy fate.now asked.now response.status response.fields response.body response.cause) }
{
    match read_find(alloc, asked) {
        Ok(_find) => answer_by_fate(alloc, fate),
        Err(fault) => refuse_body(alloc, &fault),
    }
}

/// The message that a body is, if it is a request for full hashes.
fn find_in(alloc: Global, asked: &[u8]) -> Result<Option<FindRequest>, OutOfMemory>
    ensures some { IfOk result (λ found. IfSome found (λ message. IsTextOf ReadsFindRequest asked.now message)) }
    ensures none { IfOk result (λ found. IfNone found (¬ IsFindBody asked.now)) }
{
    match read_find(alloc, asked) {
        Ok(message) => Ok(Some(message)),
        Err(fault) => {
            if let MessageFault::OutOfMemory = fault {
                return Err(OutOfMemory);
            }
            Ok(None)
        }
    }
}

/// The find that was heard: what a whole request for the route of finds asks, if its body is a message. It is put off until its fate is
/// known; all else is answered at once.
pub fn asked_find(
    alloc: Global,
    received: &Result<HttpRequest, RequestFault>,
) -> Result<Option<FindRequest>, OutOfMemory>
    ensures some { IfOk result (λ found. IfSome found (IsHeardFind received.now)) }
    ensures none { IfOk result (λ found. IfNone found ((message : AskedHashes) → ¬ IsHeardFind received.now message)) }
{
    match received {
        Ok(request) => {
            if asks_for_finds(request) {
                find_in(alloc, request.body.as_slice())
            } else {
                Ok(None)
            }
        }
        Err(_) => Ok(None),
    }
}
