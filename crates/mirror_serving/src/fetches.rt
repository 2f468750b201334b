ghost use Rattle.std.specs.Prelude.{◌≡◌, [], IfOk};
ghost use Rattle.http_edge.specs.declared.messages.MediaType.{MediaType};
ghost use Rattle.http_edge.specs.declared.messages.Status.{Status};
ghost use Rattle.http_serving.specs.Written.{IsRightAnswer};
ghost use Rattle.update_messages.specs.Messages.{Request};
ghost use Rattle.update_messages.specs.Reading.{ReadsRequest, IsTextOf};
ghost use Rattle.mirror_serving.specs.KeptFetches.{AreKeptOfMirror};
ghost use Rattle.mirror_serving.specs.Response.{mirror_text, IsFetchResponse};

use crate::kept::PlaceWishes;
use crate::refusing::refuse_body;
use crate::routes::json_fields;
use crate::server::MirrorServer;
use crate::wish::wishes_of;
use http_edge::Status;
use http_serving::{Answer, KeptAnswers, Response, SharedResponse, kept_answers_stay_right};
use mirror_places::{Mirror, answer_mirror};
use sb_model::{Bytes, OutOfMemory, names_go_by_their_codes};
use std::alloc::Global;
use update_messages::{FetchRequest, read_request, write_response};

/// The response to a message that asks for updates.
fn answer_message(
    alloc: Global,
    mirror: &Mirror,
    wait: u32,
    message: &FetchRequest,
) -> Result<Response, OutOfMemory>
    ensures status { IfOk result (λ response. response.status ≡ Status.Success) }
    ensures body { IfOk result (λ response. response.body ≡ mirror_text mirror.now wait message.now) }
    ensures media { IfOk result (λ response. response.fields.media ≡ MediaType.Json) }
    ensures cause { IfOk result (λ response. response.cause ≡ []) }
{
    let answer = answer_mirror(alloc, mirror, wait, message)?;
    Ok(Response {
        status: Status::Success,
        fields: json_fields(),
        body: write_response(alloc, &answer)?,
        cause: Bytes::new(alloc),
    })
}

/// The answer to a message that asks for updates: the text that is kept of an answer to the same wishes, or a new one.
fn answer_wishes(
    alloc: Global,
    mirror: &Mirror,
    wait: u32,
    kept: &mut KeptAnswers<PlaceWishes>,
    asked: &[u8],
    message: &FetchRequest,
) -> Result<Answer, OutOfMemory>
    requires reads { IsTextOf ReadsRequest asked.now message.now }
    requires kept { AreKeptOfMirror mirror.now wait kept.old }
    ensures right { IfOk result (λ answer. IsRightAnswer (IsFetchResponse mirror.now wait asked.now) answer) }
    ensures kept { AreKeptOfMirror mirror.now wait kept.new }
{
    names_go_by_their_codes();
    let wishes = wishes_of(alloc, mirror, message.items.as_slice())?;
    let meaning = Some(PlaceWishes(wishes));
    kept_answers_stay_right::<MirrorServer<'_>>();
    let found = kept.text_by_meaning(&meaning)?;
    if let Some(text) = found {
        return Ok(Answer::Shared(SharedResponse {
            status: Status::Success,
            text,
        }));
    }
    let response = answer_message(alloc, mirror, wait, message)?;
    Ok(kept.keep_response(alloc, asked, meaning, response))
}

/// The answer to a body that was to ask for updates: the text that is kept of an answer to the same body, or what its message is answered.
pub(crate) fn answer_fetch_body(
    alloc: Global,
    mirror: &Mirror,
    wait: u32,
    kept: &mut KeptAnswers<PlaceWishes>,
    asked: &[u8],
) -> Result<Answer, OutOfMemory>
    requires { AreKeptOfMirror mirror.now wait kept.old }
    ensures right { IfOk result (λ answer. IsRightAnswer (IsFetchResponse mirror.now wait asked.now) answer) }
    ensures kept { AreKeptOfMirror mirror.now wait kept.new }
{
    kept_answers_stay_right::<MirrorServer<'_>>();
    let found = kept.text_by_body(asked)?;
    if let Some(text) = found {
        return Ok(Answer::Shared(SharedResponse {
            status: Status::Success,
            text,
        }));
    }
    match read_request(alloc, asked) {
        Ok(message) => answer_wishes(alloc, mirror, wait, kept, asked, &message),
        Err(fault) => Ok(Answer::Made(refuse_body(alloc, &fault)?)),
    }
}
