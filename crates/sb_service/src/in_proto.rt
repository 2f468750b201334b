ghost use Rattle.std.specs.Prelude.{◌≡◌, ◌≢◌, ◌⊎◌, ◌++◌, [], IfOk, IfErr, OnOk};
ghost use Rattle.sb_service.specs.Connection.{IsTextInForm, IsResponseFor};
ghost use Rattle.sb_service.specs.ConnectionSteps.{IsProtoRefusal, proto_route};
ghost use Rattle.sb_service.specs.ProtoTexts.{answered_threats, matches_bytes, queried_text, updates_bytes, HasNoProtoMessage, IsMessageFault, IsProtoFault, IsProtoMessage, IsProtoText};

use answering_lists::answering_list;
use delta_server::Settings;
use http_edge::{Allow, HttpRequest, MediaType, ResponseFields, Status};
use http_serving::{Form, Response, query_value};
use list_versions::History;
use named_answers::{answer_named_fetch, answer_named_find};
use proto_messages::{
    NumberedFetch, NumberedFind, ProtoFault, message_of_query, push_cause, queries_read_one_way,
    read_fetch, read_find, write_fetch, write_matches,
};
use sb_model::{Bytes, OutOfMemory, Row};
use sb_outside::Kind;
use std::alloc::Global;
use update_messages::ListRequest;

/// Appends the numbers of the threats of those items for which a list answers.
fn push_answered(
    answered: &mut Row<u64>,
    history: &History,
    items: &[ListRequest],
    threats: &[u64],
) -> Result<(), OutOfMemory>
    ensures { OnOk result (answered.new ≡ answered.old ++ answered_threats history.now.versions items.now threats.now) }
{
    let Some((asked, items)) = items.split_first() else {
        return Ok(());
    };
    let Some((threat, threats)) = threats.split_first() else {
        return Ok(());
    };
    if answering_list(history, asked.name).is_some() {
        answered.push(*threat)?;
    }
    push_answered(answered, history, items, threats)
}

/// The bytes of the answer to a message that asks for updates.
fn updates_bytes(
    alloc: Global,
    history: &History,
    settings: &Settings,
    asked: &NumberedFetch,
) -> Result<Bytes, OutOfMemory>
    ensures { IfOk result (λ bytes. bytes ≡ updates_bytes history.now.versions settings.now asked.now) }
{
    let mut threats = Row::new(alloc);
    let items = asked.request.items.as_slice();
    push_answered(&mut threats, history, items, asked.threats.as_slice())?;
    let answer = answer_named_fetch(alloc, history, settings, &asked.request)?;
    write_fetch(alloc, &answer, threats.as_slice())
}

/// The bytes of the answer to a message that asks for full hashes.
fn matches_bytes(
    alloc: Global,
    history: &History,
    settings: &Settings,
    asked: &NumberedFind,
) -> Result<Bytes, OutOfMemory>
    ensures { IfOk result (λ bytes. bytes ≡ matches_bytes history.now.versions settings.now asked.now) }
{
    let answer = answer_named_find(alloc, history, settings, &asked.request)?;
    write_matches(alloc, &answer, asked.social)
}

/// The bytes of the answer to those of a message, or what is wrong with these.
fn answer_message(
    alloc: Global,
    history: &History,
    settings: &Settings,
    kind: Kind,
    message: &[u8],
) -> Result<Bytes, ProtoFault>
    ensures ok { IfOk result (λ bytes. IsProtoText history.now.versions settings.now kind message.now bytes) }
    ensures err { IfErr result (λ fault. (fault ≡ ProtoFault.OutOfMemory) ⊎ IsMessageFault kind message.now fault) }
{
    match kind {
        Kind::Update => {
            let asked = read_fetch(alloc, message)?;
            Ok(updates_bytes(alloc, history, settings, &asked)?)
        }
        Kind::Find => {
            let asked = read_find(alloc, message)?;
            Ok(matches_bytes(alloc, history, settings, &asked)?)
        }
    }
}

/// The text in the query of a request.
fn queried_text(alloc: Global, request: &HttpRequest) -> Result<Bytes, OutOfMemory>
    ensures { IfOk result (λ text. text ≡ queried_text request.now) }
{
    match query_value(alloc, request.target.as_slice(), b"$req")? {
        Some(text) => Ok(text),
        None => Ok(Bytes::new(alloc)),
    }
}

/// The message that the query of a request spells.
fn queried_message(alloc: Global, request: &HttpRequest) -> Result<Bytes, ProtoFault>
    ensures ok { IfOk result (λ message. IsProtoMessage Form.Query request.now message) }
    ensures err { IfErr result (λ fault. (fault ≡ ProtoFault.OutOfMemory) ⊎ (HasNoProtoMessage Form.Query request.now × (fault ≡ ProtoFault.NotBase64))) }
{
    let text = queried_text(alloc, request)?;
    message_of_query(alloc, text.as_slice())
}

/// The bytes of the answer to a request in Protocol Buffers, or what is wrong with it.
fn answer_bytes(
    alloc: Global,
    history: &History,
    settings: &Settings,
    kind: Kind,
    form: Form,
    request: &HttpRequest,
) -> Result<Bytes, ProtoFault>
    requires { form ≢ Form.Plain }
    ensures ok { IfOk result (λ bytes. IsTextInForm (IsProtoText history.now.versions settings.now kind) (IsProtoText history.now.versions settings.now kind)
        form request.now bytes) }
    ensures err { IfErr result (λ fault. (fault ≡ ProtoFault.OutOfMemory) ⊎ IsProtoFault kind form request.now fault) }
{
    match form {
        Form::Plain => unreachable!(),
        Form::Protobuf => {
            answer_message(alloc, history, settings, kind, request.body.as_slice())
        }
        Form::Query => {
            let message = queried_message(alloc, request)?;
            answer_message(alloc, history, settings, kind, message.as_slice())
        }
    }
}

/// The fields of a response to a request in Protocol Buffers.
fn proto_fields() -> ResponseFields
    ensures { result.media ≡ MediaType.Protobuf }
{
    ResponseFields {
        allow: Allow::Post,
        media: MediaType::Protobuf,
    }
}

/// The response to a request in Protocol Buffers that has no answer. Its cause is the fault. Want of memory is none that is told.
fn refuse_message(alloc: Global, fault: &ProtoFault) -> Result<Response, OutOfMemory>
    ensures { IfOk result (λ response. IsProtoRefusal fault.now response.status response.fields response.body response.cause) }
{
    if let ProtoFault::OutOfMemory = fault {
        return Err(OutOfMemory);
    }
    let mut cause = Bytes::new(alloc);
    push_cause(&mut cause, fault)?;
    Ok(Response {
        status: Status::BadRequest,
        fields: proto_fields(),
        body: Bytes::new(alloc),
        cause,
    })
}

/// The response to a request in Protocol Buffers. It is made anew each time.
pub(crate) fn answer_in_proto(
    alloc: Global,
    history: &History,
    settings: &Settings,
    kind: Kind,
    form: Form,
    request: &HttpRequest,
) -> Result<Response, OutOfMemory>
    requires { form ≢ Form.Plain }
    ensures { IfOk result (λ response. IsResponseFor history.now.versions settings.now (proto_route kind form) request.now
        response.status response.fields response.body response.cause) }
{
    queries_read_one_way();
    match answer_bytes(alloc, history, settings, kind, form, request) {
        Ok(body) => Ok(Response {
            status: Status::Success,
            fields: proto_fields(),
            body,
            cause: Bytes::new(alloc),
        }),
        Err(fault) => refuse_message(alloc, &fault),
    }
}
