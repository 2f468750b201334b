ghost use Rattle.std.specs.Prelude.{◌≡◌, ◌≢◌, ◌≤◌, ℕ, List, [], IfOk, IfSome, refl};
ghost use Rattle.sb_outside.specs.Outside.{Rose, next_piece};
ghost use Rattle.sb_json.specs.Printed.{message_cause_text as message_cause};
ghost use Rattle.sb_model.specs.History.{History as Versions};
ghost use Rattle.http_edge.specs.declared.messages.Allow.{Allow};
ghost use Rattle.http_edge.specs.declared.messages.HttpRequest.{HttpRequest};
ghost use Rattle.http_edge.specs.declared.messages.Status.{Status};
ghost use Rattle.http_serving.specs.Law.{HasOneAnswer};
ghost use Rattle.http_serving.specs.Serving.{unavailable_text, AnswersAtMost, IsWholeOrFault, Serves};
ghost use Rattle.http_serving.specs.Written.{IsRightAnswer};
ghost use Rattle.delta_server.specs.declared.answering.Settings.{Settings as Times};
ghost use Rattle.sb_lookup.specs.Lookups.{lists_text};
ghost use Rattle.sb_service.specs.Connection.{allow_in, fields_for, list_routes, lists_path, lookups_path, lookups_text, matches_text, route_at, row_of, updates_text, HasGoodRequest, IsResponseAt, IsResponseFor, IsResponseTo, ListServed};
ghost use Rattle.sb_service.specs.ConnectionLaws.{AlwaysTellsLists, HasOneResponse, IsResponseAsRead, TellsFirstFault};
ghost use Rattle.sb_service.specs.ConnectionSteps.{IsBareRefusal};
ghost use Rattle.update_messages.specs.Messages.{Request};
ghost use Rattle.update_messages.specs.Reading.{ReadsRequest, IsTextOf};
ghost use Rattle.sb_service.specs.Kept.{AreKeptOf, IsKeptOf};

use crate::in_proto::answer_in_proto;
use crate::kept::{Wishes, nothing_kept};
use crate::wish::wishes_of;
use delta_server::Settings;
use hash_messages::{FindRequest, find_values_read_one_way, read_find, write_matches};
use http_edge::{Allow, HttpRequest, MediaType, ResponseFields, Status, path_of};
use http_serving::{
    Answer, Answers, ConnectionEnd, Form, KeepsAnswers, KeptAnswers, Response, Route, Routed,
    SharedResponse, answers_follow_requests, find_route, kept_answers_stay_right,
    requests_ask_for_one_thing, requests_have_one_answer,
};
use list_versions::History;
use lookup_messages::{
    LookupRequest, lookup_values_read_one_way, read_lookup, write_lookup_matches,
};
use named_answers::{answer_named_fetch, answer_named_find};
use proto_messages::queries_read_one_way;
use sb_json::{MessageFault, push_message_cause};
use sb_lookup::{answer_lookup, write_lists};
use sb_model::{Bytes, OutOfMemory, names_go_by_their_codes};
use sb_outside::{Kind, Wire};
use std::alloc::Global;
use std::marker::Model;
use update_messages::{
    FetchRequest, read_request as read_message, values_read_one_way, write_response as write_answer,
};

/// The path of requests to look URLs up.
#[tactic(auto, unfolding(crate::specs::Connection::lookups_path))]
fn lookups_path() -> &'static str
    ensures { result.now ≡ lookups_path }
{
    "/v4/threatMatches:find"
}

/// The path of requests for the names of lists.
#[tactic(auto, unfolding(crate::specs::Connection::lists_path))]
fn lists_path() -> &'static str
    ensures { result.now ≡ lists_path }
{
    "/v4/threatLists"
}

/// What a list server is asked for.
#[derive(Clone, Copy, Debug, PartialEq, Eq)]
pub(crate) enum ListRoute {
    /// Updates (`threatListUpdates:fetch`), by a request of this form.
    Updates(Form),
    /// Full hashes (`fullHashes:find`), by a request of this form.
    Hashes(Form),
    /// Which of some URLs are on its lists (`threatMatches:find`).
    Lookups,
    /// The names of its lists (`threatLists`).
    Lists,
}

/// The method of a route that takes requests of a form.
fn allow_in(form: Form) -> Allow
    ensures { result ≡ allow_in form }
{
    match form {
        Form::Plain | Form::Protobuf => Allow::Post,
        Form::Query => Allow::Get,
    }
}

/// The row of a route in the table.
fn row_of(route: ListRoute) -> Route<'static>
    ensures { result ≡ row_of route }
{
    let (path, method, form) = match route {
        ListRoute::Updates(form) => (path_of(Kind::Update), allow_in(form), form),
        ListRoute::Hashes(form) => (path_of(Kind::Find), allow_in(form), form),
        ListRoute::Lookups => (lookups_path(), Allow::Post, Form::Plain),
        ListRoute::Lists => (lists_path(), Allow::Get, Form::Plain),
    };
    Route {
        path: path.as_bytes(),
        method,
        form,
    }
}

/// The route at a place of the table.
fn route_at(place: usize) -> ListRoute
    ensures { result ≡ route_at place }
{
    let routes = [
        ListRoute::Updates(Form::Protobuf),
        ListRoute::Updates(Form::Plain),
        ListRoute::Updates(Form::Query),
        ListRoute::Hashes(Form::Protobuf),
        ListRoute::Hashes(Form::Plain),
        ListRoute::Hashes(Form::Query),
        ListRoute::Lookups,
        ListRoute::Lists,
    ];
    match routes.get(place) {
        Some(route) => *route,
        None => ListRoute::Lists,
    }
}

/// The fields of a response in JSON by a route of this method.
fn json_fields(allow: Allow) -> ResponseFields
    ensures allow { result.allow ≡ allow }
    ensures media { result.media ≡ MediaType.Json }
{
    ResponseFields {
        allow,
        media: MediaType::Json,
    }
}

/// The response to a message that asks for updates.
fn answer_message(
    alloc: Global,
    history: &History,
    settings: &Settings,
    message: &FetchRequest,
) -> Result<Response, OutOfMemory>
    ensures status { IfOk result (λ response. response.status ≡ Status.Success) }
    ensures body { IfOk result (λ response. response.body ≡ updates_text history.now.versions settings.now message.now) }
    ensures media { IfOk result (λ response. response.fields.media ≡ MediaType.Json) }
    ensures cause { IfOk result (λ response. response.cause ≡ []) }
{
    let answer = answer_named_fetch(alloc, history, settings, message)?;
    Ok(Response {
        status: Status::Success,
        fields: json_fields(Allow::Post),
        body: write_answer(alloc, &answer)?,
        cause: Bytes::new(alloc),
    })
}

/// The cause of a response to a body that is no message. Want of memory is none that is told.
fn cause_of(alloc: Global, fault: &MessageFault) -> Result<Bytes, OutOfMemory>
    ensures told { IfOk result (λ cause. cause ≡ message_cause fault.now) }
    ensures some { IfOk result (λ _. fault.now ≢ MessageFault.OutOfMemory) }
{
    if let MessageFault::OutOfMemory = fault {
        return Err(OutOfMemory);
    }
    let mut cause = Bytes::new(alloc);
    push_message_cause(&mut cause, fault)?;
    Ok(cause)
}

/// The response to a body that is no message. Its cause is the fault.
fn refuse_body(alloc: Global, fault: &MessageFault) -> Result<Response, OutOfMemory>
    ensures { IfOk result (λ response. IsBareRefusal fault.now response.status response.fields response.body response.cause) }
{
    let cause = cause_of(alloc, fault)?;
    Ok(Response {
        status: Status::BadRequest,
        fields: json_fields(Allow::Post),
        body: Bytes::new(alloc),
        cause,
    })
}

/// The response to a message that asks for full hashes.
fn answer_hashes(
    alloc: Global,
    history: &History,
    settings: &Settings,
    message: &FindRequest,
) -> Result<Response, OutOfMemory>
    ensures status { IfOk result (λ response. response.status ≡ Status.Success) }
    ensures body { IfOk result (λ response. response.body ≡ matches_text history.now.versions settings.now message.now) }
    ensures media { IfOk result (λ response. response.fields.media ≡ MediaType.Json) }
    ensures cause { IfOk result (λ response. response.cause ≡ []) }
{
    let answer = answer_named_find(alloc, history, settings, message)?;
    Ok(Response {
        status: Status::Success,
        fields: json_fields(Allow::Post),
        body: write_matches(alloc, &answer)?,
        cause: Bytes::new(alloc),
    })
}

/// The response to a request for full hashes.
fn answer_hashes_body(
    alloc: Global,
    history: &History,
    settings: &Settings,
    request: &HttpRequest,
) -> Result<Response, OutOfMemory>
    ensures { IfOk result (λ response. IsResponseFor history.now.versions settings.now (ListRoute.Hashes Form.Plain) request.now
        response.status response.fields response.body response.cause) }
{
    match read_find(alloc, request.body.as_slice()) {
        Ok(message) => answer_hashes(alloc, history, settings, &message),
        Err(fault) => refuse_body(alloc, &fault),
    }
}

/// The response to a message that asks which URLs are on the lists.
fn answer_lookups(
    alloc: Global,
    history: &History,
    settings: &Settings,
    message: &LookupRequest,
) -> Result<Response, OutOfMemory>
    ensures status { IfOk result (λ response. response.status ≡ Status.Success) }
    ensures body { IfOk result (λ response. response.body ≡ lookups_text history.now.versions settings.now message.now) }
    ensures media { IfOk result (λ response. response.fields.media ≡ MediaType.Json) }
    ensures cause { IfOk result (λ response. response.cause ≡ []) }
{
    let answer = answer_lookup(alloc, history, settings, message)?;
    Ok(Response {
        status: Status::Success,
        fields: json_fields(Allow::Post),
        body: write_lookup_matches(alloc, &answer)?,
        cause: Bytes::new(alloc),
    })
}

/// The response to a request to look URLs up.
fn answer_lookups_body(
    alloc: Global,
    history: &History,
    settings: &Settings,
    request: &HttpRequest,
) -> Result<Response, OutOfMemory>
    ensures { IfOk result (λ response. IsResponseFor history.now.versions settings.now ListRoute.Lookups request.now
        response.status response.fields response.body response.cause) }
{
    match read_lookup(alloc, request.body.as_slice()) {
        Ok(message) => answer_lookups(alloc, history, settings, &message),
        Err(fault) => refuse_body(alloc, &fault),
    }
}

/// The response to a request for the names of lists.
fn answer_lists(alloc: Global, history: &History) -> Result<Response, OutOfMemory>
    ensures status { IfOk result (λ response. response.status ≡ Status.Success) }
    ensures body { IfOk result (λ response. response.body ≡ lists_text history.now.versions) }
    ensures media { IfOk result (λ response. response.fields.media ≡ MediaType.Json) }
    ensures cause { IfOk result (λ response. response.cause ≡ []) }
{
    Ok(Response {
        status: Status::Success,
        fields: json_fields(Allow::Get),
        body: write_lists(alloc, history)?,
        cause: Bytes::new(alloc),
    })
}

/// The response to a request that is answered without a look at what is kept.
fn answer_anew(
    alloc: Global,
    history: &History,
    settings: &Settings,
    route: ListRoute,
    request: &HttpRequest,
) -> Result<Response, OutOfMemory>
    requires { route ≢ ListRoute.Updates Form.Plain }
    ensures { IfOk result (λ response. IsResponseFor history.now.versions settings.now route request.now
        response.status response.fields response.body response.cause) }
{
    match route {
        ListRoute::Updates(Form::Plain) => unreachable!(),
        ListRoute::Updates(form) => {
            answer_in_proto(alloc, history, settings, Kind::Update, form, request)
        }
        ListRoute::Hashes(Form::Plain) => answer_hashes_body(alloc, history, settings, request),
        ListRoute::Hashes(form) => {
            answer_in_proto(alloc, history, settings, Kind::Find, form, request)
        }
        ListRoute::Lookups => answer_lookups_body(alloc, history, settings, request),
        ListRoute::Lists => answer_lists(alloc, history),
    }
}

/// The answer to a message that asks for updates: the text that is kept of an answer to the same wishes, or a new one.
fn answer_wishes(
    alloc: Global,
    history: &History,
    settings: &Settings,
    kept: &mut KeptAnswers<Wishes>,
    request: &HttpRequest,
    message: &FetchRequest,
) -> Result<Answer, OutOfMemory>
    requires reads { IsTextOf ReadsRequest request.now.body message.now }
    requires only { (other : Request) → IsTextOf ReadsRequest request.now.body other → message.now ≡ other }
    requires kept { AreKeptOf history.now.versions settings.now kept.old }
    ensures right { IfOk result (λ answer. IsRightAnswer (IsResponseFor history.now.versions settings.now (ListRoute.Updates Form.Plain) request.now) answer) }
    ensures kept { AreKeptOf history.now.versions settings.now kept.new }
{
    names_go_by_their_codes();
    // looked at for the prover: what holds of each history that was read
    let _ = history.len();
    let wishes = wishes_of(alloc, history, message.items.as_slice())?;
    kept_answers_stay_right::<ListServer<'_>>();
    let found = kept.text_by_meaning(&wishes)?;
    if let Some(text) = found {
        return Ok(Answer::Shared(SharedResponse {
            status: Status::Success,
            text,
        }));
    }
    let response = answer_message(alloc, history, settings, message)?;
    let asked = request.body.as_slice();
    Ok(kept.keep_response(alloc, asked, wishes, response))
}

/// The answer to a request for updates: the text that is kept of an answer to the same body, or what its message is answered.
fn answer_updates(
    alloc: Global,
    history: &History,
    settings: &Settings,
    kept: &mut KeptAnswers<Wishes>,
    request: &HttpRequest,
) -> Result<Answer, OutOfMemory>
    requires { AreKeptOf history.now.versions settings.now kept.old }
    ensures right { IfOk result (λ answer. IsRightAnswer (IsResponseFor history.now.versions settings.now (ListRoute.Updates Form.Plain) request.now) answer) }
    ensures kept { AreKeptOf history.now.versions settings.now kept.new }
{
    kept_answers_stay_right::<ListServer<'_>>();
    let asked = request.body.as_slice();
    let found = kept.text_by_body(asked)?;
    if let Some(text) = found {
        return Ok(Answer::Shared(SharedResponse {
            status: Status::Success,
            text,
        }));
    }
    match read_message(alloc, asked) {
        Ok(message) => answer_wishes(alloc, history, settings, kept, request, &message),
        Err(fault) => Ok(Answer::Made(refuse_body(alloc, &fault)?)),
    }
}

/// The answer to a request that asks for the route at a place.
fn answer_at(
    alloc: Global,
    history: &History,
    settings: &Settings,
    kept: &mut KeptAnswers<Wishes>,
    place: usize,
    request: &HttpRequest,
) -> Result<Answer, OutOfMemory>
    requires { AreKeptOf history.now.versions settings.now kept.old }
    ensures right { IfOk result (λ answer. IsRightAnswer (IsResponseAt history.now.versions settings.now place request.now) answer) }
    ensures kept { AreKeptOf history.now.versions settings.now kept.new }
{
    match route_at(place) {
        ListRoute::Updates(Form::Plain) => answer_updates(alloc, history, settings, kept, request),
        route => match answer_anew(alloc, history, settings, route, request) {
            Ok(response) => Ok(Answer::Made(response)),
            Err(OutOfMemory) => Err(OutOfMemory),
        },
    }
}

/// A list server, as its connections see it.
#[derive(Drop)]
pub(crate) struct ListServer<'a> {
    pub history: &'a History,
    pub settings: &'a Settings,
    /// The answers that it has kept, each of which is one of this history and these settings.
    pub kept: KeptAnswers<Wishes>,
}

impl<'a> Model for ListServer<'a> {
    ghost Value = { ListServed };

    ghost view = { λ s. record { versions = s.history.now.versions; times = s.settings.now } };

    ghost invariant = { λ s. AreKeptOf s.history.now.versions s.settings.now s.kept };
}

impl<'a> ListServer<'a> {
    /// The answers that it has kept, when it has answered.
    pub fn into_kept(self) -> KeptAnswers<Wishes>
        ensures { AreKeptOf self.entry.versions self.entry.times result }
    {
        let ListServer {
            history: _,
            settings: _,
            kept,
        } = self;
        kept
    }
}

impl<'a> KeepsAnswers for ListServer<'a> {
    type Meaning = Wishes;

    ghost is_right = { λ server. IsKeptOf server.versions server.times };
}

impl<'a> Answers for ListServer<'a> {
    ghost routes = { list_routes };

    ghost right = { λ before after place. IsResponseAt before.versions before.times place };

    ghost stays = { λ before after. after ≡ before };

    fn find(&self, request: &HttpRequest) -> Routed {
        find_route(
            request,
            &[
                row_of(ListRoute::Updates(Form::Protobuf)),
                row_of(ListRoute::Updates(Form::Plain)),
                row_of(ListRoute::Updates(Form::Query)),
                row_of(ListRoute::Hashes(Form::Protobuf)),
                row_of(ListRoute::Hashes(Form::Plain)),
                row_of(ListRoute::Hashes(Form::Query)),
                row_of(ListRoute::Lookups),
                row_of(ListRoute::Lists),
            ],
        )
    }

    fn answer(
        &mut self,
        alloc: Global,
        place: usize,
        request: &HttpRequest,
    ) -> Result<Answer, OutOfMemory> {
        answer_at(
            alloc,
            self.history,
            self.settings,
            &mut self.kept,
            place,
            request,
        )
    }

    fn have_one_answer()
        ensures { (before after : ListServed) (place : ℕ) (request : HttpRequest)
            → HasOneAnswer (IsResponseAt before.versions before.times place) request }
    {
        values_read_one_way();
        find_values_read_one_way();
        lookup_values_read_one_way();
        queries_read_one_way();
    }

    ghost stays_itself = { λ server. refl };
}

/// Reads one request and writes one response (RFC 9112).
///
/// A POST request to `/v4/threatListUpdates:fetch` is answered 200 with the updates of those items for which a list answers,
/// one to `/v4/fullHashes:find` with the full hashes that it asks for, and one to `/v4/threatMatches:find` with
/// those of its URLs that are on the lists. A GET request for `/v4/threatLists` is answered 200 with the names of the lists.
/// The first two take and give messages of Protocol Buffers too: as the body of a POST that says so, and in the member `$req`
/// of the query of a GET, in base64.
///
/// Other responses have no body: 400 where the request is malformed or cut off, and where its message is none; 404 for
/// another path; 405 for another method; 411 where the length of the body is not given; 413 where it is more than 1,048,576
/// bytes; 431 where the head is too long; 503 if memory is refused, of which a front may be written as with any other. The
/// query of a target is looked at for its members `$req`, `$ct` and `alt` alone, and nothing that follows the request.
pub fn serve_connection<T: Wire>(
    alloc: Global,
    history: &History,
    settings: &Settings,
    wire: &mut T,
) -> ConnectionEnd
    // What the wire gave, and what was written of the answer.
    ensures serves { Serves (IsResponseTo history.now.versions settings.now) result
        (T.left wire.old) (T.left wire.new) (T.contents wire.old) (T.contents wire.new) }

    // A whole request that has an answer is answered with that or not at all, or memory was refused.
    ensures complete { IfSome (T.left wire.old) (λ pieces.
        (text : List ℕ) (good : HasGoodRequest history.now.versions settings.now (next_piece pieces) text)
        → AnswersAtMost Status.Success (fields_for (route_at good.place)) text [] result (T.contents wire.old) (T.contents wire.new)) }

    // A fault is counted, and nothing else is.
    ensures read_failed { result ≡ ConnectionEnd.ReadFault → Rose (T.Source.faults wire.old) (T.Source.faults wire.new) }
    ensures read_kept { result ≢ ConnectionEnd.ReadFault → T.Source.faults wire.new ≡ T.Source.faults wire.old }
    ensures read_counted { T.Source.faults wire.old ≤ T.Source.faults wire.new }
    ensures write_failed { result ≡ ConnectionEnd.WriteFault → Rose (T.Sink.faults wire.old) (T.Sink.faults wire.new) }
    ensures write_kept { result ≢ ConnectionEnd.WriteFault → result ≢ ConnectionEnd.OutOfMemory
        → T.Sink.faults wire.new ≡ T.Sink.faults wire.old }
    ensures write_counted { T.Sink.faults wire.old ≤ T.Sink.faults wire.new }

    // If memory was refused, the whole 503 was written, or a write failed.
    ensures unavailable { result ≡ ConnectionEnd.OutOfMemory → IsWholeOrFault unavailable_text
        (T.contents wire.old) (T.contents wire.new) (T.Sink.faults wire.old) (T.Sink.faults wire.new) }

    // It is the same connection.
    ensures number { T.number wire.new ≡ T.number wire.old }
    ensures start { T.start wire.new ≡ T.start wire.old }
{
    let mut server = ListServer {
        history,
        settings,
        kept: nothing_kept(alloc),
    };
    http_serving::serve_connection(alloc, &mut server, wire)
}

/// A request has one response, bytes that begin with a whole request are answered as that request is, of a request without an
/// answer the cause of its 400 tells the first fault, and the names of lists are told whatever the request has.
pub fn requests_have_one_response()
    ensures one { (history : Versions) (times : Times) (request : HttpRequest) → HasOneResponse history times request }
    ensures whole { (history : Versions) (times : Times) (bytes : List ℕ) (request : HttpRequest)
        → IsResponseAsRead history times bytes request }
    ensures told { (history : Versions) (times : Times) (request : HttpRequest) → TellsFirstFault history times request }
    ensures lists { (history : Versions) (times : Times) (request : HttpRequest) → AlwaysTellsLists history times request }
{
    requests_have_one_answer::<ListServer>();
    answers_follow_requests::<ListServer>();
    requests_ask_for_one_thing();
}
