ghost use Rattle.std.specs.Prelude.{◌≡◌, ℕ, List, Result, IfOk, refl};
ghost use Rattle.http_edge.specs.declared.faults.RequestFault.{RequestFault};
ghost use Rattle.http_edge.specs.declared.messages.HttpRequest.{HttpRequest};
ghost use Rattle.http_serving.specs.Law.{HasOneAnswer};
ghost use Rattle.proxy_serving.specs.Response.{proxy_routes, IsProxyResponseAt, ProxyServed};
ghost use Rattle.proxy_serving.specs.ResponseLaws.{HasOneProxyResponse, IsAnsweredByLook, IsAnsweredWithoutLook, IsProxyResponseAsRead, RefusesWhateverLook};
ghost use Rattle.proxy_serving.specs.declared.fate.LookFate.{LookFate};

use crate::LookFate;
use crate::looks::answer_look_body;
use crate::routes::find_proxy_route;
use http_edge::HttpRequest;
use http_serving::{
    Answer, Answers, Routed, answers_follow_requests, requests_ask_for_one_thing,
    requests_have_one_answer,
};
use lookup_messages::lookup_values_read_one_way;
use sb_model::OutOfMemory;
use std::alloc::Global;
use std::marker::Model;

/// A proxy, as its connections see it: the fate of the look-up that is being answered, which has no meaning for other requests.
///
/// A POST to `/v4/threatMatches:find` is answered by the fate of the look-up: 503 if it is not answered, and else 200 with the answer. A body
/// that is no message is answered 400, another path 404, and another method 405. Messages are JSON alone.
#[derive(Drop)]
pub struct ProxyServer {
    fate: LookFate,
}

impl Model for ProxyServer {
    ghost Value = { ProxyServed };

    ghost view = { λ s. record { fate = s.fate } };
}

impl ProxyServer {
    /// A proxy that is asked, if this is the fate of the look-up.
    pub fn new(fate: LookFate) -> ProxyServer
        ensures { result ≡ record { fate = fate } }
    {
        ProxyServer { fate }
    }
}

impl Answers for ProxyServer {
    ghost routes = { proxy_routes };

    ghost right = { λ before after place. IsProxyResponseAt before.fate place };

    ghost stays = { λ before after. after ≡ before };

    fn find(&self, request: &HttpRequest) -> Routed {
        find_proxy_route(request)
    }

    fn answer(
        &mut self,
        alloc: Global,
        _place: usize,
        request: &HttpRequest,
    ) -> Result<Answer, OutOfMemory> {
        match answer_look_body(alloc, &self.fate, request.body.as_slice()) {
            Ok(response) => Ok(Answer::Made(response)),
            Err(OutOfMemory) => Err(OutOfMemory),
        }
    }

    fn have_one_answer()
        ensures { (before after : ProxyServed) (place : ℕ) (request : HttpRequest) → HasOneAnswer (IsProxyResponseAt before.fate place) request }
    {
        lookup_values_read_one_way();
    }

    ghost stays_itself = { λ server. refl };
}

/// A request has one response, with one fate of the look-up; bytes that begin with a whole request are answered as that request is; and a
/// request whose body is no message is refused with its first fault as the cause, whatever the fate.
pub fn proxy_requests_have_one_response()
    ensures one { (fate : LookFate) (request : HttpRequest) → HasOneProxyResponse fate request }
    ensures whole { (fate : LookFate) (bytes : List ℕ) (request : HttpRequest) → IsProxyResponseAsRead fate bytes request }
    ensures told { (fate : LookFate) (request : HttpRequest) → RefusesWhateverLook fate request }
{
    requests_have_one_answer::<ProxyServer>();
    answers_follow_requests::<ProxyServer>();
    requests_ask_for_one_thing();
}

/// A look-up that was heard, as `asked_look` tells one, is answered by its fate. Whatever else was received has one answer, whatever the fate.
pub fn heard_looks_are_answered_by_their_fate()
    ensures looks { (fate : LookFate) (received : Result HttpRequest RequestFault) → IsAnsweredByLook fate received }
    ensures others { (received : Result HttpRequest RequestFault) → IsAnsweredWithoutLook received }
{
    requests_ask_for_one_thing();
}
