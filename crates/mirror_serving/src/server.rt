ghost use Rattle.std.specs.Prelude.{◌≡◌, ℕ, List, Result, IfOk, refl};
ghost use Rattle.http_edge.specs.declared.faults.RequestFault.{RequestFault};
ghost use Rattle.http_edge.specs.declared.messages.HttpRequest.{HttpRequest};
ghost use Rattle.http_serving.specs.Law.{HasOneAnswer};
ghost use Rattle.http_serving.specs.Written.{IsRightAnswer};
ghost use Rattle.mirror_places.specs.Places.{Places};
ghost use Rattle.mirror_serving.specs.KeptFetches.{AreKeptOfMirror, IsKeptOfMirror};
ghost use Rattle.mirror_serving.specs.Response.{mirror_routes, IsMirrorResponseAt, MirrorServed};
ghost use Rattle.mirror_serving.specs.ResponseLaws.{HasOneMirrorResponse, IsAnsweredByFate, IsAnsweredWithoutFate, IsMirrorResponseAsRead, RefusesWhateverFate};
ghost use Rattle.mirror_serving.specs.declared.fate.FindFate.{FindFate};

use crate::FindFate;
use crate::fetches::answer_fetch_body;
use crate::finds::answer_find_body;
use crate::kept::PlaceWishes;
use crate::routes::{find_mirror_route, kind_at};
use hash_messages::find_values_read_one_way;
use http_edge::HttpRequest;
use http_serving::{
    Answer, Answers, KeepsAnswers, KeptAnswers, Routed, answers_follow_requests,
    requests_ask_for_one_thing, requests_have_one_answer,
};
use mirror_places::Mirror;
use sb_model::OutOfMemory;
use sb_outside::Kind;
use std::alloc::Global;
use std::marker::Model;
use update_messages::values_read_one_way;

/// The answer to a request that asks for the route at a place.
fn answer_at(
    alloc: Global,
    mirror: &Mirror,
    wait: u32,
    fate: &FindFate,
    kept: &mut KeptAnswers<PlaceWishes>,
    place: usize,
    request: &HttpRequest,
) -> Result<Answer, OutOfMemory>
    requires { AreKeptOfMirror mirror.now wait kept.old }
    ensures right { IfOk result (λ answer. IsRightAnswer (IsMirrorResponseAt mirror.now wait fate.now place request.now) answer) }
    ensures kept { AreKeptOfMirror mirror.now wait kept.new }
{
    let asked = request.body.as_slice();
    match kind_at(place) {
        Kind::Update => answer_fetch_body(alloc, mirror, wait, kept, asked),
        Kind::Find => match answer_find_body(alloc, fate, asked) {
            Ok(response) => Ok(Answer::Made(response)),
            Err(OutOfMemory) => Err(OutOfMemory),
        },
    }
}

/// A mirror, as its connections see it: its places, the minimum wait that its answers to fetch requests tell, in seconds, and the fate of
/// the find that is being answered, which has no meaning for other requests.
///
/// A POST to `/v4/threatListUpdates:fetch` is answered 200 with the updates from the mirror's places, and one to `/v4/fullHashes:find` by the
/// fate of the find: 503 if it was not sent on, 502 if its session brought no message, and else 200 with the message. A body that is no
/// message is answered 400, another path 404, and another method 405. Messages are JSON alone.
#[derive(Drop)]
pub struct MirrorServer<'a> {
    mirror: &'a Mirror,
    wait: u32,
    fate: FindFate,
    // each is an answer of this mirror, with this wait
    kept: KeptAnswers<PlaceWishes>,
}

impl<'a> Model for MirrorServer<'a> {
    ghost Value = { MirrorServed };

    ghost view = { λ s. record { places = s.mirror.now; wait = s.wait; fate = s.fate } };

    ghost invariant = { λ s. AreKeptOfMirror s.mirror.now s.wait s.kept };
}

impl<'a> MirrorServer<'a> {
    /// A mirror that is asked, with the answers that it has kept, each of which is one of this mirror and this wait.
    pub fn new(
        mirror: &'a Mirror,
        wait: u32,
        fate: FindFate,
        kept: KeptAnswers<PlaceWishes>,
    ) -> MirrorServer<'a>
        requires { AreKeptOfMirror mirror.now wait kept }
        ensures { result ≡ record { places = mirror.now; wait = wait; fate = fate } }
    {
        MirrorServer {
            mirror,
            wait,
            fate,
            kept,
        }
    }

    /// The answers that it has kept, when it has answered.
    pub fn into_kept(self) -> KeptAnswers<PlaceWishes>
        ensures { AreKeptOfMirror self.entry.places self.entry.wait result }
    {
        let MirrorServer {
            mirror: _,
            wait: _,
            fate: _,
            kept,
        } = self;
        kept
    }
}

impl<'a> KeepsAnswers for MirrorServer<'a> {
    type Meaning = PlaceWishes;

    ghost is_right = { λ server. IsKeptOfMirror server.places server.wait };
}

impl<'a> Answers for MirrorServer<'a> {
    ghost routes = { mirror_routes };

    ghost right = { λ before after place. IsMirrorResponseAt before.places before.wait before.fate place };

    ghost stays = { λ before after. after ≡ before };

    fn find(&self, request: &HttpRequest) -> Routed {
        find_mirror_route(request)
    }

    fn answer(
        &mut self,
        alloc: Global,
        place: usize,
        request: &HttpRequest,
    ) -> Result<Answer, OutOfMemory> {
        answer_at(
            alloc,
            self.mirror,
            self.wait,
            &self.fate,
            &mut self.kept,
            place,
            request,
        )
    }

    fn have_one_answer()
        ensures { (before after : MirrorServed) (place : ℕ) (request : HttpRequest)
            → HasOneAnswer (IsMirrorResponseAt before.places before.wait before.fate place) request }
    {
        values_read_one_way();
        find_values_read_one_way();
    }

    ghost stays_itself = { λ server. refl };
}

/// A request has one response, with one fate of the find; bytes that begin with a whole request are answered as that request is; and a
/// request whose body is no message is refused with its first fault as the cause, whatever the fate.
pub fn mirror_requests_have_one_response()
    ensures one { (mirror : Places) (wait : ℕ) (fate : FindFate) (request : HttpRequest) → HasOneMirrorResponse mirror wait fate request }
    ensures whole { (mirror : Places) (wait : ℕ) (fate : FindFate) (bytes : List ℕ) (request : HttpRequest)
        → IsMirrorResponseAsRead mirror wait fate bytes request }
    ensures told { (mirror : Places) (wait : ℕ) (fate : FindFate) (request : HttpRequest) → RefusesWhateverFate mirror wait fate request }
{
    requests_have_one_answer::<MirrorServer>();
    answers_follow_requests::<MirrorServer>();
    requests_ask_for_one_thing();
}

/// A find that was heard, as `asked_find` tells one, is answered by its fate. Whatever else was received has one answer, whatever the fate.
pub fn heard_finds_are_answered_by_their_fate()
    ensures finds { (mirror : Places) (wait : ℕ) (fate : FindFate) (received : Result HttpRequest RequestFault) → IsAnsweredByFate mirror wait fate received }
    ensures others { (mirror : Places) (wait : ℕ) (received : Result HttpRequest RequestFault) → IsAnsweredWithoutFate mirror wait received }
{
    requests_ask_for_one_thing();
}
