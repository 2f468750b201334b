ghost use Rattle.std.specs.Prelude.{◌≡◌, ◌↔◌, IsTrue};
ghost use Rattle.http_serving.specs.Routes.{AsksAt, IsRouted};
ghost use Rattle.mirror_serving.specs.HeardFind.{place_of_finds};
ghost use Rattle.mirror_serving.specs.Response.{mirror_kind_at, mirror_route, mirror_routes};

use http_edge::{Allow, HttpRequest, MediaType, ResponseFields, path_of};
use http_serving::{Form, Route, Routed, find_route, requests_ask_for_one_thing};
use sb_outside::Kind;

/// The place of the route of finds.
const FINDS: usize = 1;

/// The route of requests of a kind.
fn route_of(kind: Kind) -> Route<'static>
    ensures { result ≡ mirror_route kind }
{
    Route {
        path: path_of(kind).as_bytes(),
        method: Allow::Post,
        form: Form::Plain,
    }
}

/// The kind of requests that the route at a place takes.
pub(crate) fn kind_at(place: usize) -> Kind
    ensures { result ≡ mirror_kind_at place }
{
    let kinds = [Kind::Update, Kind::Find];
    match kinds.get(place) {
        Some(kind) => *kind,
        None => Kind::Find,
    }
}

/// What a request asks a mirror for.
pub(crate) fn find_mirror_route(request: &HttpRequest) -> Routed
    ensures { IsRouted mirror_routes request.now result }
{
    find_route(request, &[route_of(Kind::Update), route_of(Kind::Find)])
}

/// Whether a request asks for the route of finds.
pub(crate) fn asks_for_finds(request: &HttpRequest) -> bool
    ensures { IsTrue result ↔ AsksAt mirror_routes request.now place_of_finds }
{
    requests_ask_for_one_thing();
    match find_mirror_route(request) {
        Routed::Asked(place) => place == FINDS,
        Routed::OtherMethod(_) | Routed::NoPath => false,
    }
}

/// The fields of a response: no route takes another method than POST, and each response names JSON as its type.
pub(crate) fn json_fields() -> ResponseFields
    ensures { result.media ≡ MediaType.Json }
{
    ResponseFields {
        allow: Allow::Post,
        media: MediaType::Json,
    }
}
