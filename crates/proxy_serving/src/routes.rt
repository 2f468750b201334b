ghost use Rattle.std.specs.Prelude.{◌≡◌, ◌↔◌, IsTrue};
ghost use Rattle.http_serving.specs.Routes.{AsksAt, IsRouted};
ghost use Rattle.proxy_serving.specs.HeardLook.{place_of_looks};
ghost use Rattle.proxy_serving.specs.Response.{look_path, proxy_route, proxy_routes};

use http_edge::{Allow, HttpRequest, MediaType, ResponseFields};
use http_serving::{Form, Route, Routed, find_route, requests_ask_for_one_thing};

/// The path of look-ups.
#[tactic(auto, unfolding(crate::specs::Response::look_path))]
fn look_path() -> &'static str
    ensures { result.now ≡ look_path }
{
    "/v4/threatMatches:find"
}

/// The route of look-ups.
fn route() -> Route<'static>
    ensures { result ≡ proxy_route }
{
    Route {
        path: look_path().as_bytes(),
        method: Allow::Post,
        form: Form::Plain,
    }
}

/// What a request asks a proxy for.
pub(crate) fn find_proxy_route(request: &HttpRequest) -> Routed
    ensures { IsRouted proxy_routes request.now result }
{
    find_route(request, &[route()])
}

/// Whether a request asks for the route of look-ups.
pub(crate) fn asks_for_looks(request: &HttpRequest) -> bool
    ensures { IsTrue result ↔ AsksAt proxy_routes request.now place_of_looks }
{
    requests_ask_for_one_thing();
    match find_proxy_route(request) {
        Routed::Asked(place) => place == 0,
        Routed::OtherMethod(_) | Routed::NoPath => false,
    }
}

/// The fields of a response: the route takes no other method than POST, and each response names JSON as its type.
pub(crate) fn json_fields() -> ResponseFields
    ensures { result.media ≡ MediaType.Json }
{
    ResponseFields {
        allow: Allow::Post,
        media: MediaType::Json,
    }
}
