ghost use Rattle.std.specs.Prelude.{◌≡◌, ◌<◌, length, IfSome};
ghost use Rattle.http_edge.specs.Responses.{method_text};
ghost use Rattle.http_serving.specs.Routes.{IsRouted, place_by_path, place_for};

use crate::forms::{Form, request_form};
use crate::targets::path_in;
use http_edge::{Allow, HttpRequest};
use std::marker::Model;

/// A route: a path, the one method that it takes, and the form of the requests that it takes.
#[derive(Debug, Drop)]
pub struct Route<'a> {
    pub path: &'a [u8],
    /// The method. The `Allow` of a 405 names that of the first route of a path.
    pub method: Allow,
    /// The form. A plain route takes requests of each form.
    pub form: Form,
}

impl<'a> Model for Route<'a> {
    ghost use Rattle.http_serving.specs.Routes.{Route as Shown};

    ghost Value = { Shown };

    ghost view = { λ r. record { path = r.path.now; method = r.method; form = r.form } };
}

/// What a request asks for.
#[derive(Clone, Copy, Debug, PartialEq, Eq)]
pub enum Routed {
    /// The route at this place of the table.
    Asked(usize),
    /// No route takes it, and the first with its path takes this method.
    OtherMethod(Allow),
    /// No route has its path.
    NoPath,
}

fn method_text(allow: Allow) -> &'static str
    ensures { result.now ≡ method_text allow }
{
    match allow {
        Allow::Get => "GET",
        Allow::Post => "POST",
    }
}

/// The place of the first route that takes a request.
fn place_for(request: &HttpRequest, routes: &[Route<'_>]) -> Option<usize>
    ensures { result ≡ place_for routes.now request.now }
{
    let path = path_in(request.target.as_slice());
    let method = request.method.as_slice();
    let form = request_form(request);
    routes.iter().position(|route| {
        route.path == path
            && method == method_text(route.method).as_bytes()
            && route.form.takes(form)
    })
}

/// The place of the first route that has the path of a request.
fn place_by_path(request: &HttpRequest, routes: &[Route<'_>]) -> Option<usize>
    ensures place { result ≡ place_by_path routes.now request.now }
    ensures within { IfSome result (λ place. place < length routes.now) }
{
    let path = path_in(request.target.as_slice());
    routes.iter().position(|route| route.path == path)
}

/// What a request asks for, of a table of routes: the first that takes it. A route takes a request that has its path and its
/// method, if the route is plain or the request has its form; so a table has the routes of other forms before the plain one of the
/// same path and method. The path of a target in absolute form is what follows its authority (RFC 9112, section 3.2.2). What
/// follows a `?` in the target is looked at for the form alone.
pub fn find_route(request: &HttpRequest, routes: &[Route<'_>]) -> Routed
    ensures { IsRouted routes.now request.now result }
{
    if let Some(place) = place_for(request, routes) {
        return Routed::Asked(place);
    }
    let Some(place) = place_by_path(request, routes) else {
        return Routed::NoPath;
    };
    let route = &routes[place];
    Routed::OtherMethod(route.method)
}
