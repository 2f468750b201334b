ghost use Rattle.std.specs.Prelude.{◌≡◌};
ghost use Rattle.http_serving.specs.Forms.{asks_by_protobuf, asks_by_query, is_protobuf, request_form, says_protobuf, takes_form};

use crate::queries::{has_member, has_value, has_value_any_case};
use http_edge::{HttpRequest, media_type_in};

/// How a request gives its message.
#[derive(Clone, Copy, Debug, PartialEq, Eq)]
pub enum Form {
    /// Its body, of whatever type; or it has none.
    Plain,
    /// A POST that says that its body is a message of Protocol Buffers.
    Protobuf,
    /// A GET with the message in its query, in the member `$req`.
    Query,
}

impl Form {
    /// Whether a route of this form takes requests of another: a plain one takes all, and each other one its own.
    pub(crate) fn takes(self, form: Form) -> bool
        ensures { result ≡ takes_form self form }
    {
        match self {
            Form::Plain => true,
            Form::Protobuf => matches!(form, Form::Protobuf),
            Form::Query => matches!(form, Form::Query),
        }
    }
}

fn is_protobuf(text: &[u8]) -> bool
    ensures { result ≡ is_protobuf text.now }
{
    text.eq_ignore_ascii_case(b"application/x-protobuf")
}

/// Whether a request says that its message is one of Protocol Buffers: its `Content-Type` names `application/x-protobuf`, or the
/// member `$ct` of its query does, or the member `alt` is `proto`. The case of a media type does not count, nor its parameters
/// (RFC 9110, section 8.3.1).
pub fn says_protobuf(request: &HttpRequest) -> bool
    ensures { result ≡ says_protobuf request.now }
{
    let target = request.target.as_slice();
    is_protobuf(media_type_in(request.content_type.as_slice()))
        || has_value_any_case(target, b"$ct", b"application/x-protobuf")
        || has_value(target, b"alt", b"proto")
}

/// Whether a request is a GET with its message in its query.
fn asks_by_query(request: &HttpRequest) -> bool
    ensures { result ≡ asks_by_query request.now }
{
    request.method.as_slice() == b"GET".as_slice() && has_member(request.target.as_slice(), b"$req")
}

/// Whether a request is a POST with a message of Protocol Buffers as its body.
fn asks_by_protobuf(request: &HttpRequest) -> bool
    ensures { result ≡ asks_by_protobuf request.now }
{
    request.method.as_slice() == b"POST".as_slice() && says_protobuf(request)
}

/// The form of a request.
pub fn request_form(request: &HttpRequest) -> Form
    ensures { result ≡ request_form request.now }
{
    if asks_by_query(request) {
        Form::Query
    } else if asks_by_protobuf(request) {
        Form::Protobuf
    } else {
        Form::Plain
    }
}
