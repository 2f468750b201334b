ghost use Rattle.std.specs.Prelude.{◌≡◌, ◌↔◌, IsTrue};
ghost use Rattle.http_edge.specs.Responses.{status_code};
ghost use Rattle.http_edge.specs.Exchanges.{is_in_line, StandsInOneLine, IsTarget};

use sb_model::{Bytes, Text};

/// A request as a server reads it.
#[derive(Debug, Drop)]
pub struct HttpRequest {
    pub method: Bytes,
    pub target: Bytes,
    /// The value of its one field `Content-Type` (RFC 9110, section 8.3). It is empty if none stands there, or several.
    pub content_type: Bytes,
    pub body: Bytes,
}

/// Whom a client asks. A CR or an LF in the host or in the key would begin a further line of the head that is sent, so
/// `exchange` takes neither.
#[derive(Debug, Drop)]
pub struct Target {
    /// The value of the field `Host`, with the port where there is one.
    pub host: Text,
    /// The key that stands after the path. An empty one means that there is none.
    pub key: Text,
}

/// Whether a character is neither a CR nor an LF.
fn is_in_line(char: char) -> bool
    ensures { result ≡ is_in_line char }
{
    char != '\r' && char != '\n'
}

/// Whether a text has no CR and no LF.
fn is_one_line(text: &Text) -> bool
    ensures { IsTrue result ↔ StandsInOneLine text.now }
{
    text.as_str().chars().all(|char| is_in_line(char))
}

impl Target {
    /// Whether neither the host nor the key has a CR or an LF, which `exchange` asks for.
    pub fn is_sound(&self) -> bool
        ensures { IsTrue result ↔ IsTarget self.now }
    {
        is_one_line(&self.host) && is_one_line(&self.key)
    }
}

/// The statuses with which a server answers (RFC 9110, section 15).
#[derive(Clone, Copy, Debug, PartialEq, Eq, Hash)]
pub enum Status {
    /// 200 OK
    Success,
    /// 400 Bad Request
    BadRequest,
    /// 404 Not Found
    NotFound,
    /// 405 Method Not Allowed
    MethodNotAllowed,
    /// 411 Length Required
    LengthRequired,
    /// 413 Content Too Large
    ContentTooLarge,
    /// 431 Request Header Fields Too Large
    FieldsTooLarge,
    /// 502 Bad Gateway
    BadGateway,
    /// 503 Service Unavailable
    ServiceUnavailable,
}

impl Status {
    /// The three digits as a number.
    pub fn code(self) -> u16
        ensures { result ≡ status_code self }
    {
        match self {
            Status::Success => 200,
            Status::BadRequest => 400,
            Status::NotFound => 404,
            Status::MethodNotAllowed => 405,
            Status::LengthRequired => 411,
            Status::ContentTooLarge => 413,
            Status::FieldsTooLarge => 431,
            Status::BadGateway => 502,
            Status::ServiceUnavailable => 503,
        }
    }
}

/// The one method that a target allows.
#[derive(Clone, Copy, Debug, PartialEq, Eq, Hash)]
pub enum Allow {
    Get,
    Post,
}

/// The media type of a body.
#[derive(Clone, Copy, Debug, PartialEq, Eq, Hash)]
pub enum MediaType {
    /// application/json
    Json,
    /// application/x-protobuf
    Protobuf,
}

/// What of a response's head its server chooses beside the status.
#[derive(Clone, Copy, Debug, PartialEq, Eq)]
pub struct ResponseFields {
    /// The method that `Allow` names where the status is 405. With another status it has no meaning.
    pub allow: Allow,
    /// The media type that `Content-Type` names.
    pub media: MediaType,
}
