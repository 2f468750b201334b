use crate::numbered::difference;
use gathering::GatheredWire;
use http_edge::{HttpRequest, RequestFault, read_request};
use std::alloc::Global;
use std::fmt;

/// What came of one turn at the door.
#[derive(Clone, Copy, Debug, PartialEq, Eq)]
pub(crate) enum Turn {
    Nobody,
    Taken,
    Answered,
    ReadFault,
    Refused,
    WrongRequest,
    Failed,
}

impl Turn {
    pub(crate) fn word(self) -> &'static str {
        match self {
            Turn::Nobody => "nobody",
            Turn::Taken => "taken",
            Turn::Answered => "answered",
            Turn::ReadFault => "read fault",
            Turn::Refused => "refused",
            Turn::WrongRequest => "wrong request",
            Turn::Failed => "failed",
        }
    }
}

/// The method of a request.
#[derive(Clone, Copy, Debug, PartialEq, Eq)]
enum Method {
    Get,
    Post,
    Other,
}

/// What the door handed out: the request's method, the number that is its target, how many bytes its body has, and where
/// they first differ from those of the number.
#[derive(Clone, Copy, Debug)]
pub(crate) struct Seen {
    pub(crate) turn: Turn,
    method: Method,
    pub(crate) number: u8,
    length: u64,
    differs: Option<u64>,
}

impl Seen {
    /// Nothing but what came of the turn.
    pub(crate) fn of(turn: Turn) -> Seen {
        Seen {
            turn,
            method: Method::Other,
            number: 0,
            length: 0,
            differs: None,
        }
    }
}

fn method_of(method: &[u8]) -> Method {
    match method {
        b"GET" => Method::Get,
        b"POST" => Method::Post,
        _ => Method::Other,
    }
}

/// The number that stands in a target after its slash.
fn number_of(target: &[u8]) -> Option<u8> {
    let (first, digits) = target.split_first()?;
    if *first != b'/' || digits.is_empty() || digits.len() > 3 {
        return None;
    }
    let mut number = 0u8;
    for digit in digits {
        let value = digit.wrapping_sub(b'0');
        if value > 9 {
            return None;
        }
        number = number.checked_mul(10)?.checked_add(value)?;
    }
    Some(number)
}

/// What a request is.
fn seen_of(request: &HttpRequest) -> Seen {
    let Some(number) = number_of(request.target.as_slice()) else {
        return Seen::of(Turn::WrongRequest);
    };
    let differs = difference(request.body.as_slice(), number, 0);
    Seen {
        turn: match differs {
            Some(_) => Turn::WrongRequest,
            None => Turn::Taken,
        },
        method: method_of(request.method.as_slice()),
        number,
        length: request.body.len() as u64,
        differs,
    }
}

/// Reads the request of a wire, and compares it whole.
pub(crate) fn look(alloc: Global, wire: &mut GatheredWire) -> Seen {
    match read_request(alloc, wire) {
        Ok(request) => seen_of(&request),
        Err(RequestFault::ReadFault) => Seen::of(Turn::ReadFault),
        Err(_) => Seen::of(Turn::Refused),
    }
}

impl fmt::Display for Seen {
    fn fmt<W: fmt::Write>(&self, f: &mut fmt::Formatter<W>) -> fmt::Result {
        f.write_str(match self.method {
            Method::Get => "GET",
            Method::Post => "POST",
            Method::Other => "no request",
        })?;
        let number = self.number;
        let length = self.length;
        match self.differs {
            Some(place) => write!(f, " of {number}, differs at {place}"),
            None => write!(f, " of {number}, whole, {length} bytes"),
        }
    }
}
