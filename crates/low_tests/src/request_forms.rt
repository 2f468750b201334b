//! What requests say of their type, their query and their form, and which route takes them.
use http_edge::{Allow, HttpRequest, read_request};
use http_serving::{Form, Route, Routed, find_route, query_value, request_form};
use memory_objects::MemorySource;
use sb_model::{Bytes, Row};
use std::alloc::Global;
use std::process::Abort;

/// The request that a text is.
fn read(rt: &impl Abort, alloc: Global, text: &[u8]) -> HttpRequest {
    let mut pieces = Row::new(alloc);
    let piece = Bytes::from_slice(alloc, text).expect(rt, "out of memory");
    pieces.push(piece).expect(rt, "out of memory");
    let mut source = MemorySource::new(pieces, Row::new(alloc));
    match read_request(alloc, &mut source) {
        Ok(request) => request,
        Err(fault) => panic!(rt; "{fault:?}"),
    }
}

/// Heads of requests for the path `/p`, and the form of each.
const FORMS: [(Form, &[u8]); 14] = [
    (Form::Query, b"GET /p?$req=CgA HTTP/1.1\r\n\r\n"),
    (Form::Query, b"GET /p?a=b&%24r%65q=CgA HTTP/1.1\r\n\r\n"),
    (Form::Query, b"GET /p?$req HTTP/1.1\r\n\r\n"),
    (
        Form::Plain,
        b"GET /p?req=CgA&alt=proto HTTP/1.1\r\nContent-Type: application/x-protobuf\r\n\r\n",
    ),
    (
        Form::Protobuf,
        b"POST /p?$req=CgA HTTP/1.1\r\nContent-Length: 0\r\nContent-Type: application/x-protobuf\r\n\r\n",
    ),
    (
        Form::Protobuf,
        b"POST /p HTTP/1.1\r\ncontent-type:\tApplication/X-PROTOBUF ;a=b\r\nContent-Length: 0\r\n\r\n",
    ),
    (
        Form::Plain,
        b"POST /p HTTP/1.1\r\nContent-Type: application/x-protobuf\r\nContent-Length: 0\r\nContent-Type: application/x-protobuf\r\n\r\n",
    ),
    (
        Form::Plain,
        b"POST /p?$req=CgA HTTP/1.1\r\nContent-Length: 0\r\nContent-Type: application/json\r\n\r\n",
    ),
    (
        Form::Plain,
        b"POST /p HTTP/1.1\r\nContent-Length: 0\r\nContent-Type: a;application/x-protobuf\r\n\r\n",
    ),
    (
        Form::Protobuf,
        b"POST /p?$ct=application%2fX-protobuf HTTP/1.1\r\nContent-Length: 0\r\n\r\n",
    ),
    (
        Form::Plain,
        b"POST /p?$ct=&$ct=application/x-protobuf HTTP/1.1\r\nContent-Length: 0\r\n\r\n",
    ),
    (
        Form::Protobuf,
        b"POST /p?alt=prot%6F&alt=json HTTP/1.1\r\nContent-Length: 0\r\n\r\n",
    ),
    (
        Form::Plain,
        b"POST /p?alt=PROTO HTTP/1.1\r\nContent-Length: 0\r\n\r\n",
    ),
    (
        Form::Plain,
        b"PUT /p?alt=proto&$req=CgA HTTP/1.1\r\nContent-Length: 0\r\n\r\n",
    ),
];

#[test]
fn requests_have_a_form(rt: HostRuntime) {
    for (form, text) in &FORMS {
        let request = read(&rt, rt.alloc(), text);
        assert!(rt; request_form(&request) == *form, "{text:?}");
    }
}

/// Fields of heads, and the content type that they say.
const TYPES: [(&[u8], &[u8]); 6] = [
    (b"", b"A: b\r\n"),
    (b"", b"Content-Type:\r\n"),
    (b"a/b; c=\"d\"", b"content-TYPE: \ta/b; c=\"d\" \r\n"),
    (
        b"A/B",
        b"Content-Typ: a\r\nContent-Type:A/B\r\nContent-Type2: a\r\n",
    ),
    (b"", b"Content-Type: a/b\r\nContent-Type: a/b\r\n"),
    (b"", b"Content-Type: a/b\r\nA: b\r\ncontent-type: c/d\r\n"),
];

#[test]
fn the_one_content_type_is_read(rt: HostRuntime) {
    for (wanted, fields) in &TYPES {
        let mut text = Bytes::from_slice(rt.alloc(), b"GET / HTTP/1.1\r\n").expect(
            &rt,
            "out of memory",
        );
        text.append(fields).expect(&rt, "out of memory");
        text.append(b"\r\n").expect(&rt, "out of memory");
        let request = read(&rt, rt.alloc(), text.as_slice());
        assert!(rt; request.content_type.as_slice() == *wanted, "{fields:?}");
    }
}

/// Targets, and the value of the member `a` of their query.
const VALUES: [(&[u8], Option<&[u8]>); 14] = [
    (b"/p", None),
    (b"/p?", None),
    (b"/p&a=1", None),
    (b"/p?A=1&b=a&aa=2", None),
    (b"/p?a", Some(b"")),
    (b"/p?b=1&&a=2&a=3", Some(b"2")),
    (b"/p?x?a=1&a=2?", Some(b"2?")),
    (b"/p?a=b=c", Some(b"b=c")),
    (b"/p?%61=1&a=2", Some(b"1")),
    (b"/p?a%3D=1&a=2", Some(b"2")),
    (b"/p?a=%4a%4A%00+%26%3d", Some(b"JJ\0+&=")),
    (b"/p?a=%&b", Some(b"%")),
    (b"/p?a=%4&b", Some(b"%4")),
    (b"/p?a=%4g%g4%%41%254", Some(b"%4g%g4%A%4")),
];

#[test]
fn the_first_value_of_a_name_is_decoded(rt: HostRuntime) {
    for (target, wanted) in &VALUES {
        let value = query_value(rt.alloc(), target, b"a").expect(&rt, "out of memory");
        match (&value, wanted) {
            (Some(value), Some(wanted)) => assert!(rt; value.as_slice() == *wanted, "{target:?}"),
            (None, None) => {}
            _ => panic!(rt; "{target:?}"),
        }
    }
}

/// Routes of one path: a POST of Protocol Buffers, any POST, and a GET by its query.
const ROUTES: [Route<'static>; 3] = [
    Route {
        path: b"/p",
        method: Allow::Post,
        form: Form::Protobuf,
    },
    Route {
        path: b"/p",
        method: Allow::Post,
        form: Form::Plain,
    },
    Route {
        path: b"/p",
        method: Allow::Get,
        form: Form::Query,
    },
];

/// Heads of requests, and what they ask for.
const ASKED: [(Routed, &[u8]); 6] = [
    (
        Routed::Asked(0),
        b"POST /p?alt=proto&$req=CgA HTTP/1.1\r\nContent-Length: 0\r\n\r\n",
    ),
    (
        Routed::Asked(1),
        b"POST /p?$req=CgA HTTP/1.1\r\nContent-Length: 0\r\n\r\n",
    ),
    (
        Routed::Asked(2),
        b"GET http://h/p?$req=CgA HTTP/1.1\r\n\r\n",
    ),
    (
        Routed::OtherMethod(Allow::Post),
        b"GET /p?alt=proto HTTP/1.1\r\n\r\n",
    ),
    (
        Routed::OtherMethod(Allow::Post),
        b"HEAD /p?$req=CgA HTTP/1.1\r\n\r\n",
    ),
    (Routed::NoPath, b"GET /?/p HTTP/1.1\r\n\r\n"),
];

#[test]
fn the_first_route_that_takes_a_request_is_asked(rt: HostRuntime) {
    for (wanted, text) in &ASKED {
        let request = read(&rt, rt.alloc(), text);
        assert!(rt; find_route(&request, &ROUTES) == *wanted, "{text:?}");
    }
}
