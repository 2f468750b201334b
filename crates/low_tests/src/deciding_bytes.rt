//! Which byte of a request decides it.
use http_edge::RequestWatch;
use std::alloc::Global;
use std::process::Abort;

/// Requests, which bars part. A caret stands behind the byte that decides one, and in one that none decides there is no caret.
const MARKED: &[u8] = b"POST /x HTTP/1.1\r\nA: b\r\nContent-Length: 3\r\n\r\nabc^def|\
\r\n\nGET / HTTP/1.0\na:\n\n^more|\
POST /x HTTP/1.1\r\nContent-Length: 3\r\n\r\nab|\
GET /x HTTP/1.1\r\nA: b\r\n\r|\
G\0^T / HTTP/1.1|\
GET /\xff ^HTTP/1.1|\
GET / HTTP/1.2^|\
GET / HTTP/1.1\r\nA ^b: c|\
POST / HTTP/1.1\r\nContent-Length: 1048577\r\n\r\n^|\
POST / HTTP/1.1\r\nContent-Length: 1\r\nContent-Length: 1\r\n\r\n^GET / HTTP/1.1\r\n";

/// Feeds the bytes of a request one by one, and sees that it is decided behind its caret and not before.
fn is_decided_where_marked(rt: &impl Abort, alloc: Global, request: &[u8]) {
    let mut watch = RequestWatch::new(alloc).expect(rt, "out of memory");
    let mut is_marked = false;
    for byte in request {
        if *byte == b'^' {
            is_marked = true;
        } else {
            assert!(rt; watch.is_decided() == is_marked, "{request:?}");
            watch.feed(&[*byte]);
        }
    }
    assert!(rt; watch.is_decided() == is_marked, "{request:?}");
}

#[test]
fn a_request_is_decided_by_its_last_byte_or_its_first_wrong_one(rt: HostRuntime) {
    for request in MARKED.split(|byte| *byte == b'|') {
        is_decided_where_marked(&rt, rt.alloc(), request);
    }
}

#[test]
fn a_head_is_too_long_at_its_limit(rt: HostRuntime) {
    let mut watch = RequestWatch::new(rt.alloc()).expect(&rt, "out of memory");
    watch.feed(b"GET / HTTP/1.1\r\nA: ");
    watch.feed(&[b'b'; 16_364]);
    assert!(rt; !watch.is_decided());
    watch.feed(b"b");
    assert!(rt; watch.is_decided());
}
