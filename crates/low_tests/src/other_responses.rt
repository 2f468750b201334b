//! Responses with which this server never answers.
use http_edge::{Allow, MediaType, ResponseFields, Status, write_response};
use memory_objects::MemorySink;
use sb_model::Row;
use std::alloc::Global;
use std::process::Abort;

/// Sees that a response without a body, to a target that allows GET, begins so.
fn begins(rt: &impl Abort, alloc: Global, status: Status, code: u16, front: &[u8]) {
    assert_eq!(rt; status.code(), code);
    let mut sink = MemorySink::new(alloc, 1_000, Row::new(alloc)).expect(rt, "out of memory");
    let fields = ResponseFields {
        allow: Allow::Get,
        media: MediaType::Json,
    };
    let written = write_response(alloc, &mut sink, status, fields, b"");
    assert_eq!(rt; written, Ok(()));
    assert!(rt; sink.bytes().starts_with(front), "{code}");
}

#[test]
fn gateways_and_targets_that_are_read_have_their_lines(rt: HostRuntime) {
    let bad_gateway = b"HTTP/1.1 502 Bad Gateway\r\n";
    begins(&rt, rt.alloc(), Status::BadGateway, 502, bad_gateway);
    let unavailable = b"HTTP/1.1 503 Service Unavailable\r\n";
    begins(
        &rt,
        rt.alloc(),
        Status::ServiceUnavailable,
        503,
        unavailable,
    );
    let not_allowed =
        b"HTTP/1.1 405 Method Not Allowed\r\nContent-Type: application/json\r\nContent-Length: 0\r\nContent-Digest: sha-256=:47DEQpj8HBSa+/TImW+5JCeuQeRkm5NMpJWZG3hSuFU=:\r\nAllow: GET\r\nConnection: close\r\n\r\n";
    begins(&rt, rt.alloc(), Status::MethodNotAllowed, 405, not_allowed);
}
