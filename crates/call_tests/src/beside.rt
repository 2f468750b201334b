//! Runs that judge on several threads.
use crate::gates::{Rule, RuledGate};
use crate::runs::run_line;
use sb_outside::Point;
use std::process::Abort;
use std::sync::atomic::AtomicU32;

// The SHA-256 of "bad.example/" is 611d2cf5687a72278c3da89f28dc0cc5f674b1b7fca042bf31fce4a9d1e159a5.

// A response with a full update to the first 4 bytes of it, and one with the whole of it, each with its digest.
const UPDATE: &[u8] =
    b"HTTP/1.1 200 OK\r\nContent-Length: 318\r\nContent-Digest: sha-256=:g9SpqXbEfZxECaGa73eIJwheVae2kDC7bmact7tAL/4=:\r\n\r\n{\"listUpdateResponses\":[{\"additions\":[{\"compressionType\":\"RAW\",\"rawHashes\":{\"prefixSize\":4,\"rawHashes\":\"YR0s9Q==\"}}],\"checksum\":{\"sha256\":\"3otoF4zVdY9QBs8wckfHBgWkcRyGb/v713SAkoAGEWg=\"},\"newClientState\":\"AQ==\",\"platformType\":\"ANY_PLATFORM\",\"responseType\":\"FULL_UPDATE\",\"threatEntryType\":\"URL\",\"threatType\":\"MALWARE\"}]}";

const MATCH: &[u8] =
    b"HTTP/1.1 200 OK\r\nContent-Length: 157\r\nContent-Digest: sha-256=:doLDzf3ManLgfKr5Qdtb240NscW3CdMlxGx9P7VnHKQ=:\r\n\r\n{\"matches\":[{\"platformType\":\"ANY_PLATFORM\",\"threat\":{\"hash\":\"YR0s9Wh6cieMPaifKNwMxfZ0sbf8oEK/MfzkqdHhWaU=\"},\"threatEntryType\":\"URL\",\"threatType\":\"MALWARE\"}]}";

const BESIDE_AN_UPDATE: &str =
    "sbcheck judge --update=1 --store=s --server=h:1 MALWARE/ANY_PLATFORM/URL";

#[test]
fn a_url_is_checked_before_an_update_and_one_after_it(rt: HostRuntime) {
    let gate = RuledGate {
        first: Rule::new(Point::Round(1), Point::Check(1)),
        second: Rule::new(Point::Check(1), Point::Published(1)),
    };
    let drawn = AtomicU32::new(0);
    let ran = run_line(
        &rt,
        rt.alloc(),
        BESIDE_AN_UPDATE,
        &[UPDATE, MATCH],
        &drawn,
        &gate,
    )
    .expect(&rt, "no memory");
    assert!(rt; gate.was_kept());
    assert_eq!(rt; ran.status, 20);
    assert!(rt;
        ran.out.bytes()
            == b"round 1 at 1000000 ok\nround 1 MALWARE/ANY_PLATFORM/URL installed 1\nround 1 saved\n1 safe 0 http://bad.example/1\n2 unsafe 1 MALWARE/ANY_PLATFORM/URL http://bad.example/2\nchecked 2: 1 safe, 1 unsafe, 0 undecided, 0 refused\n".as_slice()
    );
}

const BY_TWO_WORKERS: &str =
    "sbcheck judge --workers=2 --store=s --server=h:1 MALWARE/ANY_PLATFORM/URL";

#[test]
fn two_workers_check_beside_each_other(rt: HostRuntime) {
    let gate = RuledGate {
        first: Rule::new(Point::Check(0), Point::Check(1)),
        second: Rule::new(Point::Check(1), Point::Check(0)),
    };
    let drawn = AtomicU32::new(0);
    let ran = run_line(&rt, rt.alloc(), BY_TWO_WORKERS, &[], &drawn, &gate).expect(
        &rt,
        "no memory",
    );
    assert!(rt; gate.was_kept());
    assert_eq!(rt; ran.status, 0);
    assert!(rt;
        ran.out.bytes()
            == b"1 safe 0 http://bad.example/1\n2 safe 0 http://bad.example/2\nchecked 2: 2 safe, 0 unsafe, 0 undecided, 0 refused\n".as_slice()
    );
}
