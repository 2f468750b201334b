//! What no line of an input can be: a URL with line feeds in it.
use std::process::Abort;
use url_canon::canonical;

#[test]
fn line_feeds_are_taken_out_of_a_url(rt: HostRuntime) {
    let line_ends = b"ht\ntp://warn.example/foo\tbar\rbaz\n2\n \n";
    let url = canonical(rt.alloc(), line_ends).expect(&rt, "no URL");
    assert!(rt; !url.is_address());
    assert!(rt; url.into_text().as_slice() == b"http://warn.example/foobarbaz2".as_slice());
}
