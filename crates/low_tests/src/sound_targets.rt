//! Hosts and keys that stand in one line of a head.
use http_edge::Target;
use sb_model::{OutOfMemory, Text};
use std::alloc::Global;
use std::process::Abort;

fn is_sound(alloc: Global, host: &str, key: &str) -> Result<bool, OutOfMemory> {
    let target = Target {
        host: Text::from_str(alloc, host)?,
        key: Text::from_str(alloc, key)?,
    };
    Ok(target.is_sound())
}

/// Sees of each host and key, which a semicolon parts, whether they are sound together. Bars part the pairs.
fn are_sound(rt: &impl Abort, alloc: Global, pairs: &str, wanted: bool) {
    for pair in pairs.split('|') {
        let Some((host, key)) = pair.split_once(';') else {
            panic!(rt; "no pair");
        };
        let sound = is_sound(alloc, host, key).expect(rt, "out of memory");
        assert!(rt; sound == wanted, "{pair}");
    }
}

#[test]
fn a_line_end_stands_in_no_target(rt: HostRuntime) {
    let sound = "a.example:80;|;a\tb \u{2028}\u{85}\u{10D}\u{10A}";
    are_sound(&rt, rt.alloc(), sound, true);
    let unsound = "a\nX: 1;|a;b\r|\r\n;|a;b HTTP/1.1\nX: 1";
    are_sound(&rt, rt.alloc(), unsound, false);
}
