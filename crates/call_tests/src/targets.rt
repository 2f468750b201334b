//! Where the client's objects of a command line are.
use crate::words::words;
use sb_client::{Targets, targets};
use sb_model::{OutOfMemory, Text};
use std::alloc::Global;
use std::process::Abort;

fn targets_of(alloc: Global, line: &str) -> Result<Targets, OutOfMemory> {
    let words = words(alloc, line)?;
    targets(alloc, words.as_slice())
}

// Whether a text is this one, or there is none and this is a dash.
fn is(text: &Option<Text>, wanted: &str) -> bool {
    text.as_ref().map_or("-", |text| text.as_str()) == wanted
}

/// Lines, each with the store and the server that its words name, or dashes, behind arrows.
const NAMED: &str =
    "sbupdate run --rounds 1024 --server a-b.c:65535 MALWARE/ANY_PLATFORM/URL --store=a/b.sb>a/b.sb>a-b.c:65535
sbcheck judge --patience=0 --server=h:1 MALWARE/ANY_PLATFORM/URL --store s>s>h:1
>->-
sbupdate replay MALWARE/ANY_PLATFORM/URL>->-
sbcheck show>->-
sbcheck run --store=s --server=h:1 --rounds=1 MALWARE/ANY_PLATFORM/URL>->-
sbupdate run --store=s --server=h:1 --rounds=1>->-";

// Whether a store and a server, which an arrow parts, are those of a command line.
fn are_named(targets: &Targets, names: &str) -> bool {
    let Some((store, server)) = names.split_once('>') else {
        return false;
    };
    is(&targets.store, store) && is(&targets.server, server)
}

#[test]
fn words_name_a_store_and_a_server(rt: HostRuntime) {
    for row in NAMED.split('\n') {
        let Some((line, names)) = row.split_once('>') else {
            panic!(rt; "no row");
        };
        let targets = targets_of(rt.alloc(), line).expect(&rt, "out of memory");
        assert!(rt; are_named(&targets, names), "{row}");
    }
}

/// Lines of judgings, each with whether the store is replaced.
const REPLACING: &str =
    "sbcheck judge --update 1 --server=h:1 --store=s MALWARE/ANY_PLATFORM/URL>yes
sbcheck judge --update 0 --server=h:1 --store=s MALWARE/ANY_PLATFORM/URL>no
sbcheck judge --patience=0 --server=h:1 MALWARE/ANY_PLATFORM/URL --store s>no";

#[test]
fn a_judging_with_updates_replaces_the_store(rt: HostRuntime) {
    for row in REPLACING.split('\n') {
        let Some((line, replaces)) = row.split_once('>') else {
            panic!(rt; "no row");
        };
        let targets = targets_of(rt.alloc(), line).expect(&rt, "out of memory");
        assert!(rt; targets.replaces == (replaces == "yes"), "{row}");
    }
}
