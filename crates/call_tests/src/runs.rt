//! Runs of the client programs over objects in memory.
use crate::rounds::CountedDice;
use crate::words::words;
use memory_objects::{MemoryKeeper, MemorySink, MemorySource, Play, ScriptClock, ScriptLink};
use sb_client::run_client;
use sb_model::{Bytes, Moment, Row};
use sb_outside::Gate;
use std::alloc::Global;
use std::sync::Wait;
use std::sync::atomic::AtomicU32;
use std::thread::Threads;

const URLS: &[u8] = b"http://bad.example/1\nhttp://bad.example/2\n";

// An input with the two URLs.
fn source(alloc: Global) -> Option<MemorySource> {
    let mut pieces = Row::new(alloc);
    pieces.push(Bytes::from_slice(alloc, URLS).ok()?).ok()?;
    Some(MemorySource::new(pieces, Row::new(alloc)))
}

// A session that gives this response.
fn play(alloc: Global, response: &[u8]) -> Option<Play> {
    let text = Bytes::from_slice(alloc, response).ok()?;
    Play::new(alloc, text, 1_000, Row::new(alloc)).ok()
}

// A link with a session for each of these responses.
fn link(alloc: Global, responses: &[&[u8]]) -> Option<ScriptLink> {
    let mut coming = Row::new(alloc);
    for response in responses {
        coming.push(play(alloc, response)?).ok()?;
    }
    ScriptLink::new(alloc, coming, 2).ok()
}

// A clock that stands at 1,000,000.
fn clock(alloc: Global) -> Option<ScriptClock> {
    let readings = Row::from_slice(alloc, &[Moment(1_000_000)]).ok()?;
    ScriptClock::new(alloc, readings, 0).ok()
}

// What a run reads and writes.
#[derive(Drop)]
struct Objects {
    input: MemorySource,
    out: MemorySink,
    keep: MemoryKeeper,
    link: ScriptLink,
    clock: ScriptClock,
}

// The two URLs, no store, and a link with a session for each of these responses.
fn objects_with(alloc: Global, responses: &[&[u8]]) -> Option<Objects> {
    Some(Objects {
        input: source(alloc)?,
        out: MemorySink::new(alloc, 1_000, Row::new(alloc)).ok()?,
        keep: MemoryKeeper::new(alloc, None, Row::new(alloc)),
        link: link(alloc, responses)?,
        clock: clock(alloc)?,
    })
}

/// What a run came to: its exit status, and what it printed.
#[derive(Drop)]
pub struct Ran {
    pub status: u8,
    pub out: MemorySink,
}

// What a run with these words and objects comes to.
fn run<R: Threads + Wait + Sync, G: Gate + Sync>(
    rt: &R,
    alloc: Global,
    words: &[String],
    own: Objects,
    drawn: &AtomicU32,
    gate: &G,
) -> Ran {
    let mut own = own;
    let mut dice = CountedDice::new(drawn);
    let status = run_client(
        rt,
        alloc,
        words,
        &mut own.input,
        &mut own.out,
        &mut own.keep,
        &mut own.link,
        &mut own.clock,
        &mut dice,
        gate,
    );
    Ran {
        status,
        out: own.out,
    }
}

/// What a run with the words of a line comes to, with the two URLs, no store, and a session for each of these responses.
pub fn run_line<R: Threads + Wait + Sync, G: Gate + Sync>(
    rt: &R,
    alloc: Global,
    line: &str,
    responses: &[&[u8]],
    drawn: &AtomicU32,
    gate: &G,
) -> Option<Ran> {
    let words = words(alloc, line).ok()?;
    let own = objects_with(alloc, responses)?;
    Some(run(rt, alloc, words.as_slice(), own, drawn, gate))
}
