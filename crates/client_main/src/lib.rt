//! The main of the client programs: it hands the objects that the words name to `run_client`, and tells its operator why a run
//! ended by one of them.
#![tactic(auto)]

use client_store::{LONGEST_STORE, STORE_MAGIC};
use real_objects::{KeptForm, StdSink, StdSource, SystemClock, SystemDice, hold_descriptors};
use sb_client::{run_client, targets};
use sb_mains::{Operator, link_to, store_at, words_of};
use sb_model::OutOfMemory;
use sb_outside::OpenGate;
use std::alloc::Global;
use std::process::ExitCode;
use std::sync::Wait;
use std::thread::Threads;

/// Runs the command that the words are, and answers the exit status. The handle is for threads.
fn run<R: Threads + Wait + Sync>(
    rt: &HostRuntime,
    handle: &R,
    operator: Operator<'_>,
    alloc: Global,
    words: &[String],
) -> Result<u8, OutOfMemory> {
    let targets = targets(alloc, words)?;
    let form = KeptForm {
        longest: LONGEST_STORE,
        front: *STORE_MAGIC,
    };
    let mut keep = store_at(rt, alloc, &targets.store, form, targets.replaces)?;
    let mut link = link_to(rt, alloc, operator, &targets.server)?;
    let mut input = StdSource::new(rt.stdin());
    let mut out = StdSink::new(rt.stdout());
    let mut clock = SystemClock::new(rt);
    let mut dice = SystemDice::new(rt);
    let status = run_client(
        handle, alloc, words, &mut input, &mut out, &mut keep, &mut link, &mut clock, &mut dice,
        &OpenGate,
    );
    match status {
        2 => operator.tell("standard input", input.why()),
        3 => operator.tell("standard output", out.why()),
        4 => operator.tell_of("the store", &targets.store, keep.why()),
        // a response that did not come, and a find that left a URL undecided
        5 | 20 | 21 => operator.tell_of("the server", &targets.server, link.why()),
        _ => {}
    }
    Ok(status)
}

/// Runs the client program with this name, by the words of the command line. It ends with the status of `run_client`, or with 8
/// where memory was refused before.
pub fn run_program<R: Threads + Wait + Sync>(
    rt: &HostRuntime,
    handle: &R,
    program: &str,
) -> ExitCode {
    hold_descriptors(rt);
    let alloc = rt.alloc();
    let Ok(words) = words_of(rt, alloc, program) else {
        return ExitCode::from(8);
    };
    let operator = Operator::new(rt, program);
    ExitCode::from(run(rt, handle, operator, alloc, words.as_slice()).unwrap_or(8))
}
