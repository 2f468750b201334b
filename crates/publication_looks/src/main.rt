//! Looks at publications from one seat, and prints the number of the last that was seen. How long the looks took it tells on
//! standard error, since that differs from run to run.
//!
//! The lists are those of the store on standard input, or one empty list where that is no store.
#![tactic(auto)]

use client_store::read_store;
use real_objects::StdSource;
use sb_model::{EntryType, ListName, PlatformType, ThreatType};
use sb_outside::read_to_end;
use std::alloc::Global;
use std::process::ExitCode;
use std::sync::Wait;
use std::thread::Threads;
use std::time::{Clock, Duration};
use std::{env, io};
use update_client::ClientLists;

mod looks;

const USAGE: &str = "usage: publication_looks LOOKS COUNT
  looks            looks COUNT times from one seat, and tells how long all took
  longest-look     the same, and tells the longest
  looks-beside     the same, beside 16 publications of copies of the lists";

// How many bytes a store may have.
const LIMIT: usize = 134_217_728;

const LIST: ListName = ListName {
    threat: ThreatType::Malware,
    platform: PlatformType::AnyPlatform,
    entry: EntryType::Url,
};

// The lists of a store, or one empty list.
fn lists_of(alloc: Global, text: &[u8]) -> Option<ClientLists> {
    match read_store(alloc, text) {
        Ok(lists) => Some(lists),
        Err(_) => ClientLists::new(alloc, &[LIST]).ok(),
    }
}

// The lists of the store on standard input.
fn given_lists(rt: &HostRuntime) -> Option<ClientLists> {
    let alloc = rt.alloc();
    let text = read_to_end(alloc, &mut StdSource::new(rt.stdin()), LIMIT).ok()?;
    lists_of(alloc, text.as_slice())
}

// What the looks came to: the number of the last publication that was seen, or of the last that was made beside them, and how
// long they took.
fn run<R: Threads + Wait + Clock + Sync>(
    rt: &R,
    alloc: Global,
    lists: ClientLists,
    kind: &str,
    count: u32,
) -> Option<(u64, Duration)> {
    match kind {
        "looks" => looks::look(rt, alloc, lists, count),
        "longest-look" => looks::look_beside(rt, alloc, lists, count, 0),
        "looks-beside" => looks::look_beside(rt, alloc, lists, count, 16),
        _ => None,
    }
}

// The same for the lists of the store on standard input. The handle is for threads.
fn looked<R: Threads + Wait + Clock + Sync>(
    rt: &HostRuntime,
    handle: &R,
    kind: &str,
    count: u32,
) -> Option<(u64, Duration)> {
    let lists = given_lists(rt)?;
    run(handle, rt.alloc(), lists, kind, count)
}

// Prints what the looks came to.
fn print(
    rt: &HostRuntime,
    kind: &str,
    count: u32,
    last: u64,
    took: Duration,
) -> io::Result<ExitCode> {
    eprintln!(rt; "{} ns", took.as_nanos())?;
    println!(rt; "{kind} {count}: {last}")?;
    Ok(ExitCode::SUCCESS)
}

// Looks as two words ask, and prints what comes of it.
fn tell<R: Threads + Wait + Clock + Sync>(
    rt: &HostRuntime,
    handle: &R,
    kind: &str,
    count: &str,
) -> io::Result<ExitCode> {
    let Ok(count) = count.parse::<u32>() else {
        return Ok(ExitCode::FAILURE);
    };
    match looked(rt, handle, kind, count) {
        Some((last, took)) => print(rt, kind, count, last, took),
        None => Ok(ExitCode::FAILURE),
    }
}

// The first two words after the program's name, if there are so many.
fn words_of(rt: &HostRuntime) -> io::Result<Option<(String, String)>> {
    let mut words = env::args(rt)?;
    let _program = words.next();
    match (words.next(), words.next()) {
        (Some(kind), Some(count)) => Ok(Some((kind, count))),
        _ => Ok(None),
    }
}

fn main(rt: HostRuntime) -> io::Result<ExitCode> {
    match words_of(&rt)? {
        Some((kind, count)) => tell(&rt, &rt, kind.as_str(), count.as_str()),
        None => {
            println!(rt; "{}", USAGE)?;
            Ok(ExitCode::SUCCESS)
        }
    }
}
