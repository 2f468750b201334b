//! What the system tells of this program.
use std::time::Duration;
use std::{fs, thread};

/// How many threads and descriptors it has.
#[derive(Clone, Copy, PartialEq, Eq)]
pub(crate) struct Counts {
    threads: usize,
    descriptors: usize,
}

/// How many names a folder has.
fn names_in(rt: &HostRuntime, path: &str) -> Option<usize> {
    let mut count = 0usize;
    for entry in fs::read_dir(rt, path).ok()? {
        if entry.is_ok() {
            count = count.saturating_add(1);
        }
    }
    Some(count)
}

pub(crate) fn counted(rt: &HostRuntime) -> Option<Counts> {
    Some(Counts {
        threads: names_in(rt, "/proc/self/task")?,
        descriptors: names_in(rt, "/proc/self/fd")?,
    })
}

/// Whether it has these counts within some seconds, since threads that are done end a little later.
pub(crate) fn comes_to(rt: &HostRuntime, wanted: Option<Counts>) -> bool {
    for _ in 0..500 {
        if wanted.is_some() && counted(rt) == wanted {
            return true;
        }
        thread::sleep(rt, Duration::from_millis(10));
    }
    false
}

/// What the system tells of the time of its first thread, in nanoseconds: for how long it ran, and for how long it waited for a
/// processor.
fn times(rt: &HostRuntime) -> Option<(u64, u64)> {
    let text = fs::read_to_string(rt, "/proc/self/schedstat").ok()?;
    let (ran, rest) = text.as_str().split_once(' ')?;
    let (waited, _) = rest.split_once(' ')?;
    Some((ran.parse::<u64>().ok()?, waited.parse::<u64>().ok()?))
}

/// For how long its first thread ran so far, in milliseconds.
pub(crate) fn time_at_work(rt: &HostRuntime) -> Option<u64> {
    let (ran, _) = times(rt)?;
    Some(ran / 1_000_000)
}

/// For how long its first thread waited for a processor so far, in nanoseconds, or 0 where that is not told.
pub(crate) fn time_in_line(rt: &HostRuntime) -> u64 {
    match times(rt) {
        Some((_, waited)) => waited,
        None => 0,
    }
}
