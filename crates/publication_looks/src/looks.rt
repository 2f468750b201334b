//! Looks at publications from one seat.
ghost use Rattle.std.specs.Prelude.{◌≡◌, ◌+◌, ◌^◌, ◌<◌, ◌≤◌, length, slice_get, Some, ℕ, IfSome};

use snapshot_publish::{Publisher, Seat, start};
use std::alloc::Global;
use std::sync::Wait;
use std::thread;
use std::thread::Threads;
use std::time::{Clock, Duration, Instant};
use update_client::ClientLists;

// A publisher of the lists, and its seat.
fn started<R: Wait>(rt: &R, alloc: Global, lists: ClientLists) -> Option<(Publisher, Seat)>
    ensures { IfSome result (λ made. length made.0.list ≡ 1) }
{
    let (publisher, mut seats) = start(rt, alloc, lists, 1).ok()?;
    match seats.pop() {
        Some(seat) => Some((publisher, seat)),
        None => None,
    }
}

// The number of the last publication that is seen.
fn look_once(seat: &mut Seat) -> Option<u64> {
    match seat.latest() {
        Ok(seen) => Some(seen.number),
        Err(_) => None,
    }
}

// Looks so many times, and gives the number of the last publication that was seen.
fn look_on(seat: &mut Seat, count: u32) -> Option<u64> {
    let mut last = 0;
    for _look in 0..count {
        last = look_once(seat)?;
    }
    Some(last)
}

// Looks so many times, and gives the number of the last publication that was seen, and how long all took.
fn time_all<C: Clock>(clock: &C, seat: &mut Seat, count: u32) -> Option<(u64, Duration)> {
    let begun = Instant::now(clock).ok()?;
    let last = look_on(seat, count)?;
    Some((last, begun.elapsed(clock).ok()?))
}

/// Looks so many times, and gives the number of the last publication that was seen, and how long all took.
pub(crate) fn look<R: Wait + Clock>(
    rt: &R,
    alloc: Global,
    lists: ClientLists,
    count: u32,
) -> Option<(u64, Duration)> {
    let (_publisher, mut seat) = started(rt, alloc, lists)?;
    time_all(rt, &mut seat, count)
}

// Looks so many times, and gives the number of the last publication that was seen and the longest look.
fn time_looks<C: Clock>(clock: &C, seat: &mut Seat, count: u32) -> Option<(u64, Duration)> {
    let mut last = 0;
    let mut longest = Duration::ZERO;
    for _look in 0..count {
        let (number, took) = time_all(clock, seat, 1)?;
        last = number;
        if took > longest {
            longest = took;
        }
    }
    Some((last, longest))
}

// Publishes a copy of the lists.
fn publish_copy<R: Wait>(
    rt: &R,
    alloc: Global,
    publisher: &mut Publisher,
    lists: &ClientLists,
) -> Option<u64>
    requires { length publisher.old.list < 2 ^ 64 }
    ensures { IfSome result (λ _. length publisher.new.list ≡ length publisher.old.list + 1) }
{
    let copy = lists.copy(alloc).ok()?;
    publisher.publish(rt, copy).ok()
}

// Publishes so many copies of the lists.
fn publish_copies<R: Wait>(
    rt: &R,
    alloc: Global,
    publisher: &mut Publisher,
    lists: &ClientLists,
    count: u32,
) -> Option<u64>
    requires { length publisher.old.list + count < 2 ^ 64 }
{
    for _made in 0..count {
        publish_copy(rt, alloc, publisher, lists)?;
    }
    Some(publisher.last_number())
}

// Looks so many times while this thread publishes so many copies of the lists, and gives the number of the last, and the longest look.
fn look_while<R: Threads + Wait + Clock + Sync>(
    rt: &R,
    alloc: Global,
    publisher: &mut Publisher,
    seat: &mut Seat,
    lists: &ClientLists,
    count: u32,
    copies: u32,
) -> Option<(u64, Duration)>
    requires { length publisher.old.list + copies < 2 ^ 64 }
{
    let mut looks = || -> Option<(u64, Duration)> { time_looks(rt, seat, count) };
    let mut publications = || -> Option<u64>
        requires { length publisher.now.list + copies < 2 ^ 64 }
    { publish_copies(rt, alloc, publisher, lists, copies) };
    let (looked, published) = thread::join_mut(rt, &mut looks, &mut publications);
    let (_last, longest) = looked?;
    Some((published?, longest))
}

/// Looks so many times while this thread publishes so many copies of the lists, and gives the number of the last, and the longest look.
pub(crate) fn look_beside<R: Threads + Wait + Clock + Sync>(
    rt: &R,
    alloc: Global,
    lists: ClientLists,
    count: u32,
    copies: u32,
) -> Option<(u64, Duration)> {
    let copy = lists.copy(alloc).ok()?;
    let (mut publisher, mut seat) = started(rt, alloc, copy)?;
    look_while(rt, alloc, &mut publisher, &mut seat, &lists, count, copies)
}
