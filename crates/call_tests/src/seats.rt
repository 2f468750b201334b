//! Seats, which outlast their publisher.
ghost use Rattle.std.specs.Prelude.{◌≡◌, ◌^◌, ◌<◌, length, IfSome};
ghost use Rattle.parallel_checks.specs.Checks.{AreSeatsOf};
ghost use Rattle.snapshot_publish.specs.Publishing.{IsOf};

use crate::halfway::begin;
use crate::lists::{FIRST, SECOND, lent, lists, urls};
use crate::shown::{push_finding, shown};
use parallel_checks::{CheckRun, check_all, local_check};
use sb_model::{Bytes, OutOfMemory, Row};
use sb_outside::OpenGate;
use snapshot_publish::{Publisher, Seat, start};
use std::alloc::Global;
use std::process::Abort;
use std::sync::Wait;
use std::thread::Threads;
use update_client::ClientLists;

// What a seat shows before and after a publication, with the publication's number: each number, and how many lists there are.
fn shown_before_and_after<R: Wait>(
    rt: &R,
    publisher: &mut Publisher,
    seat: &mut Seat,
    next: ClientLists,
) -> Result<[u64; 5], OutOfMemory>
    requires room { length publisher.old.list < 2 ^ 64 }
    requires start { IsOf publisher.old.boxes seat.old }
{
    let before = seat.latest()?;
    let number = publisher.publish(rt, next)?;
    seat.learn(publisher.tell()?);
    let after = seat.latest()?;
    Ok([
        before.number,
        before.lists.lists().len() as u64,
        number,
        after.number,
        after.lists.lists().len() as u64,
    ])
}

// A publisher of no lists, and its only seat.
fn begin_empty<R: Wait>(rt: &R, alloc: Global) -> Option<(Publisher, Row<Seat>)>
    ensures list { IfSome result (λ made. length made.0.list ≡ 1) }
    ensures count { IfSome result (λ made. length made.1 ≡ 1) }
    ensures ours { IfSome result (λ made. AreSeatsOf made.0.boxes made.1) }
{
    start(rt, alloc, ClientLists::new(alloc, &[]).ok()?, 1).ok()
}

#[test]
fn a_seat_shows_a_publication_that_it_was_told_of(rt: HostRuntime) {
    let next = lists(rt.alloc(), FIRST).expect(&rt, "no lists");
    let (mut publisher, mut seats) = begin_empty(&rt, rt.alloc()).expect(&rt, "no publisher");
    let shown = shown_before_and_after(&rt, &mut publisher, seats.at_mut(0), next);
    assert!(rt; shown == Ok([0, 0, 1, 1, 2]));
    assert!(rt; seats.at(0).looked());
    assert!(rt; publisher.published(1).is_some() && publisher.published(2).is_none());
    publisher.end();
}

// Checks with two seats of a publisher that was ended after it published the second lists.
fn run_after_end<R: Threads + Wait + Sync>(rt: &R, alloc: Global) -> Option<CheckRun> {
    let (mut publisher, seats) = begin(rt, alloc, 2)?;
    let published = publisher.publish(rt, lists(alloc, SECOND)?);
    publisher.end();
    published.ok()?;
    let urls = urls(alloc, 2)?;
    let lines = lent(alloc, urls.as_slice())?;
    let (run, ()) = check_all(rt, alloc, seats, &lines, &OpenGate, &mut || {});
    run.ok()
}

// What a seat shows of a URL, as text.
fn shown_at(alloc: Global, seat: &mut Seat) -> Option<Bytes> {
    let finding = local_check(seat, alloc, b"http://a.example/").ok()?;
    let mut text = Bytes::new(alloc);
    push_finding(&mut text, &finding).ok()?;
    Some(text)
}

#[test]
fn seats_remain_when_their_publisher_is_ended(rt: HostRuntime) {
    let mut run = run_after_end(&rt, rt.alloc()).expect(&rt, "no run");
    let text = shown(rt.alloc(), run.checks.as_slice()).expect(&rt, "no text");
    assert!(rt;
        text.as_slice()
            == b"1 http://a.example/0 malware 6fd0ae0f361a phishing 6fd0ae0f361afd6ad3d194b15903ff71bd2f5f3ab0a19c12328eb742ba442018\n1 http://b.example/1 phishing f8a16db611f02ed6\n".as_slice()
    );
    let mut seat = run.seats.pop().expect(&rt, "no seat");
    let text = shown_at(rt.alloc(), &mut seat).expect(&rt, "no text");
    assert!(rt; seat.looked());
    assert!(rt;
        text.as_slice()
            == b"1 http://a.example/ malware 6fd0ae0f361a phishing 6fd0ae0f361afd6ad3d194b15903ff71bd2f5f3ab0a19c12328eb742ba442018\n".as_slice()
    );
}
