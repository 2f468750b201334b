//! Checks while lists are published, and how they are settled.
ghost use Rattle.std.specs.Prelude.{◌≡◌, ◌+◌, ◌^◌, ◌<◌, ◌≤◌, length, IfSome};
ghost use Rattle.parallel_checks.specs.Checks.{AreSeatsOf, AreChecks};

use crate::gates::Halt;
use crate::lists::{FIRST, SECOND, lent, lists, urls};
use crate::shown::shown;
use input_lines::Lines;
use parallel_checks::{CheckRun, check_all, seats_remain, settle};
use sb_model::{Bytes, Row};
use snapshot_publish::{Publisher, Seat, start};
use std::alloc::Global;
use std::process::Abort;
use std::sync::Wait;
use std::thread::Threads;

/// A publisher of the first lists, with its seats.
pub fn begin<R: Wait>(rt: &R, alloc: Global, seats: u32) -> Option<(Publisher, Row<Seat>)>
    requires { (1 ≤ seats) × (seats ≤ 16) }
    ensures list { IfSome result (λ made. length made.0.list ≡ 1) }
    ensures count { IfSome result (λ made. length made.1 ≡ seats) }
    ensures ours { IfSome result (λ made. AreSeatsOf made.0.boxes made.1) }
{
    start(rt, alloc, lists(alloc, FIRST)?, seats).ok()
}

// Publishes the second lists so many times.
fn publish<R: Wait>(rt: &R, alloc: Global, publisher: &mut Publisher, count: u64) -> Option<u64>
    requires { length publisher.old.list + count < 2 ^ 64 }
    ensures { publisher.new.boxes ≡ publisher.old.boxes }
{
    for _made in 0..count {
        publisher.publish(rt, lists(alloc, SECOND)?).ok()?;
    }
    Some(publisher.last_number())
}

// Checks URLs, and publishes the second lists so many times before the second check.
fn check_beside<R: Threads + Wait + Sync>(
    rt: &R,
    alloc: Global,
    publisher: &mut Publisher,
    seats: Row<Seat>,
    urls: &Lines<'_>,
    count: u64,
) -> Option<CheckRun>
    requires some { 0 < length seats }
    requires few { length urls.now < 2 ^ 32 }
    requires room { length publisher.old.list + count < 2 ^ 64 }
    requires ours { AreSeatsOf publisher.old.boxes seats }
    ensures ours { IfSome result (λ run. AreSeatsOf publisher.new.boxes run.seats) }
    ensures checks { IfSome result (λ run. AreChecks run.seats urls.now run.checks) }
{
    let halt = Halt::new();
    let mut beside = || -> Option<u64>
        requires { length publisher.now.list + count < 2 ^ 64 }
        ensures { publisher.exit.now.boxes ≡ publisher.entry.now.boxes }
    {
        halt.reached.wait();
        let last = publish(rt, alloc, publisher, count);
        halt.may_go_on.give();
        last
    };
    let (run, last) = check_all(rt, alloc, seats, urls, &halt, &mut beside);
    seats_remain();
    if last? != count || !halt.was_kept() {
        return None;
    }
    run.ok()
}

// Two URLs that were checked with one seat, with publications between the two checks.
#[derive(Drop)]
struct Halfway {
    publisher: Publisher,
    urls: Row<Bytes>,
    run: CheckRun,
}

// Checks two URLs, and publishes the second lists so many times between the two checks.
fn check_halfway<R: Threads + Wait + Sync>(rt: &R, alloc: Global, count: u64) -> Option<Halfway>
    requires few { count < 2 ^ 32 }
    ensures ours { IfSome result (λ half. AreSeatsOf half.publisher.boxes half.run.seats) }
    ensures checks { IfSome result (λ half. AreChecks half.run.seats half.urls half.run.checks) }
{
    let (mut publisher, seats) = begin(rt, alloc, 1)?;
    let urls = urls(alloc, 2)?;
    let run = {
        let lines = lent(alloc, urls.as_slice())?;
        check_beside(rt, alloc, &mut publisher, seats, &lines, count)?
    };
    Some(Halfway {
        publisher,
        urls,
        run,
    })
}

// The publisher, and the checks once they were settled, as text.
fn settled(alloc: Global, half: Halfway) -> Option<(Publisher, Bytes)>
    requires ours { AreSeatsOf half.publisher.boxes half.run.seats }
    requires checks { AreChecks half.run.seats half.urls half.run.checks }
{
    let Halfway {
        mut publisher,
        urls,
        run,
    } = half;
    let lines = lent(alloc, urls.as_slice())?;
    let run = settle(alloc, &mut publisher, run, &lines).ok()?;
    let text = shown(alloc, run.checks.as_slice())?;
    Some((publisher, text))
}

// The checks before and after one publication.
const BEFORE_AND_AFTER: &[u8] =
    b"0 http://a.example/0 malware 6fd0ae0f\n1 http://b.example/1 phishing f8a16db611f02ed6\n";

#[test]
fn a_check_shows_what_was_published_beside_it(rt: HostRuntime) {
    let alloc = rt.alloc();
    let half = check_halfway(&rt, alloc, 1).expect(&rt, "no run");
    let text = shown(alloc, half.run.checks.as_slice()).expect(&rt, "no text");
    assert!(rt; text.as_slice() == BEFORE_AND_AFTER);
    let (_publisher, text) = settled(alloc, half).expect(&rt, "no memory");
    assert!(rt; text.as_slice() == BEFORE_AND_AFTER);
}

// Which of the publications 23, 24, 40 and 41 are kept.
fn kept(publisher: &Publisher) -> [bool; 4] {
    [
        publisher.published(23).is_some(),
        publisher.published(24).is_some(),
        publisher.published(40).is_some(),
        publisher.published(41).is_some(),
    ]
}

#[test]
fn checks_are_made_anew_whose_publication_is_gone(rt: HostRuntime) {
    let alloc = rt.alloc();
    let half = check_halfway(&rt, alloc, 40).expect(&rt, "no run");
    let text = shown(alloc, half.run.checks.as_slice()).expect(&rt, "no text");
    assert!(rt;
        text.as_slice()
            == b"0 http://a.example/0 malware 6fd0ae0f\n40 http://b.example/1 phishing f8a16db611f02ed6\n".as_slice()
    );
    let (publisher, text) = settled(alloc, half).expect(&rt, "no memory");
    assert!(rt;
        text.as_slice()
            == b"40 http://a.example/0 malware 6fd0ae0f361a phishing 6fd0ae0f361afd6ad3d194b15903ff71bd2f5f3ab0a19c12328eb742ba442018\n40 http://b.example/1 phishing f8a16db611f02ed6\n".as_slice()
    );
    assert_eq!(rt; kept(&publisher), [false, true, true, false]);
}
