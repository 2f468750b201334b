//! Many sessions in a row over one link.
use crate::both::hold;
use crate::counts::{comes_to, counted};
use crate::outcome::Outcome;
use crate::scripts::play;
use crate::stage::Stage;
use crate::words::{cut, number_of};
use background_link::BackgroundLink;
use sb_outside::{Door, Link};
use std::net::TcpListener;
use std::sync::Wait;
use std::thread::{self, Threads};
use std::time::Duration;

/// Holds so many exchanges, and says whether each brought a body.
fn hold_all<L: Link, D: Door>(rt: HostRuntime, door: &mut D, link: &mut L, count: u64) -> bool {
    for _ in 0..count {
        match hold(rt, door, link) {
            Ok(held) if held.came.is_ok() => {}
            _ => return false,
        }
    }
    true
}

/// Goes by one script in so many connections.
fn play_all(rt: HostRuntime, port: Option<&TcpListener>, count: u64, script: &str) {
    for _ in 0..count {
        play(rt, rt.alloc(), port, script);
    }
}

/// Holds so many exchanges beside such a peer.
fn hold_beside<R: Threads + Sync, L: Link, D: Door>(
    threads: &R,
    rt: HostRuntime,
    door: &mut D,
    port: Option<&TcpListener>,
    link: &mut L,
    count: u64,
    script: &str,
) -> bool {
    let (_, are_whole) = thread::join(
        threads,
        || play_all(rt, port, count, script),
        || hold_all(rt, door, link, count),
    );
    are_whole
}

/// The same over a link beside its caller.
fn hold_some<R>(
    stage: &mut Stage<R>,
    link: &mut BackgroundLink<R>,
    count: u64,
    script: &str,
) -> bool
where
    R: Threads + Wait + Copy + Send + Sync + 'static,
{
    let port = stage.port.as_ref();
    hold_beside(
        &stage.threads,
        stage.rt,
        &mut stage.door,
        port,
        link,
        count,
        script,
    )
}

/// One session and then so many: whether as many threads and descriptors are left after them.
pub(crate) fn step<R>(stage: &mut Stage<R>, rest: &str) -> Outcome
where
    R: Threads + Wait + Copy + Send + Sync + 'static,
{
    let (number, script) = cut(rest);
    let Some(mut link) = stage.fresh() else {
        return Outcome::OutOfMemory;
    };
    if !hold_some(stage, &mut link, 1, script) {
        return Outcome::Word("the first failed");
    }
    thread::sleep(&stage.rt, Duration::from_millis(200));
    let after_one = counted(&stage.rt);
    if !hold_some(stage, &mut link, number_of(number), script) {
        return Outcome::Word("one failed");
    }
    if comes_to(&stage.rt, after_one) {
        return Outcome::Word("as many threads and descriptors");
    }
    Outcome::Word("more threads or descriptors")
}
