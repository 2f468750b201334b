use crate::answers::Answer;
use crate::desk::{Desk, Hold};
use crate::finding::Finder;
use crate::jobs::Job;
use crate::line::Line;
use door_bell::Bell;
use std::alloc::{AllocError, Global};
use std::sync::{Arc, Wait};
use std::thread;
use std::thread::Threads;

/// Holds a session, where somebody waits for it, and says what came of it.
fn hold<R>(rt: R, system: HostRuntime, alloc: Global, finder: &mut Finder, job: Job)
where
    R: Threads + Wait + Copy + Send + 'static,
{
    let Job {
        address,
        term,
        request,
        talk,
    } = job;
    if talk.is_let_go() {
        return;
    }
    let answer = match finder.connect(rt, system, alloc, address, term, &talk) {
        Ok(stream) => Line::new(system, alloc, stream, term, &talk).ask(alloc, request.as_slice()),
        Err(end) => Answer::none(alloc, end),
    };
    talk.settle(answer);
}

/// Holds the sessions of a link one after the other, and rings after each, until the link is gone.
fn work<R>(rt: R, system: HostRuntime, alloc: Global, desk: Arc<Desk, Global>)
where
    R: Threads + Wait + Copy + Send + 'static,
{
    let mut finder = Finder::new();
    for _ in rt.forever() {
        let Some(job) = desk.take(&rt) else {
            break;
        };
        hold(rt, system, alloc, &mut finder, job);
        desk.ring();
    }
}

/// Starts the thread of a link. If none can be started, that is refused as memory is.
pub(crate) fn start<R>(
    rt: R,
    system: HostRuntime,
    alloc: Global,
    bell: Option<Bell>,
) -> Result<Hold, AllocError>
where
    R: Threads + Wait + Copy + Send + 'static,
{
    let desk = Desk::new(alloc, bell)?;
    let theirs = Arc::try_clone(&desk)?;
    thread::spawn(&rt, move || work(rt, system, alloc, theirs))?;
    Ok(Hold { desk })
}
