ghost use Rattle.std.specs.Prelude.{◌≤◌, length, IfOk};

use crate::answers::{End, no_memory};
use crate::desk::Desk;
use crate::jobs::Job;
use crate::talk::Talk;
use http_edge::RequestWatch;
use real_objects::{TcpLimits, Why};
use std::alloc::Global;
use std::sync::{Arc, Wait};
use std::time;

/// A session whose request is not whole.
#[derive(Drop)]
struct Asking {
    job: Job,
    watch: RequestWatch,
}

impl Asking {
    /// Takes the next piece of the request.
    fn take(&mut self, piece: &[u8]) -> Result<(), Why> {
        match self.job.request.append(piece) {
            Ok(()) => {
                self.watch.feed(piece);
                Ok(())
            }
            Err(_) => Err(no_memory()),
        }
    }
}

/// The link's part of what it shares with its thread. Once it is dropped nobody waits for the answer any more.
struct Awaited {
    talk: Arc<Talk, Global>,
}

impl Drop for Awaited {
    fn drop(self) {
        let Awaited { talk } = self;
        talk.let_go();
    }
}

/// An open session, as the link has it.
#[derive(Drop)]
pub(crate) struct Session {
    awaited: Awaited,
    // until the thread has it
    asking: Option<Asking>,
    // how many bytes of its answer were received
    received: usize,
}

/// Copies as many bytes as both have to the front of a buffer, and says how many.
fn copy_front(from: &[u8], to: &mut [u8]) -> usize
    ensures { result ≤ length to.new }
{
    let count = from.len().min(to.len());
    to[..count].copy_from_slice(&from[..count]);
    count
}

impl Session {
    /// One that begins now.
    pub(crate) fn new(
        rt: &impl time::Clock,
        alloc: Global,
        address: &str,
        limits: TcpLimits,
    ) -> Result<Session, Why> {
        let (Ok(watch), Ok(talk)) = (RequestWatch::new(alloc), Arc::new(alloc, Talk::new())) else {
            return Err(no_memory());
        };
        let job = Job::new(rt, alloc, address, limits, &talk)?;
        Ok(Session {
            awaited: Awaited { talk },
            asking: Some(Asking { job, watch }),
            received: 0,
        })
    }

    /// Whether what came of it is known.
    pub(crate) fn is_answered(&self) -> bool {
        self.awaited.talk.is_settled()
    }

    /// Whether its request is whole, or can no longer become one, and the thread does not have it.
    fn is_asked(&self) -> bool {
        match &self.asking {
            Some(asking) => asking.watch.is_decided(),
            None => false,
        }
    }

    /// Gives it to the thread, where that does not have it.
    pub(crate) fn start<R: Wait>(&mut self, rt: &R, desk: &Desk) {
        if let Some(asking) = self.asking.take() {
            desk.put(rt, asking.job);
        }
    }

    /// Takes the next piece of the request. With its last one the thread gets it.
    pub(crate) fn send<R: Wait>(&mut self, rt: &R, desk: &Desk, piece: &[u8]) -> Result<(), Why> {
        match &mut self.asking {
            Some(asking) => asking.take(piece)?,
            None => return Err(Why::refusal("was sent a whole request before")),
        }
        if self.is_asked() {
            self.start(rt, desk);
        }
        Ok(())
    }

    /// Takes the next bytes of its answer into the front of a buffer, or says what stands behind the last of them. It waits
    /// for the answer.
    pub(crate) fn receive<R: Wait>(&mut self, rt: &R, buffer: &mut [u8]) -> Result<usize, End>
        ensures { IfOk result (λ n. n ≤ length buffer.new) }
    {
        let answer = self.awaited.talk.wait(rt);
        let heard = answer.heard.as_slice();
        if self.received >= heard.len() {
            return Err(answer.end);
        }
        let count = copy_front(&heard[self.received..], buffer);
        self.received = self.received.saturating_add(count);
        Ok(count)
    }
}
