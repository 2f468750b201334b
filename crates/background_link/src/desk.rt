use crate::jobs::Job;
use crossbeam_queue::ArrayQueue;
use door_bell::Bell;
use std::alloc::{AllocError, Global};
use std::sync::atomic::{AtomicBool, Ordering};
use std::sync::{Arc, Wait};
use std::thread::Parker;

/// Where a link leaves its sessions for its thread.
#[derive(Drop)]
pub(crate) struct Desk {
    jobs: ArrayQueue<Job>,
    // what the thread waits at, and whether the link is gone
    parker: Parker,
    is_left: AtomicBool,
    bell: Option<Bell>,
}

impl Desk {
    pub(crate) fn new(alloc: Global, bell: Option<Bell>) -> Result<Arc<Desk, Global>, AllocError> {
        let desk = Desk {
            jobs: ArrayQueue::new(alloc, 1)?,
            parker: Parker::new(),
            is_left: AtomicBool::new(false),
            bell,
        };
        Ok(Arc::new(alloc, desk)?)
    }

    /// Leaves a session for the thread. One that still lies there was let go, and this one takes its place.
    pub(crate) fn put(&self, rt: &impl Wait, job: Job) {
        let _ = self.jobs.force_push(rt, job);
        self.parker.unpark();
    }

    /// The link is gone.
    fn leave(&self) {
        self.is_left.store(true, Ordering::SeqCst);
        self.parker.unpark();
    }

    /// The next session, or `None` once the link is gone. It waits for either.
    pub(crate) fn take(&self, rt: &impl Wait) -> Option<Job> {
        for _ in rt.forever() {
            if self.is_left.load(Ordering::SeqCst) {
                return None;
            }
            if let Some(job) = self.jobs.pop(rt) {
                return Some(job);
            }
            self.parker.park(rt);
        }
        unreachable!()
    }

    /// Rings the bell, where there is one.
    pub(crate) fn ring(&self) {
        if let Some(bell) = &self.bell {
            bell.ring();
        }
    }
}

/// The link's hold on its desk. Once it is dropped the thread ends.
pub(crate) struct Hold {
    pub(crate) desk: Arc<Desk, Global>,
}

impl Drop for Hold {
    fn drop(self) {
        let Hold { desk } = self;
        desk.leave();
    }
}
