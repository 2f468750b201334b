use crate::answers::no_memory;
use crate::talk::Talk;
use real_objects::{TcpLimits, Term, Why};
use sb_model::Bytes;
use std::alloc::Global;
use std::sync::Arc;
use std::time;

/// A session as its thread gets it: whom it asks, since when, what it asks, and where its answer goes.
#[derive(Drop)]
pub(crate) struct Job {
    pub(crate) address: String,
    pub(crate) term: Term,
    pub(crate) request: Bytes,
    pub(crate) talk: Arc<Talk, Global>,
}

impl Job {
    /// One that begins now and asks nothing yet.
    pub(crate) fn new(
        rt: &impl time::Clock,
        alloc: Global,
        address: &str,
        limits: TcpLimits,
        talk: &Arc<Talk, Global>,
    ) -> Result<Job, Why> {
        let term = match Term::from_now(rt, limits) {
            Ok(term) => term,
            Err(e) => return Err(Why::system("cannot be connected to", e)),
        };
        let (Ok(address), Ok(talk)) = (String::from_str(alloc, address), Arc::try_clone(talk))
        else {
            return Err(no_memory());
        };
        Ok(Job {
            address,
            term,
            request: Bytes::new(alloc),
            talk,
        })
    }
}
