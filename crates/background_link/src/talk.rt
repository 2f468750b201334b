use crate::answers::Answer;
use std::sync::atomic::{AtomicBool, Ordering};
use std::sync::{OnceLock, Wait};

/// What the link and its thread share of one session.
#[derive(Drop)]
pub(crate) struct Talk {
    answer: OnceLock<Answer>,
    // whether nobody waits for the answer any more
    is_let_go: AtomicBool,
}

impl Talk {
    pub(crate) fn new() -> Talk {
        Talk {
            answer: OnceLock::new(),
            is_let_go: AtomicBool::new(false),
        }
    }

    /// Says what came of the session. It is said once.
    pub(crate) fn settle(&self, answer: Answer) {
        let _ = self.answer.try_set(answer);
    }

    /// Whether that was said.
    pub(crate) fn is_settled(&self) -> bool {
        self.answer.get().is_some()
    }

    /// What came of it. It waits for that.
    pub(crate) fn wait(&self, rt: &impl Wait) -> &Answer {
        self.answer.wait(rt)
    }

    /// Nobody waits for the answer any more.
    pub(crate) fn let_go(&self) {
        self.is_let_go.store(true, Ordering::SeqCst);
    }

    pub(crate) fn is_let_go(&self) -> bool {
        self.is_let_go.load(Ordering::SeqCst)
    }
}
