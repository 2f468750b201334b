//! A bell that any thread rings, so that whoever waits at a poll comes back.
#![tactic(auto)]

use mio::{Registry, Token, Waker};
use sb_model::OutOfMemory;
use std::alloc::Global;
use std::io;
use std::sync::Arc;
use std::sync::atomic::{AtomicBool, Ordering};

/// What all owners of a bell share.
#[derive(Drop)]
struct Rope {
    waker: Waker,
    is_rung: AtomicBool,
}

/// A bell at a poll. It has one descriptor of the system, which its owners share.
#[derive(Drop)]
pub struct Bell {
    rope: Arc<Rope, Global>,
}

impl Bell {
    /// A bell at the poll of this registry. Each ring is an event of this token there.
    pub fn new(alloc: Global, registry: &Registry, token: Token) -> io::Result<Bell> {
        let waker = Waker::new(registry, token)?;
        let is_rung = AtomicBool::new(false);
        let rope = Arc::new(alloc, Rope { waker, is_rung })?;
        Ok(Bell { rope })
    }

    /// The same bell, for another owner.
    pub fn again(&self) -> Result<Bell, OutOfMemory> {
        match Arc::try_clone(&self.rope) {
            Ok(rope) => Ok(Bell { rope }),
            Err(_) => Err(OutOfMemory),
        }
    }

    /// Rings. It waits for nothing, and several rings before one is heard are one.
    pub fn ring(&self) {
        self.rope.is_rung.store(true, Ordering::SeqCst);
        let _ = self.rope.waker.wake();
    }

    /// Whether it was rung since it was last heard.
    pub fn is_rung(&self) -> bool {
        self.rope.is_rung.load(Ordering::SeqCst)
    }

    /// A ring so far is heard.
    pub fn hear(&self) {
        self.rope.is_rung.store(false, Ordering::SeqCst);
    }
}
