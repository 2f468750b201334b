ghost use Rattle.std.specs.Prelude.{◌≡◌, [], IfOk};

use full_hash_cache::FullHashCache;
use sb_model::OutOfMemory;
use std::alloc::Global;
use wait_rules::WaitState;

/// What a client has between two finds.
#[derive(Drop)]
pub struct Finds {
    /// The answers that it keeps.
    pub cache: FullHashCache,
    /// When its next find may be sent.
    pub waits: WaitState,
}

impl Finds {
    /// What a client has before its first find: no kept answer, and this state of waiting.
    pub fn new(alloc: Global, waits: WaitState) -> Result<Finds, OutOfMemory>
        ensures cache { IfOk result (λ finds. finds.cache ≡ []) }
        ensures waits { IfOk result (λ finds. finds.waits ≡ waits) }
    {
        let cache = FullHashCache::new(alloc)?;
        Ok(Finds { cache, waits })
    }
}
