ghost use Rattle.std.specs.Prelude.{◌≡◌, IfOk};

use sb_model::OutOfMemory;
use std::alloc::Global;
use std::marker::Model;
use std::sync::Arc;
use update_client::ClientLists;

/// A publication of a client's lists. Contracts see it as `Publication` of `specs/Publications.antt`.
#[derive(Drop)]
pub struct Snapshot {
    /// Its number: the first has 0.
    pub number: u64,
    pub lists: Arc<ClientLists, Global>,
}

impl Model for Snapshot {
    ghost use Rattle.std.specs.Arc.{arc_value};
    ghost use Rattle.snapshot_publish.specs.Publications.{Publication, publication};

    ghost Value = { Publication };

    ghost view = { λ s. publication s.number (arc_value s.lists) };
}

impl Snapshot {
    /// The same publication once more. Its lists are shared, and not copied.
    pub fn copy(&self) -> Result<Snapshot, OutOfMemory>
        ensures { IfOk result (λ copy. copy ≡ self.now) }
    {
        let lists = Arc::try_clone(&self.lists)?;
        Ok(Snapshot {
            number: self.number,
            lists,
        })
    }
}
