//! The newest publications, which a publisher keeps.
ghost use Rattle.std.specs.Prelude.{◌≡◌, ◌+◌, ◌-◌, ◌≤◌, [], ◌∷◌, ◌++◌, length, drop, OnOk, OnErr, IfOk};
ghost use Rattle.snapshot_publish.specs.Publications.{most_kept, publication};

use crate::Snapshot;
use sb_model::OutOfMemory;
use std::alloc::Global;
use std::collections::VecDeque;
use std::sync::Arc;
use update_client::ClientLists;

/// So many publications are kept.
const MOST_KEPT: usize = 17;

/// A publication of these lists.
pub(crate) fn of(alloc: Global, number: u64, lists: ClientLists) -> Result<Snapshot, OutOfMemory>
    ensures { IfOk result (λ snapshot. snapshot ≡ publication number lists) }
{
    let Ok(lists) = Arc::new(alloc, lists) else {
        return Err(OutOfMemory);
    };
    Ok(Snapshot { number, lists })
}

/// Keeps one more.
pub(crate) fn keep(kept: &mut VecDeque<Snapshot>, next: Snapshot) -> Result<(), OutOfMemory>
    ensures ok { OnOk result (kept.new.items ≡ kept.old.items ++ next ∷ []) }
    ensures err { OnErr result (kept.new.items ≡ kept.old.items) }
{
    match kept.push_back(next) {
        Ok(()) => Ok(()),
        Err(_) => Err(OutOfMemory),
    }
}

/// Keeps no more than the newest.
pub(crate) fn trim(kept: &mut VecDeque<Snapshot>)
    requires { length kept.old.items ≤ most_kept + 1 }
    ensures { kept.new.items ≡ drop (length kept.old.items - most_kept) kept.old.items }
{
    if kept.len() > MOST_KEPT {
        kept.pop_front();
    }
}
