ghost use Rattle.std.specs.Prelude.{◌≡◌, ℕ, ◌+◌, ◌^◌, ◌<◌, ◌≤◌, List, [], length, fold, IfOk, OnOk};
ghost use Rattle.sb_model.specs.History.{after_change, sizes_at, with_added, without_hash};
ghost use Rattle.sb_model.specs.declared.history.Added.{Added as Entry};
ghost use Rattle.list_versions.specs.Draft.{history_of};
ghost use Rattle.list_versions.specs.HashSizes.{IsMapOf};
ghost use Rattle.list_versions.specs.Limits.{hash_lines};
ghost use Rattle.list_versions.specs.Loaded.{IsStem};

use crate::draft::Draft;
use crate::hash_sizes::Folding;
use crate::lists::same;
use crate::standing::entries_at;
use hash_prefixes::FullHash;
use sb_model::{Added, Change, ListName, OutOfMemory, Steps};
use std::alloc::Global;
use std::marker::Brand;
use std::sync::ledger::{Blank, Ledger};

// Folds the lines of a change that remove.
fn fold_removes<L: Ledger>(
    folding: &mut Folding,
    removes: &[[u8; 32]],
    steps: &mut Steps<L>,
) -> Result<(), OutOfMemory>
    requires { steps.old + length removes.now < 2 ^ 63 }
    ensures map { OnOk result ((entries : List Entry) → IsMapOf folding.old entries
        → IsMapOf folding.new (fold without_hash entries removes.now)) }
    ensures few { steps.new ≤ steps.old + length removes.now }
    ensures counted { steps.old ≤ steps.new }
{
    for hash in removes {
        folding.line(&FullHash { bytes: *hash }, 0, false, steps)?;
    }
    Ok(())
}

// Folds the lines of a change that add.
fn fold_adds<L: Ledger>(
    folding: &mut Folding,
    adds: &[Added],
    steps: &mut Steps<L>,
) -> Result<(), OutOfMemory>
    requires { steps.old + length adds.now < 2 ^ 63 }
    ensures map { OnOk result ((entries : List Entry) → IsMapOf folding.old entries
        → IsMapOf folding.new (fold with_added entries adds.now)) }
    ensures few { steps.new ≤ steps.old + length adds.now }
    ensures counted { steps.old ≤ steps.new }
{
    for added in adds {
        folding.line(&FullHash { bytes: added.hash }, added.size, true, steps)?;
    }
    Ok(())
}

// Folds the lines of a change, where it is one of the list.
fn fold_change<L: Ledger>(
    folding: &mut Folding,
    list: ListName,
    change: &Change,
    steps: &mut Steps<L>,
) -> Result<(), OutOfMemory>
    requires { steps.old + (length change.now.adds + length change.now.removes) < 2 ^ 63 }
    ensures map { OnOk result ((entries : List Entry) → IsMapOf folding.old entries
        → IsMapOf folding.new (after_change list entries change.now)) }
    ensures few { steps.new ≤ steps.old + (length change.now.adds + length change.now.removes) }
    ensures counted { steps.old ≤ steps.new }
{
    if same(change.list, list) {
        fold_removes(folding, change.removes.as_slice(), steps)?;
        fold_adds(folding, change.adds.as_slice(), steps)?;
    }
    Ok(())
}

// Folds those of some changes that are of the list.
fn fold_changes<L: Ledger>(
    folding: &mut Folding,
    list: ListName,
    changes: &[Change],
    steps: &mut Steps<L>,
) -> Result<(), OutOfMemory>
    requires { steps.old + hash_lines changes.now < 2 ^ 63 }
    ensures map { OnOk result ((entries : List Entry) → IsMapOf folding.old entries
        → IsMapOf folding.new (fold (after_change list) entries changes.now)) }
    ensures few { steps.new ≤ steps.old + hash_lines changes.now }
    ensures counted { steps.old ≤ steps.new }
{
    for change in changes {
        fold_change(folding, list, change, steps)?;
    }
    Ok(())
}

// The map of some full hashes with their sizes.
fn folding_of(alloc: Global, entries: &[Added]) -> Result<Folding, OutOfMemory>
    ensures { IfOk result (λ folding. IsMapOf folding (fold with_added [] entries.now)) }
{
    let mut folding = Folding::new(alloc);
    for entry in entries {
        folding.put(entry.hash, entry.size)?;
    }
    Ok(folding)
}

// Folds the changes between two versions, counted from zero.
fn fold_anew<L: Ledger>(
    blank: Blank,
    folding: Folding,
    draft: &Draft,
    list: ListName,
    from: usize,
    to: usize,
) -> Result<Folding, OutOfMemory>
    requires name { blank.name ≡ L.name }
    requires parts { blank.parts ≡ L.parts }
    requires some { 0 < blank.parts }
    requires stem { IsStem draft.now }
    requires order { from ≤ to }
    requires within { to ≤ length draft.now.changes.items }
    ensures { IfOk result (λ later. IsMapOf folding (sizes_at (history_of draft.now) list from)
        → IsMapOf later (sizes_at (history_of draft.now) list to)) }
{
    let mut folding = folding;
    let mut steps = Steps::<L>::new(blank);
    let changes = &draft.changes.as_slice()[..to];
    fold_changes(&mut folding, list, &changes[from..], &mut steps)?;
    Ok(folding)
}

/// Folds the changes between two versions: the full hashes of a list at the one become those at the
/// other.
pub(crate) fn fold_on(
    folding: Folding,
    draft: &Draft,
    list: ListName,
    from: usize,
    to: usize,
) -> Result<Folding, OutOfMemory>
    requires stem { IsStem draft.now }
    requires order { from ≤ to }
    requires within { to ≤ length draft.now.changes.items }
    ensures { IfOk result (λ later. IsMapOf folding (sizes_at (history_of draft.now) list from)
        → IsMapOf later (sizes_at (history_of draft.now) list to)) }
{
    fold_anew::<Brand>(Blank::new(1), folding, draft, list, from, to)
}

/// The full hashes of a list at a version, with their sizes.
pub(crate) fn folding_at(
    alloc: Global,
    draft: &Draft,
    list: ListName,
    version: usize,
) -> Result<Folding, OutOfMemory>
    requires stem { IsStem draft.now }
    requires version { version ≤ length draft.now.changes.items }
    ensures { IfOk result (λ folding.
        IsMapOf folding (sizes_at (history_of draft.now) list version)) }
{
    let entries = entries_at(alloc, draft, list, version)?;
    folding_of(alloc, entries.as_slice())
}
