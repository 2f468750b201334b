ghost use Rattle.std.specs.Prelude.{◌≡◌, ◌⊎◌, true, ℕ, ◌+◌, ◌^◌, ◌<◌, ◌≤◌, List, [], length, take, All, IfOk, OnOk, OnErr, slice_index_or};
ghost use Rattle.sb_model.specs.History.{after_change};
ghost use Rattle.sb_model.specs.declared.history.Added.{Added as Entry};
ghost use Rattle.sb_model.specs.declared.names.ListName.{ListName as Name};
ghost use Rattle.list_versions.specs.Draft.{declared_of, kept_of_draft, lines_after, IsDraft, KeepsFront};
ghost use Rattle.list_versions.specs.Ends.{Line, never};
ghost use Rattle.list_versions.specs.Folding.{after_changes, IsFoldable, StaysSmall};
ghost use Rattle.list_versions.specs.Limits.{hash_lines, most_changes, most_hash_lines};
ghost use Rattle.list_versions.specs.Live.{Holds, HasPlaced, HasRead, IsPlaced};
ghost use Rattle.list_versions.specs.Loaded.{IsStem};
ghost use Rattle.list_versions.specs.declared.draft.Listed.{Listed as List'};

use crate::draft::{Draft, Listed};
use crate::lists::same;
use crate::live::Live;
use sb_model::{Change, ListName, OutOfMemory};
use std::alloc::Global;

// Applies a change, which leads to a version, where it is one of the list.
fn apply_if(
    alloc: Global,
    live: &mut Live,
    list: ListName,
    change: &Change,
    version: u32,
) -> Result<(), OutOfMemory>
    requires sizes { All (λ added. 4 ≤ added.size) change.now.adds }
    requires version { version < never }
    ensures held { OnOk result ((entries : List Entry) → length entries < 2 ^ 32 → length change.now.adds < 2 ^ 32
        → Holds live.old entries → Holds live.new (after_change list entries change.now)) }
    ensures placed { OnOk result ((lines : List Line) → length lines + length change.now.adds < 2 ^ 32 → IsPlaced live.old lines
        → IsPlaced live.new (lines_after list version lines change.now)) }
{
    if same(change.list, list) {
        live.apply(
            alloc,
            change.removes.as_slice(),
            change.adds.as_slice(),
            version,
        )?;
    }
    Ok(())
}

// The lines of a list, and its full hashes, after these changes.
fn live_after(alloc: Global, changes: &[Change], list: ListName) -> Result<Live, OutOfMemory>
    requires changes { All IsFoldable changes.now }
    requires small { StaysSmall list changes.now }
    requires few_changes { length changes.now ≤ most_changes }
    requires few_lines { hash_lines changes.now ≤ most_hash_lines }
    ensures held { IfOk result (λ live. Holds live (after_changes list changes.now)) }
    ensures placed { IfOk result (HasPlaced list changes.now) }
{
    let mut live = Live::new(alloc);
    for (i, change) in changes.iter().enumerate() {
        apply_if(alloc, &mut live, list, change, i as u32 + 1)?;
    }
    Ok(live)
}

// Makes the tables of a list anew.
fn refresh_list(alloc: Global, listed: &mut Listed, changes: &[Change]) -> Result<(), OutOfMemory>
    requires changes { All IsFoldable changes.now }
    requires small { StaysSmall listed.old.name changes.now }
    requires few_changes { length changes.now ≤ most_changes }
    requires few_lines { hash_lines changes.now ≤ most_hash_lines }
    ensures name { listed.new.name ≡ listed.old.name }
    ensures size { listed.new.size ≡ listed.old.size }
    ensures held { OnOk result (Holds listed.new.live (after_changes listed.old.name changes.now)) }
    ensures placed { OnOk result (HasPlaced listed.old.name changes.now listed.new.live) }
    ensures same { OnErr result (listed.new ≡ listed.old) }
{
    listed.live = live_after(alloc, changes, listed.name)?;
    Ok(())
}

// Makes the tables of all lists anew.
fn refresh_lists(
    alloc: Global,
    lists: &mut Vec<Listed>,
    changes: &[Change],
) -> Result<(), OutOfMemory>
    requires changes { All IsFoldable changes.now }
    requires small { (list : Name) → StaysSmall list changes.now }
    requires few_changes { length changes.now ≤ most_changes }
    requires few_lines { hash_lines changes.now ≤ most_hash_lines }
    ensures names { declared_of lists.new.items ≡ declared_of lists.old.items }
    ensures held { OnOk result (All (λ list. Holds list.live (after_changes list.name changes.now)) lists.new.items) }
    ensures placed { OnOk result (All (λ list. HasPlaced list.name changes.now list.live) lists.new.items) }
    ensures read { All (λ list. HasRead list.name changes.now list.live) lists.old.items
        → All (λ list. HasRead list.name changes.now list.live) lists.new.items }
{
    for i in 0..lists.len() {
        refresh_list(alloc, &mut lists[i], changes)?;
    }
    Ok(())
}

/// Makes the tables of the newest full hashes anew. Where memory is refused the ends of all lines
/// stay right.
pub(crate) fn refresh(alloc: Global, draft: &mut Draft) -> Result<(), OutOfMemory>
    requires { IsStem draft.old }
    ensures draft { OnOk result (IsDraft draft.new) }
    ensures stem { IsStem draft.new }
    ensures same { (rest : List ℕ) → kept_of_draft draft.new rest ≡ kept_of_draft draft.old rest }
    ensures front { KeepsFront draft.old draft.new }
{
    refresh_lists(alloc, &mut draft.lists, draft.changes.as_slice())
}

/// Makes the tables of the newest full hashes anew where they are stale.
#[tactic(auto, using(crate::proofs::Keeping::keeps_stem))]
pub(crate) fn freshen(alloc: Global, draft: &mut Draft, stale: bool) -> Result<(), OutOfMemory>
    requires stem { IsStem draft.old }
    requires fresh { (stale ≡ true) ⊎ IsDraft draft.old }
    ensures draft { OnOk result (IsDraft draft.new) }
    ensures same { (rest : List ℕ) → kept_of_draft draft.new rest ≡ kept_of_draft draft.old rest }
    ensures front { KeepsFront draft.old draft.new }
{
    if stale {
        return refresh(alloc, draft);
    }
    Ok(())
}
