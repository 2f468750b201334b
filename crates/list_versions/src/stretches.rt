ghost use Rattle.std.specs.Prelude.{◌≡◌, ℕ, ◌==◌, ◌&&◌, ◌||◌, nat_le, ◌≤◌, false, List, length, map, take, All, IfOk, OnOk, IfSome, IfNone};
ghost use Rattle.std.specs.Int.{w32, to_be_bytes};
ghost use Rattle.std.specs.List.{list_all, list_any};
ghost use Rattle.std.specs.List.Sorted.{IsPermutation};
ghost use Rattle.sb_model.specs.History.{History, version_count};
ghost use Rattle.list_versions.specs.Draft.{history_of};
ghost use Rattle.list_versions.specs.Ends.{Line, adds_of};
ghost use Rattle.list_versions.specs.Limits.{most_changes};
ghost use Rattle.list_versions.specs.Loaded.{IsStem};
ghost use Rattle.list_versions.specs.Stretches.{AreInOrder, AreStretches, IsStretch, shows_at};
ghost use Rattle.list_versions.specs.Showing.{ShowLines, is_shown, publishes_four};

use crate::draft::Draft;
use crate::lists::same;
use crate::lookup::live_of;
use crate::stretch::Stretch;
use sb_model::{Added, Change, ListName, OutOfMemory};
use std::alloc::Global;

// Whether all of these are published with four bytes.
fn have_four_bytes(adds: &[Added]) -> bool
    ensures { result ≡ list_all (λ added. added.size == 4) adds.now }
{
    adds.iter().all(|added| added.size == 4)
}

// Whether a change is of another list, or publishes four bytes of each hash.
fn publishes_four_bytes(change: &Change, list: ListName) -> bool
    ensures { result ≡ publishes_four list change.now }
{
    !same(change.list, list) || have_four_bytes(change.adds.as_slice())
}

// Whether a list publishes four bytes of each hash, at all versions.
fn all_have_four_bytes(changes: &[Change], list: ListName) -> bool
    ensures { result ≡ list_all (publishes_four list) changes.now }
{
    changes
        .iter()
        .all(|change| publishes_four_bytes(change, list))
}

/// The first four bytes of a hash as a big-endian number.
pub(crate) fn head_of(hash: &[u8; 32]) -> u32
    ensures { to_be_bytes w32 result ≡ take 4 hash.now }
{
    u32::from_be_bytes([hash[0], hash[1], hash[2], hash[3]])
}

// Appends the stretches of the lines of a change, which leads to a version.
fn push_stretches(
    found: &mut Vec<Stretch>,
    adds: &[Added],
    ends: &[u32],
    from: u32,
) -> Result<(), OutOfMemory>
    requires { length ends.now ≡ length adds.now }
    ensures shown { OnOk result ((lines : List Line) → map (λ line. line.0) lines ≡ adds.now → map (λ line. line.1) lines ≡ ends.now
        → (version : ℕ) (prefix : List ℕ) → list_any (shows_at version prefix) found.new.items
        ≡ (list_any (shows_at version prefix) found.old.items || (nat_le from version && list_any (is_shown version prefix) lines))) }
    ensures each { OnOk result ((versions : History) → from ≤ version_count versions
        → All (IsStretch versions) found.old.items → All (IsStretch versions) found.new.items) }
{
    for (i, added) in adds.iter().enumerate() {
        let head = head_of(&added.hash);
        found.push(Stretch {
            head,
            from,
            until: ends[i],
        })?;
    }
    Ok(())
}

// The stretches of the lines of a list, in the order of the lines.
fn stretches_in(
    alloc: Global,
    changes: &[Change],
    list: ListName,
    ends: &[u32],
) -> Result<Vec<Stretch>, OutOfMemory>
    requires ends { length ends.now ≡ length (adds_of list changes.now) }
    requires few { length changes.now ≤ most_changes }
    ensures shown { IfOk result (λ found. (lines : List Line) → map (λ line. line.0) lines ≡ adds_of list changes.now
        → map (λ line. line.1) lines ≡ ends.now → ShowLines list changes.now lines found.items) }
    ensures each { IfOk result (λ found. (versions : History) → length changes.now ≤ version_count versions → All (IsStretch versions) found.items) }
{
    let mut found = Vec::with_capacity(alloc, ends.len())?;
    let mut rest = ends;
    for (i, change) in changes.iter().enumerate() {
        if same(change.list, list) {
            let (own, later) = rest.split_at(change.adds.len());
            push_stretches(&mut found, change.adds.as_slice(), own, i as u32 + 1)?;
            rest = later;
        }
    }
    Ok(found)
}

// Puts stretches into the order of their prefixes.
fn put_in_order(stretches: &mut Vec<Stretch>)
    ensures order { AreInOrder stretches.new.items }
    ensures moved { IsPermutation stretches.old.items stretches.new.items }
{
    stretches.sort_unstable();
}

/// At which versions a list publishes its prefixes. `None` if one of them has more than four bytes.
pub(crate) fn stretches_of(
    alloc: Global,
    draft: &Draft,
    list: ListName,
) -> Result<Option<Vec<Stretch>>, OutOfMemory>
    requires { IsStem draft.now }
    ensures some { IfOk result (λ found. IfSome found (λ stretches. AreStretches (history_of draft.now) list stretches.items)) }
    ensures none { IfOk result (λ found. IfNone found (list_all (λ added. added.size == 4) (adds_of list draft.now.changes.items) ≡ false)) }
{
    let changes = draft.changes.as_slice();
    if !all_have_four_bytes(changes, list) {
        return Ok(None);
    }
    let Some(live) = live_of(draft.lists.as_slice(), list) else {
        return Ok(Some(Vec::new(alloc)));
    };
    let mut found = stretches_in(alloc, changes, list, live.ends.as_slice())?;
    put_in_order(&mut found);
    Ok(Some(found))
}
