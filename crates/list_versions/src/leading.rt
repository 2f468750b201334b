ghost use Rattle.std.specs.Prelude.{◌≡◌, ◌+◌, ◌-◌, ◌≤◌, List, [], ◌∷◌, ◌++◌, length, map, take, All, IfOk, OnOk};
ghost use Rattle.sb_model.specs.Difference.{removed_places, added_members};
ghost use Rattle.sb_model.specs.History.{prefix_of, prefixes_at};
ghost use Rattle.sb_model.specs.Prefixes.{set_of};
ghost use Rattle.list_versions.specs.Draft.{history_of};
ghost use Rattle.list_versions.specs.Ends.{Line, unended};
ghost use Rattle.list_versions.specs.Leading.{count_before, gained_of, older_place};
ghost use Rattle.list_versions.specs.Live.{HasPlaced, IsPlaced, IsPublishable, shown};
ghost use Rattle.list_versions.specs.Loaded.{IsStem};

use crate::draft::Draft;
use crate::live::Live;
use crate::places::first_at;
use crate::published::{published_of, shown_prefix};
use crate::shifting::{Shift, is_published_first, shift_since};
use hash_prefixes::Prefix;
use prefix_set::{Delta, PrefixSet, sets_go_by_members};
use sb_model::{Added, ListName, OutOfMemory, Row};
use std::alloc::Global;

/// The set of some prefixes.
pub(crate) fn set_from(alloc: Global, prefixes: &[Prefix]) -> Result<PrefixSet, OutOfMemory>
    ensures { IfOk result (λ set. set ≡ set_of prefixes.now) }
{
    match PrefixSet::from_prefixes(alloc, prefixes) {
        Ok(set) => Ok(set),
        Err(_) => Err(OutOfMemory),
    }
}

// Appends what is published of a full hash that went, unless the newest set has it.
fn push_lost(lost: &mut Vec<Prefix>, newest: &PrefixSet, entry: &Added) -> Result<(), OutOfMemory>
    ensures { OnOk result (lost.new.items ≡ lost.old.items ++ added_members newest.now (shown entry.now ∷ [])) }
{
    let prefix = shown_prefix(entry);
    if !newest.contains(&prefix) {
        lost.push(prefix)?;
    }
    Ok(())
}

/// Appends what is published of full hashes that went, but for what the newest set has.
pub(crate) fn push_lost_of(
    lost: &mut Vec<Prefix>,
    newest: &PrefixSet,
    went: &[Added],
) -> Result<(), OutOfMemory>
    ensures { OnOk result (lost.new.items ≡ lost.old.items ++ added_members newest.now (map shown went.now)) }
{
    for entry in went {
        push_lost(lost, newest, entry)?;
    }
    Ok(())
}

// The prefixes of the full hashes that went which the newest set does not have.
fn lost_of(alloc: Global, newest: &PrefixSet, went: &[Added]) -> Result<PrefixSet, OutOfMemory>
    ensures { IfOk result (λ lost. lost ≡ set_of (added_members newest.now (map shown went.now))) }
{
    let mut lost = Vec::new(alloc);
    push_lost_of(&mut lost, newest, went)?;
    set_from(alloc, lost.as_slice())
}

// Appends what is published of a full hash that came, unless the older set has it.
fn push_gained(
    gained: &mut Vec<Prefix>,
    gone: &PrefixSet,
    live: &Live,
    count: usize,
    entry: &Added,
) -> Result<(), OutOfMemory>
    ensures { OnOk result (gained.new.items ≡ gained.old.items
        ++ gained_of live.now.buckets.entries count gone.now (shown entry.now ∷ [])) }
{
    let prefix = shown_prefix(entry);
    if !is_published_first(live, count, &prefix) && !gone.contains(&prefix) {
        gained.push(prefix)?;
    }
    Ok(())
}

// The prefixes of the full hashes that came which the older set does not have.
fn gained_by(
    alloc: Global,
    gone: &PrefixSet,
    live: &Live,
    count: usize,
    came: &[Added],
) -> Result<PrefixSet, OutOfMemory>
    ensures { IfOk result (λ gained. gained ≡ set_of (gained_of live.now.buckets.entries count gone.now (map shown came.now))) }
{
    let mut gained = Vec::new(alloc);
    for entry in came {
        push_gained(&mut gained, gone, live, count, entry)?;
    }
    set_from(alloc, gained.as_slice())
}

// How many members of a set come before a prefix.
fn rank_in(set: &PrefixSet, prefix: &Prefix) -> u32
    ensures count { result ≡ count_before set.now prefix.now }
    ensures few { result ≤ 1_048_576 }
{
    // looked at for the prover: the members rise, and they are not too many
    let _ = set.len();
    first_at(set, prefix)
}

// The place in the older set of the prefix that is the next of those which it alone has.
fn place_in_older(newest: &PrefixSet, gained: &PrefixSet, prefix: &Prefix, index: u32) -> u32
    requires { index ≤ 1_048_576 }
    ensures { result ≡ count_before newest.now prefix.now + index - count_before gained.now prefix.now }
{
    (rank_in(newest, prefix) + index).saturating_sub(rank_in(gained, prefix))
}

// The places in the older set of the prefixes which it alone has.
fn places_lost(
    alloc: Global,
    newest: &PrefixSet,
    lost: &PrefixSet,
    gained: &PrefixSet,
) -> Result<Row<u32>, OutOfMemory>
    ensures { IfOk result (λ places. places ≡ map (older_place newest.now lost.now gained.now) lost.now) }
{
    let mut places = Row::with_capacity(alloc, lost.len() as usize)?;
    for i in 0..lost.len() {
        places.push(place_in_older(newest, gained, &lost.at(i), i))?;
    }
    Ok(places)
}

// The members of a set, rising.
fn row_of(alloc: Global, set: &PrefixSet) -> Result<Row<Prefix>, OutOfMemory>
    ensures { IfOk result (λ row. row ≡ set.now) }
{
    let mut row = Row::with_capacity(alloc, set.len() as usize)?;
    for i in 0..set.len() {
        row.push(set.at(i))?;
    }
    Ok(row)
}

// The prefixes which the newest set alone has, by the full hashes that went and those that came.
fn gained_since(
    alloc: Global,
    live: &Live,
    count: usize,
    went: &[Added],
    came: &[Added],
) -> Result<PrefixSet, OutOfMemory>
    requires { All IsPublishable went.now }
    ensures { IfOk result (λ gained. gained
        ≡ set_of (gained_of live.now.buckets.entries count (set_of (map prefix_of went.now)) (map shown came.now))) }
{
    let gone = published_of(alloc, went)?;
    gained_by(alloc, &gone, live, count, came)
}

// What leads to the newest set from an older one, by what each of them alone has.
fn delta_of(
    alloc: Global,
    newest: &PrefixSet,
    lost: &PrefixSet,
    gained: &PrefixSet,
) -> Result<Delta, OutOfMemory>
    ensures removals { IfOk result (λ delta. delta.removals ≡ map (older_place newest.now lost.now gained.now) lost.now) }
    ensures additions { IfOk result (λ delta. delta.additions ≡ gained.now) }
{
    let removals = places_lost(alloc, newest, lost, gained)?;
    let additions = row_of(alloc, gained)?;
    Ok(Delta {
        removals,
        additions,
    })
}

// What leads to the newest set from an older one, by the full hashes that went and those that came. The first lines of the
// list that stand publish what both sets have.
fn led_by(
    alloc: Global,
    newest: &PrefixSet,
    live: &Live,
    count: usize,
    went: &[Added],
    came: &[Added],
) -> Result<Delta, OutOfMemory>
    requires went { All IsPublishable went.now }
    requires came { All IsPublishable came.now }
    ensures removals { IfOk result (λ delta. (lines : List Line) → IsPlaced live.now lines → All IsPublishable (unended (take count lines))
        → newest.now ≡ set_of (map prefix_of (unended (take count lines) ++ came.now))
        → delta.removals ≡ removed_places (set_of (map prefix_of (unended (take count lines) ++ went.now))) newest.now) }
    ensures additions { IfOk result (λ delta. (lines : List Line) → IsPlaced live.now lines → All IsPublishable (unended (take count lines))
        → newest.now ≡ set_of (map prefix_of (unended (take count lines) ++ came.now))
        → delta.additions ≡ added_members (set_of (map prefix_of (unended (take count lines) ++ went.now))) newest.now) }
{
    sets_go_by_members();
    let lost = lost_of(alloc, newest, went)?;
    let gained = gained_since(alloc, live, count, went, came)?;
    delta_of(alloc, newest, &lost, &gained)
}

/// What leads from the prefixes of a list at an earlier version to its newest ones. No set is made but of what lies between.
pub(crate) fn leading(
    alloc: Global,
    draft: &Draft,
    list: ListName,
    live: &Live,
    newest: &PrefixSet,
    version: usize,
) -> Result<Delta, OutOfMemory>
    requires stem { IsStem draft.now }
    requires version { version ≤ length draft.now.changes.items }
    requires placed { HasPlaced list draft.now.changes.items live.now }
    requires newest { newest.now ≡ prefixes_at (history_of draft.now) list (length draft.now.changes.items) }
    ensures removals { IfOk result (λ delta. delta.removals ≡ removed_places (prefixes_at (history_of draft.now) list version) newest.now) }
    ensures additions { IfOk result (λ delta. delta.additions ≡ added_members (prefixes_at (history_of draft.now) list version) newest.now) }
{
    sets_go_by_members();
    let changes = draft.changes.as_slice();
    let shift = shift_since(alloc, changes, list, live.ends.as_slice(), version)?;
    let Shift { went, came, count } = shift;
    led_by(alloc, newest, live, count, went.as_slice(), came.as_slice())
}
