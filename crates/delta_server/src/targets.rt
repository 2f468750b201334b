ghost use Rattle.std.specs.Prelude.{◌≡◌, ◌==◌, ◌||◌, ℕ, ◌-◌, ◌^◌, ◌≤◌, nat_le, min, max, drop, sum_by, true, Some, None, IfOk, OnOk, IfSome};
ghost use Rattle.std.specs.Option.{unwrap_or};
ghost use Rattle.sb_model.specs.declared.names.ListName.{ListName as Name};
ghost use Rattle.sb_model.specs.History.{History as Versions, declares, version_count, sizes_at, prefixes_at};
ghost use Rattle.sb_model.specs.Target.{target_version};
ghost use Rattle.list_versions.specs.Stretches.{AreStretches};
ghost use Rattle.delta_server.specs.Counts.{HaveHashesApart};
ghost use Rattle.delta_server.specs.Served.{LeadsToNewest};
ghost use Rattle.delta_server.specs.Swept.{AreOf};
ghost use Rattle.delta_server.specs.Walk.{HaveSame, hash_lines_in};

use crate::served::{served_list, set_at};
use crate::sweeping::versions_taken;
use crate::swept::Swept;
use crate::version::is_within;
use crate::walk::target_of;
use list_versions::{History, Stretch};
use prefix_set::{Delta, PrefixSet, sets_go_by_members};
use sb_model::{Added, Change, ListName, OutOfMemory, targets_are_the_greatest};
use std::alloc::Global;

// So many hash lines are few: what they lead to is looked at first.
const FEW_LINES: u32 = 65_536;

/// The most prefixes that a client takes, 0 for no limit.
#[derive(Clone, Copy)]
pub(crate) struct Limits {
    /// In an update.
    pub(crate) update: u32,
    /// In a set.
    pub(crate) database: u32,
}

// How many hash lines the changes of a list have, at most the greatest u64.
fn lines_of(list: ListName, changes: &[Change]) -> u64
    ensures { result ≡ min (sum_by (hash_lines_in list) changes.now) (2 ^ 64 - 1) }
{
    let mut lines: u64 = 0;
    for change in changes {
        if change.list == list {
            lines = lines.saturating_add(change.adds.len() as u64);
            lines = lines.saturating_add(change.removes.len() as u64);
        }
    }
    lines
}

// Whether what leads from a version to the newest is looked at before the list is swept: if there is
// no update limit, or the changes of the list after that version have no more lines than the limit,
// or few.
fn is_told_by_lines(history: &History, list: ListName, held: u64, max_update: u32) -> bool
    requires { held ≤ version_count history.now.versions }
    ensures { result ≡ (max_update == 0
        || nat_le (min (sum_by (hash_lines_in list) (drop held history.now.versions.changes)) (2 ^ 64 - 1)) (max max_update FEW_LINES)) }
{
    if max_update == 0 {
        return true;
    }
    let after = &history.changes()[held as usize..];
    lines_of(list, after) <= u64::from(max_update.max(FEW_LINES))
}

/// What leads from a version of a declared list to the newest, if one who holds the version is
/// brought there and few lines or the limits tell it.
pub(crate) fn newest_delta(
    alloc: Global,
    history: &History,
    list: ListName,
    newest: &PrefixSet,
    held: u64,
    limits: Limits,
) -> Result<Option<Delta>, OutOfMemory>
    requires declared { declares history.now.versions list ≡ true }
    requires within { held ≤ version_count history.now.versions }
    requires newest { newest.now ≡ prefixes_at history.now.versions list (version_count history.now.versions) }
    ensures delta { IfOk result (λ found. IfSome found (LeadsToNewest history.now.versions list held)) }
    ensures target { IfOk result (λ found. IfSome found (λ delta.
        target_version history.now.versions list (Some held) limits.update limits.database ≡ version_count history.now.versions)) }
{
    targets_are_the_greatest();
    if !is_within(limits.database, u64::from(newest.len()))
        || !is_told_by_lines(history, list, held, limits.update)
    {
        return Ok(None);
    }
    let delta = history.difference(alloc, list, held)?;
    let count = delta.removals.len() as u64 + delta.additions.len() as u64;
    if is_within(limits.update, count) {
        return Ok(Some(delta));
    }
    Ok(None)
}

// The full hashes of a list at a version with their sizes, in no order. The map that they are read
// from is let go.
fn entries_at(
    alloc: Global,
    history: &History,
    list: ListName,
    version: u64,
) -> Result<Vec<Added>, OutOfMemory>
    requires { version ≤ version_count history.now.versions }
    ensures same { IfOk result (λ entries. HaveSame entries.items (sizes_at history.now.versions list version)) }
    ensures apart { IfOk result (λ entries. HaveHashesApart entries.items) }
{
    let folding = history.folding(alloc, list, version)?;
    folding.entries(alloc)
}

// The version of a list that a client is brought to, told by a walk through the changes after the
// version that it holds, or after version 0. `held` is the set of that version.
fn walked_target(
    alloc: Global,
    history: &History,
    list: ListName,
    from: Option<u64>,
    held: &PrefixSet,
    limits: Limits,
) -> Result<u64, OutOfMemory>
    requires within { IfSome from (λ version. version ≤ version_count history.now.versions) }
    requires held { held.now ≡ prefixes_at history.now.versions list (unwrap_or from 0) }
    ensures target { IfOk result (λ version. version
        ≡ target_version history.now.versions list from limits.update limits.database) }
    ensures within { IfOk result (λ version. version ≤ version_count history.now.versions) }
{
    sets_go_by_members();
    targets_are_the_greatest();
    // looked at for the prover: what holds of each history that was read
    let _ = history.len();
    let entries = entries_at(alloc, history, list, from.unwrap_or(0))?;
    target_of(
        alloc,
        list,
        from,
        held,
        &entries,
        history.changes(),
        limits.update,
        limits.database,
    )
}

// The version of a list that a client is brought to, told by the stretches of the list.
fn swept_target(
    alloc: Global,
    history: &History,
    list: ListName,
    stretches: &[Stretch],
    from: Option<u64>,
    limits: Limits,
) -> Result<u64, OutOfMemory>
    requires stretches { AreStretches history.now.versions list stretches.now }
    requires within { IfSome from (λ version. version ≤ version_count history.now.versions) }
    ensures target { IfOk result (λ version. version
        ≡ target_version history.now.versions list from limits.update limits.database) }
    ensures within { IfOk result (λ version. version ≤ version_count history.now.versions) }
{
    sets_go_by_members();
    targets_are_the_greatest();
    let first = from.unwrap_or(0);
    let end = history.len() + 1;
    let taken = versions_taken(
        alloc,
        stretches,
        first as u32,
        end as u32,
        limits.update,
        limits.database,
    )?;
    Ok(first + taken)
}

// The set of a declared list that a client holds, who holds a version of it or none.
fn held_set(
    alloc: Global,
    history: &History,
    list: ListName,
    from: Option<u64>,
) -> Result<PrefixSet, OutOfMemory>
    requires declared { declares history.now.versions list ≡ true }
    requires within { IfSome from (λ version. version ≤ version_count history.now.versions) }
    ensures { IfOk result (λ set. set ≡ prefixes_at history.now.versions list (unwrap_or from 0)) }
{
    match from {
        None => Ok(PrefixSet::empty(alloc)),
        Some(version) => set_at(alloc, history, list, version),
    }
}

/// The version of a declared list that a client is brought to, who holds a version of it or none,
/// told by the stretches of the list, which are kept, or by its changes if it has prefixes of other
/// sizes.
pub(crate) fn older_target(
    alloc: Global,
    history: &History,
    swept: &mut Swept,
    list: ListName,
    from: Option<u64>,
    limits: Limits,
) -> Result<u64, OutOfMemory>
    requires declared { declares history.now.versions list ≡ true }
    requires within { IfSome from (λ version. version ≤ version_count history.now.versions) }
    requires swept { AreOf history.now.versions swept.old }
    ensures target { IfOk result (λ version. version
        ≡ target_version history.now.versions list from limits.update limits.database) }
    ensures within { IfOk result (λ version. version ≤ version_count history.now.versions) }
    ensures swept { OnOk result (AreOf history.now.versions swept.new) }
{
    if let Some(stretches) = swept.find(list) {
        return swept_target(alloc, history, list, stretches, from, limits);
    }
    match history.stretches(alloc, list)? {
        Some(stretches) => {
            let version = swept_target(alloc, history, list, &stretches, from, limits)?;
            swept.keep(list, stretches)?;
            Ok(version)
        }
        None => {
            let held = held_set(alloc, history, list, from)?;
            walked_target(alloc, history, list, from, &held, limits)
        }
    }
}

/// Whether one who holds no version is brought to the newest.
pub(crate) fn takes_whole(newest: &PrefixSet, limits: Limits) -> bool
    ensures { result ≡ true → (versions : Versions) (list : Name)
        → newest.now ≡ prefixes_at versions list (version_count versions)
        → target_version versions list None limits.update limits.database ≡ version_count versions }
{
    targets_are_the_greatest();
    let count = u64::from(newest.len());
    is_within(limits.update, count) && is_within(limits.database, count)
}

/// The version of a declared list that one is brought to who holds none.
pub(crate) fn whole_target(
    alloc: Global,
    history: &History,
    swept: &mut Swept,
    list: ListName,
    newest: &PrefixSet,
    limits: Limits,
) -> Result<u64, OutOfMemory>
    requires declared { declares history.now.versions list ≡ true }
    requires newest { newest.now ≡ prefixes_at history.now.versions list (version_count history.now.versions) }
    requires swept { AreOf history.now.versions swept.old }
    ensures target { IfOk result (λ version. version
        ≡ target_version history.now.versions list None limits.update limits.database) }
    ensures within { IfOk result (λ version. version ≤ version_count history.now.versions) }
    ensures swept { OnOk result (AreOf history.now.versions swept.new) }
{
    if takes_whole(newest, limits) {
        return Ok(history.len());
    }
    older_target(alloc, history, swept, list, None, limits)
}

// Whether one who holds a version or none is told to be brought to the newest before the list is
// swept.
fn takes_newest(
    alloc: Global,
    history: &History,
    list: ListName,
    newest: &PrefixSet,
    from: Option<u64>,
    limits: Limits,
) -> Result<bool, OutOfMemory>
    requires declared { declares history.now.versions list ≡ true }
    requires within { IfSome from (λ version. version ≤ version_count history.now.versions) }
    requires newest { newest.now ≡ prefixes_at history.now.versions list (version_count history.now.versions) }
    ensures takes { IfOk result (λ takes. takes ≡ true
        → target_version history.now.versions list from limits.update limits.database ≡ version_count history.now.versions) }
{
    match from {
        None => Ok(takes_whole(newest, limits)),
        Some(held) => Ok(newest_delta(alloc, history, list, newest, held, limits)?.is_some()),
    }
}

/// The version of a declared list that a client is brought to, who holds a version of it or none:
/// the greatest that differs in at most `max_update` prefixes from what it holds and has at most
/// `max_database`, where 0 is no limit. One who holds a version may stay there.
pub fn target(
    alloc: Global,
    history: &History,
    list: ListName,
    from: Option<u64>,
    max_update: u32,
    max_database: u32,
) -> Result<u64, OutOfMemory>
    requires declared { declares history.now.versions list ≡ true }
    requires within { IfSome from (λ version. version ≤ version_count history.now.versions) }
    ensures { IfOk result (λ version. version
        ≡ target_version history.now.versions list from max_update max_database) }
{
    let Some(served) = served_list(history, list) else {
        unreachable!()
    };
    let limits = Limits {
        update: max_update,
        database: max_database,
    };
    if takes_newest(alloc, history, list, served.set, from, limits)? {
        return Ok(history.len());
    }
    let mut swept = Swept::new(alloc);
    older_target(alloc, history, &mut swept, list, from, limits)
}
