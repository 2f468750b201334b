ghost use Rattle.std.specs.Prelude.{◌≡◌, ℕ, ◌+◌, ◌^◌, ◌<◌, ◌≤◌, List, [], length, drop, All, IfOk, OnOk, IfSome, if◌then◌else◌};
ghost use Rattle.std.specs.Option.{unwrap_or};
ghost use Rattle.sb_model.specs.declared.history.Added.{Added as Entry};
ghost use Rattle.sb_model.specs.declared.history.Change.{Change as Recorded};
ghost use Rattle.sb_model.specs.History.{History, IsPrefixSize};
ghost use Rattle.sb_model.specs.Target.{target_version};
ghost use Rattle.delta_server.specs.Counts.{HaveHashesApart};
ghost use Rattle.delta_server.specs.Version.{Stands};
ghost use Rattle.delta_server.specs.Walk.{HasSizes, HaveSame, entries_after, may_take, changes_taken, published};

use crate::version::Version;
use prefix_set::{PrefixSet, sets_go_by_members};
use sb_model::{Added, Change, ListName, OutOfMemory};
use std::alloc::Global;

// How many changes are taken once one more was passed: that one and those before it, where the
// holder of the held set may be brought to the version after it.
fn taken_after(
    version: &Version<'_>,
    max_update: u32,
    max_database: u32,
    taken: u64,
    i: usize,
) -> u64
    requires { i < 2 ^ 63 }
    ensures taken { (entries : List Entry) → Stands version.now entries
        → result ≡ (if may_take version.now.holders.held.now max_update max_database (published entries) then i + 1 else taken) }
    ensures within { taken ≤ i → result ≤ i + 1 }
{
    if version.may_take(max_update, max_database) {
        return i as u64 + 1;
    }
    taken
}

// How many of the changes after a version are taken.
fn taken_from(
    version: &mut Version<'_>,
    list: ListName,
    changes: &[Change],
    max_update: u32,
    max_database: u32,
) -> Result<u64, OutOfMemory>
    requires { All HasSizes changes.now }
    ensures within { IfOk result (λ taken. taken ≤ length changes.now) }
    ensures taken { IfOk result (λ taken. (entries : List Entry) → Stands version.old entries
        → taken ≡ changes_taken list version.old.holders.held.now entries changes.now max_update max_database) }
{
    let mut taken = 0;
    for (i, change) in changes.iter().enumerate() {
        version.change(list, change)?;
        taken = taken_after(version, max_update, max_database, taken, i);
    }
    Ok(taken)
}

/// How many of the changes after some version a client is to take, who holds a set: as many as
/// lead to a set within the update limit and the database limit, 0 for no limit, and 0 where none
/// do. It goes through the changes once.
pub fn changes_taken(
    alloc: Global,
    list: ListName,
    held: &PrefixSet,
    entries: &[Added],
    changes: &[Change],
    max_update: u32,
    max_database: u32,
) -> Result<u64, OutOfMemory>
    requires apart { HaveHashesApart entries.now }
    requires sizes { All (λ added. IsPrefixSize added.size) entries.now }
    requires added { All HasSizes changes.now }
    ensures { IfOk result (λ taken. taken
        ≡ changes_taken list held.now entries.now changes.now max_update max_database) }
{
    let mut version = Version::start(alloc, held, entries)?;
    taken_from(&mut version, list, changes, max_update, max_database)
}

/// The version that a client is brought to, who holds a version of the list or none: the set of the
/// version that it holds and its full hashes, or the empty set and none. It goes through the changes
/// after that version once.
pub fn target_of(
    alloc: Global,
    list: ListName,
    from: Option<u64>,
    held: &PrefixSet,
    entries: &[Added],
    changes: &[Change],
    max_update: u32,
    max_database: u32,
) -> Result<u64, OutOfMemory>
    requires within { IfSome from (λ version. version ≤ length changes.now) }
    requires held { held.now ≡ published entries.now }
    requires apart { HaveHashesApart entries.now }
    requires sizes { All (λ added. IsPrefixSize added.size) entries.now }
    requires same { HaveSame entries.now (entries_after list [] changes.now (unwrap_or from 0)) }
    requires added { All HasSizes changes.now }
    ensures { IfOk result (λ version. (history : History) → history.changes ≡ changes.now
        → version ≡ target_version history list from max_update max_database) }
{
    sets_go_by_members();
    let first = from.unwrap_or(0) as usize;
    let nothing = PrefixSet::empty(alloc);
    let alone = Version::start(alloc, &nothing, entries)?;
    let mut version = alone.beside(held);
    let taken = taken_from(
        &mut version,
        list,
        &changes[first..],
        max_update,
        max_database,
    )?;
    Ok(first as u64 + taken)
}
