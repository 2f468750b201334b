ghost use Rattle.std.specs.Prelude.{◌≡◌, ◌⊎◌, ℕ, ◌+◌, ◌<◌, ◌≤◌, false, List, ◌++◌, length, map, take, drop, slice_get, All, Contains, Some, IfOk, OnOk};
ghost use Rattle.sb_model.specs.History.{prefix_of, prefixes_at};
ghost use Rattle.list_versions.specs.Draft.{history_of};
ghost use Rattle.sb_model.specs.Prefixes.{set_of};
ghost use Rattle.list_versions.specs.Ends.{Line, adds_of, lasting, unended};
ghost use Rattle.list_versions.specs.Limits.{hash_lines, most_hash_lines};
ghost use Rattle.list_versions.specs.Live.{HasPlaced, IsPlaced, IsPublishable, lines_in};
ghost use Rattle.list_versions.specs.Loaded.{IsStem};
ghost use Rattle.list_versions.specs.Numbers.{AreNumbersOf};
ghost use Rattle.list_versions.specs.Shifting.{AreGoing, Goes, is_published};

use crate::bucket::published;
use crate::buckets::lines_at;
use crate::draft::Draft;
use crate::ends::NEVER;
use crate::lists::adds_count;
use crate::live::Live;
use crate::lookup::head_of;
use crate::newest::{Newest, Numbered};
use crate::places::place_of;
use crate::published::{prefixes_in, shown_prefix};
use crate::renumbering::renumbered;
use crate::standing::lasting_in;
use hash_prefixes::Prefix;
use prefix_set::{PrefixSet, sets_go_by_members};
use sb_model::{Added, Change, ListName, OutOfMemory};
use std::alloc::Global;

/// So many lines after a version are few, however many there are before it.
const FEW: usize = 1_024;

/// More lines than this are many, however many there are before them.
const MANY: usize = 65_536;

/// The lines after a version are few if there are so many times as many before it.
const SHARE: usize = 16;

/// What a list lost and gained since a version, and how many of its lines the changes up to the
/// version have.
#[derive(Drop)]
pub(crate) struct Shift {
    pub went: Vec<Added>,
    pub came: Vec<Added>,
    pub count: usize,
}

/// What a list lost and gained since a version. The ends are those of its lines.
pub(crate) fn shift_since(
    alloc: Global,
    changes: &[Change],
    list: ListName,
    ends: &[u32],
    version: usize,
) -> Result<Shift, OutOfMemory>
    requires version { version ≤ length changes.now }
    requires ends { length ends.now ≡ length (adds_of list changes.now) }
    requires few { hash_lines changes.now ≤ most_hash_lines }
    ensures count { IfOk result (λ shift. shift.count ≡ length (adds_of list (take version changes.now))) }
    ensures went { IfOk result (λ shift. (lines : List Line) → map (λ line. line.0) lines ≡ adds_of list changes.now
        → map (λ line. line.1) lines ≡ ends.now → shift.went.items ≡ lasting version false (take shift.count lines)) }
    ensures came { IfOk result (λ shift. (lines : List Line) → map (λ line. line.0) lines ≡ adds_of list changes.now
        → map (λ line. line.1) lines ≡ ends.now → shift.came.items ≡ unended (drop shift.count lines)) }
{
    let (before, after) = changes.split_at(version);
    let count = adds_count(before, list);
    let (first, last) = ends.split_at(count);
    let went = lasting_in(alloc, before, list, first, version, false)?;
    let came = lasting_in(alloc, after, list, last, NEVER as usize - 1, true)?;
    Ok(Shift { went, came, count })
}

/// Whether one of the first lines of a list that stand publishes a prefix.
pub(crate) fn is_published_first(live: &Live, count: usize, prefix: &Prefix) -> bool
    ensures { result ≡ is_published count (lines_in live.now.buckets.entries (take 4 prefix.now)) prefix.now }
{
    lines_at(&live.buckets, &head_of(prefix)).iter().any(|line| (line.place as usize) < count
        && published(&line.added) == prefix.as_bytes())
}

// The place of what is published of a full hash that leaves, unless one of the first lines publishes
// it too.
fn push_place(
    places: &mut Vec<u32>,
    set: &PrefixSet,
    live: &Live,
    count: usize,
    entry: &Added,
) -> Result<(), OutOfMemory>
    requires { IsPublishable entry.now }
    ensures { OnOk result (Goes set.now live.now.buckets.entries count (prefix_of entry.now) places.old.items places.new.items) }
{
    let prefix = shown_prefix(entry);
    if is_published_first(live, count, &prefix) {
        return Ok(());
    }
    if let Some(place) = place_of(set, &prefix) {
        places.push(place)?;
    }
    Ok(())
}

// The places of what leaves a set.
fn places_of(
    alloc: Global,
    set: &PrefixSet,
    live: &Live,
    count: usize,
    leaving: &[Added],
) -> Result<Vec<u32>, OutOfMemory>
    requires { All IsPublishable leaving.now }
    ensures { IfOk result (λ places. AreGoing set.now live.now.buckets.entries count (map prefix_of leaving.now) places.items) }
{
    let mut places = Vec::new(alloc);
    for entry in leaving {
        push_place(&mut places, set, live, count, entry)?;
    }
    Ok(places)
}

/// A set without what leaves and with what comes. The first lines of the list that stand publish
/// what stays.
pub(crate) fn shifted(
    alloc: Global,
    set: &PrefixSet,
    live: &Live,
    count: usize,
    leaving: &[Added],
    coming: &[Added],
) -> Result<PrefixSet, OutOfMemory>
    requires leaving { All IsPublishable leaving.now }
    requires coming { All IsPublishable coming.now }
    ensures { IfOk result (λ next. (lines : List Line) → IsPlaced live.now lines → All IsPublishable (unended (take count lines))
        → set.now ≡ set_of (map prefix_of (unended (take count lines) ++ leaving.now))
        → next ≡ set_of (map prefix_of (unended (take count lines) ++ coming.now))) }
{
    sets_go_by_members();
    let removals = places_of(alloc, set, live, count, leaving)?;
    let additions = prefixes_in(alloc, coming)?;
    match set.apply(alloc, removals.as_slice(), additions.as_slice()) {
        Ok(next) => Ok(next),
        Err(_) => Err(OutOfMemory),
    }
}

// How many hash lines some changes have.
fn lines_of(changes: &[Change]) -> usize {
    let mut lines = 0usize;
    for change in changes {
        lines = lines
            .saturating_add(change.adds.len())
            .saturating_add(change.removes.len());
    }
    lines
}

/// Whether the changes after a version have so few lines that a set is changed sooner than made anew.
pub(crate) fn is_near(changes: &[Change], version: usize) -> bool
    requires { version ≤ length changes.now }
{
    let (before, after) = changes.split_at(version);
    let lines = lines_of(after);
    lines <= FEW || (lines <= MANY && lines <= lines_of(before) / SHARE)
}

/// The prefixes of a list at an earlier version, of its newest ones.
pub(crate) fn older_set(
    alloc: Global,
    draft: &Draft,
    list: ListName,
    live: &Live,
    newest: &PrefixSet,
    version: usize,
) -> Result<PrefixSet, OutOfMemory>
    requires stem { IsStem draft.now }
    requires version { version ≤ length draft.now.changes.items }
    requires placed { HasPlaced list draft.now.changes.items live.now }
    requires newest { newest.now ≡ prefixes_at (history_of draft.now) list (length draft.now.changes.items) }
    ensures { IfOk result (λ set. set ≡ prefixes_at (history_of draft.now) list version) }
{
    sets_go_by_members();
    let changes = draft.changes.as_slice();
    let shift = shift_since(alloc, changes, list, live.ends.as_slice(), version)?;
    let Shift { went, came, count } = shift;
    shifted(alloc, newest, live, count, came.as_slice(), went.as_slice())
}

/// The newest prefixes of a list with their numbers, of those at an earlier version.
pub(crate) fn newer_set(
    alloc: Global,
    draft: &Draft,
    list: ListName,
    live: &Live,
    older: &Newest,
    version: usize,
) -> Result<Numbered, OutOfMemory>
    requires stem { IsStem draft.now }
    requires version { version ≤ length draft.now.changes.items }
    requires placed { HasPlaced list draft.now.changes.items live.now }
    requires older { older.now.set ≡ prefixes_at (history_of draft.now) list version }
    requires numbers { AreNumbersOf older.now.set older.now.numbers.items }
    ensures set { IfOk result (λ newer. newer.set ≡ prefixes_at (history_of draft.now) list (length draft.now.changes.items)) }
    ensures numbers { IfOk result (λ newer. AreNumbersOf newer.set newer.numbers.items) }
{
    sets_go_by_members();
    let changes = draft.changes.as_slice();
    let shift = shift_since(alloc, changes, list, live.ends.as_slice(), version)?;
    let Shift { went, came, count } = shift;
    let went = went.as_slice();
    let came = came.as_slice();
    let set = shifted(alloc, &older.set, live, count, went, came)?;
    let held = older.numbers.as_slice();
    let numbers = renumbered(alloc, held, &older.set, &set, went, came)?;
    Ok(Numbered { set, numbers })
}
