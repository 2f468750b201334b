ghost use Rattle.std.specs.Prelude.{◌≡◌, ◌==◌, ◌&&◌, ◌||◌, not, nat_lt, ℕ, ◌≤◌, List, ◌++◌, length, map, IfOk, OnOk};
ghost use Rattle.sb_model.specs.History.{sizes_at};
ghost use Rattle.list_versions.specs.Draft.{history_of};
ghost use Rattle.list_versions.specs.Ends.{Line, adds_of, has_standing, lasting, never};
ghost use Rattle.list_versions.specs.Loaded.{IsStem};

use crate::draft::Draft;
use crate::ends::NEVER;
use crate::lists::{adds_count, same};
use crate::lookup::live_of;
use sb_model::{Added, Change, ListName, OutOfMemory};
use std::alloc::Global;

/// Whether an end is above a version. It may be that of a line that has none, if these are endless.
pub(crate) fn is_above(end: u32, version: usize, endless: bool) -> bool
    ensures { result ≡ (nat_lt version end && (endless || not (end == never))) }
{
    end as usize > version && (endless || end != NEVER)
}

// Appends what those of some lines add whose end is above a version.
fn push_lasting(
    found: &mut Vec<Added>,
    adds: &[Added],
    ends: &[u32],
    version: usize,
    endless: bool,
) -> Result<(), OutOfMemory>
    requires { length ends.now ≡ length adds.now }
    ensures { OnOk result ((lines : List Line) → map (λ line. line.0) lines ≡ adds.now → map (λ line. line.1) lines ≡ ends.now
        → found.new.items ≡ found.old.items ++ lasting version endless lines) }
{
    for (i, added) in adds.iter().enumerate() {
        if is_above(ends[i], version, endless) {
            found.push(*added)?;
        }
    }
    Ok(())
}

/// What those lines of a list add, of these changes, whose end is above a version: those that have
/// no end with them, or without them. The ends are those of its lines.
pub(crate) fn lasting_in(
    alloc: Global,
    changes: &[Change],
    list: ListName,
    ends: &[u32],
    version: usize,
    endless: bool,
) -> Result<Vec<Added>, OutOfMemory>
    requires { length ends.now ≡ length (adds_of list changes.now) }
    ensures { IfOk result (λ found. (lines : List Line) → map (λ line. line.0) lines ≡ adds_of list changes.now
        → map (λ line. line.1) lines ≡ ends.now → found.items ≡ lasting version endless lines) }
{
    let mut found = Vec::new(alloc);
    let mut rest = ends;
    for change in changes {
        if same(change.list, list) {
            let (own, later) = rest.split_at(change.adds.len());
            push_lasting(&mut found, change.adds.as_slice(), own, version, endless)?;
            rest = later;
        }
    }
    Ok(found)
}

// Whether one of some lines has a full hash, and an end above a version.
fn has_lasting(adds: &[Added], ends: &[u32], version: usize, hash: &[u8; 32]) -> bool
    requires { length ends.now ≡ length adds.now }
    ensures { (lines : List Line) → map (λ line. line.0) lines ≡ adds.now → map (λ line. line.1) lines ≡ ends.now
        → result ≡ has_standing version hash.now lines }
{
    for (i, added) in adds.iter().enumerate() {
        if is_above(ends[i], version, true) && *hash == added.hash {
            return true;
        }
    }
    false
}

/// Whether a full hash stands at a version, by the lines of these changes and their ends. It takes no memory.
pub(crate) fn stands(
    changes: &[Change],
    list: ListName,
    ends: &[u32],
    version: usize,
    hash: &[u8; 32],
) -> bool
    requires { length ends.now ≡ length (adds_of list changes.now) }
    ensures { (lines : List Line) → map (λ line. line.0) lines ≡ adds_of list changes.now → map (λ line. line.1) lines ≡ ends.now
        → result ≡ has_standing version hash.now lines }
{
    let mut rest = ends;
    for change in changes {
        if same(change.list, list) {
            let (own, later) = rest.split_at(change.adds.len());
            if has_lasting(change.adds.as_slice(), own, version, hash) {
                return true;
            }
            rest = later;
        }
    }
    false
}

/// The full hashes of a list at a version, with their sizes, in the order in which they were put in.
pub(crate) fn entries_at(
    alloc: Global,
    draft: &Draft,
    list: ListName,
    version: usize,
) -> Result<Vec<Added>, OutOfMemory>
    requires stem { IsStem draft.now }
    requires version { version ≤ length draft.now.changes.items }
    ensures { IfOk result (λ found. found.items ≡ sizes_at (history_of draft.now) list version) }
{
    let Some(live) = live_of(draft.lists.as_slice(), list) else {
        return Ok(Vec::new(alloc));
    };
    let front = &draft.changes.as_slice()[..version];
    let count = adds_count(front, list);
    let found = lasting_in(alloc, front, list, &live.ends[..count], version, true)?;
    Ok(found)
}
