ghost use Rattle.std.specs.Prelude.{◌≡◌, ◌≢◌, ℕ, ◌<◌, ◌≤◌, true, false, length, map, All, IfOk, slice_index_or};
ghost use Rattle.sb_model.specs.declared.names.ListName.{ListName as Name};
ghost use Rattle.list_versions.specs.Draft.{history_of, IsDraft};
ghost use Rattle.list_versions.specs.Loaded.{IsNewest};
ghost use Rattle.list_versions.specs.Numbers.{AreNumbersOf};
ghost use Rattle.list_versions.specs.Renewing.{WasNewest, concerns, stays};
ghost use Rattle.sb_model.specs.History.{prefixes_at};
ghost use Rattle.list_versions.specs.declared.draft.Listed.{Listed as List'};
ghost use Rattle.list_versions.specs.declared.newest.Newest.{Newest as Ready};

use crate::draft::{Draft, Listed};
use crate::lists::same;
use crate::newest::{Newest, Numbered};
use crate::numbers::numbers_of;
use crate::published::published_set;
use crate::shifting::{is_near, newer_set};
use prefix_set::PrefixSet;
use sb_model::{Change, ListName, OutOfMemory};
use std::alloc::Global;
use std::mem;

/// How many lists and changes a history had before it grew.
#[derive(Clone, Copy, Debug)]
pub(crate) struct Before {
    pub lists: usize,
    pub changes: usize,
}

// Whether one of the changes is of the list.
fn is_concerned(changes: &[Change], list: ListName) -> bool
    ensures { result ≡ concerns changes.now list }
{
    changes.iter().any(|change| same(change.list, list))
}

// Whether the newest set of the list at a place stays.
fn is_kept(changes: &[Change], before: Before, i: usize, list: ListName) -> bool
    requires { before.changes ≤ length changes.now }
    ensures { result ≡ stays changes.now before i list }
{
    i < before.lists && !is_concerned(&changes[before.changes..], list)
}

// The newest prefixes of a list with their numbers: those that it had before, changed by what came, or else all anew.
fn newest_set(
    alloc: Global,
    draft: &Draft,
    before: Before,
    old: &[Newest],
    i: usize,
) -> Result<Numbered, OutOfMemory>
    requires draft { IsDraft draft.now }
    requires within { i < length draft.now.lists.items }
    requires before { before.changes ≤ length draft.now.changes.items }
    requires old { (k : ℕ) (list : List') (d : Ready) → k < length old.now → WasNewest draft.now before (slice_index_or draft.now.lists.items k list) (slice_index_or old.now k d) }
    ensures set { IfOk result (λ found. (list : List') → found.set ≡ prefixes_at (history_of draft.now) (slice_index_or draft.now.lists.items i list).name (length draft.now.changes.items)) }
    ensures numbers { IfOk result (λ found. AreNumbersOf found.set found.numbers.items) }
{
    let listed = &draft.lists[i];
    if i < old.len() && is_near(draft.changes.as_slice(), before.changes) {
        return newer_set(
            alloc,
            draft,
            listed.name,
            &listed.live,
            &old[i],
            before.changes,
        );
    }
    let set = published_set(alloc, &listed.live)?;
    let numbers = numbers_of(alloc, &set)?;
    Ok(Numbered { set, numbers })
}

// The newest set of a list that is made anew, and else an empty set.
fn renewed(
    alloc: Global,
    draft: &Draft,
    before: Before,
    old: &[Newest],
    i: usize,
) -> Result<Newest, OutOfMemory>
    requires draft { IsDraft draft.now }
    requires within { i < length draft.now.lists.items }
    requires before { before.changes ≤ length draft.now.changes.items }
    requires old { (k : ℕ) (list : List') (d : Ready) → k < length old.now → WasNewest draft.now before (slice_index_or draft.now.lists.items k list) (slice_index_or old.now k d) }
    ensures name { IfOk result (λ newest. (list : List') → newest.name ≡ (slice_index_or draft.now.lists.items i list).name) }
    ensures newest { IfOk result (λ newest. (stays draft.now.changes.items before i newest.name ≡ false) → IsNewest (history_of draft.now) newest) }
{
    let name = draft.lists[i].name;
    if is_kept(draft.changes.as_slice(), before, i, name) {
        return Ok(Newest {
            name,
            set: PrefixSet::empty(alloc),
            digest: [0; 32],
            numbers: Vec::new(alloc),
        });
    }
    let Numbered { set, numbers } = newest_set(alloc, draft, before, old, i)?;
    let digest = set.digest();
    Ok(Newest {
        name,
        set,
        digest,
        numbers,
    })
}

/// The newest sets of all lists, by those that they had before. Those that stay are empty here.
pub(crate) fn renew(
    alloc: Global,
    draft: &Draft,
    before: Before,
    old: &[Newest],
) -> Result<Vec<Newest>, OutOfMemory>
    requires draft { IsDraft draft.now }
    requires before { before.changes ≤ length draft.now.changes.items }
    requires old { (k : ℕ) (list : List') (d : Ready) → k < length old.now → WasNewest draft.now before (slice_index_or draft.now.lists.items k list) (slice_index_or old.now k d) }
    ensures names { IfOk result (λ newest. map (λ newest. newest.name) newest.items ≡ map (λ listed. listed.name) draft.now.lists.items) }
    ensures newest { IfOk result (λ newest. (k : ℕ) (d : Ready) → k < length newest.items
        → stays draft.now.changes.items before k (slice_index_or newest.items k d).name ≡ false
        → IsNewest (history_of draft.now) (slice_index_or newest.items k d)) }
{
    let mut newest = Vec::with_capacity(alloc, draft.lists.len())?;
    for i in 0..draft.lists.len() {
        newest.push(renewed(alloc, draft, before, old, i)?)?;
    }
    Ok(newest)
}

// Takes the set at a place from those before, if it stays.
fn keep_at(
    changes: &[Change],
    before: Before,
    newest: &mut Vec<Newest>,
    old: &mut Vec<Newest>,
    i: usize,
)
    requires before { before.changes ≤ length changes.now }
    requires new { i < length newest.old.items }
    requires old { i < length old.old.items }
    ensures long { length newest.new.items ≡ length newest.old.items }
    ensures short { length old.new.items ≡ length old.old.items }
    ensures others { (k : ℕ) (d : Ready) → k ≢ i → slice_index_or newest.new.items k d ≡ slice_index_or newest.old.items k d }
    ensures left { (k : ℕ) (d : Ready) → k ≢ i → slice_index_or old.new.items k d ≡ slice_index_or old.old.items k d }
    ensures kept { (d : Ready) → stays changes.now before i (slice_index_or old.old.items i d).name ≡ true
        → slice_index_or newest.new.items i d ≡ slice_index_or old.old.items i d }
    ensures renewed { (d : Ready) → stays changes.now before i (slice_index_or old.old.items i d).name ≡ false
        → slice_index_or newest.new.items i d ≡ slice_index_or newest.old.items i d }
{
    let name = old[i].name;
    if is_kept(changes, before, i, name) {
        mem::swap(&mut newest[i], &mut old[i]);
    }
}

/// Takes the sets that stay from those before.
pub(crate) fn take_kept(
    changes: &[Change],
    before: Before,
    newest: &mut Vec<Newest>,
    old: &mut Vec<Newest>,
)
    requires before { before.changes ≤ length changes.now }
    requires more { length old.old.items ≤ length newest.old.items }
    ensures long { length newest.new.items ≡ length newest.old.items }
    ensures others { (k : ℕ) (d : Ready) → length old.old.items ≤ k → slice_index_or newest.new.items k d ≡ slice_index_or newest.old.items k d }
    ensures kept { (k : ℕ) (d : Ready) → k < length old.old.items → stays changes.now before k (slice_index_or old.old.items k d).name ≡ true
        → slice_index_or newest.new.items k d ≡ slice_index_or old.old.items k d }
    ensures renewed { (k : ℕ) (d : Ready) → k < length old.old.items → stays changes.now before k (slice_index_or old.old.items k d).name ≡ false
        → slice_index_or newest.new.items k d ≡ slice_index_or newest.old.items k d }
{
    for i in 0..old.len() {
        keep_at(changes, before, newest, old, i);
    }
}
