ghost use Rattle.std.specs.Prelude.{◌≡◌, ℕ, ◌+◌, ◌^◌, ◌<◌, ◌≤◌, min, List, true, length, All, Option, option_map, find, IfOk, OnOk, slice_index_or};
ghost use Rattle.sb_model.specs.Names.{same_name};
ghost use Rattle.sb_model.specs.History.{after_change};
ghost use Rattle.sb_model.specs.declared.history.Added.{Added as Entry};
ghost use Rattle.sb_model.specs.declared.names.ListName.{ListName as Name};
ghost use Rattle.list_versions.specs.declared.draft.Listed.{Listed as List'};
ghost use Rattle.list_versions.specs.Draft.{declared_of, lines_after, AppliesLines, AreRestored};
ghost use Rattle.list_versions.specs.Ends.{Line, adds_of, most_lines, never, restored};
ghost use Rattle.std.specs.List.{list_any};
ghost use Rattle.list_versions.specs.Limits.{IsUncrowded, limit_fault_at};
ghost use Rattle.list_versions.specs.Live.{Holds, IsPlaced, KeepsEnds};

use crate::JournalFault;
use crate::draft::Listed;
use sb_model::{Change, ListName, OutOfMemory, Row};
use std::alloc::Global;

/// Whether two names are the same.
pub(crate) fn same(first: ListName, second: ListName) -> bool
    ensures { result ≡ same_name first second }
{
    first == second
}

/// Whether a list is declared.
pub(crate) fn is_declared(lists: &[Listed], name: ListName) -> bool
    ensures { result ≡ list_any (λ list. same_name list.name name) lists.now }
{
    lists.iter().any(|list| same(list.name, name))
}

/// The size that is declared for a list.
pub(crate) fn size_of(lists: &[Listed], name: ListName) -> Option<u8>
    ensures { result ≡ option_map (λ list. list.1) (find (λ list. same_name list.0 name) (declared_of lists.now)) }
{
    for listed in lists {
        if same(listed.name, name) {
            return Some(listed.size);
        }
    }
    None
}

/// The names of some lists, with their declared sizes.
pub(crate) fn declared_lists(
    alloc: Global,
    lists: &[Listed],
) -> Result<Row<(ListName, u8)>, OutOfMemory>
    ensures { IfOk result (λ declared. declared ≡ declared_of lists.now) }
{
    let mut declared = Row::with_capacity(alloc, lists.len())?;
    for list in lists {
        declared.push((list.name, list.size))?;
    }
    Ok(declared)
}

// Applies a change to a list, where it is one of the list.
fn apply_to(
    alloc: Global,
    listed: &mut Listed,
    change: &Change,
    version: u32,
) -> Result<(), OutOfMemory>
    requires sizes { All (λ added. 4 ≤ added.size) change.now.adds }
    requires version { version < never }
    ensures name { listed.new.name ≡ listed.old.name }
    ensures size { listed.new.size ≡ listed.old.size }
    ensures held { OnOk result ((entries : List Entry) → length entries < 2 ^ 32 → length change.now.adds < 2 ^ 32
        → Holds listed.old.live entries → Holds listed.new.live (after_change listed.old.name entries change.now)) }
    ensures placed { OnOk result ((lines : List Line) → length lines + length change.now.adds < 2 ^ 32 → IsPlaced listed.old.live lines
        → IsPlaced listed.new.live (lines_after listed.old.name version lines change.now)) }
    ensures kept { KeepsEnds version (length change.now.adds) listed.old.live listed.new.live }
{
    if same(change.list, listed.name) {
        listed.live.apply(
            alloc,
            change.removes.as_slice(),
            change.adds.as_slice(),
            version,
        )?;
    }
    Ok(())
}

/// Applies a change, which leads to a version, to the list that it is of.
pub(crate) fn apply_each(
    alloc: Global,
    lists: &mut Vec<Listed>,
    change: &Change,
    version: u32,
) -> Result<(), OutOfMemory>
    requires sizes { All (λ added. 4 ≤ added.size) change.now.adds }
    requires version { version < never }
    ensures names { declared_of lists.new.items ≡ declared_of lists.old.items }
    ensures held { OnOk result ((sizes : Name → List Entry) → ((name : Name) → length (sizes name) < 2 ^ 32) → length change.now.adds < 2 ^ 32
        → All (λ list. Holds list.live (sizes list.name)) lists.old.items
        → All (λ list. Holds list.live (after_change list.name (sizes list.name) change.now)) lists.new.items) }
    ensures placed { OnOk result ((k : ℕ) (d : List') → k < length lists.old.items
        → AppliesLines version change.now (slice_index_or lists.old.items k d) (slice_index_or lists.new.items k d)) }
    ensures kept { (k : ℕ) (d : List') → k < length lists.old.items
        → KeepsEnds version (length change.now.adds) (slice_index_or lists.old.items k d).live (slice_index_or lists.new.items k d).live }
{
    for i in 0..lists.len() {
        apply_to(alloc, &mut lists[i], change, version)?;
    }
    Ok(())
}

/// The fault of a line that ends a change, once the change is applied.
pub(crate) fn limit_of(lists: &[Listed], change: &Change, line: u64) -> Option<JournalFault>
    requires { list_any (λ list. same_name list.name change.now.list) lists.now ≡ true }
    ensures { (sizes : Name → List Entry) → ((name : Name) → IsUncrowded (sizes name))
        → All (λ list. Holds list.live (after_change list.name (sizes list.name) change.now)) lists.now
        → result ≡ limit_fault_at line (after_change change.now.list (sizes change.now.list) change.now) }
{
    for listed in lists {
        if same(listed.name, change.list) {
            return listed.live.limit(change.adds.as_slice(), line);
        }
    }
    None
}

/// How many lines the changes of a list have that add.
pub(crate) fn adds_count(changes: &[Change], list: ListName) -> usize
    ensures { result ≡ min (length (adds_of list changes.now)) most_lines }
{
    let mut count = 0usize;
    for change in changes {
        if same(change.list, list) {
            count = count.saturating_add(change.adds.len());
        }
    }
    count
}

// Leaves the ends that a list had when there were these changes alone.
fn restore_list(listed: &mut Listed, changes: &[Change])
    ensures name { listed.new.name ≡ listed.old.name }
    ensures size { listed.new.size ≡ listed.old.size }
    ensures ends { listed.new.live.ends.items
        ≡ restored (length changes.now) (min (length (adds_of listed.old.name changes.now)) most_lines) listed.old.live.ends.items }
{
    let count = adds_count(changes, listed.name);
    listed.live.restore(count, changes.len());
}

/// Leaves the ends that the lists had when there were these changes alone.
pub(crate) fn restore_each(lists: &mut Vec<Listed>, changes: &[Change])
    ensures { AreRestored changes.now lists.old.items lists.new.items }
{
    for i in 0..lists.len() {
        restore_list(&mut lists[i], changes);
    }
}
