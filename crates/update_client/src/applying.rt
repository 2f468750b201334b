ghost use Rattle.std.specs.Prelude.{◌≡◌, length, map, position, IfOk, OnOk};
ghost use Rattle.std.specs.List.Sorted.{IsStrictlySortedBy};
ghost use Rattle.sb_model.specs.Names.{same_name, name_cmp};
ghost use Rattle.update_client.specs.Held.{Held};
ghost use Rattle.update_client.specs.Step.{list_step, result_of, after_update, after_updates, result_among, results_of};
ghost use Rattle.update_client.specs.Applying.{changed, all_changed};

use crate::examining::{Finding, examine};
use crate::pending::{Change, Fresh};
use crate::{HeldList, ListResult};
use sb_model::{ListName, OutOfMemory, Row};
use std::alloc::Global;
use update_messages::ListUpdate;

/// Whether a held list has a name.
pub(crate) fn has_name(held: &HeldList, name: ListName) -> bool
    ensures { result ≡ same_name held.now.name name }
{
    held.name == name
}

/// The place of the held list of a name.
pub(crate) fn place_of(lists: &[HeldList], name: ListName) -> Option<usize>
    ensures { result ≡ position (λ (held : Held). same_name held.name name) lists.now }
{
    lists.iter().position(|held| has_name(held, name))
}

// Applies an update to its held list.
fn apply_update(
    alloc: Global,
    held: &HeldList,
    change: &mut Change,
    update: &ListUpdate,
) -> Result<ListResult, OutOfMemory>
    ensures list { OnOk result
        (changed held.now change.new ≡ list_step (changed held.now change.old) update.now) }
    ensures outcome { IfOk result (λ outcome. outcome ≡ result_of (changed held.now change.old) update.now) }
{
    match examine(alloc, held, change, update)? {
        Finding::Fit(set) => {
            let token = update.new_state.copy()?;
            let entries = set.len();
            change.fresh = Some(Fresh { token, set });
            change.resync = false;
            Ok(ListResult::Installed(entries))
        }
        Finding::Unfit(fault) => {
            change.resync = true;
            Ok(ListResult::Refused(fault))
        }
    }
}

// Applies an update to the held list of its name, if there is one.
fn apply_to_named(
    alloc: Global,
    lists: &[HeldList],
    changes: &mut [Change],
    update: &ListUpdate,
) -> Result<ListResult, OutOfMemory>
    requires each { length changes.old ≡ length lists.now }
    requires rising { IsStrictlySortedBy name_cmp (map (λ (held : Held). held.name) lists.now) }
    ensures lists { OnOk result (all_changed lists.now changes.new
        ≡ after_update (all_changed lists.now changes.old) update.now) }
    ensures outcome { IfOk result (λ outcome.
        outcome ≡ result_among (all_changed lists.now changes.old) update.now) }
{
    match place_of(lists, update.name) {
        Some(place) => apply_update(alloc, &lists[place], &mut changes[place], update),
        None => Ok(ListResult::NotKept),
    }
}

/// Applies updates one by one.
pub(crate) fn apply_updates(
    alloc: Global,
    lists: &[HeldList],
    changes: &mut [Change],
    updates: &[ListUpdate],
) -> Result<Row<ListResult>, OutOfMemory>
    requires each { length changes.old ≡ length lists.now }
    requires rising { IsStrictlySortedBy name_cmp (map (λ (held : Held). held.name) lists.now) }
    ensures lists { OnOk result (all_changed lists.now changes.new
        ≡ after_updates (all_changed lists.now changes.old) updates.now) }
    ensures results { IfOk result (λ results.
        results ≡ results_of (all_changed lists.now changes.old) updates.now) }
{
    let mut results = Row::with_capacity(alloc, updates.len())?;
    for update in updates {
        results.push(apply_to_named(alloc, lists, changes, update)?)?;
    }
    Ok(results)
}
