ghost use Rattle.std.specs.Prelude.{◌≡◌, ◌≤◌, map, vec_len, IfOk};
ghost use Rattle.update_client.specs.Applying.{no_change, changed, all_changed};

use crate::HeldList;
use crate::pending::{Change, Fresh};
use prefix_set::PrefixSet;
use sb_model::{Bytes, OutOfMemory};
use std::alloc::Global;

/// The changes of lists that stay as they are.
pub(crate) fn no_changes(alloc: Global, lists: &[HeldList]) -> Result<Vec<Change>, OutOfMemory>
    ensures { IfOk result (λ changes. changes.items ≡ map no_change lists.now) }
{
    let mut changes = Vec::with_capacity(alloc, lists.len())?;
    for held in lists {
        changes.push(Change {
            fresh: None,
            resync: held.resync,
        })?;
    }
    Ok(changes)
}

/// The token after a change.
pub(crate) fn token_of<'a>(held: &'a HeldList, change: &'a Change) -> &'a Bytes
    ensures { result.now ≡ (changed held.now change.now).token }
{
    match &change.fresh {
        Some(fresh) => &fresh.token,
        None => &held.token,
    }
}

/// The prefixes after a change.
pub(crate) fn set_of<'a>(held: &'a HeldList, change: &'a Change) -> &'a PrefixSet
    ensures { result.now ≡ (changed held.now change.now).set }
{
    match &change.fresh {
        Some(fresh) => &fresh.set,
        None => &held.set,
    }
}

/// Puts a change in place.
fn put(held: &mut HeldList, change: Change)
    ensures { held.new ≡ changed held.old change }
{
    let Change { fresh, resync } = change;
    if let Some(Fresh { token, set }) = fresh {
        held.token = token;
        held.set = set;
    }
    held.resync = resync;
}

/// Puts the changes in place, the last one first.
pub(crate) fn put_changes(lists: &mut Vec<HeldList>, changes: Vec<Change>)
    requires { vec_len changes ≤ vec_len lists.old }
    ensures { lists.new.items ≡ all_changed lists.old.items changes.items }
{
    let mut changes = changes;
    while let Some(change) = changes.pop() {
        put(&mut lists[changes.len()], change);
    }
}
