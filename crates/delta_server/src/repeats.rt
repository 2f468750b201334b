ghost use Rattle.std.specs.Prelude.{◌≡◌, true, map, slice_get, Some, IfOk, IfSome};
ghost use Rattle.std.specs.Str.{bytes_eq};
ghost use Rattle.sb_model.specs.History.{History as Versions};
ghost use Rattle.update_messages.specs.Answer.{declared_items, update_for};
ghost use Rattle.delta_server.specs.Tokens.{server_naming};

use crate::answering::is_declared;
use crate::copies::copy_update;
use crate::tokens::is_same;
use list_versions::History;
use sb_model::OutOfMemory;
use std::alloc::Global;
use update_messages::{ListRequest, ListUpdate};

// Whether two flags are the same.
fn is_same_flag(first: bool, second: bool) -> bool
    ensures { result ≡ true → first ≡ second }
{
    if first { second } else { !second }
}

// Whether two states are the same bytes.
fn is_same_state(first: &[u8], second: &[u8]) -> bool
    ensures { result ≡ bytes_eq first.now second.now }
{
    first == second
}

// Whether two items ask for one update: of one list, from one state, within the same limits.
fn ask_alike(first: &ListRequest, second: &ListRequest) -> bool
    ensures { result ≡ true → (versions : Versions)
        → update_for versions (server_naming versions) first.now ≡ update_for versions (server_naming versions) second.now }
{
    if !is_same(first.name, second.name) {
        return false;
    }
    if !is_same_flag(first.rice, second.rice) {
        return false;
    }
    if first.max_update != second.max_update {
        return false;
    }
    if first.max_database != second.max_database {
        return false;
    }
    is_same_state(first.state.as_slice(), second.state.as_slice())
}

// The place among the updates of earlier items of one that a further item asks for too.
fn place_of_like(history: &History, before: &[ListRequest], asked: &ListRequest) -> Option<usize>
    ensures { IfSome result (λ place.
        slice_get (map (update_for history.now.versions (server_naming history.now.versions)) (declared_items history.now.versions before.now)) place
        ≡ Some (update_for history.now.versions (server_naming history.now.versions) asked.now)) }
{
    let mut place = 0;
    for other in before {
        if !is_declared(history, other.name) {
            continue;
        }
        if ask_alike(other, asked) {
            return Some(place);
        }
        place += 1;
    }
    None
}

/// The update of an item once more, if an earlier item asked for it too. The updates are those of the earlier items.
pub(crate) fn repeated_update(
    alloc: Global,
    history: &History,
    updates: &[ListUpdate],
    before: &[ListRequest],
    asked: &ListRequest,
) -> Result<Option<ListUpdate>, OutOfMemory>
    requires { updates.now ≡ map (update_for history.now.versions (server_naming history.now.versions))
        (declared_items history.now.versions before.now) }
    ensures { IfOk result (λ found. IfSome found (λ update. update
        ≡ update_for history.now.versions (server_naming history.now.versions) asked.now)) }
{
    let Some(place) = place_of_like(history, before, asked) else {
        return Ok(None);
    };
    let Some(update) = updates.get(place) else {
        return Ok(None);
    };
    let copy = copy_update(alloc, update)?;
    Ok(Some(copy))
}
