ghost use Rattle.std.specs.Prelude.{◌≡◌, ◌⊎◌, ◌&&◌, [], None, Some, Ok, not, IfOk, OnOk, IfErr, if◌then◌else◌};
ghost use Rattle.std.specs.Str.{bytes_eq};
ghost use Rattle.prefix_set.specs.Apply.{applied, apply_fault};
ghost use Rattle.update_client.specs.Held.{digest_of};
ghost use Rattle.update_client.specs.Step.{meaning_of, stale_fault};
ghost use Rattle.update_client.specs.Feeding.{meant_by, cause_of_apply as cause_of_fault};
ghost use Rattle.update_client.specs.Applying.{changed, IsChecked, IsWeighed, IsExamined};

use crate::change::{set_of, token_of};
use crate::feeding::edit_of;
use crate::pending::Change;
use crate::{HeldList, UpdateFault};
use prefix_set::{ApplyFault, Edit, Merged, PrefixSet};
use rice_coding::RiceFault;
use sb_model::{Bytes, OutOfMemory};
use std::alloc::Global;
use update_messages::ListUpdate;

/// What is found of an update: the set that it proposes, or why it is refused.
#[derive(Drop)]
pub(crate) enum Finding {
    Fit(PrefixSet),
    Unfit(UpdateFault),
}

// Whether an update was made for another state than the held one.
fn is_stale(token: &Bytes, update: &ListUpdate) -> bool
    ensures { result ≡ (not update.now.full && not (bytes_eq update.now.base [])
        && not (bytes_eq update.now.base token.now)) }
{
    !update.full && !update.base.is_empty() && update.base.as_slice() != token.as_slice()
}

// The fault of such an update.
fn stale(
    held: &HeldList,
    change: &Change,
    update: &ListUpdate,
) -> Result<Option<UpdateFault>, OutOfMemory>
    ensures { IfOk result (λ fault. fault ≡ stale_fault (changed held.now change.now) update.now) }
{
    let token = token_of(held, change);
    if !is_stale(token, update) {
        return Ok(None);
    }
    let held = token.copy()?;
    let given = update.base.copy()?;
    Ok(Some(UpdateFault::StaleBase { held, given }))
}

// Makes the change of a set, or of the empty one for a full update.
fn merged(alloc: Global, set: &PrefixSet, full: bool, edit: Edit) -> Result<Merged, ApplyFault>
    ensures ok { IfOk result (λ merged.
        merged.set ≡ applied (if full then [] else set.now) edit.removals edit.additions) }
    ensures digest { IfOk result (λ merged. merged.digest ≡ digest_of merged.set) }
    ensures within { OnOk result
        (apply_fault (if full then [] else set.now) edit.removals edit.additions ≡ None) }
    ensures fault { IfErr result (λ fault. (fault ≡ ApplyFault.OutOfMemory)
        ⊎ (apply_fault (if full then [] else set.now) edit.removals edit.additions ≡ Some fault)) }
{
    if full {
        PrefixSet::empty(alloc).merge(alloc, edit)
    } else {
        set.merge(alloc, edit)
    }
}

// Why an update is refused whose change gives no set.
fn cause_of(fault: ApplyFault) -> Option<UpdateFault>
    ensures { result ≡ cause_of_fault fault }
{
    match fault {
        ApplyFault::IndexRange { index, len } => Some(UpdateFault::IndexRange { index, len }),
        ApplyFault::TooMany(count) => Some(UpdateFault::TooMany(count)),
        ApplyFault::TooLarge(bytes) => Some(UpdateFault::TooLarge(bytes)),
        ApplyFault::OutOfMemory => None,
    }
}

// Compares the digest of a set with the given one.
fn checked(merged: Merged, given: [u8; 32]) -> Finding
    requires { merged.digest ≡ digest_of merged.set }
    ensures { IsChecked merged.set given result }
{
    let Merged {
        set,
        digest: computed,
    } = merged;
    if computed != given {
        return Finding::Unfit(UpdateFault::Checksum { computed, given });
    }
    Finding::Fit(set)
}

// Weighs what an update says against a held list.
fn weigh(
    alloc: Global,
    held: &HeldList,
    change: &Change,
    update: &ListUpdate,
    edit: Edit,
) -> Result<Finding, OutOfMemory>
    requires { meaning_of update.now ≡ Ok (meant_by update.now edit) }
    ensures { IfOk result (IsWeighed (changed held.now change.now) update.now) }
{
    match merged(alloc, set_of(held, change), update.full, edit) {
        Ok(merged) => Ok(checked(merged, update.checksum)),
        Err(fault) => match cause_of(fault) {
            Some(cause) => Ok(Finding::Unfit(cause)),
            None => Err(OutOfMemory),
        },
    }
}

/// Examines an update where it meets a held list after a change.
pub(crate) fn examine(
    alloc: Global,
    held: &HeldList,
    change: &Change,
    update: &ListUpdate,
) -> Result<Finding, OutOfMemory>
    ensures { IfOk result (IsExamined (changed held.now change.now) update.now) }
{
    if let Some(fault) = stale(held, change, update)? {
        return Ok(Finding::Unfit(fault));
    }
    match edit_of(alloc, update) {
        Ok(edit) => weigh(alloc, held, change, update, edit),
        Err(RiceFault::OutOfMemory) => Err(OutOfMemory),
        Err(fault) => Ok(Finding::Unfit(UpdateFault::Rice(fault))),
    }
}
