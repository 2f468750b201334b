ghost use Rattle.std.specs.Prelude.{◌≡◌, ℕ, List, filter, IfOk, IfSome};
ghost use Rattle.sha2.specs.Sha256.{sha256};
ghost use Rattle.sb_model.specs.Difference.{removed_places, added_members};
ghost use Rattle.sb_model.specs.Prefixes.{concatenation};
ghost use Rattle.update_messages.specs.Answer.{has_size, numbers_of, whole_update, difference_update};
ghost use Rattle.set_updates.specs.Updates.{MayBeSent};

use crate::sets::{addition_sets, removal_sets, whole_sets};
use prefix_set::{Delta, PrefixSet};
use sb_model::{Bytes, OutOfMemory, Row};
use std::alloc::Global;
use update_messages::{ListRequest, ListUpdate, sent_numbers_rise};

/// A set as it is sent: its members, its digest, and the token of its version.
#[derive(Clone, Copy)]
pub struct Sent<'a> {
    pub set: &'a PrefixSet,
    pub digest: [u8; 32],
    pub token: [u8; 20],
}

// The state that an update is made for.
fn base_of(alloc: Global, asked: &ListRequest) -> Result<Bytes, OutOfMemory>
    ensures { IfOk result (λ base. base ≡ asked.now.state) }
{
    Bytes::from_slice(alloc, asked.state.as_slice())
}

/// The update to the whole of a set.
pub fn full_update(
    alloc: Global,
    asked: &ListRequest,
    newer: &Sent<'_>,
) -> Result<ListUpdate, OutOfMemory>
    requires { newer.now.digest ≡ sha256 (concatenation newer.now.set.now) }
    ensures { IfOk result (λ update. update ≡ whole_update asked.now newer.now.set.now newer.now.token) }
{
    whole_of(alloc, asked, newer, None)
}

/// The update to the whole of a set, if the numbers of its members of four bytes stand ready, rising.
/// They are not sorted again.
pub fn numbered_update(
    alloc: Global,
    asked: &ListRequest,
    newer: &Sent<'_>,
    numbers: &[u32],
) -> Result<ListUpdate, OutOfMemory>
    requires digest { newer.now.digest ≡ sha256 (concatenation newer.now.set.now) }
    requires numbers { numbers.now ≡ numbers_of (filter (has_size 4) newer.now.set.now) }
    ensures { IfOk result (λ update. update ≡ whole_update asked.now newer.now.set.now newer.now.token) }
{
    whole_of(alloc, asked, newer, Some(numbers))
}

// The update to the whole of a set, whose numbers may stand ready.
fn whole_of(
    alloc: Global,
    asked: &ListRequest,
    newer: &Sent<'_>,
    numbers: Option<&[u32]>,
) -> Result<ListUpdate, OutOfMemory>
    requires digest { newer.now.digest ≡ sha256 (concatenation newer.now.set.now) }
    requires numbers { IfSome numbers (λ numbers. numbers.now
        ≡ numbers_of (filter (has_size 4) newer.now.set.now)) }
    ensures { IfOk result (λ update. update ≡ whole_update asked.now newer.now.set.now newer.now.token) }
{
    Ok(ListUpdate {
        name: asked.name,
        full: true,
        base: Bytes::new(alloc),
        additions: whole_sets(alloc, newer.set, numbers, asked.rice)?,
        removals: Row::new(alloc),
        new_state: Bytes::from_slice(alloc, newer.token.as_slice())?,
        checksum: newer.digest,
    })
}

// What leads from one set to another: the places of its members that go, and the members that come.
fn delta_of(alloc: Global, old: &PrefixSet, newer: &PrefixSet) -> Result<Delta, OutOfMemory>
    ensures removals { IfOk result (λ delta. delta.removals ≡ removed_places old.now newer.now) }
    ensures additions { IfOk result (λ delta. delta.additions ≡ added_members old.now newer.now) }
    ensures sent { IfOk result (λ delta. MayBeSent delta) }
{
    sent_numbers_rise();
    // looked at for the prover: what each set keeps
    let _ = old.len();
    let _ = newer.len();
    let delta = old.difference(alloc, newer)?;
    Ok(delta)
}

/// The update from the set of the asked state to a newer one, of a list with a declared size.
pub fn partial_update(
    alloc: Global,
    asked: &ListRequest,
    size: u8,
    old: &PrefixSet,
    newer: &Sent<'_>,
) -> Result<ListUpdate, OutOfMemory>
    requires { newer.now.digest ≡ sha256 (concatenation newer.now.set.now) }
    ensures { IfOk result (λ update. update ≡ difference_update asked.now size old.now newer.now.set.now newer.now.token) }
{
    let delta = delta_of(alloc, old, newer.set)?;
    delta_update(alloc, asked, size, delta, newer.digest, newer.token)
}

/// The update from the set of the asked state to a newer one by what leads there, of a list with a
/// declared size. The digest is that of the newer set, and the token that of its version.
pub fn delta_update(
    alloc: Global,
    asked: &ListRequest,
    size: u8,
    delta: Delta,
    digest: [u8; 32],
    token: [u8; 20],
) -> Result<ListUpdate, OutOfMemory>
    requires { MayBeSent delta }
    ensures { IfOk result (λ update. (old newer : List (List ℕ)) → delta.removals ≡ removed_places old newer
        → delta.additions ≡ added_members old newer → digest ≡ sha256 (concatenation newer)
        → update ≡ difference_update asked.now size old newer token) }
{
    let base = base_of(alloc, asked)?;
    Ok(ListUpdate {
        name: asked.name,
        full: false,
        base,
        additions: addition_sets(alloc, delta.additions.as_slice(), asked.rice)?,
        removals: removal_sets(alloc, delta.removals, size, asked.rice)?,
        new_state: Bytes::from_slice(alloc, token.as_slice())?,
        checksum: digest,
    })
}

/// The update from the set of the asked state to the same set: there is nothing to take out or to
/// put in. Neither the set nor the size that is declared is needed for it.
pub fn unchanged_update(
    alloc: Global,
    asked: &ListRequest,
    digest: [u8; 32],
    token: [u8; 20],
) -> Result<ListUpdate, OutOfMemory>
    ensures { IfOk result (λ update. (size : ℕ) (set : List (List ℕ)) → digest ≡ sha256 (concatenation set)
        → update ≡ difference_update asked.now size set set token) }
{
    let base = base_of(alloc, asked)?;
    Ok(ListUpdate {
        name: asked.name,
        full: false,
        base,
        additions: Row::new(alloc),
        removals: Row::new(alloc),
        new_state: Bytes::from_slice(alloc, token.as_slice())?,
        checksum: digest,
    })
}
