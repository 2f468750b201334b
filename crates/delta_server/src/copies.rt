ghost use Rattle.std.specs.Prelude.{◌≡◌, IfOk};

use rice_coding::RiceRecord;
use sb_model::{OutOfMemory, Row};
use std::alloc::Global;
use update_messages::{Additions, ListUpdate, Removals};

// The same record once more.
fn copy_rice(rice: &RiceRecord) -> Result<RiceRecord, OutOfMemory>
    ensures { IfOk result (λ copy. copy ≡ rice.now) }
{
    Ok(RiceRecord {
        first: rice.first,
        parameter: rice.parameter,
        count: rice.count,
        coded: rice.coded.copy()?,
    })
}

// The same additions of one size once more.
fn copy_addition(set: &Additions) -> Result<Additions, OutOfMemory>
    ensures { IfOk result (λ copy. copy ≡ set.now) }
{
    match set {
        Additions::Raw { size, bytes } => {
            let bytes = bytes.copy()?;
            Ok(Additions::Raw { size: *size, bytes })
        }
        Additions::Rice(rice) => Ok(Additions::Rice(copy_rice(rice)?)),
    }
}

// The same additions once more.
fn copy_additions(alloc: Global, sets: &[Additions]) -> Result<Row<Additions>, OutOfMemory>
    ensures { IfOk result (λ copies. copies ≡ sets.now) }
{
    let mut copies = Row::with_capacity(alloc, sets.len())?;
    for set in sets {
        copies.push(copy_addition(set)?)?;
    }
    Ok(copies)
}

// The same set of places once more.
fn copy_removal(set: &Removals) -> Result<Removals, OutOfMemory>
    ensures { IfOk result (λ copy. copy ≡ set.now) }
{
    match set {
        Removals::Raw(places) => Ok(Removals::Raw(places.copy()?)),
        Removals::Rice(rice) => Ok(Removals::Rice(copy_rice(rice)?)),
    }
}

// The same sets of places once more.
fn copy_removals(alloc: Global, sets: &[Removals]) -> Result<Row<Removals>, OutOfMemory>
    ensures { IfOk result (λ copies. copies ≡ sets.now) }
{
    let mut copies = Row::with_capacity(alloc, sets.len())?;
    for set in sets {
        copies.push(copy_removal(set)?)?;
    }
    Ok(copies)
}

/// The same update once more.
pub(crate) fn copy_update(alloc: Global, update: &ListUpdate) -> Result<ListUpdate, OutOfMemory>
    ensures { IfOk result (λ copy. copy ≡ update.now) }
{
    Ok(ListUpdate {
        name: update.name,
        full: update.full,
        base: update.base.copy()?,
        additions: copy_additions(alloc, update.additions.as_slice())?,
        removals: copy_removals(alloc, update.removals.as_slice())?,
        new_state: update.new_state.copy()?,
        checksum: update.checksum,
    })
}
