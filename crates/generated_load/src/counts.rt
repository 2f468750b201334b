ghost use Rattle.std.specs.Prelude.{◌≡◌, ◌+◌, IfOk, sum_by};
ghost use Rattle.generated_load.specs.Exercise.{added_count, removed_count};

use sb_model::OutOfMemory;
use update_messages::{Additions, Removals};

// How many prefixes a set has. There is no set of prefixes without bytes.
fn added_count(set: &Additions) -> u64
    ensures { result ≡ added_count set.now }
{
    match set {
        Additions::Raw { size, bytes } => {
            let prefixes = bytes.len().checked_div(usize::from(*size));
            prefixes.unwrap_or(0) as u64
        }
        Additions::Rice(rice) => u64::from(rice.count) + 1,
    }
}

// How many places a set has.
fn removed_count(set: &Removals) -> u64
    ensures { result ≡ removed_count set.now }
{
    match set {
        Removals::Raw(places) => places.len() as u64,
        Removals::Rice(rice) => u64::from(rice.count) + 1,
    }
}

// The sum of two counts. More entries than a `u64` counts have no room in any memory.
fn sum_of(first: u64, second: u64) -> Result<u64, OutOfMemory>
    ensures { IfOk result (λ sum. sum ≡ first + second) }
{
    first.checked_add(second).ok_or(OutOfMemory)
}

/// How many prefixes these sets have.
pub(crate) fn additions_in(sets: &[Additions]) -> Result<u64, OutOfMemory>
    ensures { IfOk result (λ count. count ≡ sum_by added_count sets.now) }
{
    let mut count = 0;
    for set in sets {
        count = sum_of(count, added_count(set))?;
    }
    Ok(count)
}

/// How many places these sets have.
pub(crate) fn removals_in(sets: &[Removals]) -> Result<u64, OutOfMemory>
    ensures { IfOk result (λ count. count ≡ sum_by removed_count sets.now) }
{
    let mut count = 0;
    for set in sets {
        count = sum_of(count, removed_count(set))?;
    }
    Ok(count)
}
