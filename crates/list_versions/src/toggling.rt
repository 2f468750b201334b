ghost use Rattle.std.specs.Prelude.{ℕ, ◌<◌, ◌≤◌, ◌↔◌, ◌++◌, length, drop, All, Contains, IfOk, OnOk};
ghost use Rattle.std.specs.List.Sorted.{IsStrictlyIncreasing};
ghost use Rattle.list_versions.specs.Numbers.{IsInOne, IsToggled};

use sb_model::OutOfMemory;
use std::alloc::Global;

// Appends the rest of the numbers as far as they are below a number, and then the number itself unless it stands there.
// What is left begins at the place in the result.
fn push_toggled(
    toggled: &mut Vec<u32>,
    numbers: &[u32],
    from: usize,
    number: u32,
) -> Result<usize, OutOfMemory>
    requires from { from ≤ length numbers.now }
    requires rising { IsStrictlyIncreasing (toggled.old.items ++ drop from numbers.now) }
    requires below { All (λ n. n < number) toggled.old.items }
    ensures next { IfOk result (λ next. next ≤ length numbers.now) }
    ensures toggled { IfOk result (λ next.
        IsToggled number (toggled.old.items ++ drop from numbers.now) (toggled.new.items ++ drop next numbers.now)) }
    ensures below { OnOk result (All (λ n. n ≤ number) toggled.new.items) }
{
    let rest = &numbers[from..];
    match rest.binary_search(&number) {
        Ok(at) => {
            toggled.extend_from_slice(&rest[..at])?;
            Ok(from + at + 1)
        }
        Err(at) => {
            toggled.extend_from_slice(&rest[..at])?;
            toggled.push(number)?;
            Ok(from + at)
        }
    }
}

/// Rising numbers without those that change and are there, and with those that change and are not.
pub(crate) fn toggled(
    alloc: Global,
    numbers: &[u32],
    changed: &[u32],
) -> Result<Vec<u32>, OutOfMemory>
    requires numbers { IsStrictlyIncreasing numbers.now }
    requires changed { IsStrictlyIncreasing changed.now }
    ensures rising { IfOk result (λ toggled. IsStrictlyIncreasing toggled.items) }
    ensures same { IfOk result (λ toggled. (n : ℕ) → Contains toggled.items n ↔ IsInOne numbers.now changed.now n) }
{
    let mut toggled = Vec::with_capacity(alloc, numbers.len() + changed.len())?;
    let mut from = 0usize;
    for number in changed {
        from = push_toggled(&mut toggled, numbers, from, *number)?;
    }
    toggled.extend_from_slice(&numbers[from..])?;
    Ok(toggled)
}
