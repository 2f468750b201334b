ghost use Rattle.std.specs.Prelude.{◌≡◌, ◌≤◌, length, map, IfOk};
ghost use Rattle.std.specs.Int.{w32, from_le_bytes};
ghost use Rattle.std.specs.List.Sorted.{IsStrictlyIncreasing};
ghost use Rattle.update_messages.specs.Answer.{numbers_of};

use sb_model::OutOfMemory;
use std::alloc::Global;
use update_messages::sent_numbers_rise;

// The numbers of prefixes of four bytes, in the order of the prefixes.
fn numbers_in_order(alloc: Global, quads: &[[u8; 4]]) -> Result<Vec<u32>, OutOfMemory>
    ensures { IfOk result (λ numbers. numbers.items ≡ map (from_le_bytes w32) quads.now) }
{
    let mut numbers = Vec::with_capacity(alloc, quads.len())?;
    for quad in quads {
        numbers.push(u32::from_le_bytes(*quad))?;
    }
    Ok(numbers)
}

/// The numbers of prefixes of four bytes, rising.
pub(crate) fn rising_numbers(alloc: Global, quads: &[[u8; 4]]) -> Result<Vec<u32>, OutOfMemory>
    ensures numbers { IfOk result (λ numbers. numbers.items ≡ numbers_of quads.now) }
    ensures rising { IfOk result (λ numbers. IsStrictlyIncreasing numbers.items) }
    ensures few { IfOk result (λ numbers. length numbers.items ≤ length quads.now) }
{
    sent_numbers_rise();
    let mut numbers = numbers_in_order(alloc, quads)?;
    numbers.sort_unstable();
    numbers.dedup();
    Ok(numbers)
}
