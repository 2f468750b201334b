ghost use Rattle.std.specs.Prelude.{◌≡◌, ℕ, List, map, All, IfOk, OnOk};
ghost use Rattle.std.specs.Int.{w32, from_le_bytes};
ghost use Rattle.sb_model.specs.Prefixes.{concatenation};
ghost use Rattle.list_versions.specs.Numbers.{AreNumbersOf, Tells, quads_in};

use prefix_set::PrefixSet;
use sb_model::OutOfMemory;
use std::alloc::Global;

/// Prefixes of four bytes that stand one after the other.
pub(crate) fn quads_of(bytes: &[u8]) -> &[[u8; 4]]
    ensures { (set : List (List ℕ)) → bytes.now ≡ concatenation (quads_in set) → result.now ≡ quads_in set }
{
    bytes.as_chunks::<4>().0
}

// A prefix of four bytes as a number, the lowest byte first.
fn number_of(quad: &[u8; 4]) -> u32
    ensures value { result ≡ from_le_bytes w32 quad.now }
    ensures tells { Tells quad.now }
{
    u32::from_le_bytes(*quad)
}

// The numbers of prefixes of four bytes, in the order of the prefixes.
fn numbers_in_order(alloc: Global, quads: &[[u8; 4]]) -> Result<Vec<u32>, OutOfMemory>
    ensures numbers { IfOk result (λ numbers. numbers.items ≡ map (from_le_bytes w32) quads.now) }
    ensures tell { OnOk result (All Tells quads.now) }
{
    let mut numbers = Vec::with_capacity(alloc, quads.len())?;
    for quad in quads {
        numbers.push(number_of(quad))?;
    }
    Ok(numbers)
}

/// The numbers of the members of a set that have four bytes, rising.
pub(crate) fn numbers_of(alloc: Global, set: &PrefixSet) -> Result<Vec<u32>, OutOfMemory>
    ensures { IfOk result (λ numbers. AreNumbersOf set.now numbers.items) }
{
    let bytes = set.bytes_of_size(alloc, 4)?;
    let mut numbers = numbers_in_order(alloc, quads_of(bytes.as_slice()))?;
    numbers.sort_unstable();
    numbers.dedup();
    Ok(numbers)
}
