ghost use Rattle.std.specs.Prelude.{◌≡◌, ℕ, ◌≤◌, ◌↔◌, ◌++◌, length, take, IfOk, OnOk, Contains, IsTrue};
ghost use Rattle.std.specs.List.Sorted.{IsStrictlyIncreasing};
ghost use Rattle.sb_model.specs.Prefixes.{IsRising, concatenation};
ghost use Rattle.sb_model.specs.History.{IsPrefixSize};
ghost use Rattle.prefix_set.specs.Apply.{applied};
ghost use Rattle.prefix_set.specs.Kept.{kept_between, AreDone, TakesAddition};
ghost use Rattle.prefix_set.specs.Search.{AreBefore};

use crate::growing::{Growing, Grown};
use crate::packed::PackedPrefixes;
use crate::search::seek;
use sb_model::OutOfMemory;
use sha2::Digest;
use std::alloc::Global;

/// The set that removals and additions make of rising members, hashed as it is written.
pub(crate) fn merged<D: Digest>(
    alloc: Global,
    old: &PackedPrefixes,
    removals: Vec<u32>,
    additions: PackedPrefixes,
) -> Result<Grown<D>, OutOfMemory>
    requires { IsRising old.now }
    ensures set { IfOk result (λ grown. grown.members ≡ applied old.now removals.items additions) }
    ensures hasher { IfOk result (λ grown. D.holds grown.hasher (concatenation grown.members)) }
{
    let additions = additions.into_rising(alloc)?;
    if old.is_empty() {
        return Ok(Growing::of(additions).finish());
    }
    let removals = rising_numbers(removals);
    let set = merge_rising::<D>(alloc, old, &removals, &additions)?;
    Ok(set.finish())
}

// Whether each number is below the next.
fn is_increasing(numbers: &[u32]) -> bool
    ensures { IsTrue result ↔ IsStrictlyIncreasing numbers.now }
{
    for i in 1..numbers.len() {
        if numbers[i - 1] >= numbers[i] {
            return false;
        }
    }
    true
}

// The numbers in rising order, without repeats. Where they rise already nothing is sorted.
fn rising_numbers(numbers: Vec<u32>) -> Vec<u32>
    ensures increasing { IsStrictlyIncreasing result.items }
    ensures members { (n : ℕ) → Contains result.items n ↔ Contains numbers.items n }
{
    let mut numbers = numbers;
    if !is_increasing(&numbers) {
        numbers.sort_unstable();
        numbers.dedup();
    }
    numbers
}

// The members at the places of `removals` left out, and the additions put in.
fn merge_rising<D: Digest>(
    alloc: Global,
    old: &PackedPrefixes,
    removals: &[u32],
    additions: &PackedPrefixes,
) -> Result<Growing<D>, OutOfMemory>
    requires old { IsRising old.now }
    requires removals { IsStrictlyIncreasing removals.now }
    requires additions { IsRising additions.now }
    ensures { IfOk result (λ set. set ≡ applied old.now removals.now additions.now) }
{
    let room = PackedPrefixes::with_capacity(alloc, old.byte_len())?;
    let mut out = Growing::of(room);
    let mut done = Walked {
        place: 0,
        removals: 0,
    };
    for i in 0..additions.len() {
        done = take_addition(&mut out, old, removals, done, additions.at(i))?;
    }
    copy_kept(&mut out, old, removals, done, old.len())?;
    Ok(out)
}

// How far a merge has come: the members in front of `place` and the first `removals` are done.
#[derive(Clone, Copy)]
struct Walked {
    place: usize,
    removals: usize,
}

// Copies what is kept of the members in front of an addition, and then the addition.
fn take_addition<D: Digest>(
    out: &mut Growing<D>,
    old: &PackedPrefixes,
    removals: &[u32],
    done: Walked,
    addition: &[u8],
) -> Result<Walked, OutOfMemory>
    requires rising { IsRising old.now }
    requires removals { IsStrictlyIncreasing removals.now }
    requires size { IsPrefixSize (length addition.now) }
    requires place { done.place ≤ length old.now }
    requires passed { AreBefore (take done.place old.now) addition.now }
    requires done { AreDone removals.now done.removals done.place }
    ensures taken { IfOk result (λ next. TakesAddition old.now removals.now addition.now
        done.place next.place out.old out.new) }
    ensures done { IfOk result (λ next. AreDone removals.now next.removals next.place) }
{
    let place = seek(old, done.place, addition);
    let removed = copy_kept(out, old, removals, done, place.index)?;
    out.push(addition)?;
    Ok(Walked {
        place: place.past,
        removals: removed,
    })
}

// Copies the members up to a place, in runs between the removals: how many removals are done then.
fn copy_kept<D: Digest>(
    out: &mut Growing<D>,
    old: &PackedPrefixes,
    removals: &[u32],
    done: Walked,
    to: usize,
) -> Result<usize, OutOfMemory>
    requires removals { IsStrictlyIncreasing removals.now }
    requires order { done.place ≤ to }
    requires within { to ≤ length old.now }
    requires done { AreDone removals.now done.removals done.place }
    ensures kept { OnOk result
        (out.new ≡ out.old ++ kept_between old.now removals.now done.place to) }
    ensures done { IfOk result (λ count. AreDone removals.now count to) }
{
    let mut start = done.place;
    let mut removed = done.removals;
    while removed < removals.len() && (removals[removed] as usize) < to {
        let removal = removals[removed] as usize;
        if removal >= start {
            out.push_range(old, start, removal)?;
            start = removal + 1;
        }
        removed += 1;
    }
    out.push_range(old, start, to)?;
    Ok(removed)
}
