ghost use Rattle.std.specs.Prelude.{◌≡◌, ℕ, ◌<◌, ◌≤◌, List, [], ◌∷◌, true, false, length, filter, slice_index_or, IfOk, IfSome, IsTrue, All};
ghost use Rattle.std.specs.List.{list_any};
ghost use Rattle.std.specs.List.Sorted.{IsStrictlyIncreasing};
ghost use Rattle.sb_model.specs.Prefixes.{concatenation};
ghost use Rattle.sb_model.specs.History.{IsPrefixSize};
ghost use Rattle.prefix_set.specs.declared.set.TheConstants.{MAX_PREFIXES};
ghost use Rattle.update_messages.specs.Answer.{has_size, numbers_of, addition_set, addition_sets, removal_sets};
ghost use Rattle.update_messages.specs.Messages.{IsAddition, IsRemoval};

use crate::numbers::rising_numbers;
use hash_prefixes::Prefix;
use prefix_set::PrefixSet;
use rice_coding::encode;
use sb_model::{Bytes, OutOfMemory, Row};
use std::alloc::Global;
use update_messages::{Additions, Removals, sent_numbers_rise};

// For each size up to 32 whether some member has so many bytes.
fn sizes_in(members: &[Prefix]) -> [bool; 33]
    ensures occurs { (size : ℕ) → size < 33
        → slice_index_or result size false ≡ list_any (has_size size) members.now }
    ensures length { length result ≡ 33 }
{
    let mut sizes = [false; 33];
    for member in members {
        sizes[member.size() as usize] = true;
    }
    sizes
}

// The members of one size, one after the other.
fn bytes_of_size(alloc: Global, members: &[Prefix], size: u8) -> Result<Bytes, OutOfMemory>
    ensures { IfOk result (λ bytes. bytes ≡ concatenation (filter (has_size size) members.now)) }
{
    let mut bytes = Bytes::new(alloc);
    for member in members {
        if member.size() == size {
            bytes.append(member.as_bytes())?;
        }
    }
    Ok(bytes)
}

// Prefixes of four bytes that stand one after the other.
fn quads_of(bytes: &[u8]) -> &[[u8; 4]]
    ensures { (members : List (List ℕ)) → bytes.now ≡ concatenation (filter (has_size 4) members)
        → result.now ≡ filter (has_size 4) members }
{
    bytes.as_chunks::<4>().0
}

// The additions of one size that occurs, from the bytes of its members.
fn addition_set(alloc: Global, size: u8, bytes: Bytes, rice: bool) -> Result<Additions, OutOfMemory>
    requires size { IsPrefixSize size }
    requires members { (members : List (List ℕ)) × (bytes ≡ concatenation (filter (has_size size) members))
        × IsTrue (list_any (has_size size) members) × (length members ≤ MAX_PREFIXES) }
    ensures set { IfOk result (λ set. (members : List (List ℕ))
        → bytes ≡ concatenation (filter (has_size size) members) → set ≡ addition_set rice members size) }
    ensures keeps { IfOk result IsAddition }
{
    sent_numbers_rise();
    if size == 4 && rice {
        let numbers = rising_numbers(alloc, quads_of(bytes.as_slice()))?;
        Ok(Additions::Rice(encode(alloc, &numbers)?))
    } else {
        Ok(Additions::Raw { size, bytes })
    }
}

// The Rice record of the members of four bytes, from their numbers.
fn rice_set(alloc: Global, set: &PrefixSet, numbers: &[u32]) -> Result<Additions, OutOfMemory>
    requires numbers { numbers.now ≡ numbers_of (filter (has_size 4) set.now) }
    requires some { IsTrue (list_any (has_size 4) set.now) }
    ensures set { IfOk result (λ made. made ≡ addition_set true set.now 4) }
    ensures keeps { IfOk result IsAddition }
{
    sent_numbers_rise();
    // looked at for the prover: what each set keeps
    let _ = set.len();
    Ok(Additions::Rice(encode(alloc, numbers)?))
}

// The additions of one size that occurs. The numbers of the members are made if they do not stand
// ready.
fn whole_set(
    alloc: Global,
    set: &PrefixSet,
    numbers: Option<&[u32]>,
    size: u8,
    rice: bool,
) -> Result<Additions, OutOfMemory>
    requires numbers { IfSome numbers (λ numbers. numbers.now ≡ numbers_of (filter (has_size 4) set.now)) }
    requires size { IsPrefixSize size }
    requires some { IsTrue (list_any (has_size size) set.now) }
    ensures set { IfOk result (λ made. made ≡ addition_set rice set.now size) }
    ensures keeps { IfOk result IsAddition }
{
    // looked at for the prover: what each set keeps
    let _ = set.len();
    if size == 4
        && rice
        && let Some(numbers) = numbers
    {
        return rice_set(alloc, set, numbers);
    }
    let bytes = set.bytes_of_size(alloc, size)?;
    addition_set(alloc, size, bytes, rice)
}

/// The additions of a full update, those of all members of a set: one set for each size that occurs,
/// rising. Prefixes of four bytes are Rice coded where the client takes that, and their numbers are
/// made if they do not stand ready. No list of the members is made.
pub(crate) fn whole_sets(
    alloc: Global,
    set: &PrefixSet,
    numbers: Option<&[u32]>,
    rice: bool,
) -> Result<Row<Additions>, OutOfMemory>
    requires { IfSome numbers (λ numbers. numbers.now ≡ numbers_of (filter (has_size 4) set.now)) }
    ensures sets { IfOk result (λ sets. sets ≡ addition_sets rice set.now) }
    ensures keep { IfOk result (All IsAddition) }
{
    let sizes = set.sizes();
    let mut sets = Row::new(alloc);
    for size in 4..33 {
        if sizes[size as usize] {
            sets.push(whole_set(alloc, set, numbers, size, rice)?)?;
        }
    }
    Ok(sets)
}

/// The additions of an update: one set for each size that occurs, rising. Prefixes of four bytes
/// are Rice coded where the client takes that.
pub fn addition_sets(
    alloc: Global,
    members: &[Prefix],
    rice: bool,
) -> Result<Row<Additions>, OutOfMemory>
    requires { length members.now ≤ MAX_PREFIXES }
    ensures sets { IfOk result (λ sets. sets ≡ addition_sets rice members.now) }
    ensures keep { IfOk result (All IsAddition) }
{
    let sizes = sizes_in(members);
    let mut sets = Row::new(alloc);
    for size in 4..33 {
        if sizes[size as usize] {
            let bytes = bytes_of_size(alloc, members, size)?;
            sets.push(addition_set(alloc, size, bytes, rice)?)?;
        }
    }
    Ok(sets)
}

// The one set of some places.
fn removal_set(
    alloc: Global,
    places: Row<u32>,
    size: u8,
    rice: bool,
) -> Result<Removals, OutOfMemory>
    requires some { 0 < length places }
    requires rising { IsStrictlyIncreasing places }
    requires few { length places ≤ MAX_PREFIXES }
    requires below { All (λ place. place < MAX_PREFIXES) places }
    ensures set { IfOk result (λ set. removal_sets rice size places ≡ set ∷ []) }
    ensures keeps { IfOk result IsRemoval }
{
    if size == 4 && rice {
        Ok(Removals::Rice(encode(alloc, places.as_slice())?))
    } else {
        Ok(Removals::Raw(places))
    }
}

/// The removals of an update: one set of the places, and none where there are none. They are Rice
/// coded where the list's declared size is 4 and the client takes that.
pub fn removal_sets(
    alloc: Global,
    places: Row<u32>,
    size: u8,
    rice: bool,
) -> Result<Row<Removals>, OutOfMemory>
    requires rising { IsStrictlyIncreasing places }
    requires few { length places ≤ MAX_PREFIXES }
    requires below { All (λ place. place < MAX_PREFIXES) places }
    ensures sets { IfOk result (λ sets. sets ≡ removal_sets rice size places) }
    ensures keep { IfOk result (All IsRemoval) }
{
    let mut sets = Row::new(alloc);
    if !places.is_empty() {
        sets.push(removal_set(alloc, places, size, rice)?)?;
    }
    Ok(sets)
}
