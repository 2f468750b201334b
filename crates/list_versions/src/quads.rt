//! Prefixes of four bytes as numbers, and what leads from some of them to others.
ghost use Rattle.std.specs.Prelude.{◌≡◌, true, ℕ, ◌^◌, ◌<◌, ◌≤◌, List, ◌∷◌, [], ◌++◌, length, map, All, IfOk, IfSome, OnOk};
ghost use Rattle.std.specs.Int.{w32, to_be_bytes};
ghost use Rattle.std.specs.List.Sorted.{IsStrictlyIncreasing};
ghost use Rattle.sb_model.specs.Difference.{removed_places, added_members};
ghost use Rattle.sb_model.specs.History.{prefix_of, prefixes_at, sizes_at};
ghost use Rattle.sb_model.specs.Prefixes.{set_of};
ghost use Rattle.list_versions.specs.Draft.{history_of};
ghost use Rattle.list_versions.specs.Ends.{Line, adds_of, lasting};
ghost use Rattle.list_versions.specs.Live.{HasRead};
ghost use Rattle.list_versions.specs.Loaded.{IsStem};
ghost use Rattle.list_versions.specs.Quads.{quads_of, is_first_of, IsFrom};

use crate::draft::Draft;
use crate::lists::{adds_count, same};
use crate::live::Live;
use crate::lookup::live_of;
use crate::numbers;
use crate::standing::is_above;
use crate::stretches::head_of;
use hash_prefixes::Prefix;
use prefix_set::{Delta, PrefixSet, sets_go_by_members};
use sb_model::{Added, Change, ListName, OutOfMemory, Row};
use std::alloc::Global;

// Appends the number of what is published of a full hash, and answers whether it has four bytes. If
// not, nothing is appended.
fn push_head(found: &mut Vec<u32>, added: &Added) -> Result<bool, OutOfMemory>
    ensures { IfOk result (λ four. four ≡ true
        → quads_of found.new.items ≡ quads_of found.old.items ++ prefix_of added.now ∷ []) }
{
    if added.size != 4 {
        return Ok(false);
    }
    found.push(head_of(&added.hash))?;
    Ok(true)
}

// Appends the numbers of what is published of those of some lines whose end is above a version.
// Answers whether all have four bytes, and else stops.
fn push_heads(
    found: &mut Vec<u32>,
    adds: &[Added],
    ends: &[u32],
    version: usize,
) -> Result<bool, OutOfMemory>
    requires { length ends.now ≡ length adds.now }
    ensures { IfOk result (λ four. four ≡ true → (lines : List Line) → map (λ line. line.0) lines ≡ adds.now → map (λ line. line.1) lines ≡ ends.now
        → quads_of found.new.items ≡ quads_of found.old.items ++ map prefix_of (lasting version true lines)) }
{
    for (i, added) in adds.iter().enumerate() {
        if is_above(ends[i], version, true) && !push_head(found, added)? {
            return Ok(false);
        }
    }
    Ok(true)
}

// The numbers of what is published of those lines of a list, of these changes, whose end is above a
// version. `None` if one of them publishes other than four bytes.
fn heads_in(
    alloc: Global,
    changes: &[Change],
    list: ListName,
    ends: &[u32],
    version: usize,
) -> Result<Option<Vec<u32>>, OutOfMemory>
    requires { length ends.now ≡ length (adds_of list changes.now) }
    ensures { IfOk result (λ heads. IfSome heads (λ found. (lines : List Line) → map (λ line. line.0) lines ≡ adds_of list changes.now
        → map (λ line. line.1) lines ≡ ends.now → quads_of found.items ≡ map prefix_of (lasting version true lines))) }
{
    let mut found = Vec::with_capacity(alloc, ends.len())?;
    let mut rest = ends;
    for change in changes {
        if same(change.list, list) {
            let (own, later) = rest.split_at(change.adds.len());
            if !push_heads(&mut found, change.adds.as_slice(), own, version)? {
                return Ok(None);
            }
            rest = later;
        }
    }
    Ok(Some(found))
}

// The numbers of what is published of the full hashes of a list at a version. `None` if of one of
// them other than four bytes are.
fn heads_at(
    alloc: Global,
    draft: &Draft,
    list: ListName,
    live: &Live,
    version: usize,
) -> Result<Option<Vec<u32>>, OutOfMemory>
    requires stem { IsStem draft.now }
    requires version { version ≤ length draft.now.changes.items }
    requires read { HasRead list draft.now.changes.items live.now }
    ensures prefixes { IfOk result (λ heads. IfSome heads (λ found.
        quads_of found.items ≡ map prefix_of (sizes_at (history_of draft.now) list version))) }
    ensures few { IfOk result (λ heads. IfSome heads (λ found. length found.items < 2 ^ 32)) }
{
    let front = &draft.changes.as_slice()[..version];
    let count = adds_count(front, list);
    heads_in(alloc, front, list, &live.ends[..count], version)
}

// Puts numbers into rising order, each once.
fn put_in_order(numbers: &mut Vec<u32>)
    ensures prefixes { quads_of numbers.new.items ≡ set_of (quads_of numbers.old.items) }
    ensures rising { IsStrictlyIncreasing numbers.new.items }
    ensures fewer { length numbers.new.items ≤ length numbers.old.items }
{
    sets_go_by_members();
    numbers.sort_unstable();
    numbers.dedup();
}

// The number of a prefix of four bytes.
fn number_of(quad: &[u8; 4]) -> u32
    ensures { to_be_bytes w32 result ≡ quad.now }
{
    u32::from_be_bytes(*quad)
}

// The numbers of prefixes of four bytes.
fn numbers_from(alloc: Global, quads: &[[u8; 4]]) -> Result<Vec<u32>, OutOfMemory>
    ensures prefixes { IfOk result (λ numbers. quads_of numbers.items ≡ quads.now) }
    ensures small { IfOk result (λ numbers. All (λ number. number < 2 ^ 32) numbers.items) }
{
    let mut numbers = Vec::with_capacity(alloc, quads.len())?;
    for quad in quads {
        numbers.push(number_of(quad))?;
    }
    Ok(numbers)
}

// The numbers of the members of a set, rising. `None` if one of them has other than four bytes.
fn members_of(alloc: Global, set: &PrefixSet) -> Result<Option<Vec<u32>>, OutOfMemory>
    ensures prefixes { IfOk result (λ found. IfSome found (λ numbers. quads_of numbers.items ≡ set.now)) }
    ensures rising { IfOk result (λ found. IfSome found (λ numbers. IsStrictlyIncreasing numbers.items)) }
{
    let bytes = set.bytes_of_size(alloc, 4)?;
    let quads = numbers::quads_of(bytes.as_slice());
    if quads.len() != set.len() as usize {
        return Ok(None);
    }
    let numbers = numbers_from(alloc, quads)?;
    Ok(Some(numbers))
}

// What is left of a row of numbers without the first ones, which are below a number.
fn from_number(numbers: &[u32], number: u32) -> &[u32]
    ensures { IsFrom number numbers.now result.now }
{
    for (i, other) in numbers.iter().enumerate() {
        if *other >= number {
            return &numbers[i..];
        }
    }
    &[]
}

// Whether a number is the first of a row.
fn is_first(numbers: &[u32], number: u32) -> bool
    ensures { result ≡ is_first_of number numbers.now }
{
    match numbers {
        [first, ..] => *first == number,
        [] => false,
    }
}

// The places of the prefixes that a newer set lacks, by the numbers of both.
fn places_lost(alloc: Global, older: &[u32], newer: &[u32]) -> Result<Row<u32>, OutOfMemory>
    requires older { IsStrictlyIncreasing older.now }
    requires newer { IsStrictlyIncreasing newer.now }
    requires few { length older.now < 2 ^ 32 }
    ensures { IfOk result (λ places. places ≡ removed_places (quads_of older.now) (quads_of newer.now)) }
{
    let least = older.len().saturating_sub(newer.len());
    let mut places = Row::with_capacity(alloc, least)?;
    let mut rest = newer;
    for (i, number) in older.iter().enumerate() {
        rest = from_number(rest, *number);
        if !is_first(rest, *number) {
            places.push(i as u32)?;
        }
    }
    Ok(places)
}

// The prefix of a number.
fn prefix_from(number: u32) -> Prefix
    ensures { result ≡ to_be_bytes w32 number }
{
    let bytes = number.to_be_bytes();
    Prefix::from_bytes(bytes.as_slice()).unwrap()
}

// The prefixes that an older set lacks, by the numbers of both.
fn prefixes_gained(alloc: Global, older: &[u32], newer: &[u32]) -> Result<Row<Prefix>, OutOfMemory>
    requires older { IsStrictlyIncreasing older.now }
    requires newer { IsStrictlyIncreasing newer.now }
    ensures { IfOk result (λ prefixes. prefixes ≡ added_members (quads_of older.now) (quads_of newer.now)) }
{
    let least = newer.len().saturating_sub(older.len());
    let mut prefixes = Row::with_capacity(alloc, least)?;
    let mut rest = older;
    for number in newer {
        rest = from_number(rest, *number);
        if !is_first(rest, *number) {
            prefixes.push(prefix_from(*number))?;
        }
    }
    Ok(prefixes)
}

// What leads from one set to another, by the numbers of both.
fn delta_between(alloc: Global, older: &[u32], newer: &[u32]) -> Result<Delta, OutOfMemory>
    requires older { IsStrictlyIncreasing older.now }
    requires newer { IsStrictlyIncreasing newer.now }
    requires few { length older.now < 2 ^ 32 }
    ensures removals { IfOk result (λ delta. delta.removals ≡ removed_places (quads_of older.now) (quads_of newer.now)) }
    ensures additions { IfOk result (λ delta. delta.additions ≡ added_members (quads_of older.now) (quads_of newer.now)) }
{
    let removals = places_lost(alloc, older, newer)?;
    let additions = prefixes_gained(alloc, older, newer)?;
    Ok(Delta {
        removals,
        additions,
    })
}

/// What leads from the prefixes of a list at a version to its newest ones, by the numbers of both. `None` if the
/// list is not declared, or one of these prefixes has other than four bytes.
pub(crate) fn led_by_numbers(
    alloc: Global,
    draft: &Draft,
    list: ListName,
    newest: &PrefixSet,
    version: usize,
) -> Result<Option<Delta>, OutOfMemory>
    requires stem { IsStem draft.now }
    requires version { version ≤ length draft.now.changes.items }
    ensures removals { IfOk result (λ found. IfSome found (λ delta. delta.removals ≡ removed_places (prefixes_at (history_of draft.now) list version) newest.now)) }
    ensures additions { IfOk result (λ found. IfSome found (λ delta. delta.additions ≡ added_members (prefixes_at (history_of draft.now) list version) newest.now)) }
{
    let Some(live) = live_of(draft.lists.as_slice(), list) else {
        return Ok(None);
    };
    let Some(newer) = members_of(alloc, newest)? else {
        return Ok(None);
    };
    let Some(mut older) = heads_at(alloc, draft, list, live, version)? else {
        return Ok(None);
    };
    put_in_order(&mut older);
    let delta = delta_between(alloc, older.as_slice(), newer.as_slice())?;
    Ok(Some(delta))
}
