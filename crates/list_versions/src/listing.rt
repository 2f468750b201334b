ghost use Rattle.std.specs.Prelude.{◌≡◌, List, [], ◌∷◌, ◌++◌, map, filter, All, IfOk, OnOk};
ghost use Rattle.std.specs.List.{IsDistinct};
ghost use Rattle.std.specs.Map.{keys_of};
ghost use Rattle.std.specs.Str.{bytes_eq};
ghost use Rattle.sb_model.specs.History.{prefix_of};
ghost use Rattle.sb_model.specs.Prefixes.{set_of};
ghost use Rattle.sb_model.specs.declared.history.Added.{Added as Entry};
ghost use Rattle.list_versions.specs.HashSizes.{IsMapOf, entry_at, shown_entry};
ghost use Rattle.list_versions.specs.Live.{IsPublishable};
ghost use Rattle.list_versions.specs.Lookup.{begins};

use crate::hash_sizes::Folding;
use crate::lookup::is_begun;
use crate::published::shown_prefix;
use hash_prefixes::{FullHash, HashKey, Prefix};
use prefix_set::{PrefixSet, sets_go_by_members};
use sb_model::{Added, OutOfMemory, Row};
use std::alloc::Global;
use std::collections::HashMap;

// The hashes of some full hashes with their sizes.
fn hashes_in(alloc: Global, entries: &[Added]) -> Result<Vec<[u8; 32]>, OutOfMemory>
    ensures { IfOk result (λ hashes. hashes.items ≡ map (λ entry. entry.hash) entries.now) }
{
    let mut hashes = Vec::with_capacity(alloc, entries.len())?;
    for entry in entries {
        hashes.push(entry.hash)?;
    }
    Ok(hashes)
}

// Puts full hashes into rising order, each once.
fn put_in_order(hashes: &mut Vec<[u8; 32]>)
    ensures { hashes.new.items ≡ set_of hashes.old.items }
{
    sets_go_by_members();
    hashes.sort_unstable();
    hashes.dedup();
}

// The full hashes as a row.
fn row_of(alloc: Global, hashes: &[[u8; 32]]) -> Result<Row<FullHash>, OutOfMemory>
    ensures { IfOk result (λ row. map (λ hash. hash.bytes) row ≡ hashes.now) }
{
    let mut row = Row::with_capacity(alloc, hashes.len())?;
    for hash in hashes {
        row.push(FullHash { bytes: *hash })?;
    }
    Ok(row)
}

// The full hashes in rising order, each once.
fn rising_row(alloc: Global, mut hashes: Vec<[u8; 32]>) -> Result<Row<FullHash>, OutOfMemory>
    ensures { IfOk result (λ row. map (λ hash. hash.bytes) row ≡ set_of hashes.items) }
{
    put_in_order(&mut hashes);
    row_of(alloc, hashes.as_slice())
}

/// The hashes of some full hashes with their sizes, rising.
pub(crate) fn hashes_of(alloc: Global, entries: &[Added]) -> Result<Row<FullHash>, OutOfMemory>
    ensures { IfOk result (λ hashes. map (λ hash. hash.bytes) hashes ≡ set_of (map (λ entry. entry.hash) entries.now)) }
{
    let hashes = hashes_in(alloc, entries)?;
    rising_row(alloc, hashes)
}

// Appends a full hash, where it begins with a prefix.
fn push_begun(
    found: &mut Vec<[u8; 32]>,
    prefix: &Prefix,
    hash: &[u8; 32],
) -> Result<(), OutOfMemory>
    ensures { OnOk result (found.new.items ≡ found.old.items ++ filter (begins prefix.now) (hash.now ∷ [])) }
{
    if is_begun(prefix, hash) {
        found.push(*hash)?;
    }
    Ok(())
}

// The hashes that begin with a prefix.
fn begun_in(alloc: Global, entries: &[Added], prefix: &Prefix) -> Result<Vec<[u8; 32]>, OutOfMemory>
    ensures { IfOk result (λ hashes.
        hashes.items ≡ filter (begins prefix.now) (map (λ entry. entry.hash) entries.now)) }
{
    let mut hashes = Vec::new(alloc);
    for entry in entries {
        push_begun(&mut hashes, prefix, &entry.hash)?;
    }
    Ok(hashes)
}

/// The hashes that begin with a prefix, rising.
pub(crate) fn hashes_begun(
    alloc: Global,
    entries: &[Added],
    prefix: &Prefix,
) -> Result<Row<FullHash>, OutOfMemory>
    ensures { IfOk result (λ hashes. map (λ hash. hash.bytes) hashes
        ≡ set_of (filter (begins prefix.now) (map (λ entry. entry.hash) entries.now))) }
{
    let hashes = begun_in(alloc, entries, prefix)?;
    rising_row(alloc, hashes)
}

// The full hashes with their sizes, in the order of the map.
fn entries_in(alloc: Global, sizes: &HashMap<HashKey, u8>) -> Result<Vec<Added>, OutOfMemory>
    ensures value { IfOk result (λ entries. entries.items ≡ map entry_at sizes.now.entries) }
    ensures unique { OnOk result (IsDistinct bytes_eq (keys_of sizes.now.entries)) }
{
    let mut entries = Vec::with_capacity(alloc, sizes.len())?;
    'hashes: for (key, size) in sizes.iter() {
        entries.push(Added {
            hash: key.bytes,
            size: *size,
        })?;
    }
    Ok(entries)
}

/// The full hashes with their sizes, each once.
pub(crate) fn entries_of(alloc: Global, folding: &Folding) -> Result<Vec<Added>, OutOfMemory>
    ensures map { IfOk result (λ entries. IsMapOf folding.now entries.items) }
    ensures once { IfOk result
        (λ entries. IsDistinct bytes_eq (map (λ entry. entry.hash) entries.items)) }
{
    sets_go_by_members();
    let entries = entries_in(alloc, folding.sizes())?;
    Ok(entries)
}

// The prefixes that are published, in the order of the map.
fn prefixes_in(alloc: Global, sizes: &HashMap<HashKey, u8>) -> Result<Vec<Prefix>, OutOfMemory>
    ensures value { IfOk result (λ prefixes. prefixes.items ≡ map shown_entry sizes.now.entries) }
    ensures unique { OnOk result (IsDistinct bytes_eq (keys_of sizes.now.entries)) }
{
    let mut prefixes = Vec::with_capacity(alloc, sizes.len())?;
    'hashes: for (key, size) in sizes.iter() {
        let entry = Added {
            hash: key.bytes,
            size: *size,
        };
        prefixes.push(shown_prefix(&entry))?;
    }
    Ok(prefixes)
}

/// The set of the prefixes that are published of the full hashes.
pub(crate) fn prefixes_of(alloc: Global, folding: &Folding) -> Result<PrefixSet, OutOfMemory>
    ensures { IfOk result (λ set. (entries : List Entry) → IsMapOf folding.now entries
        → All IsPublishable entries → set ≡ set_of (map prefix_of entries)) }
{
    sets_go_by_members();
    let prefixes = prefixes_in(alloc, folding.sizes())?;
    match PrefixSet::from_prefixes(alloc, prefixes.as_slice()) {
        Ok(set) => Ok(set),
        Err(_) => Err(OutOfMemory),
    }
}
