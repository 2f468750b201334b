ghost use Rattle.std.specs.Prelude.{◌≡◌, ℕ, ◌≤◌, List, [], ◌∷◌, ◌++◌, false, length, map, filter, take, All, IfOk, OnOk, IfSome, IfNone};
ghost use Rattle.std.specs.List.{list_any};
ghost use Rattle.std.specs.Str.{bytes_eq};
ghost use Rattle.sb_model.specs.Names.{same_name};
ghost use Rattle.sb_model.specs.Prefixes.{set_of};
ghost use Rattle.sb_model.specs.declared.history.Added.{Added as Entry};
ghost use Rattle.sb_model.specs.declared.names.ListName.{ListName as Name};
ghost use Rattle.sb_model.specs.declared.history.Change.{Change as Changed};
ghost use Rattle.list_versions.specs.Buckets.{added_of};
ghost use Rattle.list_versions.specs.Live.{Holds, HasPlaced, HasRead};
ghost use Rattle.list_versions.specs.Lookup.{begins};

use crate::bucket::Standing;
use crate::buckets::{HashHead, lines_at};
use crate::draft::Listed;
use crate::lists::same;
use crate::live::Live;
use hash_prefixes::{FullHash, Prefix};
use prefix_set::PrefixSet;
use sb_model::{Added, ListName, OutOfMemory, Row};
use std::alloc::Global;

/// The newest full hashes of a list.
pub(crate) fn live_of(lists: &[Listed], name: ListName) -> Option<&Live>
    ensures found { (sizes : Name → List Entry) → All (λ list. Holds list.live (sizes list.name)) lists.now
        → IfSome result (λ live. Holds live.now (sizes name)) }
    ensures placed { (changes : List Changed) → All (λ list. HasPlaced list.name changes list.live) lists.now
        → IfSome result (λ live. HasPlaced name changes live.now) }
    ensures read { (changes : List Changed) → All (λ list. HasRead list.name changes list.live) lists.now
        → IfSome result (λ live. HasRead name changes live.now) }
    ensures none { IfNone result (list_any (λ list. same_name list.name name) lists.now ≡ false) }
{
    for listed in lists {
        if same(listed.name, name) {
            return Some(&listed.live);
        }
    }
    None
}

/// The first four bytes of a prefix.
pub(crate) fn head_of(prefix: &Prefix) -> HashHead
    ensures value { result ≡ take 4 prefix.now }
    ensures long { 4 ≤ length prefix.now }
{
    // looked at for the prover: a prefix has 4 bytes at least
    let _ = prefix.size();
    let bytes = prefix.as_bytes();
    [bytes[0], bytes[1], bytes[2], bytes[3]]
}

/// Whether a full hash begins with a prefix.
pub(crate) fn is_begun(prefix: &Prefix, hash: &[u8; 32]) -> bool
    ensures { result ≡ begins prefix.now hash.now }
{
    let bytes = prefix.as_bytes();
    // looked at for the prover: a prefix has 32 bytes at most
    let _ = prefix.size();
    &hash[..bytes.len()] == bytes
}

// A full hash as a prefix of all its bytes.
fn whole_of(entry: &Added) -> Prefix
    ensures { result ≡ entry.now.hash }
{
    let hash = FullHash { bytes: entry.hash };
    hash.prefix(32)
}

// Appends a full hash as a prefix of all its bytes, where it begins with a prefix.
fn push_begun(found: &mut Vec<Prefix>, prefix: &Prefix, entry: &Added) -> Result<(), OutOfMemory>
    ensures value { OnOk result (found.new.items ≡ found.old.items ++ filter (begins prefix.now) (entry.now.hash ∷ [])) }
    ensures whole { length entry.now.hash ≡ 32 }
{
    if is_begun(prefix, &entry.hash) {
        found.push(whole_of(entry))?;
    }
    Ok(())
}

// The full hashes of a bucket that begin with a prefix.
fn begun_with(
    alloc: Global,
    bucket: &[Standing],
    prefix: &Prefix,
) -> Result<Vec<Prefix>, OutOfMemory>
    ensures value { IfOk result (λ found. found.items ≡ filter (begins prefix.now) (map (λ entry. entry.hash) (added_of bucket.now))) }
    ensures whole { OnOk result (All (λ entry. length entry.hash ≡ 32) (added_of bucket.now)) }
{
    let mut found = Vec::new(alloc);
    for line in bucket {
        push_begun(&mut found, prefix, &line.added)?;
    }
    Ok(found)
}

// The full hash of 32 bytes.
fn full_hash_of(prefix: &Prefix) -> FullHash
    requires { length prefix.now ≡ 32 }
    ensures { result.bytes ≡ prefix.now }
{
    let mut bytes = [0; 32];
    bytes.copy_from_slice(prefix.as_bytes());
    FullHash { bytes }
}

// The members of a set of full hashes.
fn members_of(alloc: Global, set: &PrefixSet) -> Result<Row<FullHash>, OutOfMemory>
    requires { All (λ hash. length hash ≡ 32) set.now }
    ensures { IfOk result (λ row. map (λ hash. hash.bytes) row ≡ set.now) }
{
    let mut row = Row::with_capacity(alloc, set.len() as usize)?;
    for i in 0..set.len() {
        row.push(full_hash_of(&set.at(i)))?;
    }
    Ok(row)
}

// Full hashes in rising order, each once.
fn rising(alloc: Global, hashes: &[Prefix]) -> Result<Row<FullHash>, OutOfMemory>
    requires { All (λ hash. length hash ≡ 32) hashes.now }
    ensures { IfOk result (λ row. map (λ hash. hash.bytes) row ≡ set_of hashes.now) }
{
    match PrefixSet::from_prefixes(alloc, hashes) {
        Ok(set) => members_of(alloc, &set),
        Err(_) => Err(OutOfMemory),
    }
}

/// The full hashes that begin with a prefix, rising.
pub(crate) fn hashes_with(
    alloc: Global,
    live: &Live,
    prefix: &Prefix,
) -> Result<Row<FullHash>, OutOfMemory>
    ensures { IfOk result (λ hashes. (entries : List Entry) → Holds live.now entries
        → map (λ hash. hash.bytes) hashes ≡ set_of (filter (begins prefix.now) (map (λ entry. entry.hash) entries))) }
{
    let head = head_of(prefix);
    let found = begun_with(alloc, lines_at(&live.buckets, &head), prefix)?;
    rising(alloc, found.as_slice())
}
