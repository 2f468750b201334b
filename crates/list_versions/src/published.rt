ghost use Rattle.std.specs.Prelude.{◌≡◌, List, ◌++◌, map, All, IfOk, OnOk};
ghost use Rattle.std.specs.List.{IsDistinct};
ghost use Rattle.std.specs.Map.{keys_of, values_of};
ghost use Rattle.sb_model.specs.History.{prefix_of};
ghost use Rattle.std.specs.Str.{bytes_eq};
ghost use Rattle.sb_model.specs.Prefixes.{set_of};
ghost use Rattle.sb_model.specs.declared.history.Added.{Added as Entry};
ghost use Rattle.list_versions.specs.Buckets.{added_of};
ghost use Rattle.list_versions.specs.Live.{Holds, IsPublishable, shown, in_buckets};

use crate::bucket::Standing;
use crate::live::Live;
use hash_prefixes::{FullHash, Prefix};
use prefix_set::{PrefixSet, sets_go_by_members};
use sb_model::{Added, OutOfMemory};
use std::alloc::Global;

/// The prefix that is published of a full hash.
pub(crate) fn shown_prefix(entry: &Added) -> Prefix
    ensures { result ≡ shown entry.now }
{
    let hash = FullHash { bytes: entry.hash };
    hash.prefix(entry.size.max(4).min(32))
}

// Appends the prefixes of some full hashes.
fn push_prefixes(prefixes: &mut Vec<Prefix>, bucket: &[Standing]) -> Result<(), OutOfMemory>
    ensures { OnOk result (prefixes.new.items ≡ prefixes.old.items ++ map shown (added_of bucket.now)) }
{
    for line in bucket {
        prefixes.push(shown_prefix(&line.added))?;
    }
    Ok(())
}

// The prefixes of all full hashes that are kept, one bucket after the other.
fn all_prefixes(alloc: Global, live: &Live) -> Result<Vec<Prefix>, OutOfMemory>
    ensures value { IfOk result (λ prefixes. prefixes.items ≡ map shown (in_buckets (values_of live.now.buckets.entries))) }
    ensures unique { OnOk result (IsDistinct bytes_eq (keys_of live.now.buckets.entries)) }
{
    let mut prefixes = Vec::with_capacity(alloc, live.count as usize)?;
    'buckets: for bucket in live.buckets.values() {
        push_prefixes(&mut prefixes, bucket.as_slice())?;
    }
    Ok(prefixes)
}

/// The set of the prefixes that are published of the full hashes which are kept.
pub(crate) fn published_set(alloc: Global, live: &Live) -> Result<PrefixSet, OutOfMemory>
    ensures { IfOk result (λ set. (entries : List Entry) → Holds live.now entries → set ≡ set_of (map prefix_of entries)) }
{
    let prefixes = all_prefixes(alloc, live)?;
    sets_go_by_members();
    match PrefixSet::from_prefixes(alloc, prefixes.as_slice()) {
        Ok(set) => Ok(set),
        Err(_) => Err(OutOfMemory),
    }
}

/// The prefixes of some full hashes.
pub(crate) fn prefixes_in(alloc: Global, entries: &[Added]) -> Result<Vec<Prefix>, OutOfMemory>
    ensures { IfOk result (λ prefixes. prefixes.items ≡ map shown entries.now) }
{
    let mut prefixes = Vec::with_capacity(alloc, entries.len())?;
    for entry in entries {
        prefixes.push(shown_prefix(entry))?;
    }
    Ok(prefixes)
}

/// The set of the prefixes that are published of some full hashes.
pub(crate) fn published_of(alloc: Global, entries: &[Added]) -> Result<PrefixSet, OutOfMemory>
    requires { All IsPublishable entries.now }
    ensures { IfOk result (λ set. set ≡ set_of (map prefix_of entries.now)) }
{
    let prefixes = prefixes_in(alloc, entries)?;
    sets_go_by_members();
    match PrefixSet::from_prefixes(alloc, prefixes.as_slice()) {
        Ok(set) => Ok(set),
        Err(_) => Err(OutOfMemory),
    }
}
