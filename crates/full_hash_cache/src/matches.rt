ghost use Rattle.std.specs.Prelude.{◌≡◌, ◌-◌, ◌≤◌, ◌++◌, length, take, replicate, ◌<◌, ℕ, slice_index, OnOk, IfOk};
ghost use Rattle.std.specs.List.{fold};
ghost use Rattle.sb_model.specs.Names.{same_name};
ghost use Rattle.full_hash_cache.specs.Cache.{with_match, latest, alive, beginning_with, matches_for};
ghost use Rattle.full_hash_cache.specs.Keys.{IsFullHash, HasFullHashes};

use hash_messages::Match;
use hash_prefixes::{FullHash, Prefix};
use sb_model::{ListName, Moment, OutOfMemory, cache_ms, later};
use std::alloc::Global;
use std::collections::BTreeMap;

/// Puts one match: the later end counts where the hash is there already.
fn put_match(
    matches: &mut BTreeMap<FullHash, Moment>,
    hash: FullHash,
    end: Moment,
) -> Result<(), OutOfMemory>
    ensures { OnOk result (matches.new.entries ≡ with_match matches.old.entries (hash, end)) }
{
    let end = match matches.get(&hash) {
        Some(other) if other.0 > end.0 => *other,
        _ => end,
    };
    matches.insert(hash, end)?;
    Ok(())
}

/// The matches that have not ended at a moment.
pub(crate) fn alive_of(
    alloc: Global,
    at: Moment,
    kept: &BTreeMap<FullHash, Moment>,
) -> Result<BTreeMap<FullHash, Moment>, OutOfMemory>
    ensures { IfOk result (λ matches. matches.entries ≡ latest (alive at kept.now.entries)) }
{
    let mut matches = BTreeMap::new(alloc);
    for (hash, end) in kept.iter() {
        if at.0 < end.0 {
            put_match(&mut matches, *hash, *end)?;
        }
    }
    Ok(matches)
}

/// The least hash that begins with a prefix: zeros follow.
fn least(prefix: &Prefix) -> FullHash
    ensures value { result.bytes ≡ prefix.now ++ replicate (32 - length prefix.now) 0 }
    ensures short { length prefix.now ≤ 32 }
{
    let own = prefix.as_bytes();
    let size = usize::from(prefix.size());
    let mut bytes = [0; 32];
    bytes[..size].copy_from_slice(own);
    FullHash { bytes }
}

/// The greatest hash that begins with a prefix: the greatest byte follows.
fn greatest(prefix: &Prefix) -> FullHash
    ensures { result.bytes ≡ prefix.now ++ replicate (32 - length prefix.now) 255 }
{
    let own = prefix.as_bytes();
    let size = usize::from(prefix.size());
    let mut bytes = [255; 32];
    bytes[..size].copy_from_slice(own);
    FullHash { bytes }
}

/// Puts the matches whose hash begins with a prefix.
pub(crate) fn put_beginning(
    matches: &mut BTreeMap<FullHash, Moment>,
    prefix: &Prefix,
    found: &BTreeMap<FullHash, Moment>,
) -> Result<(), OutOfMemory>
    requires { HasFullHashes found.now.entries }
    ensures { OnOk result (matches.new.entries
        ≡ fold with_match matches.old.entries (beginning_with prefix.now found.now.entries)) }
{
    let (low, high) = (least(prefix), greatest(prefix));
    for (hash, end) in found.range(low..=high) {
        put_match(matches, *hash, *end)?;
    }
    Ok(())
}

fn is_of(found: &Match, list: ListName) -> bool
    ensures { result ≡ same_name found.now.name list }
{
    found.name == list
}

/// A copy of 32 bytes.
fn whole(bytes: &[u8; 32]) -> [u8; 32]
    ensures value { result ≡ bytes.now }
    ensures size { length bytes.now ≡ 32 }
    ensures bytes { (k : ℕ) → slice_index bytes.now k < 256 }
{
    let _first = bytes[0];
    *bytes
}

/// The hash of a match.
fn hash_of(found: &Match) -> FullHash
    ensures value { result ≡ found.now.hash }
    ensures full { IsFullHash result }
{
    let bytes = whole(&found.hash.bytes);
    FullHash { bytes }
}

/// The matches of an answer for a list, with their ends.
pub(crate) fn gathered(
    alloc: Global,
    at: Moment,
    list: ListName,
    found: &[Match],
) -> Result<BTreeMap<FullHash, Moment>, OutOfMemory>
    ensures value { IfOk result (λ matches. matches.entries ≡ matches_for at list found.now) }
    ensures full { IfOk result (λ matches. HasFullHashes matches.entries) }
{
    let mut matches = BTreeMap::new(alloc);
    for one in found {
        if is_of(one, list) {
            let end = later(at, cache_ms(one.cache));
            put_match(&mut matches, hash_of(one), end)?;
        }
    }
    Ok(matches)
}
