ghost use Rattle.std.specs.Prelude.{◌≡◌, List, [], length, take};
ghost use Rattle.sb_model.specs.declared.time.Moment.{Moment};
ghost use Rattle.hash_prefixes.specs.declared.hashes.FullHash.{FullHash};
ghost use Rattle.full_hash_cache.specs.Cache.{cached_of};
ghost use Rattle.full_hash_cache.specs.Law.{Step, after_steps, IsToldAfter, IsNotReturned};
ghost use Rattle.full_hash_cache.specs.declared.pair.Pair.{Pair};

use crate::Cached;

/// A cache that began with no pairs says that a hash is unsafe, for a list and a prefix, only where an
/// answer that it took was asked for this pair and has a match of the list and the hash, and the time
/// that this match may be kept has not passed.
pub fn unsafe_hashes_were_told()
    ensures { (steps : List Step) (now : Moment) (pair : Pair) (hash : FullHash)
        → cached_of (after_steps [] steps) now pair hash ≡ Cached.Unsafe
        → IsToldAfter steps now pair hash }
{}

/// A cache that began with no pairs says that a hash is safe, for a list and a prefix that begins the
/// hash, only where the last answer that put the two has no match of the list and the hash, its
/// negative duration has not passed, and no match of the hash is kept.
pub fn safe_hashes_were_not_returned()
    ensures { (steps : List Step) (now : Moment) (pair : Pair) (hash : FullHash)
        → take (length pair.prefix) hash.bytes ≡ pair.prefix
        → cached_of (after_steps [] steps) now pair hash ≡ Cached.Safe
        → IsNotReturned steps now pair hash }
{}
