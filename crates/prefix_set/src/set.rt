ghost use Rattle.std.specs.Prelude.{◌≡◌, ◌≢◌, ◌<◌, ◌≤◌, ◌+◌, ◌*◌, ◌^◌, ℕ, ◌↔◌, ◌⊎◌, List, [], ◌++◌, length, nat_eq, filter, false, slice_get, slice_index_or, Some, None, Option, Ok, Contains, IsTrue, IfOk, IfSome, OnOk, IfErr};
ghost use Rattle.std.specs.List.{list_any};
ghost use Rattle.std.specs.Cmp.{partial_equiv_from_equiv};
ghost use Rattle.std.specs.Cmp.Lexicographic.{pointwise, lists_equiv, nat_list_eq_equiv};
ghost use Rattle.sb_model.specs.Prefixes.{IsRising, set_of, concatenation};
ghost use Rattle.sb_model.specs.Candidate.{without_places};
ghost use Rattle.sb_model.specs.Difference.{removed_places, added_members};
ghost use Rattle.sha2.specs.Sha256.{sha256};
ghost use Rattle.prefix_set.specs.Apply.{applied, apply_fault, first_past, limit_fault, Stays};
ghost use Rattle.prefix_set.specs.Index.{HaveHeads, alike_count, count_below};
ghost use Rattle.prefix_set.specs.Search.{IsSpanOf};
ghost use Rattle.sb_model.specs.History.{IsPrefixSize};
ghost use Rattle.prefix_set.specs.Packing.{HaveSize};
ghost use Rattle.prefix_set.specs.Limits.{ArePrefixes, IsPrefixSet};

use crate::difference::{Delta, members_added, places_removed, prefix_of};
use crate::edit::{Edit, EditParts, numbers_of};
use crate::growing::{Grown, NoDigest};
use crate::index::{HeadIndex, head_of, heads_below};
use crate::merge::merged;
use crate::packed::PackedPrefixes;
use crate::search::place_between;
use crate::store::PackedStore;
use crate::{ApplyFault, Members};
use hash_prefixes::Prefix;
use sb_model::{Bytes, OutOfMemory, Steps};
use sha2::{Digest, Sha256};
use std::alloc::Global;
use std::cmp::Ordering;
use std::marker::Model;
use std::sync::ledger::Ledger;

/// The most prefixes that a set holds.
pub const MAX_PREFIXES: u64 = 1_048_576;

/// The most bytes that the prefixes of a set have in all.
pub const MAX_BYTES: u64 = 8_388_608;

/// A set of hash prefixes, of one size or of several. Contracts see it as the rising list of the
/// prefixes as byte strings, without repeats.
#[derive(Debug, Drop)]
pub struct PrefixSet {
    store: PackedStore,
    index: HeadIndex,
}

impl Model for PrefixSet {
    ghost use Rattle.std.specs.Prelude.{ℕ, List};
    ghost use Rattle.prefix_set.specs.Index.{IsIndexed};

    ghost Value = { List (List ℕ) };

    ghost view = { λ s. s.store };

    ghost invariant = { λ s. IsIndexed s.store s.index };
}

/// What `merge` made: the set, and its digest.
#[derive(Debug, Drop)]
pub struct Merged {
    pub set: PrefixSet,
    pub digest: [u8; 32],
}

// A set that a change made, and a hasher that has the bytes of its members.
#[derive(Drop)]
struct Changed<D> {
    set: PrefixSet,
    hasher: D,
}

// The members from one place on and before another.
#[derive(Clone, Copy)]
struct Span {
    start: u32,
    end: u32,
}

// The first of the indices that is not below a length.
fn index_past(len: u32, indices: &[u32]) -> Option<u32>
    ensures { result ≡ first_past len indices.now }
{
    indices.iter().copied().find(|index| *index >= len)
}

// Why these rising members are more than a set holds.
fn past_limits(members: &PackedPrefixes) -> Option<ApplyFault>
    ensures { result ≡ limit_fault members.now }
{
    let count = members.len() as u64;
    if count > MAX_PREFIXES {
        return Some(ApplyFault::TooMany(count));
    }
    let bytes = members.byte_len() as u64;
    if bytes > MAX_BYTES {
        return Some(ApplyFault::TooLarge(bytes));
    }
    None
}

impl PrefixSet {
    /// The set without a member. It takes no memory.
    pub fn empty(alloc: Global) -> PrefixSet
        ensures { result ≡ [] }
    {
        PrefixSet {
            store: PackedStore::of(PackedPrefixes::new(alloc)),
            index: HeadIndex::empty(alloc),
        }
    }

    /// The set of these prefixes, which may stand in any order and with repeats.
    pub fn from_prefixes(alloc: Global, prefixes: &[Prefix]) -> Result<PrefixSet, ApplyFault>
        ensures ok { IfOk result (λ set. set ≡ set_of prefixes.now) }
        ensures within { OnOk result (limit_fault (set_of prefixes.now) ≡ None) }
        ensures fault { IfErr result (λ fault. (fault ≡ ApplyFault.OutOfMemory)
            ⊎ (limit_fault (set_of prefixes.now) ≡ Some fault)) }

        // What `set_of` says, in plain words.
        ensures rising { IfOk result IsRising }
        ensures members { IfOk result (λ set. (x : List ℕ)
            → Contains set x ↔ Contains prefixes.now x) }
        ensures no_more { length (set_of prefixes.now) ≤ length prefixes.now }
        ensures no_longer { length (concatenation (set_of prefixes.now))
            ≤ length (concatenation prefixes.now) }
    {
        let members = PackedPrefixes::from_prefixes(alloc, prefixes)?.into_rising(alloc)?;
        PrefixSet::of_rising(alloc, members)
    }

    /// The set without the members at the places of `removals`, counted from 0, and with the
    /// additions. Both may stand in any order and with repeats, and an addition may be there already
    /// or be removed in the same call, which keeps it.
    pub fn apply(
        &self,
        alloc: Global,
        removals: &[u32],
        additions: &[Prefix],
    ) -> Result<PrefixSet, ApplyFault>
        ensures ok { IfOk result (λ set. set ≡ applied self.now removals.now additions.now) }
        ensures within { OnOk result (apply_fault self.now removals.now additions.now ≡ None) }
        ensures fault { IfErr result (λ fault. (fault ≡ ApplyFault.OutOfMemory)
            ⊎ (apply_fault self.now removals.now additions.now ≡ Some fault)) }

        // What `applied` says, in plain words.
        ensures rising { IfOk result IsRising }
        ensures members { IfOk result (λ set. (x : List ℕ) → Contains set x
            ↔ (Stays self.now removals.now x ⊎ Contains additions.now x)) }
    {
        let additions = PackedPrefixes::from_prefixes(alloc, additions)?;
        let removals = numbers_of(alloc, removals)?;
        let changed = self.changed::<NoDigest>(alloc, removals, additions)?;
        Ok(changed.set)
    }

    /// What `apply` makes of the lists of an edit, and the digest of the set.
    pub fn merge(&self, alloc: Global, edit: Edit) -> Result<Merged, ApplyFault>
        ensures ok { IfOk result
            (λ merged. merged.set ≡ applied self.now edit.removals edit.additions) }
        ensures digest { IfOk result
            (λ merged. merged.digest ≡ sha256 (concatenation merged.set)) }
        ensures within { OnOk result
            (apply_fault self.now edit.removals edit.additions ≡ None) }
        ensures fault { IfErr result (λ fault. (fault ≡ ApplyFault.OutOfMemory)
            ⊎ (apply_fault self.now edit.removals edit.additions ≡ Some fault)) }

        // What `applied` says, in plain words.
        ensures rising { IfOk result (λ merged. IsRising merged.set) }
        ensures members { IfOk result (λ merged. (x : List ℕ) → Contains merged.set x
            ↔ (Stays self.now edit.removals x ⊎ Contains edit.additions x)) }
    {
        let EditParts {
            removals,
            additions,
        } = edit.into_parts();
        let Changed { set, hasher } = self.changed::<Sha256>(alloc, removals, additions)?;
        Ok(Merged {
            set,
            digest: hasher.finalize(),
        })
    }

    /// What `apply` makes of the lists of an edit. It is `merge` without the digest, and takes none of
    /// its time.
    pub fn apply_edit(&self, alloc: Global, edit: Edit) -> Result<PrefixSet, ApplyFault>
        ensures ok { IfOk result (λ set. set ≡ applied self.now edit.removals edit.additions) }
        ensures within { OnOk result
            (apply_fault self.now edit.removals edit.additions ≡ None) }
        ensures fault { IfErr result (λ fault. (fault ≡ ApplyFault.OutOfMemory)
            ⊎ (apply_fault self.now edit.removals edit.additions ≡ Some fault)) }
    {
        let EditParts {
            removals,
            additions,
        } = edit.into_parts();
        let changed = self.changed::<NoDigest>(alloc, removals, additions)?;
        Ok(changed.set)
    }

    // The one body of the changes.
    fn changed<D: Digest>(
        &self,
        alloc: Global,
        removals: Vec<u32>,
        additions: PackedPrefixes,
    ) -> Result<Changed<D>, ApplyFault>
        ensures ok { IfOk result
            (λ changed. changed.set ≡ applied self.now removals.items additions) }
        ensures hasher { IfOk result
            (λ changed. D.holds changed.hasher (concatenation changed.set)) }
        ensures within { OnOk result (apply_fault self.now removals.items additions ≡ None) }
        ensures fault { IfErr result (λ fault. (fault ≡ ApplyFault.OutOfMemory)
            ⊎ (apply_fault self.now removals.items additions ≡ Some fault)) }
    {
        if let Some(index) = index_past(self.len(), &removals) {
            return Err(ApplyFault::IndexRange {
                index,
                len: self.len(),
            });
        }
        let Grown { members, hasher } = merged::<D>(
            alloc,
            self.store.packed(),
            removals,
            additions,
        )?;
        let set = PrefixSet::of_rising(alloc, members)?;
        Ok(Changed { set, hasher })
    }

    // The set of these rising members, if they are within the limits.
    fn of_rising(alloc: Global, members: PackedPrefixes) -> Result<PrefixSet, ApplyFault>
        requires { IsRising members }
        ensures ok { IfOk result (λ set. set ≡ members) }
        ensures within { OnOk result (limit_fault members ≡ None) }
        ensures fault { IfErr result (λ fault. (fault ≡ ApplyFault.OutOfMemory)
            ⊎ (limit_fault members ≡ Some fault)) }
    {
        if let Some(fault) = past_limits(&members) {
            return Err(fault);
        }
        let index = HeadIndex::of(alloc, &members)?;
        Ok(PrefixSet {
            store: PackedStore::of(members),
            index,
        })
    }

    /// The set whose members, all of one size, stand one after the other in a string of bytes. None
    /// where the bytes are no such set: where they do not end with a prefix, the prefixes do not rise
    /// or repeat one, or they are more than a set holds.
    pub fn from_rising_bytes(
        alloc: Global,
        size: u8,
        bytes: &[u8],
    ) -> Result<Option<PrefixSet>, OutOfMemory>
        requires { IsPrefixSize size }
        ensures some { IfOk result (λ found. IfSome found
            (λ set. IsPrefixSet set × HaveSize size set × (concatenation set ≡ bytes.now))) }
        ensures none { result ≡ Ok None → (set : List (List ℕ)) → IsPrefixSet set
            → HaveSize size set → concatenation set ≢ bytes.now }
    {
        if bytes.len() as u64 > MAX_BYTES {
            return Ok(None);
        }
        if bytes.len() % size as usize != 0 {
            return Ok(None);
        }
        let members = PackedPrefixes::from_bytes(alloc, size, bytes)?;
        if members.len() as u64 > MAX_PREFIXES {
            return Ok(None);
        }
        if !members.rises() {
            return Ok(None);
        }
        let index = HeadIndex::of(alloc, &members)?;
        Ok(Some(PrefixSet {
            store: PackedStore::of(members),
            index,
        }))
    }

    /// The same set once more.
    pub fn copy(&self, alloc: Global) -> Result<PrefixSet, OutOfMemory>
        ensures { IfOk result (λ copy. copy ≡ self.now) }
    {
        let store = self.store.copy(alloc)?;
        let index = self.index.copy(alloc)?;
        Ok(PrefixSet { store, index })
    }

    /// What leads from this set to a newer one. `apply` of it to this set is the newer set.
    pub fn difference(&self, alloc: Global, newer: &PrefixSet) -> Result<Delta, OutOfMemory>
        ensures removals { IfOk result
            (λ delta. delta.removals ≡ removed_places self.now newer.now) }
        ensures additions { IfOk result
            (λ delta. delta.additions ≡ added_members self.now newer.now) }

        // Applied to this set it gives the newer one.
        ensures leads { IfOk result
            (λ delta. applied self.now delta.removals delta.additions ≡ newer.now) }
        ensures applies { IfOk result
            (λ delta. apply_fault self.now delta.removals delta.additions ≡ None) }
    {
        let held = self.store.packed();
        let wanted = newer.store.packed();
        let removals = places_removed(alloc, held, wanted)?;
        let additions = members_added(alloc, held, wanted)?;
        Ok(Delta {
            removals,
            additions,
        })
    }

    /// How many members there are.
    pub fn len(&self) -> u32
        ensures value { result ≡ length self.now }

        // What each set keeps: the members rise, each has 4 to 32 bytes, and they are within the
        // limits.
        ensures rising { IsRising self.now }
        ensures prefixes { ArePrefixes self.now }
        ensures count { length self.now ≤ MAX_PREFIXES }
        ensures bytes { length (concatenation self.now) ≤ MAX_BYTES }
    {
        self.store.len()
    }

    pub fn is_empty(&self) -> bool
        ensures { IsTrue result ↔ (self.now ≡ []) }
    {
        self.store.packed().is_empty()
    }

    /// The member at a place of the rising order, counted from 0.
    pub fn at(&self, index: u32) -> Prefix
        requires { index < length self.now }
        ensures { slice_get self.now index ≡ Some result }
    {
        prefix_of(self.store.packed().at(index as usize))
    }

    /// The members, rising, each as its bytes.
    pub fn iter(&self) -> Members<'_>
        ensures members { result ≡ self.now }
        ensures prefixes { ArePrefixes self.now }
    {
        self.store.packed().iter()
    }

    /// Whether some member has this many bytes. It takes no memory.
    pub fn has_size(&self, size: u8) -> bool
        ensures { IsTrue result
            ↔ ((member : List ℕ) × Contains self.now member × (length member ≡ size)) }
    {
        self.store.packed().has_size(size)
    }

    /// For each number up to 32 whether some member has so many bytes. It takes no memory, and no time
    /// in the number of members where all have one size.
    pub fn sizes(&self) -> [bool; 33]
        ensures occurs { (size : ℕ) → size < 33 → slice_index_or result size false
            ≡ list_any (λ member. nat_eq (length member) size) self.now }
        ensures length { length result ≡ 33 }
    {
        self.store.packed().sizes()
    }

    /// The bytes of the members that have this many each, one after the other. Where all members have
    /// one size they are copied at once.
    pub fn bytes_of_size(&self, alloc: Global, size: u8) -> Result<Bytes, OutOfMemory>
        ensures { IfOk result (λ bytes. bytes
            ≡ concatenation (filter (λ member. nat_eq (length member) size) self.now)) }
    {
        self.store.packed().bytes_of_size(alloc, size)
    }

    /// The members in packed bytes.
    pub fn store(&self) -> &PackedStore
        ensures { result.now ≡ self.now }
    {
        &self.store
    }

    /// The SHA-256 of the members one after the other, in rising order.
    pub fn digest(&self) -> [u8; 32]
        ensures { result ≡ sha256 (concatenation self.now) }
    {
        self.store.packed().digest()
    }

    /// Whether the prefix is a member. It takes no memory.
    pub fn contains(&self, prefix: &Prefix) -> bool
        ensures { IsTrue result ↔ Contains self.now prefix.now }
    {
        let span = self.span_of(prefix);
        let members = self.store.packed();
        let bytes = prefix.as_bytes();
        place_between(members, span.start as usize, span.end as usize, bytes).is_found()
    }

    /// Whether the prefix is a member. It compares the prefix with members that have its first two
    /// bytes alone, and counts each comparison as a step: as many as their count has binary digits,
    /// or fewer. It takes no memory.
    pub fn contains_counted<L: Ledger>(&self, prefix: &Prefix, steps: &mut Steps<L>) -> bool
        requires { steps.old < 2 ^ 32 }
        ensures member { IsTrue result ↔ Contains self.now prefix.now }
        ensures steps { (r : ℕ) × (steps.new ≡ steps.old + r)
            × (2 ^ r ≤ 4 * alike_count self.now prefix.now + 2) }
    {
        let span = self.span_of(prefix);
        let store = &self.store;
        let mut low = span.start;
        let mut high = span.end;
        while low < high {
            let middle = low + (high - low) / 2;
            match store.compare(middle, prefix, steps) {
                Ordering::Less => low = middle + 1,
                Ordering::Equal => return true,
                Ordering::Greater => high = middle,
            }
        }
        false
    }

    // The members with the first two bytes of a prefix.
    fn span_of(&self, prefix: &Prefix) -> Span
        ensures { IsSpanOf self.now prefix.now result.start result.end }
    {
        // looked at for the prover: a prefix has 4 to 32 bytes
        let _ = prefix.size();
        self.span_with(head_of(prefix.as_bytes()))
    }

    // The members with a head.
    fn span_with(&self, head: u16) -> Span
        ensures start { result.start ≡ count_below self.now head }
        ensures end { result.end ≡ count_below self.now (head + 1) }
        ensures rising { IsRising self.now }
        ensures heads { HaveHeads self.now }
    {
        match &self.index {
            HeadIndex::Heads(heads) => Span {
                start: heads_below(heads, u32::from(head)) as u32,
                end: heads_below(heads, u32::from(head) + 1) as u32,
            },
            HeadIndex::Places(places) => Span {
                start: places[head as usize],
                end: places[head as usize + 1],
            },
        }
    }
}

impl PartialEq for PrefixSet {
    ghost eq = { pointwise (pointwise nat_eq) };

    ghost laws = { partial_equiv_from_equiv (lists_equiv nat_list_eq_equiv) };

    fn eq(&self, other: &PrefixSet) -> bool {
        self.store.packed() == other.store.packed()
    }
}

impl Eq for PrefixSet {
    ghost laws = { lists_equiv nat_list_eq_equiv };
}
