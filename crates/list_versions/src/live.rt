ghost use Rattle.std.specs.Prelude.{◌≡◌, ℕ, ◌+◌, ◌^◌, ◌<◌, ◌≤◌, nat_lt, List, [], length, take, map, filter, fold, All, OnOk};
ghost use Rattle.std.specs.List.{list_any};
ghost use Rattle.std.specs.Str.{bytes_eq};
ghost use Rattle.sb_model.specs.History.{with_added, without_hash};
ghost use Rattle.sb_model.specs.declared.history.Added.{Added as Entry};
ghost use Rattle.list_versions.specs.Buckets.{without, with_line};
ghost use Rattle.list_versions.specs.Ends.{Line, ended, ended_at, is_of, lengthened, after_lines, never, restored};
ghost use Rattle.list_versions.specs.Limits.{limit_fault_at, most_alike, IsUncrowded};
ghost use Rattle.list_versions.specs.Live.{lines_in, Replaces, Holds, IsPlaced, KeepsEnds};

use crate::JournalFault;
use crate::bucket::{Standing, Tally, is_among};
use crate::buckets::{Buckets, HashHead, lines_at, put_at, remove_at};
use crate::ends::{NEVER, end_each, restore};
use sb_model::{Added, OutOfMemory};
use std::alloc::Global;
use std::collections::HashMap;

// The most full hashes of a list, the most of them that share their first four bytes, and the most bytes of prefixes.
const MOST_HASHES: u64 = 1_048_576;

const MOST_ALIKE: usize = 16;

const MOST_PREFIX_BYTES: u64 = 8_388_608;

/// The lines of a list that add, each with its end, and those of its newest full hashes by the first
/// four bytes of these.
#[derive(Debug, Drop)]
pub(crate) struct Live {
    /// The ends, in the order of the lines.
    pub ends: Vec<u32>,
    pub buckets: Buckets,
    pub count: u64,
    pub bytes: u64,
    /// No more than these share their first four bytes.
    pub most: u64,
}

fn head_of(hash: &[u8; 32]) -> HashHead
    ensures value { result ≡ take 4 hash.now }
    ensures length { length hash.now ≡ 32 }
{
    [hash[0], hash[1], hash[2], hash[3]]
}

impl Live {
    pub fn new(alloc: Global) -> Live
        ensures holds { Holds result [] }
        ensures placed { IsPlaced result [] }
        ensures count { result.count ≡ 0 }
        ensures bytes { result.bytes ≡ 0 }
    {
        Live {
            ends: Vec::new(alloc),
            buckets: HashMap::new(alloc),
            count: 0,
            bytes: 0,
            most: 0,
        }
    }

    // Counts what came into a bucket and what went out.
    fn settle(&mut self, tally: &Tally)
        ensures buckets { self.new.buckets ≡ self.old.buckets }
        ensures ends { self.new.ends ≡ self.old.ends }
        ensures count { tally.now.hashes_in ≤ 1 → self.old.count < 2 ^ 63
            → tally.now.hashes_out ≤ self.old.count + tally.now.hashes_in
            → self.new.count + tally.now.hashes_out ≡ self.old.count + tally.now.hashes_in }
        ensures bytes { tally.now.bytes_in ≤ 32 → self.old.bytes < 2 ^ 63
            → tally.now.bytes_out ≤ self.old.bytes + tally.now.bytes_in
            → self.new.bytes + tally.now.bytes_out ≡ self.old.bytes + tally.now.bytes_in }
        ensures most { self.old.most ≤ self.new.most }
        ensures alike { tally.now.hashes ≤ self.new.most }
    {
        self.count = self
            .count
            .saturating_add(tally.hashes_in)
            .saturating_sub(tally.hashes_out);
        self.bytes = self
            .bytes
            .saturating_add(tally.bytes_in)
            .saturating_sub(tally.bytes_out);
        self.most = self.most.max(tally.hashes);
    }

    // Takes the line of a hash out of a bucket.
    fn remove_from(&mut self, head: &HashHead, hash: &[u8; 32])
        ensures { Replaces self.old self.new head.now
            (without (lines_in self.old.buckets.entries head.now) hash.now) }
    {
        let tally = remove_at(&mut self.buckets, head, hash);
        self.settle(&tally);
    }

    // Puts a line into a bucket, in place of that which its hash had.
    fn put_into(&mut self, alloc: Global, head: HashHead, line: Standing) -> Result<(), OutOfMemory>
        ensures ok { OnOk result (Replaces self.old self.new head
            (with_line (lines_in self.old.buckets.entries head) line)) }
        ensures ends { self.new.ends ≡ self.old.ends }
    {
        let tally = put_at(&mut self.buckets, alloc, head, line)?;
        self.settle(&tally);
        Ok(())
    }

    // The line of a hash ends at a version.
    fn end(&mut self, head: &HashHead, hash: &[u8; 32], version: u32)
        ensures same { self.new ≡ record self.old { ends = self.new.ends } }
        ensures ends { self.new.ends.items ≡ ended_at version self.old.ends.items
            (filter (is_of hash.now) (lines_in self.old.buckets.entries head.now)) }
    {
        end_each(&mut self.ends, lines_at(&self.buckets, head), hash, version);
    }

    // Takes a hash out at a version.
    fn remove(&mut self, hash: &[u8; 32], version: u32)
        requires { version < never }
        ensures held { (entries : List Entry) → length entries < 2 ^ 40 → Holds self.old entries
            → Holds self.new (without_hash entries hash.now) }
        ensures placed { (lines : List Line) → IsPlaced self.old lines → IsPlaced self.new (ended version lines hash.now) }
    {
        let head = head_of(hash);
        self.end(&head, hash, version);
        self.remove_from(&head, hash);
    }

    // Puts a hash in at a version, in place of the line that it had.
    fn add(&mut self, alloc: Global, added: Added, version: u32) -> Result<(), OutOfMemory>
        requires size { 4 ≤ added.size }
        requires version { version < never }
        ensures held { OnOk result ((entries : List Entry) → length entries < 2 ^ 40 → Holds self.old entries
            → Holds self.new (with_added entries added)) }
        ensures placed { OnOk result ((lines : List Line) → length lines + 1 < 2 ^ 32 → IsPlaced self.old lines
            → IsPlaced self.new (lengthened version lines added)) }
        ensures kept { KeepsEnds version 1 self.old self.new }
    {
        let head = head_of(&added.hash);
        self.end(&head, &added.hash, version);
        let place = self.ends.len().min(NEVER as usize) as u32;
        self.ends.push(NEVER)?;
        self.put_into(alloc, head, Standing { added, place })
    }

    // Takes out what a change removes.
    fn remove_each(&mut self, removes: &[[u8; 32]], version: u32)
        requires { version < never }
        ensures held { (entries : List Entry) → length entries < 2 ^ 32 → Holds self.old entries
            → Holds self.new (fold without_hash entries removes.now) }
        ensures placed { (lines : List Line) → IsPlaced self.old lines
            → IsPlaced self.new (fold (ended version) lines removes.now) }
    {
        for hash in removes {
            self.remove(hash, version);
        }
    }

    // Puts in what a change adds.
    fn add_each(&mut self, alloc: Global, adds: &[Added], version: u32) -> Result<(), OutOfMemory>
        requires sizes { All (λ added. 4 ≤ added.size) adds.now }
        requires version { version < never }
        ensures held { OnOk result ((entries : List Entry) → length entries < 2 ^ 32 → length adds.now < 2 ^ 32 → Holds self.old entries
            → Holds self.new (fold with_added entries adds.now)) }
        ensures placed { OnOk result ((lines : List Line) → length lines + length adds.now < 2 ^ 32 → IsPlaced self.old lines
            → IsPlaced self.new (fold (lengthened version) lines adds.now)) }
        ensures kept { KeepsEnds version (length adds.now) self.old self.new }
    {
        for added in adds {
            self.add(alloc, *added, version)?;
        }
        Ok(())
    }

    /// Takes out what a change removes, and then puts in what it adds. The change leads to a version,
    /// at which lines end.
    pub fn apply(
        &mut self,
        alloc: Global,
        removes: &[[u8; 32]],
        adds: &[Added],
        version: u32,
    ) -> Result<(), OutOfMemory>
        requires sizes { All (λ added. 4 ≤ added.size) adds.now }
        requires version { version < never }
        ensures held { OnOk result ((entries : List Entry) → length entries < 2 ^ 32 → length adds.now < 2 ^ 32 → Holds self.old entries
            → Holds self.new (fold with_added (fold without_hash entries removes.now) adds.now)) }
        ensures placed { OnOk result ((lines : List Line) → length lines + length adds.now < 2 ^ 32 → IsPlaced self.old lines
            → IsPlaced self.new (after_lines version lines removes.now adds.now)) }
        ensures kept { KeepsEnds version (length adds.now) self.old self.new }
    {
        self.remove_each(removes, version);
        self.add_each(alloc, adds, version)
    }

    /// Leaves the first lines, with no end above a version.
    pub fn restore(&mut self, count: usize, version: usize)
        ensures { self.new.ends.items ≡ restored version count self.old.ends.items }
    {
        restore(&mut self.ends, count, version);
    }

    /// Whether a full hash is kept.
    pub fn has(&self, hash: &[u8; 32]) -> bool
        ensures { (entries : List Entry) → Holds self.now entries → result ≡ list_any (bytes_eq hash.now) (map (λ entry. entry.hash) entries) }
    {
        is_among(lines_at(&self.buckets, &head_of(hash)), hash)
    }

    // Whether more than 16 full hashes begin as one does.
    fn is_crowded_at(&self, hash: &[u8; 32]) -> bool
        ensures { result ≡ nat_lt most_alike (length (lines_in self.now.buckets.entries (take 4 hash.now))) }
    {
        lines_at(&self.buckets, &head_of(hash)).len() > MOST_ALIKE
    }

    // Whether more than 16 full hashes begin as one of these does, by a look at each.
    fn is_crowded_among(&self, adds: &[Added]) -> bool
        ensures { result ≡ list_any (λ added. nat_lt most_alike (length (lines_in self.now.buckets.entries (take 4 added.hash)))) adds.now }
    {
        adds.iter().any(|added| self.is_crowded_at(&added.hash))
    }

    // Whether more than 16 full hashes begin as one of these does.
    fn is_crowded(&self, adds: &[Added]) -> bool
        ensures { ((head : List ℕ) → length (lines_in self.now.buckets.entries head) ≤ self.now.most)
            → result ≡ list_any (λ added. nat_lt most_alike (length (lines_in self.now.buckets.entries (take 4 added.hash)))) adds.now }
    {
        if self.most <= MOST_ALIKE as u64 {
            return false;
        }
        self.is_crowded_among(adds)
    }

    /// The fault of a line that ends a change which adds these.
    pub fn limit(&self, adds: &[Added], line: u64) -> Option<JournalFault>
        ensures { (before : List Entry) (removes : List (List ℕ)) → IsUncrowded before
            → Holds self.now (fold with_added (fold without_hash before removes) adds.now)
            → result ≡ limit_fault_at line (fold with_added (fold without_hash before removes) adds.now) }
    {
        if self.count > MOST_HASHES || self.is_crowded(adds) {
            return Some(JournalFault::TooMany(line));
        }
        if self.bytes > MOST_PREFIX_BYTES {
            return Some(JournalFault::TooLarge(line));
        }
        None
    }
}
