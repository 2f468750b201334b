ghost use Rattle.std.specs.Prelude.{◌≡◌, ◌==◌, [], take, length, IfOk, OnOk, OnErr};
ghost use Rattle.std.specs.List.{list_any};
ghost use Rattle.sb_model.specs.Names.{threat_code, platform_code, entry_code};
ghost use Rattle.hash_messages.specs.Matches.{asks_list};
ghost use Rattle.full_hash_cache.specs.Cache.{pair_of, cached_of, asked_pairs, said_by_pair, match_end, latest, alive, kept_matches_of, with_pair, kept_after, put_pairs, pairs_of, pairs_asked, taken, IsPartlyTaken};
ghost use Rattle.full_hash_cache.specs.Keys.{HasFullHashes};

use crate::matches::{alive_of, gathered, put_beginning};
use crate::{Cached, Pair};
use hash_messages::{FindRequest, FindResponse};
use hash_prefixes::{FullHash, Prefix};
use lru::LruCache;
use sb_model::{
    EntryType, ListName, Moment, OutOfMemory, PlatformType, ThreatType, cache_ms, later,
};
use std::alloc::Global;
use std::collections::BTreeMap;
use std::marker::Model;
use std::num::NonZeroUsize;

/// What is kept of a pair. Contracts see it as `KeptOfPair` of `specs/Cache.antt`.
#[derive(Drop)]
pub(crate) struct Kept {
    negative_end: Moment,
    matches: BTreeMap<FullHash, Moment>,
}

impl Model for Kept {
    ghost use Rattle.full_hash_cache.specs.Cache.{KeptOfPair as Seen};

    ghost Value = { Seen };

    ghost view = { λ k. record { negative_end = k.negative_end; matches = k.matches.entries } };
}

/// The kept answers of at most 4,096 pairs. Contracts see them as `Pairs` of `specs/Cache.antt`.
#[derive(Drop)]
pub struct FullHashCache {
    pairs: LruCache<Pair, Kept>,
}

impl Model for FullHashCache {
    ghost use Rattle.std.specs.Prelude.{◌≡◌};
    ghost use Rattle.full_hash_cache.specs.Cache.{Pairs, most_pairs};

    ghost Value = { Pairs };

    ghost view = { λ c. c.pairs.entries };

    ghost invariant = { λ c. c.pairs.cap ≡ most_pairs };
}

/// The most pairs that are kept.
const MOST_PAIRS: usize = 4096;

impl FullHashCache {
    /// No pairs.
    pub fn new(alloc: Global) -> Result<FullHashCache, OutOfMemory>
        ensures { IfOk result (λ c. c ≡ []) }
    {
        let most = NonZeroUsize::new(MOST_PAIRS).unwrap();
        Ok(FullHashCache {
            pairs: LruCache::new(alloc, most)?,
        })
    }

    /// Drops every pair.
    pub fn clear(&mut self)
        ensures { self.new ≡ [] }
    {
        self.pairs.clear();
    }

    /// What the kept answers say at a moment of a hash, for a list and a prefix that begins the hash.
    /// The pair is then the last used.
    pub fn answer(
        &mut self,
        now: Moment,
        list: ListName,
        prefix: &Prefix,
        hash: &FullHash,
    ) -> Cached
        requires { take (length prefix.now) hash.now.bytes ≡ prefix.now }
        ensures answer { result ≡ cached_of self.old now (pair_of list prefix.now) hash.now }
        ensures pairs { self.new ≡ asked_pairs self.old (pair_of list prefix.now) }
    {
        let pair = Pair {
            list,
            prefix: *prefix,
        };
        let answer = match self.pairs.peek(&pair) {
            Some(kept) => kept.says(now, hash),
            None => Cached::Ask,
        };
        self.pairs.promote(&pair);
        answer
    }

    /// Keeps what an answer tells, which was received at a moment: of each of these lists whose three
    /// types were asked, in order, and of each asked prefix, in order, the matches and until when
    /// there are no others. Where memory is refused, the pairs put so far stand.
    pub fn take(
        &mut self,
        alloc: Global,
        at: Moment,
        lists: &[ListName],
        request: &FindRequest,
        response: &FindResponse,
    ) -> Result<(), OutOfMemory>
        ensures ok { OnOk result (self.new ≡ taken at lists.now request.now response.now self.old) }
        ensures err { OnErr result (IsPartlyTaken at response.now (pairs_asked request.now lists.now)
            self.old self.new) }
    {
        for list in lists {
            if asks(request, *list) {
                self.take_list(alloc, at, *list, request.prefixes.as_slice(), response)?;
            }
        }
        Ok(())
    }

    /// Keeps what an answer tells of a list and of each of these prefixes.
    fn take_list(
        &mut self,
        alloc: Global,
        at: Moment,
        list: ListName,
        prefixes: &[Prefix],
        response: &FindResponse,
    ) -> Result<(), OutOfMemory>
        ensures ok { OnOk result (self.new
            ≡ put_pairs at response.now self.old (pairs_of prefixes.now list)) }
        ensures err { OnErr result (IsPartlyTaken at response.now (pairs_of prefixes.now list)
            self.old self.new) }
    {
        let found = gathered(alloc, at, list, response.matches.as_slice())?;
        let negative_end = later(at, cache_ms(response.negative));
        for prefix in prefixes {
            let pair = Pair {
                list,
                prefix: *prefix,
            };
            self.put(alloc, at, pair, negative_end, &found)?;
        }
        Ok(())
    }

    /// The matches kept of a pair that have not ended.
    fn alive_matches(
        &self,
        alloc: Global,
        at: Moment,
        pair: &Pair,
    ) -> Result<BTreeMap<FullHash, Moment>, OutOfMemory>
        ensures { IfOk result (λ matches. matches.entries
            ≡ latest (alive at (kept_matches_of self.now pair.now))) }
    {
        match self.pairs.peek(pair) {
            Some(kept) => alive_of(alloc, at, &kept.matches),
            None => Ok(BTreeMap::new(alloc)),
        }
    }

    /// Keeps of a pair those of its matches that have not ended, and those found that begin with its
    /// prefix. An `Err` changes nothing.
    fn put(
        &mut self,
        alloc: Global,
        at: Moment,
        pair: Pair,
        negative_end: Moment,
        found: &BTreeMap<FullHash, Moment>,
    ) -> Result<(), OutOfMemory>
        requires { HasFullHashes found.now.entries }
        ensures ok { OnOk result (self.new ≡ with_pair self.old pair
            (kept_after at negative_end found.now.entries self.old pair)) }
        ensures err { OnErr result (self.new ≡ self.old) }
    {
        let mut matches = self.alive_matches(alloc, at, &pair)?;
        put_beginning(&mut matches, &pair.prefix, found)?;
        self.pairs.put(
            pair,
            Kept {
                negative_end,
                matches,
            },
        )?;
        Ok(())
    }
}

impl Kept {
    /// What this says of a hash at a moment.
    fn says(&self, now: Moment, hash: &FullHash) -> Cached
        ensures { result ≡ said_by_pair now self.now.negative_end (match_end self.now.matches hash.now) }
    {
        match self.matches.get(hash) {
            Some(end) if now.0 < end.0 => Cached::Unsafe,
            Some(_) => Cached::Ask,
            None if now.0 < self.negative_end.0 => Cached::Safe,
            None => Cached::Ask,
        }
    }
}

/// Whether a threat type is asked.
fn asks_threat(asked: &[ThreatType], threat: ThreatType) -> bool
    ensures { result ≡ list_any (λ one. threat_code one == threat_code threat) asked.now }
{
    asked.iter().any(|one| one.code() == threat.code())
}

/// Whether a platform type is asked.
fn asks_platform(asked: &[PlatformType], platform: PlatformType) -> bool
    ensures { result ≡ list_any (λ one. platform_code one == platform_code platform) asked.now }
{
    asked.iter().any(|one| one.code() == platform.code())
}

/// Whether a threat entry type is asked.
fn asks_entry(asked: &[EntryType], entry: EntryType) -> bool
    ensures { result ≡ list_any (λ one. entry_code one == entry_code entry) asked.now }
{
    asked.iter().any(|one| one.code() == entry.code())
}

/// Whether a request asks for the three types of a list.
fn asks(request: &FindRequest, list: ListName) -> bool
    ensures { result ≡ asks_list request.now list }
{
    asks_threat(request.threats.as_slice(), list.threat)
        && asks_platform(request.platforms.as_slice(), list.platform)
        && asks_entry(request.entries.as_slice(), list.entry)
}
