ghost use Rattle.std.specs.Prelude.{◌≡◌, ℕ, ◌+◌, ◌-◌, ◌^◌, ◌<◌, ◌≤◌, ◌==◌, ◌&&◌, not, min, if◌then◌else◌, List, [], ◌∷◌, ◌++◌, length, take, drop, All, IfOk, IfSome, OnOk};
ghost use Rattle.std.specs.Int.{w32, to_be_bytes};
ghost use Rattle.std.specs.List.{list_any};
ghost use Rattle.sha2.specs.Sha256.{sha256};
ghost use Rattle.sb_model.specs.History.{prefixes_at, version_count};
ghost use Rattle.sb_model.specs.Difference.{removed_places, added_members};
ghost use Rattle.sb_model.specs.Prefixes.{concatenation};
ghost use Rattle.list_versions.specs.declared.stretch.Stretch.{Stretch as Span};
ghost use Rattle.list_versions.specs.Stretches.{AreInOrder};
ghost use Rattle.delta_server.specs.Passages.{HasPassed, Passes, StandsBetween};
ghost use Rattle.delta_server.specs.Served.{LeadsTo, LeadsToNewest};
ghost use Rattle.delta_server.specs.Sweeping.{NameFourBytes, has_version, shown_at};
ghost use Rattle.delta_server.specs.Swept.{AreOf};

use crate::swept::Swept;
use hash_prefixes::Prefix;
use list_versions::{History, Stretch};
use prefix_set::{Delta, PrefixSet, sets_go_by_members};
use sb_model::{Bytes, ListName, OutOfMemory, Row};
use sha2::{Digest, Sha256};
use std::alloc::Global;

/// What leads from the prefixes of one version of a list to those of another, and the latter.
#[derive(Drop)]
pub(crate) struct Passage {
    /// The places of the prefixes that go, among those of the one version, rising.
    pub(crate) removals: Row<u32>,
    /// The prefixes that come, rising.
    pub(crate) additions: Row<Prefix>,
    /// The prefixes of the other version one after the other, rising.
    pub(crate) bytes: Bytes,
    // How many prefixes of the one version were passed.
    rank: u32,
}

// Whether one of some stretches has a version.
fn show(run: &[Stretch], version: u32) -> bool
    ensures { result ≡ list_any (has_version version) run.now }
{
    run.iter().any(|stretch| stretch.from <= version && version < stretch.until)
}

// The prefix of a number.
fn prefix_of(head: u32) -> Prefix
    ensures { result ≡ to_be_bytes w32 head }
{
    let bytes = head.to_be_bytes();
    Prefix::from_bytes(bytes.as_slice()).unwrap()
}

// How many of the first stretches have a prefix.
fn run_len(stretches: &[Stretch], head: u32) -> usize
    ensures within { result ≤ length stretches.now }
    ensures own { All (λ stretch. stretch.head ≡ head) (take result stretches.now) }
    ensures some { (first : Span) (rest : List Span) → stretches.now ≡ first ∷ rest → first.head ≡ head → 0 < result }
    ensures later { AreInOrder stretches.now → (first : Span) (rest : List Span) → stretches.now ≡ first ∷ rest → first.head ≡ head
        → All (λ stretch. head < stretch.head) (drop result stretches.now) }
{
    for (i, stretch) in stretches.iter().enumerate() {
        if stretch.head != head {
            return i;
        }
    }
    stretches.len()
}

impl Passage {
    // Nothing was passed.
    fn nothing(alloc: Global) -> Passage
        ensures { (old newer : List (List ℕ)) (held version : ℕ) → HasPassed result old newer held version [] }
    {
        Passage {
            removals: Row::new(alloc),
            additions: Row::new(alloc),
            bytes: Bytes::new(alloc),
            rank: 0,
        }
    }

    // Passes a prefix of the one version.
    fn leave(&mut self, stays: bool) -> Result<(), OutOfMemory>
        ensures rank { OnOk result (self.new.rank ≡ min (self.old.rank + 1) (2 ^ 32 - 1)) }
        ensures removals { OnOk result (self.new.removals ≡ self.old.removals ++ (if stays then [] else self.old.rank ∷ [])) }
        ensures additions { self.new.additions ≡ self.old.additions }
        ensures bytes { self.new.bytes ≡ self.old.bytes }
    {
        if !stays {
            self.removals.push(self.rank)?;
        }
        self.rank = self.rank.saturating_add(1);
        Ok(())
    }

    // Passes a prefix of the other version.
    fn reach(&mut self, prefix: &Prefix, stood: bool) -> Result<(), OutOfMemory>
        ensures rank { self.new.rank ≡ self.old.rank }
        ensures removals { self.new.removals ≡ self.old.removals }
        ensures additions { OnOk result (self.new.additions ≡ self.old.additions ++ (if stood then [] else prefix.now ∷ [])) }
        ensures bytes { OnOk result (self.new.bytes ≡ self.old.bytes ++ prefix.now) }
    {
        if !stood {
            self.additions.push(*prefix)?;
        }
        self.bytes.append(prefix.as_bytes())
    }

    // Passes a prefix, which the one version has or not, and the other.
    fn pass(&mut self, head: u32, stood: bool, stays: bool) -> Result<(), OutOfMemory>
        ensures { OnOk result (Passes self.old self.new (to_be_bytes w32 head) stood stays) }
    {
        if stood {
            self.leave(stays)?;
        }
        if stays {
            self.reach(&prefix_of(head), stood)?;
        }
        Ok(())
    }

    // Passes the stretches of a prefix.
    fn take(
        &mut self,
        run: &[Stretch],
        head: u32,
        held: u32,
        version: u32,
    ) -> Result<(), OutOfMemory>
        ensures { OnOk result ((done later : List Span) → StandsBetween done run.now later head
            → length (shown_at ((done ++ run.now) ++ later) held) < 2 ^ 32
            → HasPassed self.old (shown_at ((done ++ run.now) ++ later) held) (shown_at ((done ++ run.now) ++ later) version) held version done
            → HasPassed self.new (shown_at ((done ++ run.now) ++ later) held) (shown_at ((done ++ run.now) ++ later) version) held version (done ++ run.now)) }
    {
        self.pass(head, show(run, held), show(run, version))
    }

    // What leads to the other version. The bytes are let go.
    fn into_delta(self) -> Delta
        ensures removals { result.removals ≡ self.removals }
        ensures additions { result.additions ≡ self.additions }
    {
        let Passage {
            removals,
            additions,
            bytes: _,
            rank: _,
        } = self;
        Delta {
            removals,
            additions,
        }
    }
}

/// What leads from the prefixes of one version of a list to those of another, and the latter, told
/// by the stretches of the list. It goes through them once.
pub(crate) fn passage_between(
    alloc: Global,
    stretches: &[Stretch],
    held: u32,
    version: u32,
) -> Result<Passage, OutOfMemory>
    requires order { AreInOrder stretches.now }
    requires heads { NameFourBytes stretches.now }
    requires few { length (shown_at stretches.now held) < 2 ^ 32 }
    ensures removals { IfOk result (λ passage. passage.removals
        ≡ removed_places (shown_at stretches.now held) (shown_at stretches.now version)) }
    ensures additions { IfOk result (λ passage. passage.additions
        ≡ added_members (shown_at stretches.now held) (shown_at stretches.now version)) }
    ensures bytes { IfOk result (λ passage. passage.bytes ≡ concatenation (shown_at stretches.now version)) }
{
    let mut passage = Passage::nothing(alloc);
    let mut rest = stretches;
    while let Some(first) = rest.first() {
        let (run, later) = rest.split_at(run_len(rest, first.head));
        passage.take(run, first.head, held, version)?;
        rest = later;
    }
    Ok(passage)
}

/// What leads from the set of one version of a list to that of another, and the digest of the latter.
#[derive(Drop)]
pub(crate) struct Lead {
    pub(crate) delta: Delta,
    pub(crate) digest: [u8; 32],
}

// What leads from the prefixes of one version of a list to those of another.
fn lead_between(
    alloc: Global,
    stretches: &[Stretch],
    held: u32,
    version: u32,
) -> Result<Lead, OutOfMemory>
    requires order { AreInOrder stretches.now }
    requires heads { NameFourBytes stretches.now }
    requires few { length (shown_at stretches.now held) < 2 ^ 32 }
    ensures removals { IfOk result (λ lead. lead.delta.removals
        ≡ removed_places (shown_at stretches.now held) (shown_at stretches.now version)) }
    ensures additions { IfOk result (λ lead. lead.delta.additions
        ≡ added_members (shown_at stretches.now held) (shown_at stretches.now version)) }
    ensures digest { IfOk result (λ lead. lead.digest ≡ sha256 (concatenation (shown_at stretches.now version))) }
{
    let passage = passage_between(alloc, stretches, held, version)?;
    let digest = Sha256::digest(passage.bytes.as_slice());
    let delta = passage.into_delta();
    Ok(Lead { delta, digest })
}

/// What leads from a version of a list to a later one or to itself, if the list was swept.
pub(crate) fn kept_lead(
    alloc: Global,
    history: &History,
    swept: &Swept,
    list: ListName,
    held: u64,
    version: u64,
) -> Result<Option<Lead>, OutOfMemory>
    requires swept { AreOf history.now.versions swept.now }
    requires within { held ≤ version_count history.now.versions }
    requires version { version ≤ version_count history.now.versions }
    ensures leads { IfOk result (λ found. IfSome found (λ lead. LeadsTo history.now.versions list held version lead.delta)) }
    ensures digest { IfOk result (λ found. IfSome found (λ lead.
        lead.digest ≡ sha256 (concatenation (prefixes_at history.now.versions list version)))) }
{
    sets_go_by_members();
    // looked at for the prover: what holds of each history that was read
    let _ = history.len();
    let Some(stretches) = swept.find(list) else {
        return Ok(None);
    };
    let lead = lead_between(alloc, stretches, held as u32, version as u32)?;
    Ok(Some(lead))
}

/// What leads from a version of a list to the newest, if the list was swept.
pub(crate) fn kept_delta(
    alloc: Global,
    history: &History,
    swept: &Swept,
    list: ListName,
    held: u64,
) -> Result<Option<Delta>, OutOfMemory>
    requires swept { AreOf history.now.versions swept.now }
    requires within { held ≤ version_count history.now.versions }
    ensures { IfOk result (λ found. IfSome found (LeadsToNewest history.now.versions list held)) }
{
    sets_go_by_members();
    let newest = history.len();
    let Some(stretches) = swept.find(list) else {
        return Ok(None);
    };
    let passage = passage_between(alloc, stretches, held as u32, newest as u32)?;
    let delta = passage.into_delta();
    Ok(Some(delta))
}

/// The prefixes of a list at a version, if the list was swept.
pub(crate) fn kept_set(
    alloc: Global,
    history: &History,
    swept: &Swept,
    list: ListName,
    version: u64,
) -> Result<Option<PrefixSet>, OutOfMemory>
    requires swept { AreOf history.now.versions swept.now }
    requires version { version ≤ version_count history.now.versions }
    ensures { IfOk result (λ found. IfSome found (λ set. set ≡ prefixes_at history.now.versions list version)) }
{
    sets_go_by_members();
    // looked at for the prover: what holds of each history that was read
    let _ = history.len();
    let Some(stretches) = swept.find(list) else {
        return Ok(None);
    };
    let passage = passage_between(alloc, stretches, version as u32, version as u32)?;
    PrefixSet::from_rising_bytes(alloc, 4, passage.bytes.as_slice())
}
