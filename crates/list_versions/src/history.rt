ghost use Rattle.std.specs.Prelude.{◌≡◌, ◌==◌, ◌≢◌, ◌⊎◌, ◌↔◌, ℕ, ◌+◌, ◌^◌, ◌≤◌, ◌<◌, Bool, true, false, List, [], ◌++◌, length, take, map, filter, find, option_copied, All, Option, Some, None, Result, Ok, Err, IsErrOf, IsTrue, IfOk, OnOk, OnErr, IfErr, IfSome, IfNone};
ghost use Rattle.std.specs.List.{list_all, list_any};
ghost use Rattle.std.specs.Str.{bytes_eq};
ghost use Rattle.sha2.specs.Sha256.{sha256};
ghost use Rattle.sb_outside.specs.Outside.{Rose};
ghost use Rattle.sb_model.specs.Prefixes.{concatenation};
ghost use Rattle.sb_model.specs.Names.{same_name};
ghost use Rattle.sb_model.specs.History.{IsWellFormed, declares, version_count, sizes_at, prefixes_at, full_hashes_at};
ghost use Rattle.sb_model.specs.Prefixes.{set_of};
ghost use Rattle.list_versions.specs.Journal.{Kept, declared_size_of, read_on, after_bytes, at_record};
ghost use Rattle.list_versions.specs.HashSizes.{IsMapOf};
ghost use Rattle.list_versions.specs.Live.{IsPublishable};
ghost use Rattle.list_versions.specs.Limits.{WithinLimits, hash_lines, most_changes, most_hash_lines, most_declared_lists};
ghost use Rattle.list_versions.specs.Draft.{history_of, kept_of_draft, before_record, IsDraft};
ghost use Rattle.sb_model.specs.Difference.{removed_places, added_members};
ghost use Rattle.list_versions.specs.Ends.{adds_of};
ghost use Rattle.list_versions.specs.Stretches.{AreStretches};
ghost use Rattle.list_versions.specs.Loaded.{Gives, JournalOutcome, FurtherFault, IsNewest};
ghost use Rattle.list_versions.specs.Numbers.{AreNumbersOf};
ghost use Rattle.list_versions.specs.Pieces.{ReadsAll, StopsAt};

use crate::JournalFault;
use crate::draft::Draft;
use crate::growing::{More, read_more};
use crate::hash_sizes::Folding;
use crate::leading::leading;
use crate::listing::{hashes_begun, hashes_of};
use crate::lists::{declared_lists, same, size_of};
use crate::lookup::{hashes_with, live_of};
use crate::newest::Newest;
use crate::older::{fold_on, folding_at};
use crate::pieces::{FIRST_PIECE, PIECE, buffer_of, read_first};
use crate::published::published_of;
use crate::quads::led_by_numbers;
use crate::refreshing::refresh;
use crate::renewing::{Before, take_kept};
use crate::shifting::{is_near, older_set};
use crate::standing::{entries_at, stands};
use crate::stretch::Stretch;
use crate::stretches::stretches_of;
use hash_prefixes::{FullHash, Prefix};
use prefix_set::{Delta, PrefixSet};
use sb_model::{Added, Bytes, Change, ListName, OutOfMemory, Row, Steps, names_go_by_their_codes};
use sb_outside::{ReadFault, Source, read_piece};
use std::alloc::Global;
use std::marker::Model;
use std::sync::ledger::Ledger;

/// The history that a journal tells so far. Contracts see it as `Kept` of `specs/Journal.antt`: the
/// form of the journal, its epoch, the declared lists with their prefix sizes, the changes in
/// order, and the bytes of a record that has not ended yet.
#[derive(Debug, Drop)]
pub struct History {
    draft: Draft,
    newest: Vec<Newest>,
    rest: Bytes,
    // Whether the tables of the newest full hashes have to be made anew before they are used.
    stale: bool,
}

impl Model for History {
    ghost use Rattle.list_versions.specs.Journal.{Kept};
    ghost use Rattle.list_versions.specs.Draft.{kept_of_draft};
    ghost use Rattle.list_versions.specs.Loaded.{IsLoadedDraft};

    ghost Value = { Kept };

    ghost view = { λ h. kept_of_draft h.draft h.rest };

    ghost invariant = { λ h. IsLoadedDraft h.draft h.newest.items h.rest h.stale };
}

// The newest prefixes of a list.
fn newest_of(newest: &[Newest], list: ListName) -> Option<&Newest>
    ensures { option_copied result ≡ find (λ newest. same_name newest.name list) newest.now }
{
    newest.iter().find(|newest| same(newest.name, list))
}

// One text after the other.
fn joined(first: &Bytes, second: &Bytes) -> Result<Bytes, OutOfMemory>
    ensures { IfOk result (λ text. text ≡ first.now ++ second.now) }
{
    let mut text = first.copy()?;
    text.append(second.as_slice())?;
    Ok(text)
}

impl History {
    /// Reads a journal to the end of its input.
    ///
    /// # Errors
    ///
    /// The first bad line decides, and lines are counted from 1; `ReadFault` where the source failed
    /// and no line that came before is bad.
    pub fn load<S: Source>(alloc: Global, source: &mut S) -> Result<History, JournalFault>
        // What the source gave, with its end or without, and what that comes to.
        ensures outcome { (bytes : List ℕ) × (ended : Bool) × Gives bytes ended (S.left source.old) (S.left source.new)
            × JournalOutcome bytes ended result }

        // A fault is counted, and nothing else is.
        ensures failed { IsErrOf result JournalFault.ReadFault → Rose (S.faults source.old) (S.faults source.new) }
        ensures kept { result ≢ Err JournalFault.ReadFault → S.faults source.new ≡ S.faults source.old }
        ensures counted { S.faults source.old ≤ S.faults source.new }
        ensures other { S.back source.new ≡ S.back source.old }
    {
        let Ok(mut buffer) = buffer_of(alloc, PIECE) else {
            return Err(JournalFault::OutOfMemory);
        };
        let (header, text) = match read_first(alloc, source, buffer.as_mut_slice()) {
            Ok(first) => first,
            Err(fault) => return Err(fault),
        };
        let mut draft = Draft::new(alloc, header);
        match read_more(
            alloc,
            source,
            buffer.as_mut_slice(),
            &mut draft,
            &[],
            false,
            text,
        ) {
            Ok(more) => Ok(History::of(draft, more)),
            Err(fault) => Err(fault),
        }
    }

    /// Reads further bytes of the same journal to the end of its input. Lines are counted from the
    /// journal's first. An `Err` leaves the history as it was; what the source gave is gone then.
    pub fn grow<S: Source>(&mut self, alloc: Global, source: &mut S) -> Result<(), JournalFault>
        ensures ok { OnOk result ((bytes : List ℕ) × Gives bytes true (S.left source.old) (S.left source.new)
            × (read_on self.old bytes ≡ Ok self.new)) }
        ensures fault { IfErr result (λ fault. (bytes : List ℕ) × (ended : Bool)
            × Gives bytes ended (S.left source.old) (S.left source.new) × FurtherFault self.old bytes fault) }
        ensures same { OnErr result (self.new ≡ self.old) }
        ensures failed { IsErrOf result JournalFault.ReadFault → Rose (S.faults source.old) (S.faults source.new) }
        ensures kept { result ≢ Err JournalFault.ReadFault → S.faults source.new ≡ S.faults source.old }
        ensures counted { S.faults source.old ≤ S.faults source.new }
        ensures other { S.back source.new ≡ S.back source.old }
    {
        match self.grow_if_more(alloc, source) {
            Ok(_) => Ok(()),
            Err(fault) => Err(fault),
        }
    }

    /// As `grow`, and answers whether the journal told something new: a change or a declared list. A
    /// record that has only begun is none.
    ///
    /// # Errors
    ///
    /// As `grow`.
    pub fn grow_if_more<S: Source>(
        &mut self,
        alloc: Global,
        source: &mut S,
    ) -> Result<bool, JournalFault>
        ensures ok { OnOk result ((bytes : List ℕ) × Gives bytes true (S.left source.old) (S.left source.new)
            × (read_on self.old bytes ≡ Ok self.new)) }
        ensures versions { IfOk result (λ more. (more ≡ false) ↔ (self.new.versions ≡ self.old.versions)) }
        ensures fault { IfErr result (λ fault. (bytes : List ℕ) × (ended : Bool)
            × Gives bytes ended (S.left source.old) (S.left source.new) × FurtherFault self.old bytes fault) }
        ensures same { OnErr result (self.new ≡ self.old) }
        ensures failed { IsErrOf result JournalFault.ReadFault → Rose (S.faults source.old) (S.faults source.new) }
        ensures kept { result ≢ Err JournalFault.ReadFault → S.faults source.new ≡ S.faults source.old }
        ensures counted { S.faults source.old ≤ S.faults source.new }
        ensures other { S.back source.new ≡ S.back source.old }
    {
        // looked at for the prover: what each history keeps to
        let _ = &self.rest;
        let Ok(mut first) = buffer_of(alloc, FIRST_PIECE) else {
            return Err(JournalFault::OutOfMemory);
        };
        let mut piece = Bytes::new(alloc);
        match read_piece(source, first.as_mut_slice(), &mut piece) {
            Ok(0) => return Ok(false),
            Ok(_) => {}
            Err(ReadFault::Failed) => return Err(JournalFault::ReadFault),
            Err(ReadFault::OutOfMemory) => return Err(JournalFault::OutOfMemory),
        }
        let Ok(text) = joined(&self.rest, &piece) else {
            return Err(JournalFault::OutOfMemory);
        };
        let Ok(mut buffer) = buffer_of(alloc, PIECE) else {
            return Err(JournalFault::OutOfMemory);
        };
        self.take_in(alloc, source, buffer.as_mut_slice(), text)
    }

    // Reads a text, in which the rest is the front, and what the source gives after it. Answers whether
    // there are more changes or declared lists then.
    fn take_in<S: Source>(
        &mut self,
        alloc: Global,
        source: &mut S,
        buffer: &mut [u8],
        text: Bytes,
    ) -> Result<bool, JournalFault>
        requires { 0 < length buffer.old }
        ensures ok { OnOk result (ReadsAll (λ bytes. after_bytes (at_record self.old) (text ++ bytes)) self.new
            (S.left source.old) (S.left source.new)) }
        ensures versions { IfOk result (λ more. (more ≡ false) ↔ (self.new.versions ≡ self.old.versions)) }
        ensures fault { IfErr result (λ fault. StopsAt (λ bytes. after_bytes (at_record self.old) (text ++ bytes)) fault
            (S.left source.old) (S.left source.new)) }
        ensures same { OnErr result (self.new ≡ self.old) }
        ensures failed { IsErrOf result JournalFault.ReadFault → Rose (S.faults source.old) (S.faults source.new) }
        ensures kept { result ≢ Err JournalFault.ReadFault → S.faults source.new ≡ S.faults source.old }
        ensures counted { S.faults source.old ≤ S.faults source.new }
        ensures other { S.back source.new ≡ S.back source.old }
    {
        let lists = self.draft.lists.len();
        let changes = self.draft.changes.len();
        let hashes = self.draft.hashes;
        match read_more(
            alloc,
            source,
            buffer,
            &mut self.draft,
            self.newest.as_slice(),
            self.stale,
            text,
        ) {
            Ok(mut more) => {
                let before = Before { lists, changes };
                let newest = &mut more.newest;
                take_kept(
                    self.draft.changes.as_slice(),
                    before,
                    newest,
                    &mut self.newest,
                );
                let More { rest, newest } = more;
                self.newest = newest;
                self.rest = rest;
                self.stale = false;
                Ok(self.draft.is_longer(before))
            }
            Err(fault) => {
                self.draft.cut(lists, changes, hashes);
                self.stale = refresh(alloc, &mut self.draft).is_err();
                Err(fault)
            }
        }
    }

    // What was read from a journal's first line on.
    fn of(draft: Draft, more: More) -> History
        requires draft { IsDraft draft }
        requires names { map (λ newest. newest.name) more.newest.items ≡ map (λ listed. listed.name) draft.lists.items }
        requires newest { All (IsNewest (history_of draft)) more.newest.items }
        requires waits { before_record draft [] more.rest ≡ Ok (kept_of_draft draft more.rest) }
        requires few { length more.rest ≤ 132608 }
        ensures { result ≡ kept_of_draft draft more.rest }
    {
        let More { rest, newest } = more;
        History {
            draft,
            newest,
            rest,
            stale: false,
        }
    }

    /// The epoch that the first line names.
    pub fn epoch(&self) -> u64
        ensures { result ≡ self.now.versions.epoch }
    {
        self.draft.epoch
    }

    /// Whether lines that add may name a size: the form of the journal.
    pub fn is_sized(&self) -> bool
        ensures { result ≡ self.now.sized }
    {
        self.draft.sized
    }

    /// How many changes there are, over all lists: the newest version.
    pub fn len(&self) -> u64
        ensures count { result ≡ version_count self.now.versions }
        ensures few { result ≤ most_changes }

        // What holds of every history that was read.
        ensures well_formed { IsWellFormed self.now.versions }
        ensures within { WithinLimits self.now.versions }
    {
        self.draft.changes.len() as u64
    }

    /// How many bytes the record has that has not ended.
    pub fn rest_len(&self) -> u32
        ensures count { result ≡ length self.now.rest }

        // They are the front of a record, so reading nothing more leaves the history as it is.
        ensures waits { read_on self.now [] ≡ Ok self.now }
    {
        self.rest.len() as u32
    }

    /// The changes, the oldest first.
    pub fn changes(&self) -> &[Change]
        ensures { result.now ≡ self.now.versions.changes }
    {
        self.draft.changes.as_slice()
    }

    /// How many hash lines the changes have, 2,097,152 at most.
    pub fn hash_lines(&self) -> u64
        ensures count { result ≡ hash_lines self.now.versions.changes }
        ensures few { result ≤ most_hash_lines }
    {
        self.draft.hashes
    }

    /// The declared lists with their prefix sizes in bytes, in the order of the journal. There are eight at most.
    pub fn lists(&self, alloc: Global) -> Result<Row<(ListName, u8)>, OutOfMemory>
        ensures value { IfOk result (λ lists. lists ≡ self.now.versions.declared) }
        ensures few { OnOk result (length self.now.versions.declared ≤ most_declared_lists) }
    {
        declared_lists(alloc, self.draft.lists.as_slice())
    }

    /// The prefix size that is declared for a list, in bytes.
    pub fn declared(&self, list: ListName) -> Option<u8>
        ensures { result ≡ declared_size_of self.now.versions list }
    {
        size_of(self.draft.lists.as_slice(), list)
    }

    /// The newest prefixes of a list with their digest and their numbers, where the list is declared.
    pub fn newest(&self, list: ListName) -> Option<&Newest>
        ensures declared { IfSome result (λ newest. declares self.now.versions list ≡ true) }
        ensures set { IfSome result (λ newest. newest.now.set ≡ prefixes_at self.now.versions list (version_count self.now.versions)) }
        ensures digest { IfSome result (λ newest. newest.now.digest ≡ sha256 (concatenation newest.now.set)) }
        ensures numbers { IfSome result (λ newest. AreNumbersOf newest.now.set newest.now.numbers.items) }
        ensures none { IfNone result (declares self.now.versions list ≡ false) }
    {
        names_go_by_their_codes();
        newest_of(&self.newest, list)
    }

    /// The prefixes of a list at a version; `None` where the list is not declared or the version is
    /// above `len`.
    pub fn prefixes(
        &self,
        alloc: Global,
        list: ListName,
        version: u64,
    ) -> Result<Option<PrefixSet>, OutOfMemory>
        ensures set { IfOk result (λ found. IfSome found (λ set. set ≡ prefixes_at self.now.versions list version)) }
        ensures some { IfOk result (λ found. IfSome found (λ _. (declares self.now.versions list ≡ true)
            × (version ≤ version_count self.now.versions))) }
        ensures none { IfOk result (λ found. IfNone found ((declares self.now.versions list ≡ false)
            ⊎ (version_count self.now.versions < version))) }
    {
        if version > self.draft.changes.len() as u64 {
            return Ok(None);
        }
        let Some(newest) = self.newest(list) else {
            return Ok(None);
        };
        let version = version as usize;
        if version == self.draft.changes.len() {
            return Ok(Some(newest.set.copy(alloc)?));
        }
        if !self.stale
            && is_near(self.draft.changes.as_slice(), version)
            && let Some(live) = live_of(self.draft.lists.as_slice(), list)
        {
            let set = older_set(alloc, &self.draft, list, live, &newest.set, version)?;
            return Ok(Some(set));
        }
        let entries = entries_at(alloc, &self.draft, list, version)?;
        Ok(Some(published_of(alloc, entries.as_slice())?))
    }

    /// The full hashes of a list at a version, with their sizes. `fold_on` makes those of a later
    /// version of them.
    pub fn folding(
        &self,
        alloc: Global,
        list: ListName,
        version: u64,
    ) -> Result<Folding, OutOfMemory>
        requires { version ≤ version_count self.now.versions }
        ensures map { IfOk result (λ folding. IsMapOf folding (sizes_at self.now.versions list version)) }
        ensures publishable { OnOk result (All IsPublishable (sizes_at self.now.versions list version)) }
    {
        let folding = folding_at(alloc, &self.draft, list, version as usize)?;
        Ok(folding)
    }

    /// Folds the changes between two versions: the full hashes of a list at the one become those at
    /// the other. They are moved, and dropped where memory is refused.
    pub fn fold_on(
        &self,
        folding: Folding,
        list: ListName,
        from: u64,
        to: u64,
    ) -> Result<Folding, OutOfMemory>
        requires order { from ≤ to }
        requires within { to ≤ version_count self.now.versions }
        ensures map { IfOk result (λ later. IsMapOf folding (sizes_at self.now.versions list from)
            → IsMapOf later (sizes_at self.now.versions list to)) }
        ensures publishable { OnOk result (All IsPublishable (sizes_at self.now.versions list to)) }
    {
        let later = fold_on(folding, &self.draft, list, from as usize, to as usize)?;
        Ok(later)
    }

    /// What leads from the prefixes of a declared list at a version to its newest ones, as
    /// `PrefixSet::difference` of the two sets. If few lines lie between, neither set is made, and if
    /// both sets have prefixes of four bytes alone, the older one is told by their numbers.
    pub fn difference(
        &self,
        alloc: Global,
        list: ListName,
        version: u64,
    ) -> Result<Delta, OutOfMemory>
        requires declared { declares self.now.versions list ≡ true }
        requires within { version ≤ version_count self.now.versions }
        ensures removals { IfOk result (λ delta. delta.removals
            ≡ removed_places (prefixes_at self.now.versions list version) (prefixes_at self.now.versions list (version_count self.now.versions))) }
        ensures additions { IfOk result (λ delta. delta.additions
            ≡ added_members (prefixes_at self.now.versions list version) (prefixes_at self.now.versions list (version_count self.now.versions))) }
    {
        let Some(newest) = self.newest(list) else {
            unreachable!()
        };
        let place = version as usize;
        if !self.stale
            && is_near(self.draft.changes.as_slice(), place)
            && let Some(live) = live_of(self.draft.lists.as_slice(), list)
        {
            return leading(alloc, &self.draft, list, live, &newest.set, place);
        }
        if let Some(delta) = led_by_numbers(alloc, &self.draft, list, &newest.set, place)? {
            return Ok(delta);
        }
        let Some(older) = self.prefixes(alloc, list, version)? else {
            unreachable!()
        };
        older.difference(alloc, &newest.set)
    }

    /// At which versions a list publishes its prefixes, by prefix: one stretch for each line that adds. `None`
    /// if some line of the list publishes other than four bytes.
    pub fn stretches(
        &self,
        alloc: Global,
        list: ListName,
    ) -> Result<Option<Vec<Stretch>>, OutOfMemory>
        ensures some { IfOk result (λ found. IfSome found (λ stretches. AreStretches self.now.versions list stretches.items)) }
        ensures none { IfOk result (λ found. IfNone found
            (list_all (λ added. added.size == 4) (adds_of list self.now.versions.changes) ≡ false)) }
    {
        let found = stretches_of(alloc, &self.draft, list)?;
        Ok(found)
    }

    /// The newest full hashes of a list with their sizes, in the order in which they were put in. A list that is not
    /// declared has none.
    pub fn newest_entries(&self, alloc: Global, list: ListName) -> Result<Vec<Added>, OutOfMemory>
        ensures { IfOk result (λ entries. entries.items ≡ sizes_at self.now.versions list (version_count self.now.versions)) }
    {
        let entries = entries_at(alloc, &self.draft, list, self.draft.changes.len())?;
        Ok(entries)
    }

    /// Whether the newest full hashes of a list have this one. A list that is not declared has none. It takes no
    /// memory, and looks at the few full hashes that begin with the same four bytes. Once memory was refused while
    /// the history grew, it looks at all lines, until the history has grown again.
    pub fn holds(&self, list: ListName, hash: &FullHash) -> bool
        ensures { result ≡ list_any (bytes_eq hash.now.bytes)
            (full_hashes_at self.now.versions list (version_count self.now.versions)) }
    {
        let Some(live) = live_of(self.draft.lists.as_slice(), list) else {
            return false;
        };
        if self.stale {
            let changes = self.draft.changes.as_slice();
            let ends = live.ends.as_slice();
            return stands(changes, list, ends, changes.len(), &hash.bytes);
        }
        live.has(&hash.bytes)
    }

    /// The full hashes of a declared list at a version that begin with a prefix, rising.
    pub fn full_hashes(
        &self,
        alloc: Global,
        list: ListName,
        version: u64,
        prefix: &Prefix,
    ) -> Result<Row<FullHash>, OutOfMemory>
        requires declared { declares self.now.versions list ≡ true }
        requires within { version ≤ version_count self.now.versions }
        ensures { IfOk result (λ hashes. map (λ hash. hash.bytes) hashes ≡ set_of (filter (λ hash. bytes_eq (take (length prefix.now) hash) prefix.now) (full_hashes_at self.now.versions list version))) }
    {
        let version = version as usize;
        if version == self.draft.changes.len()
            && !self.stale
            && let Some(live) = live_of(self.draft.lists.as_slice(), list)
        {
            return hashes_with(alloc, live, prefix);
        }
        let entries = entries_at(alloc, &self.draft, list, version)?;
        hashes_begun(alloc, entries.as_slice(), prefix)
    }

    /// The full hashes of a declared list at a version, rising. Each hash line that is folded for
    /// them is counted as a step. None is, since the ends of the lines tell which full hashes stand.
    pub fn hashes_counted<L: Ledger>(
        &self,
        alloc: Global,
        list: ListName,
        version: u64,
        steps: &mut Steps<L>,
    ) -> Result<Row<FullHash>, OutOfMemory>
        requires declared { declares self.now.versions list ≡ true }
        requires within { version ≤ version_count self.now.versions }
        requires few { steps.old < 2 ^ 32 }
        ensures hashes { IfOk result (λ hashes.
            map (λ hash. hash.bytes) hashes ≡ set_of (full_hashes_at self.now.versions list version)) }
        ensures few { steps.new < steps.old + 65536 }
        ensures counted { steps.old ≤ steps.new }
    {
        // looked at for the prover: no step is taken
        let _ = &steps;
        let entries = entries_at(alloc, &self.draft, list, version as usize)?;
        hashes_of(alloc, entries.as_slice())
    }
}
