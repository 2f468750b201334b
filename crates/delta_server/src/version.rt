ghost use Rattle.std.specs.Prelude.{◌≡◌, ℕ, List, [], ◌∷◌, length, fold, All, IfOk, OnOk};
ghost use Rattle.sb_model.specs.declared.history.Added.{Added as Entry};
ghost use Rattle.sb_model.specs.Names.{same_name};
ghost use Rattle.sb_model.specs.Target.{is_within};
ghost use Rattle.sb_model.specs.History.{IsPrefixSize, without_hash, with_added, after_change};
ghost use Rattle.delta_server.specs.Counts.{HaveHashesApart};
ghost use Rattle.delta_server.specs.Version.{Stands};
ghost use Rattle.delta_server.specs.Walk.{published, may_take};

use crate::hashes::Hashes;
use crate::holders::Holders;
use hash_prefixes::FullHash;
use prefix_set::PrefixSet;
use sb_model::{Added, Change, ListName, OutOfMemory};
use std::alloc::Global;

/// The full hashes of a list at a version, and how its prefixes differ from a held set.
#[derive(Drop)]
pub(crate) struct Version<'a> {
    pub(crate) hashes: Hashes,
    pub(crate) holders: Holders<'a>,
}

/// Whether a count is within a limit, of which 0 means none.
pub(crate) fn is_within(limit: u32, count: u64) -> bool
    ensures { result ≡ is_within limit count }
{
    limit == 0 || count <= u64::from(limit)
}

// Whether a change is one of a list.
fn concerns(change: &Change, list: ListName) -> bool
    ensures { result ≡ same_name change.now.list list }
{
    change.list == list
}

impl<'a> Version<'a> {
    // No full hashes, with room for some.
    fn with_capacity(
        alloc: Global,
        held: &'a PrefixSet,
        count: usize,
    ) -> Result<Version<'a>, OutOfMemory>
        ensures stands { IfOk result (λ version. Stands version []) }
        ensures held { IfOk result (λ version. version.holders.held.now ≡ held.now) }
    {
        let hashes = Hashes::with_capacity(alloc, count)?;
        let holders = Holders::with_capacity(alloc, held, count)?;
        Ok(Version { hashes, holders })
    }

    // Takes a full hash out.
    fn remove(&mut self, hash: &[u8; 32]) -> Result<(), OutOfMemory>
        ensures ok { OnOk result ((entries : List Entry) → Stands self.old entries
            → Stands self.new (without_hash entries hash.now)) }
        ensures held { self.new.holders.held.now ≡ self.old.holders.held.now }
    {
        let gone = self.hashes.take(hash);
        self.holders.leave_if(gone)?;
        Ok(())
    }

    // Puts a full hash in, in place of the size that it had.
    fn add(&mut self, added: &Added) -> Result<(), OutOfMemory>
        requires { IsPrefixSize added.now.size }
        ensures ok { OnOk result ((entries : List Entry) → Stands self.old entries
            → Stands self.new (with_added entries added.now)) }
        ensures held { self.new.holders.held.now ≡ self.old.holders.held.now }
    {
        let hash = FullHash { bytes: added.hash };
        let prefix = hash.prefix(added.size);
        let gone = self.hashes.put(added.hash, prefix)?;
        self.holders.leave_if(gone)?;
        self.holders.enter(prefix)?;
        Ok(())
    }

    fn remove_each(&mut self, hashes: &[[u8; 32]]) -> Result<(), OutOfMemory>
        ensures ok { OnOk result ((entries : List Entry) → Stands self.old entries
            → Stands self.new (fold without_hash entries hashes.now)) }
        ensures held { self.new.holders.held.now ≡ self.old.holders.held.now }
    {
        for hash in hashes {
            self.remove(hash)?;
        }
        Ok(())
    }

    fn add_each(&mut self, adds: &[Added]) -> Result<(), OutOfMemory>
        requires { All (λ added. IsPrefixSize added.size) adds.now }
        ensures ok { OnOk result ((entries : List Entry) → Stands self.old entries
            → Stands self.new (fold with_added entries adds.now)) }
        ensures held { self.new.holders.held.now ≡ self.old.holders.held.now }
    {
        for added in adds {
            self.add(added)?;
        }
        Ok(())
    }

    /// The version with these full hashes, beside a held set.
    pub(crate) fn start(
        alloc: Global,
        held: &'a PrefixSet,
        entries: &[Added],
    ) -> Result<Version<'a>, OutOfMemory>
        requires apart { HaveHashesApart entries.now }
        requires sizes { All (λ added. IsPrefixSize added.size) entries.now }
        ensures stands { IfOk result (λ version. Stands version entries.now) }
        ensures held { IfOk result (λ version. version.holders.held.now ≡ held.now) }
    {
        let mut version = Version::with_capacity(alloc, held, entries.len())?;
        version.add_each(entries)?;
        Ok(version)
    }

    /// The same version beside another held set, which is its own.
    pub(crate) fn beside<'b>(self, held: &'b PrefixSet) -> Version<'b>
        ensures stands { (entries : List Entry) → held.now ≡ published entries
            → Stands self.entry entries → Stands result entries }
        ensures held { result.holders.held.now ≡ held.now }
    {
        Version {
            hashes: self.hashes,
            holders: self.holders.beside(held),
        }
    }

    /// Goes on to the version after a change.
    pub(crate) fn change(&mut self, list: ListName, change: &Change) -> Result<(), OutOfMemory>
        requires { All (λ added. IsPrefixSize added.size) change.now.adds }
        ensures ok { OnOk result ((entries : List Entry) → Stands self.old entries
            → Stands self.new (after_change list entries change.now)) }
        ensures held { self.new.holders.held.now ≡ self.old.holders.held.now }
    {
        if concerns(change, list) {
            self.remove_each(change.removes.as_slice())?;
            self.add_each(change.adds.as_slice())?;
        }
        Ok(())
    }

    /// Whether the holder of the held set may be brought to this version.
    pub(crate) fn may_take(&self, max_update: u32, max_database: u32) -> bool
        ensures { (entries : List Entry) → Stands self.now entries
            → result ≡ may_take self.now.holders.held.now max_update max_database (published entries) }
    {
        is_within(max_update, self.holders.differing())
            && is_within(max_database, self.holders.len())
    }
}
