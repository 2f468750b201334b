ghost use Rattle.std.specs.Prelude.{◌≡◌, ◌+◌, ◌^◌, ◌<◌, List, [], map, All, Some, None, IfOk, OnOk, OnErr};
ghost use Rattle.std.specs.List.{IsDistinct};
ghost use Rattle.std.specs.Map.{keys_of};
ghost use Rattle.std.specs.Str.{bytes_eq};
ghost use Rattle.sb_model.specs.declared.history.Added.{Added as Entry};
ghost use Rattle.sb_model.specs.History.{prefix_of};
ghost use Rattle.sb_model.specs.Prefixes.{IsRising, set_of};
ghost use Rattle.list_versions.specs.HashSizes.{IsMapOf, Sets, line_size, rising_sizes};
ghost use Rattle.list_versions.specs.Live.{IsPublishable};

use crate::listing::{entries_of, prefixes_of};
use hash_prefixes::{FullHash, HashKey};
use prefix_set::{PrefixSet, sets_go_by_members};
use sb_model::{Added, OutOfMemory, Steps};
use std::alloc::Global;
use std::collections::HashMap;
use std::marker::Model;
use std::sync::ledger::Ledger;

/// The full hashes of a list with the sizes of their prefixes, while hash lines of a journal are
/// folded. Contracts see it as the entries of a map from full hashes to sizes, in the order of the
/// hashes.
#[derive(Debug, Drop)]
pub struct Folding {
    sizes: HashMap<HashKey, u8>,
}

impl Model for Folding {
    ghost use Rattle.list_versions.specs.HashSizes.{HashSizes, rising_sizes};

    ghost Value = { HashSizes };

    ghost view = { λ f. rising_sizes f.sizes.entries };
}

impl Folding {
    /// No full hashes.
    pub(crate) fn new(alloc: Global) -> Folding
        ensures { result ≡ [] }
    {
        Folding {
            sizes: HashMap::new(alloc),
        }
    }

    /// The map itself, whose entries stand in an order of their own.
    pub(crate) fn sizes(&self) -> &HashMap<HashKey, u8>
        ensures map { rising_sizes result.now.entries ≡ self.now }
        ensures keys { set_of (keys_of result.now.entries) ≡ keys_of self.now }
        ensures rises { IsRising (keys_of self.now) }
    {
        sets_go_by_members();
        &self.sizes
    }

    /// Gives a hash a size, in place of the one that it had.
    pub(crate) fn put(&mut self, hash: [u8; 32], size: u8) -> Result<(), OutOfMemory>
        ensures ok { OnOk result (Sets self.old self.new hash (Some size)) }
        ensures err { OnErr result (self.new ≡ self.old) }
        ensures rises { IsRising (keys_of self.new) }
    {
        sets_go_by_members();
        self.sizes.insert(HashKey { bytes: hash }, size)?;
        Ok(())
    }

    // Takes a hash out, if it is there.
    fn remove(&mut self, hash: &[u8; 32])
        ensures gone { Sets self.old self.new hash.now None }
        ensures rises { IsRising (keys_of self.new) }
    {
        sets_go_by_members();
        self.sizes.remove(&HashKey { bytes: *hash });
    }

    /// Folds one hash line: the hash is put with the size, in place of the one that it had, or is
    /// taken out. Where the line removes, the size is not looked at. An `Err` leaves the map, and
    /// each call takes one step.
    pub fn line<L: Ledger>(
        &mut self,
        hash: &FullHash,
        size: u8,
        add: bool,
        steps: &mut Steps<L>,
    ) -> Result<(), OutOfMemory>
        requires { steps.old < 2 ^ 63 }
        ensures ok { OnOk result (Sets self.old self.new hash.now.bytes (line_size add size)) }
        ensures err { OnErr result (self.new ≡ self.old) }
        ensures rises { IsRising (keys_of self.new) }
        ensures steps { steps.new ≡ steps.old + 1 }
    {
        steps.tick();
        if add {
            return self.put(hash.bytes, size);
        }
        self.remove(&hash.bytes);
        Ok(())
    }

    /// The full hashes with their sizes, each once, in no order.
    pub fn entries(&self, alloc: Global) -> Result<Vec<Added>, OutOfMemory>
        ensures map { IfOk result (λ entries. IsMapOf self.now entries.items) }
        ensures once { IfOk result
            (λ entries. IsDistinct bytes_eq (map (λ entry. entry.hash) entries.items)) }
    {
        entries_of(alloc, self)
    }

    /// The set of the prefixes that are published of the full hashes.
    pub fn prefixes(&self, alloc: Global) -> Result<PrefixSet, OutOfMemory>
        ensures { IfOk result (λ set. (entries : List Entry) → IsMapOf self.now entries
            → All IsPublishable entries → set ≡ set_of (map prefix_of entries)) }
    {
        prefixes_of(alloc, self)
    }
}
