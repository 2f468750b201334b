ghost use Rattle.std.specs.Prelude.{◌≡◌, ◌+◌, ◌^◌, ◌<◌, ◌≤◌, List, [], ℕ, length, slice_index_or, nat_eq, slice_get, Some, IfOk};
ghost use Rattle.std.specs.Cmp.Lexicographic.{pointwise};
ghost use Rattle.sb_model.specs.Prefixes.{bytes_cmp};
ghost use Rattle.prefix_set.specs.Limits.{IsPrefixSet};
ghost use Rattle.prefix_set.specs.declared.set.TheConstants.{MAX_PREFIXES};

use crate::packed::PackedPrefixes;
use hash_prefixes::Prefix;
use sb_model::{OutOfMemory, Steps};
use std::alloc::Global;
use std::cmp::Ordering;
use std::marker::Model;
use std::sync::ledger::Ledger;

/// The members of a set in packed bytes. Contracts see it as the same list as the set.
#[derive(Debug, Drop)]
pub struct PackedStore {
    packed: PackedPrefixes,
}

impl Model for PackedStore {
    ghost use Rattle.std.specs.Prelude.{ℕ, List};
    ghost use Rattle.prefix_set.specs.Limits.{IsPrefixSet};

    ghost Value = { List (List ℕ) };

    ghost view = { λ s. s.packed };

    ghost invariant = { λ s. IsPrefixSet s.packed };
}

impl PackedStore {
    // The store of these members.
    pub(crate) fn of(packed: PackedPrefixes) -> PackedStore
        requires { IsPrefixSet packed }
        ensures { result ≡ packed }
    {
        PackedStore { packed }
    }

    // The members alone.
    pub(crate) fn packed(&self) -> &PackedPrefixes
        ensures value { result.now ≡ self.now }
        ensures set { IsPrefixSet self.now }
    {
        &self.packed
    }

    // The same members once more.
    pub(crate) fn copy(&self, alloc: Global) -> Result<PackedStore, OutOfMemory>
        ensures { IfOk result (λ copy. copy ≡ self.now) }
    {
        Ok(PackedStore {
            packed: self.packed.copy(alloc)?,
        })
    }

    /// How many members there are.
    pub fn len(&self) -> u32
        ensures value { result ≡ length self.now }
        ensures limit { length self.now ≤ MAX_PREFIXES }
    {
        self.packed.len() as u32
    }

    /// The order of the member at a place and a prefix. It counts one step.
    pub fn compare<L: Ledger>(&self, index: u32, prefix: &Prefix, steps: &mut Steps<L>) -> Ordering
        requires index { index < length self.now }
        requires steps { steps.old < 2 ^ 63 }
        ensures order { result ≡ bytes_cmp (slice_index_or self.now index []) prefix.now }
        ensures steps { steps.new ≡ steps.old + 1 }
    {
        steps.tick();
        self.packed.compare(index as usize, prefix.as_bytes())
    }
}
