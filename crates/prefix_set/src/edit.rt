ghost use Rattle.std.specs.Prelude.{◌≡◌, ℕ, ◌%◌, List, [], ◌∷◌, ◌++◌, length, IfOk, OnOk, OnErr};
ghost use Rattle.sb_model.specs.History.{IsPrefixSize};
ghost use Rattle.prefix_set.specs.Edits.{EditLists};
ghost use Rattle.prefix_set.specs.Pieces.{pieces_of};

use crate::packed::PackedPrefixes;
use hash_prefixes::Prefix;
use sb_model::OutOfMemory;
use std::alloc::Global;
use std::marker::Model;

/// A change of a set that is being written down: the places of the members that go, counted from 0
/// in the set as it is, and the prefixes that come. Contracts see it as these two lists.
///
/// Both may be given in any order and with repeats. `PrefixSet::merge` makes the change.
#[derive(Debug, Drop)]
pub struct Edit {
    removals: Vec<u32>,
    additions: PackedPrefixes,
}

impl Model for Edit {
    ghost use Rattle.prefix_set.specs.Edits.{EditLists};

    ghost Value = { EditLists };

    ghost view = { λ e. record { removals = e.removals.items; additions = e.additions } };
}

/// What an edit is made of.
pub(crate) struct EditParts {
    pub(crate) removals: Vec<u32>,
    pub(crate) additions: PackedPrefixes,
}

impl Edit {
    /// The edit that changes nothing. It takes no memory.
    pub fn new(alloc: Global) -> Edit
        ensures { result ≡ record { removals = []; additions = [] } }
    {
        Edit {
            removals: Vec::new(alloc),
            additions: PackedPrefixes::new(alloc),
        }
    }

    /// Removes the member at a place.
    pub fn remove(&mut self, index: u32) -> Result<(), OutOfMemory>
        ensures ok { OnOk result
            (self.new ≡ record self.old { removals = self.old.removals ++ index ∷ [] }) }
        ensures err { OnErr result (self.new ≡ self.old) }
    {
        self.removals.push(index)?;
        Ok(())
    }

    /// Removes the members at these places.
    pub fn remove_each(&mut self, indices: &[u32]) -> Result<(), OutOfMemory>
        ensures ok { OnOk result
            (self.new ≡ record self.old { removals = self.old.removals ++ indices.now }) }
        ensures err { OnErr result (self.new ≡ self.old) }
    {
        self.removals.extend_from_slice(indices)?;
        Ok(())
    }

    /// Adds a prefix.
    pub fn add(&mut self, prefix: &Prefix) -> Result<(), OutOfMemory>
        ensures ok { OnOk result
            (self.new ≡ record self.old { additions = self.old.additions ++ prefix.now ∷ [] }) }
        ensures err { OnErr result (self.new ≡ self.old) }
    {
        // looked at for the prover: a prefix has 4 to 32 bytes
        let _ = prefix.size();
        self.additions.push(prefix.as_bytes())
    }

    /// Adds the prefixes of one size that stand one after the other in a string of bytes.
    pub fn add_each(&mut self, size: u8, bytes: &[u8]) -> Result<(), OutOfMemory>
        requires size { IsPrefixSize size }
        requires whole { length bytes.now % size ≡ 0 }
        ensures ok { OnOk result
            (self.new ≡ record self.old { additions = self.old.additions ++ pieces_of size bytes.now }) }
        ensures err { OnErr result (self.new ≡ self.old) }
    {
        self.additions.push_each(size, bytes)
    }

    // The two lists, moved.
    pub(crate) fn into_parts(self) -> EditParts
        ensures removals { result.removals.items ≡ self.removals }
        ensures additions { result.additions ≡ self.additions }
    {
        let Edit {
            removals,
            additions,
        } = self;
        EditParts {
            removals,
            additions,
        }
    }
}

// A copy of these numbers.
pub(crate) fn numbers_of(alloc: Global, numbers: &[u32]) -> Result<Vec<u32>, OutOfMemory>
    ensures { IfOk result (λ copy. copy.items ≡ numbers.now) }
{
    Ok(Vec::from_slice(alloc, numbers)?)
}
