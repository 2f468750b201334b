ghost use Rattle.std.specs.Prelude.{◌≡◌, [], ◌∷◌, ◌++◌, length, true, OnOk, IfOk};
ghost use Rattle.sb_model.specs.History.{IsPrefixSize};
ghost use Rattle.prefix_set.specs.Limits.{IsPrefixSet};
ghost use Rattle.client_store.specs.Reading.{may_follow};

use hash_prefixes::Prefix;
use prefix_set::{Edit, MAX_BYTES, PrefixSet, sets_go_by_members};
use sb_model::OutOfMemory;
use std::alloc::Global;
use std::cmp::Ordering;
use std::marker::Model;

/// The prefixes of a list that were read so far, of which the last lies in the text. Contracts see
/// them as a list.
#[derive(Drop)]
pub(crate) struct Gathered<'a> {
    edit: Edit,
    last: &'a [u8],
    total: usize,
}

impl<'a> Model for Gathered<'a> {
    ghost use Rattle.std.specs.Prelude.{ℕ, List};
    ghost use Rattle.client_store.specs.Gathered.{IsGathered};

    ghost Value = { List (List ℕ) };

    ghost view = { λ g. g.edit.additions };

    ghost invariant = { λ g. IsGathered g.edit g.last.now g.total };
}

impl<'a> Gathered<'a> {
    /// No prefix. It takes no memory.
    pub(crate) fn new(alloc: Global) -> Gathered<'a>
        ensures { result ≡ [] }
    {
        Gathered {
            edit: Edit::new(alloc),
            last: &[],
            total: 0,
        }
    }

    /// Whether a prefix may stand next.
    pub(crate) fn may_go_on(&self, prefix: &[u8]) -> bool
        ensures { result ≡ may_follow self.now prefix.now }
    {
        self.last.cmp(prefix) == Ordering::Less && self.total + prefix.len() <= MAX_BYTES as usize
    }

    /// Appends a prefix that may stand next.
    pub(crate) fn push(&mut self, prefix: &'a [u8]) -> Result<(), OutOfMemory>
        requires size { IsPrefixSize (length prefix.now) }
        requires follows { may_follow self.old prefix.now ≡ true }
        ensures { OnOk result (self.new ≡ self.old ++ prefix.now ∷ []) }
    {
        let Some(own) = Prefix::from_bytes(prefix) else {
            unreachable!()
        };
        self.edit.add(&own)?;
        self.last = prefix;
        self.total += prefix.len();
        Ok(())
    }

    /// The set of the prefixes.
    pub(crate) fn into_set(self, alloc: Global) -> Result<PrefixSet, OutOfMemory>
        requires { IsPrefixSet self }
        ensures { IfOk result (λ set. set ≡ self.entry) }
    {
        sets_go_by_members();
        // They are within the limits of a set, so that memory alone can be refused.
        let Gathered { edit, .. } = self;
        match PrefixSet::empty(alloc).apply_edit(alloc, edit) {
            Ok(set) => Ok(set),
            Err(_) => Err(OutOfMemory),
        }
    }
}
