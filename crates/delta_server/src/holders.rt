ghost use Rattle.std.specs.Prelude.{◌≡◌, ℕ, ◌+◌, ◌-◌, ◌<◌, ◌^◌, min, List, [], length, Some, is_some, IfOk, OnOk, if◌then◌else◌};
ghost use Rattle.std.specs.Option.{unwrap_or};
ghost use Rattle.sb_model.specs.declared.history.Added.{Added as Entry};
ghost use Rattle.sb_model.specs.Difference.{difference_count};
ghost use Rattle.sb_model.specs.History.{without_hash};
ghost use Rattle.delta_server.specs.Counts.{value_at_key, Puts, count_if_any, Gains, Counts, HaveHashesApart, prefix_of_hash};
ghost use Rattle.delta_server.specs.Walk.{published};

use hash_prefixes::Prefix;
use prefix_set::{PrefixSet, sets_go_by_members};
use sb_model::OutOfMemory;
use std::alloc::Global;
use std::collections::HashMap;

/// How many full hashes have each prefix. These are bytes of digests, so that a fixed seed spreads
/// them well enough.
pub(crate) type HolderCounts = HashMap<Prefix, u64>;

// Counts one more of a prefix, and gives the count before.
fn add_holder(counts: &mut HolderCounts, prefix: Prefix) -> Result<u64, OutOfMemory>
    ensures before { IfOk result
        (λ count. count ≡ unwrap_or (value_at_key counts.old.entries prefix) 0) }
    ensures puts { IfOk result (λ count. Puts counts.old.entries counts.new.entries prefix
        (Some (min (count + 1) (2 ^ 64 - 1)))) }
    ensures len { OnOk result (length counts.new.entries ≡ length counts.old.entries
        + (if is_some (value_at_key counts.old.entries prefix) then 0 else 1)) }
{
    let count = counts.entry(prefix)?.or_insert(0);
    let before = *count;
    *count = before.saturating_add(1);
    Ok(before)
}

// Counts one less of a prefix, and gives the count that is left.
fn remove_holder(counts: &mut HolderCounts, prefix: Prefix) -> Result<u64, OutOfMemory>
    ensures left { IfOk result
        (λ left. left ≡ unwrap_or (value_at_key counts.old.entries prefix) 0 - 1) }
    ensures puts { IfOk result
        (λ left. Puts counts.old.entries counts.new.entries prefix (count_if_any left)) }
    ensures len { IfOk result (λ left.
        length counts.new.entries + (if is_some (value_at_key counts.old.entries prefix) then 1 else 0)
        ≡ length counts.old.entries + (if is_some (count_if_any left) then 1 else 0)) }
{
    let left = counts.remove(&prefix).unwrap_or(0).saturating_sub(1);
    if left > 0 {
        counts.insert(prefix, left)?;
    }
    Ok(left)
}

/// How many full hashes of a version have each prefix, beside a set that a client holds.
#[derive(Drop)]
pub(crate) struct Holders<'a> {
    pub(crate) held: &'a PrefixSet,
    pub(crate) counts: HolderCounts,
    // how many prefixes the held set has too
    pub(crate) shared: u64,
}

impl<'a> Holders<'a> {
    // No full hashes, with room for the prefixes of some.
    pub(crate) fn with_capacity(
        alloc: Global,
        held: &'a PrefixSet,
        count: usize,
    ) -> Result<Holders<'a>, OutOfMemory>
        ensures held { IfOk result (λ holders. holders.held.now ≡ held.now) }
        ensures counts { IfOk result (λ holders. Counts holders []) }
    {
        let counts = HashMap::with_capacity(alloc, count)?;
        Ok(Holders {
            held,
            counts,
            shared: 0,
        })
    }

    /// The same counts beside another held set, whose prefixes are those of the full hashes.
    pub(crate) fn beside<'b>(self, held: &'b PrefixSet) -> Holders<'b>
        ensures counts { (entries : List Entry) → held.now ≡ published entries
            → Counts self.entry entries → Counts result entries }
        ensures held { result.held.now ≡ held.now }
    {
        sets_go_by_members();
        Holders {
            held,
            counts: self.counts,
            shared: u64::from(held.len()),
        }
    }

    // One more full hash has the prefix.
    pub(crate) fn enter(&mut self, prefix: Prefix) -> Result<(), OutOfMemory>
        ensures ok { OnOk result ((fewer more : List Entry) → Gains fewer more prefix → length more < 2 ^ 63
            → Counts self.old fewer → Counts self.new more) }
        ensures held { self.new.held.now ≡ self.old.held.now }
    {
        sets_go_by_members();
        // looked at for the prover: what each set keeps
        let _ = self.held.len();
        let before = add_holder(&mut self.counts, prefix)?;
        if before == 0 && self.held.contains(&prefix) {
            self.shared = self.shared.saturating_add(1);
        }
        Ok(())
    }

    // One full hash less has the prefix.
    fn leave(&mut self, prefix: Prefix) -> Result<(), OutOfMemory>
        ensures ok { OnOk result ((fewer more : List Entry) → Gains fewer more prefix
            → Counts self.old more → Counts self.new fewer) }
        ensures held { self.new.held.now ≡ self.old.held.now }
    {
        sets_go_by_members();
        // looked at for the prover: what each set keeps
        let _ = self.held.len();
        let left = remove_holder(&mut self.counts, prefix)?;
        if left == 0 && self.held.contains(&prefix) {
            self.shared = self.shared.saturating_sub(1);
        }
        Ok(())
    }

    // A full hash went, where it had a prefix.
    pub(crate) fn leave_if(&mut self, gone: Option<Prefix>) -> Result<(), OutOfMemory>
        ensures ok { OnOk result ((entries : List Entry) (hash : List ℕ) → HaveHashesApart entries
            → gone ≡ prefix_of_hash hash entries → Counts self.old entries
            → Counts self.new (without_hash entries hash)) }
        ensures held { self.new.held.now ≡ self.old.held.now }
    {
        if let Some(prefix) = gone {
            self.leave(prefix)?;
        }
        Ok(())
    }

    // How many prefixes there are.
    pub(crate) fn len(&self) -> u64
        ensures count { (entries : List Entry) → Counts self.now entries → result ≡ length (published entries) }
        ensures few { result < 2 ^ 63 }
    {
        self.counts.len() as u64
    }

    // How many prefixes are in exactly one of the two sets.
    pub(crate) fn differing(&self) -> u64
        ensures { (entries : List Entry) → Counts self.now entries
            → result ≡ difference_count self.now.held.now (published entries) }
    {
        let both = self.len().saturating_add(u64::from(self.held.len()));
        both.saturating_sub(self.shared.saturating_mul(2))
    }
}
