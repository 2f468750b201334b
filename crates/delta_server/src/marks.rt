ghost use Rattle.std.specs.Prelude.{◌≡◌, ℕ, ◌+◌, ◌-◌, ◌^◌, ◌<◌, ◌≤◌, ◌&&◌, nat_le, nat_lt, if◌then◌else◌, length, take, slice_index, sum, IfOk};
ghost use Rattle.delta_server.specs.Sweeping.{TellsCounts, HasPlaces};

use sb_model::OutOfMemory;
use std::alloc::Global;

/// How many stretches of places begin at each place, and how many stop there.
#[derive(Drop)]
pub(crate) struct Marks {
    pub(crate) begins: Vec<u64>,
    pub(crate) stops: Vec<u64>,
}

// One more at a place.
fn raise(counts: &mut Vec<u64>, place: usize)
    requires { place < length counts.old.items }
    ensures sums { (count : ℕ) → slice_index counts.old.items place < 2 ^ 64 - 1
        → sum (take count counts.new.items) ≡ sum (take count counts.old.items) + (if nat_lt place count then 1 else 0) }
    ensures most { (most : ℕ) → ((k : ℕ) → slice_index counts.old.items k ≤ most) → (k : ℕ) → slice_index counts.new.items k ≤ most + 1 }
    ensures len { length counts.new.items ≡ length counts.old.items }
{
    counts[place] = counts[place].saturating_add(1);
}

impl Marks {
    /// No marks, for so many places.
    pub(crate) fn new(alloc: Global, places: usize) -> Result<Marks, OutOfMemory>
        ensures places { IfOk result (λ marks. HasPlaces marks places) }
        ensures tells { IfOk result (λ marks. TellsCounts marks 0 (λ place. 0)) }
    {
        let begins = vec![in alloc; 0; places]?;
        let stops = vec![in alloc; 0; places]?;
        Ok(Marks { begins, stops })
    }

    /// A stretch more, from a place to another, before which it ends.
    pub(crate) fn mark(&mut self, begin: usize, stop: usize)
        requires order { begin ≤ stop }
        requires within { stop < length self.old.begins.items }
        requires same { length self.old.stops.items ≡ length self.old.begins.items }
        ensures places { (places : ℕ) → HasPlaces self.old places → HasPlaces self.new places }
        ensures tells { (most : ℕ) (count : ℕ → ℕ) → most < 2 ^ 63 → TellsCounts self.old most count
            → TellsCounts self.new (most + 1) (λ place. count place + (if nat_le begin place && nat_lt place stop then 1 else 0)) }
    {
        raise(&mut self.begins, begin);
        raise(&mut self.stops, stop);
    }

    /// How many stretches have a place, after how many have the place before it.
    pub(crate) fn level(&self, place: usize, before: u64) -> u64
        requires within { place < length self.now.begins.items }
        requires same { length self.now.stops.items ≡ length self.now.begins.items }
        ensures { (most : ℕ) (count : ℕ → ℕ) → most < 2 ^ 63 → count place < 2 ^ 63 → place + 1 < length self.now.begins.items
            → TellsCounts self.now most count → before + sum (take place self.now.stops.items) ≡ sum (take place self.now.begins.items)
            → result ≡ count place }
    {
        before
            .saturating_add(self.begins[place])
            .saturating_sub(self.stops[place])
    }
}
