ghost use Rattle.std.specs.Prelude.{◌≡◌, ◌≢◌, ◌+◌, ◌^◌, ◌<◌, ◌≤◌, ◌↔◌, length, take, slice_get, slice_index_or, [], Some, IsTrue};
ghost use Rattle.sb_model.specs.Prefixes.{bytes_cmp, IsRising};
ghost use Rattle.prefix_set.specs.Search.{AreBefore, IsPlaceOf};

use crate::packed::PackedPrefixes;
use std::cmp::Ordering;

/// Where a prefix is among rising ones: the place of the first that does not come before it, and the
/// place of the first that comes after it. It is there where these differ.
#[derive(Clone, Copy)]
pub(crate) struct Place {
    pub(crate) index: usize,
    pub(crate) past: usize,
}

impl Place {
    pub(crate) fn is_found(&self) -> bool
        ensures { IsTrue result ↔ (self.now.index < self.now.past) }
    {
        self.index < self.past
    }
}

// What stands in front of `low` comes before a prefix, and what stands from `high` on does not.
#[derive(Clone, Copy)]
struct Bounds {
    low: usize,
    high: usize,
}

// Goes on from a place by steps that double, up to a member that does not come before the prefix.
fn gallop(members: &PackedPrefixes, from: usize, prefix: &[u8]) -> Bounds
    requires rising { IsRising members.now }
    requires within { from ≤ length members.now }
    requires passed { AreBefore (take from members.now) prefix.now }
    ensures from { from ≤ result.low }
    ensures order { result.low ≤ result.high }
    ensures within { result.high ≤ length members.now }
    ensures below { AreBefore (take result.low members.now) prefix.now }
    ensures above { result.high < length members.now
        → bytes_cmp (slice_index_or members.now result.high []) prefix.now ≢ Ordering.Less }
{
    let mut low = from;
    let mut step: usize = 1;
    while step <= members.len() - low {
        let probe = low + (step - 1);
        if members.at(probe).cmp(prefix) != Ordering::Less {
            return Bounds { low, high: probe };
        }
        low = probe + 1;
        step = step.saturating_mul(2);
    }
    Bounds {
        low,
        high: members.len(),
    }
}

// The place of the first of rising members, between two places, that does not come before a prefix.
fn first_not_before(members: &PackedPrefixes, from: usize, to: usize, prefix: &[u8]) -> usize
    requires rising { IsRising members.now }
    requires within { to ≤ length members.now }
    requires order { from ≤ to }
    requires below { AreBefore (take from members.now) prefix.now }
    requires above { to < length members.now
        → bytes_cmp (slice_index_or members.now to []) prefix.now ≢ Ordering.Less }
    ensures order { from ≤ result }
    ensures within { result ≤ to }
    ensures below { AreBefore (take result members.now) prefix.now }
    ensures above { result < length members.now
        → bytes_cmp (slice_index_or members.now result []) prefix.now ≢ Ordering.Less }
{
    let mut low = from;
    let mut high = to;
    while low < high {
        let middle = low + (high - low) / 2;
        if members.at(middle).cmp(prefix) == Ordering::Less {
            low = middle + 1;
        } else {
            high = middle;
        }
    }
    low
}

// Whether a prefix stands at a place.
fn stands_at(members: &PackedPrefixes, index: usize, prefix: &[u8]) -> bool
    ensures here { IsTrue result ↔ (slice_get members.now index ≡ Some prefix.now) }
    ensures room { IsTrue result → index + 1 < 2 ^ 64 }
{
    index < members.len() && members.at(index) == prefix
}

/// The place of a prefix among rising members, where it is between two places.
pub(crate) fn place_between(
    members: &PackedPrefixes,
    from: usize,
    to: usize,
    prefix: &[u8],
) -> Place
    requires rising { IsRising members.now }
    requires within { to ≤ length members.now }
    requires order { from ≤ to }
    requires below { AreBefore (take from members.now) prefix.now }
    requires above { to < length members.now
        → bytes_cmp (slice_index_or members.now to []) prefix.now ≢ Ordering.Less }
    ensures place { IsPlaceOf members.now prefix.now result.index result.past }
    ensures order { from ≤ result.index }
{
    let index = first_not_before(members, from, to, prefix);
    Place {
        index,
        past: if stands_at(members, index, prefix) {
            index + 1
        } else {
            index
        },
    }
}

/// The place of a prefix among rising members, of which those in front of `from` come before it.
pub(crate) fn seek(members: &PackedPrefixes, from: usize, prefix: &[u8]) -> Place
    requires rising { IsRising members.now }
    requires within { from ≤ length members.now }
    requires passed { AreBefore (take from members.now) prefix.now }
    ensures place { IsPlaceOf members.now prefix.now result.index result.past }
    ensures order { from ≤ result.index }
{
    let bounds = gallop(members, from, prefix);
    place_between(members, bounds.low, bounds.high, prefix)
}
