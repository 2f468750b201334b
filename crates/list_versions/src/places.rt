ghost use Rattle.std.specs.Prelude.{◌≡◌, slice_get, Contains, Some, IfSome, IfNone};
ghost use Rattle.sb_model.specs.Prefixes.{IsRising};
ghost use Rattle.list_versions.specs.Shifting.{IsFirstAt};

use hash_prefixes::Prefix;
use prefix_set::PrefixSet;
use std::cmp::Ordering;

/// The place of the first member that does not come before a prefix.
pub(crate) fn first_at(set: &PrefixSet, prefix: &Prefix) -> u32
    ensures { IsFirstAt set.now prefix.now result }
{
    let mut low = 0;
    let mut high = set.len();
    while low < high {
        let middle = low + (high - low) / 2;
        if set.at(middle).cmp(prefix) == Ordering::Less {
            low = middle + 1;
        } else {
            high = middle;
        }
    }
    low
}

/// The place of a prefix in a set, if the set has it.
pub(crate) fn place_of(set: &PrefixSet, prefix: &Prefix) -> Option<u32>
    ensures some { IfSome result (λ place. slice_get set.now place ≡ Some prefix.now) }
    ensures none { IfNone result (Contains set.now prefix.now → ⊥) }
    ensures rising { IsRising set.now }
{
    let place = first_at(set, prefix);
    if place < set.len() && set.at(place) == *prefix {
        return Some(place);
    }
    None
}
