ghost use Rattle.std.specs.Prelude.{◌≡◌, ◌≤◌, ◌↔◌, ℕ, List, length, map, Contains};
ghost use Rattle.std.specs.Int.{w32, from_le_bytes};
ghost use Rattle.std.specs.List.Sorted.{IsStrictlyIncreasing};
ghost use Rattle.sb_model.specs.Difference.{removed_places, added_members};
ghost use Rattle.prefix_set.specs.declared.difference.Delta.{Delta as Difference};
ghost use Rattle.prefix_set.specs.declared.set.TheConstants.{MAX_PREFIXES};
ghost use Rattle.update_messages.specs.Answer.{numbers_of};
ghost use Rattle.set_updates.specs.Updates.{MayBeSent};

use update_messages::sent_numbers_rise;

/// What leads from one set to another may be sent, if neither has more than 1,048,576 members.
pub fn differences_may_be_sent()
    ensures { (delta : Difference) (old newer : List (List ℕ)) → delta.removals ≡ removed_places old newer
        → delta.additions ≡ added_members old newer → length old ≤ MAX_PREFIXES → length newer ≤ MAX_PREFIXES
        → MayBeSent delta }
{
    sent_numbers_rise();
}

/// The numbers of members of four bytes, rising, are the one rising list that has these numbers and no others.
pub fn numbers_go_by_members()
    ensures { (members : List (List ℕ)) (numbers : List ℕ) → IsStrictlyIncreasing numbers
        → ((n : ℕ) → Contains numbers n ↔ Contains (map (from_le_bytes w32) members) n)
        → numbers ≡ numbers_of members }
{
    sent_numbers_rise();
}
