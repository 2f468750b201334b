ghost use Rattle.std.specs.Prelude.{◌≡◌, ℕ, ◌↔◌, List, length, Contains, None};
ghost use Rattle.sb_model.specs.Prefixes.{IsRising, set_of};
ghost use Rattle.sb_model.specs.Difference.{removed_places, added_members};
ghost use Rattle.prefix_set.specs.Apply.{applied, first_past};

/// What two sets differ by leads from the one to the other, and its places are places of the first.
pub fn differences_lead()
    ensures leads { (old newer : List (List ℕ)) → IsRising old → IsRising newer
        → applied old (removed_places old newer) (added_members old newer) ≡ newer }
    ensures in_range { (old newer : List (List ℕ))
        → first_past (length old) (removed_places old newer) ≡ None }
{}

/// The set of a list is the one rising list that has its members, whatever their order and however
/// often each stands there.
pub fn sets_go_by_members()
    ensures rising { (xs : List (List ℕ)) → IsRising (set_of xs) }
    ensures members { (xs : List (List ℕ)) (x : List ℕ) → Contains (set_of xs) x ↔ Contains xs x }
    ensures only { (xs ys : List (List ℕ)) → IsRising xs → IsRising ys
        → ((x : List ℕ) → Contains xs x ↔ Contains ys x) → xs ≡ ys }
    ensures same { (xs ys : List (List ℕ)) → ((x : List ℕ) → Contains xs x ↔ Contains ys x)
        → set_of xs ≡ set_of ys }
{}
