ghost use Rattle.std.specs.Prelude.{◌≡◌, ℕ, ◌≤◌, List, Option, ◌↔◌, IsTrue, Some, IfSome};
ghost use Rattle.std.specs.Ordering.{nat_cmp};
ghost use Rattle.sb_model.specs.Names.{threat_code, platform_code, entry_code, threat_with_code, platform_with_code, entry_with_code, same_name, name_cmp};
ghost use Rattle.sb_model.specs.History.{History, version_count};
ghost use Rattle.sb_model.specs.Target.{can_reach, target_version};
ghost use Rattle.sb_model.specs.Time.{nanos_in, WritesNanos};
ghost use Rattle.sb_model.specs.declared.names.ListName.{ListName};
ghost use Rattle.sb_model.specs.declared.names.ThreatType.{ThreatType};
ghost use Rattle.sb_model.specs.declared.names.PlatformType.{PlatformType};
ghost use Rattle.sb_model.specs.declared.names.EntryType.{EntryType};

use crate::{EntryType, ListName, PlatformType, ThreatType};

/// Types are ordered by their codes, and names by their three codes, the threat's first. Two names
/// with the same codes are one.
pub fn names_go_by_their_codes()
    ensures threats { (a b : ThreatType) → ⟦<ThreatType as Ord>⟧.cmp a b ≡ nat_cmp (threat_code a) (threat_code b) }
    ensures platforms { (a b : PlatformType) → ⟦<PlatformType as Ord>⟧.cmp a b ≡ nat_cmp (platform_code a) (platform_code b) }
    ensures entries { (a b : EntryType) → ⟦<EntryType as Ord>⟧.cmp a b ≡ nat_cmp (entry_code a) (entry_code b) }
    ensures names { (a b : ListName) → ⟦<ListName as Ord>⟧.cmp a b ≡ name_cmp a b }
    ensures same { (a b : ListName) → IsTrue (same_name a b) ↔ (a ≡ b) }
{}

/// A type is found by a code exactly where the code is its own.
pub fn codes_name_types()
    ensures threats { (code : ℕ) (t : ThreatType) → (threat_with_code code ≡ Some t) ↔ (threat_code t ≡ code) }
    ensures platforms { (code : ℕ) (p : PlatformType) → (platform_with_code code ≡ Some p) ↔ (platform_code p ≡ code) }
    ensures entries { (code : ℕ) (e : EntryType) → (entry_with_code code ≡ Some e) ↔ (entry_code e ≡ code) }
{}

/// A text is read as so many nanoseconds exactly where its digits write them.
pub fn durations_are_their_digits()
    ensures { (text : List ℕ) (nanos : ℕ) → (nanos_in text ≡ Some nanos) ↔ WritesNanos text nanos }
{}

/// The target is a version that the client may be brought to, and none after it is one.
pub fn targets_are_the_greatest()
    ensures reached { (history : History) (list : ListName) (held : Option ℕ) (max_update max_database : ℕ)
        → IfSome held (λ version. version ≤ version_count history)
        → IsTrue (can_reach history list held max_update max_database (target_version history list held max_update max_database)) }
    ensures greatest { (history : History) (list : ListName) (held : Option ℕ) (max_update max_database version : ℕ)
        → version ≤ version_count history → IsTrue (can_reach history list held max_update max_database version)
        → version ≤ target_version history list held max_update max_database }
    ensures last { (history : History) (list : ListName) (held : Option ℕ) (max_update max_database : ℕ)
        → target_version history list held max_update max_database ≤ version_count history }
{}
