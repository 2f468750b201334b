ghost use Rattle.std.specs.Prelude.{◌≡◌, ℕ, ◌^◌, ◌<◌, ◌≤◌};
ghost use Rattle.wait_rules.specs.Waits.{first_delay, failure_delay};

/// The delays are as long as they are meant to be: the first is at most a minute, one after failures is from 15 minutes to
/// a day, and from eight failures in a row on it is a day.
pub fn delays_are_bounded()
    ensures first { (word : ℕ) → word < 2 ^ 32 → first_delay word ≤ 60000 }
    ensures low { (failures word : ℕ) → 1 ≤ failures → 900000 ≤ failure_delay failures word }
    ensures high { (failures word : ℕ) → failure_delay failures word ≤ 86400000 }
    ensures many { (failures word : ℕ) → 8 ≤ failures → failure_delay failures word ≡ 86400000 }
{}
