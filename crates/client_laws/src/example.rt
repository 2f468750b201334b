ghost use Rattle.std.specs.Prelude.{◌≡◌, ℕ, ◌≤◌, [], ◌∷◌, Option};
ghost use Rattle.sb_model.specs.declared.time.Moment.{Moment};
ghost use Rattle.sb_model.specs.Naming.{IsNaming};
ghost use Rattle.wait_rules.specs.declared.waits.WaitState.{WaitState};
ghost use Rattle.timed_sessions.specs.Timed.{TimedSession};
ghost use Rattle.full_hash_cache.specs.Law.{after_steps};
ghost use Rattle.verdict_report.specs.declared.verdicts.Verdict.{Verdict};
ghost use Rattle.url_checker.specs.Hits.{hits_of};
ghost use Rattle.url_checker.specs.Resolving.{verdict_of};
ghost use Rattle.client_laws.specs.Example.{MeetsPremises, example_url_history, example_hit, example_name, example_tokens, example_url, got_at, held_at, second_later, steps_at};

use crate::{
    faithful_finds_decide, full_hashes_are_one, resolved_verdicts_are_lookups,
    served_answers_are_faithful,
};

/// The premises of the law of verdicts can be met: by a server that lists the hash of a URL's one expression at its first version, and
/// at its second another hash with the same first bytes, so that a client at either version has the one hit.
pub fn premises_of_a_verdict_are_met()
    ensures hit { (version : ℕ) → hits_of (held_at version ∷ []) example_url ≡ example_hit ∷ [] }
    ensures naming { IsNaming example_url_history example_tokens }

    // By the answer that was got the verdict is unsafe at the first version, and safe at the second.
    ensures got { (version : ℕ) (now : Moment) (session : TimedSession) (word : Option ℕ) (waits : WaitState)
        → 1 ≤ version → version ≤ 2
        → MeetsPremises example_url_history example_tokens (held_at version ∷ []) example_url [] waits (got_at version now session word) }
    ensures got_first { (now : Moment) (session : TimedSession) (word : Option ℕ) (waits : WaitState)
        → verdict_of [] waits (hits_of (held_at 1 ∷ []) example_url) (got_at 1 now session word) ≡ Verdict.Unsafe (example_name ∷ []) }
    ensures got_second { (now : Moment) (session : TimedSession) (word : Option ℕ) (waits : WaitState)
        → verdict_of [] waits (hits_of (held_at 2 ∷ []) example_url) (got_at 2 now session word) ≡ Verdict.Safe }

    // So it is by the same answers where they are kept, and none was got.
    ensures kept { (version : ℕ) (waits : WaitState) → 1 ≤ version → version ≤ 2
        → MeetsPremises example_url_history example_tokens (held_at version ∷ []) example_url (steps_at version) waits second_later }
    ensures kept_first { (waits : WaitState)
        → verdict_of (after_steps [] (steps_at 1)) waits (hits_of (held_at 1 ∷ []) example_url) second_later ≡ Verdict.Unsafe (example_name ∷ []) }
    ensures kept_second { (waits : WaitState)
        → verdict_of (after_steps [] (steps_at 2)) waits (hits_of (held_at 2 ∷ []) example_url) second_later ≡ Verdict.Safe }
{
    full_hashes_are_one();
    faithful_finds_decide();
    resolved_verdicts_are_lookups();
    served_answers_are_faithful();
}
