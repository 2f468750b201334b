ghost use Rattle.std.specs.Prelude.{◌≡◌, ◌↔◌, ◌++◌, ℕ, List, [], map, Contains, None, Ok, Result};
ghost use Rattle.sb_model.specs.declared.time.Moment.{Moment};
ghost use Rattle.sb_model.specs.History.{History, IsWellFormed};
ghost use Rattle.sb_model.specs.Naming.{Naming};
ghost use Rattle.hash_messages.specs.declared.response.FindResponse.{FindResponse};
ghost use Rattle.url_canon.specs.Url.{Url};
ghost use Rattle.update_client.specs.Held.{Held};
ghost use Rattle.update_client.specs.Replica.{AreReplicas};
ghost use Rattle.verdict_report.specs.declared.verdicts.Cause.{Cause};
ghost use Rattle.full_hash_cache.specs.Law.{Step, after_steps};
ghost use Rattle.full_hash_cache.specs.Law.Step.{Asks};
ghost use Rattle.url_checker.specs.Hits.{hits_of};
ghost use Rattle.url_checker.specs.Resolving.{open_cause, find_asked, hits_asked, kept_by, lists_hit, looked_up_pairs, verdict_by};
ghost use Rattle.url_checker.specs.Several.{all_asked, IsLookOf};
ghost use Rattle.url_checker.specs.declared.findings.Hit.{Hit};
ghost use Rattle.url_checker.specs.declared.looking.Looks.{Looks};
ghost use Rattle.client_laws.specs.Faithful.{IsFaithful, TakenAreFaithful, pair_of_hit};
ghost use Rattle.client_laws.specs.Resolved.{IsLookup, IsBorneOut, steps_of_answer};
ghost use Rattle.client_laws.specs.Rulings.{IsNoneOpen};
ghost use Rattle.client_laws.specs.Shared.{IsDecidedBy, said_by_answer};

use crate::verdicts::{faithful_answers_rule_rightly, right_rulings_are_lookups};
use prefix_set::sets_go_by_members;
use sb_model::names_go_by_their_codes;

/// The verdict of a look at the hits of a URL by an answer, where those that decide them are faithful to lists that are replicas, each
/// for the pairs that it decides. The answer may be that of a find which asked for the open hits of other looks too.
pub fn shared_verdicts_are_lookups()
    // Where no hit is left open, it equals a look-up of each expression's hash in the full lists.
    ensures resolved { (history : History) (token_at : Naming) (lists : List Held) (url : Url) (steps : List Step)
        (now : Moment) (answer : Result FindResponse Cause) → IsWellFormed history → AreReplicas history token_at lists
        → IsDecidedBy history token_at lists steps now answer (hits_of lists url)
        → IsNoneOpen (hits_of lists url) (said_by_answer steps now answer)
        → IsLookup history token_at lists url (verdict_by (after_steps [] steps) now answer (hits_of lists url)) }

    // Whether one is left open or not, what it says is so.
    ensures borne_out { (history : History) (token_at : Naming) (lists : List Held) (url : Url) (steps : List Step)
        (now : Moment) (answer : Result FindResponse Cause) → IsWellFormed history → AreReplicas history token_at lists
        → IsDecidedBy history token_at lists steps now answer (hits_of lists url)
        → IsBorneOut history token_at lists url (verdict_by (after_steps [] steps) now answer (hits_of lists url)) }

    // Hits are left open exactly where there is a cause for it: some were asked, and no answer was got.
    ensures open { (steps : List Step) (now : Moment) (answer : Result FindResponse Cause) (hits : List Hit)
        → IsNoneOpen hits (said_by_answer steps now answer)
        ↔ (open_cause answer (hits_asked (after_steps [] steps) now hits) ≡ None) }
{
    names_go_by_their_codes();
    faithful_answers_rule_rightly();
    right_rulings_are_lookups();
}

/// Where each answer that was taken is faithful to the lists, for each of them whose types were asked and each asked prefix, and so is the
/// one to a find for the open hits of several looks, those that decide the hits of each of these looks are.
pub fn faithful_finds_decide_each_look()
    ensures { (history : History) (token_at : Naming) (lists : List Held) (states : List (List ℕ)) (steps : List Step) (now : Moment)
        (answer : Result FindResponse Cause) (hits : List Hit) (looks : List Looks) (look : Looks)
        → Contains looks look → IsLookOf (after_steps [] steps) now hits look → TakenAreFaithful history token_at lists steps
        → ((message : FindResponse) → answer ≡ Ok message → IsFaithful history token_at lists (find_asked states (all_asked looks)) message)
        → IsDecidedBy history token_at lists steps now answer hits }
{
    sets_go_by_members();
}

/// A look and an answer that is kept each make steps of a cache: what they leave of pairs that some steps left from no pairs on, more
/// steps leave.
pub fn looks_and_answers_are_steps()
    ensures looked { (steps : List Step) (now : Moment) (hits : List Hit)
        → looked_up_pairs (after_steps [] steps) hits ≡ after_steps [] (steps ++ map (λ hit. Asks now (pair_of_hit hit) hit.hash) hits) }
    ensures answered { (steps : List Step) (states : List (List ℕ)) (asked : List Hit) (at : Moment) (answer : Result FindResponse Cause)
        → kept_by at (lists_hit asked) (find_asked states asked) answer (after_steps [] steps)
        ≡ after_steps [] (steps ++ steps_of_answer states asked at answer) }
{}
