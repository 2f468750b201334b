ghost use Rattle.std.specs.Prelude.{◌≡◌, ◌↔◌, ℕ, Bool, List, [], Contains, None, Ok, IsTrue};
ghost use Rattle.sb_model.specs.declared.names.ListName.{ListName};
ghost use Rattle.sb_model.specs.declared.time.Moment.{Moment};
ghost use Rattle.sb_model.specs.History.{History, IsWellFormed, declares, full_hashes_at, version_count};
ghost use Rattle.sb_model.specs.Naming.{Naming, IsNaming};
ghost use Rattle.hash_prefixes.specs.declared.hashes.FullHash.{FullHash};
ghost use Rattle.hash_messages.specs.Messages.{AskedHashes};
ghost use Rattle.hash_messages.specs.Matches.{asks_list, find_answer};
ghost use Rattle.hash_messages.specs.declared.response.FindResponse.{FindResponse};
ghost use Rattle.url_canon.specs.Url.{Url};
ghost use Rattle.update_client.specs.Held.{Held};
ghost use Rattle.update_client.specs.Replica.{AreReplicas};
ghost use Rattle.wait_rules.specs.declared.waits.WaitState.{WaitState};
ghost use Rattle.full_hash_cache.specs.declared.pair.Pair.{Pair};
ghost use Rattle.full_hash_cache.specs.Cache.{Pairs, cached_of, pair_of};
ghost use Rattle.http_edge.specs.declared.messages.Target.{Target};
ghost use Rattle.full_hash_cache.specs.Law.{Step, after_steps};
ghost use Rattle.url_hashes.specs.Hashes.{hashes_of};
ghost use Rattle.url_checker.specs.Hits.{hits_of};
ghost use Rattle.url_checker.specs.Resolving.{IsResolution, Resolution, answer_in, open_cause, find_asked, hits_asked, pairs_after, verdict_of};
ghost use Rattle.url_checker.specs.declared.findings.Hit.{Hit};
ghost use Rattle.client_laws.specs.Full.{HasHit, IsFullOf, IsListed};
ghost use Rattle.client_laws.specs.Decided.{IsCompleteVerdict};
ghost use Rattle.client_laws.specs.Rulings.{Rulings, IsRight, AreRight, AreAllSafe, IsNoneOpen, IsCalledUnsafe};
ghost use Rattle.client_laws.specs.Faithful.{AgreeUnder, PairBeginsHash, IsFaithfulFor, RestsOnFaithful, KeptAreFaithful, IsFaithful, TakenAreFaithful, said_after};
ghost use Rattle.client_laws.specs.Resolved.{IsLookup, IsBorneOut, IsDecidedFaithfully, said_in, steps_after};

use crate::shared::shared_verdicts_are_lookups;
use full_hash_cache::{safe_hashes_were_not_returned, unsafe_hashes_were_told};
use hash_messages::answers_match_what_is_asked;
use prefix_set::sets_go_by_members;
use sb_model::names_go_by_their_codes;

/// Each list that is a replica has full hashes, and by tokens that name versions it has them in one way.
pub fn full_hashes_are_one()
    ensures some { (history : History) (token_at : Naming) (lists : List Held) (held : Held)
        → AreReplicas history token_at lists → Contains lists held
        → (hashes : List (List ℕ)) × IsFullOf history token_at held hashes }
    ensures one { (history : History) (token_at : Naming) (held : Held) (some others : List (List ℕ))
        → IsNaming history token_at → IsFullOf history token_at held some
        → IsFullOf history token_at held others → some ≡ others }
{}

/// The full hashes of a held list have the hash of an expression only where there is a hit of this list and this hash, since some
/// prefix of it is published. So a URL without hits is on no list.
pub fn hits_find_listed_urls()
    ensures hit { (history : History) (token_at : Naming) (lists : List Held) (url : Url) (held : Held)
        (hashes : List (List ℕ)) (hash : FullHash) → IsWellFormed history
        → Contains lists held → IsFullOf history token_at held hashes
        → Contains (hashes_of url) hash → Contains hashes hash.bytes
        → HasHit lists url held.name hash }
    ensures none { (history : History) (token_at : Naming) (lists : List Held) (url : Url) (name : ListName)
        → IsWellFormed history → hits_of lists url ≡ []
        → IsListed history token_at lists url name → ⊥ }
{
    sets_go_by_members();
}

/// Where what is said of the hits of a URL is right, it says what a look-up of each expression's hash in the full lists says.
pub fn right_rulings_are_lookups()
    // Where each hit is safe, no list has the URL.
    ensures safe { (history : History) (token_at : Naming) (lists : List Held) (url : Url) (said : Rulings)
        → IsWellFormed history → AreRight history token_at lists (hits_of lists url) said
        → AreAllSafe (hits_of lists url) said
        → (name : ListName) → IsListed history token_at lists url name → ⊥ }

    // Each list of an unsafe hit has the URL.
    ensures some { (history : History) (token_at : Naming) (lists : List Held) (url : Url) (said : Rulings)
        → AreReplicas history token_at lists → AreRight history token_at lists (hits_of lists url) said
        → (name : ListName) → IsCalledUnsafe (hits_of lists url) said name
        → IsListed history token_at lists url name }

    // Where no hit is left open, these are all the lists that have it.
    ensures all { (history : History) (token_at : Naming) (lists : List Held) (url : Url) (said : Rulings)
        → IsWellFormed history → AreReplicas history token_at lists
        → AreRight history token_at lists (hits_of lists url) said → IsNoneOpen (hits_of lists url) said
        → (name : ListName) → IsListed history token_at lists url name
        ↔ IsCalledUnsafe (hits_of lists url) said name }
{
    hits_find_listed_urls();
}

/// What answers say of a hash is right, as far as those by which it is said are faithful for its one pair. Nothing is asked of any
/// other answer.
pub fn faithful_answers_rule_rightly()
    // What a cache that began with no pairs keeps says it of a hash.
    ensures kept { (steps : List Step) (now : Moment) (hashes : List (List ℕ)) (pair : Pair) (hash : FullHash)
        → PairBeginsHash pair hash → RestsOnFaithful steps now hashes pair hash
        → IsRight (cached_of (after_steps [] steps) now pair hash) hashes hash }

    // The same says it of each hit of a URL.
    ensures kept_hits { (history : History) (token_at : Naming) (lists : List Held) (url : Url) (steps : List Step)
        (now : Moment) → KeptAreFaithful history token_at lists steps now (hits_of lists url)
        → AreRight history token_at lists (hits_of lists url) (said_after steps now) }
{
    unsafe_hashes_were_told();
    safe_hashes_were_not_returned();
}

/// Where each answer that was taken is faithful to the lists, for each of them whose types were asked and each asked prefix, and so is the
/// one that a resolution got, those that decide its hits are. This asks more than `resolved_verdicts_are_lookups` does: of an answer
/// taken at an earlier version it fails as soon as a list changes under an asked prefix.
pub fn faithful_finds_decide()
    ensures { (history : History) (token_at : Naming) (lists : List Held) (states : List (List ℕ)) (steps : List Step)
        (waits : WaitState) (hits : List Hit) (r : Resolution)
        → TakenAreFaithful history token_at lists steps
        → ((message : FindResponse) → answer_in waits r.talk ≡ Ok message
        → IsFaithful history token_at lists (find_asked states (hits_asked (after_steps [] steps) r.now hits)) message)
        → IsDecidedFaithfully history token_at lists steps waits hits r }
{
    sets_go_by_members();
}

/// What a server answers to a find is faithful for each pair of a list whose types are asked and an asked prefix: to the full hashes
/// of the server's newest version, and so to those of each version at which the same ones begin with this prefix.
pub fn served_answers_are_faithful()
    ensures { (history : History) (wait cache negative : ℕ) (asked : AskedHashes) (list : ListName) (prefix : List ℕ)
        (hashes : List (List ℕ))
        → IsTrue (declares history list) → IsTrue (asks_list asked list) → Contains asked.prefixes prefix
        → AgreeUnder (pair_of list prefix) hashes (full_hashes_at history list (version_count history))
        → IsFaithfulFor hashes (pair_of list prefix) (find_answer history wait cache negative asked) }
{
    answers_match_what_is_asked();
    names_go_by_their_codes();
}

/// The verdict that a resolution of the hits of a URL comes to, where the answers that decide them are faithful to lists that are
/// replicas, each for the pairs that it decides.
pub fn resolved_verdicts_are_lookups()
    // Where no hit is left open, it equals a look-up of each expression's hash in the full lists.
    ensures resolved { (history : History) (token_at : Naming) (lists : List Held) (url : Url) (steps : List Step)
        (waits : WaitState) (r : Resolution) → IsWellFormed history → AreReplicas history token_at lists
        → IsDecidedFaithfully history token_at lists steps waits (hits_of lists url) r
        → IsNoneOpen (hits_of lists url) (said_in steps waits r)
        → IsLookup history token_at lists url (verdict_of (after_steps [] steps) waits (hits_of lists url) r) }

    // Whether one is left open or not, what it says is so.
    ensures borne_out { (history : History) (token_at : Naming) (lists : List Held) (url : Url) (steps : List Step)
        (waits : WaitState) (r : Resolution) → IsWellFormed history → AreReplicas history token_at lists
        → IsDecidedFaithfully history token_at lists steps waits (hits_of lists url) r
        → IsBorneOut history token_at lists url (verdict_of (after_steps [] steps) waits (hits_of lists url) r) }

    // Hits are left open exactly where there is a cause for it: some were asked, and no answer was got.
    ensures open { (steps : List Step) (waits : WaitState) (hits : List Hit) (r : Resolution)
        → IsNoneOpen hits (said_in steps waits r)
        ↔ (open_cause (answer_in waits r.talk) (hits_asked (after_steps [] steps) r.now hits) ≡ None) }
{
    shared_verdicts_are_lookups();
}

/// A resolution makes steps of a cache: what it leaves of pairs that some steps left from no pairs on, more steps leave. So the law
/// of a verdict holds of each finding of a row that began with no pairs.
pub fn resolutions_are_steps()
    ensures { (steps : List Step) (states : List (List ℕ)) (hits : List Hit) (r : Resolution)
        → pairs_after states hits (after_steps [] steps) r
        ≡ after_steps [] (steps_after steps states hits r) }
{}

/// A verdict is decided where nothing had to be asked, and where the find was made, passed and was read. One that is left undecided
/// names its cause: the find was not allowed in time, or its session or its message failed.
pub fn resolutions_are_complete()
    ensures { (states : List (List ℕ)) (patience : ℕ) (target : Target) (need : Bool) (hits : List Hit) (pairs : Pairs)
        (waits : WaitState) (r : Resolution) → IsResolution states patience target need hits pairs waits r
        → IsCompleteVerdict patience pairs waits hits r (verdict_of pairs waits hits r) }
{}
