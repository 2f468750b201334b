ghost use Rattle.std.specs.Prelude.{◌≡◌, ℕ, ◌↔◌, true, false, All, Contains};
ghost use Rattle.sb_model.specs.History.{History, declares};
ghost use Rattle.sb_model.specs.Naming.{Naming};
ghost use Rattle.sb_model.specs.declared.names.ListName.{ListName};
ghost use Rattle.answering_lists.specs.Lists.{for_any_platform, is_answered};
ghost use Rattle.update_messages.specs.Answer.{fetch_answer};
ghost use Rattle.update_messages.specs.Messages.{Request, UpdatedList};
ghost use Rattle.hash_messages.specs.Matches.{asks_list, find_answer};
ghost use Rattle.hash_messages.specs.Messages.{AskedHashes};
ghost use Rattle.hash_messages.specs.declared.response.Match.{Match};
ghost use Rattle.named_answers.specs.Answers.{named_fetch_answer, named_find_answer, named_matches, IsNamedUpdate, IsNamedMatch};

use answering_lists::answered_names_are_those_of_lists;
use prefix_set::sets_go_by_members;

/// A request whose asked lists are all declared is answered as `delta_server` answers it, and so is a find request if each asked
/// name for which a list answers is declared. If no list for any platform is declared, every request is.
pub fn declared_names_are_answered_as_before()
    ensures fetch { (history : History) (token_at : Naming) (wait : ℕ) (request : Request)
        → All (λ asked. declares history asked.name ≡ true) request.items
        → named_fetch_answer history token_at wait request ≡ fetch_answer history token_at wait request }
    ensures find { (history : History) (wait cache negative : ℕ) (asked : AskedHashes)
        → ((name : ListName) → asks_list asked name ≡ true → is_answered history name ≡ true → declares history name ≡ true)
        → named_find_answer history wait cache negative asked ≡ find_answer history wait cache negative asked }
    ensures no_fetch { (history : History) (token_at : Naming) (wait : ℕ) (request : Request)
        → ((name : ListName) → declares history (for_any_platform name) ≡ false)
        → named_fetch_answer history token_at wait request ≡ fetch_answer history token_at wait request }
    ensures no_find { (history : History) (wait cache negative : ℕ) (asked : AskedHashes)
        → ((name : ListName) → declares history (for_any_platform name) ≡ false)
        → named_find_answer history wait cache negative asked ≡ find_answer history wait cache negative asked }
{}

/// An answer has the update that a list has for each asked item for which it answers, under the name of that item, and no other. It
/// has a match for each name that is asked and for which a list answers, and each full hash of that list, at the newest version, that
/// begins with an asked prefix, and no other.
pub fn named_answers_have_asked_names()
    ensures updates { (history : History) (token_at : Naming) (wait : ℕ) (request : Request) (update : UpdatedList)
        → Contains (named_fetch_answer history token_at wait request).items update ↔ IsNamedUpdate history token_at request update }
    ensures matches { (history : History) (cache : ℕ) (asked : AskedHashes) (found : Match)
        → Contains (named_matches history cache asked) found ↔ IsNamedMatch history cache asked found }
{
    sets_go_by_members();
    answered_names_are_those_of_lists();
}
