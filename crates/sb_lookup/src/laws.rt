ghost use Rattle.std.specs.Prelude.{◌≡◌, ℕ, ◌↔◌, Contains, count_by};
ghost use Rattle.sb_model.specs.History.{History};
ghost use Rattle.lookup_messages.specs.Lookups.{is_match, is_url};
ghost use Rattle.lookup_messages.specs.Messages.{AskedUrls};
ghost use Rattle.lookup_messages.specs.declared.response.LookupMatch.{LookupMatch};
ghost use Rattle.sb_lookup.specs.Lookups.{served_lookup, IsServedMatch};

use answering_lists::answered_names_are_those_of_lists;
use lookup_messages::lookups_match_what_is_asked;

/// An answer has a match for each asked URL that has a canonical form and each name whose three types are asked and for which a list
/// answers, if the SHA-256 of an expression of the URL is among the newest full hashes of that list, and no other. It has each as
/// often as its URL is asked.
pub fn served_lookups_match_full_hashes()
    ensures matches { (history : History) (cache : ℕ) (asked : AskedUrls) (found : LookupMatch)
        → Contains (served_lookup history cache asked).matches found ↔ IsServedMatch history cache asked found }
    ensures count { (history : History) (cache : ℕ) (asked : AskedUrls) (found : LookupMatch)
        → IsServedMatch history cache asked found
        → count_by (is_match found) (served_lookup history cache asked).matches ≡ count_by (is_url found.url) asked.urls }
{
    answered_names_are_those_of_lists();
    lookups_match_what_is_asked();
}
