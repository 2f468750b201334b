ghost use Rattle.std.specs.Prelude.{◌≡◌, ℕ, ◌≤◌, Bool, List, None, length, All};
ghost use Rattle.sb_model.specs.History.{History, IsWellFormed};
ghost use Rattle.sb_model.specs.Naming.{Naming};
ghost use Rattle.sb_model.specs.declared.names.ListName.{ListName};
ghost use Rattle.sb_json.specs.Density.{too_dense};
ghost use Rattle.update_messages.specs.Answer.{fetch_answer};
ghost use Rattle.update_messages.specs.Messages.{Request};
ghost use Rattle.update_messages.specs.Writing.{spelling_of_request, spelling_of_response};
ghost use Rattle.hash_messages.specs.Matches.{find_answer};
ghost use Rattle.hash_messages.specs.Messages.{AskedHashes};
ghost use Rattle.hash_messages.specs.Writing.{spelling_of_find_request, spelling_of_find_response};
ghost use Rattle.hash_messages.specs.declared.response.FindResponse.{FindResponse};
ghost use Rattle.url_canon.specs.Url.{Url};
ghost use Rattle.lookup_messages.specs.Lookups.{lookup_answer};
ghost use Rattle.lookup_messages.specs.Messages.{AskedUrls};
ghost use Rattle.lookup_messages.specs.Writing.{spelling_of_lookup, spelling_of_lookup_response};
ghost use Rattle.lookup_messages.specs.declared.response.LookupResponse.{LookupResponse};
ghost use Rattle.both_ends_laws.specs.Limits.{HasFewOfEach};

use sb_json::written_texts_are_counted;

/// A fetch request of at most 1,024 items is not too dense.
pub fn fetch_requests_are_not_too_dense()
    ensures { (message : Request) → length message.items ≤ 1024 → too_dense (spelling_of_request message) ≡ None }
{
    written_texts_are_counted();
}

/// A find request of at most 1,024 prefixes, and of at most 1,024 states, threat types, platform types and entry types each, is
/// not too dense.
pub fn finds_are_not_too_dense()
    ensures { (message : AskedHashes) → HasFewOfEach message → too_dense (spelling_of_find_request message) ≡ None }
{
    written_texts_are_counted();
}

/// A find response is not too dense, however many matches it has.
pub fn find_answers_are_not_too_dense()
    // Each match has a hash of 32 bytes.
    ensures any { (message : FindResponse) → All (λ found. length found.hash.bytes ≡ 32) message.matches
        → too_dense (spelling_of_find_response message) ≡ None }
    // A server's answer is one of these.
    ensures answered { (history : History) (wait cache negative : ℕ) (asked : AskedHashes) → IsWellFormed history
        → too_dense (spelling_of_find_response (find_answer history wait cache negative asked)) ≡ None }
{
    written_texts_are_counted();
}

/// A server's answer to a fetch request of at most 8 items is not too dense, whichever history it is answered from. The places of
/// removals rise, and so few of them are short.
pub fn fetch_answers_are_not_too_dense()
    ensures { (history : History) (token_at : Naming) (wait : ℕ) (request : Request) → length request.items ≤ 8
        → too_dense (spelling_of_response (fetch_answer history token_at wait request)) ≡ None }
{
    written_texts_are_counted();
}

/// A look-up request of at most 500 URLs is not too dense, however many types it asks for: the word of each takes at
/// least as many bytes as a value may.
pub fn lookups_are_not_too_dense()
    ensures { (message : AskedUrls) → length message.urls ≤ 500 → too_dense (spelling_of_lookup message) ≡ None }
{
    written_texts_are_counted();
}

/// A look-up response of at most 32,000 matches is not too dense: as many as 500 URLs have in all 64 lists that there
/// are names for.
pub fn lookup_answers_are_not_too_dense()
    ensures any { (message : LookupResponse) → length message.matches ≤ 32000
        → too_dense (spelling_of_lookup_response message) ≡ None }
    // The answer to any request is one of these.
    ensures answered { (has : ListName → Url → Bool) (lists : List ListName) (cache : ℕ) (asked : AskedUrls)
        → length lists ≤ 64 → length asked.urls ≤ 500
        → too_dense (spelling_of_lookup_response (lookup_answer has lists cache asked)) ≡ None }
{
    written_texts_are_counted();
}
