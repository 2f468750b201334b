ghost use Rattle.std.specs.Prelude.{◌≡◌, ◌≢◌, ℕ, ◌↔◌, Bool, List, None, Contains, AllPairs, MatchResult, count_by};
ghost use Rattle.serde_json.specs.Data.{Data};
ghost use Rattle.sb_json.specs.Density.{too_dense};
ghost use Rattle.sb_model.specs.declared.names.ListName.{ListName};
ghost use Rattle.url_canon.specs.Url.{Url};
ghost use Rattle.lookup_messages.specs.Lookups.{lookup_matches, IsLookupMatch, is_url, is_match};
ghost use Rattle.lookup_messages.specs.Messages.{AskedUrls};
ghost use Rattle.lookup_messages.specs.Others.{IsLookupWithoutOthers};
ghost use Rattle.lookup_messages.specs.Reading.{ReadsLookup, ReadsLookupResponse};
ghost use Rattle.lookup_messages.specs.Faults.{fault_of_lookup, fault_of_lookup_response};
ghost use Rattle.lookup_messages.specs.Writing.{spelling_of_lookup, spelling_of_lookup_response};
ghost use Rattle.lookup_messages.specs.declared.response.LookupMatch.{LookupMatch};
ghost use Rattle.lookup_messages.specs.declared.response.LookupResponse.{LookupResponse};

use crate::{
    LookupRequest, LookupResponse, read_lookup, read_lookup_matches, write_lookup,
    write_lookup_matches,
};
use sb_json::MessageFault;
use std::alloc::Global;

/// A JSON value reads as at most one request, and as at most one response.
pub fn lookup_values_read_one_way()
    ensures request { (value : Data) (a b : AskedUrls)
        → ReadsLookup value a → ReadsLookup value b → a ≡ b }
    ensures response { (value : Data) (a b : LookupResponse)
        → ReadsLookupResponse value a → ReadsLookupResponse value b → a ≡ b }
{}

/// A JSON value reads as some message exactly if it has no first fault.
pub fn lookup_values_read_or_have_a_fault()
    ensures request { (value : Data) → ((message : AskedUrls) × ReadsLookup value message)
        ↔ (fault_of_lookup value ≡ None) }
    ensures response { (value : Data) → ((message : LookupResponse) × ReadsLookupResponse value message)
        ↔ (fault_of_lookup_response value ≡ None) }
{}

/// Types of no name change nothing of a request: without them its value reads as the same one.
pub fn unknown_types_change_no_lookup()
    ensures { (value other : Data) (message : AskedUrls)
        → IsLookupWithoutOthers value other → ReadsLookup value message → ReadsLookup other message }
{}

/// An answer has a match for each URL that is asked and has a canonical form, and each list among those that are given
/// whose three types are asked and that has the URL, and no other. If no list is given twice, it has each match as
/// often as its URL is asked.
pub fn lookups_match_what_is_asked()
    ensures matches { (has : ListName → Url → Bool) (lists : List ListName) (cache : ℕ) (asked : AskedUrls)
        (found : LookupMatch)
        → Contains (lookup_matches has lists cache asked) found ↔ IsLookupMatch has lists cache asked found }
    ensures count { (has : ListName → Url → Bool) (lists : List ListName) (cache : ℕ) (asked : AskedUrls)
        (found : LookupMatch) → AllPairs (λ a b. a ≢ b) lists → IsLookupMatch has lists cache asked found
        → count_by (is_match found) (lookup_matches has lists cache asked) ≡ count_by (is_url found.url) asked.urls }
{}

/// A request whose text is not too dense is the same request when it is written and read again, unless memory is
/// refused.
pub fn written_lookups_read_again(
    alloc: Global,
    message: &LookupRequest,
) -> Result<LookupRequest, MessageFault>
    ensures { too_dense (spelling_of_lookup message.now) ≡ None
        → MatchResult result (λ found. found ≡ message.now) (λ fault. fault ≡ MessageFault.OutOfMemory) }
{
    let text = write_lookup(alloc, message)?;
    read_lookup(alloc, text.as_slice())
}

/// A response whose text is not too dense is the same response when it is written and read again, unless memory is
/// refused.
pub fn written_lookup_matches_read_again(
    alloc: Global,
    message: &LookupResponse,
) -> Result<LookupResponse, MessageFault>
    ensures { too_dense (spelling_of_lookup_response message.now) ≡ None
        → MatchResult result (λ found. found ≡ message.now) (λ fault. fault ≡ MessageFault.OutOfMemory) }
{
    let text = write_lookup_matches(alloc, message)?;
    read_lookup_matches(alloc, text.as_slice())
}
