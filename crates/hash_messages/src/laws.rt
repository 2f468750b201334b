ghost use Rattle.std.specs.Prelude.{◌≡◌, ℕ, ◌↔◌, None, Contains, MatchResult};
ghost use Rattle.std.specs.List.Sorted.{IsStrictlySortedBy};
ghost use Rattle.serde_json.specs.Data.{Data};
ghost use Rattle.sb_json.specs.Density.{too_dense};
ghost use Rattle.sb_model.specs.History.{History};
ghost use Rattle.sb_model.specs.Names.{name_cmp};
ghost use Rattle.sb_model.specs.Prefixes.{IsRising};
ghost use Rattle.sb_model.specs.declared.names.ListName.{ListName};
ghost use Rattle.hash_messages.specs.Matches.{lists_asked, hashes_asked, matches_of, IsMatchOf};
ghost use Rattle.hash_messages.specs.Messages.{AskedHashes};
ghost use Rattle.hash_messages.specs.Others.{IsFindWithoutOthers};
ghost use Rattle.hash_messages.specs.Reading.{ReadsFindRequest, ReadsFindResponse};
ghost use Rattle.hash_messages.specs.Faults.{fault_of_find_request, fault_of_find_response};
ghost use Rattle.hash_messages.specs.Writing.{spelling_of_find_request, spelling_of_find_response};
ghost use Rattle.hash_messages.specs.declared.response.Match.{Match};
ghost use Rattle.hash_messages.specs.declared.response.FindResponse.{FindResponse};

use crate::{FindRequest, FindResponse, read_find, read_matches, write_find, write_matches};
use sb_json::MessageFault;
use std::alloc::Global;

/// A JSON value reads as at most one request, and as at most one response.
pub fn find_values_read_one_way()
    ensures request { (value : Data) (a b : AskedHashes)
        → ReadsFindRequest value a → ReadsFindRequest value b → a ≡ b }
    ensures response { (value : Data) (a b : FindResponse)
        → ReadsFindResponse value a → ReadsFindResponse value b → a ≡ b }
{}

/// A JSON value reads as some message exactly where it has no first fault.
pub fn find_values_read_or_have_a_fault()
    ensures request { (value : Data) → ((message : AskedHashes) × ReadsFindRequest value message)
        ↔ (fault_of_find_request value ≡ None) }
    ensures response { (value : Data) → ((message : FindResponse) × ReadsFindResponse value message)
        ↔ (fault_of_find_response value ≡ None) }
{}

/// Types of no name and states that are null change nothing of a request: without them its value reads as
/// the same one.
pub fn unknown_types_change_nothing()
    ensures { (value other : Data) (message : AskedHashes)
        → IsFindWithoutOthers value other → ReadsFindRequest value message → ReadsFindRequest other message }
{}

/// A server's answer goes through lists in the order of names, and through the full hashes of each
/// in theirs. It has a match for each declared list whose three types are asked and each full hash of
/// it, at the newest version, that begins with an asked prefix, and no other.
pub fn answers_match_what_is_asked()
    ensures lists { (history : History) (asked : AskedHashes)
        → IsStrictlySortedBy name_cmp (lists_asked history asked) }
    ensures hashes { (history : History) (asked : AskedHashes) (list : ListName)
        → IsRising (hashes_asked history asked list) }
    ensures matches { (history : History) (cache : ℕ) (asked : AskedHashes) (found : Match)
        → Contains (matches_of history cache asked) found ↔ IsMatchOf history cache asked found }
{}

/// A request whose text is not too dense is the same request when it is written and read again,
/// unless memory is refused.
pub fn written_finds_read_again(
    alloc: Global,
    message: &FindRequest,
) -> Result<FindRequest, MessageFault>
    ensures { too_dense (spelling_of_find_request message.now) ≡ None
        → MatchResult result (λ found. found ≡ message.now)
        (λ fault. fault ≡ MessageFault.OutOfMemory) }
{
    let text = write_find(alloc, message)?;
    read_find(alloc, text.as_slice())
}

/// A response whose text is not too dense is the same response when it is written and read again,
/// unless memory is refused.
pub fn written_matches_read_again(
    alloc: Global,
    message: &FindResponse,
) -> Result<FindResponse, MessageFault>
    ensures { too_dense (spelling_of_find_response message.now) ≡ None
        → MatchResult result (λ found. found ≡ message.now)
        (λ fault. fault ≡ MessageFault.OutOfMemory) }
{
    let text = write_matches(alloc, message)?;
    read_matches(alloc, text.as_slice())
}
