ghost use Rattle.std.specs.Prelude.{◌≡◌, ◌⊎◌, Ok, Err, Some, None, IfOk, IfErr, MatchResult};
ghost use Rattle.serde_json.specs.View.{view, items_view};
ghost use Rattle.sb_json.specs.Values.{value_of};
ghost use Rattle.sb_members.specs.Lists.{EachReads, first_from};
ghost use Rattle.update_messages.specs.Reading.{IsTextOf};
ghost use Rattle.update_messages.specs.Faults.{fault_of_text};
ghost use Rattle.hash_messages.specs.ResponseRows as row;
ghost use Rattle.hash_messages.specs.Reading.{ReadsMatch, ReadsFindResponse};
ghost use Rattle.hash_messages.specs.Faults.{fault_of_match, fault_of_find_response};
ghost use Rattle.hash_messages.specs.declared.response.FindResponse.{FindResponse};

use crate::{FindResponse, Match};
use hash_prefixes::FullHash;
use sb_json::{Field, FieldFault, MessageFault, bytes, object, read_json};
use sb_members::{
    ReadItem, check_object, duration_or_zero, entry_type, items_or_none, platform_type,
    read_numbered_items, threat_type,
};
use sb_model::ListName;
use serde_json::Value;
use std::alloc::Global;

/// The full hash of a match.
fn hash(alloc: Global, found: &Value) -> Result<FullHash, FieldFault>
    ensures ok { IfOk result (λ hash. row.hash_row (view found.now) ≡ Ok hash.bytes) }
    ensures err { IfErr result (λ fault. (fault ≡ FieldFault.OutOfMemory)
        ⊎ (row.hash_row (view found.now) ≡ Err fault)) }
{
    let holder = object(found, Field::Threat)?;
    let hash = bytes(alloc, holder, Field::ThreatHash)?;
    match <[u8; 32]>::try_from(hash.as_slice()) {
        Ok(bytes) => Ok(FullHash { bytes }),
        Err(_) => Err(FieldFault::Size(Field::ThreatHash, hash.len() as u64)),
    }
}

/// The match that an item is.
fn match_of(alloc: Global, item: &Value) -> Result<Match, FieldFault>
    ensures ok { IfOk result (λ found. ReadsMatch (view item.now) found) }
    ensures clean { IfOk result (λ _. fault_of_match (view item.now) ≡ None) }
    ensures err { IfErr result (λ fault. (fault ≡ FieldFault.OutOfMemory)
        ⊎ (fault_of_match (view item.now) ≡ Some fault)) }
{
    check_object(item, Field::Matches)?;
    let threat = threat_type(item)?;
    let platform = platform_type(item)?;
    let entry = entry_type(item)?;
    let hash = hash(alloc, item)?;
    let cache = duration_or_zero(item, Field::CacheDuration)?;
    let name = ListName {
        threat,
        platform,
        entry,
    };
    Ok(Match { name, hash, cache })
}

/// The matches that the items are.
struct Matches;

impl ReadItem for Matches {
    type Found = Match;

    ghost Reads = { ReadsMatch };

    ghost Keeps = { λ _. Unit {0} };

    ghost fault = { fault_of_match };

    fn read_item(alloc: Global, item: &Value) -> Result<Match, FieldFault> {
        match_of(alloc, item)
    }
}

/// The response that a value is.
fn response_of(alloc: Global, value: &Value) -> Result<FindResponse, MessageFault>
    ensures ok { IfOk result (λ message. ReadsFindResponse (view value.now) message) }
    ensures err { IfErr result (λ fault. (fault ≡ MessageFault.OutOfMemory)
        ⊎ (fault_of_find_response (view value.now) ≡ Some fault)) }
{
    if let Err(fault) = check_object(value, Field::Root) {
        return Err(MessageFault::of(fault, 0));
    }
    let matches = match items_or_none(value, Field::Matches) {
        Ok(items) => read_numbered_items::<Matches>(alloc, items)?,
        Err(fault) => return Err(MessageFault::of(fault, 0)),
    };
    let wait = match duration_or_zero(value, Field::MinimumWaitDuration) {
        Ok(wait) => wait,
        Err(fault) => return Err(MessageFault::of(fault, 0)),
    };
    match duration_or_zero(value, Field::NegativeCacheDuration) {
        Ok(negative) => Ok(FindResponse {
            matches,
            wait,
            negative,
        }),
        Err(fault) => Err(MessageFault::of(fault, 0)),
    }
}

/// The response that a text is.
fn response_in(alloc: Global, text: &[u8]) -> Result<FindResponse, MessageFault>
    ensures ok { IfOk result (λ message. IsTextOf ReadsFindResponse text.now message) }
    ensures err { IfErr result (λ fault. (fault ≡ MessageFault.OutOfMemory)
        ⊎ (fault_of_text fault_of_find_response (value_of text.now) ≡ Some fault)) }
{
    let value = read_json(alloc, text)?;
    response_of(alloc, &value)
}

/// Reads the answer to a find request.
///
/// A text that is no response is refused by its first fault: `TooDense`, `NotJson`, and then the
/// fields in the order of `specs/ResponseRows.antt`, item by item. Unknown fields are skipped, and
/// one that is null counts as absent.
pub fn read_matches(alloc: Global, text: &[u8]) -> Result<FindResponse, MessageFault>
    ensures ok { IfOk result (λ message. IsTextOf ReadsFindResponse text.now message) }
    ensures err { IfErr result (λ fault. (fault ≡ MessageFault.OutOfMemory)
        ⊎ (fault_of_text fault_of_find_response (value_of text.now) ≡ Some fault)) }
    ensures only { (message : FindResponse) → IsTextOf ReadsFindResponse text.now message
        → MatchResult result (λ found. found ≡ message)
        (λ fault. fault ≡ MessageFault.OutOfMemory) }
{
    response_in(alloc, text)
}
