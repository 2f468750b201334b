ghost use Rattle.std.specs.Prelude.{◌≡◌, ◌⊎◌, Ok, Err, Some, None, IfOk, IfErr, MatchResult};
ghost use Rattle.std.specs.Str.{chars};
ghost use Rattle.serde_json.specs.View.{view, items_view};
ghost use Rattle.sb_json.specs.Values.{value_of};
ghost use Rattle.update_messages.specs.Reading.{IsTextOf};
ghost use Rattle.update_messages.specs.Faults.{fault_of_text};
ghost use Rattle.lookup_messages.specs.ResponseRows as row;
ghost use Rattle.lookup_messages.specs.Reading.{ReadsLookupMatch, ReadsLookupResponse};
ghost use Rattle.lookup_messages.specs.Faults.{fault_of_lookup_match, fault_of_lookup_response};
ghost use Rattle.lookup_messages.specs.declared.response.LookupResponse.{LookupResponse};

use crate::{LookupMatch, LookupResponse};
use sb_json::{Field, FieldFault, MessageFault, object, read_json, string};
use sb_members::{
    ReadItem, check_object, duration_or_zero, entry_type, items_or_none, platform_type,
    read_numbered_items, threat_type,
};
use sb_model::{ListName, Text};
use serde_json::Value;
use std::alloc::Global;

/// The URL of an item.
fn url_of(item: &Value) -> Result<&str, FieldFault>
    ensures ok { IfOk result (λ url. row.found_url_row (view item.now) ≡ Ok (chars url.now)) }
    ensures err { IfErr result (λ fault. row.found_url_row (view item.now) ≡ Err fault) }
{
    string(object(item, Field::Threat)?, Field::Url)
}

/// The match that an item is.
fn match_of(alloc: Global, item: &Value) -> Result<LookupMatch, FieldFault>
    ensures ok { IfOk result (λ found. ReadsLookupMatch (view item.now) found) }
    ensures clean { IfOk result (λ _. fault_of_lookup_match (view item.now) ≡ None) }
    ensures err { IfErr result (λ fault. (fault ≡ FieldFault.OutOfMemory)
        ⊎ (fault_of_lookup_match (view item.now) ≡ Some fault)) }
{
    check_object(item, Field::Matches)?;
    let threat = threat_type(item)?;
    let platform = platform_type(item)?;
    let entry = entry_type(item)?;
    let url = url_of(item)?;
    let cache = duration_or_zero(item, Field::CacheDuration)?;
    let name = ListName {
        threat,
        platform,
        entry,
    };
    Ok(LookupMatch {
        name,
        url: Text::from_str(alloc, url)?,
        cache,
    })
}

/// The matches that the items are.
struct Matches;

impl ReadItem for Matches {
    type Found = LookupMatch;

    ghost Reads = { ReadsLookupMatch };

    ghost Keeps = { λ _. Unit {0} };

    ghost fault = { fault_of_lookup_match };

    fn read_item(alloc: Global, item: &Value) -> Result<LookupMatch, FieldFault> {
        match_of(alloc, item)
    }
}

/// The response that a value is.
fn response_of(alloc: Global, value: &Value) -> Result<LookupResponse, MessageFault>
    ensures ok { IfOk result (λ message. ReadsLookupResponse (view value.now) message) }
    ensures err { IfErr result (λ fault. (fault ≡ MessageFault.OutOfMemory)
        ⊎ (fault_of_lookup_response (view value.now) ≡ Some fault)) }
{
    if let Err(fault) = check_object(value, Field::Root) {
        return Err(MessageFault::of(fault, 0));
    }
    match items_or_none(value, Field::Matches) {
        Ok(items) => Ok(LookupResponse {
            matches: read_numbered_items::<Matches>(alloc, items)?,
        }),
        Err(fault) => Err(MessageFault::of(fault, 0)),
    }
}

/// The response that a text is.
fn response_in(alloc: Global, text: &[u8]) -> Result<LookupResponse, MessageFault>
    ensures ok { IfOk result (λ message. IsTextOf ReadsLookupResponse text.now message) }
    ensures err { IfErr result (λ fault. (fault ≡ MessageFault.OutOfMemory)
        ⊎ (fault_of_text fault_of_lookup_response (value_of text.now) ≡ Some fault)) }
{
    let value = read_json(alloc, text)?;
    response_of(alloc, &value)
}

/// Reads the answer to a look-up request.
///
/// A text that is no response is refused by its first fault: `TooDense`, `NotJson`, and then the fields in the order of
/// `specs/ResponseRows.antt`, item by item. Unknown fields are skipped, and one that is null counts as absent.
pub fn read_lookup_matches(alloc: Global, text: &[u8]) -> Result<LookupResponse, MessageFault>
    ensures ok { IfOk result (λ message. IsTextOf ReadsLookupResponse text.now message) }
    ensures err { IfErr result (λ fault. (fault ≡ MessageFault.OutOfMemory)
        ⊎ (fault_of_text fault_of_lookup_response (value_of text.now) ≡ Some fault)) }
    ensures only { (message : LookupResponse) → IsTextOf ReadsLookupResponse text.now message
        → MatchResult result (λ found. found ≡ message) (λ fault. fault ≡ MessageFault.OutOfMemory) }
{
    response_in(alloc, text)
}
