ghost use Rattle.std.specs.Prelude.{◌≡◌, ◌⊎◌, Ok, Err, Some, None, IfOk, IfErr, MatchResult};
ghost use Rattle.serde_json.specs.View.{view, items_view};
ghost use Rattle.sb_json.specs.Values.{value_of};
ghost use Rattle.update_messages.specs.ResponseRows as row;
ghost use Rattle.sb_members.specs.Lists.{EachReads, first_from};
ghost use Rattle.update_messages.specs.Reading.{ReadsUpdatedList, ReadsResponse, IsTextOf};
ghost use Rattle.update_messages.specs.Faults.{fault_of_update, fault_of_response, fault_of_text};
ghost use Rattle.update_messages.specs.declared.response.FetchResponse.{FetchResponse};

use crate::reading_sets::{AdditionSets, RemovalSets};
use crate::rows::state_or_empty;
use crate::{FetchResponse, ListUpdate};
use sb_json::{Field, FieldFault, MessageFault, bytes, object, read_json, string};
use sb_members::{
    ReadItem, check_object, duration_or_zero, entry_type, items_or_none, platform_type, read_list,
    read_numbered_items, threat_type,
};
use sb_model::ListName;
use serde_json::Value;
use std::alloc::Global;

/// Whether an update is a full one.
fn is_full(update: &Value) -> Result<bool, FieldFault>
    ensures { result ≡ row.response_type_row (view update.now) }
{
    let word = string(update, Field::ResponseType)?;
    if word == "FULL_UPDATE" {
        Ok(true)
    } else if word == "PARTIAL_UPDATE" {
        Ok(false)
    } else {
        Err(FieldFault::Name(Field::ResponseType))
    }
}

/// The digest of an object with a checksum.
fn sha256(alloc: Global, checksum: &Value) -> Result<[u8; 32], FieldFault>
    ensures ok { IfOk result (λ digest. row.sha256_row (view checksum.now) ≡ Ok digest) }
    ensures err { IfErr result (λ fault. (fault ≡ FieldFault.OutOfMemory)
        ⊎ (row.sha256_row (view checksum.now) ≡ Err fault)) }
{
    let digest = bytes(alloc, checksum, Field::Sha256)?;
    match <[u8; 32]>::try_from(digest.as_slice()) {
        Ok(digest) => Ok(digest),
        Err(_) => Err(FieldFault::Size(Field::Sha256, digest.len() as u64)),
    }
}

/// The checksum of an update.
fn checksum(alloc: Global, update: &Value) -> Result<[u8; 32], FieldFault>
    ensures ok { IfOk result (λ digest. row.digest_row (view update.now) ≡ Ok digest) }
    ensures err { IfErr result (λ fault. (fault ≡ FieldFault.OutOfMemory)
        ⊎ (row.digest_row (view update.now) ≡ Err fault)) }
{
    let holder = object(update, Field::Checksum)?;
    sha256(alloc, holder)
}

/// The update of one list that an item is.
fn list_update(alloc: Global, item: &Value) -> Result<ListUpdate, FieldFault>
    ensures ok { IfOk result (λ update. ReadsUpdatedList (view item.now) update) }
    ensures clean { IfOk result (λ _. fault_of_update (view item.now) ≡ None) }
    ensures err { IfErr result (λ fault. (fault ≡ FieldFault.OutOfMemory)
        ⊎ (fault_of_update (view item.now) ≡ Some fault)) }
{
    check_object(item, Field::ListUpdateResponses)?;
    let threat = threat_type(item)?;
    let platform = platform_type(item)?;
    let entry = entry_type(item)?;
    let full = is_full(item)?;
    let additions = read_list::<AdditionSets>(alloc, item, Field::Additions)?;
    let removals = read_list::<RemovalSets>(alloc, item, Field::Removals)?;
    let new_state = state_or_empty(alloc, item, Field::NewClientState)?;
    let base = state_or_empty(alloc, item, Field::BaseState)?;
    let checksum = checksum(alloc, item)?;
    let name = ListName {
        threat,
        platform,
        entry,
    };
    Ok(ListUpdate {
        name,
        full,
        base,
        additions,
        removals,
        new_state,
        checksum,
    })
}

/// The updates that the items are.
struct Updates;

impl ReadItem for Updates {
    type Found = ListUpdate;

    ghost Reads = { ReadsUpdatedList };

    ghost Keeps = { λ _. Unit {0} };

    ghost fault = { fault_of_update };

    fn read_item(alloc: Global, item: &Value) -> Result<ListUpdate, FieldFault> {
        list_update(alloc, item)
    }
}

/// The response that a value is.
fn response_of(alloc: Global, value: &Value) -> Result<FetchResponse, MessageFault>
    ensures ok { IfOk result (λ message. ReadsResponse (view value.now) message) }
    ensures err { IfErr result (λ fault. (fault ≡ MessageFault.OutOfMemory)
        ⊎ (fault_of_response (view value.now) ≡ Some fault)) }
{
    if let Err(fault) = check_object(value, Field::Root) {
        return Err(MessageFault::of(fault, 0));
    }
    let items = match items_or_none(value, Field::ListUpdateResponses) {
        Ok(items) => read_numbered_items::<Updates>(alloc, items)?,
        Err(fault) => return Err(MessageFault::of(fault, 0)),
    };
    match duration_or_zero(value, Field::MinimumWaitDuration) {
        Ok(wait) => Ok(FetchResponse { items, wait }),
        Err(fault) => Err(MessageFault::of(fault, 0)),
    }
}

/// The response that a text is.
fn response_in(alloc: Global, text: &[u8]) -> Result<FetchResponse, MessageFault>
    ensures ok { IfOk result (λ message. IsTextOf ReadsResponse text.now message) }
    ensures err { IfErr result (λ fault. (fault ≡ MessageFault.OutOfMemory)
        ⊎ (fault_of_text fault_of_response (value_of text.now) ≡ Some fault)) }
{
    let value = read_json(alloc, text)?;
    response_of(alloc, &value)
}

/// Reads the answer to a fetch request.
///
/// A text that is no response is refused by its first fault: `TooDense`, `NotJson`, and then the fields in the order of
/// `specs/ResponseRows.antt`, item by item. Unknown fields are skipped, and one that is null counts as absent.
pub fn read_response(alloc: Global, text: &[u8]) -> Result<FetchResponse, MessageFault>
    ensures ok { IfOk result (λ message. IsTextOf ReadsResponse text.now message) }
    ensures err { IfErr result (λ fault. (fault ≡ MessageFault.OutOfMemory)
        ⊎ (fault_of_text fault_of_response (value_of text.now) ≡ Some fault)) }
    ensures only { (message : FetchResponse) → IsTextOf ReadsResponse text.now message
        → MatchResult result (λ found. found ≡ message) (λ fault. fault ≡ MessageFault.OutOfMemory) }
{
    response_in(alloc, text)
}
