ghost use Rattle.std.specs.Prelude.{◌≡◌, ◌⊎◌, ◌≤◌, length, Ok, Err, Some, None};
ghost use Rattle.std.specs.Prelude.{IfOk, IfErr, MatchResult};
ghost use Rattle.serde_json.specs.View.{view, items_view};
ghost use Rattle.sb_json.specs.Values.{value_of};
ghost use Rattle.update_messages.specs.Reading.{IsTextOf};
ghost use Rattle.sb_members.specs.Lists.{first};
ghost use Rattle.update_messages.specs.Faults.{fault_of_text};
ghost use Rattle.hash_messages.specs.Messages.{AskedHashes, most_prefixes};
ghost use Rattle.hash_messages.specs.RequestRows as row;
ghost use Rattle.hash_messages.specs.Reading.{ReadsEach, ReadsOutsideItems, ReadsFindRequest};
ghost use Rattle.hash_messages.specs.Faults.{faults_outside_items, fault_of_prefixes};
ghost use Rattle.hash_messages.specs.Faults.{fault_of_find_request};

use crate::reading_asked::{States, few_asked_prefixes};
use crate::{FindRequest, read_types};
use hash_prefixes::Prefix;
use sb_json::{Field, FieldFault, MessageFault, object, read_json};
use sb_members::{check_object, items_or_none, read_some_list};
use sb_model::Row;
use serde_json::Value;
use std::alloc::Global;
use update_messages::read_client;

/// The request without its prefixes.
fn outside_items(alloc: Global, value: &Value) -> Result<FindRequest, FieldFault>
    ensures ok { IfOk result (λ message. ReadsOutsideItems (view value.now) message) }
    ensures clean { IfOk result (λ _. first (faults_outside_items (view value.now)) ≡ None) }
    ensures err { IfErr result (λ fault. (fault ≡ FieldFault.OutOfMemory)
        ⊎ (first (faults_outside_items (view value.now)) ≡ Some fault)) }
{
    check_object(value, Field::Root)?;
    let client = read_client(alloc, value)?;
    let states = read_some_list::<States>(alloc, value, Field::ClientStates)?;
    let types = read_types(alloc, value)?;
    Ok(FindRequest {
        client,
        states,
        threats: types.threats,
        platforms: types.platforms,
        entries: types.entries,
        prefixes: Row::new(alloc),
    })
}

/// The items of a request.
fn prefix_items(value: &Value) -> Result<&[Value], FieldFault>
    ensures ok { IfOk result (λ items.
        row.in_info row.prefixes_row (view value.now) ≡ Ok (items_view items.now)) }
    ensures err { IfErr result (λ fault.
        row.in_info row.prefixes_row (view value.now) ≡ Err fault) }
{
    let info = object(value, Field::ThreatInfo)?;
    items_or_none(info, Field::ThreatEntries)
}

/// The prefixes of a request.
fn prefixes(alloc: Global, value: &Value) -> Result<Row<Prefix>, MessageFault>
    ensures ok { IfOk result (λ prefixes.
        ReadsEach row.prefix_row (row.in_info row.prefixes_row (view value.now)) prefixes) }
    ensures few { IfOk result (λ prefixes. length prefixes ≤ most_prefixes) }
    ensures clean { IfOk result (λ _.
        fault_of_prefixes (row.in_info row.prefixes_row (view value.now)) ≡ None) }
    ensures err { IfErr result (λ fault. (fault ≡ MessageFault.OutOfMemory)
        ⊎ (fault_of_prefixes (row.in_info row.prefixes_row (view value.now)) ≡ Some fault)) }
{
    match prefix_items(value) {
        Ok(items) => few_asked_prefixes(alloc, items),
        Err(fault) => Err(MessageFault::of(fault, 0)),
    }
}

/// The request that a value is.
fn request_of(alloc: Global, value: &Value) -> Result<FindRequest, MessageFault>
    ensures ok { IfOk result (λ message. ReadsFindRequest (view value.now) message) }
    ensures err { IfErr result (λ fault. (fault ≡ MessageFault.OutOfMemory)
        ⊎ (fault_of_find_request (view value.now) ≡ Some fault)) }
{
    match outside_items(alloc, value) {
        Ok(outside) => Ok(FindRequest {
            prefixes: prefixes(alloc, value)?,
            ..outside
        }),
        Err(fault) => Err(MessageFault::of(fault, 0)),
    }
}

/// The request that a text is.
fn request_in(alloc: Global, text: &[u8]) -> Result<FindRequest, MessageFault>
    ensures ok { IfOk result (λ message. IsTextOf ReadsFindRequest text.now message) }
    ensures err { IfErr result (λ fault. (fault ≡ MessageFault.OutOfMemory)
        ⊎ (fault_of_text fault_of_find_request (value_of text.now) ≡ Some fault)) }
{
    let value = read_json(alloc, text)?;
    request_of(alloc, &value)
}

/// Reads a find request.
///
/// A text that is no request is refused by its first fault: `TooDense`, `NotJson`, and then the
/// fields in the order of `specs/RequestRows.antt`, item by item, where there are at most 1,024.
/// Unknown fields are skipped, and one that is null counts as absent.
pub fn read_find(alloc: Global, text: &[u8]) -> Result<FindRequest, MessageFault>
    ensures ok { IfOk result (λ message. IsTextOf ReadsFindRequest text.now message) }
    ensures err { IfErr result (λ fault. (fault ≡ MessageFault.OutOfMemory)
        ⊎ (fault_of_text fault_of_find_request (value_of text.now) ≡ Some fault)) }
    ensures only { (message : AskedHashes) → IsTextOf ReadsFindRequest text.now message
        → MatchResult result (λ found. found ≡ message)
        (λ fault. fault ≡ MessageFault.OutOfMemory) }
{
    request_in(alloc, text)
}
