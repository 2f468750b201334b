ghost use Rattle.std.specs.Prelude.{◌≡◌, ◌⊎◌, Some, IfOk, IfErr, MatchResult};
ghost use Rattle.serde_json.specs.View.{view};
ghost use Rattle.sb_json.specs.Values.{value_of};
ghost use Rattle.update_messages.specs.Messages.{Request};
ghost use Rattle.update_messages.specs.Reading.{ReadsRequest, IsTextOf};
ghost use Rattle.update_messages.specs.Faults.{fault_of_request, fault_of_text};

use crate::reading_items::few_asked_lists;
use crate::{FetchRequest, read_client};
use sb_json::{Field, MessageFault, read_json};
use sb_members::{check_object, items_or_none};
use serde_json::Value;
use std::alloc::Global;

/// The request that a value is.
fn request_of(alloc: Global, value: &Value) -> Result<FetchRequest, MessageFault>
    ensures ok { IfOk result (λ message. ReadsRequest (view value.now) message) }
    ensures err { IfErr result (λ fault. (fault ≡ MessageFault.OutOfMemory)
        ⊎ (fault_of_request (view value.now) ≡ Some fault)) }
{
    if let Err(fault) = check_object(value, Field::Root) {
        return Err(MessageFault::of(fault, 0));
    }
    let client = match read_client(alloc, value) {
        Ok(client) => client,
        Err(fault) => return Err(MessageFault::of(fault, 0)),
    };
    let items = match items_or_none(value, Field::ListUpdateRequests) {
        Ok(items) => few_asked_lists(alloc, items)?,
        Err(fault) => return Err(MessageFault::of(fault, 0)),
    };
    Ok(FetchRequest { client, items })
}

/// The request that a text is.
fn request_in(alloc: Global, text: &[u8]) -> Result<FetchRequest, MessageFault>
    ensures ok { IfOk result (λ message. IsTextOf ReadsRequest text.now message) }
    ensures err { IfErr result (λ fault. (fault ≡ MessageFault.OutOfMemory)
        ⊎ (fault_of_text fault_of_request (value_of text.now) ≡ Some fault)) }
{
    let value = read_json(alloc, text)?;
    request_of(alloc, &value)
}

/// Reads a fetch request.
///
/// A text that is no request is refused by its first fault: `TooDense`, `NotJson`, and then the fields in the order of
/// `specs/RequestRows.antt`, item by item, where at most 8 have names of lists. Items of other names are read and let go.
/// Unknown fields are skipped, and one that is null counts as absent.
pub fn read_request(alloc: Global, text: &[u8]) -> Result<FetchRequest, MessageFault>
    ensures ok { IfOk result (λ message. IsTextOf ReadsRequest text.now message) }
    ensures err { IfErr result (λ fault. (fault ≡ MessageFault.OutOfMemory)
        ⊎ (fault_of_text fault_of_request (value_of text.now) ≡ Some fault)) }
    ensures only { (message : Request) → IsTextOf ReadsRequest text.now message
        → MatchResult result (λ found. found ≡ message) (λ fault. fault ≡ MessageFault.OutOfMemory) }
{
    request_in(alloc, text)
}
