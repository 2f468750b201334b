ghost use Rattle.std.specs.Prelude.{◌≡◌, ◌↔◌, None, MatchResult};
ghost use Rattle.serde_json.specs.Data.{Data};
ghost use Rattle.sb_json.specs.Density.{too_dense};
ghost use Rattle.update_messages.specs.declared.response.FetchResponse.{FetchResponse};
ghost use Rattle.update_messages.specs.Messages.{Request};
ghost use Rattle.update_messages.specs.Others.{IsWithoutOthers};
ghost use Rattle.update_messages.specs.ReadAgain.{
  WrittenRequestsRead,
  WrittenResponsesRead,
  RequestsNestWithin,
  ResponsesNestWithin,
};
ghost use Rattle.update_messages.specs.Reading.{ReadsRequest, ReadsResponse};
ghost use Rattle.update_messages.specs.Faults.{fault_of_request, fault_of_response};
ghost use Rattle.update_messages.specs.Rising.{SentNumbersRise};
ghost use Rattle.update_messages.specs.Writing.{spelling_of_request, spelling_of_response};

use crate::{
    FetchRequest, FetchResponse, read_request, read_response, write_request, write_response,
};
use sb_json::MessageFault;
use sb_members::{members_are_as_their_values, written_members_read_again};
use std::alloc::Global;

/// A JSON value reads as at most one request, and as at most one response.
pub fn values_read_one_way()
    ensures request { (value : Data) (a b : Request) → ReadsRequest value a → ReadsRequest value b → a ≡ b }
    ensures response { (value : Data) (a b : FetchResponse) → ReadsResponse value a → ReadsResponse value b → a ≡ b }
{}

/// A JSON value reads as some message exactly where it has no first fault.
pub fn values_read_or_have_a_fault()
    ensures request { (value : Data) → ((message : Request) × ReadsRequest value message) ↔ (fault_of_request value ≡ None) }
    ensures response { (value : Data) → ((message : FetchResponse) × ReadsResponse value message) ↔ (fault_of_response value ≡ None) }
{}

/// Items of lists that the server does not have change nothing of a request: without them its value reads as the same one.
pub fn items_of_no_name_change_nothing()
    ensures { (value other : Data) (message : Request) → IsWithoutOthers value other → ReadsRequest value message → ReadsRequest other message }
{}

/// A request whose text is not too dense is the same request when it is written and read again, unless memory is refused.
pub fn written_requests_read_again(
    alloc: Global,
    message: &FetchRequest,
) -> Result<FetchRequest, MessageFault>
    ensures { too_dense (spelling_of_request message.now) ≡ None
        → MatchResult result (λ found. found ≡ message.now) (λ fault. fault ≡ MessageFault.OutOfMemory) }
{
    let text = write_request(alloc, message)?;
    read_request(alloc, text.as_slice())
}

/// A response whose text is not too dense is the same response when it is written and read again, unless memory is refused.
pub fn written_responses_read_again(
    alloc: Global,
    message: &FetchResponse,
) -> Result<FetchResponse, MessageFault>
    ensures { too_dense (spelling_of_response message.now) ≡ None
        → MatchResult result (λ found. found ≡ message.now) (λ fault. fault ≡ MessageFault.OutOfMemory) }
{
    let text = write_response(alloc, message)?;
    read_response(alloc, text.as_slice())
}

/// The JSON value that is written of a message in its ranges reads as this message, and does not nest deeply. The message is any
/// that definitions speak of, and need not be one that a program holds.
pub fn written_values_read_again()
    ensures request { WrittenRequestsRead }
    ensures response { WrittenResponsesRead }
    ensures request_depth { RequestsNestWithin 5 }
    ensures response_depth { ResponsesNestWithin 7 }
{
    written_members_read_again();
    members_are_as_their_values();
}

/// The numbers that an update carries rise: the places of the members that a newer set lacks, and the numbers of prefixes of
/// four bytes.
pub fn sent_numbers_rise()
    ensures { SentNumbersRise }
{}
