ghost use Rattle.std.specs.Prelude.{◌≡◌, ◌≢◌, Some, IfOk};
ghost use Rattle.sb_json.specs.Printed.{message_cause_text as message_cause};
ghost use Rattle.http_edge.specs.declared.messages.MediaType.{MediaType};
ghost use Rattle.mirror_serving.specs.Response.{IsBodyRefused};

use crate::routes::json_fields;
use http_edge::Status;
use http_serving::Response;
use sb_json::{MessageFault, push_message_cause};
use sb_model::{Bytes, OutOfMemory};
use std::alloc::Global;

/// The cause of a refused body. Want of memory is none that is told.
fn cause_of(alloc: Global, fault: &MessageFault) -> Result<Bytes, OutOfMemory>
    ensures told { IfOk result (λ cause. cause ≡ message_cause fault.now) }
    ensures some { IfOk result (λ _. fault.now ≢ MessageFault.OutOfMemory) }
{
    if let MessageFault::OutOfMemory = fault {
        return Err(OutOfMemory);
    }
    let mut cause = Bytes::new(alloc);
    push_message_cause(&mut cause, fault)?;
    Ok(cause)
}

/// The response to a body that is no message, whose first fault is given.
pub(crate) fn refuse_body(alloc: Global, fault: &MessageFault) -> Result<Response, OutOfMemory>
    ensures refused { IfOk result (λ response. IsBodyRefused (Some fault.now) response.status response.body response.cause) }
    ensures media { IfOk result (λ response. response.fields.media ≡ MediaType.Json) }
    ensures some { IfOk result (λ _. fault.now ≢ MessageFault.OutOfMemory) }
{
    let cause = cause_of(alloc, fault)?;
    Ok(Response {
        status: Status::BadRequest,
        fields: json_fields(),
        body: Bytes::new(alloc),
        cause,
    })
}
