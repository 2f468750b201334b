ghost use Rattle.std.specs.Prelude.{◌≡◌, ◌≢◌, Some, IfOk};
ghost use Rattle.sb_json.specs.Printed.{message_cause_text as message_cause};
ghost use Rattle.http_edge.specs.declared.messages.MediaType.{MediaType};
ghost use Rattle.proxy_serving.specs.Response.{IsLookRefused};

use crate::routes::json_fields;
use http_edge::Status;
use http_serving::Response;
use sb_json::{MessageFault, push_message_cause};
use sb_model::{Bytes, OutOfMemory};
use std::alloc::Global;

/// The cause that is told of a refused body. Want of memory is none.
fn cause_told(alloc: Global, fault: &MessageFault) -> Result<Bytes, OutOfMemory>
    ensures told { IfOk result (λ cause. cause ≡ message_cause fault.now) }
    ensures some { IfOk result (λ _. fault.now ≢ MessageFault.OutOfMemory) }
{
    if let MessageFault::OutOfMemory = fault {
        return Err(OutOfMemory);
    }
    let mut cause = Bytes::new(alloc);
    push_message_cause(&mut cause, fault)?;
    Ok(cause)
}

/// The response to a body that is no look-up, whose first fault is given.
pub(crate) fn refuse_look(alloc: Global, fault: &MessageFault) -> Result<Response, OutOfMemory>
    ensures refused { IfOk result (λ response. IsLookRefused (Some fault.now) response.status response.body response.cause) }
    ensures media { IfOk result (λ response. response.fields.media ≡ MediaType.Json) }
    ensures some { IfOk result (λ _. fault.now ≢ MessageFault.OutOfMemory) }
{
    let cause = cause_told(alloc, fault)?;
    Ok(Response {
        status: Status::BadRequest,
        fields: json_fields(),
        body: Bytes::new(alloc),
        cause,
    })
}
