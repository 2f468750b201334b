ghost use Rattle.std.specs.Prelude.{◌≡◌, ◌⊎◌, Some, None, IfOk, IfErr};
ghost use Rattle.serde_json.specs.View.{view};
ghost use Rattle.sb_members.specs.Lists.{first};
ghost use Rattle.update_messages.specs.RequestRows.{client_row};
ghost use Rattle.update_messages.specs.Reading.{ReadsClient};
ghost use Rattle.update_messages.specs.Faults.{faults_of_client};

use crate::ClientInfo;
use sb_json::{Field, FieldFault};
use sb_members::{object_or_null, text_or_empty};
use serde_json::Value;
use std::alloc::Global;

/// Reads who asks: the field `client` of a request's value. Both texts are empty where it is absent.
pub fn read_client(alloc: Global, message: &Value) -> Result<ClientInfo, FieldFault>
    ensures ok { IfOk result (λ client. ReadsClient (client_row (view message.now)) client) }
    ensures clean { IfOk result (λ _. first (faults_of_client (client_row (view message.now))) ≡ None) }
    ensures err { IfErr result (λ fault. (fault ≡ FieldFault.OutOfMemory)
        ⊎ (first (faults_of_client (client_row (view message.now))) ≡ Some fault)) }
{
    let absent = Value::Null;
    let holder = object_or_null(message, Field::Client, &absent)?;
    let id = text_or_empty(alloc, holder, Field::ClientId)?;
    let version = text_or_empty(alloc, holder, Field::ClientVersion)?;
    Ok(ClientInfo { id, version })
}
