ghost use Rattle.std.specs.Prelude.{◌≡◌, IfOk};
ghost use Rattle.serde_json.specs.View.{members_view};
ghost use Rattle.update_messages.specs.Ranges.{IsClientInRange};
ghost use Rattle.update_messages.specs.Writing as spec;

use crate::ClientInfo;
use sb_json::Field;
use sb_members::{put_member, text_value};
use sb_model::OutOfMemory;
use serde_json::{Map, Value};
use std::alloc::Global;

/// Writes who asks: the members of the field `client` of a request's value. Empty texts are left out.
pub fn client_members(alloc: Global, client: &ClientInfo) -> Result<Map<String, Value>, OutOfMemory>
    ensures value { IfOk result (λ members. members_view members.entries ≡ spec.client_members client.now) }
    ensures range { IfOk result (λ _. IsClientInRange client.now) }
{
    let mut members = Map::new(alloc);
    let version = text_value(alloc, &client.version)?;
    put_member(alloc, &mut members, Field::ClientVersion, version)?;
    let id = text_value(alloc, &client.id)?;
    put_member(alloc, &mut members, Field::ClientId, id)?;
    Ok(members)
}
