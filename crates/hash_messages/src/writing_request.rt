ghost use Rattle.std.specs.Prelude.{◌≡◌, All, None, IfOk};
ghost use Rattle.serde_json.specs.View.{view};
ghost use Rattle.sb_json.specs.Density.{too_dense};
ghost use Rattle.update_messages.specs.Reading.{IsTextOf};
ghost use Rattle.hash_messages.specs.Messages.{AskedHashes};
ghost use Rattle.hash_messages.specs.Ranges.{IsPrefix, IsFindRequestInRange};
ghost use Rattle.hash_messages.specs.Reading.{ReadsFindRequest};
ghost use Rattle.hash_messages.specs.Writing as spec;

use crate::FindRequest;
use crate::writing_asked::{
    entry_values, platform_values, prefix_values, state_values, threat_values,
};
use sb_json::Field;
use sb_members::{
    list_value, members_are_as_their_values, object_value, put_member, written_members_read_again,
};
use sb_model::{Bytes, OutOfMemory};
use serde_json::{Map, Value};
use std::alloc::Global;
use update_messages::client_members;

fn info_value(alloc: Global, message: &FindRequest) -> Result<Value, OutOfMemory>
    ensures value { IfOk result (λ value. view value ≡ spec.info_written message.now) }
    ensures range { IfOk result (λ _. All IsPrefix message.now.prefixes) }
{
    let mut members = Map::new(alloc);
    let threats = threat_values(alloc, message.threats.as_slice())?;
    put_member(alloc, &mut members, Field::ThreatTypes, list_value(threats))?;
    let entries = entry_values(alloc, message.entries.as_slice())?;
    put_member(
        alloc,
        &mut members,
        Field::ThreatEntryTypes,
        list_value(entries),
    )?;
    let prefixes = prefix_values(alloc, message.prefixes.as_slice())?;
    put_member(
        alloc,
        &mut members,
        Field::ThreatEntries,
        list_value(prefixes),
    )?;
    let platforms = platform_values(alloc, message.platforms.as_slice())?;
    put_member(
        alloc,
        &mut members,
        Field::PlatformTypes,
        list_value(platforms),
    )?;
    Ok(Value::Object(members))
}

fn request_value(alloc: Global, message: &FindRequest) -> Result<Value, OutOfMemory>
    ensures value { IfOk result (λ value. view value ≡ spec.find_request_written message.now) }
    ensures range { IfOk result (λ _. IsFindRequestInRange message.now) }
{
    let mut members = Map::new(alloc);
    let info = info_value(alloc, message)?;
    put_member(alloc, &mut members, Field::ThreatInfo, Some(info))?;
    let states = state_values(alloc, message.states.as_slice())?;
    put_member(alloc, &mut members, Field::ClientStates, list_value(states))?;
    let client = client_members(alloc, &message.client)?;
    put_member(alloc, &mut members, Field::Client, object_value(client))?;
    Ok(Value::Object(members))
}

/// Writes a find request in its one spelling: compact JSON, whose keys stand in byte order, and in
/// which empty texts, empty lists and a client without fields are left out, but no empty state in
/// the list of states. Where the text is not too dense it reads as the message; and it reads as no
/// other.
pub fn write_find(alloc: Global, message: &FindRequest) -> Result<Bytes, OutOfMemory>
    ensures spelling { IfOk result (λ text. text ≡ spec.spelling_of_find_request message.now) }
    ensures read_again { IfOk result (λ text.
        too_dense text ≡ None → IsTextOf ReadsFindRequest text message.now) }
    ensures no_other { IfOk result (λ text.
        (other : AskedHashes) → IsTextOf ReadsFindRequest text other → other ≡ message.now) }
{
    written_members_read_again();
    members_are_as_their_values();
    let value = request_value(alloc, message)?;
    let text = value.to_string(alloc)?;
    Ok(Bytes::from_vec(text.into_bytes()))
}
