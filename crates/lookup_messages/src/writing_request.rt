ghost use Rattle.std.specs.Prelude.{◌≡◌, All, None, IfOk};
ghost use Rattle.serde_json.specs.View.{view};
ghost use Rattle.sb_json.specs.Density.{too_dense};
ghost use Rattle.sb_members.specs.Ranges.{IsText};
ghost use Rattle.update_messages.specs.Reading.{IsTextOf};
ghost use Rattle.lookup_messages.specs.Messages.{AskedUrls};
ghost use Rattle.lookup_messages.specs.Ranges.{IsLookupInRange};
ghost use Rattle.lookup_messages.specs.Reading.{ReadsLookup};
ghost use Rattle.lookup_messages.specs.Writing as spec;

use crate::LookupRequest;
use crate::writing_urls::url_values;
use hash_messages::{entry_values, platform_values, threat_values};
use sb_json::Field;
use sb_members::{
    list_value, members_are_as_their_values, object_value, put_member, written_members_read_again,
};
use sb_model::{Bytes, OutOfMemory};
use serde_json::{Map, Value};
use std::alloc::Global;
use update_messages::client_members;

fn info_value(alloc: Global, message: &LookupRequest) -> Result<Value, OutOfMemory>
    ensures value { IfOk result (λ value. view value ≡ spec.lookup_info_written message.now) }
    ensures range { IfOk result (λ _. All IsText message.now.urls) }
{
    let mut members = Map::new(alloc);
    let threats = threat_values(alloc, message.threats.as_slice())?;
    put_member(alloc, &mut members, Field::ThreatTypes, list_value(threats))?;
    let entries = entry_values(alloc, message.entries.as_slice())?;
    put_member(
        alloc,
        &mut members,
        Field::ThreatEntryTypes,
        list_value(entries),
    )?;
    let urls = url_values(alloc, message.urls.as_slice())?;
    put_member(alloc, &mut members, Field::ThreatEntries, list_value(urls))?;
    let platforms = platform_values(alloc, message.platforms.as_slice())?;
    put_member(
        alloc,
        &mut members,
        Field::PlatformTypes,
        list_value(platforms),
    )?;
    Ok(Value::Object(members))
}

fn request_value(alloc: Global, message: &LookupRequest) -> Result<Value, OutOfMemory>
    ensures value { IfOk result (λ value. view value ≡ spec.lookup_written message.now) }
    ensures range { IfOk result (λ _. IsLookupInRange message.now) }
{
    let mut members = Map::new(alloc);
    let info = info_value(alloc, message)?;
    put_member(alloc, &mut members, Field::ThreatInfo, Some(info))?;
    let client = client_members(alloc, &message.client)?;
    put_member(alloc, &mut members, Field::Client, object_value(client))?;
    Ok(Value::Object(members))
}

/// Writes a look-up request in its one spelling: compact JSON, whose keys stand in byte order, and in which empty texts
/// of the client, empty lists and a client without fields are left out, but no empty URL. If the text is not too dense
/// it reads as the message; and it reads as no other.
pub fn write_lookup(alloc: Global, message: &LookupRequest) -> Result<Bytes, OutOfMemory>
    ensures spelling { IfOk result (λ text. text ≡ spec.spelling_of_lookup message.now) }
    ensures read_again { IfOk result (λ text.
        too_dense text ≡ None → IsTextOf ReadsLookup text message.now) }
    ensures no_other { IfOk result (λ text.
        (other : AskedUrls) → IsTextOf ReadsLookup text other → other ≡ message.now) }
{
    written_members_read_again();
    members_are_as_their_values();
    let value = request_value(alloc, message)?;
    let text = value.to_string(alloc)?;
    Ok(Bytes::from_vec(text.into_bytes()))
}
