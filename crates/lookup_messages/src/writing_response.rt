ghost use Rattle.std.specs.Prelude.{◌≡◌, All, map, None, IfOk};
ghost use Rattle.serde_json.specs.View.{view};
ghost use Rattle.sb_json.specs.Density.{too_dense};
ghost use Rattle.update_messages.specs.Reading.{IsTextOf};
ghost use Rattle.lookup_messages.specs.Ranges.{IsLookupMatchInRange, IsLookupResponseInRange};
ghost use Rattle.lookup_messages.specs.Reading.{ReadsLookupResponse};
ghost use Rattle.lookup_messages.specs.Writing as spec;
ghost use Rattle.lookup_messages.specs.declared.response.LookupResponse.{LookupResponse};

use crate::writing_urls::url_value;
use crate::{LookupMatch, LookupResponse};
use sb_json::Field;
use sb_members::{
    duration_value, list_value, members_are_as_their_values, put_member, string_value,
    written_members_read_again,
};
use sb_model::{Bytes, OutOfMemory};
use serde_json::{Map, Value};
use std::alloc::Global;

fn match_value(alloc: Global, found: &LookupMatch) -> Result<Value, OutOfMemory>
    ensures value { IfOk result (λ value. view value ≡ spec.lookup_match_written found.now) }
    ensures range { IfOk result (λ _. IsLookupMatchInRange found.now) }
{
    let mut members = Map::new(alloc);
    let threat = string_value(alloc, found.name.threat.word())?;
    put_member(alloc, &mut members, Field::ThreatType, Some(threat))?;
    let entry = string_value(alloc, found.name.entry.word())?;
    put_member(alloc, &mut members, Field::ThreatEntryType, Some(entry))?;
    let url = url_value(alloc, &found.url)?;
    put_member(alloc, &mut members, Field::Threat, Some(url))?;
    let platform = string_value(alloc, found.name.platform.word())?;
    put_member(alloc, &mut members, Field::PlatformType, Some(platform))?;
    let cache = duration_value(alloc, found.cache)?;
    put_member(alloc, &mut members, Field::CacheDuration, cache)?;
    Ok(Value::Object(members))
}

fn match_values(alloc: Global, matches: &[LookupMatch]) -> Result<Vec<Value>, OutOfMemory>
    ensures value { IfOk result (λ values.
        map view values.items ≡ map spec.lookup_match_written matches.now) }
    ensures range { IfOk result (λ _. All IsLookupMatchInRange matches.now) }
{
    let mut values = Vec::with_capacity(alloc, matches.len())?;
    for found in matches {
        values.push(match_value(alloc, found)?)?;
    }
    Ok(values)
}

fn response_value(alloc: Global, message: &LookupResponse) -> Result<Value, OutOfMemory>
    ensures value { IfOk result (λ value. view value ≡ spec.lookup_response_written message.now) }
    ensures range { IfOk result (λ _. IsLookupResponseInRange message.now) }
{
    let mut members = Map::new(alloc);
    let matches = match_values(alloc, message.matches.as_slice())?;
    put_member(alloc, &mut members, Field::Matches, list_value(matches))?;
    Ok(Value::Object(members))
}

/// Writes the answer to a look-up request in its one spelling: compact JSON, whose keys stand in byte order, and in
/// which an empty list and zero durations are left out, but no empty URL. If the text is not too dense it reads as the
/// message; and it reads as no other.
pub fn write_lookup_matches(alloc: Global, message: &LookupResponse) -> Result<Bytes, OutOfMemory>
    ensures spelling { IfOk result (λ text. text ≡ spec.spelling_of_lookup_response message.now) }
    ensures read_again { IfOk result (λ text.
        too_dense text ≡ None → IsTextOf ReadsLookupResponse text message.now) }
    ensures no_other { IfOk result (λ text.
        (other : LookupResponse) → IsTextOf ReadsLookupResponse text other → other ≡ message.now) }
{
    written_members_read_again();
    members_are_as_their_values();
    let value = response_value(alloc, message)?;
    let text = value.to_string(alloc)?;
    Ok(Bytes::from_vec(text.into_bytes()))
}
