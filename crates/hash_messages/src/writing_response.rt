ghost use Rattle.std.specs.Prelude.{◌≡◌, All, map, None, IfOk};
ghost use Rattle.serde_json.specs.View.{view};
ghost use Rattle.sb_json.specs.Density.{too_dense};
ghost use Rattle.update_messages.specs.Reading.{IsTextOf};
ghost use Rattle.hash_messages.specs.Ranges.{IsMatchInRange, IsFindResponseInRange};
ghost use Rattle.hash_messages.specs.Reading.{ReadsFindResponse};
ghost use Rattle.hash_messages.specs.Writing as spec;
ghost use Rattle.base64.specs.GeneralPurpose.{IsBytes};
ghost use Rattle.hash_messages.specs.declared.response.FindResponse.{FindResponse};

use crate::{FindResponse, Match};
use sb_json::Field;
use sb_members::{
    bytes_value, duration_value, list_value, members_are_as_their_values, put_member, string_value,
    written_members_read_again,
};
use sb_model::{Bytes, OutOfMemory};
use serde_json::{Map, Value};
use std::alloc::Global;

fn hash_value(alloc: Global, hash: &[u8]) -> Result<Value, OutOfMemory>
    ensures value { IfOk result (λ value. view value ≡ spec.hash_written hash.now) }
    ensures range { IfOk result (λ _. IsBytes hash.now) }
{
    let mut members = Map::new(alloc);
    let bytes = bytes_value(alloc, hash)?;
    put_member(alloc, &mut members, Field::ThreatHash, bytes)?;
    Ok(Value::Object(members))
}

fn match_value(alloc: Global, found: &Match) -> Result<Value, OutOfMemory>
    ensures value { IfOk result (λ value. view value ≡ spec.match_written found.now) }
    ensures range { IfOk result (λ _. IsMatchInRange found.now) }
{
    let mut members = Map::new(alloc);
    let threat = string_value(alloc, found.name.threat.word())?;
    put_member(alloc, &mut members, Field::ThreatType, Some(threat))?;
    let entry = string_value(alloc, found.name.entry.word())?;
    put_member(alloc, &mut members, Field::ThreatEntryType, Some(entry))?;
    let hash = hash_value(alloc, &found.hash.bytes)?;
    put_member(alloc, &mut members, Field::Threat, Some(hash))?;
    let platform = string_value(alloc, found.name.platform.word())?;
    put_member(alloc, &mut members, Field::PlatformType, Some(platform))?;
    let cache = duration_value(alloc, found.cache)?;
    put_member(alloc, &mut members, Field::CacheDuration, cache)?;
    Ok(Value::Object(members))
}

fn match_values(alloc: Global, matches: &[Match]) -> Result<Vec<Value>, OutOfMemory>
    ensures value { IfOk result (λ values.
        map view values.items ≡ map spec.match_written matches.now) }
    ensures range { IfOk result (λ _. All IsMatchInRange matches.now) }
{
    let mut values = Vec::with_capacity(alloc, matches.len())?;
    for found in matches {
        values.push(match_value(alloc, found)?)?;
    }
    Ok(values)
}

fn response_value(alloc: Global, message: &FindResponse) -> Result<Value, OutOfMemory>
    ensures value { IfOk result (λ value. view value ≡ spec.find_response_written message.now) }
    ensures range { IfOk result (λ _. IsFindResponseInRange message.now) }
{
    let mut members = Map::new(alloc);
    let negative = duration_value(alloc, message.negative)?;
    put_member(alloc, &mut members, Field::NegativeCacheDuration, negative)?;
    let wait = duration_value(alloc, message.wait)?;
    put_member(alloc, &mut members, Field::MinimumWaitDuration, wait)?;
    let matches = match_values(alloc, message.matches.as_slice())?;
    put_member(alloc, &mut members, Field::Matches, list_value(matches))?;
    Ok(Value::Object(members))
}

/// Writes the answer to a find request in its one spelling: compact JSON, whose keys stand in byte
/// order, and in which an empty list and zero durations are left out. Where the text is not too
/// dense it reads as the message; and it reads as no other.
pub fn write_matches(alloc: Global, message: &FindResponse) -> Result<Bytes, OutOfMemory>
    ensures spelling { IfOk result (λ text. text ≡ spec.spelling_of_find_response message.now) }
    ensures read_again { IfOk result (λ text.
        too_dense text ≡ None → IsTextOf ReadsFindResponse text message.now) }
    ensures no_other { IfOk result (λ text.
        (other : FindResponse) → IsTextOf ReadsFindResponse text other → other ≡ message.now) }
{
    written_members_read_again();
    members_are_as_their_values();
    let value = response_value(alloc, message)?;
    let text = value.to_string(alloc)?;
    Ok(Bytes::from_vec(text.into_bytes()))
}
