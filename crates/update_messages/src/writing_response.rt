ghost use Rattle.std.specs.Prelude.{◌≡◌, false, All, map, Some, None, option_map, IfOk};
ghost use Rattle.serde_json.specs.Data.{Data, number, unsigned};
ghost use Rattle.serde_json.specs.View.{view, members_view};
ghost use Rattle.base64.specs.GeneralPurpose.{IsBytes};
ghost use Rattle.sb_json.specs.Density.{too_dense};
ghost use Rattle.update_messages.specs.Ranges.{IsAdditionOfBytes, IsRemovalOfBytes, IsUpdateInRange, IsResponseInRange};
ghost use Rattle.update_messages.specs.Reading.{ReadsResponse, IsTextOf};
ghost use Rattle.sb_members.specs.Writing.{list_written};
ghost use Rattle.update_messages.specs.Writing as spec;

use crate::writing_words::{kinds, put_word};
use crate::{Additions, FetchResponse, ListUpdate, Removals};
use rice_coding::RiceRecord;
use sb_json::Field;
use sb_members::{
    bytes_value, duration_value, list_value, long_value, members_are_as_their_values, number_value,
    put_member, string_value, written_members_read_again,
};
use sb_model::{Bytes, OutOfMemory};
use serde_json::{Map, Value};
use std::alloc::Global;

fn rice_value(alloc: Global, rice: &RiceRecord) -> Result<Value, OutOfMemory>
    ensures value { IfOk result (λ value. view value ≡ spec.rice_written rice.now) }
    ensures range { IfOk result (λ _. IsBytes rice.now.coded) }
{
    let mut members = Map::new(alloc);
    put_member(
        alloc,
        &mut members,
        Field::RiceParameter,
        number_value(rice.parameter),
    )?;
    put_member(
        alloc,
        &mut members,
        Field::NumEntries,
        number_value(rice.count),
    )?;
    let first = long_value(alloc, rice.first)?;
    put_member(alloc, &mut members, Field::FirstValue, first)?;
    let coded = bytes_value(alloc, rice.coded.as_slice())?;
    put_member(alloc, &mut members, Field::EncodedData, coded)?;
    Ok(Value::Object(members))
}

fn hashes_value(alloc: Global, size: u8, bytes: &Bytes) -> Result<Value, OutOfMemory>
    ensures value { IfOk result (λ value. view value ≡ spec.hashes_written size bytes.now) }
    ensures range { IfOk result (λ _. IsBytes bytes.now) }
{
    let mut members = Map::new(alloc);
    let hashes = bytes_value(alloc, bytes.as_slice())?;
    put_member(alloc, &mut members, Field::RawHashBytes, hashes)?;
    put_member(
        alloc,
        &mut members,
        Field::PrefixSize,
        number_value(u32::from(size)),
    )?;
    Ok(Value::Object(members))
}

fn index_values(alloc: Global, indices: &[u32]) -> Result<Vec<Value>, OutOfMemory>
    ensures { IfOk result (λ values. map view values.items ≡ map (λ index. number (unsigned index)) indices.now) }
{
    let mut values = Vec::with_capacity(alloc, indices.len())?;
    for index in indices {
        values.push(Value::from(*index))?;
    }
    Ok(values)
}

fn indices_value(alloc: Global, indices: &[u32]) -> Result<Value, OutOfMemory>
    ensures { IfOk result (λ value. view value ≡ spec.indices_written indices.now) }
{
    let mut members = Map::new(alloc);
    let values = index_values(alloc, indices)?;
    put_member(alloc, &mut members, Field::Indices, list_value(values))?;
    Ok(Value::Object(members))
}

fn set_value(alloc: Global, word: &str, name: Field, value: Value) -> Result<Value, OutOfMemory>
    ensures { IfOk result (λ set. view set ≡ spec.set_written word.now name (view value)) }
{
    let mut members = Map::new(alloc);
    let compression = string_value(alloc, word)?;
    put_member(alloc, &mut members, name, Some(value))?;
    put_member(
        alloc,
        &mut members,
        Field::CompressionType,
        Some(compression),
    )?;
    Ok(Value::Object(members))
}

fn addition_value(alloc: Global, set: &Additions) -> Result<Value, OutOfMemory>
    ensures value { IfOk result (λ value. view value ≡ spec.addition_written set.now) }
    ensures range { IfOk result (λ _. IsAdditionOfBytes set.now) }
{
    match set {
        Additions::Raw { size, bytes } => {
            let value = hashes_value(alloc, *size, bytes)?;
            set_value(alloc, "RAW", Field::RawHashes, value)
        }
        Additions::Rice(rice) => {
            let value = rice_value(alloc, rice)?;
            set_value(alloc, "RICE", Field::RiceHashes, value)
        }
    }
}

fn addition_values(alloc: Global, sets: &[Additions]) -> Result<Vec<Value>, OutOfMemory>
    ensures value { IfOk result (λ values. map view values.items ≡ map spec.addition_written sets.now) }
    ensures range { IfOk result (λ _. All IsAdditionOfBytes sets.now) }
{
    let mut values = Vec::with_capacity(alloc, sets.len())?;
    for set in sets {
        values.push(addition_value(alloc, set)?)?;
    }
    Ok(values)
}

fn removal_value(alloc: Global, set: &Removals) -> Result<Value, OutOfMemory>
    ensures value { IfOk result (λ value. view value ≡ spec.removal_written set.now) }
    ensures range { IfOk result (λ _. IsRemovalOfBytes set.now) }
{
    match set {
        Removals::Raw(indices) => {
            let value = indices_value(alloc, indices.as_slice())?;
            set_value(alloc, "RAW", Field::RawIndices, value)
        }
        Removals::Rice(rice) => {
            let value = rice_value(alloc, rice)?;
            set_value(alloc, "RICE", Field::RiceIndices, value)
        }
    }
}

fn removal_values(alloc: Global, sets: &[Removals]) -> Result<Vec<Value>, OutOfMemory>
    ensures value { IfOk result (λ values. map view values.items ≡ map spec.removal_written sets.now) }
    ensures range { IfOk result (λ _. All IsRemovalOfBytes sets.now) }
{
    let mut values = Vec::with_capacity(alloc, sets.len())?;
    for set in sets {
        values.push(removal_value(alloc, set)?)?;
    }
    Ok(values)
}

fn checksum_value(alloc: Global, digest: &[u8]) -> Result<Value, OutOfMemory>
    ensures value { IfOk result (λ value. view value ≡ spec.checksum_written digest.now) }
    ensures range { IfOk result (λ _. IsBytes digest.now) }
{
    let mut members = Map::new(alloc);
    let bytes = bytes_value(alloc, digest)?;
    put_member(alloc, &mut members, Field::Sha256, bytes)?;
    Ok(Value::Object(members))
}

fn response_type_word(full: bool) -> &'static str
    ensures { result.now ≡ spec.response_type_word full }
{
    if full {
        "FULL_UPDATE"
    } else {
        "PARTIAL_UPDATE"
    }
}

fn later_members(
    alloc: Global,
    update: &ListUpdate,
    removals: Option<Value>,
) -> Result<Map<String, Value>, OutOfMemory>
    requires { option_map view removals ≡ list_written spec.removal_written update.now.removals }
    ensures { IfOk result (λ members. members_view members.entries ≡ spec.later_members update.now) }
{
    let mut members = kinds(alloc, &update.name)?;
    put_word(
        alloc,
        &mut members,
        Field::ResponseType,
        response_type_word(update.full),
    )?;
    put_member(alloc, &mut members, Field::Removals, removals)?;
    put_word(
        alloc,
        &mut members,
        Field::PlatformType,
        update.name.platform.word(),
    )?;
    Ok(members)
}

fn update_value(alloc: Global, update: &ListUpdate) -> Result<Value, OutOfMemory>
    ensures value { IfOk result (λ value. view value ≡ spec.update_written update.now) }
    ensures range { IfOk result (λ _. IsUpdateInRange update.now) }
{
    let removals = removal_values(alloc, update.removals.as_slice())?;
    let mut members = later_members(alloc, update, list_value(removals))?;
    let new_state = bytes_value(alloc, update.new_state.as_slice())?;
    put_member(alloc, &mut members, Field::NewClientState, new_state)?;
    let checksum = checksum_value(alloc, &update.checksum)?;
    put_member(alloc, &mut members, Field::Checksum, Some(checksum))?;
    let base = bytes_value(alloc, update.base.as_slice())?;
    put_member(alloc, &mut members, Field::BaseState, base)?;
    let additions = addition_values(alloc, update.additions.as_slice())?;
    put_member(alloc, &mut members, Field::Additions, list_value(additions))?;
    Ok(Value::Object(members))
}

fn update_values(alloc: Global, updates: &[ListUpdate]) -> Result<Vec<Value>, OutOfMemory>
    ensures value { IfOk result (λ values. map view values.items ≡ map spec.update_written updates.now) }
    ensures range { IfOk result (λ _. All IsUpdateInRange updates.now) }
{
    let mut values = Vec::with_capacity(alloc, updates.len())?;
    for update in updates {
        values.push(update_value(alloc, update)?)?;
    }
    Ok(values)
}

fn response_value(alloc: Global, message: &FetchResponse) -> Result<Value, OutOfMemory>
    ensures value { IfOk result (λ value. view value ≡ spec.response_written message.now) }
    ensures range { IfOk result (λ _. IsResponseInRange message.now) }
{
    let mut members = Map::new(alloc);
    let wait = duration_value(alloc, message.wait)?;
    put_member(alloc, &mut members, Field::MinimumWaitDuration, wait)?;
    let items = update_values(alloc, message.items.as_slice())?;
    put_member(
        alloc,
        &mut members,
        Field::ListUpdateResponses,
        list_value(items),
    )?;
    Ok(Value::Object(members))
}

/// Writes the answer to a fetch request in its one spelling: compact JSON, whose keys stand in byte order, and
/// in which empty bytes and lists, zero numbers and a zero duration are left out. Where the text is not too dense it reads as the
/// message; and it reads as no other.
pub fn write_response(alloc: Global, message: &FetchResponse) -> Result<Bytes, OutOfMemory>
    ensures spelling { IfOk result (λ text. text ≡ spec.spelling_of_response message.now) }
    ensures read_again { IfOk result (λ text. too_dense text ≡ None → IsTextOf ReadsResponse text message.now) }
    ensures no_other { IfOk result (λ text. (other : FetchResponse) → IsTextOf ReadsResponse text other → other ≡ message.now) }
{
    written_members_read_again();
    members_are_as_their_values();
    let value = response_value(alloc, message)?;
    let text = value.to_string(alloc)?;
    Ok(Bytes::from_vec(text.into_bytes()))
}
