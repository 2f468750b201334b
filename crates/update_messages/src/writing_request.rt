ghost use Rattle.std.specs.Prelude.{◌≡◌, ◌++◌, All, map, None, IfOk, OnOk};
ghost use Rattle.serde_json.specs.View.{view, members_view};
ghost use Rattle.sb_json.specs.Density.{too_dense};
ghost use Rattle.update_messages.specs.Messages.{Request};
ghost use Rattle.update_messages.specs.Ranges.{IsAskedInRange, IsRequestInRange};
ghost use Rattle.update_messages.specs.Reading.{ReadsRequest, IsTextOf};
ghost use Rattle.sb_members.specs.Writing.{values_written};
ghost use Rattle.update_messages.specs.Writing as spec;

use crate::writing_words::{kinds, put_word};
use crate::{FetchRequest, ListRequest, client_members};
use sb_json::Field;
use sb_members::{
    bytes_value, list_value, members_are_as_their_values, number_value, object_value, put_member,
    written_members_read_again,
};
use sb_model::{Bytes, OutOfMemory};
use serde_json::{Map, Value};
use std::alloc::Global;

fn push_word(
    alloc: Global,
    words: &mut Vec<Value>,
    taken: bool,
    word: &str,
) -> Result<(), OutOfMemory>
    ensures { OnOk result (map view words.new.items ≡ map view words.old.items ++ spec.word_if taken word.now) }
{
    if !taken {
        return Ok(());
    }
    words.push(Value::try_from_str(alloc, word)?)?;
    Ok(())
}

fn compression_values(alloc: Global, raw: bool, rice: bool) -> Result<Vec<Value>, OutOfMemory>
    ensures { IfOk result (λ words. values_written (map view words.items) ≡ spec.compressions_written raw rice) }
{
    let mut words = Vec::new(alloc);
    push_word(alloc, &mut words, raw, "RAW")?;
    push_word(alloc, &mut words, rice, "RICE")?;
    Ok(words)
}

fn constraint_members(alloc: Global, asked: &ListRequest) -> Result<Map<String, Value>, OutOfMemory>
    ensures { IfOk result (λ members. members_view members.entries ≡ spec.constraint_members asked.now) }
{
    let mut members = Map::new(alloc);
    let words = compression_values(alloc, asked.raw, asked.rice)?;
    put_member(
        alloc,
        &mut members,
        Field::SupportedCompressions,
        list_value(words),
    )?;
    put_member(
        alloc,
        &mut members,
        Field::MaxUpdateEntries,
        number_value(asked.max_update),
    )?;
    put_member(
        alloc,
        &mut members,
        Field::MaxDatabaseEntries,
        number_value(asked.max_database),
    )?;
    Ok(members)
}

fn asked_value(alloc: Global, asked: &ListRequest) -> Result<Value, OutOfMemory>
    ensures value { IfOk result (λ value. view value ≡ spec.asked_written asked.now) }
    ensures range { IfOk result (λ _. IsAskedInRange asked.now) }
{
    let mut members = kinds(alloc, &asked.name)?;
    let state = bytes_value(alloc, asked.state.as_slice())?;
    put_member(alloc, &mut members, Field::State, state)?;
    put_word(
        alloc,
        &mut members,
        Field::PlatformType,
        asked.name.platform.word(),
    )?;
    let constraints = constraint_members(alloc, asked)?;
    put_member(
        alloc,
        &mut members,
        Field::Constraints,
        object_value(constraints),
    )?;
    Ok(Value::Object(members))
}

fn asked_values(alloc: Global, lists: &[ListRequest]) -> Result<Vec<Value>, OutOfMemory>
    ensures value { IfOk result (λ values. map view values.items ≡ map spec.asked_written lists.now) }
    ensures range { IfOk result (λ _. All IsAskedInRange lists.now) }
{
    let mut values = Vec::with_capacity(alloc, lists.len())?;
    for list in lists {
        values.push(asked_value(alloc, list)?)?;
    }
    Ok(values)
}

fn request_value(alloc: Global, message: &FetchRequest) -> Result<Value, OutOfMemory>
    ensures value { IfOk result (λ value. view value ≡ spec.request_written message.now) }
    ensures range { IfOk result (λ _. IsRequestInRange message.now) }
{
    let mut members = Map::new(alloc);
    let items = asked_values(alloc, message.items.as_slice())?;
    put_member(
        alloc,
        &mut members,
        Field::ListUpdateRequests,
        list_value(items),
    )?;
    let client = client_members(alloc, &message.client)?;
    put_member(alloc, &mut members, Field::Client, object_value(client))?;
    Ok(Value::Object(members))
}

/// Writes a fetch request in its one spelling: compact JSON, whose keys stand in byte order, and in which empty
/// texts, bytes and lists, zero numbers, and a client or constraints without fields are left out.
/// Where the text is not too dense it reads as the message; and it reads as no other.
pub fn write_request(alloc: Global, message: &FetchRequest) -> Result<Bytes, OutOfMemory>
    ensures spelling { IfOk result (λ text. text ≡ spec.spelling_of_request message.now) }
    ensures read_again { IfOk result (λ text. too_dense text ≡ None → IsTextOf ReadsRequest text message.now) }
    ensures no_other { IfOk result (λ text. (other : Request) → IsTextOf ReadsRequest text other → other ≡ message.now) }
{
    written_members_read_again();
    members_are_as_their_values();
    let value = request_value(alloc, message)?;
    let text = value.to_string(alloc)?;
    Ok(Bytes::from_vec(text.into_bytes()))
}
