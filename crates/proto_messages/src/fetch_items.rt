ghost use Rattle.std.specs.Prelude.{◌≡◌, ◌⊎◌, ◌≤◌, length, Ok, Err, IfOk, IfErr, IsTrue};
ghost use Rattle.proto_wire.specs.Given.{given_value};
ghost use Rattle.proto_wire.specs.Reading.{wire_fields};
ghost use Rattle.update_messages.specs.Messages.{most_i32, most_state};
ghost use Rattle.proto_messages.specs.Rows as row;
ghost use Rattle.proto_messages.specs.Fetch as spec;
ghost use Rattle.proto_messages.specs.Fields.{field_values_at};
ghost use Rattle.proto_messages.specs.Parts.{fields_of_part};

use crate::PartFault;
use crate::numbers::name_numbered;
use crate::part::{Part, values_in};
use crate::rows::{bytes_row, message_of, message_row, number_row, numbers_row};
use proto_wire::FieldValue;
use sb_json::{Field, FieldFault};
use sb_model::{Bytes, ListName};
use std::alloc::Global;
use update_messages::ListRequest;

/// The most bytes of a state token.
const MOST_STATE: usize = 4_096;

/// The greatest number of 32 bits with a sign.
const MOST_I32: u64 = 2_147_483_647;

/// The number of an item's threat, and the name of a list that the item has, if it has one.
#[derive(Drop)]
pub(crate) struct ItemName {
    pub threat: u64,
    pub name: Option<ListName>,
}

/// What an update has to keep to.
#[derive(Drop)]
pub(crate) struct Constraints {
    pub max_update: u32,
    pub max_database: u32,
    pub raw: bool,
    pub rice: bool,
}

/// A list that is asked for, and the number with which its threat was asked.
#[derive(Drop)]
pub(crate) struct NumberedList {
    pub list: ListRequest,
    pub threat: u64,
}

/// The name of an item.
#[tactic(auto, unfolding(crate::specs::Fetch::item_name_of))]
fn item_name_of(part: &Part<'_>) -> Result<ItemName, PartFault>
    ensures { result ≡ spec.item_name_of (fields_of_part part.now) }
{
    let threat = number_row(part, Field::ThreatType, 1)?;
    let platform = number_row(part, Field::PlatformType, 2)?;
    let entry = number_row(part, Field::ThreatEntryType, 5)?;
    Ok(ItemName {
        threat,
        name: name_numbered(threat, platform, entry),
    })
}

/// A number of 32 bits that is not negative, 0 if it is absent.
fn whole_row(part: &Part<'_>, field: Field, number: u32) -> Result<u32, PartFault>
    ensures value { result ≡ row.whole_row field number (fields_of_part part.now) }
    ensures limit { IfOk result (λ n. n ≤ most_i32) }
{
    let found = number_row(part, field, number)?;
    if found > MOST_I32 {
        return Err(PartFault::Field(FieldFault::Number(field)));
    }
    Ok(found as u32)
}

/// A state token, empty if it is absent.
fn state_row(alloc: Global, part: &Part<'_>, field: Field, number: u32) -> Result<Bytes, PartFault>
    ensures ok { IfOk result (λ state. row.state_token_row field number (fields_of_part part.now) ≡ Ok state) }
    ensures limit { IfOk result (λ state. length state ≤ most_state) }
    ensures err { IfErr result (λ fault. (fault ≡ PartFault.OutOfMemory)
        ⊎ (row.state_token_row field number (fields_of_part part.now) ≡ Err fault)) }
{
    let state = bytes_row(part, field, number)?;
    if state.len() > MOST_STATE {
        return Err(PartFault::Field(FieldFault::Size(field, state.len() as u64)));
    }
    Ok(Bytes::from_slice(alloc, state)?)
}

/// Whether a number is among others.
fn is_among(numbers: &[u64], number: u64) -> bool
    ensures { result ≡ spec.is_number_among numbers.now number }
{
    numbers.iter().any(|other| *other == number)
}

/// What the update that an item asks for has to keep to.
#[tactic(auto, unfolding(crate::specs::Fetch::constraints_of))]
fn constraints_of(alloc: Global, part: &Part<'_>) -> Result<Constraints, PartFault>
    ensures ok { IfOk result (λ found. spec.constraints_of (fields_of_part part.now) ≡ Ok found) }
    ensures low_update { IfOk result (λ found. found.max_update ≤ most_i32) }
    ensures low_database { IfOk result (λ found. found.max_database ≤ most_i32) }
    ensures err { IfErr result (λ fault. (fault ≡ PartFault.OutOfMemory)
        ⊎ (spec.constraints_of (fields_of_part part.now) ≡ Err fault)) }
{
    let max_update = whole_row(part, Field::MaxUpdateEntries, 1)?;
    let max_database = whole_row(part, Field::MaxDatabaseEntries, 2)?;
    let numbers = numbers_row(alloc, part, Field::SupportedCompressions, 4)?;
    Ok(Constraints {
        max_update,
        max_database,
        raw: is_among(numbers.as_slice(), 1),
        rice: is_among(numbers.as_slice(), 2),
    })
}

/// The field `constraints` of the item that bytes are.
fn constraints_row(alloc: Global, bytes: &[u8]) -> Result<Constraints, PartFault>
    ensures ok { IfOk result (λ found. spec.constraints_message_row (wire_fields bytes.now).items ≡ Ok found) }
    ensures low_update { IfOk result (λ found. found.max_update ≤ most_i32) }
    ensures low_database { IfOk result (λ found. found.max_database ≤ most_i32) }
    ensures err { IfErr result (λ fault. (fault ≡ PartFault.OutOfMemory)
        ⊎ (spec.constraints_message_row (wire_fields bytes.now).items ≡ Err fault)) }
{
    let part = message_row(bytes, Field::Constraints, 4)?;
    constraints_of(alloc, &part)
}

/// What an item asks for; `None` if it has no name of a list.
fn list_asked(item: ItemName, state: Bytes, constraints: Constraints) -> Option<NumberedList>
    requires state { length state ≤ most_state }
    requires max_update { constraints.max_update ≤ most_i32 }
    requires max_database { constraints.max_database ≤ most_i32 }
    ensures { result ≡ spec.list_asked item state constraints }
{
    let name = item.name?;
    Some(NumberedList {
        list: ListRequest {
            name,
            state,
            max_update: constraints.max_update,
            max_database: constraints.max_database,
            raw: constraints.raw,
            rice: constraints.rice,
        },
        threat: item.threat,
    })
}

/// What the item asks for that bytes are.
#[tactic(auto, unfolding(crate::specs::Fetch::item_of))]
fn item_of(alloc: Global, bytes: &[u8]) -> Result<Option<NumberedList>, PartFault>
    ensures ok { IfOk result (λ item. spec.item_of (wire_fields bytes.now).items ≡ Ok item) }
    ensures err { IfErr result (λ fault. (fault ≡ PartFault.OutOfMemory)
        ⊎ (spec.item_of (wire_fields bytes.now).items ≡ Err fault)) }
{
    let part = Part::of(bytes);
    let item = item_name_of(&part)?;
    let state = state_row(alloc, &part, Field::State, 3)?;
    let constraints = constraints_row(alloc, bytes)?;
    Ok(list_asked(item, state, constraints))
}

/// What the item asks for that a value is.
pub(crate) fn asked_of(
    alloc: Global,
    value: FieldValue<'_>,
) -> Result<Option<NumberedList>, PartFault>
    ensures ok { IfOk result (λ item. spec.asked_of (given_value value.entry) ≡ Ok item) }
    ensures err { IfErr result (λ fault. (fault ≡ PartFault.OutOfMemory)
        ⊎ (spec.asked_of (given_value value.entry) ≡ Err fault)) }
{
    let bytes = message_of(Field::ListUpdateRequests, value)?;
    item_of(alloc, bytes)
}

/// The name of the item that a value is.
fn name_of(value: FieldValue<'_>) -> Result<ItemName, PartFault>
    ensures { result ≡ spec.item_name_in (given_value value.entry) }
{
    let bytes = message_of(Field::ListUpdateRequests, value)?;
    item_name_of(&Part::of(bytes))
}

/// Whether a value is an item that has the name of a list.
fn has_name(value: FieldValue<'_>) -> bool
    ensures { result ≡ spec.has_name (given_value value.entry) }
{
    match name_of(value) {
        Ok(item) => item.name.is_some(),
        Err(_) => false,
    }
}

/// How many items of the request that bytes are have names of lists.
pub(crate) fn named_count(bytes: &[u8]) -> usize
    ensures { result ≡ spec.named_items_count (field_values_at 3 (wire_fields bytes.now).items) }
{
    let mut values = values_in(bytes, 3);
    let mut count = 0;
    while let Some(value) = values.next() {
        if has_name(value) {
            count += 1;
        }
    }
    count
}
