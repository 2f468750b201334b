ghost use Rattle.std.specs.Prelude.{◌≡◌, ◌⊎◌, ◌<◌, ◌≤◌, ◌^◌, length, Ok, Err, IfOk, IfErr};
ghost use Rattle.proto_wire.specs.Given.{given_value};
ghost use Rattle.proto_wire.specs.Reading.{wire_fields};
ghost use Rattle.hash_messages.specs.Messages.{most_prefixes};
ghost use Rattle.proto_messages.specs.Fields.{field_values_at, fields_of};
ghost use Rattle.proto_messages.specs.Rows.{in_numbered_item, items_numbered_from};
ghost use Rattle.proto_messages.specs.Find as spec;
ghost use Rattle.proto_messages.specs.Parts.{fields_of_part};

use crate::client::client_in;
use crate::find_types::{NumberedTypes, types_of};
use crate::part::{Part, values_in};
use crate::rows::{bytes_of, bytes_row, message_of, message_row};
use crate::{PartFault, ProtoFault};
use hash_messages::FindRequest;
use hash_prefixes::Prefix;
use proto_wire::FieldValue;
use sb_json::{Field, FieldFault};
use sb_model::{Bytes, Row};
use std::alloc::Global;
use update_messages::ClientInfo;

/// The most prefixes of a request.
const MOST_PREFIXES: usize = 1_024;

/// A request for the full hashes that begin with some prefixes, and the number by which it asks for SOCIAL_ENGINEERING.
#[derive(Debug, Drop)]
pub struct NumberedFind {
    pub request: FindRequest,
    /// 2 or 5: the first of them that it has, and 2 if it has none.
    pub social: u64,
}

/// What a request has outside its entries.
#[derive(Drop)]
pub(crate) struct Outside {
    pub client: ClientInfo,
    pub states: Row<Bytes>,
    pub types: NumberedTypes,
}

/// The prefix that an entry has.
#[tactic(auto, unfolding(crate::specs::Find::entry_prefix_of))]
fn prefix_of(value: FieldValue<'_>) -> Result<Prefix, PartFault>
    ensures ok { IfOk result (λ prefix. spec.entry_prefix_of (given_value value.entry) ≡ Ok prefix) }
    ensures err { IfErr result (λ fault. spec.entry_prefix_of (given_value value.entry) ≡ Err fault) }
{
    let entry = Part::of(message_of(Field::ThreatEntries, value)?);
    let hash = bytes_row(&entry, Field::Hash, 1)?;
    match Prefix::from_bytes(hash) {
        Some(prefix) => Ok(prefix),
        None => Err(PartFault::Field(FieldFault::Size(Field::Hash, hash.len() as u64))),
    }
}

/// The prefix of the entry with a number.
fn prefix_in(value: FieldValue<'_>, number: u64) -> Result<Prefix, ProtoFault>
    ensures ok { IfOk result (λ prefix. spec.entry_prefix_of (given_value value.entry) ≡ Ok prefix) }
    ensures err { IfErr result (λ fault. in_numbered_item number (spec.entry_prefix_of (given_value value.entry)) ≡ Err fault) }
{
    match prefix_of(value) {
        Ok(prefix) => Ok(prefix),
        Err(fault) => Err(ProtoFault::of(fault, number)),
    }
}

/// How many entries `threat_info` has.
#[tactic(auto, using(crate::proofs::FieldFacts::fewer_values))]
fn count_entries(info: &Part<'_>) -> usize
    requires { length (fields_of_part info.now) < 2 ^ 63 }
    ensures { result ≡ length (field_values_at 3 (fields_of_part info.now)) }
{
    let mut values = info.values(3);
    let mut count = 0;
    while let Some(_) = values.next() {
        count += 1;
    }
    count
}

/// The prefixes of the entries of `threat_info`, of which there are few.
fn read_prefixes(alloc: Global, info: &Part<'_>) -> Result<Row<Prefix>, ProtoFault>
    requires { length (field_values_at 3 (fields_of_part info.now)) ≤ most_prefixes }
    ensures ok { IfOk result (λ prefixes.
        items_numbered_from spec.entry_prefix_of 1 (field_values_at 3 (fields_of_part info.now)) ≡ Ok prefixes) }
    ensures few { IfOk result (λ prefixes. length prefixes ≤ most_prefixes) }
    ensures err { IfErr result (λ fault. (fault ≡ ProtoFault.OutOfMemory)
        ⊎ (items_numbered_from spec.entry_prefix_of 1 (field_values_at 3 (fields_of_part info.now)) ≡ Err fault)) }
{
    let mut values = info.values(3);
    let mut prefixes = Row::new(alloc);
    let mut number = 1u64;
    while let Some(value) = values.next() {
        prefixes.push(prefix_in(value, number)?)?;
        number += 1;
    }
    Ok(prefixes)
}

/// The prefixes of the entries of `threat_info`, if there are no more than a request may have.
#[tactic(auto, unfolding(crate::specs::Find::entry_prefixes_of))]
fn prefixes_of(alloc: Global, info: &Part<'_>) -> Result<Row<Prefix>, ProtoFault>
    requires { length (fields_of_part info.now) < 2 ^ 63 }
    ensures ok { IfOk result (λ prefixes. spec.entry_prefixes_of (field_values_at 3 (fields_of_part info.now)) ≡ Ok prefixes) }
    ensures few { IfOk result (λ prefixes. length prefixes ≤ most_prefixes) }
    ensures err { IfErr result (λ fault. (fault ≡ ProtoFault.OutOfMemory)
        ⊎ (spec.entry_prefixes_of (field_values_at 3 (fields_of_part info.now)) ≡ Err fault)) }
{
    let count = count_entries(info);
    if count > MOST_PREFIXES {
        return Err(ProtoFault::TooManyItems(count as u64));
    }
    read_prefixes(alloc, info)
}

/// The prefixes of the request that bytes are.
#[tactic(auto, unfolding(crate::specs::Find::prefixes_in))]
fn prefixes_in(alloc: Global, bytes: &[u8]) -> Result<Row<Prefix>, ProtoFault>
    ensures ok { IfOk result (λ prefixes. spec.prefixes_in (wire_fields bytes.now).items ≡ Ok prefixes) }
    ensures few { IfOk result (λ prefixes. length prefixes ≤ most_prefixes) }
    ensures err { IfErr result (λ fault. (fault ≡ ProtoFault.OutOfMemory)
        ⊎ (spec.prefixes_in (wire_fields bytes.now).items ≡ Err fault)) }
{
    match message_row(bytes, Field::ThreatInfo, 3) {
        Ok(info) => prefixes_of(alloc, &info),
        Err(fault) => Err(ProtoFault::of(fault, 0)),
    }
}

/// The states of the request that bytes are.
#[tactic(auto, unfolding(crate::specs::Find::client_states_row))]
fn states_row(alloc: Global, bytes: &[u8]) -> Result<Row<Bytes>, PartFault>
    ensures ok { IfOk result (λ states. spec.client_states_row (wire_fields bytes.now).items ≡ Ok states) }
    ensures err { IfErr result (λ fault. (fault ≡ PartFault.OutOfMemory)
        ⊎ (spec.client_states_row (wire_fields bytes.now).items ≡ Err fault)) }
{
    let mut values = values_in(bytes, 2);
    let mut states = Row::new(alloc);
    while let Some(value) = values.next() {
        let state = bytes_of(Field::ClientStates, value)?;
        states.push(Bytes::from_slice(alloc, state)?)?;
    }
    Ok(states)
}

/// What the request has outside its entries that bytes are.
#[tactic(auto, unfolding(crate::specs::Find::outside_of))]
fn outside_of(alloc: Global, bytes: &[u8]) -> Result<Outside, PartFault>
    ensures ok { IfOk result (λ outside. spec.outside_of bytes.now ≡ Ok outside) }
    ensures fields { IfOk result (λ _. fields_of Field.Root bytes.now ≡ Ok (wire_fields bytes.now).items) }
    ensures err { IfErr result (λ fault. (fault ≡ PartFault.OutOfMemory) ⊎ (spec.outside_of bytes.now ≡ Err fault)) }
{
    let client = client_in(alloc, bytes)?;
    let states = states_row(alloc, bytes)?;
    let info = message_row(bytes, Field::ThreatInfo, 3)?;
    let types = types_of(alloc, &info)?;
    Ok(Outside {
        client,
        states,
        types,
    })
}

/// A request of what it has outside its entries, and of their prefixes.
fn with_prefixes(outside: Outside, prefixes: Row<Prefix>) -> NumberedFind
    requires { length prefixes ≤ most_prefixes }
    ensures { result ≡ spec.with_prefixes outside prefixes }
{
    let Outside {
        client,
        states,
        types,
    } = outside;
    NumberedFind {
        request: FindRequest {
            client,
            states,
            threats: types.threats,
            platforms: types.platforms,
            entries: types.entries,
            prefixes,
        },
        social: types.social,
    }
}

/// Reads a find request (`FindFullHashesRequest`). The texts of its client are UTF-8. Numbers that name no type are skipped. It has at
/// most 1,024 entries, each of 4 to 32 bytes.
///
/// The first fault is answered, and these are looked for in this order: `Part` with the item 0, if the bytes are not in the wire form,
/// and then of `client`, the states, `threat_info` and its threats, platforms and entry types; `TooManyItems`, with how many entries there
/// are; `Part` with the number of an entry, from 1, entry by entry: that it is no message, and then its hash. `OutOfMemory` may come at any
/// time.
#[tactic(auto, unfolding(crate::specs::Find::find_of))]
pub fn read_find(alloc: Global, bytes: &[u8]) -> Result<NumberedFind, ProtoFault>
    ensures ok { IfOk result (λ found. spec.find_of bytes.now ≡ Ok found) }
    ensures err { IfErr result (λ fault. (fault ≡ ProtoFault.OutOfMemory) ⊎ (spec.find_of bytes.now ≡ Err fault)) }
{
    match outside_of(alloc, bytes) {
        Ok(outside) => Ok(with_prefixes(outside, prefixes_in(alloc, bytes)?)),
        Err(fault) => Err(ProtoFault::of(fault, 0)),
    }
}
