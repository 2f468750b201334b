ghost use Rattle.std.specs.Prelude.{◌≡◌, ◌⊎◌, ◌≤◌, length, Ok, Err, Some, None, IfOk, IfErr};
ghost use Rattle.serde_json.specs.View.{view, items_view};
ghost use Rattle.sb_members.specs.Lists.{EachReads, first};
ghost use Rattle.hash_messages.specs.Messages.{most_prefixes};
ghost use Rattle.hash_messages.specs.RequestRows as row;
ghost use Rattle.hash_messages.specs.Reading.{ReadsAs, ReadsSomeBy};
ghost use Rattle.hash_messages.specs.Faults.{fault_by, faults_of_types, fault_of_prefixes};

use hash_prefixes::Prefix;
use sb_json::{
    Field, FieldFault, MessageFault, bytes, bytes_item, object, object_item, string_item,
};
use sb_members::{ReadItem, ReadSome, read_numbered_items, read_some_list};
use sb_model::{Bytes, EntryType, PlatformType, Row, ThreatType};
use serde_json::Value;
use std::alloc::Global;

/// The most items of a request.
const MOST_PREFIXES: usize = 1_024;

/// A state; `None` where it is null.
fn asked_state(alloc: Global, item: &Value) -> Result<Option<Bytes>, FieldFault>
    ensures ok { IfOk result (λ state. row.asked_state_row (view item.now) ≡ Ok state) }
    ensures err { IfErr result (λ fault. (fault ≡ FieldFault.OutOfMemory)
        ⊎ (row.asked_state_row (view item.now) ≡ Err fault)) }
{
    if item.is_null() {
        return Ok(None);
    }
    Ok(Some(bytes_item(alloc, item, Field::ClientStates)?))
}

/// The states of a request.
pub(crate) struct States;

impl ReadSome for States {
    type Found = Bytes;

    ghost Reads = { ReadsAs row.asked_state_row };

    ghost fault = { fault_by row.asked_state_row };

    fn read_some(alloc: Global, item: &Value) -> Result<Option<Bytes>, FieldFault> {
        asked_state(alloc, item)
    }
}

/// A threat type that is asked for; `None` where the table has no such name.
fn asked_threat(item: &Value) -> Result<Option<ThreatType>, FieldFault>
    ensures { result ≡ row.asked_threat_row (view item.now) }
{
    let word = string_item(item, Field::ThreatTypes)?;
    Ok(ThreatType::from_word(word.as_bytes()))
}

/// The threat types that are asked for.
struct AskedThreats;

impl ReadSome for AskedThreats {
    type Found = ThreatType;

    ghost Reads = { ReadsAs row.asked_threat_row };

    ghost fault = { fault_by row.asked_threat_row };

    fn read_some(_alloc: Global, item: &Value) -> Result<Option<ThreatType>, FieldFault> {
        asked_threat(item)
    }
}

/// A platform type that is asked for; `None` where the table has no such name.
fn asked_platform(item: &Value) -> Result<Option<PlatformType>, FieldFault>
    ensures { result ≡ row.asked_platform_row (view item.now) }
{
    let word = string_item(item, Field::PlatformTypes)?;
    Ok(PlatformType::from_word(word.as_bytes()))
}

/// The platform types that are asked for.
struct AskedPlatforms;

impl ReadSome for AskedPlatforms {
    type Found = PlatformType;

    ghost Reads = { ReadsAs row.asked_platform_row };

    ghost fault = { fault_by row.asked_platform_row };

    fn read_some(_alloc: Global, item: &Value) -> Result<Option<PlatformType>, FieldFault> {
        asked_platform(item)
    }
}

/// A threat entry type that is asked for; `None` where the table has no such name.
fn asked_entry(item: &Value) -> Result<Option<EntryType>, FieldFault>
    ensures { result ≡ row.asked_entry_row (view item.now) }
{
    let word = string_item(item, Field::ThreatEntryTypes)?;
    Ok(EntryType::from_word(word.as_bytes()))
}

/// The threat entry types that are asked for.
struct AskedEntries;

impl ReadSome for AskedEntries {
    type Found = EntryType;

    ghost Reads = { ReadsAs row.asked_entry_row };

    ghost fault = { fault_by row.asked_entry_row };

    fn read_some(_alloc: Global, item: &Value) -> Result<Option<EntryType>, FieldFault> {
        asked_entry(item)
    }
}

/// The types of the lists that are asked.
#[derive(Drop)]
pub struct AskedTypes {
    pub threats: Row<ThreatType>,
    pub platforms: Row<PlatformType>,
    pub entries: Row<EntryType>,
}

/// Reads the three lists of types of the field `threatInfo` of a request's value. A name that a table lacks
/// is skipped. The faults are those of `faults_of_types` of `specs/Faults.antt`, and `OutOfMemory`.
pub fn read_types(alloc: Global, message: &Value) -> Result<AskedTypes, FieldFault>
    ensures threats { IfOk result (λ types.
        ReadsSomeBy row.asked_threat_row (row.in_info row.threats_row (view message.now)) types.threats) }
    ensures platforms { IfOk result (λ types.
        ReadsSomeBy row.asked_platform_row (row.in_info row.platforms_row (view message.now)) types.platforms) }
    ensures entries { IfOk result (λ types.
        ReadsSomeBy row.asked_entry_row (row.in_info row.entries_row (view message.now)) types.entries) }
    ensures clean { IfOk result (λ _. first (faults_of_types (view message.now)) ≡ None) }
    ensures err { IfErr result (λ fault. (fault ≡ FieldFault.OutOfMemory)
        ⊎ (first (faults_of_types (view message.now)) ≡ Some fault)) }
{
    let info = object(message, Field::ThreatInfo)?;
    let threats = read_some_list::<AskedThreats>(alloc, info, Field::ThreatTypes)?;
    let platforms = read_some_list::<AskedPlatforms>(alloc, info, Field::PlatformTypes)?;
    let entries = read_some_list::<AskedEntries>(alloc, info, Field::ThreatEntryTypes)?;
    Ok(AskedTypes {
        threats,
        platforms,
        entries,
    })
}

/// The prefix that an item asks for.
fn asked_prefix(alloc: Global, item: &Value) -> Result<Prefix, FieldFault>
    ensures ok { IfOk result (λ prefix. row.prefix_row (view item.now) ≡ Ok prefix) }
    ensures err { IfErr result (λ fault. (fault ≡ FieldFault.OutOfMemory)
        ⊎ (row.prefix_row (view item.now) ≡ Err fault)) }
{
    let entry = object_item(item, Field::ThreatEntries)?;
    let hash = bytes(alloc, entry, Field::Hash)?;
    match Prefix::from_bytes(hash.as_slice()) {
        Some(prefix) => Ok(prefix),
        None => Err(FieldFault::Size(Field::Hash, hash.len() as u64)),
    }
}

/// The prefixes that the items ask for.
struct AskedPrefixes;

impl ReadItem for AskedPrefixes {
    type Found = Prefix;

    ghost Reads = { ReadsAs row.prefix_row };

    ghost Keeps = { λ _. Unit {0} };

    ghost fault = { fault_by row.prefix_row };

    fn read_item(alloc: Global, item: &Value) -> Result<Prefix, FieldFault> {
        asked_prefix(alloc, item)
    }
}

/// The prefixes that the items ask for, where there are no more than a request may have.
#[tactic(auto, using(crate::proofs::FewItems::few_clean, crate::proofs::FewItems::too_many))]
pub(crate) fn few_asked_prefixes(
    alloc: Global,
    items: &[Value],
) -> Result<Row<Prefix>, MessageFault>
    ensures ok { IfOk result (λ prefixes.
        EachReads (ReadsAs row.prefix_row) (items_view items.now) prefixes) }
    ensures few { IfOk result (λ prefixes. length prefixes ≤ most_prefixes) }
    ensures clean { IfOk result (λ _. fault_of_prefixes (Ok (items_view items.now)) ≡ None) }
    ensures err { IfErr result (λ fault. (fault ≡ MessageFault.OutOfMemory)
        ⊎ (fault_of_prefixes (Ok (items_view items.now)) ≡ Some fault)) }
{
    if items.len() > MOST_PREFIXES {
        return Err(MessageFault::TooManyItems(items.len() as u64));
    }
    read_numbered_items::<AskedPrefixes>(alloc, items)
}
