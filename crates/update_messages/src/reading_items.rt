ghost use Rattle.std.specs.Prelude.{◌≡◌, ◌⊎◌, ◌≤◌, ◌||◌, length, Ok, Some, None, IfOk, IfErr, OnOk};
ghost use Rattle.std.specs.Str.{bytes_eq};
ghost use Rattle.serde_json.specs.View.{view, items_view};
ghost use Rattle.sb_model.specs.Names.{threat_of, platform_of, entry_of};
ghost use Rattle.sb_members.specs.Lists.{first, fault_of_list};
ghost use Rattle.sb_members.specs.Somes.{is_something, ReadsSome};
ghost use Rattle.update_messages.specs.Messages.{most_items, most_i32};
ghost use Rattle.update_messages.specs.RequestRows as row;
ghost use Rattle.update_messages.specs.Reading.{TakesCompressions, ReadsAsked};
ghost use Rattle.update_messages.specs.Faults.{fault_of_name, faults_of_constraints, fault_of_asked, named_count, fault_of_requests};

use crate::ListRequest;
use crate::rows::{i32_or_zero, state_or_empty};
use sb_json::{Field, FieldFault, MessageFault, string, string_item};
use sb_members::{ReadSome, check_object, items_or_none, object_or_null, read_some_numbered_items};
use sb_model::{Bytes, EntryType, ListName, PlatformType, Row, ThreatType};
use serde_json::Value;
use std::alloc::Global;

/// The most items with names of a request.
const MOST_ITEMS: usize = 8;

/// Whether a word was there before, or is there now.
fn takes(taken: bool, word: &str, name: &str) -> bool
    ensures { result ≡ (taken || bytes_eq word.now name.now) }
{
    taken || word == name
}

/// Whether uncompressed and Rice coded sets are taken.
fn compressions(constraints: &Value) -> Result<(bool, bool), FieldFault>
    ensures ok { IfOk result (λ taken. TakesCompressions (row.compressions_row (view constraints.now)) taken.0 taken.1) }
    ensures clean { IfOk result (λ _. fault_of_list fault_of_name (row.compressions_row (view constraints.now)) ≡ None) }
    ensures err { IfErr result (λ fault. fault_of_list fault_of_name (row.compressions_row (view constraints.now)) ≡ Some fault) }
{
    let items = items_or_none(constraints, Field::SupportedCompressions)?;
    let mut raw = false;
    let mut rice = false;
    for item in items {
        let name = string_item(item, Field::SupportedCompressions)?;
        raw = takes(raw, "RAW", name);
        rice = takes(rice, "RICE", name);
    }
    Ok((raw, rice))
}

/// The name that three words are, where the tables have them all.
fn name_of_words(threat: &str, platform: &str, entry: &str) -> Option<ListName>
    ensures { result ≡ row.name_of_types (threat_of threat.now) (platform_of platform.now) (entry_of entry.now) }
{
    Some(ListName {
        threat: ThreatType::from_word(threat.as_bytes())?,
        platform: PlatformType::from_word(platform.as_bytes())?,
        entry: EntryType::from_word(entry.as_bytes())?,
    })
}

/// The name of the list that an item is of; `None` where the tables lack one of its words.
fn asked_name(item: &Value) -> Result<Option<ListName>, FieldFault>
    ensures { result ≡ row.asked_name_row (view item.now) }
{
    let threat = string(item, Field::ThreatType)?;
    let platform = string(item, Field::PlatformType)?;
    let entry = string(item, Field::ThreatEntryType)?;
    Ok(name_of_words(threat, platform, entry))
}

/// What an update has to keep to.
#[derive(Drop)]
struct Constraints {
    max_update: u32,
    max_database: u32,
    raw: bool,
    rice: bool,
}

/// What the update that an item asks for has to keep to.
fn constraints_of(item: &Value) -> Result<Constraints, FieldFault>
    ensures max_update { IfOk result (λ found.
        (row.in_constraints row.max_update_row (view item.now)) ≡ Ok found.max_update) }
    ensures max_database { IfOk result (λ found.
        (row.in_constraints row.max_database_row (view item.now)) ≡ Ok found.max_database) }
    ensures compressions { IfOk result (λ found.
        TakesCompressions (row.in_constraints row.compressions_row (view item.now)) found.raw found.rice) }
    ensures low_update { IfOk result (λ found. found.max_update ≤ most_i32) }
    ensures low_database { IfOk result (λ found. found.max_database ≤ most_i32) }
    ensures clean { IfOk result (λ _. first (faults_of_constraints (view item.now)) ≡ None) }
    ensures err { IfErr result (λ fault. first (faults_of_constraints (view item.now)) ≡ Some fault) }
{
    let absent = Value::Null;
    let constraints = object_or_null(item, Field::Constraints, &absent)?;
    let max_update = i32_or_zero(constraints, Field::MaxUpdateEntries)?;
    let max_database = i32_or_zero(constraints, Field::MaxDatabaseEntries)?;
    let (raw, rice) = compressions(constraints)?;
    Ok(Constraints {
        max_update,
        max_database,
        raw,
        rice,
    })
}

/// The list that an item asks for; `None` where it has no name.
fn asked_list(alloc: Global, item: &Value) -> Result<Option<ListRequest>, FieldFault>
    ensures ok { IfOk result (λ asked. ReadsAsked (view item.now) asked) }
    ensures clean { IfOk result (λ _. fault_of_asked (view item.now) ≡ None) }
    ensures err { IfErr result (λ fault. (fault ≡ FieldFault.OutOfMemory)
        ⊎ (fault_of_asked (view item.now) ≡ Some fault)) }
{
    check_object(item, Field::ListUpdateRequests)?;
    let name = asked_name(item)?;
    let state = state_or_empty(alloc, item, Field::State)?;
    let constraints = constraints_of(item)?;
    match name {
        Some(name) => Ok(Some(ListRequest {
            name,
            state,
            max_update: constraints.max_update,
            max_database: constraints.max_database,
            raw: constraints.raw,
            rice: constraints.rice,
        })),
        None => Ok(None),
    }
}

/// The lists that the items ask for.
struct AskedLists;

impl ReadSome for AskedLists {
    type Found = ListRequest;

    ghost Reads = { ReadsAsked };

    ghost fault = { fault_of_asked };

    fn read_some(alloc: Global, item: &Value) -> Result<Option<ListRequest>, FieldFault> {
        asked_list(alloc, item)
    }
}

/// Whether an item has a name.
fn has_name(item: &Value) -> bool
    ensures { result ≡ is_something (row.asked_name_row (view item.now)) }
{
    match asked_name(item) {
        Ok(Some(_)) => true,
        Ok(None) => false,
        Err(_) => false,
    }
}

/// How many items have names.
fn count_named(items: &[Value]) -> usize
    ensures { result ≡ named_count (items_view items.now) }
{
    let mut count: usize = 0;
    for item in items {
        if has_name(item) {
            count += 1;
        }
    }
    count
}

/// Refuses items of which more have names than a request may have.
#[tactic(auto, using(crate::proofs::NamedItems::few_named, crate::proofs::NamedItems::too_many))]
fn check_few(items: &[Value]) -> Result<(), MessageFault>
    ensures ok { OnOk result (named_count (items_view items.now) ≤ most_items) }
    ensures err { IfErr result (λ fault. fault_of_requests (Ok (items_view items.now)) ≡ Some fault) }
{
    if items.len() <= MOST_ITEMS {
        return Ok(());
    }
    let named = count_named(items);
    if named > MOST_ITEMS {
        return Err(MessageFault::TooManyItems(named as u64));
    }
    Ok(())
}

/// The lists that the items ask for, where there are no more than a request may have.
#[tactic(auto, using(crate::proofs::NamedItems::few_read))]
pub(crate) fn few_asked_lists(
    alloc: Global,
    items: &[Value],
) -> Result<Row<ListRequest>, MessageFault>
    ensures ok { IfOk result (λ lists. ReadsSome ReadsAsked (Ok (items_view items.now)) lists) }
    ensures few { IfOk result (λ lists. length lists ≤ most_items) }
    ensures clean { IfOk result (λ _. fault_of_requests (Ok (items_view items.now)) ≡ None) }
    ensures err { IfErr result (λ fault. (fault ≡ MessageFault.OutOfMemory)
        ⊎ (fault_of_requests (Ok (items_view items.now)) ≡ Some fault)) }
{
    check_few(items)?;
    read_some_numbered_items::<AskedLists>(alloc, items, items.len().min(MOST_ITEMS))
}
