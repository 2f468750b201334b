ghost use Rattle.std.specs.Prelude.{◌≡◌, ◌⊎◌, ◌≤◌, length, Ok, Err, Some, None};
ghost use Rattle.std.specs.Prelude.{IfOk, IfErr, MatchResult};
ghost use Rattle.serde_json.specs.View.{view, items_view};
ghost use Rattle.sb_json.specs.Values.{value_of};
ghost use Rattle.sb_members.specs.Lists.{EachReads, first};
ghost use Rattle.update_messages.specs.RequestRows.{root_row, client_row};
ghost use Rattle.update_messages.specs.Reading.{ReadsClient, IsTextOf};
ghost use Rattle.update_messages.specs.Faults.{fault_of_text};
ghost use Rattle.hash_messages.specs.RequestRows.{in_info};
ghost use Rattle.hash_messages.specs.Reading.{ReadsAs, ReadsEach};
ghost use Rattle.hash_messages.specs.Faults.{fault_by};
ghost use Rattle.lookup_messages.specs.Messages.{AskedUrls, most_urls};
ghost use Rattle.lookup_messages.specs.RequestRows as row;
ghost use Rattle.lookup_messages.specs.Reading.{ReadsLookupOutsideItems, ReadsLookup};
ghost use Rattle.lookup_messages.specs.Faults.{lookup_faults_outside_items, fault_of_urls};
ghost use Rattle.lookup_messages.specs.Faults.{fault_of_lookup};

use crate::LookupRequest;
use hash_messages::read_types;
use sb_json::{Field, FieldFault, MessageFault, object, object_item, read_json, text};
use sb_members::{ReadItem, check_object, items_or_none, read_numbered_items};
use sb_model::{Row, Text};
use serde_json::Value;
use std::alloc::Global;
use update_messages::read_client;

/// The most URLs of a request.
const MOST_URLS: usize = 500;

/// The URL that an item asks for.
fn asked_url(alloc: Global, item: &Value) -> Result<Text, FieldFault>
    ensures ok { IfOk result (λ url. row.url_row (view item.now) ≡ Ok url) }
    ensures err { IfErr result (λ fault. (fault ≡ FieldFault.OutOfMemory)
        ⊎ (row.url_row (view item.now) ≡ Err fault)) }
{
    text(alloc, object_item(item, Field::ThreatEntries)?, Field::Url)
}

/// The URLs that the items ask for.
struct Urls;

impl ReadItem for Urls {
    type Found = Text;

    ghost Reads = { ReadsAs row.url_row };

    ghost Keeps = { λ _. Unit {0} };

    ghost fault = { fault_by row.url_row };

    fn read_item(alloc: Global, item: &Value) -> Result<Text, FieldFault> {
        asked_url(alloc, item)
    }
}

/// The URLs that the items ask for, if there are no more than a request may have.
#[tactic(auto, using(crate::proofs::FewItems::few_clean, crate::proofs::FewItems::too_many))]
fn few_asked_urls(alloc: Global, items: &[Value]) -> Result<Row<Text>, MessageFault>
    ensures ok { IfOk result (λ urls. EachReads (ReadsAs row.url_row) (items_view items.now) urls) }
    ensures few { IfOk result (λ urls. length urls ≤ most_urls) }
    ensures clean { IfOk result (λ _. fault_of_urls (Ok (items_view items.now)) ≡ None) }
    ensures err { IfErr result (λ fault. (fault ≡ MessageFault.OutOfMemory)
        ⊎ (fault_of_urls (Ok (items_view items.now)) ≡ Some fault)) }
{
    if items.len() > MOST_URLS {
        return Err(MessageFault::TooManyItems(items.len() as u64));
    }
    read_numbered_items::<Urls>(alloc, items)
}

/// The items of a request.
fn url_items(value: &Value) -> Result<&[Value], FieldFault>
    ensures ok { IfOk result (λ items.
        in_info row.urls_row (view value.now) ≡ Ok (items_view items.now)) }
    ensures err { IfErr result (λ fault. in_info row.urls_row (view value.now) ≡ Err fault) }
{
    let info = object(value, Field::ThreatInfo)?;
    items_or_none(info, Field::ThreatEntries)
}

/// The URLs of a request.
fn asked_urls(alloc: Global, value: &Value) -> Result<Row<Text>, MessageFault>
    ensures ok { IfOk result (λ urls.
        ReadsEach row.url_row (in_info row.urls_row (view value.now)) urls) }
    ensures few { IfOk result (λ urls. length urls ≤ most_urls) }
    ensures clean { IfOk result (λ _. fault_of_urls (in_info row.urls_row (view value.now)) ≡ None) }
    ensures err { IfErr result (λ fault. (fault ≡ MessageFault.OutOfMemory)
        ⊎ (fault_of_urls (in_info row.urls_row (view value.now)) ≡ Some fault)) }
{
    match url_items(value) {
        Ok(items) => few_asked_urls(alloc, items),
        Err(fault) => Err(MessageFault::of(fault, 0)),
    }
}

/// The request without its URLs.
fn outside_items(alloc: Global, value: &Value) -> Result<LookupRequest, FieldFault>
    ensures ok { IfOk result (λ message. ReadsLookupOutsideItems (view value.now) message) }
    ensures clean { IfOk result (λ _. first (lookup_faults_outside_items (view value.now)) ≡ None) }
    ensures err { IfErr result (λ fault. (fault ≡ FieldFault.OutOfMemory)
        ⊎ (first (lookup_faults_outside_items (view value.now)) ≡ Some fault)) }
{
    check_object(value, Field::Root)?;
    let client = read_client(alloc, value)?;
    let types = read_types(alloc, value)?;
    Ok(LookupRequest {
        client,
        threats: types.threats,
        platforms: types.platforms,
        entries: types.entries,
        urls: Row::new(alloc),
    })
}

/// The request that a value is.
fn request_of(alloc: Global, value: &Value) -> Result<LookupRequest, MessageFault>
    ensures ok { IfOk result (λ message. ReadsLookup (view value.now) message) }
    ensures err { IfErr result (λ fault. (fault ≡ MessageFault.OutOfMemory)
        ⊎ (fault_of_lookup (view value.now) ≡ Some fault)) }
{
    match outside_items(alloc, value) {
        Ok(outside) => Ok(LookupRequest {
            urls: asked_urls(alloc, value)?,
            ..outside
        }),
        Err(fault) => Err(MessageFault::of(fault, 0)),
    }
}

/// The request that a text is.
fn request_in(alloc: Global, text: &[u8]) -> Result<LookupRequest, MessageFault>
    ensures ok { IfOk result (λ message. IsTextOf ReadsLookup text.now message) }
    ensures err { IfErr result (λ fault. (fault ≡ MessageFault.OutOfMemory)
        ⊎ (fault_of_text fault_of_lookup (value_of text.now) ≡ Some fault)) }
{
    let value = read_json(alloc, text)?;
    request_of(alloc, &value)
}

/// Reads a look-up request.
///
/// A text that is no request is refused by its first fault: `TooDense`, `NotJson`, and then the fields in the order of
/// `specs/RequestRows.antt`, item by item, if there are at most 500. Unknown fields are skipped, and one that is null
/// counts as absent.
pub fn read_lookup(alloc: Global, text: &[u8]) -> Result<LookupRequest, MessageFault>
    ensures ok { IfOk result (λ message. IsTextOf ReadsLookup text.now message) }
    ensures err { IfErr result (λ fault. (fault ≡ MessageFault.OutOfMemory)
        ⊎ (fault_of_text fault_of_lookup (value_of text.now) ≡ Some fault)) }
    ensures only { (message : AskedUrls) → IsTextOf ReadsLookup text.now message
        → MatchResult result (λ found. found ≡ message) (λ fault. fault ≡ MessageFault.OutOfMemory) }
{
    request_in(alloc, text)
}
