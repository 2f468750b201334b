ghost use Rattle.std.specs.Prelude.{◌≡◌, ◌⊎◌, ◌≤◌, ◌++◌, [], ◌∷◌, length, Ok, Err, IfOk, IfErr, OnOk, OnErr};
ghost use Rattle.proto_wire.specs.Given.{given_value};
ghost use Rattle.proto_wire.specs.Reading.{wire_fields};
ghost use Rattle.update_messages.specs.Messages.{most_items};
ghost use Rattle.proto_messages.specs.Fields.{field_values_at};
ghost use Rattle.proto_messages.specs.Rows.{in_numbered_item};
ghost use Rattle.proto_messages.specs.Fetch as spec;

use crate::ProtoFault;
use crate::client::client_in;
use crate::fetch_items::{NumberedList, asked_of, named_count};
use crate::part::values_in;
use proto_wire::FieldValue;
use sb_model::{OutOfMemory, Row};
use std::alloc::Global;
use update_messages::{FetchRequest, ListRequest};

/// The most items with names of a request.
const MOST_ITEMS: usize = 8;

/// A request for updates of lists, and the number with which the threat of each list was asked.
#[derive(Debug, Drop)]
pub struct NumberedFetch {
    pub request: FetchRequest,
    /// As many as the request has lists.
    pub threats: Row<u64>,
}

/// The lists that are asked for, and the numbers of their threats.
#[derive(Drop)]
pub(crate) struct AskedLists {
    pub lists: Row<ListRequest>,
    pub threats: Row<u64>,
}

impl AskedLists {
    fn new(alloc: Global) -> AskedLists
        ensures { result ≡ record { lists = []; threats = [] } }
    {
        AskedLists {
            lists: Row::new(alloc),
            threats: Row::new(alloc),
        }
    }

    /// These, and what an item asks for.
    fn with_item(self, item: Option<NumberedList>) -> Result<AskedLists, OutOfMemory>
        ensures { IfOk result (λ asked. asked ≡ spec.with_asked_item self item) }
    {
        let AskedLists {
            mut lists,
            mut threats,
        } = self;
        if let Some(item) = item {
            lists.push(item.list)?;
            threats.push(item.threat)?;
        }
        Ok(AskedLists { lists, threats })
    }
}

/// What the item with a number asks for.
fn asked_in(
    alloc: Global,
    value: FieldValue<'_>,
    number: u64,
) -> Result<Option<NumberedList>, ProtoFault>
    ensures ok { IfOk result (λ item. spec.asked_of (given_value value.entry) ≡ Ok item) }
    ensures err { IfErr result (λ fault. (fault ≡ ProtoFault.OutOfMemory)
        ⊎ (in_numbered_item number (spec.asked_of (given_value value.entry)) ≡ Err fault)) }
{
    match asked_of(alloc, value) {
        Ok(item) => Ok(item),
        Err(fault) => Err(ProtoFault::of(fault, number)),
    }
}

/// What the items of the request that bytes are ask for.
#[tactic(auto, using(crate::proofs::ItemFacts::items_next, crate::proofs::ItemFacts::items_stop, crate::proofs::ItemFacts::count_next), unfolding(crate::specs::Fetch::read_items))]
fn read_items(alloc: Global, bytes: &[u8]) -> Result<AskedLists, ProtoFault>
    ensures ok { IfOk result (λ asked. spec.read_items (field_values_at 3 (wire_fields bytes.now).items) ≡ Ok asked) }
    ensures named { IfOk result (λ asked.
        length asked.lists ≡ spec.named_items_count (field_values_at 3 (wire_fields bytes.now).items)) }
    ensures err { IfErr result (λ fault. (fault ≡ ProtoFault.OutOfMemory)
        ⊎ (spec.read_items (field_values_at 3 (wire_fields bytes.now).items) ≡ Err fault)) }
{
    let mut values = values_in(bytes, 3);
    let mut asked = AskedLists::new(alloc);
    let mut number = 1u64;
    while let Some(value) = values.next() {
        let item = asked_in(alloc, value, number)?;
        asked = asked.with_item(item)?;
        number += 1;
    }
    Ok(asked)
}

/// What the items of the request that bytes are ask for, if no more of them have names than a request may have.
#[tactic(auto, unfolding(crate::specs::Fetch::asked_items_of))]
fn items_of(alloc: Global, bytes: &[u8]) -> Result<AskedLists, ProtoFault>
    ensures ok { IfOk result (λ asked. spec.asked_items_of (field_values_at 3 (wire_fields bytes.now).items) ≡ Ok asked) }
    ensures few { IfOk result (λ asked. length asked.lists ≤ most_items) }
    ensures err { IfErr result (λ fault. (fault ≡ ProtoFault.OutOfMemory)
        ⊎ (spec.asked_items_of (field_values_at 3 (wire_fields bytes.now).items) ≡ Err fault)) }
{
    let named = named_count(bytes);
    if named > MOST_ITEMS {
        return Err(ProtoFault::TooManyItems(named as u64));
    }
    read_items(alloc, bytes)
}

/// Reads a fetch request (`FetchThreatListUpdatesRequest`). The texts of its client are UTF-8. At most 8 of its items have names of
/// lists; an item of no such name is read like the others and asks for nothing. A state has at most 4,096 bytes, and a limit is at
/// most 2,147,483,647; one that is absent is empty, or 0.
///
/// The first fault is answered, and these are looked for in this order: `Part` with the item 0, if the bytes are not in the wire form,
/// and then of `client`; `TooManyItems`, with how many items have names; `Part` with the number of an item, from 1, item by item: that it
/// is no message, and then of its threat, platform and entry, its state and its constraints. `OutOfMemory` may come at any time.
#[tactic(auto, unfolding(crate::specs::Fetch::fetch_of))]
pub fn read_fetch(alloc: Global, bytes: &[u8]) -> Result<NumberedFetch, ProtoFault>
    ensures ok { IfOk result (λ found. spec.fetch_of bytes.now ≡ Ok found) }
    ensures err { IfErr result (λ fault. (fault ≡ ProtoFault.OutOfMemory) ⊎ (spec.fetch_of bytes.now ≡ Err fault)) }
{
    match client_in(alloc, bytes) {
        Ok(client) => {
            let asked = items_of(alloc, bytes)?;
            Ok(NumberedFetch {
                request: FetchRequest {
                    client,
                    items: asked.lists,
                },
                threats: asked.threats,
            })
        }
        Err(fault) => Err(ProtoFault::of(fault, 0)),
    }
}
