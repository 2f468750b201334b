ghost use Rattle.std.specs.Prelude.{◌≡◌, ◌-◌, Some, filter, find, map, IfOk, IsSome};
ghost use Rattle.std.specs.List.{range_with_len};
ghost use Rattle.std.specs.Str.{bytes_eq};
ghost use Rattle.update_messages.specs.Messages.{AskedList};
ghost use Rattle.update_client.specs.Held.{digest_of};
ghost use Rattle.mirror_places.specs.Answer.{is_served, held_at_place, mirror_answer, mirror_update, place_named, removal_size, set_in, update_from};
ghost use Rattle.mirror_places.specs.Places.{newest_place};
ghost use Rattle.mirror_places.specs.Tokens.{mirror_token};

use crate::Mirror;
use crate::mirror::Served;
use crate::tokens::mirror_token;
use prefix_set::PrefixSet;
use sb_model::{Duration, OutOfMemory, Row};
use set_updates::{Sent, full_update, partial_update, unchanged_update};
use std::alloc::Global;
use update_messages::{FetchRequest, FetchResponse, ListRequest, ListUpdate};

// Whether the state of an asked list is the token of a place.
fn names_place(mirror: &Mirror, asked: &ListRequest, place: u64) -> bool
    ensures { result ≡ bytes_eq (mirror_token mirror.now.epoch asked.now.name place) asked.now.state }
{
    let token = mirror_token(mirror.epoch(), asked.name, place);
    token.as_slice() == asked.state.as_slice()
}

// The first of some places that the state of an asked list names.
fn place_among(mirror: &Mirror, asked: &ListRequest, first: u64, end: u64) -> Option<u64>
    ensures { result ≡ find (λ place. bytes_eq (mirror_token mirror.now.epoch asked.now.name place) asked.now.state)
        (range_with_len first (end - first)) }
{
    (first..end).find(|place| names_place(mirror, asked, *place))
}

/// The kept place that the state of an asked list names; `None` if the state is the token of no kept place of the list.
pub fn place_named(mirror: &Mirror, asked: &ListRequest) -> Option<u64>
    ensures { result ≡ place_named mirror.now asked.now.name asked.now.state }
{
    place_among(mirror, asked, mirror.gone(), mirror.newest() + 1)
}

// The size that removals from a set are told with: 4 if each member has four bytes, and else 0.
fn removal_size(set: &PrefixSet) -> u8
    ensures { result ≡ removal_size set.now }
{
    // looked at for the prover: each member has 4 to 32 bytes
    let _ = set.len();
    let sizes = set.sizes();
    for size in 5..33 {
        if sizes[size] {
            return 0;
        }
    }
    4
}

// What leads to the newest set of a list from that of a place that has the list.
fn update_from(
    alloc: Global,
    mirror: &Mirror,
    asked: &ListRequest,
    newer: &Sent<'_>,
    place: u64,
) -> Result<ListUpdate, OutOfMemory>
    requires digest { newer.now.digest ≡ digest_of newer.now.set.now }
    requires newest { newer.now.set.now ≡ set_in (held_at_place mirror.now (newest_place mirror.now) asked.now.name) }
    requires there { IsSome (held_at_place mirror.now place asked.now.name) }
    ensures { IfOk result (λ update. update ≡ update_from mirror.now asked.now newer.now.set.now newer.now.token (Some place)) }
{
    if place == mirror.newest() {
        return unchanged_update(alloc, asked, newer.digest, newer.token);
    }
    match mirror.list_at(place, asked.name) {
        Some(held) => partial_update(alloc, asked, removal_size(&held.set), &held.set, newer),
        None => unreachable!(),
    }
}

// The update of an asked list that is held under a token.
fn update_of(
    alloc: Global,
    mirror: &Mirror,
    asked: &ListRequest,
    served: &Served<'_>,
) -> Result<ListUpdate, OutOfMemory>
    requires digest { served.now.digest ≡ digest_of served.now.held.now.set }
    requires newest { held_at_place mirror.now (newest_place mirror.now) asked.now.name ≡ Some served.now.held.now }
    ensures { IfOk result (λ update. update ≡ mirror_update mirror.now asked.now) }
{
    mirror.know_names();
    let held = served.held;
    let newer = Sent {
        set: &held.set,
        digest: served.digest,
        token: mirror_token(mirror.epoch(), asked.name, mirror.newest()),
    };
    match place_named(mirror, asked) {
        Some(place) => update_from(alloc, mirror, asked, &newer, place),
        None => full_update(alloc, asked, &newer),
    }
}

// The updates of those asked lists that are held under a token, in their order.
fn updates_of(
    alloc: Global,
    mirror: &Mirror,
    items: &[ListRequest],
) -> Result<Row<ListUpdate>, OutOfMemory>
    ensures { IfOk result (λ updates. updates ≡ map (mirror_update mirror.now) (filter (λ (asked : AskedList). is_served mirror.now asked.name) items.now)) }
{
    let mut updates = Row::with_capacity(alloc, items.len())?;
    for asked in items {
        let Some(served) = mirror.served(asked.name) else {
            continue;
        };
        updates.push(update_of(alloc, mirror, asked, &served)?)?;
    }
    Ok(updates)
}

/// The answer to a fetch request (`threatListUpdates:fetch`), with a minimum wait in seconds: one update to the newest place for each asked
/// list that is held under a token there, in their order, and none for others. One whose state is the token of a kept place gets what leads
/// from there, and any other the whole list. The limits `maxUpdateEntries` and `maxDatabaseEntries` are not looked at.
pub fn answer_mirror(
    alloc: Global,
    mirror: &Mirror,
    wait: u32,
    request: &FetchRequest,
) -> Result<FetchResponse, OutOfMemory>
    ensures { IfOk result (λ response. response ≡ mirror_answer mirror.now wait request.now) }
{
    Ok(FetchResponse {
        items: updates_of(alloc, mirror, request.items.as_slice())?,
        wait: Duration::from_seconds(wait),
    })
}
