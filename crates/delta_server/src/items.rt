ghost use Rattle.std.specs.Prelude.{◌≡◌, ◌≤◌, true, Some, None, map, IfOk, OnOk, IfSome};
ghost use Rattle.sha2.specs.Sha256.{sha256};
ghost use Rattle.sb_model.specs.Prefixes.{concatenation};
ghost use Rattle.sb_model.specs.History.{declares, prefixes_at, version_count};
ghost use Rattle.sb_model.specs.Target.{target_version};
ghost use Rattle.update_messages.specs.Answer.{declared_items, version_named, update_to, update_for};
ghost use Rattle.delta_server.specs.Served.{IsServedList, LeadsTo, LeadsToNewest};
ghost use Rattle.delta_server.specs.Swept.{AreOf};
ghost use Rattle.delta_server.specs.Tokens.{server_naming, server_token};

use crate::answering::is_declared;
use crate::passages::{Lead, kept_delta, kept_lead, kept_set};
use crate::repeats::repeated_update;
use crate::served::{Served, served_list, set_at};
use crate::swept::Swept;
use crate::targets::{Limits, newest_delta, older_target, whole_target};
use crate::tokens::{held_version, state_token};
use list_versions::History;
use prefix_set::{Delta, PrefixSet};
use sb_model::{ListName, OutOfMemory, Row};
use set_updates::{
    Sent, delta_update, differences_may_be_sent, full_update, numbered_update,
    numbers_go_by_members, partial_update, unchanged_update,
};
use std::alloc::Global;
use update_messages::{ListRequest, ListUpdate};

// The limits of an asked list.
fn limits_of(asked: &ListRequest) -> Limits
    ensures update { result.update ≡ asked.now.max_update }
    ensures database { result.database ≡ asked.now.max_database }
{
    Limits {
        update: asked.max_update,
        database: asked.max_database,
    }
}

// The whole of the newest set. Its numbers stand ready.
fn newest_whole(
    alloc: Global,
    history: &History,
    served: &Served<'_>,
    asked: &ListRequest,
) -> Result<ListUpdate, OutOfMemory>
    requires { IsServedList served.now history.now.versions asked.now.name }
    ensures { IfOk result (λ update. update ≡ update_to history.now.versions (server_naming history.now.versions) asked.now None
        (version_count history.now.versions)) }
{
    numbers_go_by_members();
    let token = state_token(history.epoch(), asked.name, history.len());
    let sent = Sent {
        set: served.set,
        digest: served.digest,
        token,
    };
    numbered_update(alloc, asked, &sent, served.numbers)
}

// The prefixes of a declared list at a version, told by the stretches of the list if it was swept.
fn older_set(
    alloc: Global,
    history: &History,
    swept: &Swept,
    list: ListName,
    version: u64,
) -> Result<PrefixSet, OutOfMemory>
    requires declared { declares history.now.versions list ≡ true }
    requires within { version ≤ version_count history.now.versions }
    requires swept { AreOf history.now.versions swept.now }
    ensures { IfOk result (λ set. set ≡ prefixes_at history.now.versions list version) }
{
    let found = kept_set(alloc, history, swept, list, version)?;
    match found {
        Some(set) => Ok(set),
        None => set_at(alloc, history, list, version),
    }
}

// The update for one who holds no version of a list: a whole set.
fn whole_answer(
    alloc: Global,
    history: &History,
    swept: &mut Swept,
    served: &Served<'_>,
    asked: &ListRequest,
) -> Result<ListUpdate, OutOfMemory>
    requires served { IsServedList served.now history.now.versions asked.now.name }
    requires swept { AreOf history.now.versions swept.old }
    ensures update { IfOk result (λ update. update ≡ update_to history.now.versions (server_naming history.now.versions) asked.now None
        (target_version history.now.versions asked.now.name None asked.now.max_update asked.now.max_database)) }
    ensures swept { OnOk result (AreOf history.now.versions swept.new) }
{
    let list = asked.name;
    let version = whole_target(alloc, history, swept, list, served.set, limits_of(asked))?;
    if version == history.len() {
        return newest_whole(alloc, history, served, asked);
    }
    let set = &older_set(alloc, history, swept, list, version)?;
    let token = state_token(history.epoch(), list, version);
    let digest = set.digest();
    let sent = Sent { set, digest, token };
    full_update(alloc, asked, &sent)
}

// The update that leads from a held version to another, by what leads there.
fn led_answer(
    alloc: Global,
    history: &History,
    served: &Served<'_>,
    asked: &ListRequest,
    held: u64,
    version: u64,
    delta: Delta,
    digest: [u8; 32],
) -> Result<ListUpdate, OutOfMemory>
    requires served { IsServedList served.now history.now.versions asked.now.name }
    requires within { held ≤ version_count history.now.versions }
    requires version { version ≤ version_count history.now.versions }
    requires delta { LeadsTo history.now.versions asked.now.name held version delta }
    requires digest { digest ≡ sha256 (concatenation (prefixes_at history.now.versions asked.now.name version)) }
    ensures { IfOk result (λ update. update ≡ update_to history.now.versions (server_naming history.now.versions) asked.now (Some held) version) }
{
    differences_may_be_sent();
    // looked at for the prover: what holds of each history that was read
    let _ = history.len();
    let token = state_token(history.epoch(), asked.name, version);
    delta_update(alloc, asked, served.size, delta, digest, token)
}

// The update that leads from a held version to the newest.
fn newest_answer(
    alloc: Global,
    history: &History,
    served: &Served<'_>,
    asked: &ListRequest,
    held: u64,
    delta: Delta,
) -> Result<ListUpdate, OutOfMemory>
    requires served { IsServedList served.now history.now.versions asked.now.name }
    requires within { held ≤ version_count history.now.versions }
    requires delta { LeadsToNewest history.now.versions asked.now.name held delta }
    ensures { IfOk result (λ update. update ≡ update_to history.now.versions (server_naming history.now.versions) asked.now (Some held)
        (version_count history.now.versions)) }
{
    let newest = history.len();
    let digest = served.digest;
    led_answer(alloc, history, served, asked, held, newest, delta, digest)
}

// The update that leads from a held version to a later one or to itself, by the sets of both, which
// are made.
fn later_answer(
    alloc: Global,
    history: &History,
    served: &Served<'_>,
    asked: &ListRequest,
    held: u64,
    version: u64,
) -> Result<ListUpdate, OutOfMemory>
    requires served { IsServedList served.now history.now.versions asked.now.name }
    requires within { held ≤ version_count history.now.versions }
    requires version { version ≤ version_count history.now.versions }
    ensures { IfOk result (λ update. update ≡ update_to history.now.versions (server_naming history.now.versions) asked.now (Some held) version) }
{
    let list = asked.name;
    let before = set_at(alloc, history, list, held)?;
    let token = state_token(history.epoch(), list, version);
    if version == held {
        return unchanged_update(alloc, asked, before.digest(), token);
    }
    let set = &set_at(alloc, history, list, version)?;
    let digest = set.digest();
    let sent = Sent { set, digest, token };
    partial_update(alloc, asked, served.size, &before, &sent)
}

// What leads from a held version of a list to the newest, told by the stretches of the list if it was
// swept.
fn newest_lead(
    alloc: Global,
    history: &History,
    swept: &Swept,
    list: ListName,
    held: u64,
) -> Result<Delta, OutOfMemory>
    requires declared { declares history.now.versions list ≡ true }
    requires within { held ≤ version_count history.now.versions }
    requires swept { AreOf history.now.versions swept.now }
    ensures { IfOk result (LeadsToNewest history.now.versions list held) }
{
    let found = kept_delta(alloc, history, swept, list, held)?;
    if let Some(delta) = found {
        return Ok(delta);
    }
    let delta = history.difference(alloc, list, held)?;
    Ok(delta)
}

// The update that leads from a held version to a later one or to itself, told by the stretches of
// the list if it was swept. The digest of the newest version stands ready.
fn older_answer(
    alloc: Global,
    history: &History,
    swept: &Swept,
    served: &Served<'_>,
    asked: &ListRequest,
    held: u64,
    version: u64,
) -> Result<ListUpdate, OutOfMemory>
    requires served { IsServedList served.now history.now.versions asked.now.name }
    requires within { held ≤ version_count history.now.versions }
    requires version { version ≤ version_count history.now.versions }
    requires swept { AreOf history.now.versions swept.now }
    ensures { IfOk result (λ update. update ≡ update_to history.now.versions (server_naming history.now.versions) asked.now (Some held) version) }
{
    let list = asked.name;
    if version == history.len() {
        let delta = newest_lead(alloc, history, swept, list, held)?;
        return newest_answer(alloc, history, served, asked, held, delta);
    }
    let found = kept_lead(alloc, history, swept, list, held, version)?;
    match found {
        Some(lead) => {
            let Lead { delta, digest } = lead;
            led_answer(alloc, history, served, asked, held, version, delta, digest)
        }
        None => later_answer(alloc, history, served, asked, held, version),
    }
}

// The update for one who holds a version of a list, and is not told to be brought to the newest
// before the list is swept.
fn swept_answer(
    alloc: Global,
    history: &History,
    swept: &mut Swept,
    served: &Served<'_>,
    asked: &ListRequest,
    held: u64,
) -> Result<ListUpdate, OutOfMemory>
    requires served { IsServedList served.now history.now.versions asked.now.name }
    requires within { held ≤ version_count history.now.versions }
    requires swept { AreOf history.now.versions swept.old }
    ensures update { IfOk result (λ update. update ≡ update_to history.now.versions (server_naming history.now.versions) asked.now (Some held)
        (target_version history.now.versions asked.now.name (Some held) asked.now.max_update asked.now.max_database)) }
    ensures swept { OnOk result (AreOf history.now.versions swept.new) }
{
    let list = asked.name;
    let version = older_target(alloc, history, swept, list, Some(held), limits_of(asked))?;
    older_answer(alloc, history, swept, served, asked, held, version)
}

// The update for one who holds a version of a list: what leads from its set to another.
fn partial_answer(
    alloc: Global,
    history: &History,
    swept: &mut Swept,
    served: &Served<'_>,
    asked: &ListRequest,
    held: u64,
) -> Result<ListUpdate, OutOfMemory>
    requires served { IsServedList served.now history.now.versions asked.now.name }
    requires within { held ≤ version_count history.now.versions }
    requires swept { AreOf history.now.versions swept.old }
    ensures update { IfOk result (λ update. update ≡ update_to history.now.versions (server_naming history.now.versions) asked.now (Some held)
        (target_version history.now.versions asked.now.name (Some held) asked.now.max_update asked.now.max_database)) }
    ensures swept { OnOk result (AreOf history.now.versions swept.new) }
{
    let list = asked.name;
    if held == history.len() {
        let token = state_token(history.epoch(), list, held);
        return unchanged_update(alloc, asked, served.digest, token);
    }
    let newest = served.set;
    match newest_delta(alloc, history, list, newest, held, limits_of(asked))? {
        Some(delta) => newest_answer(alloc, history, served, asked, held, delta),
        None => swept_answer(alloc, history, swept, served, asked, held),
    }
}

// The version that the asked state names, where it names one.
fn asked_version(history: &History, asked: &ListRequest) -> Option<u64>
    ensures named { result ≡ version_named history.now.versions (server_naming history.now.versions) asked.now.name asked.now.state }
    ensures within { IfSome result (λ version. version ≤ version_count history.now.versions) }
{
    let state = asked.state.as_slice();
    held_version(history.epoch(), history.len(), asked.name, state)
}

// The update of an asked list that is declared.
fn answer_item(
    alloc: Global,
    history: &History,
    swept: &mut Swept,
    asked: &ListRequest,
) -> Result<ListUpdate, OutOfMemory>
    requires declared { declares history.now.versions asked.now.name ≡ true }
    requires swept { AreOf history.now.versions swept.old }
    ensures update { IfOk result (λ update. update
        ≡ update_for history.now.versions (server_naming history.now.versions) asked.now) }
    ensures swept { OnOk result (AreOf history.now.versions swept.new) }
{
    let Some(served) = served_list(history, asked.name) else {
        unreachable!()
    };
    match asked_version(history, asked) {
        None => whole_answer(alloc, history, swept, &served, asked),
        Some(held) => partial_answer(alloc, history, swept, &served, asked, held),
    }
}

// The update of a further item, whose list is declared: that of an earlier item once more, if it asked for the same.
fn next_answer(
    alloc: Global,
    history: &History,
    swept: &mut Swept,
    updates: &[ListUpdate],
    before: &[ListRequest],
    asked: &ListRequest,
) -> Result<ListUpdate, OutOfMemory>
    requires declared { declares history.now.versions asked.now.name ≡ true }
    requires swept { AreOf history.now.versions swept.old }
    requires updates { updates.now ≡ map (update_for history.now.versions (server_naming history.now.versions))
        (declared_items history.now.versions before.now) }
    ensures update { IfOk result (λ update. update
        ≡ update_for history.now.versions (server_naming history.now.versions) asked.now) }
    ensures swept { OnOk result (AreOf history.now.versions swept.new) }
{
    if let Some(update) = repeated_update(alloc, history, updates, before, asked)? {
        return Ok(update);
    }
    answer_item(alloc, history, swept, asked)
}

/// The updates of those asked lists that are declared, in their order. A list is swept at most once, and what two items ask for
/// alike is made once.
pub(crate) fn answer_items(
    alloc: Global,
    history: &History,
    items: &[ListRequest],
) -> Result<Row<ListUpdate>, OutOfMemory>
    ensures { IfOk result (λ updates. updates ≡ map (update_for history.now.versions (server_naming history.now.versions))
        (declared_items history.now.versions items.now)) }
{
    let mut updates = Row::with_capacity(alloc, items.len())?;
    let mut swept = Swept::new(alloc);
    for (i, asked) in items.iter().enumerate() {
        if !is_declared(history, asked.name) {
            continue;
        }
        let made = updates.as_slice();
        let update = next_answer(alloc, history, &mut swept, made, &items[..i], asked)?;
        updates.push(update)?;
    }
    Ok(updates)
}
