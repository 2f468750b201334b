ghost use Rattle.std.specs.Prelude.{◌≡◌, ◌≢◌, ℕ, ◌≤◌, length, vec_len, map, All, IfOk, OnOk, OnErr};
ghost use Rattle.std.specs.List.Sorted.{IsStrictlySortedBy};
ghost use Rattle.std.specs.Option.{option_copied};
ghost use Rattle.rice_coding.specs.declared.fault.RiceFault.TheVariants as rice;
ghost use Rattle.sb_model.specs.Names.{name_cmp};
ghost use Rattle.update_client.specs.Held.{Held, IsHeldList, AreHeldLists, most_lists, nothing_held, nothing_held_of, tokens_of};
ghost use Rattle.update_client.specs.Asked.{request_asked};
ghost use Rattle.update_client.specs.Step.{list_named, after_updates, results_of};

use crate::applying::{apply_updates, has_name};
use crate::asking::asked_lists;
use crate::change::{no_changes, put_changes};
use crate::ordering::ordered;
use crate::{FetchOptions, HeldList, ListResult, UpdateFault};
use prefix_set::PrefixSet;
use rice_coding::{RiceFault, decoding_goes_by_the_record};
use sb_model::{Bytes, ListName, OutOfMemory, Row, Text};
use std::alloc::Global;
use std::marker::Model;
use update_messages::{ClientInfo, FetchRequest, FetchResponse};

/// At most eight held lists, in the order of their names. Contracts see them as a list of `Held`.
#[derive(Debug, Drop)]
pub struct ClientLists {
    lists: Vec<HeldList>,
}

impl Model for ClientLists {
    ghost use Rattle.std.specs.Prelude.{List};
    ghost use Rattle.update_client.specs.Held.{Held, AreHeldLists};

    ghost Value = { List Held };

    ghost view = { λ c. c.lists.items };

    ghost invariant = { λ c. AreHeldLists c.lists.items };
}

// The lists of these names, of which nothing was installed yet.
fn empty_lists(alloc: Global, names: &[ListName]) -> Result<Vec<HeldList>, OutOfMemory>
    ensures { IfOk result (λ lists. lists.items ≡ map nothing_held names.now) }
{
    let mut lists = Vec::with_capacity(alloc, names.len())?;
    for name in names {
        lists.push(HeldList {
            name: *name,
            token: Bytes::new(alloc),
            set: PrefixSet::empty(alloc),
            resync: false,
        })?;
    }
    Ok(lists)
}

// The same lists once more.
fn copies(alloc: Global, lists: &[HeldList]) -> Result<Vec<HeldList>, OutOfMemory>
    ensures { IfOk result (λ copies. copies.items ≡ lists.now) }
{
    let mut copies = Vec::with_capacity(alloc, lists.len())?;
    for held in lists {
        let token = held.token.copy()?;
        let set = held.set.copy(alloc)?;
        copies.push(HeldList {
            name: held.name,
            token,
            set,
            resync: held.resync,
        })?;
    }
    Ok(copies)
}

// Each token is short, as each list keeps to.
fn know_tokens(lists: &[HeldList])
    ensures { All IsHeldList lists.now }
{
    for held in lists {
        // A list that is read is known to keep to it.
        let _ = &held.token;
    }
}

impl ClientLists {
    /// The lists of these names, of which nothing was installed yet, in the order of the names. A name
    /// that is given twice has one list.
    pub fn new(alloc: Global, names: &[ListName]) -> Result<ClientLists, OutOfMemory>
        requires { length names.now ≤ most_lists }
        ensures { IfOk result (λ lists. lists ≡ nothing_held_of names.now) }
    {
        let names = ordered(alloc, names)?;
        let lists = empty_lists(alloc, &names)?;
        Ok(ClientLists { lists })
    }

    /// The client's lists that these are, which are moved and not copied.
    pub fn from_lists(lists: Vec<HeldList>) -> ClientLists
        requires few { vec_len lists ≤ most_lists }
        requires rising { IsStrictlySortedBy name_cmp
            (map (λ (held : Held). held.name) lists.items) }
        ensures { result ≡ lists.items }
    {
        ClientLists { lists }
    }

    /// The lists, in the order of their names, moved and not copied.
    pub fn into_lists(self) -> Vec<HeldList>
        ensures value { result.items ≡ self }

        // What the lists always keep to.
        ensures few { vec_len result ≤ most_lists }
        ensures rising { IsStrictlySortedBy name_cmp
            (map (λ (held : Held). held.name) result.items) }
        ensures tokens { All IsHeldList result.items }
    {
        let ClientLists { lists } = self;
        know_tokens(&lists);
        lists
    }

    /// The lists, in the order of their names.
    pub fn lists(&self) -> &[HeldList]
        ensures value { result.now ≡ self.now }

        // What the lists always keep to.
        ensures few { length self.now ≤ most_lists }
        ensures rising { IsStrictlySortedBy name_cmp (map (λ (held : Held). held.name) self.now) }
        ensures tokens { All IsHeldList self.now }
    {
        know_tokens(&self.lists);
        self.lists.as_slice()
    }

    /// The list of a name.
    pub fn find(&self, name: ListName) -> Option<&HeldList>
        ensures { option_copied result ≡ list_named name self.now }
    {
        self.lists.iter().find(|held| has_name(held, name))
    }

    /// The tokens that are not empty, in the order of the lists.
    pub fn states(&self, alloc: Global) -> Result<Row<Bytes>, OutOfMemory>
        ensures { IfOk result (λ states. states ≡ tokens_of self.now) }
    {
        let mut states = Row::new(alloc);
        for held in &self.lists {
            if !held.token.is_empty() {
                states.push(held.token.copy()?)?;
            }
        }
        Ok(states)
    }

    /// The same lists once more.
    pub fn copy(&self, alloc: Global) -> Result<ClientLists, OutOfMemory>
        ensures { IfOk result (λ copy. copy ≡ self.now) }
    {
        let lists = copies(alloc, &self.lists)?;
        Ok(ClientLists { lists })
    }

    /// The request for updates of all lists.
    pub fn request(
        &self,
        alloc: Global,
        options: &FetchOptions,
    ) -> Result<FetchRequest, OutOfMemory>
        ensures { IfOk result (λ request. request ≡ request_asked self.now options.now) }
    {
        let id = Text::from_str(alloc, "sblist")?;
        let version = Text::from_str(alloc, "1")?;
        let items = asked_lists(alloc, &self.lists, options)?;
        Ok(FetchRequest {
            client: ClientInfo { id, version },
            items,
        })
    }

    /// Takes the updates of an answer one by one, and tells what became of each. After an `Err` all
    /// lists are as before.
    pub fn take(
        &mut self,
        alloc: Global,
        response: &FetchResponse,
    ) -> Result<Row<ListResult>, OutOfMemory>
        ensures lists { OnOk result (self.new ≡ after_updates self.old response.now.items) }
        ensures results { IfOk result
            (λ results. results ≡ results_of self.old response.now.items) }
        ensures err { OnErr result (self.new ≡ self.old) }

        // Want of memory is no cause of a refusal.
        ensures no_memory { IfOk result
            (All (λ outcome. outcome ≢ ListResult.Refused (UpdateFault.Rice rice.OutOfMemory))) }
    {
        decoding_goes_by_the_record();
        let mut changes = no_changes(alloc, &self.lists)?;
        let results = apply_updates(alloc, &self.lists, &mut changes, response.items.as_slice())?;
        put_changes(&mut self.lists, changes);
        Ok(results)
    }
}
