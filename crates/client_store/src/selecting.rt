ghost use Rattle.std.specs.Prelude.{◌≡◌, ◌≤◌, length, map, position, IfOk};
ghost use Rattle.std.specs.List.Sorted.{IsStrictlySortedBy};
ghost use Rattle.sb_model.specs.Names.{same_name, name_cmp};
ghost use Rattle.update_client.specs.Held.{Held, most_lists};
ghost use Rattle.client_store.specs.Selected.{with_list_replaced, selected};

use sb_model::{ListName, OutOfMemory};
use std::alloc::Global;
use update_client::{ClientLists, HeldList};

// Whether a list has a name.
fn has_name(held: &HeldList, name: ListName) -> bool
    ensures { result ≡ same_name held.now.name name }
{
    held.name == name
}

// The place of the list of a name.
fn place_of(lists: &[HeldList], name: ListName) -> Option<usize>
    ensures { result ≡ position (λ (held : Held). same_name held.name name) lists.now }
{
    lists.iter().position(|held| has_name(held, name))
}

// Puts a list in the place of that of its name, if there is one.
fn put(lists: &mut Vec<HeldList>, held: HeldList)
    requires { IsStrictlySortedBy name_cmp (map (λ (own : Held). own.name) lists.old.items) }
    ensures { lists.new.items ≡ with_list_replaced held lists.old.items }
{
    if let Some(place) = place_of(lists.as_slice(), held.name) {
        lists[place] = held;
    }
}

/// The lists that a client begins with: for each name the stored list, and where none is stored one
/// of which nothing was installed yet. They stand in the order of their names, and a name that is
/// given twice has one list. The prefixes are moved.
pub fn select(
    alloc: Global,
    store: ClientLists,
    names: &[ListName],
) -> Result<ClientLists, OutOfMemory>
    requires { length names.now ≤ most_lists }
    ensures { IfOk result (λ lists. lists ≡ selected store names.now) }
{
    let mut lists = ClientLists::new(alloc, names)?.into_lists();
    let mut stored = store.into_lists();
    while let Some(held) = stored.pop() {
        put(&mut lists, held);
    }
    Ok(ClientLists::from_lists(lists))
}
