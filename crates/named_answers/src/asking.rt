ghost use Rattle.std.specs.Prelude.{◌≡◌, IfOk};
ghost use Rattle.std.specs.List.{filter_map};
ghost use Rattle.named_answers.specs.Answers.{asked_of_list};
ghost use Rattle.named_answers.specs.Naming.{item_of_answering, name_if_answered};

use answering_lists::answering_list;
use list_versions::History;
use sb_model::{ListName, OutOfMemory, Row};
use std::alloc::Global;
use update_messages::ListRequest;

// The same item of another list.
fn asked_of_list(list: ListName, asked: &ListRequest) -> Result<ListRequest, OutOfMemory>
    ensures { IfOk result (λ copy. copy ≡ asked_of_list list asked.now) }
{
    Ok(ListRequest {
        name: list,
        state: asked.state.copy()?,
        max_update: asked.max_update,
        max_database: asked.max_database,
        raw: asked.raw,
        rice: asked.rice,
    })
}

// The same item of the list that answers for it. `None` exactly if no list does.
fn item_of_answering(
    history: &History,
    asked: &ListRequest,
) -> Result<Option<ListRequest>, OutOfMemory>
    ensures { IfOk result (λ found. found ≡ item_of_answering history.now.versions asked.now) }
{
    match answering_list(history, asked.name) {
        Some(list) => Ok(Some(asked_of_list(list, asked)?)),
        None => Ok(None),
    }
}

/// The items for which lists answer, in order, each of the list that answers for it.
pub(crate) fn items_of_answering(
    alloc: Global,
    history: &History,
    items: &[ListRequest],
) -> Result<Row<ListRequest>, OutOfMemory>
    ensures { IfOk result (λ found. found ≡ filter_map (item_of_answering history.now.versions) items.now) }
{
    let mut found = Row::with_capacity(alloc, items.len())?;
    for asked in items {
        let Some(item) = item_of_answering(history, asked)? else {
            continue;
        };
        found.push(item)?;
    }
    Ok(found)
}

// The name of an item. `None` exactly if no list answers for it.
fn name_if_answered(history: &History, asked: &ListRequest) -> Option<ListName>
    ensures { result ≡ name_if_answered history.now.versions asked.now }
{
    match answering_list(history, asked.name) {
        Some(_) => Some(asked.name),
        None => None,
    }
}

/// The names of the items for which lists answer, in order.
pub(crate) fn answered_items(
    alloc: Global,
    history: &History,
    items: &[ListRequest],
) -> Result<Row<ListName>, OutOfMemory>
    ensures { IfOk result (λ names. names ≡ filter_map (name_if_answered history.now.versions) items.now) }
{
    let mut names = Row::with_capacity(alloc, items.len())?;
    for asked in items {
        let Some(name) = name_if_answered(history, asked) else {
            continue;
        };
        names.push(name)?;
    }
    Ok(names)
}
