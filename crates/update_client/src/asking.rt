ghost use Rattle.std.specs.Prelude.{◌≡◌, map, IfOk};
ghost use Rattle.update_client.specs.Asked.{asked_list};

use crate::{FetchOptions, HeldList};
use sb_model::{Bytes, OutOfMemory, Row};
use std::alloc::Global;
use update_messages::ListRequest;

// What is asked for one held list.
fn asked(alloc: Global, held: &HeldList, options: &FetchOptions) -> Result<ListRequest, OutOfMemory>
    ensures { IfOk result (λ item. item ≡ asked_list options.now held.now) }
{
    let state = if held.resync {
        Bytes::new(alloc)
    } else {
        held.token.copy()?
    };
    Ok(ListRequest {
        name: held.name,
        state,
        max_update: options.max_update,
        max_database: options.max_database,
        raw: true,
        rice: !options.raw_only,
    })
}

/// What is asked for each held list.
pub(crate) fn asked_lists(
    alloc: Global,
    lists: &[HeldList],
    options: &FetchOptions,
) -> Result<Row<ListRequest>, OutOfMemory>
    ensures { IfOk result (λ items. items ≡ map (asked_list options.now) lists.now) }
{
    let mut items = Row::with_capacity(alloc, lists.len())?;
    for held in lists {
        items.push(asked(alloc, held, options)?)?;
    }
    Ok(items)
}
