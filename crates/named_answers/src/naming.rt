ghost use Rattle.std.specs.Prelude.{◌≡◌, length, IfOk};
ghost use Rattle.named_answers.specs.Answers.{under_name};
ghost use Rattle.named_answers.specs.Naming.{under_names};

use sb_model::{ListName, OutOfMemory, Row};
use std::alloc::Global;
use update_messages::ListUpdate;

// The same update under another name.
fn under_name(name: ListName, update: ListUpdate) -> ListUpdate
    ensures { result ≡ under_name name update }
{
    let ListUpdate {
        name: _,
        full,
        base,
        additions,
        removals,
        new_state,
        checksum,
    } = update;
    ListUpdate {
        name,
        full,
        base,
        additions,
        removals,
        new_state,
        checksum,
    }
}

/// Updates one by one under these names.
pub(crate) fn under_names(
    alloc: Global,
    names: &[ListName],
    updates: Row<ListUpdate>,
) -> Result<Row<ListUpdate>, OutOfMemory>
    requires { length updates ≡ length names.now }
    ensures { IfOk result (λ named. named ≡ under_names names.now updates) }
{
    let mut named = Row::with_capacity(alloc, names.len())?;
    let mut waiting = updates.into_vec().into_iter();
    for name in names {
        let update = waiting.next().unwrap();
        named.push(under_name(*name, update))?;
    }
    Ok(named)
}
