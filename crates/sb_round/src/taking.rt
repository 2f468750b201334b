ghost use Rattle.std.specs.Prelude.{◌≡◌, ◌+◌, ◌<◌, ◌≤◌, ◌++◌, [], ◌∷◌, length, vec_len, vec_capacity, IfOk, OnOk, OnErr};
ghost use Rattle.update_client.specs.Step.{after_updates, results_of};
ghost use Rattle.sb_round.specs.Round.{named_results};

use crate::rounds::Taken;
use sb_model::{OutOfMemory, Row};
use std::alloc::Global;
use update_client::{ClientLists, ListResult};
use update_messages::{FetchResponse, ListUpdate};

// Appends where there is room.
fn push_within(taken: &mut Vec<Taken>, update: Taken)
    requires { vec_len taken.old < vec_capacity taken.old }
    ensures items { taken.new.items ≡ taken.old.items ++ update ∷ [] }
    ensures len { vec_len taken.new ≡ vec_len taken.old + 1 }
    ensures capacity { vec_capacity taken.old ≤ vec_capacity taken.new }
{
    taken.push(update).unwrap();
}

// Appends the name of each update with its result, in order. There is room for them all.
fn push_named(taken: &mut Vec<Taken>, updates: &[ListUpdate], results: Vec<ListResult>)
    requires each { vec_len results ≡ length updates.now }
    requires room { vec_len taken.old + length updates.now ≤ vec_capacity taken.old }
    ensures { taken.new.items ≡ taken.old.items ++ named_results updates.now results.items }
{
    let mut waiting = results.into_iter();
    for update in updates {
        let name = update.name;
        let result = waiting.next().unwrap();
        push_within(taken, Taken { name, result });
    }
}

/// Takes the updates of a message one by one. After an `Err` all lists are as before.
pub(crate) fn take_message(
    alloc: Global,
    lists: &mut ClientLists,
    message: &FetchResponse,
) -> Result<Row<Taken>, OutOfMemory>
    ensures lists { OnOk result (lists.new ≡ after_updates lists.old message.now.items) }
    ensures taken { IfOk result (λ taken.
        taken ≡ named_results message.now.items (results_of lists.old message.now.items)) }
    ensures err { OnErr result (lists.new ≡ lists.old) }
{
    let mut taken = Vec::with_capacity(alloc, message.items.len())?;
    let results = lists.take(alloc, message)?;
    push_named(&mut taken, message.items.as_slice(), results.into_vec());
    Ok(Row::from_vec(taken))
}
