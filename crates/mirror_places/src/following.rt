ghost use Rattle.std.specs.Prelude.{◌≡◌, ◌≢◌, All, IfOk, OnErr, OnOk};
ghost use Rattle.rice_coding.specs.declared.fault.RiceFault.TheVariants as rice;
ghost use Rattle.update_client.specs.Step.{after_updates, results_of};
ghost use Rattle.mirror_places.specs.Replica.{Follows};

use crate::Mirror;
use crate::laws::mirrors_are_followed;
use sb_model::{OutOfMemory, Row};
use std::alloc::Global;
use update_client::{ClientLists, ListResult, UpdateFault};
use update_messages::FetchResponse;

/// Takes what a mirror answered, as `ClientLists::take` does. Whoever holds this mirror's lists holds its lists afterwards. After an `Err` all
/// lists are as before.
pub fn follow(
    alloc: Global,
    mirror: &Mirror,
    lists: &mut ClientLists,
    response: &FetchResponse,
) -> Result<Row<ListResult>, OutOfMemory>
    ensures lists { OnOk result (lists.new ≡ after_updates lists.old response.now.items) }
    ensures results { IfOk result
        (λ results. results ≡ results_of lists.old response.now.items) }
    ensures err { OnErr result (lists.new ≡ lists.old) }

    // Want of memory is no cause of a refusal.
    ensures no_memory { IfOk result
        (All (λ outcome. outcome ≢ ListResult.Refused (UpdateFault.Rice rice.OutOfMemory))) }

    // Whoever held this mirror's lists holds its lists.
    ensures follows { OnOk result (Follows mirror.now lists.old lists.new response.now.items) }
{
    mirrors_are_followed();
    // looked at for the prover: the names of the lists rise, and the epoch is a number of 64 bits
    let _ = lists.lists();
    let _ = mirror.epoch();
    lists.take(alloc, response)
}
