ghost use Rattle.std.specs.Prelude.{◌≡◌, ◌++◌, [], ◌∷◌, ◌^◌, ◌<◌, if◌then◌else◌, length, OnOk, OnErr};

use sb_model::OutOfMemory;
use sb_outside::{Gate, Point};
use snapshot_publish::Publisher;
use std::alloc::Global;
use std::sync::Wait;
use update_client::ClientLists;

// Publishes a copy of the lists, and passes the point after their publication.
fn publish<R: Wait, G: Gate>(
    rt: &R,
    alloc: Global,
    lists: &ClientLists,
    publisher: &mut Publisher,
    gate: &G,
) -> Result<(), OutOfMemory>
    requires { length publisher.old.list < 2 ^ 64 }
    ensures published { OnOk result (publisher.new.list ≡ publisher.old.list ++ lists.now ∷ []) }
    ensures unpublished { OnErr result (publisher.new.list ≡ publisher.old.list) }
    ensures boxes { publisher.new.boxes ≡ publisher.old.boxes }
{
    let copy = lists.copy(alloc)?;
    let number = publisher.publish(rt, copy)?;
    gate.pass(Point::Published(number));
    Ok(())
}

/// Publishes the lists after a round that installed one.
pub(crate) fn publish_installed<R: Wait, G: Gate>(
    rt: &R,
    alloc: Global,
    installed: bool,
    lists: &ClientLists,
    publisher: &mut Publisher,
    gate: &G,
) -> Result<(), OutOfMemory>
    requires { length publisher.old.list < 2 ^ 64 }
    ensures published { OnOk result (publisher.new.list
        ≡ publisher.old.list ++ (if installed then lists.now ∷ [] else [])) }
    ensures unpublished { OnErr result (publisher.new.list ≡ publisher.old.list) }
    ensures boxes { publisher.new.boxes ≡ publisher.old.boxes }
{
    if installed {
        return publish(rt, alloc, lists, publisher, gate);
    }
    Ok(())
}
