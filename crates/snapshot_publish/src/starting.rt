ghost use Rattle.std.specs.Prelude.{◌≡◌, ◌≤◌, [], ◌∷◌, ℕ, false, length, slice_get, Some, IfOk};
ghost use Rattle.snapshot_publish.specs.Publishing.{Seated};
ghost use Rattle.snapshot_publish.specs.Kept.{AreEnds, IsFirst};
ghost use Rattle.snapshot_publish.specs.Rule.{publishing};

use crate::ends::End;
use crate::kept::of;
use crate::{Publisher, Seat, Snapshot};
use sb_model::{OutOfMemory, Row};
use std::alloc::Global;
use std::sync::Wait;
use update_client::ClientLists;

// A seat with its box, at which a first publication was delivered.
fn seat_at<R: Wait>(
    rt: &R,
    alloc: Global,
    place: usize,
    first: &Snapshot,
) -> Result<(End, Seat), OutOfMemory>
    requires { first.now.number ≡ 0 }
    ensures end { IfOk result (λ both. both.0.view ≡ publishing (first.now.lists ∷ [])) }
    ensures seat { IfOk result (λ both. both.1 ≡ record { place = place; box = both.0.box; list = first.now.lists ∷ []; looked = false; failed = false }) }
{
    let mut end = End::new(alloc)?;
    let held = first.copy()?;
    end.deliver(rt, first.copy()?);
    let seat = Seat::new(end.seat_end()?, place, held);
    Ok((end, seat))
}

// So many seats with their boxes, at which a first publication was delivered.
fn seats_of<R: Wait>(
    rt: &R,
    alloc: Global,
    count: usize,
    first: &Snapshot,
) -> Result<(Row<End>, Row<Seat>), OutOfMemory>
    requires { first.now.number ≡ 0 }
    ensures { IfOk result (λ made. AreEnds count first.now.lists made.0 made.1) }
{
    let mut ends = Row::with_capacity(alloc, count)?;
    let mut seats = Row::with_capacity(alloc, count)?;
    for place in 0..count {
        let (end, seat) = seat_at(rt, alloc, place, first)?;
        ends.push(end)?;
        seats.push(seat)?;
    }
    Ok((ends, seats))
}

/// Begins to publish for so many seats. These lists are publication 0, which each seat knows.
pub fn start<R: Wait>(
    rt: &R,
    alloc: Global,
    lists: ClientLists,
    seats: u32,
) -> Result<(Publisher, Row<Seat>), OutOfMemory>
    requires { (1 ≤ seats) × (seats ≤ 16) }
    ensures list { IfOk result (λ made. made.0.list ≡ lists ∷ []) }
    ensures whole { IfOk result (λ made. made.0.failed ≡ false) }
    ensures count { IfOk result (λ made. length made.1 ≡ seats) }
    ensures seats { IfOk result (λ made. (place : ℕ) (seat : Seated) → slice_get made.1 place ≡ Some seat → IsFirst made.0.boxes lists place seat) }
{
    let first = of(alloc, 0, lists)?;
    let (ends, all) = seats_of(rt, alloc, seats as usize, &first)?;
    let publisher = Publisher::with(alloc, ends, first)?;
    Ok((publisher, all))
}
