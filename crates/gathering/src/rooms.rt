ghost use Rattle.std.specs.Prelude.{◌≡◌, max};
ghost use Rattle.gathering.specs.Rooms.{next_most, most_after, risen_room, whole_room, whole_minutes};

use crate::DoorLimits;

/// How many milliseconds a minute has.
const MINUTE: u64 = 60_000;

/// How many connections may be open now. The moment is that of the door's clock, in milliseconds.
#[derive(Clone, Copy, Debug, PartialEq, Eq, Hash)]
pub struct HouseRoom {
    /// How many may be open.
    pub most: usize,
    /// Since when.
    pub since: u64,
}

/// Room for as many connections as the limits say.
pub fn whole_room(limits: &DoorLimits) -> HouseRoom
    ensures { result ≡ whole_room limits.now }
{
    HouseRoom {
        most: limits.connections,
        since: 0,
    }
}

/// The room once the system had none for a further connection at this moment, and so many are left after one gave way.
pub fn after_no_room(left: usize, now: u64) -> HouseRoom
    ensures { result ≡ record { most = max left 1; since = now } }
{
    HouseRoom {
        most: left.max(1),
        since: now,
    }
}

/// How many may be open after one more minute: a quarter more, and one at least, up to the limit.
fn next_most(limits: &DoorLimits, most: usize) -> usize
    ensures { result ≡ next_most limits.now most }
{
    let more = (most / 4).max(1);
    most.saturating_add(more).min(limits.connections)
}

/// How many may be open after so many minutes.
#[tactic(auto, using(crate::proofs::RisingRoom::most_at_limit, crate::proofs::RisingRoom::one_minute))]
fn most_after(limits: &DoorLimits, minutes: u64, most: usize) -> usize
    ensures { result ≡ most_after minutes limits.now most }
{
    let mut reached = most;
    for minute in 0..minutes {
        if reached == limits.connections {
            return reached;
        }
        reached = next_most(limits, reached);
    }
    reached
}

/// The room at a later moment: it rises with each whole minute in which the system had room.
pub fn risen(limits: &DoorLimits, room: HouseRoom, now: u64) -> HouseRoom
    ensures { result ≡ risen_room limits.now room now }
{
    let minutes = now.saturating_sub(room.since) / MINUTE;
    HouseRoom {
        most: most_after(limits, minutes, room.most),
        since: room.since + minutes * MINUTE,
    }
}
