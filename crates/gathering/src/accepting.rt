ghost use Rattle.std.specs.Prelude.{◌≡◌};
ghost use Rattle.gathering.specs.Accepting.{meaning, accept_fault_of};

/// What an error of `accept` says.
#[derive(Clone, Copy, Debug, PartialEq, Eq, Hash)]
pub enum AcceptFault {
    /// No connection waits.
    NoneWaits,
    /// One connection was lost before it was taken. The next may be taken.
    OfOne,
    /// There is no room for a connection now: no descriptor, or no memory.
    NoRoom,
    /// The door takes none.
    OfTheDoor,
}

/// EAGAIN.
const NONE_WAITS: u32 = 11;

/// EPERM, EINTR, ENONET, EPROTO, ENOPROTOOPT, EOPNOTSUPP, ENETDOWN, ENETUNREACH, ECONNABORTED, ECONNRESET, ETIMEDOUT, EHOSTDOWN
/// and EHOSTUNREACH.
const OF_ONE_CONNECTION: [u32; 13] = [1, 4, 64, 71, 92, 95, 100, 101, 103, 104, 110, 112, 113];

/// ENOMEM, ENFILE, EMFILE and ENOBUFS.
const WANT_OF_ROOM: [u32; 4] = [12, 23, 24, 105];

/// What the error of a number says.
fn fault_of(number: u32) -> AcceptFault
    ensures { result ≡ meaning number }
{
    if number == NONE_WAITS {
        return AcceptFault::NoneWaits;
    }
    if OF_ONE_CONNECTION.contains(&number) {
        return AcceptFault::OfOne;
    }
    if WANT_OF_ROOM.contains(&number) {
        return AcceptFault::NoRoom;
    }
    AcceptFault::OfTheDoor
}

/// What an error of `accept` says, by its number on Linux (accept(2), errno(3)). An error without one is the door's.
pub fn accept_fault(number: Option<u32>) -> AcceptFault
    ensures { result ≡ accept_fault_of number }
{
    match number {
        Some(number) => fault_of(number),
        None => AcceptFault::OfTheDoor,
    }
}
