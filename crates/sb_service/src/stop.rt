ghost use Rattle.std.specs.Prelude.{◌≡◌};
ghost use Rattle.sb_service.specs.Stops.{status_of};

/// Why a run of the server ended.
#[derive(Clone, Copy, Debug, PartialEq, Eq)]
pub(crate) enum Stop {
    /// Nothing hindered it.
    Done,
    /// The words are no command line.
    NoCommand,
    /// The journal or the input could not be read.
    ReadFault,
    /// The output could not be written.
    WriteFault,
    /// The body has no reading, or names a list that is not declared.
    BadRequest,
    /// The input has more bytes than a body may have.
    LongInput,
    /// The journal has a bad line.
    BadJournal,
    /// Memory was refused.
    OutOfMemory,
    /// The door gave no further connection, by a fault.
    DoorFault,
}

/// The exit status of a run that ended so.
pub(crate) fn status_of(stop: Stop) -> u8
    ensures { result ≡ status_of stop }
{
    match stop {
        Stop::Done => 0,
        Stop::NoCommand => 1,
        Stop::ReadFault => 2,
        Stop::WriteFault => 3,
        Stop::BadRequest => 5,
        Stop::LongInput => 6,
        Stop::BadJournal => 7,
        Stop::OutOfMemory => 8,
        Stop::DoorFault => 9,
    }
}
