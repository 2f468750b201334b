ghost use Rattle.std.specs.Prelude.{◌≡◌};
ghost use Rattle.journal_run.specs.Stops.{journal_run_status};

/// Why a run ended.
#[derive(Clone, Copy, Debug, PartialEq, Eq)]
pub(crate) enum Stop {
    /// Nothing hindered it.
    Done,
    /// The words are no command line.
    NoCommand,
    /// The journal or the input could not be read.
    ReadFault,
    /// The output could not be written.
    WriteFault,
    /// The input has more bytes or lines than an input may have.
    LongInput,
    /// The journal has a bad line, does not declare the list, or would pass a limit.
    BadJournal,
    /// Memory was refused.
    OutOfMemory,
    /// A list has some URL.
    Listed,
    /// Some URL has no canonical form, or the input names none.
    Refused,
}

/// The exit status of a run that ended so.
pub(crate) fn status_of(stop: Stop) -> u8
    ensures { result ≡ journal_run_status stop }
{
    match stop {
        Stop::Done => 0,
        Stop::NoCommand => 1,
        Stop::ReadFault => 2,
        Stop::WriteFault => 3,
        Stop::LongInput => 6,
        Stop::BadJournal => 7,
        Stop::OutOfMemory => 8,
        Stop::Listed => 20,
        Stop::Refused => 21,
    }
}
