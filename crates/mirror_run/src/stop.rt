ghost use Rattle.std.specs.Prelude.{◌≡◌};
ghost use Rattle.mirror_run.specs.SoFar.{cause_of};

use update_run::RunStop;

/// Why a run of a mirror ends before its end.
#[derive(Clone, Copy, Debug, PartialEq, Eq)]
pub enum MirrorStop {
    /// The output failed.
    WriteFault,
    /// The keeper failed.
    KeepFault,
    /// Memory was refused for a round, for a place, or for the line of a connection.
    OutOfMemory,
    /// The door gave no further connection, by a fault.
    DoorFault,
}

/// Why a mirror ends if its round stopped so.
pub(crate) fn stop_of(stop: RunStop) -> MirrorStop
    ensures { result ≡ cause_of stop }
{
    match stop {
        RunStop::WriteFault => MirrorStop::WriteFault,
        RunStop::KeepFault => MirrorStop::KeepFault,
        RunStop::OutOfMemory => MirrorStop::OutOfMemory,
    }
}
