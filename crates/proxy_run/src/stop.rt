/// Why a run of a proxy ends before its end.
#[derive(Clone, Copy, Debug, PartialEq, Eq)]
pub enum ProxyStop {
    /// The output failed.
    WriteFault,
    /// The keeper failed.
    KeepFault,
    /// Memory was refused for a round, or for a line.
    OutOfMemory,
    /// The door gave no further connection, by a fault.
    DoorFault,
}
