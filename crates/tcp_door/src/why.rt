use std::{fmt, io};

/// Why a door cannot be had, or takes no connections: what could not be done, and the system's reason, where it gave one.
#[derive(Clone, Copy, Debug)]
pub struct DoorFault {
    what: &'static str,
    reason: Option<io::Error>,
}

impl DoorFault {
    /// What the system refused.
    pub(crate) fn system(what: &'static str, reason: io::Error) -> DoorFault {
        DoorFault {
            what,
            reason: Some(reason),
        }
    }

    /// What the door itself refuses.
    pub(crate) fn refusal(what: &'static str) -> DoorFault {
        DoorFault { what, reason: None }
    }
}

impl fmt::Display for DoorFault {
    fn fmt<W: fmt::Write>(&self, f: &mut fmt::Formatter<W>) -> fmt::Result {
        f.write_str(self.what)?;
        match self.reason {
            Some(reason) => write!(f, ": {reason}"),
            None => Ok(()),
        }
    }
}
