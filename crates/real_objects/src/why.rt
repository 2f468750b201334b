use std::{fmt, io};

/// Why a real object failed: what could not be done, in words that go on from the object's name, and the system's
/// reason, where the system gave one.
#[derive(Clone, Copy, Debug)]
pub struct Why {
    part: &'static str,
    what: &'static str,
    reason: Option<io::Error>,
}

impl Why {
    /// What the system refused.
    pub fn system(what: &'static str, reason: io::Error) -> Why {
        Why {
            part: "",
            what,
            reason: Some(reason),
        }
    }

    /// What the object itself refuses.
    pub fn refusal(what: &'static str) -> Why {
        Why {
            part: "",
            what,
            reason: None,
        }
    }

    /// The same of a part of the object.
    pub(crate) fn of(self, part: &'static str) -> Why {
        Why { part, ..self }
    }

    /// Whether memory was refused.
    pub(crate) fn is_memory(&self) -> bool {
        match self.reason {
            Some(reason) => reason.kind() == io::ErrorKind::OutOfMemory,
            None => false,
        }
    }
}

impl fmt::Display for Why {
    fn fmt<W: fmt::Write>(&self, f: &mut fmt::Formatter<W>) -> fmt::Result {
        f.write_str(self.part)?;
        f.write_str(self.what)?;
        match self.reason {
            Some(reason) => write!(f, ": {reason}"),
            None => Ok(()),
        }
    }
}
