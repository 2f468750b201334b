use gathering::counted;
use std::time::{Instant, SystemTime, UNIX_EPOCH};
use std::{io, time};

/// How many nanoseconds a millisecond has.
const MILLI: u64 = 1_000_000;

/// The clock of a door: what counts of each stretch between two looks at the system's clock.
#[derive(Clone, Copy, Debug)]
pub(crate) struct DoorTime {
    // what counts of the time that passed, and all of it, in nanoseconds
    counted: u64,
    passed: u64,
    seen: Option<Instant>,
}

impl DoorTime {
    pub(crate) fn new() -> DoorTime {
        DoorTime {
            counted: 0,
            passed: 0,
            seen: None,
        }
    }

    /// Looks at the system's clock. Where that cannot be read, this one stands.
    pub(crate) fn look(&mut self, rt: &impl time::Clock) {
        let Ok(now) = Instant::now(rt) else {
            return;
        };
        if let Some(seen) = self.seen {
            let nanos = now.saturating_duration_since(seen).as_nanos();
            let stretch = u64::try_from(nanos).unwrap_or(u64::MAX);
            self.counted = self.counted.saturating_add(counted(stretch));
            self.passed = self.passed.saturating_add(stretch);
        }
        self.seen = Some(now);
    }

    /// What it said last, in milliseconds.
    pub(crate) fn now(&self) -> u64 {
        self.counted / MILLI
    }

    /// All the time that passed until the last look, in nanoseconds.
    pub(crate) fn passed(&self) -> u64 {
        self.passed
    }
}

/// How many milliseconds began in so many nanoseconds, and one at least.
pub(crate) fn begun_millis(nanos: u64) -> u64 {
    (nanos / MILLI).saturating_add(1)
}

/// What the system's clock says, in milliseconds since 1970.
pub(crate) fn system_millis(rt: &impl time::Clock) -> io::Result<u64> {
    let now = SystemTime::now(rt)?;
    let unreadable = io::Error::from(io::ErrorKind::Unsupported);
    let since = now.duration_since(UNIX_EPOCH).map_err(|_| unreadable)?;
    u64::try_from(since.as_millis()).map_err(|_| unreadable)
}
