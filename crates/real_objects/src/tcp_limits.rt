ghost use Rattle.std.specs.Prelude.{◌<◌, IfSome};
ghost use Rattle.std.specs.Duration.{as_nanos};

use std::time::{Duration, Instant};
use std::{io, time};

/// How long a connection may take. Times are in milliseconds. A peer that is silent past a limit is a fault.
#[derive(Clone, Copy, Debug, PartialEq, Eq, Hash)]
pub struct TcpLimits {
    /// The longest time of one call: of connecting, of a read, and of a write.
    pub call: u64,
    /// The longest time of a whole connection.
    pub connection: u64,
}

impl TcpLimits {
    /// 30 seconds for a call, 600 for a connection.
    pub const STANDARD: TcpLimits = TcpLimits {
        call: 30_000,
        connection: 600_000,
    };
}

impl Default for TcpLimits {
    fn default() -> TcpLimits {
        TcpLimits::STANDARD
    }
}

/// When a connection began, and how long it and each of its calls may take.
#[derive(Clone, Copy, Debug)]
pub struct Term {
    begun: Instant,
    limits: TcpLimits,
}

impl Term {
    /// One that begins now.
    pub fn from_now(rt: &impl time::Clock, limits: TcpLimits) -> io::Result<Term> {
        Ok(Term {
            begun: Instant::now(rt)?,
            limits,
        })
    }

    /// How long a call may take: what is left of the connection's time, and at most the limit of a call. `None` where
    /// nothing is left, or where the clock cannot be read.
    pub fn left(&self, rt: &impl time::Clock) -> Option<Duration>
        ensures { IfSome result (λ left. 0 < as_nanos left) }
    {
        let passed = self.begun.elapsed(rt).ok()?;
        let whole = Duration::from_millis(self.limits.connection);
        let left = whole.checked_sub(passed)?;
        let shortest = left.min(Duration::from_millis(self.limits.call));
        if shortest.is_zero() {
            return None;
        }
        Some(shortest)
    }
}
