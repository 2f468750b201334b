ghost use Rattle.std.specs.Prelude.{◌≡◌, ◌*◌, ◌+◌, ◌/◌, ◌%◌, ◌<◌, ◌≤◌};

use std::error::Error;
use std::fmt;
use std::marker::Model;

/// A point in time, in milliseconds since 1970.
#[derive(Clone, Copy, Debug, PartialEq, Eq, PartialOrd, Ord, Hash)]
pub struct Moment(pub u64);

/// A length of time, in whole nanoseconds: at most 315,576,000,000 seconds
/// (`google.protobuf.Duration`, without the negative ones). Contracts see it as its nanoseconds.
#[derive(Clone, Copy, Debug, PartialEq, Eq, PartialOrd, Ord, Hash)]
pub struct Duration {
    seconds: u64,
    nanos: u32,
}

impl Model for Duration {
    ghost use Rattle.std.specs.Prelude.{ℕ, ◌*◌, ◌+◌, ◌/◌, ◌%◌, ◌<◌, ◌≤◌};

    ghost Value = { ℕ };

    ghost view = { λ d. d.seconds * 1000000000 + d.nanos };

    ghost invariant = { λ d. (d.nanos < 1000000000) × (d.seconds * 1000000000 + d.nanos ≤ 315576000000000000000) };

    ghost inverse = { λ n. record { seconds = n / 1000000000; nanos = n % 1000000000 } };
}

impl Duration {
    /// No time at all.
    pub const ZERO: Duration = Duration {
        seconds: 0,
        nanos: 0,
    };

    /// So many seconds.
    pub fn from_seconds(seconds: u32) -> Duration
        ensures { result ≡ seconds * 1_000_000_000 }
    {
        Duration {
            seconds: u64::from(seconds),
            nanos: 0,
        }
    }

    /// So many seconds, and nanoseconds of a further one.
    pub fn new(seconds: u64, nanos: u32) -> Duration
        requires below_a_second { nanos < 1_000_000_000 }
        requires in_range { seconds * 1_000_000_000 + nanos ≤ 315_576_000_000_000_000_000 }
        ensures { result ≡ seconds * 1_000_000_000 + nanos }
    {
        Duration { seconds, nanos }
    }

    /// The whole seconds.
    pub fn seconds(self) -> u64
        ensures value { result ≡ self / 1_000_000_000 }
        ensures limit { result ≤ 315_576_000_000 }
        ensures in_range { self ≤ 315_576_000_000_000_000_000 }
    {
        self.seconds
    }

    /// The nanoseconds of a further second.
    pub fn nanos(self) -> u32
        ensures value { result ≡ self % 1_000_000_000 }
        ensures below { result < 1_000_000_000 }
    {
        self.nanos
    }
}

/// Why a text is no duration.
#[derive(Clone, Copy, Debug, PartialEq, Eq, Hash)]
pub enum DurationFault {
    /// 1: the text is not digits, then nothing or a point and one to nine digits, then `s`.
    Shape = 1,
    /// 2: it is above 315,576,000,000 seconds.
    Range,
}

impl fmt::Display for DurationFault {
    fn fmt<W: fmt::Write>(&self, f: &mut fmt::Formatter<W>) -> fmt::Result {
        f.write_str(match self {
            DurationFault::Shape => "not a number of seconds that ends with an s",
            DurationFault::Range => "more than 315576000000 seconds",
        })
    }
}

impl Error for DurationFault {}
