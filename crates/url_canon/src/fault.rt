use sb_model::OutOfMemory;
use std::alloc::{AllocError, AllocFailed};
use std::error::Error;
use std::fmt;

/// Why a text has no canonical URL.
#[derive(Clone, Copy, Debug, PartialEq, Eq, Hash)]
pub enum UrlFault {
    /// Nothing is left of the text without its fragment, its line ends and the spaces around it.
    Empty,
    /// The URL names no host.
    NoHost,
    /// The text has this many bytes, more than 8,192.
    TooLong(usize),
    /// Memory was refused.
    OutOfMemory,
}

impl fmt::Display for UrlFault {
    fn fmt<W: fmt::Write>(&self, f: &mut fmt::Formatter<W>) -> fmt::Result {
        match self {
            UrlFault::Empty => f.write_str("empty URL"),
            UrlFault::NoHost => f.write_str("no host"),
            UrlFault::TooLong(len) => write!(f, "a URL of {len} bytes"),
            UrlFault::OutOfMemory => f.write_str("out of memory"),
        }
    }
}

impl Error for UrlFault {}

impl From<OutOfMemory> for UrlFault {
    ghost use Rattle.std.specs.Prelude.{◌≡◌};
    ghost use Rattle.url_canon.specs.declared.fault.UrlFault.TheVariants.{OutOfMemory};

    ghost from_gives = { λ _ fault. fault ≡ OutOfMemory };

    fn from(_refused: OutOfMemory) -> UrlFault {
        UrlFault::OutOfMemory
    }
}
