ghost use Rattle.std.specs.Prelude.{◌≡◌};
ghost use Rattle.prefix_set.specs.declared.fault.ApplyFault.TheVariants.{OutOfMemory as NoMemory};

use sb_model::OutOfMemory;
use std::error::Error;
use std::fmt;

/// Why a change gives no set. The first three are looked at in this order.
#[derive(Clone, Copy, Debug, PartialEq, Eq)]
pub enum ApplyFault {
    /// 1: the first index of the removals that is not below the length of the set, and this length.
    IndexRange { index: u32, len: u32 },
    /// 2: the result has this many different prefixes, more than `MAX_PREFIXES`.
    TooMany(u64),
    /// 3: the different prefixes of the result have this many bytes in all, more than `MAX_BYTES`.
    TooLarge(u64),
    /// Memory was refused.
    OutOfMemory,
}

impl fmt::Display for ApplyFault {
    fn fmt<W: fmt::Write>(&self, f: &mut fmt::Formatter<W>) -> fmt::Result {
        match self {
            ApplyFault::IndexRange { index, len } => {
                write!(
                    f,
                    "index {index} is out of range, the set has {len} prefixes"
                )
            }
            ApplyFault::TooMany(count) => write!(f, "{count} prefixes are too many"),
            ApplyFault::TooLarge(bytes) => write!(f, "{bytes} bytes of prefixes are too many"),
            ApplyFault::OutOfMemory => f.write_str("out of memory"),
        }
    }
}

impl Error for ApplyFault {}

impl From<OutOfMemory> for ApplyFault {
    ghost from_gives = { λ _ fault. fault ≡ NoMemory };

    fn from(_refused: OutOfMemory) -> ApplyFault {
        ApplyFault::OutOfMemory
    }
}
