ghost use Rattle.std.specs.Prelude.{◌≡◌};
ghost use Rattle.rice_coding.specs.declared.fault.RiceFault.TheVariants.{OutOfMemory as Refused};

use sb_model::OutOfMemory;
use std::error::Error;
use std::fmt;

/// Why a record stands for no list of numbers. The entries count from 0, the first number.
#[derive(Clone, Copy, Debug, PartialEq, Eq, Hash)]
pub enum RiceFault {
    /// This parameter is not 2 to 28, and something is coded.
    Parameter(u32),
    /// There are this many numbers, which is more than the limit.
    CountLimit(u64),
    /// The bits end before the code of this entry does.
    Ended(u64),
    /// The number of this entry is above 4,294,967,295.
    Range(u64),
    /// This many bits, 8 or more, are left after the last code. At 2 ^ 64 bits and more it is `u64::MAX`.
    LeftOver(u64),
    /// Memory was refused.
    OutOfMemory,
}

impl fmt::Display for RiceFault {
    fn fmt<W: fmt::Write>(&self, f: &mut fmt::Formatter<W>) -> fmt::Result {
        match self {
            RiceFault::Parameter(parameter) => write!(
                f,
                "the Rice parameter {parameter} is not 2 to 28"
            ),
            RiceFault::CountLimit(count) => write!(f, "{count} numbers are more than the limit"),
            RiceFault::Ended(entry) => write!(f, "the bits end in entry {entry}"),
            RiceFault::Range(entry) => write!(f, "entry {entry} is above 4294967295"),
            RiceFault::LeftOver(bits) => write!(f, "{bits} bits are left over"),
            RiceFault::OutOfMemory => write!(f, "out of memory"),
        }
    }
}

impl Error for RiceFault {}

impl From<OutOfMemory> for RiceFault {
    ghost from_gives = { λ _ fault. fault ≡ Refused };

    fn from(_refused: OutOfMemory) -> RiceFault {
        RiceFault::OutOfMemory
    }
}
