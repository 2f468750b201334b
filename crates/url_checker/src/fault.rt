use sb_model::OutOfMemory;
use std::error::Error;
use std::fmt;
use url_canon::UrlFault;

/// Why a URL is not looked up.
#[derive(Clone, Copy, Debug, PartialEq, Eq)]
pub enum CheckFault {
    /// 1: it has no canonical form. Want of memory is no such fault: `UrlFault::OutOfMemory` never stands in it.
    Url(UrlFault),
    /// Memory was refused.
    OutOfMemory,
}

impl fmt::Display for CheckFault {
    fn fmt<W: fmt::Write>(&self, f: &mut fmt::Formatter<W>) -> fmt::Result {
        match self {
            CheckFault::Url(fault) => write!(f, "{fault}"),
            CheckFault::OutOfMemory => f.write_str("out of memory"),
        }
    }
}

impl Error for CheckFault {}

impl From<OutOfMemory> for CheckFault {
    ghost use Rattle.std.specs.Prelude.{◌≡◌};
    ghost use Rattle.url_checker.specs.declared.fault.CheckFault.TheVariants.{OutOfMemory};

    ghost from_gives = { λ _ fault. fault ≡ OutOfMemory };

    fn from(_refused: OutOfMemory) -> CheckFault {
        CheckFault::OutOfMemory
    }
}

impl From<UrlFault> for CheckFault {
    ghost use Rattle.url_checker.specs.Checking.{fault_of_url};
    ghost use Rattle.std.specs.Prelude.{◌≡◌};

    ghost from_gives = { λ fault made. made ≡ fault_of_url fault };

    /// Want of memory is not the URL's fault.
    fn from(fault: UrlFault) -> CheckFault {
        match fault {
            UrlFault::OutOfMemory => CheckFault::OutOfMemory,
            _ => CheckFault::Url(fault),
        }
    }
}
