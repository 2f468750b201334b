ghost use Rattle.std.specs.Prelude.{◌≡◌, ◌≢◌, ℕ, ◌≤◌, List, Option, IfSome, IfOk, OnOk, IsErrOf};
ghost use Rattle.sb_outside.specs.Outside.{Rose, IfTold, with_entry};
ghost use Rattle.sb_outside.specs.Keeping.{IsTorn};

use sb_model::{Bytes, OutOfMemory};
use std::alloc::Global;
use std::error::Error;
use std::fmt;

/// Why a keeper did not do what it was asked.
#[derive(Clone, Copy, Debug, PartialEq, Eq, Hash)]
pub enum KeepFault {
    /// The keeper failed, and counted a fault.
    Failed,
    OutOfMemory,
}

impl fmt::Display for KeepFault {
    fn fmt<W: fmt::Write>(&self, f: &mut fmt::Formatter<W>) -> fmt::Result {
        f.write_str(match self {
            KeepFault::Failed => "a keeper failed",
            KeepFault::OutOfMemory => "out of memory",
        })
    }
}

impl Error for KeepFault {}

impl From<OutOfMemory> for KeepFault {
    ghost use Rattle.std.specs.Prelude.{◌≡◌};
    ghost use Rattle.sb_outside.specs.declared.keepers.KeepFault.TheVariants.{OutOfMemory as refused};

    ghost from_gives = { λ _ fault. fault ≡ refused };

    fn from(_refused: OutOfMemory) -> KeepFault {
        KeepFault::OutOfMemory
    }
}

/// What keeps one text from one run to the next.
pub trait Keeper {
    // how many faults there were
    ghost faults: { Self → ℕ };

    // where the keeper tells it: the text that it keeps, or `None` where it keeps nothing
    ghost kept: { Self → Option (Option (List ℕ)) };

    // where the keeper tells it: the texts that were handed in, in order
    ghost handed: { Self → Option (List (List ℕ)) };

    /// The text that is kept, or `None` where nothing is.
    fn load(&mut self, alloc: Global) -> Result<Option<Bytes>, KeepFault>
        ensures bytes { IfOk result (λ bytes. IfSome (kept self.old) (λ text. bytes ≡ text)) }
        ensures unchanged { kept self.new ≡ kept self.old }
        ensures handed { handed self.new ≡ handed self.old }

        // A fault is counted, nothing else is, and the count never falls.
        ensures kept_count { result ≢ Err KeepFault.Failed → faults self.new ≡ faults self.old }
        ensures counted { faults self.old ≤ faults self.new }
        ensures failed { IsErrOf result KeepFault.Failed → Rose (faults self.old) (faults self.new) };

    /// Keeps this text in place of the one before. After `Failed` it was handed in, and the keeper has the
    /// old text, the new one, or a front of the new one that is not the whole. After `OutOfMemory` it
    /// was not handed in.
    fn replace(&mut self, text: &[u8]) -> Result<(), KeepFault>
        ensures ok { OnOk result (IfTold (kept self.new) (Some (Some text.now))) }
        ensures torn { IsErrOf result KeepFault.Failed → IsTorn (kept self.old) text.now (kept self.new) }
        ensures refused { IsErrOf result KeepFault.OutOfMemory → kept self.new ≡ kept self.old }
        ensures handed { result ≢ Err KeepFault.OutOfMemory →
            IfTold (handed self.new) (with_entry (handed self.old) text.now) }
        ensures not_handed { IsErrOf result KeepFault.OutOfMemory → handed self.new ≡ handed self.old }

        // A fault is counted, nothing else is, and the count never falls.
        ensures kept_count { result ≢ Err KeepFault.Failed → faults self.new ≡ faults self.old }
        ensures counted { faults self.old ≤ faults self.new }
        ensures failed { IsErrOf result KeepFault.Failed → Rose (faults self.old) (faults self.new) };
}
