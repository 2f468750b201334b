use sb_model::OutOfMemory;
use sb_outside::{Failed, KeepFault};

/// Why a run ends before its end.
#[derive(Clone, Copy, Debug, PartialEq, Eq)]
pub enum RunStop {
    /// The output failed.
    WriteFault,
    /// The keeper failed.
    KeepFault,
    OutOfMemory,
}

/// What fails while text is written is the output.
impl From<Failed> for RunStop {
    ghost use Rattle.std.specs.Prelude.{◌≡◌};
    ghost use Rattle.update_run.specs.declared.stop.RunStop.TheVariants.{WriteFault};

    ghost from_gives = { λ _ stop. stop ≡ WriteFault };

    fn from(_failed: Failed) -> RunStop {
        RunStop::WriteFault
    }
}

impl From<OutOfMemory> for RunStop {
    ghost use Rattle.std.specs.Prelude.{◌≡◌};
    ghost use Rattle.update_run.specs.declared.stop.RunStop.TheVariants.{OutOfMemory as refused};

    ghost from_gives = { λ _ stop. stop ≡ refused };

    fn from(_refused: OutOfMemory) -> RunStop {
        RunStop::OutOfMemory
    }
}

impl From<KeepFault> for RunStop {
    ghost use Rattle.update_run.specs.Stops.{stop_of};
    ghost use Rattle.std.specs.Prelude.{◌≡◌};

    ghost from_gives = { λ fault stop. stop ≡ stop_of fault };

    fn from(fault: KeepFault) -> RunStop {
        match fault {
            KeepFault::Failed => RunStop::KeepFault,
            KeepFault::OutOfMemory => RunStop::OutOfMemory,
        }
    }
}
