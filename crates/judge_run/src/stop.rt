use sb_model::OutOfMemory;
use sb_outside::{Failed, InputFault};
use update_run::RunStop;

/// Why a run that judges URLs ends before its end.
#[derive(Clone, Copy, Debug, PartialEq, Eq)]
pub enum JudgeStop {
    /// The input failed.
    ReadFault,
    /// The input has more bytes or more lines than an input may have.
    PastLimits,
    /// The output failed.
    WriteFault,
    /// The keeper failed.
    KeepFault,
    OutOfMemory,
}

/// What fails while text is written is the output.
impl From<Failed> for JudgeStop {
    ghost use Rattle.std.specs.Prelude.{◌≡◌};
    ghost use Rattle.judge_run.specs.declared.stop.JudgeStop.TheVariants.{WriteFault};

    ghost from_gives = { λ _ stop. stop ≡ WriteFault };

    fn from(_failed: Failed) -> JudgeStop {
        JudgeStop::WriteFault
    }
}

impl From<OutOfMemory> for JudgeStop {
    ghost use Rattle.std.specs.Prelude.{◌≡◌};
    ghost use Rattle.judge_run.specs.declared.stop.JudgeStop.TheVariants.{OutOfMemory as refused};

    ghost from_gives = { λ _ stop. stop ≡ refused };

    fn from(_refused: OutOfMemory) -> JudgeStop {
        JudgeStop::OutOfMemory
    }
}

/// Why an input is not read to its end.
impl From<InputFault> for JudgeStop {
    ghost use Rattle.std.specs.Prelude.{◌≡◌};
    ghost use Rattle.judge_run.specs.Stops.{stop_after_input};

    ghost from_gives = { λ fault stop. stop ≡ stop_after_input fault };

    fn from(fault: InputFault) -> JudgeStop {
        match fault {
            InputFault::Failed => JudgeStop::ReadFault,
            InputFault::PastLimit => JudgeStop::PastLimits,
            InputFault::OutOfMemory => JudgeStop::OutOfMemory,
        }
    }
}

/// Why lists are not loaded, or not brought up to date.
impl From<RunStop> for JudgeStop {
    ghost use Rattle.std.specs.Prelude.{◌≡◌};
    ghost use Rattle.judge_run.specs.Stops.{stop_after_rounds};

    ghost from_gives = { λ stopped stop. stop ≡ stop_after_rounds stopped };

    fn from(stopped: RunStop) -> JudgeStop {
        match stopped {
            RunStop::WriteFault => JudgeStop::WriteFault,
            RunStop::KeepFault => JudgeStop::KeepFault,
            RunStop::OutOfMemory => JudgeStop::OutOfMemory,
        }
    }
}
