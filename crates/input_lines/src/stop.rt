ghost use Rattle.std.specs.Prelude.{◌≡◌};
ghost use Rattle.input_lines.specs.declared.stop.Stop.TheVariants.{WriteFault};
ghost use Rattle.input_lines.specs.Ending.{stop_of_input_fault};

use sb_outside::{Failed, InputFault};

/// Why a command that reads its input whole, and then writes a text of it, ends before its end.
#[derive(Clone, Copy, Debug, PartialEq, Eq)]
pub enum Stop {
    /// The source failed.
    ReadFault,
    /// The sink failed.
    WriteFault,
    /// The input has more bytes or more lines than an input may have.
    PastLimits,
    OutOfMemory,
}

/// What fails while text is written is the sink.
impl From<Failed> for Stop {
    ghost from_gives = { λ _ stop. stop ≡ WriteFault };

    fn from(_failed: Failed) -> Stop {
        Stop::WriteFault
    }
}

/// Why an input is not read to its end.
impl From<InputFault> for Stop {
    ghost from_gives = { λ fault stop. stop ≡ stop_of_input_fault fault };

    fn from(fault: InputFault) -> Stop {
        match fault {
            InputFault::Failed => Stop::ReadFault,
            InputFault::PastLimit => Stop::PastLimits,
            InputFault::OutOfMemory => Stop::OutOfMemory,
        }
    }
}
