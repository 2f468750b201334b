use sb_model::OutOfMemory;
use thiserror::Error;

/// Why an exercise comes to no line.
#[derive(Clone, Copy, Debug, PartialEq, Eq, Error)]
pub enum ExerciseFault {
    /// The journal passes a limit of journals.
    #[error("the journal passes a limit")]
    PastLimits,
    #[error("out of memory")]
    OutOfMemory,
}

impl From<OutOfMemory> for ExerciseFault {
    ghost use Rattle.std.specs.Prelude.{◌≡◌};
    ghost use Rattle.generated_load.specs.declared.fault.ExerciseFault.TheVariants as exercise;

    ghost from_gives = { λ _ fault. fault ≡ exercise.OutOfMemory };

    fn from(_refused: OutOfMemory) -> ExerciseFault {
        ExerciseFault::OutOfMemory
    }
}
