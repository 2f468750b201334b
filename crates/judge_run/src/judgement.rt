ghost use Rattle.std.specs.Prelude.{◌≡◌, List};
ghost use Rattle.verdict_report.specs.Printed.{counts_of};
ghost use Rattle.judge_run.specs.Printed.{outcome_of_all};

use verdict_report::{Counts, Judged};

/// What URLs come to together.
#[derive(Clone, Copy, Debug, PartialEq, Eq)]
pub enum Outcome {
    /// Each URL is safe, or there is none.
    Safe,
    /// Some URL is unsafe.
    Unsafe,
    /// No URL is unsafe, and some was refused or left undecided.
    Open,
}

/// What a run that judges URLs comes to.
#[derive(Clone, Copy, Debug, PartialEq, Eq)]
pub struct Judgement {
    /// What the URLs come to together.
    pub outcome: Outcome,
    /// Whether a round brought no message, or an update that was refused.
    pub refused: bool,
}

/// What URLs of these counts come to together.
pub fn outcome_of(counts: &Counts) -> Outcome
    ensures { (all : List Judged) → counts.now ≡ counts_of all → result ≡ outcome_of_all all }
{
    if counts.found_unsafe > 0 {
        return Outcome::Unsafe;
    }
    if counts.undecided > 0 {
        return Outcome::Open;
    }
    if counts.refused > 0 {
        return Outcome::Open;
    }
    Outcome::Safe
}
