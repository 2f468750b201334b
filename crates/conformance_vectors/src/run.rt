ghost use Rattle.std.specs.Prelude.{◌≡◌, ◌↔◌, All, not, length, count_by, position, IfOk, MatchOption};
ghost use Rattle.conformance_vectors.specs.Vectors.{Meets, MeetCount, IsFirstFailed, AreDecided};

use crate::case::Case;
use crate::meets::meets;
use sb_model::OutOfMemory;
use std::alloc::Global;

/// What a run of a table found.
#[derive(Clone, Copy, Debug, PartialEq, Eq)]
pub struct Outcome {
    /// How many cases are met.
    pub passed: usize,
    /// The place of the first that is not, which counts from 0.
    pub first_failed: Option<usize>,
}

/// How many answers are yes.
fn count_true(answers: &[bool]) -> usize
    ensures { result ≡ count_by (λ answer. answer) answers.now }
{
    answers.iter().filter(|answer| **answer).count()
}

/// The place of the first answer that is no.
fn first_false(answers: &[bool]) -> Option<usize>
    ensures { result ≡ position (λ answer. not answer) answers.now }
{
    answers.iter().position(|answer| !*answer)
}

/// Which of the cases are met.
fn decide(alloc: Global, cases: &[Case]) -> Result<Vec<bool>, OutOfMemory>
    ensures { IfOk result (λ answers. AreDecided cases.now answers.items) }
{
    let mut answers = Vec::with_capacity(alloc, cases.len())?;
    for case in cases {
        answers.push(meets(alloc, case)?)?;
    }
    Ok(answers)
}

/// How many cases are met, and which is the first that is not.
pub fn run_table(alloc: Global, cases: &[Case]) -> Result<Outcome, OutOfMemory>
    ensures passed { IfOk result (λ outcome. MeetCount cases.now outcome.passed) }
    ensures all { IfOk result (λ outcome.
        (outcome.passed ≡ length cases.now) ↔ All Meets cases.now) }
    ensures first_failed { IfOk result (λ outcome. MatchOption outcome.first_failed
        (All Meets cases.now) (λ place. IsFirstFailed cases.now place)) }
{
    let answers = decide(alloc, cases)?;
    Ok(Outcome {
        passed: count_true(answers.as_slice()),
        first_failed: first_false(answers.as_slice()),
    })
}
