ghost use Rattle.std.specs.Prelude.{◌≡◌, [], ◌∷◌, IfOk, IsErrOf};
ghost use Rattle.generated_load.specs.Exercise.{HasRoom, exercise_fault_of};
ghost use Rattle.generated_load.specs.Generated.{generated};

use crate::ExerciseFault;
use crate::journals::generated_journal;
use list_versions::{History, JournalFault};
use memory_objects::MemorySource;
use sb_model::{Bytes, OutOfMemory, Row};
use std::alloc::Global;

// A source that gives a text.
fn source_of(alloc: Global, text: Bytes) -> Result<MemorySource, OutOfMemory>
    ensures { IfOk result (λ source. source.left ≡ text ∷ []) }
{
    let mut pieces = Row::with_capacity(alloc, 1)?;
    pieces.push(text)?;
    Ok(MemorySource::new(pieces, Row::new(alloc)))
}

// Why a journal in memory is not loaded. A source in memory does not fail.
fn fault_of(fault: JournalFault) -> ExerciseFault
    ensures { result ≡ exercise_fault_of fault }
{
    match fault {
        JournalFault::ReadFault => ExerciseFault::OutOfMemory,
        JournalFault::OutOfMemory => ExerciseFault::OutOfMemory,
        _ => ExerciseFault::PastLimits,
    }
}

/// Loads the journal of a seed.
pub(crate) fn load(alloc: Global, count: u32, seed: u64) -> Result<History, ExerciseFault>
    ensures loaded { IfOk result (λ history. HasRoom count seed → history.versions ≡ generated count seed) }
    ensures past { IsErrOf result ExerciseFault.PastLimits → ¬ (HasRoom count seed) }
{
    let text = generated_journal(alloc, count, seed)?;
    let mut source = source_of(alloc, text)?;
    match History::load(alloc, &mut source) {
        Ok(history) => Ok(history),
        Err(fault) => Err(fault_of(fault)),
    }
}
