ghost use Rattle.std.specs.Prelude.{◌≡◌, ◌≢◌, ◌⊎◌, ◌↔◌, ◌++◌, ℕ, length, not, IsTrue, All, Ok, Err, IfOk, OnOk, OnErr, IsErrOf};
ghost use Rattle.sb_outside.specs.Outside.{Rose, appended};
ghost use Rattle.conformance_vectors.specs.Vectors.{Meets, MeetCount};
ghost use Rattle.sb_client.specs.Show.{vectors_met_text, IsCounted, IsPartlyCounted};

use conformance_vectors::{Case, published_cases, run_table};
use input_lines::Stop;
use sb_model::{Bytes, OutOfMemory};
use sb_outside::{Sink, flush};
use std::alloc::Global;

/// Appends how many cases of so many are met.
fn push_count(page: &mut Bytes, passed: usize, all: usize) -> Result<(), OutOfMemory>
    ensures { OnOk result (page.new ≡ page.old ++ vectors_met_text passed all) }
{
    page.append(b"vectors ")?;
    page.append_decimal(passed as u64)?;
    page.append(b" of ")?;
    page.append_decimal(all as u64)?;
    page.push(b'\n')
}

/// The text that tells how many of the cases are met, and whether all are.
fn count(alloc: Global, cases: &[Case]) -> Result<(Bytes, bool), OutOfMemory>
    ensures text { IfOk result (λ counted. (passed : ℕ) × MeetCount cases.now passed
        × (counted.0 ≡ vectors_met_text passed (length cases.now))) }
    ensures met { IfOk result (λ counted. IsTrue counted.1 ↔ All Meets cases.now) }
{
    let outcome = run_table(alloc, cases)?;
    let mut page = Bytes::new(alloc);
    push_count(&mut page, outcome.passed, cases.len())?;
    Ok((page, outcome.passed == cases.len()))
}

/// Counts the published examples with which the definitions agree. Answers whether one is not among them.
pub(crate) fn vectors<O: Sink>(alloc: Global, out: &mut O) -> Result<bool, Stop>
    ensures counted { IfOk result (λ failed. IsCounted (not failed) (O.contents out.old) (O.contents out.new)) }
    ensures write_fault { IsErrOf result Stop.WriteFault → Rose (O.faults out.old) (O.faults out.new)
        × IsPartlyCounted (O.contents out.old) (O.contents out.new) }
    ensures memory { IsErrOf result Stop.OutOfMemory → out.new ≡ out.old }
    ensures others { (result ≢ Err Stop.ReadFault) × (result ≢ Err Stop.PastLimits) }
    ensures output_kept { result ≢ Err Stop.WriteFault → O.faults out.new ≡ O.faults out.old }
{
    let cases = published_cases();
    let Ok((mut page, all_met)) = count(alloc, cases.as_slice()) else {
        return Err(Stop::OutOfMemory);
    };
    match flush(out, &mut page) {
        Ok(()) => Ok(!all_met),
        Err(failed) => Err(Stop::from(failed)),
    }
}
