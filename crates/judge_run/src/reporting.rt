ghost use Rattle.std.specs.Prelude.{◌≡◌, ◌++◌, List, OnOk, OnErr, IfErr};
ghost use Rattle.std.specs.List.{concat};
ghost use Rattle.sb_outside.specs.Outside.{appended};
ghost use Rattle.sb_outside.specs.Writing.{HasFront};
ghost use Rattle.verdict_report.specs.Printed.{counts_of, report_lines, summary_text};
ghost use Rattle.judge_run.specs.Printed.{report_text};
ghost use Rattle.judge_run.specs.Reporting.{IsReport};
ghost use Rattle.judge_run.specs.Stops.{StopsWriting};

use crate::JudgeStop;
use crate::report::Report;
use sb_model::Bytes;
use sb_outside::{Failed, Sink, flush, write_all};
use verdict_report::{Counts, Judged, push_counts};

// Writes a page.
fn write_page<O: Sink>(page: &[u8], out: &mut O) -> Result<(), JudgeStop>
    ensures text { OnOk result (O.contents out.new ≡ appended (O.contents out.old) page.now) }
    ensures kept { OnOk result (O.faults out.new ≡ O.faults out.old) }
    ensures stopped { IfErr result (λ stop. StopsWriting stop (O.faults out.old) (O.faults out.new)) }
    ensures front { OnErr result (HasFront (O.contents out.old) (O.contents out.new) page.now) }
{
    match write_all(out, page) {
        Ok(()) => Ok(()),
        Err(Failed) => Err(JudgeStop::WriteFault),
    }
}

// Writes pages in order.
fn write_pages<O: Sink>(pages: &[Bytes], out: &mut O) -> Result<(), JudgeStop>
    ensures text { OnOk result (O.contents out.new ≡ appended (O.contents out.old) (concat pages.now)) }
    ensures kept { OnOk result (O.faults out.new ≡ O.faults out.old) }
    ensures stopped { IfErr result (λ stop. StopsWriting stop (O.faults out.old) (O.faults out.new)) }
    ensures front { OnErr result (HasFront (O.contents out.old) (O.contents out.new) (concat pages.now)) }
{
    for page in pages {
        if let Err(stop) = write_page(page.as_slice(), out) {
            return Err(stop);
        }
    }
    Ok(())
}

// Appends the summary to the last page, and writes the page.
fn write_last<O: Sink>(page: &mut Bytes, counts: &Counts, out: &mut O) -> Result<(), JudgeStop>
    ensures text { (all : List Judged) → counts.now ≡ counts_of all
        → OnOk result (O.contents out.new ≡ appended (O.contents out.old) (page.old ++ summary_text all)) }
    ensures kept { OnOk result (O.faults out.new ≡ O.faults out.old) }
    ensures stopped { IfErr result (λ stop. StopsWriting stop (O.faults out.old) (O.faults out.new)) }
    ensures front { (all : List Judged) → counts.now ≡ counts_of all
        → OnErr result (HasFront (O.contents out.old) (O.contents out.new) (page.old ++ summary_text all)) }
{
    match push_counts(page, counts) {
        Ok(()) => Ok(flush(out, page)?),
        Err(_) => Err(JudgeStop::OutOfMemory),
    }
}

/// Prints the report of URLs: a line for each, in order, and the summary. It goes to the output in large pieces.
pub fn print_report<O: Sink>(report: &mut Report, out: &mut O) -> Result<(), JudgeStop>
    ensures text { (all : List Judged) → IsReport report.old all
        → OnOk result (O.contents out.new ≡ appended (O.contents out.old) (report_text all)) }
    ensures counts { report.new.counts ≡ report.old.counts }
    ensures kept { OnOk result (O.faults out.new ≡ O.faults out.old) }
    ensures stopped { IfErr result (λ stop. StopsWriting stop (O.faults out.old) (O.faults out.new)) }
    ensures front { (all : List Judged) → IsReport report.old all
        → OnErr result (HasFront (O.contents out.old) (O.contents out.new) (report_text all)) }
{
    match write_pages(report.full.as_slice(), out) {
        Ok(()) => match write_last(&mut report.page, &report.counts, out) {
            Ok(()) => Ok(()),
            Err(stop) => Err(stop),
        },
        Err(stop) => Err(stop),
    }
}
