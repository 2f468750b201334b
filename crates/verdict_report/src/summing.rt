ghost use Rattle.std.specs.Prelude.{◌≡◌, ◌++◌, List, decimal, length, take, OnOk, OnErr};
ghost use Rattle.verdict_report.specs.Printed.{counts_of, summary_of_counts, kinds_counted, summary_text};

use crate::Counts;
use crate::counts::counts_in;
use crate::verdicts::Judged;
use sb_model::{Bytes, OutOfMemory};

// Appends a number and what it counts.
fn push_count(page: &mut Bytes, count: u64, what: &str) -> Result<(), OutOfMemory>
    ensures ok { OnOk result (page.new ≡ page.old ++ (decimal count ++ what.now)) }
    ensures front { OnErr result (take (length page.old) page.new ≡ page.old) }
{
    page.append_decimal(count)?;
    page.append(what.as_bytes())
}

// Appends how many are of each kind.
fn push_kinds(page: &mut Bytes, counts: &Counts) -> Result<(), OutOfMemory>
    ensures ok { OnOk result (page.new ≡ page.old ++ kinds_counted counts.now) }
    ensures front { OnErr result (take (length page.old) page.new ≡ page.old) }
{
    push_count(page, counts.safe, " safe, ")?;
    push_count(page, counts.found_unsafe, " unsafe, ")?;
    push_count(page, counts.undecided, " undecided, ")?;
    push_count(page, counts.refused, " refused\n")
}

// Appends how many URLs there are, and how many of each kind.
fn push_numbers(page: &mut Bytes, counts: &Counts) -> Result<(), OutOfMemory>
    ensures ok { OnOk result (page.new ≡ page.old ++ summary_of_counts counts.now) }
    ensures front { OnErr result (take (length page.old) page.new ≡ page.old) }
{
    page.append(b"checked ")?;
    push_count(page, counts.urls, ": ")?;
    push_kinds(page, counts)
}

/// Appends the summary of a report by its counts. After an `Err` the page begins as it was.
pub fn push_counts(page: &mut Bytes, counts: &Counts) -> Result<(), OutOfMemory>
    ensures ok { (all : List Judged) → counts.now ≡ counts_of all → OnOk result (page.new ≡ page.old ++ summary_text all) }
    ensures front { OnErr result (take (length page.old) page.new ≡ page.old) }
{
    push_numbers(page, counts)
}

/// Appends the summary of a report: how many URLs there are, and how many of each kind. After an `Err` the page begins as it was.
pub fn push_summary(page: &mut Bytes, all: &[Judged]) -> Result<(), OutOfMemory>
    ensures ok { OnOk result (page.new ≡ page.old ++ summary_text all.now) }
    ensures front { OnErr result (take (length page.old) page.new ≡ page.old) }
{
    push_counts(page, &counts_in(all))
}
