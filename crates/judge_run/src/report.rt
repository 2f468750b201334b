ghost use Rattle.std.specs.Prelude.{◌≡◌, [], ◌∷◌, ◌++◌, List, IfOk, OnOk};
ghost use Rattle.verdict_report.specs.Printed.{AreCounts};
ghost use Rattle.judge_run.specs.Reporting.{IsReport, pages_text};

use sb_model::{Bytes, OutOfMemory, Row};
use sb_outside::FULL_BUFFER;
use std::alloc::Global;
use std::mem;
use verdict_report::{Counts, Judged, push_report_line};

/// How many bytes a page has room for at first: one is full from 65,536 on.
const PAGE_ROOM: usize = 66_560;

/// A report so far: the line of each URL, in pages, and how many URLs there are of each kind.
#[derive(Drop)]
pub struct Report {
    alloc: Global,
    /// Pages that are full.
    pub(crate) full: Row<Bytes>,
    pub(crate) page: Bytes,
    /// How many URLs there are of each kind.
    pub counts: Counts,
}

impl Report {
    /// The report of no URLs.
    pub fn new(alloc: Global) -> Result<Report, OutOfMemory>
        ensures { IfOk result (λ report. IsReport report []) }
    {
        Ok(Report {
            alloc,
            full: Row::new(alloc),
            page: Bytes::with_capacity(alloc, PAGE_ROOM)?,
            counts: Counts::new(),
        })
    }

    // Begins another page, where this one is full.
    fn turn(&mut self) -> Result<(), OutOfMemory>
        ensures text { OnOk result (pages_text self.new ≡ pages_text self.old) }
        ensures counts { self.new.counts ≡ self.old.counts }
    {
        if self.page.len() < FULL_BUFFER {
            return Ok(());
        }
        let next = Bytes::with_capacity(self.alloc, PAGE_ROOM)?;
        self.full.push(mem::replace(&mut self.page, next))?;
        Ok(())
    }

    /// Takes the next URL.
    pub fn add(&mut self, one: &Judged) -> Result<(), OutOfMemory>
        requires { AreCounts self.old.counts }
        ensures { (all : List Judged) → IsReport self.old all → OnOk result (IsReport self.new (all ++ one.now ∷ [])) }
    {
        self.turn()?;
        let number = self.counts.urls + 1;
        push_report_line(&mut self.page, number, one)?;
        self.counts.add(one);
        Ok(())
    }
}
