ghost use Rattle.std.specs.Prelude.{◌≡◌, ◌<◌, ◌^◌, length, IfOk, IfSome};
ghost use Rattle.snapshot_publish.specs.Publications.{IsLastOf};
ghost use Rattle.parallel_checks.specs.Checks.{Shows, GoesOn, IsCheckOn};
ghost use Rattle.parallel_checks.specs.Working.{IsWorkOf};

use crate::lines::next_line;
use crate::showing::{Shown, check_on, look};
use input_lines::Lines;
use sb_model::{OutOfMemory, Row};
use sb_outside::{Gate, Point};
use snapshot_publish::Seat;
use std::alloc::Global;
use url_checker::Checked;

/// What a worker begins with: its seat, and the seat's place among all.
#[derive(Drop)]
pub(crate) struct Job {
    pub(crate) place: usize,
    pub(crate) seat: Seat,
}

/// What a worker gives back: its seat, and the checks of the seat's lines.
#[derive(Drop)]
pub(crate) struct Worked {
    pub(crate) seat: Seat,
    pub(crate) checks: Row<Checked>,
}

// Looks once more, and checks a URL on what is shown.
fn check_next(
    seat: &mut Seat,
    alloc: Global,
    url: &[u8],
    known: Option<Shown>,
) -> Result<(Checked, Shown), OutOfMemory>
    requires { IfSome known (λ shown. Shows seat.old.list shown.last) }
    ensures check { IfOk result (λ both. IsCheckOn both.1.last url.now both.0) }
    ensures last { IfOk result (λ both. IsLastOf seat.new.list both.1.last) }
    ensures goes_on { GoesOn seat.old seat.new }
{
    let shown = look(seat, known)?;
    let check = check_on(alloc, &shown, url)?;
    Ok((check, shown))
}

/// Checks every `step`-th URL, from the seat's place on.
pub(crate) fn work<G: Gate>(
    alloc: Global,
    gate: &G,
    urls: &Lines<'_>,
    step: usize,
    job: Job,
) -> Result<Worked, OutOfMemory>
    requires few { length urls.now < 2 ^ 32 }
    requires step { 0 < step }
    ensures { IfOk result (IsWorkOf urls.now step job) }
{
    let Job { place, mut seat } = job;
    let mut checks = Row::new(alloc);
    let mut known = None;
    let mut index = place.min(urls.len());
    while index < urls.len() {
        gate.pass(Point::Check(index as u32));
        let (check, shown) = check_next(&mut seat, alloc, urls.at(index), known)?;
        checks.push(check)?;
        known = Some(shown);
        index = next_line(index, step, urls.len());
    }
    Ok(Worked { seat, checks })
}
