ghost use Rattle.std.specs.Prelude.{◌≡◌, ◌≢◌, ◌<◌, ℕ, true, length, slice_get, IfOk, OnOk, MatchBool};
ghost use Rattle.snapshot_publish.specs.Publications.{IsLastOf, IsPrefixOf};
ghost use Rattle.snapshot_publish.specs.Publishing.{IsOf};
ghost use Rattle.parallel_checks.specs.Checks.{AreSeatsOf, AreChecks, AreSeatChecks, GoesOn, GoOn, of_seat, IsOfSeat};
ghost use Rattle.parallel_checks.specs.Settled.{NamesKeptPublication, NameKeptPublications, AreAnew, AreSettled, IsSettledRun};

use crate::CheckRun;
use crate::lines::next_line;
use crate::showing::{Shown, check_on, with_sizes};
use input_lines::Lines;
use sb_model::{OutOfMemory, Row};
use snapshot_publish::{Publisher, Seat, Snapshot};
use std::alloc::Global;
use url_checker::Checked;

// The last publication.
fn last_of(publisher: &Publisher) -> Result<Snapshot, OutOfMemory>
    ensures { IfOk result (IsLastOf publisher.now.list) }
{
    match publisher.published(publisher.last_number()) {
        Some(last) => last.copy(),
        None => Err(OutOfMemory),
    }
}

// Whether the publication of a check is kept, if it names one.
fn is_kept(publisher: &Publisher, check: &Checked) -> bool
    ensures { MatchBool result (NamesKeptPublication publisher.now.list check.now) (NamesKeptPublication publisher.now.list check.now → ⊥) }
{
    match check {
        Checked::Found(finding) => publisher.published(finding.number).is_some(),
        Checked::Refused(_) => true,
    }
}

// Whether each publication that the checks of a seat's lines name is kept.
fn are_kept(publisher: &Publisher, checks: &[Checked], place: usize, step: usize) -> bool
    requires step { 0 < step }
    ensures { MatchBool result (NameKeptPublications publisher.now.list (of_seat checks.now step place)) (NameKeptPublications publisher.now.list (of_seat checks.now step place) → ⊥) }
{
    let mut index = place.min(checks.len());
    while index < checks.len() {
        if !is_kept(publisher, &checks[index]) {
            return false;
        }
        index = next_line(index, step, checks.len());
    }
    true
}

// Checks a seat's lines anew on this publication.
fn check_anew(
    alloc: Global,
    shown: &Shown,
    place: usize,
    step: usize,
    urls: &Lines<'_>,
    checks: &mut Row<Checked>,
) -> Result<(), OutOfMemory>
    requires step { 0 < step }
    requires count { length checks.old ≡ length urls.now }
    ensures count { length checks.new ≡ length checks.old }
    ensures anew { OnOk result (AreAnew shown.now.last (of_seat urls.now step place) (of_seat checks.new step place)) }
    ensures others { (other : ℕ) → (IsOfSeat step place other → ⊥) → slice_get checks.new other ≡ slice_get checks.old other }
{
    let mut index = place.min(urls.len());
    while index < urls.len() {
        let check = check_on(alloc, shown, urls.at(index))?;
        *checks.at_mut(index) = check;
        index = next_line(index, step, urls.len());
    }
    Ok(())
}

// Tells a seat what was published, and looks once more. Whether the seat then shows the last publication, with what it knows.
fn catch_up(publisher: &mut Publisher, seat: &mut Seat) -> Result<bool, OutOfMemory>
    requires { IsOf publisher.old.boxes seat.old }
    ensures publisher { publisher.new ≡ publisher.old }
    ensures goes_on { GoesOn seat.old seat.new }
    ensures told { OnOk result (IsPrefixOf publisher.old.list seat.new.list) }
    ensures looked { OnOk result (seat.new.looked ≡ true) }
    ensures same { IfOk result (λ same. MatchBool same (length seat.new.list ≡ length publisher.old.list) (length seat.new.list ≢ length publisher.old.list)) }
{
    seat.learn(publisher.tell()?);
    let last = seat.latest()?;
    Ok(last.number == publisher.last_number())
}

// Settles the checks of a seat's lines.
fn settle_seat(
    alloc: Global,
    publisher: &mut Publisher,
    seat: &mut Seat,
    place: usize,
    step: usize,
    urls: &Lines<'_>,
    checks: &mut Row<Checked>,
) -> Result<(), OutOfMemory>
    requires step { 0 < step }
    requires one { IsOf publisher.old.boxes seat.old }
    requires count { length checks.old ≡ length urls.now }
    requires are { AreSeatChecks seat.old.list (of_seat urls.now step place) (of_seat checks.old step place) }
    ensures publisher { publisher.new ≡ publisher.old }
    ensures goes_on { GoesOn seat.old seat.new }
    ensures count { length checks.new ≡ length checks.old }
    ensures settled { OnOk result (AreSettled publisher.old.list seat.new (of_seat urls.now step place) (of_seat checks.old step place) (of_seat checks.new step place)) }
    ensures others { (other : ℕ) → (IsOfSeat step place other → ⊥) → slice_get checks.new other ≡ slice_get checks.old other }
{
    let same = catch_up(publisher, seat)?;
    if same && are_kept(publisher, checks.as_slice(), place, step) {
        return Ok(());
    }
    let shown = with_sizes(last_of(publisher)?);
    check_anew(alloc, &shown, place, step, urls, checks)
}

/// Settles a run once nothing more is published: tells every seat what was, and has it look once more. Where the publications of a seat's
/// findings are all kept, and it shows the last one, they stand. Else its URLs are checked anew on the last publication.
pub fn settle(
    alloc: Global,
    publisher: &mut Publisher,
    run: CheckRun,
    urls: &Lines<'_>,
) -> Result<CheckRun, OutOfMemory>
    requires ours { AreSeatsOf publisher.old.boxes run.seats }
    requires checks { AreChecks run.seats urls.now run.checks }
    ensures publisher { publisher.new ≡ publisher.old }
    ensures seats { IfOk result (λ settled. GoOn run.seats settled.seats) }
    ensures settled { IfOk result (IsSettledRun publisher.old.list run urls.now) }
{
    let CheckRun {
        mut seats,
        mut checks,
    } = run;
    let step = seats.len();
    let mut place = 0;
    while place < seats.len() {
        settle_seat(
            alloc,
            publisher,
            seats.at_mut(place),
            place,
            step,
            urls,
            &mut checks,
        )?;
        place += 1;
    }
    Ok(CheckRun { seats, checks })
}
