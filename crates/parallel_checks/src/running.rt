ghost use Rattle.std.specs.Prelude.{◌≡◌, ◌<◌, ◌^◌, ℕ, length, slice_get, Some, IfOk, IfSome, vec_len};
ghost use Rattle.snapshot_publish.specs.Publishing.{Seated};
ghost use Rattle.parallel_checks.specs.Checks.{AreChecks, GoOn};
ghost use Rattle.parallel_checks.specs.Working.{AreJobsOf, AreWorks, AreGathered, IsCheckRunOf};

use crate::weaving::weave;
use crate::working::{Job, Worked, work};
use input_lines::Lines;
use sb_model::{OutOfMemory, Row};
use sb_outside::Gate;
use snapshot_publish::Seat;
use std::alloc::Global;
use std::thread;
use std::thread::Threads;
use url_checker::Checked;

/// What checks of URLs on several threads give: the seats in order, and a check for each URL, in order.
#[derive(Drop)]
pub struct CheckRun {
    pub seats: Row<Seat>,
    pub checks: Row<Checked>,
}

// A job for each seat.
fn jobs_of(alloc: Global, seats: Row<Seat>) -> Result<Row<Job>, OutOfMemory>
    ensures { IfOk result (AreJobsOf seats) }
{
    let mut jobs = Row::with_capacity(alloc, seats.len())?;
    for seat in seats.into_vec() {
        let place = jobs.len();
        jobs.push(Job { place, seat })?;
    }
    Ok(jobs)
}

// The seats and the rows of checks, each in order.
fn gather(
    alloc: Global,
    works: Vec<Result<Worked, OutOfMemory>>,
) -> Result<(Row<Seat>, Row<Row<Checked>>), OutOfMemory>
    ensures { IfOk result (λ both. AreGathered works.items both.0 both.1) }
{
    let mut seats = Row::with_capacity(alloc, works.len())?;
    let mut rows = Row::with_capacity(alloc, works.len())?;
    for work in works {
        let Worked { seat, checks } = work?;
        seats.push(seat)?;
        rows.push(checks)?;
    }
    Ok((seats, rows))
}

// Works on each job, on threads of their own where they can be had.
fn work_all<R: Threads + Sync, G: Gate + Sync>(
    rt: &R,
    alloc: Global,
    gate: &G,
    urls: &Lines<'_>,
    jobs: Row<Job>,
) -> Result<Vec<Result<Worked, OutOfMemory>>, OutOfMemory>
    requires some { 0 < length jobs }
    requires few { length urls.now < 2 ^ 32 }
    ensures { IfOk result (λ works. AreWorks urls.now jobs works.items) }
{
    let step = jobs.len();
    let works = thread::map_vec(
        rt,
        jobs.into_vec(),
        &|job: Job| { work(alloc, gate, urls, step, job) },
    )?;
    Ok(works)
}

// Checks each URL, with a worker for each seat.
fn run<R: Threads + Sync, G: Gate + Sync>(
    rt: &R,
    alloc: Global,
    seats: Row<Seat>,
    urls: &Lines<'_>,
    gate: &G,
) -> Result<CheckRun, OutOfMemory>
    requires some { 0 < length seats }
    requires few { length urls.now < 2 ^ 32 }
    ensures { IfOk result (IsCheckRunOf seats urls.now) }
{
    let jobs = jobs_of(alloc, seats)?;
    let works = work_all(rt, alloc, gate, urls, jobs)?;
    let (seats, rows) = gather(alloc, works)?;
    let checks = weave(alloc, rows, urls.len())?;
    Ok(CheckRun { seats, checks })
}

/// Checks each URL with a worker for each seat, on threads of their own, while this thread calls `beside` once. The worker of seat k of W
/// checks the URLs k, k + W, k + 2 W and so on, each on the publication that its seat then shows, and comes to `Point::Check` of its place
/// before each. Where no thread can be made, the workers follow one another after `beside`.
pub fn check_all<R: Threads + Sync, G: Gate + Sync, T, F: FnMut() -> T>(
    rt: &R,
    alloc: Global,
    seats: Row<Seat>,
    urls: &Lines<'_>,
    gate: &G,
    beside: &mut F,
) -> (Result<CheckRun, OutOfMemory>, T)
    requires some { 0 < length seats }
    requires few { length urls.now < 2 ^ 32 }
    requires beside { F.pre beside.old }
    ensures seats { IfOk result.0 (λ run. GoOn seats run.seats) }
    ensures checks { IfOk result.0 (λ run. AreChecks run.seats urls.now run.checks) }
    ensures beside { F.step beside.old result.1 beside.new }
{
    let mut waiting = Some(seats);
    let mut workers = || -> Result<CheckRun, OutOfMemory>
        requires { (length urls.now < 2 ^ 32) × IfSome waiting (λ seats. 0 < length seats) }
        ensures { IfOk result (λ run. IfSome waiting.entry (λ seats. IsCheckRunOf seats urls.entry.now run)) }
    {
        match waiting.take() {
            Some(seats) => run(rt, alloc, seats, urls, gate),
            None => Err(OutOfMemory),
        }
    };
    thread::join_mut(rt, &mut workers, beside)
}
