ghost use Rattle.std.specs.Prelude.{◌≡◌, ◌≢◌, ◌≤◌, ◌<◌, ◌++◌, length, OnOk, OnErr, IsErrOf, Err};
ghost use Rattle.std.specs.List.{flat_map};
ghost use Rattle.http_edge.specs.Exchanges.{IsTarget};
ghost use Rattle.sb_outside.specs.Outside.{Rose, appended};
ghost use Rattle.sb_outside.specs.Writing.{HasFront};
ghost use Rattle.update_client.specs.Held.{most_lists};
ghost use Rattle.update_run.specs.Printed.{list_line};
ghost use Rattle.update_run.specs.Rounding.{EndsFrom};
ghost use Rattle.update_run.specs.Run.{seen, EndsRun};
ghost use Rattle.update_run.specs.Saved.{keeping};

use crate::opening::open_store;
use crate::printing::push_list_line;
use crate::rounding::all_rounds;
use crate::{Client, Plan, RunStop};
use client_line::Line;
use sb_model::{Bytes, OutOfMemory};
use sb_outside::{Gate, Keeper, Sink, flush};
use std::alloc::Global;
use update_client::HeldList;

/// Appends the lines of lists.
fn push_lists(page: &mut Bytes, lists: &[HeldList]) -> Result<(), OutOfMemory>
    ensures { OnOk result (page.new ≡ page.old ++ flat_map list_line lists.now) }
{
    for held in lists {
        push_list_line(page, held)?;
    }
    Ok(())
}

/// Writes what waits, and the lines of the lists after it.
fn finish<O: Sink>(lists: &[HeldList], out: &mut O, page: &mut Bytes) -> Result<(), RunStop>
    requires { 0 < length lists.now }
    ensures text { OnOk result (O.contents out.new
        ≡ appended (O.contents out.old) (page.old ++ flat_map list_line lists.now)) }
    ensures no_keeper { result ≢ Err RunStop.KeepFault }
    ensures stopped { OnErr result (HasFront (O.contents out.old) (O.contents out.new)
        (page.old ++ flat_map list_line lists.now)) }
    ensures output_failed { IsErrOf result RunStop.WriteFault → Rose (O.faults out.old) (O.faults out.new) }
    ensures output_kept { result ≢ Err RunStop.WriteFault → O.faults out.new ≡ O.faults out.old }
{
    match push_lists(page, lists) {
        Ok(()) => Ok(flush(out, page)?),
        Err(OutOfMemory) => Err(RunStop::OutOfMemory),
    }
}

/// Makes the rounds of a client, and tells of its lists.
fn run_opened<O: Sink, K: Keeper, N: Line, G: Gate>(
    alloc: Global,
    plan: &Plan,
    client: &mut Client,
    out: &mut O,
    keep: &mut K,
    line: &mut N,
    gate: &G,
) -> Result<bool, RunStop>
    requires some { 0 < length client.old.lists }
    requires target { IsTarget plan.now.target }
    ensures ends { EndsFrom plan.now result client.old
        (seen (N.view line.old).told (keeping (K.handed keep.old) (K.kept keep.old)) (O.contents out.old))
        (seen (N.view line.new).told (keeping (K.handed keep.new) (K.kept keep.new)) (O.contents out.new)) }
    ensures output_failed { IsErrOf result RunStop.WriteFault → Rose (O.faults out.old) (O.faults out.new) }
    ensures output_kept { result ≢ Err RunStop.WriteFault → O.faults out.new ≡ O.faults out.old }
    ensures keeper_failed { IsErrOf result RunStop.KeepFault → Rose (K.faults keep.old) (K.faults keep.new) }
    ensures keeper_kept { result ≢ Err RunStop.KeepFault → K.faults keep.new ≡ K.faults keep.old }
    ensures same { (N.view line.new).objects ≡ (N.view line.old).objects }
{
    match all_rounds(alloc, plan, client, out, keep, line, gate) {
        Ok(refused) => match finish(client.lists.lists(), out, &mut client.page) {
            Ok(()) => Ok(refused),
            Err(stop) => Err(stop),
        },
        Err(stop) => Err(stop),
    }
}

/// Makes a run: loads the lists that the keeper keeps, makes the rounds of the plan, saves the lists after each round that
/// installed one, and at the end writes a line for each list. Answers whether a round brought no message or an update
/// that was refused.
///
/// A text that is kept and is no store is told, and the run begins with empty lists. What was printed goes to the output
/// before each round, so before the clock is waited for, and before each time that the lists are saved. A run that stops while
/// rounds are left writes no line of a list.
///
/// The steps are public too: `open_store`, and for each round `write_page` and `take_round`.
pub fn run<O: Sink, K: Keeper, N: Line, G: Gate>(
    alloc: Global,
    plan: &Plan,
    out: &mut O,
    keep: &mut K,
    line: &mut N,
    gate: &G,
) -> Result<bool, RunStop>
    requires some { 0 < length plan.now.names }
    requires few { length plan.now.names ≤ most_lists }
    requires target { IsTarget plan.now.target }

    // It came to its end, or stopped for its reason.
    ensures ends { EndsRun plan.now result
        (seen (N.view line.old).told (keeping (K.handed keep.old) (K.kept keep.old)) (O.contents out.old))
        (seen (N.view line.new).told (keeping (K.handed keep.new) (K.kept keep.new)) (O.contents out.new)) }

    // A fault is counted, and nothing else is.
    ensures output_failed { IsErrOf result RunStop.WriteFault → Rose (O.faults out.old) (O.faults out.new) }
    ensures output_kept { result ≢ Err RunStop.WriteFault → O.faults out.new ≡ O.faults out.old }
    ensures keeper_failed { IsErrOf result RunStop.KeepFault → Rose (K.faults keep.old) (K.faults keep.new) }
    ensures keeper_kept { result ≢ Err RunStop.KeepFault → K.faults keep.new ≡ K.faults keep.old }

    // The line's objects are the same.
    ensures same { (N.view line.new).objects ≡ (N.view line.old).objects }
{
    let mut client = match open_store(alloc, plan.names.as_slice(), keep, line) {
        Ok(client) => client,
        Err(stop) => return Err(stop),
    };
    run_opened(alloc, plan, &mut client, out, keep, line, gate)
}
