ghost use Rattle.std.specs.Prelude.{◌≡◌, ◌≢◌, ◌≤◌, [], IfOk, OnOk, OnErr, IfErr, IsErrOf, Err};
ghost use Rattle.std.specs.List.{list_any};
ghost use Rattle.http_edge.specs.Exchanges.{IsTarget};
ghost use Rattle.sb_outside.specs.Outside.{Rose};
ghost use Rattle.sb_outside.specs.Writing.{HasFront};
ghost use Rattle.sb_round.specs.declared.rounds.Taken.{Taken as TakenUpdate};
ghost use Rattle.update_client.specs.Step.{is_refused};
ghost use Rattle.update_run.specs.Printed.{has_refusal as has_refusal_one};
ghost use Rattle.update_run.specs.Rounding.{WritesAndTakes, StopsOneRound, TakesAllRounds, StopsRounds, text_so_far};
ghost use Rattle.update_run.specs.Run.{seen};
ghost use Rattle.update_run.specs.Saved.{keeping};
ghost use Rattle.update_run.specs.Steps.{WritesPage, TakesRound, TellsRound, StopsRound};

use crate::saving::{has_installed, tell_round};
use crate::{Client, Plan, RunStop};
use client_line::Line;
use sb_model::{OutOfMemory, Row};
use sb_outside::{Failed, Gate, Keeper, Point, Sink, flush};
use sb_round::{RoundFault, Taken, rounds_go_on, run_round};
use std::alloc::Global;

fn any_refused(taken: &[Taken]) -> bool
    ensures { result ≡ list_any (λ (one : TakenUpdate). is_refused one.result) taken.now }
{
    taken.iter().any(|one| one.result.is_refused())
}

/// Whether a round brought no message, or an update that was refused.
fn has_refusal(taken: &Result<Row<Taken>, RoundFault>) -> bool
    ensures { result ≡ has_refusal_one taken.now }
{
    match taken {
        Ok(taken) => any_refused(taken.as_slice()),
        Err(_) => true,
    }
}

/// Writes the text of a client that waits. After an `Err` a front of it is written that is not the whole, and the client is as
/// before.
pub fn write_page<O: Sink>(client: &mut Client, out: &mut O) -> Result<(), Failed>
    ensures writes { OnOk result (WritesPage client.old client.new (O.contents out.old) (O.contents out.new)) }
    ensures front { OnErr result (HasFront (O.contents out.old) (O.contents out.new) client.old.page) }
    ensures client { OnErr result (client.new ≡ client.old) }

    // A fault is counted, and nothing else is.
    ensures kept { OnOk result (O.faults out.new ≡ O.faults out.old) }
    ensures failed { OnErr result (Rose (O.faults out.old) (O.faults out.new)) }
{
    flush(out, &mut client.page)
}

/// What is told of a round.
#[derive(Clone, Copy, Debug, PartialEq, Eq)]
pub struct RoundTold {
    /// It brought no message, or an update that was refused.
    pub refused: bool,
    /// It installed a list, so that the lists were saved.
    pub installed: bool,
}

/// Makes the round of this number for a client of which no text waits: it waits until the round is allowed, holds its session,
/// tells what came of it, and saves the lists where one was installed. Answers what is told of it.
///
/// What it tells is written before the lists are saved, and else waits. The lists are saved before a line says so.
pub fn make_round<O: Sink, K: Keeper, N: Line>(
    alloc: Global,
    plan: &Plan,
    number: u32,
    client: &mut Client,
    out: &mut O,
    keep: &mut K,
    line: &mut N,
) -> Result<RoundTold, RunStop>
    requires written { client.old.page ≡ [] }
    requires target { IsTarget plan.now.target }
    ensures took { IfOk result (λ told. TellsRound plan.now number client.old client.new
        (seen (N.view line.old).told (keeping (K.handed keep.old) (K.kept keep.old)) (O.contents out.old))
        (seen (N.view line.new).told (keeping (K.handed keep.new) (K.kept keep.new)) (O.contents out.new)) told) }
    ensures stopped { IfErr result (λ stop. StopsRound stop plan.now number client.old
        (seen (N.view line.old).told (keeping (K.handed keep.old) (K.kept keep.old)) (O.contents out.old))
        (seen (N.view line.new).told (keeping (K.handed keep.new) (K.kept keep.new)) (O.contents out.new))) }

    // A fault is counted, and nothing else is.
    ensures output_failed { IsErrOf result RunStop.WriteFault → Rose (O.faults out.old) (O.faults out.new) }
    ensures output_kept { result ≢ Err RunStop.WriteFault → O.faults out.new ≡ O.faults out.old }
    ensures keeper_failed { IsErrOf result RunStop.KeepFault → Rose (K.faults keep.old) (K.faults keep.new) }
    ensures keeper_kept { result ≢ Err RunStop.KeepFault → K.faults keep.new ≡ K.faults keep.old }
    ensures link_counted { (N.view line.old).told.faults ≤ (N.view line.new).told.faults }

    // The line's objects are the same.
    ensures same { (N.view line.new).objects ≡ (N.view line.old).objects }
{
    let end = match run_round(
        alloc,
        &mut client.lists,
        &mut client.waits,
        &plan.options,
        &plan.target,
        plan.need_digest,
        line,
    ) {
        Ok(end) => end,
        Err(OutOfMemory) => return Err(RunStop::OutOfMemory),
    };
    let number = u64::from(number);
    match tell_round(
        alloc,
        number,
        &end,
        &client.lists,
        out,
        keep,
        &mut client.page,
    ) {
        Ok(()) => Ok(RoundTold {
            refused: has_refusal(&end.taken),
            installed: has_installed(&end.taken),
        }),
        Err(stop) => Err(stop),
    }
}

/// Makes a round as `make_round` does. Answers whether it is told with a refusal.
pub fn take_round<O: Sink, K: Keeper, N: Line>(
    alloc: Global,
    plan: &Plan,
    number: u32,
    client: &mut Client,
    out: &mut O,
    keep: &mut K,
    line: &mut N,
) -> Result<bool, RunStop>
    requires written { client.old.page ≡ [] }
    requires target { IsTarget plan.now.target }
    ensures took { IfOk result (λ refused. TakesRound plan.now number client.old client.new
        (seen (N.view line.old).told (keeping (K.handed keep.old) (K.kept keep.old)) (O.contents out.old))
        (seen (N.view line.new).told (keeping (K.handed keep.new) (K.kept keep.new)) (O.contents out.new)) refused) }
    ensures stopped { IfErr result (λ stop. StopsRound stop plan.now number client.old
        (seen (N.view line.old).told (keeping (K.handed keep.old) (K.kept keep.old)) (O.contents out.old))
        (seen (N.view line.new).told (keeping (K.handed keep.new) (K.kept keep.new)) (O.contents out.new))) }

    // A fault is counted, and nothing else is.
    ensures output_failed { IsErrOf result RunStop.WriteFault → Rose (O.faults out.old) (O.faults out.new) }
    ensures output_kept { result ≢ Err RunStop.WriteFault → O.faults out.new ≡ O.faults out.old }
    ensures keeper_failed { IsErrOf result RunStop.KeepFault → Rose (K.faults keep.old) (K.faults keep.new) }
    ensures keeper_kept { result ≢ Err RunStop.KeepFault → K.faults keep.new ≡ K.faults keep.old }

    // The line's objects are the same.
    ensures same { (N.view line.new).objects ≡ (N.view line.old).objects }
{
    match make_round(alloc, plan, number, client, out, keep, line) {
        Ok(told) => Ok(told.refused),
        Err(stop) => Err(stop),
    }
}

/// Writes what waits, and makes the round of this number.
fn one_round<O: Sink, K: Keeper, N: Line, G: Gate>(
    alloc: Global,
    plan: &Plan,
    number: u32,
    client: &mut Client,
    out: &mut O,
    keep: &mut K,
    line: &mut N,
    gate: &G,
) -> Result<bool, RunStop>
    requires { IsTarget plan.now.target }
    ensures took { IfOk result (λ refused. WritesAndTakes plan.now number client.old client.new
        (seen (N.view line.old).told (keeping (K.handed keep.old) (K.kept keep.old)) (O.contents out.old))
        (seen (N.view line.new).told (keeping (K.handed keep.new) (K.kept keep.new)) (O.contents out.new)) refused) }
    ensures stopped { IfErr result (λ stop. StopsOneRound stop plan.now number client.old
        (seen (N.view line.old).told (keeping (K.handed keep.old) (K.kept keep.old)) (O.contents out.old))
        (seen (N.view line.new).told (keeping (K.handed keep.new) (K.kept keep.new)) (O.contents out.new))) }
    ensures output_failed { IsErrOf result RunStop.WriteFault → Rose (O.faults out.old) (O.faults out.new) }
    ensures output_kept { result ≢ Err RunStop.WriteFault → O.faults out.new ≡ O.faults out.old }
    ensures keeper_failed { IsErrOf result RunStop.KeepFault → Rose (K.faults keep.old) (K.faults keep.new) }
    ensures keeper_kept { result ≢ Err RunStop.KeepFault → K.faults keep.new ≡ K.faults keep.old }
    ensures same { (N.view line.new).objects ≡ (N.view line.old).objects }
{
    write_page(client, out)?;
    gate.pass(Point::Round(number));
    take_round(alloc, plan, number, client, out, keep, line)
}

/// Makes the rounds of a run. Answers whether one of them is told with a refusal.
pub(crate) fn all_rounds<O: Sink, K: Keeper, N: Line, G: Gate>(
    alloc: Global,
    plan: &Plan,
    client: &mut Client,
    out: &mut O,
    keep: &mut K,
    line: &mut N,
    gate: &G,
) -> Result<bool, RunStop>
    requires { IsTarget plan.now.target }
    ensures took { IfOk result (λ refused. TakesAllRounds plan.now client.old client.new
        (seen (N.view line.old).told (keeping (K.handed keep.old) (K.kept keep.old)) (O.contents out.old))
        (seen (N.view line.new).told (keeping (K.handed keep.new) (K.kept keep.new)) (O.contents out.new)) refused) }
    ensures stopped { IfErr result (λ stop. StopsRounds stop plan.now client.old (text_so_far client.old)
        (seen (N.view line.old).told (keeping (K.handed keep.old) (K.kept keep.old)) (O.contents out.old))
        (seen (N.view line.new).told (keeping (K.handed keep.new) (K.kept keep.new)) (O.contents out.new))) }
    ensures output_failed { IsErrOf result RunStop.WriteFault → Rose (O.faults out.old) (O.faults out.new) }
    ensures output_kept { result ≢ Err RunStop.WriteFault → O.faults out.new ≡ O.faults out.old }
    ensures keeper_failed { IsErrOf result RunStop.KeepFault → Rose (K.faults keep.old) (K.faults keep.new) }
    ensures keeper_kept { result ≢ Err RunStop.KeepFault → K.faults keep.new ≡ K.faults keep.old }
    ensures same { (N.view line.new).objects ≡ (N.view line.old).objects }
{
    rounds_go_on();
    let mut refused = false;
    for made in 0..plan.rounds {
        let number = made + 1;
        match one_round(alloc, plan, number, client, out, keep, line, gate) {
            Ok(is_refused) => refused |= is_refused,
            Err(stop) => return Err(stop),
        }
    }
    Ok(refused)
}
