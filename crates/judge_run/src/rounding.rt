ghost use Rattle.std.specs.Prelude.{◌≡◌, ◌≢◌, ◌≤◌, ◌+◌, ◌^◌, ◌<◌, length, IfOk, IfErr, IsErrOf, IsOk, Err};
ghost use Rattle.http_edge.specs.Exchanges.{IsTarget};
ghost use Rattle.sb_outside.specs.Outside.{Rose};
ghost use Rattle.snapshot_publish.specs.Publications.{IsPrefixOf};
ghost use Rattle.update_run.specs.Rounding.{StopsOneRound};
ghost use Rattle.update_run.specs.Run.{seen};
ghost use Rattle.update_run.specs.Saved.{keeping};
ghost use Rattle.judge_run.specs.Rounds.{WritesAndTells, PublishesAllRounds, StopsPublishing};

use crate::publishing::publish_installed;
use crate::updater::Updater;
use client_line::Line;
use sb_model::OutOfMemory;
use sb_outside::{Gate, Keeper, Point, Sink};
use std::alloc::Global;
use std::sync::Wait;
use update_run::{
    Client, Plan, RoundTold, RunStop, make_round, steps_go_on, steps_save_and_stop, write_page,
};

// Writes what waits, and makes the round of this number.
fn one_round<O: Sink, K: Keeper, N: Line, G: Gate>(
    alloc: Global,
    plan: &Plan,
    number: u32,
    client: &mut Client,
    out: &mut O,
    keep: &mut K,
    line: &mut N,
    gate: &G,
) -> Result<RoundTold, RunStop>
    requires { IsTarget plan.now.target }
    ensures told { IfOk result (λ told. WritesAndTells plan.now number client.old client.new
        (seen (N.view line.old).told (keeping (K.handed keep.old) (K.kept keep.old)) (O.contents out.old))
        (seen (N.view line.new).told (keeping (K.handed keep.new) (K.kept keep.new)) (O.contents out.new)) told) }
    ensures stopped { IfErr result (λ stop. StopsOneRound stop plan.now number client.old
        (seen (N.view line.old).told (keeping (K.handed keep.old) (K.kept keep.old)) (O.contents out.old))
        (seen (N.view line.new).told (keeping (K.handed keep.new) (K.kept keep.new)) (O.contents out.new))) }
    ensures output_failed { IsErrOf result RunStop.WriteFault → Rose (O.faults out.old) (O.faults out.new) }
    ensures output_kept { result ≢ Err RunStop.WriteFault → O.faults out.new ≡ O.faults out.old }
    ensures keeper_failed { IsErrOf result RunStop.KeepFault → Rose (K.faults keep.old) (K.faults keep.new) }
    ensures keeper_kept { result ≢ Err RunStop.KeepFault → K.faults keep.new ≡ K.faults keep.old }
    ensures link_counted { (N.view line.old).told.faults ≤ (N.view line.new).told.faults }
    ensures same { (N.view line.new).objects ≡ (N.view line.old).objects }
{
    write_page(client, out)?;
    gate.pass(Point::Round(number));
    make_round(alloc, plan, number, client, out, keep, line)
}

/// Makes the rounds of a plan, each of which saves the lists and publishes a copy of them where it installed one. Answers whether one of
/// them is told with a refusal.
///
/// Before a round it passes `Point::Round` of its number, and after a publication `Point::Published`. It may wait for seats that are looking.
///
/// # Errors
///
/// `WriteFault` and `KeepFault` where the output or the keeper fails, and `OutOfMemory`. What was published before stays so.
pub fn publish_rounds<R: Wait, O: Sink, K: Keeper, N: Line, G: Gate>(
    rt: &R,
    alloc: Global,
    plan: &Plan,
    updater: &mut Updater,
    out: &mut O,
    keep: &mut K,
    line: &mut N,
    gate: &G,
) -> Result<bool, RunStop>
    requires target { IsTarget plan.now.target }
    requires room { length updater.old.publisher.list + plan.now.rounds < 2 ^ 64 }
    ensures made { IfOk result (λ refused. PublishesAllRounds plan.now updater.old.client updater.new.client updater.old.publisher.list updater.new.publisher.list
        (seen (N.view line.old).told (keeping (K.handed keep.old) (K.kept keep.old)) (O.contents out.old))
        (seen (N.view line.new).told (keeping (K.handed keep.new) (K.kept keep.new)) (O.contents out.new)) refused) }
    ensures stopped { IfErr result (λ stop. StopsPublishing stop plan.now updater.old.client
        (seen (N.view line.old).told (keeping (K.handed keep.old) (K.kept keep.old)) (O.contents out.old))
        (seen (N.view line.new).told (keeping (K.handed keep.new) (K.kept keep.new)) (O.contents out.new))) }

    // After an `Err` too.
    ensures published { IsPrefixOf updater.old.publisher.list updater.new.publisher.list }
    ensures boxes { updater.new.publisher.boxes ≡ updater.old.publisher.boxes }

    // A fault is counted, and nothing else is.
    ensures output_failed { IsErrOf result RunStop.WriteFault → Rose (O.faults out.old) (O.faults out.new) }
    ensures output_kept { result ≢ Err RunStop.WriteFault → O.faults out.new ≡ O.faults out.old }
    ensures keeper_failed { IsErrOf result RunStop.KeepFault → Rose (K.faults keep.old) (K.faults keep.new) }
    ensures keeper_kept { result ≢ Err RunStop.KeepFault → K.faults keep.new ≡ K.faults keep.old }
    ensures link_counted { (N.view line.old).told.faults ≤ (N.view line.new).told.faults }

    // Where no round is to be made, nothing is done.
    ensures idle { plan.now.rounds ≡ 0 → (line.new ≡ line.old) × (keep.new ≡ keep.old) × (out.new ≡ out.old) }
    ensures never_stops { plan.now.rounds ≡ 0 → IsOk result }

    // The line's objects are the same.
    ensures same { (N.view line.new).objects ≡ (N.view line.old).objects }
{
    steps_go_on();
    steps_save_and_stop();
    let mut refused = false;
    for made in 0..plan.rounds {
        let number = made + 1;
        let told = match one_round(
            alloc,
            plan,
            number,
            &mut updater.client,
            out,
            keep,
            line,
            gate,
        ) {
            Ok(told) => told,
            Err(stop) => return Err(stop),
        };
        match publish_installed(
            rt,
            alloc,
            told.installed,
            &updater.client.lists,
            &mut updater.publisher,
            gate,
        ) {
            Ok(()) => refused |= told.refused,
            Err(OutOfMemory) => return Err(RunStop::OutOfMemory),
        }
    }
    Ok(refused)
}
