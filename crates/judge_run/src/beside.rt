ghost use Rattle.std.specs.Prelude.{◌≡◌, ◌≢◌, ◌≤◌, ◌+◌, ◌<◌, ◌^◌, [], ◌∷◌, length, IfOk, IfErr, IsErrOf, IsOk, Err};
ghost use Rattle.http_edge.specs.Exchanges.{IsTarget};
ghost use Rattle.input_lines.specs.Lines.{lines_of};
ghost use Rattle.parallel_checks.specs.Checks.{AreSeatsOf};
ghost use Rattle.sb_outside.specs.Outside.{Rose};
ghost use Rattle.snapshot_publish.specs.Publications.{IsPrefixOf};
ghost use Rattle.update_run.specs.Run.{seen};
ghost use Rattle.update_run.specs.Saved.{keeping};
ghost use Rattle.judge_run.specs.Beside.{ChecksBeside, StopsBeside};
ghost use Rattle.judge_run.specs.Rounds.{PublishesAllRounds, StopsPublishing};
ghost use Rattle.judge_run.specs.Run.{EndsUpdating};

use crate::beginning::Begun;
use crate::rounding::publish_rounds;
use crate::settled::report_checked;
use crate::updater::{CheckedUrls, UncheckedUrls, Updater};
use crate::{JudgePlan, JudgeStop, Judgement};
use client_line::Line;
use input_lines::{Lines, split_lines};
use parallel_checks::{check_all, seats_remain};
use sb_model::OutOfMemory;
use sb_outside::{Gate, Keeper, Sink};
use snapshot_publish::start;
use std::alloc::Global;
use std::sync::Wait;
use std::thread::Threads;
use update_run::{Client, Plan, RunStop};

// Begins to publish a copy of a client's lists, for as many seats as there are workers.
fn start_with<'t, R: Wait>(
    rt: &R,
    alloc: Global,
    client: Client,
    urls: Lines<'t>,
    workers: u32,
) -> Result<(Updater, UncheckedUrls<'t>), OutOfMemory>
    requires { (1 ≤ workers) × (workers ≤ 16) }
    ensures client { IfOk result (λ made. made.0.client ≡ client) }
    ensures list { IfOk result (λ made. made.0.publisher.list ≡ client.lists ∷ []) }
    ensures count { IfOk result (λ made. length made.1.seats ≡ workers) }
    ensures ours { IfOk result (λ made. AreSeatsOf made.0.publisher.boxes made.1.seats) }
    ensures urls { IfOk result (λ made. made.1.urls ≡ urls.entry) }
{
    let copy = client.lists.copy(alloc)?;
    let (publisher, seats) = start(rt, alloc, copy, workers)?;
    let updater = Updater { client, publisher };
    Ok((updater, UncheckedUrls { alloc, seats, urls }))
}

impl<'t> UncheckedUrls<'t> {
    /// Checks URLs on several threads, while this one makes the rounds of a plan and publishes what they install.
    ///
    /// # Errors
    ///
    /// As `publish_rounds`, once the threads have ended, and `OutOfMemory`.
    pub fn check_beside<R: Threads + Wait + Sync, O: Sink, K: Keeper, N: Line, G: Gate + Sync>(
        self,
        rt: &R,
        plan: &Plan,
        updater: &mut Updater,
        out: &mut O,
        keep: &mut K,
        line: &mut N,
        gate: &G,
    ) -> Result<CheckedUrls<'t>, RunStop>
        requires some { 0 < length self.seats }
        requires few { length self.urls < 2 ^ 32 }
        requires target { IsTarget plan.now.target }
        requires room { length updater.old.publisher.list + plan.now.rounds < 2 ^ 64 }
        ensures checked { IfOk result (λ checked. ChecksBeside plan.now updater.old.client updater.new.client updater.old.publisher.list updater.new.publisher.list self.entry checked
            (seen (N.view line.old).told (keeping (K.handed keep.old) (K.kept keep.old)) (O.contents out.old))
            (seen (N.view line.new).told (keeping (K.handed keep.new) (K.kept keep.new)) (O.contents out.new))) }
        ensures stopped { IfErr result (λ stop. StopsBeside stop plan.now updater.old.client updater.new.client updater.old.publisher.list updater.new.publisher.list
            (seen (N.view line.old).told (keeping (K.handed keep.old) (K.kept keep.old)) (O.contents out.old))
            (seen (N.view line.new).told (keeping (K.handed keep.new) (K.kept keep.new)) (O.contents out.new))) }

        // After an `Err` too.
        ensures published { IsPrefixOf updater.old.publisher.list updater.new.publisher.list }
        ensures boxes { updater.new.publisher.boxes ≡ updater.old.publisher.boxes }

        // A fault is counted, and nothing else is.
        ensures output_failed { IsErrOf result RunStop.WriteFault → Rose (O.faults out.old) (O.faults out.new) }
        ensures output_kept { result ≢ Err RunStop.WriteFault → O.faults out.new ≡ O.faults out.old }
        ensures keeper_failed { IsErrOf result RunStop.KeepFault → Rose (K.faults keep.old) (K.faults keep.new) }
        ensures keeper_kept { result ≢ Err RunStop.KeepFault → K.faults keep.new ≡ K.faults keep.old }
        ensures link_counted { (N.view line.old).told.faults ≤ (N.view line.new).told.faults }

        // Where no round is to be made, nothing is done but checks.
        ensures idle { plan.now.rounds ≡ 0 → (line.new ≡ line.old) × (keep.new ≡ keep.old) × (out.new ≡ out.old) }
        ensures idle_keeper { plan.now.rounds ≡ 0 → result ≢ Err RunStop.KeepFault }

        // The line's objects are the same.
        ensures same { (N.view line.new).objects ≡ (N.view line.old).objects }
    {
        let UncheckedUrls { alloc, seats, urls } = self;
        let mut rounds = || -> Result<bool, RunStop>
            requires { IsTarget plan.now.target × (length updater.now.publisher.list + plan.now.rounds < 2 ^ 64) }
            ensures made { IfOk result (λ refused. PublishesAllRounds plan.entry.now updater.entry.now.client updater.exit.now.client updater.entry.now.publisher.list updater.exit.now.publisher.list
                (seen (N.view line.entry.now).told (keeping (K.handed keep.entry.now) (K.kept keep.entry.now)) (O.contents out.entry.now))
                (seen (N.view line.exit.now).told (keeping (K.handed keep.exit.now) (K.kept keep.exit.now)) (O.contents out.exit.now)) refused) }
            ensures stopped { IfErr result (λ stop. StopsPublishing stop plan.entry.now updater.entry.now.client
                (seen (N.view line.entry.now).told (keeping (K.handed keep.entry.now) (K.kept keep.entry.now)) (O.contents out.entry.now))
                (seen (N.view line.exit.now).told (keeping (K.handed keep.exit.now) (K.kept keep.exit.now)) (O.contents out.exit.now))) }
            ensures published { IsPrefixOf updater.entry.now.publisher.list updater.exit.now.publisher.list }
            ensures boxes { updater.exit.now.publisher.boxes ≡ updater.entry.now.publisher.boxes }
            ensures output_failed { IsErrOf result RunStop.WriteFault → Rose (O.faults out.entry.now) (O.faults out.exit.now) }
            ensures output_kept { result ≢ Err RunStop.WriteFault → O.faults out.exit.now ≡ O.faults out.entry.now }
            ensures keeper_failed { IsErrOf result RunStop.KeepFault → Rose (K.faults keep.entry.now) (K.faults keep.exit.now) }
            ensures keeper_kept { result ≢ Err RunStop.KeepFault → K.faults keep.exit.now ≡ K.faults keep.entry.now }
            ensures link_counted { (N.view line.entry.now).told.faults ≤ (N.view line.exit.now).told.faults }
            ensures idle { plan.entry.now.rounds ≡ 0 → (line.exit.now ≡ line.entry.now) × (keep.exit.now ≡ keep.entry.now) × (out.exit.now ≡ out.entry.now) }
            ensures never_stops { plan.entry.now.rounds ≡ 0 → IsOk result }
            ensures same { (N.view line.exit.now).objects ≡ (N.view line.entry.now).objects }
        { publish_rounds(rt, alloc, plan, updater, out, keep, line, gate) };
        let (checked, made) = check_all(rt, alloc, seats, &urls, gate, &mut rounds);
        match made {
            Ok(refused) => match checked {
                Ok(run) => Ok(CheckedUrls { run, urls, refused }),
                Err(OutOfMemory) => Err(RunStop::OutOfMemory),
            },
            Err(stop) => Err(stop),
        }
    }
}

/// Judges URLs beside the rounds of a plan: publishes the lists of its client as publication 0, has each URL checked on one of the workers'
/// threads meanwhile, and then resolves each by the publication that its check names.
pub(crate) fn judge_beside<R: Threads + Wait + Sync, O: Sink, K: Keeper, N: Line, G: Gate + Sync>(
    rt: &R,
    alloc: Global,
    plan: &JudgePlan,
    begun: Begun,
    out: &mut O,
    keep: &mut K,
    line: &mut N,
    gate: &G,
) -> Result<Judgement, JudgeStop>
    requires workers { (1 ≤ plan.now.workers) × (plan.now.workers ≤ 16) }
    requires few { length (lines_of begun.text) < 2 ^ 32 }
    requires target { IsTarget plan.now.updates.target }
    ensures ends { EndsUpdating plan.now result begun.client begun.finds (lines_of begun.text)
        (seen (N.view line.old).told (keeping (K.handed keep.old) (K.kept keep.old)) (O.contents out.old))
        (seen (N.view line.new).told (keeping (K.handed keep.new) (K.kept keep.new)) (O.contents out.new)) }
    ensures output_failed { IsErrOf result JudgeStop.WriteFault → Rose (O.faults out.old) (O.faults out.new) }
    ensures output_kept { result ≢ Err JudgeStop.WriteFault → O.faults out.new ≡ O.faults out.old }
    ensures keeper_failed { IsErrOf result JudgeStop.KeepFault → Rose (K.faults keep.old) (K.faults keep.new) }
    ensures keeper_kept { result ≢ Err JudgeStop.KeepFault → K.faults keep.new ≡ K.faults keep.old }
    ensures idle_keeper { plan.now.updates.rounds ≡ 0 → result ≢ Err JudgeStop.KeepFault }
    ensures same { (N.view line.new).objects ≡ (N.view line.old).objects }
{
    // looked at for the prover: how many rounds there can be
    let _rounds = plan.updates.rounds;
    seats_remain();
    let Begun {
        text,
        client,
        finds,
    } = begun;
    let Ok(urls) = split_lines(alloc, text.as_slice()) else {
        return Err(JudgeStop::OutOfMemory);
    };
    let Ok((mut updater, unchecked)) = start_with(rt, alloc, client, urls, plan.workers) else {
        return Err(JudgeStop::OutOfMemory);
    };
    match unchecked.check_beside(rt, &plan.updates, &mut updater, out, keep, line, gate) {
        Ok(checked) => report_checked(alloc, plan, &mut updater, checked, finds, out, line),
        Err(stop) => Err(JudgeStop::from(stop)),
    }
}
