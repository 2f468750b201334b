ghost use Rattle.std.specs.Prelude.{◌≡◌, ◌≢◌, IfErr, IfOk, OnOk, IsErrOf, Err, is_ok};
ghost use Rattle.std.specs.List.{list_any};
ghost use Rattle.client_rounds.specs.Ended.{IsClientToldOf, StopsClientTelling};
ghost use Rattle.sb_outside.specs.Outside.{Rose, appended};
ghost use Rattle.sb_round.specs.declared.rounds.Taken.{Taken as TakenUpdate};
ghost use Rattle.update_client.specs.Step.{is_installed, is_refused};
ghost use Rattle.update_run.specs.Printed.{has_refusal, told_end};
ghost use Rattle.update_run.specs.Saved.{HasSaved, has_installed, keeping, saved_after};

use crate::rounds::ClientRoundTold;
use sb_model::{Bytes, Row};
use sb_outside::{Failed, Keeper, Sink, flush};
use sb_round::{RoundEnd, RoundFault, Taken};
use std::alloc::Global;
use update_client::ClientLists;
use update_run::{RunStop, tell_round};

fn any_refused(taken: &[Taken]) -> bool
    ensures { result ≡ list_any (λ (one : TakenUpdate). is_refused one.result) taken.now }
{
    taken.iter().any(|one| one.result.is_refused())
}

fn any_installed(taken: &[Taken]) -> bool
    ensures { result ≡ list_any (λ (one : TakenUpdate). is_installed one.result) taken.now }
{
    taken.iter().any(|one| one.result.is_installed())
}

/// What a caller is told of a round that came to this.
fn told_of(taken: &Result<Row<Taken>, RoundFault>) -> ClientRoundTold
    ensures refused { result.refused ≡ has_refusal taken.now }
    ensures installed { result.installed ≡ has_installed taken.now }
    ensures answered { result.answered ≡ is_ok taken.now }
{
    match taken {
        Ok(taken) => ClientRoundTold {
            refused: any_refused(taken.as_slice()),
            installed: any_installed(taken.as_slice()),
            answered: true,
        },
        Err(_) => ClientRoundTold {
            refused: true,
            installed: false,
            answered: false,
        },
    }
}

/// Tells of the round of this number that came to these lists, and saves them if it installed one. All of its lines are written before
/// this is over.
#[tactic(auto, using(crate::proofs::Ways::way_whole, crate::proofs::Ways::way_cut))]
pub(crate) fn tell_and_save<O: Sink, K: Keeper>(
    alloc: Global,
    number: u64,
    end: &RoundEnd,
    lists: &ClientLists,
    out: &mut O,
    keep: &mut K,
) -> Result<ClientRoundTold, RunStop>
    ensures told { IfOk result (IsClientToldOf end.now) }
    ensures saved { OnOk result (HasSaved (saved_after end.now.taken lists.now) (keeping (K.handed keep.old) (K.kept keep.old))
        (keeping (K.handed keep.new) (K.kept keep.new))) }
    ensures text { OnOk result (O.contents out.new ≡ appended (O.contents out.old) (told_end number lists.now end.now)) }
    ensures stopped { IfErr result (λ stop. StopsClientTelling stop number end.now lists.now (keeping (K.handed keep.old) (K.kept keep.old))
        (keeping (K.handed keep.new) (K.kept keep.new)) (O.contents out.old) (O.contents out.new)) }
    ensures output_failed { IsErrOf result RunStop.WriteFault → Rose (O.faults out.old) (O.faults out.new) }
    ensures output_kept { result ≢ Err RunStop.WriteFault → O.faults out.new ≡ O.faults out.old }
    ensures keeper_failed { IsErrOf result RunStop.KeepFault → Rose (K.faults keep.old) (K.faults keep.new) }
    ensures keeper_kept { result ≢ Err RunStop.KeepFault → K.faults keep.new ≡ K.faults keep.old }
{
    let told = told_of(&end.taken);
    let mut page = Bytes::new(alloc);
    match tell_round(alloc, number, end, lists, out, keep, &mut page) {
        Ok(()) => match flush(out, &mut page) {
            Ok(()) => Ok(told),
            Err(Failed) => Err(RunStop::WriteFault),
        },
        Err(stop) => Err(stop),
    }
}
