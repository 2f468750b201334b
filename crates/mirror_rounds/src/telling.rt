ghost use Rattle.std.specs.Prelude.{◌≡◌, ◌≢◌, ◌≤◌, ◌<◌, List, Option, Some, IfErr, IfOk, IfSome, OnErr, OnOk, IsErrOf, Err, is_ok};
ghost use Rattle.std.specs.List.{list_any};
ghost use Rattle.mirror_places.specs.Places.{last_place, names_of_lists, newest_lists, newest_place};
ghost use Rattle.update_client.specs.Held.{Held};
ghost use Rattle.mirror_rounds.specs.Ended.{IsToldOf, StopsMirrorTelling};
ghost use Rattle.mirror_rounds.specs.Rounds.{HoldsPlace, IsNextPlace};
ghost use Rattle.sb_outside.specs.Outside.{Rose, appended};
ghost use Rattle.sb_round.specs.declared.rounds.Taken.{Taken as TakenUpdate};
ghost use Rattle.update_client.specs.Step.{is_installed, is_refused};
ghost use Rattle.update_run.specs.Printed.{has_refusal, told_end};
ghost use Rattle.update_run.specs.Saved.{HasSaved, has_installed, keeping, saved_after};

use crate::rounds::MirrorRoundTold;
use mirror_places::Mirror;
use sb_model::{Bytes, OutOfMemory, Row};
use sb_outside::{Failed, Keeper, Sink, flush};
use sb_round::{RoundEnd, RoundFault, Taken};
use std::alloc::Global;
use update_client::ClientLists;
use update_run::{RunStop, tell_round};

fn any_refused(taken: &[Taken]) -> bool
    ensures { result ≡ list_any (λ (one : TakenUpdate). is_refused one.result) taken.now }
{
    taken.iter().any(|one| one.result.is_refused())
}

fn any_installed(taken: &[Taken]) -> bool
    ensures { result ≡ list_any (λ (one : TakenUpdate). is_installed one.result) taken.now }
{
    taken.iter().any(|one| one.result.is_installed())
}

/// What is told of a round with this end.
fn told_of(taken: &Result<Row<Taken>, RoundFault>) -> MirrorRoundTold
    ensures refused { result.refused ≡ has_refusal taken.now }
    ensures installed { result.installed ≡ has_installed taken.now }
    ensures answered { result.answered ≡ is_ok taken.now }
{
    match taken {
        Ok(taken) => MirrorRoundTold {
            refused: any_refused(taken.as_slice()),
            installed: any_installed(taken.as_slice()),
            answered: true,
        },
        Err(_) => MirrorRoundTold {
            refused: true,
            installed: false,
            answered: false,
        },
    }
}

/// The lists that a place is to have, if a round installed one.
fn place_of(
    alloc: Global,
    installed: bool,
    lists: &ClientLists,
) -> Result<Option<ClientLists>, OutOfMemory>
    ensures { IfOk result (λ place. IsNextPlace installed lists.now place) }
{
    if installed {
        return Ok(Some(lists.copy(alloc)?));
    }
    Ok(None)
}

/// Holds lists as the newest place, if there are some.
fn hold(mirror: &mut Mirror, place: Option<ClientLists>)
    requires named { IfSome place (λ lists. (newest : List Held) → newest_lists mirror.old ≡ Some newest → names_of_lists newest ≡ names_of_lists lists) }
    requires few { newest_place mirror.old < last_place }
    ensures { HoldsPlace place mirror.old mirror.new }
{
    if let Some(lists) = place {
        mirror.push(lists);
    }
}

/// Tells of the round of this number that was made and came to these lists, saves them if it installed one, and then holds them as a
/// place, if all its lines were written.
#[tactic(auto, using(crate::proofs::Ways::way_whole, crate::proofs::Ways::way_cut))]
pub(crate) fn tell_and_hold<O: Sink, K: Keeper>(
    alloc: Global,
    number: u64,
    end: &RoundEnd,
    lists: &ClientLists,
    mirror: &mut Mirror,
    out: &mut O,
    keep: &mut K,
) -> Result<MirrorRoundTold, RunStop>
    requires named { (newest : List Held) → newest_lists mirror.old ≡ Some newest → names_of_lists newest ≡ names_of_lists lists.now }
    requires few { newest_place mirror.old < last_place }
    ensures told { IfOk result (IsToldOf end.now) }
    ensures saved { OnOk result (HasSaved (saved_after end.now.taken lists.now) (keeping (K.handed keep.old) (K.kept keep.old))
        (keeping (K.handed keep.new) (K.kept keep.new))) }
    ensures text { OnOk result (O.contents out.new ≡ appended (O.contents out.old) (told_end number lists.now end.now)) }
    ensures held { OnOk result ((place : Option (List Held)) × IsNextPlace (has_installed end.now.taken) lists.now place
        × HoldsPlace place mirror.old mirror.new) }
    ensures unheld { OnErr result (mirror.new ≡ mirror.old) }
    ensures stopped { IfErr result (λ stop. StopsMirrorTelling stop number end.now lists.now (keeping (K.handed keep.old) (K.kept keep.old))
        (keeping (K.handed keep.new) (K.kept keep.new)) (O.contents out.old) (O.contents out.new)) }
    ensures output_failed { IsErrOf result RunStop.WriteFault → Rose (O.faults out.old) (O.faults out.new) }
    ensures output_kept { result ≢ Err RunStop.WriteFault → O.faults out.new ≡ O.faults out.old }
    ensures keeper_failed { IsErrOf result RunStop.KeepFault → Rose (K.faults keep.old) (K.faults keep.new) }
    ensures keeper_kept { result ≢ Err RunStop.KeepFault → K.faults keep.new ≡ K.faults keep.old }
{
    let told = told_of(&end.taken);
    let place = match place_of(alloc, told.installed, lists) {
        Ok(place) => place,
        Err(OutOfMemory) => return Err(RunStop::OutOfMemory),
    };
    let mut page = Bytes::new(alloc);
    match tell_round(alloc, number, end, lists, out, keep, &mut page) {
        Ok(()) => match flush(out, &mut page) {
            Ok(()) => {
                hold(mirror, place);
                Ok(told)
            }
            Err(Failed) => Err(RunStop::WriteFault),
        },
        Err(stop) => Err(stop),
    }
}
