ghost use Rattle.std.specs.Prelude.{◌≡◌, ◌≢◌, ◌++◌, ◌∷◌, [], OnOk, IfErr, IsErrOf, IsTrue, Err};
ghost use Rattle.std.specs.List.{list_any};
ghost use Rattle.sb_outside.specs.Outside.{Rose};
ghost use Rattle.sb_outside.specs.Writing.{IsOnItsWay};
ghost use Rattle.update_client.specs.Step.{is_installed};
ghost use Rattle.sb_round.specs.declared.rounds.Taken.{Taken as TakenUpdate};
ghost use Rattle.update_run.specs.Saved.{keeping, HasSaved, FailsToSave, has_installed as has_installed_one, saved_after};
ghost use Rattle.update_run.specs.Printed.{saved_line, saved_part, told_end};
ghost use Rattle.update_run.specs.Rounding.{StopsSaving};
ghost use Rattle.update_run.specs.Steps.{StopsTelling};

use crate::RunStop;
use crate::printing::{push_not_answered, push_saved_line};
use client_store::write_store;
use sb_model::{Bytes, OutOfMemory, Row};
use sb_outside::{KeepFault, Keeper, Sink, flush};
use sb_round::{RoundEnd, RoundFault, Taken, push_round};
use std::alloc::Global;
use update_client::ClientLists;

fn any_installed(taken: &[Taken]) -> bool
    ensures { result ≡ list_any (λ (one : TakenUpdate). is_installed one.result) taken.now }
{
    taken.iter().any(|one| one.result.is_installed())
}

/// Whether a round installed a list.
pub(crate) fn has_installed(taken: &Result<Row<Taken>, RoundFault>) -> bool
    ensures { result ≡ has_installed_one taken.now }
{
    match taken {
        Ok(taken) => any_installed(taken.as_slice()),
        Err(_) => false,
    }
}

/// Hands the store of the lists to the keeper.
fn hand_in<K: Keeper>(alloc: Global, lists: &ClientLists, keep: &mut K) -> Result<(), RunStop>
    ensures saved { OnOk result (HasSaved (lists.now ∷ []) (keeping (K.handed keep.old) (K.kept keep.old))
        (keeping (K.handed keep.new) (K.kept keep.new))) }
    ensures fails { IsErrOf result RunStop.KeepFault → FailsToSave lists.now (keeping (K.handed keep.old) (K.kept keep.old))
        (keeping (K.handed keep.new) (K.kept keep.new)) }
    ensures refused { IsErrOf result RunStop.OutOfMemory →
        keeping (K.handed keep.new) (K.kept keep.new) ≡ keeping (K.handed keep.old) (K.kept keep.old) }
    ensures no_output { result ≢ Err RunStop.WriteFault }
    ensures keeper_failed { IsErrOf result RunStop.KeepFault → Rose (K.faults keep.old) (K.faults keep.new) }
    ensures keeper_kept { result ≢ Err RunStop.KeepFault → K.faults keep.new ≡ K.faults keep.old }
{
    let text = write_store(alloc, lists)?;
    match keep.replace(text.as_slice()) {
        Ok(()) => Ok(()),
        Err(KeepFault::Failed) => Err(RunStop::KeepFault),
        Err(KeepFault::OutOfMemory) => Err(RunStop::OutOfMemory),
    }
}

/// Saves the lists in the round of this number, after what was printed went to the output. The line that tells so waits then.
fn save<O: Sink, K: Keeper>(
    alloc: Global,
    number: u64,
    lists: &ClientLists,
    out: &mut O,
    keep: &mut K,
    page: &mut Bytes,
) -> Result<(), RunStop>
    ensures saved { OnOk result (HasSaved (lists.now ∷ []) (keeping (K.handed keep.old) (K.kept keep.old))
        (keeping (K.handed keep.new) (K.kept keep.new))) }
    ensures text { OnOk result (IsOnItsWay (O.contents out.old) (O.contents out.new) page.new
        (page.old ++ saved_line number)) }
    ensures waits { OnOk result (page.new ≢ []) }
    ensures stopped { IfErr result (λ stop. StopsSaving stop number lists.now (keeping (K.handed keep.old) (K.kept keep.old))
        (keeping (K.handed keep.new) (K.kept keep.new)) (O.contents out.old) (O.contents out.new) page.old) }
    ensures output_failed { IsErrOf result RunStop.WriteFault → Rose (O.faults out.old) (O.faults out.new) }
    ensures output_kept { result ≢ Err RunStop.WriteFault → O.faults out.new ≡ O.faults out.old }
    ensures keeper_failed { IsErrOf result RunStop.KeepFault → Rose (K.faults keep.old) (K.faults keep.new) }
    ensures keeper_kept { result ≢ Err RunStop.KeepFault → K.faults keep.new ≡ K.faults keep.old }
{
    flush(out, page)?;
    hand_in(alloc, lists, keep)?;
    push_saved_line(page, number)?;
    Ok(())
}

/// Saves the lists where the round of this number installed one. Some text waits before, and some after.
fn save_installed<O: Sink, K: Keeper>(
    alloc: Global,
    number: u64,
    end: &RoundEnd,
    lists: &ClientLists,
    out: &mut O,
    keep: &mut K,
    page: &mut Bytes,
) -> Result<(), RunStop>
    requires { page.old ≢ [] }
    ensures saved { OnOk result (HasSaved (saved_after end.now.taken lists.now) (keeping (K.handed keep.old) (K.kept keep.old))
        (keeping (K.handed keep.new) (K.kept keep.new))) }
    ensures text { OnOk result (IsOnItsWay (O.contents out.old) (O.contents out.new) page.new
        (page.old ++ saved_part number end.now.taken)) }
    ensures waits { OnOk result (page.new ≢ []) }
    ensures some { IfErr result (λ _. IsTrue (has_installed_one end.now.taken)) }
    ensures stopped { IfErr result (λ stop. StopsSaving stop number lists.now (keeping (K.handed keep.old) (K.kept keep.old))
        (keeping (K.handed keep.new) (K.kept keep.new)) (O.contents out.old) (O.contents out.new) page.old) }
    ensures output_failed { IsErrOf result RunStop.WriteFault → Rose (O.faults out.old) (O.faults out.new) }
    ensures output_kept { result ≢ Err RunStop.WriteFault → O.faults out.new ≡ O.faults out.old }
    ensures keeper_failed { IsErrOf result RunStop.KeepFault → Rose (K.faults keep.old) (K.faults keep.new) }
    ensures keeper_kept { result ≢ Err RunStop.KeepFault → K.faults keep.new ≡ K.faults keep.old }
{
    if has_installed(&end.taken) {
        return save(alloc, number, lists, out, keep, page);
    }
    Ok(())
}

/// Tells of the round of this number that was made, and saves the lists if it installed one. Behind all this it tells of the lists for
/// which the round's answer had no update. Nothing waits to be written before it. What was printed goes to the output before the
/// keeper is handed a store, and the last of the lines wait in the page.
pub fn tell_round<O: Sink, K: Keeper>(
    alloc: Global,
    number: u64,
    end: &RoundEnd,
    lists: &ClientLists,
    out: &mut O,
    keep: &mut K,
    page: &mut Bytes,
) -> Result<(), RunStop>
    requires { page.old ≡ [] }
    ensures saved { OnOk result (HasSaved (saved_after end.now.taken lists.now) (keeping (K.handed keep.old) (K.kept keep.old))
        (keeping (K.handed keep.new) (K.kept keep.new))) }
    ensures text { OnOk result (IsOnItsWay (O.contents out.old) (O.contents out.new) page.new (told_end number lists.now end.now)) }
    ensures stopped { IfErr result (λ stop. StopsTelling stop number end.now lists.now (keeping (K.handed keep.old) (K.kept keep.old))
        (keeping (K.handed keep.new) (K.kept keep.new)) (O.contents out.old) (O.contents out.new)) }
    ensures output_failed { IsErrOf result RunStop.WriteFault → Rose (O.faults out.old) (O.faults out.new) }
    ensures output_kept { result ≢ Err RunStop.WriteFault → O.faults out.new ≡ O.faults out.old }
    ensures keeper_failed { IsErrOf result RunStop.KeepFault → Rose (K.faults keep.old) (K.faults keep.new) }
    ensures keeper_kept { result ≢ Err RunStop.KeepFault → K.faults keep.new ≡ K.faults keep.old }
{
    let Ok(()) = push_round(page, number, end) else {
        return Err(RunStop::OutOfMemory);
    };
    match save_installed(alloc, number, end, lists, out, keep, page) {
        Ok(()) => match push_not_answered(page, number, lists.lists(), &end.taken) {
            Ok(()) => Ok(()),
            Err(OutOfMemory) => Err(RunStop::OutOfMemory),
        },
        Err(stop) => Err(stop),
    }
}
