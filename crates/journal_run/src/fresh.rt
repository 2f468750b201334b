ghost use Rattle.std.specs.Prelude.{◌≡◌, ◌≢◌, ◌⊎◌, ◌++◌, ◌<◌, ◌^◌, true, Ok, map, IfOk, OnOk, OnErr};
ghost use Rattle.std.specs.List.{flat_map};
ghost use Rattle.sb_outside.specs.Outside.{Rose};
ghost use Rattle.list_versions.specs.Written.{journal_text, declaration_line};
ghost use Rattle.journal_run.specs.Fresh.{DrawsEpoch, fresh_history, IsNewRun};
ghost use Rattle.journal_run.specs.Stops.{EndsCommand, journal_run_status};

use crate::command::NewLine;
use crate::reply::Reply;
use crate::stop::Stop;
use list_versions::{Header, push_header, push_list};
use sb_model::{Bytes, ListName, OutOfMemory};
use sb_outside::{Dice, Sink};
use std::alloc::Global;

/// An epoch of two words of the dice.
pub(crate) fn draw_epoch<D: Dice>(dice: &mut D) -> u64
    ensures { DrawsEpoch result (D.given dice.old) (D.given dice.new) }
{
    let upper = dice.word();
    let lower = dice.word();
    u64::from(upper) * 4_294_967_296 + u64::from(lower)
}

/// Appends the lines that declare lists with one size.
fn push_lists(page: &mut Bytes, lists: &[ListName], size: u8) -> Result<(), OutOfMemory>
    ensures { OnOk result (page.new ≡ page.old ++ flat_map declaration_line (map (λ name. (name, size)) lists.now)) }
{
    for list in lists {
        push_list(page, *list, size)?;
    }
    Ok(())
}

/// The text of a journal 2 without changes.
#[tactic(auto, unfolding(list_versions::specs::Written::journal_text))]
fn fresh_text(alloc: Global, epoch: u64, line: &NewLine) -> Result<Bytes, OutOfMemory>
    ensures { IfOk result (λ text. text ≡ journal_text true (fresh_history epoch line.now)) }
{
    let mut page = Bytes::new(alloc);
    push_header(&mut page, Header { sized: true, epoch })?;
    push_lists(&mut page, line.lists.as_slice(), line.size)?;
    Ok(page)
}

/// Prints a new journal.
pub(crate) fn make_journal<O: Sink, D: Dice>(
    alloc: Global,
    line: &NewLine,
    out: &mut O,
    dice: &mut D,
) -> Result<Stop, OutOfMemory>
    ensures run { IfOk result (λ stop. IsNewRun line.now (journal_run_status stop) (D.given dice.old) (D.given dice.new)
        (O.contents out.old) (O.contents out.new)) }
    ensures ends { IfOk result EndsCommand }
    ensures read { result ≢ Ok Stop.ReadFault }
    ensures failed { result ≡ Ok Stop.WriteFault → Rose (O.faults out.old) (O.faults out.new) }
    ensures kept { result ≢ Ok Stop.WriteFault → O.faults out.new ≡ O.faults out.old }
    ensures memory { OnErr result (out.new ≡ out.old) }
{
    let epoch = draw_epoch(dice);
    let reply = Reply::done(fresh_text(alloc, epoch, line)?);
    Ok(reply.print(out))
}
