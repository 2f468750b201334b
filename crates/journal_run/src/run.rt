ghost use Rattle.std.specs.Prelude.{◌≡◌, ◌≢◌, ◌⊎◌, ◌<◌, ◌^◌, ℕ, false, length, map, string_bytes, codes, None, Ok, Some, IfOk, OnErr};
ghost use Rattle.sb_model.specs.declared.names.ListName.{ListName as Name};
ghost use Rattle.sb_outside.specs.Outside.{Rose};
ghost use Rattle.journal_run.specs.Changed.{IsChangeReply};
ghost use Rattle.journal_run.specs.Checked.{IsCheckReply};
ghost use Rattle.journal_run.specs.Compacting.{IsCompactRun};
ghost use Rattle.journal_run.specs.Command.{command_of, draws_epoch, reads_input, reads_journal};
ghost use Rattle.journal_run.specs.Found.{IsHasReply};
ghost use Rattle.journal_run.specs.Fresh.{IsNewRun};
ghost use Rattle.journal_run.specs.Runs.{AfterFault, AreCounted, IsFeedRun, IsInputRun, IsJournalRun, IsJournalRunStatus};
ghost use Rattle.journal_run.specs.Stops.{EndsCommand, journal_run_status};
ghost use Rattle.journal_run.specs.Synced.{IsSyncReply};
ghost use Rattle.journal_run.specs.Printed.{done_with};
ghost use Rattle.journal_run.specs.Written.{IsWritten, TellsUsage};
ghost use Rattle.sb_words.specs.About.{about_text};
ghost use Rattle.sb_words.specs.declared.asking.About.{About as Asking};
ghost use Rattle.journal_run.specs.declared.command.Command.{Command as Asked};
ghost use Rattle.journal_run.specs.declared.command.ChangeLine.{ChangeLine as Changing};
ghost use Rattle.journal_run.specs.declared.command.NewLine.{NewLine as Making};
ghost use Rattle.journal_run.specs.declared.command.SyncLine.{SyncLine as Syncing};

use crate::changed::change_reply;
use crate::checked::check_reply;
use crate::command::{ChangeLine, Command, SyncLine, call_of};
use crate::compacting::compact_reply;
use crate::found::has_reply;
use crate::fresh::{draw_epoch, make_journal};
use crate::reply::Reply;
use crate::stop::{Stop, status_of};
use crate::synced::sync_reply;
use list_versions::{History, JournalFault};
use sb_journal::read_urls;
use sb_model::{ListName, OutOfMemory};
use sb_outside::{Dice, Failed, InputFault, Sink, Source, write_all};
use sb_words::{About, about_text};
use std::alloc::Global;

/// What is printed if the words are no command line.
pub const USAGE: &str = "usage: sbjournal COMMAND\n\n  \
    sbjournal new [--size N] LIST..\n      \
    writes the first lines of a journal of these lists\n  \
    sbjournal sync LIST --journal PATH [--skip] [--empty]\n      \
    reads URLs, and writes the records after which the list has these URLs and no others\n  \
    sbjournal change LIST [--size N] [--skip]\n      \
    reads URLs with + or - before them, and writes records that put them in or take them out\n  \
    sbjournal check\n      \
    reads a journal, and writes what its lists have and how much room is left\n  \
    sbjournal has LIST --journal PATH\n      \
    reads URLs, and writes for each which of its expressions the list has\n  \
    sbjournal compact\n      \
    reads a journal, and writes one with a new epoch that has what its lists have now\n  \
    sbjournal --help | -h | --version\n      \
    writes this text, or the version\n";

/// Tells how the program is used.
fn tell_usage<O: Sink>(out: &mut O) -> u8
    ensures status { result ≡ 1 }
    ensures usage { TellsUsage USAGE.now (O.contents out.old) (O.contents out.new) (O.faults out.old) (O.faults out.new) }
{
    match write_all(out, USAGE.as_bytes()) {
        Ok(()) => status_of(Stop::NoCommand),
        Err(Failed) => status_of(Stop::NoCommand),
    }
}

/// Prints what is asked about the program.
fn tell<O: Sink>(alloc: Global, about: About, out: &mut O) -> Result<Stop, OutOfMemory>
    ensures written { IfOk result (λ stop. IsWritten (done_with (about_text about (codes "sbjournal") USAGE.now)) (journal_run_status stop)
        (O.contents out.old) (O.contents out.new)) }
    ensures ends { IfOk result EndsCommand }
    ensures read { result ≢ Ok Stop.ReadFault }
    ensures failed { result ≡ Ok Stop.WriteFault → Rose (O.faults out.old) (O.faults out.new) }
    ensures kept { result ≢ Ok Stop.WriteFault → O.faults out.new ≡ O.faults out.old }
    ensures memory { OnErr result (out.new ≡ out.old) }
{
    let reply = Reply::done(about_text(alloc, about, "sbjournal", USAGE)?);
    Ok(reply.print(out))
}

/// Says why a journal is no history.
#[tactic(auto, using(crate::proofs::Faults::told))]
fn tell_fault<O: Sink>(alloc: Global, fault: JournalFault, out: &mut O) -> Result<Stop, OutOfMemory>
    ensures after { IfOk result (λ stop. AfterFault fault (journal_run_status stop) (O.contents out.old) (O.contents out.new)) }
    ensures ends { IfOk result EndsCommand }
    ensures read { result ≡ Ok Stop.ReadFault → fault ≡ JournalFault.ReadFault }
    ensures read_kept { result ≢ Ok Stop.ReadFault → fault ≢ JournalFault.ReadFault }
    ensures failed { result ≡ Ok Stop.WriteFault → Rose (O.faults out.old) (O.faults out.new) }
    ensures kept { result ≢ Ok Stop.WriteFault → O.faults out.new ≡ O.faults out.old }
    ensures memory { OnErr result (out.new ≡ out.old) }
{
    match fault {
        JournalFault::ReadFault => Ok(Stop::ReadFault),
        JournalFault::OutOfMemory => Err(OutOfMemory),
        _ => {
            let reply = Reply::of_fault(alloc, fault)?;
            Ok(reply.print(out))
        }
    }
}

/// Reads a journal from the input, and says what it has.
fn check<S: Source, O: Sink>(alloc: Global, input: &mut S, out: &mut O) -> Result<Stop, OutOfMemory>
    ensures run { IfOk result (λ stop. IsJournalRun IsCheckReply (journal_run_status stop) (S.left input.old) (S.left input.new)
        (O.contents out.old) (O.contents out.new)) }
    ensures ends { IfOk result EndsCommand }
    ensures read { result ≡ Ok Stop.ReadFault → Rose (S.faults input.old) (S.faults input.new) }
    ensures read_kept { result ≢ Ok Stop.ReadFault → S.faults input.new ≡ S.faults input.old }
    ensures failed { result ≡ Ok Stop.WriteFault → Rose (O.faults out.old) (O.faults out.new) }
    ensures kept { result ≢ Ok Stop.WriteFault → O.faults out.new ≡ O.faults out.old }
    ensures memory { OnErr result (out.new ≡ out.old) }
{
    match History::load(alloc, input) {
        Ok(history) => {
            let reply = check_reply(alloc, &history)?;
            Ok(reply.print(out))
        }
        Err(fault) => tell_fault(alloc, fault, out),
    }
}

/// Draws an epoch, reads a journal from the input, and prints it told anew.
fn compact<S: Source, O: Sink, D: Dice>(
    alloc: Global,
    input: &mut S,
    out: &mut O,
    dice: &mut D,
) -> Result<Stop, OutOfMemory>
    ensures run { IfOk result (λ stop. IsCompactRun (journal_run_status stop) (D.given dice.old) (D.given dice.new)
        (S.left input.old) (S.left input.new) (O.contents out.old) (O.contents out.new)) }
    ensures ends { IfOk result EndsCommand }
    ensures read { result ≡ Ok Stop.ReadFault → Rose (S.faults input.old) (S.faults input.new) }
    ensures read_kept { result ≢ Ok Stop.ReadFault → S.faults input.new ≡ S.faults input.old }
    ensures failed { result ≡ Ok Stop.WriteFault → Rose (O.faults out.old) (O.faults out.new) }
    ensures kept { result ≢ Ok Stop.WriteFault → O.faults out.new ≡ O.faults out.old }
    ensures memory { OnErr result (out.new ≡ out.old) }
{
    let epoch = draw_epoch(dice);
    match History::load(alloc, input) {
        Ok(history) => {
            let reply = compact_reply(alloc, epoch, history)?;
            Ok(reply.print(out))
        }
        Err(fault) => tell_fault(alloc, fault, out),
    }
}

/// Reads lines with signs, and prints records of them.
fn change<S: Source, O: Sink>(
    alloc: Global,
    line: &ChangeLine,
    input: &mut S,
    out: &mut O,
) -> Result<Stop, OutOfMemory>
    ensures run { IfOk result (λ stop. IsInputRun (IsChangeReply line.now) (journal_run_status stop) (S.left input.old) (S.left input.new)
        (O.contents out.old) (O.contents out.new)) }
    ensures ends { IfOk result EndsCommand }
    ensures read { result ≡ Ok Stop.ReadFault → Rose (S.faults input.old) (S.faults input.new) }
    ensures read_kept { result ≢ Ok Stop.ReadFault → S.faults input.new ≡ S.faults input.old }
    ensures failed { result ≡ Ok Stop.WriteFault → Rose (O.faults out.old) (O.faults out.new) }
    ensures kept { result ≢ Ok Stop.WriteFault → O.faults out.new ≡ O.faults out.old }
    ensures memory { OnErr result (out.new ≡ out.old) }
{
    match read_urls(alloc, input) {
        Ok(text) => {
            let reply = change_reply(alloc, line, text.as_slice())?;
            Ok(reply.print(out))
        }
        Err(InputFault::Failed) => Ok(Stop::ReadFault),
        Err(InputFault::PastLimit) => Ok(Stop::LongInput),
        Err(InputFault::OutOfMemory) => Err(OutOfMemory),
    }
}

/// Reads a journal, and prints what leads a list to the URLs of an input.
fn sync_with<J: Source, O: Sink>(
    alloc: Global,
    line: &SyncLine,
    input: &[u8],
    journal: &mut J,
    out: &mut O,
) -> Result<Stop, OutOfMemory>
    requires { length input.now < 2 ^ 32 }
    ensures run { IfOk result (λ stop. IsJournalRun (IsSyncReply line.now input.now) (journal_run_status stop)
        (J.left journal.old) (J.left journal.new) (O.contents out.old) (O.contents out.new)) }
    ensures ends { IfOk result EndsCommand }
    ensures read { result ≡ Ok Stop.ReadFault → Rose (J.faults journal.old) (J.faults journal.new) }
    ensures read_kept { result ≢ Ok Stop.ReadFault → J.faults journal.new ≡ J.faults journal.old }
    ensures failed { result ≡ Ok Stop.WriteFault → Rose (O.faults out.old) (O.faults out.new) }
    ensures kept { result ≢ Ok Stop.WriteFault → O.faults out.new ≡ O.faults out.old }
    ensures memory { OnErr result (out.new ≡ out.old) }
{
    match History::load(alloc, journal) {
        Ok(history) => {
            let reply = sync_reply(alloc, line, input, history)?;
            Ok(reply.print(out))
        }
        Err(fault) => tell_fault(alloc, fault, out),
    }
}

/// Reads URLs and a journal, and prints what leads a list to these.
fn sync<J: Source, S: Source, O: Sink>(
    alloc: Global,
    line: &SyncLine,
    journal: &mut J,
    input: &mut S,
    out: &mut O,
) -> Result<Stop, OutOfMemory>
    ensures run { IfOk result (λ stop. IsFeedRun (IsSyncReply line.now) (journal_run_status stop) (J.left journal.old) (J.left journal.new)
        (S.left input.old) (S.left input.new) (O.contents out.old) (O.contents out.new)) }
    ensures ends { IfOk result EndsCommand }
    ensures read { result ≡ Ok Stop.ReadFault →
        (Rose (J.faults journal.old) (J.faults journal.new) × (S.faults input.new ≡ S.faults input.old))
        ⊎ (Rose (S.faults input.old) (S.faults input.new) × (J.faults journal.new ≡ J.faults journal.old)) }
    ensures read_kept { result ≢ Ok Stop.ReadFault →
        (J.faults journal.new ≡ J.faults journal.old) × (S.faults input.new ≡ S.faults input.old) }
    ensures failed { result ≡ Ok Stop.WriteFault → Rose (O.faults out.old) (O.faults out.new) }
    ensures kept { result ≢ Ok Stop.WriteFault → O.faults out.new ≡ O.faults out.old }
    ensures memory { OnErr result (out.new ≡ out.old) }
{
    match read_urls(alloc, input) {
        Ok(text) => sync_with(alloc, line, text.as_slice(), journal, out),
        Err(InputFault::Failed) => Ok(Stop::ReadFault),
        Err(InputFault::PastLimit) => Ok(Stop::LongInput),
        Err(InputFault::OutOfMemory) => Err(OutOfMemory),
    }
}

/// Reads a journal, and prints which URLs of an input a list has.
fn has_with<J: Source, O: Sink>(
    alloc: Global,
    list: ListName,
    input: &[u8],
    journal: &mut J,
    out: &mut O,
) -> Result<Stop, OutOfMemory>
    requires { length input.now < 2 ^ 32 }
    ensures run { IfOk result (λ stop. IsJournalRun (IsHasReply list input.now) (journal_run_status stop)
        (J.left journal.old) (J.left journal.new) (O.contents out.old) (O.contents out.new)) }
    ensures ends { IfOk result EndsCommand }
    ensures read { result ≡ Ok Stop.ReadFault → Rose (J.faults journal.old) (J.faults journal.new) }
    ensures read_kept { result ≢ Ok Stop.ReadFault → J.faults journal.new ≡ J.faults journal.old }
    ensures failed { result ≡ Ok Stop.WriteFault → Rose (O.faults out.old) (O.faults out.new) }
    ensures kept { result ≢ Ok Stop.WriteFault → O.faults out.new ≡ O.faults out.old }
    ensures memory { OnErr result (out.new ≡ out.old) }
{
    match History::load(alloc, journal) {
        Ok(history) => {
            let reply = has_reply(alloc, list, input, &history)?;
            Ok(reply.print(out))
        }
        Err(fault) => tell_fault(alloc, fault, out),
    }
}

/// Reads URLs and a journal, and prints which of these a list has.
fn has<J: Source, S: Source, O: Sink>(
    alloc: Global,
    list: ListName,
    journal: &mut J,
    input: &mut S,
    out: &mut O,
) -> Result<Stop, OutOfMemory>
    ensures run { IfOk result (λ stop. IsFeedRun (IsHasReply list) (journal_run_status stop) (J.left journal.old) (J.left journal.new)
        (S.left input.old) (S.left input.new) (O.contents out.old) (O.contents out.new)) }
    ensures ends { IfOk result EndsCommand }
    ensures read { result ≡ Ok Stop.ReadFault →
        (Rose (J.faults journal.old) (J.faults journal.new) × (S.faults input.new ≡ S.faults input.old))
        ⊎ (Rose (S.faults input.old) (S.faults input.new) × (J.faults journal.new ≡ J.faults journal.old)) }
    ensures read_kept { result ≢ Ok Stop.ReadFault →
        (J.faults journal.new ≡ J.faults journal.old) × (S.faults input.new ≡ S.faults input.old) }
    ensures failed { result ≡ Ok Stop.WriteFault → Rose (O.faults out.old) (O.faults out.new) }
    ensures kept { result ≢ Ok Stop.WriteFault → O.faults out.new ≡ O.faults out.old }
    ensures memory { OnErr result (out.new ≡ out.old) }
{
    match read_urls(alloc, input) {
        Ok(text) => has_with(alloc, list, text.as_slice(), journal, out),
        Err(InputFault::Failed) => Ok(Stop::ReadFault),
        Err(InputFault::PastLimit) => Ok(Stop::LongInput),
        Err(InputFault::OutOfMemory) => Err(OutOfMemory),
    }
}

/// What ends the run of a command.
fn run_command<J: Source, S: Source, O: Sink, D: Dice>(
    alloc: Global,
    command: &Command,
    journal: &mut J,
    input: &mut S,
    out: &mut O,
    dice: &mut D,
) -> Result<Stop, OutOfMemory>
    ensures ends { IfOk result EndsCommand }
    ensures news { IfOk result (λ stop. (line : Making) → command.now ≡ Command.New line
        → IsNewRun line (journal_run_status stop) (D.given dice.old) (D.given dice.new) (O.contents out.old) (O.contents out.new)) }
    ensures syncs { IfOk result (λ stop. (line : Syncing) → command.now ≡ Command.Sync line
        → IsFeedRun (IsSyncReply line) (journal_run_status stop) (J.left journal.old) (J.left journal.new)
        (S.left input.old) (S.left input.new) (O.contents out.old) (O.contents out.new)) }
    ensures changes { IfOk result (λ stop. (line : Changing) → command.now ≡ Command.Change line
        → IsInputRun (IsChangeReply line) (journal_run_status stop) (S.left input.old) (S.left input.new) (O.contents out.old) (O.contents out.new)) }
    ensures checks { IfOk result (λ stop. command.now ≡ Command.Check
        → IsJournalRun IsCheckReply (journal_run_status stop) (S.left input.old) (S.left input.new) (O.contents out.old) (O.contents out.new)) }
    ensures finds { IfOk result (λ stop. (list : Name) → command.now ≡ Command.Has list
        → IsFeedRun (IsHasReply list) (journal_run_status stop) (J.left journal.old) (J.left journal.new)
        (S.left input.old) (S.left input.new) (O.contents out.old) (O.contents out.new)) }
    ensures compacts { IfOk result (λ stop. command.now ≡ Command.Compact
        → IsCompactRun (journal_run_status stop) (D.given dice.old) (D.given dice.new) (S.left input.old) (S.left input.new)
        (O.contents out.old) (O.contents out.new)) }
    ensures tells { IfOk result (λ stop. (about : Asking) → command.now ≡ Command.Tell about
        → IsWritten (done_with (about_text about (codes "sbjournal") USAGE.now)) (journal_run_status stop) (O.contents out.old) (O.contents out.new)) }
    ensures no_journal { reads_journal command.now ≡ false → journal.new ≡ journal.old }
    ensures no_input { reads_input command.now ≡ false → input.new ≡ input.old }
    ensures no_draw { draws_epoch command.now ≡ false → dice.new ≡ dice.old }
    ensures read { result ≡ Ok Stop.ReadFault →
        (Rose (J.faults journal.old) (J.faults journal.new) × (S.faults input.new ≡ S.faults input.old))
        ⊎ (Rose (S.faults input.old) (S.faults input.new) × (J.faults journal.new ≡ J.faults journal.old)) }
    ensures read_kept { result ≢ Ok Stop.ReadFault →
        (J.faults journal.new ≡ J.faults journal.old) × (S.faults input.new ≡ S.faults input.old) }
    ensures failed { result ≡ Ok Stop.WriteFault → Rose (O.faults out.old) (O.faults out.new) }
    ensures kept { result ≢ Ok Stop.WriteFault → O.faults out.new ≡ O.faults out.old }
    ensures memory { OnErr result (out.new ≡ out.old) }
{
    match command {
        Command::New(line) => make_journal(alloc, line, out, dice),
        Command::Sync(line) => sync(alloc, line, journal, input, out),
        Command::Change(line) => change(alloc, line, input, out),
        Command::Check => check(alloc, input, out),
        Command::Has(list) => has(alloc, *list, journal, input, out),
        Command::Compact => compact(alloc, input, out, dice),
        Command::Tell(about) => tell(alloc, *about, out),
    }
}

/// Runs one command of the program that makes journals, and answers the exit status. The first word is the program's name,
/// `sbjournal`.
///
/// `new` draws an epoch, and writes a journal 2 of the lists that the words name. `check` reads a journal from the input, and
/// writes what its lists have and how much room it has left. `change` reads lines with signs from the input, and writes the
/// records that they say. `sync` and `has` read URLs from the input, and then the journal: `sync` writes the records after
/// which a list has exactly these URLs, and `has` which of their expressions a list has. `compact` draws an epoch, reads a
/// journal from the input, and writes a journal 2 with this epoch, in which each list has what it has now, by additions alone.
///
/// `--help`, `-h` and `--version`, each as the only word after the name, write the usage text or the version. Nothing is read.
///
/// | Status | Comes |
/// |---|---|
/// | 0 | if no other stands |
/// | 1 | exactly if the words are no command line: the usage text is written |
/// | 2 | only if the journal's or the input's count of faults rose |
/// | 3 | only if the output's count of faults rose |
/// | 6 | exactly if an input of URLs passes 201,326,592 bytes or 2,097,152 lines |
/// | 7 | exactly if a journal has a bad line, does not declare the list, or would not take the records: `journal CAUSE` is written |
/// | 8 | if memory was refused: nothing was written |
/// | 20 | of `has`, if the list has some URL |
/// | 21 | of `has`, if no URL is listed and some is refused. Of `sync` and `change`, if some URL is refused and is not skipped: a line for each is written. Of `sync`, if the input names no URL and may not be empty |
///
/// The first that comes ends the run. If a text is not written whole, the status is 3.
pub fn run_journal<J: Source, S: Source, O: Sink, D: Dice>(
    alloc: Global,
    words: &[String],
    journal: &mut J,
    input: &mut S,
    out: &mut O,
    dice: &mut D,
) -> u8
    ensures statuses { IsJournalRunStatus result }

    // Words that are no command line: the usage text alone is written, and nothing is read.
    ensures words { result ≡ 1 → command_of (map string_bytes words.now) ≡ None }
    ensures other_words { command_of (map string_bytes words.now) ≡ None → (result ≡ 1) ⊎ (result ≡ 8) }
    ensures unread { command_of (map string_bytes words.now) ≡ None
        → (journal.new ≡ journal.old) × (input.new ≡ input.old) × (dice.new ≡ dice.old) }
    ensures usage { result ≡ 1 → TellsUsage USAGE.now (O.contents out.old) (O.contents out.new)
        (O.faults out.old) (O.faults out.new) }

    // Each command: what became of what it reads and of the output. If memory was refused, nothing was written.
    ensures memory { result ≡ 8 → out.new ≡ out.old }
    ensures news { (line : Making) → command_of (map string_bytes words.now) ≡ Some (Command.New line) → result ≢ 8
        → IsNewRun line result (D.given dice.old) (D.given dice.new) (O.contents out.old) (O.contents out.new) }
    ensures syncs { (line : Syncing) → command_of (map string_bytes words.now) ≡ Some (Command.Sync line) → result ≢ 8
        → IsFeedRun (IsSyncReply line) result (J.left journal.old) (J.left journal.new)
        (S.left input.old) (S.left input.new) (O.contents out.old) (O.contents out.new) }
    ensures changes { (line : Changing) → command_of (map string_bytes words.now) ≡ Some (Command.Change line) → result ≢ 8
        → IsInputRun (IsChangeReply line) result (S.left input.old) (S.left input.new) (O.contents out.old) (O.contents out.new) }
    ensures checks { command_of (map string_bytes words.now) ≡ Some Command.Check → result ≢ 8
        → IsJournalRun IsCheckReply result (S.left input.old) (S.left input.new) (O.contents out.old) (O.contents out.new) }
    ensures finds { (list : Name) → command_of (map string_bytes words.now) ≡ Some (Command.Has list) → result ≢ 8
        → IsFeedRun (IsHasReply list) result (J.left journal.old) (J.left journal.new)
        (S.left input.old) (S.left input.new) (O.contents out.old) (O.contents out.new) }
    ensures compacts { command_of (map string_bytes words.now) ≡ Some Command.Compact → result ≢ 8
        → IsCompactRun result (D.given dice.old) (D.given dice.new) (S.left input.old) (S.left input.new)
        (O.contents out.old) (O.contents out.new) }

    // Words that ask about the program: the usage text, or a line of the program's name and its version.
    ensures tells { (about : Asking) → command_of (map string_bytes words.now) ≡ Some (Command.Tell about) → result ≢ 8
        → IsWritten (done_with (about_text about (codes "sbjournal") USAGE.now)) result (O.contents out.old) (O.contents out.new) }

    // What a command does not use stays as it was.
    ensures no_journal { (command : Asked) → command_of (map string_bytes words.now) ≡ Some command
        → reads_journal command ≡ false → journal.new ≡ journal.old }
    ensures no_input { (command : Asked) → command_of (map string_bytes words.now) ≡ Some command
        → reads_input command ≡ false → input.new ≡ input.old }
    ensures no_draw { (command : Asked) → command_of (map string_bytes words.now) ≡ Some command
        → draws_epoch command ≡ false → dice.new ≡ dice.old }

    // A count that rose names its fault.
    ensures counts { AreCounted result (J.faults journal.old) (J.faults journal.new) (S.faults input.old) (S.faults input.new)
        (O.faults out.old) (O.faults out.new) }
{
    match call_of(alloc, words) {
        Ok(Some(call)) => match run_command(alloc, &call.command, journal, input, out, dice) {
            Ok(stop) => status_of(stop),
            Err(OutOfMemory) => status_of(Stop::OutOfMemory),
        },
        Ok(None) => tell_usage(out),
        Err(OutOfMemory) => status_of(Stop::OutOfMemory),
    }
}
