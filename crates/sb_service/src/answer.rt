ghost use Rattle.std.specs.Prelude.{◌≡◌, ◌≢◌, ◌⊎◌, Ok, IfOk, OnErr};
ghost use Rattle.sb_outside.specs.Outside.{Rose};
ghost use Rattle.list_versions.specs.declared.fault.JournalFault.{JournalFault};
ghost use Rattle.sb_service.specs.Answer.{AfterJournalFault, IsAnswerRun, IsBodyRun, IsReplied, IsWritten};
ghost use Rattle.sb_service.specs.Stops.{status_of};

use crate::command::MessageKind;
use crate::reply::{Reply, refuse_journal, reply_to_body};
use crate::stop::Stop;
use delta_server::Settings;
use list_versions::{History, JournalFault};
use sb_model::OutOfMemory;
use sb_outside::{Failed, InputFault, Sink, Source, read_to_end, write_all};
use std::alloc::Global;

/// The most bytes of the body of a request.
const MOST_BODY: usize = 1_048_576;

/// Writes a reply, and answers what ends the run: what the reply says, or a fault of the output.
pub(crate) fn print<O: Sink>(out: &mut O, reply: &Reply) -> Stop
    requires { reply.now.status ≢ 3 }
    ensures written { IsWritten reply.now (status_of result) (O.contents out.old) (O.contents out.new) }
    ensures ends { (status_of result ≡ reply.now.status) ⊎ (result ≡ Stop.WriteFault) }
    ensures failed { result ≡ Stop.WriteFault → Rose (O.faults out.old) (O.faults out.new) }
    ensures kept { result ≢ Stop.WriteFault → O.faults out.new ≡ O.faults out.old }
{
    match write_all(out, reply.text.as_slice()) {
        Ok(()) => reply.stop,
        Err(Failed) => Stop::WriteFault,
    }
}

/// Replies to a body.
fn answer_body<O: Sink>(
    alloc: Global,
    history: &History,
    settings: &Settings,
    kind: MessageKind,
    body: &[u8],
    out: &mut O,
) -> Result<Stop, OutOfMemory>
    ensures replied { IfOk result (λ stop. IsReplied history.now.versions settings.now kind body.now (status_of stop)
        (O.contents out.old) (O.contents out.new)) }
    ensures ends { IfOk result (λ stop. (stop ≡ Stop.Done) ⊎ (stop ≡ Stop.WriteFault) ⊎ (stop ≡ Stop.BadRequest)) }
    ensures failed { result ≡ Ok Stop.WriteFault → Rose (O.faults out.old) (O.faults out.new) }
    ensures kept { result ≢ Ok Stop.WriteFault → O.faults out.new ≡ O.faults out.old }
    ensures memory { OnErr result (out.new ≡ out.old) }
{
    let reply = reply_to_body(alloc, history, settings, kind, body)?;
    Ok(print(out, &reply))
}

/// Reads the input, and replies to it.
fn answer_input<S: Source, O: Sink>(
    alloc: Global,
    history: &History,
    settings: &Settings,
    kind: MessageKind,
    input: &mut S,
    out: &mut O,
) -> Result<Stop, OutOfMemory>
    ensures run { IfOk result (λ stop. IsBodyRun history.now.versions settings.now kind (status_of stop)
        (S.left input.old) (S.left input.new) (O.contents out.old) (O.contents out.new)) }
    ensures ends { IfOk result (λ stop. (stop ≡ Stop.Done) ⊎ (stop ≡ Stop.ReadFault) ⊎ (stop ≡ Stop.WriteFault)
        ⊎ (stop ≡ Stop.BadRequest) ⊎ (stop ≡ Stop.LongInput)) }
    ensures input_failed { result ≡ Ok Stop.ReadFault → Rose (S.faults input.old) (S.faults input.new) }
    ensures input_kept { result ≢ Ok Stop.ReadFault → S.faults input.new ≡ S.faults input.old }
    ensures failed { result ≡ Ok Stop.WriteFault → Rose (O.faults out.old) (O.faults out.new) }
    ensures kept { result ≢ Ok Stop.WriteFault → O.faults out.new ≡ O.faults out.old }
    ensures memory { OnErr result (out.new ≡ out.old) }
{
    match read_to_end(alloc, input, MOST_BODY) {
        Ok(body) => answer_body(alloc, history, settings, kind, body.as_slice(), out),
        Err(InputFault::Failed) => Ok(Stop::ReadFault),
        Err(InputFault::PastLimit) => Ok(Stop::LongInput),
        Err(InputFault::OutOfMemory) => Err(OutOfMemory),
    }
}

/// Says why a journal is no history.
#[tactic(auto, using(crate::proofs::Faults::told))]
pub(crate) fn answer_fault<O: Sink>(
    alloc: Global,
    fault: JournalFault,
    out: &mut O,
) -> Result<Stop, OutOfMemory>
    ensures after { IfOk result (λ stop. AfterJournalFault fault (status_of stop) (O.contents out.old) (O.contents out.new)) }
    ensures ends { IfOk result (λ stop. (stop ≡ Stop.ReadFault) ⊎ (stop ≡ Stop.WriteFault) ⊎ (stop ≡ Stop.BadJournal)) }
    ensures journal_failed { result ≡ Ok Stop.ReadFault → fault ≡ JournalFault.ReadFault }
    ensures journal_kept { result ≢ Ok Stop.ReadFault → fault ≢ JournalFault.ReadFault }
    ensures failed { result ≡ Ok Stop.WriteFault → Rose (O.faults out.old) (O.faults out.new) }
    ensures kept { result ≢ Ok Stop.WriteFault → O.faults out.new ≡ O.faults out.old }
    ensures memory { OnErr result (out.new ≡ out.old) }
{
    match fault {
        JournalFault::ReadFault => Ok(Stop::ReadFault),
        JournalFault::OutOfMemory => Err(OutOfMemory),
        _ => {
            let reply = refuse_journal(alloc, fault)?;
            Ok(print(out, &reply))
        }
    }
}

/// Loads the journal, reads the input, and replies to it.
pub(crate) fn answer<J: Source, S: Source, O: Sink>(
    alloc: Global,
    settings: &Settings,
    kind: MessageKind,
    journal: &mut J,
    input: &mut S,
    out: &mut O,
) -> Result<Stop, OutOfMemory>
    ensures run { IfOk result (λ stop. IsAnswerRun settings.now kind (status_of stop) (J.left journal.old) (J.left journal.new)
        (S.left input.old) (S.left input.new) (O.contents out.old) (O.contents out.new)) }
    ensures ends { IfOk result (λ stop. (stop ≡ Stop.Done) ⊎ (stop ≡ Stop.ReadFault) ⊎ (stop ≡ Stop.WriteFault)
        ⊎ (stop ≡ Stop.BadRequest) ⊎ (stop ≡ Stop.LongInput) ⊎ (stop ≡ Stop.BadJournal)) }
    ensures failed { result ≡ Ok Stop.ReadFault →
        (Rose (J.faults journal.old) (J.faults journal.new) × (S.faults input.new ≡ S.faults input.old))
        ⊎ (Rose (S.faults input.old) (S.faults input.new) × (J.faults journal.new ≡ J.faults journal.old)) }
    ensures read_kept { result ≢ Ok Stop.ReadFault →
        (J.faults journal.new ≡ J.faults journal.old) × (S.faults input.new ≡ S.faults input.old) }
    ensures output_failed { result ≡ Ok Stop.WriteFault → Rose (O.faults out.old) (O.faults out.new) }
    ensures output_kept { result ≢ Ok Stop.WriteFault → O.faults out.new ≡ O.faults out.old }
    ensures memory { OnErr result (out.new ≡ out.old) }
{
    match History::load(alloc, journal) {
        Ok(history) => answer_input(alloc, &history, settings, kind, input, out),
        Err(fault) => answer_fault(alloc, fault, out),
    }
}
