ghost use Rattle.std.specs.Prelude.{◌≡◌, ◌++◌, codes, decimal, OnOk};
ghost use Rattle.http_edge.specs.Printed.{exchange_cause_text};
ghost use Rattle.sb_json.specs.Printed.{message_cause_text};
ghost use Rattle.held_connections.specs.Over.{ServedConnection};
ghost use Rattle.proxy_run.specs.LookAllowed.{IsServedPart};
ghost use Rattle.proxy_run.specs.LookEvents.{counted_up, counts_line, find_end_text, find_line, line_of_served, LinePart};
ghost use Rattle.proxy_run.specs.LookSteps.{PrintsFor, PrintsPart};
ghost use Rattle.proxy_serving.specs.Response.{ProxyServed};

use crate::ProxyStop;
use crate::held::HeldLooks;
use find_desk::EndedFind;
use hash_messages::FindResponse;
use held_connections::EndedConnection;
use http_edge::{ExchangeFault, ResponseFault, push_exchange_cause};
use http_serving::print_connection;
use sb_json::{MessageFault, push_message_cause};
use sb_model::{Bytes, Moment, OutOfMemory};
use sb_outside::{Failed, Sink, Wire, flush};
use std::alloc::Global;
use verdict_report::Cause;

/// Prints the line of a connection that is over. If it cannot be written, the run ends.
pub(crate) fn tell_over<W: Wire, O: Sink>(
    alloc: Global,
    held: &mut HeldLooks<W>,
    ended: &EndedConnection,
    out: &mut O,
)
    ensures prints { (one : ServedConnection ProxyServed) → one.number ≡ ended.now.number → one.how ≡ ended.now.end
        → (part : LinePart) × IsServedPart one part × PrintsPart (line_of_served one) part held.old.stop held.new.stop
        (O.contents out.old) (O.contents out.new) (O.faults out.old) (O.faults out.new) }
    ensures others { held.new ≡ record held.old { stop = held.new.stop } }
{
    let number = ended.number.saturating_add(1);
    match print_connection(alloc, number, &ended.end, out) {
        Ok(()) => {}
        Err(ResponseFault::WriteFault) => held.note(ProxyStop::WriteFault),
        Err(ResponseFault::OutOfMemory) => held.note(ProxyStop::OutOfMemory),
    }
}

/// Appends a number after a word.
fn push_numbered(page: &mut Bytes, word: &str, number: u64) -> Result<(), OutOfMemory>
    ensures { OnOk result (page.new ≡ page.old ++ (word.now ++ decimal number)) }
{
    page.append(word.as_bytes())?;
    page.append_decimal(number)
}

/// Appends why a session failed.
fn push_failed(page: &mut Bytes, fault: &ExchangeFault) -> Result<(), OutOfMemory>
    ensures { OnOk result (page.new ≡ page.old ++ (codes "failed " ++ exchange_cause_text fault.now)) }
{
    page.append(b"failed ")?;
    push_exchange_cause(page, fault)
}

/// Appends why a message could not be read.
fn push_unreadable(page: &mut Bytes, fault: &MessageFault) -> Result<(), OutOfMemory>
    ensures { OnOk result (page.new ≡ page.old ++ (codes "unreadable " ++ message_cause_text fault.now)) }
{
    page.append(b"unreadable ")?;
    push_message_cause(page, fault)?;
    Ok(())
}

/// Appends what came of a find: `ok P`, or why no message came.
fn push_answer(
    page: &mut Bytes,
    prefixes: usize,
    answer: &Result<FindResponse, Cause>,
) -> Result<(), OutOfMemory>
    ensures { OnOk result (page.new ≡ page.old ++ find_end_text prefixes answer.now) }
{
    match answer {
        Ok(_) => push_numbered(page, "ok ", prefixes as u64),
        Err(Cause::NotBefore(moment)) => push_numbered(page, "not-before ", moment.0),
        Err(Cause::Exchange(fault)) => push_failed(page, fault),
        Err(Cause::Message(fault)) => push_unreadable(page, fault),
    }
}

/// Appends the line of a find with this number: when its session began, and what came of it.
fn push_find(
    page: &mut Bytes,
    number: u32,
    at: Moment,
    prefixes: usize,
    answer: &Result<FindResponse, Cause>,
) -> Result<(), OutOfMemory>
    ensures { OnOk result (page.new ≡ page.old ++ find_line number at prefixes answer.now) }
{
    page.append(b"find ")?;
    page.append_decimal(u64::from(number))?;
    page.append(b" at ")?;
    page.append_decimal(at.0)?;
    page.push(b' ')?;
    push_answer(page, prefixes, answer)?;
    page.push(b'\n')
}

/// Prints the line of a find that is over.
fn print_find<O: Sink>(
    alloc: Global,
    number: u32,
    ended: &EndedFind,
    out: &mut O,
) -> Result<(), ProxyStop>
    ensures prints { PrintsFor result (find_line number ended.now.at ended.now.prefixes ended.now.answer) (O.contents out.old) (O.contents out.new) (O.faults out.old) (O.faults out.new) }
{
    let mut page = Bytes::new(alloc);
    match push_find(&mut page, number, ended.at, ended.prefixes, &ended.answer) {
        Ok(()) => {}
        Err(OutOfMemory) => return Err(ProxyStop::OutOfMemory),
    }
    match flush(out, &mut page) {
        Ok(()) => Ok(()),
        Err(Failed) => Err(ProxyStop::WriteFault),
    }
}

/// Prints the line of a find that is over. If it cannot be written, the run ends.
pub(crate) fn tell_find<W: Wire, O: Sink>(
    alloc: Global,
    held: &mut HeldLooks<W>,
    ended: &EndedFind,
    out: &mut O,
)
    ensures prints { (part : LinePart) × PrintsPart (find_line (counted_up held.old.finds) ended.now.at ended.now.prefixes ended.now.answer) part held.old.stop held.new.stop
        (O.contents out.old) (O.contents out.new) (O.faults out.old) (O.faults out.new) }
    ensures others { held.new ≡ record held.old { stop = held.new.stop } }
{
    let number = held.finds.saturating_add(1);
    match print_find(alloc, number, ended, out) {
        Ok(()) => {}
        Err(stop) => held.note(stop),
    }
}

/// Appends the counts of a run: how many connections were served, how many of them waited, and how many finds were ended.
fn push_counts(page: &mut Bytes, served: u32, waited: u32, finds: u32) -> Result<(), OutOfMemory>
    ensures { OnOk result (page.new ≡ page.old ++ counts_line served waited finds) }
{
    page.append(b"served ")?;
    page.append_decimal(u64::from(served))?;
    page.append(b", waited ")?;
    page.append_decimal(u64::from(waited))?;
    page.append(b", finds ")?;
    page.append_decimal(u64::from(finds))?;
    page.push(b'\n')
}

/// Prints the counts of a run.
fn print_counts<W: Wire, O: Sink>(
    alloc: Global,
    held: &HeldLooks<W>,
    out: &mut O,
) -> Result<(), ProxyStop>
    ensures prints { PrintsFor result (counts_line held.now.connections.taken held.now.waited held.now.finds) (O.contents out.old) (O.contents out.new) (O.faults out.old) (O.faults out.new) }
{
    let mut page = Bytes::new(alloc);
    match push_counts(&mut page, held.taken(), held.waited, held.finds) {
        Ok(()) => {}
        Err(OutOfMemory) => return Err(ProxyStop::OutOfMemory),
    }
    match flush(out, &mut page) {
        Ok(()) => Ok(()),
        Err(Failed) => Err(ProxyStop::WriteFault),
    }
}

/// Prints the counts of a run that comes to its end. If they cannot be written, that is what ended it.
pub(crate) fn tell_counts<W: Wire, O: Sink>(alloc: Global, held: &mut HeldLooks<W>, out: &mut O)
    ensures prints { (part : LinePart) × PrintsPart (counts_line held.old.connections.taken held.old.waited held.old.finds) part held.old.stop held.new.stop
        (O.contents out.old) (O.contents out.new) (O.faults out.old) (O.faults out.new) }
    ensures others { held.new ≡ record held.old { stop = held.new.stop } }
{
    match print_counts(alloc, held, out) {
        Ok(()) => {}
        Err(stop) => held.note(stop),
    }
}
