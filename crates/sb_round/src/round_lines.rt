ghost use Rattle.std.specs.Prelude.{◌≡◌, ◌++◌, codes, decimal, length, take, OnOk, OnErr};
ghost use Rattle.std.specs.List.{flat_map};
ghost use Rattle.sb_json.specs.Printed.{message_cause_text};
ghost use Rattle.sb_round.specs.Printed.{round_line, fault_text, ending_text, round_end_text, update_line, update_lines, round_lines, taken_text};

use crate::printing::push_taken;
use crate::rounds::{RoundEnd, RoundFault, Taken};
use http_edge::push_exchange_cause;
use sb_json::{MessageFault, push_message_cause};
use sb_model::{Bytes, OutOfMemory, Row};

// Appends what each line of a round begins with.
fn push_round_number(page: &mut Bytes, number: u64) -> Result<(), OutOfMemory>
    ensures ok { OnOk result (page.new ≡ page.old ++ (codes "round " ++ decimal number ++ codes " ")) }
    ensures front { OnErr result (take (length page.old) page.new ≡ page.old) }
{
    page.append(b"round ")?;
    page.append_decimal(number)?;
    page.push(b' ')
}

// Appends why a body is no message.
fn push_unreadable(page: &mut Bytes, fault: &MessageFault) -> Result<(), OutOfMemory>
    ensures ok { OnOk result (page.new ≡ page.old ++ (codes "unreadable " ++ message_cause_text fault.now)) }
    ensures front { OnErr result (take (length page.old) page.new ≡ page.old) }
{
    page.append(b"unreadable ")?;
    push_message_cause(page, fault)?;
    Ok(())
}

// Appends why a round brought no message.
fn push_fault(page: &mut Bytes, fault: &RoundFault) -> Result<(), OutOfMemory>
    ensures ok { OnOk result (page.new ≡ page.old ++ fault_text fault.now) }
    ensures front { OnErr result (take (length page.old) page.new ≡ page.old) }
{
    match fault {
        RoundFault::Exchange(fault) => {
            page.append(b"failed ")?;
            push_exchange_cause(page, fault)
        }
        RoundFault::Message(fault) => push_unreadable(page, fault),
    }
}

// Appends how a round ended.
fn push_ending(page: &mut Bytes, taken: &Result<Row<Taken>, RoundFault>) -> Result<(), OutOfMemory>
    ensures ok { OnOk result (page.new ≡ page.old ++ ending_text taken.now) }
    ensures front { OnErr result (take (length page.old) page.new ≡ page.old) }
{
    match taken {
        Ok(_) => page.append(b"ok"),
        Err(fault) => push_fault(page, fault),
    }
}

// Appends when a round's session began, and how the round ended.
fn push_end(page: &mut Bytes, end: &RoundEnd) -> Result<(), OutOfMemory>
    ensures ok { OnOk result (page.new ≡ page.old ++ round_end_text end.now) }
    ensures front { OnErr result (take (length page.old) page.new ≡ page.old) }
{
    page.append(b"at ")?;
    page.append_decimal(end.begun.0)?;
    page.push(b' ')?;
    push_ending(page, &end.taken)
}

/// Appends the first line of a round: its number, when its session began, and how it ended. After an `Err` the page begins as it was.
pub fn push_round_line(page: &mut Bytes, number: u64, end: &RoundEnd) -> Result<(), OutOfMemory>
    ensures ok { OnOk result (page.new ≡ page.old ++ round_line number (round_end_text end.now)) }
    ensures front { OnErr result (take (length page.old) page.new ≡ page.old) }
{
    push_round_number(page, number)?;
    push_end(page, end)?;
    page.push(b'\n')
}

/// Appends the line of an update that was taken in the round of this number. After an `Err` the page begins as it was.
pub fn push_update_line(page: &mut Bytes, number: u64, taken: &Taken) -> Result<(), OutOfMemory>
    ensures ok { OnOk result (page.new ≡ page.old ++ update_line number taken.now) }
    ensures front { OnErr result (take (length page.old) page.new ≡ page.old) }
{
    push_round_number(page, number)?;
    push_taken(page, taken.name, &taken.result)?;
    page.push(b'\n')
}

// Appends the lines of the updates, in order.
fn push_each_update(page: &mut Bytes, number: u64, taken: &[Taken]) -> Result<(), OutOfMemory>
    ensures ok { OnOk result (page.new ≡ page.old ++ flat_map (update_line number) taken.now) }
    ensures front { OnErr result (take (length page.old) page.new ≡ page.old) }
{
    for item in taken {
        push_update_line(page, number, item)?;
    }
    Ok(())
}

// Appends the lines of the updates, where there are any.
fn push_update_lines(
    page: &mut Bytes,
    number: u64,
    taken: &Result<Row<Taken>, RoundFault>,
) -> Result<(), OutOfMemory>
    ensures ok { OnOk result (page.new ≡ page.old ++ update_lines number taken.now) }
    ensures front { OnErr result (take (length page.old) page.new ≡ page.old) }
{
    match taken {
        Ok(taken) => push_each_update(page, number, taken.as_slice()),
        Err(_) => Ok(()),
    }
}

/// Appends the lines of a round: the first one, and then one for each update in the order of the answer. After an `Err` the page begins as it was.
pub fn push_round(page: &mut Bytes, number: u64, end: &RoundEnd) -> Result<(), OutOfMemory>
    ensures ok { OnOk result (page.new ≡ page.old ++ round_lines number end.now) }
    ensures front { OnErr result (take (length page.old) page.new ≡ page.old) }
{
    push_round_line(page, number, end)?;
    push_update_lines(page, number, &end.taken)
}
