ghost use Rattle.input_lines.specs.Lines.{numbered};
ghost use Rattle.std.specs.Prelude.{◌≡◌, ◌++◌, codes, decimal, length, OnOk};
ghost use Rattle.sb_json.specs.Printed.{message_cause_text};
ghost use Rattle.sb_round.specs.Printed.{taken_text};
ghost use Rattle.update_replay.specs.Printed.{prefix_line};

use hash_prefixes::append_hex;
use sb_json::{MessageFault, push_message_cause};
use sb_model::{Bytes, ListName, OutOfMemory};
use sb_round::push_taken;
use update_client::ListResult;

fn push_number_first(page: &mut Bytes, number: u64) -> Result<(), OutOfMemory>
    ensures { OnOk result (page.new ≡ page.old ++ (decimal number ++ codes " ")) }
{
    page.append_decimal(number)?;
    page.push(b' ')
}

/// Appends the line of a body that has no reading.
pub(crate) fn push_unreadable_line(
    page: &mut Bytes,
    number: u64,
    fault: &MessageFault,
) -> Result<(), OutOfMemory>
    ensures { OnOk result (page.new ≡ page.old ++ numbered number (codes "unreadable " ++ message_cause_text fault.now)) }
{
    push_number_first(page, number)?;
    page.append(b"unreadable ")?;
    push_message_cause(page, fault)?;
    page.push(b'\n')
}

/// Appends the line of an update.
pub(crate) fn push_taken_line(
    page: &mut Bytes,
    number: u64,
    name: ListName,
    update: &ListResult,
) -> Result<(), OutOfMemory>
    ensures { OnOk result (page.new ≡ page.old ++ numbered number (taken_text name update.now)) }
{
    push_number_first(page, number)?;
    push_taken(page, name, update)?;
    page.push(b'\n')
}

// The line of a prefix of four bytes, of which lists have the most.
#[inline]
fn push_line_of_four(page: &mut Bytes, prefix: &[u8]) -> Result<(), OutOfMemory>
    requires { length prefix.now ≡ 4 }
    ensures { OnOk result (page.new ≡ page.old ++ prefix_line prefix.now) }
{
    let mut line = [b'\n'; 9];
    hex::encode_to_slice(prefix, &mut line[..8]).unwrap();
    page.append(&line)
}

/// Appends the line of a prefix.
pub(crate) fn push_prefix_line(page: &mut Bytes, prefix: &[u8]) -> Result<(), OutOfMemory>
    ensures { OnOk result (page.new ≡ page.old ++ prefix_line prefix.now) }
{
    if prefix.len() == 4 {
        return push_line_of_four(page, prefix);
    }
    append_hex(page, prefix)?;
    page.push(b'\n')
}
