ghost use Rattle.std.specs.Prelude.{◌≡◌, ◌<◌, ◌^◌, length, IfOk};
ghost use Rattle.sb_journal.specs.Records.{last_lines, records_of};
ghost use Rattle.sb_journal.specs.Texts.{records_text};
ghost use Rattle.journal_run.specs.Changed.{change_reply};

use crate::command::ChangeLine;
use crate::reply::Reply;
use sb_journal::{Edits, HashLine, last_lines, push_records, read_edits};
use sb_model::{Bytes, ListName, OutOfMemory};
use std::alloc::Global;

/// The text of records that have the last of these lines of each hash.
fn lines_text(
    alloc: Global,
    list: ListName,
    sized: bool,
    lines: Vec<HashLine>,
) -> Result<Bytes, OutOfMemory>
    ensures { IfOk result (λ text. text ≡ records_text sized (records_of list (last_lines lines.items))) }
{
    let lines = last_lines(alloc, lines)?;
    let mut page = Bytes::new(alloc);
    push_records(alloc, &mut page, sized, list, lines.as_slice())?;
    Ok(page)
}

/// What an input of lines with signs comes to.
pub(crate) fn change_reply(
    alloc: Global,
    line: &ChangeLine,
    input: &[u8],
) -> Result<Reply, OutOfMemory>
    requires { length input.now < 2 ^ 32 }
    ensures { IfOk result (λ reply. reply ≡ change_reply line.now input.now) }
{
    let edits = read_edits(alloc, line.size.unwrap_or(4), input)?;
    let Edits {
        lines,
        refusals,
        has_refused,
    } = edits;
    if has_refused && !line.skip {
        return Ok(Reply::refused(refusals));
    }
    let text = lines_text(alloc, line.list, line.size.is_some(), lines)?;
    Ok(Reply::done(text))
}
