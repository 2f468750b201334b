ghost use Rattle.std.specs.Prelude.{◌≡◌, ◌++◌, length, take, OnOk, OnErr};
ghost use Rattle.sb_model.specs.Names.{text_of};
ghost use Rattle.sb_round.specs.Printed.{result_text, taken_text};

use sb_model::{Bytes, ListName, OutOfMemory};
use update_client::{ListResult, push_update_cause};

/// Appends a list's name. After an `Err` the page begins as it was.
pub fn push_name(page: &mut Bytes, name: ListName) -> Result<(), OutOfMemory>
    ensures ok { OnOk result (page.new ≡ page.old ++ text_of name) }
    ensures front { OnErr result (take (length page.old) page.new ≡ page.old) }
{
    page.append(name.threat.word().as_bytes())?;
    page.push(b'/')?;
    page.append(name.platform.word().as_bytes())?;
    page.push(b'/')?;
    page.append(name.entry.word().as_bytes())
}

fn push_result(page: &mut Bytes, update: &ListResult) -> Result<(), OutOfMemory>
    ensures ok { OnOk result (page.new ≡ page.old ++ result_text update.now) }
    ensures front { OnErr result (take (length page.old) page.new ≡ page.old) }
{
    match update {
        ListResult::Installed(entries) => {
            page.append(b"installed ")?;
            page.append_decimal(u64::from(*entries))
        }
        ListResult::Refused(fault) => {
            page.append(b"refused ")?;
            push_update_cause(page, fault)
        }
        ListResult::NotKept => page.append(b"not-kept"),
    }
}

/// Appends a list's name and what became of its update. After an `Err` the page begins as it was.
pub fn push_taken(page: &mut Bytes, name: ListName, update: &ListResult) -> Result<(), OutOfMemory>
    ensures ok { OnOk result (page.new ≡ page.old ++ taken_text name update.now) }
    ensures front { OnErr result (take (length page.old) page.new ≡ page.old) }
{
    push_name(page, name)?;
    page.push(b' ')?;
    push_result(page, update)
}
