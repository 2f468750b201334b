ghost use Rattle.std.specs.Prelude.{◌≡◌, ◌++◌, ◌∷◌, [], Ok, codes, decimal, length, take, OnOk, OnErr};
ghost use Rattle.client_store.specs.Printed.{store_cause_text};
ghost use Rattle.sb_model.specs.Names.{same_name};
ghost use Rattle.update_run.specs.Printed.{has_update_for, list_line, not_answered, not_answered_line, not_answered_lines, saved_line};

use client_store::{StoreFault, push_store_cause};
use sb_model::{Bytes, ListName, OutOfMemory, Row};
use sb_round::{RoundFault, Taken, push_name};
use update_client::{HeldList, push_token};

/// Appends the line of a store that is ignored.
pub(crate) fn push_ignored_line(page: &mut Bytes, fault: &StoreFault) -> Result<(), OutOfMemory>
    ensures ok { OnOk result (page.new ≡ page.old ++ (codes "store ignored: " ++ store_cause_text fault.now ++ 10 ∷ [])) }
    ensures front { OnErr result (take (length page.old) page.new ≡ page.old) }
{
    page.append(b"store ignored: ")?;
    push_store_cause(page, fault)?;
    page.push(b'\n')
}

/// Appends the line of a store that was replaced in the round of this number.
pub(crate) fn push_saved_line(page: &mut Bytes, number: u64) -> Result<(), OutOfMemory>
    ensures ok { OnOk result (page.new ≡ page.old ++ saved_line number) }
    ensures front { OnErr result (take (length page.old) page.new ≡ page.old) }
{
    page.append(b"round ")?;
    page.append_decimal(number)?;
    page.append(b" saved\n")
}

fn same(first: ListName, second: ListName) -> bool
    ensures { result ≡ same_name first second }
{
    first == second
}

/// Whether one of these updates is that of a list.
fn is_answered(taken: &[Taken], name: ListName) -> bool
    ensures { result ≡ has_update_for taken.now name }
{
    taken.iter().any(|one| same(one.name, name))
}

/// Appends the line of a list for which the answer of the round of this number had no update.
fn push_not_answered_line(page: &mut Bytes, number: u64, name: ListName) -> Result<(), OutOfMemory>
    ensures { OnOk result (page.new ≡ page.old ++ not_answered_line number name) }
{
    page.append(b"round ")?;
    page.append_decimal(number)?;
    page.push(b' ')?;
    push_name(page, name)?;
    page.append(b" not-answered\n")
}

/// Appends the lines of the lists that are not among these updates, in the order of the lists.
fn push_each_not_answered(
    page: &mut Bytes,
    number: u64,
    lists: &[HeldList],
    taken: &[Taken],
) -> Result<(), OutOfMemory>
    ensures { OnOk result (page.new ≡ page.old ++ not_answered_lines number (not_answered lists.now (Ok taken.now))) }
{
    for held in lists {
        if !is_answered(taken, held.name) {
            push_not_answered_line(page, number, held.name)?;
        }
    }
    Ok(())
}

/// Appends the lines of the lists for which the answer of the round of this number had no update, in the order of the lists, and none
/// where the round brought no answer.
pub(crate) fn push_not_answered(
    page: &mut Bytes,
    number: u64,
    lists: &[HeldList],
    taken: &Result<Row<Taken>, RoundFault>,
) -> Result<(), OutOfMemory>
    ensures { OnOk result (page.new ≡ page.old ++ not_answered_lines number (not_answered lists.now taken.now)) }
{
    match taken {
        Ok(taken) => push_each_not_answered(page, number, lists, taken.as_slice()),
        Err(_) => Ok(()),
    }
}

/// Appends the line of a list: its name, how many prefixes it has, and its state token. After an `Err` the page begins as it was.
pub fn push_list_line(page: &mut Bytes, held: &HeldList) -> Result<(), OutOfMemory>
    ensures ok { OnOk result (page.new ≡ page.old ++ list_line held.now) }
    ensures front { OnErr result (take (length page.old) page.new ≡ page.old) }
{
    page.append(b"list ")?;
    push_name(page, held.name)?;
    page.push(b' ')?;
    page.append_decimal(u64::from(held.set.len()))?;
    page.push(b' ')?;
    push_token(page, held.token.as_slice())?;
    page.push(b'\n')
}
