ghost use Rattle.std.specs.Prelude.{◌≡◌, ◌⊎◌, ◌++◌, [], ◌∷◌, Option, Some, None, Ok, IfOk, IfErr, OnOk};
ghost use Rattle.serde_json.specs.Data.{Data};
ghost use Rattle.serde_json.specs.View.{view, items_view};
ghost use Rattle.sb_json.specs.declared.faults.FieldFault.{FieldFault};
ghost use Rattle.sb_members.specs.Lists.{first_of_items, fault_of_list, first_from};
ghost use Rattle.sb_members.specs.Somes.{somes, ReadsSome};
ghost use Rattle.sb_members.specs.Rows as row;

use crate::rows::items_or_none;
use sb_json::{Field, FieldFault, MessageFault};
use sb_model::{OutOfMemory, Row};
use serde_json::Value;
use std::alloc::Global;

/// How an item of a list is read that may stand for nothing. `Reads` says what an item is, or that it is
/// nothing, and `fault` why it is neither.
pub trait ReadSome {
    /// What an item is read as that stands for something.
    type Found: Drop;

    ghost Reads: { Data → Option Self.Found → Type 0 };

    ghost fault: { Data → Option FieldFault };

    /// Reads one item.
    fn read_some(alloc: Global, item: &Value) -> Result<Option<Self::Found>, FieldFault>
        ensures ok { IfOk result (λ found. Reads (view item.now) found) }
        ensures clean { IfOk result (λ _. fault (view item.now) ≡ None) }
        ensures err { IfErr result (λ cause. (cause ≡ FieldFault.OutOfMemory)
            ⊎ (fault (view item.now) ≡ Some cause)) };
}

/// Puts a value behind the others, where there is one.
fn push_some<T: Drop>(found: &mut Row<T>, value: Option<T>) -> Result<(), OutOfMemory>
    ensures { OnOk result (found.new ≡ found.old ++ somes (value ∷ [])) }
{
    match value {
        Some(value) => found.push(value),
        None => Ok(()),
    }
}

/// Reads items one after another, up to the first that has a fault, and keeps those that are something.
fn read_some_items<R: ReadSome>(alloc: Global, items: &[Value]) -> Result<Row<R::Found>, FieldFault>
    ensures ok { IfOk result (λ found. ReadsSome R.Reads (Ok (items_view items.now)) found) }
    ensures clean { IfOk result (λ _. first_of_items R.fault (items_view items.now) ≡ None) }
    ensures err { IfErr result (λ cause. (cause ≡ FieldFault.OutOfMemory)
        ⊎ (first_of_items R.fault (items_view items.now) ≡ Some cause)) }
{
    let mut found = Row::with_capacity(alloc, items.len())?;
    for item in items {
        push_some(&mut found, R::read_some(alloc, item)?)?;
    }
    Ok(found)
}

/// Reads the items of a list, of which there are none where it is absent, and keeps those that are
/// something.
pub fn read_some_list<R: ReadSome>(
    alloc: Global,
    holder: &Value,
    name: Field,
) -> Result<Row<R::Found>, FieldFault>
    ensures ok { IfOk result (λ found.
        ReadsSome R.Reads (row.items_or_none name (view holder.now)) found) }
    ensures clean { IfOk result (λ _.
        fault_of_list R.fault (row.items_or_none name (view holder.now)) ≡ None) }
    ensures err { IfErr result (λ cause. (cause ≡ FieldFault.OutOfMemory)
        ⊎ (fault_of_list R.fault (row.items_or_none name (view holder.now)) ≡ Some cause)) }
{
    read_some_items::<R>(alloc, items_or_none(holder, name)?)
}

/// Reads items that count from 1, and keeps those that are something; a fault tells the number of its
/// item among all. There is room for `room` from the start, and more is taken as it is needed.
pub fn read_some_numbered_items<R: ReadSome>(
    alloc: Global,
    items: &[Value],
    room: usize,
) -> Result<Row<R::Found>, MessageFault>
    ensures ok { IfOk result (λ found. ReadsSome R.Reads (Ok (items_view items.now)) found) }
    ensures clean { IfOk result (λ _. first_from R.fault 1 (items_view items.now) ≡ None) }
    ensures err { IfErr result (λ cause. (cause ≡ MessageFault.OutOfMemory)
        ⊎ (first_from R.fault 1 (items_view items.now) ≡ Some cause)) }
{
    let mut found = Row::with_capacity(alloc, room)?;
    for (i, item) in items.iter().enumerate() {
        match R::read_some(alloc, item) {
            Ok(value) => push_some(&mut found, value)?,
            Err(cause) => return Err(MessageFault::of(cause, i as u64 + 1)),
        }
    }
    Ok(found)
}
