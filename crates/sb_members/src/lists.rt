ghost use Rattle.std.specs.Prelude.{◌≡◌, ◌⊎◌, All, Option, Some, None, length, IfOk, IfErr};
ghost use Rattle.serde_json.specs.Data.{Data};
ghost use Rattle.serde_json.specs.View.{view, items_view};
ghost use Rattle.sb_json.specs.declared.faults.FieldFault.{FieldFault};
ghost use Rattle.sb_members.specs.Lists.{EachReads, ReadsList, first_of_items, fault_of_list, first_from};
ghost use Rattle.sb_members.specs.Rows as row;

use crate::rows::items_or_none;
use sb_json::{Field, FieldFault, MessageFault};
use sb_model::Row;
use serde_json::Value;
use std::alloc::Global;

/// How an item of a list is read. `Reads` says what an item is, `Keeps` what each such value keeps, and
/// `fault` why an item is none.
pub trait ReadItem {
    /// What an item is read as.
    type Found: Drop;

    ghost Reads: { Data → Self.Found → Type 0 };

    ghost Keeps: { Self.Found → Type 0 };

    ghost fault: { Data → Option FieldFault };

    /// Reads one item.
    fn read_item(alloc: Global, item: &Value) -> Result<Self::Found, FieldFault>
        ensures ok { IfOk result (λ found. Reads (view item.now) found) }
        ensures keeps { IfOk result (λ found. Keeps found) }
        ensures clean { IfOk result (λ _. fault (view item.now) ≡ None) }
        ensures err { IfErr result (λ cause. (cause ≡ FieldFault.OutOfMemory)
            ⊎ (fault (view item.now) ≡ Some cause)) };
}

/// Reads items one after another, up to the first that has a fault.
pub fn read_items<R: ReadItem>(alloc: Global, items: &[Value]) -> Result<Row<R::Found>, FieldFault>
    ensures ok { IfOk result (λ found. EachReads R.Reads (items_view items.now) found) }
    ensures keeps { IfOk result (λ found. All R.Keeps found) }
    ensures clean { IfOk result (λ _. first_of_items R.fault (items_view items.now) ≡ None) }
    ensures err { IfErr result (λ cause. (cause ≡ FieldFault.OutOfMemory)
        ⊎ (first_of_items R.fault (items_view items.now) ≡ Some cause)) }
{
    let mut found = Row::with_capacity(alloc, items.len())?;
    for item in items {
        found.push(R::read_item(alloc, item)?)?;
    }
    Ok(found)
}

/// Reads the items of a list, of which there are none where it is absent.
pub fn read_list<R: ReadItem>(
    alloc: Global,
    holder: &Value,
    name: Field,
) -> Result<Row<R::Found>, FieldFault>
    ensures ok { IfOk result (λ found.
        ReadsList R.Reads (row.items_or_none name (view holder.now)) found) }
    ensures keeps { IfOk result (λ found. All R.Keeps found) }
    ensures clean { IfOk result (λ _.
        fault_of_list R.fault (row.items_or_none name (view holder.now)) ≡ None) }
    ensures err { IfErr result (λ cause. (cause ≡ FieldFault.OutOfMemory)
        ⊎ (fault_of_list R.fault (row.items_or_none name (view holder.now)) ≡ Some cause)) }
{
    read_items::<R>(alloc, items_or_none(holder, name)?)
}

/// Reads items that count from 1, and a fault tells the number of its item.
pub fn read_numbered_items<R: ReadItem>(
    alloc: Global,
    items: &[Value],
) -> Result<Row<R::Found>, MessageFault>
    ensures ok { IfOk result (λ found. EachReads R.Reads (items_view items.now) found) }
    ensures keeps { IfOk result (λ found. All R.Keeps found) }
    ensures count { IfOk result (λ found. length found ≡ length items.now) }
    ensures clean { IfOk result (λ _. first_from R.fault 1 (items_view items.now) ≡ None) }
    ensures err { IfErr result (λ cause. (cause ≡ MessageFault.OutOfMemory)
        ⊎ (first_from R.fault 1 (items_view items.now) ≡ Some cause)) }
{
    let mut found = Row::with_capacity(alloc, items.len())?;
    for (i, item) in items.iter().enumerate() {
        match R::read_item(alloc, item) {
            Ok(value) => found.push(value)?,
            Err(cause) => return Err(MessageFault::of(cause, i as u64 + 1)),
        }
    }
    Ok(found)
}
