ghost use Rattle.std.specs.Prelude.{◌≡◌, OnOk, IfOk};
ghost use Rattle.update_client.specs.Held.{with_name, in_order};

use sb_model::{ListName, OutOfMemory};
use std::alloc::Global;
use std::cmp::Ordering;

// Puts a name among rising ones, where it does not stand yet.
fn put_name(names: &mut Vec<ListName>, name: ListName) -> Result<(), OutOfMemory>
    ensures { OnOk result (names.new.items ≡ with_name name names.old.items) }
{
    let mut place = 0;
    while place < names.len() {
        match name.compare(names[place]) {
            Ordering::Less => break,
            Ordering::Equal => return Ok(()),
            Ordering::Greater => place += 1,
        }
    }
    names.insert(place, name)?;
    Ok(())
}

/// Names in their order.
pub(crate) fn ordered(alloc: Global, names: &[ListName]) -> Result<Vec<ListName>, OutOfMemory>
    ensures { IfOk result (λ ordered. ordered.items ≡ in_order names.now) }
{
    let mut ordered = Vec::with_capacity(alloc, names.len())?;
    let mut left = names.len();
    while left > 0 {
        left -= 1;
        put_name(&mut ordered, names[left])?;
    }
    Ok(ordered)
}
