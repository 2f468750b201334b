ghost use Rattle.std.specs.Prelude.{◌≡◌, OnOk, IfOk};
ghost use Rattle.update_client.specs.Held.{with_name};
ghost use Rattle.url_checker.specs.Resolving.{lists_hit};

use crate::Hit;
use sb_model::{ListName, OutOfMemory, Row};
use std::alloc::Global;
use std::cmp::Ordering;

// Puts a name among rising ones, where it does not stand yet.
fn put_name(names: &mut Vec<ListName>, name: ListName) -> Result<(), OutOfMemory>
    ensures { OnOk result (names.new.items ≡ with_name name names.old.items) }
{
    let mut place = 0;
    while place < names.len() {
        match name.compare(names[place]) {
            Ordering::Less => break,
            Ordering::Equal => return Ok(()),
            Ordering::Greater => place += 1,
        }
    }
    names.insert(place, name)?;
    Ok(())
}

/// The lists of hits, in the order of their names, each once. There are at most 64 names.
pub(crate) fn lists_of(alloc: Global, hits: &[Hit]) -> Result<Row<ListName>, OutOfMemory>
    ensures { IfOk result (λ names. names ≡ lists_hit hits.now) }
{
    let mut names = Vec::new(alloc);
    let mut left = hits.len();
    while left > 0 {
        left -= 1;
        put_name(&mut names, hits[left].list)?;
    }
    Ok(Row::from_vec(names))
}
