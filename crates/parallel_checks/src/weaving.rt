ghost use Rattle.std.specs.Prelude.{◌≡◌, ◌≢◌, ◌<◌, ◌+◌, ◌*◌, ℕ, List, length, slice_get, Some, IfOk};
ghost use Rattle.parallel_checks.specs.Working.{IsWoven, AreLong};
ghost use Rattle.url_checker.specs.declared.findings.Checked.{Checked};

use sb_model::{OutOfMemory, Row};
use std::alloc::Global;
use std::mem;
use url_canon::UrlFault;
use url_checker::Checked;

// Takes the check at a place of a row. What stands there from then on is not looked at.
fn take_at(row: &mut Row<Checked>, turn: usize) -> Checked
    requires { turn < length row.old }
    ensures taken { slice_get row.old turn ≡ Some result }
    ensures others { (other : ℕ) → other ≢ turn → slice_get row.new other ≡ slice_get row.old other }
{
    mem::replace(row.at_mut(turn), Checked::Refused(UrlFault::Empty))
}

/// So many checks in the order of the lines, from the rows of the seats.
pub(crate) fn weave(
    alloc: Global,
    mut rows: Row<Row<Checked>>,
    count: usize,
) -> Result<Row<Checked>, OutOfMemory>
    requires some { 0 < length rows }
    requires long { AreLong rows count }
    ensures count { IfOk result (λ woven. length woven ≡ count) }
    ensures woven { IfOk result (IsWoven rows) }
{
    let step = rows.len();
    let mut woven = Row::with_capacity(alloc, count)?;
    for index in 0..count {
        let check = take_at(rows.at_mut(index % step), index / step);
        woven.push(check)?;
    }
    Ok(woven)
}
