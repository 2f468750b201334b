ghost use Rattle.std.specs.Prelude.{◌≡◌, ℕ, ◌+◌, ◌-◌, ◌<◌, ◌≤◌, ◌++◌, length, IfOk};
ghost use Rattle.rice_coding.specs.Bits.{bits_from};
ghost use Rattle.rice_coding.specs.Reading.{reading};

use crate::place::{Place, take_pair};
use sb_model::{OutOfMemory, Row};

/// The codes that are still to be read.
#[derive(Clone, Copy)]
pub struct Run<'a> {
    /// Where the first of them stands.
    pub at: Place<'a>,
    /// How many there are.
    pub left: u32,
    /// The number before them.
    pub value: u32,
}

/// Appends the numbers of so many codes, as long as two at a time stand whole in one window, and
/// gives the codes that are left.
#[inline(never)]
pub fn read_run<'a>(
    start: Place<'a>,
    count: u32,
    first: u32,
    parameter: u32,
    values: &mut Row<u32>,
) -> Result<Run<'a>, OutOfMemory>
    requires few { parameter ≤ 28 }
    ensures left { IfOk result (λ run. run.left ≤ count) }
    ensures longer { length values.old ≤ length values.new }
    ensures values { IfOk result (λ run. (entry : ℕ) → values.new
        ++ (reading parameter run.left (entry + (count - run.left)) run.value
        (bits_from run.at.bytes.now run.at.bit)).values
        ≡ values.old ++ (reading parameter count entry first
        (bits_from start.entry.bytes.now start.entry.bit)).values) }
    ensures fault { IfOk result (λ run. (entry : ℕ) →
        (reading parameter run.left (entry + (count - run.left)) run.value
        (bits_from run.at.bytes.now run.at.bit)).fault
        ≡ (reading parameter count entry first
        (bits_from start.entry.bytes.now start.entry.bit)).fault) }
{
    let mut at = start;
    let mut left = count;
    let mut value = first;
    while left > 1 {
        let Some(pair) = take_pair(at, parameter) else {
            break;
        };
        let next = u64::from(value) + pair.first;
        let last = next + pair.second;
        if last > u64::from(u32::MAX) {
            break;
        }
        values.push(next as u32)?;
        values.push(last as u32)?;
        at = pair.after;
        left -= 2;
        value = last as u32;
    }
    Ok(Run { at, left, value })
}
