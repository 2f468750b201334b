ghost use Rattle.std.specs.Prelude.{◌≡◌, ◌++◌, map, IfOk};
ghost use Rattle.sb_model.specs.Difference.{added_members};
ghost use Rattle.sb_model.specs.Prefixes.{set_of};
ghost use Rattle.list_versions.specs.Live.{shown};
ghost use Rattle.list_versions.specs.Numbers.{AreNumbersOf};
ghost use Rattle.list_versions.specs.Shifting.{AreShifted};

use crate::leading::{push_lost_of, set_from};
use crate::numbers::numbers_of;
use crate::toggling::toggled;
use prefix_set::PrefixSet;
use sb_model::{Added, OutOfMemory};
use std::alloc::Global;

// The prefixes that one of two sets has and the other lacks: those of what went that the newer set lacks, and those of
// what came that the older set lacks.
fn changed_of(
    alloc: Global,
    older: &PrefixSet,
    newer: &PrefixSet,
    went: &[Added],
    came: &[Added],
) -> Result<PrefixSet, OutOfMemory>
    ensures { IfOk result (λ changed. changed
        ≡ set_of (added_members newer.now (map shown went.now) ++ added_members older.now (map shown came.now))) }
{
    let mut changed = Vec::new(alloc);
    push_lost_of(&mut changed, newer, went)?;
    push_lost_of(&mut changed, older, came)?;
    set_from(alloc, changed.as_slice())
}

/// The numbers of a newer set, of those of an older one. Those of few prefixes change, and only these are sorted.
pub(crate) fn renumbered(
    alloc: Global,
    numbers: &[u32],
    older: &PrefixSet,
    newer: &PrefixSet,
    went: &[Added],
    came: &[Added],
) -> Result<Vec<u32>, OutOfMemory>
    requires numbers { AreNumbersOf older.now numbers.now }
    requires shifted { AreShifted older.now newer.now (map shown went.now) (map shown came.now) }
    ensures { IfOk result (λ renumbered. AreNumbersOf newer.now renumbered.items) }
{
    let changed = changed_of(alloc, older, newer, went, came)?;
    let few = numbers_of(alloc, &changed)?;
    toggled(alloc, numbers, few.as_slice())
}
