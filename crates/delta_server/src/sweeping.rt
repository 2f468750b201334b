ghost use Rattle.std.specs.Prelude.{◌≡◌, ℕ, ◌+◌, ◌-◌, ◌*◌, ◌^◌, ◌<◌, ◌≤◌, List, [], ◌∷◌, ◌++◌, length, filter, All, IfOk};
ghost use Rattle.sb_model.specs.Difference.{has_member};
ghost use Rattle.sb_model.specs.Target.{greatest_up_to};
ghost use Rattle.list_versions.specs.declared.stretch.Stretch.{Stretch as Span};
ghost use Rattle.list_versions.specs.Stretches.{AreInOrder};
ghost use Rattle.delta_server.specs.Sweeping.{HasPlacesBetween, HasSwept, NameFourBytes, IsLevel, IsLevelOf, shown_at};
ghost use Rattle.delta_server.specs.Walk.{may_take};

use crate::covered::Covered;
use crate::marks::Marks;
use crate::version::is_within;
use list_versions::Stretch;
use prefix_set::sets_go_by_members;
use sb_model::OutOfMemory;
use std::alloc::Global;

/// How many prefixes a list has at each version from a first one on, and how many of them it has at
/// the first.
#[derive(Drop)]
pub(crate) struct Sweep {
    pub(crate) covered: Covered,
    pub(crate) all: Marks,
    pub(crate) shared: Marks,
}

impl Sweep {
    // No stretch, with places for the versions from a first one to an end.
    fn new(alloc: Global, first: u32, end: u32) -> Result<Sweep, OutOfMemory>
        requires { first ≤ end }
        ensures room { IfOk result (λ sweep. HasPlacesBetween sweep first end) }
        ensures swept { IfOk result (λ sweep. (held : List (List ℕ)) → HasSwept sweep first end held []) }
    {
        let places = (end - first) as usize + 1;
        Ok(Sweep {
            covered: Covered::nothing(first),
            all: Marks::new(alloc, places)?,
            shared: Marks::new(alloc, places)?,
        })
    }

    // Takes the next stretch in.
    fn take(&mut self, stretch: &Stretch, first: u32, end: u32)
        requires room { HasPlacesBetween self.old first end }
        requires from { stretch.now.from ≤ end }
        ensures room { HasPlacesBetween self.new first end }
        ensures swept { (done rest : List Span) → first < end → length done < 2 ^ 63
            → AreInOrder (done ++ stretch.now ∷ rest) → NameFourBytes (done ++ stretch.now ∷ rest)
            → HasSwept self.old first end (shown_at (done ++ stretch.now ∷ rest) first) done
            → HasSwept self.new first end (shown_at (done ++ stretch.now ∷ rest) first) (done ++ stretch.now ∷ []) }
    {
        sets_go_by_members();
        self.covered = self.covered.next(stretch, first, end);
        let begin = (self.covered.begin - first) as usize;
        let stop = (self.covered.reach - first) as usize;
        self.all.mark(begin, stop);
        if self.covered.held {
            self.shared.mark(begin, stop);
        }
    }
}

/// Goes through the stretches of a list in order, and counts the prefixes at each version from a
/// first one to an end, before which it stops.
pub(crate) fn sweep_of(
    alloc: Global,
    stretches: &[Stretch],
    first: u32,
    end: u32,
) -> Result<Sweep, OutOfMemory>
    requires some { first < end }
    requires order { AreInOrder stretches.now }
    requires heads { NameFourBytes stretches.now }
    requires from { All (λ stretch. stretch.from ≤ end) stretches.now }
    ensures room { IfOk result (λ sweep. HasPlacesBetween sweep first end) }
    ensures swept { IfOk result (λ sweep. HasSwept sweep first end (shown_at stretches.now first) stretches.now) }
{
    let mut sweep = Sweep::new(alloc, first, end)?;
    for stretch in stretches {
        sweep.take(stretch, first, end);
    }
    Ok(sweep)
}

/// How many prefixes a list has at a version, and how many of them it has at the first version of a
/// sweep.
#[derive(Clone, Copy)]
pub(crate) struct Level {
    pub(crate) len: u64,
    pub(crate) shared: u64,
}

impl Level {
    // Goes on to the version at a place, from the one before it.
    fn next(self, sweep: &Sweep, place: usize, first: u32, end: u32) -> Level
        requires room { HasPlacesBetween sweep.now first end }
        requires within { place < end - first }
        ensures stands { (held : List (List ℕ)) (stretches : List Span) → HasSwept sweep.now first end held stretches
            → length stretches < 2 ^ 63 → IsLevel self sweep.now place → IsLevel result sweep.now (place + 1) }
        ensures counts { (held : List (List ℕ)) (stretches : List Span) → HasSwept sweep.now first end held stretches
            → length stretches < 2 ^ 63 → IsLevel self sweep.now place
            → IsLevelOf result held (shown_at stretches (first + place)) }
    {
        sets_go_by_members();
        Level {
            len: sweep.all.level(place, self.len),
            shared: sweep.shared.level(place, self.shared),
        }
    }

    // How many prefixes are in exactly one of two sets, if one has so many.
    fn differing(&self, held: u64) -> u64
        ensures { held < 2 ^ 63 → self.now.len < 2 ^ 63 → self.now.shared < 2 ^ 63 → result ≡ held + self.now.len - 2 * self.now.shared }
    {
        held.saturating_add(self.len)
            .saturating_sub(self.shared.saturating_mul(2))
    }

    // Whether the holder of so many prefixes may be brought to the version.
    fn may_take(&self, held: u64, max_update: u32, max_database: u32) -> bool
        ensures { (old : List (List ℕ)) (stretches : List Span) (version : ℕ) → held ≡ length old → length old < 2 ^ 63
            → (first : ℕ) → old ≡ shown_at stretches first → length stretches < 2 ^ 63
            → IsLevelOf self.now old (shown_at stretches version)
            → result ≡ may_take old max_update max_database (shown_at stretches version) }
    {
        sets_go_by_members();
        is_within(max_update, self.differing(held)) && is_within(max_database, self.len)
    }
}

// The greatest of the places that the holder of the first version may be brought to, 0 if there is
// none, where the first version is.
fn greatest_place(sweep: &Sweep, first: u32, end: u32, max_update: u32, max_database: u32) -> u64
    requires room { HasPlacesBetween sweep.now first end }
    requires some { first < end }
    ensures { (stretches : List Span) → length stretches < 2 ^ 63 → HasSwept sweep.now first end (shown_at stretches first) stretches
        → result ≡ greatest_up_to (λ place. may_take (shown_at stretches first) max_update max_database (shown_at stretches (first + place))) (end - first - 1) }
{
    let none = Level { len: 0, shared: 0 };
    let start = none.next(sweep, 0, first, end);
    let held = start.len;
    let mut level = none;
    let mut greatest = 0;
    for place in 0..(end - first) as usize {
        level = level.next(sweep, place, first, end);
        if level.may_take(held, max_update, max_database) {
            greatest = place as u64;
        }
    }
    greatest
}

/// How many versions after a first one the holder of the first is brought to, told by the stretches
/// of the list: the most within the update limit and the database limit, 0 for no limit.
pub(crate) fn versions_taken(
    alloc: Global,
    stretches: &[Stretch],
    first: u32,
    end: u32,
    max_update: u32,
    max_database: u32,
) -> Result<u64, OutOfMemory>
    requires some { first < end }
    requires order { AreInOrder stretches.now }
    requires heads { NameFourBytes stretches.now }
    requires from { All (λ stretch. stretch.from ≤ end) stretches.now }
    ensures { IfOk result (λ taken. taken ≡ greatest_up_to
        (λ place. may_take (shown_at stretches.now first) max_update max_database (shown_at stretches.now (first + place))) (end - first - 1)) }
{
    let sweep = sweep_of(alloc, stretches, first, end)?;
    Ok(greatest_place(&sweep, first, end, max_update, max_database))
}
