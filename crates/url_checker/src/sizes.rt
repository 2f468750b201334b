ghost use Rattle.std.specs.Prelude.{ℕ, ◌≡◌, ◌<◌, ◌≤◌, true, false, length, slice_index_or};
ghost use Rattle.url_checker.specs.Hits.{Marks, MarksAll, IsPastMarks};

use update_client::{ClientLists, HeldList};

/// The sizes that prefixes of some lists have. No other size is looked up.
#[derive(Clone, Copy, Debug)]
pub struct Sizes {
    /// For each number up to 32 whether some prefix has so many bytes.
    pub marks: [bool; 33],
}

// Marks these sizes, and leaves the others.
fn mark(marks: &mut [bool; 33], own: &[bool; 33])
    requires long { length marks.old ≡ 33 }
    ensures marked { (size : ℕ) → size < 33 → slice_index_or own.now size false ≡ true
        → slice_index_or marks.new size false ≡ true }
    ensures left { (size : ℕ) → slice_index_or marks.old size false ≡ true → slice_index_or marks.new size false ≡ true }
    ensures long { length marks.new ≡ 33 }
{
    for size in 0..33 {
        if own[size] {
            marks[size] = true;
        }
    }
}

// Marks the sizes of a list's prefixes, and leaves the others.
fn mark_list(marks: &mut [bool; 33], held: &HeldList)
    requires long { length marks.old ≡ 33 }
    ensures marked { Marks marks.new held.now }
    ensures left { (size : ℕ) → slice_index_or marks.old size false ≡ true → slice_index_or marks.new size false ≡ true }
    ensures long { length marks.new ≡ 33 }
{
    let own = held.set.sizes();
    mark(marks, &own);
}

// The sizes of the prefixes on some lists.
fn marks_on(lists: &[HeldList]) -> [bool; 33]
    ensures { MarksAll result lists.now }
{
    let mut marks = [false; 33];
    for held in lists {
        mark_list(&mut marks, held);
    }
    marks
}

/// A size from 4 on, past all that are marked from there on.
pub(crate) fn past_marks(marks: &[bool; 33]) -> u8
    ensures past { IsPastMarks marks.now result }
    ensures at_least { 4 ≤ result }
    ensures at_most { result ≤ 33 }
{
    let mut past: u8 = 33;
    while past > 4 && !marks[past as usize - 1] {
        past -= 1;
    }
    past
}

/// The sizes of the prefixes on the lists of a client. A list whose prefixes have several sizes is gone through once.
pub fn sizes_on(lists: &ClientLists) -> Sizes
    ensures { MarksAll result.marks lists.now }
{
    Sizes {
        marks: marks_on(lists.lists()),
    }
}
