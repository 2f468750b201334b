ghost use Rattle.std.specs.Prelude.{◌≡◌, ℕ, ◌+◌, ◌-◌, ◌*◌, ◌/◌, ◌%◌, ◌^◌, ◌<◌, ◌≤◌, List, ◌++◌, length, map, All, OnOk, OnErr, IfOk};
ghost use Rattle.sb_model.specs.Prefixes.{concatenation};
ghost use Rattle.sb_model.specs.History.{IsPrefixSize};
ghost use Rattle.prefix_set.specs.Packing.{LaysOut, HaveSize, ends_from, even_ends};

use sb_model::OutOfMemory;
use std::alloc::Global;

/// How prefixes that stand one after the other are told apart.
#[derive(Debug, Drop)]
pub(crate) enum Layout {
    /// All have this size. Where there is no prefix it says nothing.
    Even { size: u8 },

    /// Where each ends, counted in bytes from the first.
    Mixed { ends: Vec<u32> },
}

// Appends the ends of so many prefixes of one size, the first of which begins at `start`.
fn push_even(ends: &mut Vec<u32>, start: u32, size: u8, count: usize) -> Result<(), OutOfMemory>
    requires { start + count * size < 2 ^ 32 }
    ensures ok { OnOk result (ends.new.items ≡ ends.old.items ++ even_ends start size count) }
    ensures err { OnErr result (ends.new.items ≡ ends.old.items) }
{
    ends.reserve(count)?;
    let mut end = start;
    for _i in 0..count {
        end += u32::from(size);
        ends.push(end)?;
    }
    Ok(())
}

// Appends ends that were counted from a string in which the first begins at `from`, where now it
// begins at `to`.
fn push_moved(ends: &mut Vec<u32>, cuts: &[u32], from: u32, to: u32) -> Result<(), OutOfMemory>
    requires after { All (λ cut. from ≤ cut) cuts.now }
    requires limit { All (λ cut. cut - from + to < 2 ^ 32) cuts.now }
    ensures ok { OnOk result
        (ends.new.items ≡ ends.old.items ++ map (λ cut. cut - from + to) cuts.now) }
    ensures err { OnErr result (ends.new.items ≡ ends.old.items) }
{
    ends.reserve(cuts.len())?;
    for cut in cuts {
        ends.push(*cut - from + to)?;
    }
    Ok(())
}

// The ends of the prefixes of one size that so many bytes hold.
fn ends_of_even(alloc: Global, size: u8, held: u32) -> Result<Vec<u32>, OutOfMemory>
    requires { 0 < size }
    ensures { IfOk result (λ ends. ends.items ≡ even_ends 0 size (held / size)) }
{
    let mut ends = Vec::new(alloc);
    push_even(&mut ends, 0, size, (held / u32::from(size)) as usize)?;
    Ok(ends)
}

impl Layout {
    /// Lays out members of one size that have so many bytes, after members that hold `held` bytes.
    #[inline]
    pub(crate) fn extend_even(
        &mut self,
        alloc: Global,
        held: u32,
        size: u8,
        added: usize,
    ) -> Result<(), OutOfMemory>
        requires laid_out { (members : List (List ℕ)) × LaysOut self.old members
            × (length (concatenation members) ≡ held) }
        requires size { IsPrefixSize size }
        requires whole { added % size ≡ 0 }
        requires limit { held + added < 2 ^ 32 }
        ensures ok { OnOk result ((members more : List (List ℕ)) → LaysOut self.old members
            → length (concatenation members) ≡ held → HaveSize size more
            → length (concatenation more) ≡ added → LaysOut self.new (members ++ more)) }
        ensures err { OnErr result ((members : List (List ℕ)) → LaysOut self.old members
            → LaysOut self.new members) }
    {
        match self {
            Layout::Mixed { ends } => push_even(ends, held, size, added / size as usize),
            Layout::Even { size: own } => {
                if *own == size || added == 0 {
                    return Ok(());
                }
                if held == 0 {
                    *own = size;
                    return Ok(());
                }
                let mut ends = ends_of_even(alloc, *own, held)?;
                push_even(&mut ends, held, size, added / size as usize)?;
                *self = Layout::Mixed { ends };
                Ok(())
            }
        }
    }

    /// Lays out members that were cut at these ends out of a string in which the first of them begins
    /// at `from`, after members that hold `held` bytes.
    pub(crate) fn extend_cut(
        &mut self,
        alloc: Global,
        held: u32,
        cuts: &[u32],
        from: u32,
    ) -> Result<(), OutOfMemory>
        requires laid_out { (members : List (List ℕ)) × LaysOut self.old members
            × (length (concatenation members) ≡ held) }
        requires after { All (λ cut. from ≤ cut) cuts.now }
        requires limit { All (λ cut. cut - from + held < 2 ^ 32) cuts.now }
        ensures ok { OnOk result ((members more : List (List ℕ)) → LaysOut self.old members
            → length (concatenation members) ≡ held → cuts.now ≡ ends_from from more
            → LaysOut self.new (members ++ more)) }
        ensures err { OnErr result ((members : List (List ℕ)) → LaysOut self.old members
            → LaysOut self.new members) }
    {
        match self {
            Layout::Mixed { ends } => push_moved(ends, cuts, from, held),
            Layout::Even { size } => {
                let mut ends = ends_of_even(alloc, *size, held)?;
                push_moved(&mut ends, cuts, from, held)?;
                *self = Layout::Mixed { ends };
                Ok(())
            }
        }
    }
}
